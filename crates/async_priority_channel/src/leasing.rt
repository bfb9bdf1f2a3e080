//! Leases that choose their message by a condition.
ghost use Rattle.std.specs.Prelude.{◌≡◌, true, false, None, IfOk, IfSome};
ghost use Rattle.priority_channel_core.specs.bag.Prelude.{Tells};
ghost use Rattle.priority_channel_waiting.specs.Seeking.{ComesDue};

use crate::lease::Lease;
use crate::receiver::Receiver;
use crate::waiting::{LeaseNextWhere, Seeking};
use priority_channel_calls::places::{TryLeaseIf, TryLeaseWhere};
use priority_channel_core::errors::{RecvFault, TryRecvManyError};
use priority_channel_waiting::seeking::{Due, LeaseWhen, LeaseWhere};
use priority_channel_waiting::selecting::Sight;
use priority_channel_waiting::timeouts::RecvTimeoutError;
use priority_channel_waiting::until::{Deadline, Endless};
use std::alloc::Allocator;
use std::sync::Wait;
use std::time::{Clock, Duration, Instant};

impl<T: Drop, P: Ord + Drop, R: Wait + Clone, A: Allocator + Copy> Receiver<T, P, R, A> {
    /// Leases the message of greatest priority, if the test returns true for it. Otherwise it
    /// returns `Ok(None)`, and the message stays pending. The errors are those of `try_lease`, and
    /// the test is called as by `try_recv_if`.
    ///
    /// Cost: one test under the lock, and as `try_lease`.
    ///
    /// ```
    /// let (tx, rx) = unbounded(&rt, rt.alloc())?;
    /// tx.try_send("reindex", 1)?;
    /// assert!(rt; rx.try_lease_if(|_, priority| *priority > 5)?.is_none());
    /// tx.try_send("page the admin", 9)?;
    /// let urgent = rx.try_lease_if(|_, priority| *priority > 5)?.expect(&rt, "none");
    /// assert_eq!(rt; urgent.finish(), ("page the admin", 9));
    /// ```
    pub fn try_lease_if<F: Fn(&T, &P) -> bool>(
        &self,
        test: F,
    ) -> Result<Option<Lease<'_, T, P, R, A>>, TryRecvManyError>
    where
        F: Drop,
        requires { F.IsAlwaysCallable test }
        ensures channel { IfOk result (λ leased. IfSome leased (λ lease.
            lease.channel ≡ self.now)) }
        ensures meets { IfOk result (λ leased. IfSome leased (λ lease.
            Tells F.Fn test lease.pair true)) }
    {
        match self.handle.call(TryLeaseIf { test: &test })? {
            Some(leased) => Ok(Some(Lease::of(&self.handle, leased))),
            None => Ok(None),
        }
    }

    /// Leases the most urgent message for which the test returns true, as `try_recv_where` chooses
    /// it. If messages are pending, but none for which it does, it returns `Ok(None)`. The errors
    /// are those of `try_lease`.
    ///
    /// Cost: as `try_recv_where`.
    ///
    /// ```
    /// let (tx, rx) = unbounded(&rt, rt.alloc())?;
    /// let jobs = [("compile", 2), ("link", 1), ("test", 3)];
    /// tx.try_sendv(jobs.into_iter().peekable())?;
    /// let lease = rx.try_lease_where(|job, _| *job == "link")?.expect(&rt, "none");
    /// assert_eq!(rt; *lease.message(), "link");
    /// drop(lease);
    /// assert_eq!(rt; rx.len(), 3);
    /// ```
    pub fn try_lease_where<F: Fn(&T, &P) -> bool>(
        &self,
        test: F,
    ) -> Result<Option<Lease<'_, T, P, R, A>>, TryRecvManyError>
    where
        F: Drop,
        requires { F.IsAlwaysCallable test }
        ensures channel { IfOk result (λ leased. IfSome leased (λ lease.
            lease.channel ≡ self.now)) }
        ensures meets { IfOk result (λ leased. IfSome leased (λ lease.
            Tells F.Fn test lease.pair true)) }
    {
        match self.handle.call(TryLeaseWhere { test: &test })? {
            Some(leased) => Ok(Some(Lease::of(&self.handle, leased))),
            None => Ok(None),
        }
    }

    /// Leases the first pending message once it is due, as `recv_when_blocking` receives it. A job
    /// that has failed can so be put back with a later instant as its priority, and is tried again
    /// then. The errors are those of `lease_blocking`.
    ///
    /// Cost: as `recv_when_blocking`.
    ///
    /// ```
    /// let (tx, rx) = unbounded(&rt, rt.alloc())?;
    /// let now = Instant::now(&rt)?;
    /// tx.try_send("call back", Reverse(now))?;
    /// let later = now.checked_add(Duration::from_millis(5)).expect(&rt, "too late");
    /// rx.lease_when_blocking(|_, due| Due::At(due.0))?.put_back(Reverse(later));
    /// rx.lease_when_blocking(|_, due| Due::At(due.0))?.finish();
    /// assert!(rt; later <= Instant::now(&rt)?);
    /// ```
    pub fn lease_when_blocking<F: Fn(&T, &P) -> Due>(
        &self,
        when: F,
    ) -> Result<Lease<'_, T, P, R, A>, RecvFault>
    where
        F: Drop,
        R: Clock,
        requires { F.IsAlwaysCallable when }
        ensures channel { IfOk result (λ lease. lease.channel ≡ self.now) }
        ensures due { IfOk result (λ lease. ComesDue F.Fn when lease.pair) }
    {
        let clock = self.handle.rt();
        let leased = self
            .handle
            .wait_sought(&LeaseWhen { when, clock }, &Endless)?;
        Ok(Lease::of(&self.handle, leased))
    }

    /// As `lease_when_blocking`, but waits no longer than `timeout`, as `recv_timeout` does.
    ///
    /// Cost: as `lease_when_blocking`, and readings of the clock.
    ///
    /// ```
    /// let (tx, rx) = unbounded(&rt, rt.alloc())?;
    /// tx.try_send("paused", 1)?;
    /// let limit = Duration::from_millis(5);
    /// let late = rx.lease_when_timeout(|_, _| Due::Never, limit);
    /// assert!(rt; late.is_err_and(|error| error.is_timeout()));
    /// let lease = rx.lease_when_timeout(|_, _| Due::Now, limit)?;
    /// assert_eq!(rt; lease.finish(), ("paused", 1));
    /// ```
    pub fn lease_when_timeout<F: Fn(&T, &P) -> Due>(
        &self,
        when: F,
        timeout: Duration,
    ) -> Result<Lease<'_, T, P, R, A>, RecvTimeoutError>
    where
        F: Drop,
        R: Clock,
        requires { F.IsAlwaysCallable when }
        ensures channel { IfOk result (λ lease. lease.channel ≡ self.now) }
        ensures due { IfOk result (λ lease. ComesDue F.Fn when lease.pair) }
    {
        let clock = self.handle.rt();
        let deadline = Deadline::after(clock, timeout);
        let leased = self
            .handle
            .wait_sought(&LeaseWhen { when, clock }, &deadline)?;
        Ok(Lease::of(&self.handle, leased))
    }

    /// As `lease_when_timeout`, but waits no longer than until `deadline`.
    ///
    /// Cost: as `lease_when_timeout`.
    ///
    /// ```
    /// let (tx, rx) = unbounded(&rt, rt.alloc())?;
    /// tx.try_send("Foo", 0)?;
    /// let now = Instant::now(&rt)?;
    /// let lease = rx.lease_when_deadline(|_, _| Due::At(now), now)?;
    /// assert_eq!(rt; lease.finish(), ("Foo", 0));
    /// ```
    pub fn lease_when_deadline<F: Fn(&T, &P) -> Due>(
        &self,
        when: F,
        deadline: Instant,
    ) -> Result<Lease<'_, T, P, R, A>, RecvTimeoutError>
    where
        F: Drop,
        R: Clock,
        requires { F.IsAlwaysCallable when }
        ensures channel { IfOk result (λ lease. lease.channel ≡ self.now) }
        ensures due { IfOk result (λ lease. ComesDue F.Fn when lease.pair) }
    {
        let clock = self.handle.rt();
        let deadline = Deadline::at(clock, deadline);
        let leased = self
            .handle
            .wait_sought(&LeaseWhen { when, clock }, &deadline)?;
        Ok(Lease::of(&self.handle, leased))
    }

    /// Leases the most urgent message for which the test returns true, as `try_lease_where`. If
    /// there is none, the thread sleeps until there is, as in `recv_where_blocking`. The errors are
    /// those of `lease_blocking`.
    ///
    /// Cost: as `recv_where_blocking`.
    ///
    /// ```
    /// let (tx, rx) = unbounded(&rt, rt.alloc())?;
    /// tx.try_send("compile", 2)?;
    /// tx.try_send("link", 1)?;
    /// let lease = rx.lease_where_blocking(|job, _| *job == "link")?;
    /// assert_eq!(rt; lease.finish(), ("link", 1));
    /// ```
    pub fn lease_where_blocking<F: Fn(&T, &P) -> bool>(
        &self,
        test: F,
    ) -> Result<Lease<'_, T, P, R, A>, RecvFault>
    where
        F: Drop,
        requires { F.IsAlwaysCallable test }
        ensures channel { IfOk result (λ lease. lease.channel ≡ self.now) }
        ensures meets { IfOk result (λ lease. Tells F.Fn test lease.pair true) }
    {
        let leased = self.handle.wait_sought(&LeaseWhere { test }, &Endless)?;
        Ok(Lease::of(&self.handle, leased))
    }

    /// As `lease_where_blocking`, but waits no longer than `timeout`, as `recv_timeout` does.
    ///
    /// Cost: as `lease_where_blocking`, and readings of the clock.
    ///
    /// ```
    /// let (tx, rx) = unbounded(&rt, rt.alloc())?;
    /// tx.try_send("compile", 2)?;
    /// let limit = Duration::from_millis(5);
    /// let late = rx.lease_where_timeout(|job, _| *job == "link", limit);
    /// assert!(rt; late.is_err_and(|error| error.is_timeout()));
    /// assert_eq!(rt; rx.len(), 1);
    /// ```
    pub fn lease_where_timeout<F: Fn(&T, &P) -> bool>(
        &self,
        test: F,
        timeout: Duration,
    ) -> Result<Lease<'_, T, P, R, A>, RecvTimeoutError>
    where
        F: Drop,
        R: Clock,
        requires { F.IsAlwaysCallable test }
        ensures channel { IfOk result (λ lease. lease.channel ≡ self.now) }
        ensures meets { IfOk result (λ lease. Tells F.Fn test lease.pair true) }
    {
        let deadline = Deadline::after(self.handle.rt(), timeout);
        let leased = self.handle.wait_sought(&LeaseWhere { test }, &deadline)?;
        Ok(Lease::of(&self.handle, leased))
    }

    /// As `lease_where_timeout`, but waits no longer than until `deadline`.
    ///
    /// Cost: as `lease_where_timeout`.
    ///
    /// ```
    /// let (tx, rx) = unbounded(&rt, rt.alloc())?;
    /// tx.try_send("Foo", 0)?;
    /// let now = Instant::now(&rt)?;
    /// let lease = rx.lease_where_deadline(|_, _| true, now)?;
    /// assert_eq!(rt; lease.finish(), ("Foo", 0));
    /// ```
    pub fn lease_where_deadline<F: Fn(&T, &P) -> bool>(
        &self,
        test: F,
        deadline: Instant,
    ) -> Result<Lease<'_, T, P, R, A>, RecvTimeoutError>
    where
        F: Drop,
        R: Clock,
        requires { F.IsAlwaysCallable test }
        ensures channel { IfOk result (λ lease. lease.channel ≡ self.now) }
        ensures meets { IfOk result (λ lease. Tells F.Fn test lease.pair true) }
    {
        let deadline = Deadline::at(self.handle.rt(), deadline);
        let leased = self.handle.wait_sought(&LeaseWhere { test }, &deadline)?;
        Ok(Lease::of(&self.handle, leased))
    }

    /// As `lease_where_blocking`, for a task. This is a future, which does nothing until it is
    /// polled. If it is dropped before it has answered, it takes nothing.
    ///
    /// Cost: none until it is polled (see `LeaseNextWhere`).
    ///
    /// ```
    /// let (tx, rx) = unbounded(&rt, rt.alloc())?;
    /// tx.try_send("compile", 2)?;
    /// tx.try_send("link", 1)?;
    /// let lease = block_on(&rt, rx.lease_where(|job, _| *job == "link"))??;
    /// assert_eq!(rt; lease.finish(), ("link", 1));
    /// ```
    pub fn lease_where<F: Fn(&T, &P) -> bool>(&self, test: F) -> LeaseNextWhere<'_, F, T, P, R, A>
        ensures { result ≡ record {
          channel = self.now;
          seek = record { test = test };
          ticket = None;
          is_done = false;
        } }
    {
        Seeking::new(self, LeaseWhere { test }, Sight::All)
    }
}

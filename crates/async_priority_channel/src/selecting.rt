//! Waits with a condition: the receives until a pending message meets one, and their loop, which is
//! also that of the wait for the close.
//!
//! The thread looks at the channel. If nothing is for it, it is listed in the same hold of the
//! lock, and sleeps until something has changed of what it looks at, or an instant has come for
//! which it asked.
ghost use Rattle.std.specs.Prelude.{◌≡◌, true, false, None, IfOk, IfErr, IsSome};
ghost use Rattle.priority_channel_core.specs.bag.Prelude.{Tells};
ghost use Rattle.priority_channel_waiting.specs.Ends.{OnOver};
ghost use Rattle.priority_channel_waiting.specs.Seeking.{ComesDue, IfEnded, IfFound, IfNotYet};

use crate::handle::Handle;
use crate::receiver::Receiver;
use crate::waiting::{RecvWhere, Seeking};
use priority_channel_core::errors::RecvFault;
use priority_channel_waiting::seeking::{Due, Look, Seek, Sought, When, Where};
use priority_channel_waiting::selecting::Sight;
use priority_channel_waiting::timeouts::{Ended, RecvTimeoutError};
use priority_channel_waiting::until::{Deadline, Endless, Until};
use priority_channel_waiting::waiter::Waiter;
use std::alloc::Allocator;
use std::sync::{Wait, WaitMethods};
use std::time::{Clock, Duration, Instant};

impl<T, P: Ord, R: Wait + Clone, A: Allocator + Copy> Receiver<T, P, R, A> {
    /// Receives the first pending message, the one that `recv` would give, once it is due. Until
    /// then the thread sleeps. `when` is asked of the first message, and answers `Due::Now`,
    /// `Due::At(instant)` or `Due::Never`. It is asked again once another message is first, a
    /// priority was changed, or its instant has come. So a channel with `Reverse(instant)` as its
    /// priority delays its messages, and one that comes with an earlier instant wakes the thread.
    ///
    /// The errors are those of `recv_blocking`. A message that is `Due::Never` stays pending, also
    /// in a closed channel, and the thread waits on, since another receiver may take the message.
    /// Only a time limit ends such a wait for sure. If the clock cannot be read, an instant counts
    /// as come.
    ///
    /// `when` is called under the channel's lock (see `End`). Each of several threads that wait so
    /// is woken by each change, and one of them receives.
    ///
    /// Cost: at each look a call of `when` under the lock, and that of `try_recv`. Memory for a
    /// waiter and its entry in a list, if it waits. The first wait for the close or with a
    /// condition also takes memory for these lists.
    ///
    /// ```
    /// let (tx, rx) = unbounded(&rt, rt.alloc())?;
    /// let now = Instant::now(&rt)?;
    /// let soon = now.checked_add(Duration::from_millis(5)).expect(&rt, "too late");
    /// tx.try_send("boil the water", Reverse(soon))?;
    /// let (job, _) = rx.recv_when_blocking(|_, due| Due::At(due.0))?;
    /// assert_eq!(rt; job, "boil the water");
    /// assert!(rt; soon <= Instant::now(&rt)?);
    /// ```
    pub fn recv_when_blocking<F: Fn(&T, &P) -> Due>(&self, when: F) -> Result<(T, P), RecvFault>
    where
        F: Drop,
        R: Clock,
        requires { F.IsAlwaysCallable when }
        ensures { IfOk result (ComesDue F.Fn when) }
    {
        let clock = self.handle.rt();
        Ok(self.handle.wait_sought(&When { when, clock }, &Endless)?)
    }

    /// As `recv_when_blocking`, but waits no longer than `timeout`, as `recv_timeout` does.
    ///
    /// Cost: as `recv_when_blocking`, and readings of the clock.
    ///
    /// ```
    /// let (tx, rx) = unbounded(&rt, rt.alloc())?;
    /// tx.try_send("paused", 1)?;
    /// let limit = Duration::from_millis(5);
    /// let late = rx.recv_when_timeout(|_, _| Due::Never, limit);
    /// assert_eq!(rt; late, Err(RecvTimeoutError::Timeout));
    /// assert_eq!(rt; rx.recv_when_timeout(|_, _| Due::Now, limit), Ok(("paused", 1)));
    /// ```
    pub fn recv_when_timeout<F: Fn(&T, &P) -> Due>(
        &self,
        when: F,
        timeout: Duration,
    ) -> Result<(T, P), RecvTimeoutError>
    where
        F: Drop,
        R: Clock,
        requires { F.IsAlwaysCallable when }
        ensures { IfOk result (ComesDue F.Fn when) }
    {
        let clock = self.handle.rt();
        let deadline = Deadline::after(clock, timeout);
        Ok(self.handle.wait_sought(&When { when, clock }, &deadline)?)
    }

    /// As `recv_when_timeout`, but waits no longer than until `deadline`.
    ///
    /// Cost: as `recv_when_timeout`.
    ///
    /// ```
    /// let (tx, rx) = unbounded(&rt, rt.alloc())?;
    /// tx.try_send("Foo", 0)?;
    /// let now = Instant::now(&rt)?;
    /// assert_eq!(rt; rx.recv_when_deadline(|_, _| Due::At(now), now), Ok(("Foo", 0)));
    /// ```
    pub fn recv_when_deadline<F: Fn(&T, &P) -> Due>(
        &self,
        when: F,
        deadline: Instant,
    ) -> Result<(T, P), RecvTimeoutError>
    where
        F: Drop,
        R: Clock,
        requires { F.IsAlwaysCallable when }
        ensures { IfOk result (ComesDue F.Fn when) }
    {
        let clock = self.handle.rt();
        let deadline = Deadline::at(clock, deadline);
        Ok(self.handle.wait_sought(&When { when, clock }, &deadline)?)
    }

    /// Receives the most urgent pending message for which the test returns true, as
    /// `try_recv_where` does. If there is none, the thread sleeps until there is: it looks again
    /// once a message was accepted or a priority was changed.
    ///
    /// The errors are those of `recv_blocking`. In a closed channel it waits on as long as messages
    /// are pending, none of which passes: their priorities may change.
    ///
    /// The test is called under the channel's lock (see `End`), once on each pending message at
    /// each look. Each of several threads that wait so is woken by each change.
    ///
    /// Cost: at each look that of `try_recv_where`. Memory as for `recv_when_blocking`.
    ///
    /// ```
    /// let (tx, rx) = unbounded(&rt, rt.alloc())?;
    /// tx.try_send("compile", 2)?;
    /// tx.try_send("link", 1)?;
    /// let job = rx.recv_where_blocking(|job, _| *job == "link");
    /// assert_eq!(rt; job, Ok(("link", 1)));
    /// ```
    pub fn recv_where_blocking<F: Fn(&T, &P) -> bool>(&self, test: F) -> Result<(T, P), RecvFault>
    where
        F: Drop,
        requires { F.IsAlwaysCallable test }
        ensures { IfOk result (λ pair. Tells F.Fn test pair true) }
    {
        Ok(self.handle.wait_sought(&Where { test }, &Endless)?)
    }

    /// As `recv_where_blocking`, but waits no longer than `timeout`, as `recv_timeout` does.
    ///
    /// Cost: as `recv_where_blocking`, and readings of the clock.
    ///
    /// ```
    /// let (tx, rx) = unbounded(&rt, rt.alloc())?;
    /// tx.try_send("compile", 2)?;
    /// let limit = Duration::from_millis(5);
    /// let late = rx.recv_where_timeout(|job, _| *job == "link", limit);
    /// assert_eq!(rt; late, Err(RecvTimeoutError::Timeout));
    /// assert_eq!(rt; rx.len(), 1);
    /// ```
    pub fn recv_where_timeout<F: Fn(&T, &P) -> bool>(
        &self,
        test: F,
        timeout: Duration,
    ) -> Result<(T, P), RecvTimeoutError>
    where
        F: Drop,
        R: Clock,
        requires { F.IsAlwaysCallable test }
        ensures { IfOk result (λ pair. Tells F.Fn test pair true) }
    {
        let deadline = Deadline::after(self.handle.rt(), timeout);
        Ok(self.handle.wait_sought(&Where { test }, &deadline)?)
    }

    /// As `recv_where_timeout`, but waits no longer than until `deadline`.
    ///
    /// Cost: as `recv_where_timeout`.
    ///
    /// ```
    /// let (tx, rx) = unbounded(&rt, rt.alloc())?;
    /// tx.try_send("Foo", 0)?;
    /// let now = Instant::now(&rt)?;
    /// assert_eq!(rt; rx.recv_where_deadline(|_, _| true, now), Ok(("Foo", 0)));
    /// ```
    pub fn recv_where_deadline<F: Fn(&T, &P) -> bool>(
        &self,
        test: F,
        deadline: Instant,
    ) -> Result<(T, P), RecvTimeoutError>
    where
        F: Drop,
        R: Clock,
        requires { F.IsAlwaysCallable test }
        ensures { IfOk result (λ pair. Tells F.Fn test pair true) }
    {
        let deadline = Deadline::at(self.handle.rt(), deadline);
        Ok(self.handle.wait_sought(&Where { test }, &deadline)?)
    }

    /// As `recv_where_blocking`, for a task. This is a future, which does nothing until it is
    /// polled. If it is dropped before it has answered, it receives nothing.
    ///
    /// Cost: none until it is polled (see `RecvWhere`).
    ///
    /// ```
    /// let (tx, rx) = unbounded(&rt, rt.alloc())?;
    /// tx.try_send("compile", 2)?;
    /// tx.try_send("link", 1)?;
    /// let received = block_on(&rt, rx.recv_where(|job, _| *job == "link"))?;
    /// assert_eq!(rt; received, Ok(("link", 1)));
    /// ```
    pub fn recv_where<F: Fn(&T, &P) -> bool>(&self, test: F) -> RecvWhere<'_, F, T, P, R, A>
        ensures { result ≡ record {
          channel = self.now;
          seek = record { test = test };
          ticket = None;
          is_done = false;
        } }
    {
        Seeking::new(self, Where { test }, Sight::All)
    }
}

impl<T, P: Ord, R: Wait + Clone, A: Allocator + Copy> Handle<T, P, R, A> {
    /// Waits until something meets the condition, or the wait is over. The clock is read before
    /// each look, so a look that is the last one comes at the deadline or later.
    pub fn wait_sought<S: Seek<T, P, A>, U: Until>(
        &self,
        seek: &S,
        until: &U,
    ) -> Result<S::Found, Ended<(), U::Over>>
        requires { S.can_seek seek.now }
        ensures found { IfOk result (S.meets seek.now) }
        ensures over { IfErr result (λ ended. OnOver ended (U.has_come until.now)) }
    {
        let left = until.left();
        if let Ok(answer) = self.seek(seek).answer() {
            return answer;
        }
        if let Err(over) = left {
            return Err(Ended::Over((), over));
        }
        let Ok(waiter) = Waiter::new(self.alloc()) else {
            return Err(Ended::Memory(()));
        };
        self.sleep_until_found(seek, until, &waiter)
    }

    /// Looks once, without memory for waiting.
    pub fn seek<S: Seek<T, P, A>>(&self, seek: &S) -> Sought<S::Found>
        requires { S.can_seek seek.now }
        ensures { IfFound result (S.meets seek.now) }
    {
        self.call(Look { seek })
    }

    // Looks again after each sleep, and is listed while it sleeps.
    fn sleep_until_found<S: Seek<T, P, A>, U: Until>(
        &self,
        seek: &S,
        until: &U,
        waiter: &Waiter<A>,
    ) -> Result<S::Found, Ended<(), U::Over>>
        requires { S.can_seek seek.now }
        ensures found { IfOk result (S.meets seek.now) }
        ensures over { IfErr result (λ ended. OnOver ended (U.has_come until.now)) }
    {
        let mut ticket = None;
        for _ in self.rt().forever() {
            let left = match until.left() {
                Ok(left) => left,
                Err(over) => return self.seek_last(seek, ticket, over, until),
            };
            match self.seek_or_list(seek, &mut ticket, waiter).answer() {
                Ok(answer) => return answer,
                Err(within) => waiter.park(self.rt(), sooner(left, within)),
            }
        }
        unreachable!()
    }

    /// Looks, and if nothing is found has the waiter listed in the same hold.
    pub fn seek_or_list<S: Seek<T, P, A>>(
        &self,
        seek: &S,
        ticket: &mut Option<u64>,
        waiter: &Waiter<A>,
    ) -> Sought<S::Found>
        requires { S.can_seek seek.now }
        ensures found { IfFound result (S.meets seek.now) }
        ensures listed { IfNotYet result (IsSome ticket.new) }
        ensures ended { IfEnded result (ticket.new ≡ None) }
    {
        let mut locked = self.lock();
        let (sought, to_wake) = locked.seek_or_list(self.alloc(), seek, ticket, waiter);
        to_wake.wake(self.rt(), locked);
        sought
    }

    /// Takes a waiter off its list beside the core, if it has a ticket.
    pub fn unlist_beside(&self, sight: Sight, ticket: Option<u64>) {
        if let Some(ticket) = ticket {
            self.lock().unlist(sight, ticket);
        }
    }

    // Takes the thread off the list, and looks a last time.
    fn seek_last<S: Seek<T, P, A>, U: Until>(
        &self,
        seek: &S,
        ticket: Option<u64>,
        over: U::Over,
        until: &U,
    ) -> Result<S::Found, Ended<(), U::Over>>
        requires can { S.can_seek seek.now }
        requires over { U.has_come until.now over }
        ensures found { IfOk result (S.meets seek.now) }
        ensures over { IfErr result (λ ended. OnOver ended (U.has_come until.now)) }
    {
        self.unlist_beside(S::sight(), ticket);
        match self.seek(seek) {
            Sought::Found(found) => Ok(found),
            Sought::Over => Err(Ended::Closed(())),
            // As in the last try of other waits: that nothing came in time is what counts.
            Sought::Memory | Sought::NotYet(_) => Err(Ended::Over((), over)),
        }
    }
}

// The shorter of two limits. None is none.
fn sooner(left: Option<Duration>, within: Option<Duration>) -> Option<Duration> {
    match (left, within) {
        (Some(left), Some(within)) => Some(left.min(within)),
        (left, within) => left.or(within),
    }
}

//! The calls that wait on their thread, with or without a time limit.
ghost use Rattle.std.specs.Prelude.{◌≡◌, IfErr};
ghost use Rattle.std.specs.Iterator.Adapters.{peekable_can};
ghost use Rattle.priority_channel_core.specs.Prelude.{HasList, unsent};
ghost use Rattle.priority_channel_waiting.specs.Holding.{HoldsTail};
ghost use Rattle.priority_channel_waiting.specs.Waits.{unsent_in_time};

use crate::receiver::Receiver;
use crate::sender::Sender;
use priority_channel_calls::bulk::TrySendv;
use priority_channel_calls::receives::TryRecv;
use priority_channel_calls::sends::TrySend;
use priority_channel_core::errors::{RecvFault, SendFault};
use priority_channel_waiting::timeouts::{RecvTimeoutError, SendTimeoutError};
use priority_channel_waiting::until::{Deadline, Endless};
use std::alloc::Allocator;
use std::iter::Peekable;
use std::sync::Wait;
use std::time::{Clock, Duration, Instant};

impl<T, P: Ord, R: Wait + Clone, A: Allocator + Copy> Receiver<T, P, R, A> {
    /// Receives a message, or waits for one on this thread, which sleeps meanwhile. The error is
    /// `Closed` if no message can come any more, or `Memory` if the call has to wait and memory for
    /// waiting is refused.
    ///
    /// It blocks an executor, so a task uses `recv`. A loop is `for pair in &rx` (see `Iter`).
    ///
    /// Cost: as `try_recv` for each try. Memory for waiting, if it has to wait.
    ///
    /// ```
    /// let (tx, rx) = bounded(&rt, rt.alloc(), 1)?;
    /// let sending = thread::spawn(&rt, move || tx.send_blocking("Foo", 0))?;
    /// let (job, priority) = rx.recv_blocking()?;
    /// assert_eq!(rt; (job, priority), ("Foo", 0));
    /// assert_eq!(rt; sending.join(&rt), Ok(()));
    /// assert_eq!(rt; rx.recv_blocking(), Err(RecvFault::Closed(RecvError)));
    /// ```
    pub fn recv_blocking(&self) -> Result<(T, P), RecvFault> {
        Ok(self.handle.wait(TryRecv, &Endless, &mut None)?)
    }

    /// As `recv_blocking`, but waits no longer than `timeout`. If that is zero, it does not wait.
    /// There is no limit if the timeout ends past the range of the clock. A message that comes at
    /// the last moment is received.
    ///
    /// `Timeout` is returned only if the clock was read at or past the deadline, or cannot be read.
    /// It is returned, and not `Memory`, if memory for the message is refused at the last try.
    ///
    /// Cost: as `recv_blocking`, and readings of the clock.
    ///
    /// ```
    /// let (tx, rx) = bounded(&rt, rt.alloc(), 1)?;
    /// let limit = Duration::from_millis(5);
    /// assert_eq!(rt; rx.recv_timeout(limit), Err(RecvTimeoutError::Timeout));
    /// tx.try_send("Foo", 0)?;
    /// assert_eq!(rt; rx.recv_timeout(limit), Ok(("Foo", 0)));
    /// drop(tx);
    /// assert_eq!(rt; rx.recv_timeout(limit), Err(RecvTimeoutError::Closed));
    /// ```
    pub fn recv_timeout(&self, timeout: Duration) -> Result<(T, P), RecvTimeoutError>
    where
        R: Clock,
    {
        let deadline = Deadline::after(self.handle.rt(), timeout);
        Ok(self.handle.wait(TryRecv, &deadline, &mut None)?)
    }

    /// As `recv_timeout`, but waits no longer than until `deadline`.
    ///
    /// Cost: as `recv_timeout`.
    ///
    /// ```
    /// let (tx, rx) = bounded(&rt, rt.alloc(), 1)?;
    /// tx.try_send("Foo", 0)?;
    /// let limit = Duration::from_millis(5);
    /// let deadline = Instant::now(&rt)?.checked_add(limit).expect(&rt, "too late");
    /// assert_eq!(rt; rx.recv_deadline(deadline), Ok(("Foo", 0)));
    /// assert_eq!(rt; rx.recv_deadline(deadline), Err(RecvTimeoutError::Timeout));
    /// assert!(rt; deadline <= Instant::now(&rt)?);
    /// ```
    pub fn recv_deadline(&self, deadline: Instant) -> Result<(T, P), RecvTimeoutError>
    where
        R: Clock,
    {
        let deadline = Deadline::at(self.handle.rt(), deadline);
        Ok(self.handle.wait(TryRecv, &deadline, &mut None)?)
    }
}

impl<T, P: Ord, R: Wait + Clone, A: Allocator + Copy> Sender<T, P, R, A> {
    /// Sends a message, and waits for room on this thread, which sleeps meanwhile. The error is
    /// `Closed`, or `Memory` if memory is refused for the message or for waiting. It gives the
    /// message back.
    ///
    /// Other sends may pass it while it waits, as with `send`. It blocks an executor, so a task
    /// uses `send`.
    ///
    /// Cost: as `try_send` for each try. Memory for waiting, if it has to wait.
    ///
    /// ```
    /// let (tx, rx) = bounded(&rt, rt.alloc(), 1)?;
    /// tx.send_blocking("Foo", 0)?;
    /// let sending = thread::spawn(&rt, move || tx.send_blocking("Bar", 2))?;
    /// assert_eq!(rt; rx.recv_blocking(), Ok(("Foo", 0)));
    /// assert_eq!(rt; rx.recv_blocking(), Ok(("Bar", 2)));
    /// assert_eq!(rt; sending.join(&rt), Ok(()));
    /// ```
    pub fn send_blocking(&self, msg: T, priority: P) -> Result<(), SendFault<(T, P)>>
        ensures { IfErr result (λ fault. unsent fault ≡ (msg, priority)) }
    {
        Ok(
            self.handle
                .wait(TrySend { msg, priority }, &Endless, &mut None)?,
        )
    }

    /// As `send_blocking`, but waits no longer than `timeout`, as `recv_timeout` does. Either the
    /// message was sent, or the error gives it back.
    ///
    /// Cost: as `send_blocking`, and readings of the clock.
    ///
    /// ```
    /// let (tx, rx) = bounded(&rt, rt.alloc(), 1)?;
    /// let limit = Duration::from_millis(5);
    /// tx.send_timeout("Foo", 0, limit)?;
    /// let late = tx.send_timeout("Bar", 2, limit);
    /// assert_eq!(rt; late, Err(SendTimeoutError::Timeout(("Bar", 2))));
    /// drop(rx);
    /// let late = tx.send_timeout("Bar", 2, limit);
    /// assert_eq!(rt; late, Err(SendTimeoutError::Closed(("Bar", 2))));
    /// ```
    pub fn send_timeout(
        &self,
        msg: T,
        priority: P,
        timeout: Duration,
    ) -> Result<(), SendTimeoutError<(T, P)>>
    where
        R: Clock,
        ensures { IfErr result (λ error. unsent_in_time error ≡ (msg, priority)) }
    {
        let deadline = Deadline::after(self.handle.rt(), timeout);
        Ok(
            self.handle
                .wait(TrySend { msg, priority }, &deadline, &mut None)?,
        )
    }

    /// As `send_timeout`, but waits no longer than until `deadline`.
    ///
    /// Cost: as `send_timeout`.
    ///
    /// ```
    /// let (tx, _rx) = bounded(&rt, rt.alloc(), 1)?;
    /// let limit = Duration::from_millis(5);
    /// let deadline = Instant::now(&rt)?.checked_add(limit).expect(&rt, "too late");
    /// tx.send_deadline("Foo", 0, deadline)?;
    /// let late = tx.send_deadline("Bar", 2, deadline);
    /// assert_eq!(rt; late, Err(SendTimeoutError::Timeout(("Bar", 2))));
    /// ```
    pub fn send_deadline(
        &self,
        msg: T,
        priority: P,
        deadline: Instant,
    ) -> Result<(), SendTimeoutError<(T, P)>>
    where
        R: Clock,
        ensures { IfErr result (λ error. unsent_in_time error ≡ (msg, priority)) }
    {
        let deadline = Deadline::at(self.handle.rt(), deadline);
        Ok(
            self.handle
                .wait(TrySend { msg, priority }, &deadline, &mut None)?,
        )
    }
}

impl<T: Drop, P: Ord + Drop, R: Wait + Clone, A: Allocator + Copy> Sender<T, P, R, A> {
    /// Sends all messages, and waits for room on this thread, which sleeps meanwhile. The errors
    /// are those of `send_blocking`, and give back the rest. What was sent stays sent. The iterator
    /// is called and dropped as by `try_sendv`.
    ///
    /// Cost: as `try_sendv` for each try. Memory for waiting, if it has to wait.
    ///
    /// ```
    /// let (tx, rx) = bounded(&rt, rt.alloc(), 1)?;
    /// let jobs = [(3, 1), (4, 2)].into_iter().peekable();
    /// let receiving = thread::spawn(&rt, move || (rx.recv_blocking(), rx))?;
    /// assert!(rt; tx.sendv_blocking(jobs).is_ok());
    /// let (received, rx) = receiving.join(&rt);
    /// assert_eq!(rt; received, Ok((3, 1)));
    /// assert_eq!(rt; rx.try_recv(), Ok((4, 2)));
    /// ```
    pub fn sendv_blocking<I: Iterator<Item = (T, P)>>(
        &self,
        msgs: Peekable<I>,
    ) -> Result<(), SendFault<Peekable<I>>>
        requires { peekable_can I.can_next msgs }
        ensures handed_back { IfErr result (λ fault. HoldsTail (HasList I.next_gives) msgs
            (unsent fault)) }
        ensures callable { IfErr result (λ fault. peekable_can I.can_next (unsent fault)) }
    {
        Ok(self.handle.wait(TrySendv { msgs }, &Endless, &mut None)?)
    }

    /// As `sendv_blocking`, but waits no longer than `timeout`, with the limits of `send_timeout`.
    /// The rest that comes back can be sent again.
    ///
    /// Cost: as `sendv_blocking`, and readings of the clock.
    ///
    /// ```
    /// let (tx, rx) = bounded(&rt, rt.alloc(), 1)?;
    /// let jobs = [("compile", 1), ("link", 2)].into_iter().peekable();
    /// if let Err(error) = tx.sendv_timeout(jobs, Duration::from_millis(5)) {
    ///     assert!(rt; error.is_timeout());
    ///     assert_eq!(rt; rx.try_recv(), Ok(("compile", 1)));
    ///     assert!(rt; tx.try_sendv(error.into_inner()).is_ok());
    /// }
    /// assert_eq!(rt; rx.try_recv(), Ok(("link", 2)));
    /// ```
    pub fn sendv_timeout<I: Iterator<Item = (T, P)>>(
        &self,
        msgs: Peekable<I>,
        timeout: Duration,
    ) -> Result<(), SendTimeoutError<Peekable<I>>>
    where
        R: Clock,
        requires { peekable_can I.can_next msgs }
        ensures handed_back { IfErr result (λ error. HoldsTail (HasList I.next_gives) msgs
            (unsent_in_time error)) }
        ensures callable { IfErr result (λ error. peekable_can I.can_next (unsent_in_time error)) }
    {
        let deadline = Deadline::after(self.handle.rt(), timeout);
        Ok(self.handle.wait(TrySendv { msgs }, &deadline, &mut None)?)
    }

    /// As `sendv_timeout`, but waits no longer than until `deadline`.
    ///
    /// Cost: as `sendv_timeout`.
    ///
    /// ```
    /// let (tx, rx) = bounded(&rt, rt.alloc(), 1)?;
    /// let limit = Duration::from_millis(5);
    /// let deadline = Instant::now(&rt)?.checked_add(limit).expect(&rt, "too late");
    /// let jobs = [("compile", 1), ("link", 2)].into_iter().peekable();
    /// if let Err(error) = tx.sendv_deadline(jobs, deadline) {
    ///     assert!(rt; error.is_timeout());
    ///     assert_eq!(rt; error.into_inner().next(), Some(("link", 2)));
    /// }
    /// assert_eq!(rt; rx.try_recv(), Ok(("compile", 1)));
    /// ```
    pub fn sendv_deadline<I: Iterator<Item = (T, P)>>(
        &self,
        msgs: Peekable<I>,
        deadline: Instant,
    ) -> Result<(), SendTimeoutError<Peekable<I>>>
    where
        R: Clock,
        requires { peekable_can I.can_next msgs }
        ensures handed_back { IfErr result (λ error. HoldsTail (HasList I.next_gives) msgs
            (unsent_in_time error)) }
        ensures callable { IfErr result (λ error. peekable_can I.can_next (unsent_in_time error)) }
    {
        let deadline = Deadline::at(self.handle.rt(), deadline);
        Ok(self.handle.wait(TrySendv { msgs }, &deadline, &mut None)?)
    }
}

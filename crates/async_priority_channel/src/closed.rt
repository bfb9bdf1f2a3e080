//! The calls that wait for the close of a channel.
ghost use Rattle.std.specs.Prelude.{◌≡◌, None, IfOk, IfErr, false};

use crate::end::{End, Role};
use crate::handle::Handle;
use crate::waiting::{Closed, Seeking};
use priority_channel_waiting::seeking::UntilClosed;
use priority_channel_waiting::selecting::Sight;
use priority_channel_waiting::timeouts::Ended;
use priority_channel_waiting::until::{Deadline, Endless, Until};
use std::alloc::{AllocError, Allocator};
use std::sync::Wait;
use std::time::{Clock, Duration, Instant};

impl<S: Role, T, P: Ord, R: Wait + Clone, A: Allocator + Copy> End<S, T, P, R, A> {
    /// Waits for the close of the channel, as a future, which does nothing until it is polled. It
    /// is ready at once if the channel is closed, also if messages are still pending. A task that
    /// waits for it and for something else, by `select`, stops when nobody listens any more.
    ///
    /// The error is that memory for waiting was refused. If the future is dropped, its task is not
    /// woken by the close.
    ///
    /// Cost: none until it is polled (see `Closed`).
    ///
    /// ```
    /// let (tx, rx) = unbounded::<&str, u64, _, _>(&rt, rt.alloc())?;
    /// let receiving = thread::spawn(&rt, move || drop(rx))?;
    /// assert_eq!(rt; block_on(&rt, tx.closed())?, Ok(()));
    /// assert!(rt; tx.is_closed());
    /// receiving.join(&rt);
    /// ```
    pub fn closed(&self) -> Closed<'_, S, T, P, R, A>
        ensures { result ≡ record {
          channel = self.now;
          seek = record {};
          ticket = None;
          is_done = false;
        } }
    {
        Seeking::new(self, UntilClosed, Sight::Close)
    }

    /// Waits for the close of the channel on this thread, which sleeps meanwhile. It returns at
    /// once if the channel is closed. The error is that memory for waiting was refused. The channel
    /// is then as it was.
    ///
    /// Messages do not wake the thread. If nobody closes the channel, it waits without end. It
    /// blocks an executor, so a task uses `closed`.
    ///
    /// Cost: no comparison. Memory for its waiter and for its entry in a list, if the channel is
    /// open. The first wait for the close or with a condition also takes memory for these lists.
    ///
    /// ```
    /// let (tx, rx) = unbounded(&rt, rt.alloc())?;
    /// let waiting = thread::spawn(&rt, move || (tx.closed_blocking(), tx))?;
    /// drop(rx);
    /// let (waited, tx) = waiting.join(&rt);
    /// assert_eq!(rt; waited, Ok(()));
    /// assert_eq!(rt; tx.try_send("Foo", 0), Err(TrySendError::Closed(("Foo", 0))));
    /// ```
    pub fn closed_blocking(&self) -> Result<(), AllocError> {
        match self.handle.wait_closed(&Endless)? {
            Ok(_) => Ok(()),
            Err(never) => match never {},
        }
    }

    /// As `closed_blocking`, but waits no longer than `timeout`, and returns whether the channel is
    /// closed. If the timeout is zero, it does not wait. There is no limit if the timeout ends past
    /// the range of the clock.
    ///
    /// False is returned only if the channel was open after the clock was read at or past the
    /// deadline, or if the clock cannot be read.
    ///
    /// Cost: as `closed_blocking`, and readings of the clock.
    ///
    /// ```
    /// let (tx, rx) = unbounded::<&str, u64, _, _>(&rt, rt.alloc())?;
    /// let limit = Duration::from_millis(5);
    /// assert_eq!(rt; tx.closed_timeout(limit), Ok(false));
    /// drop(rx);
    /// assert_eq!(rt; tx.closed_timeout(limit), Ok(true));
    /// ```
    pub fn closed_timeout(&self, timeout: Duration) -> Result<bool, AllocError>
    where
        R: Clock,
    {
        let deadline = Deadline::after(self.handle.rt(), timeout);
        Ok(self.handle.wait_closed(&deadline)?.is_ok())
    }

    /// As `closed_timeout`, but waits no longer than until `deadline`.
    ///
    /// Cost: as `closed_timeout`.
    ///
    /// ```
    /// let (tx, rx) = unbounded::<&str, u64, _, _>(&rt, rt.alloc())?;
    /// let limit = Duration::from_millis(5);
    /// let deadline = Instant::now(&rt)?.checked_add(limit).expect(&rt, "too late");
    /// assert_eq!(rt; tx.closed_deadline(deadline), Ok(false));
    /// drop(rx);
    /// assert_eq!(rt; tx.closed_deadline(deadline), Ok(true));
    /// ```
    pub fn closed_deadline(&self, deadline: Instant) -> Result<bool, AllocError>
    where
        R: Clock,
    {
        let deadline = Deadline::at(self.handle.rt(), deadline);
        Ok(self.handle.wait_closed(&deadline)?.is_ok())
    }
}

impl<T, P: Ord, R: Wait + Clone, A: Allocator + Copy> Handle<T, P, R, A> {
    // Waits until the channel is seen closed, or the time is over.
    fn wait_closed<U: Until>(&self, until: &U) -> Result<Result<(), U::Over>, AllocError>
        ensures { IfOk result (λ waited. IfErr waited (U.has_come until.now)) }
    {
        match self.wait_sought(&UntilClosed, until) {
            Ok(never) => match never {},
            Err(Ended::Closed(())) => Ok(Ok(())),
            Err(Ended::Over((), over)) => Ok(Err(over)),
            Err(Ended::Memory(())) => Err(AllocError),
        }
    }
}

//! Places that are held for messages still to come.
ghost use Rattle.std.specs.Prelude.{◌≡◌, IfOk, None, false};

use crate::handle::Handle;
use crate::sender::Sender;
use crate::waiting::{Calling, Reserve};
use priority_channel_calls::places::{Free, Place, TryReserve};
use priority_channel_core::errors::{SendFault, TrySendError};
use priority_channel_waiting::timeouts::SendTimeoutError;
use priority_channel_waiting::until::{Deadline, Endless};
use std::alloc::{Allocator, Global};
use std::fmt;
use std::marker::Model;
use std::sync::Wait;
use std::time::{Clock, Duration, Instant};

/// A place in a channel that is held for a message. It counts against the capacity, and all that a
/// message needs is kept for it, so `send` is never refused. `Sender::try_reserve` and its variants
/// make it, and `Lease::into_parts`.
///
/// If it is dropped, the place becomes free. As long as a place is held, receivers of a closed
/// channel wait for what may come.
///
/// ```
/// let (tx, rx) = bounded(&rt, rt.alloc(), 1)?;
/// let permit = tx.try_reserve()?;
/// assert!(rt; tx.is_full());
/// tx.close();
/// permit.send("Foo", 0);
/// assert_eq!(rt; rx.try_recv(), Ok(("Foo", 0)));
/// ```
#[must_use = "its place becomes free as soon as it is dropped"]
pub struct Permit<'a, T, P: Ord, R: Wait + Clone, A: Allocator + Copy = Global> {
    handle: &'a Handle<T, P, R, A>,
    place: Place,
}

impl<'a, T, P: Ord, R: Wait + Clone, A: Allocator + Copy> Model for Permit<'a, T, P, R, A> {
    ghost use Rattle.async_priority_channel.specs.Handles.{Channel};

    ghost Value = { Channel };

    ghost view = { λ permit. permit.handle.now };
}

impl<'a, T, P: Ord, R: Wait + Clone, A: Allocator + Copy> Permit<'a, T, P, R, A> {
    // For a place that was got of this channel.
    pub(crate) fn of(handle: &'a Handle<T, P, R, A>, place: Place) -> Self
        ensures { result ≡ handle.now }
    {
        Permit { handle, place }
    }
}

impl<T: Drop, P: Ord + Drop, R: Wait + Clone, A: Allocator + Copy> Permit<'_, T, P, R, A> {
    /// Sends a message into the place: behind its equals, as any message that is sent now. It is
    /// sent into a closed channel too, where receivers wait for it.
    ///
    /// If all receivers have been dropped, the message stays pending, or is dropped, as
    /// `close_on_drop` says.
    ///
    /// Cost: O(log n) comparisons, at most as many as n + 1 has binary digits. No memory.
    pub fn send(self, msg: T, priority: P) {
        let Permit { handle, place } = self;
        handle.put(place, msg, priority);
    }
}

impl<T, P: Ord, R: Wait + Clone, A: Allocator + Copy> Drop for Permit<'_, T, P, R, A> {
    fn drop(self) {
        let Permit { handle, place } = self;
        handle.call(Free { place });
    }
}

impl<T, P: Ord, R: Wait + Clone, A: Allocator + Copy> fmt::Debug for Permit<'_, T, P, R, A> {
    ghost use Rattle.std.specs.Prelude.{Some, codes};

    ghost debug_output = { λ _. Some (codes "Permit { .. }") };

    fn fmt<W: fmt::Write>(&self, f: &mut fmt::Formatter<W>) -> fmt::Result {
        f.write_str("Permit { .. }")
    }
}

impl<T, P: Ord, R: Wait + Clone, A: Allocator + Copy> Sender<T, P, R, A> {
    /// Holds a place for a message still to come, at once. It is refused as a message is by
    /// `try_send`.
    ///
    /// Cost: no comparison. Memory for the message, unless it is reserved.
    ///
    /// ```
    /// let (tx, rx) = bounded(&rt, rt.alloc(), 1)?;
    /// let permit = tx.try_reserve()?;
    /// assert_eq!(rt; tx.try_send("Bar", 2), Err(TrySendError::Full(("Bar", 2))));
    /// drop(permit);
    /// assert_eq!(rt; tx.try_send("Bar", 2), Ok(()));
    /// ```
    pub fn try_reserve(&self) -> Result<Permit<'_, T, P, R, A>, TrySendError<()>>
        ensures { IfOk result (λ permit. permit ≡ self.now) }
    {
        let place = self.handle.call(TryReserve)?;
        Ok(Permit::of(&self.handle, place))
    }

    /// Holds a place for a message still to come, and waits for room on this thread, as
    /// `send_blocking` does, and with its errors.
    ///
    /// Cost: as `try_reserve` for each try. Memory for waiting, if it has to wait.
    ///
    /// ```
    /// let (tx, rx) = bounded(&rt, rt.alloc(), 1)?;
    /// tx.try_send("Foo", 0)?;
    /// let receiving = thread::spawn(&rt, move || (rx.recv_blocking(), rx))?;
    /// let permit = tx.reserve_blocking()?;
    /// let (received, rx) = receiving.join(&rt);
    /// assert_eq!(rt; received, Ok(("Foo", 0)));
    /// permit.send("Bar", 2);
    /// assert_eq!(rt; rx.try_recv(), Ok(("Bar", 2)));
    /// ```
    pub fn reserve_blocking(&self) -> Result<Permit<'_, T, P, R, A>, SendFault<()>>
        ensures { IfOk result (λ permit. permit ≡ self.now) }
    {
        let place = self.handle.wait(TryReserve, &Endless, &mut None)?;
        Ok(Permit::of(&self.handle, place))
    }

    /// As `reserve_blocking`, but waits no longer than `timeout`, as `send_timeout` does.
    ///
    /// Cost: as `reserve_blocking`, and readings of the clock.
    ///
    /// ```
    /// let (tx, _rx) = bounded::<&str, u64, _, _>(&rt, rt.alloc(), 1)?;
    /// let limit = Duration::from_millis(5);
    /// let permit = tx.reserve_timeout(limit)?;
    /// let refused = tx.reserve_timeout(limit);
    /// assert!(rt; refused.is_err_and(|error| error.is_timeout()));
    /// drop(permit);
    /// ```
    pub fn reserve_timeout(
        &self,
        timeout: Duration,
    ) -> Result<Permit<'_, T, P, R, A>, SendTimeoutError<()>>
    where
        R: Clock,
        ensures { IfOk result (λ permit. permit ≡ self.now) }
    {
        let deadline = Deadline::after(self.handle.rt(), timeout);
        let place = self.handle.wait(TryReserve, &deadline, &mut None)?;
        Ok(Permit::of(&self.handle, place))
    }

    /// As `reserve_timeout`, but waits no longer than until `deadline`.
    ///
    /// Cost: as `reserve_timeout`.
    ///
    /// ```
    /// let (tx, _rx) = bounded::<&str, u64, _, _>(&rt, rt.alloc(), 1)?;
    /// let limit = Duration::from_millis(5);
    /// let deadline = Instant::now(&rt)?.checked_add(limit).expect(&rt, "too late");
    /// let permit = tx.reserve_deadline(deadline)?;
    /// let refused = tx.reserve_deadline(deadline);
    /// assert!(rt; refused.is_err_and(|error| error.is_timeout()));
    /// drop(permit);
    /// ```
    pub fn reserve_deadline(
        &self,
        deadline: Instant,
    ) -> Result<Permit<'_, T, P, R, A>, SendTimeoutError<()>>
    where
        R: Clock,
        ensures { IfOk result (λ permit. permit ≡ self.now) }
    {
        let deadline = Deadline::at(self.handle.rt(), deadline);
        let place = self.handle.wait(TryReserve, &deadline, &mut None)?;
        Ok(Permit::of(&self.handle, place))
    }

    /// As `reserve_blocking`, for a task. This is a future, which does nothing until it is polled.
    /// If it is dropped before it has answered, it holds no place. `Memory` includes the memory
    /// that keeps its waker, which the first poll that waits takes.
    ///
    /// Cost: none until it is polled (see `Reserve`).
    ///
    /// ```
    /// let (tx, rx) = bounded(&rt, rt.alloc(), 1)?;
    /// tx.try_send("Foo", 0)?;
    /// let (reserved, received) = block_on(&rt, join(tx.reserve(), rx.recv()))?;
    /// assert_eq!(rt; received, Ok(("Foo", 0)));
    /// reserved?.send("Bar", 2);
    /// assert_eq!(rt; rx.try_recv(), Ok(("Bar", 2)));
    /// ```
    pub fn reserve(&self) -> Reserve<'_, T, P, R, A>
        ensures { result ≡ record { channel = self.now; ticket = None; is_done = false } }
    {
        Calling::new(self, TryReserve)
    }
}

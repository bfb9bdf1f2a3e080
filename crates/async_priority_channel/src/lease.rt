//! Messages that are worked on, and hold their places meanwhile.
ghost use Rattle.std.specs.Prelude.{◌≡◌, ◌<◌, IfOk, IfSome, None, false};
ghost use Rattle.std.specs.Borrow.{sem};
ghost use Rattle.std.specs.Iterator.{at_most};
ghost use Rattle.async_priority_channel.specs.Lending.{LendsMessage};

use crate::handle::Handle;
use crate::iter::Waits;
use crate::permit::Permit;
use crate::receiver::Receiver;
use crate::waiting::{Calling, LeaseNext};
use priority_channel_calls::places::{Place, TryLease};
use priority_channel_core::errors::{RecvFault, TryRecvManyError};
use priority_channel_waiting::timeouts::RecvTimeoutError;
use priority_channel_waiting::until::{Deadline, Endless};
use std::alloc::{Allocator, Global};
use std::fmt;
use std::marker::Model;
use std::sync::Wait;
use std::time::{Clock, Duration, Instant};

/// A message that was received, with its place, which stays held until the message is done with:
/// the bound of the channel counts what is pending and what is in hand.
///
/// `finish` frees the place. If the lease is dropped, as by a `?`, its message is put back: it is
/// pending again, with its priority, behind its equals, and what its worker has sent stays sent.
/// That is never refused: not by a full channel, since the place was held, nor by a closed one, nor
/// for memory. A loop that drops its leases gets the same message again and again, and so does a
/// pool whose workers all fail at it: count the tries in the message, before the work. A lease that
/// is kept for ever keeps the receivers of a closed channel waiting for its message: it does not
/// expire.
///
/// `Receiver::try_lease` and its variants make it.
///
/// ```
/// let (tx, rx) = bounded(&rt, rt.alloc(), 1)?;
/// tx.try_send("compile", 2)?;
/// let lease = rx.try_lease()?;
/// assert_eq!(rt; (*lease.message(), *lease.priority()), ("compile", 2));
/// assert!(rt; rx.is_empty() && tx.is_full());
/// drop(lease);
/// assert_eq!(rt; rx.try_lease()?.finish(), ("compile", 2));
/// assert!(rt; rx.is_empty() && !tx.is_full());
/// ```
#[must_use = "its message is put back as soon as it is dropped"]
pub struct Lease<'a, T: Drop, P: Ord + Drop, R: Wait + Clone, A: Allocator + Copy = Global> {
    permit: Permit<'a, T, P, R, A>,
    msg: T,
    priority: P,
}

impl<'a, T: Drop, P: Ord + Drop, R: Wait + Clone, A: Allocator + Copy> Model
    for Lease<'a, T, P, R, A> {
    ghost use Rattle.async_priority_channel.specs.Handles.{Leased};

    ghost Value = { Leased T P };

    ghost view = { λ lease. record {
      channel = lease.permit;
      pair = (lease.msg, lease.priority);
    } };
}

impl<'a, T: Drop, P: Ord + Drop, R: Wait + Clone, A: Allocator + Copy> Lease<'a, T, P, R, A> {
    // For a pair that was received from this channel, and its place, which is held.
    pub(crate) fn of(handle: &'a Handle<T, P, R, A>, leased: (Place, (T, P))) -> Self
        ensures { result ≡ record { channel = handle.now; pair = leased.1 } }
    {
        let (place, (msg, priority)) = leased;
        Lease {
            permit: Permit::of(handle, place),
            msg,
            priority,
        }
    }

    /// The message.
    ///
    /// Cost: no lock.
    pub fn message(&self) -> &T
        ensures { result.now ≡ self.now.pair.0 }
    {
        &self.msg
    }

    /// The message, which may be changed: if it is put back, it is pending as it is by then. A job
    /// may so count how often it was tried.
    ///
    /// Cost: no lock.
    ///
    /// ```
    /// let (tx, rx) = unbounded(&rt, rt.alloc())?;
    /// tx.try_send(3, 0)?;
    /// let mut lease = rx.try_lease()?;
    /// let job = lease.message_mut();
    /// *job = 4;
    /// drop(lease);
    /// assert_eq!(rt; rx.try_recv(), Ok((4, 0)));
    /// ```
    pub fn message_mut(&mut self) -> &mut T
        ensures value { result.now ≡ self.old.pair.0 }
        ensures* writes_back { sem 𝓛 (LendsMessage T.row P.row R.row A.row P.Ord R.Clone
            A.Allocator self.entry result) }
    {
        &mut self.msg
    }

    /// The priority of the message.
    ///
    /// Cost: no lock.
    pub fn priority(&self) -> &P
        ensures { result.now ≡ self.now.pair.1 }
    {
        &self.priority
    }

    /// Frees the place, since the message is done with, and returns the message with its priority.
    ///
    /// Cost: no comparison. No memory.
    pub fn finish(self) -> (T, P)
        ensures { result ≡ self.entry.pair }
    {
        let (msg, priority, permit) = self.into_parts();
        drop(permit);
        (msg, priority)
    }

    /// Puts the message back with another priority: it is pending again, behind its equals.
    ///
    /// Cost: as `Permit::send`.
    ///
    /// ```
    /// let (tx, rx) = unbounded(&rt, rt.alloc())?;
    /// tx.try_send("flaky", 5)?;
    /// tx.try_send("steady", 3)?;
    /// rx.try_lease()?.put_back(1);
    /// assert_eq!(rt; rx.try_recv(), Ok(("steady", 3)));
    /// assert_eq!(rt; rx.try_recv(), Ok(("flaky", 1)));
    /// ```
    pub fn put_back(self, priority: P) {
        let (msg, _, permit) = self.into_parts();
        permit.send(msg, priority);
    }

    /// The message, its priority, and the permit of its place. That frees the place when it is
    /// dropped, or sends this or another message into it: a worker of a full channel can so send a
    /// job that it has found.
    ///
    /// Cost: no lock.
    ///
    /// ```
    /// let (tx, rx) = bounded(&rt, rt.alloc(), 1)?;
    /// tx.try_send("compile", 2)?;
    /// let (job, priority, permit) = rx.try_lease()?.into_parts();
    /// assert_eq!(rt; (job, priority), ("compile", 2));
    /// permit.send("link", 1);
    /// assert_eq!(rt; rx.try_recv(), Ok(("link", 1)));
    /// ```
    pub fn into_parts(self) -> (T, P, Permit<'a, T, P, R, A>)
        ensures pair { (result.0, result.1) ≡ self.entry.pair }
        ensures channel { result.2 ≡ self.entry.channel }
    {
        let Lease {
            permit,
            msg,
            priority,
        } = self;
        (msg, priority, permit)
    }
}

impl<T: Drop, P: Ord + Drop, R: Wait + Clone, A: Allocator + Copy> Drop for Lease<'_, T, P, R, A> {
    fn drop(self) {
        let Lease {
            permit,
            msg,
            priority,
        } = self;
        permit.send(msg, priority);
    }
}

impl<T: Drop, P: Ord + Drop, R: Wait + Clone, A: Allocator + Copy> fmt::Debug
    for Lease<'_, T, P, R, A> {
    ghost use Rattle.std.specs.Prelude.{Some, codes};

    ghost debug_output = { λ _. Some (codes "Lease { .. }") };

    fn fmt<W: fmt::Write>(&self, f: &mut fmt::Formatter<W>) -> fmt::Result {
        f.write_str("Lease { .. }")
    }
}

impl<T: Drop, P: Ord + Drop, R: Wait + Clone, A: Allocator + Copy> Receiver<T, P, R, A> {
    /// Receives a message at once, and keeps its place held. The errors are those of `try_recv`,
    /// and `Memory` once accepted messages and held places come to 2^64 - 1.
    ///
    /// Cost: as `try_recv`.
    ///
    /// ```
    /// let (tx, rx) = bounded(&rt, rt.alloc(), 1)?;
    /// assert!(rt; rx.try_lease().is_err_and(|error| error.is_empty()));
    /// tx.try_send("Foo", 0)?;
    /// assert_eq!(rt; rx.try_lease()?.finish(), ("Foo", 0));
    /// ```
    pub fn try_lease(&self) -> Result<Lease<'_, T, P, R, A>, TryRecvManyError>
        ensures { IfOk result (λ lease. lease.channel ≡ self.now) }
    {
        Ok(Lease::of(&self.handle, self.handle.call(TryLease)?))
    }

    /// Receives a message, or waits for one on this thread, and keeps its place held. Its errors
    /// are those of `recv_blocking`. `Closed` is returned only once nothing is pending and no place
    /// is held: what others have in hand may come back.
    ///
    /// Cost: as `try_lease` for each try. Memory for waiting, if it has to wait.
    ///
    /// ```
    /// let (tx, rx) = bounded(&rt, rt.alloc(), 1)?;
    /// let sending = thread::spawn(&rt, move || tx.send_blocking("Foo", 0))?;
    /// assert_eq!(rt; rx.lease_blocking()?.finish(), ("Foo", 0));
    /// assert_eq!(rt; sending.join(&rt), Ok(()));
    /// assert!(rt; rx.lease_blocking().is_err());
    /// ```
    pub fn lease_blocking(&self) -> Result<Lease<'_, T, P, R, A>, RecvFault>
        ensures { IfOk result (λ lease. lease.channel ≡ self.now) }
    {
        let leased = self.handle.wait(TryLease, &Endless, &mut None)?;
        Ok(Lease::of(&self.handle, leased))
    }

    /// As `lease_blocking`, but waits no longer than `timeout`, as `recv_timeout` does.
    ///
    /// Cost: as `lease_blocking`, and readings of the clock.
    ///
    /// ```
    /// let (tx, rx) = bounded(&rt, rt.alloc(), 1)?;
    /// let limit = Duration::from_millis(5);
    /// assert!(rt; rx.lease_timeout(limit).is_err_and(|error| error.is_timeout()));
    /// tx.try_send("Foo", 0)?;
    /// assert_eq!(rt; rx.lease_timeout(limit)?.finish(), ("Foo", 0));
    /// ```
    pub fn lease_timeout(
        &self,
        timeout: Duration,
    ) -> Result<Lease<'_, T, P, R, A>, RecvTimeoutError>
    where
        R: Clock,
        ensures { IfOk result (λ lease. lease.channel ≡ self.now) }
    {
        let deadline = Deadline::after(self.handle.rt(), timeout);
        let leased = self.handle.wait(TryLease, &deadline, &mut None)?;
        Ok(Lease::of(&self.handle, leased))
    }

    /// As `lease_timeout`, but waits no longer than until `deadline`.
    ///
    /// Cost: as `lease_timeout`.
    ///
    /// ```
    /// let (tx, rx) = bounded(&rt, rt.alloc(), 1)?;
    /// let limit = Duration::from_millis(5);
    /// let deadline = Instant::now(&rt)?.checked_add(limit).expect(&rt, "too late");
    /// assert!(rt; rx.lease_deadline(deadline).is_err_and(|error| error.is_timeout()));
    /// tx.try_send("Foo", 0)?;
    /// assert_eq!(rt; rx.lease_deadline(deadline)?.finish(), ("Foo", 0));
    /// ```
    pub fn lease_deadline(
        &self,
        deadline: Instant,
    ) -> Result<Lease<'_, T, P, R, A>, RecvTimeoutError>
    where
        R: Clock,
        ensures { IfOk result (λ lease. lease.channel ≡ self.now) }
    {
        let deadline = Deadline::at(self.handle.rt(), deadline);
        let leased = self.handle.wait(TryLease, &deadline, &mut None)?;
        Ok(Lease::of(&self.handle, leased))
    }

    /// As `lease_blocking`, for a task. This is a future, which does nothing until it is polled. If
    /// it is dropped before it has answered, it takes nothing. `Memory` includes the memory that
    /// keeps its waker, which the first poll that waits takes.
    ///
    /// Cost: none until it is polled (see `LeaseNext`).
    ///
    /// ```
    /// let (tx, rx) = bounded(&rt, rt.alloc(), 1)?;
    /// let sending = thread::spawn(&rt, move || tx.send_blocking("Foo", 0))?;
    /// assert_eq!(rt; block_on(&rt, rx.lease())??.finish(), ("Foo", 0));
    /// assert_eq!(rt; sending.join(&rt), Ok(()));
    /// ```
    pub fn lease(&self) -> LeaseNext<'_, T, P, R, A>
        ensures { result ≡ record { channel = self.now; ticket = None; is_done = false } }
    {
        Calling::new(self, TryLease)
    }

    /// The messages one after another, each with its place held, until the channel is closed,
    /// nothing is pending and no place is held. This thread waits for each of them. A worker loops
    /// over it: where it leaves by a `?`, the message that it had in hand is put back.
    ///
    /// Cost: none until it is asked for a message (see `Leases`).
    ///
    /// ```
    /// let (tx, rx) = unbounded(&rt, rt.alloc())?;
    /// tx.try_send("compile", 2)?;
    /// tx.close_when_done();
    /// for lease in rx.leases() {
    ///     if *lease.message() == "compile" {
    ///         tx.try_send("link", 1)?; // `compile` is still in hand, so the channel is open
    ///     }
    ///     lease.finish();
    /// }
    /// assert!(rt; tx.is_closed());
    /// ```
    pub fn leases(&self) -> Leases<'_, T, P, R, A> {
        Leases {
            receiver: self,
            waits: Waits::new(),
        }
    }
}

/// The messages of a channel, each with its place held. `Receiver::leases` makes it.
///
/// It waits as an `Iter` does, and never fails.
///
/// Cost: as `lease_blocking` for each message. All waits share one waiter.
#[must_use = "it receives nothing until it is asked for the next message"]
pub struct Leases<'a, T: Drop, P: Ord + Drop, R: Wait + Clone, A: Allocator + Copy = Global> {
    receiver: &'a Receiver<T, P, R, A>,
    waits: Waits<A>,
}

impl<'a, T: Drop, P: Ord + Drop, R: Wait + Clone, A: Allocator + Copy> Drop
    for Leases<'a, T, P, R, A> {
    fn drop(self) {
        let Leases {
            receiver: _,
            waits: _,
        } = self;
    }
}

impl<'a, T: Drop, P: Ord + Drop, R: Wait + Clone, A: Allocator + Copy> Iterator
    for Leases<'a, T, P, R, A> {
    type Item = Lease<'a, T, P, R, A>;

    ghost remaining = { λ s. at_most s.waits.left };

    fn next(&mut self) -> Option<Lease<'a, T, P, R, A>> {
        let receiver = self.receiver;
        let leased = self.waits.next_on(&receiver.handle, TryLease)?;
        Some(Lease::of(&receiver.handle, leased))
    }
}

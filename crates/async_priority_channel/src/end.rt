//! What the senders and the receivers of a channel have in common.
ghost use Rattle.std.specs.Prelude.{◌≡◌};
ghost use Rattle.priority_channel_core.specs.Prelude.{capacity_told};

use crate::handle::Handle;
use priority_channel_calls::ends::{Close, CloseWhenDone, Join, Leave, ShrinkToFit};
use priority_channel_core::side::Side;
use std::alloc::{AllocError, Allocator, Global};
use std::marker::Model;
use std::random::RandomSource;
use std::sync::Wait;

/// What an end of a channel does: `Sending` or `Receiving`.
pub trait Role: Copy {
    /// The side on which it waits.
    const SIDE: Side;
}

/// A handle of a channel, a `Sender` or a `Receiver`, with the calls that both have.
/// `docs/REFERENCE.md` lists them.
///
/// A handle can be moved to other threads, lent to them, and cloned. The channel closes when its
/// last sender or its last receiver is dropped.
///
/// A call that returns at once takes the channel's lock for one step, unless its cost says that it
/// takes none, and then wakes the waiters that can go on: all tasks that wait for a message (or for
/// room), and the first of the threads that do. A task that then finds nothing waits again. A call
/// that waits makes such a step for each try. On a thread it tries again for some microseconds
/// before the thread sleeps, if such tries were recently of use. In the cost of a call, n is the
/// number of pending messages, and comparisons are of priorities: those of the core's call.
///
/// The channel calls some of the user's code under its lock: the order of priorities, the
/// allocator, the iterator of a bulk send and its drop, the functions that `peek_with`,
/// `fold_pending`, `change_priority` and all calls that choose by a test or wait for a condition
/// are given, and the clone of a priority that `peek_priority` makes. If this code makes a call on
/// the channel, or drops a handle of it, it waits for ever. It should be short, since all other
/// calls wait for it.
///
/// The answer of a query was true under the lock. Another thread may have changed it by then.
///
/// ```
/// let (tx, rx) = bounded(&rt, rt.alloc(), 2)?;
/// tx.try_send("Foo", 0)?;
/// assert_eq!(rt; (rx.len(), rx.capacity()), (1, Some(2)));
/// assert!(rt; !rx.is_empty() && !rx.is_full());
/// assert_eq!(rt; (tx.sender_count(), tx.receiver_count()), (1, 1));
/// drop(tx);
/// assert!(rt; rx.is_closed() && rx.len() == 1);
/// ```
pub struct End<S: Role, T, P: Ord, R: Wait + Clone, A: Allocator + Copy = Global> {
    pub(crate) handle: Handle<T, P, R, A>,
    pub(crate) role: S,
}

impl<S: Role, T, P: Ord, R: Wait + Clone, A: Allocator + Copy> Model for End<S, T, P, R, A> {
    ghost use Rattle.async_priority_channel.specs.Handles.{Channel};

    ghost Value = { Channel };

    ghost view = { λ end. end.handle };
}

impl<S: Role, T, P: Ord, R: Wait + Clone, A: Allocator + Copy> End<S, T, P, R, A> {
    pub(crate) fn new(handle: Handle<T, P, R, A>, role: S) -> Self
        ensures { result ≡ handle }
    {
        End { handle, role }
    }

    /// Closes the channel for good, and returns whether it was open. Pending messages can still be
    /// received. All waiting tasks and threads are woken.
    ///
    /// Cost: no comparison. No memory.
    ///
    /// ```
    /// let (tx, rx) = unbounded(&rt, rt.alloc())?;
    /// tx.try_send("Foo", 0)?;
    /// assert!(rt; tx.close());
    /// assert!(rt; !rx.close());
    /// let refused = tx.try_send("Bar", 2);
    /// assert_eq!(rt; refused, Err(TrySendError::Closed(("Bar", 2))));
    /// assert_eq!(rt; rx.try_recv(), Ok(("Foo", 0)));
    /// assert_eq!(rt; rx.try_recv(), Err(TryRecvError::Closed));
    /// ```
    pub fn close(&self) -> bool {
        self.handle.call(Close)
    }

    /// From now on the channel closes as soon as all is done: no message is pending, and no place
    /// is held, so no message is in hand either. If that is so already, as in a channel into which
    /// nothing was sent yet, it closes at once.
    ///
    /// It ends a pool whose workers also send to their own channel. Such a worker takes its
    /// messages by leases: what it sends before it has finished its message comes in time. A plain
    /// receive of the last message ends the channel, before its worker can send another one. A
    /// producer that has more to send holds a permit meanwhile, in a bounded channel one of its
    /// places. A pool that only puts messages back ends as well by the drop of its last sender.
    ///
    /// A send or a reserve that waits for room does not count as work. Once all is done, also by
    /// `retain` or `take_where`, it is refused as `Closed`.
    ///
    /// Cost: no comparison. No memory.
    ///
    /// ```
    /// let (tx, rx) = unbounded(&rt, rt.alloc())?;
    /// tx.try_send("Foo", 0)?;
    /// tx.close_when_done();
    /// let lease = rx.try_lease()?;
    /// assert!(rt; !tx.is_closed());
    /// tx.try_send("Bar", 2)?;
    /// lease.finish();
    /// assert!(rt; !tx.is_closed());
    /// rx.try_lease()?.finish();
    /// assert!(rt; tx.is_closed());
    /// ```
    pub fn close_when_done(&self) {
        self.handle.call(CloseWhenDone)
    }

    /// Whether the channel is closed: by a call of `close`, by the drop of the last sender or
    /// receiver, or since all is done after a call of `close_when_done`.
    ///
    /// Cost: one hold of the lock.
    pub fn is_closed(&self) -> bool {
        self.handle.lock().core().is_closed()
    }

    /// Whether no message is pending.
    ///
    /// Cost: one hold of the lock.
    pub fn is_empty(&self) -> bool {
        self.handle.lock().core().is_empty()
    }

    /// Whether there is no room: as many messages are pending and places are held as the capacity.
    ///
    /// Cost: one hold of the lock.
    pub fn is_full(&self) -> bool {
        self.handle.lock().core().is_full()
    }

    /// The number of pending messages.
    ///
    /// Cost: one hold of the lock.
    pub fn len(&self) -> u64 {
        self.handle.lock().core().len()
    }

    /// The number of places that are held: by permits, and by leases for messages in hand.
    ///
    /// Cost: one hold of the lock. `len` takes another, and a message may be received or put back
    /// in between.
    ///
    /// ```
    /// let (tx, rx) = bounded(&rt, rt.alloc(), 2)?;
    /// let permit = tx.try_reserve()?;
    /// assert_eq!(rt; (rx.held(), rx.len()), (1, 0));
    /// permit.send("Foo", 0);
    /// assert_eq!(rt; (rx.held(), rx.len()), (0, 1));
    /// ```
    pub fn held(&self) -> u64 {
        self.handle.lock().core().held()
    }

    /// The greatest number of messages that may be pending and of places that may be held at a
    /// time. None if the capacity is `u64::MAX`.
    ///
    /// Cost: no lock.
    pub fn capacity(&self) -> Option<u64>
        ensures { result ≡ capacity_told self.now.capacity }
    {
        self.handle.capacity()
    }

    /// Gives back the memory of a queue that was longer: what the channel keeps is for the pending
    /// messages and the held places, or what `bounded_reserved` has reserved. If a smaller block of
    /// memory is refused, the channel keeps its own.
    ///
    /// Cost: the pending messages may be moved, under the lock.
    ///
    /// ```
    /// let (tx, rx) = unbounded(&rt, rt.alloc())?;
    /// tx.try_send("Foo", 0)?;
    /// tx.try_send("Bar", 2)?;
    /// assert_eq!(rt; rx.try_recv(), Ok(("Bar", 2)));
    /// rx.shrink_to_fit();
    /// assert_eq!(rt; rx.try_recv(), Ok(("Foo", 0)));
    /// ```
    pub fn shrink_to_fit(&self) {
        self.handle.call(ShrinkToFit)
    }

    /// Whether the other is a handle of the same channel, and as this one a sender or a receiver.
    ///
    /// A channel is identified by 128 random bits, so the permission must also be a `RandomSource`.
    /// While that is refused the bits, the call tries again, and does not return.
    ///
    /// Cost: no lock. When a channel is compared for the first time, it draws its random bits.
    ///
    /// ```
    /// let (tx, _rx) = unbounded::<&str, u64, _, _>(&rt, rt.alloc())?;
    /// let (other, _other_rx) = unbounded(&rt, rt.alloc())?;
    /// assert!(rt; tx.same_channel(&tx.clone()?));
    /// assert!(rt; !tx.same_channel(&other));
    /// ```
    pub fn same_channel(&self, other: &Self) -> bool
    where
        R: RandomSource,
    {
        self.handle.is_same(&other.handle)
    }

    /// The number of the channel's senders.
    ///
    /// Cost: one hold of the lock.
    pub fn sender_count(&self) -> usize {
        self.handle.lock().core().sender_count()
    }

    /// The number of the channel's receivers.
    ///
    /// Cost: one hold of the lock.
    pub fn receiver_count(&self) -> usize {
        self.handle.lock().core().receiver_count()
    }
}

/// Another sender or receiver of the channel. Each message goes to one receiver. A clone is refused
/// if there are more than `usize::MAX / 2`, or if memory is refused. The count is then unchanged.
///
/// Cost: one hold of the lock.
///
/// ```
/// let (tx, rx) = unbounded(&rt, rt.alloc())?;
/// let other = tx.clone()?;
/// let sending = thread::spawn(&rt, move || other.try_send("Foo", 0))?;
/// assert_eq!(rt; sending.join(&rt), Ok(()));
/// assert!(rt; !rx.is_closed());
/// drop(tx);
/// assert!(rt; rx.is_closed());
/// ```
impl<S: Role, T: Drop, P: Ord + Drop, R: Wait + Clone, A: Allocator + Copy> Clone
    for End<S, T, P, R, A> {
    ghost use Rattle.async_priority_channel.specs.Handles.{SameChannel};

    ghost is_clone = { SameChannel };

    fn clone(&self) -> Result<Self, AllocError> {
        let handle = self.handle.share()?;
        // This comes last, so that a refusal above leaves the count unchanged.
        if !self.handle.call(Join { side: S::SIDE }) {
            return Err(AllocError);
        }
        Ok(End::new(handle, self.role))
    }
}

impl<S: Role, T: Drop, P: Ord + Drop, R: Wait + Clone, A: Allocator + Copy> Drop
    for End<S, T, P, R, A> {
    fn drop(self) {
        let End { handle, role: _ } = self;
        let others = handle.call(Leave { side: S::SIDE });
        let was_last = S::SIDE == Side::Message && others == Some(0);
        if was_last {
            handle.let_go();
        }
    }
}

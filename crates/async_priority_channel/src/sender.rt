//! The handle that sends.
ghost use Rattle.std.specs.Prelude.{◌≡◌, IfOk, IfErr, IfSome};
ghost use Rattle.std.specs.declared.cmp.Ordering.TheVariants.{Less};
ghost use Rattle.std.specs.Iterator.Adapters.{peekable_can};
ghost use Rattle.priority_channel_core.specs.Prelude.{HasList, rest_of};
ghost use Rattle.priority_channel_waiting.specs.Holding.{HoldsTail, unpolled};

use crate::end::{End, Role};
use crate::waiting::{Send, SendState, Sendv, SendvState, Task, Waiting};
use priority_channel_calls::bulk::TrySendv;
use priority_channel_calls::sends::{TrySend, TrySendEvicting};
use priority_channel_core::errors::TrySendError;
use priority_channel_core::side::Side;
use std::alloc::{Allocator, Global};
use std::fmt;
use std::iter::Peekable;
use std::sync::Wait;

/// The role of a sender.
#[derive(Clone, Copy)]
pub struct Sending;

impl Role for Sending {
    const SIDE: Side = Side::Room;
}

/// Sends messages into a channel, each with a priority.
///
/// `docs/REFERENCE.md` lists its calls. `End` has those that a receiver has too, and says which of
/// the user's code is called under the channel's lock.
///
/// ```
/// let (tx, rx) = unbounded(&rt, rt.alloc())?;
/// let other = tx.clone()?;
/// tx.try_send("Foo", 0)?;
/// drop(tx);
/// assert!(rt; !rx.is_closed());
/// drop(other);
/// assert!(rt; rx.is_closed());
/// assert_eq!(rt; rx.try_recv(), Ok(("Foo", 0)));
/// ```
pub type Sender<T, P, R, A = Global> = End<Sending, T, P, R, A>;

impl<T: Drop, P: Ord + Drop, R: Wait + Clone, A: Allocator + Copy> Sender<T, P, R, A> {
    /// Sends as many messages as there is room for, in one step. The error gives back the rest:
    /// `Closed` if the channel is closed, `Full` if there was no more room, and `Memory` if the
    /// channel could not get memory for more. What was sent stays sent, and the rest can be sent
    /// again. No messages at all are refused as `Full` by a full channel.
    ///
    /// The iterator is called under the channel's lock (see `End`), and is dropped there if all was
    /// sent.
    ///
    /// Cost: for each message that is sent, at most as many comparisons as the number of pending
    /// messages has binary digits at the end. Memory for the messages, unless it is reserved.
    ///
    /// ```
    /// let (tx, rx) = bounded(&rt, rt.alloc(), 2)?;
    /// let jobs = [("compile", 2), ("link", 1), ("test", 0)];
    /// if let Err(refusal) = tx.try_sendv(jobs.into_iter().peekable()) {
    ///     assert!(rt; refusal.is_full());
    ///     assert_eq!(rt; refusal.into_inner().next(), Some(("test", 0)));
    /// }
    /// assert_eq!(rt; rx.try_recv(), Ok(("compile", 2)));
    /// ```
    pub fn try_sendv<I: Iterator<Item = (T, P)>>(
        &self,
        msgs: Peekable<I>,
    ) -> Result<(), TrySendError<Peekable<I>>>
        requires { peekable_can I.can_next msgs }
        ensures handed_back { IfErr result (λ error. HoldsTail (HasList I.next_gives) msgs
            (rest_of error)) }
        ensures callable { IfErr result (λ error. peekable_can I.can_next (rest_of error)) }
    {
        self.handle.call(TrySendv { msgs })
    }

    /// Sends a message as soon as there is room. This is a future, which does nothing until it is
    /// polled. If it is dropped before it has answered, it sends nothing. The error is `Closed`, or
    /// `Memory` if memory was refused. That includes the memory that keeps its waker, which the
    /// first poll that waits takes. Either error gives the message back.
    ///
    /// Room that becomes free goes to the send that takes it first, whatever its priority: other
    /// sends may pass one that waits.
    ///
    /// The first `?` below is for `block_on`, the second for the error of the send.
    ///
    /// Cost: none until it is polled (see `Send`).
    ///
    /// ```
    /// let (tx, rx) = bounded(&rt, rt.alloc(), 1)?;
    /// block_on(&rt, tx.send("Foo", 0))??;
    /// let (sent, received) = block_on(&rt, join(tx.send("Bar", 2), rx.recv()))?;
    /// assert_eq!(rt; received, Ok(("Foo", 0)));
    /// assert_eq!(rt; sent, Ok(()));
    /// ```
    pub fn send(&self, msg: T, priority: P) -> Send<'_, T, P, R, A>
        ensures channel { result.channel ≡ self.now }
        ensures holds { result.state ≡ unpolled (msg, priority) }
    {
        Waiting {
            end: self,
            task: Task::new(SendState::new(msg, priority)),
        }
    }

    /// Sends all messages, as there is room. This is a future: each poll sends a prefix, and the
    /// future waits with the rest. A poll that has to wait looks twice, in two steps, and may send
    /// in both. What it sent stays sent, also if it is dropped or ends in an error, as where the
    /// channel is closed between the two. Its errors are those of `send`, and give back the rest.
    /// The iterator is called and dropped as by `try_sendv`.
    ///
    /// Cost: none until it is polled (see `Sendv`).
    ///
    /// ```
    /// let (tx, rx) = bounded(&rt, rt.alloc(), 1)?;
    /// let jobs = [(3, 2), (4, 1)].into_iter().peekable();
    /// let receiving = thread::spawn(&rt, move || (rx.recv_blocking(), rx))?;
    /// assert!(rt; block_on(&rt, tx.sendv(jobs))?.is_ok());
    /// let (received, rx) = receiving.join(&rt);
    /// assert_eq!(rt; received, Ok((3, 2)));
    /// assert_eq!(rt; rx.try_recv(), Ok((4, 1)));
    /// ```
    pub fn sendv<I: Iterator<Item = (T, P)>>(
        &self,
        msgs: Peekable<I>,
    ) -> Sendv<'_, T, P, Peekable<I>, R, A>
        requires { peekable_can I.can_next msgs }
        ensures channel { result.channel ≡ self.now }
        ensures holds { result.state ≡ unpolled msgs }
    {
        Waiting {
            end: self,
            task: Task::new(SendvState::new(msgs)),
        }
    }
}

impl<T, P: Ord, R: Wait + Clone, A: Allocator + Copy> Sender<T, P, R, A> {
    /// Sends a message at once, or gives it back: `Closed` if the channel is closed, `Full` if it
    /// has no room, and `Memory` if it could not get memory for the message.
    ///
    /// Cost: O(log n) comparisons, at most as many as n + 1 has binary digits. Memory for the
    /// message, unless it is reserved.
    ///
    /// ```
    /// let (tx, rx) = bounded(&rt, rt.alloc(), 1)?;
    /// tx.try_send("Foo", 0)?;
    /// assert_eq!(rt; tx.try_send("Bar", 2), Err(TrySendError::Full(("Bar", 2))));
    /// drop(rx);
    /// let refused = tx.try_send("Bar", 2);
    /// assert_eq!(rt; refused, Err(TrySendError::Closed(("Bar", 2))));
    /// ```
    pub fn try_send(&self, msg: T, priority: P) -> Result<(), TrySendError<(T, P)>>
        ensures { IfErr result (λ error. rest_of error ≡ (msg, priority)) }
    {
        self.handle.call(TrySend { msg, priority })
    }

    /// Sends a message at once, into a full channel in the place of the pending message of least
    /// priority, which is returned. Among equals that is the one accepted last. Only a message of
    /// greater priority displaces it. If no pending message has a lesser priority, the new message
    /// comes back, as `Full`. `Closed` and `Memory` are as for `try_send`.
    ///
    /// It goes ahead of the tasks and threads that wait in `send` for room, also of those with a
    /// greater priority. If the channel is full, it wakes only `recv_when_*` and `recv_where_*`.
    ///
    /// The first such send into a full channel reorders the pending messages, so that both the
    /// greatest and the least are known. The channel keeps this order.
    ///
    /// Cost: as `try_send` if there is room. A displacement makes O(log n) comparisons, at most
    /// 2 d + 1, where d is the number of binary digits of n, and takes no memory. The first such
    /// send into a full channel makes at most n d more. From then on sends of equal priorities cost
    /// as much as others.
    ///
    /// ```
    /// let (tx, rx) = bounded(&rt, rt.alloc(), 2)?;
    /// tx.try_send("report", 1)?;
    /// tx.try_send("thumbnail", 0)?;
    /// assert_eq!(rt; tx.try_send_evicting("payment", 9), Ok(Some(("thumbnail", 0))));
    /// let refused = tx.try_send_evicting("thumbnail", 0);
    /// assert_eq!(rt; refused, Err(TrySendError::Full(("thumbnail", 0))));
    /// assert_eq!(rt; rx.try_recv(), Ok(("payment", 9)));
    /// ```
    pub fn try_send_evicting(
        &self,
        msg: T,
        priority: P,
    ) -> Result<Option<(T, P)>, TrySendError<(T, P)>>
        ensures handed_back { IfErr result (λ error. rest_of error ≡ (msg, priority)) }
        ensures less_urgent { IfOk result (λ displaced. IfSome displaced (λ out.
            P.cmp out.1 priority ≡ Less)) }
    {
        self.handle.call(TrySendEvicting { msg, priority })
    }
}

impl<T, P: Ord, R: Wait + Clone, A: Allocator + Copy> fmt::Debug for Sender<T, P, R, A> {
    ghost use Rattle.std.specs.Prelude.{Some, codes};

    ghost debug_output = { λ _. Some (codes "Sender { .. }") };

    fn fmt<W: fmt::Write>(&self, f: &mut fmt::Formatter<W>) -> fmt::Result {
        f.write_str("Sender { .. }")
    }
}

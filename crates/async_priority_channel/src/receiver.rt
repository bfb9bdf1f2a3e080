//! The handle that receives.
ghost use Rattle.std.specs.Prelude.{◌≡◌};
ghost use Rattle.priority_channel_waiting.specs.Holding.{unpolled};

use crate::end::{End, Role};
use crate::waiting::{Recv, RecvState, Task, Waiting};
use priority_channel_calls::receives::TryRecv;
use priority_channel_core::errors::TryRecvError;
use priority_channel_core::side::Side;
use std::alloc::{Allocator, Global};
use std::fmt;
use std::sync::Wait;

/// The role of a receiver.
#[derive(Clone, Copy)]
pub struct Receiving;

impl Role for Receiving {
    const SIDE: Side = Side::Message;
}

/// Receives the messages of a channel: the greatest priority first, and among equal priorities the
/// one accepted first.
///
/// `docs/REFERENCE.md` lists its calls. `End` has those that a sender has too, and says which of
/// the user's code is called under the channel's lock.
///
/// Messages that are pending when the last receiver is dropped stay in memory as long as there is a
/// handle of the channel, and so does what they own. A client that waits for the answer to a
/// request that nobody will receive waits for ever. With `close_on_drop` such messages are dropped.
///
/// ```
/// let (tx, rx) = unbounded(&rt, rt.alloc())?;
/// tx.try_send("first", 5)?;
/// tx.try_send("second", 5)?;
/// tx.try_send("urgent", 9)?;
/// assert_eq!(rt; rx.try_recv(), Ok(("urgent", 9)));
/// assert_eq!(rt; rx.try_recv(), Ok(("first", 5)));
/// assert_eq!(rt; rx.try_recv(), Ok(("second", 5)));
/// ```
pub type Receiver<T, P, R, A = Global> = End<Receiving, T, P, R, A>;

impl<T: Drop, P: Ord + Drop, R: Wait + Clone, A: Allocator + Copy> Receiver<T, P, R, A> {
    /// Receives a message as soon as there is one. This is a future, which does nothing until it is
    /// polled. If it is dropped before it has answered, it takes nothing. The error is `Closed` if
    /// no message can come any more, or `Memory` if memory was refused. That includes the memory
    /// that keeps its waker, which the first poll that waits takes.
    ///
    /// Cost: none until it is polled (see `Recv`).
    ///
    /// ```
    /// let (tx, rx) = unbounded(&rt, rt.alloc())?;
    /// let sending = thread::spawn(&rt, move || tx.try_send("Foo", 0))?;
    /// let (job, priority) = block_on(&rt, rx.recv())??;
    /// assert_eq!(rt; (job, priority), ("Foo", 0));
    /// assert_eq!(rt; sending.join(&rt), Ok(()));
    /// ```
    pub fn recv(&self) -> Recv<'_, T, P, R, A>
        ensures channel { result.channel ≡ self.now }
        ensures fresh { result.state ≡ unpolled tt }
    {
        Waiting {
            end: self,
            task: Task::new(RecvState::new()),
        }
    }
}

impl<T, P: Ord, R: Wait + Clone, A: Allocator + Copy> Receiver<T, P, R, A> {
    /// Receives a message at once, with its priority. The error is `Empty` if no message is
    /// pending, and `Closed` if none can come any more. Messages that are pending in a closed
    /// channel are still received.
    ///
    /// Cost: O(log n) comparisons, at most twice as many as n has binary digits. No memory.
    ///
    /// ```
    /// let (tx, rx) = unbounded(&rt, rt.alloc())?;
    /// assert_eq!(rt; rx.try_recv(), Err(TryRecvError::Empty));
    /// tx.try_send("Foo", 0)?;
    /// drop(tx);
    /// assert_eq!(rt; rx.try_recv(), Ok(("Foo", 0)));
    /// assert_eq!(rt; rx.try_recv(), Err(TryRecvError::Closed));
    /// ```
    pub fn try_recv(&self) -> Result<(T, P), TryRecvError> {
        self.handle.call(TryRecv)
    }
}

impl<T, P: Ord, R: Wait + Clone, A: Allocator + Copy> fmt::Debug for Receiver<T, P, R, A> {
    ghost use Rattle.std.specs.Prelude.{Some, codes};

    ghost debug_output = { λ _. Some (codes "Receiver { .. }") };

    fn fmt<W: fmt::Write>(&self, f: &mut fmt::Formatter<W>) -> fmt::Result {
        f.write_str("Receiver { .. }")
    }
}

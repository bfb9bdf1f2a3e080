//! A guard that closes its channel.
use crate::end::{End, Role};
use crate::handle::Handle;
use priority_channel_calls::ends::Close;
use priority_channel_core::side::Side;
use std::alloc::{Allocator, Global};
use std::sync::Wait;

/// Closes the channel when it is dropped, so that no sender or receiver waits for one that has
/// failed. `close_on_drop` of a sender or a receiver makes it.
#[must_use = "it closes the channel as soon as it is dropped"]
pub struct CloseOnDrop<'a, T, P: Ord, R: Wait + Clone, A: Allocator + Copy = Global> {
    handle: &'a Handle<T, P, R, A>,
    // Whether pending messages are dropped with the last receiver.
    lets_go: bool,
}

impl<T, P: Ord, R: Wait + Clone, A: Allocator + Copy> Drop for CloseOnDrop<'_, T, P, R, A> {
    fn drop(self) {
        let CloseOnDrop { handle, lets_go } = self;
        if lets_go {
            handle.let_go_at_last();
        }
        handle.call(Close);
    }
}

impl<S: Role, T, P: Ord, R: Wait + Clone, A: Allocator + Copy> End<S, T, P, R, A> {
    /// A guard whose drop closes the channel, however its scope is left. Pending messages can still
    /// be received.
    ///
    /// Cost: no lock. The drop of the guard costs as `close`.
    ///
    /// ```
    /// let (tx, rx) = unbounded(&rt, rt.alloc())?;
    /// let other = tx.clone()?;
    /// let guard = tx.close_on_drop();
    /// other.try_send("Foo", 0)?;
    /// drop(guard);
    /// assert!(rt; other.is_closed());
    /// assert_eq!(rt; rx.try_recv(), Ok(("Foo", 0)));
    /// ```
    ///
    /// If the guard is a receiver's, messages that are still pending when the last receiver is
    /// dropped are dropped with it. A message may hold the means of an answer: then the client that
    /// waits for that answer learns that none comes.
    ///
    /// ```
    /// let (answer, answers) = unbounded::<&str, u64, _, _>(&rt, rt.alloc())?;
    /// let (tx, requests) = unbounded(&rt, rt.alloc())?;
    /// assert!(rt; tx.try_send(answer, 0).is_ok());
    /// let guard = requests.close_on_drop();
    /// drop(guard);
    /// drop(requests);
    /// assert_eq!(rt; answers.try_recv(), Err(TryRecvError::Closed));
    /// ```
    pub fn close_on_drop(&self) -> CloseOnDrop<'_, T, P, R, A> {
        CloseOnDrop {
            handle: &self.handle,
            lets_go: matches!(S::SIDE, Side::Message),
        }
    }
}

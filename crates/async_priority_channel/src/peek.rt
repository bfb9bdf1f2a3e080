//! Queries of the message that a receive would give.
ghost use Rattle.std.specs.Prelude.{IfSome};

use crate::receiver::Receiver;
use std::alloc::{AllocError, Allocator};
use std::sync::Wait;

impl<T, P: Ord, R: Wait + Clone, A: Allocator + Copy> Receiver<T, P, R, A> {
    /// Calls `look` on the message and the priority that a receive would give, and returns its
    /// result. Both stay pending. None if nothing is pending. By the time of the answer another
    /// receiver may have taken them.
    ///
    /// Cost: no comparison, and one call of `look` under the channel's lock (see `End`).
    ///
    /// ```
    /// let (tx, rx) = unbounded(&rt, rt.alloc())?;
    /// tx.try_send("water the plants", Reverse(30))?;
    /// let now = 20;
    /// let is_due = rx.peek_with(|_, Reverse(due)| *due <= now);
    /// assert_eq!(rt; is_due, Some(false));
    /// assert_eq!(rt; rx.len(), 1);
    /// ```
    pub fn peek_with<X, F: FnOnce(&T, &P) -> X>(&self, look: F) -> Option<X>
    where
        F: Drop,
        requires { F.IsAlwaysCallable look }
        ensures { IfSome result (λ told. (msg : _) × (priority : _)
            × F.post look msg priority told) }
    {
        let held = self.handle.lock();
        match held.core().peek() {
            Some((msg, priority)) => Some(look(msg, priority)),
            None => None,
        }
    }

    /// A clone of the priority that a receive would give, which stays pending. None if nothing is
    /// pending. The error is that the clone was refused.
    ///
    /// Cost: no comparison, and one clone of a priority under the channel's lock.
    ///
    /// ```
    /// let (tx, rx) = unbounded(&rt, rt.alloc())?;
    /// assert_eq!(rt; rx.peek_priority()?, None);
    /// tx.try_send("Foo", 7)?;
    /// assert_eq!(rt; rx.peek_priority()?, Some(7));
    /// assert_eq!(rt; rx.try_recv(), Ok(("Foo", 7)));
    /// ```
    pub fn peek_priority(&self) -> Result<Option<P>, AllocError>
    where
        P: Clone,
    {
        self.peek_with(|_, priority| priority.clone()).transpose()
    }
}

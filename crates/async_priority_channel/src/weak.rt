//! Handles that do not keep a channel open.
ghost use Rattle.std.specs.Prelude.{IfOk, IfSome};
ghost use Rattle.async_priority_channel.specs.Handles.{SameChannel};

use crate::end::{End, Role};
use crate::handle::Handle;
use crate::receiver::Receiving;
use crate::sender::Sending;
use priority_channel_calls::ends::JoinOpen;
use std::alloc::{AllocError, Allocator, Global};
use std::fmt;
use std::marker::Model;
use std::sync::Wait;

/// A handle that does not keep the channel open: it is not counted as a sender or a receiver.
/// `downgrade` makes it of a sender (a `WeakSender`) or of a receiver (a `WeakReceiver`).
///
/// It cannot open a closed channel again. Pending messages stay in memory while it exists, also
/// once all senders and receivers are gone, unless a receiver's `close_on_drop` has them dropped.
#[derive(Drop)]
pub struct Weak<S: Role, T, P: Ord, R: Wait + Clone, A: Allocator + Copy = Global> {
    handle: Handle<T, P, R, A>,
    role: S,
}

/// A weak handle of a sender. `Sender::downgrade` makes it.
pub type WeakSender<T, P, R, A = Global> = Weak<Sending, T, P, R, A>;

/// A weak handle of a receiver. `Receiver::downgrade` makes it.
pub type WeakReceiver<T, P, R, A = Global> = Weak<Receiving, T, P, R, A>;

impl<S: Role, T, P: Ord, R: Wait + Clone, A: Allocator + Copy> Model for Weak<S, T, P, R, A> {
    ghost use Rattle.async_priority_channel.specs.Handles.{Channel};

    ghost Value = { Channel };

    ghost view = { λ weak. weak.handle };
}

impl<S: Role, T: Drop, P: Ord + Drop, R: Wait + Clone, A: Allocator + Copy> Weak<S, T, P, R, A> {
    /// Another sender, or receiver, of the channel. None if the channel is closed, or if a clone
    /// would be refused.
    ///
    /// Cost: one hold of the lock.
    ///
    /// ```
    /// let (tx, rx) = unbounded::<&str, u64, _, _>(&rt, rt.alloc())?;
    /// let weak = tx.downgrade()?;
    /// assert!(rt; weak.upgrade().is_some());
    /// drop(tx);
    /// assert!(rt; weak.upgrade().is_none() && rx.is_closed());
    /// ```
    pub fn upgrade(&self) -> Option<End<S, T, P, R, A>>
        ensures { IfSome result (λ end. SameChannel self.now end) }
    {
        let handle = self.handle.share().ok()?;
        // This comes last, so that a refusal above leaves the count unchanged.
        if self.handle.call(JoinOpen { side: S::SIDE }) != Some(true) {
            return None;
        }
        Some(End::new(handle, self.role))
    }
}

impl<S: Role, T, P: Ord, R: Wait + Clone, A: Allocator + Copy> Weak<S, T, P, R, A> {
    /// As `End::is_closed`.
    ///
    /// Cost: one hold of the lock.
    ///
    /// ```
    /// let (tx, rx) = unbounded::<&str, u64, _, _>(&rt, rt.alloc())?;
    /// let weak = rx.downgrade()?;
    /// assert!(rt; !weak.is_closed());
    /// drop(tx);
    /// assert!(rt; weak.is_closed());
    /// ```
    pub fn is_closed(&self) -> bool {
        self.handle.lock().core().is_closed()
    }
}

impl<S: Role, T, P: Ord, R: Wait + Clone, A: Allocator + Copy> End<S, T, P, R, A> {
    /// A handle of the channel that is not counted as a sender or a receiver. It changes no count.
    /// It is refused if memory is refused.
    ///
    /// Cost: no lock.
    ///
    /// ```
    /// let (tx, rx) = unbounded::<&str, u64, _, _>(&rt, rt.alloc())?;
    /// let weak = tx.downgrade()?;
    /// assert_eq!(rt; rx.sender_count(), 1);
    /// drop(tx);
    /// assert!(rt; rx.is_closed() && weak.upgrade().is_none());
    /// ```
    pub fn downgrade(&self) -> Result<Weak<S, T, P, R, A>, AllocError>
        ensures { IfOk result (λ weak. SameChannel self.now weak) }
    {
        let handle = self.handle.share()?;
        let role = self.role;
        Ok(Weak { handle, role })
    }
}

/// Another weak handle of the channel.
///
/// Cost: no lock.
impl<S: Role, T: Drop, P: Ord + Drop, R: Wait + Clone, A: Allocator + Copy> Clone
    for Weak<S, T, P, R, A> {
    ghost use Rattle.async_priority_channel.specs.Handles.{SameChannel};

    ghost is_clone = { SameChannel };

    fn clone(&self) -> Result<Self, AllocError> {
        let handle = self.handle.share()?;
        let role = self.role;
        Ok(Weak { handle, role })
    }
}

impl<T, P: Ord, R: Wait + Clone, A: Allocator + Copy> fmt::Debug for WeakSender<T, P, R, A> {
    ghost use Rattle.std.specs.Prelude.{Some, codes};

    ghost debug_output = { λ _. Some (codes "WeakSender { .. }") };

    fn fmt<W: fmt::Write>(&self, f: &mut fmt::Formatter<W>) -> fmt::Result {
        f.write_str("WeakSender { .. }")
    }
}

impl<T, P: Ord, R: Wait + Clone, A: Allocator + Copy> fmt::Debug for WeakReceiver<T, P, R, A> {
    ghost use Rattle.std.specs.Prelude.{Some, codes};

    ghost debug_output = { λ _. Some (codes "WeakReceiver { .. }") };

    fn fmt<W: fmt::Write>(&self, f: &mut fmt::Formatter<W>) -> fmt::Result {
        f.write_str("WeakReceiver { .. }")
    }
}

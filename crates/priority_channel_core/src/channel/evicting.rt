//! A send that makes room in a full channel.
ghost use Rattle.std.specs.Prelude.{◌≡◌, ◌+◌, ◌*◌, ◌<◌, ◌^◌, true, false, length, IfOk, IfErr, IfSome, OnOk, OnErr, IsOk, Ok, Err, Some, None};
ghost use Rattle.std.specs.declared.cmp.Ordering.TheVariants.{Less};
ghost use Rattle.priority_channel_core.specs.bag.Prelude.{digits, NoneBelow};
ghost use Rattle.priority_channel_core.specs.Prelude.{nobody, Step, rest_of, ComparesAtMost, search_for_least, HasRoom, HasNumber, HasMemory, IsFull, SomeBelow};

use crate::awaitable_atomics::Wakes;
use crate::calls::{Answer, Call};
use crate::channel::PriorityQueueChannel;
use crate::errors::TrySendError;
use std::alloc::Allocator;

impl<T, P: Ord, W: Clone, A: Allocator + Copy> PriorityQueueChannel<T, P, W, A> {
    /// Sends a pair. If the channel is full, the pair takes the place of the pending pair of least
    /// priority (among equals the one accepted last), if its own priority is greater. The displaced
    /// pair comes back. If no pending pair has a lesser priority, the new pair comes back, as
    /// `Full`.
    ///
    /// If the channel is full, it takes no memory, and goes ahead of waiting senders. `Memory` is
    /// returned as by `try_send`, and if the last number of a pair was used.
    ///
    /// The first such call into a full channel makes the least pair known. From then on each send
    /// keeps it known. So a send of a pair of lesser priority than all others then costs as much as
    /// one of greater priority.
    pub fn try_send_evicting(
        &mut self,
        msg: T,
        priority: P,
    ) -> (Result<Option<(T, P)>, TrySendError<(T, P)>>, Wakes<W, A>)
        ensures step { Step P.cmp W.is_clone self.old.state (Call.TrySendEvicting msg priority)
            (Answer.TrySendEvicting result.0) result.1 self.new.state }
        ensures closed { self.old.state.is_closed ≡ true
            → result.0 ≡ Err (TrySendError.Closed (msg, priority)) }
        ensures full { IsFull self.old.state → HasNumber self.old.state
            → NoneBelow P.cmp self.old.state.pending priority
            → result.0 ≡ Err (TrySendError.Full (msg, priority)) }
        ensures displaces { IsFull self.old.state → HasNumber self.old.state
            → SomeBelow P.cmp self.old.state.pending priority
            → (out : T × P) × (result.0 ≡ Ok (Some out)) }
        ensures room { HasRoom self.old.state → OnOk result.0 (result.0 ≡ Ok None) }
        ensures reserved { HasRoom self.old.state → HasMemory self.old.state → IsOk result.0 }
        ensures displaced { IfOk result.0 (λ displaced. IfSome displaced (λ out.
            (P.cmp out.1 priority ≡ Less) × (result.1 ≡ nobody)
            × (self.new.state.waiters ≡ self.old.state.waiters)
            × (length self.new.state.pending ≡ length self.old.state.pending))) }
        ensures handed_back { IfErr result.0 (λ error. rest_of error ≡ (msg, priority)) }
        ensures unchanged { OnErr result.0 (self.new.state ≡ self.old.state) }
        ensures cost { ComparesAtMost
            (search_for_least self.old + 2 * digits (length self.new.state.pending) + 1) 0 self.old
            self.new }
        ensures known { length self.old.state.pending + self.old.state.held
            ≡ self.old.state.capacity → OnOk result.0 (self.new.knows_least ≡ true) }
    {
        let (is_closed, count) = self.word.load();
        let held = self.word.held();
        if is_closed || count + held < self.capacity {
            let (sent, wakes) = self.try_send(msg, priority);
            return (sent.map(|()| None), wakes);
        }
        if !self.bag.can_push_beside(held) {
            return (
                Err(TrySendError::Memory((msg, priority))),
                Wakes::nobody(self.alloc),
            );
        }
        let reply = match self.bag.displace(msg, priority) {
            Ok(out) => Ok(Some(out)),
            Err(pair) => Err(TrySendError::Full(pair)),
        };
        (reply, Wakes::nobody(self.alloc))
    }
}

//! The end of a wait.
ghost use Rattle.priority_channel_core.specs.declared.calls.Call.TheVariants as call;
ghost use Rattle.priority_channel_core.specs.declared.calls.Answer.TheVariants as answer;
ghost use Rattle.priority_channel_calls.specs.Told.Told.{Exactly};

use crate::call::CoreCall;
use priority_channel_core::awaitable_atomics::Wakes;
use priority_channel_core::channel::PriorityQueueChannel;
use std::alloc::Allocator;

/// Takes the waiter that has this ticket off its list. It is not `Drop`, so code cannot forget it.
pub struct GiveUp {
    pub ticket: u64,
}

impl<T, P: Ord, W: Clone, A: Allocator + Copy> CoreCall<T, P, W, A> for GiveUp {
    type Answer = ();

    ghost told = { λ it done. Exactly (call.GiveUp it.ticket) answer.GiveUp };

    #[tactic(auto, using(crate::proofs::Runs::makes_one))]
    fn make_on(self, core: &mut PriorityQueueChannel<T, P, W, A>) -> ((), Wakes<W, A>) {
        let GiveUp { ticket } = self;
        core.give_up(ticket);
        ((), core.nobody())
    }
}

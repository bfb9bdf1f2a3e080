//! A call of the core as a value.
ghost use Rattle.std.specs.Prelude.{⊤};

use priority_channel_core::awaitable_atomics::Wakes;
use priority_channel_core::channel::PriorityQueueChannel;
use std::alloc::Allocator;

/// A call of the core, to be made once.
///
/// To generic code neither the call nor its answer is `Drop`: it can lose neither, and it gets an
/// answer only by making the call.
pub trait CoreCall<T, P: Ord, W: Clone, A: Allocator + Copy>: Sized {
    ghost use Rattle.priority_channel_core.specs.Prelude.{Handed};
    ghost use Rattle.priority_channel_calls.specs.Told.{Told, Makes};

    type Answer;

    // Holds for a call that may be made.
    ghost can_make: { Self → Type 0 } = { λ _. ⊤ };

    // What the call and its answer tell of the steps that were made.
    ghost told: { Self → Self.Answer → Told T P W };

    // What the answer promises, whatever the state was.
    ghost gives: { Self → Self.Answer → Type 0 } = { λ _ _. ⊤ };

    /// Makes the call.
    fn make_on(self, core: &mut PriorityQueueChannel<T, P, W, A>) -> (Self::Answer, Wakes<W, A>)
        requires { can_make self }
        ensures made { Makes P.cmp W.is_clone core.old.state (told self result.0) result.1
            core.new.state }
        ensures gives { gives self result.0 };
}

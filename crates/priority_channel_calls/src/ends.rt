//! Handles that come and go, and the close.
ghost use Rattle.priority_channel_core.specs.declared.calls.Call.TheVariants as call;
ghost use Rattle.priority_channel_core.specs.declared.calls.Answer.TheVariants as answer;
ghost use Rattle.priority_channel_calls.specs.Told.{joined, joined_open, left};
ghost use Rattle.priority_channel_calls.specs.Told.Told.{Exactly, Nothing};

use crate::call::CoreCall;
use priority_channel_core::awaitable_atomics::Wakes;
use priority_channel_core::channel::PriorityQueueChannel;
use priority_channel_core::side::Side;
use std::alloc::Allocator;

/// The close. The answer is whether the channel was open.
#[derive(Clone, Copy)]
pub struct Close;

impl<T, P: Ord, W: Clone, A: Allocator + Copy> CoreCall<T, P, W, A> for Close {
    type Answer = bool;

    ghost told = { λ it was_open. Exactly call.Close (answer.Close was_open) };

    #[tactic(auto, using(crate::proofs::Runs::makes_one))]
    fn make_on(self, core: &mut PriorityQueueChannel<T, P, W, A>) -> (bool, Wakes<W, A>) {
        core.close()
    }
}

/// The close once nothing is pending and no place is held.
#[derive(Clone, Copy)]
pub struct CloseWhenDone;

impl<T, P: Ord, W: Clone, A: Allocator + Copy> CoreCall<T, P, W, A> for CloseWhenDone {
    type Answer = ();

    ghost told = { λ it done. Exactly call.CloseWhenDone answer.CloseWhenDone };

    #[tactic(auto, using(crate::proofs::Runs::makes_one))]
    fn make_on(self, core: &mut PriorityQueueChannel<T, P, W, A>) -> ((), Wakes<W, A>) {
        ((), core.close_when_done())
    }
}

/// Memory of a queue that was longer goes back. No state changes.
#[derive(Clone, Copy)]
pub struct ShrinkToFit;

impl<T, P: Ord, W: Clone, A: Allocator + Copy> CoreCall<T, P, W, A> for ShrinkToFit {
    type Answer = ();

    ghost told = { λ it done. Nothing };

    #[tactic(auto, using(crate::proofs::Runs::makes_nothing))]
    fn make_on(self, core: &mut PriorityQueueChannel<T, P, W, A>) -> ((), Wakes<W, A>) {
        core.shrink_to_fit();
        ((), core.nobody())
    }
}

/// Another handle of a side. The answer is false if there are too many.
#[derive(Clone, Copy)]
pub struct Join {
    pub side: Side,
}

impl<T, P: Ord, W: Clone, A: Allocator + Copy> CoreCall<T, P, W, A> for Join {
    type Answer = bool;

    ghost told = { λ it done. joined it.side done };

    #[tactic(auto, using(crate::proofs::Runs::makes_one))]
    fn make_on(self, core: &mut PriorityQueueChannel<T, P, W, A>) -> (bool, Wakes<W, A>) {
        match self.side {
            Side::Room => (core.clone_sender(), core.nobody()),
            Side::Message => (core.clone_receiver(), core.nobody()),
        }
    }
}

/// Another handle of a side, if the channel is open. The answer is None if it is closed.
#[derive(Clone, Copy)]
pub struct JoinOpen {
    pub side: Side,
}

impl<T, P: Ord, W: Clone, A: Allocator + Copy> CoreCall<T, P, W, A> for JoinOpen {
    type Answer = Option<bool>;

    ghost told = { λ it done. joined_open it.side done };

    #[tactic(auto, using(crate::proofs::Runs::makes_one))]
    fn make_on(self, core: &mut PriorityQueueChannel<T, P, W, A>) -> (Option<bool>, Wakes<W, A>) {
        if core.is_closed() {
            return (None, core.nobody());
        }
        match self.side {
            Side::Room => (Some(core.clone_sender()), core.nobody()),
            Side::Message => (Some(core.clone_receiver()), core.nobody()),
        }
    }
}

/// A handle of a side goes. The answer is how many others of that side there are; None if none was
/// counted. The last one closes the channel.
#[derive(Clone, Copy)]
pub struct Leave {
    pub side: Side,
}

impl<T, P: Ord, W: Clone, A: Allocator + Copy> CoreCall<T, P, W, A> for Leave {
    type Answer = Option<usize>;

    ghost told = { λ it others. left it.side others };

    #[tactic(auto, using(crate::proofs::Runs::makes_one, crate::proofs::Runs::makes_nothing))]
    fn make_on(self, core: &mut PriorityQueueChannel<T, P, W, A>) -> (Option<usize>, Wakes<W, A>) {
        match self.side {
            Side::Room if core.sender_count() > 0 => {
                let wakes = core.drop_sender();
                (Some(core.sender_count()), wakes)
            }
            Side::Message if core.receiver_count() > 0 => {
                let wakes = core.drop_receiver();
                (Some(core.receiver_count()), wakes)
            }
            _ => (None, core.nobody()),
        }
    }
}

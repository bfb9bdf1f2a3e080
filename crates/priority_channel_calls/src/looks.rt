//! Looks, which change nothing.
ghost use Rattle.priority_channel_core.specs.declared.calls.Call.TheVariants as call;
ghost use Rattle.priority_channel_core.specs.declared.calls.Answer.TheVariants as answer;
ghost use Rattle.priority_channel_calls.specs.Told.Told.{Exactly};

use crate::call::CoreCall;
use priority_channel_core::awaitable_atomics::Wakes;
use priority_channel_core::channel::PriorityQueueChannel;
use std::alloc::Allocator;

/// Whether the channel is closed.
#[derive(Clone, Copy)]
pub struct IsClosed;

impl<T, P: Ord, W: Clone, A: Allocator + Copy> CoreCall<T, P, W, A> for IsClosed {
    type Answer = bool;

    ghost told = { λ it seen. Exactly call.IsClosed (answer.IsClosed seen) };

    #[tactic(auto, using(crate::proofs::Runs::makes_one))]
    fn make_on(self, core: &mut PriorityQueueChannel<T, P, W, A>) -> (bool, Wakes<W, A>) {
        (core.is_closed(), core.nobody())
    }
}

/// Whether no pair is pending.
#[derive(Clone, Copy)]
pub struct IsEmpty;

impl<T, P: Ord, W: Clone, A: Allocator + Copy> CoreCall<T, P, W, A> for IsEmpty {
    type Answer = bool;

    ghost told = { λ it seen. Exactly call.IsEmpty (answer.IsEmpty seen) };

    #[tactic(auto, using(crate::proofs::Runs::makes_one))]
    fn make_on(self, core: &mut PriorityQueueChannel<T, P, W, A>) -> (bool, Wakes<W, A>) {
        (core.is_empty(), core.nobody())
    }
}

/// Whether there is no room.
#[derive(Clone, Copy)]
pub struct IsFull;

impl<T, P: Ord, W: Clone, A: Allocator + Copy> CoreCall<T, P, W, A> for IsFull {
    type Answer = bool;

    ghost told = { λ it seen. Exactly call.IsFull (answer.IsFull seen) };

    #[tactic(auto, using(crate::proofs::Runs::makes_one))]
    fn make_on(self, core: &mut PriorityQueueChannel<T, P, W, A>) -> (bool, Wakes<W, A>) {
        (core.is_full(), core.nobody())
    }
}

/// The number of pending pairs.
#[derive(Clone, Copy)]
pub struct Len;

impl<T, P: Ord, W: Clone, A: Allocator + Copy> CoreCall<T, P, W, A> for Len {
    type Answer = u64;

    ghost told = { λ it seen. Exactly call.Len (answer.Len seen) };

    #[tactic(auto, using(crate::proofs::Runs::makes_one))]
    fn make_on(self, core: &mut PriorityQueueChannel<T, P, W, A>) -> (u64, Wakes<W, A>) {
        (core.len(), core.nobody())
    }
}

/// How many pairs may be pending at a time. None if the capacity is `u64::MAX`.
#[derive(Clone, Copy)]
pub struct Capacity;

impl<T, P: Ord, W: Clone, A: Allocator + Copy> CoreCall<T, P, W, A> for Capacity {
    type Answer = Option<u64>;

    ghost told = { λ it seen. Exactly call.Capacity (answer.Capacity seen) };

    #[tactic(auto, using(crate::proofs::Runs::makes_one))]
    fn make_on(self, core: &mut PriorityQueueChannel<T, P, W, A>) -> (Option<u64>, Wakes<W, A>) {
        (core.capacity(), core.nobody())
    }
}

/// The number of senders.
#[derive(Clone, Copy)]
pub struct SenderCount;

impl<T, P: Ord, W: Clone, A: Allocator + Copy> CoreCall<T, P, W, A> for SenderCount {
    type Answer = usize;

    ghost told = { λ it seen. Exactly call.SenderCount (answer.SenderCount seen) };

    #[tactic(auto, using(crate::proofs::Runs::makes_one))]
    fn make_on(self, core: &mut PriorityQueueChannel<T, P, W, A>) -> (usize, Wakes<W, A>) {
        (core.sender_count(), core.nobody())
    }
}

/// The number of receivers.
#[derive(Clone, Copy)]
pub struct ReceiverCount;

impl<T, P: Ord, W: Clone, A: Allocator + Copy> CoreCall<T, P, W, A> for ReceiverCount {
    type Answer = usize;

    ghost told = { λ it seen. Exactly call.ReceiverCount (answer.ReceiverCount seen) };

    #[tactic(auto, using(crate::proofs::Runs::makes_one))]
    fn make_on(self, core: &mut PriorityQueueChannel<T, P, W, A>) -> (usize, Wakes<W, A>) {
        (core.receiver_count(), core.nobody())
    }
}

/// The number of held places.
#[derive(Clone, Copy)]
pub struct Held;

impl<T, P: Ord, W: Clone, A: Allocator + Copy> CoreCall<T, P, W, A> for Held {
    type Answer = u64;

    ghost told = { λ it seen. Exactly call.Held (answer.Held seen) };

    #[tactic(auto, using(crate::proofs::Runs::makes_one))]
    fn make_on(self, core: &mut PriorityQueueChannel<T, P, W, A>) -> (u64, Wakes<W, A>) {
        (core.held(), core.nobody())
    }
}

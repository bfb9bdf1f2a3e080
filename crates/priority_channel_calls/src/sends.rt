//! Sends of one pair.
ghost use Rattle.std.specs.Prelude.{◌≡◌, IfErr, IfOk, IfSome};
ghost use Rattle.std.specs.declared.cmp.Ordering.TheVariants.{Less};
ghost use Rattle.priority_channel_core.specs.declared.calls.Call.TheVariants as call;
ghost use Rattle.priority_channel_core.specs.declared.calls.Answer.TheVariants as answer;
ghost use Rattle.priority_channel_core.specs.Prelude.{rest_of};
ghost use Rattle.priority_channel_calls.specs.Told.Told.{Exactly};

use crate::call::CoreCall;
use priority_channel_core::awaitable_atomics::Wakes;
use priority_channel_core::channel::PriorityQueueChannel;
use priority_channel_core::errors::TrySendError;
use std::alloc::Allocator;

/// A send, if there is room.
#[derive(Drop)]
pub struct TrySend<T, P> {
    pub msg: T,
    pub priority: P,
}

impl<T, P: Ord, W: Clone, A: Allocator + Copy> CoreCall<T, P, W, A> for TrySend<T, P> {
    type Answer = Result<(), TrySendError<(T, P)>>;

    ghost told = { λ it reply. Exactly (call.TrySend it.msg it.priority) (answer.TrySend reply) };

    ghost gives = { λ it reply. IfErr reply (λ error. rest_of error ≡ (it.msg, it.priority)) };

    #[tactic(auto, using(crate::proofs::Runs::makes_one))]
    #[inline(always)]
    fn make_on(
        self,
        core: &mut PriorityQueueChannel<T, P, W, A>,
    ) -> (Result<(), TrySendError<(T, P)>>, Wakes<W, A>) {
        let TrySend { msg, priority } = self;
        core.try_send(msg, priority)
    }
}

/// A send that makes room in a full channel, if a less urgent pair is pending.
#[derive(Drop)]
pub struct TrySendEvicting<T, P> {
    pub msg: T,
    pub priority: P,
}

impl<T, P: Ord, W: Clone, A: Allocator + Copy> CoreCall<T, P, W, A> for TrySendEvicting<T, P> {
    type Answer = Result<Option<(T, P)>, TrySendError<(T, P)>>;

    ghost told = { λ it reply.
        Exactly (call.TrySendEvicting it.msg it.priority) (answer.TrySendEvicting reply) };

    ghost gives = { λ it reply. IfErr reply (λ error. rest_of error ≡ (it.msg, it.priority))
        × IfOk reply (λ displaced. IfSome displaced (λ out. P.cmp out.1 it.priority ≡ Less)) };

    #[tactic(auto, using(crate::proofs::Runs::makes_one))]
    fn make_on(
        self,
        core: &mut PriorityQueueChannel<T, P, W, A>,
    ) -> (Result<Option<(T, P)>, TrySendError<(T, P)>>, Wakes<W, A>) {
        let TrySendEvicting { msg, priority } = self;
        core.try_send_evicting(msg, priority)
    }
}

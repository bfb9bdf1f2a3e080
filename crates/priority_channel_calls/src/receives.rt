//! Receives of one pair.
ghost use Rattle.std.specs.Prelude.{true, false, All, IfOk, IfNone, IfSome};
ghost use Rattle.priority_channel_core.specs.bag.Prelude.{Tells};
ghost use Rattle.priority_channel_core.specs.declared.calls.Call.TheVariants as call;
ghost use Rattle.priority_channel_core.specs.declared.calls.Answer.TheVariants as answer;
ghost use Rattle.priority_channel_calls.specs.Chosen.{MostUrgent};
ghost use Rattle.priority_channel_calls.specs.Told.{received_if, received_where, Makes};
ghost use Rattle.priority_channel_calls.specs.Told.Told.{Exactly};

use crate::call::CoreCall;
use priority_channel_core::awaitable_atomics::Wakes;
use priority_channel_core::channel::PriorityQueueChannel;
use priority_channel_core::errors::TryRecvError;
use std::alloc::Allocator;

/// A receive of the most urgent pair.
#[derive(Clone, Copy)]
pub struct TryRecv;

impl<T, P: Ord, W: Clone, A: Allocator + Copy> CoreCall<T, P, W, A> for TryRecv {
    type Answer = Result<(T, P), TryRecvError>;

    ghost told = { λ it reply. Exactly call.TryRecv (answer.TryRecv reply) };

    #[tactic(auto, using(crate::proofs::Runs::makes_one))]
    #[inline(always)]
    fn make_on(
        self,
        core: &mut PriorityQueueChannel<T, P, W, A>,
    ) -> (Result<(T, P), TryRecvError>, Wakes<W, A>) {
        core.try_recv()
    }
}

/// A receive of the most urgent pair, if it passes a test.
pub struct TryRecvIf<'f, F> {
    pub test: &'f F,
}

impl<T, P: Ord, W: Clone, A: Allocator + Copy, F: Fn(&T, &P) -> bool> CoreCall<T, P, W, A>
    for TryRecvIf<'_, F> {
    type Answer = Result<Option<(T, P)>, TryRecvError>;

    ghost can_make = { λ it. F.IsAlwaysCallable it.test.now };

    ghost told = { λ it reply. received_if reply };

    ghost gives = { λ it reply. IfOk reply (λ taken. IfSome taken (λ pair.
        Tells F.Fn it.test.now pair true)) };

    #[tactic(auto, using(crate::proofs::Runs::makes_one, crate::proofs::Runs::makes_nothing))]
    fn make_on(
        self,
        core: &mut PriorityQueueChannel<T, P, W, A>,
    ) -> (Result<Option<(T, P)>, TryRecvError>, Wakes<W, A>) {
        let TryRecvIf { test } = self;
        core.try_recv_if(test)
    }
}

/// A receive of the most urgent pair that passes a test.
pub struct TryRecvWhere<'f, F> {
    pub test: &'f F,
}

impl<T, P: Ord, W: Clone, A: Allocator + Copy, F: Fn(&T, &P) -> bool> CoreCall<T, P, W, A>
    for TryRecvWhere<'_, F> {
    type Answer = Result<Option<(T, P)>, TryRecvError>;

    ghost can_make = { λ it. F.IsAlwaysCallable it.test.now };

    ghost told = { λ it reply. received_where reply };

    ghost gives = { λ it reply. IfOk reply (λ taken. IfSome taken (λ pair.
        Tells F.Fn it.test.now pair true)) };

    #[tactic(auto, using(crate::proofs::Runs::makes_one, crate::proofs::Runs::makes_nothing, crate::proofs::Runs::makes_taking))]
    fn make_on(
        self,
        core: &mut PriorityQueueChannel<T, P, W, A>,
    ) -> (Result<Option<(T, P)>, TryRecvError>, Wakes<W, A>)
        requires { F.IsAlwaysCallable self.test.now }
        ensures made { Makes P.cmp W.is_clone core.old.state (received_where result.0) result.1
            core.new.state }
        ensures meets { IfOk result.0 (λ taken. IfSome taken (λ pair.
            Tells F.Fn self.entry.test.now pair true)) }
        ensures greatest { IfOk result.0 (λ taken. IfSome taken (λ pair.
            MostUrgent P.cmp F.Fn self.entry.test.now core.old.state.pending pair
            core.new.state.pending)) }
        ensures none { IfOk result.0 (λ taken. IfNone taken
            (All (λ pair. Tells F.Fn self.entry.test.now pair false) core.old.state.pending)) }
    {
        let TryRecvWhere { test } = self;
        core.try_recv_where(test)
    }
}

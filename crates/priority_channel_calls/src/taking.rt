//! Takings, and changes of a priority, of pairs that a test chooses.
ghost use Rattle.std.specs.Prelude.{◌≡◌, true, false, All, IfOk, IfSome, IfNone, option_map, Result};
ghost use Rattle.priority_channel_core.specs.bag.Prelude.{Tells};
ghost use Rattle.priority_channel_calls.specs.Told.{taken_one, taken_all};
ghost use Rattle.priority_channel_calls.specs.Told.Told.{Changes};

use crate::call::CoreCall;
use priority_channel_core::awaitable_atomics::Wakes;
use priority_channel_core::channel::PriorityQueueChannel;
use std::alloc::{AllocError, Allocator};

/// A taking of a pair that passes a test.
pub struct TakeWhere<'f, F> {
    pub test: &'f F,
}

impl<T, P: Ord, W: Clone, A: Allocator + Copy, F: Fn(&T, &P) -> bool> CoreCall<T, P, W, A>
    for TakeWhere<'_, F> {
    type Answer = Option<(T, P)>;

    ghost can_make = { λ it. F.IsAlwaysCallable it.test.now };

    ghost told = { λ it taken. taken_one taken };

    ghost gives = { λ it taken. IfSome taken (λ pair. Tells F.Fn it.test.now pair true) };

    #[tactic(auto, using(crate::proofs::Runs::makes_nothing, crate::proofs::Runs::makes_taking))]
    fn make_on(self, core: &mut PriorityQueueChannel<T, P, W, A>) -> (Option<(T, P)>, Wakes<W, A>) {
        let TakeWhere { test } = self;
        core.take_where(test)
    }
}

/// A change of the priority of the first pair that passes a test. The answer is the priority that
/// is not used: the former one, or the given one if no pair passes.
pub struct ChangePriority<'f, P, F> {
    pub test: &'f F,
    pub priority: P,
}

impl<T, P: Ord, W: Clone, A: Allocator + Copy, F: Fn(&T, &P) -> bool> CoreCall<T, P, W, A>
    for ChangePriority<'_, P, F> {
    type Answer = Result<P, P>;

    ghost can_make = { λ it. F.IsAlwaysCallable it.test.now };

    ghost told = { λ it changed. Changes it.priority changed };

    ghost gives = { λ it changed. IfOk changed (λ was. (msg : T)
        × Tells F.Fn it.test.now (msg, was) true) };

    #[tactic(auto, using(crate::proofs::Runs::makes_change))]
    fn make_on(self, core: &mut PriorityQueueChannel<T, P, W, A>) -> (Result<P, P>, Wakes<W, A>) {
        let ChangePriority { test, priority } = self;
        let changed = core.change_priority(test, priority);
        (changed, core.nobody())
    }
}

/// A taking of all pairs that do not pass a test, into a vector that has this allocator.
pub struct Retain<'f, F, A> {
    pub test: &'f F,
    pub alloc: A,
}

impl<T, P: Ord, W: Clone, A: Allocator + Copy, F: Fn(&T, &P) -> bool> CoreCall<T, P, W, A>
    for Retain<'_, F, A> {
    ghost use Rattle.priority_channel_calls.specs.Told.{items_of};

    type Answer = Result<Vec<(T, P), A>, AllocError>;

    ghost can_make = { λ it. F.IsAlwaysCallable it.test.now };

    ghost told = { λ it taken. taken_all (items_of taken) };

    ghost gives = { λ it taken. IfOk taken (λ pairs.
        All (λ pair. Tells F.Fn it.test.now pair false) pairs.items) };

    #[tactic(auto, using(crate::proofs::Runs::makes_nothing, crate::proofs::Runs::makes_takings))]
    fn make_on(
        self,
        core: &mut PriorityQueueChannel<T, P, W, A>,
    ) -> (Result<Vec<(T, P), A>, AllocError>, Wakes<W, A>) {
        let Retain { test, alloc } = self;
        match Vec::with_capacity(alloc, core.len() as usize) {
            Err(refused) => (Err(refused), core.nobody()),
            Ok(mut taken) => {
                let wakes = core.retain(test, &mut taken);
                (Ok(taken), wakes)
            }
        }
    }
}

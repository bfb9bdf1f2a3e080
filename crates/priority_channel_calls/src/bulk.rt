//! A send of many pairs.
ghost use Rattle.std.specs.Prelude.{IfErr};
ghost use Rattle.std.specs.Iterator.Adapters.{peekable_can};
ghost use Rattle.priority_channel_core.specs.Prelude.{HasList, rest_of};
ghost use Rattle.priority_channel_calls.specs.Tails.{HoldsTail};
ghost use Rattle.priority_channel_calls.specs.Told.Told.{SendsSome};

use crate::call::CoreCall;
use priority_channel_core::awaitable_atomics::Wakes;
use priority_channel_core::channel::PriorityQueueChannel;
use priority_channel_core::errors::TrySendError;
use std::alloc::Allocator;
use std::iter::Peekable;

/// A send of as many pairs as there is room for. The others come back.
pub struct TrySendv<M> {
    pub msgs: M,
}

impl<T: Drop, P: Ord + Drop, W: Clone, A: Allocator + Copy, I: Iterator<Item = (T, P)>> CoreCall<
    T,
    P,
    W,
    A,
> for TrySendv<Peekable<I>> {
    type Answer = Result<(), TrySendError<Peekable<I>>>;

    ghost can_make = { λ it. peekable_can I.can_next it.msgs };

    ghost told = { λ it reply. SendsSome };

    ghost gives = { λ it reply. IfErr reply (λ error.
        HoldsTail (HasList I.next_gives) it.msgs (rest_of error)
        × peekable_can I.can_next (rest_of error)) };

    fn make_on(
        self,
        core: &mut PriorityQueueChannel<T, P, W, A>,
    ) -> (Result<(), TrySendError<Peekable<I>>>, Wakes<W, A>) {
        let TrySendv { msgs } = self;
        core.try_sendv(msgs)
    }
}

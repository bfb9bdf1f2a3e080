//! Held places: got, kept, filled and freed.
ghost use Rattle.std.specs.Prelude.{◌≡◌, true, false, All, IfOk, IfErr, IfNone, IfSome};
ghost use Rattle.priority_channel_core.specs.bag.Prelude.{Tells};
ghost use Rattle.priority_channel_core.specs.declared.calls.Call.TheVariants as call;
ghost use Rattle.priority_channel_core.specs.declared.calls.Answer.TheVariants as answer;
ghost use Rattle.priority_channel_calls.specs.Chosen.{MostUrgent};
ghost use Rattle.priority_channel_calls.specs.Told.{beside_place, beside_place_if, leased_if, leased_where, without_place, put_told, Makes};
ghost use Rattle.priority_channel_calls.specs.Told.Told.{Exactly, After};

use crate::call::CoreCall;
use priority_channel_core::awaitable_atomics::Wakes;
use priority_channel_core::channel::PriorityQueueChannel;
use priority_channel_core::errors::{TryRecvManyError, TrySendError};
use std::alloc::Allocator;

/// A place that is held in a channel. It has no bytes. It is neither `Drop` nor `Clone`, and only
/// the calls below make one: so code that holds a place cannot forget it, hold it twice or make one
/// up. It goes back by `Fill` or by `Free`.
pub struct Place {
    seal: (),
}

/// A place for a pair that is still to come.
#[derive(Clone, Copy)]
pub struct TryReserve;

impl<T, P: Ord, W: Clone, A: Allocator + Copy> CoreCall<T, P, W, A> for TryReserve {
    type Answer = Result<Place, TrySendError<()>>;

    ghost told = { λ it reply. Exactly call.TryReserve (answer.TryReserve (without_place reply)) };

    #[tactic(auto, using(crate::proofs::Runs::makes_one))]
    fn make_on(
        self,
        core: &mut PriorityQueueChannel<T, P, W, A>,
    ) -> (Result<Place, TrySendError<()>>, Wakes<W, A>) {
        let reserved = match core.try_reserve() {
            Ok(()) => Ok(Place { seal: () }),
            Err(error) => Err(error),
        };
        (reserved, core.nobody())
    }
}

/// A receive of the most urgent pair, whose place stays held.
#[derive(Clone, Copy)]
pub struct TryLease;

impl<T, P: Ord, W: Clone, A: Allocator + Copy> CoreCall<T, P, W, A> for TryLease {
    type Answer = Result<(Place, (T, P)), TryRecvManyError>;

    ghost told = { λ it reply. Exactly call.TryLease (answer.TryLease (beside_place reply)) };

    #[tactic(auto, using(crate::proofs::Runs::makes_one))]
    fn make_on(
        self,
        core: &mut PriorityQueueChannel<T, P, W, A>,
    ) -> (Result<(Place, (T, P)), TryRecvManyError>, Wakes<W, A>) {
        let leased = match core.try_lease() {
            Ok(pair) => Ok((Place { seal: () }, pair)),
            Err(error) => Err(error),
        };
        (leased, core.nobody())
    }
}

/// A lease of the most urgent pair, if it passes a test.
pub struct TryLeaseIf<'f, F> {
    pub test: &'f F,
}

impl<T, P: Ord, W: Clone, A: Allocator + Copy, F: Fn(&T, &P) -> bool> CoreCall<T, P, W, A>
    for TryLeaseIf<'_, F> {
    type Answer = Result<Option<(Place, (T, P))>, TryRecvManyError>;

    ghost can_make = { λ it. F.IsAlwaysCallable it.test.now };

    ghost told = { λ it reply. leased_if (beside_place_if reply) };

    ghost gives = { λ it reply. IfOk reply (λ leased. IfSome leased (λ held.
        Tells F.Fn it.test.now held.1 true)) };

    #[tactic(auto, using(crate::proofs::Runs::makes_one, crate::proofs::Runs::makes_nothing))]
    fn make_on(
        self,
        core: &mut PriorityQueueChannel<T, P, W, A>,
    ) -> (
        Result<Option<(Place, (T, P))>, TryRecvManyError>,
        Wakes<W, A>,
    ) {
        let TryLeaseIf { test } = self;
        (hold_place(core.try_lease_if(test)), core.nobody())
    }
}

/// A lease of the most urgent pair that passes a test.
pub struct TryLeaseWhere<'f, F> {
    pub test: &'f F,
}

impl<T, P: Ord, W: Clone, A: Allocator + Copy, F: Fn(&T, &P) -> bool> CoreCall<T, P, W, A>
    for TryLeaseWhere<'_, F> {
    type Answer = Result<Option<(Place, (T, P))>, TryRecvManyError>;

    ghost can_make = { λ it. F.IsAlwaysCallable it.test.now };

    ghost told = { λ it reply. leased_where (beside_place_if reply) };

    ghost gives = { λ it reply. IfOk reply (λ leased. IfSome leased (λ held.
        Tells F.Fn it.test.now held.1 true)) };

    #[tactic(auto, using(crate::proofs::Runs::makes_one, crate::proofs::Runs::makes_nothing, crate::proofs::Runs::makes_lease))]
    fn make_on(
        self,
        core: &mut PriorityQueueChannel<T, P, W, A>,
    ) -> (
        Result<Option<(Place, (T, P))>, TryRecvManyError>,
        Wakes<W, A>,
    )
        requires { F.IsAlwaysCallable self.test.now }
        ensures made { Makes P.cmp W.is_clone core.old.state
            (leased_where (beside_place_if result.0)) result.1 core.new.state }
        ensures meets { IfOk result.0 (λ leased. IfSome leased (λ held.
            Tells F.Fn self.entry.test.now held.1 true)) }
        ensures greatest { IfOk result.0 (λ leased. IfSome leased (λ held.
            MostUrgent P.cmp F.Fn self.entry.test.now core.old.state.pending held.1
            core.new.state.pending)) }
        ensures none { IfOk result.0 (λ leased. IfNone leased
            (All (λ pair. Tells F.Fn self.entry.test.now pair false) core.old.state.pending)) }
    {
        let TryLeaseWhere { test } = self;
        (hold_place(core.try_lease_where(test)), core.nobody())
    }
}

// The place of a pair that was leased, if one was.
fn hold_place<X>(
    leased: Result<Option<X>, TryRecvManyError>,
) -> Result<Option<(Place, X)>, TryRecvManyError>
    ensures { leased ≡ beside_place_if result }
{
    match leased {
        Ok(Some(pair)) => Ok(Some((Place { seal: () }, pair))),
        Ok(None) => Ok(None),
        Err(error) => Err(error),
    }
}

/// A look at the number of receivers, and a send into a held place. The answer has that number. A
/// refused one comes back.
pub struct Fill<T, P> {
    pub place: Place,
    pub msg: T,
    pub priority: P,
}

impl<T, P: Ord, W: Clone, A: Allocator + Copy> CoreCall<T, P, W, A> for Fill<T, P> {
    type Answer = (usize, Result<(), Fill<T, P>>);

    ghost told = { λ it reply. After call.ReceiverCount (answer.ReceiverCount reply.0)
        (call.Put it.msg it.priority) (answer.Put (put_told reply.1)) };

    ghost gives = { λ it reply. IfErr reply.1 (λ back. back ≡ it) };

    #[tactic(auto, using(crate::proofs::Runs::makes_after))]
    fn make_on(
        self,
        core: &mut PriorityQueueChannel<T, P, W, A>,
    ) -> ((usize, Result<(), Fill<T, P>>), Wakes<W, A>) {
        let Fill {
            place,
            msg,
            priority,
        } = self;
        let receivers = core.receiver_count();
        let (filled, wakes) = core.put(msg, priority);
        let filled = match filled {
            Ok(()) => {
                let Place { seal: () } = place;
                Ok(())
            }
            Err((msg, priority)) => Err(Fill {
                place,
                msg,
                priority,
            }),
        };
        ((receivers, filled), wakes)
    }
}

/// A held place becomes free.
pub struct Free {
    pub place: Place,
}

impl<T, P: Ord, W: Clone, A: Allocator + Copy> CoreCall<T, P, W, A> for Free {
    type Answer = bool;

    ghost told = { λ it done. Exactly call.Free (answer.Free done) };

    #[tactic(auto, using(crate::proofs::Runs::makes_one))]
    fn make_on(self, core: &mut PriorityQueueChannel<T, P, W, A>) -> (bool, Wakes<W, A>) {
        let Free {
            place: Place { seal: () },
        } = self;
        core.free()
    }
}

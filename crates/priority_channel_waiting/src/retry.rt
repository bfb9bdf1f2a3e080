//! Calls that are made again until they are done: a receive, a lease, a send, a bulk send, a
//! reserve. Each is made at once, or after a wait.
ghost use Rattle.std.specs.Prelude.{◌≡◌, ⊤, IfSome, IfOk, IfErr, Some, refl};
ghost use Rattle.std.proofs.Common.{◌∙◌};
ghost use Rattle.priority_channel_core.specs.declared.side.Side.{Side};
ghost use Rattle.priority_channel_waiting.specs.declared.retry.Outcome.{Outcome};
ghost use Rattle.priority_channel_core.specs.Prelude.{HasList};
ghost use Rattle.priority_channel_waiting.specs.Holding.{HoldsTail};
ghost use Rattle.priority_channel_waiting.specs.Ends.{OnOver};
ghost use Rattle.priority_channel_waiting.specs.Waits.{left_over, given_back, outcome_of_end, outcome_of_send, outcome_of_recv, outcome_of_lease};
ghost use Rattle.priority_channel_waiting.specs.Tails.{tail_of_itself, tail_of_tail};

use crate::timeouts::Ended;
use priority_channel_calls::bulk::TrySendv;
use priority_channel_calls::call::CoreCall;
use priority_channel_calls::places::{Place, TryLease, TryReserve};
use priority_channel_calls::receives::TryRecv;
use priority_channel_calls::sends::TrySend;
use priority_channel_core::errors::{TryRecvError, TryRecvManyError, TrySendError};
use priority_channel_core::side::Side;
use std::alloc::Allocator;
use std::iter::Peekable;

/// What came of a call. If it was not done, what is left of it comes back.
pub enum Outcome<D, L> {
    Done(D),
    /// There was no room (a send), or no message (a receive).
    Blocked(L),
    Closed(L),
    Memory(L),
}

impl<D, L> Outcome<D, L> {
    /// The answer, if there is one; otherwise what is left of the blocked call.
    #[inline(always)]
    pub fn answer<O>(self) -> Result<Result<D, Ended<L, O>>, L>
        ensures answered { IfOk result (λ answer. IfErr answer (λ ended.
            left_over self ≡ Some (given_back ended))) }
        ensures not_over { IfOk result (λ answer. IfErr answer (λ ended. OnOver ended (λ _. ⊥))) }
        ensures told { IfOk result (λ answer. self ≡ outcome_of_end answer) }
        ensures waits { IfErr result (λ left. self ≡ Outcome.Blocked left) }
        ensures blocked { IfErr result (λ left. left_over self ≡ Some left) }
    {
        match self {
            Outcome::Done(done) => Ok(Ok(done)),
            Outcome::Blocked(left) => Err(left),
            Outcome::Closed(left) => Ok(Err(Ended::Closed(left))),
            Outcome::Memory(left) => Ok(Err(Ended::Memory(left))),
        }
    }
}

/// A call that can be made again until it is done. Neither it nor what is left of it need be `Drop`:
/// no part of it can be lost.
pub trait Retry<T, P: Ord, W: Clone, A: Allocator + Copy>: CoreCall<T, P, W, A> {
    type Done;

    /// What is left of a call that was not done.
    type Left;

    // The call that is made of what is left.
    ghost call_of: { Self.Left → Self };

    // Holds for a call and what may be left of it.
    ghost leaves: { Self → Self.Left → Type 0 };

    // The side on which the call waits if it is blocked.
    ghost waits_on: { Side };

    // What an answer of the call tells.
    ghost says: { Self.Answer → Outcome Self.Done Self.Left };

    /// The side on which the call waits if it is blocked.
    fn side() -> Side
        ensures { result ≡ waits_on };

    /// The call that is made of what is left.
    fn again(left: Self::Left) -> Self
        ensures { result ≡ call_of left };

    /// What an answer of the call tells.
    fn outcome(answer: Self::Answer) -> Outcome<Self::Done, Self::Left>
        ensures told { result ≡ says answer }
        ensures left { (call : Self) → Self.gives call answer → IfSome (left_over result)
            (λ left. Self.can_make (call_of left) × leaves call left) };

    ghost whole: { (left : Self.Left) → leaves (call_of left) left };

    ghost still: { (first : Self) (next last : Self.Left) → leaves first next
        → leaves (call_of next) last → leaves first last };
}

impl<T, P: Ord, W: Clone, A: Allocator + Copy> Retry<T, P, W, A> for TryRecv {
    type Done = (T, P);

    type Left = ();

    ghost call_of = { λ _. record {} };

    ghost leaves = { λ _ _. ⊤ };

    ghost waits_on = { Side.Message };

    ghost says = { outcome_of_recv };

    ghost whole = { λ _. tt };

    ghost still = { λ _ _ _ _ _. tt };

    fn side() -> Side {
        Side::Message
    }

    fn again(_left: ()) -> Self {
        TryRecv
    }

    #[inline(always)]
    fn outcome(answer: Result<(T, P), TryRecvError>) -> Outcome<(T, P), ()> {
        match answer {
            Ok(pair) => Outcome::Done(pair),
            Err(TryRecvError::Empty) => Outcome::Blocked(()),
            Err(TryRecvError::Closed) => Outcome::Closed(()),
        }
    }
}

impl<T, P: Ord, W: Clone, A: Allocator + Copy> Retry<T, P, W, A> for TryLease {
    type Done = (Place, (T, P));

    type Left = ();

    ghost call_of = { λ _. record {} };

    ghost leaves = { λ _ _. ⊤ };

    ghost waits_on = { Side.Message };

    ghost says = { outcome_of_lease };

    ghost whole = { λ _. tt };

    ghost still = { λ _ _ _ _ _. tt };

    fn side() -> Side {
        Side::Message
    }

    fn again(_left: ()) -> Self {
        TryLease
    }

    fn outcome(answer: Result<(Place, (T, P)), TryRecvManyError>) -> Outcome<(Place, (T, P)), ()> {
        match answer {
            Ok(leased) => Outcome::Done(leased),
            Err(TryRecvManyError::Empty) => Outcome::Blocked(()),
            Err(TryRecvManyError::Closed) => Outcome::Closed(()),
            Err(TryRecvManyError::Memory) => Outcome::Memory(()),
        }
    }
}

/// What the answer of a send tells.
#[inline(always)]
pub fn send_outcome<D, L>(answer: Result<D, TrySendError<L>>) -> Outcome<D, L>
    ensures { result ≡ outcome_of_send answer }
{
    match answer {
        Ok(done) => Outcome::Done(done),
        Err(TrySendError::Full(left)) => Outcome::Blocked(left),
        Err(TrySendError::Closed(left)) => Outcome::Closed(left),
        Err(TrySendError::Memory(left)) => Outcome::Memory(left),
    }
}

impl<T, P: Ord, W: Clone, A: Allocator + Copy> Retry<T, P, W, A> for TrySend<T, P> {
    type Done = ();

    type Left = (T, P);

    ghost call_of = { λ pair. record { msg = pair.0; priority = pair.1 } };

    ghost leaves = { λ call pair. pair ≡ (call.msg, call.priority) };

    ghost waits_on = { Side.Room };

    ghost says = { outcome_of_send };

    ghost whole = { λ _. refl };

    ghost still = { λ _ _ _ one other. other ∙ one };

    fn side() -> Side {
        Side::Room
    }

    #[inline(always)]
    fn again(left: (T, P)) -> Self {
        let (msg, priority) = left;
        TrySend { msg, priority }
    }

    #[tactic(auto, using(crate::proofs::LeftOver::left_of_send))]
    #[inline(always)]
    fn outcome(answer: Result<(), TrySendError<(T, P)>>) -> Outcome<(), (T, P)> {
        send_outcome(answer)
    }
}

/// A prefix may have been sent; the rest is left.
impl<T: Drop, P: Ord + Drop, W: Clone, A: Allocator + Copy, I: Iterator<Item = (T, P)>> Retry<
    T,
    P,
    W,
    A,
> for TrySendv<Peekable<I>> {
    type Done = ();

    type Left = Peekable<I>;

    ghost call_of = { λ msgs. record { msgs = msgs } };

    ghost leaves = { λ call left. HoldsTail (HasList I.next_gives) call.msgs left };

    ghost waits_on = { Side.Room };

    ghost says = { outcome_of_send };

    ghost whole = { λ left. tail_of_itself (HasList I.next_gives) left };

    ghost still = { λ first next last.
        tail_of_tail (HasList I.next_gives) first.msgs next last };

    fn side() -> Side {
        Side::Room
    }

    fn again(left: Peekable<I>) -> Self {
        TrySendv { msgs: left }
    }

    #[tactic(auto, using(crate::proofs::LeftOver::left_of_send))]
    fn outcome(answer: Result<(), TrySendError<Peekable<I>>>) -> Outcome<(), Peekable<I>> {
        send_outcome(answer)
    }
}

impl<T, P: Ord, W: Clone, A: Allocator + Copy> Retry<T, P, W, A> for TryReserve {
    type Done = Place;

    type Left = ();

    ghost call_of = { λ _. record {} };

    ghost leaves = { λ _ _. ⊤ };

    ghost waits_on = { Side.Room };

    ghost says = { outcome_of_send };

    ghost whole = { λ _. tt };

    ghost still = { λ _ _ _ _ _. tt };

    fn side() -> Side {
        Side::Room
    }

    fn again(_left: ()) -> Self {
        TryReserve
    }

    fn outcome(answer: Result<Place, TrySendError<()>>) -> Outcome<Place, ()> {
        send_outcome(answer)
    }
}

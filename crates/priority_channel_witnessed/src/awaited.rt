//! The calls that wait: a receive, a send, a bulk send.
ghost use Rattle.std.specs.Prelude.{◌≡◌, ⊤, ℕ, Option, IfSome};
ghost use Rattle.priority_channel_core.specs.declared.calls.Call.TheVariants as call;
ghost use Rattle.priority_channel_core.specs.declared.calls.Answer.TheVariants as answer;
ghost use Rattle.priority_channel_core.specs.declared.side.Side.{Side};
ghost use Rattle.priority_channel_calls.specs.Told.{Told, Makes};
ghost use Rattle.priority_channel_calls.specs.Told.Told.{Exactly};
ghost use Rattle.priority_channel_waiting.specs.Holding.{left_after};
ghost use Rattle.priority_channel_waiting.specs.Waits.{left_at_end, outcome_of_send};
ghost use Rattle.priority_channel_witnessed.specs.Items.{list_in, listed, listed_poll};
ghost use Rattle.priority_channel_witnessed.specs.Waits.{Ending, polled_to, recv_polled, send_polled};

use priority_channel_calls::call::CoreCall;
use priority_channel_calls::receives::TryRecv;
use priority_channel_calls::sends::TrySend;
use priority_channel_core::awaitable_atomics::Wakes;
use priority_channel_core::calls::CorePoll;
use priority_channel_core::channel::PriorityQueueChannel;
use priority_channel_core::errors::{RecvFault, SendError, SendFault, TrySendError};
use priority_channel_core::side::Side;
use priority_channel_waiting::retry::{Outcome, Retry, send_outcome};
use priority_channel_waiting::timeouts::Ended;
use std::alloc::Allocator;
use std::convert::Infallible;
use std::iter::Ahead;
use std::vec::IntoIter;

/// What a poll answers: the end of the call, or what is left of it, with a ticket.
pub type Polled<D, L> = CorePoll<Result<D, Ended<L, Infallible>>, L>;

/// A call with which a waiter can be listed: a poll makes the call, or lists the waiter.
pub trait Awaited<T, P: Ord, W: Clone, A: Allocator + Copy>: Retry<T, P, W, A> {
    // What a poll tells that was made with this ticket and this waker, and ended so.
    ghost polled: { Self → Option ℕ → W → Ending Self.Done Self.Left → Told T P W };

    /// Makes the call, or lists the waiter.
    fn poll_on(
        self,
        core: &mut PriorityQueueChannel<T, P, W, A>,
        ticket: Option<u64>,
        waker: &W,
    ) -> (Polled<Self::Done, Self::Left>, Wakes<W, A>)
        requires { Self.can_make self }
        ensures made { Makes P.cmp W.is_clone core.old.state
            (polled self ticket waker.now (polled_to result.0)) result.1 core.new.state }
        ensures left { IfSome (left_after left_at_end result.0)
            (λ rest. Self.can_make (Self.call_of rest) × Self.leaves self rest) };
}

/// A poll of a call. The first one gives no ticket, and each later one the ticket of the poll
/// before: it stays listed, with a clone of the newest waker. An answer leaves the ticket in no
/// list.
pub struct PollOf<'w, C, W> {
    pub call: C,
    pub ticket: Option<u64>,
    pub waker: &'w W,
}

impl<T, P: Ord, W: Clone, A: Allocator + Copy, C: Awaited<T, P, W, A>> CoreCall<T, P, W, A>
    for PollOf<'_, C, W> {
    type Answer = Polled<C::Done, C::Left>;

    ghost can_make = { λ it. C.can_make it.call };

    ghost told = { λ it reply. C.polled it.call it.ticket it.waker.now (polled_to reply) };

    ghost gives = { λ it reply. IfSome (left_after left_at_end reply)
        (λ rest. C.can_make (C.call_of rest) × C.leaves it.call rest) };

    fn make_on(
        self,
        core: &mut PriorityQueueChannel<T, P, W, A>,
    ) -> (Polled<C::Done, C::Left>, Wakes<W, A>) {
        let PollOf {
            call,
            ticket,
            waker,
        } = self;
        call.poll_on(core, ticket, waker)
    }
}

impl<T, P: Ord, W: Clone, A: Allocator + Copy> Awaited<T, P, W, A> for TryRecv {
    ghost polled = { λ _ ticket waker ending.
        Exactly (call.PollRecv ticket waker) (answer.PollRecv (recv_polled ending)) };

    #[tactic(auto, using(priority_channel_calls::proofs::Runs::makes_one))]
    fn poll_on(
        self,
        core: &mut PriorityQueueChannel<T, P, W, A>,
        ticket: Option<u64>,
        waker: &W,
    ) -> (Polled<(T, P), ()>, Wakes<W, A>) {
        let (polled, wakes) = core.poll_recv(ticket, waker);
        let polled = match polled {
            CorePoll::Ready(Ok(pair)) => CorePoll::Ready(Ok(pair)),
            CorePoll::Ready(Err(RecvFault::Closed(_))) => CorePoll::Ready(Err(Ended::Closed(()))),
            CorePoll::Ready(Err(RecvFault::Memory)) => CorePoll::Ready(Err(Ended::Memory(()))),
            CorePoll::Pending((), ticket) => CorePoll::Pending((), ticket),
        };
        (polled, wakes)
    }
}

fn send_polled<K>(polled: CorePoll<Result<(), SendFault<K>>, K>) -> Polled<(), K>
    ensures { polled ≡ send_polled (polled_to result) }
{
    match polled {
        CorePoll::Ready(Ok(())) => CorePoll::Ready(Ok(())),
        CorePoll::Ready(Err(SendFault::Closed(SendError(rest)))) => {
            CorePoll::Ready(Err(Ended::Closed(rest)))
        }
        CorePoll::Ready(Err(SendFault::Memory(rest))) => CorePoll::Ready(Err(Ended::Memory(rest))),
        CorePoll::Pending(rest, ticket) => CorePoll::Pending(rest, ticket),
    }
}

impl<T, P: Ord, W: Clone, A: Allocator + Copy> Awaited<T, P, W, A> for TrySend<T, P> {
    ghost polled = { λ it ticket waker ending.
        Exactly (call.PollSend it.msg it.priority ticket waker)
        (answer.PollSend (send_polled ending)) };

    #[tactic(auto, using(priority_channel_calls::proofs::Runs::makes_one))]
    fn poll_on(
        self,
        core: &mut PriorityQueueChannel<T, P, W, A>,
        ticket: Option<u64>,
        waker: &W,
    ) -> (Polled<(), (T, P)>, Wakes<W, A>) {
        let TrySend { msg, priority } = self;
        let (polled, wakes) = core.poll_send(msg, priority, ticket, waker);
        (send_polled(polled), wakes)
    }
}

/// The pairs of a bulk send and what comes back of them: the `Peekable` of a vector.
pub type Pairs<T, P, A> = Ahead<IntoIter<(T, P), A>, (T, P)>;

/// A send of the pairs of a vector, in order, of as many as there is room for. What was accepted
/// stays. The rest comes back. Contracts see which pairs were sent.
#[derive(Drop)]
pub struct SendAll<T, P, A: Allocator> {
    pub msgs: Pairs<T, P, A>,
}

impl<T: Drop, P: Ord + Drop, W: Clone, A: Allocator + Copy> CoreCall<T, P, W, A>
    for SendAll<T, P, A> {
    type Answer = Result<(), TrySendError<Pairs<T, P, A>>>;

    ghost told = { λ it reply.
        Exactly (call.TrySendv (list_in it.msgs)) (answer.TrySendv (listed reply)) };

    fn make_on(
        self,
        core: &mut PriorityQueueChannel<T, P, W, A>,
    ) -> (Result<(), TrySendError<Pairs<T, P, A>>>, Wakes<W, A>) {
        let SendAll { msgs } = self;
        core.try_sendv(msgs)
    }
}

impl<T: Drop, P: Ord + Drop, W: Clone, A: Allocator + Copy> Retry<T, P, W, A> for SendAll<T, P, A> {
    type Done = ();

    type Left = Pairs<T, P, A>;

    ghost call_of = { λ msgs. record { msgs = msgs } };

    ghost leaves = { λ _ _. ⊤ };

    ghost waits_on = { Side.Room };

    ghost says = { outcome_of_send };

    ghost whole = { λ _. tt };

    ghost still = { λ _ _ _ _ _. tt };

    fn side() -> Side {
        Side::Room
    }

    fn again(left: Pairs<T, P, A>) -> Self {
        SendAll { msgs: left }
    }

    fn outcome(answer: Result<(), TrySendError<Pairs<T, P, A>>>) -> Outcome<(), Pairs<T, P, A>> {
        send_outcome(answer)
    }
}

impl<T: Drop, P: Ord + Drop, W: Clone, A: Allocator + Copy> Awaited<T, P, W, A>
    for SendAll<T, P, A> {
    ghost polled = { λ it ticket waker ending.
        Exactly (call.PollSendv (list_in it.msgs) ticket waker)
        (answer.PollSendv (listed_poll (send_polled ending))) };

    fn poll_on(
        self,
        core: &mut PriorityQueueChannel<T, P, W, A>,
        ticket: Option<u64>,
        waker: &W,
    ) -> (Polled<(), Pairs<T, P, A>>, Wakes<W, A>) {
        let SendAll { msgs } = self;
        let (polled, wakes) = core.poll_sendv(msgs, ticket, waker);
        (send_polled(polled), wakes)
    }
}

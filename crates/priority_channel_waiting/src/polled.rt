//! What futures do at each poll: a receive, a send, a bulk send.
ghost use Rattle.std.specs.Prelude.{◌≡◌, ⊤, ℕ, Option, None, Err, IfSome, refl};
ghost use Rattle.std.proofs.Common.{◌∙◌};
ghost use Rattle.std.specs.Iterator.Adapters.{peekable_can};
ghost use Rattle.priority_channel_core.specs.declared.calls.CorePoll.{CorePoll};
ghost use Rattle.priority_channel_core.specs.declared.side.Side.{Side};
ghost use Rattle.priority_channel_core.specs.Prelude.{CountedState, ComparesAtMost, Handed, HasList, search_bound};
ghost use Rattle.priority_channel_waiting.specs.Future.{GivesUpTicket};
ghost use Rattle.priority_channel_waiting.specs.Holding.{left_after, unsent_of, HoldsTail};
ghost use Rattle.priority_channel_waiting.specs.Polled.{RecvPolls, SendPolls, SendvPolls};
ghost use Rattle.priority_channel_waiting.specs.Tails.{tail_of_itself, tail_of_tail};

use priority_channel_core::awaitable_atomics::Wakes;
use priority_channel_core::calls::CorePoll;
use priority_channel_core::channel::PriorityQueueChannel;
use priority_channel_core::errors::{RecvFault, SendFault};
use priority_channel_core::side::Side;
use std::alloc::Allocator;
use std::iter::Peekable;

/// What a future keeps between its polls, and makes again at each.
pub trait Polled<T, P: Ord, W: Clone, A: Allocator + Copy>: Sized {
    type Answer;

    // Holds for what may be polled.
    ghost can_poll: { Self → Type 0 } = { λ _. ⊤ };

    // Holds for what was kept, and the rest of it that is still kept or comes back.
    ghost leaves: { Self → Self → Type 0 };

    ghost still: { (first next last : Self) → leaves first next → leaves next last
        → leaves first last };

    // The side on which it waits.
    ghost waits_on: { Side };

    // What comes back with an answer.
    ghost back: { Self.Answer → Option Self };

    // What a poll with this ticket and waker does on the core.
    ghost polls: { Self → Option ℕ → W → CountedState T P W → CorePoll Self.Answer Self → Handed W
        → CountedState T P W → Type 0 };

    /// Makes the call, or has the waker listed.
    fn poll_on(
        self,
        core: &mut PriorityQueueChannel<T, P, W, A>,
        ticket: Option<u64>,
        waker: &W,
    ) -> (CorePoll<Self::Answer, Self>, Wakes<W, A>)
        requires { can_poll self }
        ensures step { polls self ticket waker.now core.old result.0 result.1 core.new }
        ensures left { IfSome (left_after back result.0)
            (λ rest. can_poll rest × leaves self rest) };

    /// The answer if memory for waiting was refused.
    fn refuse(self) -> Self::Answer
        requires { can_poll self }
        ensures { IfSome (back result) (λ rest. can_poll rest × leaves self rest) };

    /// The side on which it waits.
    fn side() -> Side
        ensures { result ≡ waits_on };
}

/// A receive of one pair.
impl<T, P: Ord, W: Clone, A: Allocator + Copy> Polled<T, P, W, A> for () {
    type Answer = Result<(T, P), RecvFault>;

    ghost leaves = { λ _ _. ⊤ };

    ghost still = { λ _ _ _ _ _. tt };

    ghost waits_on = { Side.Message };

    ghost back = { λ _. None };

    ghost polls = { RecvPolls P.cmp W.is_clone };

    fn poll_on(
        self,
        core: &mut PriorityQueueChannel<T, P, W, A>,
        ticket: Option<u64>,
        waker: &W,
    ) -> (CorePoll<Result<(T, P), RecvFault>, ()>, Wakes<W, A>) {
        core.poll_recv(ticket, waker)
    }

    fn refuse(self) -> Result<(T, P), RecvFault>
        ensures { result ≡ Err RecvFault.Memory }
    {
        Err(RecvFault::Memory)
    }

    fn side() -> Side {
        Side::Message
    }
}

/// A send of one pair.
impl<T, P: Ord, W: Clone, A: Allocator + Copy> Polled<T, P, W, A> for (T, P) {
    type Answer = Result<(), SendFault<(T, P)>>;

    ghost leaves = { λ pair rest. rest ≡ pair };

    ghost still = { λ _ _ _ one other. other ∙ one };

    ghost waits_on = { Side.Room };

    ghost back = { unsent_of };

    ghost polls = { SendPolls P.cmp W.is_clone };

    fn poll_on(
        self,
        core: &mut PriorityQueueChannel<T, P, W, A>,
        ticket: Option<u64>,
        waker: &W,
    ) -> (CorePoll<Result<(), SendFault<(T, P)>>, (T, P)>, Wakes<W, A>) {
        let (msg, priority) = self;
        core.poll_send(msg, priority, ticket, waker)
    }

    fn refuse(self) -> Result<(), SendFault<(T, P)>>
        ensures { result ≡ Err (SendFault.Memory self) }
    {
        Err(SendFault::Memory(self))
    }

    fn side() -> Side {
        Side::Room
    }
}

/// A send of many pairs. A prefix may have been sent.
impl<T: Drop, P: Ord + Drop, W: Clone, A: Allocator + Copy, I: Iterator<Item = (T, P)>> Polled<
    T,
    P,
    W,
    A,
> for Peekable<I> {
    type Answer = Result<(), SendFault<Peekable<I>>>;

    ghost can_poll = { peekable_can I.can_next };

    ghost leaves = { HoldsTail (HasList I.next_gives) };

    ghost still = { λ first mid last. tail_of_tail (HasList I.next_gives) first mid last };

    ghost waits_on = { Side.Room };

    ghost back = { unsent_of };

    ghost polls = { SendvPolls (HasList I.next_gives) P.cmp W.is_clone };

    fn poll_on(
        self,
        core: &mut PriorityQueueChannel<T, P, W, A>,
        ticket: Option<u64>,
        waker: &W,
    ) -> (
        CorePoll<Result<(), SendFault<Peekable<I>>>, Peekable<I>>,
        Wakes<W, A>,
    ) {
        core.poll_sendv(self, ticket, waker)
    }

    fn refuse(self) -> Result<(), SendFault<Peekable<I>>>
        ensures { result ≡ Err (SendFault.Memory self) }
    {
        Err(SendFault::Memory(self))
    }

    fn side() -> Side {
        Side::Room
    }
}

// Takes this ticket, if there is one, off the waiting list.
pub(crate) fn give_up_given<T, P: Ord, W: Clone, A: Allocator + Copy>(
    ticket: Option<u64>,
    core: &mut PriorityQueueChannel<T, P, W, A>,
)
    ensures left { GivesUpTicket P.cmp W.is_clone core.old.state ticket core.new.state }
    ensures cost { ComparesAtMost 0 (search_bound core.old.state.waiters) core.old core.new }
{
    if let Some(ticket) = ticket {
        core.give_up(ticket);
    }
}

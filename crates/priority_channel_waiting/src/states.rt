//! The states of futures between polls. A poll is made on the core, under one hold of the lock that
//! guards it.
ghost use Rattle.std.specs.Prelude.{◌≡◌, ◌↔◌, IsTrue, IfSome, MatchOption, Some, None, is_some};
ghost use Rattle.std.specs.Option.{ForSome};
ghost use Rattle.futures.specs.Poll.{IfReady, OnPending};
ghost use Rattle.priority_channel_core.specs.Prelude.{nobody, ComparesAtMost, search_bound};
ghost use Rattle.priority_channel_waiting.specs.Future.{GivesUpTicket};
ghost use Rattle.priority_channel_waiting.specs.Holding.{unpolled, done, told_by, left_by, IsRestOf, PollsKept};

use crate::polled::{Polled, give_up_given};
use futures::task::Poll;
use priority_channel_core::awaitable_atomics::Wakes;
use priority_channel_core::calls::CorePoll;
use priority_channel_core::channel::PriorityQueueChannel;
use std::alloc::Allocator;
use std::marker::{Model, PhantomData};

/// The state of a future: its remaining work, until it has answered or was given up, and its
/// ticket. A poll of a state that is done returns `Pending` and changes nothing. `N` is `One` or
/// `Many`.
#[derive(Drop)]
pub struct State<K, N = One> {
    kept: Option<K>,
    ticket: Option<u64>,
    pairs: PhantomData<N>,
}

/// The future sends or receives one pair.
#[derive(Clone, Copy)]
pub struct One;

/// The future sends many pairs.
#[derive(Clone, Copy)]
pub struct Many;

/// The state of a send, which keeps its pair.
pub type SendState<T, P> = State<(T, P)>;

/// The state of a bulk send, which keeps the pairs that were not sent yet.
pub type SendvState<M> = State<M, Many>;

/// The state of a receive.
pub type RecvState = State<()>;

impl<K, N> Model for State<K, N> {
    ghost use Rattle.std.specs.Prelude.{◌≡◌, None};
    ghost use Rattle.priority_channel_waiting.specs.Holding.{Holding};

    ghost Value = { Holding K };

    ghost view = { λ s. record { kept = s.kept; ticket = s.ticket } };

    ghost invariant = { λ s. s.kept ≡ None → s.ticket ≡ None };
}

impl<K, N> State<K, N> {
    fn of(kept: Option<K>, ticket: Option<u64>) -> Self
        requires { kept ≡ None → ticket ≡ None }
        ensures { result ≡ record { kept = kept; ticket = ticket } }
    {
        State {
            kept,
            ticket,
            pairs: PhantomData,
        }
    }

    /// The ticket under which it waits, or waited until it was woken.
    pub fn ticket(&self) -> Option<u64>
        ensures { result ≡ self.now.ticket }
    {
        self.ticket
    }

    /// Whether it has answered or was given up.
    pub fn is_done(&self) -> bool
        ensures { IsTrue result ↔ (self.now.kept ≡ None) }
    {
        self.kept.is_none()
    }
}

impl<K: Drop, N> State<K, N> {
    /// Takes out the remaining work and the ticket. None if it was done.
    pub fn take(&mut self) -> Option<(K, Option<u64>)>
        ensures taken { MatchOption result (self.old ≡ done) (λ taken.
            self.old ≡ record { kept = Some taken.0; ticket = taken.1 }) }
        ensures done { self.new ≡ done }
    {
        let ticket = self.ticket.take();
        let kept = self.kept.take()?;
        Some((kept, ticket))
    }

    /// Stores what a poll handed back, and returns the result of the poll.
    pub fn keep<R>(&mut self, answer: CorePoll<R, K>) -> Poll<R>
        ensures told { result ≡ told_by answer }
        ensures left { self.new ≡ left_by answer }
    {
        match answer {
            CorePoll::Ready(outcome) => {
                *self = State::of(None, None);
                Poll::Ready(outcome)
            }
            CorePoll::Pending(kept, ticket) => {
                *self = State::of(Some(kept), Some(ticket));
                Poll::Pending
            }
        }
    }

    /// Ends the future, which no longer waits, and returns what it kept: what was not sent. None if
    /// it was done. What was sent stays sent.
    pub fn give_up_on<T, P: Ord, W: Clone, A: Allocator + Copy>(
        &mut self,
        core: &mut PriorityQueueChannel<T, P, W, A>,
    ) -> Option<K>
        ensures kept { result ≡ self.old.kept }
        ensures done { self.new ≡ done }
        ensures left { GivesUpTicket P.cmp W.is_clone core.old.state self.old.ticket
            core.new.state }
        ensures cost { ComparesAtMost 0 (search_bound core.old.state.waiters) core.old core.new }
    {
        let (kept, ticket) = self.take()?;
        give_up_given(ticket, core);
        Some(kept)
    }

    /// Receives or sends, or waits with the waker.
    pub fn poll_on<T, P: Ord, W: Clone, A: Allocator + Copy>(
        &mut self,
        core: &mut PriorityQueueChannel<T, P, W, A>,
        waker: &W,
    ) -> (Poll<K::Answer>, Wakes<W, A>)
    where
        K: Polled<T, P, W, A>,
        requires { ForSome self.old.kept K.can_poll }
        ensures step { PollsKept K.polls self.old waker.now core.old result core.new self.new }
        ensures done { self.old.kept ≡ None → (result.0 ≡ Poll.Pending) × (result.1 ≡ nobody)
            × (self.new ≡ self.old) × (core.new ≡ core.old) }
        ensures answered { IfReady result.0 (λ _. self.new ≡ done) }
        ensures waits { OnPending result.0 (is_some self.new.kept ≡ is_some self.old.kept) }
        ensures handed_back { IfReady result.0 (λ answer.
            IsRestOf K.can_poll K.leaves self.old (K.back answer)) }
        ensures kept { IsRestOf K.can_poll K.leaves self.old self.new.kept }
    {
        let Some((kept, given)) = self.take() else {
            return (Poll::Pending, core.nobody());
        };
        let (answer, wakes) = kept.poll_on(core, given, waker);
        (self.keep(answer), wakes)
    }
}

impl<T, P> SendState<T, P> {
    /// A send that has not been polled yet.
    pub fn new(msg: T, priority: P) -> Self
        ensures { result ≡ unpolled (msg, priority) }
    {
        State::of(Some((msg, priority)), None)
    }
}

impl<M> SendvState<M> {
    /// A bulk send that has not been polled yet.
    pub fn new(msgs: M) -> Self
        ensures { result ≡ unpolled msgs }
    {
        State::of(Some(msgs), None)
    }
}

impl RecvState {
    /// A receive that has not been polled yet.
    pub fn new() -> Self
        ensures { result ≡ unpolled tt }
    {
        State::of(Some(()), None)
    }
}

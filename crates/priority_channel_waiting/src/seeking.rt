//! Waits with a condition: receives and leases that choose their message by one, and the wait for
//! the close.
ghost use Rattle.std.specs.Prelude.{◌≡◌, ◌≢◌, ⊤, ℕ, true, false, All, IfOk, IfErr};
ghost use Rattle.priority_channel_core.specs.bag.Prelude.{Tells};
ghost use Rattle.priority_channel_core.specs.Prelude.{State};
ghost use Rattle.priority_channel_calls.specs.Chosen.{MostUrgent};
ghost use Rattle.priority_channel_calls.specs.Told.{Told, Makes};
ghost use Rattle.priority_channel_waiting.specs.declared.selecting.Sight.{Sight};
ghost use Rattle.priority_channel_waiting.specs.Ends.{OnOver};
ghost use Rattle.priority_channel_waiting.specs.Seeking.{leased, leased_where, received, seen_closed, sought_by, taken_where, ComesDue, IfFound, IfNotYet, NoneDue};

use crate::reading::Reading;
use crate::selecting::Sight;
use crate::timeouts::Ended;
use crate::waiter::{Core, Waiter};
use priority_channel_calls::call::CoreCall;
use priority_channel_calls::places::{Place, TryLease, TryLeaseWhere};
use priority_channel_calls::receives::{TryRecv, TryRecvWhere};
use priority_channel_core::awaitable_atomics::Wakes;
use priority_channel_core::errors::{TryRecvError, TryRecvManyError};
use std::alloc::Allocator;
use std::convert::Infallible;
use std::time::{Clock, Duration, Instant};

/// When the first pending message is to be received.
///
/// ```
/// let (tx, rx) = unbounded(&rt, rt.alloc())?;
/// tx.try_send("tea", Reverse(Instant::now(&rt)?))?;
/// let (ready, _) = rx.recv_when_blocking(|_, due| Due::At(due.0))?;
/// assert_eq!(rt; ready, "tea");
/// ```
#[derive(Clone, Copy, Drop)]
pub enum Due {
    Now,
    /// At this instant, or at once if it has passed.
    At(Instant),
    /// Not as long as it is the first and has this priority.
    Never,
}

/// What came of a look.
pub enum Sought<F> {
    Found(F),
    /// Nothing can come any more.
    Over,
    /// All numbers of pairs are used, so a lease could not come back. Or memory for waiting was
    /// refused.
    Memory,
    /// Nothing meets the condition. Something may meet it within this time, if there is one,
    /// although nothing else changes.
    NotYet(Option<Duration>),
}

impl<F> Sought<F> {
    /// The answer, if there is one; otherwise the time after which something may meet the condition.
    pub fn answer<O>(self) -> Result<Result<F, Ended<(), O>>, Option<Duration>>
        ensures answered { IfOk result (λ answer. self ≡ sought_by answer) }
        ensures not_yet { IfErr result (λ within. self ≡ Sought.NotYet within) }
        ensures not_over { IfOk result (λ answer. IfErr answer (λ ended. OnOver ended (λ _. ⊥))) }
    {
        match self {
            Sought::Found(found) => Ok(Ok(found)),
            Sought::Over => Ok(Err(Ended::Closed(()))),
            Sought::Memory => Ok(Err(Ended::Memory(()))),
            Sought::NotYet(within) => Err(within),
        }
    }
}

/// A wait with a condition.
pub trait Seek<T, P: Ord, A: Allocator + Copy> {
    ghost use Rattle.priority_channel_waiting.specs.declared.seeking.Sought.{Sought};

    type Found;

    // Holds for a condition that may be asked.
    ghost can_seek: { Self → Type 0 };

    // Holds for what may have met the condition.
    ghost meets: { Self → Self.Found → Type 0 };

    // What it and what came of a look tell of the steps that were made.
    ghost told: { Self → Sought Self.Found → Told T P ℕ };

    // What is found is the one that it seeks, in this state and the one after it.
    ghost chooses: { Self → State T P ℕ → Self.Found → State T P ℕ → Type 0 } = { λ _ _ _ _. ⊤ };

    // In this state nothing is found.
    ghost misses: { Self → State T P ℕ → Type 0 } = { λ _ _. ⊤ };

    // At what it looks.
    ghost looks_at: { Sight };

    /// At what it looks.
    fn sight() -> Sight
        ensures { result ≡ looks_at };

    /// Looks, and receives what meets the condition, if anything does.
    fn seek(&self, core: &mut Core<T, P, A>) -> (Sought<Self::Found>, Wakes<Waiter<A>, A>)
        requires { can_seek self.now }
        ensures made { Makes P.cmp ⟦<Waiter<A> as Clone>⟧.is_clone core.old.state
            (told self.now result.0) result.1 core.new.state }
        ensures met { IfFound result.0 (meets self.now) }
        ensures chosen { IfFound result.0 (λ found.
            chooses self.now core.old.state found core.new.state) }
        ensures none { IfNotYet result.0 (misses self.now core.old.state) };
}

/// A look, as a call.
pub struct Look<'s, S> {
    pub seek: &'s S,
}

impl<T, P: Ord, A: Allocator + Copy, S: Seek<T, P, A>> CoreCall<T, P, Waiter<A>, A>
    for Look<'_, S> {
    type Answer = Sought<S::Found>;

    ghost can_make = { λ it. S.can_seek it.seek.now };

    ghost told = { λ it sought. S.told it.seek.now sought };

    ghost gives = { λ it sought. IfFound sought (S.meets it.seek.now) };

    fn make_on(self, core: &mut Core<T, P, A>) -> (Sought<S::Found>, Wakes<Waiter<A>, A>) {
        let Look { seek } = self;
        seek.seek(core)
    }
}

// Whether it is due. The error is the time that is left, or None if it never comes. An instant
// counts as come if the clock cannot be read, as a deadline does.
fn check_due<C: Clock>(clock: &C, due: Due) -> Result<(), Option<Duration>>
    ensures comes { IfOk result (λ _. due ≢ Due.Never) }
    ensures waits { IfErr result (λ _. due ≢ Due.Now) }
{
    match due {
        Due::Now => Ok(()),
        Due::Never => Err(None),
        Due::At(instant) => match Reading::of(clock) {
            Ok(now) if now.at() < instant => Err(Some(instant.duration_since(now.at()))),
            _ => Ok(()),
        },
    }
}

/// A receive of the first message, once it is due.
#[derive(Drop)]
pub struct When<'a, F, C> {
    pub when: F,
    pub clock: &'a C,
}

impl<T, P: Ord, A: Allocator + Copy, F: Fn(&T, &P) -> Due, C: Clock> Seek<T, P, A>
    for When<'_, F, C> {
    type Found = (T, P);

    ghost can_seek = { λ s. F.IsAlwaysCallable s.when };

    ghost meets = { λ s pair. ComesDue F.Fn s.when pair };

    ghost told = { λ s sought. received sought };

    ghost misses = { λ s state. NoneDue F.Fn s.when P.cmp state.pending };

    ghost looks_at = { Sight.First };

    fn sight() -> Sight {
        Sight::First
    }

    fn seek(&self, core: &mut Core<T, P, A>) -> (Sought<(T, P)>, Wakes<Waiter<A>, A>) {
        if let Some((msg, priority)) = core.peek() {
            let due = (self.when)(msg, priority);
            if let Err(within) = check_due(self.clock, due) {
                return (Sought::NotYet(within), core.nobody());
            }
        }
        let (received, wakes) = TryRecv.make_on(core);
        let sought = match received {
            Ok(pair) => Sought::Found(pair),
            Err(TryRecvError::Closed) => Sought::Over,
            Err(TryRecvError::Empty) => Sought::NotYet(None),
        };
        (sought, wakes)
    }
}

/// A receive of the most urgent message that passes a test.
#[derive(Drop)]
pub struct Where<F> {
    pub test: F,
}

impl<T, P: Ord, A: Allocator + Copy, F: Fn(&T, &P) -> bool> Seek<T, P, A> for Where<F> {
    type Found = (T, P);

    ghost can_seek = { λ s. F.IsAlwaysCallable s.test };

    ghost meets = { λ s pair. Tells F.Fn s.test pair true };

    ghost told = { λ s sought. taken_where sought };

    ghost chooses = { λ s old pair new. MostUrgent P.cmp F.Fn s.test old.pending pair new.pending };

    ghost misses = { λ s state. All (λ pair. Tells F.Fn s.test pair false) state.pending };

    ghost looks_at = { Sight.All };

    fn sight() -> Sight {
        Sight::All
    }

    fn seek(&self, core: &mut Core<T, P, A>) -> (Sought<(T, P)>, Wakes<Waiter<A>, A>) {
        let (received, wakes) = TryRecvWhere { test: &self.test }.make_on(core);
        let sought = match received {
            Ok(Some(pair)) => Sought::Found(pair),
            Err(TryRecvError::Closed) => Sought::Over,
            Ok(None) | Err(TryRecvError::Empty) => Sought::NotYet(None),
        };
        (sought, wakes)
    }
}

/// A lease of the first message, once it is due.
#[derive(Drop)]
pub struct LeaseWhen<'a, F, C> {
    pub when: F,
    pub clock: &'a C,
}

impl<T, P: Ord, A: Allocator + Copy, F: Fn(&T, &P) -> Due, C: Clock> Seek<T, P, A>
    for LeaseWhen<'_, F, C> {
    type Found = (Place, (T, P));

    ghost can_seek = { λ s. F.IsAlwaysCallable s.when };

    ghost meets = { λ s leased. ComesDue F.Fn s.when leased.1 };

    ghost told = { λ s sought. leased sought };

    ghost misses = { λ s state. NoneDue F.Fn s.when P.cmp state.pending };

    ghost looks_at = { Sight.First };

    fn sight() -> Sight {
        Sight::First
    }

    fn seek(&self, core: &mut Core<T, P, A>) -> (Sought<(Place, (T, P))>, Wakes<Waiter<A>, A>) {
        if let Some((msg, priority)) = core.peek() {
            let due = (self.when)(msg, priority);
            if let Err(within) = check_due(self.clock, due) {
                return (Sought::NotYet(within), core.nobody());
            }
        }
        let (leased, wakes) = TryLease.make_on(core);
        let sought = match leased {
            Ok(leased) => Sought::Found(leased),
            Err(TryRecvManyError::Closed) => Sought::Over,
            Err(TryRecvManyError::Empty) => Sought::NotYet(None),
            Err(TryRecvManyError::Memory) => Sought::Memory,
        };
        (sought, wakes)
    }
}

/// A lease of the most urgent message that passes a test.
#[derive(Drop)]
pub struct LeaseWhere<F> {
    pub test: F,
}

impl<T, P: Ord, A: Allocator + Copy, F: Fn(&T, &P) -> bool> Seek<T, P, A> for LeaseWhere<F> {
    type Found = (Place, (T, P));

    ghost can_seek = { λ s. F.IsAlwaysCallable s.test };

    ghost meets = { λ s leased. Tells F.Fn s.test leased.1 true };

    ghost told = { λ s sought. leased_where sought };

    ghost chooses = { λ s old leased new.
        MostUrgent P.cmp F.Fn s.test old.pending leased.1 new.pending };

    ghost misses = { λ s state. All (λ pair. Tells F.Fn s.test pair false) state.pending };

    ghost looks_at = { Sight.All };

    fn sight() -> Sight {
        Sight::All
    }

    fn seek(&self, core: &mut Core<T, P, A>) -> (Sought<(Place, (T, P))>, Wakes<Waiter<A>, A>) {
        let (leased, wakes) = TryLeaseWhere { test: &self.test }.make_on(core);
        let sought = match leased {
            Ok(Some(leased)) => Sought::Found(leased),
            Err(TryRecvManyError::Closed) => Sought::Over,
            Ok(None) | Err(TryRecvManyError::Empty) => Sought::NotYet(None),
            Err(TryRecvManyError::Memory) => Sought::Memory,
        };
        (sought, wakes)
    }
}

/// A wait for the close of the channel. It finds nothing, and is over once the channel is closed.
#[derive(Drop)]
pub struct UntilClosed;

impl<T, P: Ord, A: Allocator + Copy> Seek<T, P, A> for UntilClosed {
    type Found = Infallible;

    ghost can_seek = { λ _. ⊤ };

    ghost meets = { λ _ _. ⊤ };

    ghost told = { λ _ sought. seen_closed sought };

    ghost looks_at = { Sight.Close };

    fn sight() -> Sight {
        Sight::Close
    }

    fn seek(&self, core: &mut Core<T, P, A>) -> (Sought<Infallible>, Wakes<Waiter<A>, A>) {
        if core.is_closed() {
            return (Sought::Over, core.nobody());
        }
        (Sought::NotYet(None), core.nobody())
    }
}

//! What the channel's lock guards, and what is done under it.
//!
//! Each call here ends with who is to be woken (`ToWake`), which nobody can forget: it wakes once the
//! lock is free.
ghost use Rattle.std.specs.Prelude.{◌≡◌, ◌≢◌, ◌⊎◌, ◌+◌, ◌≤◌, ◌++◌, List, length, None, Err, IfErr, IfOk, IfNone, IfSome, IsSome, OnErr, option_map, box_value, vec_len, vec_capacity};
ghost use Rattle.priority_channel_core.specs.Prelude.{IsBlocked, ReceivesInTurn, Step};
ghost use Rattle.priority_channel_calls.specs.Told.{Makes};
ghost use Rattle.priority_channel_waiting.specs.Guarded.{HaveSeenAll, TakesOffBeside};
ghost use Rattle.priority_channel_waiting.specs.Holding.{left_after};
ghost use Rattle.priority_channel_waiting.specs.Lines.{Lists};
ghost use Rattle.priority_channel_waiting.specs.Seeking.{IfEnded, IfFound, IfNotYet};
ghost use Rattle.priority_channel_waiting.specs.Selecting.{left_by, looking_at, seen_of, with_looking_at};

use crate::line::{Duty, Line, Listing, Unlisted, list_waiter};
use crate::polled::Polled;
use crate::seeking::{Seek, Sought};
use crate::selecting::{Listed, OtherWakes, Selecting, Sight};
use crate::waiter::{Core, Waiter, wake_all};
use priority_channel_calls::call::CoreCall;
use priority_channel_core::awaitable_atomics::Wakes;
use priority_channel_core::calls::{Answer, Call, CorePoll};
use priority_channel_core::errors::TryRecvError;
use priority_channel_core::side::Side;
use std::alloc::Allocator;
use std::marker::Model;
use std::sync::{MutexGuard, Wait};

/// The core, and the waiters that it does not list: for the close, and for a message that meets a
/// condition.
///
/// While the lock is free, nobody waits so who has not seen what is there. In particular, nobody
/// waits for the close of a closed channel. The invariant says so, and the prover checks it at the
/// end of each call.
#[derive(Drop)]
pub struct Guarded<T, P: Ord, A: Allocator + Copy> {
    core: Core<T, P, A>,
    // None until the first task or thread waits so.
    selecting: Option<Box<Selecting<A>, A>>,
}

impl<T, P: Ord, A: Allocator + Copy> Model for Guarded<T, P, A> {
    ghost use Rattle.std.specs.Prelude.{option_map, box_value};
    ghost use Rattle.priority_channel_waiting.specs.Guarded.{Content, HaveSeenAll};

    ghost Value = { Content T P };

    ghost view = { λ g. record {
      core = g.core;
      selecting = option_map box_value g.selecting;
    } };

    ghost invariant = { λ g. HaveSeenAll (option_map box_value g.selecting) g.core };
}

/// The waiters that were taken off their lists. They are to be woken once the lock is free.
pub struct ToWake<A: Allocator> {
    wakes: Wakes<Waiter<A>, A>,
    others: Option<OtherWakes<A>>,
}

impl<A: Allocator> Model for ToWake<A> {
    ghost use Rattle.priority_channel_waiting.specs.Guarded.{AllWoken};

    ghost Value = { AllWoken };

    ghost view = { λ w. record { handed = w.wakes; others = w.others } };
}

impl<A: Allocator + Copy> ToWake<A> {
    // After a call that took no waiter off the core's lists.
    fn beside<T, P: Ord>(core: &Core<T, P, A>, others: Option<OtherWakes<A>>) -> Self {
        ToWake {
            wakes: core.nobody(),
            others,
        }
    }

    /// Releases the lock, and then wakes them.
    #[inline(always)]
    pub fn wake<T, P: Ord, R: Wait>(self, rt: &R, locked: MutexGuard<'_, Guarded<T, P, A>>) {
        drop(locked);
        let ToWake { wakes, others } = self;
        wake_all(rt, wakes);
        if let Some(others) = others {
            others.wake(rt);
        }
    }
}

// Takes off those beside the core that have to look again.
#[inline(always)]
fn take_due<T, P: Ord, A: Allocator + Copy>(
    selecting: &mut Option<Box<Selecting<A>, A>>,
    core: &Core<T, P, A>,
    alloc: A,
) -> Option<OtherWakes<A>>
    ensures seen { HaveSeenAll (option_map box_value selecting.new) core.now }
    ensures moved { TakesOffBeside (option_map box_value selecting.old) result
        (option_map box_value selecting.new) }
{
    match selecting {
        Some(selecting) => selecting.due(core, alloc),
        None => None,
    }
}

// Takes a waiter off its list, if it has a ticket.
fn unlist_given<A: Allocator + Copy>(
    selecting: &mut Option<Box<Selecting<A>, A>>,
    sight: Sight,
    given: Option<u64>,
) {
    if let (Some(given), Some(selecting)) = (given, selecting) {
        selecting.unlisten(sight, given);
    }
}

impl<T, P: Ord, A: Allocator + Copy> Guarded<T, P, A> {
    pub fn new(core: Core<T, P, A>) -> Self
        ensures { result ≡ record { core = core; selecting = None } }
    {
        Guarded {
            core,
            selecting: None,
        }
    }

    /// The core, for a query.
    #[inline(always)]
    pub fn core(&self) -> &Core<T, P, A>
        ensures { result.now ≡ self.now.core }
    {
        &self.core
    }

    /// Makes a call.
    #[inline(always)]
    pub fn make<C: CoreCall<T, P, Waiter<A>, A>>(
        &mut self,
        alloc: A,
        call: C,
    ) -> (C::Answer, ToWake<A>)
        requires { C.can_make call }
        ensures made { Makes P.cmp ⟦<Waiter<A> as Clone>⟧.is_clone self.old.core.state
            (C.told call result.0) result.1.handed self.new.core.state }
        ensures beside { TakesOffBeside self.old.selecting result.1.others self.new.selecting }
        ensures gives { C.gives call result.0 }
    {
        let (answer, wakes) = call.make_on(&mut self.core);
        let others = take_due(&mut self.selecting, &self.core, alloc);
        (answer, ToWake { wakes, others })
    }

    /// Polls what a future keeps.
    pub fn poll<K: Polled<T, P, Waiter<A>, A>>(
        &mut self,
        alloc: A,
        kept: K,
        ticket: Option<u64>,
        waiter: &Waiter<A>,
    ) -> (CorePoll<K::Answer, K>, ToWake<A>)
        requires { K.can_poll kept }
        ensures polled { K.polls kept ticket waiter.now self.old.core result.0 result.1.handed
            self.new.core }
        ensures beside { TakesOffBeside self.old.selecting result.1.others self.new.selecting }
        ensures left { IfSome (left_after K.back result.0)
            (λ rest. K.can_poll rest × K.leaves kept rest) }
    {
        let (polled, wakes) = kept.poll_on(&mut self.core, ticket, waiter);
        let others = take_due(&mut self.selecting, &self.core, alloc);
        (polled, ToWake { wakes, others })
    }

    /// Has the core list a waiter, if it has to wait (see `list_waiter`).
    pub fn list(
        &mut self,
        alloc: A,
        side: Side,
        ticket: &mut Option<u64>,
        waiter: &Waiter<A>,
    ) -> (Listing, ToWake<A>)
        ensures listed { result.0 ≡ Listing.Listed → IsBlocked side self.old.core.state
            × Lists side ticket.old waiter.now ticket.new self.old.core.state
            self.new.core.state }
        ensures waits { IsBlocked side self.old.core.state → result.0 ≢ Listing.Free }
        ensures refused { result.0 ≡ Listing.Refused → ticket.new ≡ None }
    {
        let listing = list_waiter(side, &mut self.core, ticket, waiter);
        let others = take_due(&mut self.selecting, &self.core, alloc);
        (listing, ToWake::beside(&self.core, others))
    }

    /// Has the core list the head of a queue (see `Line::list_first`).
    pub fn list_first(&mut self, alloc: A, side: Side, line: &mut Line<A>) -> (Listing, ToWake<A>)
        ensures listed { result.0 ≡ Listing.Listed → IfSome line.old.first (λ first.
            IsBlocked side self.old.core.state
            × Lists side line.old.ticket first.1 line.new.ticket self.old.core.state
            self.new.core.state) }
        ensures waits { IsBlocked side self.old.core.state → IsSome line.old.first
            → result.0 ≢ Listing.Free }
    {
        let listing = line.list_first(side, &mut self.core);
        let others = take_due(&mut self.selecting, &self.core, alloc);
        (listing, ToWake::beside(&self.core, others))
    }

    /// The same as a duty (see `Line::list_for`).
    pub fn list_for(
        &mut self,
        alloc: A,
        side: Side,
        line: &mut Line<A>,
        duty: Duty,
    ) -> (Option<Unlisted>, ToWake<A>)
        ensures listed { IfNone result.0 (IfSome line.old.first (λ first.
            IsBlocked side self.old.core.state
            × Lists side line.old.ticket first.1 line.new.ticket self.old.core.state
            self.new.core.state)) }
    {
        let unlisted = line.list_for(duty, side, &mut self.core);
        let others = take_due(&mut self.selecting, &self.core, alloc);
        (unlisted, ToWake::beside(&self.core, others))
    }

    /// Receives up to `most` pairs, for which `batch` has room.
    pub fn receive_many<B: Allocator>(
        &mut self,
        alloc: A,
        batch: &mut Vec<(T, P), B>,
        most: usize,
    ) -> (Result<usize, TryRecvError>, ToWake<A>)
        requires { vec_len batch.old + most ≤ vec_capacity batch.old }
        ensures received { IfOk result.0 (λ n. (pairs : List (T × P)) × (length pairs ≡ n)
            × (batch.new.items ≡ batch.old.items ++ pairs)
            × ReceivesInTurn P.cmp ⟦<Waiter<A> as Clone>⟧.is_clone self.old.core.state pairs
            result.1.handed self.new.core.state) }
        ensures within { IfOk result.0 (λ n. n ≤ most) }
        ensures refused { IfErr result.0 (λ error. Step P.cmp ⟦<Waiter<A> as Clone>⟧.is_clone
            self.old.core.state Call.TryRecv (Answer.TryRecv (Err error)) result.1.handed
            self.new.core.state) }
        ensures unchanged { OnErr result.0 (batch.new.items ≡ batch.old.items) }
        ensures beside { TakesOffBeside self.old.selecting result.1.others self.new.selecting }
    {
        let (received, wakes) = self.core.try_recv_many(batch, most);
        let others = take_due(&mut self.selecting, &self.core, alloc);
        (received, ToWake { wakes, others })
    }

    /// Looks, and if nothing is found lists the waiter in the same hold.
    pub fn seek_or_list<S: Seek<T, P, A>>(
        &mut self,
        alloc: A,
        seek: &S,
        ticket: &mut Option<u64>,
        waiter: &Waiter<A>,
    ) -> (Sought<S::Found>, ToWake<A>)
        requires { S.can_seek seek.now }
        ensures found { IfFound result.0 (S.meets seek.now) }
        ensures made { IfFound result.0 (λ found. Makes P.cmp ⟦<Waiter<A> as Clone>⟧.is_clone
            self.old.core.state (S.told seek.now (Sought.Found found)) result.1.handed
            self.new.core.state) }
        ensures over { result.0 ≡ Sought.Over → Makes P.cmp ⟦<Waiter<A> as Clone>⟧.is_clone
            self.old.core.state (S.told seek.now Sought.Over) result.1.handed self.new.core.state
            ⊎ (seen_of S.looks_at self.new.core ≡ None) }
        ensures none { IfNotYet result.0 (S.misses seek.now self.old.core.state) }
        ensures listed { IfNotYet result.0 (IsSome ticket.new) }
        ensures ended { IfEnded result.0 (ticket.new ≡ None) }
    {
        let given = ticket.take();
        let (sought, wakes) = seek.seek(&mut self.core);
        let Sought::NotYet(within) = sought else {
            // Who has its answer leaves the list first, so that it is not woken.
            unlist_given(&mut self.selecting, S::sight(), given);
            let others = take_due(&mut self.selecting, &self.core, alloc);
            return (sought, ToWake { wakes, others });
        };
        let others = take_due(&mut self.selecting, &self.core, alloc);
        let to_wake = ToWake { wakes, others };
        let sought = match self.listen(alloc, S::sight(), given, waiter) {
            Listed::Under(listed) => {
                *ticket = Some(listed);
                Sought::NotYet(within)
            }
            Listed::Over => Sought::Over,
            Listed::Refused => Sought::Memory,
        };
        (sought, to_wake)
    }

    // Lists a waiter that has just looked.
    fn listen(&mut self, alloc: A, sight: Sight, ticket: Option<u64>, waiter: &Waiter<A>) -> Listed
        ensures core { self.new.core ≡ self.old.core }
        ensures over { result ≡ Listed.Over → seen_of sight self.new.core ≡ None }
    {
        if self.selecting.is_none() {
            let Ok(selecting) = Box::new(alloc, Selecting::new(alloc)) else {
                return Listed::Refused;
            };
            self.selecting = Some(selecting);
        }
        match &mut self.selecting {
            Some(selecting) => selecting.listen(&self.core, sight, ticket, waiter),
            None => Listed::Refused,
        }
    }

    /// Takes a waiter off its list beside the core.
    pub fn unlist(&mut self, sight: Sight, ticket: u64)
        ensures core { self.new.core ≡ self.old.core }
        ensures left { self.new.selecting ≡ option_map
            (λ all. with_looking_at sight (left_by ticket (looking_at sight all)) all)
            self.old.selecting }
    {
        if let Some(selecting) = &mut self.selecting {
            selecting.unlisten(sight, ticket);
        }
    }
}

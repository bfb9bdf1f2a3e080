//! The queue of the threads that wait on one side of a channel (`Line`), in the order in which they
//! came. Only the head of the queue is in the channel's own waiting list. So a message or free room
//! wakes one thread, however many wait. While a thread of that side spins, it wakes none.
//!
//! The values by which a thread takes part are not `Drop`, so code cannot forget them. A thread
//! that joins the queue (`Queued`) must leave it or become its head (`Lead`). A head must promote
//! the next thread. A thread that spins (`Spinner`) must report when it stops. Either then has to
//! see to it that something wakes the head (`Duty`, `Unlisted`). Whoever takes the head's ticket
//! must take it off the channel's list (`Ticket`).
ghost use Rattle.std.specs.Prelude.{◌≡◌, ◌≢◌, ◌↔◌, ℕ, ◌+◌, ◌-◌, ◌<◌, ◌≤◌, ◌∷◌, ◌++◌, [], option_to_list, IfOk, IfErr, IfNone, IfSome, IsSome, IsTrue, OnOk, OnErr, Some, None};
ghost use Rattle.priority_channel_core.specs.Prelude.{without, unlist, IsBlocked, IsGood};
ghost use Rattle.priority_channel_waiting.specs.Lines.{IsFirst, Lists};

use crate::waiter::{Core, Waiter};
use priority_channel_calls::waits::GiveUp;
use priority_channel_core::comparisons::Comparisons;
use priority_channel_core::side::Side;
use priority_channel_core::waiting_list::WaitingList;
use std::alloc::{AllocError, Allocator};
use std::marker::Model;

/// A queue of waiting threads. It takes memory for its second thread and those behind it.
#[derive(Drop)]
pub struct Line<A: Allocator> {
    // The number of the head, and the waiter under which it sleeps.
    first: Option<(u64, Waiter<A>)>,
    // The ticket under which the channel has listed the head.
    ticket: Option<u64>,
    // The other threads by their numbers. Each sleeps under its waiter.
    others: WaitingList<Waiter<A>, A>,
    next_number: u64,
    // How many threads spin before they join.
    spinning: usize,
}

impl<A: Allocator> Model for Line<A> {
    ghost use Rattle.std.specs.Prelude.{◌≡◌, ◌<◌, [], None, All};
    ghost use Rattle.priority_channel_waiting.specs.Lines.{Lined};

    ghost Value = { Lined };

    ghost view = { λ l. record {
      first = l.first;
      ticket = l.ticket;
      others = l.others;
      next_number = l.next_number;
      spinning = l.spinning;
    } };

    // If there is no head, nobody stands in the queue, and no ticket is listed; all queued numbers
    // are below `next_number`.
    ghost invariant = { λ l. (l.first ≡ None → (l.others ≡ []) × (l.ticket ≡ None))
        × All (λ other. other.0 < l.next_number) l.others };
}

/// A thread in the queue.
pub struct Queued {
    number: u64,
}

/// The head of the queue.
pub struct Lead {
    number: u64,
}

/// A thread that spins before it joins.
pub struct Spinner {
    seal: (),
}

/// The ticket under which the channel may have listed the head.
pub struct Ticket {
    number: u64,
}

impl Ticket {
    /// The call that takes it off the channel's list.
    pub fn into_call(self) -> GiveUp
        ensures { result.ticket ≡ self.number }
    {
        let Ticket { number } = self;
        GiveUp { ticket: number }
    }
}

/// The duty to see to it that something will wake the head.
pub struct Duty {
    seal: (),
}

/// The head was not listed, and has to be woken.
pub struct Unlisted {
    seal: (),
}

/// The result of having a waiter listed by the channel.
pub enum Listing {
    /// The channel listed it, and will wake it when it can go on.
    Listed,
    /// It need not wait.
    Free,
    /// Memory was refused.
    Refused,
}

impl<A: Allocator> Line<A> {
    pub fn new(alloc: A) -> Self
        ensures { result ≡ record {
          first = None;
          ticket = None;
          others = [];
          next_number = 0;
          spinning = 0;
        } }
    {
        Line {
            first: None,
            ticket: None,
            others: WaitingList::new(alloc),
            next_number: 0,
            spinning: 0,
        }
    }

    /// Adds a thread at the end of the queue. The error is that memory was refused, or that the
    /// numbers ran out.
    pub fn join(&mut self, waiter: &Waiter<A>) -> Result<Queued, AllocError>
        ensures number { IfOk result (λ queued. queued.number ≡ self.old.next_number) }
        ensures first { OnOk result (IfNone self.old.first (self.new ≡ record self.old {
          first = Some (self.old.next_number, waiter.now);
          ticket = None;
          next_number = self.old.next_number + 1;
        })) }
        ensures behind { OnOk result (IfSome self.old.first (λ _. self.new ≡ record self.old {
          others = self.old.others ++ (self.old.next_number, waiter.now) ∷ [];
          next_number = self.old.next_number + 1;
        })) }
        ensures refused { OnErr result (self.new ≡ self.old) }
    {
        let number = self.next_number;
        if self.first.is_some() {
            let mut comparisons = Comparisons::new();
            self.others
                .listen(None, waiter, &mut self.next_number, &mut comparisons)
                .ok_or(AllocError)?;
            return Ok(Queued { number });
        }
        let next_number = number.checked_add(1).ok_or(AllocError)?;
        self.first = Some((number, waiter.clone()?));
        self.next_number = next_number;
        Ok(Queued { number })
    }

    fn is_first(&self, queued: &Queued) -> bool
        ensures { IsTrue result ↔ IsFirst self.now queued.now.number }
    {
        match &self.first {
            Some((number, _)) => *number == queued.number,
            None => false,
        }
    }

    /// The head (`Lead`), if the thread is the head of the queue. Otherwise the thread comes back,
    /// and waits on.
    pub fn lead(&self, queued: Queued) -> Result<Lead, Queued>
        ensures led { IfOk result (λ lead. IsFirst self.now queued.number
            × (lead.number ≡ queued.number)) }
        ensures waits { IfErr result (λ waiting. (IsFirst self.now queued.number → ⊥)
            × (waiting ≡ queued)) }
    {
        if !self.is_first(&queued) {
            return Err(queued);
        }
        let Queued { number } = queued;
        Ok(Lead { number })
    }

    /// Takes the thread out of the queue, unless it has become the head.
    pub fn leave(&mut self, queued: Queued) -> Result<(), Queued>
        ensures left { OnOk result ((IsFirst self.old queued.number → ⊥)
            × (self.new ≡ record self.old { others = without queued.number self.old.others })) }
        ensures leads { IfErr result (λ waiting. IsFirst self.old queued.number × (waiting ≡ queued)
            × (self.new ≡ self.old)) }
    {
        if self.is_first(&queued) {
            return Err(queued);
        }
        let Queued { number } = queued;
        let mut comparisons = Comparisons::new();
        self.others.remove(number, &mut comparisons);
        Ok(())
    }

    /// The head leaves the queue, and the next thread becomes the head. The ticket under which the
    /// head may be listed comes back.
    pub fn move_up(&mut self, lead: Lead) -> (Duty, Option<Ticket>)
        ensures some { IfSome result.1 (λ ticket. self.old.ticket ≡ Some ticket.number) }
        ensures none { IfNone result.1 (self.old.ticket ≡ None) }
        ensures next { self.old.others ≡ option_to_list self.new.first ++ self.new.others }
        ensures line { self.new ≡ record self.old {
          first = self.new.first;
          ticket = None;
          others = self.new.others;
        } }
    {
        let Lead { number: _ } = lead;
        let ticket = self.take_ticket();
        self.first = self.others.take_first();
        (Duty { seal: () }, ticket)
    }

    /// Takes the ticket under which the head may be listed, for a caller that takes it off the
    /// channel's list.
    pub fn take_ticket(&mut self) -> Option<Ticket>
        ensures some { IfSome result (λ ticket. self.old.ticket ≡ Some ticket.number) }
        ensures none { IfNone result (self.old.ticket ≡ None) }
        ensures line { self.new ≡ record self.old { ticket = None } }
    {
        match self.ticket.take() {
            Some(number) => Some(Ticket { number }),
            None => None,
        }
    }

    /// Counts a thread that starts to spin.
    pub fn begin_spin(&mut self) -> Spinner
        ensures counted { 0 < self.new.spinning }
        ensures once { self.new.spinning ≤ self.old.spinning + 1 }
        ensures line { self.new ≡ record self.old { spinning = self.new.spinning } }
    {
        self.spinning = self.spinning.saturating_add(1);
        Spinner { seal: () }
    }

    /// The thread has stopped spinning.
    pub fn end_spin(&mut self, spinner: Spinner) -> Duty
        ensures { self.new ≡ record self.old { spinning = self.old.spinning - 1 } }
    {
        let Spinner { seal: () } = spinner;
        self.spinning = self.spinning.saturating_sub(1);
        Duty { seal: () }
    }

    /// The duty comes back if nothing would wake the head: there is a head, the channel has not
    /// listed it, and no thread spins.
    pub fn check(&self, duty: Duty) -> Option<Duty>
        ensures { IsSome result ↔ (IsSome self.now.first × (self.now.ticket ≡ None)
            × (self.now.spinning ≡ 0)) }
    {
        if self.is_unattended() {
            return Some(duty);
        }
        let Duty { seal: () } = duty;
        None
    }

    fn is_unattended(&self) -> bool
        ensures { IsTrue result ↔ (IsSome self.now.first × (self.now.ticket ≡ None)
            × (self.now.spinning ≡ 0)) }
    {
        self.first.is_some() && self.ticket.is_none() && self.spinning == 0
    }

    /// Wakes the head.
    pub fn wake_first(&self, unlisted: Unlisted) {
        let Unlisted { seal: () } = unlisted;
        if let Some((_, waiter)) = &self.first {
            waiter.unpark();
        }
    }
}

impl<A: Allocator + Copy> Line<A> {
    /// Has the channel list the head, if the head has to wait. It is listed under its ticket, if
    /// that is still in the list.
    pub fn list_first<T, P: Ord>(&mut self, side: Side, core: &mut Core<T, P, A>) -> Listing
        ensures sleeps { result ≡ Listing.Listed → IsSome self.old.first × IsSome self.new.ticket }
        ensures listed { result ≡ Listing.Listed → IfSome self.old.first (λ first.
            IsBlocked side core.old.state
            × Lists side self.old.ticket first.1 self.new.ticket core.old.state core.new.state) }
        ensures waits { IsBlocked side core.old.state → IsSome self.old.first
            → result ≢ Listing.Free }
        ensures good { result ≢ Listing.Free → IsGood core.new.state }
        ensures free { result ≡ Listing.Free → (core.new.state ≡ core.old.state)
            × (self.new ≡ self.old) }
        ensures refused { result ≡ Listing.Refused → IsBlocked side core.old.state
            × (self.new.ticket ≡ None)
            × (core.new.state
            ≡ record core.old.state { waiters = unlist self.old.ticket core.old.state.waiters }) }
        ensures line { self.new ≡ record self.old { ticket = self.new.ticket } }
    {
        let Some((_, waiter)) = &self.first else {
            return Listing::Free;
        };
        list_waiter(side, core, &mut self.ticket, waiter)
    }
}

impl<A: Allocator + Copy> Line<A> {
    /// Has the channel list the head, as `list_first`. Where it was not listed, it has to be woken.
    pub fn list_for<T, P: Ord>(
        &mut self,
        duty: Duty,
        side: Side,
        core: &mut Core<T, P, A>,
    ) -> Option<Unlisted>
        ensures listed { IfNone result (IfSome self.old.first (λ first.
            IsBlocked side core.old.state
            × Lists side self.old.ticket first.1 self.new.ticket core.old.state core.new.state)) }
        ensures sleeps { IfNone result (IsSome self.old.first × IsSome self.new.ticket) }
        ensures line { self.new ≡ record self.old { ticket = self.new.ticket } }
    {
        let Duty { seal: () } = duty;
        match self.list_first(side, core) {
            Listing::Listed => None,
            Listing::Free | Listing::Refused => Some(Unlisted { seal: () }),
        }
    }
}

/// Has the channel list a waiter on this side, if it has to wait. It is listed under its ticket, if
/// that is still in the list.
pub fn list_waiter<T, P: Ord, A: Allocator + Copy>(
    side: Side,
    core: &mut Core<T, P, A>,
    ticket: &mut Option<u64>,
    waiter: &Waiter<A>,
) -> Listing
    ensures sleeps { result ≡ Listing.Listed → IsSome ticket.new }
    ensures listed { result ≡ Listing.Listed → IsBlocked side core.old.state
        × Lists side ticket.old waiter.now ticket.new core.old.state core.new.state }
    ensures waits { IsBlocked side core.old.state → result ≢ Listing.Free }
    ensures good { result ≢ Listing.Free → IsGood core.new.state }
    ensures free { result ≡ Listing.Free → (core.new.state ≡ core.old.state)
        × (ticket.new ≡ ticket.old) }
    ensures refused { result ≡ Listing.Refused → IsBlocked side core.old.state
        × (ticket.new ≡ None)
        × (core.new.state
        ≡ record core.old.state { waiters = unlist ticket.old core.old.state.waiters }) }
{
    if !is_blocked(side, core) {
        return Listing::Free;
    }
    *ticket = core.list(side, *ticket, waiter);
    match *ticket {
        Some(_) => Listing::Listed,
        None => Listing::Refused,
    }
}

/// Whether a call on this side has to wait.
pub fn is_blocked<T, P: Ord, A: Allocator + Copy>(side: Side, core: &Core<T, P, A>) -> bool
    ensures { IsTrue result ↔ IsBlocked side core.now.state }
{
    match side {
        Side::Room => core.is_full() && !core.is_closed(),
        Side::Message => core.is_empty() && !(core.is_closed() && core.held() == 0),
    }
}

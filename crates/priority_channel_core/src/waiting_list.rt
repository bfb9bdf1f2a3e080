//! The list of the waiters on one side.
ghost use Rattle.std.specs.Prelude.{◌≡◌, ◌↔◌, ℕ, ◌+◌, ◌<◌, ◌≤◌, false, IfSome, IsSome, IsTrue, true, IfNone, None, List, [], ◌++◌, length, option_to_list, ◌^◌, All, HoldsAt};
ghost use Rattle.priority_channel_core.specs.bag.Prelude.{digits};
ghost use Rattle.priority_channel_core.specs.Prelude.{is_listed, is_given_listed, without, with_waker, without_given, IsListing, IsRising};

mod entries;

use crate::comparisons::Comparisons;
use entries::Entries;
use std::alloc::{Allocator, Global};
use std::cmp::Ordering;
use std::marker::Model;

/// The waiting tickets, each with its waker, in rising order.
#[derive(Drop)]
pub struct WaitingList<W, A: Allocator = Global> {
    entries: Entries<W, A>,
}

impl<W, A: Allocator> Model for WaitingList<W, A> {
    ghost Value = { List (ℕ × W) };

    ghost view = { λ l. l.entries };

    ghost invariant = { λ l. IsRising l.entries };
}

impl<W, A: Allocator> WaitingList<W, A> {
    pub fn new(alloc: A) -> Self
        ensures { result ≡ [] }
    {
        WaitingList {
            entries: Entries::new(alloc),
        }
    }

    #[inline(always)]
    pub fn is_empty(&self) -> bool
        ensures { IsTrue result ↔ (length self.now ≡ 0) }
    {
        self.entries.len() == 0
    }

    /// The position of the ticket, by binary search.
    fn position_of(&self, ticket: u64, comparisons: &mut Comparisons) -> Option<usize>
        ensures found { IfSome result (λ i. (i < length self.now)
            × HoldsAt (λ a. a.0 ≡ ticket) self.now i) }
        ensures absent { IfNone result (is_listed ticket self.now ≡ false) }
        ensures cost { comparisons.new.count ≤ comparisons.old.count + digits (length self.now) }
    {
        let mut low = 0;
        let mut high = self.entries.len();
        while low < high {
            let middle = low + (high - low) / 2;
            match self.entries.compare(middle, ticket, comparisons) {
                Ordering::Less => low = middle + 1,
                Ordering::Equal => return Some(middle),
                Ordering::Greater => high = middle,
            }
        }
        None
    }

    /// Takes the ticket off the list. An unknown ticket changes nothing.
    pub fn remove(&mut self, ticket: u64, comparisons: &mut Comparisons)
    where
        W: Drop,
        ensures list { self.new ≡ without ticket self.old }
        ensures cost { comparisons.new.count ≤ comparisons.old.count + digits (length self.old) }
    {
        if let Some(position) = self.position_of(ticket, comparisons) {
            self.entries.remove(position);
        }
    }

    /// Takes the given ticket, if there is one, off the list.
    pub fn remove_given(&mut self, ticket: Option<u64>, comparisons: &mut Comparisons)
    where
        W: Drop,
        ensures list { self.new ≡ without_given ticket self.old }
        ensures cost { comparisons.new.count ≤ comparisons.old.count + digits (length self.old) }
    {
        if let Some(ticket) = ticket {
            self.remove(ticket, comparisons);
        }
    }

    /// Takes off the waiter with the least ticket, if there is one.
    pub fn take_first(&mut self) -> Option<(u64, W)>
    where
        W: Drop,
        ensures taken { self.old ≡ option_to_list result ++ self.new }
        ensures nobody { IfNone result (self.old ≡ []) }
    {
        self.entries.take_first()
    }

    /// Takes the whole list. It takes no memory.
    #[inline(always)]
    pub fn take(&mut self, alloc: A) -> Vec<(u64, W), A>
        ensures taken { result.items ≡ self.old }
        ensures empty { self.new ≡ [] }
    {
        self.entries.take(alloc)
    }
}

impl<W: Clone, A: Allocator> WaitingList<W, A> {
    /// Lists a waiter: under its own ticket if that is in the list, otherwise under the next one.
    pub fn listen(
        &mut self,
        ticket: Option<u64>,
        waker: &W,
        next_ticket: &mut u64,
        comparisons: &mut Comparisons,
    ) -> Option<u64>
        requires given { All (λ a. a.0 < next_ticket.old) self.old }
        requires fits { next_ticket.old < 2 ^ 64 }
        ensures listed { IfSome result (λ listed. IsListing W.is_clone ticket waker.now self.old
            next_ticket.old
            (record { ticket = listed; waiters = self.new; next_ticket = next_ticket.new })) }
        ensures refused { IfNone result ((self.new ≡ without_given ticket self.old)
            × (next_ticket.new ≡ next_ticket.old)) }
        ensures renewed { is_given_listed ticket self.old ≡ true → W.is_infallible waker.now
            → IsSome result }
        ensures fits { next_ticket.new < 2 ^ 64 }
        ensures cost { comparisons.new.count ≤ comparisons.old.count + digits (length self.old) }
    {
        match ticket {
            None => self.list_next(waker, next_ticket),
            Some(ticket) => match self.position_of(ticket, comparisons) {
                None => self.list_next(waker, next_ticket),
                Some(position) => self.renew(position, ticket, waker),
            },
        }
    }

    /// Lists a waiter as `listen` does. If that is refused, the waiter leaves the list of the other
    /// side (`others`) too.
    pub fn listen_beside(
        &mut self,
        others: &mut WaitingList<W, A>,
        ticket: Option<u64>,
        waker: &W,
        next_ticket: &mut u64,
        comparisons: &mut Comparisons,
    ) -> Option<u64>
        requires given { All (λ a. a.0 < next_ticket.old) self.old }
        requires fits { next_ticket.old < 2 ^ 64 }
        ensures listed { IfSome result (λ listed. IsListing W.is_clone ticket waker.now self.old
            next_ticket.old
            (record { ticket = listed; waiters = self.new; next_ticket = next_ticket.new })
            × (others.new ≡ others.old)) }
        ensures refused { IfNone result ((self.new ≡ without_given ticket self.old)
            × (others.new ≡ without_given ticket others.old)
            × (next_ticket.new ≡ next_ticket.old)) }
        ensures renewed { is_given_listed ticket self.old ≡ true → W.is_infallible waker.now
            → IsSome result }
        ensures fits { next_ticket.new < 2 ^ 64 }
        ensures cost { comparisons.new.count
            ≤ comparisons.old.count + digits (length self.old) + digits (length others.old) }
    {
        let listed = self.listen(ticket, waker, next_ticket, comparisons);
        if listed.is_none() {
            others.remove_given(ticket, comparisons);
        }
        listed
    }

    // If memory for the new waker is refused, the ticket leaves the list.
    fn renew(&mut self, position: usize, ticket: u64, waker: &W) -> Option<u64>
        requires in_list { position < length self.old }
        requires here { HoldsAt (λ a. a.0 ≡ ticket) self.old position }
        ensures renewed { IfSome result (λ given. (given ≡ ticket)
            × ((kept : W) × W.is_clone waker.now kept
            × (self.new ≡ with_waker ticket kept self.old))) }
        ensures refused { IfNone result (self.new ≡ without ticket self.old) }
        ensures succeeds { W.is_infallible waker.now → IsSome result }
    {
        match waker.clone() {
            Ok(waker) => {
                self.entries.set(position, ticket, waker);
                Some(ticket)
            }
            Err(_) => {
                self.entries.remove(position);
                None
            }
        }
    }

    fn list_next(&mut self, waker: &W, next_ticket: &mut u64) -> Option<u64>
        requires given { All (λ a. a.0 < next_ticket.old) self.old }
        requires fits { next_ticket.old < 2 ^ 64 }
        ensures listed { IfSome result (λ listed. IsListing W.is_clone None waker.now self.old
            next_ticket.old
            (record { ticket = listed; waiters = self.new; next_ticket = next_ticket.new })) }
        ensures refused { IfNone result ((self.new ≡ self.old)
            × (next_ticket.new ≡ next_ticket.old)) }
        ensures fits { next_ticket.new < 2 ^ 64 }
    {
        let ticket = *next_ticket;
        if ticket == u64::MAX {
            return None;
        }
        let waker = waker.clone().ok()?;
        self.entries.push(ticket, waker).ok()?;
        *next_ticket = ticket + 1;
        Some(ticket)
    }
}

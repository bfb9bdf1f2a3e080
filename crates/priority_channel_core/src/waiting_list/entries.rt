//! The entries of a waiting list. Their tickets are visible in this file alone, so a search for a
//! ticket must count its comparisons.
ghost use Rattle.std.specs.Prelude.{◌≡◌, ◌+◌, ◌<◌, OnErr, OnOk, IfNone, [], ◌∷◌, ◌++◌, length, set, option_to_list, HoldsAt, remove, ℕ, List};
ghost use Rattle.std.specs.Ordering.{nat_cmp};

use crate::comparisons::Comparisons;
use std::alloc::{AllocError, Allocator, Global};
use std::cmp::Ordering;
use std::marker::Model;
use std::mem;

/// Tickets, each with its waker. Only `compare` reveals anything of a listed ticket.
#[derive(Drop)]
pub struct Entries<W, A: Allocator = Global> {
    listed: Vec<(u64, W), A>,
}

impl<W, A: Allocator> Model for Entries<W, A> {
    ghost Value = { List (ℕ × W) };

    ghost view = { λ e. e.listed.items };
}

impl<W, A: Allocator> Entries<W, A> {
    pub fn new(alloc: A) -> Self
        ensures { result ≡ [] }
    {
        Entries {
            listed: Vec::new(alloc),
        }
    }

    pub fn len(&self) -> usize
        ensures { result ≡ length self.now }
    {
        self.listed.len()
    }

    /// Compares the ticket at a position with the given one, and counts that.
    pub fn compare(&self, position: usize, ticket: u64, comparisons: &mut Comparisons) -> Ordering
        requires { position < length self.now }
        ensures order { HoldsAt (λ a. result ≡ nat_cmp a.0 ticket) self.now position }
        ensures count { comparisons.new.count ≡ comparisons.old.count + 1 }
    {
        comparisons.compare(&self.listed[position].0, &ticket)
    }

    /// Lists a ticket behind the others.
    pub fn push(&mut self, ticket: u64, waker: W) -> Result<(), AllocError>
    where
        W: Drop,
        ensures pushed { OnOk result (self.new ≡ self.old ++ (ticket, waker) ∷ []) }
        ensures refused { OnErr result (self.new ≡ self.old) }
    {
        self.listed.push((ticket, waker))?;
        Ok(())
    }

    /// Replaces the ticket and the waker at a position.
    pub fn set(&mut self, position: usize, ticket: u64, waker: W)
    where
        W: Drop,
        requires { position < length self.old }
        ensures { self.new ≡ set self.old position (ticket, waker) }
    {
        self.listed[position] = (ticket, waker);
    }

    /// Removes the entry at a position.
    pub fn remove(&mut self, position: usize)
    where
        W: Drop,
        requires { position < length self.old }
        ensures { self.new ≡ remove self.old position }
    {
        let _entry = self.listed.remove(position);
    }

    /// Removes the first entry.
    pub fn take_first(&mut self) -> Option<(u64, W)>
    where
        W: Drop,
        ensures taken { self.old ≡ option_to_list result ++ self.new }
        ensures nobody { IfNone result (self.old ≡ []) }
    {
        if self.listed.is_empty() {
            return None;
        }
        Some(self.listed.remove(0))
    }

    /// Takes the whole list. It takes no memory.
    #[inline(always)]
    pub fn take(&mut self, alloc: A) -> Vec<(u64, W), A>
        ensures taken { result.items ≡ self.old }
        ensures empty { self.new ≡ [] }
    {
        // Mostly the list is empty.
        if self.listed.is_empty() {
            return Vec::new(alloc);
        }
        mem::replace(&mut self.listed, Vec::new(alloc))
    }
}

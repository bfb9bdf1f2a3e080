//! The heap of a bag: binary until its least item is asked for, an interval heap from then on.
//!
//! A pair of lesser priority than all others makes one comparison when it enters a binary heap. In
//! an interval heap it rises to the top of the lows. A new pair of equal priority is such a lesser
//! pair. So a bag is a binary heap until its least item is asked for.
ghost use Rattle.std.specs.Prelude.{◌≡◌, List, ◌+◌, ◌-◌, ◌*◌, ◌<◌, ◌≤◌, [], ◌∷◌, ◌++◌, length, take, slice_index_or, vec_capacity, IsPermutation};
ghost use Rattle.priority_channel_core.specs.bag.Prelude.{digits, item_cmp, IsOrdered, MendsAt, Item};

use super::binary_heap::{rise, sink};
use super::interval_heap;
use crate::comparisons::Comparisons;
use crate::item::Item;
use std::alloc::Allocator;
use std::mem;

/// The items of a bag, and the count of all comparisons.
#[derive(Drop)]
pub(crate) struct Heap<T, P: Ord, A: Allocator> {
    pub items: Vec<Item<T, P>, A>,
    pub comparisons: Comparisons,
    // Whether the items are an interval heap. Otherwise they are a binary heap.
    pub has_two_ends: bool,
}

impl<T, P: Ord, A: Allocator> Heap<T, P, A> {
    /// Adds an item, for which there is a slot.
    #[inline(always)]
    pub(crate) fn push(&mut self, item: Item<T, P>)
        requires { length self.old.items.items < vec_capacity self.old.items }
        ensures moves { IsPermutation (self.old.items.items ++ item ∷ []) self.new.items.items }
        ensures order { IsOrdered (item_cmp P.cmp) self.old.has_two_ends self.old.items.items
            → IsOrdered (item_cmp P.cmp) self.new.has_two_ends self.new.items.items }
        ensures slots { vec_capacity self.new.items ≡ vec_capacity self.old.items }
        ensures ends { self.new.has_two_ends ≡ self.old.has_two_ends }
        ensures cost { self.new.comparisons.count
            ≤ self.old.comparisons.count + digits (length self.new.items.items) }
    {
        self.items.push_reserved(item);
        let items = self.items.as_mut_slice();
        settle(items, &mut self.comparisons, self.has_two_ends);
    }

    /// Takes out the item at `at`.
    #[inline(always)]
    pub(crate) fn remove(&mut self, at: usize) -> Item<T, P>
        requires { at < length self.old.items.items }
        ensures item { result ≡ slice_index_or self.old.items.items at result }
        ensures moves { IsPermutation self.old.items.items (result ∷ self.new.items.items) }
        ensures order { IsOrdered (item_cmp P.cmp) self.old.has_two_ends self.old.items.items
            → IsOrdered (item_cmp P.cmp) self.new.has_two_ends self.new.items.items }
        ensures slots { vec_capacity self.new.items ≡ vec_capacity self.old.items }
        ensures ends { self.new.has_two_ends ≡ self.old.has_two_ends }
        ensures cost { self.new.comparisons.count
            ≤ self.old.comparisons.count + 2 * digits (length self.old.items.items) }
    {
        let item = self.items.swap_remove(at);
        self.mend(at);
        item
    }

    /// Puts an item in the place of the item at `at`, and returns the latter.
    pub(crate) fn replace(&mut self, at: usize, item: Item<T, P>) -> Item<T, P>
        requires { at < length self.old.items.items }
        ensures item { result ≡ slice_index_or self.old.items.items at result }
        ensures moves { (others : List (Item T P))
            × IsPermutation self.old.items.items (result ∷ others)
            × IsPermutation (others ++ item ∷ []) self.new.items.items }
        ensures order { IsOrdered (item_cmp P.cmp) self.old.has_two_ends self.old.items.items
            → IsOrdered (item_cmp P.cmp) self.new.has_two_ends self.new.items.items }
        ensures slots { vec_capacity self.new.items ≡ vec_capacity self.old.items }
        ensures ends { self.new.has_two_ends ≡ self.old.has_two_ends }
        ensures cost { self.new.comparisons.count
            ≤ self.old.comparisons.count + 2 * digits (length self.old.items.items) }
    {
        let out = mem::replace(&mut self.items[at], item);
        self.mend(at);
        out
    }

    /// Gives the item at `at` another priority, and returns the one that it had.
    pub(crate) fn replace_priority(&mut self, at: usize, priority: P) -> P
        requires { at < length self.old.items.items }
        ensures moves { (item : Item T P) × (others : List (Item T P))
            × (item ≡ slice_index_or self.old.items.items at item) × (result ≡ item.priority)
            × IsPermutation self.old.items.items (item ∷ others)
            × IsPermutation (others ++ record item { priority = priority } ∷ [])
            self.new.items.items }
        ensures order { IsOrdered (item_cmp P.cmp) self.old.has_two_ends self.old.items.items
            → IsOrdered (item_cmp P.cmp) self.new.has_two_ends self.new.items.items }
        ensures slots { vec_capacity self.new.items ≡ vec_capacity self.old.items }
        ensures ends { self.new.has_two_ends ≡ self.old.has_two_ends }
        ensures cost { self.new.comparisons.count
            ≤ self.old.comparisons.count + 2 * digits (length self.old.items.items) }
    {
        let item = &mut self.items[at];
        let was = mem::replace(&mut item.priority, priority);
        self.mend(at);
        was
    }

    /// Makes a heap of any items.
    pub(crate) fn arrange(&mut self)
        ensures moves { IsPermutation self.old.items.items self.new.items.items }
        ensures order { IsOrdered (item_cmp P.cmp) self.new.has_two_ends self.new.items.items }
        ensures slots { vec_capacity self.new.items ≡ vec_capacity self.old.items }
        ensures ends { self.new.has_two_ends ≡ self.old.has_two_ends }
        ensures cost { self.new.comparisons.count ≤ self.old.comparisons.count
            + length self.old.items.items * digits (length self.old.items.items) }
    {
        for last in 0..self.items.len() {
            let items = self.items.slice_mut(..=last);
            settle(items, &mut self.comparisons, self.has_two_ends);
        }
    }

    // Makes a heap of items that were a heap before another item came in at `at`. If there is no
    // place `at`, the items stay as they are.
    #[inline(always)]
    fn mend(&mut self, at: usize)
        ensures moves { IsPermutation self.old.items.items self.new.items.items }
        ensures order { MendsAt (item_cmp P.cmp) self.old.has_two_ends at
            self.old.items.items self.new.items.items }
        ensures slots { vec_capacity self.new.items ≡ vec_capacity self.old.items }
        ensures ends { self.new.has_two_ends ≡ self.old.has_two_ends }
        ensures cost { self.new.comparisons.count
            ≤ self.old.comparisons.count + 2 * digits (length self.old.items.items) }
    {
        if self.items.len() <= at {
            return;
        }
        if self.has_two_ends {
            interval_heap::mend(self.items.as_mut_slice(), &mut self.comparisons, at);
        } else {
            sink(self.items.as_mut_slice(), &mut self.comparisons, at);
        }
    }
}

// Makes a heap of items that are a heap except for the last one, which was just added.
#[inline(always)]
fn settle<T, P: Ord>(items: &mut [Item<T, P>], comparisons: &mut Comparisons, has_two_ends: bool)
    requires { 0 < length items.old }
    ensures moves { IsPermutation items.old items.new }
    ensures order { IsOrdered (item_cmp P.cmp) has_two_ends (take (length items.old - 1) items.old)
        → IsOrdered (item_cmp P.cmp) has_two_ends items.new }
    ensures cost { comparisons.new.count ≤ comparisons.old.count + digits (length items.old) }
{
    if has_two_ends {
        interval_heap::settle(items, comparisons);
    } else {
        let last = items.len() - 1;
        rise(items, comparisons, last);
    }
}

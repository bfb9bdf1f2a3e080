//! A binary heap, and the two ways in which an item moves through it. The parent of the item at i
//! is at (i - 1) / 2.
ghost use Rattle.std.specs.Prelude.{◌≡◌, ◌+◌, ◌*◌, ◌<◌, ◌≤◌, false, length, IsPermutation, swap};
ghost use Rattle.std.specs.BinaryHeap.Sift.{SiftsUp, IsGreaterChild};
ghost use Rattle.priority_channel_core.specs.bag.Prelude.{digits, item_cmp, MendsAt};

use crate::comparisons::Comparisons;
use crate::item::Item;
use std::mem;

/// Moves the item at `at` up, until its parent is not less than it.
pub(crate) fn rise<T, P: Ord>(items: &mut [Item<T, P>], comparisons: &mut Comparisons, at: usize)
    requires { at < length items.old }
    ensures moves { IsPermutation items.old items.new }
    ensures order { SiftsUp (item_cmp P.cmp) items.old at items.new }
    ensures cost { comparisons.new.count ≤ comparisons.old.count + digits (at + 1) }
{
    let mut at = at;
    while 0 < at {
        let parent = (at - 1) / 2;
        if !comparisons.compare(&items[parent], &items[at]).is_lt() {
            return;
        }
        exchange(items, parent, at);
        at = parent;
    }
}

/// Makes a heap of items that were a heap before another item came in at `at`. That item goes down
/// to the bottom, and up again.
pub(crate) fn sink<T, P: Ord>(items: &mut [Item<T, P>], comparisons: &mut Comparisons, at: usize)
    requires { at < length items.old }
    ensures moves { IsPermutation items.old items.new }
    ensures order { MendsAt (item_cmp P.cmp) false at items.old items.new }
    ensures cost { comparisons.new.count ≤ comparisons.old.count + 2 * digits (length items.old) }
{
    // The choice is made once for all levels. It cannot be predicted which child is the greater, so
    // a branch is mispredicted at every second level. But a branch begins to load the next level
    // before the comparison has ended, and that counts for more if the items are in far memory.
    if items.len() < FAR {
        sink_by::<WithoutBranch, T, P>(items, comparisons, at);
    } else {
        sink_by::<ByBranch, T, P>(items, comparisons, at);
    }
}

// From this length on, the items are assumed to be in far memory.
const FAR: usize = 1 << 16;

// How the greater child is found.
trait Choice {
    fn greater_child<T, P: Ord>(
        items: &[Item<T, P>],
        comparisons: &mut Comparisons,
        at: usize,
    ) -> usize
        requires { at * 2 + 1 < length items.now }
        ensures child { (at * 2 + 1 ≤ result) × (result ≤ at * 2 + 2)
            × (result < length items.now) }
        ensures best { IsGreaterChild (item_cmp P.cmp) items.now at result (length items.now) }
        ensures cost { comparisons.new.count ≤ comparisons.old.count + 1 };
}

struct ByBranch;

impl Choice for ByBranch {
    fn greater_child<T, P: Ord>(
        items: &[Item<T, P>],
        comparisons: &mut Comparisons,
        at: usize,
    ) -> usize {
        let left = at * 2 + 1;
        let right = left + 1;
        if right == items.len() {
            return left;
        }
        if comparisons.compare(&items[right], &items[left]).is_lt() {
            left
        } else {
            right
        }
    }
}

struct WithoutBranch;

impl Choice for WithoutBranch {
    fn greater_child<T, P: Ord>(
        items: &[Item<T, P>],
        comparisons: &mut Comparisons,
        at: usize,
    ) -> usize {
        let left = at * 2 + 1;
        let right = left + 1;
        if right == items.len() {
            return left;
        }
        let is_left = comparisons.compare(&items[right], &items[left]).is_lt();
        left + !is_left as usize
    }
}

fn sink_by<C: Choice, T, P: Ord>(items: &mut [Item<T, P>], comparisons: &mut Comparisons, at: usize)
    requires { at < length items.old }
    ensures moves { IsPermutation items.old items.new }
    ensures order { MendsAt (item_cmp P.cmp) false at items.old items.new }
    ensures cost { comparisons.new.count ≤ comparisons.old.count + 2 * digits (length items.old) }
{
    let mut at = at;
    while at < items.len() / 2 {
        let child = C::greater_child(items, comparisons, at);
        exchange(items, at, child);
        at = child;
    }
    rise(items, comparisons, at);
}

/// Swaps two items, field by field: fields of a few bytes move in registers, but a whole item goes
/// through memory.
fn exchange<T, P>(items: &mut [Item<T, P>], low: usize, high: usize)
    requires { (low < high) × (high < length items.old) }
    ensures after { items.new ≡ swap items.old low high }
    ensures permutation { IsPermutation items.old items.new }
{
    let (front, back) = items.split_at_mut(high);
    let x = &mut front[low];
    let y = &mut back[0];
    mem::swap(&mut x.msg, &mut y.msg);
    mem::swap(&mut x.priority, &mut y.priority);
    mem::swap(&mut x.number, &mut y.number);
}

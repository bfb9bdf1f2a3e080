//! How an item moves through an interval heap. It goes down one side, along the greater or the
//! lesser child. Then it goes up again from the bottom, on the side to which it belongs.
ghost use Rattle.std.specs.Prelude.{◌≡◌, ℕ, ◌+◌, ◌-◌, ◌*◌, ◌/◌, ◌%◌, ◌<◌, ◌≤◌, ◌≢◌, false, length, min, IsPermutation};
ghost use Rattle.std.specs.BinaryHeap.Sift.{ComparesAt};
ghost use Rattle.priority_channel_core.specs.bag.Prelude.{digits, item_cmp, IsOver, IsIntervalHeap, InOrderBut, FallsTo, AtMostTooGreat, AtMostTooSmall};

use crate::comparisons::Comparisons;
use crate::item::Item;

/// Settles the item at `at`. No pair is below the pair of that item.
#[tactic(auto, using(crate::proofs::items::IntervalHeaps::over, crate::proofs::items::IntervalHeaps::is_single))]
pub(crate) fn settle_at<T, P: Ord>(
    items: &mut [Item<T, P>],
    comparisons: &mut Comparisons,
    at: usize,
)
    requires within { at < length items.old }
    requires bottom { length items.old ≤ at / 2 * 4 + 2 }
    ensures moves { IsPermutation items.old items.new }
    ensures order { InOrderBut (item_cmp P.cmp) items.old at
        → IsIntervalHeap (item_cmp P.cmp) items.new }
    ensures cost { comparisons.new.count ≤ comparisons.old.count + digits (at / 2 + 1) }
{
    if at % 2 == 1 {
        settle_low(items, comparisons, at);
    } else if at + 1 < items.len() {
        settle_high(items, comparisons, at, at + 1);
    } else if 1 < at {
        // The last high has no low of its own, so it faces the low of the pair above it.
        settle_high(items, comparisons, at, high_of_parent(at) + 1);
    }
}

fn settle_low<T, P: Ord>(items: &mut [Item<T, P>], comparisons: &mut Comparisons, low: usize)
    requires side { low % 2 ≡ 1 }
    requires within { low < length items.old }
    requires bottom { length items.old ≤ low * 2 }
    ensures moves { IsPermutation items.old items.new }
    ensures order { InOrderBut (item_cmp P.cmp) items.old low
        → IsIntervalHeap (item_cmp P.cmp) items.new }
    ensures cost { comparisons.new.count ≤ comparisons.old.count + digits (low / 2 + 1) }
{
    let high = low - 1;
    if comparisons.compare(&items[high], &items[low]).is_lt() {
        items.swap(low, high);
        rise(items, comparisons, high);
    } else {
        rise(items, comparisons, low);
    }
}

// `low` is the low of the same pair, or of the pair above.
fn settle_high<T, P: Ord>(
    items: &mut [Item<T, P>],
    comparisons: &mut Comparisons,
    high: usize,
    low: usize,
)
    requires sides { (high % 2 ≡ 0) × (low % 2 ≡ 1) }
    requires within { (high < length items.old) × (low < length items.old) }
    requires over { (low ≤ high + 1) × IsOver high low }
    requires facing { (b : ℕ) → IsOver high b → b < length items.old → b ≢ low → IsOver low b }
    ensures moves { IsPermutation items.old items.new }
    ensures order { InOrderBut (item_cmp P.cmp) items.old high
        → IsIntervalHeap (item_cmp P.cmp) items.new }
    ensures cost { comparisons.new.count ≤ comparisons.old.count + digits (high / 2 + 1) }
{
    if comparisons.compare(&items[high], &items[low]).is_lt() {
        items.swap(high, low);
        rise(items, comparisons, low);
    } else {
        rise(items, comparisons, high);
    }
}

// Lets the item at `at` go up its side.
fn rise<T, P: Ord>(items: &mut [Item<T, P>], comparisons: &mut Comparisons, at: usize)
    requires { at < length items.old }
    ensures moves { IsPermutation items.old items.new }
    ensures high { at % 2 ≡ 0 → AtMostTooGreat (item_cmp P.cmp) items.old at
        → IsIntervalHeap (item_cmp P.cmp) items.new }
    ensures low { at % 2 ≡ 1 → AtMostTooSmall (item_cmp P.cmp) items.old at
        → IsIntervalHeap (item_cmp P.cmp) items.new }
    ensures cost { comparisons.new.count + 1 ≤ comparisons.old.count + digits (at / 2 + 1) }
{
    let mut at = at;
    while 1 < at {
        let parent = high_of_parent(at) + at % 2;
        if !is_beyond(items, comparisons, at, parent) {
            return;
        }
        items.swap(at, parent);
        at = parent;
    }
}

// Whether the item at `at` is greater than that at `other`, if it is a high, or less, if it is a
// low.
fn is_beyond<T, P: Ord>(
    items: &[Item<T, P>],
    comparisons: &mut Comparisons,
    at: usize,
    other: usize,
) -> bool
    requires { (at < length items.now) × (other < length items.now) }
    ensures high { at % 2 ≡ 0 → ComparesAt (item_cmp P.cmp) items.now other at result }
    ensures low { at % 2 ≡ 1 → ComparesAt (item_cmp P.cmp) items.now at other result }
    ensures cost { comparisons.new.count ≡ comparisons.old.count + 1 }
{
    if at % 2 == 0 {
        comparisons.compare(&items[other], &items[at]).is_lt()
    } else {
        comparisons.compare(&items[at], &items[other]).is_lt()
    }
}

// The place of the high in the pair above the pair of `at`.
fn high_of_parent(at: usize) -> usize
    requires { 1 < at }
    ensures { result ≡ (at - 2) / 4 * 2 }
{
    (at - 2) / 4 * 2
}

/// Moves the item at `at` down its side to a place with no pair below, or to the last high, which
/// stands for a low. Returns that place.
pub(crate) fn fall<T, P: Ord>(
    items: &mut [Item<T, P>],
    comparisons: &mut Comparisons,
    at: usize,
) -> usize
    requires { at < length items.old }
    ensures within { result < length items.new }
    ensures bottom { length items.new ≤ result / 2 * 4 + 2 }
    ensures moves { IsPermutation items.old items.new }
    ensures order { InOrderBut (item_cmp P.cmp) items.old at
        → InOrderBut (item_cmp P.cmp) items.new result }
    ensures cost { comparisons.new.count + 1 ≤ comparisons.old.count + digits (result / 2 + 1) }
{
    let mut at = at;
    while at / 2 * 4 + 2 < items.len() {
        let child = child_of(items, comparisons, at);
        items.swap(at, child);
        at = child;
    }
    at
}

// The place to which the item at `at` falls by one pair.
fn child_of<T, P: Ord>(items: &[Item<T, P>], comparisons: &mut Comparisons, at: usize) -> usize
    requires { at / 2 * 4 + 2 < length items.now }
    ensures below { (result - 2) / 4 ≡ at / 2 }
    ensures within { (1 < result) × (result < length items.now) }
    ensures order { FallsTo (item_cmp P.cmp) items.now at result }
    ensures cost { comparisons.new.count ≤ comparisons.old.count + 1 }
{
    if at % 2 == 0 {
        greater_child(items, comparisons, at)
    } else {
        lesser_child(items, comparisons, at)
    }
}

// The place of the greater high of the two pairs below the pair of `at`.
fn greater_child<T, P: Ord>(items: &[Item<T, P>], comparisons: &mut Comparisons, at: usize) -> usize
    requires { at * 2 + 2 < length items.now }
    ensures child { (at * 2 + 2 ≤ result) × (result ≤ at * 2 + 4) × (result % 2 ≡ 0) }
    ensures within { result < length items.now }
    ensures left { ComparesAt (item_cmp P.cmp) items.now result (at * 2 + 2) false }
    ensures right { at * 2 + 4 < length items.now
        → ComparesAt (item_cmp P.cmp) items.now result (at * 2 + 4) false }
    ensures cost { comparisons.new.count ≤ comparisons.old.count + 1 }
{
    let left = at * 2 + 2;
    let right = left + 2;
    if items.len() <= right || comparisons.compare(&items[right], &items[left]).is_lt() {
        left
    } else {
        right
    }
}

// The place of the lesser low of the two pairs below the pair of `at`. If the last high has no low,
// it stands for its low.
fn lesser_child<T, P: Ord>(items: &[Item<T, P>], comparisons: &mut Comparisons, at: usize) -> usize
    requires { at * 2 < length items.now }
    ensures child { (at * 2 ≤ result) × (result ≤ at * 2 + 3) }
    ensures within { result < length items.now }
    ensures side { result + 1 < length items.now → result % 2 ≡ 1 }
    ensures left { ComparesAt (item_cmp P.cmp) items.now
        (min (at * 2 + 1) (length items.now - 1)) result false }
    ensures right { ComparesAt (item_cmp P.cmp) items.now
        (min (at * 2 + 3) (length items.now - 1)) result false }
    ensures cost { comparisons.new.count ≤ comparisons.old.count + 1 }
{
    let last = items.len() - 1;
    let left = (at * 2 + 1).min(last);
    let right = (at * 2 + 3).min(last);
    if left < right && comparisons.compare(&items[right], &items[left]).is_lt() {
        right
    } else {
        left
    }
}

//! Finding the pairs that a test of the caller chooses.
ghost use Rattle.std.specs.Prelude.{◌≡◌, ℕ, true, false, List, ◌++◌, ◌+◌, ◌<◌, ◌≤◌, length, map, slice_index_or, All, IfNone, IfSome, vec_capacity, IsPermutation};
ghost use Rattle.std.specs.List.{FoldsTo};
ghost use Rattle.std.specs.Ordering.{is_gt};
ghost use Rattle.priority_channel_core.specs.bag.Prelude.{pair_of, item_cmp, Counts, Folds, Tells, Item};

use crate::comparisons::Comparisons;
use crate::item::Item;
use std::alloc::Allocator;

/// The place of an item for whose pair the test returns true.
pub(crate) fn find<T, P, F: Fn(&T, &P) -> bool>(items: &[Item<T, P>], test: &F) -> Option<usize>
    requires { F.IsAlwaysCallable test.now }
    ensures within { IfSome result (λ at. at < length items.now) }
    ensures found { IfSome result (λ at. (d : Item T P)
        → Tells F.Fn test.now (pair_of (slice_index_or items.now at d)) true) }
    ensures none { IfNone result ((k : ℕ) (d : Item T P) → k < length items.now
        → Tells F.Fn test.now (pair_of (slice_index_or items.now k d)) false) }
{
    for at in 0..items.len() {
        let item = &items[at];
        if test(&item.msg, &item.priority) {
            return Some(at);
        }
    }
    None
}

/// The place of the item with the least number among those for whose pairs the test returns true.
pub(crate) fn find_first<T, P, F: Fn(&T, &P) -> bool>(
    items: &[Item<T, P>],
    test: &F,
) -> Option<usize>
    requires { F.IsAlwaysCallable test.now }
    ensures within { IfSome result (λ at. at < length items.now) }
    ensures found { IfSome result (λ at. (d : Item T P)
        → Tells F.Fn test.now (pair_of (slice_index_or items.now at d)) true) }
    ensures first { IfSome result (λ at. (k : ℕ) (d : Item T P) → k < length items.now
        → (slice_index_or items.now k d).number < (slice_index_or items.now at d).number
        → Tells F.Fn test.now (pair_of (slice_index_or items.now k d)) false) }
    ensures none { IfNone result ((k : ℕ) (d : Item T P) → k < length items.now
        → Tells F.Fn test.now (pair_of (slice_index_or items.now k d)) false) }
{
    let mut first = None;
    for at in 0..items.len() {
        let item = &items[at];
        if is_before(items, at, first) && test(&item.msg, &item.priority) {
            first = Some(at);
        }
    }
    first
}

// Whether the item at `at` has a lesser number than the one at `first`, if there is one.
fn is_before<T, P>(items: &[Item<T, P>], at: usize, first: Option<usize>) -> bool
    requires within { at < length items.now }
    requires first { IfSome first (λ f. f < length items.now) }
    ensures none { IfNone first (result ≡ true) }
    ensures before { IfSome first (λ f. (d : Item T P)
        → (slice_index_or items.now at d).number < (slice_index_or items.now f d).number
        → result ≡ true) }
    ensures only_before { result ≡ true → IfSome first (λ f. (d : Item T P)
        → (slice_index_or items.now at d).number < (slice_index_or items.now f d).number) }
{
    match first {
        Some(first) => items[at].number < items[first].number,
        None => true,
    }
}

/// The place of the greatest item among those for whose pairs the test returns true.
pub(crate) fn find_greatest<T, P: Ord, F: Fn(&T, &P) -> bool>(
    items: &[Item<T, P>],
    comparisons: &mut Comparisons,
    test: &F,
) -> Option<usize>
    requires { F.IsAlwaysCallable test.now }
    ensures within { IfSome result (λ at. at < length items.now) }
    ensures found { IfSome result (λ at. (d : Item T P)
        → Tells F.Fn test.now (pair_of (slice_index_or items.now at d)) true) }
    ensures greatest { IfSome result (λ at. (k : ℕ) (d : Item T P) → k < length items.now
        → is_gt (item_cmp P.cmp (slice_index_or items.now k d) (slice_index_or items.now at d))
        ≡ true → Tells F.Fn test.now (pair_of (slice_index_or items.now k d)) false) }
    ensures none { IfNone result ((k : ℕ) (d : Item T P) → k < length items.now
        → Tells F.Fn test.now (pair_of (slice_index_or items.now k d)) false) }
    ensures cost { comparisons.new.count ≤ comparisons.old.count + length items.now }
{
    let mut greatest = None;
    for at in 0..items.len() {
        let item = &items[at];
        if test(&item.msg, &item.priority) && is_above(items, comparisons, at, greatest) {
            greatest = Some(at);
        }
    }
    greatest
}

// Whether the item at `at` is greater than the one at `greatest`, if there is one.
fn is_above<T, P: Ord>(
    items: &[Item<T, P>],
    comparisons: &mut Comparisons,
    at: usize,
    greatest: Option<usize>,
) -> bool
    requires within { at < length items.now }
    requires greatest { IfSome greatest (λ g. g < length items.now) }
    ensures none { IfNone greatest (result ≡ true) }
    ensures above { IfSome greatest (λ g. (d : Item T P)
        → is_gt (item_cmp P.cmp (slice_index_or items.now at d) (slice_index_or items.now g d))
        ≡ true → result ≡ true) }
    ensures only_above { result ≡ true → IfSome greatest (λ g. (d : Item T P)
        → is_gt (item_cmp P.cmp (slice_index_or items.now at d) (slice_index_or items.now g d))
        ≡ true) }
    ensures cost { comparisons.new.count ≤ comparisons.old.count + 1 }
{
    match greatest {
        Some(greatest) => comparisons.compare(&items[at], &items[greatest]).is_gt(),
        None => true,
    }
}

/// Calls `step` on each pair in turn, with what the call before it returned.
pub(crate) fn fold<T, P, X, F: Fn(X, &T, &P) -> X>(items: &[Item<T, P>], init: X, step: &F) -> X
    requires { F.IsAlwaysCallable step.now }
    ensures { FoldsTo (Folds F.Fn step.now) init (map pair_of items.now) result }
{
    let mut folded = init;
    for at in 0..items.len() {
        let item = &items[at];
        folded = step(folded, &item.msg, &item.priority);
    }
    folded
}

/// The number of items for whose pairs the test returns true.
pub(crate) fn count<T, P, F: Fn(&T, &P) -> bool>(items: &[Item<T, P>], test: &F) -> usize
    requires { F.IsAlwaysCallable test.now }
    ensures { Counts (λ item. Tells F.Fn test.now (pair_of item) true)
        (λ item. Tells F.Fn test.now (pair_of item) false) items.now result }
{
    let mut count = 0;
    for at in 0..items.len() {
        let item = &items[at];
        if test(&item.msg, &item.priority) {
            count += 1;
        }
    }
    count
}

/// Moves the pairs for which the test returns false to the end of `out`. The order of the other
/// items changes.
pub(crate) fn divide<T, P, F: Fn(&T, &P) -> bool, A: Allocator, B: Allocator>(
    items: &mut Vec<Item<T, P>, A>,
    test: &F,
    out: &mut Vec<(T, P), B>,
)
    requires callable { F.IsAlwaysCallable test.now }
    requires fits { length out.old.items + length items.old.items ≤ vec_capacity out.old }
    ensures taken { (others : List (Item T P))
        × (out.new.items ≡ out.old.items ++ map pair_of others)
        × IsPermutation items.old.items (others ++ items.new.items)
        × All (λ item. Tells F.Fn test.now (pair_of item) false) others }
    ensures kept { All (λ item. Tells F.Fn test.now (pair_of item) true) items.new.items }
    ensures slots { vec_capacity items.new ≡ vec_capacity items.old }
    ensures out_slots { vec_capacity out.new ≡ vec_capacity out.old }
{
    let mut at = items.len();
    while 0 < at {
        at -= 1;
        let item = &items[at];
        if !test(&item.msg, &item.priority) {
            out.push_reserved(items.swap_remove(at).into_pair());
        }
    }
}

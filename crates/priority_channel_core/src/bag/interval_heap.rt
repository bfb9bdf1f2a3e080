//! An interval heap. The items are in pairs: a high, and its low right behind it. Each pair lies
//! between the high and the low of the pair above it. So the first item is the greatest, and the
//! second is the least. If the number of items is odd, the last high has no low.
//!
//! Like a binary heap, it takes no memory of its own, and the number of comparisons of a call grows
//! with the logarithm of the length.
ghost use Rattle.std.specs.Prelude.{◌≡◌, ◌+◌, ◌-◌, ◌*◌, ◌<◌, ◌≤◌, true, [], length, IfSome, MatchOption, IsPermutation};
ghost use Rattle.priority_channel_core.specs.bag.Prelude.{digits, item_cmp, MendsAt, IsIntervalHeap, IsIntervalHeapWithin, IsLeastAt};

mod sift;

use crate::comparisons::Comparisons;
use crate::item::Item;
use sift::{fall, settle_at};

/// Makes an interval heap of items that are one except for the last item, which was just added.
pub(crate) fn settle<T, P: Ord>(items: &mut [Item<T, P>], comparisons: &mut Comparisons)
    ensures moves { IsPermutation items.old items.new }
    ensures order { IsIntervalHeapWithin (item_cmp P.cmp) items.old (length items.old - 1)
        → IsIntervalHeap (item_cmp P.cmp) items.new }
    ensures cost { comparisons.new.count ≤ comparisons.old.count + digits (length items.old) }
{
    if items.is_empty() {
        return;
    }
    let last = items.len() - 1;
    settle_at(items, comparisons, last);
}

/// Makes an interval heap of items that were one before another item came in at `at`.
pub(crate) fn mend<T, P: Ord>(items: &mut [Item<T, P>], comparisons: &mut Comparisons, at: usize)
    requires { at < length items.old }
    ensures moves { IsPermutation items.old items.new }
    ensures order { MendsAt (item_cmp P.cmp) true at items.old items.new }
    ensures cost { comparisons.new.count ≤ comparisons.old.count + 2 * digits (length items.old) }
{
    let bottom = fall(items, comparisons, at);
    settle_at(items, comparisons, bottom);
}

/// The place of the least item of an interval heap, if there is any item.
pub(crate) fn least_place<T, P: Ord>(items: &[Item<T, P>]) -> Option<usize>
    ensures place { MatchOption result (items.now ≡ []) (λ i. i < length items.now) }
    ensures least { IfSome result (λ i. IsIntervalHeap (item_cmp P.cmp) items.now
        → IsLeastAt (item_cmp P.cmp) items.now i) }
{
    match items.len() {
        0 => None,
        1 => Some(0),
        _ => Some(1),
    }
}

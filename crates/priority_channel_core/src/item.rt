//! A message with its priority and the number under which it was accepted.
ghost use Rattle.std.proofs.Common.{rules, ◌==◌};
ghost use Rattle.std.specs.Cmp.{partial_order_from_own_ties};
ghost use Rattle.std.specs.Cmp.Rules.{comparing};
ghost use Rattle.std.specs.Ordering.{on, as_partial_cmp, eq_of_both};
ghost use Rattle.std.specs.Prelude.{◌≡◌};
ghost use Rattle.priority_channel_core.specs.bag.Prelude.{pair_of, item_cmp};

use std::cmp::Ordering;

/// Items are ordered by their priority. Of two items with equal priorities, the one that was
/// accepted first is the greater.
#[derive(Drop)]
pub struct Item<T, P> {
    pub msg: T,
    pub priority: P,
    pub number: u64,
}

impl<T, P> Item<T, P> {
    #[inline(always)]
    pub(crate) fn into_pair(self) -> (T, P)
        ensures { result ≡ pair_of self }
    {
        (self.msg, self.priority)
    }
}

impl<T, P: Ord> PartialEq for Item<T, P> {
    ghost eq = { eq_of_both (on (λ i. i.priority) P.eq) (on (λ i. i.number) (λ m n. m == n)) };

    ghost laws = { Prim.search (comparing, rules) };

    fn eq(&self, other: &Item<T, P>) -> bool {
        self.priority == other.priority && self.number == other.number
    }
}

impl<T, P: Ord> Eq for Item<T, P> {
    ghost laws = { Prim.search (comparing, rules) };
}

impl<T, P: Ord> PartialOrd for Item<T, P> {
    ghost partial_cmp = { as_partial_cmp (item_cmp P.cmp) };

    ghost laws = { partial_order_from_own_ties (Prim.search (comparing, rules))
        (Prim.search (comparing, rules)) };

    fn partial_cmp(&self, other: &Item<T, P>) -> Option<Ordering> {
        Some(self.cmp(other))
    }
}

impl<T, P: Ord> Ord for Item<T, P> {
    ghost cmp = { item_cmp P.cmp };

    ghost total = { Prim.search (comparing, rules) };

    ghost matches_partial_cmp = { Prim.search (comparing, rules) };

    ghost matches_eq = { Prim.search (comparing, rules) };

    fn cmp(&self, other: &Item<T, P>) -> Ordering {
        match self.priority.cmp(&other.priority) {
            Ordering::Equal => other.number.cmp(&self.number),
            unequal => unequal,
        }
    }
}

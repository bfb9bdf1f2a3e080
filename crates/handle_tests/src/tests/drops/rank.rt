//! Priorities that something is dropped with.
use std::cmp::Ordering;

/// A priority that has more than its rank, by which alone it is ordered.
#[derive(Drop)]
pub struct Rank<X: Drop> {
    rank: u64,
    _with: X,
}

impl<X: Drop> Rank<X> {
    pub fn new(rank: u64, with: X) -> Self {
        Rank { rank, _with: with }
    }
}

impl<X: Drop> PartialEq for Rank<X> {
    ghost use Rattle.std.specs.Prelude.{nat_eq};
    ghost use Rattle.std.specs.Ordering.{on};
    ghost use Rattle.std.proofs.Common.{rules};
    ghost use Rattle.std.specs.Cmp.Rules.{comparing};

    ghost eq = { on (λ c. c.rank) nat_eq };

    ghost laws = { Prim.search (comparing, rules) };

    fn eq(&self, other: &Self) -> bool {
        self.rank == other.rank
    }
}

impl<X: Drop> Eq for Rank<X> {
    ghost use Rattle.std.proofs.Common.{rules};
    ghost use Rattle.std.specs.Cmp.Rules.{comparing};

    ghost laws = { Prim.search (comparing, rules) };
}

impl<X: Drop> PartialOrd for Rank<X> {
    ghost use Rattle.std.specs.Ordering.{on, nat_cmp, as_partial_cmp};
    ghost use Rattle.std.specs.Cmp.{partial_order_from_own_ties};
    ghost use Rattle.std.proofs.Common.{rules};
    ghost use Rattle.std.specs.Cmp.Rules.{comparing};

    ghost partial_cmp = { as_partial_cmp (on (λ c. c.rank) nat_cmp) };

    ghost laws = { partial_order_from_own_ties (Prim.search (comparing, rules))
        (Prim.search (comparing, rules)) };

    fn partial_cmp(&self, other: &Self) -> Option<Ordering> {
        Some(self.cmp(other))
    }
}

impl<X: Drop> Ord for Rank<X> {
    ghost use Rattle.std.specs.Ordering.{on, nat_cmp};
    ghost use Rattle.std.proofs.Common.{rules};
    ghost use Rattle.std.specs.Cmp.Rules.{comparing};

    ghost cmp = { on (λ c. c.rank) nat_cmp };

    ghost total = { Prim.search (comparing, rules) };

    ghost matches_partial_cmp = { Prim.search (comparing, rules) };

    ghost matches_eq = { Prim.search (comparing, rules) };

    fn cmp(&self, other: &Self) -> Ordering {
        self.rank.cmp(&other.rank)
    }
}

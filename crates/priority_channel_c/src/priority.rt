//! Priorities: pairs of words.
ghost use Rattle.std.proofs.Common.{rules};
ghost use Rattle.std.specs.Cmp.{partial_order_from_own_ties};
ghost use Rattle.std.specs.Cmp.Rules.{comparing};
ghost use Rattle.std.specs.Ordering.{as_partial_cmp};

use std::cmp::Ordering;

/// The greater high word is the more urgent one. Between equal high words the low words decide.
#[repr(C)]
#[derive(Clone, Copy, PartialEq, Eq)]
pub struct Priority {
    pub high: u64,
    pub low: u64,
}

impl Ord for Priority {
    ghost use Rattle.priority_channel_c.specs.Priority.{priority_cmp};

    ghost cmp = { priority_cmp };

    ghost total = { Prim.search (comparing, rules) };

    ghost matches_partial_cmp = { Prim.search (comparing, rules) };

    ghost matches_eq = { Prim.search (comparing, rules) };

    fn cmp(&self, other: &Priority) -> Ordering {
        self.high.cmp(&other.high).then(self.low.cmp(&other.low))
    }
}

impl PartialOrd for Priority {
    ghost use Rattle.priority_channel_c.specs.Priority.{priority_cmp};

    ghost partial_cmp = { as_partial_cmp priority_cmp };

    ghost laws = { partial_order_from_own_ties (Prim.search (comparing, rules))
        (Prim.search (comparing, rules)) };

    fn partial_cmp(&self, other: &Priority) -> Option<Ordering> {
        Some(self.cmp(other))
    }
}

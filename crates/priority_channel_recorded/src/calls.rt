//! The histories of a recorded channel: the calls of its book.
ghost use Rattle.std.specs.Prelude.{◌≡◌};

use crate::book::Entry;
use crate::chronicle::{self, Chronicle, Telling};
use std::marker::{Model, PhantomData};

/// Histories of a recorded channel with these messages and priorities.
pub struct Calls<T, P: Ord> {
    of: PhantomData<(T, P)>,
}

// A recorded channel is always reserved, whatever its names say.
impl<T, P: Ord> Chronicle for Calls<T, P> {
    ghost use Rattle.priority_channel_recorded.specs.History.{IsLegal, who_of, legal_none};

    type Entry = Entry<T, P>;

    ghost legal = { λ capacity is_reserved history. IsLegal P.cmp capacity history };

    ghost who = { who_of };

    ghost begins = { λ capacity is_reserved. legal_none P.cmp capacity };
}

impl<T, P: Ord> Telling<Calls<T, P>> for Entry<T, P> {
    ghost entry = { λ entry. entry };
}

pub type Log<T, P, J> = chronicle::Log<Calls<T, P>, J>;

/// The right to call a recorder.
pub type Pass<T, P, J> = chronicle::Pass<Calls<T, P>, J>;

/// A log without entries and an empty ledger, from which one recorder is made.
pub struct Fresh<T, P: Ord> {
    pub(crate) fresh: chronicle::Fresh<Calls<T, P>>,
}

impl<T, P: Ord> Model for Fresh<T, P> {
    ghost use Rattle.priority_channel_recorded.specs.chronicle.Log.{Names};

    ghost Value = { Names };

    ghost view = { λ f. f.fresh };
}

impl<T, P: Ord> Fresh<T, P> {
    /// For a recorder of a channel of this capacity, with that many passes.
    ///
    /// Cost: no memory.
    pub fn new(cap: u64, passes: usize) -> Self
        ensures capacity { result.capacity ≡ cap }
        ensures passes { result.passes ≡ passes }
    {
        Fresh {
            fresh: chronicle::Fresh::new(cap, true, passes),
        }
    }
}

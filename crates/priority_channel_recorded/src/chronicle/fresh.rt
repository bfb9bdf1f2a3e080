//! The parts from which a channel is made, and the names that contracts use for it.
ghost use Rattle.std.specs.Prelude.{◌≡◌, []};
ghost use Rattle.priority_channel_recorded.specs.chronicle.Log.{names};

use crate::chronicle::entry::Chronicle;
use crate::chronicle::journal::Journal;
use crate::chronicle::log::{Law, Line, Log, Opens, Seen};
use logbook::{Start, Word};
use std::marker::{Brand, Model, PhantomData};
use std::sync::ledger::{Blank, Ledger, Share};

/// The names that contracts use for one channel: those of its log and its ledger, its capacity, and
/// whether it is reserved. A function that uses a channel is generic in them, so a pass of another
/// channel has another type.
///
/// The outermost call passes `Brand`, and its caller states that the names are those of the `Fresh`
/// that it passes. If the function `main` of the crate `app` calls `served`, whose parameter
/// `fresh` is the `Fresh`, the file `proofs/main/Invariants.antt` is:
///
/// ```text
/// use Rattle.app.proofs.main.Given as goal
///
/// abbrev pub ghosts-served-J-Recording : goal.ghosts-served-J-Recording
/// ghosts-served-J-Recording g a = record {
///   log = a.fresh.log;
///   capacity = a.fresh.capacity;
///   is_reserved = a.fresh.is_reserved;
/// }
///
/// abbrev pub ghosts-served-J-Ledger : goal.ghosts-served-J-Ledger
/// ghosts-served-J-Ledger g a = record { name = a.fresh.ledger; parts = a.fresh.passes }
/// ```
pub trait Recording: Ledger {
    ghost use Rattle.std.specs.Prelude.{ℕ, Bool};
    ghost use Rattle.logbook.specs.Pages.{Book};

    ghost log: { Book };

    ghost capacity: { ℕ };

    ghost is_reserved: { Bool };
}

impl Recording for Brand {
    ghost use Rattle.std.specs.Prelude.{false};

    ghost log = { record { number = 0; log_name = 0; cells_name = 0 } };

    ghost capacity = { 0 };

    ghost is_reserved = { false };
}

/// A log without entries and an empty ledger, from which one channel is made.
pub struct Fresh<H: Chronicle> {
    word: Word<Line<H::Entry>, u64, Law<H>>,
    seen: logbook::Seen<Line<H::Entry>, u64, Law<H>>,
    ledger: Blank,
    parts: usize,
}

impl<H: Chronicle> Model for Fresh<H> {
    ghost use Rattle.std.specs.Prelude.{◌≡◌};
    ghost use Rattle.priority_channel_recorded.specs.chronicle.Log.{Names, names, word_of, opened, capacity_in, is_reserved_in};

    ghost Value = { Names };

    ghost view = { λ f. names f.seen.book (capacity_in f.seen.log) (is_reserved_in f.seen.log)
        f.ledger.name f.ledger.parts };

    ghost invariant = { λ f.
        (f.seen.log ≡ opened (capacity_in f.seen.log) (is_reserved_in f.seen.log))
        × (f.word ≡ word_of f.seen.book) × (f.parts ≡ f.ledger.parts) };
}

impl<H: Chronicle> Fresh<H> {
    /// For a channel of this capacity, reserved or not, with parts of the ledger for that many
    /// passes. If passes come and leave, one part stays for the calls of those that left.
    #[tactic(auto, using(crate::proofs::Lines::log_new))]
    pub fn new(cap: u64, is_reserved: bool, passes: usize) -> Self
        ensures capacity { result.capacity ≡ cap }
        ensures reserved { result.is_reserved ≡ is_reserved }
        ensures passes { result.passes ≡ passes }
    {
        let opens = (cap, is_reserved);
        let (seen, mut pens) = logbook::Seen::open_row::<(u64, bool), Opens>(
            &opens,
            Start::alone(),
            1,
        );
        Fresh {
            word: Word::tracked(0, &mut pens.take()),
            seen,
            ledger: Blank::new(passes as u64),
            parts: passes,
        }
    }

    /// The number of passes for which it has parts.
    pub fn passes(&self) -> usize
        ensures { result ≡ self.now.passes }
    {
        self.parts
    }

    /// The log, a journal without entries, and all parts.
    #[tactic(auto, using(crate::proofs::Lines::log_opened, crate::proofs::Lines::no_entries))]
    pub fn open<J: Recording>(self) -> (Log<H, J>, Journal<H, J>, Share<J>)
        requires names { self ≡ names J.log J.capacity J.is_reserved J.name J.parts }
        ensures none { result.1 ≡ [] }
        ensures parts { result.2.parts ≡ J.parts }
        ensures amount { result.2.amount ≡ 0 }
    {
        let Fresh {
            word,
            seen,
            ledger,
            parts: _,
        } = self;
        let (calls, share) = ledger.open::<J>();
        let seen = Seen {
            token: seen,
            of: PhantomData,
        };
        let journal = Journal {
            count: 0,
            calls,
            seen,
        };
        let log = Log {
            word,
            of: PhantomData,
        };
        (log, journal, share)
    }
}

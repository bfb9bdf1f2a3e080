//! The log that the callers of one channel share. Except for the number of its entries, it exists
//! in contracts alone.
ghost use Rattle.std.specs.Prelude.{◌≡◌, ◌+◌, ◌<◌, ◌^◌, ◌∷◌, [], ◌++◌, length, MatchBool};
ghost use mathlib.Core.List.{IsPrefix};
ghost use Rattle.priority_channel_recorded.specs.chronicle.Log.{MayFollow};

use crate::chronicle::entry::{Chronicle, Telling};
use crate::chronicle::fresh::Recording;
use crate::chronicle::pass::Pass;
use logbook::{Gain, Offer, Opening, Plain, Play, Rule, Word};
use std::marker::{Model, PhantomData};

/// A line of the log. The first is the opening of the channel, and each other one a call.
pub enum Line<E> {
    Opened(u64, bool),
    Made(E),
}

/// The rule of the log: the word is the number of its entries, and these are a legal history.
pub struct Law<H: Chronicle> {
    of: PhantomData<H>,
}

impl<H: Chronicle> Rule<Line<H::Entry>, u64> for Law<H> {
    ghost use Rattle.std.specs.Prelude.{[]};
    ghost use base.Fml.{ftrue};
    ghost use Rattle.priority_channel_recorded.specs.chronicle.Log.{IsLog};

    ghost holds = { λ cells log. IsLog H.legal cells log };

    ghost first = { [] };

    ghost hinted = { λ n log. Unit {0} };

    ghost shows = { λ log. [] };

    ghost keeps = { λ names log. ftrue };

    ghost moves = { λ ask before after answer. Unit {0} };
}

/// The opening of a log.
pub struct Opens;

impl<E> Opening<(u64, bool), Line<E>> for Opens {
    ghost use Rattle.priority_channel_recorded.specs.chronicle.Log.{opened};

    ghost log = { λ words about. opened about.0 about.1 };
}

/// No caller trades anything with the log.
pub struct Nothing;

impl<E> Gain<Line<E>, u64> for Nothing {
    ghost use base.Fml.{ftrue};

    ghost after = { λ names about answer. ftrue };
}

/// A step that reads the log.
pub struct Look<H: Chronicle> {
    of: PhantomData<H>,
}

impl<H: Chronicle> Play<Line<H::Entry>, u64> for Look<H> {
    ghost use Rattle.priority_channel_recorded.specs.chronicle.Log.{Looks};

    ghost then = { Looks H.legal };
}

// A read needs no line: this one stands in its place.
impl<H: Chronicle> Plain<(), Line<H::Entry>, u64> for Look<H> {
    ghost use Rattle.std.specs.Prelude.{None, false};
    ghost use Rattle.priority_channel_recorded.specs.declared.chronicle.log.Line.TheVariants.{Opened};

    ghost ask = { λ about. Opened 0 false };

    ghost state = { λ about. None };
}

/// A step that adds an entry to the log.
pub struct Add<H: Chronicle> {
    of: PhantomData<H>,
}

impl<H: Chronicle> Play<Line<H::Entry>, u64> for Add<H> {
    ghost use Rattle.priority_channel_recorded.specs.chronicle.Log.{Adds};

    ghost then = { Adds H.legal };
}

impl<H: Chronicle, X: Telling<H>> Plain<X, Line<H::Entry>, u64> for Add<H> {
    ghost use Rattle.std.specs.Prelude.{None};
    ghost use Rattle.priority_channel_recorded.specs.declared.chronicle.log.Line.TheVariants.{Made};

    ghost ask = { λ telling. Made (X.entry telling) };

    ghost state = { λ telling. None };
}

/// The number of the log's entries.
#[derive(Drop)]
pub struct Log<H: Chronicle, J: Recording> {
    pub(crate) word: Word<Line<H::Entry>, u64, Law<H>>,
    pub(crate) of: PhantomData<J>,
}

impl<H: Chronicle, J: Recording> Model for Log<H, J> {
    ghost use Rattle.std.specs.Prelude.{◌≡◌};
    ghost use Rattle.priority_channel_recorded.specs.chronicle.Log.{word_of};

    ghost Value = { Unit {0} };

    ghost view = { λ l. tt };

    ghost invariant = { λ l. l.word ≡ word_of J.log };
}

impl<H: Chronicle, J: Recording> Log<H, J> {
    /// Afterwards both passes have seen what either had seen, and the history as it is. It takes no
    /// lock, and does not wait.
    #[tactic(auto, using(crate::proofs::Fronts::prefix_trans, crate::proofs::Accounts::calls_seen))]
    pub fn meet(&self, one: &mut Pass<H, J>, other: &mut Pass<H, J>)
        ensures one_number { one.new.number ≡ one.old.number }
        ensures one_count { one.new.count ≡ one.old.count }
        ensures one_begins { IsPrefix one.old.seen one.new.seen }
        ensures other_number { other.new.number ≡ other.old.number }
        ensures other_count { other.new.count ≡ other.old.count }
        ensures other_begins { IsPrefix other.old.seen other.new.seen }
        ensures same { one.new.seen ≡ other.new.seen }
        ensures legal { H.legal J.capacity J.is_reserved one.new.seen }
    {
        let seen = self.see_all(&one.seen, &other.seen);
        one.seen = seen.again();
        other.seen = seen;
    }

    // What either has seen, and the history as it is.
    #[tactic(auto, using(crate::proofs::Fronts::prefix_trans))]
    fn see_all(&self, one: &Seen<H, J>, other: &Seen<H, J>) -> Seen<H, J>
        ensures this { IsPrefix one.now result }
        ensures that { IsPrefix other.now result }
        ensures legal { H.legal J.capacity J.is_reserved result }
    {
        let mut seen = one.again();
        seen.learn(other);
        let _length = seen.look(self);
        seen
    }
}

/// A prefix of the log that was seen: evidence that it is one, which takes no memory. Contracts see
/// its entries.
#[derive(Drop)]
pub struct Seen<H: Chronicle, J: Recording> {
    pub(crate) token: logbook::Seen<Line<H::Entry>, u64, Law<H>>,
    pub(crate) of: PhantomData<J>,
}

impl<H: Chronicle, J: Recording> Model for Seen<H, J> {
    ghost use Rattle.std.specs.Prelude.{◌≡◌, List};
    ghost use Rattle.priority_channel_recorded.specs.chronicle.Log.{IsLogOf, entries_in};

    ghost Value = { List H.Entry };

    ghost view = { λ s. entries_in s.token.log };

    ghost invariant = { λ s. (s.token.book ≡ J.log)
        × IsLogOf H.legal J.capacity J.is_reserved s.token.log };
}

impl<H: Chronicle, J: Recording> Seen<H, J> {
    /// A copy.
    pub fn again(&self) -> Self
        ensures same { result ≡ self.now }
        ensures legal { H.legal J.capacity J.is_reserved result }
    {
        Seen {
            token: self.token.again(),
            of: PhantomData,
        }
    }

    /// Adds what the other has seen.
    #[tactic(auto, using(crate::proofs::Lines::same_opening))]
    pub fn learn(&mut self, other: &Seen<H, J>)
        ensures this { IsPrefix self.old self.new }
        ensures that { IsPrefix other.now self.new }
        ensures legal { H.legal J.capacity J.is_reserved self.new }
    {
        self.token.learn(&other.token);
    }

    // Reads the log as it is, and returns the number of its entries.
    #[tactic(auto, using(crate::proofs::Lines::same_opening))]
    pub(crate) fn look(&mut self, log: &Log<H, J>) -> u64
        ensures seen { IsPrefix self.old self.new }
        ensures length { result ≡ length self.new }
        ensures legal { H.legal J.capacity J.is_reserved self.new }
    {
        let mut offer: Offer<Line<H::Entry>, u64, Law<H>, Nothing> = self
            .token
            .plain::<Nothing, (), Look<H>>(&());
        log.word
            .load::<Look<H>, Nothing>(&mut self.token, &mut offer)
    }

    // Adds an entry to the log if it has `count` entries, and returns whether it did.
    #[tactic(auto, using(crate::proofs::Lines::same_opening))]
    pub(crate) fn append<X: Telling<H>>(&mut self, log: &Log<H, J>, count: u64, telling: &X) -> bool
        requires room { count + 1 < 2 ^ 64 }
        requires next { MayFollow H.legal J.capacity J.is_reserved self.old count
            (X.entry telling.now) }
        ensures added { MatchBool result ((length self.old ≡ count)
            × (self.new ≡ self.old ++ X.entry telling.now ∷ [])) (IsPrefix self.old self.new) }
        ensures legal { H.legal J.capacity J.is_reserved self.new }
    {
        let mut offer: Offer<Line<H::Entry>, u64, Law<H>, Nothing> = self
            .token
            .plain::<Nothing, X, Add<H>>(telling);
        let mut pen = self.token.no_pen();
        let found = log
            .word
            .compare_exchange::<Add<H>, Nothing>(
                count,
                count + 1,
                &mut self.token,
                &mut offer,
                &mut pen,
            );
        found == count
    }
}

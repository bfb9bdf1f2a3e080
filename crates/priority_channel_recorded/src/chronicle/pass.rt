//! The right to call a channel.
ghost use Rattle.std.specs.Prelude.{◌≡◌};
ghost use mathlib.Core.List.{IsPrefix};

use crate::chronicle::entry::Chronicle;
use crate::chronicle::fresh::Recording;
use crate::chronicle::log::Seen;
use std::marker::Model;
use std::sync::ledger::Share;

/// The right to call a channel. It cannot be copied. Contracts see its number, the number of calls
/// that were made with it, and the history that it has seen. In memory it is the two numbers alone.
#[derive(Drop)]
pub struct Pass<H: Chronicle, J: Recording> {
    pub(crate) number: u64,
    pub(crate) count: u64,
    pub(crate) share: Share<J>,
    pub(crate) seen: Seen<H, J>,
}

impl<H: Chronicle, J: Recording> Model for Pass<H, J> {
    ghost use Rattle.std.specs.Prelude.{◌≡◌, ◌≤◌};
    ghost use Rattle.priority_channel_recorded.specs.chronicle.Passes.{Carried, calls_of};

    ghost Value = { Carried H.Entry };

    ghost view = { λ p. record { number = p.number; count = p.count; seen = p.seen } };

    ghost invariant = { λ p. (p.share.parts ≡ 1) × (p.share.amount ≡ p.count)
        × (p.count ≤ calls_of H.who p.number p.seen) };
}

impl<H: Chronicle, J: Recording> Pass<H, J> {
    /// The number under which its calls are entered.
    ///
    /// Cost: no lock.
    pub fn number(&self) -> u64
        ensures { result ≡ self.now.number }
    {
        self.number
    }

    /// The number of calls that were made with it.
    ///
    /// Cost: no lock.
    ///
    /// ```
    /// let before = pass.count();
    /// recorder.call(&rt, &mut pass, Call::Len)?;
    /// assert_eq!(rt; pass.count(), before + 1);
    /// ```
    pub fn count(&self) -> u64
        ensures { result ≡ self.now.count }
    {
        self.count
    }

    /// Adds what the other has seen.
    ///
    /// Cost: no lock.
    ///
    /// ```
    /// let count = first.count();
    /// first.learn(&second);
    /// assert_eq!(rt; first.count(), count);
    /// ```
    #[tactic(auto, using(crate::proofs::Accounts::calls_seen))]
    pub fn learn(&mut self, other: &Self)
        ensures number { self.new.number ≡ self.old.number }
        ensures count { self.new.count ≡ self.old.count }
        ensures this { IsPrefix self.old.seen self.new.seen }
        ensures that { IsPrefix other.now.seen self.new.seen }
        ensures legal { H.legal J.capacity J.is_reserved self.new.seen }
    {
        self.seen.learn(&other.seen);
    }
}

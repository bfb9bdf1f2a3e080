//! What the lock of a channel guards of its history: the number of entries, and whose calls they
//! are.
ghost use Rattle.std.specs.Prelude.{◌≡◌, ◌+◌, ◌<◌, ◌≤◌, ◌^◌, [], ◌∷◌, ◌++◌, length, vec_len, All, IfOk};
ghost use mathlib.Core.List.{IsPrefix};
ghost use Rattle.priority_channel_recorded.specs.chronicle.Passes.{IsTold, Accounts, AreApart, AreNew, calls_made, calls_of};

use crate::chronicle::entry::{Chronicle, Telling};
use crate::chronicle::forever::wait_forever;
use crate::chronicle::fresh::Recording;
use crate::chronicle::log::{Log, Seen};
use crate::chronicle::pass::Pass;
use std::alloc::{AllocError, Allocator};
use std::marker::Model;
use std::sync::ledger::Share;
use std::sync::{Wait, ledger};

/// The number of calls, a ledger that counts those of each pass, and the history.
#[derive(Drop)]
pub struct Journal<H: Chronicle, J: Recording> {
    pub(crate) count: u64,
    pub(crate) calls: ledger::Book<J>,
    pub(crate) seen: Seen<H, J>,
}

impl<H: Chronicle, J: Recording> Model for Journal<H, J> {
    ghost use Rattle.std.specs.Prelude.{◌≡◌, List, length};

    ghost Value = { List H.Entry };

    ghost view = { λ j. j.seen };

    ghost invariant = { λ j. (j.count ≡ length j.seen) × (j.calls.total ≡ length j.seen) };
}

impl<H: Chronicle, J: Recording> Journal<H, J> {
    /// A pass that has made no call, and has seen the history as it is.
    pub fn admit(&self, number: u64, share: Share<J>) -> Pass<H, J>
        requires part { share.parts ≡ 1 }
        requires amount { share.amount ≡ 0 }
        ensures { result ≡ record { number = number; count = 0; seen = self.now } }
    {
        Pass {
            number,
            count: 0,
            share,
            seen: self.seen.again(),
        }
    }

    /// As many passes as the share has parts, for a channel without calls.
    #[tactic(auto, using(crate::proofs::Accounts::new_apart))]
    pub fn first_passes<A: Allocator>(
        &self,
        alloc: A,
        mut rest: Share<J>,
        count: usize,
    ) -> Result<Vec<Pass<H, J>, A>, AllocError>
        requires none { self.now ≡ [] }
        requires parts { rest.parts ≡ count }
        requires amount { rest.amount ≡ 0 }
        ensures count { IfOk result (λ passes. vec_len passes ≡ count) }
        ensures new { IfOk result (λ passes. AreNew passes.items) }
        ensures apart { IfOk result (λ passes. AreApart passes.items) }
    {
        let mut passes = Vec::new(alloc);
        for number in 0..count {
            passes.push(self.admit(number as u64, rest.split_off(1, 0)))?;
        }
        Ok(passes)
    }

    /// Enters a call under the pass's number.
    pub fn enter<R: Wait, X: Telling<H>>(
        &mut self,
        rt: &R,
        log: &Log<H, J>,
        pass: &mut Pass<H, J>,
        telling: &X,
    )
        requires who { H.who (X.entry telling.now) ≡ pass.old.number }
        requires legal { H.legal J.capacity J.is_reserved (self.old ++ X.entry telling.now ∷ []) }
        ensures entered { self.new ≡ self.old ++ X.entry telling.now ∷ [] }
        ensures number { pass.new.number ≡ pass.old.number }
        ensures counted { pass.new.count ≡ pass.old.count + 1 }
        ensures told { IsTold H.who (H.legal J.capacity J.is_reserved) pass.old
            (X.entry telling.now) pass.new }
    {
        let count = next(rt, self.count);
        let seen = append(rt, log, &self.seen, &pass.seen, self.count, telling);
        // The calls of a pass are at most the ledger's total, so no count overflows.
        self.calls.audit(&mut pass.share);
        self.calls.add(&mut pass.share, 1);
        pass.count += 1;
        pass.seen = seen.again();
        self.seen = seen;
        self.count = count;
    }

    /// Takes back a pass. Its part and its calls go to the share.
    pub fn leave<R: Wait>(&self, rt: &R, log: &Log<H, J>, pass: Pass<H, J>, rest: &mut Share<J>)
        ensures parts { rest.new.parts ≡ rest.old.parts + 1 }
        ensures amount { rest.new.amount ≡ rest.old.amount + pass.count }
        ensures seen { IsPrefix pass.seen self.now }
        ensures counted { pass.count ≤ calls_of H.who pass.number self.now }
    {
        self.await_front(rt, log, &pass.seen);
        rest.merge(pass.share);
    }

    // The log has no more entries than this journal, so what was seen of it is a prefix of these.
    #[tactic(auto, using(crate::proofs::Fronts::prefix_trans, crate::proofs::Fronts::prefix_whole))]
    fn await_front<R: Wait>(&self, rt: &R, log: &Log<H, J>, seen: &Seen<H, J>)
        ensures { IsPrefix seen.now self.now }
    {
        let mut met = self.seen.again();
        met.learn(seen);
        if met.look(log) != self.count {
            wait_forever(rt);
        }
    }

    /// The whole history, once all passes that were out have come back. The share has the calls of
    /// those that had left.
    pub fn end<R: Wait, A: Allocator>(
        self,
        rt: &R,
        log: &Log<H, J>,
        mut rest: Share<J>,
        passes: Vec<Pass<H, J>, A>,
    ) -> Seen<H, J>
        requires all { rest.parts + vec_len passes ≡ J.parts }
        ensures same { result ≡ self }
        ensures length { length result ≡ rest.amount + calls_made passes.items }
        ensures seen { All (λ pass. IsPrefix pass.seen result) passes.items }
        ensures counted { All (λ pass. pass.count ≤ calls_of H.who pass.number result)
            passes.items }
        ensures accounts { rest.amount ≡ 0 → AreApart passes.items
            → Accounts H.who passes.items result }
    {
        self.leave_all(rt, log, passes, &mut rest);
        let Journal {
            count: _,
            mut calls,
            seen,
        } = self;
        calls.audit(&mut rest);
        seen
    }

    fn leave_all<R: Wait, A: Allocator>(
        &self,
        rt: &R,
        log: &Log<H, J>,
        passes: Vec<Pass<H, J>, A>,
        rest: &mut Share<J>,
    )
        ensures parts { rest.new.parts ≡ rest.old.parts + vec_len passes }
        ensures amount { rest.new.amount ≡ rest.old.amount + calls_made passes.items }
        ensures seen { All (λ pass. IsPrefix pass.seen self.now) passes.items }
        ensures counted { All (λ pass. pass.count ≤ calls_of H.who pass.number self.now)
            passes.items }
    {
        for pass in passes {
            self.leave(rt, log, pass, rest);
        }
    }
}

// The number after `count`. It waits for ever at 2^64 calls.
fn next<R: Wait>(rt: &R, count: u64) -> u64
    ensures { result ≡ count + 1 }
{
    if count == u64::MAX {
        wait_forever(rt);
    }
    count + 1
}

// Adds an entry behind `kept`, of which `other` is a prefix. Nobody else adds one meanwhile, but no
// contract says so.
fn append<H: Chronicle, J: Recording, R: Wait, X: Telling<H>>(
    rt: &R,
    log: &Log<H, J>,
    kept: &Seen<H, J>,
    other: &Seen<H, J>,
    count: u64,
    telling: &X,
) -> Seen<H, J>
    requires room { count + 1 < 2 ^ 64 }
    requires whole { length kept.now ≡ count }
    requires legal { H.legal J.capacity J.is_reserved (kept.now ++ X.entry telling.now ∷ []) }
    ensures seen { result ≡ kept.now ++ X.entry telling.now ∷ [] }
    ensures before { IsPrefix other.now kept.now }
    ensures legal { H.legal J.capacity J.is_reserved result }
{
    let mut seen = kept.again();
    seen.learn(other);
    if !seen.append(log, count, telling) {
        wait_forever(rt);
    }
    seen
}

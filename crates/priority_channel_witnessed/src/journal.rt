//! What is kept of the history under the lock.
ghost use Rattle.std.specs.Prelude.{◌≡◌, ◌+◌, ◌<◌, [], ◌∷◌, ◌++◌, length, vec_len, All, IfOk, IfErr, IfSome};
ghost use mathlib.Core.List.{IsPrefix};
ghost use Rattle.priority_channel_calls.specs.Told.{Makes};
ghost use Rattle.priority_channel_core.specs.Prelude.{State};
ghost use Rattle.priority_channel_witnessed.specs.History.{IsHistory};
ghost use Rattle.priority_channel_witnessed.specs.Passes.{calls_of, calls_made, calls_of_others, AreApart, Accounts, AreGiven, Tells};

use crate::chronicle::{Calls, Log, Pass, Seen, Telling};
use crate::numbers::{strike, strike_all};
use priority_channel_calls::call::CoreCall;
use priority_channel_core::channel::PriorityQueueChannel;
use priority_channel_recorded::chronicle::{Recording, wait_forever};
use std::alloc::Allocator;
use std::marker::Model;
use std::sync::Wait;
use std::sync::ledger::Share;

/// The calls that were made, and which passes are out.
#[derive(Drop)]
pub(crate) struct Journal<T, P: Ord, W: Clone, J: Recording, A: Allocator> {
    made: priority_channel_recorded::chronicle::Journal<Calls<T, P, W>, J>,
    // The numbers of the passes that are out, and the next number.
    out: Vec<u64, A>,
    next: u64,
    // The number of all parts, and those that no pass has, with the calls of passes that left.
    parts: usize,
    rest: Share<J>,
}

impl<T, P: Ord, W: Clone, J: Recording, A: Allocator> Model for Journal<T, P, W, J, A> {
    ghost use Rattle.std.specs.Prelude.{◌≡◌, ◌+◌, List, vec_len};
    ghost use Rattle.priority_channel_witnessed.specs.declared.chronicle.Entry.{Entry};
    ghost use Rattle.priority_channel_witnessed.specs.Passes.{AreGiven, IsShared};

    ghost Value = { List (Entry T P W) };

    ghost view = { λ j. j.made };

    ghost invariant = { λ j. (j.parts ≡ J.parts) × (j.rest.parts + vec_len j.out ≡ J.parts)
        × AreGiven j.out.items j.next × IsShared j.out.items j.next j.rest.amount j.made };
}

impl<T, P: Ord, W: Clone, J: Recording, A: Allocator + Copy> Journal<T, P, W, J, A> {
    /// The journal of a channel without calls, with these passes.
    #[tactic(auto, using(crate::proofs::Leaving::shared_none))]
    pub(crate) fn new(
        made: priority_channel_recorded::chronicle::Journal<Calls<T, P, W>, J>,
        out: Vec<u64, A>,
        next: u64,
        parts: usize,
        rest: Share<J>,
    ) -> Self
        requires made { made ≡ [] }
        requires given { AreGiven out.items next }
        requires parts { parts ≡ J.parts }
        requires out { rest.parts + vec_len out ≡ J.parts }
        requires amount { rest.amount ≡ 0 }
        ensures { result ≡ [] }
    {
        Journal {
            made,
            out,
            next,
            parts,
            rest,
        }
    }

    /// A pass with the next number. One part always stays for the calls of the passes that left.
    #[tactic(auto, using(crate::proofs::Leaving::given_more, crate::proofs::Leaving::shared_come))]
    pub(crate) fn admit(&mut self) -> Option<Pass<T, P, W, J>>
        ensures same { self.new ≡ self.old }
        ensures count { IfSome result (λ pass. pass.count ≡ 0) }
        ensures seen { IfSome result (λ pass. pass.seen ≡ self.old) }
    {
        let number = self.next;
        if self.parts - self.out.len() < 2 {
            return None;
        }
        if number == u64::MAX {
            return None;
        }
        // There is room for all parts.
        let Ok(()) = self.out.push(number) else {
            return None;
        };
        self.next = number + 1;
        Some(self.made.admit(number, self.rest.split_off(1, 0)))
    }

    /// Takes back a pass, with its part and its calls.
    #[tactic(auto, using(crate::proofs::Leaving::given_less, crate::proofs::Leaving::shared_go))]
    pub(crate) fn leave<R: Wait>(&mut self, rt: &R, log: &Log<T, P, W, J>, pass: Pass<T, P, W, J>)
        ensures same { self.new ≡ self.old }
        ensures kept { IsPrefix pass.seen self.new }
    {
        let number = pass.number();
        self.made.leave(rt, log, pass, &mut self.rest);
        strike(rt, &mut self.out, number);
    }

    /// Enters a call of the pass, which led from the state at the end of the history to the core's
    /// state.
    #[tactic(auto, using(crate::proofs::Histories::history_more, crate::proofs::Histories::legal_of, crate::proofs::Leaving::shared_more))]
    pub(crate) fn enter<R: Wait, C: CoreCall<T, P, W, A>>(
        &mut self,
        rt: &R,
        log: &Log<T, P, W, J>,
        core: &PriorityQueueChannel<T, P, W, A>,
        pass: &mut Pass<T, P, W, J>,
        telling: &Telling<T, P, W, A, C>,
    )
        requires who { telling.now.who ≡ pass.old.number }
        requires made { (before : State T P W)
            × IsHistory P.cmp W.is_clone J.capacity J.is_reserved self.old before
            × Makes P.cmp W.is_clone before (C.told telling.now.made.value telling.now.said.value)
            telling.now.handed.value core.now.state }
        ensures leads { IsHistory P.cmp W.is_clone J.capacity J.is_reserved self.new
            core.now.state }
        ensures told { Tells P.cmp W.is_clone J.capacity J.is_reserved pass.old
            (C.told telling.now.made.value telling.now.said.value) telling.now.handed.value
            pass.new }
    {
        await_given(rt, telling.who, self.next);
        self.made.enter(rt, log, pass, telling);
    }

    /// The whole history, once all passes have come back.
    pub(crate) fn end<R: Wait>(
        self,
        rt: &R,
        log: &Log<T, P, W, J>,
        passes: Vec<Pass<T, P, W, J>, A>,
    ) -> Seen<T, P, W, J>
        requires all { vec_len passes ≡ J.parts }
        ensures same { result ≡ self }
        ensures length { length result ≡ calls_made passes.items }
        ensures seen { All (λ pass. IsPrefix pass.seen result) passes.items }
        ensures accounts { AreApart passes.items → Accounts passes.items result }
    {
        let Journal {
            made,
            out: _,
            next: _,
            parts: _,
            mut rest,
        } = self;
        made.end(rt, log, rest.empty(), passes)
    }

    /// The whole history, if these are all passes that are out.
    pub(crate) fn try_end<R: Wait>(
        self,
        rt: &R,
        log: &Log<T, P, W, J>,
        passes: Vec<Pass<T, P, W, J>, A>,
    ) -> Result<Seen<T, P, W, J>, (Self, Vec<Pass<T, P, W, J>, A>)>
        ensures same { IfOk result (λ seen. seen ≡ self) }
        ensures seen { IfOk result (λ seen. All (λ pass. IsPrefix pass.seen seen) passes.items) }
        ensures apart { IfOk result (λ seen. AreApart passes.items) }
        ensures accounts { IfOk result
            (λ seen. All (λ pass. calls_of pass.number seen ≡ pass.count) passes.items) }
        ensures length { IfOk result
            (λ seen. length seen ≡ calls_made passes.items + calls_of_others passes.items seen) }
        ensures journal { IfErr result (λ back. back.0 ≡ self) }
        ensures passes { IfErr result (λ back. back.1 ≡ passes) }
    {
        if passes.len() != self.out.len() {
            return Err((self, passes));
        }
        let Journal {
            made,
            mut out,
            next: _,
            parts: _,
            rest,
        } = self;
        strike_all(rt, &mut out, &passes);
        Ok(made.end(rt, log, rest, passes))
    }
}

// The number of each pass is below the next. No contract says so, hence the test.
fn await_given<R: Wait>(rt: &R, number: u64, next: u64)
    ensures { number < next }
{
    if number >= next {
        wait_forever(rt);
    }
}

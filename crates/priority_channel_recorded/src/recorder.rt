//! A channel that many threads call, with the history of all calls.
ghost use Rattle.std.specs.Prelude.{◌≡◌, ◌+◌, ◌<◌, ◌≤◌, ◌^◌, ◌∷◌, [], ◌++◌, length, vec_len, All, IfOk, OnErr};
ghost use mathlib.Core.List.{IsPrefix};
ghost use Rattle.priority_channel_recorded.specs.History.{entry, IsLegal, IsStep};
ghost use Rattle.priority_channel_recorded.specs.chronicle.Log.{names};
ghost use Rattle.priority_channel_recorded.specs.Passes.{calls_made, AreNew, AreApart, Accounts, IsTold};

use crate::book::{Book, Call, Entry, NoPlace, Reply};
use crate::calls::{Calls, Fresh, Log, Pass};
use crate::chronicle::{Journal, Recording};
use std::alloc::{AllocError, Allocator, Global};
use std::marker::Model;
use std::sync::ledger::Share;
use std::sync::{Mutex, Wait};

// What the lock guards: a book, and a journal of the same history.
#[derive(Drop)]
struct Guarded<T, P: Ord, J: Recording, A: Allocator> {
    book: Book<T, P, A>,
    journal: Journal<Calls<T, P>, J>,
    // `end` merges the passes' shares into it.
    none: Share<J>,
}

impl<T, P: Ord, J: Recording, A: Allocator> Model for Guarded<T, P, J, A> {
    ghost use Rattle.std.specs.Prelude.{◌≡◌};
    ghost use Rattle.priority_channel_recorded.specs.History.{Chronicle};

    ghost Value = { Chronicle T P };

    ghost view = { λ g. g.book };

    ghost invariant = { λ g. (g.journal ≡ g.book.history) × (g.none.parts ≡ 0)
        × (g.none.amount ≡ 0) × (g.book.state.capacity ≡ J.capacity) };
}

impl<T: Copy, P: Copy + Ord, J: Recording, A: Allocator + Copy> Guarded<T, P, J, A> {
    #[tactic(auto, using(crate::proofs::Histories::legal_at))]
    fn call<R: Wait>(
        &mut self,
        rt: &R,
        log: &Log<T, P, J>,
        pass: &mut Pass<T, P, J>,
        call: Call<T, P>,
    ) -> Result<Reply<T, P>, NoPlace>
        ensures number { pass.new.number ≡ pass.old.number }
        ensures counted { IfOk result (λ _. pass.new.count ≡ pass.old.count + 1) }
        ensures told { IfOk result (λ reply. IsTold P.cmp J.capacity pass.old
            (entry pass.old.number call reply) pass.new) }
        ensures step { IfOk result (λ reply.
            IsStep P.cmp self.old.state call reply self.new.state) }
        ensures entered { IfOk result (λ reply. self.new.history
            ≡ self.old.history ++ entry pass.old.number call reply ∷ []) }
        ensures refused { OnErr result ((pass.new ≡ pass.old) × (self.new ≡ self.old)) }
        ensures full { OnErr result (self.old.slots ≤ length self.old.history) }
    {
        let number = pass.number();
        let reply = self.book.record(number, call)?;
        let entry = Entry {
            who: number,
            call,
            reply,
        };
        self.journal.enter(rt, log, pass, &entry);
        Ok(reply)
    }
}

/// A reserved channel that many threads call, each with its pass, and the history of their calls.
///
/// Each call is one step, in one hold of the recorder's lock. After a call its pass has seen the
/// history up to that call. What a pass has seen is a prefix of what it sees later, of what it has
/// seen after it meets another pass, and of the whole history, which `end` returns.
///
/// ```
/// ghost use Rattle.std.specs.Prelude.{◌≡◌, IfOk};
/// ghost use Rattle.std.specs.Ordering.{nat_cmp};
/// ghost use Rattle.priority_channel_recorded.specs.chronicle.Log.{names};
/// ghost use Rattle.priority_channel_recorded.specs.History.{IsLegal};
///
/// fn audited<J: Recording, R: Wait>(
///     rt: &R,
///     alloc: Global,
///     fresh: Fresh<u64, u8>,
/// ) -> Result<History<u64, u8>, AllocError>
///     requires names { fresh ≡ names J.log J.capacity J.is_reserved J.name J.parts }
///     requires capacity { fresh.capacity ≡ 4 }
///     requires passes { fresh.passes ≡ 2 }
///     ensures legal { IfOk result (λ history. IsLegal nat_cmp J.capacity history) }
/// {
///     let (recorder, mut passes) = Recorded::<u64, u8, J>::new(alloc, fresh, 4, 100, 2)?;
///     for pass in passes.iter_mut() {
///         let _ = recorder.call(rt, pass, Call::TrySend(pass.number(), 0));
///     }
///     Ok(recorder.end(rt, passes))
/// }
///
/// let history = audited::<Brand, _>(&rt, rt.alloc(), Fresh::new(4, 2))?;
/// assert_eq!(rt; history.entries().len(), 2);
/// ```
#[derive(Drop)]
pub struct Recorded<T, P: Ord, J: Recording, A: Allocator = Global> {
    log: Log<T, P, J>,
    guarded: Mutex<Guarded<T, P, J, A>>,
}

impl<T: Copy, P: Copy + Ord, J: Recording, A: Allocator + Copy> Recorded<T, P, J, A> {
    /// A recorder over an open and empty channel for `cap` pairs, and its passes. The error is that
    /// memory was refused.
    ///
    /// Cost: memory for `cap` pairs, for good, for `entries` entries and for the passes.
    pub fn new(
        alloc: A,
        fresh: Fresh<T, P>,
        cap: u64,
        entries: usize,
        passes: usize,
    ) -> Result<(Self, Vec<Pass<T, P, J>, A>), AllocError>
        requires positive { 0 < cap }
        requires fits { cap < 2 ^ 63 }
        requires names { fresh ≡ names J.log J.capacity J.is_reserved J.name J.parts }
        requires capacity { fresh.capacity ≡ cap }
        requires passes { fresh.passes ≡ passes }
        ensures count { IfOk result (λ made. vec_len made.1 ≡ passes) }
        ensures new { IfOk result (λ made. AreNew made.1.items) }
        ensures apart { IfOk result (λ made. AreApart made.1.items) }
    {
        let Fresh { fresh } = fresh;
        let (log, journal, mut rest) = fresh.open::<J>();
        let none = rest.empty();
        let passes = journal.first_passes(alloc, rest, passes)?;
        let book = Book::new(alloc, cap, entries)?;
        let guarded = Guarded {
            book,
            journal,
            none,
        };
        Ok((
            Recorded {
                log,
                guarded: Mutex::new(guarded),
            },
            passes,
        ))
    }

    /// Makes a call, and enters it with its reply under the pass's number. If memory for the entry
    /// is refused, the call is not made. That does not happen before `entries` entries are made,
    /// which is a clause of `Book::record` (`refused`), and none here, where a lock is between.
    ///
    /// Cost: as `Book::record`, in one hold of the recorder's lock.
    pub fn call<R: Wait>(
        &self,
        rt: &R,
        pass: &mut Pass<T, P, J>,
        call: Call<T, P>,
    ) -> Result<Reply<T, P>, NoPlace>
        ensures number { pass.new.number ≡ pass.old.number }
        ensures counted { IfOk result (λ _. pass.new.count ≡ pass.old.count + 1) }
        ensures told { IfOk result (λ reply. IsTold P.cmp J.capacity pass.old
            (entry pass.old.number call reply) pass.new) }
        ensures refused { OnErr result (pass.new ≡ pass.old) }
    {
        self.guarded.lock(rt).call(rt, &self.log, pass, call)
    }

    /// Afterwards both passes have seen what either had seen, and the history as it is.
    ///
    /// Cost: no lock.
    ///
    /// ```
    /// let counts = (first.count(), second.count());
    /// recorder.meet(&mut first, &mut second);
    /// assert_eq!(rt; (first.count(), second.count()), counts);
    /// ```
    pub fn meet(&self, one: &mut Pass<T, P, J>, other: &mut Pass<T, P, J>)
        ensures one_number { one.new.number ≡ one.old.number }
        ensures one_count { one.new.count ≡ one.old.count }
        ensures one_begins { IsPrefix one.old.seen one.new.seen }
        ensures other_number { other.new.number ≡ other.old.number }
        ensures other_count { other.new.count ≡ other.old.count }
        ensures other_begins { IsPrefix other.old.seen other.new.seen }
        ensures same { one.new.seen ≡ other.new.seen }
        ensures legal { IsLegal P.cmp J.capacity one.new.seen }
    {
        self.log.meet(one, other);
    }

    /// Ends the recording once all passes have come back, and returns the history of all calls. No
    /// pass may be lost: without all of them the whole history is not known.
    ///
    /// Cost: no memory: the entries are moved.
    #[tactic(auto, using(crate::proofs::Histories::legal_at))]
    pub fn end<R: Wait>(self, rt: &R, passes: Vec<Pass<T, P, J>, A>) -> History<T, P, A>
        requires all { vec_len passes ≡ J.parts }
        ensures length { length result ≡ calls_made passes.items }
        ensures legal { IsLegal P.cmp J.capacity result }
        ensures seen { All (λ pass. IsPrefix pass.seen result) passes.items }
        ensures accounts { AreApart passes.items → Accounts passes.items result }
    {
        let Recorded { log, guarded } = self;
        let Guarded {
            book,
            journal,
            none,
        } = guarded.into_inner();
        let _seen = journal.end(rt, &log, none, passes);
        History {
            entries: book.into_history(),
        }
    }
}

/// The history of all calls of a recorder.
#[derive(Drop)]
pub struct History<T, P, A: Allocator = Global> {
    entries: Vec<Entry<T, P>, A>,
}

impl<T, P, A: Allocator> Model for History<T, P, A> {
    ghost use Rattle.std.specs.Prelude.{List};
    ghost use Rattle.priority_channel_recorded.specs.declared.book.Entry.{Entry};

    ghost Value = { List (Entry T P) };

    ghost view = { λ h. h.entries.items };
}

impl<T, P, A: Allocator> History<T, P, A> {
    /// The entries, in the order of the calls.
    ///
    /// Cost: none.
    pub fn entries(&self) -> &[Entry<T, P>]
        ensures { result.now ≡ self.now }
    {
        self.entries.as_slice()
    }
}

//! A channel whose calls many threads make.
ghost use Rattle.std.specs.Prelude.{◌≡◌, ◌+◌, ◌≤◌, [], length, vec_len, All, IfOk, IfErr, IfSome};
ghost use mathlib.Core.List.{IsPrefix};
ghost use Rattle.priority_channel_core.specs.Prelude.{opening};
ghost use Rattle.priority_channel_witnessed.specs.History.{IsHistory, IsLegal};
ghost use Rattle.priority_channel_recorded.specs.chronicle.Log.{names};
ghost use Rattle.priority_channel_witnessed.specs.Passes.{calls_of, calls_made, calls_of_others, AreNew, AreApart, Accounts, Tells};

use crate::chronicle::{Fresh, Log, Pass, Seen, Telling};
use crate::journal::Journal;
use crate::kept::Kept;
use crate::numbers::first_numbers;
use futures::task::Source;
use priority_channel_calls::call::CoreCall;
use priority_channel_core::awaitable_atomics::Wakes;
use priority_channel_core::channel::PriorityQueueChannel;
use priority_channel_recorded::chronicle::Recording;
use std::alloc::{AllocError, Allocator, Global};
use std::marker::PhantomData;
use std::snapshot::Snapshot;
use std::sync::{Mutex, Wait};

pub(crate) mod waits;

/// A channel that many threads call, each with its pass.
///
/// Each call is made in one hold of the channel's lock. The waiters that it lets go on are woken once
/// the lock is free. After a call its pass has seen the history up to that call. What a
/// pass has seen is a prefix of what it sees later, of what it has seen after it meets another
/// pass, and of the whole history, which `end` returns.
///
/// A call takes the memory that the core's call takes, and one that waits also memory for its
/// waiter. After 2^64 - 1 calls the next one waits for ever.
///
/// Messages and priorities need not be `Drop`, except for bulk sends and `new`. So the compiler
/// refuses a body of a call that loses one.
///
/// ```
/// ghost use Rattle.std.specs.Prelude.{◌≡◌, false};
/// ghost use Rattle.priority_channel_recorded.specs.chronicle.Log.{names};
///
/// fn served<J: Recording, R: Wait>(
///     rt: &R,
///     alloc: Global,
///     fresh: Fresh<u64, u8, ()>,
/// ) -> Result<u64, AllocError>
///     requires names { fresh ≡ names J.log J.capacity J.is_reserved J.name J.parts }
///     requires capacity { fresh.capacity ≡ 4 }
///     requires reserved { fresh.is_reserved ≡ false }
///     requires passes { fresh.passes ≡ 2 }
/// {
///     let core = PriorityQueueChannel::bounded(alloc, 4);
///     let (channel, mut passes) = Witnessed::<u64, u8, (), J>::new(alloc, fresh, core, 2)?;
///     for pass in passes.iter_mut() {
///         let (_sent, wakes) = channel.call(rt, pass, TrySend { msg: pass.number(), priority: 0 });
///         let (_for_room, _for_message) = wakes.into_lists();
///     }
///     let (core, _seen) = channel.end(rt, passes);
///     Ok(core.len())
/// }
///
/// let left = served::<Brand, _>(&rt, rt.alloc(), Fresh::new(4, false, 2))?;
/// assert_eq!(rt; left, 2);
/// ```
#[derive(Drop)]
pub struct Witnessed<T, P: Ord, W: Clone, J: Recording, A: Allocator = Global> {
    log: Log<T, P, W, J>,
    kept: Mutex<Kept<T, P, W, J, A>>,
    // For waiters: threads and tasks take memory, and a source wakes tasks.
    pub(crate) alloc: A,
    pub(crate) room: Source,
    pub(crate) message: Source,
}

impl<T: Drop, P: Ord + Drop, W: Clone + Drop, J: Recording, A: Allocator + Copy> Witnessed<
    T,
    P,
    W,
    J,
    A,
> {
    /// A channel over an open and empty core, and its first passes. The error is that memory was
    /// refused for these passes, or for the numbers of all passes that may be out at a time.
    #[tactic(auto, using(crate::proofs::Histories::history_none))]
    pub fn new(
        alloc: A,
        fresh: Fresh<T, P, W>,
        core: PriorityQueueChannel<T, P, W, A>,
        passes: usize,
    ) -> Result<(Self, Vec<Pass<T, P, W, J>, A>), AllocError>
        requires opens { core.state ≡ opening fresh.capacity fresh.is_reserved }
        requires names { fresh ≡ names J.log J.capacity J.is_reserved J.name J.parts }
        requires passes { passes ≤ fresh.passes }
        ensures count { IfOk result (λ made. vec_len made.1 ≡ passes) }
        ensures new { IfOk result (λ made. AreNew made.1.items) }
        ensures apart { IfOk result (λ made. AreApart made.1.items) }
    {
        let parts = fresh.passes();
        let (log, made, mut rest) = fresh.open::<J>();
        let given = rest.split_off(passes as u64, 0);
        let out = first_numbers(alloc, passes, parts)?;
        let next = passes as u64;
        let passes = made.first_passes(alloc, given, passes)?;
        let kept = Kept {
            core,
            journal: Journal::new(made, out, next, parts, rest),
        };
        Ok((
            Witnessed {
                log,
                kept: Mutex::new(kept),
                alloc,
                room: Source::new(),
                message: Source::new(),
            },
            passes,
        ))
    }
}

impl<T, P: Ord, W: Clone, J: Recording, A: Allocator + Copy> Witnessed<T, P, W, J, A> {
    /// Makes a call of `priority_channel_calls`, in one hold of the channel's lock. It returns the
    /// call's answer, and the waiters to wake once the lock is free.
    ///
    /// ```
    /// let (sent, wakes) = channel.call(rt, pass, TrySend { msg: "Foo", priority: 0 });
    /// ```
    pub fn call<C: CoreCall<T, P, W, A>, R: Wait>(
        &self,
        rt: &R,
        pass: &mut Pass<T, P, W, J>,
        call: C,
    ) -> (C::Answer, Wakes<W, A>)
        requires { C.can_make call }
        ensures told { Tells P.cmp W.is_clone J.capacity J.is_reserved pass.old
            (C.told call result.0) result.1 pass.new }
        ensures gives { C.gives call result.0 }
    {
        let kept = &mut *self.kept.lock(rt);
        let made = Snapshot::of(&call);
        let (answer, wakes) = call.make_on(&mut kept.core);
        let told: Telling<T, P, W, A, C> = Telling {
            who: pass.number(),
            made,
            said: Snapshot::of(&answer),
            handed: Snapshot::of(&wakes),
            of: PhantomData,
        };
        kept.journal.enter(rt, &self.log, &kept.core, pass, &told);
        (answer, wakes)
    }

    /// Afterwards both passes have seen what either had seen, and the history as it is. It takes no
    /// lock, and does not wait.
    pub fn meet(&self, one: &mut Pass<T, P, W, J>, other: &mut Pass<T, P, W, J>)
        ensures one_number { one.new.number ≡ one.old.number }
        ensures one_count { one.new.count ≡ one.old.count }
        ensures one_begins { IsPrefix one.old.seen one.new.seen }
        ensures other_number { other.new.number ≡ other.old.number }
        ensures other_count { other.new.count ≡ other.old.count }
        ensures other_begins { IsPrefix other.old.seen other.new.seen }
        ensures same { one.new.seen ≡ other.new.seen }
        ensures legal { IsLegal P.cmp W.is_clone J.capacity J.is_reserved one.new.seen }
    {
        self.log.meet(one, other);
    }

    /// Ends the channel once all passes have come back, and returns the core, and the history of
    /// all calls. No pass may be lost: without all of them the whole history is not known. If
    /// passes have left, or fewer were made than `fresh` allows, use `try_end`.
    pub fn end<R: Wait>(
        self,
        rt: &R,
        passes: Vec<Pass<T, P, W, J>, A>,
    ) -> (PriorityQueueChannel<T, P, W, A>, Seen<T, P, W, J>)
        requires all { vec_len passes ≡ J.parts }
        ensures leads { IsHistory P.cmp W.is_clone J.capacity J.is_reserved result.1
            result.0.state }
        ensures length { length result.1 ≡ calls_made passes.items }
        ensures seen { All (λ pass. IsPrefix pass.seen result.1) passes.items }
        ensures accounts { AreApart passes.items → Accounts passes.items result.1 }
    {
        let Witnessed {
            log,
            kept,
            alloc: _,
            room: _,
            message: _,
        } = self;
        let Kept { core, journal } = kept.into_inner();
        let seen = journal.end(rt, &log, passes);
        (core, seen)
    }

    /// A new pass, which has made no call and has seen the history as it is. No pass of this
    /// channel had its number. None if as many passes are out as `fresh` allows, less one: one part
    /// of the ledger stays for the calls of the passes that left. It takes no memory.
    pub fn admit<R: Wait>(&self, rt: &R) -> Option<Pass<T, P, W, J>>
        ensures count { IfSome result (λ pass. pass.count ≡ 0) }
        ensures legal { IfSome result
            (λ pass. IsLegal P.cmp W.is_clone J.capacity J.is_reserved pass.seen) }
    {
        self.kept.lock(rt).journal.admit()
    }

    /// As `admit`, but the new pass has also seen all that this one has.
    ///
    /// ```
    /// if let Some(mut guest) = channel.fork(rt, &own) {
    ///     let is_empty = channel.is_empty(rt, &mut guest);
    ///     channel.leave(rt, guest);
    /// }
    /// ```
    pub fn fork<R: Wait>(&self, rt: &R, pass: &Pass<T, P, W, J>) -> Option<Pass<T, P, W, J>>
        ensures count { IfSome result (λ new. new.count ≡ 0) }
        ensures begins { IfSome result (λ new. IsPrefix pass.now.seen new.seen) }
        ensures legal { IfSome result
            (λ new. IsLegal P.cmp W.is_clone J.capacity J.is_reserved new.seen) }
    {
        let mut new = self.admit(rt)?;
        new.learn(pass);
        Some(new)
    }

    /// Takes back a pass that makes no more calls. Another pass can come in its place. Its calls
    /// stay in the history. The time is in proportion to the number of passes that are out.
    pub fn leave<R: Wait>(&self, rt: &R, pass: Pass<T, P, W, J>) {
        self.kept.lock(rt).journal.leave(rt, &self.log, pass);
    }

    /// Ends the channel if these are all passes that are out. Then it returns the core, and the
    /// history of all calls, also those of the passes that left. Otherwise it returns all that it
    /// was given.
    ///
    /// ```
    /// match channel.try_end(rt, passes) {
    ///     Ok((core, _seen)) => Ok(core.len()),
    ///     Err((channel, passes)) => go_on(channel, passes),
    /// }
    /// ```
    pub fn try_end<R: Wait>(
        self,
        rt: &R,
        passes: Vec<Pass<T, P, W, J>, A>,
    ) -> Result<
        (PriorityQueueChannel<T, P, W, A>, Seen<T, P, W, J>),
        (Self, Vec<Pass<T, P, W, J>, A>),
    >
        ensures leads { IfOk result (λ ended. IsHistory P.cmp W.is_clone J.capacity J.is_reserved
            ended.1 ended.0.state) }
        ensures seen { IfOk result
            (λ ended. All (λ pass. IsPrefix pass.seen ended.1) passes.items) }
        ensures apart { IfOk result (λ ended. AreApart passes.items) }
        ensures accounts { IfOk result
            (λ ended. All (λ pass. calls_of pass.number ended.1 ≡ pass.count) passes.items) }
        ensures length { IfOk result (λ ended. length ended.1
            ≡ calls_made passes.items + calls_of_others passes.items ended.1) }
        ensures back { IfErr result (λ back. back.1 ≡ passes) }
    {
        let Witnessed {
            log,
            kept,
            alloc,
            room,
            message,
        } = self;
        let Kept { core, journal } = kept.into_inner();
        match journal.try_end(rt, &log, passes) {
            Ok(seen) => Ok((core, seen)),
            Err((journal, passes)) => {
                let channel = Witnessed {
                    log,
                    kept: Mutex::new(Kept { core, journal }),
                    alloc,
                    room,
                    message,
                };
                Err((channel, passes))
            }
        }
    }
}

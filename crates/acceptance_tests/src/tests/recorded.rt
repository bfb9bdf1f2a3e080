//! Recorded channels, with one pass and with several.
//!
//! A function that uses a channel with a history is generic in its names, and its caller picks
//! them. So each example is a scene, and one function plays them all.
ghost use Rattle.std.specs.Prelude.{◌≡◌, ◌<◌, ◌^◌, IfOk, OnErr};
ghost use Rattle.std.specs.Ordering.{nat_cmp};
ghost use Rattle.priority_channel_recorded.specs.History.{entry};
ghost use Rattle.priority_channel_recorded.specs.chronicle.Log.{names};
ghost use Rattle.priority_channel_recorded.specs.Passes.{IsTold};

use super::watch::within;
use super::{ThreadHost, expect_equal};
use async_priority_channel::recorded::{
    Call, Entry, Fresh, History, NoPlace, Pass, Recorded, Recording, Reply,
};
use refusing::Refusing;
use std::alloc::{AllocError, AllocGlobal, Allocator, Global};
use std::marker::Brand;
use std::process::Abort;
use std::sync::Wait;
use steps::play;
pub use steps::{Step, expect_book, expect_history};
use threads::{Work, call_on_threads};

mod memory;
mod steps;
mod threads;

/// What refuses requests, and the same as the memory of a recorder.
type Memory<'m, A> = (&'m Refusing<Global>, A);

type Recorder<J, A> = Recorded<u64, u64, J, A>;

type Caller<J> = Pass<u64, u64, J>;

type Passes<J, A> = Vec<Caller<J>, A>;

type Made = Entry<u64, u64>;

/// What is played on a recorder.
#[derive(Clone, Copy)]
enum Scene<'s> {
    /// The steps, one after the other.
    Steps(&'s [Step]),
    /// The calls until one is refused its entry, and then what is pending is received.
    UntilRefused(&'s [Step]),
    /// Each pass on a thread of its own.
    Threads(Work),
}

/// What callers keep: the entries of their calls, each caller's in its order, and how many calls
/// were refused their entry.
#[derive(Drop)]
struct Kept {
    made: Vec<Made>,
    refused: u64,
}

impl Kept {
    fn new<R: AllocGlobal>(rt: &R) -> Self {
        Kept {
            made: Vec::new(rt.alloc()),
            refused: 0,
        }
    }

    fn keep(
        &mut self,
        rt: &impl Abort,
        who: u64,
        call: Call<u64, u64>,
        told: Result<Reply<u64, u64>, NoPlace>,
    ) {
        match told {
            Ok(reply) => self
                .made
                .push(Entry { who, call, reply })
                .expect(rt, "memory"),
            Err(NoPlace) => self.refused = self.refused.wrapping_add(1),
        }
    }
}

/// What a scene left, and how many calls were refused their entry.
type Told<A> = (History<u64, u64, A>, u64);

// Plays a scene on a recorder for so many pairs, entries and passes. The entries under each number
// are what its caller kept. The error is that memory was refused for the recorder.
fn record<R: ThreadHost, A: Allocator + Copy + Send + Sync>(
    rt: &R,
    memory: Memory<'_, A>,
    scene: Scene<'_>,
    cap: u64,
    entries: usize,
    passes: usize,
) -> Result<Told<A>, AllocError>
    requires positive { 0 < cap }
    requires fits { cap < 2 ^ 63 }
{
    let sizes = (cap, entries, passes);
    record_as::<Brand, R, A>(rt, memory, scene, Fresh::new(cap, passes), sizes)
}

fn record_as<J: Recording + Send + Sync, R: ThreadHost, A: Allocator + Copy + Send + Sync>(
    rt: &R,
    memory: Memory<'_, A>,
    scene: Scene<'_>,
    fresh: Fresh<u64, u64>,
    sizes: (u64, usize, usize),
) -> Result<Told<A>, AllocError>
    requires positive { 0 < sizes.0 }
    requires fits { sizes.0 < 2 ^ 63 }
    requires names { fresh ≡ names J.log J.capacity J.is_reserved J.name J.parts }
    requires capacity { fresh.capacity ≡ sizes.0 }
    requires passes { fresh.passes ≡ sizes.2 }
{
    let ((memory, alloc), (cap, entries, count)) = (memory, sizes);
    let made = Recorder::<J, A>::new(alloc, fresh, cap, entries, count);
    let (recorder, mut passes) = made?;
    let mut kept = Kept::new(rt);
    within(
        rt,
        "the end of a scene",
        || act(
            rt,
            (memory, alloc),
            scene,
            &recorder,
            &mut passes,
            &mut kept,
        ),
    );
    if passes.len() != count {
        panic!(rt; "a pass is missing");
    }
    let history = recorder.end(rt, passes);
    expect_kept(rt, count, kept.made.as_slice(), history.entries());
    Ok((history, kept.refused))
}

// Gives the passes back that it takes.
fn act<J: Recording + Send + Sync, R: ThreadHost, A: Allocator + Copy + Send + Sync>(
    rt: &R,
    (memory, alloc): Memory<'_, A>,
    scene: Scene<'_>,
    recorder: &Recorder<J, A>,
    passes: &mut Passes<J, A>,
    kept: &mut Kept,
) {
    match scene {
        Scene::Steps(steps) => play(rt, memory, recorder, passes, kept, steps, false),
        Scene::UntilRefused(steps) => play(rt, memory, recorder, passes, kept, steps, true),
        Scene::Threads(work) => call_on_threads(rt, alloc, recorder, passes, kept, work),
    }
}

// Makes a call, and keeps what came of it. After a refusal the pass has seen what it had seen.
fn call_and_keep<J: Recording, R: Abort + Wait, A: Allocator + Copy>(
    rt: &R,
    recorder: &Recorder<J, A>,
    pass: &mut Caller<J>,
    kept: &mut Kept,
    call: Call<u64, u64>,
) -> Result<Reply<u64, u64>, NoPlace>
    ensures told { IfOk result (λ reply. IsTold nat_cmp J.capacity pass.old
        (entry pass.old.number call reply) pass.new) }
    ensures refused { OnErr result (pass.new ≡ pass.old) }
{
    let told = recorder.call(rt, pass, call);
    kept.keep(rt, pass.number(), call, told);
    told
}

// What the callers kept are all entries, and those of each caller stand in its order.
fn expect_kept<R: Abort + AllocGlobal>(rt: &R, passes: usize, made: &[Made], entries: &[Made]) {
    expect_equal(rt, entries.len(), made.len());
    for who in 0..passes as u64 {
        expect_equal(rt, under(rt, entries, who), under(rt, made, who));
    }
}

// Those under one number, in their order.
fn under<R: Abort + AllocGlobal>(rt: &R, entries: &[Made], who: u64) -> Vec<Made> {
    let mut own = Vec::new(rt.alloc());
    for entry in entries {
        if entry.who == who {
            own.push(*entry).expect(rt, "memory");
        }
    }
    own
}

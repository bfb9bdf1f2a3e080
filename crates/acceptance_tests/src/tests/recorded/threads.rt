//! Threads with a pass each, which call at once.
use super::{Caller, Kept, Made, Passes, Recorder, Scene, call_and_keep, record};
use crate::tests::plain_list::ask_list;
use crate::tests::watch::arrive;
use crate::tests::{ThreadHost, expect_equal};
use async_priority_channel::recorded::{Call, Recording, Reply};
use refusing::Refusing;
use std::alloc::{AllocGlobal, Allocator};
use std::process::Abort;
use std::sync::Wait;
use std::sync::atomic::AtomicUsize;
use std::{mem, thread};

/// The calls of each thread.
#[derive(Clone, Copy)]
pub enum Work {
    Mixed,
    Close,
}

const CALLS: u64 = 1000;

const CAPACITY: u64 = 3;

// The ith call of a pass.
fn ith_call(work: Work, who: u64, i: u64) -> Call<u64, u64> {
    let msg = who.wrapping_mul(CALLS).wrapping_add(i);
    match (work, i.wrapping_add(who) % 4) {
        (Work::Close, _) => Call::Close,
        (Work::Mixed, 0) => Call::TrySend(msg, i % 7),
        (Work::Mixed, 1) => Call::TryRecv,
        (Work::Mixed, 2) => Call::Len,
        (Work::Mixed, _) => Call::TrySend(msg, i % 5),
    }
}

// The calls of one thread, and what it kept of them. There is memory for all entries.
fn call_often<J: Recording, R: Abort + Wait + AllocGlobal, A: Allocator + Copy>(
    rt: &R,
    recorder: &Recorder<J, A>,
    mut pass: Caller<J>,
    work: Work,
) -> (Caller<J>, Kept) {
    let who = pass.number();
    let mut kept = Kept::new(rt);
    let calls = match work {
        Work::Mixed => CALLS,
        Work::Close => 1,
    };
    for i in 0..calls {
        let told = call_and_keep(rt, recorder, &mut pass, &mut kept, ith_call(work, who, i));
        expect_equal(rt, (who, i, told.is_ok()), (who, i, true));
    }
    expect_equal(rt, (who, pass.count()), (who, calls));
    (pass, kept)
}

/// Each pass calls on a thread of its own.
pub(super) fn call_on_threads<
    J: Recording + Send + Sync,
    R: ThreadHost,
    A: Allocator + Copy + Send + Sync,
>(
    rt: &R,
    alloc: A,
    recorder: &Recorder<J, A>,
    passes: &mut Passes<J, A>,
    kept: &mut Kept,
    work: Work,
) {
    let all = mem::replace(passes, Vec::new(alloc));
    let count = all.len();
    let arrived = AtomicUsize::new(0);
    let called = thread::map_vec(
        rt,
        all,
        &|pass| {
            arrive(&arrived, count);
            call_often(rt, recorder, pass, work)
        },
    );
    for (pass, own) in called.expect(rt, "memory for the passes") {
        passes.push(pass).expect(rt, "memory");
        kept.made.extend_from_slice(&own.made).expect(rt, "memory");
    }
}

#[test]
fn four_threads_record_a_thousand_calls_each(rt: HostRuntime) {
    let memory = Refusing::new(rt.alloc());
    let (memory, scene) = ((&memory, rt.alloc()), Scene::Threads(Work::Mixed));
    let told = record(&rt, memory, scene, CAPACITY, 4000, 4);
    let (history, _) = told.expect(&rt, "a recorder");
    let entries = history.entries();
    expect_equal(&rt, entries.len(), 4000);
    let mut list = Vec::new(rt.alloc());
    for entry in entries {
        let wanted = ask_list(&rt, &mut list, CAPACITY, entry.call);
        expect_equal(&rt, (*entry, Some(entry.reply)), (*entry, wanted));
    }
}

fn count_replies(entries: &[Made], was_open: bool) -> usize {
    entries
        .iter()
        .filter(|entry| entry.reply == Reply::Bool(was_open))
        .count()
}

#[test]
fn sixteen_threads_close_a_recorded_channel(rt: HostRuntime) {
    let memory = Refusing::new(rt.alloc());
    let (memory, scene) = ((&memory, rt.alloc()), Scene::Threads(Work::Close));
    let told = record(&rt, memory, scene, 1, 16, 16);
    let (history, _) = told.expect(&rt, "a recorder");
    let entries = history.entries();
    let (closes, others) = (count_replies(entries, true), count_replies(entries, false));
    expect_equal(&rt, (entries.len(), closes, others), (16, 1, 15));
}

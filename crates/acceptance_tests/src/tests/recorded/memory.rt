//! Each request for memory of a recorded history is refused in turn.
use super::steps::SEVEN;
use super::{Made, Memory, Scene, record};
use crate::tests::plain_list::Pair;
use crate::tests::{ThreadHost, expect_equal, expect_equal_at};
use async_priority_channel::recorded::{Call, Reply};
use refusing::Refusing;
use std::alloc::{AllocGlobal, Allocator};
use std::process::Abort;

fn accepted_by(entry: &Made) -> Option<Pair> {
    match (entry.call, entry.reply) {
        (Call::TrySend(msg, priority), Reply::Sent(Ok(()))) => Some((msg, priority)),
        _ => None,
    }
}

fn received_by(entry: &Made) -> Option<Pair> {
    match entry.reply {
        Reply::Received(Ok(pair)) => Some(pair),
        _ => None,
    }
}

// What was accepted is received.
fn expect_received<R: Abort + AllocGlobal>(rt: &R, n: u64, entries: &[Made]) {
    let mut accepted = Vec::new(rt.alloc());
    let mut received = Vec::new(rt.alloc());
    for entry in entries {
        if let Some(pair) = accepted_by(entry) {
            accepted.push(pair).expect(rt, "memory");
        }
        if let Some(pair) = received_by(entry) {
            received.push(pair).expect(rt, "memory");
        }
    }
    accepted.sort().expect(rt, "memory");
    received.sort().expect(rt, "memory");
    expect_equal_at(rt, n, received, accepted);
}

// Each request is refused in turn, on recorders with memory for so many entries. Until then the
// answers are those of ample memory. Then what was accepted is received. Tells how many recorders
// were refused, and how many calls.
fn refuse_in_turn<R: ThreadHost, A: Allocator + Copy + Send + Sync>(
    rt: &R,
    (memory, alloc): Memory<'_, A>,
    entries: usize,
) -> (u64, u64) {
    let (mut recorders, mut calls) = (0u64, 0u64);
    let scene = Scene::UntilRefused(&SEVEN);
    for round in memory.rounds() {
        let n = round.expect(rt, "a request");
        memory.refuse_nth(n);
        let told = record(rt, (memory, alloc), scene, 2, entries, 1);
        let met_none = memory.refuse_none();
        match told {
            Ok((history, refused)) => {
                expect_equal_at(rt, n, refused == 0, met_none);
                calls = calls.wrapping_add(refused);
                expect_received(rt, n, history.entries());
            }
            Err(_) => {
                expect_equal_at(rt, n, met_none, false);
                recorders = recorders.wrapping_add(1);
            }
        }
    }
    (recorders, calls)
}

// A recorder asks for its passes, for its channel, and for the entries that it is to have room for,
// if any. Calls ask for more of them: with room for eight the last receive, whose entry is the
// ninth.
//
// each request for memory of a recorded channel is refused in turn
#[test]
fn a_recorder_refuses_what_has_no_memory(rt: HostRuntime) {
    let memory = Refusing::new(rt.alloc());
    expect_equal(&rt, refuse_in_turn(&rt, (&memory, &memory), 8), (3, 1));
    let memory = Refusing::new(rt.alloc());
    let (recorders, calls) = refuse_in_turn(&rt, (&memory, &memory), 0);
    expect_equal(&rt, (recorders, calls > 0), (2, true));
}

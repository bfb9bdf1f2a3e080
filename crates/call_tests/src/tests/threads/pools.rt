//! Pools of workers over leases: what a worker gives up comes to another one, and a channel that is
//! told to close when all is done closes neither early nor never.
use crate::tests::dice::Dice;
use crate::tests::watch::{beside, under_load};
use crate::tests::{Host, Threaded, expect_equal_at, expect_true, make_all};
use async_priority_channel::{Ends, Lease, Receiver, Sender, bounded, unbounded};
use named_calls::{ALL, Call, Input, Outcome, Pairs, Reply, Side, is_for_close, receive};
use refusing::watch::{let_others_wait, wait_until};
use std::iter::once;
use std::sync::Wait;
use std::sync::atomic::{AtomicBool, AtomicU64, Ordering};
use std::thread;
use std::time::{Clock, Duration};

const WORKERS: usize = 16;

// How many messages one thread sends to the workers.
const MESSAGES: u64 = 2_000;

const PRIORITIES: u64 = 8;

// A worker that fails at two messages of three, until the channel is closed and all is done. What
// it finishes is counted.
fn work_unsteadily<R: Wait + Clone>(rx: &Receiver<u64, u64, R>, finished: &[AtomicU64], seed: u64) {
    let mut dice = Dice::new(seed);
    for lease in rx.leases() {
        try_once(lease, finished, dice.below(3));
    }
}

fn try_once<R: Wait + Clone>(lease: Lease<'_, u64, u64, R>, finished: &[AtomicU64], luck: u64) {
    match luck {
        0 => drop(lease),
        1 => {
            let priority = *lease.priority();
            lease.put_back(priority.saturating_sub(1));
        }
        _ => {
            let (msg, _) = lease.finish();
            if let Some(times) = finished.get(msg as usize) {
                times.fetch_add(1, Ordering::SeqCst);
            }
        }
    }
}

// Sends all, and tells the channel to close once they are done.
fn send_all<R: Host>(rt: &R, tx: &Sender<u64, u64, R>) {
    for msg in 0..MESSAGES {
        let sent = tx.send_blocking(msg, msg % PRIORITIES);
        expect_true(rt, sent.is_ok(), "it is open while more comes");
    }
    tx.close_when_done();
}

// One thread sends, and the others work.
fn run_unsteady<R: Threaded>(rt: &R, ends: Ends<u64, u64, R>, capacity: u64) {
    let (tx, rx) = ends;
    let finished = make_all(rt, MESSAGES, || AtomicU64::new(0));
    let told = thread::map_indices(
        rt,
        rt.alloc(),
        WORKERS + 1,
        &|number| {
            if number == WORKERS {
                send_all(rt, &tx);
            } else {
                work_unsteadily(&rx, &finished, number as u64);
            }
        },
    );
    expect_true(rt, told.is_ok(), "memory");
    for (msg, times) in finished.iter().enumerate() {
        let times = times.load(Ordering::SeqCst);
        expect_equal_at(rt, (capacity, "finished", msg), times, 1);
    }
    let left = (rx.len(), rx.held(), rx.is_closed());
    expect_equal_at(rt, (capacity, "left", 0), left, (0, 0, true));
}

// With fewer places than workers, and with more.
#[test]
fn workers_that_fail_at_random_finish_each_message_once(rt: HostRuntime) {
    for capacity in [1u64, 5, 40] {
        let ends = bounded(&rt, rt.alloc(), capacity).expect(&rt, "a channel");
        under_load(
            &rt,
            ("unsteady workers", capacity),
            || run_unsteady(&rt, ends, capacity),
        );
    }
}

// What is called while the last message is in hand.
const CALLED: [Option<Call>; 3] = [
    None,
    Some(Call::Close(Side::Receiver)),
    Some(Call::CloseWhenDone(Side::Receiver)),
];

// Has no strength for a second message: it ends with that one in hand, once another waits for it.
fn die<R: Wait + Clone + Clock>(
    rt: &R,
    rx: &Receiver<u64, u64, R>,
    is_in_hand: &AtomicBool,
) -> Option<()> {
    let mut strength = 1u32;
    for lease in rx.leases() {
        strength = finish_with(rt, lease, strength, is_in_hand)?;
    }
    Some(())
}

// Tells what strength is left.
fn finish_with<R: Wait + Clone + Clock>(
    rt: &R,
    lease: Lease<'_, u64, u64, R>,
    strength: u32,
    is_in_hand: &AtomicBool,
) -> Option<u32> {
    if strength == 0 {
        is_in_hand.store(true, Ordering::SeqCst);
        let_others_wait(rt);
    }
    let left = strength.checked_sub(1)?;
    lease.finish();
    Some(left)
}

// Another waits by this call for the message of one that dies, and gets it.
fn take_over<R: Threaded>(rt: &R, call: Call, called: Option<Call>) {
    let (tx, rx) = bounded(rt, rt.alloc(), 2).expect(rt, "a channel");
    for pair in [(6u64, 6u64), (7, 5)] {
        expect_true(rt, tx.try_send(pair.0, pair.1).is_ok(), "there is room");
    }
    let input = Input {
        pairs: Pairs::new(0, 0, 1),
        most: 1,
        limit: Duration::from_secs(60),
        chosen: 7,
    };
    let round = ("a message of one that died", call, called);
    let is_in_hand = AtomicBool::new(false);
    let (died, reply) = beside(
        rt,
        round,
        || die(rt, &rx, &is_in_hand),
        || {
            wait_until(rt, || is_in_hand.load(Ordering::SeqCst));
            if let Some(called) = called {
                let _ = receive(rt, rt.alloc(), &rx, called, input);
            }
            receive(rt, rt.alloc(), &rx, call, input)
        },
    );
    expect_equal_at(rt, round, died, None);
    let wanted = Reply::with(rt, Outcome::Done, once((7, 5)));
    expect_equal_at(rt, round, reply, wanted);
    let left = (rx.len(), rx.held(), rx.is_closed());
    expect_equal_at(rt, round, left, (0, 0, called.is_some()));
}

#[test]
fn another_worker_goes_on_with_the_message_of_one_that_dies(rt: HostRuntime) {
    for call in ALL {
        if !call.waits() || call.side() != Side::Receiver || is_for_close(call) {
            continue;
        }
        for called in CALLED {
            take_over(&rt, call, called);
        }
    }
}

/// A worker whose job `n` leads to the jobs `2n` and `2n + 1`, as far as there are so many.
#[derive(Drop)]
struct Digger<'a, R: Wait + Clone> {
    tx: &'a Sender<u64, u64, R>,
    rx: &'a Receiver<u64, u64, R>,
    jobs: u64,
}

impl<R: Wait + Clone> Digger<'_, R> {
    // Until the channel is closed. Tells how many jobs it has done, and how many it could not send.
    fn work(&self) -> (u64, u64) {
        let (mut done, mut unsent) = (0u64, 0u64);
        for lease in self.rx.leases() {
            let first = lease.message().saturating_mul(2);
            for job in [first, first.saturating_add(1)] {
                if job <= self.jobs && self.tx.try_send(job, job % PRIORITIES).is_err() {
                    unsent = unsent.saturating_add(1);
                }
            }
            lease.finish();
            done = done.saturating_add(1);
        }
        (done, unsent)
    }
}

fn dig<R: Threaded>(rt: &R, workers: usize, jobs: u64) {
    let (tx, rx) = unbounded(rt, rt.alloc()).expect(rt, "a channel");
    expect_true(rt, tx.try_send(1, 0).is_ok(), "it is open");
    tx.close_when_done();
    let digger = Digger {
        tx: &tx,
        rx: &rx,
        jobs,
    };
    let told = thread::map_indices(rt, rt.alloc(), workers, &|_| digger.work());
    let (mut done, mut unsent) = (0u64, 0u64);
    for counts in told.expect(rt, "memory") {
        done = done.saturating_add(counts.0);
        unsent = unsent.saturating_add(counts.1);
    }
    let round = (workers, jobs);
    expect_equal_at(rt, round, (done, unsent), (jobs, 0));
    let left = (rx.len(), rx.held(), rx.is_closed());
    expect_equal_at(rt, round, left, (0, 0, true));
}

// How many workers there are, how many jobs, and how many rounds of that.
const DIGS: [(usize, u64, u64); 6] = [
    (1, 10_000, 4),
    (4, 10_000, 4),
    (16, 10_000, 4),
    (1, 100, 30),
    (4, 100, 30),
    (16, 100, 30),
];

#[test]
fn a_channel_closes_once_jobs_that_lead_to_others_are_done(rt: HostRuntime) {
    for (workers, jobs, rounds) in DIGS {
        for round in 0..rounds {
            let what = ("jobs that lead to others", workers, jobs, round);
            under_load(&rt, what, || dig(&rt, workers, jobs));
        }
    }
}

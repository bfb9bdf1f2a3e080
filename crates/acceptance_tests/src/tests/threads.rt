//! Handles on many threads.
use super::watch::{arrive, within};
use super::{Host, ThreadHost, expect_equal, expect_equal_at, expect_true, wait_for};
use async_priority_channel::{Ends, Receiver, RecvError, RecvFault, Sender, bounded, unbounded};
use std::alloc::Allocator;
use std::process::Abort;
use std::sync::Wait;
use std::sync::atomic::AtomicUsize;
use std::thread;
use std::time::Duration;

type Tx<R, A> = Sender<u64, u64, R, A>;

type Rx<R, A> = Receiver<u64, u64, R, A>;

// Each of so many threads has a receiver.
fn close_receivers<R: ThreadHost, A: Allocator + Copy + Send + Sync>(
    rt: &R,
    (tx, rx): Ends<u64, u64, R, A>,
    count: usize,
) {
    let (answers, was_open) = thread::join(
        rt,
        || thread::map_indices(rt, rt.alloc(), count, &|_| receive_once(rt, &rx)),
        || {
            // So that they are likely to wait by then.
            thread::sleep(rt, Duration::from_millis(30));
            tx.close()
        },
    );
    expect_true(rt, was_open, "a close before");
    let answers = answers.expect(rt, "memory");
    expect_equal(rt, answers.len(), count);
    for answer in answers {
        expect_equal(rt, answer, Err(RecvFault::Closed(RecvError)));
    }
}

fn receive_once<R: Host + Clone, A: Allocator + Copy>(
    rt: &R,
    rx: &Rx<R, A>,
) -> Result<(u64, u64), RecvFault> {
    let own = rx.clone().expect(rt, "a receiver");
    wait_for(rt, own.recv())
}

#[test]
fn a_close_ends_ten_receiving_threads(rt: HostRuntime) {
    let ends = bounded(&rt, rt.alloc(), 10).expect(&rt, "a channel");
    within(&rt, "ten receives", || close_receivers(&rt, ends, 10));
}

#[test]
fn a_close_ends_ten_threads_that_wait_in_an_unbounded_channel(rt: HostRuntime) {
    let ends = unbounded(&rt, rt.alloc()).expect(&rt, "a channel");
    within(&rt, "ten receives", || close_receivers(&rt, ends, 10));
}

#[test]
fn a_close_ends_the_one_thread_that_waits(rt: HostRuntime) {
    let ends = unbounded(&rt, rt.alloc()).expect(&rt, "a channel");
    within(&rt, "a receive", || close_receivers(&rt, ends, 1));
}

// Gives no numbers, as one that receives does.
fn send_numbers<R: Host + Clone, A: Allocator + Copy>(
    rt: &R,
    tx: &Tx<R, A>,
    (first, count): (u64, u64),
) -> Vec<u64> {
    let own = tx.clone().expect(rt, "a sender");
    for i in 0..count {
        let number = first.wrapping_add(i);
        let sent = wait_for(rt, own.send(number, number));
        expect_equal_at(rt, number, sent, Ok(()));
    }
    Vec::new(rt.alloc())
}

fn receive_numbers<R: Host + Clone, A: Allocator + Copy>(
    rt: &R,
    rx: &Rx<R, A>,
    count: u64,
) -> Vec<u64> {
    let own = rx.clone().expect(rt, "a receiver");
    let mut numbers = Vec::new(rt.alloc());
    for _ in 0..count {
        let received = wait_for(rt, own.recv());
        let (number, _) = received.ok().expect(rt, "the channel is open");
        numbers.push(number).expect(rt, "memory");
    }
    numbers
}

/// How many threads, and how many messages of each.
type Crew = (usize, u64);

// Each number comes once.
fn exchange<R: ThreadHost, A: Allocator + Copy + Send + Sync>(
    rt: &R,
    ends: Ends<u64, u64, R, A>,
    senders: Crew,
    receivers: Crew,
) {
    let (tx, rx) = ends;
    let ((senders, sent), (receivers, received)) = (senders, receivers);
    let take_part = |thread: usize| {
        if thread < senders {
            send_numbers(rt, &tx, (sent.wrapping_mul(thread as u64), sent))
        } else {
            receive_numbers(rt, &rx, received)
        }
    };
    let threads = senders.saturating_add(receivers);
    let all = thread::map_indices(rt, rt.alloc(), threads, &take_part);
    let mut came = Vec::new(rt.alloc());
    for numbers in all.expect(rt, "memory") {
        came.extend(numbers.into_iter()).expect(rt, "memory");
    }
    came.sort().expect(rt, "memory");
    let wanted: Vec<u64> = (0..sent.saturating_mul(senders as u64))
        .collect(rt.alloc())
        .expect(rt, "memory");
    expect_equal(rt, came, wanted);
}

// On a channel with no limit, and on one for ten.
fn exchange_on_both<R: ThreadHost>(rt: &R, senders: Crew, receivers: Crew) {
    let ends = unbounded(rt, rt.alloc()).expect(rt, "a channel");
    let go = || exchange(rt, ends, senders, receivers);
    within(rt, "an exchange without a limit", go);
    let ends = bounded(rt, rt.alloc(), 10).expect(rt, "a channel");
    let go = || exchange(rt, ends, senders, receivers);
    within(rt, "an exchange over ten places", go);
}

#[test]
fn one_sender_and_one_receiver_a_thousand_messages(rt: HostRuntime) {
    exchange_on_both(&rt, (1, 1000), (1, 1000));
}

#[test]
fn ten_senders_and_one_receiver(rt: HostRuntime) {
    exchange_on_both(&rt, (10, 500), (1, 5000));
}

#[test]
fn one_sender_and_ten_receivers(rt: HostRuntime) {
    exchange_on_both(&rt, (1, 5000), (10, 500));
}

const CLOSES: usize = 16;

fn close_by_own<R: Abort + Wait + Clone, A: Allocator + Copy>(
    rt: &R,
    tx: &Tx<R, A>,
    arrived: &AtomicUsize,
) -> bool {
    let own = tx.clone().expect(rt, "a sender");
    arrive(arrived, CLOSES);
    own.close()
}

fn close_by_sixteen<R: ThreadHost, A: Allocator + Copy + Send + Sync>(
    rt: &R,
    (tx, rx): Ends<u64, u64, R, A>,
) {
    let arrived = AtomicUsize::new(0);
    let closes = thread::map_indices(rt, rt.alloc(), CLOSES, &|_| close_by_own(rt, &tx, &arrived));
    let closes = closes.expect(rt, "memory");
    let count = closes.iter().filter(|was_open| **was_open).count();
    expect_equal(rt, (closes.len(), count, rx.is_closed()), (16, 1, true));
}

#[test]
fn sixteen_threads_close_one_channel(rt: HostRuntime) {
    let ends = bounded(&rt, rt.alloc(), 1).expect(&rt, "a channel");
    within(&rt, "sixteen closes", || close_by_sixteen(&rt, ends));
}

const NUMBERS: u64 = 10;

// How many tries one of the two sides makes at most.
const TRIES: u64 = 10_000_000;

fn send<R: Abort + Wait + Clone, A: Allocator + Copy>(
    rt: &R,
    tx: &Tx<R, A>,
    number: u64,
    tries: &mut u64,
) {
    for _ in *tries..TRIES {
        *tries = tries.wrapping_add(1);
        if tx.try_send(number, number).is_ok() {
            return;
        }
        thread::yield_now();
    }
    panic!(rt; "{TRIES} tries, the last to send {number}");
}

fn receive<R: Abort + Wait + Clone, A: Allocator + Copy>(
    rt: &R,
    rx: &Rx<R, A>,
    tries: &mut u64,
) -> u64 {
    for _ in *tries..TRIES {
        *tries = tries.wrapping_add(1);
        if let Ok((number, _)) = rx.try_recv() {
            return number;
        }
        thread::yield_now();
    }
    panic!(rt; "{TRIES} tries, the last to receive");
}

// Sends each number once the one before has come back.
fn ping<R: Abort + Wait + Clone, A: Allocator + Copy>(rt: &R, tx: &Tx<R, A>, rx: &Rx<R, A>) {
    let mut tries = 0;
    for i in 1..=NUMBERS {
        send(rt, tx, i, &mut tries);
        expect_equal(rt, receive(rt, rx, &mut tries), i);
    }
}

// Sends back what it receives.
fn pong<R: Abort + Wait + Clone, A: Allocator + Copy>(rt: &R, tx: &Tx<R, A>, rx: &Rx<R, A>) {
    let mut tries = 0;
    for _ in 0..NUMBERS {
        let number = receive(rt, rx, &mut tries);
        send(rt, tx, number, &mut tries);
    }
}

// One thread that ran the sides one after the other could not end.
#[test]
fn two_threads_play_ping_pong(rt: HostRuntime) {
    let (there_tx, there_rx) = bounded(&rt, rt.alloc(), 1).expect(&rt, "a channel");
    let (back_tx, back_rx) = bounded(&rt, rt.alloc(), 1).expect(&rt, "a channel");
    thread::join(
        &rt,
        || ping(&rt, &there_tx, &back_rx),
        || pong(&rt, &back_tx, &there_rx),
    );
}

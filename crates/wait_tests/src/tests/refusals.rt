//! Memory that is refused to waits, and how much of it they ask for.
use super::clocks::{Paced, Plan, Times, second};
use super::either::{Either, SIDES, TIMED, block, done, long, refused, requests_of};
use super::places::{PLACES, Place, at, before};
use super::watch::{beside, within};
use super::{Memory, Threaded, expect_equal_at, expect_true};
use async_priority_channel::{bounded, bounded_reserved};
use named_calls::{ALL, Call, Outcome, Side, Way, is_for_close};
use refusing::Refusing;
use refusing::watch::{let_others_wait, wait_until};
use std::alloc::Allocator;
use std::sync::atomic::{AtomicBool, Ordering};
use std::thread;
use std::time::{Duration, Instant};

// A wait is refused its nth request, where none waits before it or where one does.
fn refuse_a_wait<R: Threaded, A: Allocator + Copy + Send + Sync>(
    rt: &R,
    (memory, alloc): Memory<'_, A>,
    round: (Call, u64, Place),
) {
    let (call, n, place) = round;
    let (blocked, other) = block(rt, alloc, call);
    let asked = memory.count().wrapping_add(place.requests_before());
    let (first, (answer, met_none)) = at(
        rt,
        ("a wait without memory", round),
        place,
        (rt, alloc, call),
        (&blocked, &other),
        || {
            // No request of the call before is refused, however long it takes to wait.
            wait_until(rt, || memory.count() >= asked);
            memory.refuse_nth(n);
            let answer = blocked.make(rt, alloc, call, long());
            (answer, memory.refuse_none())
        },
    );
    let wanted = (done(before(call)), refused(call, Outcome::Memory), false);
    expect_equal_at(rt, round, (first, answer, met_none), wanted);
}

#[test]
fn each_request_of_a_wait_may_be_refused(rt: HostRuntime) {
    for call in ALL {
        for place in PLACES {
            if place.is_for(call) {
                for n in 1..=requests_of(call).unwrap_or(0) {
                    let memory = Refusing::new(rt.alloc());
                    refuse_a_wait(&rt, (&memory, &memory), (call, n, place));
                }
            }
        }
    }
}

fn refuse_the_next<R: Threaded, A: Allocator + Copy + Send + Sync>(
    rt: &R,
    (memory, alloc): Memory<'_, A>,
    side: Side,
) {
    let call = side.call(Way::Blocking);
    let (blocked, other) = block(rt, alloc, call);
    let before = memory.count();
    let (first, (second, could)) = beside(
        rt,
        ("the next of two waits", side),
        || blocked.make(rt, alloc, call, long()),
        || {
            wait_until(rt, || memory.count() >= before.wrapping_add(2));
            thread::join(
                rt,
                || blocked.make(rt, alloc, call, long()),
                || {
                    wait_until(rt, || memory.count() >= before.wrapping_add(4));
                    memory.refuse_all();
                    other.help()
                },
            )
        },
    );
    let wanted = (done(call), refused(call, Outcome::Memory), true);
    expect_equal_at(rt, side, (first, second, could), wanted);
}

// The first has its answer, and there is no memory to list the second. Each has asked twice before.
#[test]
fn the_next_that_cannot_be_listed_is_told(rt: HostRuntime) {
    for side in SIDES {
        let memory = Refusing::new(rt.alloc());
        refuse_the_next(&rt, (&memory, &memory), side);
    }
}

fn refuse_a_loop<R: Threaded, A: Allocator + Copy + Send + Sync>(
    rt: &R,
    (memory, alloc): Memory<'_, A>,
) {
    let (tx, rx) = bounded_reserved(rt, alloc, 1).expect(rt, "a channel");
    let send = |number: u64| {
        // However long the loop takes on a busy machine.
        wait_until(rt, || tx.is_empty());
        let_others_wait(rt);
        expect_true(rt, tx.try_send(number, 0).is_ok(), "there is room");
    };
    let (received, (asked, in_vain, millis)) = beside(
        rt,
        "a loop that waits again and again",
        || rx.iter().take(17).count(),
        || {
            send(0);
            let before = memory.count();
            for number in 1..15u64 {
                send(number);
            }
            wait_until(rt, || tx.is_empty());
            let_others_wait(rt);
            let refused_from = memory.count();
            let begun = Instant::now(rt).expect(rt, "a clock");
            memory.refuse_all();
            send(15);
            wait_until(rt, || memory.count() > refused_from.wrapping_add(20));
            let in_vain = memory.count().saturating_sub(refused_from);
            let took = begun.elapsed(rt).expect(rt, "a clock");
            send(16);
            (
                refused_from.saturating_sub(before),
                in_vain,
                took.as_millis(),
            )
        },
    );
    // With a waiter of its own each of the waits would ask twice.
    expect_equal_at(rt, asked, (received, asked < 22), (17, true));
    // At most one request a millisecond.
    let most = millis.wrapping_add(2);
    expect_equal_at(rt, (in_vain, millis), u128::from(in_vain) <= most, true);
}

// A loop makes its waiter once, and what each of its waits asks for is the channel's list, since a
// wake takes the whole list out. Without memory it looks again after a pause, since it has to end
// with the channel alone.
#[test]
fn a_loop_asks_once_a_wait_and_goes_on_without_memory(rt: HostRuntime) {
    let memory = Refusing::new(rt.alloc());
    refuse_a_loop(&rt, (&memory, &memory));
}

// What a worker has in hand comes back once the thread has asked for memory some times in vain.
fn refuse_beside_a_lease<R: Threaded, A: Allocator + Copy + Send + Sync>(
    rt: &R,
    (memory, alloc): Memory<'_, A>,
    (call, is_closed): (Call, bool),
) {
    let (tx, rx) = bounded_reserved(rt, alloc, 1).expect(rt, "a channel");
    let other = rx.clone().expect(rt, "a receiver");
    expect_true(rt, tx.try_send(7, 7).is_ok(), "there is room");
    let lease = other.try_lease().expect(rt, "a message is pending");
    if is_closed {
        expect_true(rt, tx.close(), "it was open");
    }
    let waiting = Either::Receiver(rx);
    let asked = memory.count().wrapping_add(5);
    memory.refuse_all();
    let has_answered = AtomicBool::new(false);
    let (answer, waits_on) = beside(
        rt,
        ("a loop beside a lease", (call, is_closed)),
        || {
            let answer = waiting.make(rt, alloc, call, long());
            has_answered.store(true, Ordering::SeqCst);
            answer
        },
        || {
            let answers = || has_answered.load(Ordering::SeqCst);
            wait_until(rt, || memory.count() >= asked || answers());
            let waits_on = !answers();
            drop(lease);
            waits_on
        },
    );
    expect_equal_at(
        rt,
        (call, is_closed),
        (waits_on, answer),
        (true, done(call)),
    );
}

#[test]
fn a_loop_without_memory_waits_for_what_is_in_hand(rt: HostRuntime) {
    for call in [
        Call::Iter,
        Call::IntoIter,
        Call::Leases,
        Call::Stream(Way::Future),
        Call::IntoStream(Way::Future),
    ] {
        for is_closed in [false, true] {
            let memory = Refusing::new(rt.alloc());
            refuse_beside_a_lease(&rt, (&memory, &memory), (call, is_closed));
        }
    }
}

fn wait_in_vain<R: Threaded, A: Allocator + Copy + Send + Sync>(
    rt: &R,
    (memory, alloc): Memory<'_, A>,
    call: Call,
    outcome: Outcome,
) {
    let (blocked, other) = block(rt, alloc, call);
    let too_many = if matches!(call, Call::RecvMany(_)) {
        3
    } else {
        2
    };
    for round in 0..30u64 {
        let (nth, millis) = if round == 0 { (0, 100) } else { (too_many, 2) };
        memory.refuse_nth(nth);
        let limit = Duration::from_millis(millis);
        let answer = within(rt, ("the end of a limit", (call, round)), || {
            blocked.make(rt, alloc, call, limit)
        });
        let got = (answer.0, memory.refuse_none());
        expect_equal_at(rt, (call, round), got, (outcome, nth > 0));
    }
    expect_true(rt, other.help(), "the channel is open");
}

// A wait that is over, or a future that is dropped, has left the list. So the next ones find the
// list's memory there, and ask for their waiter alone, and a batch for its own memory.
#[test]
fn a_wait_leaves_no_place_behind(rt: HostRuntime) {
    for call in ALL {
        let outcome = match call.way() {
            Way::Poll => Outcome::Waits,
            Way::Timeout | Way::Deadline => Outcome::Timeout,
            _ => continue,
        };
        let memory = Refusing::new(rt.alloc());
        wait_in_vain(&rt, (&memory, &memory), call, outcome);
    }
}

fn look_often<R: Threaded, A: Allocator + Copy + Send + Sync>(
    rt: &R,
    (memory, alloc): Memory<'_, A>,
    call: Call,
    requests: u64,
) {
    let times = Times::new(Plan::HaltsAt(40));
    let paced = Paced::new(rt, &times);
    let (blocked, _other) = block(&paced, alloc, call);
    let before = memory.count();
    let (answer, ()) = beside(
        rt,
        ("a wait that looks often", call),
        || blocked.make(&paced, alloc, call, second()),
        || {
            wait_until(rt, || times.is_reached());
            times.let_go(true);
        },
    );
    let got = (answer, memory.count().saturating_sub(before));
    let wanted = (refused(call, Outcome::Timeout), requests);
    expect_equal_at(rt, call, got, wanted);
}

// A thread that sleeps again and again keeps its place in the list.
#[test]
fn a_wait_asks_once_however_often_it_looks(rt: HostRuntime) {
    for call in TIMED {
        let Some(requests) = requests_of(call) else {
            continue
        };
        let memory = Refusing::new(rt.alloc());
        look_often(&rt, (&memory, &memory), call, requests);
    }
}

fn send_without_memory<R: Threaded, A: Allocator + Copy + Send + Sync>(
    rt: &R,
    (memory, alloc): Memory<'_, A>,
    call: Call,
) {
    let (tx, rx) = bounded(rt, alloc, 2).expect(rt, "a channel");
    let tx = Either::Sender(tx);
    memory.refuse_nth(1);
    let answer = within(rt, ("a send without memory", call), || {
        tx.make(rt, alloc, call, Duration::ZERO)
    });
    let got = (answer.0, answer.2, rx.is_empty());
    expect_equal_at(rt, call, got, (Outcome::Memory, 7, true));
}

// There is room, and no memory for the message: a wait would not help.
#[test]
fn memory_for_a_message_is_not_waited_for(rt: HostRuntime) {
    for call in ALL {
        if !call.waits() || call.side() != Side::Sender || is_for_close(call) {
            continue;
        }
        let memory = Refusing::new(rt.alloc());
        send_without_memory(&rt, (&memory, &memory), call);
    }
}

fn refuse_the_last_look<R: Threaded, A: Allocator + Copy + Send + Sync>(
    rt: &R,
    (memory, alloc): Memory<'_, A>,
    call: Call,
) {
    let times = Times::new(Plan::HaltsAt(1));
    let paced = Paced::new(rt, &times);
    let (tx, rx) = bounded(&paced, alloc, 1).expect(rt, "a channel");
    expect_true(rt, tx.try_send(1, 1).is_ok(), "there is room");
    let tx = Either::Sender(tx);
    let (answer, received) = beside(
        rt,
        ("a last look without memory", call),
        || tx.make(&paced, alloc, call, second()),
        || {
            wait_until(rt, || times.is_reached());
            let received = rx.try_recv();
            rx.shrink_to_fit();
            memory.refuse_all();
            times.let_go(true);
            received
        },
    );
    let got = (answer.0, answer.2, received, rx.is_empty());
    let wanted = (Outcome::Timeout, 7, Ok((1, 1)), true);
    expect_equal_at(rt, call, got, wanted);
}

// At the last look there is room, and no memory for the message: the time is over all the same.
#[test]
fn memory_refused_at_the_last_look_is_a_time_that_is_over(rt: HostRuntime) {
    for call in TIMED {
        if call.side() != Side::Sender || is_for_close(call) {
            continue;
        }
        let memory = Refusing::new(rt.alloc());
        refuse_the_last_look(&rt, (&memory, &memory), call);
    }
}

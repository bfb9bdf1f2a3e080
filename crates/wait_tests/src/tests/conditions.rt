//! Threads that wait for a message with a condition: each change after which one has to look again
//! wakes it, and it sleeps on otherwise.
use super::either::{TIMED, long};
use super::watch::{beside, under_load, within};
use super::{Host, Memory, Threaded, expect_equal_at, expect_true};
use async_priority_channel::{Due, Ends, Receiver, bounded, bounded_reserved};
use cases::{ANY, BOTH, Case, FIRST};
use delays::{after, now};
use hands::Hands;
use named_calls::receiving::due_if;
use named_calls::{Call, Input, Outcome, Pairs, Reply, Way, is_choosy, picks, receive};
use refusing::Refusing;
use refusing::watch::{let_others_wait, wait_until};
use std::alloc::{Allocator, Global};
use std::fmt::Debug;
use std::sync::atomic::{AtomicBool, AtomicU64, Ordering};
use std::thread;
use std::time::Duration;

mod cases;
mod delays;
mod hands;
mod tasks;

const WAYS: [Way; 3] = [Way::Blocking, Way::Timeout, Way::Deadline];

// The calls that wait so for a message with a condition.
fn choosy(way: Way) -> [Call; 4] {
    [
        Call::RecvWhen(way),
        Call::LeaseWhen(way),
        Call::RecvWhere(way),
        Call::LeaseWhere(way),
    ]
}

// How often the first wait with a condition asks its channel for memory: for a waiter, for the
// lists of those that wait so, and for its entry.
const REQUESTS: u64 = 3;

// Waits on one thread, and does the other thing once that wait has asked the channel's allocator so
// often. The last request is made under the channel's lock, and the thread is listed before it
// releases the lock. So the other thing finds it listed.
fn while_asleep<R, N, F, G, X, Y>(
    rt: &R,
    what: N,
    asks: (&Refusing<Global>, u64),
    wait: F,
    then: G,
) -> (X, Y)
where
    R: Threaded,
    N: Debug + Drop + Send,
    F: FnOnce() -> X + Send,
    G: FnOnce() -> Y,
    X: Send,
    requires { F.pre wait × G.pre then }
{
    let (memory, requests) = asks;
    let asked = memory.count().wrapping_add(requests);
    let once_asleep = move ||
        requires { G.pre then }
    {
        wait_until(rt, || memory.count() >= asked);
        then()
    };
    beside(rt, what, wait, once_asleep)
}

// The message that is waited for is an even number.
fn input(limit: Duration) -> Input {
    Input {
        pairs: Pairs::new(0, 0, 1),
        most: 1,
        limit,
        chosen: 2,
    }
}

fn wait_through<R: Threaded>(rt: &R, call: Call, case: Case) {
    let memory = Refusing::new(rt.alloc());
    let ends = bounded_reserved(rt, &memory, 4).expect(rt, "a channel");
    wait_with(rt, (&memory, &memory), &ends, call, case);
}

fn wait_with<R: Threaded, A: Allocator + Copy + Send + Sync>(
    rt: &R,
    (memory, alloc): Memory<'_, A>,
    ends: &Ends<u64, u64, R, A>,
    call: Call,
    case: Case,
) {
    let (before, meanwhile, at_last, came) = case;
    let (tx, rx) = ends;
    let mut hands = Hands::new(tx, rx);
    for step in before {
        hands.take(rt, step);
    }
    let has_answered = AtomicBool::new(false);
    let (reply, sleeps_on) = while_asleep(
        rt,
        ("a wait with a condition", call, case),
        (memory, REQUESTS),
        || {
            let reply = receive(rt, alloc, rx, call, input(long()));
            has_answered.store(true, Ordering::SeqCst);
            reply
        },
        || {
            hands.take(rt, meanwhile);
            thread::sleep(rt, Duration::from_millis(2));
            let sleeps_on = !has_answered.load(Ordering::SeqCst);
            hands.take(rt, at_last);
            sleeps_on
        },
    );
    let wanted = Reply::found(rt, came, Outcome::Closed);
    expect_equal_at(rt, (call, case), (reply, sleeps_on), (wanted, true));
}

#[test]
fn what_changes_wakes_one_that_waits_with_a_condition(rt: HostRuntime) {
    for way in WAYS {
        for call in choosy(way) {
            for case in BOTH {
                wait_through(&rt, call, case);
            }
            if picks(call) {
                for case in ANY {
                    wait_through(&rt, call, case);
                }
            } else {
                for case in FIRST {
                    wait_through(&rt, call, case);
                }
            }
        }
    }
}

fn change_priorities<R: Threaded, A: Allocator + Copy + Send + Sync>(
    rt: &R,
    (memory, alloc): Memory<'_, A>,
    looks_at_first: bool,
) {
    let (tx, rx) = bounded_reserved(rt, alloc, 2).expect(rt, "a channel");
    let could = tx.try_send(7u64, 5u64).is_ok() && tx.try_send(8, 1).is_ok();
    let got = while_asleep(
        rt,
        ("a priority above 5", looks_at_first),
        (memory, REQUESTS),
        || {
            if looks_at_first {
                rx.recv_when_blocking(|_, priority| due_if(*priority > 5))
            } else {
                rx.recv_where_blocking(|_, priority| *priority > 5)
            }
        },
        || {
            let lower = tx.change_priority(|msg, _| *msg == 7, 4);
            (lower, tx.change_priority(|msg, _| *msg == 8, 9))
        },
    );
    let wanted = (Ok((8, 9)), (Some(5), Some(1)));
    expect_equal_at(rt, looks_at_first, (could, got), (true, wanted));
}

// A priority that meets a condition of the priority.
#[test]
fn a_change_of_the_priority_that_is_waited_for_wakes(rt: HostRuntime) {
    for looks_at_first in [false, true] {
        let memory = Refusing::new(rt.alloc());
        change_priorities(&rt, (&memory, &memory), looks_at_first);
    }
}

fn receive_before_its_instant<R: Threaded, A: Allocator + Copy + Send + Sync>(
    rt: &R,
    (memory, alloc): Memory<'_, A>,
) {
    let (tx, rx) = bounded_reserved(rt, alloc, 2).expect(rt, "a channel");
    let later = after(rt, now(rt), long());
    let could = tx.try_send('a', 2u64).is_ok() && tx.try_send('b', 1).is_ok();
    let when = |msg: &char, _: &u64| {
        if *msg == 'a' {
            Due::At(later)
        } else {
            Due::Now
        }
    };
    let got = while_asleep(
        rt,
        "the message behind one that is not due",
        (memory, REQUESTS),
        || rx.recv_when_blocking(when),
        || rx.try_recv(),
    );
    let wanted = (Ok(('b', 1)), Ok(('a', 2)));
    expect_equal_at(rt, "got", (could, got), (true, wanted));
}

// The next message is due already.
#[test]
fn a_first_message_that_goes_before_its_instant_wakes(rt: HostRuntime) {
    let memory = Refusing::new(rt.alloc());
    receive_before_its_instant(&rt, (&memory, &memory));
}

// A message that is never due, or for nobody, stays in a closed channel too.
#[test]
fn a_limit_ends_a_wait_that_nothing_else_ends(rt: HostRuntime) {
    for call in TIMED {
        if !is_choosy(call) {
            continue;
        }
        let (tx, rx) = bounded(&rt, rt.alloc(), 1).expect(&rt, "a channel");
        let could = tx.try_send(3, 9).is_ok() && tx.close();
        let limit = Duration::from_millis(40);
        let begun = now(&rt);
        let reply = within(&rt, ("the end of a limit", call), || {
            receive(&rt, rt.alloc(), &rx, call, input(limit))
        });
        let is_over = begun.elapsed(&rt).expect(&rt, "a clock") >= limit;
        let got = (could, reply.outcome, is_over, rx.try_recv());
        expect_equal_at(&rt, call, got, (true, Outcome::Timeout, true, Ok((3, 9))));
    }
}

fn wait_for_short_limits<R: Threaded, A: Allocator + Copy + Send + Sync>(
    rt: &R,
    (memory, alloc): Memory<'_, A>,
    call: Call,
) {
    let (tx, rx) = bounded_reserved(rt, alloc, 3).expect(rt, "a channel");
    expect_true(rt, tx.try_send(3, 9).is_ok(), "there is room");
    let begun = memory.count();
    for round in 0..200u64 {
        let limit = Duration::from_millis(if round == 0 { 100 } else { 1 });
        let reply = within(rt, ("the end of a limit", (call, round)), || {
            receive(rt, alloc, &rx, call, input(limit))
        });
        expect_equal_at(rt, (call, round), reply.outcome, Outcome::Timeout);
    }
    let asked = memory.count().saturating_sub(begun);
    expect_equal_at(rt, (call, asked), asked <= 202, true);
    // The lists and the room for an entry are there.
    let (reply, sent) = while_asleep(
        rt,
        ("a wait after others that have ended", call),
        (memory, 1),
        || receive(rt, alloc, &rx, call, input(long())),
        || {
            let_others_wait(rt);
            tx.try_send(4, 10).is_ok()
        },
    );
    let wanted = Reply::found(rt, Some((4, 10)), Outcome::Closed);
    expect_equal_at(rt, call, (reply, sent), (wanted, true));
}

// Each wait but the first asks for its waiter alone, since those that have ended have left the
// list; and one whose time is over before it would be listed for nothing.
#[test]
fn many_short_limits_leave_nothing_behind(rt: HostRuntime) {
    for call in choosy(Way::Timeout) {
        let memory = Refusing::new(rt.alloc());
        wait_for_short_limits(&rt, (&memory, &memory), call);
    }
}

// A refused request, and how many the next wait makes: the lists are made once.
const REFUSED: [(u64, u64); 3] = [(1, 3), (2, 3), (3, 2)];

fn wait_after_a_refusal<R: Threaded, A: Allocator + Copy + Send + Sync>(
    rt: &R,
    (memory, alloc): Memory<'_, A>,
    call: Call,
    (n, requests): (u64, u64),
) {
    let round = (call, n);
    let (tx, rx) = bounded_reserved(rt, alloc, 2).expect(rt, "a channel");
    expect_true(rt, tx.try_send(3, 9).is_ok(), "there is room");
    memory.refuse_nth(n);
    let refused = within(rt, ("a wait without memory", round), || {
        receive(rt, alloc, &rx, call, input(long()))
    });
    let got = (refused.outcome, memory.refuse_none(), rx.len());
    expect_equal_at(rt, round, got, (Outcome::Memory, false, 1));
    let (reply, sent) = while_asleep(
        rt,
        ("the wait after one without memory", round),
        (memory, requests),
        || receive(rt, alloc, &rx, call, input(long())),
        || tx.try_send(4, 10).is_ok(),
    );
    let wanted = Reply::found(rt, Some((4, 10)), Outcome::Closed);
    expect_equal_at(rt, round, (reply, sent), (wanted, true));
}

#[test]
fn a_wait_without_memory_leaves_the_message_and_the_next_wait(rt: HostRuntime) {
    for way in WAYS {
        for call in choosy(way) {
            for refused in REFUSED {
                let memory = Refusing::new(rt.alloc());
                wait_after_a_refusal(&rt, (&memory, &memory), call, refused);
            }
        }
    }
}

// One leases an odd message, and the other receives an even one.
const TWO: [(Call, Call); 4] = [
    (
        Call::LeaseWhere(Way::Blocking),
        Call::RecvWhere(Way::Blocking),
    ),
    (
        Call::LeaseWhere(Way::Blocking),
        Call::RecvWhen(Way::Blocking),
    ),
    (
        Call::LeaseWhen(Way::Blocking),
        Call::RecvWhere(Way::Blocking),
    ),
    (
        Call::LeaseWhen(Way::Blocking),
        Call::RecvWhen(Way::Blocking),
    ),
];

fn wait_for_two<R: Threaded, A: Allocator + Copy + Send + Sync>(
    rt: &R,
    (memory, alloc): Memory<'_, A>,
    (leases, receives): (Call, Call),
) {
    let round = (leases, receives);
    let (tx, rx) = bounded_reserved(rt, alloc, 2).expect(rt, "a channel");
    let mut of_lease = input(long());
    of_lease.chosen = 3;
    let asked = memory.count().wrapping_add(REQUESTS + 1);
    let (leased, (received, could)) = beside(
        rt,
        ("two conditions", round),
        || receive(rt, alloc, &rx, leases, of_lease),
        || {
            thread::join(
                rt,
                || receive(rt, alloc, &rx, receives, input(long())),
                || {
                    // Both have made their waiters.
                    wait_until(rt, || memory.count() >= asked);
                    thread::sleep(rt, Duration::from_millis(2));
                    tx.try_send(4, 1).is_ok() && tx.try_send(3, 9).is_ok()
                },
            )
        },
    );
    let wanted_lease = Reply::found(rt, Some((3, 9)), Outcome::Closed);
    let wanted = Reply::found(rt, Some((4, 1)), Outcome::Closed);
    let got = (leased, received, could);
    expect_equal_at(rt, round, got, (wanted_lease, wanted, true));
}

#[test]
fn of_two_that_wait_with_conditions_each_gets_its_own(rt: HostRuntime) {
    for calls in TWO {
        let memory = Refusing::new(rt.alloc());
        wait_for_two(&rt, (&memory, &memory), calls);
    }
}

// How many threads receive in each of three ways.
const EACH: usize = 16;

const MESSAGES: u64 = 1_500;

// Receives in one of three ways until the channel is closed, and counts what comes.
fn receive_all<R: Host>(rx: &Receiver<u64, u64, R>, number: usize, times: &[AtomicU64]) {
    for _ in 0..u64::MAX {
        let received = match number % 3 {
            0 => rx.recv_when_blocking(|msg, _| due_if(*msg % 2 == 0)),
            1 => rx.recv_where_blocking(|msg, _| *msg % 3 == 0),
            _ => rx.recv_blocking(),
        };
        let Ok((msg, _)) = received else { return };
        if let Some(times) = times.get(msg as usize) {
            times.fetch_add(1, Ordering::SeqCst);
        }
    }
}

// How often each message came: not at all.
fn no_times<R: Host>(rt: &R) -> Vec<AtomicU64> {
    let mut times = Vec::new(rt.alloc());
    for _ in 0..MESSAGES {
        times
            .push(AtomicU64::new(0))
            .expect(rt, "memory for a list");
    }
    times
}

fn receive_in_three_ways<R: Threaded>(rt: &R, capacity: u64, ends: Ends<u64, u64, R>) {
    let (tx, rx) = ends;
    let times = no_times(rt);
    let told = thread::map_indices(
        rt,
        rt.alloc(),
        3 * EACH + 1,
        &|number| {
            if number < 3 * EACH {
                receive_all(&rx, number, &times);
                return;
            }
            for msg in 0..MESSAGES {
                expect_true(rt, tx.send_blocking(msg, msg % 8).is_ok(), "it is open");
            }
            tx.close();
        },
    );
    expect_true(rt, told.is_ok(), "memory");
    for (msg, times) in times.iter().enumerate() {
        expect_equal_at(rt, (capacity, msg), times.load(Ordering::SeqCst), 1);
    }
    expect_equal_at(rt, capacity, rx.len(), 0);
}

#[test]
fn those_with_conditions_and_those_without_receive_each_message_once(rt: HostRuntime) {
    for capacity in [1u64, 8, MESSAGES] {
        let ends = bounded(&rt, rt.alloc(), capacity).expect(&rt, "a channel");
        under_load(
            &rt,
            ("threads that receive in three ways", capacity),
            || receive_in_three_ways(&rt, capacity, ends),
        );
    }
}

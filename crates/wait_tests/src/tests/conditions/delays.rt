//! Messages that have their instants as priorities, and are received once they are due.
use super::{REQUESTS, WAYS, while_asleep};
use crate::tests::clocks::{Paced, Plan, Times};
use crate::tests::either::long;
use crate::tests::watch::{under_load, within};
use crate::tests::{Host, Memory, Threaded, expect_equal_at, expect_true};
use async_priority_channel::{
    Due, Receiver, RecvTimeoutError, Sender, bounded_reserved, unbounded,
};
use named_calls::Way;
use refusing::Refusing;
use std::alloc::Allocator;
use std::cmp::Reverse;
use std::thread;
use std::time::{Duration, Instant};

pub fn now(rt: &impl Host) -> Instant {
    Instant::now(rt).expect(rt, "a clock")
}

pub fn after(rt: &impl Host, begun: Instant, time: Duration) -> Instant {
    begun.checked_add(time).expect(rt, "an instant")
}

// Receives a message that has its instant as its priority, and tells when it came.
fn receive_due<T, R: Host, A: Allocator + Copy>(
    rt: &R,
    rx: &Receiver<T, Reverse<Instant>, R, A>,
    way: Way,
) -> Option<(T, Instant, Instant)> {
    let when = |_: &T, due: &Reverse<Instant>| Due::At(due.0);
    let received = match way {
        Way::Timeout => rx.recv_when_timeout(when, long()).ok(),
        Way::Deadline => {
            let deadline = after(rt, now(rt), long());
            rx.recv_when_deadline(when, deadline).ok()
        }
        _ => rx.recv_when_blocking(when).ok(),
    };
    let (msg, due) = received?;
    Some((msg, due.0, now(rt)))
}

const DUE: u64 = 100;

// Each comes some moments after the thread has begun to wait for it, or just as its time is over.
fn receive_many_due<R: Threaded, A: Allocator + Copy + Send + Sync>(
    rt: &R,
    (memory, alloc): Memory<'_, A>,
    (way, is_last): (Way, bool),
) {
    let (tx, rx) = bounded_reserved(rt, alloc, 1).expect(rt, "a channel");
    let begun = memory.count();
    for round in 0..DUE {
        let soon = after(rt, now(rt), Duration::from_millis(4));
        expect_true(
            rt,
            tx.try_send(round, Reverse(soon)).is_ok(),
            "there is room",
        );
        let msg = within(rt, ("a message that comes due", (way, round)), || {
            if is_last {
                let when = |_: &u64, due: &Reverse<Instant>| Due::At(due.0);
                rx.recv_when_deadline(when, soon).ok().map(|(msg, _)| msg)
            } else {
                receive_due(rt, &rx, way).map(|(msg, ..)| msg)
            }
        });
        expect_equal_at(rt, (way, round), msg, Some(round));
    }
    let asked = memory.count().saturating_sub(begun);
    let most = DUE.saturating_add(REQUESTS).saturating_sub(1);
    expect_equal_at(rt, (way, is_last, asked), asked <= most, true);
}

// Who found its message has left the list, so each wait but the first asks for its waiter alone.
#[test]
fn a_wait_whose_message_has_come_due_leaves_no_place_behind(rt: HostRuntime) {
    for way in WAYS {
        for is_last in [false, true] {
            if !is_last || way == Way::Deadline {
                let memory = Refusing::new(rt.alloc());
                receive_many_due(&rt, (&memory, &memory), (way, is_last));
            }
        }
    }
}

fn send_an_earlier_job<R: Threaded, A: Allocator + Copy + Send + Sync>(
    rt: &R,
    (memory, alloc): Memory<'_, A>,
    way: Way,
) {
    let (tx, rx) = unbounded(rt, alloc).expect(rt, "a channel");
    let later = after(rt, now(rt), long());
    expect_true(rt, tx.try_send('b', Reverse(later)).is_ok(), "it is open");
    let (came, sent) = while_asleep(
        rt,
        ("an earlier job", way),
        (memory, REQUESTS),
        || receive_due(rt, &rx, way),
        || {
            let soon = after(rt, now(rt), Duration::from_millis(20));
            tx.try_send('a', Reverse(soon)).is_ok()
        },
    );
    let in_time = came.map(|(job, due, at)| (job, due <= at, at < later));
    let got = (in_time, sent, rx.len());
    expect_equal_at(rt, way, got, (Some(('a', true, true)), true, 1));
}

#[test]
fn an_earlier_job_wakes_one_that_waits_for_a_later_instant(rt: HostRuntime) {
    for way in WAYS {
        let memory = Refusing::new(rt.alloc());
        send_an_earlier_job(&rt, (&memory, &memory), way);
    }
}

#[test]
fn a_message_whose_instant_has_passed_comes_at_once(rt: HostRuntime) {
    for way in WAYS {
        let (tx, rx) = unbounded(&rt, rt.alloc()).expect(&rt, "a channel");
        let passed = now(&rt);
        expect_true(
            &rt,
            tx.try_send(7u64, Reverse(passed)).is_ok(),
            "it is open",
        );
        let came = within(
            &rt,
            ("an instant that has passed", way),
            || receive_due(&rt, &rx, way),
        );
        let msg = came.map(|(msg, ..)| msg);
        expect_equal_at(&rt, way, msg, Some(7));
    }
}

// The time is over before the instant comes.
#[test]
fn a_limit_ends_a_wait_for_a_later_instant(rt: HostRuntime) {
    for way in [Way::Timeout, Way::Deadline] {
        let (tx, rx) = unbounded(&rt, rt.alloc()).expect(&rt, "a channel");
        let later = after(&rt, now(&rt), long());
        expect_true(&rt, tx.try_send(7u64, Reverse(later)).is_ok(), "it is open");
        let over = after(&rt, now(&rt), Duration::from_millis(40));
        let when = |_: &u64, due: &Reverse<Instant>| Due::At(due.0);
        let late = within(&rt, ("a limit before an instant", way), || {
            if way == Way::Deadline {
                rx.recv_when_deadline(when, over)
            } else {
                rx.recv_when_timeout(when, Duration::from_millis(40))
            }
        });
        let got = (late, over <= now(&rt), rx.len());
        expect_equal_at(&rt, way, got, (Err(RecvTimeoutError::Timeout), true, 1));
    }
}

// By a clock that stands there, as the time of the wait is over too.
#[test]
fn an_instant_that_is_now_has_come(rt: HostRuntime) {
    let times = Times::new(Plan::HaltsAt(u64::MAX));
    let paced = Paced::new(&rt, &times);
    let begun = now(&paced);
    let due = now(&paced);
    let (tx, rx) = unbounded(&paced, rt.alloc()).expect(&rt, "a channel");
    expect_true(&rt, tx.try_send(7u64, Reverse(due)).is_ok(), "it is open");
    let received = within(
        &rt,
        "a message whose instant is now",
        || rx.recv_when_deadline(|_, due| Due::At(due.0), due),
    );
    let msg = received.ok().map(|(msg, _)| msg);
    expect_equal_at(&rt, "got", (begun < due, msg), (true, Some(7)));
}

// Nobody can tell when it comes.
#[test]
fn without_a_clock_an_instant_has_come(rt: HostRuntime) {
    let times = Times::new(Plan::FailsFrom(0));
    let paced = Paced::new(&rt, &times);
    let (tx, rx) = unbounded(&paced, rt.alloc()).expect(&rt, "a channel");
    let later = after(&rt, now(&rt), long());
    expect_true(&rt, tx.try_send(7u64, Reverse(later)).is_ok(), "it is open");
    let received = within(
        &rt,
        "a message by a clock that cannot be read",
        || rx.recv_when_blocking(|_, due| Due::At(due.0)),
    );
    let msg = received.ok().map(|(msg, _)| msg);
    expect_equal_at(&rt, "got", msg, Some(7));
}

const RECEIVERS: usize = 4;

const DELAYED: u64 = 500;

// Receives until the channel is closed. Tells how many came, and how many of them too early.
fn receive_delayed<R: Host>(
    rt: &R,
    rx: &Receiver<u64, Reverse<Instant>, R>,
    way: Way,
) -> (u64, u64) {
    let (mut count, mut early) = (0u64, 0u64);
    for _ in 0..u64::MAX {
        let Some((_, due, at)) = receive_due(rt, rx, way) else {
            break
        };
        count = count.saturating_add(1);
        early = early.saturating_add((at < due) as u64);
    }
    (count, early)
}

// Each is delayed by another part of half a second, in no order, and the sender rests now and then.
fn send_delayed<R: Host>(rt: &R, tx: &Sender<u64, Reverse<Instant>, R>) {
    for msg in 0..DELAYED {
        let delay = Duration::from_millis(msg * 7_919 % DELAYED);
        let due = after(rt, now(rt), delay);
        expect_true(rt, tx.try_send(msg, Reverse(due)).is_ok(), "it is open");
        if msg % 10 == 0 {
            thread::sleep(rt, Duration::from_millis(2));
        }
    }
    tx.close();
}

#[test]
fn no_delayed_message_comes_early_or_is_lost(rt: HostRuntime) {
    let (tx, rx) = unbounded(&rt, rt.alloc()).expect(&rt, "a channel");
    let told = under_load(&rt, "delayed messages", || {
        thread::map_indices(
            &rt,
            rt.alloc(),
            RECEIVERS + 1,
            &|number| {
                if number == RECEIVERS {
                    send_delayed(&rt, &tx);
                    return (0, 0);
                }
                let way = WAYS.get(number).copied().unwrap_or(Way::Blocking);
                receive_delayed(&rt, &rx, way)
            },
        )
    });
    let (mut count, mut early) = (0u64, 0u64);
    for counts in told.expect(&rt, "memory") {
        count = count.saturating_add(counts.0);
        early = early.saturating_add(counts.1);
    }
    expect_equal_at(&rt, "delayed", (count, early, rx.len()), (DELAYED, 0, 0));
}

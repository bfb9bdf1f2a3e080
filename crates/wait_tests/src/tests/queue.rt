//! Threads that wait for the same, in a queue: whoever leaves it, and however, those behind go on.
use super::either::{Either, SIDES, block, long};
use super::watch::under_load;
use super::{Threaded, expect_equal_at, expect_true};
use async_priority_channel::bounded;
use named_calls::{Call, Outcome, Side, Way};
use refusing::watch::let_others_wait;
use std::thread::{self, JoinHandle};
use std::time::Duration;

type Waiting = Vec<JoinHandle<Outcome>>;

// One more thread that waits.
fn begin<R: Threaded>(
    rt: &R,
    waiting: &mut Waiting,
    blocked: &Either<R>,
    call: Call,
    limit: Duration,
) {
    let blocked = blocked.another(rt);
    let host = *rt;
    let thread = thread::spawn(rt, move || blocked.make(&host, host.alloc(), call, limit).0);
    waiting
        .push(thread.expect(rt, "a thread"))
        .expect(rt, "memory");
}

// On a thread, with a limit, and of a task.
const WAYS: [Way; 3] = [Way::Blocking, Way::Timeout, Way::Future];

// So many threads that wait in each of these ways.
fn begin_all<R: Threaded>(rt: &R, blocked: &Either<R>, count: u64) -> Waiting {
    let mut waiting = Vec::new(rt.alloc());
    for _ in 0..count {
        for way in WAYS {
            begin(rt, &mut waiting, blocked, blocked.side().call(way), long());
        }
    }
    let_others_wait(rt);
    waiting
}

fn expect_all<R: Threaded>(rt: &R, waiting: Waiting, side: Side, outcome: Outcome) {
    for thread in waiting {
        let answer = thread.join(rt);
        expect_equal_at(rt, side, answer, outcome);
    }
}

// Helps six by one step, or one after the other.
fn help_six<R: Threaded>(rt: &R, other: &Either<R>, at_once: bool) -> bool {
    if !at_once {
        let mut could = true;
        for _ in 0..6 {
            could = other.help() && could;
            let_others_wait(rt);
        }
        return could;
    }
    match other {
        Either::Sender(tx) => tx.try_sendv((1..7u64).map(|i| (i, i)).peekable()).is_ok(),
        Either::Receiver(rx) => rx.try_recv_many(&mut Vec::new(rt.alloc()), 6) == Ok(6),
    }
}

// What comes wakes the first thread and all tasks. Those that find nothing wait on, and each thread
// that goes on rouses the next one.
#[test]
fn each_of_many_goes_on(rt: HostRuntime) {
    for side in SIDES {
        for at_once in [false, true] {
            let (tx, rx) = bounded(&rt, rt.alloc(), 6).expect(&rt, "a channel");
            let (rx, tx) = (Either::Receiver(rx), Either::Sender(tx));
            let (blocked, other) = match side {
                Side::Receiver => (rx, tx),
                Side::Sender => {
                    expect_true(&rt, help_six(&rt, &tx, true), "there is room for six");
                    (tx, rx)
                }
            };
            let pending = other.len();
            let waiting = begin_all(&rt, &blocked, 2);
            under_load(&rt, ("each of six waits", (side, at_once)), || {
                expect_true(&rt, help_six(&rt, &other, at_once), "the channel is open");
                expect_all(&rt, waiting, side, Outcome::Done);
            });
            expect_equal_at(&rt, (side, at_once), other.len(), pending);
        }
    }
}

// One close ends the waits of that side, and those for the close by both.
#[test]
fn a_close_ends_many_waits(rt: HostRuntime) {
    for side in SIDES {
        let (blocked, other) = block(&rt, rt.alloc(), side.call(Way::Blocking));
        let mut closing = Vec::new(rt.alloc());
        for way in WAYS {
            for end in [&blocked, &other] {
                begin(
                    &rt,
                    &mut closing,
                    end,
                    Call::Closed(end.side(), way),
                    long(),
                );
            }
        }
        let waiting = begin_all(&rt, &blocked, 8);
        under_load(&rt, ("the end of many waits by a close", side), || {
            expect_true(&rt, other.close(), "it was open");
            expect_all(&rt, waiting, side, Outcome::Closed);
            expect_all(&rt, closing, side, Outcome::Done);
        });
    }
}

// Of three that wait the time of one is over: of the first, of one between two, or of the last.
fn leave<R: Threaded>(rt: &R, side: Side, before: u64) {
    let (blocked, other) = block(rt, rt.alloc(), side.call(Way::Blocking));
    let pending = blocked.len();
    let mut waiting = Vec::new(rt.alloc());
    let mut leaving = Vec::new(rt.alloc());
    for place in 0..3u64 {
        let (queue, way, limit) = if place == before {
            (&mut leaving, Way::Timeout, Duration::from_millis(60))
        } else {
            (&mut waiting, Way::Blocking, long())
        };
        begin(rt, queue, &blocked, side.call(way), limit);
        let_others_wait(rt);
    }
    under_load(rt, ("those beside one that has left", (side, before)), || {
        expect_all(rt, leaving, side, Outcome::Timeout);
        expect_true(rt, other.help() && other.help(), "the channel is open");
        expect_all(rt, waiting, side, Outcome::Done);
    });
    expect_equal_at(rt, (side, before), blocked.len(), pending);
}

#[test]
fn those_beside_one_whose_time_is_over_go_on(rt: HostRuntime) {
    for side in SIDES {
        for before in 0..3u64 {
            leave(&rt, side, before);
        }
    }
}

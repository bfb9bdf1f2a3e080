//! Limits: by clocks that cannot be read, and how long they take.
use super::clocks::{Paced, Plan, Times, second};
use super::either::{Either, TIMED, block, done, long, pending_after, refused};
use super::watch::{beside, within};
use super::{Threaded, expect_equal_at, expect_true};
use named_calls::{Call, Outcome, Way};
use std::sync::atomic::{AtomicBool, Ordering};
use std::thread;
use std::time::{Duration, Instant};

// Nobody can tell when the time is over, and a wait without end is not what was asked for.
fn wait_without_a_clock<R: Threaded>(rt: &R, call: Call, first: u64, limit: Duration) {
    let times = Times::new(Plan::FailsFrom(first));
    let paced = Paced::new(rt, &times);
    let (blocked, other) = block(&paced, rt.alloc(), call);
    let late = within(rt, ("a limit without a clock", (call, first, limit)), || {
        blocked.make(&paced, rt.alloc(), call, limit)
    });
    expect_equal_at(rt, (call, first), late, refused(call, Outcome::Timeout));
    if first == 0 {
        // What can be done at once is done.
        expect_true(rt, other.help() && other.bring(call), "the channel is open");
        let then = blocked.make(&paced, rt.alloc(), call, limit);
        expect_equal_at(rt, call, then, done(call));
    }
}

#[test]
fn without_a_clock_a_limit_is_over(rt: HostRuntime) {
    for call in TIMED {
        // The deadline of a call that has one is a reading too.
        if call.way() == Way::Timeout {
            for limit in [Duration::ZERO, long(), Duration::MAX] {
                wait_without_a_clock(&rt, call, 0, limit);
            }
        }
        for first in 1..5u64 {
            wait_without_a_clock(&rt, call, first, second());
        }
    }
}

// Wakes the waiting thread after this time, and takes away what it was woken for. Returns whether
// the thread still waited and found nothing.
fn wakes_in_vain<R: Threaded>(
    rt: &R,
    ends: &(Either<R>, Either<R>),
    after: Duration,
    has_answered: &AtomicBool,
) -> bool {
    let (blocked, other) = ends;
    thread::sleep(rt, after);
    !has_answered.load(Ordering::SeqCst) && other.help() && blocked.help()
}

// How long a call with this limit waits, if it is woken in vain after `wake`. It takes or sends
// nothing later. None if the wake was not in vain.
fn measure<R: Threaded>(
    rt: &R,
    call: Call,
    limit: Duration,
    wake: Option<Duration>,
) -> Option<Duration> {
    let ends = block(rt, rt.alloc(), call);
    let (blocked, other) = &ends;
    let has_answered = AtomicBool::new(false);
    let ((answer, took), is_in_vain) = beside(
        rt,
        ("the end of a limit", call),
        || {
            let begun = Instant::now(rt).expect(rt, "a clock");
            let answer = blocked.make(rt, rt.alloc(), call, limit);
            let took = begun.elapsed(rt).expect(rt, "a clock");
            has_answered.store(true, Ordering::SeqCst);
            (answer, took)
        },
        || wake.is_none_or(|after| wakes_in_vain(rt, &ends, after, &has_answered)),
    );
    if !is_in_vain {
        return None;
    }
    let got = (answer, blocked.len(), other.help(), blocked.len());
    let wanted = (
        refused(call, Outcome::Timeout),
        pending_after(call),
        true,
        1,
    );
    expect_equal_at(rt, (call, limit), got, wanted);
    Some(took)
}

// One limit is over before a thread can park. Of some tries of the others the shortest counts,
// since a busy machine makes each of them longer. A thread that is woken in vain has no more time.
#[test]
fn a_limit_takes_its_time_and_not_twice_as_long(rt: HostRuntime) {
    for call in TIMED {
        measure(&rt, call, Duration::from_nanos(1), None);
        for (millis, wake) in [(30u64, None), (60, Some(Duration::from_millis(50)))] {
            let limit = Duration::from_millis(millis);
            let soon = limit.saturating_add(Duration::from_millis(15));
            let late = limit.saturating_add(Duration::from_millis(28));
            let mut least = long();
            for _ in 0..20u32 {
                if least >= soon {
                    let took = measure(&rt, call, limit, wake);
                    least = least.min(took.unwrap_or(long()));
                }
            }
            let is_right = limit <= least && least < late;
            expect_equal_at(&rt, (call, wake, least), is_right, true);
        }
    }
}

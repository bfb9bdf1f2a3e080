//! Which requests are refused or halted, when rounds end, and what a watch tells.
use super::*;
use std::fmt::Debug;
use std::process::Abort;
use std::sync::atomic::{AtomicU64, Ordering};
use std::thread;
use std::time::{Duration, Instant};
use watch::Watch;

/// `assert_eq!` in one round of a loop, proved once: each one in place takes seconds of the check.
fn expect_equal<N: Debug + Drop, X: PartialEq + Debug + Drop>(
    rt: &impl Abort,
    round: N,
    got: X,
    wanted: X,
) {
    assert_eq!(rt; got, wanted, "at {round:?}");
}

// Makes one request, and tells whether it was refused.
fn is_refused<A: Allocator>(alloc: A) -> bool {
    Vec::<u8, A>::with_capacity(alloc, 8).is_err()
}

#[test]
fn the_nth_request_and_no_other_is_refused(rt: HostRuntime) {
    let alloc = Refusing::new(rt.alloc());
    expect_equal(&rt, "none named", is_refused(&alloc), false);
    for n in 0..5u64 {
        alloc.refuse_nth(n);
        for request in 1..7u64 {
            expect_equal(&rt, (n, request), is_refused(&alloc), request == n);
        }
    }
    expect_equal(&rt, "the count", alloc.count(), 31);
}

#[test]
fn a_growth_or_a_shrinking_is_one_request(rt: HostRuntime) {
    let alloc = Refusing::new(rt.alloc());
    alloc.refuse_nth(2);
    let mut bytes = Vec::with_capacity(&alloc, 4).expect(&rt, "the first request");
    for byte in 0..4u8 {
        bytes.push(byte).expect(&rt, "room");
    }
    expect_equal(&rt, "a growth", bytes.push(4).is_err(), true);
    expect_equal(&rt, 4, bytes.as_slice(), [0, 1, 2, 3].as_slice());
    alloc.refuse_nth(2);
    bytes.push(4).expect(&rt, "the first request");
    expect_equal(&rt, 5, bytes.as_slice(), [0, 1, 2, 3, 4].as_slice());
    expect_equal(&rt, "a growth", bytes.reserve(100).is_err(), true);
    expect_equal(&rt, 5, bytes.as_slice(), [0, 1, 2, 3, 4].as_slice());
    alloc.refuse_nth(2);
    bytes.shrink_to_fit();
    expect_equal(&rt, "behind a shrinking", is_refused(&alloc), true);
}

#[test]
fn all_are_refused_until_none_is(rt: HostRuntime) {
    let alloc = Refusing::new(rt.alloc());
    for round in 0..2u32 {
        alloc.refuse_all();
        expect_equal(&rt, round, [(); 3].map(|()| is_refused(&alloc)), [true; 3]);
        let is_empty_made = Vec::<u8, _>::with_capacity(&alloc, 0).is_ok();
        expect_equal(
            &rt,
            round,
            (is_empty_made, alloc.refuse_none()),
            (true, false),
        );
        expect_equal(&rt, round, [(); 3].map(|()| is_refused(&alloc)), [false; 3]);
    }
}

#[test]
fn refuse_none_tells_whether_the_nth_was_still_to_come(rt: HostRuntime) {
    let alloc = Refusing::new(rt.alloc());
    expect_equal(&rt, "none named", alloc.refuse_none(), false);
    for (n, requests, to_come) in [
        (0, 0, false),
        (0, 2, false),
        (1, 0, true),
        (1, 1, false),
        (3, 2, true),
        (3, 3, false),
        (3, 5, false),
    ] {
        alloc.refuse_nth(n);
        for _ in 0..requests {
            let _ = is_refused(&alloc);
        }
        expect_equal(&rt, (n, requests), alloc.refuse_none(), to_come);
        expect_equal(&rt, (n, requests), alloc.refuse_none(), false);
        expect_equal(&rt, (n, requests), is_refused(&alloc), false);
    }
}

#[test]
fn only_what_is_not_refused_is_passed_on(rt: HostRuntime) {
    let inner = Refusing::new(rt.alloc());
    let outer = Refusing::new(&inner);
    inner.refuse_nth(2);
    outer.refuse_nth(2);
    let refused = [(); 4].map(|()| is_refused(&outer));
    expect_equal(&rt, "both", refused, [false, true, true, false]);
    expect_equal(&rt, "the counts", (outer.count(), inner.count()), (4, 3));
}

// The other thread looks while the second request is halted, and lets it go.
#[test]
fn a_request_is_halted_until_it_is_let_go(rt: HostRuntime) {
    let alloc = Refusing::new(rt.alloc());
    alloc.hold_nth(2);
    expect_equal(
        &rt,
        1,
        (is_refused(&alloc), alloc.is_holding()),
        (false, false),
    );
    alloc.refuse_nth(1);
    let (was_refused, count) = thread::join(
        &rt,
        || is_refused(&alloc),
        || {
            for _ in 0..u64::MAX {
                if alloc.is_holding() {
                    break;
                }
                thread::yield_now();
            }
            let count = alloc.count();
            alloc.let_go();
            count
        },
    );
    expect_equal(&rt, 2, (was_refused, count), (true, 1));
    expect_equal(
        &rt,
        3,
        (is_refused(&alloc), alloc.is_holding()),
        (false, false),
    );
}

#[test]
fn rounds_refuse_each_request_once(rt: HostRuntime) {
    let alloc = Refusing::new(rt.alloc());
    let mut refused = Vec::new(rt.alloc());
    for round in alloc.rounds() {
        let n = round.expect(&rt, "a round");
        expect_equal(&rt, n, is_refused(&alloc), false);
        alloc.refuse_nth(n);
        let three = [(); 3].map(|()| is_refused(&alloc));
        refused.push(three).expect(&rt, "memory");
        expect_equal(
            &rt,
            n,
            (alloc.refuse_none(), is_refused(&alloc)),
            (n == 4, false),
        );
    }
    let wanted = [
        [true, false, false],
        [false, true, false],
        [false, false, true],
        [false, false, false],
    ];
    expect_equal(&rt, "all", refused.as_slice(), wanted.as_slice());
}

#[test]
fn a_round_need_not_ask_whether_its_refusal_came(rt: HostRuntime) {
    let alloc = Refusing::new(rt.alloc());
    let mut last = 0;
    for round in alloc.rounds() {
        last = round.expect(&rt, "a round");
        alloc.refuse_nth(last);
        let _ = [(); 2].map(|()| is_refused(&alloc));
    }
    expect_equal(&rt, "the end", (last, is_refused(&alloc)), (3, false));
}

#[test]
fn rounds_without_a_request_are_an_error(rt: HostRuntime) {
    let alloc = Refusing::new(rt.alloc());
    for asks in [false, true] {
        let mut rounds = alloc.rounds();
        expect_equal(&rt, asks, rounds.next(), Some(Ok(1)));
        alloc.refuse_nth(1);
        if asks {
            expect_equal(&rt, asks, alloc.refuse_none(), true);
        }
        expect_equal(&rt, asks, rounds.next(), Some(Err(Vacuous::NoRequest)));
        expect_equal(&rt, asks, rounds.next(), None);
    }
}

#[test]
fn rounds_without_an_end_are_an_error(rt: HostRuntime) {
    let alloc = Refusing::new(rt.alloc());
    let mut rounds = alloc.rounds();
    for n in 1..=1000u64 {
        expect_equal(&rt, n, rounds.next(), Some(Ok(n)));
        alloc.refuse_all();
    }
    expect_equal(
        &rt,
        "behind the last",
        rounds.next(),
        Some(Err(Vacuous::NoEnd)),
    );
    expect_equal(&rt, "behind the end", rounds.next(), None);
}

// The third step ends once the watch has told it, or after 20 seconds.
#[test]
fn a_step_that_lasts_too_long_is_told(rt: HostRuntime) {
    let told = AtomicU64::new(0);
    let watch = Watch::with(0, 2);
    watch.over(
        &rt,
        |step| told.store(*step, Ordering::SeqCst),
        || {
            watch.begin(&rt, 2);
            watch.begin(&rt, 3);
            for _ in 0..20_000u32 {
                if told.load(Ordering::SeqCst) != 0 {
                    break;
                }
                thread::sleep(&rt, Duration::from_millis(1));
            }
        },
    );
    expect_equal(&rt, "the third step", told.load(Ordering::SeqCst), 3);
}

// Each step lasts long enough for the watching thread to park. Twenty pauses would take five
// seconds.
#[test]
fn the_end_of_the_steps_ends_the_watch_at_once(rt: HostRuntime) {
    let start = Instant::now(&rt).expect(&rt, "a clock");
    for round in 0..20u32 {
        let fail = |_: &u32| expect_equal(&rt, round, "in time", "too long");
        Watch::new(round).over(&rt, fail, || {
            thread::sleep(&rt, Duration::from_millis(5))
        });
    }
    let took = start.elapsed(&rt).expect(&rt, "a clock");
    expect_equal(&rt, took, took < Duration::from_millis(2500), true);
}

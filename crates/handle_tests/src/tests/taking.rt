//! How often a call asks the test that chooses messages, and where the test is dropped.
use super::expect_equal;
use super::script::Host;
use async_priority_channel::{Receiver, unbounded};
use refusing::watch::Watch;
use std::cell::Cell;

#[test]
fn the_test_is_asked_as_often_as_is_said(rt: HostRuntime) {
    let (tx, rx) = unbounded(&rt, rt.alloc()).expect(&rt, "a channel");
    for msg in 0..10u64 {
        expect_equal(&rt, tx.try_send(msg, 0), Ok(()));
    }
    let asked = Cell::new(0u64);
    let count = |answer: bool| {
        asked.set(asked.get().wrapping_add(1));
        answer
    };
    // Of each at most once.
    let changed = rx.change_priority(|msg, _| count(*msg > 4), 1);
    expect_equal(&rt, (changed, asked.replace(0) <= 10), (Some(0), true));
    expect_equal(&rt, rx.change_priority(|_, _| count(false), 1), None);
    expect_equal(&rt, asked.replace(0), 10);
    // Of each once, where the most urgent is wanted, and of a fold.
    expect_equal(&rt, rx.try_recv_where(|_, _| count(false)), Ok(None));
    expect_equal(&rt, asked.replace(0), 10);
    let folded = rx.fold_pending(true, |is_so, _, _| is_so && count(true));
    expect_equal(&rt, (folded, asked.replace(0)), (true, 10));
    // Of each once, where it tells false; of none after it told true; and of each that may stay.
    expect_equal(&rt, rx.take_where(|_, _| count(false)), None);
    expect_equal(&rt, asked.replace(0), 10);
    expect_equal(&rt, rx.take_where(|_, _| count(true)).is_some(), true);
    expect_equal(&rt, asked.replace(0), 1);
    let taken = rx.retain(|msg, _| count(*msg % 2 == 0));
    let taken = taken.expect(&rt, "memory").len() as u64;
    expect_equal(&rt, taken.saturating_add(rx.len()), 9);
    expect_equal(&rt, asked.replace(0), 9);
}

// What a test owns is dropped with it.
fn owns<X>(_what: &X) -> bool {
    true
}

fn another<R: Host>(rt: &R, rx: &Receiver<char, i64, R>) -> Receiver<char, i64, R> {
    rx.clone().expect(rt, "a receiver")
}

// A drop under the lock would wait for it for ever.
fn drop_each_test<R: Host>(rt: &R, watch: &Watch<&'static str>) {
    let (tx, rx) = unbounded(rt, rt.alloc()).expect(rt, "a channel");
    expect_equal(rt, tx.try_send('a', 1), Ok(()));
    expect_equal(rt, tx.try_send('b', 0), Ok(()));
    watch.begin(rt, "change_priority");
    let other = another(rt, &rx);
    let changed = rx.change_priority(move |_, _| owns(&other), 2);
    expect_equal(rt, changed, Some(1));
    watch.begin(rt, "count_where");
    let other = another(rt, &rx);
    expect_equal(rt, rx.count_where(move |_, _| owns(&other)), 2);
    watch.begin(rt, "fold_pending");
    let other = another(rt, &rx);
    let folded = rx.fold_pending(true, move |is_so, _, _| is_so && owns(&other));
    expect_equal(rt, folded, true);
    watch.begin(rt, "retain");
    let other = another(rt, &rx);
    expect_equal(rt, rx.retain(move |_, _| owns(&other)).is_ok(), true);
    watch.begin(rt, "try_recv_if");
    let other = another(rt, &rx);
    let received = rx.try_recv_if(move |_, _| owns(&other));
    expect_equal(rt, received, Ok(Some(('a', 2))));
    expect_equal(rt, tx.try_send('c', 1), Ok(()));
    watch.begin(rt, "try_recv_where");
    let other = another(rt, &rx);
    let received = rx.try_recv_where(move |_, _| owns(&other));
    expect_equal(rt, received, Ok(Some(('c', 1))));
    watch.begin(rt, "take_where");
    let other = another(rt, &rx);
    let taken = rx.take_where(move |_, _| owns(&other));
    expect_equal(rt, taken, Some(('b', 0)));
    // A look at nothing does not use up its function.
    watch.begin(rt, "peek_with");
    let other = another(rt, &rx);
    let looked = rx.peek_with(move |_, _| owns(&other));
    expect_equal(rt, (looked, rx.receiver_count()), (None, 1));
}

#[test]
fn the_test_is_dropped_once_the_lock_is_free(rt: HostRuntime) {
    let watch = Watch::brief("");
    let fail = |call: &&str| panic!(rt; "the test of {call} is dropped under the lock");
    watch.over(&rt, fail, || drop_each_test(&rt, &watch));
}

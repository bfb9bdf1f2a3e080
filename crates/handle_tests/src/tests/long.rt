//! Long runs: nothing changes after many messages or waits.
use super::script::Host;
use super::{expect_equal, expect_equal_at, is_pending, wait_for};
use async_priority_channel::{Ends, bounded, unbounded};
use futures::test::MockTask;
use std::sync::atomic::{AtomicU64, Ordering};

// More than a million, and than 2^20.
const MANY: u64 = 1_050_000;

// More than 2^16.
const SOME: u64 = 66_000;

fn message(number: u64) -> (u64, u64) {
    (number, 0)
}

#[test]
fn many_waits_leave_room_for_more(rt: HostRuntime) {
    let first = MockTask::new(&rt).expect(&rt, "a task");
    let others = MockTask::new(&rt).expect(&rt, "a task");
    let last = MockTask::new(&rt).expect(&rt, "a task");
    let (tx, rx) = bounded(&rt, rt.alloc(), 1).expect(&rt, "a channel");
    for round in 0..SOME {
        expect_equal_at(&rt, round, is_pending(others.poll(&mut rx.recv())), true);
    }
    let mut one = rx.recv();
    expect_equal(&rt, is_pending(first.poll(&mut one)), true);
    let mut between = Vec::new(rt.alloc());
    for round in 0..SOME {
        let mut receiving = rx.recv();
        expect_equal_at(&rt, round, is_pending(others.poll(&mut receiving)), true);
        between.push(receiving).expect(&rt, "memory for the list");
    }
    let mut another = rx.recv();
    expect_equal(&rt, is_pending(last.poll(&mut another)), true);
    others.enter(|_| {});
    expect_equal(&rt, tx.try_send(1u64, 1u64), Ok(()));
    let are_woken = (first.is_woken(), others.is_woken(), last.is_woken());
    expect_equal(&rt, are_woken, (true, true, true));
    drop(between);
}

// Two more than many are pending, and each call does what it does beside few.
fn expect_as_beside_few<R: Host>(rt: &R, ends: Ends<u64, u64, R>) {
    let (tx, rx) = ends;
    let sent = tx.try_sendv((0..MANY).map(message).peekable());
    expect_equal(rt, sent.is_ok(), true);
    expect_equal(rt, tx.try_send(7, 7), Ok(()));
    expect_equal(rt, tx.try_send_evicting(8, 8), Ok(None));
    let weak = rx.downgrade().expect(rt, "a weak handle");
    expect_equal(rt, weak.upgrade().is_some(), true);
    expect_equal(rt, (rx.len(), rx.is_empty()), (MANY + 2, false));
    expect_equal(rt, rx.peek_priority(), Ok(Some(8)));
    expect_equal(rt, rx.peek_with(|msg, _| *msg), Some(8));
    expect_equal(rt, rx.take_where(|msg, _| *msg == 1), Some((1, 0)));
    let changed = rx.change_priority(|msg, _| *msg == 2, 9);
    expect_equal(rt, changed, Some(0));
    for wanted in [(2, 9), (8, 8), (7, 7)] {
        expect_equal(rt, rx.try_recv(), Ok(wanted));
    }
    // All but two thousand go.
    let taken = rx.retain(|msg, _| *msg % 525 == 0);
    let taken = taken.expect(rt, "memory for what is taken").len() as u64;
    expect_equal(rt, (taken, rx.len()), (MANY - 2002, 2000));
    expect_equal(rt, rx.try_recv(), Ok((0, 0)));
}

#[test]
fn a_million_messages_are_pending(rt: HostRuntime) {
    expect_as_beside_few(&rt, unbounded(&rt, rt.alloc()).expect(&rt, "a channel"));
    let ends = bounded(&rt, rt.alloc(), MANY + 2).expect(&rt, "a channel");
    expect_as_beside_few(&rt, ends);
}

// In one step each, and by one batch, one loop or one stream.
#[test]
fn many_messages_come_in_one_go(rt: HostRuntime) {
    let (tx, rx) = bounded(&rt, rt.alloc(), SOME).expect(&rt, "a channel");
    let sent = tx.try_sendv((0..SOME).map(message).peekable());
    expect_equal(&rt, sent.is_ok(), true);
    let mut batch = Vec::new(rt.alloc());
    let count = SOME as usize;
    expect_equal(&rt, rx.try_recv_many(&mut batch, usize::MAX), Ok(count));
    let sent = wait_for(&rt, tx.sendv((0..SOME).map(message).peekable()));
    expect_equal(&rt, sent.is_ok(), true);
    expect_equal(&rt, rx.try_iter().count(), count);
    let sent = tx.sendv_blocking((0..SOME).map(message).peekable());
    expect_equal(&rt, (sent.is_ok(), tx.close()), (true, true));
    expect_equal(&rt, rx.iter().count(), count);
}

// A message that counts its drops.
struct Counted<'a> {
    drops: &'a AtomicU64,
}

impl Drop for Counted<'_> {
    fn drop(self) {
        let Counted { drops } = self;
        drops.fetch_add(1, Ordering::SeqCst);
    }
}

// But not what was received before.
#[test]
fn the_last_receiver_lets_all_go(rt: HostRuntime) {
    let drops = AtomicU64::new(0);
    let (tx, rx) = unbounded(&rt, rt.alloc()).expect(&rt, "a channel");
    for _ in 0..SOME {
        let sent = tx.try_send(Counted { drops: &drops }, 1u64);
        expect_equal(&rt, sent.is_ok(), true);
    }
    drop(rx.close_on_drop());
    let received = rx.try_recv();
    expect_equal(
        &rt,
        (received.is_ok(), drops.load(Ordering::SeqCst)),
        (true, 0),
    );
    drop(rx);
    expect_equal(&rt, drops.load(Ordering::SeqCst), SOME - 1);
    expect_equal(&rt, tx.is_empty(), true);
    drop(received);
}

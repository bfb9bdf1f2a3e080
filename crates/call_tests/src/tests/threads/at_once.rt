//! Calls that threads make at the same moment, again and again: each is one step.
use crate::tests::watch::{under_load, within};
use crate::tests::{Threaded, expect_equal_at, new_task};
use async_priority_channel::{RecvError, RecvFault, TryRecvManyError, bounded};
use named_calls::ready;
use std::sync::atomic::{AtomicUsize, Ordering};
use std::thread;

const ROUNDS: u64 = 400;

// How many threads close a channel.
const CLOSES: usize = 16;

// Waits until `count` threads have arrived. It does not sleep, so that they go on at the same
// moment. The watchdog of each test limits the wait.
fn meet(arrived: &AtomicUsize, count: usize) {
    arrived.fetch_add(1, Ordering::SeqCst);
    for _ in 0..u64::MAX {
        if arrived.load(Ordering::SeqCst) >= count {
            return;
        }
        thread::yield_now();
    }
}

fn at_once<R, F, G, X, Y>(rt: &R, first: F, second: G) -> (X, Y)
where
    R: Threaded,
    F: FnOnce() -> X + Send,
    G: FnOnce() -> Y,
    X: Send,
    requires { F.pre first × G.pre second }
{
    let arrived = AtomicUsize::new(0);
    let arrived = &arrived;
    thread::join(
        rt,
        move ||
            requires { F.pre first }
        {
            meet(arrived, 2);
            first()
        },
        move ||
            requires { G.pre second }
        {
            meet(arrived, 2);
            second()
        },
    )
}

// Senders and receivers close, beside a task that waits for a message and one that waits for the
// close.
fn close_by_many<R: Threaded>(rt: &R, round: u64) {
    let (tx, rx) = bounded::<u64, u64, _, _>(rt, rt.alloc(), 1).expect(rt, "a channel");
    let (receiver, watcher) = (new_task(rt), new_task(rt));
    let (mut receiving, mut watching) = (rx.recv(), tx.closed());
    let waits = ready(receiver.poll(&mut receiving)).is_none()
        && ready(watcher.poll(&mut watching)).is_none();
    let arrived = AtomicUsize::new(0);
    let told = thread::map_indices(
        rt,
        rt.alloc(),
        CLOSES,
        &|number| {
            meet(&arrived, CLOSES);
            if number % 2 == 0 {
                tx.close()
            } else {
                rx.close()
            }
        },
    );
    let told = told.expect(rt, "memory");
    let count = told.iter().filter(|was_open| **was_open).count();
    let are_woken = receiver.is_woken() && watcher.is_woken();
    expect_equal_at(rt, round, (waits, count, are_woken), (true, 1, true));
    let received = ready(receiver.poll(&mut receiving));
    let watched = ready(watcher.poll(&mut watching));
    let wanted = (Some(Err(RecvFault::Closed(RecvError))), Some(Ok(())));
    expect_equal_at(rt, round, (received, watched), wanted);
}

#[test]
fn one_of_many_closes_the_channel(rt: HostRuntime) {
    for round in 0..ROUNDS / 4 {
        under_load(
            &rt,
            ("many closes at once", round),
            || close_by_many(&rt, round),
        );
    }
}

// The last sender is dropped while a weak handle makes another. That one is of an open channel, or
// is not made.
fn upgrade_beside_a_drop<R: Threaded>(rt: &R, round: u64) {
    let (tx, rx) = bounded::<u64, u64, _, _>(rt, rt.alloc(), 1).expect(rt, "a channel");
    let weak = tx.downgrade().expect(rt, "a weak handle");
    let ((), upgraded) = at_once(rt, move || drop(tx), || weak.upgrade());
    expect_equal_at(rt, round, upgraded.is_some(), !rx.is_closed());
}

// A message is sent while a batch is received. The batch has room for it, or finds nothing.
fn receive_beside_a_send<R: Threaded>(rt: &R, round: u64) {
    let (tx, rx) = bounded(rt, rt.alloc(), 1).expect(rt, "a channel");
    let mut batch = Vec::new(rt.alloc());
    let send = || tx.try_send(7u64, 7u64);
    let (sent, received) = at_once(rt, send, || rx.try_recv_many(&mut batch, 3));
    let is_right = matches!(&received, Ok(1) | Err(TryRecvManyError::Empty));
    expect_equal_at(rt, (round, received), (sent, is_right), (Ok(()), true));
}

#[test]
fn one_of_two_calls_comes_first(rt: HostRuntime) {
    for round in 0..ROUNDS {
        within(&rt, ("two calls at once", round), || {
            upgrade_beside_a_drop(&rt, round);
            receive_beside_a_send(&rt, round);
        });
    }
}

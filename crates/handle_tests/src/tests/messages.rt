//! Messages that are handles of another channel, have no size, or have a large one.
use super::expect_equal;
use async_priority_channel::{TryRecvError, TrySendError, bounded, unbounded};

// A message is a sender of another channel, whose count shows whether the message is in memory.
#[test]
fn what_is_pending_stays_as_long_as_any_handle(rt: HostRuntime) {
    let (held, answers) = unbounded::<u64, u64, _, _>(&rt, rt.alloc()).expect(&rt, "a channel");
    let (tx, rx) = unbounded(&rt, rt.alloc()).expect(&rt, "a channel");
    let weak = tx.downgrade().expect(&rt, "a weak handle");
    let clone = weak.clone().expect(&rt, "a weak handle");
    expect_equal(&rt, tx.try_send(held, 1u64).is_ok(), true);
    drop((tx, rx, weak));
    expect_equal(&rt, answers.sender_count(), 1);
    drop(clone);
    expect_equal(&rt, answers.try_recv(), Err(TryRecvError::Closed));
}

#[test]
fn messages_may_have_no_size_or_a_large_one(rt: HostRuntime) {
    let (tx, rx) = bounded(&rt, rt.alloc(), 3).expect(&rt, "a channel");
    for _ in 0..3 {
        expect_equal(&rt, tx.try_send((), ()), Ok(()));
    }
    expect_equal(&rt, tx.try_send((), ()), Err(TrySendError::Full(((), ()))));
    for _ in 0..3 {
        expect_equal(&rt, rx.try_recv(), Ok(((), ())));
    }
    expect_equal(&rt, rx.try_recv(), Err(TryRecvError::Empty));
    let (tx, rx) = bounded(&rt, rt.alloc(), u64::MAX).expect(&rt, "a channel");
    for number in 0..9u64 {
        expect_equal(&rt, tx.try_send([number; 200], number % 3), Ok(()));
    }
    for number in [2u64, 5, 8, 1, 4, 7, 0, 3, 6] {
        expect_equal(&rt, rx.try_recv(), Ok(([number; 200], number % 3)));
    }
}

// Also what comes after the loop has begun, until nothing is pending.
#[test]
fn a_loop_that_does_not_wait_brings_what_is_pending_then(rt: HostRuntime) {
    let (tx, rx) = unbounded(&rt, rt.alloc()).expect(&rt, "a channel");
    let mut pending = rx.try_iter();
    for msg in ['a', 'b'] {
        expect_equal(&rt, tx.try_send(msg, 0u64), Ok(()));
        expect_equal(&rt, pending.next(), Some((msg, 0)));
    }
    expect_equal(&rt, pending.next(), None);
}

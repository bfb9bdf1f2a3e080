//! A bulk call is one step beside those of other threads.
use crate::tests::watch::{beside, under_load};
use crate::tests::{Host, expect_equal_at};
use async_priority_channel::{Receiver, Sender, TryRecvManyError, bounded};
use refusing::watch::let_others_wait;
use std::sync::atomic::{AtomicBool, Ordering};
use std::thread;

// Sends six by one call, again and again. Tells how often another number than four was sent.
fn send_sixes<R: Host>(tx: &Sender<u64, u64, R>, is_over: &AtomicBool) -> u64 {
    let mut odd = 0u64;
    for _ in 0..u64::MAX {
        let six = [(0, 0), (1, 1), (2, 2), (3, 3), (4, 4), (5, 5)]
            .into_iter()
            .peekable();
        let left = tx
            .try_sendv(six)
            .map_err(|error| error.into_inner().count());
        odd = odd.saturating_add((left != Err(2) && left != Err(6)) as u64);
        if is_over.load(Ordering::SeqCst) {
            break;
        }
    }
    odd
}

// Receives up to four by one call, again and again. Tells how often another number than four came.
fn receive_fours<R: Host>(rt: &R, rx: &Receiver<u64, u64, R>) -> u64 {
    let mut odd = 0u64;
    let mut batch = Vec::new(rt.alloc());
    for _ in 0..50_000u32 {
        batch.clear();
        // Memory is reserved before, so that what comes meanwhile has some too.
        batch.reserve(4).expect(rt, "memory for a batch");
        match rx.try_recv_many(&mut batch, 4) {
            Ok(4) | Err(TryRecvManyError::Empty) => {}
            _ => odd = odd.saturating_add(1),
        }
    }
    odd
}

// One thread sends by one call more than there is room for, while another receives all that is
// pending: one step finds room for four or for none, and four messages or none.
#[test]
fn a_bulk_call_is_one_step(rt: HostRuntime) {
    let is_over = AtomicBool::new(false);
    let (tx, rx) = bounded(&rt, rt.alloc(), 4).expect(&rt, "a channel");
    let odd = under_load(&rt, "many bulk calls", || {
        thread::join(
            &rt,
            || send_sixes(&tx, &is_over),
            || {
                let odd = receive_fours(&rt, &rx);
                is_over.store(true, Ordering::SeqCst);
                odd
            },
        )
    });
    expect_equal_at(&rt, "calls that were split", odd, (0, 0));
}

// What comes in one step comes at once, the greatest first, up to the limit, and no more is waited
// for.
#[test]
fn a_batch_that_was_waited_for_is_all_of_one_step(rt: HostRuntime) {
    for (sent, came) in [
        (1, [('c', 3)].as_slice()),
        (3, [('c', 3), ('b', 2)].as_slice()),
    ] {
        let (tx, rx) = bounded(&rt, rt.alloc(), 3).expect(&rt, "a channel");
        let mut batch = Vec::new(rt.alloc());
        let got = beside(
            &rt,
            ("a batch that a send has to bring", sent),
            || rx.recv_many_blocking(&mut batch, 2),
            || {
                let_others_wait(&rt);
                let three = [('c', 3u64), ('b', 2), ('a', 1)];
                tx.try_sendv(three.into_iter().take(sent).peekable())
                    .is_ok()
            },
        );
        expect_equal_at(&rt, sent, got, (Ok(came.len()), true));
        expect_equal_at(&rt, sent, batch.as_slice(), came);
    }
}

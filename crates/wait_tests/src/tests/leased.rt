//! Threads that wait in a closed channel for what others have in hand.
use super::either::{Answer, Either, closed, done, long};
use super::watch::beside;
use super::{Threaded, expect_equal_at, expect_true};
use async_priority_channel::{Receiver, Sender, bounded};
use named_calls::{ALL, Call, Side, is_for_close};
use refusing::watch::{let_others_wait, wait_until};
use std::sync::atomic::{AtomicBool, Ordering};

// Of so many wakes one at least is in vain. On an idle machine the first one is.
const TRIES: u32 = 50;

// Takes a message in hand, closes the channel, and puts the message back once a thread waits. That
// wakes it, in vain: the message is received at once. Tells whether it waits on, if it was slower.
fn wake_in_vain<R: Threaded>(
    rt: &R,
    tx: &Sender<u64, u64, R>,
    rx: &Receiver<u64, u64, R>,
    has_answered: &AtomicBool,
) -> Option<bool> {
    let lease = rx.try_lease().expect(rt, "a message is pending");
    expect_true(rt, tx.close(), "it was open");
    let_others_wait(rt);
    drop(lease);
    let is_in_vain = rx.try_recv().is_ok();
    let_others_wait(rt);
    is_in_vain.then_some(!has_answered.load(Ordering::SeqCst))
}

// Another message is in hand all the while, and is then put back or finished. Tells also what the
// thread answers in the end. No function has both leases, and no closure.
fn wait_for_the_other<R: Threaded>(
    rt: &R,
    call: Call,
    is_finished: bool,
) -> Option<(bool, Answer)> {
    let (tx, rx) = bounded(rt, rt.alloc(), 2).expect(rt, "a channel");
    let holder = rx.clone().expect(rt, "a receiver");
    let other = rx.clone().expect(rt, "a receiver");
    let could = tx.try_send(7, 7).is_ok() && tx.try_send(7, 7).is_ok();
    expect_true(rt, could, "there is room");
    let lease = holder.try_lease().expect(rt, "a message is pending");
    let waiting = Either::Receiver(rx);
    let has_answered = AtomicBool::new(false);
    let (answer, waits_on) = beside(
        rt,
        ("what another one has in hand", (call, is_finished)),
        || {
            wait_until(rt, || tx.is_closed());
            let answer = waiting.make(rt, rt.alloc(), call, long());
            has_answered.store(true, Ordering::SeqCst);
            answer
        },
        || {
            let waits_on = wake_in_vain(rt, &tx, &other, &has_answered);
            if is_finished {
                lease.finish();
            } else {
                drop(lease);
            }
            waits_on
        },
    );
    waits_on.map(|is_so| (is_so, answer))
}

#[test]
fn a_wake_in_vain_ends_no_wait_in_a_closed_channel(rt: HostRuntime) {
    for call in ALL {
        if !call.waits() || call.side() != Side::Receiver || is_for_close(call) {
            continue;
        }
        for (is_finished, answer) in [(false, done(call)), (true, closed(call))] {
            let told = (0..TRIES).find_map(|_| wait_for_the_other(&rt, call, is_finished));
            expect_equal_at(&rt, (call, is_finished), told, Some((true, answer)));
        }
    }
}

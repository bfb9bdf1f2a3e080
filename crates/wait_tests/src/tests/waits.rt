//! What ends a wait: a call of the other side, a close by either, and the drop of the other side's
//! last handle.
use super::either::{Either, block, closed, done, long, pending_after};
use super::watch::beside;
use super::{Threaded, expect_equal_at, expect_true, new_task};
use async_priority_channel::bounded;
use futures::executor::block_on;
use named_calls::{ALL, Call, Way, is_for_close, ready};
use refusing::watch::{let_others_wait, wait_until};
use std::sync::atomic::{AtomicBool, Ordering};
use std::time::Duration;

#[derive(Clone, Copy, Debug)]
enum End {
    Partner,
    // of the other side, or its own
    Close,
    OwnClose,
    LastDrop,
}

const ENDS: [End; 4] = [End::Partner, End::Close, End::OwnClose, End::LastDrop];

// A limit past the range of the clock is none.
fn limit_of(call: Call) -> Duration {
    match call.way() {
        Way::Timeout => Duration::MAX,
        _ => long(),
    }
}

// Ends a wait, once it is on. Tells whether it could, and gives the handle back if it is left.
fn end_wait<R: Threaded>(
    own: &Either<R>,
    other: Either<R>,
    call: Call,
    end: End,
) -> (bool, Option<Either<R>>) {
    let could = match end {
        // Nothing else is to end the wait than the drop of the last handle.
        End::LastDrop => return (true, None),
        End::Partner => other.bring(call),
        End::Close => other.close(),
        End::OwnClose => own.close(),
    };
    (could, Some(other))
}

fn wait_for_its_end<R: Threaded>(rt: &R, call: Call, end: End) {
    let (blocked, other) = block(rt, rt.alloc(), call);
    let has_answered = AtomicBool::new(false);
    let round = (call, end);
    let (answer, (could, left)) = beside(
        rt,
        ("the end of a wait", round),
        || {
            let answer = blocked.make(rt, rt.alloc(), call, limit_of(call));
            has_answered.store(true, Ordering::SeqCst);
            answer
        },
        || {
            // A bulk send has sent its 7 before it waits.
            wait_until(rt, || blocked.len() == pending_after(call));
            let_others_wait(rt);
            if is_for_close(call) {
                // A message that comes and goes is not what it waits for.
                expect_true(rt, other.help() && blocked.help(), "there is room");
                let_others_wait(rt);
                expect_true(rt, !has_answered.load(Ordering::SeqCst), "it waits on");
            }
            end_wait(&blocked, other, call, end)
        },
    );
    expect_true(rt, could, "what was to end the wait could be done");
    let by_partner = matches!(end, End::Partner);
    let wanted = if by_partner { done(call) } else { closed(call) };
    expect_equal_at(rt, round, answer, wanted);
    expect_equal_at(rt, round, blocked.len(), pending_after(call));
    // A second close is none.
    let is_open = by_partner && !is_for_close(call);
    expect_equal_at(rt, round, blocked.close(), is_open);
    drop(left);
}

#[test]
fn each_wait_ends_soon(rt: HostRuntime) {
    for call in ALL {
        if call.waits() {
            for end in ENDS {
                wait_for_its_end(&rt, call, end);
            }
        }
    }
}

// It was polled in a task of this thread first.
#[test]
fn a_future_goes_on_in_another_thread(rt: HostRuntime) {
    let (tx, rx) = bounded(&rt, rt.alloc(), 1).expect(&rt, "a channel");
    let mut receiving = rx.recv();
    let polled = new_task(&rt).poll(&mut receiving);
    expect_true(&rt, ready(polled).is_none(), "nothing was sent");
    let got = beside(
        &rt,
        "a receive that a send has to wake",
        move || block_on(&rt, receiving).expect(&rt, "an executor"),
        || {
            let_others_wait(&rt);
            tx.try_send(7u64, 1u64)
        },
    );
    expect_equal_at(&rt, "one message", got, (Ok((7, 1)), Ok(())));
}

//! Tasks that wait for a message that passes a test: each change after which one has to look again
//! wakes it, and a future that is dropped waits no more.
use super::cases::{ANY, BOTH, Case, ODD};
use super::hands::{Hands, Step};
use crate::tests::{Host, expect_equal_at, expect_true, new_task};
use async_priority_channel::{Receiver, Sender, bounded_reserved};
use futures::Future;
use named_calls::receiving::{finish, tell_one};
use named_calls::{Call, Outcome, Reply, Way, is_pending, ready, rest};
use std::alloc::Allocator;

const WAITING: [Call; 2] = [Call::RecvWhere(Way::Poll), Call::LeaseWhere(Way::Poll)];

// A message that passes as its priority is changed for the second time.
const RAISED: Case = (ODD, Step::Change(3, 10), Step::Change(3, 11), Some((3, 11)));

fn passes(msg: u64, priority: u64) -> bool {
    msg % 2 == 0 || priority > 10
}

// Polls it before the steps, between them, and after the second one, which has to wake the task.
// None if it did not wait until then.
fn poll_between<R: Host, A: Allocator + Copy, F: Future<Output: Drop>>(
    rt: &R,
    hands: &mut Hands<'_, R, A>,
    steps: (Step, Step),
    future: F,
) -> Option<F::Output>
    requires { F.can_poll future }
{
    let (meanwhile, at_last) = steps;
    let mut future = future;
    let task = new_task(rt);
    if !is_pending(&task, &mut future) {
        return None;
    }
    hands.take(rt, meanwhile);
    if !is_pending(&task, &mut future) {
        return None;
    }
    rest(&task);
    hands.take(rt, at_last);
    expect_true(rt, task.is_woken(), "it is woken");
    ready(task.poll(&mut future))
}

fn wait_between<R: Host, A: Allocator + Copy>(
    rt: &R,
    hands: &mut Hands<'_, R, A>,
    call: Call,
    steps: (Step, Step),
    rx: &Receiver<u64, u64, R, A>,
) -> Reply {
    if let Call::LeaseWhere(_) = call {
        let future = rx.lease_where(|msg, priority| passes(*msg, *priority));
        let answer = poll_between(rt, hands, steps, future);
        finish(rt, rx, answer)
    } else {
        let future = rx.recv_where(|msg, priority| passes(*msg, *priority));
        let answer = poll_between(rt, hands, steps, future);
        tell_one(rt, answer)
    }
}

fn wake<R: Host>(rt: &R, call: Call, case: Case) {
    let (before, meanwhile, at_last, came) = case;
    let (tx, rx) = bounded_reserved(rt, rt.alloc(), 4).expect(rt, "a channel");
    let mut hands = Hands::new(&tx, &rx);
    for step in before {
        hands.take(rt, step);
    }
    let reply = wait_between(rt, &mut hands, call, (meanwhile, at_last), &rx);
    let wanted = Reply::found(rt, came, Outcome::Closed);
    expect_equal_at(rt, (call, case), reply, wanted);
}

#[test]
fn what_changes_wakes_a_task_that_waits_with_a_condition(rt: HostRuntime) {
    for call in WAITING {
        wake(&rt, call, RAISED);
        for case in BOTH {
            wake(&rt, call, case);
        }
        for case in ANY {
            wake(&rt, call, case);
        }
    }
}

// Polls it once and drops it. Tells whether its task rests as a message comes that passes, and the
// message is left.
fn drop_waiting<R: Host, F: Future<Output: Drop>>(
    rt: &R,
    ends: (&Sender<u64, u64, R>, &Receiver<u64, u64, R>),
    future: F,
) -> bool
    requires { F.can_poll future }
{
    let (tx, rx) = ends;
    let mut future = future;
    let task = new_task(rt);
    let waits = is_pending(&task, &mut future);
    drop(future);
    rest(&task);
    let could = tx.try_send(4, 10).is_ok();
    waits && could && !task.is_woken() && rx.try_recv() == Ok((4, 10))
}

#[test]
fn a_dropped_future_takes_nothing_and_its_task_is_not_woken(rt: HostRuntime) {
    let (tx, rx) = bounded_reserved(&rt, rt.alloc(), 2).expect(&rt, "a channel");
    expect_true(&rt, tx.try_send(3, 9).is_ok(), "there is room");
    let received = rx.recv_where(|msg, _| *msg == 4);
    let is_gone = drop_waiting(&rt, (&tx, &rx), received);
    let leased = rx.lease_where(|msg, _| *msg == 4);
    let got = (is_gone, drop_waiting(&rt, (&tx, &rx), leased));
    expect_equal_at(&rt, "gone", got, (true, true));
}

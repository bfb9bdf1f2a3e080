//! Waits that were refused memory are in no list: what comes later wakes the next one that waits,
//! and no task that is gone.
use super::either::{Either, block, long, requests_of};
use super::places::{PLACES, Place, at};
use super::{Host, Memory, Threaded, expect_equal_at, expect_true, new_task};
use async_priority_channel::{Receiver, Sender};
use futures::Future;
use named_calls::{ALL, Call, Outcome, Way, is_for_close, is_pending, rest};
use refusing::Refusing;
use refusing::watch::{let_others_wait, wait_until};
use std::alloc::{Allocator, Global};
use std::thread;

// How a thread waits after one whose wait was refused.
const NEXT: [Way; 2] = [Way::Blocking, Way::Future];

// No poll makes as many requests.
const MOST: u64 = 10;

// How a wait is told, and one after it, and whether that one could be helped.
type Told = (Outcome, Outcome, bool);

// A wait is refused its nth request, and then another one waits. Each that is left gets its turn.
fn wait_after_a_refusal<R: Threaded, A: Allocator + Copy + Send + Sync>(
    rt: &R,
    (memory, alloc): Memory<'_, A>,
    round: (Call, u64, Place, Way),
) {
    let (call, _, place, _) = round;
    let ends = block(rt, alloc, call);
    let asked = memory.count().wrapping_add(place.requests_before());
    let (_, told) = at(
        rt,
        ("the wait after one without memory", round),
        place,
        (rt, alloc, call),
        (&ends.0, &ends.1),
        || {
            // No request of the call before is refused, however long it takes to wait.
            wait_until(rt, || memory.count() >= asked);
            refuse_and_wait_again(rt, (memory, alloc), round, &ends)
        },
    );
    expect_equal_at(rt, round, told, (Outcome::Memory, Outcome::Done, true));
}

fn refuse_and_wait_again<R: Threaded, A: Allocator + Copy + Send + Sync>(
    rt: &R,
    (memory, alloc): Memory<'_, A>,
    (call, n, place, next): (Call, u64, Place, Way),
    (blocked, other): &(Either<R, A>, Either<R, A>),
) -> Told {
    memory.refuse_nth(n);
    let refused = blocked.make(rt, alloc, call, long()).0;
    memory.refuse_none();
    let (answer, could) = thread::join(
        rt,
        || blocked.make(rt, alloc, call.side().call(next), long()).0,
        || {
            let_others_wait(rt);
            match place {
                Place::First => other.help(),
                Place::Second => other.help() && other.help(),
            }
        },
    );
    (refused, answer, could)
}

#[test]
fn the_next_wait_goes_on_after_one_without_memory(rt: HostRuntime) {
    for call in ALL {
        if is_for_close(call) || matches!(call, Call::Sendv(_)) {
            continue;
        }
        for n in 1..=requests_of(call).unwrap_or(0) {
            for place in PLACES {
                for next in NEXT {
                    let memory = Refusing::new(rt.alloc());
                    wait_after_a_refusal(&rt, (&memory, &memory), (call, n, place, next));
                }
            }
        }
    }
}

// A task whose poll is refused its nth request keeps its future, and another one waits. Tells
// whether there was such a request.
fn poll_after_a_refusal<R: Host, A: Allocator + Copy, F: Future<Output: Drop>>(
    rt: &R,
    memory: &Refusing<Global>,
    round: (Call, u64),
    futures: (F, F),
    other: &Either<R, A>,
) -> bool
    requires { F.can_poll futures.0 × F.can_poll futures.1 }
{
    let (mut first, mut second) = futures;
    let (gone, next) = (new_task(rt), new_task(rt));
    memory.refuse_nth(round.1);
    let has_ended = !is_pending(&gone, &mut first);
    let was_refused = !memory.refuse_none();
    rest(&gone);
    let waits = is_pending(&next, &mut second);
    expect_true(rt, other.help(), "the channel is open");
    if was_refused {
        let got = (has_ended, waits, gone.is_woken(), next.is_woken());
        expect_equal_at(rt, round, got, (true, true, false, true));
    }
    was_refused
}

fn refuse_a_poll<R: Host, A: Allocator + Copy>(
    rt: &R,
    (memory, alloc): Memory<'_, A>,
    round: (Call, u64),
) -> bool {
    let (blocked, other) = block(rt, alloc, round.0);
    match &blocked {
        Either::Sender(tx) => refuse_a_send(rt, memory, round, tx, &other),
        Either::Receiver(rx) => refuse_a_receive(rt, memory, round, rx, &other),
    }
}

fn refuse_a_send<R: Host, A: Allocator + Copy>(
    rt: &R,
    memory: &Refusing<Global>,
    round: (Call, u64),
    tx: &Sender<u64, u64, R, A>,
    other: &Either<R, A>,
) -> bool {
    match round.0 {
        Call::Reserve(_) => {
            poll_after_a_refusal(rt, memory, round, (tx.reserve(), tx.reserve()), other)
        }
        _send => poll_after_a_refusal(rt, memory, round, (tx.send(7, 7), tx.send(8, 8)), other),
    }
}

fn refuse_a_receive<R: Host, A: Allocator + Copy>(
    rt: &R,
    memory: &Refusing<Global>,
    round: (Call, u64),
    rx: &Receiver<u64, u64, R, A>,
    other: &Either<R, A>,
) -> bool {
    let is_odd = |msg: &u64, _: &u64| *msg % 2 == 1;
    match round.0 {
        Call::Lease(_) => poll_after_a_refusal(rt, memory, round, (rx.lease(), rx.lease()), other),
        Call::RecvWhere(_) => {
            let futures = (rx.recv_where(is_odd), rx.recv_where(is_odd));
            poll_after_a_refusal(rt, memory, round, futures, other)
        }
        Call::LeaseWhere(_) => {
            let futures = (rx.lease_where(is_odd), rx.lease_where(is_odd));
            poll_after_a_refusal(rt, memory, round, futures, other)
        }
        _receive => poll_after_a_refusal(rt, memory, round, (rx.recv(), rx.recv()), other),
    }
}

#[test]
fn a_task_without_memory_is_woken_by_nothing_that_comes(rt: HostRuntime) {
    for call in [
        Call::Send(Way::Poll),
        Call::Reserve(Way::Poll),
        Call::Recv(Way::Poll),
        Call::Lease(Way::Poll),
        Call::RecvWhere(Way::Poll),
        Call::LeaseWhere(Way::Poll),
    ] {
        let mut refused = 0u64;
        for n in 1..MOST {
            let memory = Refusing::new(rt.alloc());
            if refuse_a_poll(&rt, (&memory, &memory), (call, n)) {
                refused = refused.saturating_add(1);
            }
        }
        // At least the waiter and its entry.
        expect_equal_at(
            &rt,
            (call, refused),
            2 <= refused && refused < MOST - 1,
            true,
        );
    }
}

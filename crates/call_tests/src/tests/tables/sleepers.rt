//! What each call does to a thread that waits for a message with a condition: whether it wakes it,
//! and that it sleeps on otherwise.
use super::{Mirrored, input};
use crate::tests::watch::beside;
use crate::tests::{Memory, Threaded};
use async_priority_channel::bounded;
use named_calls::{ALL, Call, Input, Side, Way, receive};
use refusing::Refusing;
use refusing::watch::wait_until;
use std::alloc::Allocator;

const CAPACITY: u64 = 3;

// Nothing, the 3, and the 3 before the 2.
const PENDING: [(u64, u64); 3] = [(1, 0), (3, 1), (2, 2)];

// The call of the thread, which waits for an even number, what is pending, and the call beside it
// with its input.
type Round = (Call, (u64, u64), Call, Input);

// An even number of greatest priority, an odd one, and an even one of the least. Calls that make
// several steps make one, since the thread may act between two.
fn inputs() -> [Input; 3] {
    let (mut greatest, mut odd, mut least) = (input(10, 1, 1), input(11, 2, 1), input(0, 0, 1));
    greatest.chosen = 3;
    odd.chosen = 2;
    least.chosen = 3;
    [greatest, odd, least]
}

// Whether the call is one step for others, and leaves a handle to each side of the channel.
fn is_played(call: Call) -> bool {
    !matches!(
        call,
        Call::PutBack | Call::DropLease | Call::Drop(Side::Receiver)
    )
}

// Where the call does not end the wait, a close does once nothing is pending.
fn wake<R: Threaded, A: Allocator + Copy + Send + Sync>(
    rt: &R,
    (memory, alloc): Memory<'_, A>,
    round: Round,
) {
    let (waiting, (first, count), call, of_call) = round;
    let of_wait = input(0, 0, 1);
    let (tx, rx) = bounded(rt, alloc, CAPACITY).expect(rt, "a channel");
    let other = rx.clone().expect(rt, "a receiver");
    let mut mirrored = Mirrored::new(rt, alloc, (tx, other), CAPACITY, (1, 2));
    mirrored.agree(rt, round, Call::Sendv(Way::Try), input(first, count, 0));
    if mirrored.model.waits(call, of_call) || !mirrored.model.waits(waiting, of_wait) {
        return;
    }
    // The last of three requests lists the thread.
    let asked = memory.count().wrapping_add(3);
    let all = input(0, 0, 9);
    let (reply, ()) = beside(
        rt,
        round,
        || receive(rt, alloc, &rx, waiting, of_wait),
        || {
            wait_until(rt, || memory.count() >= asked);
            mirrored.agree(rt, round, call, of_call);
            if mirrored.model.waits(waiting, of_wait) {
                mirrored.agree(rt, round, Call::Look(Side::Receiver), all);
                mirrored.agree(rt, round, Call::Close(Side::Sender), all);
                mirrored.agree(rt, round, Call::RecvMany(Way::Try), all);
            }
        },
    );
    mirrored.expect(rt, round, (waiting, of_wait), reply);
    mirrored.agree(rt, round, Call::TryIter, all);
}

fn wake_by_each_call<R: Threaded>(rt: &R, waiting: Call) {
    for pending in PENDING {
        for call in ALL {
            for input in inputs() {
                if is_played(call) {
                    let memory = Refusing::new(rt.alloc());
                    let round = (waiting, pending, call, input);
                    wake(rt, (&memory, &memory), round);
                }
            }
        }
    }
}

#[test]
fn a_thread_is_woken_by_a_message_that_passes(rt: HostRuntime) {
    wake_by_each_call(&rt, Call::RecvWhere(Way::Blocking));
    wake_by_each_call(&rt, Call::LeaseWhere(Way::Blocking));
}

#[test]
fn a_thread_is_woken_by_a_first_message_that_is_due(rt: HostRuntime) {
    wake_by_each_call(&rt, Call::RecvWhen(Way::Blocking));
    wake_by_each_call(&rt, Call::LeaseWhen(Way::Blocking));
}

//! Two thousand calls that a generator tells, on the core, on handles, and on a plain list.
use super::plain_list::ask_list;
use super::word::unwoken;
use super::{expect_equal, expect_equal_at};
use async_priority_channel::recorded::{Call, Reply};
use async_priority_channel::{Receiver, Sender, TryRecvError, bounded};
use priority_channel_core::channel::PriorityQueueChannel;
use std::alloc::{AllocGlobal, Allocator};
use std::process::Abort;
use std::sync::Wait;

type Core<A> = PriorityQueueChannel<u64, u64, u64, A>;

type Tx<R, A> = Sender<u64, u64, R, A>;

type Rx<R, A> = Receiver<u64, u64, R, A>;

const CALLS: u64 = 2000;

const CAPACITY: u64 = 64;

// The number behind this one. The first is behind 1.
fn next(x: u64) -> u64 {
    x.wrapping_mul(1103515245).wrapping_add(12345) % 0x8000_0000
}

// The call with this number. The priorities of all differ.
fn nth_call(i: u64, x: u64) -> Call<u64, u64> {
    if x / 65536 % 3 == 0 {
        Call::TryRecv
    } else {
        Call::TrySend(i, x)
    }
}

// None to a call that no test makes.
fn ask_core<A: Allocator + Copy>(
    rt: &impl Abort,
    core: &mut Core<A>,
    call: Call<u64, u64>,
) -> Option<Reply<u64, u64>> {
    match call {
        Call::TrySend(msg, priority) => {
            Some(Reply::Sent(unwoken(rt, core.try_send(msg, priority))))
        }
        Call::TryRecv => Some(Reply::Received(unwoken(rt, core.try_recv()))),
        _ => None,
    }
}

fn ask_handles<R: Wait + Clone, A: Allocator + Copy>(
    tx: &Tx<R, A>,
    rx: &Rx<R, A>,
    call: Call<u64, u64>,
) -> Option<Reply<u64, u64>> {
    match call {
        Call::TrySend(msg, priority) => Some(Reply::Sent(tx.try_send(msg, priority))),
        Call::TryRecv => Some(Reply::Received(rx.try_recv())),
        _ => None,
    }
}

fn expect_as_listed<R: Abort + AllocGlobal, A: Allocator + Copy>(rt: &R, mut core: Core<A>) {
    let mut list = Vec::new(rt.alloc());
    let mut x = 1;
    for i in 1..=CALLS {
        x = next(x);
        let call = nth_call(i, x);
        let wanted = ask_list(rt, &mut list, CAPACITY, call);
        expect_equal_at(rt, (i, call), ask_core(rt, &mut core, call), wanted);
    }
}

#[test]
fn two_thousand_calls_beside_a_scanned_list(rt: HostRuntime) {
    expect_as_listed(&rt, Core::bounded(rt.alloc(), CAPACITY));
}

// Asks both, and looks at both.
fn expect_alike<R: Abort + Wait + Clone, A: Allocator + Copy>(
    rt: &R,
    core: &mut Core<A>,
    tx: &Tx<R, A>,
    rx: &Rx<R, A>,
    call: Call<u64, u64>,
) {
    let wanted = ask_core(rt, core, call);
    expect_equal(rt, (call, ask_handles(tx, rx, call)), (call, wanted));
    let wanted = (core.len(), core.is_empty(), core.is_full());
    expect_equal(rt, (tx.len(), tx.is_empty(), tx.is_full()), wanted);
    expect_equal(rt, (rx.len(), rx.is_empty(), rx.is_full()), wanted);
}

fn expect_the_same<R: Abort + Wait + Clone, A: Allocator + Copy>(
    rt: &R,
    mut core: Core<A>,
    tx: &Tx<R, A>,
    rx: &Rx<R, A>,
) {
    let mut x = 1;
    for i in 1..=CALLS {
        x = next(x);
        expect_alike(rt, &mut core, tx, rx, nth_call(i, x));
    }
    expect_equal(rt, (unwoken(rt, core.close()), rx.close()), (true, true));
    // Until both tell that they are closed.
    for _ in 0..=core.len() {
        expect_alike(rt, &mut core, tx, rx, Call::TryRecv);
    }
    expect_equal(rt, rx.try_recv(), Err(TryRecvError::Closed));
}

#[test]
fn the_same_two_thousand_calls_on_handles(rt: HostRuntime) {
    let core = Core::bounded(rt.alloc(), CAPACITY);
    let (tx, rx) = bounded(&rt, rt.alloc(), CAPACITY).expect(&rt, "a channel");
    expect_the_same(&rt, core, &tx, &rx);
}

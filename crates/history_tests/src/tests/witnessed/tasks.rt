//! Futures, which hold their pass until they answer.
use super::{Caller, Channel, Passes, Scene, count, play, send};
use crate::tests::{Host, expect_equal, wait_for};
use futures::future::{Future, poll_immediate};
use priority_channel_calls::looks::Len;
use priority_channel_calls::receives::TryRecv;
use priority_channel_witnessed::{Recording, SendAll};
use refusing::Refusing;
use std::alloc::{Allocator, Global};

/// A future that is dropped before it has answered.
#[derive(Clone, Copy, Debug, Drop, PartialEq)]
enum Gone {
    Recv,
    Send,
    Sendv,
}

// Each as it was made, and as it waits.
const GONE: [(Gone, bool); 6] = [
    (Gone::Recv, false),
    (Gone::Recv, true),
    (Gone::Send, false),
    (Gone::Send, true),
    (Gone::Sendv, false),
    (Gone::Sendv, true),
];

// A future that waits is polled once before.
fn drop_future<F: Future<Output: Drop>>(rt: &impl Host, future: F, waits: bool)
    requires { F.can_poll future }
{
    if waits {
        let polled = wait_for(rt, poll_immediate(future));
        expect_equal(rt, polled.is_none(), true);
    }
}

fn drop_with_guest<J: Recording, A: Allocator + Copy, R: Host>(
    rt: &R,
    alloc: A,
    channel: &Channel<J, A>,
    (gone, waits): (Gone, bool),
) {
    let guest = channel.admit(rt).expect(rt, "a pass to admit");
    match gone {
        Gone::Recv => drop_future(rt, channel.start(rt, guest, TryRecv), waits),
        Gone::Send => drop_future(rt, channel.start(rt, guest, send(8, 2)), waits),
        Gone::Sendv => {
            let pairs = Vec::from_array(alloc, [(8u64, 2u64), (9, 3)]).expect(rt, "memory");
            let msgs = pairs.into_iter().peekable();
            let sending = channel.start(rt, guest, SendAll { msgs });
            drop_future(rt, sending, waits);
        }
    }
}

fn send_one<J: Recording, A: Allocator + Copy, R: Host>(
    rt: &R,
    channel: &Channel<J, A>,
    own: &mut Caller<J, A>,
    row: (Gone, bool),
) {
    let (sent, wakes) = channel.call(rt, own, send(7, 1));
    expect_equal(rt, (row, sent, count(wakes)), (row, Ok(()), 0));
}

// What it waited for wakes nobody, and it has sent and received nothing.
fn expect_gone<J: Recording, A: Allocator + Copy, R: Host>(
    rt: &R,
    alloc: A,
    channel: &Channel<J, A>,
    own: &mut Caller<J, A>,
    row: (Gone, bool),
) {
    let waits_for_room = row.0 != Gone::Recv;
    if waits_for_room {
        send_one(rt, channel, own, row);
    }
    drop_with_guest(rt, alloc, channel, row);
    if !waits_for_room {
        send_one(rt, channel, own, row);
    }
    let (received, wakes) = channel.call(rt, own, TryRecv);
    expect_equal(rt, (row, received, count(wakes)), (row, Ok((7, 1)), 0));
    expect_equal(rt, (row, channel.make(rt, own, Len)), (row, 0));
}

// Receives with a guest, which is polled twice before the own pass sends.
fn poll_twice<J: Recording, A: Allocator + Copy, R: Host>(
    rt: &R,
    channel: &Channel<J, A>,
    own: &mut Caller<J, A>,
    guest: Caller<J, A>,
) {
    let mut receiving = channel.start(rt, guest, TryRecv);
    for _ in 0..2u64 {
        let polled = wait_for(rt, poll_immediate(&mut receiving));
        expect_equal(rt, polled.is_none(), true);
    }
    let (_, wakes) = channel.call(rt, own, send(7, 1));
    expect_equal(rt, count(wakes), 1);
    let (received, guest) = wait_for(rt, receiving);
    expect_equal(rt, received.ok(), Some((7, 1)));
    channel.leave(rt, guest);
}

/// Futures are dropped, each with a pass that comes where the one before has left. A receive that
/// is polled twice in vain is listed once. Those that need not wait ask for no memory: the request
/// that is to be refused never comes.
pub(super) fn poll_futures<J: Recording, A: Allocator + Copy, R: Host>(
    rt: &R,
    memory: &Refusing<Global>,
    alloc: A,
    channel: &Channel<J, A>,
    passes: &mut Passes<J, A>,
) {
    let mut own = passes.pop().expect(rt, "a pass");
    for row in GONE {
        expect_gone(rt, alloc, channel, &mut own, row);
    }
    let guest = channel.fork(rt, &own).expect(rt, "a pass to fork");
    expect_equal(rt, guest.number(), 7);
    poll_twice(rt, channel, &mut own, guest);
    memory.refuse_nth(1);
    let (sent, own) = wait_for(rt, channel.start(rt, own, send(9, 3)));
    let (received, own) = wait_for(rt, channel.start(rt, own, TryRecv));
    expect_equal(rt, (sent.ok(), received.ok()), (Some(()), Some((9, 3))));
    expect_equal(rt, memory.refuse_none(), true);
    passes.push(own).expect(rt, "its own place");
}

#[test]
fn a_future_answers_or_gives_up_and_leaves(rt: HostRuntime) {
    expect_equal(&rt, play(&rt, Scene::Futures, 1, 1, 3), 0);
}

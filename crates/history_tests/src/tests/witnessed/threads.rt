//! Threads and tasks that wait for each other, with passes that come and go.
use super::{Caller, Channel, Passes, Scene, play, send};
use crate::tests::{Host, expect_equal, wait_for};
use priority_channel_calls::ends::Close;
use priority_channel_calls::receives::TryRecv;
use priority_channel_waiting::until::Endless;
use priority_channel_witnessed::{Recording, SendAll};
use std::alloc::Allocator;
use std::sync::WaitMethods;
use std::sync::atomic::{AtomicU64, Ordering};
use std::{mem, thread};

/// How many pairs threads have received, and how many threads are still to send.
#[derive(Drop)]
struct Done {
    received: AtomicU64,
    left: AtomicU64,
}

fn three<A: Allocator + Copy, R: Host>(rt: &R, alloc: A, number: u64) -> SendAll<u64, u64, A> {
    let pairs = Vec::from_array(alloc, [(number, 1u64), (number, 2), (number, 3)]);
    let msgs = pairs.expect(rt, "memory").into_iter().peekable();
    SendAll { msgs }
}

// Sends a pair and then three, by a pass that comes for that and blocks its thread, and as many by
// futures.
fn send_eight<J: Recording, A: Allocator + Copy, R: Host>(
    rt: &R,
    alloc: A,
    channel: &Channel<J, A>,
    own: Caller<J, A>,
    number: u64,
) -> Caller<J, A> {
    let mut guest = channel.fork(rt, &own).expect(rt, "a pass to fork");
    let one = channel.wait(rt, &mut guest, send(number, number % 7), &Endless);
    let many = channel.wait(rt, &mut guest, three(rt, alloc, number), &Endless);
    expect_equal(rt, (one.is_ok(), many.is_ok()), (true, true));
    channel.leave(rt, guest);
    let (one, own) = wait_for(rt, channel.start(rt, own, send(number, number % 7)));
    let (many, own) = wait_for(rt, channel.start(rt, own, three(rt, alloc, number)));
    expect_equal(rt, (one.is_ok(), many.is_ok()), (true, true));
    own
}

// Receives by a future and then on its thread, until the channel is closed and empty.
fn receive_all<'x, J: Recording, A: Allocator + Copy, R: Host>(
    rt: &'x R,
    received: &AtomicU64,
    channel: &'x Channel<J, A>,
    own: Caller<J, A>,
) -> Caller<J, A> {
    let mut pass = own;
    for _ in rt.forever() {
        let (answer, back) = wait_for(rt, channel.start(rt, pass, TryRecv));
        pass = back;
        received.fetch_add(answer.is_ok() as u64, Ordering::SeqCst);
        if channel.wait(rt, &mut pass, TryRecv, &Endless).is_err() {
            return pass;
        }
        received.fetch_add(1, Ordering::SeqCst);
    }
    unreachable!()
}

// Passes 0 and 1 send, and the last that has sent closes the channel. The others receive.
fn send_or_receive<J: Recording, A: Allocator + Copy, R: Host>(
    rt: &R,
    alloc: A,
    done: &Done,
    channel: &Channel<J, A>,
    mut pass: Caller<J, A>,
) -> Caller<J, A> {
    if pass.number() >= 2 {
        return receive_all(rt, &done.received, channel, pass);
    }
    for number in 0..100u64 {
        pass = send_eight(rt, alloc, channel, pass, number);
    }
    if done.left.fetch_sub(1, Ordering::SeqCst) == 1 {
        expect_equal(rt, channel.make(rt, &mut pass, Close), true);
    }
    pass
}

/// Two threads send, and two receive.
pub(super) fn call_on_four_threads<
    J: Recording + Send + Sync,
    A: Allocator + Copy + Send + Sync,
    R: Host,
>(rt: &R, alloc: A, channel: &Channel<J, A>, passes: &mut Passes<J, A>) {
    let done = &Done {
        received: AtomicU64::new(0),
        left: AtomicU64::new(2),
    };
    let all = mem::replace(passes, Vec::new(alloc));
    let called = thread::map_vec(
        rt,
        all,
        &|pass| send_or_receive(rt, alloc, done, channel, pass),
    );
    *passes = called.expect(rt, "memory for the passes");
    expect_equal(rt, done.received.load(Ordering::SeqCst), 1600);
}

#[test]
fn threads_wait_until_others_go_on(rt: HostRuntime) {
    expect_equal(&rt, play(&rt, Scene::Threads, 2, 4, 7), 0);
}

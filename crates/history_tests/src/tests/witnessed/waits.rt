//! Waits on a thread that end with their time, and what an ended wait leaves.
use super::{Caller, Channel, Passes, Scene, count, play, send};
use crate::tests::replay::mix::end_of;
use crate::tests::replay::notes::Refusal;
use crate::tests::{Host, expect_equal};
use priority_channel_calls::looks::Len;
use priority_channel_calls::receives::TryRecv;
use priority_channel_waiting::until::Deadline;
use priority_channel_witnessed::{Recording, SendAll};
use refusing::Refusing;
use std::alloc::{Allocator, Global};
use std::cell::Cell;
use std::io;
use std::sync::WaitMethods;
use std::time::{Clock, Duration, Instant};

fn limit() -> Duration {
    Duration::from_millis(20)
}

/// A clock that counts how often it is read: a wait reads it as it begins, and before each sleep.
#[derive(Drop)]
struct Counting<'a, R> {
    rt: &'a R,
    readings: Cell<u64>,
}

impl<R: Clock> Clock for Counting<'_, R> {
    fn monotonic(&self) -> io::Result<Duration> {
        self.readings.set(self.readings.get().wrapping_add(1));
        self.rt.monotonic()
    }

    fn since_1970(&self) -> io::Result<Duration> {
        self.rt.since_1970()
    }
}

fn deadline<R: Host>(rt: &R) -> Instant {
    let now = Instant::now(rt).expect(rt, "a clock");
    now.checked_add(limit())
        .expect(rt, "a time that the clock has")
}

fn expect_past<R: Host>(rt: &R, deadline: Instant) {
    let now = Instant::now(rt).expect(rt, "a clock");
    expect_equal(rt, (deadline, now, deadline <= now), (deadline, now, true));
}

/// Waits that end with their time, and then calls without time. A waiter whose time has passed is
/// listed no more.
pub(super) fn end_in_time<J: Recording, A: Allocator + Copy, R: Host>(
    rt: &R,
    memory: &Refusing<Global>,
    alloc: A,
    channel: &Channel<J, A>,
    passes: &mut Passes<J, A>,
) {
    let mut pass = passes.pop().expect(rt, "a pass");
    let begun = Instant::now(rt).expect(rt, "a clock");
    receive_in_time(rt, channel, &mut pass, begun);
    send_in_time(rt, channel, &mut pass);
    // Each is a try, which asks for no memory, so the request that is to be refused never comes.
    memory.refuse_nth(1);
    call_without_time(rt, channel, &mut pass, begun);
    expect_equal(rt, memory.refuse_none(), true);
    send_three_in_time(rt, alloc, channel, &mut pass);
    passes.push(pass).expect(rt, "its own place");
}

// From an empty channel: neither ends before its limit or its deadline.
fn receive_in_time<J: Recording, A: Allocator + Copy, R: Host>(
    rt: &R,
    channel: &Channel<J, A>,
    pass: &mut Caller<J, A>,
    begun: Instant,
) {
    let counting = Counting {
        rt,
        readings: Cell::new(0),
    };
    let until = Deadline::after(&counting, limit());
    let late = channel.wait(rt, pass, TryRecv, &until);
    let took = begun.elapsed(rt).expect(rt, "a clock");
    let readings = counting.readings.get();
    expect_equal(rt, end_of(late), Err((Refusal::Blocked, ())));
    let is_right = readings < 20 && took >= limit();
    expect_equal(rt, (readings, took, is_right), (readings, took, true));
    let end = deadline(rt);
    let late = channel.wait(rt, pass, TryRecv, &Deadline::at(rt, end));
    expect_equal(rt, end_of(late), Err((Refusal::Blocked, ())));
    expect_past(rt, end);
}

// Into a channel that is full with a pair, which is received then.
fn send_in_time<J: Recording, A: Allocator + Copy, R: Host>(
    rt: &R,
    channel: &Channel<J, A>,
    pass: &mut Caller<J, A>,
) {
    let (_, wakes) = channel.call(rt, pass, send(1, 5));
    expect_equal(rt, count(wakes), 0);
    let end = deadline(rt);
    let late = channel.wait(rt, pass, send(2, 6), &Deadline::after(rt, limit()));
    expect_equal(rt, end_of(late), Err((Refusal::Blocked, (2, 6))));
    expect_past(rt, end);
    let (_, wakes) = channel.call(rt, pass, TryRecv);
    expect_equal(rt, count(wakes), 0);
}

// Of an ended time.
fn call_without_time<J: Recording, A: Allocator + Copy, R: Host>(
    rt: &R,
    channel: &Channel<J, A>,
    pass: &mut Caller<J, A>,
    begun: Instant,
) {
    let over = &Deadline::at(rt, begun);
    let late = channel.wait(rt, pass, TryRecv, over);
    expect_equal(rt, end_of(late), Err((Refusal::Blocked, ())));
    let sent = channel.wait(rt, pass, send(3, 7), over);
    expect_equal(rt, end_of(sent), Ok(()));
    let late = channel.wait(rt, pass, send(4, 8), over);
    expect_equal(rt, end_of(late), Err((Refusal::Blocked, (4, 8))));
    let received = channel.wait(rt, pass, TryRecv, over);
    expect_equal(rt, end_of(received), Ok((3, 7)));
}

// Of three pairs by one call one is sent in the end.
fn send_three_in_time<J: Recording, A: Allocator + Copy, R: Host>(
    rt: &R,
    alloc: A,
    channel: &Channel<J, A>,
    pass: &mut Caller<J, A>,
) {
    let pairs = Vec::from_array(alloc, [(7u64, 1u64), (8, 1), (9, 1)]).expect(rt, "memory");
    let msgs = pairs.into_iter().peekable();
    let end = deadline(rt);
    let sent = channel.wait(rt, pass, SendAll { msgs }, &Deadline::at(rt, end));
    expect_past(rt, end);
    let (why, rest) = end_of(sent)
        .err()
        .expect(rt, "room for one and not for three");
    let told = (why, channel.make(rt, pass, Len), rest.count());
    expect_equal(rt, told, (Refusal::Blocked, 1, 2));
}

#[test]
fn waits_end_in_time(rt: HostRuntime) {
    expect_equal(&rt, play(&rt, Scene::Limits, 1, 1, 1), 1);
}

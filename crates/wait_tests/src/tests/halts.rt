//! What comes as a thread halts in its wait: at a reading of the clock, or at a request for memory.
//! The thread finds it, also where its time is over then, and wakes those that wait for what it
//! leaves.
use super::clocks::{Paced, Plan, Times, second};
use super::either::{Answer, Either, TIMED, block, closed, done, long, refused};
use super::places::{Place, at, before};
use super::watch::beside;
use super::{Host, Memory, Threaded, expect_equal_at, new_task};
use async_priority_channel::bounded_reserved;
use futures::Future;
use named_calls::{ALL, Call, Input, Outcome, Pairs, Way, is_for_close, is_pending, receive};
use refusing::Refusing;
use refusing::watch::wait_until;
use std::alloc::{Allocator, Global};
use std::sync::atomic::{AtomicBool, Ordering};
use std::thread;
use std::time::{Duration, Instant};

/// Where a thread halts.
#[derive(Clone, Copy)]
enum Halt<'a> {
    /// At a reading of the clock, which then tells that the time is over, or that it is not.
    Reading(&'a Times, bool),
    /// At a request for memory, while the channel's lock is free.
    Request(&'a Refusing<Global>),
}

impl Halt<'_> {
    fn is_reached(self) -> bool {
        match self {
            Halt::Reading(times, _) => times.is_reached(),
            Halt::Request(memory) => memory.is_holding(),
        }
    }

    fn let_go(self) {
        match self {
            Halt::Reading(times, is_late) => times.let_go(is_late),
            Halt::Request(memory) => memory.let_go(),
        }
    }

    // That of the thread's call.
    fn limit(self) -> Duration {
        match self {
            Halt::Reading(..) => second(),
            Halt::Request(_) => long(),
        }
    }
}

/// What comes meanwhile.
#[derive(Clone, Copy, Debug)]
enum Coming {
    /// What the call waits for, while there is time left.
    Early,
    /// The same, or a close or nothing, as the time is over.
    Late,
    Close,
    Nothing,
}

const COMING: [Coming; 4] = [Coming::Early, Coming::Late, Coming::Close, Coming::Nothing];

// The number is that of the reading or of the request.
type Round = (Call, Place, Coming, u64);

// Lets the thread go on, until it has answered.
fn let_answer<R: Threaded>(rt: &R, halt: Halt<'_>, has_answered: &AtomicBool) {
    halt.let_go();
    wait_until(rt, || has_answered.load(Ordering::SeqCst));
}

// Lets the thread go on while a task waits by this future. Tells whether the task is woken then.
fn is_task_woken<H: Threaded, F: Future<Output: Drop>>(
    host: &H,
    future: F,
    halt: Halt<'_>,
    has_answered: &AtomicBool,
) -> bool
    requires { F.can_poll future }
{
    // A waker wakes its task also as it is dropped, so the future lives until that was looked at.
    let mut future = future;
    let task = new_task(host);
    let waits = is_pending(&task, &mut future);
    let_answer(host, halt, has_answered);
    waits && task.is_woken()
}

// Brings what the thread waits for, and more of it than there is place for, so that a task waits
// until the thread has gone on. Tells whether that task is woken then.
fn bring_too_much<H: Threaded, R: Host, A: Allocator + Copy>(
    host: &H,
    other: &Either<R, A>,
    halt: Halt<'_>,
    has_answered: &AtomicBool,
) -> bool {
    let could = other.help() && other.help();
    let is_woken = match other {
        Either::Sender(tx) => is_task_woken(host, tx.send(9, 9), halt, has_answered),
        Either::Receiver(rx) => is_task_woken(host, rx.recv(), halt, has_answered),
    };
    could && is_woken
}

// Tells whether it could come. The call before one at the second place takes a part of it.
fn come<H: Threaded, R: Host, A: Allocator + Copy>(
    host: &H,
    (call, place, coming, _): Round,
    other: &Either<R, A>,
    halt: Halt<'_>,
    has_answered: &AtomicBool,
) -> bool {
    wait_until(host, || halt.is_reached());
    let could = match (coming, place) {
        (Coming::Nothing, _) => true,
        (Coming::Close, _) => other.close(),
        _ if is_for_close(call) => other.close(),
        (_, Place::First) => return bring_too_much(host, other, halt, has_answered),
        (_, Place::Second) => other.help() && other.help(),
    };
    let_answer(host, halt, has_answered);
    could
}

fn wait_with_a_halt<H, R, A>(
    host: &H,
    round: Round,
    (rt, alloc): (&R, A),
    ends: &(Either<R, A>, Either<R, A>),
    halt: Halt<'_>,
)
where
    H: Threaded,
    R: Host + Sync,
    A: Allocator + Copy + Send + Sync,
{
    let (call, place, ..) = round;
    let (first, (answer, could)) = at(
        host,
        ("what comes as a thread halts", round),
        place,
        (rt, alloc, call),
        (&ends.0, &ends.1),
        || answer_as_it_comes(host, round, (rt, alloc), ends, halt),
    );
    let got = (answer, could, first);
    let (wanted, wanted_first) = wanted_answers(round);
    expect_equal_at(host, round, got, (wanted, true, wanted_first));
}

// What the call is told, and whether what was to come could come.
fn answer_as_it_comes<H, R, A>(
    host: &H,
    round: Round,
    (rt, alloc): (&R, A),
    ends: &(Either<R, A>, Either<R, A>),
    halt: Halt<'_>,
) -> (Answer, bool)
where
    H: Threaded,
    R: Host + Sync,
    A: Allocator + Copy + Send + Sync,
{
    let has_answered = AtomicBool::new(false);
    thread::join(
        host,
        || {
            let answer = ends.0.make(rt, alloc, round.0, halt.limit());
            has_answered.store(true, Ordering::SeqCst);
            answer
        },
        || come(host, round, &ends.1, halt, &has_answered),
    )
}

// What the call is told, and the one before it.
fn wanted_answers((call, place, coming, _): Round) -> (Answer, Answer) {
    let wanted = match coming {
        Coming::Early | Coming::Late => done(call),
        Coming::Close => closed(call),
        Coming::Nothing => refused(call, Outcome::Timeout),
    };
    let wanted_first = match (place, coming) {
        (Place::Second, Coming::Close) => closed(before(call)),
        _ => done(before(call)),
    };
    (wanted, wanted_first)
}

// Tells how long it took.
fn wait_by_a_clock<R: Threaded>(rt: &R, round: Round) -> Duration {
    let (call, _, coming, number) = round;
    let begun = Instant::now(rt).expect(rt, "a clock");
    let times = Times::new(Plan::HaltsAt(number));
    let paced = Paced::new(rt, &times);
    let ends = block(&paced, rt.alloc(), call);
    let halt = Halt::Reading(&times, !matches!(coming, Coming::Early));
    wait_with_a_halt(rt, round, (&paced, rt.alloc()), &ends, halt);
    begun.elapsed(rt).expect(rt, "a clock")
}

// At the reading as it begins to wait, at the one before it is listed, and at the one after it has
// looked again. A wait for the close reads once more, after it was woken. A wait that reads more
// often sleeps between two readings.
fn find_in_time<R: Threaded>(rt: &R, place: Place) {
    for call in TIMED {
        let last = if is_for_close(call) { 4 } else { 3 };
        if place.is_for(call) {
            for number in 1..=last {
                for coming in COMING {
                    wait_by_a_clock(rt, (call, place, coming, number));
                }
            }
            let took = wait_by_a_clock(rt, (call, place, Coming::Nothing, 50));
            let is_long = took > Duration::from_millis(45);
            expect_equal_at(rt, (call, place, took), is_long, true);
        }
    }
}

#[test]
fn a_thread_finds_what_has_come_in_time(rt: HostRuntime) {
    find_in_time(&rt, Place::First);
}

#[test]
fn a_thread_behind_another_finds_what_has_come_in_time(rt: HostRuntime) {
    find_in_time(&rt, Place::Second);
}

// The first request that the call makes while the lock is free. A bulk send as a future makes one
// before, under the lock: it sends a part, and is listed in the same step.
fn request_of(call: Call) -> u64 {
    match call {
        Call::Sendv(Way::Poll | Way::Future) => 2,
        _ => 1,
    }
}

fn wait_with_a_request<R: Threaded, A: Allocator + Copy + Send + Sync>(
    rt: &R,
    (memory, alloc): Memory<'_, A>,
    call: Call,
) {
    let ends = block(rt, alloc, call);
    let number = request_of(call);
    memory.hold_nth(number);
    let round = (call, Place::First, Coming::Early, number);
    let halt = Halt::Request(memory);
    wait_with_a_halt(rt, round, (rt, alloc), &ends, halt);
}

// Each call that waits, a future that is polled once among them, finds at its next look what has
// come since the first.
#[test]
fn a_call_that_looks_again_finds_what_has_come(rt: HostRuntime) {
    for call in ALL {
        if call.way() != Way::Try {
            let memory = Refusing::new(rt.alloc());
            wait_with_a_request(&rt, (&memory, &memory), call);
        }
    }
}

// Two messages come as a batch halts at its second request. The first is for its own memory.
fn receive_with_a_halt<R: Threaded, A: Allocator + Copy + Send + Sync>(
    rt: &R,
    (memory, alloc): Memory<'_, A>,
    call: Call,
) {
    let (tx, rx) = bounded_reserved(rt, alloc, 2).expect(rt, "a channel");
    let input = Input {
        pairs: Pairs::new(7, 2, u64::MAX),
        most: 2,
        limit: long(),
        chosen: 7,
    };
    memory.hold_nth(2);
    let (reply, could) = beside(
        rt,
        ("what comes as a batch halts", call),
        || receive(rt, alloc, &rx, call, input),
        || {
            wait_until(rt, || memory.is_holding());
            let could = tx.try_send(7, 7).is_ok() && tx.try_send(8, 8).is_ok();
            memory.let_go();
            could
        },
    );
    let got = (reply.outcome, reply.pairs.len(), could);
    expect_equal_at(rt, call, got, (Outcome::Done, 2, true));
}

// It brings all that has come, and not the first alone.
#[test]
fn a_batch_that_looks_again_brings_all_that_has_come(rt: HostRuntime) {
    for call in ALL {
        if matches!(call, Call::RecvMany(_)) && call.way() != Way::Try {
            let memory = Refusing::new(rt.alloc());
            receive_with_a_halt(&rt, (&memory, &memory), call);
        }
    }
}

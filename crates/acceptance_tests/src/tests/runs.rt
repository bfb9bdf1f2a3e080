//! A run makes its calls in order, and stops before the one for whose reply there is no memory.
ghost use Rattle.std.specs.Prelude.{◌≡◌, ◌++◌, ◌∷◌, []};

use super::script::told;
use super::word::unwoken;
use super::{expect_equal, expect_equal_at, expect_true};
use priority_channel_core::channel::{Answer, Call, CorePoll, PriorityQueueChannel, Ran, Response};
use priority_channel_core::errors::TrySendError;
use refusing::Refusing;
use std::alloc::{AllocError, AllocGlobal, Allocator, Global};
use std::iter::Peekable;
use std::process::Abort;
use std::vec::IntoIter;

type Pair = (u64, u64);

type Pairs = Peekable<IntoIter<Pair>>;

type Core<A> = PriorityQueueChannel<u64, u64, u64, A>;

type Calls<A> = Vec<Call<u64, u64, u64, Pairs>, A>;

type Done<A> = Vec<Response<u64, u64, u64, Pairs, A>, A>;

// The messages of a bulk send.
fn bulk<R: Abort + AllocGlobal>(rt: &R, pairs: &[Pair]) -> Pairs {
    let mut msgs = Vec::new(rt.alloc());
    for pair in pairs {
        msgs.push(*pair).expect(rt, "memory");
    }
    msgs.into_iter().peekable()
}

// Calls are listed by this, since an array of them, as `vec!` makes one, is dear to prove.
fn add<T, A: Allocator>(rt: &impl Abort, calls: &mut Vec<T, A>, call: T)
    ensures { calls.new.items ≡ calls.old.items ++ call ∷ [] }
{
    calls.push(call).expect(rt, "memory");
}

// An answer as text, with the pairs that came back of a bulk send.
fn said<R: Abort + AllocGlobal>(rt: &R, answer: &mut Answer<u64, u64, Pairs>) -> String {
    match answer {
        Answer::TrySendv(Err(TrySendError::Full(rest))) => said_rest(rt, rest),
        answer => told(rt, &*answer),
    }
}

fn said_rest<R: Abort + AllocGlobal>(rt: &R, rest: &mut Pairs) -> String {
    let rest: Vec<Pair> = rest.collect(rt.alloc()).expect(rt, "memory");
    format!(in rt.alloc(); "TrySendv(Err(Full({rest:?})))").expect(rt, "memory")
}

// Of the calls behind so many, as far as they were made. Nobody is handed out, and the pairs that
// were received go to the list.
fn expect_answers<R: Abort + AllocGlobal, A: Allocator>(
    rt: &R,
    mut done: Done<A>,
    wanted: &[&str],
    behind: usize,
    received: &mut Vec<Pair>,
) {
    for (place, response) in done.iter_mut().enumerate() {
        let wanted = wanted.get(behind.wrapping_add(place));
        if let Answer::TryRecv(Ok(pair)) = &response.answer {
            received.push(*pair).expect(rt, "memory");
        }
        let said = said(rt, &mut response.answer);
        expect_equal(rt, said.as_str(), *wanted.expect(rt, "a call"));
        expect_nobody(rt, response);
    }
}

fn expect_nobody<A: Allocator>(rt: &impl Abort, response: &Response<u64, u64, u64, Pairs, A>) {
    let counts = (response.room_waiters.len(), response.message_waiters.len());
    expect_equal(rt, counts, (0, 0));
}

// The channel behind its four calls.
fn run_four<R: Abort + AllocGlobal, A: Allocator + Copy>(rt: &R, alloc: A) -> Core<A> {
    let made: Result<Core<A>, AllocError> = Core::bounded_reserved(alloc, 2);
    let mut core = made.expect(rt, "a channel");
    let mut calls: Calls<A> = Vec::new(alloc);
    add(rt, &mut calls, Call::TrySend(1, 5));
    add(rt, &mut calls, Call::TryRecv);
    add(rt, &mut calls, Call::TryRecv);
    add(rt, &mut calls, Call::Close);
    let wanted = [
        "TrySend(Ok(()))",
        "TryRecv(Ok((1, 5)))",
        "TryRecv(Err(Empty))",
        "Close(true)",
    ];
    let Ran { done, left } = core.run(calls);
    expect_equal(rt, (done.len(), left.len()), (4, 0));
    expect_answers(rt, done, &wanted, 0, &mut Vec::new(rt.alloc()));
    core
}

fn run_none<A: Allocator + Copy>(rt: &impl Abort, alloc: A, mut core: Core<A>) {
    let none: Calls<A> = Vec::new(alloc);
    let Ran { done, left } = core.run(none);
    expect_equal(rt, (done.len(), left.len()), (0, 0));
    let told = (core.is_closed(), core.len(), core.capacity());
    expect_equal(rt, told, (true, 0, Some(2)));
    expect_equal(rt, (core.sender_count(), core.receiver_count()), (1, 1));
}

#[test]
fn a_run_of_four_calls_and_a_run_of_none(rt: HostRuntime) {
    let alloc = rt.alloc();
    run_none(&rt, alloc, run_four(&rt, alloc));
}

const EIGHT: [&str; 8] = [
    "TrySendv(Err(Full([(3, 5)])))",
    "CloneSender(true)",
    "DropSender",
    "DropSender",
    "IsClosed(true)",
    "TryRecv(Ok((2, 6)))",
    "TryRecv(Ok((1, 4)))",
    "TryRecv(Err(Closed))",
];

// Makes the eight calls, of which each answers as is said until the nth request for memory. Then
// it runs those that are left, or receives what is pending: so each pair that was accepted has come
// out in the end. Tells how many were left, or None where the channel was refused its memory.
fn run_eight<R: Abort + AllocGlobal, A: Allocator + Copy>(
    rt: &R,
    memory: &Refusing<Global>,
    alloc: A,
    n: u64,
    goes_on: bool,
) -> Option<usize> {
    let mut calls: Calls<A> = Vec::new(alloc);
    add(
        rt,
        &mut calls,
        Call::TrySendv(bulk(rt, &[(1, 4), (2, 6), (3, 5)])),
    );
    add(rt, &mut calls, Call::CloneSender);
    add(rt, &mut calls, Call::DropSender);
    add(rt, &mut calls, Call::DropSender);
    add(rt, &mut calls, Call::IsClosed);
    add(rt, &mut calls, Call::TryRecv);
    add(rt, &mut calls, Call::TryRecv);
    add(rt, &mut calls, Call::TryRecv);
    memory.refuse_nth(n);
    let made: Result<Core<A>, AllocError> = Core::bounded_reserved(alloc, 2);
    let Ok(mut core) = made else {
        return None;
    };
    let mut came = Vec::new(rt.alloc());
    let Ran { done, left } = core.run(calls);
    let (made, rest) = (done.len(), left.len());
    expect_equal_at(rt, n, made.wrapping_add(rest), 8);
    expect_answers(rt, done, &EIGHT, 0, &mut came);
    if goes_on {
        let Ran { done, left } = core.run(left);
        expect_equal_at(rt, n, (made.wrapping_add(done.len()), left.len()), (8, 0));
        expect_answers(rt, done, &EIGHT, made, &mut came);
    } else {
        receive_all(rt, &mut core, &mut came);
    }
    expect_came(rt, n, made > 0 || goes_on, came.as_slice());
    Some(rest)
}

fn receive_all<A: Allocator + Copy>(rt: &impl Abort, core: &mut Core<A>, came: &mut Vec<Pair>) {
    for _ in 0..core.len() {
        let pair = unwoken(rt, core.try_recv())
            .ok()
            .expect(rt, "one that is pending");
        came.push(pair).expect(rt, "memory");
    }
}

// What the bulk send sent, if it was made.
fn expect_came(rt: &impl Abort, n: u64, is_sent: bool, came: &[Pair]) {
    let accepted = if is_sent {
        [(2, 6), (1, 4)].as_slice()
    } else {
        [].as_slice()
    };
    expect_equal_at(rt, n, came, accepted);
}

// Each request for memory is refused in turn.
fn expect_rounds<R: Abort + AllocGlobal>(rt: &R, goes_on: bool) {
    let memory = Refusing::new(rt.alloc());
    let mut growths = 0u64;
    for round in memory.rounds() {
        let n = round.expect(rt, "a request");
        let left = run_eight(rt, &memory, &memory, n, goes_on);
        let met_none = memory.refuse_none();
        expect_equal_at(rt, (n, left), met_none, left == Some(0));
        if left.unwrap_or(0) > 0 {
            growths = growths.wrapping_add(1);
        }
    }
    expect_true(rt, growths > 0, "no growth of the replies was refused");
}

#[test]
fn runs_of_eight_calls(rt: HostRuntime) {
    // a run of eight calls
    let memory = Refusing::new(rt.alloc());
    let left = run_eight(&rt, &memory, &memory, 0, true);
    expect_equal(&rt, left, Some(0));
    // a run stops where a reply is refused memory
    expect_rounds(&rt, true);
    // what a run accepted comes out whichever request is refused
    expect_rounds(&rt, false);
}

const EACH: [&str; 19] = [
    "TrySend(Ok(()))",
    "TrySendv(Err(Full([])))",
    "TryRecv(Ok((7, 1)))",
    "Close(true)",
    "IsClosed(true)",
    "IsEmpty(true)",
    "IsFull(false)",
    "Len(0)",
    "Capacity(Some(1))",
    "SenderCount(1)",
    "ReceiverCount(1)",
    "CloneSender(true)",
    "CloneReceiver(true)",
    "DropSender",
    "DropReceiver",
    "PollSend(Ready(Err(Closed(..))))",
    "PollSendv(Ready(Err(Closed(..))))",
    "PollRecv(Ready(Err(Closed(RecvError))))",
    "GiveUp",
];

fn run_each<R: Abort + AllocGlobal, A: Allocator + Copy>(rt: &R, alloc: A) {
    let mut calls: Calls<A> = Vec::new(alloc);
    add(rt, &mut calls, Call::TrySend(7, 1));
    add(rt, &mut calls, Call::TrySendv(bulk(rt, &[])));
    add(rt, &mut calls, Call::TryRecv);
    add(rt, &mut calls, Call::Close);
    add(rt, &mut calls, Call::IsClosed);
    add(rt, &mut calls, Call::IsEmpty);
    add(rt, &mut calls, Call::IsFull);
    add(rt, &mut calls, Call::Len);
    add(rt, &mut calls, Call::Capacity);
    add(rt, &mut calls, Call::SenderCount);
    add(rt, &mut calls, Call::ReceiverCount);
    add(rt, &mut calls, Call::CloneSender);
    add(rt, &mut calls, Call::CloneReceiver);
    add(rt, &mut calls, Call::DropSender);
    add(rt, &mut calls, Call::DropReceiver);
    add(rt, &mut calls, Call::PollSend(7, 1, None, 7));
    add(rt, &mut calls, Call::PollSendv(bulk(rt, &[]), None, 7));
    add(rt, &mut calls, Call::PollRecv(None, 7));
    add(rt, &mut calls, Call::GiveUp(0));
    let mut core: Core<A> = Core::bounded(alloc, 1);
    let Ran { done, left } = core.run(calls);
    expect_equal(rt, (done.len(), left.len()), (19, 0));
    expect_answers(rt, done, &EACH, 0, &mut Vec::new(rt.alloc()));
}

#[test]
fn a_run_has_each_call(rt: HostRuntime) {
    run_each(&rt, rt.alloc());
}

//! A run makes its calls in order, and stops before the one for whose answer there is no memory.
use super::calls::{Pairs, pairs, said, said_to};
use super::expect_equal;
use priority_channel_core::calls::Call;
use priority_channel_core::channel::PriorityQueueChannel;
use priority_channel_core::channel::run::{Ran, Response};
use refusing::Refusing;
use std::alloc::{AllocGlobal, Allocator, Global};
use std::process::Abort;

type Core<A> = PriorityQueueChannel<char, u64, u64, A>;

type Calls<A> = Vec<Call<char, u64, u64, Pairs>, A>;

fn is_b(msg: &char, _: &u64) -> bool {
    *msg == 'b'
}

const ANSWERS: [&str; 12] = [
    "TrySendv(Err(Full(..)))",
    "ChangePriority(Ok(6))",
    "TakeWhere(Some(('b', 3)))",
    "TakeWhere(None)",
    "ChangePriority(Err(4))",
    "GiveUp",
    "CloneSender(true)",
    "DropSender",
    "DropSender",
    "IsClosed(true)",
    "TryRecv(Ok(('a', 4)))",
    "TryRecv(Err(Closed))",
];

// Of the calls behind so many, as far as they were made.
fn expect_answers<R: Abort + AllocGlobal, A: Allocator>(
    rt: &R,
    done: Vec<Response<char, u64, u64, Pairs, A>, A>,
    behind: usize,
) {
    for (place, response) in done.into_iter().enumerate() {
        let wanted = ANSWERS.get(behind.wrapping_add(place));
        expect_answer(rt, response, *wanted.expect(rt, "no more calls"));
    }
}

fn expect_answer<R: Abort + AllocGlobal, A: Allocator>(
    rt: &R,
    response: Response<char, u64, u64, Pairs, A>,
    wanted: &str,
) {
    let said = said(rt, response.answer);
    let got = said_to(rt, said, response.room_waiters, response.message_waiters);
    expect_equal(rt, got.as_str(), wanted);
}

// No call takes memory. The calls that are left are then run with memory.
fn run_refused<R: Abort + AllocGlobal, A: Allocator + Copy>(
    rt: &R,
    memory: &Refusing<Global>,
    alloc: A,
    n: u64,
) {
    let made: Result<Core<A>, _> = Core::bounded_reserved(alloc, 2);
    let mut core = made.expect(rt, "a channel");
    let calls: Result<Calls<A>, _> = vec![in alloc;
        Call::TrySendv(pairs(rt, &["a4", "b6", "c5"]).into_iter().peekable()),
        Call::ChangePriority(is_b, 3),
        Call::TakeWhere(is_b),
        Call::TakeWhere(is_b),
        Call::ChangePriority(is_b, 4),
        Call::GiveUp(0),
        Call::CloneSender,
        Call::DropSender,
        Call::DropSender,
        Call::IsClosed,
        Call::TryRecv,
        Call::TryRecv,
    ];
    let calls = calls.expect(rt, "calls");
    memory.refuse_nth(n);
    let Ran { done, left } = core.run(calls);
    let met_none = memory.refuse_none();
    let made = done.len();
    let told = (n, left.is_empty(), made.wrapping_add(left.len()));
    expect_equal(rt, told, (n, met_none, ANSWERS.len()));
    expect_answers(rt, done, 0);
    let Ran { done, left } = core.run(left);
    expect_equal(rt, left.len(), 0);
    expect_answers(rt, done, made);
}

// Each growth of the answers is refused in turn.
#[test]
fn a_run_stops_before_the_call_whose_answer_has_no_place(rt: HostRuntime) {
    let memory = Refusing::new(rt.alloc());
    for round in memory.rounds() {
        run_refused(&rt, &memory, &memory, round.expect(&rt, "a request"));
    }
}

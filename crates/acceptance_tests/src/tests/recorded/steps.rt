//! Calls of one thread, with their answers.
ghost use Rattle.std.specs.Prelude.{◌<◌, ◌^◌, IfOk};
ghost use Rattle.std.specs.Ordering.{nat_cmp};
ghost use Rattle.priority_channel_recorded.specs.History.{entry};
ghost use Rattle.priority_channel_recorded.specs.Passes.{IsTold};

use super::{Caller, Kept, Made, Passes, Recorder, Scene, call_and_keep, record};
use crate::tests::{ThreadHost, expect_equal};
use async_priority_channel::TrySendError;
use async_priority_channel::recorded::{Book, Call, Entry, NoPlace, Recording, Reply};
use refusing::Refusing;
use std::alloc::{AllocGlobal, Allocator, Global};
use std::process::Abort;
use std::sync::Wait;
use std::thread;

/// One step of an example.
#[derive(Clone, Copy)]
pub enum Step {
    /// The pass of this number makes a call, is answered so, and has then this count.
    Call(u64, Call<u64, u64>, Result<Reply<u64, u64>, NoPlace>, u64),
    /// The same by the last pass, on a thread that gives it back.
    OnThread(u64, Call<u64, u64>, Result<Reply<u64, u64>, NoPlace>, u64),
    /// The same by pass 0, whose call is first refused its entry.
    Again(u64, Call<u64, u64>, Result<Reply<u64, u64>, NoPlace>, u64),
    /// Passes 0 and 1 meet.
    Meet,
    /// The next request for memory is refused.
    RefuseNext,
}

/// Seven calls on a channel for two.
pub const SEVEN: [Step; 7] = [
    Step::Call(0, Call::TrySend(1, 5), Ok(Reply::Sent(Ok(()))), 1),
    Step::Call(0, Call::TrySend(2, 9), Ok(Reply::Sent(Ok(()))), 2),
    Step::Call(
        0,
        Call::TrySend(3, 1),
        Ok(Reply::Sent(Err(TrySendError::Full((3, 1))))),
        3,
    ),
    Step::Call(0, Call::TryRecv, Ok(Reply::Received(Ok((2, 9)))), 4),
    Step::Call(0, Call::Close, Ok(Reply::Bool(true)), 5),
    Step::Call(
        0,
        Call::TrySend(4, 4),
        Ok(Reply::Sent(Err(TrySendError::Closed((4, 4))))),
        6,
    ),
    Step::Call(0, Call::Len, Ok(Reply::Len(1)), 7),
];

const REFUSED_AN_ENTRY: [Step; 4] = [
    Step::RefuseNext,
    Step::Call(0, Call::TrySend(1, 1), Err(NoPlace), 0),
    Step::Call(0, Call::TrySend(1, 1), Ok(Reply::Sent(Ok(()))), 1),
    Step::Call(0, Call::Len, Ok(Reply::Len(1)), 2),
];

const TWO_PASSES: [Step; 4] = [
    Step::Call(0, Call::TrySend(1, 5), Ok(Reply::Sent(Ok(()))), 1),
    Step::Meet,
    Step::Call(1, Call::TryRecv, Ok(Reply::Received(Ok((1, 5)))), 1),
    Step::Call(0, Call::Len, Ok(Reply::Len(0)), 2),
];

const COMES_BACK: [Step; 3] = [
    Step::OnThread(1, Call::Close, Ok(Reply::Bool(true)), 1),
    Step::Meet,
    Step::Call(
        0,
        Call::TrySend(4, 4),
        Ok(Reply::Sent(Err(TrySendError::Closed((4, 4))))),
        1,
    ),
];

const CALLED_AGAIN: [Step; 2] = [
    Step::Again(0, Call::TrySend(1, 1), Ok(Reply::Sent(Ok(()))), 1),
    Step::Call(0, Call::Len, Ok(Reply::Len(1)), 2),
];

// Plays the steps. The answers are those that they name. Where memory is scarce, a call may be
// refused its entry, which leaves the count. Then what is pending is received.
pub(super) fn play<J: Recording + Send + Sync, R: ThreadHost, A: Allocator + Copy + Send + Sync>(
    rt: &R,
    memory: &Refusing<Global>,
    recorder: &Recorder<J, A>,
    passes: &mut Passes<J, A>,
    kept: &mut Kept,
    steps: &[Step],
    is_scarce: bool,
) {
    for step in steps {
        match *step {
            Step::Call(who, call, wanted, count) => {
                let pass = passes.get_mut(who as usize).expect(rt, "a pass");
                let before = pass.count();
                let told = call_and_keep(rt, recorder, pass, kept, call);
                if is_scarce && told == Err(NoPlace) {
                    expect_equal(rt, pass.count(), before);
                    break;
                }
                expect_equal(rt, (call, told, pass.count()), (call, wanted, count));
            }
            Step::OnThread(_, call, wanted, count) => {
                let told = call_on_thread(rt, recorder, passes, kept, call);
                expect_equal(rt, told, (wanted, count));
            }
            Step::Again(_, call, wanted, count) => {
                let pass = passes.get_mut(0).expect(rt, "a pass");
                let told = call_again(rt, memory, recorder, pass, kept, call);
                expect_equal(rt, (told, pass.count()), (wanted, count));
            }
            Step::Meet => meet(rt, recorder, passes),
            Step::RefuseNext => memory.refuse_nth(1),
        }
    }
    if is_scarce {
        receive_rest(rt, recorder, passes, kept);
    }
}

fn meet<J: Recording, R: Abort, A: Allocator + Copy>(
    rt: &R,
    recorder: &Recorder<J, A>,
    passes: &mut Passes<J, A>,
) {
    let mut second = passes.pop().expect(rt, "a pass");
    let mut first = passes.pop().expect(rt, "a pass");
    let counts = (first.count(), second.count());
    recorder.meet(&mut first, &mut second);
    expect_equal(rt, (first.number(), second.number()), (0, 1));
    expect_equal(rt, (first.count(), second.count()), counts);
    passes.push(first).expect(rt, "its own place");
    passes.push(second).expect(rt, "its own place");
}

// The last pass calls on a thread, which gives it back with its answer.
fn call_on_thread<J: Recording + Send + Sync, R: ThreadHost, A: Allocator + Copy + Send + Sync>(
    rt: &R,
    recorder: &Recorder<J, A>,
    passes: &mut Passes<J, A>,
    kept: &mut Kept,
    call: Call<u64, u64>,
) -> (Result<Reply<u64, u64>, NoPlace>, u64) {
    let mut away = passes.pop().expect(rt, "a pass");
    let ((told, back), ()) = thread::join(
        rt,
        || {
            let told = call_and_keep(rt, recorder, &mut away, kept, call);
            (told, away)
        },
        || {},
    );
    let count = back.count();
    passes.push(back).expect(rt, "its own place");
    (told, count)
}

// Makes a call that is refused its entry, and then again. What the pass has seen afterwards is what
// it had seen before both, what others did meanwhile, and this one entry.
fn call_again<J: Recording, R: Abort + Wait, A: Allocator + Copy>(
    rt: &R,
    memory: &Refusing<Global>,
    recorder: &Recorder<J, A>,
    pass: &mut Caller<J>,
    kept: &mut Kept,
    call: Call<u64, u64>,
) -> Result<Reply<u64, u64>, NoPlace>
    ensures { IfOk result (λ reply. IsTold nat_cmp J.capacity pass.old
        (entry pass.old.number call reply) pass.new) }
{
    memory.refuse_nth(1);
    let Err(NoPlace) = call_and_keep(rt, recorder, pass, kept, call) else {
        panic!(rt; "a call was made without memory");
    };
    call_and_keep(rt, recorder, pass, kept, call)
}

fn receive_rest<J: Recording, R: Abort + Wait, A: Allocator + Copy>(
    rt: &R,
    recorder: &Recorder<J, A>,
    passes: &mut Passes<J, A>,
    kept: &mut Kept,
) {
    let pass = passes.get_mut(0).expect(rt, "a pass");
    // Two pairs, a refusal, and the answer that there are no more.
    for _ in 0..4u64 {
        let told = call_and_keep(rt, recorder, pass, kept, Call::TryRecv);
        if let Ok(Reply::Received(Err(_))) = told {
            return;
        }
    }
    panic!(rt; "it was never empty");
}

// That of the step's call, unless it is refused.
fn entry_of(step: &Step) -> Option<Made> {
    match *step {
        Step::Call(who, call, told, _)
        | Step::OnThread(who, call, told, _)
        | Step::Again(who, call, told, _) => match told {
            Ok(reply) => Some(Entry { who, call, reply }),
            Err(NoPlace) => None,
        },
        Step::Meet | Step::RefuseNext => None,
    }
}

// The entries of the steps' calls.
fn entries_of<R: Abort + AllocGlobal>(rt: &R, steps: &[Step]) -> Vec<Made> {
    let mut entries = Vec::new(rt.alloc());
    for step in steps {
        if let Some(entry) = entry_of(step) {
            entries.push(entry).expect(rt, "memory");
        }
    }
    entries
}

/// Plays the steps, and compares the whole history. What was refused stands nowhere in it.
pub fn expect_history<R: ThreadHost>(
    rt: &R,
    steps: &[Step],
    cap: u64,
    entries: usize,
    passes: usize,
    refused: u64,
)
    requires positive { 0 < cap }
    requires fits { cap < 2 ^ 63 }
{
    let memory = Refusing::new(rt.alloc());
    let scene = Scene::Steps(steps);
    let told = record(rt, (&memory, &memory), scene, cap, entries, passes);
    let (history, told) = told.expect(rt, "a recorder");
    let wanted = entries_of(rt, steps);
    expect_equal(rt, history.entries(), wanted.as_slice());
    expect_equal(rt, told, refused);
}

/// Makes the calls of the steps on a book, and compares its whole history.
pub fn expect_book<R: Abort + AllocGlobal>(rt: &R, steps: &[Step], cap: u64, entries: usize)
    requires positive { 0 < cap }
    requires fits { cap < 2 ^ 63 }
{
    let mut book = Book::new(rt.alloc(), cap, entries).expect(rt, "a book");
    for step in steps {
        if let Step::Call(who, call, wanted, _) = *step {
            let told: Result<Reply<u64, u64>, NoPlace> = book.record(who, call);
            expect_equal(rt, (call, told), (call, wanted));
        }
    }
    expect_equal(rt, book.history(), entries_of(rt, steps).as_slice());
}

#[test]
fn recorded_histories(rt: HostRuntime) {
    // a recorded history of seven calls
    expect_history(&rt, &SEVEN, 2, 8, 1, 0);
    expect_book(&rt, &SEVEN, 2, 8);
    // an entry is refused memory
    expect_history(&rt, &REFUSED_AN_ENTRY, 1, 0, 1, 1);
    // after a refused entry a pass has seen what it had seen
    expect_history(&rt, &CALLED_AGAIN, 1, 0, 1, 1);
    // two passes meet
    expect_history(&rt, &TWO_PASSES, 2, 8, 2, 0);
    // a pass comes back from a thread
    expect_history(&rt, &COMES_BACK, 1, 2, 2, 0);
}

// As many as any program that runs for long.
#[test]
fn a_pass_makes_many_calls(rt: HostRuntime) {
    let mut steps = Vec::new(rt.alloc());
    for count in 1..=10_000u64 {
        let step = Step::Call(0, Call::Len, Ok(Reply::Len(0)), count);
        steps.push(step).expect(&rt, "memory");
    }
    expect_history(&rt, steps.as_slice(), 2, 0, 1, 0);
}

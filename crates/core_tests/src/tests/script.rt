//! Scripts, and the player that makes their calls.
//!
//! Calls stand on lines or between semicolons, and behind ` = ` what comes of a call, where that is
//! more than `()` or `Ok(())`. `bounded 2`, `reserved 2` and `unbounded` make a new channel.
//! `refuse` names the requests for memory that are refused from then on. What stands behind `#` is
//! for the reader.
ghost use Rattle.std.specs.Prelude.{◌<◌, ◌≤◌};

use super::calls::{Core, ask, ask_to_wait, number, said};
use refusing::Refusing;
use std::alloc::{AllocError, AllocGlobal, Allocator, Global};
use std::process::Abort;

// The largest capacity of a reserved channel.
const MOST: u64 = 9223372036854775807;

/// A core, its allocator, and what refuses its requests for memory.
#[derive(Drop)]
struct Stage<'m, A: Allocator + Copy> {
    memory: &'m Refusing<Global>,
    alloc: A,
    core: Core<A>,
}

impl<'m, A: Allocator + Copy> Stage<'m, A> {
    fn new(memory: &'m Refusing<Global>, alloc: A) -> Self {
        Stage {
            memory,
            alloc,
            core: Core::unbounded(alloc),
        }
    }

    // Makes a call, and tells what came of it.
    fn make<R: Abort + AllocGlobal>(&mut self, rt: &R, call: &str) -> String {
        let words: Vec<&str> = call
            .split_whitespace()
            .collect(rt.alloc())
            .expect(rt, "memory");
        match words.as_slice() {
            ["unbounded" | "bounded" | "reserved", ..] => self.open(rt, words.as_slice()),
            ["refuse", nth] => refuse(rt, self.memory, *nth),
            ["poll_send" | "poll_sendv" | "poll_recv" | "give_up", ..] => {
                ask_to_wait(rt, self.alloc, &mut self.core, words.as_slice())
            }
            _at_once => ask(rt, &mut self.core, words.as_slice()),
        }
    }

    // Makes a channel in place of the one before.
    fn open<R: Abort + AllocGlobal>(&mut self, rt: &R, words: &[&str]) -> String {
        let made: Result<_, AllocError> = match words {
            ["bounded", word] => Ok(Core::bounded(self.alloc, capacity(rt, *word, u64::MAX))),
            ["reserved", word] => Core::bounded_reserved(self.alloc, capacity(rt, *word, MOST)),
            ["unbounded"] => Ok(Core::unbounded(self.alloc)),
            _ => panic!(rt; "no channel is {words:?}"),
        };
        match made {
            Ok(core) => {
                self.core = core;
                said(rt, ())
            }
            Err(error) => said(rt, error),
        }
    }

    // Adds the answers to those that were told. The first that is not as the script says tells a
    // refusal, and then this is false.
    fn tell_calls<R: Abort + AllocGlobal>(
        &mut self,
        rt: &R,
        n: u64,
        script: &str,
        told: &mut String,
    ) -> bool {
        let mut is_as_said = true;
        for call in script.lines().filter(|line| !line.trim().is_empty()) {
            let got = self.make(rt, asked(call));
            if is_as_said && !is_wanted(got.as_str(), call) {
                is_as_said = false;
                assert!(rt; got.contains("Memory"), "at {n}, {call}: it answered {got}");
            }
            tell(rt, told, got);
        }
        is_as_said
    }
}

// At most this.
fn capacity(rt: &impl Abort, word: &str, most: u64) -> u64
    ensures positive { 0 < result }
    ensures fits { result ≤ most }
{
    let capacity = number(word);
    assert!(rt; 0 < capacity && capacity <= most);
    capacity
}

// `none` tells whether the request that was named is still to come.
fn refuse<R: Abort + AllocGlobal>(rt: &R, memory: &Refusing<Global>, nth: &str) -> String {
    match nth {
        "none" => return said(rt, memory.refuse_none()),
        "all" => memory.refuse_all(),
        nth => memory.refuse_nth(number(nth)),
    }
    said(rt, ())
}

fn is_wanted(got: &str, call: &str) -> bool {
    match call.split_once(" = ") {
        Some((_, wanted)) => got == wanted.trim(),
        None => got == "()" || got == "Ok(())",
    }
}

fn asked(call: &str) -> &str {
    call.split_once(" = ").map_or(call, |(call, _)| call)
}

/// Plays a script, and fails at the first call of which something else comes.
pub fn play<R: Abort + AllocGlobal>(rt: &R, script: &str) {
    let memory = Refusing::new(rt.alloc());
    play_on(rt, Stage::new(&memory, &memory), script);
}

fn play_on<R: Abort + AllocGlobal, A: Allocator + Copy>(
    rt: &R,
    mut stage: Stage<'_, A>,
    script: &str,
) {
    for line in script.lines() {
        let (line, _comment) = line.split_once('#').unwrap_or((line, ""));
        for call in line.split(';') {
            if !call.trim().is_empty() {
                let got = stage.make(rt, asked(call));
                assert!(rt;
                    is_wanted(got.as_str(), call),
                    "{line}: {call}: it answered {got}"
                );
            }
        }
    }
}

/// Plays a script of which each request for memory is refused in turn. A call answers as the script
/// says until the refusal, and there `Memory`; in the end each of these messages has come out once,
/// or has come back once.
pub fn play_refused<R: Abort + AllocGlobal>(rt: &R, script: &str, messages: &str) {
    let memory = Refusing::new(rt.alloc());
    for round in memory.rounds() {
        let n = round.expect(rt, "a request");
        let told = tell_refused(rt, Stage::new(&memory, &memory), n, script);
        for msg in messages.chars() {
            let quoted = said(rt, msg);
            let seen = told.matches(quoted.as_str()).count();
            assert!(rt; seen == 1, "at {n}: {msg} came {seen} times: {told}");
        }
    }
}

// All answers of one round, and of receives until nothing is pending.
fn tell_refused<R: Abort + AllocGlobal, A: Allocator + Copy>(
    rt: &R,
    mut stage: Stage<'_, A>,
    n: u64,
    script: &str,
) -> String {
    let mut told = String::new(rt.alloc());
    stage.memory.refuse_nth(n);
    let is_as_said = stage.tell_calls(rt, n, script, &mut told);
    let met_none = stage.memory.refuse_none();
    assert!(rt; is_as_said == met_none, "at {n}: {told}");
    for _ in 0..stage.core.len() {
        tell(rt, &mut told, stage.make(rt, "try_recv"));
    }
    told
}

fn tell(rt: &impl Abort, told: &mut String, answer: String) {
    told.push_str(answer.as_str()).expect(rt, "memory");
}

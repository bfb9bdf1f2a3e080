//! Whole scripts, with their answers.
mod examples;
mod failures;
mod memory;
mod refusals;
mod terminal;

use crate::run::prio_run;
use std::alloc::AllocGlobal;
use std::fmt::Debug;
use std::process::Abort;
use std::sync::Wait;

const EXAMPLE: &str = "reserved 1\nsend 5 x\nsend 9 y\nrecv\nrecv\n";

const EXAMPLE_ANSWERS: [&str; 5] = ["ok\n", "ok\n", "full\n", "x 5\n", "empty\n"];

/// What a test asks of its runtime.
trait Host: Abort + Wait + Clone + AllocGlobal {}

impl<R: Abort + Wait + Clone + AllocGlobal> Host for R {}

// The answers to the first lines of the example.
fn first_answers<R: Host>(rt: &R, lines: usize) -> String {
    let mut answers = String::new(rt.alloc());
    for answer in EXAMPLE_ANSWERS.iter().take(lines) {
        answers.push_str(answer).expect(rt, "memory");
    }
    answers
}

// The answers and the faults are text.
fn as_text(bytes: &[u8]) -> &str {
    str::from_utf8(bytes).unwrap_or("not a text")
}

fn count_lines(text: &[u8]) -> usize {
    text.iter().filter(|b| **b == b'\n').count()
}

/// `assert!`, proved once: each one in place takes a second of the check.
fn expect_true<N: Debug + Drop>(rt: &impl Abort, round: N, holds: bool) {
    assert!(rt; holds, "at {round:?}");
}

/// `assert_eq!`, proved once.
fn expect_equal<N: Debug + Drop, X: PartialEq + Debug + Drop>(
    rt: &impl Abort,
    round: N,
    got: X,
    wanted: X,
) {
    assert_eq!(rt; got, wanted, "at {round:?}");
}

/// How a run ended, what it answered, and what it told of faults.
fn expect_run<N: Debug + Drop>(
    rt: &impl Abort,
    round: N,
    ended: (u8, &[u8], &[u8]),
    wanted: (u8, &str, &str),
) {
    let (status, answers, faults) = ended;
    expect_equal(
        rt,
        round,
        (status, as_text(answers), as_text(faults)),
        wanted,
    );
}

fn assert_run<R: Host>(rt: &R, script: &[u8], status: u8, answers: &str, faults: &str) {
    let mut answered = Vec::new(rt.alloc());
    let mut told = Vec::new(rt.alloc());
    let ended = prio_run(rt, rt.alloc(), script, &mut answered, &mut told);
    let ended = (ended, answered.as_slice(), told.as_slice());
    expect_run(rt, as_text(script), ended, (status, answers, faults));
}

#[test]
fn answers_each_line(rt: HostRuntime) {
    let cases = [
        // What is pending when the channel closes can be received.
        (
            "reserved 1\nsend 1 a\nclose\nrecv\nrecv\n",
            "ok\nok\ntrue\na 1\nclosed\n",
        ),
        // Equal priorities come out in the order of their acceptance.
        (
            "reserved 4\nsend 1 a\nsend 1 b\nsend 1 c\nrecv\nrecv\nrecv\n",
            "ok\nok\nok\nok\na 1\nb 1\nc 1\n",
        ),
        // The extreme priorities, the first and the last character of words, no last line feed.
        (
            "reserved 2\nsend -9223372036854775808 !\nsend 9223372036854775807 ~\nrecv\nrecv",
            "ok\nok\nok\n~ 9223372036854775807\n! -9223372036854775808\n",
        ),
        ("reserved 10", "ok\n"),
        // Into a reserved channel as many are sent as there is room for, and on a closed channel
        // none.
        (
            "reserved 2\nsendv\nlen\nsendv -1 a 0 b 1 c 2 d\nlen\nclose\nsendv 3 e 4 f\nlen\n\
             recv\nrecv\nrecv\n",
            "ok\nok\n0\nfull 2\n2\ntrue\nclosed 2\n2\nb 0\na -1\nclosed\n",
        ),
        // Pairs of one bulk send with equal priorities come out in its order.
        (
            "unbounded\nsendv 1 a 1 b 2 c 1 d\nsend 1 e\nrecv\nrecv\nrecv\nrecv\nrecv\nrecv\n",
            "ok\nok\nok\nc 2\na 1\nb 1\nd 1\ne 1\nempty\n",
        ),
        ("unbounded", "ok\n"),
        ("reserved 7\ncapacity\n", "ok\n7\n"),
        (
            "bounded 1\ncapacity\nlen\nsend 1 a\nlen",
            "ok\n1\n0\nok\n1\n",
        ),
        // A capacity takes no memory before pairs come.
        (
            "bounded 9223372036854775808\ncapacity\nsend 1 a\nrecv\n",
            "ok\n9223372036854775808\nok\na 1\n",
        ),
        (
            "bounded 18446744073709551614\ncapacity\n",
            "ok\n18446744073709551614\n",
        ),
        // This many is without a limit.
        ("bounded 18446744073709551615\ncapacity\n", "ok\nnone\n"),
    ];
    for (script, answers) in cases {
        assert_run(&rt, script.as_bytes(), 0, answers, "");
    }
}

#[test]
fn takes_words_of_printable_characters(rt: HostRuntime) {
    for byte in 0..=u8::MAX {
        let mut script = b"bounded 1\nsend 1 "
            .to_vec(rt.alloc())
            .expect(&rt, "memory");
        script.push(byte).expect(&rt, "memory");
        let (status, answers, faults) = if (b'!'..=b'~').contains(&byte) {
            (0, "ok\nok\n", "")
        } else {
            (2, "ok\n", "line 2: not a call\n")
        };
        assert_run(&rt, &script, status, answers, faults);
    }
}

// Longer than the buffers are.
fn long_word<R: Host>(rt: &R) -> String {
    let mut word = String::new(rt.alloc());
    for _ in 0..20_000 {
        word.push_str("0123456789").expect(rt, "memory");
    }
    word
}

// A text of pieces, one after another.
fn joined<R: Host>(rt: &R, pieces: &[&str]) -> String {
    let mut text = String::new(rt.alloc());
    for piece in pieces {
        text.push_str(piece).expect(rt, "memory");
    }
    text
}

#[test]
fn reads_lines_of_any_length(rt: HostRuntime) {
    let word = long_word(&rt);
    let word = word.as_str();
    let (seven, eight) = ("reserved 2\nsend 7 ", "\nsend 8 ");
    let script = joined(&rt, &[seven, word, eight, word, "\nrecv\nrecv\n"]);
    let answers = joined(&rt, &["ok\nok\nok\n", word, " 8\n", word, " 7\n"]);
    assert_run(&rt, script.as_bytes(), 0, answers.as_str(), "");
    let script = joined(&rt, &[seven, word, " ", word, "\nrecv\n"]);
    assert_run(&rt, script.as_bytes(), 2, "ok\n", "line 2: not a call\n");
}

#[test]
fn reads_long_bulk_sends(rt: HostRuntime) {
    let mut script = joined(&rt, &["bounded 6000\nsendv"]);
    for i in 0..10_000u64 {
        let pair = format!(in rt.alloc(); " {i} w{i}").expect(&rt, "memory");
        script.push_str(pair.as_str()).expect(&rt, "memory");
    }
    script.push_str("\nlen\nrecv\n").expect(&rt, "memory");
    let answers = "ok\nfull 4000\n6000\nw5999 5999\n";
    assert_run(&rt, script.as_bytes(), 0, answers, "");
}

//! Each request for memory is refused in turn: the script ends, or its call says so.
use super::{
    EXAMPLE, Host, as_text, count_lines, expect_equal, expect_run, expect_true, first_answers,
};
use crate::run::prio_run;
use refusing::Refusing;
use std::alloc::AllocGlobal;

// each request for memory of a script is refused in turn
#[test]
fn stops_where_memory_is_refused(rt: HostRuntime) {
    let alloc = Refusing::new(rt.alloc());
    let mut stopped_at = Vec::new(rt.alloc());
    for round in alloc.rounds() {
        let mut answers = Vec::new(rt.alloc());
        let mut faults = Vec::new(rt.alloc());
        let n = round.expect(&rt, "a request");
        alloc.refuse_nth(n);
        let status = prio_run(&rt, &alloc, EXAMPLE.as_bytes(), &mut answers, &mut faults);
        let met_none = alloc.refuse_none();
        let lines = count_lines(&answers);
        let answered = first_answers(&rt, lines);
        let ended = (status, answers.as_slice(), faults.as_slice());
        if met_none {
            expect_run(&rt, n, ended, (0, answered.as_str(), ""));
            expect_equal(&rt, n, lines, 5);
            continue;
        }
        let line = lines.saturating_add(1);
        let told = no_memory_at(&rt, line);
        expect_run(&rt, n, ended, (3, answered.as_str(), told.as_str()));
        if stopped_at.last() != Some(&line) {
            stopped_at.push(line).expect(&rt, "memory");
        }
    }
    // The channel is made at line 1, and lines 2 and 3 have words.
    expect_equal(&rt, "the end", stopped_at.as_slice(), [1, 2, 3].as_slice());
}

fn no_memory_at<R: AllocGlobal + Host>(rt: &R, line: usize) -> String {
    format!(in rt.alloc(); "line {line}: no memory\n").expect(rt, "memory")
}

// Refuses each request in turn. Until then the answers are those of ample memory. The refused
// request ends the script, or its call answers so, and the script goes on: `refused` has the
// answers of such runs.
fn assert_answers_refusals<R: Host>(rt: &R, script: &str, answers: &str, refused: &[&str]) {
    let refusing = Refusing::new(rt.alloc());
    let mut has_stopped = false;
    let mut has_gone_on = false;
    for round in refusing.rounds() {
        let n = round.expect(rt, "a request");
        let mut answered = Vec::new(rt.alloc());
        let mut faults = Vec::new(rt.alloc());
        refusing.refuse_nth(n);
        let status = prio_run(rt, &refusing, script.as_bytes(), &mut answered, &mut faults);
        let ended = (status, answered.as_slice(), faults.as_slice());
        if refusing.refuse_none() {
            expect_run(rt, n, ended, (0, answers, ""));
            continue;
        }
        let got = as_text(&answered);
        if status == 0 {
            has_gone_on = true;
            expect_true(rt, (n, got), refused.contains(&got));
            expect_run(rt, n, ended, (0, got, ""));
        } else {
            has_stopped = true;
            expect_true(rt, (n, got), answers.starts_with(got));
            let told = no_memory_at(rt, count_lines(&answered).saturating_add(1));
            expect_run(rt, n, ended, (3, got, told.as_str()));
        }
    }
    expect_true(rt, script, has_stopped && has_gone_on);
}

#[test]
fn answers_a_send_that_is_refused_memory(rt: HostRuntime) {
    assert_answers_refusals(
        &rt,
        "bounded 2\nsend 1 a\nlen\nrecv\nsend 2 b\nrecv\n",
        "ok\nok\n1\na 1\nok\nb 2\n",
        &["ok\nmemory\n0\nempty\nok\nb 2\n"],
    );
}

// each request for memory of a script with bulk sends is refused in turn
#[test]
fn answers_a_bulk_send_that_is_refused_memory(rt: HostRuntime) {
    assert_answers_refusals(
        &rt,
        "unbounded\ncapacity\nsendv 1 a 3 c 2 b\nrecv\nrecv\nclose\n\
         send 4 d\nsendv\nrecv\nrecv\nlen\n",
        "ok\nnone\nok\nc 3\nb 2\ntrue\nclosed\nclosed 0\na 1\nclosed\n0\n",
        &[
            "ok\nnone\nmemory 1\nc 3\na 1\ntrue\nclosed\nclosed 0\nclosed\nclosed\n0\n",
            "ok\nnone\nmemory 2\na 1\nempty\ntrue\nclosed\nclosed 0\nclosed\nclosed\n0\n",
            "ok\nnone\nmemory 3\nempty\nempty\ntrue\nclosed\nclosed 0\nclosed\nclosed\n0\n",
        ],
    );
}

// What was accepted before memory was refused stays.
#[test]
fn keeps_what_it_sent_before_memory_is_refused(rt: HostRuntime) {
    assert_answers_refusals(
        &rt,
        "unbounded\nsendv 1 a 2 b 3 c 4 d 5 e 6 f\nlen\nrecv\nsend 7 g\nlen\n",
        "ok\nok\n6\nf 6\nok\n6\n",
        &[
            "ok\nmemory 6\n0\nempty\nok\n1\n",
            "ok\nmemory 5\n1\na 1\nok\n1\n",
            "ok\nmemory 4\n2\nb 2\nok\n2\n",
            "ok\nmemory 3\n3\nc 3\nok\n3\n",
            "ok\nmemory 2\n4\nd 4\nok\n4\n",
            "ok\nmemory 1\n5\ne 5\nok\n5\n",
        ],
    );
}

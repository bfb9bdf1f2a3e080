//! A failed read or write ends the script, and what came before stays told.
use super::{
    EXAMPLE, Host, expect_equal, expect_run, expect_true, first_answers, joined, long_word,
};
use crate::run::prio_run;
use std::alloc::Global;
use std::io;
use std::io::{ErrorKind, Read, Write};

// Gives three bytes at a time, so that no two lines end in one read. One read fails, and those
// after it do not.
#[derive(Drop)]
struct ShortReader<'a> {
    script: &'a [u8],
    reads_before_failure: usize,
    failure: ErrorKind,
}

const PIECE: usize = 3;

// One read for each piece of the example, and one that finds the end.
const READS: usize = 14;

impl ShortReader<'_> {
    fn new(reads_before_failure: usize, failure: ErrorKind) -> ShortReader<'static> {
        ShortReader {
            script: EXAMPLE.as_bytes(),
            reads_before_failure,
            failure,
        }
    }
}

impl Read for ShortReader<'_> {
    fn read(&mut self, buf: &mut [u8]) -> io::Result<usize> {
        if self.reads_before_failure == 0 {
            self.reads_before_failure = usize::MAX;
            return Err(io::Error::from(self.failure));
        }
        self.reads_before_failure -= 1;
        let len = buf.len().min(PIECE);
        self.script.read(&mut buf[..len])
    }
}

// How many lines end in the first so many pieces.
fn lines_in(pieces: usize) -> usize {
    EXAMPLE
        .bytes()
        .take(pieces.saturating_mul(PIECE))
        .filter(|b| *b == b'\n')
        .count()
}

// prio: each read and each write fails in turn
#[test]
fn stops_at_a_failed_read(rt: HostRuntime) {
    for n in 0..READS + 1 {
        let mut answers = Vec::new(rt.alloc());
        let mut faults = Vec::new(rt.alloc());
        let input = ShortReader::new(n, ErrorKind::Other);
        let status = prio_run(&rt, rt.alloc(), input, &mut answers, &mut faults);
        let (wanted, told) = if n < READS {
            (4, "input or output failed\n")
        } else {
            (0, "")
        };
        let answered = first_answers(&rt, lines_in(n));
        let ended = (status, answers.as_slice(), faults.as_slice());
        expect_run(&rt, n, ended, (wanted, answered.as_str(), told));
    }
}

#[test]
fn tries_an_interrupted_read_again(rt: HostRuntime) {
    let all = first_answers(&rt, 5);
    for n in 0..READS {
        let mut answers = Vec::new(rt.alloc());
        let mut faults = Vec::new(rt.alloc());
        let mut input = ShortReader::new(n, ErrorKind::Interrupted);
        let status = prio_run(&rt, rt.alloc(), &mut input, &mut answers, &mut faults);
        expect_true(&rt, n, input.reads_before_failure > READS);
        let ended = (status, answers.as_slice(), faults.as_slice());
        expect_run(&rt, n, ended, (0, all.as_str(), ""));
    }
}

// Fails at one write or one flush.
#[derive(Drop)]
struct FailingWriter {
    written: Vec<u8>,
    writes_before_failure: usize,
    flushes_before_failure: usize,
    has_failed: bool,
    was_called_again: bool,
}

impl FailingWriter {
    fn new(alloc: Global, writes: usize, flushes: usize) -> FailingWriter {
        FailingWriter {
            written: Vec::new(alloc),
            writes_before_failure: writes,
            flushes_before_failure: flushes,
            has_failed: false,
            was_called_again: false,
        }
    }

    fn failure(&mut self) -> io::Error {
        self.has_failed = true;
        io::Error::from(ErrorKind::Other)
    }
}

impl Write for FailingWriter {
    fn write(&mut self, buf: &[u8]) -> io::Result<usize> {
        self.was_called_again |= self.has_failed;
        if self.writes_before_failure == 0 {
            return Err(self.failure());
        }
        self.writes_before_failure -= 1;
        self.written.write(buf)
    }

    fn flush(&mut self) -> io::Result<()> {
        self.was_called_again |= self.has_failed;
        if self.flushes_before_failure == 0 {
            return Err(self.failure());
        }
        self.flushes_before_failure -= 1;
        Ok(())
    }
}

fn assert_stops_at_failure<R: Host>(rt: &R, mut answers: FailingWriter, answered: usize) {
    let mut faults = Vec::new(rt.alloc());
    let input = ShortReader::new(usize::MAX, ErrorKind::Other);
    let status = prio_run(rt, rt.alloc(), input, &mut answers, &mut faults);
    let wanted = first_answers(rt, answered);
    let ended = (status, answers.written.as_slice(), faults.as_slice());
    expect_run(
        rt,
        answered,
        ended,
        (4, wanted.as_str(), "input or output failed\n"),
    );
    expect_true(
        rt,
        answered,
        answers.has_failed && !answers.was_called_again,
    );
}

// prio: each read and each write fails in turn
#[test]
fn stops_at_a_failed_write(rt: HostRuntime) {
    // Each answer is written by itself, since the reader gives less than two lines at a time.
    for n in 0..5 {
        let answers = FailingWriter::new(rt.alloc(), n, usize::MAX);
        assert_stops_at_failure(&rt, answers, n);
    }
}

#[test]
fn stops_at_a_failed_flush(rt: HostRuntime) {
    // Before each read, and at the end.
    for n in 0..READS + 1 {
        let answers = FailingWriter::new(rt.alloc(), usize::MAX, n);
        assert_stops_at_failure(&rt, answers, lines_in(n));
    }
}

// Such an answer is written past the buffer, while the line is answered.
#[test]
fn stops_at_a_failed_write_of_a_long_answer(rt: HostRuntime) {
    let word = long_word(&rt);
    let word = word.as_str();
    let script = joined(&rt, &["reserved 1\nsend 5 ", word, "\nrecv\nrecv\n"]);
    let all = joined(&rt, &["ok\nok\n", word, " 5\nempty\n"]);
    let mut has_stopped_before_word = false;
    let mut has_met_none = false;
    for n in 0..100 {
        let mut answers = FailingWriter::new(rt.alloc(), n, usize::MAX);
        let mut faults = Vec::new(rt.alloc());
        let status = prio_run(
            &rt,
            rt.alloc(),
            script.as_bytes(),
            &mut answers,
            &mut faults,
        );
        let is_front = all.as_bytes().starts_with(&answers.written);
        expect_true(&rt, n, is_front && !answers.was_called_again);
        if !answers.has_failed {
            expect_equal(&rt, n, (status, answers.written.len()), (0, all.len()));
            has_met_none = true;
            break;
        }
        expect_equal(&rt, n, status, 4);
        has_stopped_before_word |= answers.written.len() == "ok\nok\n".len();
    }
    expect_true(&rt, "the end", has_stopped_before_word && has_met_none);
}

#[test]
fn keeps_the_status_that_it_cannot_explain(rt: HostRuntime) {
    let no_call: &[u8] = b"reserved 1\nhello\n";
    let no_memory: &[u8] = b"reserved 9223372036854775807\n";
    for (script, wanted) in [(no_call, 2), (no_memory, 3)] {
        let mut answers = Vec::new(rt.alloc());
        let mut faults = FailingWriter::new(rt.alloc(), 0, 0);
        let status = prio_run(&rt, rt.alloc(), script, &mut answers, &mut faults);
        expect_equal(&rt, wanted, (faults.has_failed, status), (true, wanted));
    }
    let mut answers = FailingWriter::new(rt.alloc(), 0, 0);
    let mut faults = FailingWriter::new(rt.alloc(), 0, 0);
    let status = prio_run(
        &rt,
        rt.alloc(),
        EXAMPLE.as_bytes(),
        &mut answers,
        &mut faults,
    );
    expect_equal(&rt, "the example", (faults.has_failed, status), (true, 4));
}

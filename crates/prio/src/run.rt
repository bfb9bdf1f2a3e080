//! How a script is read and answered.

use crate::call::{Fault, parse_call};
use crate::channel::Channel;
use memchr::memchr;
use std::alloc::{AllocError, Allocator};
use std::io::{BufRead, BufReader, BufWriter, ErrorKind, Read, Write};
use std::sync::Wait;

// For the input, and for the answers.
const BUFFER_SIZE: usize = 1 << 16;

/// Runs a script. Writes the answers, and on an early end also why it ended. Gives the exit status.
pub fn prio_run<R: Wait + Clone, A: Allocator + Copy, S: Read + Drop, W: Write, E: Write>(
    rt: &R,
    alloc: A,
    input: S,
    answers: &mut W,
    faults: &mut E,
) -> u8 {
    let mut number = 1;
    let Err(fault) = run_script(rt, alloc, input, answers, &mut number) else {
        return 0;
    };
    // A text that cannot be written changes no status.
    let _ = match fault {
        Fault::NotACall => writeln!(faults, "line {number}: not a call"),
        Fault::NoMemory => writeln!(faults, "line {number}: no memory"),
        Fault::Failed => writeln!(faults, "input or output failed"),
    };
    fault as u8
}

// Counts the lines, from 1.
fn run_script<R: Wait + Clone, A: Allocator + Copy, S: Read + Drop, W: Write>(
    rt: &R,
    alloc: A,
    input: S,
    answers: &mut W,
    number: &mut u64,
) -> Result<(), Fault> {
    // Nothing but memory can be wanting.
    let mut input = BufReader::with_capacity(alloc, BUFFER_SIZE, input).or(Err(AllocError))?;
    let mut answers = BufWriter::with_capacity(alloc, BUFFER_SIZE, answers).or(Err(AllocError))?;
    let end = match answer_lines(rt, alloc, &mut input, &mut answers, number) {
        // What could not be written is not tried again.
        Err(Fault::Failed) => Err(Fault::Failed),
        end => answers.flush().map_err(Fault::from).and(end),
    };
    // Nor here: a buffered writer that is dropped whole flushes.
    let (_answers, _unwritten) = answers.into_parts();
    end
}

fn answer_lines<R: Wait + Clone, A: Allocator + Copy, S: Read, W: Write>(
    rt: &R,
    alloc: A,
    input: &mut BufReader<S, A>,
    answers: &mut W,
    number: &mut u64,
) -> Result<(), Fault> {
    let mut line = Vec::new(alloc);
    let opening = read_line(rt, input, answers, &mut line)?.ok_or(Fault::NotACall)?;
    let channel = Channel::open(rt, alloc, opening)?;
    answers.write_all(b"ok\n")?;
    for _ in rt.forever() {
        *number = number.saturating_add(1);
        let Some(text) = read_line(rt, input, answers, &mut line)? else {
            break;
        };
        channel.answer(parse_call(alloc, text)?, answers)?;
    }
    Ok(())
}

// Reads the next line, without its line feed, if there is one. Before it waits for input it writes
// out the answers so far.
fn read_line<'a, R: Wait, A: Allocator, S: Read, W: Write>(
    rt: &R,
    input: &mut BufReader<S, A>,
    answers: &mut W,
    line: &'a mut Vec<u8, A>,
) -> Result<Option<&'a str>, Fault> {
    line.clear();
    for _ in rt.forever() {
        // Only where the buffer is empty can the next look at the input wait.
        if input.buffer().is_empty() {
            answers.flush()?;
        }
        let bytes = match input.fill_buf() {
            Ok(bytes) => bytes,
            Err(e) if e.kind() == ErrorKind::Interrupted => continue,
            Err(_) => return Err(Fault::Failed),
        };
        if bytes.is_empty() && line.is_empty() {
            return Ok(None);
        }
        let length = memchr(b'\n', bytes).unwrap_or(bytes.len());
        let read = bytes.len().min(length + 1);
        line.extend_from_slice(&bytes[..length])?;
        input.consume(read);
        // At a line feed, or where the input ends without one.
        if length < read || read == 0 {
            break;
        }
    }
    str::from_utf8(line).map(Some).or(Err(Fault::NotACall))
}

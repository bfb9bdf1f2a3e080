//! The channel of a script: its calls are made, and their answers written.

use crate::call::{Call, Fault, parse_number};
use async_priority_channel::{
    Receiver, Sender, TryRecvError, TrySendError, bounded, bounded_reserved, unbounded,
};
use itoa::{Buffer, Integer};
use std::alloc::Allocator;
use std::io;
use std::io::Write;
use std::sync::Wait;

// Of a reserved channel: memory for more cannot be had at once.
const MOST: u64 = (1 << 63) - 1;

#[derive(Drop)]
pub struct Channel<R: Wait + Clone, A: Allocator + Copy> {
    tx: Sender<String<A>, i64, R, A>,
    rx: Receiver<String<A>, i64, R, A>,
}

impl<R: Wait + Clone, A: Allocator + Copy> Channel<R, A> {
    /// Makes the channel that a first line asks for.
    pub fn open(rt: &R, alloc: A, line: &str) -> Result<Self, Fault> {
        let (kind, capacity) = match line.split_once(' ') {
            Some((kind, capacity)) => (kind, Some(parse_number(capacity)?)),
            None => (line, None),
        };
        let (tx, rx) = match (kind, capacity) {
            ("bounded", Some(capacity @ 1..)) => bounded(rt, alloc, capacity)?,
            ("reserved", Some(capacity @ 1..=MOST)) => bounded_reserved(rt, alloc, capacity)?,
            ("unbounded", None) => unbounded(rt, alloc)?,
            _ => return Err(Fault::NotACall),
        };
        Ok(Channel { tx, rx })
    }

    /// Makes a call, and writes its answer.
    pub fn answer<W: Write>(&self, call: Call<A>, answers: &mut W) -> io::Result<()> {
        match call {
            Call::Send(word, priority) => answers.write_all(
                match self.tx.try_send(word, priority) {
                    Ok(()) => b"ok\n",
                    Err(TrySendError::Full(_)) => b"full\n",
                    Err(TrySendError::Closed(_)) => b"closed\n",
                    Err(TrySendError::Memory(_)) => b"memory\n",
                },
            ),
            Call::Sendv(pairs) => {
                let (answer, rest) = match self.tx.try_sendv(pairs.into_iter().peekable()) {
                    Ok(()) => return answers.write_all(b"ok\n"),
                    Err(TrySendError::Full(rest)) => ("full", rest),
                    Err(TrySendError::Closed(rest)) => ("closed", rest),
                    Err(TrySendError::Memory(rest)) => ("memory", rest),
                };
                writeln!(answers, "{answer} {}", rest.count())
            }
            Call::Recv => match self.rx.try_recv() {
                Ok((word, priority)) => {
                    answers.write_all(word.as_bytes())?;
                    answers.write_all(b" ")?;
                    write_number(priority, answers)
                }
                Err(TryRecvError::Empty) => answers.write_all(b"empty\n"),
                Err(TryRecvError::Closed) => answers.write_all(b"closed\n"),
            },
            Call::Close => writeln!(answers, "{}", self.tx.close()),
            Call::Len => write_number(self.tx.len(), answers),
            Call::Capacity => match self.tx.capacity() {
                Some(capacity) => write_number(capacity, answers),
                None => answers.write_all(b"none\n"),
            },
        }
    }
}

fn write_number<N: Integer, W: Write>(number: N, answers: &mut W) -> io::Result<()> {
    answers.write_all(Buffer::new().format(number).as_bytes())?;
    answers.write_all(b"\n")
}

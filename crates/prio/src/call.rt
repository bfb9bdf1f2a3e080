//! Which lines are calls.

use memchr::memchr_iter;
use std::alloc::{AllocError, Allocator};
use std::io;
use std::str::FromStr;

/// What ends a script before its input does. The number is the exit status.
#[derive(Clone, Copy)]
pub enum Fault {
    NotACall = 2,
    NoMemory = 3,
    /// A read of the input or a write of an answer failed.
    Failed = 4,
}

impl From<AllocError> for Fault {
    fn from(_: AllocError) -> Fault {
        Fault::NoMemory
    }
}

impl From<io::Error> for Fault {
    fn from(_: io::Error) -> Fault {
        Fault::Failed
    }
}

/// A message and its priority.
type Pair<A> = (String<A>, i64);

/// What a line asks for, after the first.
#[derive(Drop)]
pub enum Call<A: Allocator> {
    Send(String<A>, i64),
    Sendv(Vec<Pair<A>, A>),
    Recv,
    Close,
    Len,
    Capacity,
}

pub fn parse_call<A: Allocator + Copy>(alloc: A, line: &str) -> Result<Call<A>, Fault> {
    let (name, fields) = match line.split_once(' ') {
        Some((name, fields)) => (name, Some(fields)),
        None => (line, None),
    };
    match (name, fields) {
        ("send", Some(pair)) => {
            let (priority, word) = pair.split_once(' ').ok_or(Fault::NotACall)?;
            let (word, priority) = parse_pair(alloc, priority, word)?;
            Ok(Call::Send(word, priority))
        }
        ("sendv", None) => Ok(Call::Sendv(Vec::new(alloc))),
        ("sendv", Some(pairs)) => Ok(Call::Sendv(parse_pairs(alloc, pairs)?)),
        ("recv", None) => Ok(Call::Recv),
        ("close", None) => Ok(Call::Close),
        ("len", None) => Ok(Call::Len),
        ("capacity", None) => Ok(Call::Capacity),
        _ => Err(Fault::NotACall),
    }
}

fn parse_pairs<A: Allocator + Copy>(alloc: A, fields: &str) -> Result<Vec<Pair<A>, A>, Fault> {
    // Each pair has one space in it, and one before the next.
    let count = memchr_iter(b' ', fields.as_bytes()).count() / 2 + 1;
    let mut pairs = Vec::with_capacity(alloc, count)?;
    let mut fields = fields.split(' ');
    while let Some(priority) = fields.next() {
        let word = fields.next().ok_or(Fault::NotACall)?;
        let pair = parse_pair(alloc, priority, word)?;
        pairs.push(pair).or(Err(AllocError))?;
    }
    Ok(pairs)
}

fn parse_pair<A: Allocator>(alloc: A, priority: &str, word: &str) -> Result<Pair<A>, Fault> {
    let priority = parse_number(priority)?;
    if word.is_empty() || !word.bytes().all(|b| b.is_ascii_graphic()) {
        return Err(Fault::NotACall);
    }
    Ok((String::from_str(alloc, word)?, priority))
}

/// A number as it is printed: `parse` also takes a `+` and leading zeros.
pub fn parse_number<N: FromStr<Err: Drop> + Drop>(field: &str) -> Result<N, Fault> {
    let digits = field.strip_prefix('-').unwrap_or(field);
    if field != "0" && !matches!(digits.as_bytes().first(), Some(b'1'..=b'9')) {
        return Err(Fault::NotACall);
    }
    field.parse().or(Err(Fault::NotACall))
}

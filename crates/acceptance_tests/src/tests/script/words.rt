//! The words of a script.
ghost use Rattle.std.specs.Prelude.{◌<◌, ◌≤◌};

use std::alloc::AllocGlobal;
use std::fmt::{Debug, Display};
use std::iter::Peekable;
use std::process::Abort;
use std::vec::IntoIter;

/// The greatest capacity of a reserved channel.
pub const MOST_RESERVED: u64 = 9223372036854775807;

/// A script, and each word of it.
pub type Text = &'static str;

/// A message is a word of the script. What plays it is generic in the message, since a function
/// that names a type with a reference in it is dear to prove.
pub trait Message: Copy + Ord + Debug + Display + Drop {
    fn of(word: Text) -> Self;
}

impl Message for Text {
    fn of(word: Text) -> Self {
        word
    }
}

pub type Pair<T> = (T, u64);

/// The messages of a bulk send.
pub type Bulk<T> = Peekable<IntoIter<Pair<T>>>;

/// Fails at a call that there is not.
pub fn no_call<T>(rt: &impl Abort, call: &[Text]) -> T {
    panic!(rt; "there is no call {call:?}")
}

pub fn split<R: Abort + AllocGlobal>(rt: &R, line: Text) -> Vec<Text> {
    line.split_whitespace()
        .collect(rt.alloc())
        .expect(rt, "memory")
}

pub fn number(rt: &impl Abort, word: Text) -> u64 {
    word.parse().ok().expect(rt, "a number")
}

/// `20 times` and what is done as often.
pub fn times<'w>(rt: &impl Abort, words: &'w [Text]) -> (u64, &'w [Text]) {
    match words {
        [count, "times", words @ ..] => (number(rt, *count), words),
        words => (1, words),
    }
}

/// The capacity of a channel, at most this.
pub fn capacity(rt: &impl Abort, word: Text, most: u64) -> u64
    ensures positive { 0 < result }
    ensures fits { result ≤ most }
{
    let capacity = number(rt, word);
    assert!(rt; 0 < capacity && capacity <= most);
    capacity
}

// What the word has between these.
fn between(word: Text, before: &str, behind: &str) -> Option<Text> {
    word.strip_prefix(before)?.strip_suffix(behind)
}

/// `(Foo,0)` is the message `Foo` of priority 0.
pub fn pair<T: Message>(rt: &impl Abort, word: Text) -> Pair<T> {
    let inner = between(word, "(", ")").expect(rt, "a pair");
    let (msg, priority) = inner.split_once(',').expect(rt, "a pair");
    (T::of(msg), number(rt, priority))
}

/// `None` or `Some(0)`.
pub fn ticket(rt: &impl Abort, word: Text) -> Option<u64> {
    if word == "None" {
        return None;
    }
    Some(number(rt, between(word, "Some(", ")").expect(rt, "a ticket")))
}

/// The waker `w1` is the number 1.
pub fn waker(rt: &impl Abort, word: Text) -> u64 {
    number(rt, between(word, "w", "").expect(rt, "a waker"))
}

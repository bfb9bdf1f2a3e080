//! The words of a script, and the texts of answers.
use std::alloc::AllocGlobal;
use std::fmt::Debug;
use std::iter::Peekable;
use std::process::Abort;
use std::random::RandomSource;
use std::sync::Wait;
use std::thread::Threads;
use std::time::Clock;
use std::vec::IntoIter;

/// What a test's runtime can do.
pub trait Host: Wait + Clone + Clock + RandomSource + AllocGlobal + Abort + Threads + Sync {}

impl<R: Wait + Clone + Clock + RandomSource + AllocGlobal + Abort + Threads + Sync> Host for R {}

/// A script, and each word of it.
pub type Text = &'static str;

/// Messages for a bulk send.
pub type Bulk = Peekable<IntoIter<(char, u64)>>;

pub fn number(rt: &impl Host, word: &str) -> u64 {
    word.parse().ok().expect(rt, "a number")
}

pub fn letter(rt: &impl Host, word: &str) -> char {
    word.chars().next().expect(rt, "a letter")
}

/// `a 1 b 2` is two messages, each with its priority.
pub fn pairs(rt: &impl Host, words: &[Text]) -> Bulk {
    let mut pairs = Vec::new(rt.alloc());
    for pair in words.chunks(2) {
        if let [msg, priority] = pair {
            let pair = (letter(rt, *msg), number(rt, *priority));
            pairs.push(pair).expect(rt, "memory");
        }
    }
    pairs.into_iter().peekable()
}

pub fn told(rt: &impl Host, answer: impl Debug + Drop) -> String {
    format!(in rt.alloc(); "{answer:?}").expect(rt, "memory")
}

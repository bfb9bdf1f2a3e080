//! What is asked of the server, and what it answers.

use async_priority_channel::{Receiver, Sender};
use std::cmp::Reverse;
use std::fmt;
use std::sync::Wait;

/// A time on the server's clock.
pub type Tick = u64;

#[derive(Drop)]
pub struct Request<R: Wait + Clone> {
    /// Which it is of those that wait for the same turn.
    pub number: usize,
    pub work: Tick,
    pub reply: Sender<Answer, (), R>,
}

/// The earliest deadline is the greatest priority.
pub type Requests<R> = Sender<Request<R>, Reverse<Tick>, R>;

pub type Queue<R> = Receiver<Request<R>, Reverse<Tick>, R>;

#[derive(Clone, Copy, Debug, Drop, PartialEq, Eq)]
pub enum Answer {
    Served { at: Tick },
    /// It would not have been served by its deadline.
    Late,
    /// There was no room for it beside those of earlier deadlines.
    Busy,
    /// It was cancelled before its turn.
    Cancelled,
}

impl fmt::Display for Answer {
    fn fmt<W: fmt::Write>(&self, f: &mut fmt::Formatter<W>) -> fmt::Result {
        match self {
            Answer::Served { at } => write!(f, "served at {at}"),
            Answer::Late => f.write_str("late"),
            Answer::Busy => f.write_str("busy"),
            Answer::Cancelled => f.write_str("cancelled"),
        }
    }
}

//! What comes of a call, in one form for all of them.
ghost use Rattle.std.specs.Iterator.{IsFinite};

use crate::Runtime;
use crate::calls::Pair;
use async_priority_channel::{
    RecvFault, RecvTimeoutError, SendFault, SendTimeoutError, TryRecvError, TryRecvManyError,
    TrySendError,
};

#[derive(Clone, Copy, Debug, PartialEq)]
pub struct Looks {
    pub len: u64,
    pub is_empty: bool,
    pub is_full: bool,
    pub is_closed: bool,
    /// How many places are held.
    pub held: u64,
    pub capacity: Option<u64>,
    pub sender_count: usize,
    pub receiver_count: usize,
    /// How many messages are odd numbers.
    pub odd: u64,
    /// The sum of all messages, each as often as its priority says and once more.
    pub sum: u64,
    /// Whether the handle is one of the same channel as itself.
    pub is_of_itself: bool,
}

/// The sum with one more pair, in whatever order they come.
pub fn weighed(sum: u64, msg: u64, priority: u64) -> u64 {
    sum.wrapping_add(msg.wrapping_mul(priority.wrapping_add(1)))
}

#[derive(Clone, Copy, Debug, PartialEq)]
pub enum Outcome {
    Done,
    Full,
    Empty,
    Closed,
    Memory,
    Timeout,
    /// A future is pending, or a call would wait without end.
    Waits,
    /// A loop or a stream has ended.
    Ended,
    /// There is no such handle, or no such call of it.
    Impossible,
    /// There was no memory for another handle or for the reply, or no clock: no call has this.
    Broken,
    Was(bool),
    Looks(Looks),
}

#[derive(Debug, Drop, PartialEq)]
pub struct Reply {
    pub outcome: Outcome,
    /// What was received or seen, made room, or came back.
    pub pairs: Vec<Pair>,
}

impl Reply {
    pub fn new(rt: &impl Runtime, outcome: Outcome) -> Self {
        Reply {
            outcome,
            pairs: Vec::new(rt.alloc()),
        }
    }

    pub fn with<I: Iterator<Item = Pair> + Drop>(
        rt: &impl Runtime,
        outcome: Outcome,
        pairs: I,
    ) -> Self
        requires { I.can_next pairs × IsFinite (I.remaining pairs) }
    {
        let mut reply = Reply::new(rt, outcome);
        for pair in pairs {
            reply.push(pair);
        }
        reply
    }

    pub(crate) fn push(&mut self, pair: Pair) {
        if self.pairs.push(pair).is_err() {
            self.outcome = Outcome::Broken;
        }
    }

    /// Done with the pair, or that there is none.
    pub fn found(rt: &impl Runtime, found: Option<Pair>, none: Outcome) -> Self {
        match found {
            Some(_) => Reply::with(rt, Outcome::Done, found.into_iter()),
            None => Reply::new(rt, none),
        }
    }
}

/// An error, and what it gives back.
pub trait Refusal<T> {
    fn tell(self) -> (Outcome, T);
}

impl<T> Refusal<T> for TrySendError<T> {
    fn tell(self) -> (Outcome, T) {
        match self {
            TrySendError::Full(unsent) => (Outcome::Full, unsent),
            TrySendError::Closed(unsent) => (Outcome::Closed, unsent),
            TrySendError::Memory(unsent) => (Outcome::Memory, unsent),
        }
    }
}

impl<T> Refusal<T> for SendFault<T> {
    fn tell(self) -> (Outcome, T) {
        SendTimeoutError::from(self).tell()
    }
}

impl<T> Refusal<T> for SendTimeoutError<T> {
    fn tell(self) -> (Outcome, T) {
        match self {
            SendTimeoutError::Timeout(unsent) => (Outcome::Timeout, unsent),
            SendTimeoutError::Closed(unsent) => (Outcome::Closed, unsent),
            SendTimeoutError::Memory(unsent) => (Outcome::Memory, unsent),
        }
    }
}

impl Refusal<()> for TryRecvManyError {
    fn tell(self) -> (Outcome, ()) {
        match self {
            TryRecvManyError::Empty => (Outcome::Empty, ()),
            TryRecvManyError::Closed => (Outcome::Closed, ()),
            TryRecvManyError::Memory => (Outcome::Memory, ()),
        }
    }
}

impl Refusal<()> for RecvTimeoutError {
    fn tell(self) -> (Outcome, ()) {
        match self {
            RecvTimeoutError::Timeout => (Outcome::Timeout, ()),
            RecvTimeoutError::Closed => (Outcome::Closed, ()),
            RecvTimeoutError::Memory => (Outcome::Memory, ()),
        }
    }
}

impl Refusal<()> for TryRecvError {
    fn tell(self) -> (Outcome, ()) {
        TryRecvManyError::from(self).tell()
    }
}

impl Refusal<()> for RecvFault {
    fn tell(self) -> (Outcome, ()) {
        RecvTimeoutError::from(self).tell()
    }
}

//! A plain channel, on one thread.
use super::notes::{Call, Pair, Refusal, Refused, Reply};
use std::alloc::{AllocError, Global};

pub const CAPACITY: u64 = 3;

/// The pending pairs, in the order in which they are to be received, and whether it is closed.
#[derive(Drop)]
pub struct Model {
    pending: Vec<Pair>,
    is_closed: bool,
}

impl Model {
    pub fn new(alloc: Global) -> Self {
        Model {
            pending: Vec::new(alloc),
            is_closed: false,
        }
    }

    pub fn copy(&self) -> Result<Self, AllocError> {
        Ok(Model {
            pending: self.pending.clone()?,
            is_closed: self.is_closed,
        })
    }

    /// Makes a call. One that waits is made where it ends, so it is as one that does not.
    pub fn make(&mut self, call: Call) -> Result<Reply, AllocError> {
        Ok(match call {
            Call::Send(_, pair) => Reply::Sent(self.send(pair)?),
            Call::SendEvicting(pair) => Reply::Displaced(self.send_evicting(pair)?),
            Call::Sendv(pairs) => Reply::SentMany(self.send_many(pairs)?),
            Call::Recv(_) => Reply::Received(self.receive()),
            Call::Len => Reply::Number(self.pending.len() as u64),
            Call::IsEmpty => Reply::Bool(self.pending.is_empty()),
            Call::IsFull => Reply::Bool(self.is_full()),
            Call::IsClosed => Reply::Bool(self.is_closed),
            Call::Close => Reply::Bool(self.close()),
        })
    }

    fn is_full(&self) -> bool {
        self.pending.len() as u64 == CAPACITY
    }

    // Behind those of its priority, which were accepted before it.
    fn send(&mut self, pair: Pair) -> Result<Result<(), Refused>, AllocError> {
        if self.is_closed {
            return Ok(Err((Refusal::Closed, pair)));
        }
        if self.is_full() {
            return Ok(Err((Refusal::Blocked, pair)));
        }
        match self.pending.iter().position(|other| other.1 < pair.1) {
            Some(at) => self.pending.insert(at, pair)?,
            None => self.pending.push(pair)?,
        }
        Ok(Ok(()))
    }

    fn send_evicting(&mut self, pair: Pair) -> Result<Result<Option<Pair>, Refused>, AllocError> {
        if self.is_closed || !self.is_full() {
            return Ok(self.send(pair)?.map(|()| None));
        }
        match self.pending.pop() {
            Some(least) if least.1 < pair.1 => {
                let sent = self.send(pair)?;
                Ok(sent.map(|()| Some(least)))
            }
            Some(least) => {
                self.pending.push(least)?;
                Ok(Err((Refusal::Blocked, pair)))
            }
            None => Ok(Err((Refusal::Blocked, pair))),
        }
    }

    // Whatever is behind one that was refused is refused too.
    fn send_many(&mut self, pairs: [Pair; 3]) -> Result<[Option<Refused>; 3], AllocError> {
        let [first, second, third] = pairs;
        let first = self.send(first)?.err();
        let second = self.send(second)?.err();
        let third = self.send(third)?.err();
        Ok(if first.is_some() {
            [first, second, third]
        } else if second.is_some() {
            [second, third, None]
        } else {
            [third, None, None]
        })
    }

    fn receive(&mut self) -> Result<Pair, Refusal> {
        if !self.pending.is_empty() {
            Ok(self.pending.remove(0))
        } else if self.is_closed {
            Err(Refusal::Closed)
        } else {
            Err(Refusal::Blocked)
        }
    }

    fn close(&mut self) -> bool {
        let was_open = !self.is_closed;
        self.is_closed = true;
        was_open
    }
}

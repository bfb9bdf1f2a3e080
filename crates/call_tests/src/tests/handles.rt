//! The handles of one channel, and any call on them.
use super::Host;
use async_priority_channel::{End, Ends, Receiver, Role, Sender};
use named_calls::{Call, Input, Outcome, Reply, Side, receive, send};
use std::alloc::{Allocator, Global};
use std::sync::Wait;

/// Senders and receivers of one channel, of which the last of either kind makes the calls.
#[derive(Drop)]
pub struct Handles<R: Wait + Clone, A: Allocator + Copy = Global> {
    alloc: A,
    senders: Vec<Sender<u64, u64, R, A>>,
    receivers: Vec<Receiver<u64, u64, R, A>>,
}

impl<R: Host, A: Allocator + Copy> Handles<R, A> {
    /// The allocator of the channel serves its batches too.
    pub fn new(rt: &R, alloc: A, ends: Ends<u64, u64, R, A>) -> Self {
        let (tx, rx) = ends;
        let mut senders = Vec::new(rt.alloc());
        senders.push(tx).expect(rt, "memory for a handle");
        let mut receivers = Vec::new(rt.alloc());
        receivers.push(rx).expect(rt, "memory for a handle");
        Handles {
            alloc,
            senders,
            receivers,
        }
    }

    /// Makes a call.
    pub fn make(&mut self, rt: &R, call: Call, input: Input) -> Reply {
        let outcome = match call {
            Call::Clone(Side::Sender) => clone_last(rt, &mut self.senders),
            Call::Clone(Side::Receiver) => clone_last(rt, &mut self.receivers),
            Call::Upgrade(Side::Sender) => upgrade_last(rt, &mut self.senders),
            Call::Upgrade(Side::Receiver) => upgrade_last(rt, &mut self.receivers),
            Call::Drop(Side::Sender) => drop_last(&mut self.senders),
            Call::Drop(Side::Receiver) => drop_last(&mut self.receivers),
            _by_a_handle => return self.make_by_last(rt, call, input),
        };
        Reply::new(rt, outcome)
    }

    fn make_by_last(&self, rt: &R, call: Call, input: Input) -> Reply {
        match (call.side(), self.senders.last(), self.receivers.last()) {
            (Side::Sender, Some(tx), _) => send(rt, tx, call, input),
            (Side::Receiver, _, Some(rx)) => receive(rt, self.alloc, rx, call, input),
            _gone => Reply::new(rt, Outcome::Impossible),
        }
    }
}

fn clone_last<S: Role, R: Host, A: Allocator + Copy>(
    rt: &R,
    handles: &mut Vec<End<S, u64, u64, R, A>>,
) -> Outcome {
    let Some(last) = handles.last() else {
        return Outcome::Impossible;
    };
    let other = last.clone().expect(rt, "a handle");
    handles.push(other).expect(rt, "memory for handles");
    Outcome::Done
}

fn upgrade_last<S: Role, R: Host, A: Allocator + Copy>(
    rt: &R,
    handles: &mut Vec<End<S, u64, u64, R, A>>,
) -> Outcome {
    let Some(last) = handles.last() else {
        return Outcome::Impossible;
    };
    let (other, is_closed) = upgraded(rt, last);
    if let Some(other) = other {
        handles.push(other).expect(rt, "memory for handles");
    }
    Outcome::Was(is_closed)
}

// Another one, by the clone of a weak handle, which also tells whether the channel is closed.
fn upgraded<S: Role, R: Host, A: Allocator + Copy>(
    rt: &R,
    end: &End<S, u64, u64, R, A>,
) -> (Option<End<S, u64, u64, R, A>>, bool) {
    let weak = end.downgrade().expect(rt, "a weak handle");
    let weak = weak.clone().expect(rt, "a weak handle");
    (weak.upgrade(), weak.is_closed())
}

fn drop_last<H: Drop>(handles: &mut Vec<H>) -> Outcome {
    match handles.pop() {
        Some(_) => Outcome::Done,
        None => Outcome::Impossible,
    }
}

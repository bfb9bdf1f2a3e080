//! The two sides of a channel, so that a test is written once for both.
use super::{Host, expect_true};
use async_priority_channel::{Receiver, Sender, bounded_reserved};
use named_calls::{
    Call, Input, Outcome, Pairs, Reply, Side, Way, is_choosy, is_for_close, receive, send,
};
use std::alloc::{Allocator, Global};
use std::sync::Wait;
use std::time::Duration;

/// A sender waits for room, and a receiver for a message.
pub const SIDES: [Side; 2] = [Side::Sender, Side::Receiver];

pub fn is_bulk(call: Call) -> bool {
    matches!(call, Call::Sendv(_))
}

/// How often a wait asks for memory: for a waiter, and for an entry in the list of those that wait.
/// The first wait with a condition, as that for the close, also asks for these lists, which a
/// channel makes only then. None where that is not told: a batch asks for its memory too, a loop
/// never fails, and a task asks for more.
pub fn requests_of(call: Call) -> Option<u64> {
    match call {
        _ if !call.waits() || call.way() == Way::Future => None,
        Call::Send(_) | Call::Sendv(_) | Call::Reserve(_) => Some(2),
        Call::Recv(_) | Call::Lease(_) => Some(2),
        Call::Closed(..) => Some(3),
        _ if is_choosy(call) => Some(3),
        _ => None,
    }
}

/// The calls that wait for a limited time.
pub const TIMED: [Call; 24] = [
    Call::Send(Way::Timeout),
    Call::Send(Way::Deadline),
    Call::Sendv(Way::Timeout),
    Call::Sendv(Way::Deadline),
    Call::Reserve(Way::Timeout),
    Call::Reserve(Way::Deadline),
    Call::Recv(Way::Timeout),
    Call::Recv(Way::Deadline),
    Call::Lease(Way::Timeout),
    Call::Lease(Way::Deadline),
    Call::RecvMany(Way::Timeout),
    Call::RecvMany(Way::Deadline),
    Call::RecvWhere(Way::Timeout),
    Call::RecvWhere(Way::Deadline),
    Call::RecvWhen(Way::Timeout),
    Call::RecvWhen(Way::Deadline),
    Call::LeaseWhere(Way::Timeout),
    Call::LeaseWhere(Way::Deadline),
    Call::LeaseWhen(Way::Timeout),
    Call::LeaseWhen(Way::Deadline),
    Call::Closed(Side::Sender, Way::Timeout),
    Call::Closed(Side::Sender, Way::Deadline),
    Call::Closed(Side::Receiver, Way::Timeout),
    Call::Closed(Side::Receiver, Way::Deadline),
];

/// What came of a call, how many messages came or came back, and the first of them.
pub type Answer = (Outcome, usize, u64);

/// That of a call that was blocked, once it can go on.
pub fn done(call: Call) -> Answer {
    if call.side() == Side::Sender || is_for_close(call) {
        return (Outcome::Done, 0, 0);
    }
    (Outcome::Done, 1, 7)
}

/// That of a call that was blocked and has ended by this.
pub fn refused(call: Call, outcome: Outcome) -> Answer {
    match call {
        Call::Send(_) | Call::Reserve(_) => (outcome, 1, 7),
        Call::Sendv(_) => (outcome, 1, 8),
        _ => (outcome, 0, 0),
    }
}

/// That by a close.
pub fn closed(call: Call) -> Answer {
    let outcome = match call {
        Call::Iter | Call::IntoIter | Call::Leases => Outcome::Ended,
        Call::Stream(_) | Call::IntoStream(_) => Outcome::Ended,
        Call::Closed(..) => Outcome::Done,
        _ => Outcome::Closed,
    };
    refused(call, outcome)
}

fn answer_of(reply: &Reply) -> Answer {
    let first = reply.pairs.first().map_or(0, |(msg, _)| *msg);
    (reply.outcome, reply.pairs.len(), first)
}

/// How many are pending as a call is blocked, and as it has ended: where one was received, another
/// one was sent.
pub fn pending_after(call: Call) -> u64 {
    match call.side() {
        Side::Sender => 2,
        Side::Receiver => 0,
    }
}

/// A limit that no wait reaches which ends as it should.
pub fn long() -> Duration {
    Duration::from_secs(60)
}

// A sender sends the 7, or the 7 and the 8, each with itself as its priority. A batch or a loop
// receives one, and a condition is that the number is odd.
fn input(limit: Duration) -> Input {
    Input {
        pairs: Pairs::new(7, 2, u64::MAX),
        most: 1,
        limit,
        chosen: 7,
    }
}

/// A handle of either side.
#[derive(Drop)]
pub enum Either<R: Wait + Clone, A: Allocator + Copy = Global> {
    Sender(Sender<u64, u64, R, A>),
    Receiver(Receiver<u64, u64, R, A>),
}

impl<R: Host, A: Allocator + Copy> Either<R, A> {
    pub fn another(&self, rt: &R) -> Self {
        match self {
            Either::Sender(tx) => Either::Sender(tx.clone().expect(rt, "a sender")),
            Either::Receiver(rx) => Either::Receiver(rx.clone().expect(rt, "a receiver")),
        }
    }

    pub fn side(&self) -> Side {
        match self {
            Either::Sender(_) => Side::Sender,
            Either::Receiver(_) => Side::Receiver,
        }
    }

    /// Lets one of the other side go on: sends the 7, or receives. Tells whether it could.
    pub fn help(&self) -> bool {
        match self {
            Either::Sender(tx) => tx.try_send(7, 7).is_ok(),
            Either::Receiver(rx) => rx.try_recv().is_ok(),
        }
    }

    /// Brings what a call of the other side waits for. Tells whether it could.
    pub fn bring(&self, call: Call) -> bool {
        if is_for_close(call) {
            self.close()
        } else {
            self.help()
        }
    }

    pub fn close(&self) -> bool {
        match self {
            Either::Sender(tx) => tx.close(),
            Either::Receiver(rx) => rx.close(),
        }
    }

    pub fn len(&self) -> u64 {
        match self {
            Either::Sender(tx) => tx.len(),
            Either::Receiver(rx) => rx.len(),
        }
    }

    /// Makes a call of its side. A batch gets its memory from `alloc`.
    pub fn make(&self, rt: &R, alloc: A, call: Call, limit: Duration) -> Answer {
        answer_of(&match self {
            Either::Sender(tx) => send(rt, tx, call, input(limit)),
            Either::Receiver(rx) => receive(rt, alloc, rx, call, input(limit)),
        })
    }
}

/// A channel for two in which this call is blocked: the handle whose call it is, and one of the
/// other side. Where it is full, the 1 and the 2 are pending; but before a bulk send the 1 alone,
/// so that its 7 is sent at once.
pub fn block<R: Host, A: Allocator + Copy>(
    rt: &R,
    alloc: A,
    call: Call,
) -> (Either<R, A>, Either<R, A>) {
    let (tx, rx) = bounded_reserved(rt, alloc, 2).expect(rt, "a channel");
    match call.side() {
        Side::Receiver => (Either::Receiver(rx), Either::Sender(tx)),
        Side::Sender => {
            let mut has_room = tx.try_send(1, 1).is_ok();
            if !is_bulk(call) {
                has_room = has_room & tx.try_send(2, 2).is_ok();
            }
            expect_true(rt, has_room, "there is room for two");
            (Either::Sender(tx), Either::Receiver(rx))
        }
    }
}

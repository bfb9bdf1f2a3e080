//! The calls of a receiver.
ghost use Rattle.std.specs.Iterator.{IsFinite};

use crate::Runtime;
use crate::calls::{Call, Input, Pair};
use crate::either::{answer_of, make_by_either};
use crate::reply::{Outcome, Refusal, Reply};
use crate::sending::done_if;
use crate::timed::Timed;
use async_priority_channel::{Due, Lease, Receiver, TryRecvError, TryRecvManyError};
use futures::StreamExt;
use std::alloc::Allocator;
use std::iter::once;
use std::sync::Wait;

/// Makes a call of a receiver. A batch gets its memory from the allocator that is given.
pub fn receive<R: Runtime, A: Allocator + Copy, B: Allocator + Copy>(
    rt: &R,
    alloc: B,
    rx: &Receiver<u64, u64, R, A>,
    call: Call,
    input: Input,
) -> Reply {
    let Some(timed) = Timed::new(rt, call.way(), input.limit) else {
        return Reply::new(rt, Outcome::Broken);
    };
    match call {
        Call::Recv(_) => receive_one(rt, rx, timed),
        Call::RecvMany(_) => receive_many(rt, alloc, rx, timed, input.most),
        Call::RecvWhere(_) => receive_where(rt, rx, timed, input),
        Call::RecvWhen(_) => receive_when(rt, rx, timed, input),
        Call::Lease(_) => lease_one(rt, rx, timed),
        Call::LeaseIf => finish_if(rt, rx, rx.try_lease_if(|msg, _| input.is_kind_of(*msg))),
        Call::LeaseWhere(_) => lease_where(rt, rx, timed, input),
        Call::LeaseWhen(_) => lease_when(rt, rx, timed, input),
        Call::Leases => finish_all(rt, rx, input.most),
        Call::PutBack => put_back(rt, rx, Some(input.pair().1)),
        Call::DropLease => put_back(rt, rx, None),
        Call::RecvIf => tell_if(rt, rx.try_recv_if(|msg, _| input.is_kind_of(*msg))),
        Call::TryIter | Call::Iter | Call::IntoIter => receive_in_a_loop(rt, rx, call, input.most),
        Call::Stream(_) => tell_next(rt, answer_of(rt, timed, rx.stream().next())),
        Call::IntoStream(_) => receive_from_a_stream(rt, rx, timed),
        Call::PeekWith | Call::PeekPriority => peek(rt, rx, call),
        _by_either => make_by_either(rt, rx, call, timed, input),
    }
}

fn receive_one<R: Runtime, A: Allocator + Copy>(
    rt: &R,
    rx: &Receiver<u64, u64, R, A>,
    timed: Timed,
) -> Reply {
    match timed {
        Timed::Try => tell_one(rt, Some(rx.try_recv())),
        Timed::Blocking => tell_one(rt, Some(rx.recv_blocking())),
        Timed::Timeout(limit) => tell_one(rt, Some(rx.recv_timeout(limit))),
        Timed::Deadline(deadline) => tell_one(rt, Some(rx.recv_deadline(deadline))),
        Timed::Poll | Timed::Future => tell_one(rt, answer_of(rt, timed, rx.recv())),
    }
}

fn lease_one<R: Runtime, A: Allocator + Copy>(
    rt: &R,
    rx: &Receiver<u64, u64, R, A>,
    timed: Timed,
) -> Reply {
    match timed {
        Timed::Try => finish(rt, rx, Some(rx.try_lease())),
        Timed::Blocking => finish(rt, rx, Some(rx.lease_blocking())),
        Timed::Timeout(limit) => finish(rt, rx, Some(rx.lease_timeout(limit))),
        Timed::Deadline(deadline) => finish(rt, rx, Some(rx.lease_deadline(deadline))),
        Timed::Poll | Timed::Future => finish(rt, rx, answer_of(rt, timed, rx.lease())),
    }
}

fn receive_in_a_loop<R: Runtime, A: Allocator + Copy>(
    rt: &R,
    rx: &Receiver<u64, u64, R, A>,
    call: Call,
    most: usize,
) -> Reply {
    match call {
        Call::TryIter => tell_loop(rt, rx.try_iter().take(most), most),
        Call::Iter => tell_loop(rt, rx.iter().take(most), most),
        _into_iter => match rx.clone() {
            Ok(other) => tell_loop(rt, other.into_iter().take(most), most),
            Err(_) => Reply::new(rt, Outcome::Broken),
        },
    }
}

fn receive_from_a_stream<R: Runtime, A: Allocator + Copy>(
    rt: &R,
    rx: &Receiver<u64, u64, R, A>,
    timed: Timed,
) -> Reply {
    match rx.clone() {
        Ok(other) => tell_next(rt, answer_of(rt, timed, other.into_stream().next())),
        Err(_) => Reply::new(rt, Outcome::Broken),
    }
}

fn peek<R: Runtime, A: Allocator + Copy>(
    rt: &R,
    rx: &Receiver<u64, u64, R, A>,
    call: Call,
) -> Reply {
    let seen = match call {
        Call::PeekWith => Ok(rx.peek_with(|msg, priority| (*msg, *priority))),
        _priority => rx
            .peek_priority()
            .map(|seen| seen.map(|priority| (0, priority))),
    };
    match seen {
        Ok(seen) => Reply::found(rt, seen, Outcome::Empty),
        Err(_) => Reply::new(rt, Outcome::Broken),
    }
}

/// Finishes the message that was leased.
pub fn finish<R: Wait + Clone, A: Allocator + Copy, E: Refusal<()> + Drop>(
    rt: &impl Runtime,
    rx: &Receiver<u64, u64, R, A>,
    leased: Option<Result<Lease<'_, u64, u64, R, A>, E>>,
) -> Reply {
    match leased {
        Some(Ok(lease)) => finish_held(rt, rx, lease),
        Some(Err(refusal)) => Reply::new(rt, refusal.tell().0),
        None => Reply::new(rt, Outcome::Waits),
    }
}

fn finish_held<R: Wait + Clone, A: Allocator + Copy>(
    rt: &impl Runtime,
    rx: &Receiver<u64, u64, R, A>,
    lease: Lease<'_, u64, u64, R, A>,
) -> Reply {
    let is_held = rx.held() > 0;
    Reply::with(rt, done_if(is_held), once(lease.finish()))
}

// Also that what is pending is not for it.
fn finish_if<R: Wait + Clone, A: Allocator + Copy>(
    rt: &impl Runtime,
    rx: &Receiver<u64, u64, R, A>,
    leased: Result<Option<Lease<'_, u64, u64, R, A>>, TryRecvManyError>,
) -> Reply {
    match leased {
        Ok(Some(lease)) => finish_held(rt, rx, lease),
        Ok(None) => Reply::new(rt, Outcome::Was(false)),
        Err(refusal) => Reply::new(rt, refusal.tell().0),
    }
}

fn finish_all<R: Runtime, A: Allocator + Copy>(
    rt: &R,
    rx: &Receiver<u64, u64, R, A>,
    most: usize,
) -> Reply {
    let mut reply = Reply::new(rt, Outcome::Done);
    for lease in rx.leases().take(most) {
        reply.push(lease.finish());
    }
    if reply.pairs.len() < most {
        reply.outcome = Outcome::Ended;
    }
    reply
}

// With this priority, or as the lease is dropped.
fn put_back<R: Runtime, A: Allocator + Copy>(
    rt: &R,
    rx: &Receiver<u64, u64, R, A>,
    priority: Option<u64>,
) -> Reply {
    let lease = match rx.try_lease() {
        Ok(lease) => lease,
        Err(refusal) => return Reply::new(rt, refusal.tell().0),
    };
    let pair = (*lease.message(), *lease.priority());
    match priority {
        Some(priority) => lease.put_back(priority),
        None => drop(lease),
    }
    Reply::found(rt, Some(pair), Outcome::Empty)
}

fn receive_where<R: Runtime, A: Allocator + Copy>(
    rt: &R,
    rx: &Receiver<u64, u64, R, A>,
    timed: Timed,
    input: Input,
) -> Reply {
    let test = |msg: &u64, _: &u64| input.is_kind_of(*msg);
    match timed {
        Timed::Try => tell_if(rt, rx.try_recv_where(test)),
        Timed::Blocking => tell_one(rt, Some(rx.recv_where_blocking(test))),
        Timed::Timeout(limit) => tell_one(rt, Some(rx.recv_where_timeout(test, limit))),
        Timed::Deadline(deadline) => tell_one(rt, Some(rx.recv_where_deadline(test, deadline))),
        Timed::Poll | Timed::Future => tell_one(rt, answer_of(rt, timed, rx.recv_where(test))),
    }
}

fn lease_where<R: Runtime, A: Allocator + Copy>(
    rt: &R,
    rx: &Receiver<u64, u64, R, A>,
    timed: Timed,
    input: Input,
) -> Reply {
    let test = |msg: &u64, _: &u64| input.is_kind_of(*msg);
    match timed {
        Timed::Try => finish_if(rt, rx, rx.try_lease_where(test)),
        Timed::Blocking => finish(rt, rx, Some(rx.lease_where_blocking(test))),
        Timed::Timeout(limit) => finish(rt, rx, Some(rx.lease_where_timeout(test, limit))),
        Timed::Deadline(deadline) => finish(rt, rx, Some(rx.lease_where_deadline(test, deadline))),
        Timed::Poll | Timed::Future => finish(rt, rx, answer_of(rt, timed, rx.lease_where(test))),
    }
}

fn receive_when<R: Runtime, A: Allocator + Copy>(
    rt: &R,
    rx: &Receiver<u64, u64, R, A>,
    timed: Timed,
    input: Input,
) -> Reply {
    let when = |msg: &u64, _: &u64| due_if(input.is_kind_of(*msg));
    match timed {
        Timed::Blocking => tell_one(rt, Some(rx.recv_when_blocking(when))),
        Timed::Timeout(limit) => tell_one(rt, Some(rx.recv_when_timeout(when, limit))),
        Timed::Deadline(deadline) => tell_one(rt, Some(rx.recv_when_deadline(when, deadline))),
        Timed::Try | Timed::Poll | Timed::Future => Reply::new(rt, Outcome::Impossible),
    }
}

fn lease_when<R: Runtime, A: Allocator + Copy>(
    rt: &R,
    rx: &Receiver<u64, u64, R, A>,
    timed: Timed,
    input: Input,
) -> Reply {
    let when = |msg: &u64, _: &u64| due_if(input.is_kind_of(*msg));
    match timed {
        Timed::Blocking => finish(rt, rx, Some(rx.lease_when_blocking(when))),
        Timed::Timeout(limit) => finish(rt, rx, Some(rx.lease_when_timeout(when, limit))),
        Timed::Deadline(deadline) => finish(rt, rx, Some(rx.lease_when_deadline(when, deadline))),
        Timed::Try | Timed::Poll | Timed::Future => Reply::new(rt, Outcome::Impossible),
    }
}

/// A message that is not due now is never due.
pub fn due_if(is_due: bool) -> Due {
    if is_due { Due::Now } else { Due::Never }
}

fn receive_many<R: Runtime, A: Allocator + Copy, B: Allocator + Copy>(
    rt: &R,
    alloc: B,
    rx: &Receiver<u64, u64, R, A>,
    timed: Timed,
    most: usize,
) -> Reply {
    let mut batch = Vec::new(alloc);
    match timed {
        Timed::Try => {
            let received = rx.try_recv_many(&mut batch, most);
            tell_many(rt, Some(received), &batch)
        }
        Timed::Poll | Timed::Future => {
            let received = answer_of(rt, timed, rx.recv_many(&mut batch, most));
            tell_many(rt, received, &batch)
        }
        Timed::Blocking => {
            let received = rx.recv_many_blocking(&mut batch, most);
            tell_many(rt, Some(received), &batch)
        }
        Timed::Timeout(limit) => {
            let received = rx.recv_many_timeout(&mut batch, most, limit);
            tell_many(rt, Some(received), &batch)
        }
        Timed::Deadline(deadline) => {
            let received = rx.recv_many_deadline(&mut batch, most, deadline);
            tell_many(rt, Some(received), &batch)
        }
    }
}

/// What a future answers, or one that is pending.
pub fn tell_one<E: Refusal<()> + Drop>(
    rt: &impl Runtime,
    received: Option<Result<Pair, E>>,
) -> Reply {
    match received {
        None => Reply::new(rt, Outcome::Waits),
        Some(Ok(pair)) => Reply::found(rt, Some(pair), Outcome::Done),
        Some(Err(refusal)) => Reply::new(rt, refusal.tell().0),
    }
}

// Also that what is pending is not for it.
fn tell_if(rt: &impl Runtime, received: Result<Option<Pair>, TryRecvError>) -> Reply {
    match received {
        Ok(None) => Reply::new(rt, Outcome::Was(false)),
        Ok(found) => Reply::found(rt, found, Outcome::Empty),
        Err(refusal) => Reply::new(rt, refusal.tell().0),
    }
}

/// The same of a stream.
pub fn tell_next(rt: &impl Runtime, next: Option<Option<Pair>>) -> Reply {
    match next {
        None => Reply::new(rt, Outcome::Waits),
        Some(next) => Reply::found(rt, next, Outcome::Ended),
    }
}

/// The same of a batch. A count that is not that of the batch is told as what no batch answers.
pub fn tell_many<E: Refusal<()> + Drop>(
    rt: &impl Runtime,
    received: Option<Result<usize, E>>,
    batch: &[Pair],
) -> Reply {
    let outcome = match received {
        None => Outcome::Waits,
        Some(Ok(count)) if count == batch.len() => Outcome::Done,
        Some(Ok(_)) => Outcome::Impossible,
        Some(Err(refusal)) => refusal.tell().0,
    };
    Reply::with(rt, outcome, batch.iter().copied())
}

fn tell_loop<I: Iterator<Item = Pair> + Drop>(rt: &impl Runtime, pairs: I, most: usize) -> Reply
    requires { I.can_next pairs × IsFinite (I.remaining pairs) }
{
    let mut reply = Reply::with(rt, Outcome::Done, pairs);
    if reply.pairs.len() < most {
        reply.outcome = Outcome::Ended;
    }
    reply
}

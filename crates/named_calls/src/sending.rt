//! The calls of a sender.
use crate::Runtime;
use crate::calls::{Call, Input, Pair, Pairs};
use crate::either::{answer_of, make_by_either};
use crate::reply::{Outcome, Refusal, Reply};
use crate::timed::Timed;
use async_priority_channel::{Permit, Sender};
use std::alloc::Allocator;
use std::iter::{Peekable, once};
use std::sync::Wait;

/// Makes a call of a sender.
pub fn send<R: Runtime, A: Allocator + Copy>(
    rt: &R,
    tx: &Sender<u64, u64, R, A>,
    call: Call,
    input: Input,
) -> Reply {
    let Some(timed) = Timed::new(rt, call.way(), input.limit) else {
        return Reply::new(rt, Outcome::Broken);
    };
    match call {
        Call::Send(_) => send_one(rt, tx, timed, input.pair()),
        Call::Sendv(_) => send_many(rt, tx, timed, input.pairs),
        Call::SendEvicting => send_evicting(rt, tx, input),
        Call::Reserve(_) => reserve(rt, tx, timed, input),
        _by_either => make_by_either(rt, tx, call, timed, input),
    }
}

fn send_one<R: Runtime, A: Allocator + Copy>(
    rt: &R,
    tx: &Sender<u64, u64, R, A>,
    timed: Timed,
    (msg, priority): Pair,
) -> Reply {
    match timed {
        Timed::Try => tell_one(rt, Some(tx.try_send(msg, priority))),
        Timed::Blocking => tell_one(rt, Some(tx.send_blocking(msg, priority))),
        Timed::Timeout(limit) => tell_one(rt, Some(tx.send_timeout(msg, priority, limit))),
        Timed::Deadline(deadline) => tell_one(rt, Some(tx.send_deadline(msg, priority, deadline))),
        Timed::Poll | Timed::Future => tell_one(rt, answer_of(rt, timed, tx.send(msg, priority))),
    }
}

fn send_many<R: Runtime, A: Allocator + Copy>(
    rt: &R,
    tx: &Sender<u64, u64, R, A>,
    timed: Timed,
    pairs: Pairs,
) -> Reply {
    let pairs = pairs.peekable();
    match timed {
        Timed::Try => tell_many(rt, Some(tx.try_sendv(pairs))),
        Timed::Blocking => tell_many(rt, Some(tx.sendv_blocking(pairs))),
        Timed::Timeout(limit) => tell_many(rt, Some(tx.sendv_timeout(pairs, limit))),
        Timed::Deadline(deadline) => tell_many(rt, Some(tx.sendv_deadline(pairs, deadline))),
        Timed::Poll | Timed::Future => tell_many(rt, answer_of(rt, timed, tx.sendv(pairs))),
    }
}

fn send_evicting<R: Runtime, A: Allocator + Copy>(
    rt: &R,
    tx: &Sender<u64, u64, R, A>,
    input: Input,
) -> Reply {
    let (msg, priority) = input.pair();
    match tx.try_send_evicting(msg, priority) {
        Ok(displaced) => Reply::found(rt, displaced, Outcome::Done),
        Err(refusal) => tell_one(rt, Some(Err(refusal))),
    }
}

fn reserve<R: Runtime, A: Allocator + Copy>(
    rt: &R,
    tx: &Sender<u64, u64, R, A>,
    timed: Timed,
    input: Input,
) -> Reply {
    match timed {
        Timed::Try => fill(rt, tx, Some(tx.try_reserve()), input),
        Timed::Blocking => fill(rt, tx, Some(tx.reserve_blocking()), input),
        Timed::Timeout(limit) => fill(rt, tx, Some(tx.reserve_timeout(limit)), input),
        Timed::Deadline(deadline) => fill(rt, tx, Some(tx.reserve_deadline(deadline)), input),
        Timed::Poll | Timed::Future => fill(rt, tx, answer_of(rt, timed, tx.reserve()), input),
    }
}

/// Sends the message into its place. One that gets none is with its sender still.
pub fn fill<R: Wait + Clone, A: Allocator + Copy, E: Refusal<()> + Drop>(
    rt: &impl Runtime,
    tx: &Sender<u64, u64, R, A>,
    reserved: Option<Result<Permit<'_, u64, u64, R, A>, E>>,
    input: Input,
) -> Reply {
    match reserved {
        None => Reply::new(rt, Outcome::Waits),
        Some(Ok(permit)) => {
            let (msg, priority) = input.pair();
            let is_held = tx.held() > 0;
            permit.send(msg, priority);
            Reply::new(rt, done_if(is_held))
        }
        Some(Err(refusal)) => Reply::with(rt, refusal.tell().0, input.one()),
    }
}

/// What a call tells that has done its work; or what none tells.
pub(crate) fn done_if(is_right: bool) -> Outcome {
    if is_right {
        Outcome::Done
    } else {
        Outcome::Impossible
    }
}

/// What a future answers, or one that is pending.
pub fn tell_one<E: Refusal<Pair> + Drop>(rt: &impl Runtime, sent: Option<Result<(), E>>) -> Reply {
    match sent {
        None => Reply::new(rt, Outcome::Waits),
        Some(Ok(())) => Reply::new(rt, Outcome::Done),
        Some(Err(refusal)) => {
            let (outcome, pair) = refusal.tell();
            Reply::with(rt, outcome, once(pair))
        }
    }
}

pub fn tell_many<E: Refusal<Peekable<Pairs>> + Drop>(
    rt: &impl Runtime,
    sent: Option<Result<(), E>>,
) -> Reply {
    match sent {
        None => Reply::new(rt, Outcome::Waits),
        Some(Ok(())) => Reply::new(rt, Outcome::Done),
        Some(Err(refusal)) => {
            let (outcome, rest) = refusal.tell();
            Reply::with(rt, outcome, rest)
        }
    }
}

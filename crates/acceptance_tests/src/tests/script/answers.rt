//! The texts of answers.
use super::ledger::Ledger;
use super::words::{Bulk, Message, Pair, Text};
use async_priority_channel::{RecvFault, SendFault, TrySendError};
use priority_channel_core::awaitable_atomics::Wakes;
use std::alloc::{AllocGlobal, Allocator};
use std::fmt::Debug;
use std::process::Abort;

/// A number, a truth or an option.
pub fn told<R: Abort + AllocGlobal>(rt: &R, answer: impl Debug + Drop) -> String {
    format!(in rt.alloc(); "{answer:?}").expect(rt, "memory")
}

pub fn text<R: Abort + AllocGlobal>(rt: &R, words: &str) -> String {
    format!(in rt.alloc(); "{words}").expect(rt, "memory")
}

/// A pair that has come out or back.
pub fn told_pair<R: Abort + AllocGlobal, T: Message>(
    rt: &R,
    ledger: &mut Ledger<T>,
    pair: Pair<T>,
) -> String {
    ledger.end(rt, pair);
    let (msg, priority) = pair;
    format!(in rt.alloc(); "({msg},{priority})").expect(rt, "memory")
}

#[derive(Clone, Copy, Debug)]
enum Why {
    Full,
    Closed,
    Memory,
}

// Why it was refused, and what came back.
fn refusal<K>(error: TrySendError<K>) -> (Why, K) {
    match error {
        TrySendError::Full(unsent) => (Why::Full, unsent),
        TrySendError::Closed(unsent) => (Why::Closed, unsent),
        TrySendError::Memory(unsent) => (Why::Memory, unsent),
    }
}

pub fn told_sent<R: Abort + AllocGlobal, T: Message>(
    rt: &R,
    ledger: &mut Ledger<T>,
    sent: Result<(), TrySendError<Pair<T>>>,
) -> String {
    match sent {
        Ok(()) => text(rt, "Ok"),
        Err(error) => {
            let (why, pair) = refusal(error);
            let pair = told_pair(rt, ledger, pair);
            format!(in rt.alloc(); "{why:?}({pair})").expect(rt, "memory")
        }
    }
}

pub fn told_sent_many<R: Abort + AllocGlobal, T: Message>(
    rt: &R,
    ledger: &mut Ledger<T>,
    sent: Result<(), TrySendError<Bulk<T>>>,
) -> String {
    match sent {
        Ok(()) => text(rt, "Ok"),
        Err(error) => {
            let (why, rest) = refusal(error);
            let left = ledger.keep(rt, rest);
            format!(in rt.alloc(); "{why:?} with {left} left").expect(rt, "memory")
        }
    }
}

/// Of an error its variant alone.
pub fn told_received<R: Abort + AllocGlobal, T: Message>(
    rt: &R,
    ledger: &mut Ledger<T>,
    received: Result<Pair<T>, impl Debug + Drop>,
) -> String {
    match received {
        Ok(pair) => told_pair(rt, ledger, pair),
        Err(error) => {
            let error = told(rt, error);
            let (variant, _) = error.split_once('(').unwrap_or((error.as_str(), ""));
            text(rt, variant)
        }
    }
}

// Of a poll.
fn ready<R: Abort + AllocGlobal>(rt: &R, told: String) -> String {
    format!(in rt.alloc(); "Ready {told}").expect(rt, "memory")
}

pub fn ready_sent<R: Abort + AllocGlobal, T: Message>(
    rt: &R,
    ledger: &mut Ledger<T>,
    sent: Result<(), SendFault<Pair<T>>>,
) -> String {
    ready(rt, told_sent(rt, ledger, sent.map_err(TrySendError::from)))
}

pub fn ready_sent_many<R: Abort + AllocGlobal, T: Message>(
    rt: &R,
    ledger: &mut Ledger<T>,
    sent: Result<(), SendFault<Bulk<T>>>,
) -> String {
    ready(
        rt,
        told_sent_many(rt, ledger, sent.map_err(TrySendError::from)),
    )
}

pub fn ready_received<R: Abort + AllocGlobal, T: Message>(
    rt: &R,
    ledger: &mut Ledger<T>,
    received: Result<Pair<T>, RecvFault>,
) -> String {
    let ok = if received.is_ok() { "Ok " } else { "" };
    let told = told_received(rt, ledger, received);
    format!(in rt.alloc(); "Ready {ok}{told}").expect(rt, "memory")
}

/// A state that is done has no ticket.
pub fn pending<R: Abort + AllocGlobal>(rt: &R, ticket: Option<u64>) -> String {
    match ticket {
        Some(ticket) => format!(in rt.alloc(); "Pending {ticket}").expect(rt, "memory"),
        None => text(rt, "Pending"),
    }
}

/// An answer with those whom its call handed out.
pub fn handed<R: Abort + AllocGlobal, A: Allocator>(
    rt: &R,
    answer: String,
    wakes: Wakes<u64, A>,
) -> String {
    let (room, message) = wakes.into_lists();
    let answer = add_handed(rt, answer, room, " from the room side");
    add_handed(rt, answer, message, "")
}

// By their tickets, since the order of a list is not said.
fn add_handed<R: Abort + AllocGlobal, A: Allocator>(
    rt: &R,
    mut answer: String,
    list: Vec<(u64, u64), A>,
    side: Text,
) -> String {
    if list.is_empty() {
        return answer;
    }
    let mut waiters: Vec<(u64, u64)> = list.into_iter().collect(rt.alloc()).expect(rt, "memory");
    waiters.sort().expect(rt, "memory");
    answer.push_str(", handed").expect(rt, "memory");
    for (ticket, waker) in waiters {
        let waiter = format!(in rt.alloc(); " ({ticket},w{waker})").expect(rt, "memory");
        answer.push_str(waiter.as_str()).expect(rt, "memory");
    }
    answer.push_str(side).expect(rt, "memory");
    answer
}

//! Calls of the core as words, made on the core, and their answers as text.
//!
//! A message is one character, and a pair is written with its priority behind it, as `x5`. An
//! answer is as `{:?}` prints it, but that the error of a send shows what came back. Behind it
//! stand the waiters that the call woke, by what they waited for, each with its ticket and its
//! waker.
use priority_channel_core::awaitable_atomics::Wakes;
use priority_channel_core::calls::CorePoll;
use priority_channel_core::channel::PriorityQueueChannel;
use priority_channel_core::errors::{SendFault, TrySendError};
use std::alloc::{AllocError, AllocGlobal, Allocator};
use std::fmt;
use std::fmt::Debug;
use std::iter::Peekable;
use std::process::Abort;
use std::vec::IntoIter;

pub type Pair = (char, u64);

pub type Pairs = Peekable<IntoIter<Pair>>;

pub type Core<A> = PriorityQueueChannel<char, u64, Numbered<A>, A>;

pub fn number(word: &str) -> u64 {
    word.parse().unwrap_or(0)
}

/// None is `-`.
fn ticket(word: &str) -> Option<u64> {
    word.parse().ok()
}

fn letter(word: &str) -> char {
    word.chars().next().unwrap_or('?')
}

fn pair(word: &str) -> Pair {
    let msg = letter(word);
    (msg, number(word.strip_prefix(msg).unwrap_or("")))
}

pub fn pairs<R: Abort + AllocGlobal>(rt: &R, words: &[&str]) -> Vec<Pair> {
    let mut pairs = Vec::new(rt.alloc());
    for word in words {
        pairs.push(pair(*word)).expect(rt, "memory");
    }
    pairs
}

/// A waker with a number, whose clone asks for memory.
#[derive(Drop)]
pub struct Numbered<A: Allocator + Copy> {
    number: u64,
    alloc: A,
    _memory: Option<Box<u64, A>>,
}

impl<A: Allocator + Copy> Numbered<A> {
    pub fn of(word: &str, alloc: A) -> Self {
        Numbered {
            number: number(word),
            alloc,
            _memory: None,
        }
    }
}

impl<A: Allocator + Copy> Clone for Numbered<A> {
    fn clone(&self) -> Result<Numbered<A>, AllocError> {
        Ok(Numbered {
            number: self.number,
            alloc: self.alloc,
            _memory: Some(Box::new(self.alloc, self.number)?),
        })
    }
}

impl<A: Allocator + Copy> Debug for Numbered<A> {
    fn fmt<W: fmt::Write>(&self, f: &mut fmt::Formatter<W>) -> fmt::Result {
        write!(f, "{}", self.number)
    }
}

/// Why a send was refused, and what came back.
#[derive(Debug, Drop)]
enum Unsent<K> {
    Full(K),
    Closed(K),
    Memory(K),
}

impl<K> From<TrySendError<K>> for Unsent<K> {
    fn from(error: TrySendError<K>) -> Unsent<K> {
        match error {
            TrySendError::Full(held) => Unsent::Full(held),
            TrySendError::Closed(held) => Unsent::Closed(held),
            TrySendError::Memory(held) => Unsent::Memory(held),
        }
    }
}

impl<K> From<SendFault<K>> for Unsent<K> {
    fn from(fault: SendFault<K>) -> Unsent<K> {
        Unsent::from(TrySendError::from(fault))
    }
}

type Sent<K> = Result<(), Unsent<K>>;

fn list<R: Abort + AllocGlobal>(rt: &R, rest: Pairs) -> Vec<Pair> {
    rest.collect(rt.alloc()).expect(rt, "memory")
}

fn listed<R: Abort + AllocGlobal>(rt: &R, sent: Sent<Pairs>) -> Sent<Vec<Pair>> {
    match sent {
        Ok(()) => Ok(()),
        Err(Unsent::Full(rest)) => Err(Unsent::Full(list(rt, rest))),
        Err(Unsent::Closed(rest)) => Err(Unsent::Closed(list(rt, rest))),
        Err(Unsent::Memory(rest)) => Err(Unsent::Memory(list(rt, rest))),
    }
}

/// An answer as text.
pub fn said<R: Abort + AllocGlobal>(rt: &R, answer: impl Debug + Drop) -> String {
    format!(in rt.alloc(); "{answer:?}").expect(rt, "memory")
}

/// An answer with the waiters that its call woke.
pub fn said_to<R: Abort + AllocGlobal, W: Debug + Drop, A: Allocator>(
    rt: &R,
    answer: String,
    room: Vec<(u64, W), A>,
    message: Vec<(u64, W), A>,
) -> String {
    let alloc = rt.alloc();
    let said = match (room.is_empty(), message.is_empty()) {
        (true, true) => Ok(answer),
        (false, true) => format!(in alloc; "{answer}, room {room:?}"),
        (true, false) => format!(in alloc; "{answer}, message {message:?}"),
        (false, false) => format!(in alloc; "{answer}, room {room:?}, message {message:?}"),
    };
    said.expect(rt, "memory")
}

fn told<R: Abort + AllocGlobal, A: Allocator + Copy>(
    rt: &R,
    answer: impl Debug + Drop,
    wakes: Wakes<Numbered<A>, A>,
) -> String {
    let (room, message) = wakes.into_lists();
    said_to(rt, said(rt, answer), room, message)
}

/// Makes a call that does not wait, and tells what came of it.
pub fn ask<R: Abort + AllocGlobal, A: Allocator + Copy>(
    rt: &R,
    core: &mut Core<A>,
    words: &[&str],
) -> String {
    match words {
        ["try_send", word] => {
            let (msg, priority) = pair(*word);
            let (sent, wakes) = core.try_send(msg, priority);
            told(rt, sent.map_err(Unsent::from), wakes)
        }
        ["try_sendv", words @ ..] => {
            let (sent, wakes) = core.try_sendv(pairs(rt, words).into_iter().peekable());
            told(rt, listed(rt, sent.map_err(Unsent::from)), wakes)
        }
        ["try_send_evicting", word] => {
            let (msg, priority) = pair(*word);
            let (sent, wakes) = core.try_send_evicting(msg, priority);
            told(rt, sent.map_err(Unsent::from), wakes)
        }
        ["close"] => {
            let (was_open, wakes) = core.close();
            told(rt, was_open, wakes)
        }
        ["clone_sender"] => said(rt, core.clone_sender()),
        ["clone_receiver"] => said(rt, core.clone_receiver()),
        ["drop_sender"] if core.sender_count() > 0 => told(rt, (), core.drop_sender()),
        ["drop_receiver"] if core.receiver_count() > 0 => told(rt, (), core.drop_receiver()),
        ["pending"] => said(rt, (core.len(), core.is_empty(), core.is_full())),
        ["is_closed"] => said(rt, core.is_closed()),
        ["capacity"] => said(rt, core.capacity()),
        ["handles"] => said(rt, (core.sender_count(), core.receiver_count())),
        _ => ask_to_receive(rt, core, words),
    }
}

fn ask_to_receive<R: Abort + AllocGlobal, A: Allocator + Copy>(
    rt: &R,
    core: &mut Core<A>,
    words: &[&str],
) -> String {
    match words {
        ["try_recv"] => {
            let (received, wakes) = core.try_recv();
            told(rt, received, wakes)
        }
        ["try_recv_many", limit] => {
            let limit = number(*limit) as usize;
            let mut batch = Vec::with_capacity(rt.alloc(), limit).expect(rt, "memory");
            let (received, wakes) = core.try_recv_many(&mut batch, limit);
            told(rt, (received, batch), wakes)
        }
        ["take_where", msg] => {
            let wanted = letter(*msg);
            let (taken, wakes) = core.take_where(&|msg, _| *msg == wanted);
            told(rt, taken, wakes)
        }
        // Of the first message that is this one or a later letter.
        ["change_priority", word] => {
            let (from, priority) = pair(*word);
            said(rt, core.change_priority(&|msg, _| *msg >= from, priority))
        }
        // Of this priority and above.
        ["retain", least] => {
            let least = number(*least);
            let pending = core.len() as usize;
            let mut taken = Vec::with_capacity(rt.alloc(), pending).expect(rt, "memory");
            let wakes = core.retain(&|_, priority| *priority >= least, &mut taken);
            // They come in no order that is said.
            taken.sort().expect(rt, "memory");
            told(rt, taken, wakes)
        }
        ["peek"] => said(rt, core.peek()),
        _ => panic!(rt; "no call, or none that may be made now: {words:?}"),
    }
}

/// The same of a poll, and of the end of a wait.
pub fn ask_to_wait<R: Abort + AllocGlobal, A: Allocator + Copy>(
    rt: &R,
    alloc: A,
    core: &mut Core<A>,
    words: &[&str],
) -> String {
    match words {
        ["poll_send", given, waker, word] => {
            let (msg, priority) = pair(*word);
            let waker = Numbered::of(*waker, alloc);
            let (polled, wakes) = core.poll_send(msg, priority, ticket(*given), &waker);
            let answer = match polled {
                CorePoll::Ready(sent) => CorePoll::Ready(sent.map_err(Unsent::from)),
                CorePoll::Pending(pair, ticket) => CorePoll::Pending(pair, ticket),
            };
            told(rt, answer, wakes)
        }
        ["poll_sendv", given, waker, words @ ..] => {
            let msgs = pairs(rt, words).into_iter().peekable();
            let waker = Numbered::of(*waker, alloc);
            let (polled, wakes) = core.poll_sendv(msgs, ticket(*given), &waker);
            let answer = match polled {
                CorePoll::Ready(sent) => CorePoll::Ready(listed(rt, sent.map_err(Unsent::from))),
                CorePoll::Pending(rest, ticket) => CorePoll::Pending(list(rt, rest), ticket),
            };
            told(rt, answer, wakes)
        }
        ["poll_recv", given, waker] => {
            let (polled, wakes) = core.poll_recv(ticket(*given), &Numbered::of(*waker, alloc));
            told(rt, polled, wakes)
        }
        ["give_up", given] => {
            core.give_up(number(*given));
            said(rt, ())
        }
        _ => panic!(rt; "nobody waits so: {words:?}"),
    }
}

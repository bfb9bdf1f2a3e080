//! A channel as a plain list of its pairs, in the order of their acceptance.
use async_priority_channel::recorded::{Call, Reply};
use async_priority_channel::{TryRecvError, TrySendError};
use std::process::Abort;

pub type Pair = (u64, u64);

/// What a channel for so many pairs answers. None to a call that no test makes.
pub fn ask_list(
    rt: &impl Abort,
    list: &mut Vec<Pair>,
    capacity: u64,
    call: Call<u64, u64>,
) -> Option<Reply<u64, u64>> {
    match call {
        Call::TrySend(msg, priority) => Some(send(rt, list, capacity, (msg, priority))),
        Call::TryRecv => Some(receive(list)),
        Call::Len => Some(Reply::Len(list.len() as u64)),
        _ => None,
    }
}

fn send(rt: &impl Abort, list: &mut Vec<Pair>, capacity: u64, pair: Pair) -> Reply<u64, u64> {
    if list.len() as u64 >= capacity {
        return Reply::Sent(Err(TrySendError::Full(pair)));
    }
    list.push(pair).expect(rt, "memory");
    Reply::Sent(Ok(()))
}

// The first of those that no pair exceeds in priority.
fn receive(list: &mut Vec<Pair>) -> Reply<u64, u64> {
    let greatest = list.iter().map(|pair| pair.1).max();
    let at = list.iter().position(|pair| Some(pair.1) == greatest);
    match at {
        Some(at) => Reply::Received(Ok(list.remove(at))),
        None => Reply::Received(Err(TryRecvError::Empty)),
    }
}

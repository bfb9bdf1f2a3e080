//! A bound does not see priorities: a full channel refuses the most urgent message too.
//!
//! You need this where a queue may fill up with messages that could wait. Two ways out: the urgent
//! have a channel of their own, or the others obey a lower limit, so that room is left.

use async_priority_channel::{Receiver, Sender, TrySendError, bounded};
use std::alloc::AllocGlobal;
use std::sync::Wait;

type Jobs<R> = Receiver<&'static str, u8, R>;

const CAPACITY: u64 = 4;

const IDLE_LIMIT: u64 = 2;

// It does not wait: for that, each channel has a worker of its own.
fn next<R: Wait + Clone>(urgent: &Jobs<R>, others: &Jobs<R>) -> Option<(&'static str, u8)> {
    urgent.try_recv().or_else(|_| others.try_recv()).ok()
}

// Between the look and the send others may send, each one message: leave room for that too.
fn send_idle<R: Wait + Clone>(
    tx: &Sender<&'static str, u8, R>,
    job: &'static str,
) -> Result<(), TrySendError<(&'static str, u8)>> {
    if tx.len() >= IDLE_LIMIT {
        return Err(TrySendError::Full((job, 0)));
    }
    tx.try_send(job, 0)
}

pub fn run<R: Wait + Clone + Print + AllocGlobal>(rt: &R) -> anyhow::Result<()> {
    let (tx, others) = bounded(rt, rt.alloc(), CAPACITY)?;
    for _ in 0..CAPACITY {
        tx.try_send("dust", 0)?;
    }
    let is_refused = tx.try_send("fire", 9).is_err_and(|error| error.is_full());
    println!(rt; "blind_bound: a full channel refuses the fire: {is_refused}")?;

    let (fires, urgent) = bounded(rt, rt.alloc(), CAPACITY)?;
    fires.try_send("fire", 9)?;
    let first = next(&urgent, &others);
    println!(rt; "blind_bound: from two channels: {first:?}")?;

    for _ in others.try_iter() {}
    for _ in 0..CAPACITY {
        let is_sent = send_idle(&tx, "dust").is_ok();
        println!(rt; "blind_bound: below the limit: {is_sent}")?;
    }
    tx.try_send("fire", 9)?;
    let first = others.try_recv()?;
    println!(rt; "blind_bound: from the room that was left: {first:?}")?;
    Ok(())
}

//! Handles, on one thread: calls that need not wait.

use crate::calls::{Calls, Host, channel};
use crate::load::Load;
use crate::measure::{Measure, add_at, time_steps};
use anyhow::ensure;
use async_priority_channel::{Ends, Sender};
use futures::executor::block_on_queue;
use futures::task::{Doorbell, Queue};
use std::time::CpuClock;

/// A send and a receive, with so many messages pending.
pub fn steady<R>(rt: &R, calls: Calls, pending: u64, count: u64) -> anyhow::Result<Measure>
where
    R: Host + CpuClock,
{
    let (tx, rx) = filled(rt, pending)?;
    time_steps(rt, count, |position| {
        let number = pending.wrapping_add(position);
        if !calls.send(rt, &tx, number, Load::Random.priority(number)) {
            return None;
        }
        calls.recv(rt, &rx)
    })
}

/// The same by futures, all of which are run on one queue of tasks.
pub fn kept<R>(rt: &R, pending: u64, count: u64) -> anyhow::Result<Measure>
where
    R: Host + CpuClock,
{
    let (tx, rx) = filled(rt, pending)?;
    let queue = Queue::new(rt, Doorbell::parking())?;
    time_steps(rt, count, |position| {
        let number = pending.wrapping_add(position);
        let sending = tx.send(number, Load::Random.priority(number));
        block_on_queue(rt, &queue, sending).ok()?.ok()?;
        let (msg, _) = block_on_queue(rt, &queue, rx.recv()).ok()?.ok()?;
        Some(msg)
    })
}

/// A channel with the numbers below `count` pending.
pub fn filled<R: Host>(rt: &R, count: u64) -> anyhow::Result<Ends<u64, i64, R>> {
    let (tx, rx) = channel(rt, 0)?;
    for number in 0..count {
        tx.try_send(number, Load::Random.priority(number))?;
    }
    Ok((tx, rx))
}

/// A bulk send of so many messages, and a batch of them.
pub fn batches<R>(rt: &R, size: u64, count: u64) -> anyhow::Result<Measure>
where
    R: Host + CpuClock,
{
    let limit = usize::try_from(size)?;
    let (tx, rx) = channel(rt, 0)?;
    let mut batch = Vec::new(rt.alloc());
    let start = rt.thread_cpu_time()?;
    let mut sum = 0u64;
    for round in 0..count / size.max(1) {
        let first = round.wrapping_mul(size);
        send_batch(&tx, first, size)?;
        batch.clear();
        rx.try_recv_many(&mut batch, limit)?;
        let mut position = first;
        for (msg, _) in &batch {
            sum = add_at(sum, position, *msg);
            position = position.wrapping_add(1);
        }
    }
    let end = rt.thread_cpu_time()?;
    Ok(Measure::of_time(end.saturating_sub(start), sum))
}

fn send_batch<R: Host>(tx: &Sender<u64, i64, R>, first: u64, size: u64) -> anyhow::Result<()> {
    let msgs = (first..first.saturating_add(size)).map(|i| (i, Load::Random.priority(i)));
    ensure!(tx.try_sendv(msgs.peekable()).is_ok(), "no batch was sent");
    Ok(())
}

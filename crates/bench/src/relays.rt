//! Many senders and many receivers, a thread each.

use crate::calls::{Calls, channel};
use crate::measure::Measure;
use crate::threads::{Machine, Thread, join_all, start_all};
use async_priority_channel::{Receiver, Sender};
use std::thread;
use std::time::Instant;

/// Each sender sends an equal share, and each receiver takes one.
pub fn relay<R: Machine>(
    rt: R,
    calls: Calls,
    senders: u64,
    receivers: u64,
    capacity: u64,
    count: u64,
) -> anyhow::Result<Measure> {
    let (tx, rx) = channel(&rt, capacity)?;
    let start = Instant::now(&rt)?;
    let share = count / receivers.max(1);
    let receiving = start_all(&rt, receivers, |_| start_receiver(rt, calls, &rx, share))?;
    let share = count / senders.max(1);
    let sending = start_all(&rt, senders, |sender| {
        start_sender(rt, calls, &tx, sender.wrapping_mul(share), share)
    })?;
    join_all(&rt, sending)?;
    let sum = join_all(&rt, receiving)?;
    Ok(Measure::of_time(start.elapsed(&rt)?, sum))
}

fn start_receiver<R: Machine>(
    rt: R,
    calls: Calls,
    rx: &Receiver<u64, i64, R>,
    count: u64,
) -> anyhow::Result<Thread> {
    let rx: Receiver<u64, i64, R> = rx.clone()?;
    Ok(thread::spawn(&rt, move || calls.recv_all(&rt, &rx, count))?)
}

fn start_sender<R: Machine>(
    rt: R,
    calls: Calls,
    tx: &Sender<u64, i64, R>,
    first: u64,
    count: u64,
) -> anyhow::Result<Thread> {
    let tx: Sender<u64, i64, R> = tx.clone()?;
    Ok(thread::spawn(&rt, move || {
        calls.send_all(&rt, &tx, first, count).map(|()| 0)
    })?)
}

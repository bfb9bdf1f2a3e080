//! Batches: messages are written once there are enough, or once the first has waited long enough.
//!
//! You need this where a write costs much, be it of one message or of many, and none may be late.
//! The time of a batch begins with its first message, which is waited for without a limit. All
//! others have until one deadline: a limit for each receive would begin anew at each message.

use anyhow::Context;
use async_priority_channel::{Receiver, RecvFault, RecvTimeoutError, Sender, bounded, unbounded};
use std::alloc::AllocGlobal;
use std::sync::Wait;
use std::thread::{self, Threads};
use std::time::{Clock, Duration, Instant};

const MOST: usize = 3;

// In milliseconds.
const PATIENCE: u64 = 5;

// False if nothing more comes.
fn receive_batch<R: Wait + Clone + Clock>(
    rt: &R,
    rx: &Receiver<u64, (), R>,
    batch: &mut Vec<(u64, ())>,
) -> anyhow::Result<bool> {
    match rx.recv_many_blocking(batch, MOST) {
        Ok(_) => {}
        Err(RecvFault::Closed(_)) => return Ok(false),
        Err(fault) => return Err(fault.into()),
    }
    let due = Instant::now(rt)?
        .checked_add(Duration::from_millis(PATIENCE))
        .context("past the end of the clock's range")?;
    // Each receive gives at least one.
    for _ in 1..MOST {
        let wanted = MOST.saturating_sub(batch.len());
        if wanted == 0 {
            break;
        }
        match rx.recv_many_deadline(batch, wanted, due) {
            Ok(_) => {}
            Err(RecvTimeoutError::Timeout | RecvTimeoutError::Closed) => break,
            Err(fault) => return Err(fault.into()),
        }
    }
    Ok(true)
}

// Here to write is to tell how many there are.
fn write_batches<R: Wait + Clone + Clock + AllocGlobal>(
    rt: &R,
    rx: &Receiver<u64, (), R>,
    written: &Sender<usize, (), R>,
) -> anyhow::Result<()> {
    let mut batch = Vec::new(rt.alloc());
    for _ in rt.forever() {
        if !receive_batch(rt, rx, &mut batch)? {
            break;
        }
        written.send_blocking(batch.len(), ())?;
        batch.clear();
    }
    Ok(())
}

pub fn run<R>(rt: R) -> anyhow::Result<()>
where
    R: Threads + Wait + Copy + Clock + Print + AllocGlobal + Send + 'static,
{
    let (tx, rx) = unbounded(&rt, rt.alloc())?;
    let (written, counts) = bounded(&rt, rt.alloc(), 1)?;
    for number in 1..=7 {
        tx.try_send(number, ())?;
    }
    let writer = thread::spawn(&rt, move || write_batches(&rt, &rx, &written))?;
    for why in [
        "there were enough",
        "there were enough",
        "the first had waited",
    ] {
        let (count, ()) = counts.recv_blocking()?;
        println!(rt; "batches: {count} written, since {why}")?;
    }
    tx.try_send(8, ())?;
    drop(tx);
    for (count, ()) in &counts {
        println!(rt; "batches: {count} written at the end")?;
    }
    writer.join(&rt)
}

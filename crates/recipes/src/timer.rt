//! Work that is due again and again, between the messages.
//!
//! You need this where a receiver also has to do something each second, as to write what it has
//! collected. It receives until that is due. `recv_timeout` with the whole period would begin it
//! anew at each message; and a pending message is received past the deadline too, so the clock is
//! read before each receive: else what is due waits for as long as messages keep coming.

use anyhow::Context;
use async_priority_channel::{Receiver, RecvTimeoutError, Sender, bounded};
use std::alloc::AllocGlobal;
use std::sync::Wait;
use std::thread::{self, Threads};
use std::time::{Clock, Duration, Instant};

// In milliseconds.
const PERIOD: u64 = 5;

fn a_period_from_now<R: Clock>(rt: &R) -> anyhow::Result<Instant> {
    let due = Instant::now(rt)?.checked_add(Duration::from_millis(PERIOD));
    due.context("past the end of the clock's range")
}

fn collect<R: Wait + Clone + Clock>(
    rt: &R,
    numbers: &Receiver<u64, (), R>,
    sums: &Sender<u64, (), R>,
) -> anyhow::Result<()> {
    let mut sum = 0u64;
    let mut due = a_period_from_now(rt)?;
    for _ in 0..u64::MAX {
        if Instant::now(rt)? >= due {
            due = a_period_from_now(rt)?;
            if sum > 0 {
                sums.send_blocking(sum, ())?;
                sum = 0;
            }
        }
        match numbers.recv_deadline(due) {
            Ok((number, ())) => sum = sum.saturating_add(number),
            Err(RecvTimeoutError::Timeout) => {}
            Err(RecvTimeoutError::Closed) => break,
            Err(error) => return Err(error.into()),
        }
    }
    Ok(())
}

pub fn run<R>(rt: R) -> anyhow::Result<()>
where
    R: Threads + Wait + Copy + Clock + Print + AllocGlobal + Send + 'static,
{
    let (tx, numbers) = bounded(&rt, rt.alloc(), 4)?;
    let (written, sums) = bounded(&rt, rt.alloc(), 4)?;
    let collector = thread::spawn(&rt, move || collect(&rt, &numbers, &written))?;
    for number in 1..=3 {
        tx.send_blocking(number, ())?;
        let (sum, ()) = sums.recv_blocking()?;
        println!(rt; "timer: {sum} when it was due")?;
    }
    drop(tx);
    collector.join(&rt)
}

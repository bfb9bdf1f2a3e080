//! How long single calls take where many threads make them.

use crate::calls::{Calls, channel};
use crate::load::Load;
use crate::measure::Measure;
use crate::threads::{Giving, Machine, start_all};
use anyhow::{Context, ensure};
use async_priority_channel::{Ends, Receiver, Sender};
use std::thread;
use std::time::Instant;

/// How many nanoseconds each call of a thread took.
pub type Delays = Vec<u64>;

/// So many threads send, and as many receive. The nanoseconds within which so many of a thousand
/// calls returned; of 1000, what the longest took.
pub fn delay<R: Machine>(
    rt: R,
    calls: Calls,
    permille: u64,
    threads: u64,
    capacity: u64,
    count: u64,
) -> anyhow::Result<Measure> {
    let ends = channel(&rt, capacity)?;
    let share = count / threads.max(1);
    let started = start_all(&rt, threads.saturating_mul(2), |number| {
        start_thread(rt, calls, &ends, number < threads, share)
    })?;
    let mut delays = Vec::new(rt.alloc());
    for thread in started {
        delays.append(&mut thread.join(&rt)?)?;
    }
    Ok(Measure {
        amount: u128::from(at_permille(delays, permille)?),
        sum: count,
    })
}

/// The delay within which so many of a thousand were.
pub fn at_permille(mut delays: Delays, permille: u64) -> anyhow::Result<u64> {
    delays.sort_unstable();
    let last = u64::try_from(delays.len().saturating_sub(1))?;
    let position = usize::try_from(last.saturating_mul(permille) / 1000)?;
    Ok(*delays.get(position).context("nothing was timed")?)
}

fn start_thread<R: Machine>(
    rt: R,
    calls: Calls,
    ends: &Ends<u64, i64, R>,
    sends: bool,
    count: u64,
) -> anyhow::Result<Giving<Delays>> {
    let tx: Sender<u64, i64, R> = ends.0.clone()?;
    let rx: Receiver<u64, i64, R> = ends.1.clone()?;
    Ok(thread::spawn(&rt, move || time_calls(&rt, calls, &tx, &rx, sends, count))?)
}

fn time_calls<R: Machine>(
    rt: &R,
    calls: Calls,
    tx: &Sender<u64, i64, R>,
    rx: &Receiver<u64, i64, R>,
    sends: bool,
    count: u64,
) -> anyhow::Result<Delays> {
    let mut delays = Vec::new(rt.alloc());
    for number in 0..count {
        let start = Instant::now(rt)?;
        let is_done = if sends {
            calls.send(rt, tx, number, Load::Random.priority(number))
        } else {
            calls.recv(rt, rx).is_some()
        };
        ensure!(is_done, "a call failed");
        delays.push(u64::try_from(start.elapsed(rt)?.as_nanos())?)?;
    }
    Ok(delays)
}

//! How late delayed messages come.

use crate::delays::{Delays, at_permille};
use crate::load::Load;
use crate::measure::Measure;
use crate::threads::{Giving, Machine, start_all};
use async_priority_channel::{Due, Receiver, unbounded};
use std::cmp::Reverse;
use std::sync::WaitMethods;
use std::thread;
use std::time::{Duration, Instant};

/// Nanoseconds after the start at which a message is due.
type After = Reverse<u64>;

// The messages are due within this time, in nanoseconds.
const SPREAD: u64 = 1_000_000_000;

/// So many workers wait for so many messages, each of which is due at an instant of its own. Within
/// how many nanoseconds after its instant so many of a thousand came; of 1000, the latest.
pub fn due<R: Machine>(rt: R, permille: u64, workers: u64, count: u64) -> anyhow::Result<Measure> {
    let (tx, rx) = unbounded(&rt, rt.alloc())?;
    let start = Instant::now(&rt)?;
    let threads = start_all(&rt, workers, |_| start_worker(rt, &rx, start))?;
    for number in 0..count {
        let after = Load::Random.priority(number).unsigned_abs() % SPREAD;
        tx.try_send(number, Reverse(after))?;
    }
    drop(tx);
    let mut delays = Vec::new(rt.alloc());
    for thread in threads {
        delays.append(&mut thread.join(&rt)?)?;
    }
    let sum = u64::try_from(delays.len())?;
    Ok(Measure {
        amount: u128::from(at_permille(delays, permille)?),
        sum,
    })
}

fn start_worker<R: Machine>(
    rt: R,
    rx: &Receiver<u64, After, R>,
    start: Instant,
) -> anyhow::Result<Giving<Delays>> {
    let rx: Receiver<u64, After, R> = rx.clone()?;
    Ok(thread::spawn(&rt, move || time_messages(&rt, &rx, start))?)
}

fn time_messages<R: Machine>(
    rt: &R,
    rx: &Receiver<u64, After, R>,
    start: Instant,
) -> anyhow::Result<Delays> {
    let mut delays = Vec::new(rt.alloc());
    for _ in rt.forever() {
        let Ok((_, Reverse(after))) = rx.recv_when_blocking(|_, after| due_at(start, after)) else {
            return Ok(delays);
        };
        let elapsed = u64::try_from(start.elapsed(rt)?.as_nanos())?;
        delays.push(elapsed.saturating_sub(after))?;
    }
    Ok(delays)
}

fn due_at(start: Instant, after: &After) -> Due {
    match start.checked_add(Duration::from_nanos(after.0)) {
        Some(instant) => Due::At(instant),
        None => Due::Never,
    }
}

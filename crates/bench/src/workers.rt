//! Idle workers that get jobs, and how long it takes to wake one.

use crate::calls::{Calls, Host, channel};
use crate::measure::Measure;
use crate::threads::{Machine, Thread, join_all, start_all};
use anyhow::{bail, ensure};
use async_priority_channel::{Receiver, Sender};
use std::thread;
use std::time::{Clock, Duration, Instant};

const PRIORITY: i64 = 7;

// In microseconds: after it the receiver sleeps.
const PAUSE: u64 = 100;

/// So many jobs at a time go to idle workers, and then their answers are awaited.
pub fn workers<R: Machine>(
    rt: R,
    calls: Calls,
    workers: u64,
    jobs: u64,
    count: u64,
) -> anyhow::Result<Measure> {
    let (tx, requests) = channel(&rt, jobs)?;
    let (done, rx) = channel(&rt, jobs)?;
    let threads = start_all(&rt, workers, |_| start_worker(rt, calls, &requests, &done))?;
    let measure = employ(&rt, calls, &tx, &rx, jobs, count / jobs.max(1))?;
    drop(tx);
    join_all(&rt, threads)?;
    Ok(measure)
}

fn start_worker<R: Machine>(
    rt: R,
    calls: Calls,
    requests: &Receiver<u64, i64, R>,
    done: &Sender<u64, i64, R>,
) -> anyhow::Result<Thread> {
    let requests: Receiver<u64, i64, R> = requests.clone()?;
    let done: Sender<u64, i64, R> = done.clone()?;
    Ok(thread::spawn(&rt, move || work(&rt, calls, &requests, &done))?)
}

// Until the channel of jobs is closed. Gives the sum of its jobs.
fn work<R: Host>(
    rt: &R,
    calls: Calls,
    requests: &Receiver<u64, i64, R>,
    done: &Sender<u64, i64, R>,
) -> anyhow::Result<u64> {
    let mut sum = 0u64;
    for _ in 0..u64::MAX {
        let Some(job) = calls.recv(rt, requests) else {
            break;
        };
        ensure!(calls.send(rt, done, job, PRIORITY), "no answer was sent");
        sum = sum.wrapping_add(job);
    }
    Ok(sum)
}

fn employ<R: Host + Clock>(
    rt: &R,
    calls: Calls,
    tx: &Sender<u64, i64, R>,
    rx: &Receiver<u64, i64, R>,
    jobs: u64,
    rounds: u64,
) -> anyhow::Result<Measure> {
    let start = Instant::now(rt)?;
    let mut sum = 0u64;
    for round in 0..rounds {
        calls.send_all(rt, tx, round.wrapping_mul(jobs), jobs)?;
        sum = sum.wrapping_add(calls.recv_all(rt, rx, jobs)?);
    }
    Ok(Measure::of_time(start.elapsed(rt)?, sum))
}

/// From a send to the end of the receive for which a second thread sleeps, added over all messages.
pub fn wake<R: Machine>(rt: R, calls: Calls, count: u64) -> anyhow::Result<Measure> {
    let (tx, rx) = channel(&rt, 1)?;
    let start = Instant::now(&rt)?;
    let receiver = thread::spawn(&rt, move || add_delays(&rt, calls, &rx, start, count))?;
    send_times(&rt, calls, &tx, start, count)?;
    let delays = receiver.join(&rt)?;
    Ok(Measure {
        amount: u128::from(delays),
        sum: count,
    })
}

fn send_times<R: Host + Clock>(
    rt: &R,
    calls: Calls,
    tx: &Sender<u64, i64, R>,
    start: Instant,
    count: u64,
) -> anyhow::Result<()> {
    for _ in 0..count {
        thread::sleep(rt, Duration::from_micros(PAUSE));
        let is_sent = calls.send(rt, tx, nanoseconds_since(rt, start)?, PRIORITY);
        ensure!(is_sent, "no message was sent");
    }
    Ok(())
}

fn add_delays<R: Host + Clock>(
    rt: &R,
    calls: Calls,
    rx: &Receiver<u64, i64, R>,
    start: Instant,
    count: u64,
) -> anyhow::Result<u64> {
    let mut delays = 0u64;
    for _ in 0..count {
        let Some(sent) = calls.recv(rt, rx) else {
            bail!("no message came");
        };
        delays = delays.saturating_add(nanoseconds_since(rt, start)?.saturating_sub(sent));
    }
    Ok(delays)
}

fn nanoseconds_since<R: Clock>(rt: &R, start: Instant) -> anyhow::Result<u64> {
    Ok(u64::try_from(start.elapsed(rt)?.as_nanos())?)
}

//! A delay queue: each job is received once its time has come.
//!
//! You need this where a message names the instant of its work, as a reminder does (`retry.rt` has
//! jobs that failed). The earliest instant is the greatest priority, and the worker sleeps until it
//! has come. A job that is sent with an earlier one wakes the worker, and so does one that is moved
//! to an earlier one. What is pending when the channel closes is still done at its time: to end at
//! once, `retain(|_, _| false)` drops it.

use anyhow::Context;
use async_priority_channel::{Due, Receiver, RecvFault, Sender, unbounded};
use std::alloc::AllocGlobal;
use std::cmp::Reverse;
use std::sync::Wait;
use std::thread::{self, Threads};
use std::time::{Clock, Duration, Instant};

type Job = &'static str;

fn after<R: Clock>(rt: &R, delay: Duration) -> anyhow::Result<Reverse<Instant>> {
    let due = Instant::now(rt)?.checked_add(delay);
    Ok(Reverse(due.context("past the end of the clock's range")?))
}

fn work<R: Wait + Clone + Clock>(
    rt: &R,
    jobs: &Receiver<Job, Reverse<Instant>, R>,
    done: &Sender<Job, (), R>,
) -> anyhow::Result<()> {
    for _ in rt.forever() {
        match jobs.recv_when_blocking(|_, due| Due::At(due.0)) {
            Ok((job, _)) => done.send_blocking(job, ())?,
            Err(RecvFault::Closed(_)) => break,
            Err(fault) => return Err(fault.into()),
        }
    }
    Ok(())
}

pub fn run<R>(rt: R) -> anyhow::Result<()>
where
    R: Threads + Wait + Copy + Clock + Print + AllocGlobal + Send + 'static,
{
    let (tx, jobs) = unbounded(&rt, rt.alloc())?;
    let (done, finished) = unbounded(&rt, rt.alloc())?;
    let worker = thread::spawn(&rt, move || work(&rt, &jobs, &done))?;
    tx.try_send("water the roses", after(&rt, Duration::from_secs(3600))?)?;
    tx.try_send("take the bread out", after(&rt, Duration::from_millis(5))?)?;
    let (job, ()) = finished.recv_blocking()?;
    println!(rt; "delay: {job}, which was sent later")?;
    let now = Reverse(Instant::now(&rt)?);
    tx.change_priority(|job, _| *job == "water the roses", now);
    drop(tx);
    for (job, ()) in &finished {
        println!(rt; "delay: {job}, an hour early")?;
    }
    worker.join(&rt)
}

//! A job that comes back when its worker fails, and, a few times, when it fails itself.
//!
//! You need this where a worker may fail with a job in hand, which a plain receive would lose. A
//! lease that is dropped, as by a `?`, puts its job back, and another worker takes it. A job that
//! fails by itself is put back with less urgency, behind those that may do better; it counts its
//! tries, or one that cannot be done would come for ever.

use anyhow::Context;
use async_priority_channel::{Receiver, unbounded};
use std::alloc::AllocGlobal;
use std::sync::Wait;

const MOST_TRIES: u64 = 3;

#[derive(Drop)]
struct Job {
    what: &'static str,
    // The try that succeeds.
    lucky: u64,
    tries: u64,
}

fn work<R: Wait + Clone + Print>(
    rt: &R,
    mut strength: u64,
    jobs: &Receiver<Job, u8, R>,
) -> anyhow::Result<()> {
    for mut lease in jobs.leases() {
        strength = strength.checked_sub(1).context("a worker goes home")?;
        let urgency = *lease.priority();
        let job = lease.message_mut();
        job.tries = job.tries.saturating_add(1);
        let is_done = job.lucky <= job.tries;
        if is_done || MOST_TRIES <= job.tries {
            println!(rt; "lease: {} done at try {}: {is_done}", job.what, job.tries)?;
            lease.finish();
        } else {
            lease.put_back(urgency.saturating_sub(1));
        }
    }
    Ok(())
}

pub fn run<R: Wait + Clone + Print + AllocGlobal>(rt: &R) -> anyhow::Result<()> {
    let (tx, jobs) = unbounded(rt, rt.alloc())?;
    for (what, lucky, urgency) in [("lock", 3, 9), ("knot", 4, 9), ("door", 1, 8)] {
        let tries = 0;
        tx.try_send(Job { what, lucky, tries }, urgency)?;
    }
    tx.close_when_done();
    if let Err(error) = work(rt, 4, &jobs) {
        println!(rt; "lease: {error}, and leaves {} jobs", jobs.len())?;
    }
    work(rt, 9, &jobs)
}

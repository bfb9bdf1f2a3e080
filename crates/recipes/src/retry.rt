//! A job that failed is tried again after a while, a few times, by several workers.
//!
//! You need this where a job that failed is not to come back at once, as a lease that is put back
//! does. The priority of a job is the instant at which it is due, and its lease is put back with a
//! later one. The channel closes when all is done, so it stays open for a job that will come back.
//! A worker that leaves by a `?` puts back what it has in hand, and that is due at once. Threads of
//! a scope borrow what they work with, so no handle is cloned.

use anyhow::Context;
use async_priority_channel::{Due, Receiver, RecvFault, Sender, unbounded};
use std::alloc::AllocGlobal;
use std::cmp::Reverse;
use std::sync::Wait;
use std::thread::{self, Threads};
use std::time::{Clock, Duration, Instant};

const WORKERS: usize = 2;

const MOST_TRIES: u64 = 3;

#[derive(Drop)]
struct Job {
    id: u64,
    // The try that succeeds.
    lucky: u64,
    tries: u64,
}

fn after<R: Clock>(rt: &R, delay: Duration) -> anyhow::Result<Reverse<Instant>> {
    let due = Instant::now(rt)?.checked_add(delay);
    Ok(Reverse(due.context("past the end of the clock's range")?))
}

fn work<R: Wait + Clone + Clock>(
    rt: &R,
    jobs: &Receiver<Job, Reverse<Instant>, R>,
    ended: &Sender<Job, Reverse<u64>, R>,
) -> anyhow::Result<()> {
    for _ in rt.forever() {
        let mut lease = match jobs.lease_when_blocking(|_, due| Due::At(due.0)) {
            Ok(lease) => lease,
            Err(RecvFault::Closed(_)) => break,
            Err(fault) => return Err(fault.into()),
        };
        let job = lease.message_mut();
        job.tries = job.tries.saturating_add(1);
        if job.lucky <= job.tries || MOST_TRIES <= job.tries {
            let (job, _) = lease.finish();
            let order = Reverse(job.id);
            ended.try_send(job, order)?;
        } else {
            let delay = Duration::from_millis(5u64.saturating_mul(job.tries));
            lease.put_back(after(rt, delay)?);
        }
    }
    Ok(())
}

pub fn run<R>(rt: &R) -> anyhow::Result<()>
where
    R: Threads + Wait + Clone + Clock + Print + AllocGlobal + Send + Sync,
{
    let (tx, jobs) = unbounded(rt, rt.alloc())?;
    let (to_ended, ended) = unbounded(rt, rt.alloc())?;
    let now = after(rt, Duration::ZERO)?;
    for (id, lucky) in [(1, 3), (2, 4), (3, 1)] {
        let tries = 0;
        tx.try_send(Job { id, lucky, tries }, now)?;
    }
    tx.close_when_done();
    let (jobs, to_ended) = (&jobs, &to_ended);
    thread::scope(thread::scope_env(), rt, |scope| -> anyhow::Result<()> {
        let mut workers = Vec::new(rt.alloc());
        for _ in 0..WORKERS {
            workers.push(scope.spawn(move || work(rt, jobs, to_ended))?)?;
        }
        for worker in workers {
            worker.join(rt)?;
        }
        Ok(())
    })?;
    for (job, _) in ended.try_iter() {
        let is_done = job.lucky <= job.tries;
        println!(rt; "retry: {} done at try {}: {is_done}", job.id, job.tries)?;
    }
    Ok(())
}

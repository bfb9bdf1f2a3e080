//! What a monitor asks of a queue, in the text format of Prometheus.
//!
//! You need this where somebody has to see that a queue grows, or that its jobs are late. The
//! channel tells how many jobs are pending and in hand, and which has waited longest. How many were
//! accepted, refused and finished is counted beside it, where each becomes known. The library opens
//! no socket: this prints.

use async_priority_channel::{End, Receiver, Role, Sender, bounded};
use std::alloc::AllocGlobal;
use std::sync::Wait;
use std::sync::atomic::{AtomicU64, Ordering};
use std::time::{Clock, Duration, Instant};

#[derive(Drop)]
struct Job {
    sent: Instant,
}

#[derive(Default, Drop)]
struct Counters {
    accepted: AtomicU64,
    refused: AtomicU64,
    finished: AtomicU64,
}

fn count(counter: &AtomicU64) {
    counter.fetch_add(1, Ordering::SeqCst);
}

fn send<R: Wait + Clone>(counters: &Counters, tx: &Sender<Job, u8, R>, job: Job, urgency: u8) {
    match tx.try_send(job, urgency) {
        Ok(()) => count(&counters.accepted),
        Err(_) => count(&counters.refused),
    }
}

fn work_once<R: Wait + Clone>(
    counters: &Counters,
    jobs: &Receiver<Job, u8, R>,
) -> anyhow::Result<()> {
    jobs.try_lease()?.finish();
    count(&counters.finished);
    Ok(())
}

// How long the oldest pending job has waited: none if nothing is pending.
fn oldest<S: Role, R: Wait + Clone>(jobs: &End<S, Job, u8, R>, now: Instant) -> Duration {
    jobs.fold_pending(Duration::ZERO, |oldest: Duration, job, _| {
        oldest.max(now.saturating_duration_since(job.sent))
    })
}

fn report<S: Role, R: Wait + Clone + Print>(
    rt: &R,
    counters: &Counters,
    jobs: &End<S, Job, u8, R>,
    now: Instant,
) -> anyhow::Result<()> {
    for (name, counter) in [
        ("accepted", &counters.accepted),
        ("refused", &counters.refused),
        ("finished", &counters.finished),
    ] {
        let total = counter.load(Ordering::SeqCst);
        println!(rt; "# TYPE jobs_{name}_total counter\njobs_{name}_total {total}")?;
    }
    for (name, value) in [
        ("pending", jobs.len()),
        ("in_hand", jobs.held()),
        ("oldest_seconds", oldest(jobs, now).as_secs()),
    ] {
        println!(rt; "# TYPE jobs_{name} gauge\njobs_{name} {value}")?;
    }
    Ok(())
}

pub fn run<R>(rt: &R) -> anyhow::Result<()>
where
    R: Wait + Clone + Clock + Print + AllocGlobal,
{
    let (tx, jobs) = bounded(rt, rt.alloc(), 3)?;
    let counters = Counters::default();
    let sent = Instant::now(rt)?;
    for urgency in [9, 5, 1, 1] {
        send(&counters, &tx, Job { sent }, urgency);
    }
    work_once(&counters, &jobs)?;
    let _in_hand = jobs.try_lease()?;
    let later = sent.checked_add(Duration::from_secs(7));
    report(rt, &counters, &jobs, later.unwrap_or(sent))
}

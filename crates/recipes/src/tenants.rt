//! Jobs of several tenants, none of whom may have more than a few in hand at a time.
//!
//! You need this where many share the workers, and one could take them all. The dispatcher receives
//! the most urgent job whose tenant is below the limit. The others stay pending, and hold up none
//! behind them. That a job is finished is a message of the same channel, which wakes the
//! dispatcher. It alone counts: a count that another thread changes wakes no waiting receiver.

use async_priority_channel::{Receiver, RecvFault, Sender, unbounded};
use std::alloc::AllocGlobal;
use std::sync::Wait;
use std::thread::{self, Threads};

const TENANTS: usize = 2;

const LIMIT: u64 = 1;

#[derive(Clone, Copy, Drop)]
struct Job {
    tenant: usize,
    what: &'static str,
}

#[derive(Clone, Copy, Drop)]
enum Event {
    Wanted(Job),
    Finished(Job),
}

fn fits(in_hand: &[u64], event: &Event) -> bool {
    match event {
        Event::Wanted(job) => in_hand.get(job.tenant).is_none_or(|count| *count < LIMIT),
        Event::Finished(_) => true,
    }
}

fn dispatch<R: Wait + Clone>(
    rt: &R,
    events: &Receiver<Event, u8, R>,
    started: &Sender<Job, (), R>,
) -> anyhow::Result<()> {
    let mut in_hand = [0u64; TENANTS];
    for _ in rt.forever() {
        match events.recv_where_blocking(|event, _| fits(&in_hand, event)) {
            Ok((Event::Wanted(job), _)) => {
                if let Some(count) = in_hand.get_mut(job.tenant) {
                    *count = count.saturating_add(1);
                }
                started.send_blocking(job, ())?;
            }
            Ok((Event::Finished(job), _)) => {
                if let Some(count) = in_hand.get_mut(job.tenant) {
                    *count = count.saturating_sub(1);
                }
            }
            Err(RecvFault::Closed(_)) => break,
            Err(fault) => return Err(fault.into()),
        }
    }
    Ok(())
}

// Here this thread is all the workers: it finishes a job only once no other fits.
pub fn run<R>(rt: R) -> anyhow::Result<()>
where
    R: Threads + Wait + Copy + Print + AllocGlobal + Send + 'static,
{
    let (tx, events) = unbounded(&rt, rt.alloc())?;
    let (started, jobs) = unbounded(&rt, rt.alloc())?;
    for (tenant, what, urgency) in [(0, "rye", 9), (0, "oats", 8), (1, "barley", 3)] {
        tx.try_send(Event::Wanted(Job { tenant, what }), urgency)?;
    }
    let dispatcher = thread::spawn(&rt, move || dispatch(&rt, &events, &started))?;
    let (first, ()) = jobs.recv_blocking()?;
    let (second, ()) = jobs.recv_blocking()?;
    for job in [first, second] {
        println!(rt; "tenants: {} of tenant {}", job.what, job.tenant)?;
    }
    tx.try_send(Event::Finished(first), u8::MAX)?;
    drop(tx); // the dispatcher ends once nothing is pending
    for (job, ()) in &jobs {
        println!(rt; "tenants: {}, once {} is finished", job.what, first.what)?;
    }
    dispatcher.join(&rt)
}

//! Reads numbers from standard input, and prints of each in its turn whether it is prime.
//!
//! Each is a job for a few workers. A worker gives it so many steps at a time. Where these were too
//! few the job has failed for now: it is put back with less urgency, and goes on behind the others.
//! It is tried at most three times.
#![tactic(auto)]

mod job;
mod worker;

use anyhow::{Context, ensure};
use async_priority_channel::{Receiver, Sender, unbounded};
use job::{Job, Settled};
use std::alloc::AllocGlobal;
use std::cmp::Reverse;
use std::io::{BufRead, BufReader};
use std::sync::Wait;
use std::{env, thread};
use worker::{Tries, work};

const WORKERS: usize = 4;

fn main(rt: HostRuntime) -> anyhow::Result<()> {
    ensure!(
        env::args(&rt)?.nth(1).is_none(),
        "no argument is wanted: jobs < LINES"
    );
    let (queue, jobs) = unbounded(&rt, rt.alloc())?;
    let count = submit_lines(&rt, &queue)?;
    queue.close_when_done(); // the workers end once no job is pending or in hand
    let (results, settled) = unbounded(&rt, rt.alloc())?;
    let mut workers = Vec::new(rt.alloc());
    for _ in 0..WORKERS {
        let (jobs, results) = (jobs.clone()?, results.clone()?);
        workers.push(thread::spawn(&rt, move || work(&jobs, &results))?)?;
    }
    drop(results); // the workers have the other senders: the results end with the last worker
    let all = collect(&rt, &settled, count)?;
    for worker in workers {
        worker.join(&rt)?;
    }
    for settled in &all {
        println!(rt; "{settled}")?;
    }
    Ok(())
}

/// Submits a job for each line, and tells how many there are.
fn submit_lines<R>(rt: &R, queue: &Sender<Job, Tries, R>) -> anyhow::Result<usize>
where
    R: Wait + Clone + Input + AllocGlobal,
{
    let mut count = 0usize;
    for line in BufReader::new(rt.alloc(), rt.reader())?.lines(rt.alloc()) {
        let line = line?;
        let number: u64 = line
            .trim()
            .parse()
            .context(format_args!("reading {line:?}"))?;
        ensure!(number > 1, "neither prime nor a product: {number}");
        queue.try_send(Job::new(count, number), Reverse(0))?;
        count = count.saturating_add(1);
    }
    Ok(count)
}

/// Waits for all results, shows meanwhile how many there are, and puts them in order.
fn collect<R>(
    rt: &R,
    settled: &Receiver<Settled, (), R>,
    count: usize,
) -> anyhow::Result<Vec<Settled>>
where
    R: Wait + Clone + Eprint + AllocGlobal,
{
    let mut all = Vec::new(rt.alloc());
    for (settled, ()) in settled {
        all.push(settled)?;
        // A terminal writes it over the line before. Where it can't be shown, the work goes on.
        let _ = eprint!(rt; "\r{} of {count}", all.len());
    }
    let _ = eprintln!(rt);
    all.sort_by_key(|settled| settled.job.index)?;
    Ok(all)
}

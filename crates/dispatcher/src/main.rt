//! Gives jobs to workers, the most urgent first.
//!
//! `dispatcher ROOM WORKERS` reads a job from each line of standard input: `ID PRIORITY TEXT`,
//! where a greater priority is more urgent. At most ROOM jobs are here at a time, pending and in
//! hand. A line is not read before there is a place for its job, so whoever writes the lines keeps
//! the rest. So the input has no buffer, which would read lines that have no place.
//!
//! For each line one is written to standard output: `done ID` or `failed ID` when its job has
//! ended, and `bad LINE` at once if it is no job. When the input has ended, all jobs that are left
//! are done. `job` says what a job does.
#![tactic(auto)]

mod admit;
mod job;
mod reports;
#[cfg(test)]
mod tests;
mod worker;

use admit::admit_lines;
use anyhow::{Context, ensure};
use async_priority_channel::bounded;
use reports::Reports;
use std::io::BufWriter;
use std::sync::Arc;
use std::{env, thread};
use worker::work;

const USAGE: &str = "two numbers above 0 are wanted: dispatcher ROOM WORKERS";

fn main(rt: HostRuntime) -> anyhow::Result<()> {
    let mut words = env::args(&rt)?.skip(1);
    let room = parse_count(words.next())?;
    let workers = parse_count(words.next())?;
    ensure!(room > 0 && workers > 0 && words.next().is_none(), USAGE);

    let (queue, jobs) = bounded(&rt, rt.alloc(), room)?;
    let out = BufWriter::new(rt.alloc(), rt.stdout())?;
    let reports = Arc::new(rt.alloc(), Reports::new(out))?;
    let mut threads = Vec::new(rt.alloc());
    for _ in 0..workers {
        let (jobs, reports) = (jobs.clone()?, Arc::try_clone(&reports)?);
        threads.push(thread::spawn(&rt, move || work(&rt, &jobs, &reports))?)?;
    }
    drop(jobs); // the workers have the others: where all have failed, no place is waited for
    let admitted = admit_lines(&rt, rt.reader(), &queue, &reports);
    drop(queue); // closes it: the workers end once no job is pending or in hand
    for thread in threads {
        thread.join(&rt)?;
    }
    admitted
}

fn parse_count(word: Option<String>) -> anyhow::Result<u64> {
    word.and_then(|word| word.parse().ok()).context(USAGE)
}

//! The thread that reads the jobs.

use crate::job::Job;
use crate::reports::Reports;
use async_priority_channel::Sender;
use std::alloc::AllocGlobal;
use std::io::{BufRead, Write};
use std::sync::Wait;

/// Submits the job of each line, until the input ends. It fails once a worker has.
pub fn admit_lines<R, I, W>(
    rt: &R,
    input: I,
    queue: &Sender<Job, i64, R>,
    reports: &Reports<W>,
) -> anyhow::Result<()>
where
    R: Wait + Clone + AllocGlobal,
    I: BufRead + Drop,
    W: Write,
{
    let mut place = queue.reserve_blocking()?; // before the first line is read
    for line in input.split(rt.alloc(), b'\n') {
        let line = line?;
        match Job::parse(rt.alloc(), &line)? {
            Some((job, priority)) => {
                place.send(job, priority);
                place = queue.reserve_blocking()?; // before the next line is read
            }
            // It leaves its place to the next line.
            None => reports.write(rt, "bad", &line)?,
        }
    }
    Ok(())
}

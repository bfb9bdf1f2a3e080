//! A sender and a receiver that wait for each other on one thread.
//!
//! You need this in async code. The futures and the stream of a channel combine with others, and
//! one `block_on` runs them all. To start it takes far longer than to receive a message, so it
//! stands around the work and not in it.

use async_priority_channel::bounded;
use futures::executor::block_on;
use futures::future::{self, join};
use futures::{FutureExt, StreamExt, TryStreamExt};
use std::alloc::AllocGlobal;
use std::random::RandomSource;
use std::sync::Wait;

pub fn run<R>(rt: R) -> anyhow::Result<()>
where
    R: Wait + Copy + RandomSource + Print + AllocGlobal,
{
    let (tx, rx) = bounded(&rt, rt.alloc(), 2)?;
    let jobs = [("tidy up", 1), ("fire", 9), ("sweep", 2)];
    let sending = tx.sendv(jobs.into_iter().peekable()).map(|sent| {
        tx.close();
        sent.is_ok()
    });
    let working = rx.stream().map(Ok).try_for_each(|(job, urgency)| {
        future::ready(println!(rt; "tasks: {job} ({urgency})"))
    });
    let (all_sent, worked) = block_on(&rt, join(sending, working))?;
    worked?;
    println!(rt; "tasks: all were sent: {all_sent}")?;
    Ok(())
}

//! How a queue ends into which its workers also send.
//!
//! You need this where a job may lead to further jobs, as a page of a crawl leads to other pages.
//! Each worker then has a sender, so the queue does not close of itself; and that nothing is
//! pending is no end either, since whoever is at work may still send. By its leases the queue knows
//! who is: told to `close_when_done`, it closes once nothing is pending and no job is in hand.

use async_priority_channel::{Receiver, Sender, unbounded};
use std::alloc::AllocGlobal;
use std::cmp::Reverse;
use std::sync::Wait;
use std::thread::{self, Threads};

// Halves each piece, and gives the number of those of size 1 that it has seen. The smallest piece
// comes first, so that few are pending.
fn work<R: Wait + Clone>(
    tx: &Sender<u64, Reverse<u64>, R>,
    rx: &Receiver<u64, Reverse<u64>, R>,
) -> anyhow::Result<u64> {
    let mut ones = 0u64;
    for lease in rx.leases() {
        let size = *lease.message();
        let half = size / 2;
        if half == 0 {
            ones = ones.saturating_add(1);
        } else {
            tx.try_send(half, Reverse(half))?;
            tx.try_send(size - half, Reverse(size - half))?;
        }
        lease.finish(); // after what it leads to was sent
    }
    Ok(ones)
}

pub fn run<R>(rt: R) -> anyhow::Result<()>
where
    R: Threads + Wait + Copy + Print + AllocGlobal + Send + 'static,
{
    let (tx, rx) = unbounded(&rt, rt.alloc())?;
    tx.try_send(1000, Reverse(1000))?;
    tx.close_when_done(); // not before the first send: an empty queue is done
    let mut workers = Vec::new(rt.alloc());
    for _ in 0..3 {
        let (tx, rx) = (tx.clone()?, rx.clone()?);
        workers.push(thread::spawn(&rt, move || work(&tx, &rx))?)?;
    }
    let mut ones = 0u64;
    for worker in workers {
        ones = ones.saturating_add(worker.join(&rt)?);
    }
    println!(rt; "ends: {ones} pieces of size 1")?;
    Ok(())
}

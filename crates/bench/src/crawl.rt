//! Workers that send to their own queue.

use crate::calls::{Host, channel};
use crate::load::Load;
use crate::measure::Measure;
use crate::threads::{Machine, Thread, join_all, start_all};
use async_priority_channel::{Receiver, Sender};
use std::thread;
use std::time::Instant;

/// A crawl of a tree of so many nodes. The worker of a node sends its two children before it is
/// done with the node, and the channel closes once all is done.
pub fn crawl<R: Machine>(rt: R, workers: u64, count: u64) -> anyhow::Result<Measure> {
    let (tx, rx) = channel(&rt, 0)?;
    let start = Instant::now(&rt)?;
    send_node(&tx, 0, count)?;
    tx.close_when_done();
    let threads = start_all(&rt, workers, |_| start_worker(rt, &tx, &rx, count))?;
    let sum = join_all(&rt, threads)?;
    Ok(Measure::of_time(start.elapsed(&rt)?, sum))
}

fn start_worker<R: Machine>(
    rt: R,
    tx: &Sender<u64, i64, R>,
    rx: &Receiver<u64, i64, R>,
    count: u64,
) -> anyhow::Result<Thread> {
    let tx: Sender<u64, i64, R> = tx.clone()?;
    let rx: Receiver<u64, i64, R> = rx.clone()?;
    Ok(thread::spawn(&rt, move || visit(&tx, &rx, count))?)
}

// Gives the sum of its nodes.
fn visit<R: Host>(
    tx: &Sender<u64, i64, R>,
    rx: &Receiver<u64, i64, R>,
    count: u64,
) -> anyhow::Result<u64> {
    let mut sum = 0u64;
    for lease in rx.leases() {
        let node = *lease.message();
        let first = node.saturating_mul(2);
        send_node(tx, first.saturating_add(1), count)?;
        send_node(tx, first.saturating_add(2), count)?;
        sum = sum.wrapping_add(node);
        lease.finish();
    }
    Ok(sum)
}

// The nodes of the tree are the numbers below `count`.
fn send_node<R: Host>(tx: &Sender<u64, i64, R>, node: u64, count: u64) -> anyhow::Result<()> {
    if node < count {
        tx.try_send(node, Load::Random.priority(node))?;
    }
    Ok(())
}

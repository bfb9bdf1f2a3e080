//! A queue of jobs: the most urgent first, a worker on a thread of its own, and an end once all is
//! done.
#![tactic(auto)]

use async_priority_channel::bounded;
use std::thread;

fn main(rt: HostRuntime) -> anyhow::Result<()> {
    let (tx, rx) = bounded(&rt, rt.alloc(), 10)?;
    tx.try_send("tidy up", 1)?;
    tx.try_send("put out the fire", 9)?;
    let (urgent, priority) = rx.try_recv()?;
    println!(rt; "{urgent} ({priority})")?;

    let worker = thread::spawn(&rt, move || -> anyhow::Result<()> {
        for (job, priority) in &rx {
            println!(rt; "{job} ({priority})")?;
        }
        Ok(())
    })?;
    tx.send_blocking("sweep the floor", 1)?;
    drop(tx); // closes the channel: the loop ends once nothing is pending
    worker.join(&rt)
}

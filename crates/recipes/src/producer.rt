//! A producer that stops once nobody listens any more.
//!
//! You need this where a producer has something to send only now and then. A send tells it that the
//! channel is closed, but not before the next one. If it pauses by `closed_timeout`, the pause ends
//! as soon as the last receiver is gone.

use async_priority_channel::{Receiver, Sender, unbounded};
use std::alloc::AllocGlobal;
use std::sync::Wait;
use std::thread::{self, Threads};
use std::time::{Clock, Duration};

// Sends a reading before each pause, and gives the number of readings.
fn produce<R: Wait + Clone + Clock>(tx: &Sender<u64, (), R>) -> anyhow::Result<u64> {
    let mut reading = 0u64;
    for pause in [Duration::from_millis(5), Duration::from_secs(3600)] {
        reading = reading.saturating_add(1);
        tx.try_send(reading, ())?;
        if tx.closed_timeout(pause)? {
            break;
        }
    }
    Ok(reading)
}

// One reading, after which the receiver is gone.
fn receive_one<R: Wait + Clone + Print>(rt: &R, rx: Receiver<u64, (), R>) -> anyhow::Result<()> {
    let (reading, ()) = rx.recv_blocking()?;
    println!(rt; "producer: reading {reading}")?;
    Ok(())
}

pub fn run<R>(rt: R) -> anyhow::Result<()>
where
    R: Threads + Wait + Clock + Copy + Print + AllocGlobal + Send + 'static,
{
    let (tx, rx) = unbounded(&rt, rt.alloc())?;
    let last = rx.clone()?;
    let producer = thread::spawn(&rt, move || produce(&tx))?;
    receive_one(&rt, rx)?;
    receive_one(&rt, last)?;
    // The last receiver is gone, so the producer does not wait for an hour.
    let count = producer.join(&rt)?;
    println!(rt; "producer: stopped after {count} readings")?;
    Ok(())
}

//! A worker that waits for room in its own queue can wait for itself.
//!
//! You need this where a worker sends into the bounded queue from which it receives. Once all
//! workers wait for room there, nobody is left to make any. So a worker does not wait: it tries,
//! and a job that finds no room comes back, so it does that one itself. Or the queue is unbounded.

use async_priority_channel::{SendTimeoutError, Sender, TrySendError, bounded};
use std::alloc::{AllocGlobal, Global};
use std::sync::Wait;
use std::time::{Clock, Duration};

// Halves a piece, and does those halves itself that find no room. Gives the number of pieces of
// size 1 that it has seen.
fn split<R: Wait + Clone>(
    alloc: Global,
    tx: &Sender<u64, u64, R>,
    size: u64,
) -> anyhow::Result<u64> {
    let mut own = vec![in alloc; size]?;
    let mut ones = 0u64;
    for _ in 0..u64::MAX {
        let Some(size) = own.pop() else {
            break;
        };
        let half = size / 2;
        if half == 0 {
            ones = ones.saturating_add(1);
            continue;
        }
        for piece in [half, size - half] {
            match tx.try_send(piece, piece) {
                Ok(()) => {}
                Err(TrySendError::Full((piece, _))) => own.push(piece)?,
                Err(error) => return Err(error.into()),
            }
        }
    }
    Ok(ones)
}

pub fn run<R>(rt: &R) -> anyhow::Result<()>
where
    R: Wait + Clone + Clock + Print + AllocGlobal,
{
    let (tx, rx) = bounded(rt, rt.alloc(), 1)?;
    tx.try_send(1000, 1000)?;
    // `send_blocking` would wait for ever here.
    let late = tx.send_timeout(7, 7, Duration::from_millis(10));
    let is_late = late.is_err_and(|error| error.is_timeout());
    println!(rt; "own_queue: a wait for room ended without room: {is_late}")?;
    let mut ones = 0u64;
    // There is one worker, and it is here: once nothing is pending, all is done.
    for (size, _) in rx.try_iter() {
        ones = ones.saturating_add(split(rt.alloc(), &tx, size)?);
    }
    println!(rt; "own_queue: {ones} pieces of size 1")?;
    Ok(())
}

//! What rows with threads share.

use crate::calls::Host;
use std::alloc::AllocGlobal;
use std::thread::{JoinHandle, Threads};
use std::time::Clock;

/// What a row with threads asks of its runtime.
pub trait Machine: Host + Threads + Copy + Clock + Send + 'static {}

impl<R: Host + Threads + Copy + Clock + Send + 'static> Machine for R {}

/// It gives the sum of what came to it.
pub type Thread = Giving<u64>;

pub type Giving<X> = JoinHandle<anyhow::Result<X>>;

/// So many threads, of which each is started with its number.
pub fn start_all<R, X, F>(rt: &R, count: u64, mut start: F) -> anyhow::Result<Vec<Giving<X>>>
where
    R: AllocGlobal,
    X: Drop,
    F: FnMut(u64) -> anyhow::Result<Giving<X>>,
    requires { F.IsAlwaysCallable start }
{
    let mut threads = Vec::new(rt.alloc());
    for number in 0..count {
        threads.push(start(number)?)?;
    }
    Ok(threads)
}

/// The sum of what all give.
pub fn join_all<R: Threads>(rt: &R, threads: Vec<Thread>) -> anyhow::Result<u64> {
    let mut sum = 0u64;
    for thread in threads {
        sum = sum.wrapping_add(thread.join(rt)?);
    }
    Ok(sum)
}

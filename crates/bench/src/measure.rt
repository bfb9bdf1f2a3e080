//! What a row gives, and how its time is taken.

use anyhow::bail;
use std::time::{CpuClock, Duration};

#[derive(Clone, Copy)]
pub struct Measure {
    /// Nanoseconds, or of `memory` bytes.
    pub amount: u128,
    /// Of what came.
    pub sum: u64,
}

impl Measure {
    pub fn of_time(took: Duration, sum: u64) -> Measure {
        Measure {
            amount: took.as_nanos(),
            sum,
        }
    }
}

/// A sum in which it counts at which position each message came.
pub fn add_at(sum: u64, position: u64, msg: u64) -> u64 {
    sum.wrapping_add(msg.wrapping_mul(position))
}

/// Times so many steps, each of which is given its position, and gives a message.
pub fn time_steps<R, F>(rt: &R, count: u64, mut step: F) -> anyhow::Result<Measure>
where
    R: CpuClock,
    F: FnMut(u64) -> Option<u64>,
    requires { F.IsAlwaysCallable step }
{
    let start = rt.thread_cpu_time()?;
    let mut sum = 0u64;
    for position in 0..count {
        let Some(msg) = step(position) else {
            bail!("no message went through");
        };
        sum = add_at(sum, position, msg);
    }
    let end = rt.thread_cpu_time()?;
    Ok(Measure::of_time(end.saturating_sub(start), sum))
}

/// Adds what rounds give, of which each has so many of the messages.
pub fn add_rounds<F>(size: u64, count: u64, mut round: F) -> anyhow::Result<Measure>
where
    F: FnMut() -> anyhow::Result<Measure>,
    requires { F.IsAlwaysCallable round }
{
    let mut amount = 0u128;
    let mut sum = 0u64;
    for _ in 0..count / size.max(1) {
        let measure = round()?;
        amount = amount.saturating_add(measure.amount);
        sum = sum.wrapping_add(measure.sum);
    }
    Ok(Measure { amount, sum })
}

//! A limit of a rate, at which what is urgent overtakes.
//!
//! You need this where another service allows so many calls a second. The receiver takes nothing
//! before the next call is allowed, so what is sent meanwhile can still be first. That at most so
//! many are in flight is another limit: a channel of that capacity, and leases (`lease.rt`), since
//! what is in hand keeps its place.

use anyhow::Context;
use async_priority_channel::{Due, Receiver, RecvFault, unbounded};
use std::alloc::AllocGlobal;
use std::sync::Wait;
use std::time::{Clock, Duration, Instant};

// In milliseconds.
const PAUSE: u64 = 5;

// The next call, not before this instant. None once there is none any more.
fn next_call<R: Wait + Clone + Clock>(
    calls: &Receiver<&'static str, u8, R>,
    allowed: Instant,
) -> anyhow::Result<Option<&'static str>> {
    match calls.recv_when_blocking(|_, _| Due::At(allowed)) {
        Ok((call, _)) => Ok(Some(call)),
        Err(RecvFault::Closed(_)) => Ok(None),
        Err(fault) => Err(fault.into()),
    }
}

pub fn run<R>(rt: &R) -> anyhow::Result<()>
where
    R: Wait + Clone + Clock + Print + AllocGlobal,
{
    let (tx, calls) = unbounded(rt, rt.alloc())?;
    tx.try_send("list the orders", 1)?;
    tx.try_send("list the customers", 1)?;
    let began = Instant::now(rt)?;
    let mut allowed = began;
    for _ in rt.forever() {
        let Some(call) = next_call(&calls, allowed)? else {
            break;
        };
        let now = Instant::now(rt)?;
        println!(rt; "rate: {call}")?;
        if call == "list the orders" {
            tx.try_send("stop the oven", 9)?;
            tx.close();
        }
        allowed = now
            .checked_add(Duration::from_millis(PAUSE))
            .context("past the end of the clock's range")?;
    }
    let three_pauses = began
        .checked_add(Duration::from_millis(3 * PAUSE))
        .context("past the end of the clock's range")?;
    println!(rt; "rate: a pause after each: {}", three_pauses <= allowed)?;
    Ok(())
}

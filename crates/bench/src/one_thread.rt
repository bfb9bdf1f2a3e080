//! The core, on one thread and without a handle.

use crate::load::Load;
use crate::measure::{Measure, add_rounds, time_steps};
use anyhow::ensure;
use priority_channel_core::awaitable_atomics::Wakes;
use priority_channel_core::channel::PriorityQueueChannel;
use std::alloc::AllocGlobal;
use std::time::CpuClock;

/// Its wakers are numbers, of which none is ever listed here.
pub type Core = PriorityQueueChannel<u64, i64, u64>;

/// A send and a receive, with so many pairs pending.
pub fn steady<R>(rt: &R, load: Load, pending: u64, count: u64) -> anyhow::Result<Measure>
where
    R: CpuClock + AllocGlobal,
{
    let mut core = filled(rt, load, pending)?;
    time_steps(rt, count, |position| {
        send_number(&mut core, load, pending.wrapping_add(position))?;
        recv(&mut core)
    })
}

/// A send that makes room, with so many pairs pending and room for no more.
pub fn evicting<R>(rt: &R, load: Load, pending: u64, count: u64) -> anyhow::Result<Measure>
where
    R: CpuClock + AllocGlobal,
{
    ensure!(pending > 0, "no room at all");
    let mut core = PriorityQueueChannel::bounded(rt.alloc(), pending);
    send_all(&mut core, load, pending)?;
    time_steps(rt, count, |position| {
        let number = pending.wrapping_add(position);
        evict(&mut core, number, load.priority(number))
    })
}

/// Sends to an empty core.
pub fn fill<R>(rt: &R, load: Load, size: u64, count: u64) -> anyhow::Result<Measure>
where
    R: CpuClock + AllocGlobal,
{
    add_rounds(size, count, || {
        let mut core = PriorityQueueChannel::unbounded(rt.alloc());
        let start = rt.thread_cpu_time()?;
        send_all(&mut core, load, size)?;
        let end = rt.thread_cpu_time()?;
        Ok(Measure::of_time(end.saturating_sub(start), core.len()))
    })
}

/// Receives until the core is empty.
pub fn drain<R>(rt: &R, load: Load, size: u64, count: u64) -> anyhow::Result<Measure>
where
    R: CpuClock + AllocGlobal,
{
    add_rounds(size, count, || {
        let mut core = filled(rt, load, size)?;
        time_steps(rt, size, |_| recv(&mut core))
    })
}

/// A core with the numbers below `count` pending.
pub fn filled<R: AllocGlobal>(rt: &R, load: Load, count: u64) -> anyhow::Result<Core> {
    let mut core = PriorityQueueChannel::unbounded(rt.alloc());
    send_all(&mut core, load, count)?;
    Ok(core)
}

fn send_all(core: &mut Core, load: Load, count: u64) -> anyhow::Result<()> {
    for number in 0..count {
        ensure!(
            send_number(core, load, number).is_some(),
            "a number was not sent"
        );
    }
    Ok(())
}

// None of these makes an error of `anyhow`, for which it would clear much memory each time.

pub fn send_number(core: &mut Core, load: Load, number: u64) -> Option<u64> {
    let (sent, wakes) = core.try_send(number, load.priority(number));
    let_go(wakes);
    sent.ok()?;
    Some(number)
}

fn recv(core: &mut Core) -> Option<u64> {
    let (received, wakes) = core.try_recv();
    let_go(wakes);
    let (msg, _) = received.ok()?;
    Some(msg)
}

// What comes back: the displaced message, or the one that was refused.
fn evict(core: &mut Core, msg: u64, priority: i64) -> Option<u64> {
    let (sent, wakes) = core.try_send_evicting(msg, priority);
    let_go(wakes);
    match sent {
        Ok(None) => None,
        Ok(Some((displaced, _))) => Some(displaced),
        Err(refused) => Some(refused.into_inner().0),
    }
}

pub fn let_go(wakes: Wakes<u64>) {
    let (room, message) = wakes.into_lists();
    drop(room);
    drop(message);
}

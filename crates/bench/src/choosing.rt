//! The calls of the core that are given a test.

use crate::load::Load;
use crate::measure::{Measure, time_steps};
use crate::one_thread::{Core, filled, let_go, send_number};
use std::alloc::AllocGlobal;
use std::time::CpuClock;

/// Another priority for each of so many pending messages in turn.
pub fn change<R>(rt: &R, load: Load, pending: u64, count: u64) -> anyhow::Result<Measure>
where
    R: CpuClock + AllocGlobal,
{
    let mut core = filled(rt, load, pending)?;
    time_steps(rt, count, |position| {
        let wanted = position.checked_rem(pending)?;
        let priority = load.priority(pending.wrapping_add(position));
        let was = core
            .change_priority(&|msg, _| *msg == wanted, priority)
            .ok()?;
        Some(was.unsigned_abs())
    })
}

/// A count of every second one of so many pending messages.
pub fn count<R>(rt: &R, load: Load, pending: u64, count: u64) -> anyhow::Result<Measure>
where
    R: CpuClock + AllocGlobal,
{
    let core = filled(rt, load, pending)?;
    time_steps(rt, count, |position| {
        Some(core.count_where(&|msg, _| (*msg).wrapping_add(position) % 2 == 0))
    })
}

/// A send, and a receive by a test that passes, with so many pending.
pub fn receive<R>(rt: &R, load: Load, pending: u64, count: u64) -> anyhow::Result<Measure>
where
    R: CpuClock + AllocGlobal,
{
    let mut core = filled(rt, load, pending)?;
    time_steps(rt, count, |position| {
        let number = send_number(&mut core, load, pending.wrapping_add(position))?;
        receive_at_most(&mut core, number)
    })
}

fn receive_at_most(core: &mut Core, number: u64) -> Option<u64> {
    let (received, wakes) = core.try_recv_if(&|msg, _| *msg <= number);
    let_go(wakes);
    let (msg, _) = received.ok()??;
    Some(msg)
}

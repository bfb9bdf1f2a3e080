//! A witnessed channel, on one thread: what it costs that each caller knows a history.
ghost use Rattle.std.specs.Prelude.{◌≡◌, ◌-◌, ◌^◌, false};
ghost use Rattle.priority_channel_recorded.specs.chronicle.Log.{names};

use crate::load::Load;
use crate::measure::{Measure, add_at};
use anyhow::{bail, ensure};
use priority_channel_calls::receives::TryRecv;
use priority_channel_calls::sends::TrySend;
use priority_channel_core::channel::PriorityQueueChannel;
use priority_channel_witnessed::{Fresh, Pass, Recording, Witnessed};
use std::alloc::AllocGlobal;
use std::marker::Brand;
use std::sync::Wait;
use std::time::CpuClock;

// Nobody waits, so a waker is nothing.
type Channel<J> = Witnessed<u64, i64, (), J>;

type Caller<J> = Pass<u64, i64, (), J>;

/// A send and a receive, with so many messages pending.
pub fn steady<R>(rt: &R, pending: u64, count: u64) -> anyhow::Result<Measure>
where
    R: Wait + CpuClock + AllocGlobal,
{
    steady_on::<Brand, R>(rt, Fresh::new(u64::MAX, false, 1), pending, count)
}

fn steady_on<J: Recording, R>(
    rt: &R,
    fresh: Fresh<u64, i64, ()>,
    pending: u64,
    count: u64,
) -> anyhow::Result<Measure>
where
    R: Wait + CpuClock + AllocGlobal,
    requires names { fresh ≡ names J.log J.capacity J.is_reserved J.name J.parts }
    requires capacity { fresh.capacity ≡ 2 ^ 64 - 1 }
    requires reserved { fresh.is_reserved ≡ false }
    requires passes { fresh.passes ≡ 1 }
{
    let core = PriorityQueueChannel::unbounded(rt.alloc());
    let (channel, mut passes) = Channel::<J>::new(rt.alloc(), fresh, core, 1)?;
    let Some(mut pass) = passes.pop() else {
        bail!("no pass");
    };
    for number in 0..pending {
        let is_sent = send(rt, &channel, &mut pass, number);
        ensure!(is_sent, "{number} was not sent");
    }
    let start = rt.thread_cpu_time()?;
    let mut sum = 0u64;
    for position in 0..count {
        let number = pending.wrapping_add(position);
        let is_sent = send(rt, &channel, &mut pass, number);
        ensure!(is_sent, "{number} was not sent");
        let Some(msg) = recv(rt, &channel, &mut pass) else {
            bail!("no message came");
        };
        sum = add_at(sum, position, msg);
    }
    let end = rt.thread_cpu_time()?;
    Ok(Measure::of_time(end.saturating_sub(start), sum))
}

// Not inlined, as the calls that this is compared with.

#[inline(never)]
fn send<J: Recording, R: Wait>(
    rt: &R,
    channel: &Channel<J>,
    pass: &mut Caller<J>,
    number: u64,
) -> bool {
    let call = TrySend {
        msg: number,
        priority: Load::Random.priority(number),
    };
    let (sent, wakes) = channel.call(rt, pass, call);
    let (_for_room, _for_message) = wakes.into_lists();
    sent.is_ok()
}

#[inline(never)]
fn recv<J: Recording, R: Wait>(rt: &R, channel: &Channel<J>, pass: &mut Caller<J>) -> Option<u64> {
    let (received, wakes) = channel.call(rt, pass, TryRecv);
    let (_for_room, _for_message) = wakes.into_lists();
    let (msg, _) = received.ok()?;
    Some(msg)
}

//! Witnessed channels: scenes, and what they are played on.
ghost use Rattle.std.specs.Prelude.{◌≡◌, ◌<◌, ◌≤◌, ◌^◌};
ghost use Rattle.priority_channel_core.specs.Prelude.{opening};
ghost use Rattle.priority_channel_recorded.specs.chronicle.Log.{names};

use super::Host;
use super::replay::explain_four_threads;
use super::watch::within;
use late::{receive_at_the_end, receive_late};
use passes::come_and_go;
use priority_channel_calls::sends::TrySend;
use priority_channel_core::awaitable_atomics::Wakes;
use priority_channel_core::channel::PriorityQueueChannel;
use priority_channel_witnessed::{Fresh, Pass, Recording, Waiter, Witnessed};
use refusing::Refusing;
use std::alloc::{Allocator, Global};
use std::marker::Brand;
use tasks::poll_futures;
use threads::call_on_four_threads;
use waits::end_in_time;

mod late;
mod passes;
mod tasks;
mod threads;
mod waits;

pub type Channel<J, A> = Witnessed<u64, u64, Waiter<A>, J, A>;

pub type Caller<J, A> = Pass<u64, u64, Waiter<A>, J>;

pub type Passes<J, A> = Vec<Caller<J, A>, A>;

type Core<A> = PriorityQueueChannel<u64, u64, Waiter<A>, A>;

/// What is played on such a channel.
#[derive(Clone, Copy)]
pub enum Scene {
    Guests,
    Futures,
    Limits,
    LateMessage,
    LastMoment,
    Threads,
    MixedThreads,
}

/// Plays a scene on a reserved channel for so many pairs, with so many passes at first of so many
/// parts. Tells how many pairs are left.
pub fn play<R: Host>(rt: &R, scene: Scene, cap: u64, passes: usize, parts: usize) -> u64
    requires positive { 0 < cap }
    requires fits { cap < 2 ^ 63 }
    requires passes { passes ≤ parts }
{
    let memory = Refusing::new(rt.alloc());
    let core = Core::bounded_reserved(&memory, cap).expect(rt, "a core");
    play_as::<Brand, _, R>(
        rt,
        &memory,
        &memory,
        scene,
        core,
        Fresh::new(cap, true, parts),
        passes,
    )
}

fn play_as<J: Recording + Send + Sync, A: Allocator + Copy + Send + Sync, R: Host>(
    rt: &R,
    memory: &Refusing<Global>,
    alloc: A,
    scene: Scene,
    core: Core<A>,
    fresh: Fresh<u64, u64, Waiter<A>>,
    passes: usize,
) -> u64
    requires opens { core.state ≡ opening fresh.capacity fresh.is_reserved }
    requires names { fresh ≡ names J.log J.capacity J.is_reserved J.name J.parts }
    requires passes { passes ≤ fresh.passes }
{
    let parts = fresh.passes();
    let made = Channel::<J, A>::new(alloc, fresh, core, passes);
    let (channel, mut passes) = made.expect(rt, "a channel");
    within(
        rt,
        "the end of a scene",
        || act(rt, memory, alloc, scene, &channel, &mut passes),
    );
    end(rt, channel, passes, parts)
}

// Gives the passes back that it takes, or as many others.
fn act<J: Recording + Send + Sync, A: Allocator + Copy + Send + Sync, R: Host>(
    rt: &R,
    memory: &Refusing<Global>,
    alloc: A,
    scene: Scene,
    channel: &Channel<J, A>,
    passes: &mut Passes<J, A>,
) {
    match scene {
        Scene::Guests => come_and_go(rt, channel, passes),
        Scene::Futures => poll_futures(rt, memory, alloc, channel, passes),
        Scene::Limits => end_in_time(rt, memory, alloc, channel, passes),
        Scene::LateMessage => receive_late(rt, memory, channel, passes),
        Scene::LastMoment => receive_at_the_end(rt, channel, passes),
        Scene::Threads => call_on_four_threads(rt, alloc, channel, passes),
        Scene::MixedThreads => explain_four_threads(rt, alloc, channel, passes),
    }
}

// Ends a channel with parts for so many passes, and tells how many pairs are left. While a pass is
// out it does not end.
fn end<J: Recording, A: Allocator + Copy, R: Host>(
    rt: &R,
    channel: Channel<J, A>,
    mut passes: Passes<J, A>,
    parts: usize,
) -> u64
    requires { parts ≡ J.parts }
{
    let last = passes.pop().expect(rt, "a pass");
    let kept = channel.try_end(rt, passes).err();
    let (channel, mut passes) = kept.expect(rt, "a channel that stays while a pass is out");
    passes.push(last).expect(rt, "its own place");
    if passes.len() == parts {
        return channel.end(rt, passes).0.len();
    }
    let ended = channel.try_end(rt, passes).ok();
    ended.expect(rt, "an end with all passes").0.len()
}

pub fn send(msg: u64, priority: u64) -> TrySend<u64, u64> {
    TrySend { msg, priority }
}

/// How many waiters a call has woken.
pub fn count<W: Clone + Drop, A: Allocator>(wakes: Wakes<W, A>) -> usize {
    let (for_room, for_message) = wakes.into_lists();
    for_room.len().wrapping_add(for_message.len())
}

//! What the looks tell of a new channel: it is open and empty, it has room for as many pairs as
//! were asked for, and there is one handle of each kind until one is cloned.
ghost use Rattle.std.specs.Prelude.{◌≡◌, ◌<◌, ◌+◌, ◌^◌, Some, None};

use priority_channel_core::channel::PriorityQueueChannel;
use std::alloc::Allocator;

type Core<A> = PriorityQueueChannel<u64, u64, u64, A>;

/// Looks at a new channel.
pub fn look_at_new<A: Allocator + Copy>(alloc: A, cap: u64)
    requires { 0 < cap }
{
    let channel = Core::<A>::bounded(alloc, cap);
    prove!(!channel.is_closed());
    prove!(channel.is_empty());
    prove!(channel.len() == 0);
    prove!(!channel.is_full());
    prove!(channel.sender_count() == 1);
    prove!(channel.receiver_count() == 1);
}

/// The capacity of a bounded channel is the one that was asked for.
pub fn capacity_of_bounded<A: Allocator + Copy>(alloc: A, cap: u64) -> Option<u64>
    requires positive { 0 < cap }
    requires limit { cap + 1 < 2 ^ 64 }
    ensures { result ≡ Some cap }
{
    Core::<A>::bounded(alloc, cap).capacity()
}

/// An unbounded channel tells none.
pub fn capacity_of_unbounded<A: Allocator + Copy>(alloc: A) -> Option<u64>
    ensures { result ≡ None }
{
    Core::<A>::unbounded(alloc).capacity()
}

/// A clone of a sender is one more sender, and no receiver.
pub fn count_clones<A: Allocator + Copy>(alloc: A) {
    let mut channel = Core::<A>::unbounded(alloc);
    prove!(channel.clone_sender());
    prove!(channel.sender_count() == 2);
    prove!(channel.receiver_count() == 1);
    prove!(channel.clone_receiver());
    prove!(channel.sender_count() == 2);
    prove!(channel.receiver_count() == 2);
}

/// A close answers true once, and the channel is closed then.
pub fn close_twice<A: Allocator + Copy>(alloc: A) {
    let mut channel = Core::<A>::unbounded(alloc);
    let (was_open, wakes) = channel.close();
    let (_for_room, _for_message) = wakes.into_lists();
    prove!(was_open && channel.is_closed());
    let (was_open, wakes) = channel.close();
    let (_for_room, _for_message) = wakes.into_lists();
    prove!(!was_open && channel.is_closed());
}

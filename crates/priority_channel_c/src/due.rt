//! The waiters that a step took off the waiting lists, until the caller has fetched them.
ghost use Rattle.std.specs.Prelude.{◌≡◌};
ghost use Rattle.priority_channel_c.specs.Due.{Pops};
ghost use Rattle.priority_channel_c.specs.Replies.{has_waiters};

use priority_channel_core::awaitable_atomics::Wakes;
use std::alloc::Global;
use std::marker::Model;

fn pop_waker(waiters: &mut Vec<(u64, u64)>) -> Option<u64>
    ensures { Pops waiters.old.items result waiters.new.items }
{
    match waiters.pop() {
        Some((_, waker)) => Some(waker),
        None => None,
    }
}

/// Who is to be woken: the waiting senders and the waiting receivers, each with a waker under its
/// ticket.
#[derive(Drop)]
pub struct Due {
    room: Vec<(u64, u64)>,
    message: Vec<(u64, u64)>,
}

impl Model for Due {
    ghost use Rattle.priority_channel_core.specs.Prelude.{Handed};
    ghost use Rattle.std.specs.Prelude.{ℕ};

    ghost Value = { Handed ℕ };

    ghost view = { λ d. record { room = d.room.items; message = d.message.items } };
}

impl Due {
    ghost use Rattle.priority_channel_core.specs.Prelude.{nobody};
    ghost use Rattle.priority_channel_c.specs.Due.{HandsOne};

    pub fn nobody(alloc: Global) -> Due
        ensures { result ≡ nobody }
    {
        Due {
            room: Vec::new(alloc),
            message: Vec::new(alloc),
        }
    }

    pub fn of(wakes: Wakes<u64>) -> Due
        ensures { result ≡ wakes }
    {
        let (room, message) = wakes.into_lists();
        Due { room, message }
    }

    #[inline(always)]
    pub fn has_waiters(&self) -> bool
        ensures { result ≡ has_waiters self.now }
    {
        !(self.room.is_empty() && self.message.is_empty())
    }

    /// Fetches a waker, if anybody is due. First come those of the waiting senders.
    pub fn next(&mut self) -> Option<u64>
        ensures { HandsOne self.old result self.new }
    {
        match pop_waker(&mut self.room) {
            Some(waker) => Some(waker),
            None => pop_waker(&mut self.message),
        }
    }
}

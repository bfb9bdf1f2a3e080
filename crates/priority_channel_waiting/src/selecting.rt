//! The tasks and threads that wait until a pending message meets a condition of theirs, or until
//! the channel is closed.
//!
//! Such a waiter looks at the channel. If it has to wait, it is listed together with what it has
//! seen. Once that is no longer what is there, the waiters are taken off the list, to be woken and
//! to look again.
ghost use Rattle.std.specs.Prelude.{◌≡◌, [], ◌++◌, true, false, None, Some, IfSome};
ghost use Rattle.priority_channel_waiting.specs.Selecting.{left_by, looking_at, messages_seen, seen_of, with_looking_at, AllHaveSeen, Enrols, HaveSeen, TakesOff};
ghost use Rattle.priority_channel_waiting.specs.declared.selecting.Sight.TheVariants as sight;

use crate::waiter::{Core, Waiter, wake_each};
use priority_channel_core::comparisons::Comparisons;
use priority_channel_core::waiting_list::WaitingList;
use std::alloc::Allocator;
use std::marker::Model;
use std::sync::Wait;

/// At what a waiter looks.
#[derive(Clone, Copy, Drop)]
pub enum Sight {
    /// At the pending message that a receive would give.
    First,
    /// At all pending messages.
    All,
    /// At whether the channel is closed.
    Close,
}

/// What tells a waiter that it has to look again: another message is first, or another one was
/// accepted, or a priority was changed. Before the close, all looks for it see the same.
#[derive(Clone, Copy, Drop, PartialEq, Eq)]
struct Seen {
    number: Option<u64>,
    changes: u64,
}

impl Seen {
    // None if the wait is over.
    #[inline(always)]
    fn of<T, P: Ord, A: Allocator + Copy>(sight: Sight, core: &Core<T, P, A>) -> Option<Self>
        ensures { result ≡ seen_of sight core.now }
    {
        match sight {
            Sight::First => Seen::of_messages(core.first_number(), core),
            Sight::All => Seen::of_messages(Some(core.accepted()), core),
            Sight::Close => Seen::of_open(core),
        }
    }

    // None if no message can come any more.
    fn of_messages<T, P: Ord, A: Allocator + Copy>(
        number: Option<u64>,
        core: &Core<T, P, A>,
    ) -> Option<Self>
        ensures { result ≡ messages_seen number core.now }
    {
        if core.is_closed() && core.is_done() {
            return None;
        }
        Some(Seen {
            number,
            changes: core.changes(),
        })
    }

    // None if the channel is closed.
    #[inline(always)]
    fn of_open<T, P: Ord, A: Allocator + Copy>(core: &Core<T, P, A>) -> Option<Self>
        ensures { result ≡ seen_of sight.Close core.now }
    {
        if core.is_closed() {
            return None;
        }
        Some(Seen {
            number: None,
            changes: 0,
        })
    }
}

/// Waiters that were taken off a list, each with its ticket.
pub type Taken<A> = Vec<(u64, Waiter<A>), A>;

/// Waiters that were taken off the lists beside the core. They are to be woken once the lock is
/// free.
pub struct OtherWakes<A: Allocator> {
    first: Taken<A>,
    all: Taken<A>,
    close: Taken<A>,
}

impl<A: Allocator> Model for OtherWakes<A> {
    ghost use Rattle.priority_channel_waiting.specs.Selecting.{Woken};

    ghost Value = { Woken };

    ghost view = { λ w. record {
      first = w.first.items;
      all = w.all.items;
      close = w.close.items;
    } };
}

impl<A: Allocator> OtherWakes<A> {
    pub fn wake<R: Wait>(self, rt: &R) {
        let OtherWakes { first, all, close } = self;
        wake_each(rt, first);
        wake_each(rt, all);
        wake_each(rt, close);
    }
}

/// What came of a listing.
pub enum Listed {
    /// The waiter is listed under this ticket.
    Under(u64),
    /// The wait is over: no message can come any more, or the channel is closed.
    Over,
    /// Memory was refused, or the numbers ran out.
    Refused,
}

/// The waiters that look at the same. All have seen the same of it.
#[derive(Drop)]
pub struct Watchers<A: Allocator> {
    waiters: WaitingList<Waiter<A>, A>,
    next_ticket: u64,
    seen: Option<Seen>,
}

impl<A: Allocator> Model for Watchers<A> {
    ghost use Rattle.std.specs.Prelude.{◌<◌, All};
    ghost use Rattle.priority_channel_waiting.specs.Selecting.{Watched};

    ghost Value = { Watched };

    ghost view = { λ w. record {
      waiters = w.waiters;
      next_ticket = w.next_ticket;
      seen = w.seen;
    } };

    ghost invariant = { λ w. All (λ waiter. waiter.0 < w.next_ticket) w.waiters };
}

impl<A: Allocator + Copy> Watchers<A> {
    fn new(alloc: A) -> Self
        ensures { result ≡ record { waiters = []; next_ticket = 0; seen = None } }
    {
        Watchers {
            waiters: WaitingList::new(alloc),
            next_ticket: 0,
            seen: None,
        }
    }

    /// Lists a waiter that has just looked: under its own ticket if that is listed, otherwise under
    /// the next one.
    pub fn listen<T, P: Ord>(
        &mut self,
        core: &Core<T, P, A>,
        sight: Sight,
        ticket: Option<u64>,
        waiter: &Waiter<A>,
    ) -> Listed
        requires { HaveSeen sight self.old core.now }
        ensures listed { Enrols sight core.now ticket waiter.now result self.old self.new }
        ensures seen { HaveSeen sight self.new core.now }
    {
        let Some(seen) = Seen::of(sight, core) else {
            return Listed::Over;
        };
        self.seen = Some(seen);
        let mut comparisons = Comparisons::new();
        let listed = self
            .waiters
            .listen(ticket, waiter, &mut self.next_ticket, &mut comparisons);
        match listed {
            Some(ticket) => Listed::Under(ticket),
            None => Listed::Refused,
        }
    }

    /// Takes a waiter off the list.
    pub fn unlisten(&mut self, ticket: u64)
        ensures { self.new ≡ left_by ticket self.old }
    {
        let mut comparisons = Comparisons::new();
        self.waiters.remove(ticket, &mut comparisons);
    }

    /// Takes all off, to be woken, unless what they have seen is what is there.
    #[inline(never)]
    pub fn due<T, P: Ord>(&mut self, core: &Core<T, P, A>, sight: Sight, alloc: A) -> Taken<A>
        ensures seen { HaveSeen sight self.new core.now }
        ensures moved { result.items ++ self.new.waiters ≡ self.old.waiters }
        ensures same { self.new ≡ record self.old { waiters = self.new.waiters } }
        ensures kept { HaveSeen sight self.old core.now → result.items ≡ [] }
    {
        if self.have_seen(core, sight) {
            return Vec::new(alloc);
        }
        self.waiters.take(alloc)
    }

    // Whether all who are listed have seen what is there.
    #[inline(always)]
    fn have_seen<T, P: Ord>(&self, core: &Core<T, P, A>, sight: Sight) -> bool
        ensures seen { result ≡ true → HaveSeen sight self.now core.now }
        ensures due { HaveSeen sight self.now core.now → result ≡ true }
    {
        if self.waiters.is_empty() {
            return true;
        }
        match Seen::of(sight, core) {
            Some(seen) => self.seen == Some(seen),
            None => false,
        }
    }
}

/// The waiters that look at the first message, those that look at all, and those that wait for the
/// close.
#[derive(Drop)]
pub struct Selecting<A: Allocator> {
    first: Watchers<A>,
    all: Watchers<A>,
    close: Watchers<A>,
}

impl<A: Allocator> Model for Selecting<A> {
    ghost use Rattle.priority_channel_waiting.specs.Selecting.{Selection};

    ghost Value = { Selection };

    ghost view = { λ s. record { first = s.first; all = s.all; close = s.close } };
}

impl<A: Allocator + Copy> Selecting<A> {
    pub fn new(alloc: A) -> Self
        ensures first { result.first.waiters ≡ [] }
        ensures all { result.all.waiters ≡ [] }
        ensures close { result.close.waiters ≡ [] }
    {
        Selecting {
            first: Watchers::new(alloc),
            all: Watchers::new(alloc),
            close: Watchers::new(alloc),
        }
    }

    /// Lists a waiter that has just looked: under its own ticket if that is listed, otherwise under
    /// the next one.
    pub fn listen<T, P: Ord>(
        &mut self,
        core: &Core<T, P, A>,
        sight: Sight,
        ticket: Option<u64>,
        waiter: &Waiter<A>,
    ) -> Listed
        requires { AllHaveSeen self.old core.now }
        ensures listed { Enrols sight core.now ticket waiter.now result (looking_at sight self.old)
            (looking_at sight self.new) }
        ensures others { self.new ≡ with_looking_at sight (looking_at sight self.new) self.old }
        ensures seen { AllHaveSeen self.new core.now }
    {
        match sight {
            Sight::First => self.first.listen(core, sight, ticket, waiter),
            Sight::All => self.all.listen(core, sight, ticket, waiter),
            Sight::Close => self.close.listen(core, sight, ticket, waiter),
        }
    }

    /// Takes a waiter off its list.
    pub fn unlisten(&mut self, sight: Sight, ticket: u64)
        ensures { self.new
            ≡ with_looking_at sight (left_by ticket (looking_at sight self.old)) self.old }
    {
        match sight {
            Sight::First => self.first.unlisten(ticket),
            Sight::All => self.all.unlisten(ticket),
            Sight::Close => self.close.unlisten(ticket),
        }
    }

    /// Takes off the waiters that have to look again, to be woken. None if there are none.
    ///
    /// Each call on the channel looks here while anybody waits so, and mostly nobody is due. So what
    /// finds that out is inline.
    #[inline(always)]
    pub fn due<T, P: Ord>(&mut self, core: &Core<T, P, A>, alloc: A) -> Option<OtherWakes<A>>
        ensures seen { AllHaveSeen self.new core.now }
        ensures moved { TakesOff self.old result self.new }
        ensures first_kept { HaveSeen sight.First self.old.first core.now
            → IfSome result (λ woken. woken.first ≡ []) }
        ensures all_kept { HaveSeen sight.All self.old.all core.now
            → IfSome result (λ woken. woken.all ≡ []) }
        ensures close_kept { HaveSeen sight.Close self.old.close core.now
            → IfSome result (λ woken. woken.close ≡ []) }
    {
        if self.have_seen(core) {
            return None;
        }
        let first = self.first.due(core, Sight::First, alloc);
        let all = self.all.due(core, Sight::All, alloc);
        let close = self.close.due(core, Sight::Close, alloc);
        Some(OtherWakes { first, all, close })
    }

    #[inline(always)]
    fn have_seen<T, P: Ord>(&self, core: &Core<T, P, A>) -> bool
        ensures { result ≡ true → AllHaveSeen self.now core.now }
    {
        if !self.first.have_seen(core, Sight::First) {
            return false;
        }
        if !self.all.have_seen(core, Sight::All) {
            return false;
        }
        self.close.have_seen(core, Sight::Close)
    }
}

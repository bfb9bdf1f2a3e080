//! The histories of a channel: what its calls tell.
use priority_channel_calls::call::CoreCall;
use priority_channel_core::awaitable_atomics::Wakes;
use priority_channel_recorded::chronicle::{self, Chronicle};
use std::alloc::Allocator;
use std::marker::{Model, PhantomData};
use std::snapshot::Snapshot;

/// What a call and its answer tell of the steps that were made, as the type of a field.
pub struct Deed<T, P, W> {
    of: PhantomData<(T, P, W)>,
}

impl<T, P, W> Model for Deed<T, P, W> {
    ghost use Rattle.priority_channel_calls.specs.Told.{Told};
    ghost use Rattle.priority_channel_calls.specs.Told.Told.{Nothing};

    ghost Value = { Told T P W };

    ghost view = { λ _. Nothing };
}

/// A call: the number of its pass, what it told, and the waiters that it took off their lists.
/// Entries exist in contracts alone: no value of this type is made, nor of `Deed`.
pub struct Entry<T, P, W> {
    pub who: u64,
    pub told: Deed<T, P, W>,
    pub handed: Wakes<W>,
}

/// A call that was made, in snapshots. These take no memory, and leave the values where they are.
#[derive(Drop)]
pub struct Telling<T, P: Ord, W: Clone, A: Allocator + Copy, C: CoreCall<T, P, W, A>> {
    pub who: u64,
    pub made: Snapshot<C>,
    pub said: Snapshot<C::Answer>,
    pub handed: Snapshot<Wakes<W, A>>,
    pub of: PhantomData<(T, P)>,
}

/// Histories of a channel with these messages, priorities and wakers.
pub struct Calls<T, P: Ord, W: Clone> {
    of: PhantomData<(T, P, W)>,
}

impl<T, P: Ord, W: Clone> Chronicle for Calls<T, P, W> {
    ghost use Rattle.priority_channel_witnessed.specs.History.{IsLegal, who_of, legal_none};

    type Entry = Entry<T, P, W>;

    ghost legal = { IsLegal P.cmp W.is_clone };

    ghost who = { who_of };

    ghost begins = { legal_none P.cmp W.is_clone };
}

impl<T, P: Ord, W: Clone, A: Allocator + Copy, C: CoreCall<T, P, W, A>> chronicle::Telling<
    Calls<T, P, W>,
> for Telling<T, P, W, A, C> {
    ghost use Rattle.priority_channel_witnessed.specs.History.{entry};

    ghost entry = { λ it. entry it.who (C.told it.made.value it.said.value) it.handed.value };
}

/// A log without entries and an empty ledger, for one channel to be made of.
pub type Fresh<T, P, W> = chronicle::Fresh<Calls<T, P, W>>;

pub type Log<T, P, W, J> = chronicle::Log<Calls<T, P, W>, J>;

/// A prefix of the log that was seen.
pub type Seen<T, P, W, J> = chronicle::Seen<Calls<T, P, W>, J>;

/// The right to call a channel.
pub type Pass<T, P, W, J> = chronicle::Pass<Calls<T, P, W>, J>;

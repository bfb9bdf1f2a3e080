//! A channel for one caller, with the history of its calls.
ghost use Rattle.std.specs.Prelude.{◌≡◌, ◌<◌, ◌≤◌, ◌^◌, true, [], ◌∷◌, ◌++◌, length, vec_capacity, IfOk, OnErr, Some, codes};
ghost use Rattle.priority_channel_core.specs.Prelude.{opening};
ghost use Rattle.priority_channel_recorded.specs.History.{entry, IsHistory, IsStep};

use priority_channel_core::awaitable_atomics::Wakes;
use priority_channel_core::channel::PriorityQueueChannel;
use priority_channel_core::errors::{TryRecvError, TrySendError};
use std::alloc::{AllocError, Allocator, Global};
use std::error::Error;
use std::fmt;
use std::marker::Model;

/// A call that a book records.
#[derive(Clone, Copy, Debug, PartialEq, Eq)]
pub enum Call<T, P> {
    TrySend(T, P),
    TrySendEvicting(T, P),
    TryRecv,
    Close,
    IsClosed,
    IsEmpty,
    IsFull,
    Len,
}

/// The reply to a recorded call.
#[derive(Clone, Copy, Debug, PartialEq, Eq)]
pub enum Reply<T, P> {
    /// To `TrySend`.
    Sent(Result<(), TrySendError<(T, P)>>),
    /// To `TrySendEvicting`, with the displaced pair.
    Displaced(Result<Option<(T, P)>, TrySendError<(T, P)>>),
    /// To `TryRecv`.
    Received(Result<(T, P), TryRecvError>),
    /// To `Close`, whether the channel was open; to `IsClosed`, `IsEmpty` and `IsFull`, whether it
    /// is so.
    Bool(bool),
    /// To `Len`.
    Len(u64),
}

/// A call: the caller's number, the call, and the reply.
#[derive(Clone, Copy, Debug, PartialEq, Eq)]
pub struct Entry<T, P> {
    pub who: u64,
    pub call: Call<T, P>,
    pub reply: Reply<T, P>,
}

/// There was no memory for the entry of a call, so the call was not made.
#[derive(Clone, Copy, Debug, Drop, PartialEq, Eq)]
pub struct NoPlace;

impl fmt::Display for NoPlace {
    ghost output = { λ _. Some (codes "no memory for an entry") };

    fn fmt<W: fmt::Write>(&self, f: &mut fmt::Formatter<W>) -> fmt::Result {
        f.write_str("no memory for an entry")
    }
}

impl Error for NoPlace {}

/// A reserved channel, and the history of its calls. Contracts see the channel's state, the
/// history, and for how many entries there is memory.
///
/// ```
/// let mut book = Book::new(alloc, 2, 8)?;
/// assert_eq!(rt; book.record(0, Call::TrySend("build", 3)), Ok(Reply::Sent(Ok(()))));
/// assert_eq!(rt; book.record(1, Call::TryRecv), Ok(Reply::Received(Ok(("build", 3)))));
/// assert_eq!(rt; book.history().len(), 2);
/// ```
#[derive(Drop)]
pub struct Book<T, P: Ord, A: Allocator = Global> {
    channel: PriorityQueueChannel<T, P, (), A>,
    history: Vec<Entry<T, P>, A>,
}

impl<T, P: Ord, A: Allocator> Model for Book<T, P, A> {
    ghost use Rattle.std.specs.Prelude.{vec_capacity};
    ghost use Rattle.priority_channel_recorded.specs.History.{Chronicle, IsHistory};

    ghost Value = { Chronicle T P };

    ghost view = { λ b. record {
      state = b.channel.state;
      history = b.history.items;
      slots = vec_capacity b.history;
    } };

    ghost invariant = { λ b. IsHistory P.cmp b.channel.state.capacity b.history.items
        b.channel.state };
}

impl<T: Copy, P: Copy + Ord, A: Allocator + Copy> Book<T, P, A> {
    /// An open and empty channel for `cap` pairs, and an empty history. The error is that memory
    /// was refused.
    ///
    /// Cost: memory for `cap` pairs, for good, and for `entries` entries.
    #[tactic(auto, using(crate::proofs::Histories::history_none))]
    pub fn new(alloc: A, cap: u64, entries: usize) -> Result<Self, AllocError>
        requires positive { 0 < cap }
        requires fits { cap < 2 ^ 63 }
        ensures { IfOk result (λ book. book ≡ record {
          state = opening cap true;
          history = [];
          slots = entries;
        }) }
    {
        let channel = PriorityQueueChannel::bounded_reserved(alloc, cap)?;
        let history = Vec::with_capacity(alloc, entries)?;
        Ok(Book { channel, history })
    }

    /// Makes a call, and enters it with its reply under the caller's number. If memory for the
    /// entry is refused, the call is not made. That does not happen before `entries` entries are
    /// made.
    ///
    /// Cost: as the channel's call, and memory for the entry once `entries` are made.
    #[tactic(auto, using(crate::proofs::Histories::history_more))]
    pub fn record(&mut self, who: u64, call: Call<T, P>) -> Result<Reply<T, P>, NoPlace>
        ensures step { IfOk result (λ reply.
            IsStep P.cmp self.old.state call reply self.new.state) }
        ensures entered { IfOk result (λ reply. self.new.history
            ≡ self.old.history ++ entry who call reply ∷ []) }
        ensures unchanged { OnErr result (self.new ≡ self.old) }
        ensures refused { OnErr result (self.old.slots ≤ length self.old.history) }
        ensures slots { self.old.slots ≤ self.new.slots }
        ensures capacity { self.new.state.capacity ≡ self.old.state.capacity }
        ensures legal { IsHistory P.cmp self.new.state.capacity self.new.history self.new.state }
    {
        let Ok(()) = self.history.reserve(1) else {
            return Err(NoPlace);
        };
        let reply = make(&mut self.channel, call);
        self.history.push_reserved(Entry { who, call, reply });
        Ok(reply)
    }

    /// The entries, in the order of the calls.
    ///
    /// Cost: none.
    pub fn history(&self) -> &[Entry<T, P>]
        ensures { result.now ≡ self.now.history }
    {
        self.history.as_slice()
    }

    pub(crate) fn into_history(self) -> Vec<Entry<T, P>, A>
        ensures history { result.items ≡ self.history }
        ensures legal { IsHistory P.cmp self.state.capacity self.history self.state }
    {
        let Book {
            channel: _,
            history,
        } = self;
        history
    }
}

fn make<T: Copy, P: Copy + Ord, A: Allocator + Copy>(
    channel: &mut PriorityQueueChannel<T, P, (), A>,
    call: Call<T, P>,
) -> Reply<T, P>
    ensures { IsStep P.cmp channel.old.state call result channel.new.state }
{
    match call {
        Call::TrySend(msg, priority) => Reply::Sent(unwoken(channel.try_send(msg, priority))),
        Call::TrySendEvicting(msg, priority) => {
            Reply::Displaced(unwoken(channel.try_send_evicting(msg, priority)))
        }
        Call::TryRecv => Reply::Received(unwoken(channel.try_recv())),
        Call::Close => Reply::Bool(unwoken(channel.close())),
        Call::IsClosed => Reply::Bool(channel.is_closed()),
        Call::IsEmpty => Reply::Bool(channel.is_empty()),
        Call::IsFull => Reply::Bool(channel.is_full()),
        Call::Len => Reply::Len(channel.len()),
    }
}

// Nobody waits in a recorded channel, so there is nobody to wake.
fn unwoken<R, A: Allocator>(told: (R, Wakes<(), A>)) -> R
    ensures { result ≡ told.0 }
{
    let (answer, wakes) = told;
    let (_for_room, _for_message) = wakes.into_lists();
    answer
}

//! A count and a closed bit in one word, and the senders and receivers that wait for the count to
//! change.
//!
//! The small calls of the hot path are forced inline. Otherwise their results would be written to
//! memory and read back at once.
ghost use Rattle.std.specs.Prelude.{◌≡◌, ◌+◌, ◌-◌, ◌<◌, ◌≤◌, ◌^◌, ◌&&◌, ◌||◌, ◌==◌, if◌then◌else◌, [], IsSome, true, false, Some};
ghost use Rattle.priority_channel_core.specs.Word.{bit_at, nobody, Handed};
ghost use Rattle.priority_channel_core.specs.Prelude.{is_given_listed, HasOwnTickets, no_waiters, on_side, unlist, Enlists, search_bound, closed_bit, count_below, CountedWord};

use crate::comparisons::Comparisons;
use crate::side::Side;
use crate::waiting_list::WaitingList;
use std::alloc::{Allocator, Global};
use std::marker::Model;

const CLOSED_BIT: u64 = 1 << 63;

/// The waiters that a step takes off the lists, for the caller to wake: the waiting senders
/// (`room`) and the waiting receivers (`message`). It must be consumed, by `into_lists`.
pub struct Wakes<W, A: Allocator = Global> {
    room: Vec<(u64, W), A>,
    message: Vec<(u64, W), A>,
}

impl<W, A: Allocator> Model for Wakes<W, A> {
    ghost Value = { Handed W };

    ghost view = { λ w. record { room = w.room.items; message = w.message.items } };
}

impl<W, A: Allocator> Wakes<W, A> {
    /// First the waiting senders, then the waiting receivers, each under its ticket.
    #[inline(always)]
    pub fn into_lists(self) -> (Vec<(u64, W), A>, Vec<(u64, W), A>)
        ensures room { result.0.items ≡ self.room }
        ensures message { result.1.items ≡ self.message }
    {
        let Wakes { room, message } = self;
        (room, message)
    }
}

impl<W, A: Allocator + Copy> Wakes<W, A> {
    /// No waiter to wake. It takes no memory.
    #[inline(always)]
    pub fn nobody(alloc: A) -> Self
        ensures { result ≡ nobody }
    {
        Wakes {
            room: Vec::new(alloc),
            message: Vec::new(alloc),
        }
    }
}

/// A count below 2^63 and a closed bit, in one word, with two lists of waiters: senders wait for
/// the count to fall, so that there is room; receivers wait for it to rise, so that there is a
/// message. The name is the Rust crate's. Nothing is atomic here, since a lock guards the channel.
/// Beside the count stands how many places are held.
///
/// A waiter is known by its ticket, a number that is given once. A call that wakes waiters moves
/// whole lists out, so it takes no memory.
///
/// ```
/// let mut length: AwaitableAtomicCounterAndBit<Waker> =
///     AwaitableAtomicCounterAndBit::new(alloc, 5);
/// let (before, wakes) = length.incr(2);
/// assert_eq!(rt; before, (false, 5));
/// let (_for_room, _for_message) = wakes.into_lists();
/// ```
#[derive(Drop)]
pub struct AwaitableAtomicCounterAndBit<W, A: Allocator = Global> {
    alloc: A,
    packed: u64,
    held: u64,
    ends: bool,
    room_waiters: WaitingList<W, A>,
    message_waiters: WaitingList<W, A>,
    next_ticket: u64,
    comparisons: Comparisons,
}

impl<W, A: Allocator> Model for AwaitableAtomicCounterAndBit<W, A> {
    ghost Value = { CountedWord W };

    ghost view = { λ a. record {
      word = record {
        is_closed = closed_bit a.packed;
        count = count_below a.packed;
        held = a.held;
        ends = a.ends;
        waiters = record {
          room = a.room_waiters;
          message = a.message_waiters;
          next_ticket = a.next_ticket;
        };
      };
      comparisons = a.comparisons.count;
    } };

    ghost invariant = { λ a. HasOwnTickets (record {
      room = a.room_waiters;
      message = a.message_waiters;
      next_ticket = a.next_ticket;
    }) };
}

#[inline(always)]
fn unpack(packed: u64) -> (bool, u64)
    ensures bit { result.0 ≡ closed_bit packed }
    ensures count { result.1 ≡ count_below packed }
{
    (packed & CLOSED_BIT > 0, packed & !CLOSED_BIT)
}

impl<W, A: Allocator + Copy> AwaitableAtomicCounterAndBit<W, A> {
    /// An open word with this count and no waiters. It takes no memory.
    pub fn new(alloc: A, value: u64) -> Self
        requires { value < 2 ^ 63 }
        ensures word { result.word ≡ record {
          is_closed = false;
          count = value;
          held = 0;
          ends = false;
          waiters = no_waiters;
        } }
    {
        AwaitableAtomicCounterAndBit {
            alloc,
            packed: value,
            held: 0,
            ends: false,
            room_waiters: WaitingList::new(alloc),
            message_waiters: WaitingList::new(alloc),
            next_ticket: 0,
            comparisons: Comparisons::new(),
        }
    }

    /// The bit and the count.
    #[inline(always)]
    pub fn load(&self) -> (bool, u64)
        ensures bit { result.0 ≡ self.now.word.is_closed }
        ensures count { result.1 ≡ self.now.word.count }
    {
        unpack(self.packed)
    }

    /// How many places are held.
    #[inline(always)]
    pub fn held(&self) -> u64
        ensures { result ≡ self.now.word.held }
    {
        self.held
    }

    /// From now on the bit is set once the count and the held places have fallen to nothing.
    pub fn end_at_nothing(&mut self)
        ensures word { self.new.word ≡ record self.old.word { ends = true } }
        ensures comparisons { self.new.comparisons ≡ self.old.comparisons }
    {
        self.ends = true;
    }

    // Sets the bit if the count and the held places have fallen to nothing, and it ends then.
    #[inline(always)]
    fn settle(&mut self)
        ensures word { self.new.word ≡ record self.old.word {
          is_closed = bit_at self.old.word self.old.word.count self.old.word.held;
        } }
        ensures comparisons { self.new.comparisons ≡ self.old.comparisons }
    {
        if self.ends && self.held == 0 && self.load().1 == 0 {
            self.packed |= CLOSED_BIT;
        }
    }

    /// One more place is held.
    pub fn hold(&mut self)
        requires { self.old.word.held + 1 < 2 ^ 63 }
        ensures word { self.new.word
            ≡ record self.old.word { held = self.old.word.held + 1 } }
        ensures comparisons { self.new.comparisons ≡ self.old.comparisons }
    {
        self.held += 1;
    }

    /// One of the count is a held place from now on. Nobody is woken, since no room comes free.
    pub fn lend(&mut self)
        requires counted { 0 < self.old.word.count }
        requires fits { self.old.word.held + 1 < 2 ^ 63 }
        ensures word { self.new.word ≡ record self.old.word {
          count = self.old.word.count - 1;
          held = self.old.word.held + 1;
        } }
        ensures comparisons { self.new.comparisons ≡ self.old.comparisons }
    {
        self.packed -= 1;
        self.held += 1;
    }

    /// A held place is one of the count from now on. The waiting receivers are taken off to be
    /// woken.
    pub fn fill(&mut self) -> Wakes<W, A>
        requires held { 0 < self.old.word.held }
        requires fits { self.old.word.count + 1 < 2 ^ 63 }
        ensures handed { result ≡ record { room = []; message = self.old.word.waiters.message } }
        ensures word { self.new.word ≡ record self.old.word {
          count = self.old.word.count + 1;
          held = self.old.word.held - 1;
          waiters = record self.old.word.waiters { message = [] };
        } }
        ensures comparisons { self.new.comparisons ≡ self.old.comparisons }
    {
        self.held -= 1;
        self.packed += 1;
        Wakes {
            room: Vec::new(self.alloc),
            message: self.message_waiters.take(self.alloc),
        }
    }

    /// A held place becomes free. The waiting senders are taken off to be woken, and if the bit is
    /// set by then and no other place is held, the waiting receivers too.
    pub fn free(&mut self) -> Wakes<W, A>
        requires held { 0 < self.old.word.held }
        ensures handed { result ≡ record {
          room = self.old.word.waiters.room;
          message = if (self.old.word.is_closed || (self.old.word.ends
              && (self.old.word.count == 0))) && (self.old.word.held == 1)
              then self.old.word.waiters.message else [];
        } }
        ensures word { self.new.word ≡ record self.old.word {
          is_closed = bit_at self.old.word self.old.word.count (self.old.word.held - 1);
          held = self.old.word.held - 1;
          waiters = record self.old.word.waiters {
            room = [];
            message = if (self.old.word.is_closed || (self.old.word.ends
                && (self.old.word.count == 0))) && (self.old.word.held == 1)
                then [] else self.old.word.waiters.message;
          };
        } }
        ensures tickets { HasOwnTickets self.new.word.waiters }
        ensures comparisons { self.new.comparisons ≡ self.old.comparisons }
    {
        self.held -= 1;
        self.settle();
        let (is_closed, _) = unpack(self.packed);
        let room = self.room_waiters.take(self.alloc);
        let message = if is_closed && self.held == 0 {
            self.message_waiters.take(self.alloc)
        } else {
            Vec::new(self.alloc)
        };
        Wakes { room, message }
    }

    /// Sets the bit, returns the bit before, and takes off all waiters to be woken.
    pub fn set_bit(&mut self) -> (bool, Wakes<W, A>)
        ensures bit { result.0 ≡ self.old.word.is_closed }
        ensures handed { result.1 ≡ record {
          room = self.old.word.waiters.room;
          message = self.old.word.waiters.message;
        } }
        ensures word { self.new.word ≡ record self.old.word {
          is_closed = true;
          waiters = record self.old.word.waiters { room = []; message = [] };
        } }
        ensures comparisons { self.new.comparisons ≡ self.old.comparisons }
    {
        let (was_closed, _) = unpack(self.packed);
        self.packed |= CLOSED_BIT;
        let room = self.room_waiters.take(self.alloc);
        let message = self.message_waiters.take(self.alloc);
        (was_closed, Wakes { room, message })
    }

    /// Adds to the count, and returns the bit and the count before. If the count rises, the waiting
    /// receivers are taken off to be woken.
    #[inline(always)]
    pub fn incr(&mut self, n: u64) -> ((bool, u64), Wakes<W, A>)
        requires { self.old.word.count + n < 2 ^ 63 }
        ensures bit { result.0.0 ≡ self.old.word.is_closed }
        ensures count { result.0.1 ≡ self.old.word.count }
        ensures handed { result.1 ≡ (if n == 0 then nobody
            else record { room = []; message = self.old.word.waiters.message }) }
        ensures word { self.new.word ≡ record self.old.word {
          count = self.old.word.count + n;
          waiters = record self.old.word.waiters {
            message = if n == 0 then self.old.word.waiters.message else [];
          };
        } }
        ensures tickets { HasOwnTickets self.new.word.waiters }
        ensures comparisons { self.new.comparisons ≡ self.old.comparisons }
    {
        let before = unpack(self.packed);
        self.packed += n;
        let room = Vec::new(self.alloc);
        let message = if n > 0 {
            self.message_waiters.take(self.alloc)
        } else {
            Vec::new(self.alloc)
        };
        (before, Wakes { room, message })
    }

    /// Subtracts one from the count, and returns the bit and the count before. The waiting senders
    /// are taken off to be woken, and the bit may be set.
    #[inline(always)]
    pub fn decr(&mut self) -> ((bool, u64), Wakes<W, A>)
        requires { 0 < self.old.word.count }
        ensures bit { result.0.0 ≡ self.old.word.is_closed }
        ensures count { result.0.1 ≡ self.old.word.count }
        ensures handed { result.1 ≡ record { room = self.old.word.waiters.room; message = [] } }
        ensures word { self.new.word ≡ record self.old.word {
          is_closed = bit_at self.old.word (self.old.word.count - 1) self.old.word.held;
          count = self.old.word.count - 1;
          waiters = record self.old.word.waiters { room = [] };
        } }
        ensures tickets { HasOwnTickets self.new.word.waiters }
        ensures comparisons { self.new.comparisons ≡ self.old.comparisons }
    {
        self.decr_many(1)
    }

    /// Subtracts so many from the count, and does else as `decr`. If the count stays, nobody is
    /// taken off.
    #[inline(always)]
    pub fn decr_many(&mut self, n: u64) -> ((bool, u64), Wakes<W, A>)
        requires { n ≤ self.old.word.count }
        ensures bit { result.0.0 ≡ self.old.word.is_closed }
        ensures count { result.0.1 ≡ self.old.word.count }
        ensures handed { result.1 ≡ (if n == 0 then nobody
            else record { room = self.old.word.waiters.room; message = [] }) }
        ensures word { self.new.word ≡ record self.old.word {
          is_closed = if n == 0 then self.old.word.is_closed
              else bit_at self.old.word (self.old.word.count - n) self.old.word.held;
          count = self.old.word.count - n;
          waiters = record self.old.word.waiters {
            room = if n == 0 then self.old.word.waiters.room else [];
          };
        } }
        ensures tickets { HasOwnTickets self.new.word.waiters }
        ensures comparisons { self.new.comparisons ≡ self.old.comparisons }
    {
        let before = unpack(self.packed);
        self.packed -= n;
        let room = if n > 0 {
            self.settle();
            self.room_waiters.take(self.alloc)
        } else {
            Vec::new(self.alloc)
        };
        let message = Vec::new(self.alloc);
        (before, Wakes { room, message })
    }

    /// Takes this ticket off the lists. An unknown ticket changes nothing.
    pub fn unlisten(&mut self, ticket: u64)
    where
        W: Drop,
        ensures word { self.new.word
            ≡ record self.old.word { waiters = unlist (Some ticket) self.old.word.waiters } }
        ensures tickets { HasOwnTickets self.new.word.waiters }
        ensures cost { self.new.comparisons
            ≤ self.old.comparisons + search_bound self.old.word.waiters }
    {
        self.room_waiters.remove(ticket, &mut self.comparisons);
        self.message_waiters.remove(ticket, &mut self.comparisons);
    }
}

impl<W: Clone, A: Allocator + Copy> AwaitableAtomicCounterAndBit<W, A> {
    /// Lists a waiter for a message: under its own ticket if that is in the list of those,
    /// otherwise under the next one. None if the clone of the waker or memory for its entry was
    /// refused, or if the numbers ran out. The waiter is then in no list.
    pub fn listen_incr(&mut self, ticket: Option<u64>, waker: &W) -> Option<u64>
        ensures enlists { Enlists W.is_clone Side.Message ticket waker.now result
            self.old.word.waiters self.new.word.waiters }
        ensures word { self.new.word ≡ record self.old.word { waiters = self.new.word.waiters } }
        ensures renewed { is_given_listed ticket self.old.word.waiters.message ≡ true
            → W.is_infallible waker.now → IsSome result }
        ensures fits { self.new.word.waiters.next_ticket < 2 ^ 64 }
        ensures cost { self.new.comparisons
            ≤ self.old.comparisons + search_bound self.old.word.waiters }
    {
        self.listen(Side::Message, ticket, waker)
    }

    /// Lists a waiter for room, as `listen_incr` does for a message.
    pub fn listen_decr(&mut self, ticket: Option<u64>, waker: &W) -> Option<u64>
        ensures enlists { Enlists W.is_clone Side.Room ticket waker.now result
            self.old.word.waiters self.new.word.waiters }
        ensures word { self.new.word ≡ record self.old.word { waiters = self.new.word.waiters } }
        ensures renewed { is_given_listed ticket self.old.word.waiters.room ≡ true
            → W.is_infallible waker.now → IsSome result }
        ensures fits { self.new.word.waiters.next_ticket < 2 ^ 64 }
        ensures cost { self.new.comparisons
            ≤ self.old.comparisons + search_bound self.old.word.waiters }
    {
        self.listen(Side::Room, ticket, waker)
    }

    // Lists a waiter on either side.
    pub(crate) fn listen(&mut self, side: Side, ticket: Option<u64>, waker: &W) -> Option<u64>
        ensures enlists { Enlists W.is_clone side ticket waker.now result self.old.word.waiters
            self.new.word.waiters }
        ensures word { self.new.word ≡ record self.old.word { waiters = self.new.word.waiters } }
        ensures renewed { is_given_listed ticket (on_side side self.old.word.waiters) ≡ true
            → W.is_infallible waker.now → IsSome result }
        ensures tickets { HasOwnTickets self.new.word.waiters }
        ensures fits { self.new.word.waiters.next_ticket < 2 ^ 64 }
        ensures cost { self.new.comparisons
            ≤ self.old.comparisons + search_bound self.old.word.waiters }
    {
        match side {
            Side::Room => self.room_waiters.listen_beside(
                &mut self.message_waiters,
                ticket,
                waker,
                &mut self.next_ticket,
                &mut self.comparisons,
            ),
            Side::Message => self.message_waiters.listen_beside(
                &mut self.room_waiters,
                ticket,
                waker,
                &mut self.next_ticket,
                &mut self.comparisons,
            ),
        }
    }
}

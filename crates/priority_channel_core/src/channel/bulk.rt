//! Sending many pairs in one step.
ghost use Rattle.std.specs.Prelude.{◌≡◌, ◌+◌, ◌*◌, ◌-◌, ◌<◌, ◌≤◌, ◌^◌, ◌↔◌, ◌⊎◌, List, length, Err, IfErr, IsTrue, true, false, Option, Some, is_some};
ghost use Rattle.std.specs.Iterator.Adapters.{peekable_can, peekable_peeked};
ghost use Rattle.priority_channel_core.specs.bag.Prelude.{digits};
ghost use Rattle.priority_channel_core.specs.Prelude.{HasList, MovesFront, SendsFront, StopsFor, sent_before};

use crate::awaitable_atomics::Wakes;
use crate::bag::Bag;
use crate::calls::{Answer, Call};
use crate::channel::{PriorityQueueChannel, prepare};
use crate::errors::TrySendError;
use std::alloc::Allocator;
use std::iter::Peekable;

/// Why a bulk send stopped, and how many pairs it had sent.
#[derive(Drop)]
pub enum Stop {
    /// The list ended.
    Ended(u64),
    /// There was no more room.
    Filled(u64),
    /// Memory or a number was refused for a pair that was there.
    Memory(u64),
}

impl Stop {
    fn sent(&self) -> u64
        ensures { result ≡ sent_before self.now }
    {
        match self {
            Stop::Ended(sent) | Stop::Filled(sent) | Stop::Memory(sent) => *sent,
        }
    }
}

/// Whether there is another item. If so, it has been peeked.
#[tactic(auto, using(crate::proofs::Lists::list_after_peek))]
pub(crate) fn has_next<I: Iterator>(msgs: &mut Peekable<I>) -> bool
where
    I::Item: Drop,
    requires { peekable_can I.can_next msgs.old }
    ensures callable { peekable_can I.can_next msgs.new }
    ensures peeked { (next : Option I.Item) × (peekable_peeked msgs.new ≡ Some next)
        × (result ≡ is_some next) }
    ensures same_list { (list : List I.Item) → HasList I.next_gives msgs.old list
        → HasList I.next_gives msgs.new list }
    ensures more { (list : List I.Item) → HasList I.next_gives msgs.new list
        → (IsTrue result ↔ (0 < length list)) }
{
    msgs.peek().is_some()
}

// Moves pairs into the bag, until `room` pairs were moved or something stops it. The memory for a
// pair is reserved before the pair is taken, so no pair is lost.
fn send_front<T: Drop, P: Ord + Drop, A: Allocator, I: Iterator<Item = (T, P)>>(
    bag: &mut Bag<T, P, A>,
    held: u64,
    room: u64,
    msgs: &mut Peekable<I>,
) -> Stop
    requires held { held < 2 ^ 63 }
    requires callable { peekable_can I.can_next msgs.old }
    ensures callable { peekable_can I.can_next msgs.new }
    ensures moved { MovesFront I.next_gives bag.old msgs.old (sent_before result) bag.new msgs.new }
    ensures accepted { bag.new.accepted ≡ bag.old.accepted + sent_before result }
    ensures numbered { bag.old.accepted + held < 2 ^ 64 → bag.new.accepted + held < 2 ^ 64 }
    ensures slots { bag.old.slots ≤ bag.new.slots }
    ensures least { bag.new.knows_least ≡ bag.old.knows_least }
    ensures limit { length bag.old.pending + held < 2 ^ 63
        → length bag.new.pending + held < 2 ^ 63 }
    ensures held_slots { length bag.old.pending + held ≤ bag.old.slots
        → length bag.new.pending + held ≤ bag.new.slots }
    ensures stops { StopsFor I.next_gives (λ n. bag.new.accepted + held + 1 < 2 ^ 64
        → bag.new.slots ≤ length bag.new.pending + held)
        room result msgs.new }
    ensures cost { bag.new.comparisons
        ≤ bag.old.comparisons + sent_before result * digits (length bag.new.pending) }
{
    for sent in 0..room {
        if !has_next(msgs) {
            return Stop::Ended(sent);
        }
        if !prepare(bag, held) {
            return Stop::Memory(sent);
        }
        let Some((msg, priority)) = msgs.next() else {
            unreachable!()
        };
        bag.push(msg, priority);
    }
    Stop::Filled(room)
}

impl<T: Drop, P: Ord + Drop, W: Clone, A: Allocator + Copy> PriorityQueueChannel<T, P, W, A> {
    ghost use Rattle.priority_channel_core.specs.Prelude.{room as room_of, IsGood, rest_of, AddsFront, OnFull, OnMemory, Performs, ComparesAtMost};

    // Sends a prefix of the list, of at least one pair if there is one, and wakes the waiting
    // receivers.
    fn send_while_room<I: Iterator<Item = (T, P)>>(
        &mut self,
        room: u64,
        msgs: &mut Peekable<I>,
    ) -> (Stop, Wakes<W, A>)
        requires opened { self.old.state.is_closed ≡ false }
        requires room { room ≡ room_of self.old.state }
        requires callable { peekable_can I.can_next msgs.old }
        ensures callable { peekable_can I.can_next msgs.new }
        ensures sent { SendsFront I.next_gives self.old.state msgs.old (sent_before result.0)
            result.1 self.new.state msgs.new }
        ensures stops { StopsFor I.next_gives
            (λ n. (self.old.state.is_reserved ≡ false)
            ⊎ (self.old.state.accepted + self.old.state.held + n ≡ 2 ^ 64 - 1))
            room result.0 msgs.new }
        ensures good { IsGood self.new.state }
        ensures cost { ComparesAtMost
            (sent_before result.0 * digits (length self.new.state.pending)) 0
            self.old self.new }
    {
        let stop = send_front(&mut self.bag, self.word.held(), room, msgs);
        let (_, wakes) = self.word.incr(stop.sent());
        (stop, wakes)
    }

    /// Sends the pairs of an iterator, up to its first `None`, as far as there is room, in one
    /// step.
    ///
    /// What was accepted stays. What was not comes back in order, and can be sent again. With
    /// `Closed`, and with `Full` if there was no room from the start, that is the whole list, and
    /// the iterator was not called. With a later `Full` it is the part for which there was no room.
    /// With `Memory` it is the rest from the pair for which memory was refused. An empty list is
    /// refused by a closed channel and by a full one, and takes no memory.
    ///
    /// For each pair it peeks, makes a slot, and only then takes the pair.
    pub fn try_sendv<I: Iterator<Item = (T, P)>>(
        &mut self,
        mut msgs: Peekable<I>,
    ) -> (Result<(), TrySendError<Peekable<I>>>, Wakes<W, A>)
        requires { peekable_can I.can_next msgs }
        ensures step { Performs (HasList I.next_gives) P.cmp W.is_clone self.old.state
            (Call.TrySendv msgs) (Answer.TrySendv result.0) result.1 self.new.state }
        ensures closed { self.old.state.is_closed ≡ true
            → (result.0 ≡ Err (TrySendError.Closed msgs)) × (self.new.state ≡ self.old.state) }
        ensures no_room { self.old.state.is_closed ≡ false → room_of self.old.state ≡ 0
            → (result.0 ≡ Err (TrySendError.Full msgs)) × (self.new.state ≡ self.old.state) }
        ensures callable { IfErr result.0 (λ error. peekable_can I.can_next (rest_of error)) }

        // This holds whether or not the iterator has one list.
        ensures full { OnFull result.0 ((self.new.state.is_closed ≡ false)
            × (room_of self.new.state ≡ 0)) }
        ensures memory { OnMemory result.0 ((self.old.state.is_reserved ≡ false)
            ⊎ (self.new.state.accepted + self.new.state.held ≡ 2 ^ 64 - 1)) }
        ensures front { (front : List (T × P))
            × AddsFront self.old.state front result.1 self.new.state
            × ComparesAtMost (length front * digits (length self.new.state.pending)) 0
            self.old self.new }
        ensures good { IsGood self.new.state }
    {
        let (is_closed, count) = self.word.load();
        if is_closed {
            return (Err(TrySendError::Closed(msgs)), Wakes::nobody(self.alloc));
        }
        let taken = count + self.word.held();
        if taken >= self.capacity {
            return (Err(TrySendError::Full(msgs)), Wakes::nobody(self.alloc));
        }
        let (stop, wakes) = self.send_while_room(self.capacity - taken, &mut msgs);
        match stop {
            Stop::Ended(_) => (Ok(()), wakes),
            Stop::Memory(_) => (Err(TrySendError::Memory(msgs)), wakes),
            Stop::Filled(_) => {
                if has_next(&mut msgs) {
                    return (Err(TrySendError::Full(msgs)), wakes);
                }
                (Ok(()), wakes)
            }
        }
    }
}

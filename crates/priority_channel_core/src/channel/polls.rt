//! The calls that wait: a try to send or to receive, and then, if the channel was full or empty, a
//! ticket in a waiting list.
ghost use Rattle.std.specs.Prelude.{◌≡◌, ◌≢◌, ◌⊎◌, ◌+◌, ◌-◌, ◌*◌, ◌^◌, ℕ, List, [], length, false, true, Option, Some, IfSome, IsSome, Result, Err};
ghost use Rattle.std.specs.Iterator.Adapters.{peekable_can};
ghost use Rattle.std.specs.declared.iter.Ahead.{Ahead};
ghost use Rattle.priority_channel_core.specs.bag.Prelude.{digits};
ghost use Rattle.priority_channel_core.specs.Prelude.{is_given_listed, on_side, unlist, search_bound, send_answer, recv_answer, Ends, IsBlocked, OnFull, OnMemoryFault, kept_by, HasList, PollsFront, nobody, IsGood, Step, ComparesAtMost, room, Performs};

use crate::awaitable_atomics::Wakes;
use crate::calls::{Answer, Call, CorePoll};
use crate::channel::PriorityQueueChannel;
use crate::errors::{RecvError, RecvFault, SendError, SendFault, TryRecvError, TrySendError};
use crate::side::Side;
use std::alloc::Allocator;
use std::iter::Peekable;

impl<T, P: Ord, W: Clone, A: Allocator + Copy> PriorityQueueChannel<T, P, W, A> {
    /// Takes this ticket off the waiting lists. A ticket that is not listed changes nothing. It
    /// takes no memory.
    pub fn give_up(&mut self, ticket: u64)
        ensures step { Step P.cmp W.is_clone self.old.state (Call.GiveUp ticket) Answer.GiveUp
            nobody self.new.state }
        ensures cost { ComparesAtMost 0 (search_bound self.old.state.waiters) self.old self.new }
    {
        self.word.unlisten(ticket);
    }

    fn give_up_given(&mut self, ticket: Option<u64>)
        ensures after { self.new.state
            ≡ record self.old.state { waiters = unlist ticket self.old.state.waiters } }
        ensures good { IsGood self.new.state }
        ensures cost { ComparesAtMost 0 (search_bound self.old.state.waiters) self.old self.new }
    {
        // Reads the field so that the prover learns its invariant, also if no ticket is given.
        let _ = &self.word;
        if let Some(ticket) = ticket {
            self.give_up(ticket);
        }
    }

    /// Lists a waiter that has to wait. This is the poll of a send of any pair into a full channel,
    /// or of a receive from an empty one. It returns the ticket under which a later poll finds the
    /// waiter; None if that poll would answer `Memory`.
    ///
    /// It is for a caller that has the waker of a waiter and not its call, such as one that
    /// promotes the next thread of a queue to its head.
    pub fn list(&mut self, side: Side, ticket: Option<u64>, waker: &W) -> Option<u64>
        requires { IsBlocked side self.old.state }
        ensures ends { Ends W.is_clone side ticket waker.now result self.old.state self.new.state }
        ensures sends { side ≡ Side.Room → (pair : T × P)
            (answer : CorePoll (Result (Unit {0}) (SendFault (T × P))) (T × P))
            → send_answer (Err (TrySendError.Full pair)) result ≡ Some answer
            → Step P.cmp W.is_clone self.old.state (Call.PollSend pair.0 pair.1 ticket waker.now)
            (Answer.PollSend answer) nobody self.new.state }
        ensures receives { side ≡ Side.Message
            → (answer : CorePoll (Result (T × P) RecvFault) (Unit {0}))
            → recv_answer (Err TryRecvError.Empty) result ≡ Some answer
            → Step P.cmp W.is_clone self.old.state (Call.PollRecv ticket waker.now)
            (Answer.PollRecv answer) nobody self.new.state }
        ensures renewed { is_given_listed ticket (on_side side self.old.state.waiters) ≡ true
            → W.is_infallible waker.now → IsSome result }
        ensures good { IsGood self.new.state }
        ensures cost { ComparesAtMost 0 (search_bound self.old.state.waiters) self.old self.new }
    {
        self.word.listen(side, ticket, waker)
    }

    /// Receives, or waits for a message under the returned ticket. The first poll gives no ticket.
    /// Each further poll gives the ticket of the poll before, which stays listed with a clone of
    /// the newest waker.
    ///
    /// ```
    /// let (received, wakes) = channel.poll_recv(ticket, &waker);
    /// let (_for_room, _for_message) = wakes.into_lists();
    /// match received {
    ///     CorePoll::Pending((), given) => ticket = Some(given),
    ///     CorePoll::Ready(Ok((job, priority))) => work(job, priority),
    ///     CorePoll::Ready(Err(fault)) => return Err(fault),
    /// }
    /// ```
    ///
    /// A ready answer leaves the given ticket in neither waiting list. The answer is `Memory` if
    /// the channel is open and empty, and the clone of the waker, memory for its entry or the
    /// ticket's number was refused.
    pub fn poll_recv(
        &mut self,
        ticket: Option<u64>,
        waker: &W,
    ) -> (CorePoll<Result<(T, P), RecvFault>, ()>, Wakes<W, A>)
        ensures step { Step P.cmp W.is_clone self.old.state (Call.PollRecv ticket waker.now)
            (Answer.PollRecv result.0) result.1 self.new.state }
        ensures renewed { is_given_listed ticket self.old.state.waiters.message ≡ true
            → W.is_infallible waker.now → result.0 ≢ CorePoll.Ready (Err RecvFault.Memory) }
        ensures cost { ComparesAtMost (2 * digits (length self.old.state.pending))
            (search_bound self.old.state.waiters) self.old self.new }
    {
        let (reply, wakes) = self.try_recv();
        let answer = match reply {
            Ok(pair) => Ok(pair),
            Err(TryRecvError::Closed) => Err(RecvFault::Closed(RecvError)),
            Err(TryRecvError::Empty) => {
                return match self.list(Side::Message, ticket, waker) {
                    Some(ticket) => (CorePoll::Pending((), ticket), wakes),
                    None => (CorePoll::Ready(Err(RecvFault::Memory)), wakes),
                };
            }
        };
        self.give_up_given(ticket);
        (CorePoll::Ready(answer), wakes)
    }

    // Ends the poll of a send whose try returned this reply.
    fn end_send<K>(
        &mut self,
        reply: Result<(), TrySendError<K>>,
        ticket: Option<u64>,
        waker: &W,
    ) -> CorePoll<Result<(), SendFault<K>>, K>
        requires full { OnFull reply (IsBlocked Side.Room self.old.state) }
        ensures ends { (listed : Option ℕ) × (send_answer reply listed ≡ Some result)
            × Ends W.is_clone Side.Room ticket waker.now listed self.old.state self.new.state }
        ensures renewed { OnFull reply (is_given_listed ticket self.old.state.waiters.room ≡ true
            → W.is_infallible waker.now → (rest : K)
            → result ≢ CorePoll.Ready (Err (SendFault.Memory rest))) }
        ensures good { IsGood self.new.state }
        ensures cost { ComparesAtMost 0 (search_bound self.old.state.waiters) self.old self.new }
    {
        let answer = match reply {
            Ok(()) => Ok(()),
            Err(TrySendError::Closed(rest)) => Err(SendFault::Closed(SendError(rest))),
            Err(TrySendError::Memory(rest)) => Err(SendFault::Memory(rest)),
            Err(TrySendError::Full(rest)) => {
                return match self.list(Side::Room, ticket, waker) {
                    Some(ticket) => CorePoll::Pending(rest, ticket),
                    None => CorePoll::Ready(Err(SendFault::Memory(rest))),
                };
            }
        };
        self.give_up_given(ticket);
        CorePoll::Ready(answer)
    }

    /// Sends a pair, or waits for room under the returned ticket and hands the pair back for the
    /// next poll. Tickets and wakers are treated as by `poll_recv`.
    pub fn poll_send(
        &mut self,
        msg: T,
        priority: P,
        ticket: Option<u64>,
        waker: &W,
    ) -> (CorePoll<Result<(), SendFault<(T, P)>>, (T, P)>, Wakes<W, A>)
        ensures step { Step P.cmp W.is_clone self.old.state
            (Call.PollSend msg priority ticket waker.now) (Answer.PollSend result.0) result.1
            self.new.state }
        ensures renewed { is_given_listed ticket self.old.state.waiters.room ≡ true
            → W.is_infallible waker.now → (pair : T × P)
            → result.0 ≢ CorePoll.Ready (Err (SendFault.Memory pair)) }
        ensures cost { ComparesAtMost (digits (length self.new.state.pending))
            (search_bound self.old.state.waiters) self.old self.new }
    {
        let (reply, wakes) = self.try_send(msg, priority);
        (self.end_send(reply, ticket, waker), wakes)
    }
}

impl<T: Drop, P: Ord + Drop, W: Clone, A: Allocator + Copy> PriorityQueueChannel<T, P, W, A> {
    /// Sends as many pairs as there is room for, and waits for room with the rest, which is handed
    /// back for the next poll. What was sent stays sent, also if the answer is `Memory`. Tickets
    /// and wakers are treated as by `poll_recv`.
    pub fn poll_sendv<I: Iterator<Item = (T, P)>>(
        &mut self,
        msgs: Peekable<I>,
        ticket: Option<u64>,
        waker: &W,
    ) -> (
        CorePoll<Result<(), SendFault<Peekable<I>>>, Peekable<I>>,
        Wakes<W, A>,
    )
        requires { peekable_can I.can_next msgs }
        ensures step { Performs (HasList I.next_gives) P.cmp W.is_clone self.old.state
            (Call.PollSendv msgs ticket waker.now) (Answer.PollSendv result.0) result.1
            self.new.state }
        ensures callable { IfSome (kept_by result.0) (peekable_can I.can_next) }
        ensures closed { self.old.state.is_closed ≡ true
            → result.0 ≡ CorePoll.Ready (Err (SendFault.Closed (record { 0 = msgs }))) }
        ensures renewed { is_given_listed ticket self.old.state.waiters.room ≡ true
            → W.is_infallible waker.now → (rest : Ahead I (T × P))
            → result.0 ≢ CorePoll.Ready (Err (SendFault.Memory rest)) }

        // This holds whether or not the iterator has one list.
        ensures front { (front : List (T × P))
            × PollsFront W.is_clone self.old.state ticket waker.now front result.1 self.new.state
            × ComparesAtMost (length front * digits (length self.new.state.pending))
            (search_bound self.old.state.waiters) self.old self.new }
        ensures memory { OnMemoryFault result.0 ((self.old.state.is_reserved ≡ false)
            ⊎ (self.new.state.accepted + self.new.state.held ≡ 2 ^ 64 - 1)
            ⊎ (room self.new.state ≡ 0)) }
        ensures good { IsGood self.new.state }
    {
        // Reads the field so that the prover learns its invariant.
        let _ = &self.word;
        let (reply, wakes) = self.try_sendv(msgs);
        (self.end_send(reply, ticket, waker), wakes)
    }
}

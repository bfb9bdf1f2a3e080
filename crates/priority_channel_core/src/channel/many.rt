//! Receiving many pairs under one hold of the lock that guards the channel.
ghost use Rattle.std.specs.Prelude.{◌≡◌, ◌↔◌, ◌+◌, ◌*◌, ◌<◌, ◌≤◌, List, ◌++◌, [], length, min, IfOk, IfErr, OnErr, IsOk, Err, vec_capacity};
ghost use Rattle.priority_channel_core.specs.bag.Prelude.{digits};
ghost use Rattle.priority_channel_core.specs.Prelude.{ReceivesInTurn, nobody, IsGood, Step, ComparesAtMost};

use crate::awaitable_atomics::Wakes;
use crate::calls::{Answer, Call};
use crate::channel::PriorityQueueChannel;
use crate::errors::TryRecvError;
use std::alloc::Allocator;

impl<T, P: Ord, W: Clone, A: Allocator + Copy> PriorityQueueChannel<T, P, W, A> {
    /// Receives up to `limit` pairs, the greatest first, like that many receives in a row, and
    /// returns how many came. The error is that of one receive, and is returned if nothing is
    /// pending, also with a `limit` of 0.
    ///
    /// It takes no memory: the caller reserves that of `batch`.
    pub fn try_recv_many<B: Allocator>(
        &mut self,
        batch: &mut Vec<(T, P), B>,
        limit: usize,
    ) -> (Result<usize, TryRecvError>, Wakes<W, A>)
        requires fits { length batch.old.items + limit ≤ vec_capacity batch.old }
        ensures received { IfOk result.0 (λ n. (pairs : List (T × P)) × (length pairs ≡ n)
            × (batch.new.items ≡ batch.old.items ++ pairs)
            × ReceivesInTurn P.cmp W.is_clone self.old.state pairs result.1 self.new.state) }
        ensures count { IfOk result.0 (λ n. n ≡ min limit (length self.old.state.pending)) }
        ensures refused { IfErr result.0 (λ error.
            Step P.cmp W.is_clone self.old.state
            Call.TryRecv (Answer.TryRecv (Err error)) result.1 self.new.state) }
        ensures unchanged { OnErr result.0 ((self.new.state ≡ self.old.state)
            × (batch.new.items ≡ batch.old.items)) }
        ensures pending { IsOk result.0 ↔ (0 < length self.old.state.pending) }
        ensures good { IsGood self.new.state }
        ensures kept { vec_capacity batch.new ≡ vec_capacity batch.old }
        ensures cost { ComparesAtMost (min limit (length self.old.state.pending)
            * (2 * digits (length self.old.state.pending))) 0 self.old self.new }
    {
        if limit == 0 && !self.is_empty() {
            return (Ok(0), Wakes::nobody(self.alloc));
        }
        let (first, wakes) = self.try_recv();
        match first {
            Err(error) => (Err(error), wakes),
            Ok(pair) => {
                batch.push_reserved(pair);
                let more = self.receive_more(batch, limit - 1);
                (Ok(more + 1), wakes)
            }
        }
    }

    // For a channel without waiting senders.
    fn receive_more<B: Allocator>(&mut self, batch: &mut Vec<(T, P), B>, limit: usize) -> usize
        requires nobody_waits { self.old.state.waiters.room ≡ [] }
        requires fits { length batch.old.items + limit ≤ vec_capacity batch.old }
        ensures received { (pairs : List (T × P)) × (length pairs ≡ result)
            × (batch.new.items ≡ batch.old.items ++ pairs)
            × ReceivesInTurn P.cmp W.is_clone self.old.state pairs nobody self.new.state }
        ensures count { result ≡ min limit (length self.old.state.pending) }
        ensures good { IsGood self.new.state }
        ensures kept { vec_capacity batch.new ≡ vec_capacity batch.old }
        ensures cost { ComparesAtMost (result * (2 * digits (length self.old.state.pending))) 0
            self.old self.new }
    {
        // Reads the field so that the prover learns its invariant.
        let _ = &self.word;
        for received in 0..limit {
            let (next, wakes) = self.try_recv();
            let (_room, _message) = wakes.into_lists();
            match next {
                Ok(pair) => batch.push_reserved(pair),
                Err(_) => return received,
            }
        }
        limit
    }
}

//! Places that are held: got before there is a pair (`try_reserve`), or kept when their pair was
//! received (`try_lease`).
//!
//! A held place has all that a pair needs: it counts against the capacity, and a slot and a number
//! are kept for it. So `put` is never refused.
ghost use Rattle.std.specs.Prelude.{◌≡◌, ◌↔◌, ℕ, ◌+◌, ◌*◌, ◌<◌, ◌^◌, true, false, List, [], length, All, IsOk, IsTrue, IfOk, IfErr, IfSome, IfNone, OnErr, Ok, Err};
ghost use Rattle.priority_channel_core.specs.bag.Prelude.{digits, PassesGreatest, TakesGreatest, TakesOne, Tells};
ghost use Rattle.priority_channel_core.specs.Prelude.{nobody, Step, ComparesAtMost, HasRoom, HasMemory, HasNumber, IsFull};

use crate::awaitable_atomics::Wakes;
use crate::calls::{Answer, Call};
use crate::channel::{PriorityQueueChannel, prepare};
use crate::errors::{TryRecvManyError, TrySendError};
use std::alloc::Allocator;

impl<T, P: Ord, W: Clone, A: Allocator + Copy> PriorityQueueChannel<T, P, W, A> {
    /// Holds a place for a pair that is still to come. Refused as a send: `Closed` is checked
    /// before `Full`, and `Full` before `Memory`.
    ///
    /// The place is given back by `put` or by `free`.
    pub fn try_reserve(&mut self) -> Result<(), TrySendError<()>>
        ensures step { Step P.cmp W.is_clone self.old.state Call.TryReserve
            (Answer.TryReserve result) nobody self.new.state }
        ensures full { IsFull self.old.state → result ≡ Err (TrySendError.Full tt) }
        ensures reserved { HasRoom self.old.state → HasMemory self.old.state → IsOk result }
        ensures unchanged { OnErr result (self.new.state ≡ self.old.state) }
        ensures cost { ComparesAtMost 0 0 self.old self.new }
    {
        let (is_closed, count) = self.word.load();
        if is_closed {
            return Err(TrySendError::Closed(()));
        }
        let held = self.word.held();
        if count + held >= self.capacity {
            return Err(TrySendError::Full(()));
        }
        if !prepare(&mut self.bag, held) {
            return Err(TrySendError::Memory(()));
        }
        self.word.hold();
        Ok(())
    }

    /// Receives a pair as `try_recv`, and holds its place. No waiting sender is woken, since no
    /// room comes free. The error is `Memory` if the last number of a pair was used, so that none
    /// is left for the pair's return. It takes no memory.
    pub fn try_lease(&mut self) -> Result<(T, P), TryRecvManyError>
        ensures step { Step P.cmp W.is_clone self.old.state Call.TryLease
            (Answer.TryLease result) nobody self.new.state }
        ensures pending { 0 < length self.old.state.pending → HasNumber self.old.state
            → IsOk result }
        ensures unchanged { OnErr result (self.new.state ≡ self.old.state) }
        ensures cost { ComparesAtMost (2 * digits (length self.old.state.pending)) 0 self.old
            self.new }
    {
        let (is_closed, count) = self.word.load();
        let held = self.word.held();
        if count > 0 && !self.bag.can_push_beside(held) {
            return Err(TryRecvManyError::Memory);
        }
        match self.bag.pop() {
            Some(pair) => {
                self.word.lend();
                Ok(pair)
            }
            None if is_closed && held == 0 => Err(TryRecvManyError::Closed),
            None => Err(TryRecvManyError::Empty),
        }
    }

    /// Leases the greatest pending pair as `try_lease`, if the test returns true for it. Otherwise
    /// the answer is `Ok(None)`, and nothing changes. It takes no memory.
    pub fn try_lease_if<F: Fn(&T, &P) -> bool>(
        &mut self,
        test: &F,
    ) -> Result<Option<(T, P)>, TryRecvManyError>
        requires { F.IsAlwaysCallable test.now }
        ensures leased { IfOk result (λ leased. IfSome leased (λ pair. Step P.cmp W.is_clone
            self.old.state Call.TryLease (Answer.TryLease (Ok pair)) nobody self.new.state)) }
        ensures meets { IfOk result (λ leased. IfSome leased (λ pair.
            Tells F.Fn test.now pair true)) }
        ensures kept { IfOk result (λ leased. IfNone leased ((self.new.state ≡ self.old.state)
            × (greatest : T × P) × (rest : List (T × P))
            × TakesGreatest P.cmp self.old.state.pending greatest rest
            × Tells F.Fn test.now greatest false)) }
        ensures refused { IfErr result (λ error. Step P.cmp W.is_clone self.old.state
            Call.TryLease (Answer.TryLease (Err error)) nobody self.new.state) }
        ensures cost { ComparesAtMost (2 * digits (length self.old.state.pending)) 0 self.old
            self.new }
    {
        if !self.greatest_passes(test) {
            return Ok(None);
        }
        match self.try_lease() {
            Ok(pair) => Ok(Some(pair)),
            Err(error) => Err(error),
        }
    }

    /// Leases the greatest pending pair for which the test returns true, and among equals the one
    /// accepted first. If something is pending, but nothing for which it does, the answer is
    /// `Ok(None)`, and nothing changes. The errors are those of `try_lease`. The test is called
    /// once on each pair, in no specified order. It takes no memory.
    pub fn try_lease_where<F: Fn(&T, &P) -> bool>(
        &mut self,
        test: &F,
    ) -> Result<Option<(T, P)>, TryRecvManyError>
        requires { F.IsAlwaysCallable test.now }
        ensures step { (place : ℕ) × Step P.cmp W.is_clone self.old.state (Call.LeaseWhere place)
            (Answer.LeaseWhere result) nobody self.new.state }
        ensures leased { IfOk result (λ leased. IfSome leased (λ pair.
            (one : TakesOne self.old.state.pending pair self.new.state.pending)
            × PassesGreatest P.cmp (λ pair. Tells F.Fn test.now pair true)
            (λ pair. Tells F.Fn test.now pair false) one)) }
        ensures meets { IfOk result (λ leased. IfSome leased (λ pair.
            Tells F.Fn test.now pair true)) }
        ensures none { IfOk result (λ leased. IfNone leased
            (All (λ pair. Tells F.Fn test.now pair false) self.old.state.pending)) }
        ensures pending { 0 < length self.old.state.pending → HasNumber self.old.state
            → IsOk result }
        ensures cost { ComparesAtMost (length self.old.state.pending
            + 2 * digits (length self.old.state.pending)) 0 self.old self.new }
    {
        if self.is_empty() {
            return match self.try_lease() {
                Ok(pair) => Ok(Some(pair)),
                Err(error) => Err(error),
            };
        }
        if !self.bag.can_push_beside(self.word.held()) {
            return Err(TryRecvManyError::Memory);
        }
        match self.bag.take_greatest_where(test) {
            Some(pair) => {
                self.word.lend();
                Ok(Some(pair))
            }
            None => Ok(None),
        }
    }

    /// The pair becomes pending in a held place, behind all that were accepted before, also in a
    /// closed channel. If no place is held, the pair comes back. It takes no memory.
    pub fn put(&mut self, msg: T, priority: P) -> (Result<(), (T, P)>, Wakes<W, A>)
        ensures step { Step P.cmp W.is_clone self.old.state (Call.Put msg priority)
            (Answer.Put result.0) result.1 self.new.state }
        ensures held { 0 < self.old.state.held → result.0 ≡ Ok tt }
        ensures cost { ComparesAtMost (digits (length self.new.state.pending)) 0 self.old self.new }
    {
        if self.word.held() == 0 {
            return (Err((msg, priority)), Wakes::nobody(self.alloc));
        }
        self.bag.push(msg, priority);
        (Ok(()), self.word.fill())
    }

    /// A held place becomes free. It returns false, and changes nothing, exactly if no place is
    /// held. It takes no memory.
    pub fn free(&mut self) -> (bool, Wakes<W, A>)
        ensures step { Step P.cmp W.is_clone self.old.state Call.Free (Answer.Free result.0)
            result.1 self.new.state }
        ensures held { 0 < self.old.state.held → result.0 ≡ true }
        ensures cost { ComparesAtMost 0 0 self.old self.new }
    {
        if self.word.held() == 0 {
            return (false, Wakes::nobody(self.alloc));
        }
        (true, self.word.free())
    }

    /// From now on the channel closes once no pair is pending and no place is held. It may close at
    /// once. It takes no memory.
    pub fn close_when_done(&mut self) -> Wakes<W, A>
        ensures step { Step P.cmp W.is_clone self.old.state Call.CloseWhenDone
            Answer.CloseWhenDone result self.new.state }
        ensures cost { ComparesAtMost 0 0 self.old self.new }
    {
        // In between the state would not be good.
        let is_done = self.is_done();
        self.word.end_at_nothing();
        if !is_done {
            return Wakes::nobody(self.alloc);
        }
        let (_, wakes) = self.word.set_bit();
        wakes
    }

    /// Whether no pair is pending and no place is held.
    pub fn is_done(&self) -> bool
        ensures { IsTrue result
            ↔ ((self.now.state.pending ≡ []) × (self.now.state.held ≡ 0)) }
    {
        self.is_empty() && self.word.held() == 0
    }

    /// The number of places that are held.
    pub fn held(&self) -> u64
        ensures answer { result ≡ self.now.state.held }
        ensures step { Step P.cmp W.is_clone self.now.state Call.Held (Answer.Held result) nobody
            self.now.state }
    {
        self.word.held()
    }
}

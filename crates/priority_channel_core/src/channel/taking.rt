//! Counting, receiving and taking out the pairs that a test chooses.
ghost use Rattle.std.specs.Prelude.{◌≡◌, ℕ, List, ◌+◌, ◌*◌, ◌++◌, ◌<◌, ◌≤◌, IsPermutation, Some, true, false, length, All, IfNone, IfSome, IfOk, IfErr, Ok, Err, vec_capacity};
ghost use Rattle.std.specs.List.{FoldsTo};
ghost use Rattle.priority_channel_core.specs.bag.Prelude.{digits, PassesGreatest, TakesGreatest, TakesOne, Counts, Folds, Tells};
ghost use Rattle.priority_channel_core.specs.Prelude.{TakesInTurn, IsGood, Step, nobody, ComparesAtMost};

use crate::awaitable_atomics::Wakes;
use crate::calls::{Answer, Call};
use crate::channel::PriorityQueueChannel;
use crate::errors::TryRecvError;
use std::alloc::Allocator;

impl<T, P: Ord, W: Clone, A: Allocator + Copy> PriorityQueueChannel<T, P, W, A> {
    /// Takes out a pending pair for which the test returns true, also from a closed channel. None
    /// if there is none. If there are several, it is not specified which one is taken. The test is
    /// called on pairs in no specified order, and on none after it has returned true. It takes no
    /// memory.
    pub fn take_where<F: Fn(&T, &P) -> bool>(&mut self, test: &F) -> (Option<(T, P)>, Wakes<W, A>)
        requires { F.IsAlwaysCallable test.now }
        ensures step { (place : ℕ) × Step P.cmp W.is_clone self.old.state (Call.TakeWhere place)
            (Answer.TakeWhere result.0) result.1 self.new.state }
        ensures meets { IfSome result.0 (λ pair. Tells F.Fn test.now pair true) }
        ensures none { IfNone result.0
            (All (λ pair. Tells F.Fn test.now pair false) self.old.state.pending) }
        ensures unchanged { IfNone result.0 (self.new.state ≡ self.old.state) }
        ensures cost { ComparesAtMost (2 * digits (length self.old.state.pending)) 0 self.old
            self.new }
    {
        match self.bag.take_where(test) {
            Some(pair) => {
                let (_, wakes) = self.word.decr();
                (Some(pair), wakes)
            }
            None => (None, Wakes::nobody(self.alloc)),
        }
    }

    /// The number of pending pairs for which the test returns true. It is called once on each pair,
    /// in no specified order. No priorities are compared.
    pub fn count_where<F: Fn(&T, &P) -> bool>(&self, test: &F) -> u64
        requires { F.IsAlwaysCallable test.now }
        ensures { Counts (λ pair. Tells F.Fn test.now pair true)
            (λ pair. Tells F.Fn test.now pair false) self.now.state.pending result }
    {
        self.bag.count_where(test) as u64
    }

    /// Receives the greatest pending pair, if the test returns true for it. Otherwise the answer is
    /// `Ok(None)`, and nothing changes. The errors are those of `try_recv`, without a call of the
    /// test. It takes no memory.
    pub fn try_recv_if<F: Fn(&T, &P) -> bool>(
        &mut self,
        test: &F,
    ) -> (Result<Option<(T, P)>, TryRecvError>, Wakes<W, A>)
        requires { F.IsAlwaysCallable test.now }
        ensures received { IfOk result.0 (λ taken. IfSome taken (λ pair. Step P.cmp W.is_clone
            self.old.state Call.TryRecv (Answer.TryRecv (Ok pair)) result.1 self.new.state)) }
        ensures meets { IfOk result.0 (λ taken. IfSome taken (λ pair.
            Tells F.Fn test.now pair true)) }
        ensures kept { IfOk result.0 (λ taken. IfNone taken ((self.new.state ≡ self.old.state)
            × (result.1 ≡ nobody) × (greatest : T × P) × (rest : List (T × P))
            × TakesGreatest P.cmp self.old.state.pending greatest rest
            × Tells F.Fn test.now greatest false)) }
        ensures refused { IfErr result.0 (λ error. Step P.cmp W.is_clone self.old.state
            Call.TryRecv (Answer.TryRecv (Err error)) result.1 self.new.state) }
        ensures cost { ComparesAtMost (2 * digits (length self.old.state.pending)) 0 self.old
            self.new }
    {
        if !self.greatest_passes(test) {
            return (Ok(None), Wakes::nobody(self.alloc));
        }
        let (received, wakes) = self.try_recv();
        match received {
            Ok(pair) => (Ok(Some(pair)), wakes),
            Err(error) => (Err(error), wakes),
        }
    }

    /// Whether the test returns true for the greatest pending pair, if there is one.
    pub(crate) fn greatest_passes<F: Fn(&T, &P) -> bool>(&self, test: &F) -> bool
        requires { F.IsAlwaysCallable test.now }
        ensures passes { result ≡ true → (greatest : T × P) (rest : List (T × P))
            → TakesGreatest P.cmp self.now.state.pending greatest rest
            → Tells F.Fn test.now greatest true }
        ensures fails { result ≡ false → (greatest : T × P) × (rest : List (T × P))
            × TakesGreatest P.cmp self.now.state.pending greatest rest
            × Tells F.Fn test.now greatest false }
    {
        match self.peek() {
            Some((msg, priority)) => test(msg, priority),
            None => true,
        }
    }

    /// Receives the greatest pending pair for which the test returns true, and among equals the one
    /// accepted first. If something is pending, but nothing for which it does, the answer is
    /// `Ok(None)`, and nothing changes. The errors are those of `try_recv`. The test is called once
    /// on each pair, in no specified order. It takes no memory.
    pub fn try_recv_where<F: Fn(&T, &P) -> bool>(
        &mut self,
        test: &F,
    ) -> (Result<Option<(T, P)>, TryRecvError>, Wakes<W, A>)
        requires { F.IsAlwaysCallable test.now }
        ensures received { IfOk result.0 (λ taken. IfSome taken (λ pair.
            (one : TakesOne self.old.state.pending pair self.new.state.pending)
            × Step P.cmp W.is_clone self.old.state (Call.TakeWhere (length one.before))
            (Answer.TakeWhere (Some pair)) result.1 self.new.state
            × PassesGreatest P.cmp (λ pair. Tells F.Fn test.now pair true)
            (λ pair. Tells F.Fn test.now pair false) one)) }
        ensures kept { IfOk result.0 (λ taken. IfNone taken ((self.new.state ≡ self.old.state)
            × (result.1 ≡ nobody) × (0 < length self.old.state.pending)
            × All (λ pair. Tells F.Fn test.now pair false) self.old.state.pending)) }
        ensures refused { IfErr result.0 (λ error. Step P.cmp W.is_clone self.old.state
            Call.TryRecv (Answer.TryRecv (Err error)) result.1 self.new.state) }
        ensures cost { ComparesAtMost (length self.old.state.pending
            + 2 * digits (length self.old.state.pending)) 0 self.old self.new }
    {
        if self.is_empty() {
            let (received, wakes) = self.try_recv();
            return (received.map(Some), wakes);
        }
        match self.bag.take_greatest_where(test) {
            Some(pair) => {
                let (_, wakes) = self.word.decr();
                (Ok(Some(pair)), wakes)
            }
            None => (Ok(None), Wakes::nobody(self.alloc)),
        }
    }

    /// Calls `step` on each pending pair in turn, in no specified order, with what the call before
    /// it returned, and the first time with `init`. Returns what the last call returned, or `init`
    /// if nothing is pending. No priorities are compared.
    pub fn fold_pending<X, F: Fn(X, &T, &P) -> X>(&self, init: X, step: &F) -> X
        requires { F.IsAlwaysCallable step.now }
        ensures { (pairs : List (T × P)) × IsPermutation self.now.state.pending pairs
            × FoldsTo (Folds F.Fn step.now) init pairs result }
    {
        self.bag.fold(init, step)
    }

    /// Keeps the pending pairs for which the test returns true, and takes out all others, also from
    /// a closed channel, like that many takings in a row. They go to the end of `out`, in no
    /// specified order. The test is called once on each pair, in no specified order.
    ///
    /// It takes no memory: the caller reserves that of `out`.
    pub fn retain<F: Fn(&T, &P) -> bool, B: Allocator>(
        &mut self,
        test: &F,
        out: &mut Vec<(T, P), B>,
    ) -> Wakes<W, A>
        requires callable { F.IsAlwaysCallable test.now }
        requires fits { length out.old.items + length self.old.state.pending
            ≤ vec_capacity out.old }
        ensures taken { (pairs : List (T × P)) × (out.new.items ≡ out.old.items ++ pairs)
            × TakesInTurn P.cmp W.is_clone self.old.state pairs result self.new.state
            × All (λ pair. Tells F.Fn test.now pair false) pairs }
        ensures kept { All (λ pair. Tells F.Fn test.now pair true) self.new.state.pending }
        ensures good { IsGood self.new.state }
        ensures out_slots { vec_capacity out.new ≡ vec_capacity out.old }
        ensures cost { ComparesAtMost (length self.new.state.pending
            * digits (length self.new.state.pending)) 0 self.old self.new }
    {
        let before = self.bag.len();
        self.bag.retain(test, out);
        let (_, wakes) = self.word.decr_many(before - self.bag.len());
        wakes
    }
}

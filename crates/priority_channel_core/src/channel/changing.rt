//! Changing the priority of a pending pair that a test chooses.
ghost use Rattle.std.specs.Prelude.{◌≡◌, ℕ, ◌+◌, ◌*◌, ◌%◌, ◌^◌, true, false, length, All, IfOk, OnOk, OnErr};
ghost use Rattle.priority_channel_core.specs.bag.Prelude.{digits, Changes, PassesFirst, Tells};
ghost use Rattle.priority_channel_core.specs.Prelude.{nobody, Step, ComparesAtMost};

use crate::calls::{Answer, Call};
use crate::channel::PriorityQueueChannel;
use std::alloc::Allocator;

impl<T, P: Ord, W: Clone, A: Allocator + Copy> PriorityQueueChannel<T, P, W, A> {
    /// Gives another priority to the first pending pair, in the order of acceptance, for which the
    /// test returns true, also in a closed channel. It returns the priority that the pair had. The
    /// pair keeps its place in that order. If there is none, the given priority comes back. The
    /// test is called at most once on each pair, in no specified order. It takes no memory, and
    /// wakes nobody.
    pub fn change_priority<F: Fn(&T, &P) -> bool>(&mut self, test: &F, priority: P) -> Result<P, P>
        requires { F.IsAlwaysCallable test.now }
        ensures step { (place : ℕ) × Step P.cmp W.is_clone self.old.state
            (Call.ChangePriority place priority) (Answer.ChangePriority result) nobody
            self.new.state }
        ensures first { IfOk result (λ was.
            (change : Changes self.old.state.pending was priority self.new.state.pending)
            × PassesFirst (λ pair. Tells F.Fn test.now pair true)
            (λ pair. Tells F.Fn test.now pair false) change) }
        ensures none { OnErr result
            (All (λ pair. Tells F.Fn test.now pair false) self.old.state.pending) }
        ensures unchanged { OnErr result (self.new.state ≡ self.old.state) }
        ensures counted { OnOk result (self.new.changes ≡ (self.old.changes + 1) % 2 ^ 64) }
        ensures cost { ComparesAtMost (2 * digits (length self.old.state.pending)) 0 self.old
            self.new }
    {
        let changed = self.bag.change_priority(test, priority);
        // Reads the field so that the prover learns its invariant.
        let _ = &self.word;
        changed
    }
}

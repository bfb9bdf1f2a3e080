//! What follows from the definitions alone.
//!
//! Cost: none, since the body of a law is empty.
ghost use Rattle.std.specs.Prelude.{◌≡◌, ◌<◌, ℕ, Bool, Option, List, [], ◌∷◌, ◌++◌};
ghost use Rattle.priority_channel_calls.specs.Told.{Told};
ghost use Rattle.priority_channel_core.specs.Prelude.{opening, State, Handed, Operation, Run};
ghost use Rattle.priority_channel_witnessed.specs.declared.chronicle.Entry.{Entry};
ghost use Rattle.priority_channel_witnessed.specs.History.{entry, HasSteps, IsHistory, IsLegal, IsNext};
ghost use Rattle.priority_channel_witnessed.specs.Passes.{Carried, IsTold};
ghost use Rattle.priority_channel_witnessed.specs.Waits.{Ending, ComesTo, IsCall};

use crate::awaited::Awaited;
use priority_channel_recorded::chronicle::Recording;
use std::alloc::Allocator;

/// The steps of a legal history are a run of the machine. Those of its last entry were made in a
/// state to which the entries before it lead. A call's contract names such a history, so its reply
/// came of such steps.
pub fn last_law<T, P: Ord, W: Clone>()
    ensures run { (capacity : ℕ) (is_reserved : Bool) (history : List (Entry T P W))
        (state : State T P W)
        → IsHistory P.cmp W.is_clone capacity is_reserved history state
        → (run : List (Operation T P W)) × HasSteps history run
        × Run P.cmp W.is_clone (opening capacity is_reserved) run state }
    ensures last { (capacity : ℕ) (is_reserved : Bool) (before : List (Entry T P W)) (last : Entry T P W)
        → IsLegal P.cmp W.is_clone capacity is_reserved (before ++ last ∷ [])
        → IsNext P.cmp W.is_clone capacity is_reserved before last }
    ensures told { (capacity : ℕ) (is_reserved : Bool) (old new : Carried T P W)
        (last : Entry T P W)
        → IsTold P.cmp W.is_clone capacity is_reserved old last new
        → (between : List (Entry T P W))
        × IsNext P.cmp W.is_clone capacity is_reserved (old.seen ++ between) last }
{}

/// A wait is one or more calls under the pass's number. The history seen at its end is legal,
/// begins with all that had been seen before, and ends with the last of these calls, which ended
/// it.
pub fn wait_law<C: Awaited<T, P, W, A>, T, P: Ord, W: Clone, J: Recording, A: Allocator + Copy>()
    ensures { (old new : Carried T P W) (call : C) (ticket : Option ℕ)
        (ending : Ending C.Done C.Left)
        → ComesTo P.cmp W.is_clone J.capacity J.is_reserved C.call_of
        (IsCall C.told C.says C.polled) old call ticket ending new
        → (new.number ≡ old.number) × (old.count < new.count)
        × ((own : C) × (given : Option ℕ) × (made : Told T P W) × (handed : Handed W)
        × IsTold P.cmp W.is_clone J.capacity J.is_reserved old (entry old.number made handed) new
        × IsCall C.told C.says C.polled own given made ending) }
{}

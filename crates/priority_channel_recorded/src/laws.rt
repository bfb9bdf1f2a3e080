//! What follows from the definitions alone.
//!
//! Cost: none, since the body of a law is empty.
ghost use Rattle.std.specs.Prelude.{◌≡◌, ℕ, List};
ghost use Rattle.priority_channel_recorded.specs.declared.book.Entry.{Entry};
ghost use Rattle.priority_channel_recorded.specs.History.{Machine, IsHistory};

/// A history fixes the state that it ends in. So a caller that knows a channel's history and its
/// capacity knows its state.
pub fn history_law<T, P: Ord>()
    ensures { (capacity : ℕ) (history : List (Entry T P)) (state other : Machine T P)
        → IsHistory P.cmp capacity history state → IsHistory P.cmp capacity history other
        → state ≡ other }
{}

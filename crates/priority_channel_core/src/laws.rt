//! Consequences of the definitions alone.
//!
//! Cost: none, since the body of a law is empty.
ghost use Rattle.std.specs.Prelude.{◌≡◌, ◌≢◌, ◌⊎◌, ◌+◌, ◌-◌, ◌<◌, ◌≤◌, ◌^◌, ℕ, Bool, All, true, false, List, [], ◌∷◌, ◌++◌, length, map, replicate, None, Ok, Err, IsPermutation};
ghost use Rattle.std.specs.List.{AllZip};
ghost use Rattle.std.specs.Iterator.{AlwaysYields};
ghost use Rattle.std.specs.Iterator.Adapters.{peekable_peeked, peekable_source};
ghost use Rattle.std.specs.declared.iter.Ahead.{Ahead};
ghost use Rattle.priority_channel_core.specs.Prelude.{Answer, Call, TryRecvError, State, IsGood, opening, Step, Run, Operation, is_done, HasList};
ghost use Rattle.priority_channel_core.specs.bag.Prelude.{digits, TakesGreatest, TakesLeast};
ghost use Rattle.priority_channel_core.specs.laws.Accepted.{accepted_in, put_in, received_in, changed_in, Conserves, NeverRise};
ghost use Rattle.priority_channel_core.specs.laws.Alike.{IsAlike, SameOutcome, SameState};
ghost use Rattle.priority_channel_core.specs.laws.Done.{Closes};
ghost use Rattle.priority_channel_core.specs.laws.Places.{got_in, given_in};

/// No pair is lost, made up or given twice: each pair that was pending or accepted is received,
/// displaced by one of greater priority, taken out by a test, or still pending. A change of
/// priority puts another pair with the same message in the place of a pair. A closed channel stays
/// closed, and accepts only what is put in held places. No held place is lost or made up.
pub fn conservation_law<T, P: Ord, W: Clone>()
    ensures conserved { (old new : State T P W) (run : List (Operation T P W))
        → Run P.cmp W.is_clone old run new → Conserves old.pending run new.pending }
    ensures closed { (old new : State T P W) (run : List (Operation T P W))
        → Run P.cmp W.is_clone old run new
        → old.is_closed ≡ true → (new.is_closed ≡ true) × (accepted_in run ≡ put_in run) }
    ensures places { (old new : State T P W) (run : List (Operation T P W))
        → Run P.cmp W.is_clone old run new → new.held + given_in run ≡ old.held + got_in run }
{}

/// Pairs come out in the order of their priorities. That two runs over the same calls give the same
/// ones is `alike_law`.
pub fn drain_law<T, P: Ord, W: Clone>()
    // Where nothing is accepted and no priority changes, the priorities of the received pairs never
    // rise.
    ensures ordered { (old new : State T P W) (before between after : List (Operation T P W))
        → Run P.cmp W.is_clone old (before ++ between ++ after) new → accepted_in between ≡ []
        → changed_in between ≡ [] → NeverRise P.cmp (received_in between) }
    // A closed channel of which no place is held gives each pending pair, and then nothing more.
    ensures drained { (old new : State T P W) (run : List (Operation T P W))
        → Run P.cmp W.is_clone old run new → old.is_closed ≡ true → old.held ≡ 0
        → map (λ made. made.call) run ≡ replicate (length old.pending + 1) Call.TryRecv
        → (pairs : List (T × P)) × IsPermutation old.pending pairs × NeverRise P.cmp pairs
        × (map (λ made. made.answer) run ≡ map (λ pair. Answer.TryRecv (Ok pair)) pairs
        ++ Answer.TryRecv (Err TryRecvError.Closed) ∷ []) }
{}

/// A channel that is to close when all is done does so in the very step after which nothing is
/// pending and no place is held.
pub fn done_law<T, P: Ord, W: Clone>()
    // Once all is done it is closed, and nobody waits.
    ensures ended { (old new : State T P W) (run : List (Operation T P W))
        → IsGood old → Run P.cmp W.is_clone old run new → old.ends_when_done ≡ true
        → is_done new ≡ true
        → (new.is_closed ≡ true) × (new.waiters.room ≡ []) × (new.waiters.message ≡ []) }
    // As long as something is pending or held it is open, unless a call closes it.
    ensures not_before { (old new : State T P W) (made : Operation T P W)
        → Step P.cmp W.is_clone old made.call made.answer made.handed new
        → old.is_closed ≡ false → new.is_closed ≡ true
        → Closes old made.call ⊎ ((new.ends_when_done ≡ true) × (is_done new ≡ true)) }
    // It is to close so only if that was asked for.
    ensures asked { (old new : State T P W) (made : Operation T P W)
        → Step P.cmp W.is_clone old made.call made.answer made.handed new
        → new.ends_when_done ≡ true
        → (old.ends_when_done ≡ true) ⊎ (made.call ≡ Call.CloseWhenDone) }
    // A channel that never holds a place, and is never to close so, is a plain one for ever.
    ensures plain { (capacity : ℕ) (is_reserved : Bool) (new : State T P W)
        (run : List (Operation T P W)) → Run P.cmp W.is_clone (opening capacity is_reserved) run new
        → All (λ made. made.call ≢ Call.CloseWhenDone) run → got_in run ≡ 0
        → (new.ends_when_done ≡ false) × (new.held ≡ 0) }
{}

/// Two runs over the same calls have the same outcomes, if each call accepts as many pairs in both
/// runs, and answers Memory in both or in neither.
pub fn alike_law<T, P: Ord, W: Clone>()
    ensures { (old new other : State T P W) (run another : List (Operation T P W))
        → Run P.cmp W.is_clone old run new → Run P.cmp W.is_clone old another other
        → AllZip IsAlike run another → AllZip (SameOutcome W.is_clone) run another
        × SameState W.is_clone new other }
{}

/// A list of pairs has at most one greatest pair (the first among equals), and one rest without it.
/// So the pending pairs decide which pair a receive gives.
pub fn one_greatest_law<T, P: Ord>()
    ensures { (pending : List (T × P)) (pair other : T × P) (rest others : List (T × P))
        → TakesGreatest P.cmp pending pair rest → TakesGreatest P.cmp pending other others
        → (pair ≡ other) × (rest ≡ others) }
{}

/// A list of pairs has at most one least pair (the last among equals), and one rest without it. So
/// the pending pairs decide which pair makes room for a pair of greater priority.
pub fn one_least_law<T, P: Ord>()
    ensures { (pending : List (T × P)) (pair other : T × P) (rest others : List (T × P))
        → TakesLeast P.cmp pending pair rest → TakesLeast P.cmp pending other others
        → (pair ≡ other) × (rest ≡ others) }
{}

/// The number of binary digits of a length, in which the bounds on comparisons are given: one more
/// than its logarithm, rounded down.
pub fn digits_law()
    ensures above { (n : ℕ) → n < 2 ^ digits n }
    ensures least { (n : ℕ) → 0 < n → 2 ^ (digits n - 1) ≤ n }
    ensures samples { (digits 0 ≡ 0) × (digits 1 ≡ 1) × (digits 2 ≡ 2) × (digits 3 ≡ 2)
        × (digits 4 ≡ 3) × (digits 1000 ≡ 10) × (digits 1024 ≡ 11) }
{}

/// An iterator that has not been peeked has the list that it always yields. So for the iterator of
/// a vector, a range or a slice, or for a map of one, a caller knows what a bulk send does with it.
pub fn list_law<I: Iterator>()
    ensures { (msgs : Ahead I I.Item) (list : List I.Item) → peekable_peeked msgs ≡ None
        → AlwaysYields I.next_gives (λ x. x) (peekable_source msgs) list
        → HasList I.next_gives msgs list }
{}

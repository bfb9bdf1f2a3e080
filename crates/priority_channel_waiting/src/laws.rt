//! What follows for all futures together, for all threads, and for all that wait for a close.
//!
//! Cost: none, since the body of a law is empty.
ghost use Rattle.std.specs.Prelude.{◌≡◌, ℕ, ◌≤◌, true, List, length, slice_get, Some};
ghost use Rattle.priority_channel_core.specs.Prelude.{CountedState, Handed};
ghost use Rattle.priority_channel_waiting.specs.Selecting.{Selection, AllHaveSeen};
ghost use Rattle.priority_channel_waiting.specs.laws.World.{World, Event, Happens, IsOpening, Leads};
ghost use Rattle.priority_channel_waiting.specs.laws.WaitingLaw.{CanGoOn, NobodyIsForgotten, GivenOnce, CalledBy};
ghost use Rattle.priority_channel_waiting.specs.laws.Threads.{Thread, ThreadWorld, IsUnused};
ghost use Rattle.priority_channel_waiting.specs.laws.Threads.Phase.{Sleeps};
ghost use Rattle.priority_channel_waiting.specs.laws.ThreadEvents.{ThreadEvent, LeadsTo};
ghost use Rattle.priority_channel_waiting.specs.laws.QueueLaw.{NobodySleepsOn};

/// Whatever happens, in any order, no waiting future can go on, and no ticket number is given
/// twice.
pub fn waiting_law<T, P: Ord, W: Clone>()
    ensures forgotten { (opening world : World T P W) (events : List (Event T P W))
        → IsOpening opening
        → Leads P.cmp W.is_clone opening events world → NobodyIsForgotten W.is_clone world }
    ensures once { (opening earlier later : World T P W) (before after : List (Event T P W))
        → IsOpening opening
        → Leads P.cmp W.is_clone opening before earlier → Leads P.cmp W.is_clone earlier after later
        → GivenOnce earlier later }
    ensures rising { (opening earlier later : World T P W) (before after : List (Event T P W))
        → IsOpening opening
        → Leads P.cmp W.is_clone opening before earlier → Leads P.cmp W.is_clone earlier after later
        → earlier.state.waiters.next_ticket ≤ later.state.waiters.next_ticket }
    ensures called { (opening old new : World T P W) (events : List (Event T P W))
        (event : Event T P W) (handed : Handed W)
        → IsOpening opening → Leads P.cmp W.is_clone opening events old
        → Happens P.cmp W.is_clone old event handed new → CalledBy W.is_clone old handed new }
{}

/// Whatever the threads of one side do, in any order, and whatever calls of the core come between:
/// if threads stand in their queue although a call can go on, then the head of the queue is awake,
/// or has been woken since it last slept, or a thread spins, and will list or wake the head when it
/// stops.
pub fn queue_law<T, P: Ord>()
    ensures seen_to { (start world : ThreadWorld T P) (events : List (ThreadEvent T P))
        → IsUnused start → LeadsTo P.cmp start events world → NobodySleepsOn world }
    // This does occur: the first thread may come to sleep as the head, and the channel may close.
    ensures occurs { (start : ThreadWorld T P) × (world : ThreadWorld T P)
        × (events : List (ThreadEvent T P))
        × IsUnused start × LeadsTo P.cmp start events world
        × (thread : Thread) × (slice_get world.threads 0 ≡ Some thread)
        × (thread.phase ≡ Sleeps 0) × CanGoOn world.state world.side }
{}

/// Nobody waits for the close of a channel that is closed. What a channel's lock guards always
/// meets the premise: an invariant of its type.
pub fn closing_law()
    ensures { (core : CountedState (Unit {0}) (Unit {0}) ℕ) (selection : Selection)
        → AllHaveSeen selection core → core.state.is_closed ≡ true
        → length selection.close.waiters ≡ 0 }
{}

//! What the loop handles.

/// The priority of an event.
#[derive(Clone, Copy, Debug, Drop, PartialEq, Eq, PartialOrd, Ord)]
pub enum Rank {
    Idle,
    Urgent,
}

#[derive(Debug, Drop)]
pub enum Event {
    /// A line of input, to be answered.
    Line(String),
    /// Work: to count the primes among the numbers from the first up to and without the second.
    Work(u64, u64),
}

/// What comes from either of two channels.
#[derive(Debug, Drop)]
pub enum Signal {
    Event(Event),
    Tick,
}

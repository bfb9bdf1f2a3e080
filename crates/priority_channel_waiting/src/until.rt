//! How long a call waits, and the evidence that it has waited long enough.
ghost use Rattle.std.specs.Prelude.{◌≤◌, ◌≡◌, ⊤, IfErr};
ghost use Rattle.std.specs.Time.{instant_nanos};

use crate::reading::{Reading, Unreadable};
use std::convert::Infallible;
use std::time::{Clock, Duration, Instant};

/// The end of a wait.
pub trait Until {
    /// Evidence that the time is over.
    type Over: Drop;

    // Holds for an end and for evidence that it has come.
    ghost has_come: { Self → Self.Over → Type 0 };

    /// The time that is left. None means that there is no limit.
    fn left(&self) -> Result<Option<Duration>, Self::Over>
        ensures { IfErr result (has_come self.now) };
}

/// A wait without an end. Nothing is evidence that its time is over.
#[derive(Drop)]
pub struct Endless;

impl Until for Endless {
    type Over = Infallible;

    ghost has_come = { λ _ _. ⊤ };

    fn left(&self) -> Result<Option<Duration>, Infallible> {
        Ok(None)
    }
}

/// A reading of the clock that is not before the deadline.
#[derive(Drop)]
struct Late {
    deadline: Instant,
    now: Reading,
    ghost is_late: { instant_nanos deadline ≤ instant_nanos now.at },
}

/// Evidence that a deadline has passed, or that the clock could not be read. Only the deadline's
/// own reading of the clock makes it.
#[derive(Drop)]
pub struct Overdue {
    reading: Result<Late, Unreadable>,
}

#[derive(Clone, Copy)]
enum End {
    At(Instant),
    // The deadline is past the end of the clock's range.
    Never,
    // A timeout that began when the clock could not be read.
    Unknown(Unreadable),
}

/// A wait until an instant of the clock. If the clock cannot be read, the wait ends.
#[derive(Drop)]
pub struct Deadline<'a, C: Clock> {
    clock: &'a C,
    end: End,
}

impl<'a, C: Clock> Deadline<'a, C> {
    pub fn at(clock: &'a C, deadline: Instant) -> Self {
        Deadline {
            clock,
            end: End::At(deadline),
        }
    }

    /// A wait until `timeout` from now.
    pub fn after(clock: &'a C, timeout: Duration) -> Self {
        let end = match Reading::of(clock) {
            Ok(now) => match now.at().checked_add(timeout) {
                Some(deadline) => End::At(deadline),
                None => End::Never,
            },
            Err(unreadable) => End::Unknown(unreadable),
        };
        Deadline { clock, end }
    }
}

impl<'a, C: Clock> Until for Deadline<'a, C> {
    type Over = Overdue;

    ghost use Rattle.priority_channel_waiting.specs.Ends.{HasCome};

    ghost has_come = { λ deadline over. HasCome deadline.end over.reading };

    fn left(&self) -> Result<Option<Duration>, Overdue> {
        let reading = match self.end {
            End::Never => return Ok(None),
            End::Unknown(unreadable) => Err(unreadable),
            End::At(deadline) => match Reading::of(self.clock) {
                Ok(now) if now.at() < deadline => {
                    return Ok(Some(deadline.duration_since(now.at())));
                }
                Ok(now) => Ok(Late { deadline, now }),
                Err(unreadable) => Err(unreadable),
            },
        };
        Err(Overdue { reading })
    }
}

//! A reading of a clock.
ghost use Rattle.std.specs.Prelude.{◌≡◌};

use std::time::{Clock, Instant};

/// An instant that a clock has told. Only a reading makes one.
#[derive(Clone, Copy)]
pub struct Reading {
    at: Instant,
}

/// The clock could not be read. Only a reading that fails makes one.
#[derive(Clone, Copy)]
pub struct Unreadable {
    // Nobody else can write this type's value down.
    _sealed: (),
}

impl Reading {
    pub fn of(clock: &impl Clock) -> Result<Self, Unreadable> {
        match Instant::now(clock) {
            Ok(at) => Ok(Reading { at }),
            Err(_) => Err(Unreadable { _sealed: () }),
        }
    }

    pub fn at(&self) -> Instant
        ensures { result ≡ self.now.at }
    {
        self.at
    }
}

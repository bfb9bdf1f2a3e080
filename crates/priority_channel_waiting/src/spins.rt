//! Whether a thread that has to wait spins, that is, tries again for a while, before it sleeps.
//!
//! What the thread waits for often comes sooner than a sleep and a wake would take. If it does not,
//! as on one processor, the time of the spin is lost. So threads spin only as long as enough of the
//! spins succeed.
use std::sync::atomic::{AtomicI32, Ordering};

// How many spins may fail at most before threads stop spinning.
const MOST: i32 = 16;

// How many more spins may fail after each one that succeeds.
const GAIN: i32 = 2;

// How many waits then skip spinning, before one wait tries whether that has changed.
const PAUSE: i32 = 128;

/// How often spinning succeeded recently. If threads change it at the same time, a change may be
/// lost, which does no harm.
#[derive(Drop)]
pub struct Spins {
    // If positive: how many more failed spins are allowed. If not: minus the number of waits that
    // skip spinning.
    credit: AtomicI32,
}

impl Spins {
    pub fn new() -> Self {
        Spins {
            credit: AtomicI32::new(MOST),
        }
    }

    /// Whether the next wait spins. A wait that spins reports by `note` whether it succeeded.
    pub fn are_due(&self) -> bool {
        let credit = self.credit.load(Ordering::Relaxed);
        if credit > 0 {
            return true;
        }
        self.credit
            .store(credit.saturating_add(1), Ordering::Relaxed);
        false
    }

    /// Records whether a wait that spun found something.
    pub fn note(&self, found: bool) {
        let credit = self.credit.load(Ordering::Relaxed);
        let next = if found {
            credit.saturating_add(GAIN).min(MOST)
        } else if credit > 1 {
            credit - 1
        } else {
            -PAUSE
        };
        // A store of the same would still take the cache line from other processors.
        if next != credit {
            self.credit.store(next, Ordering::Relaxed);
        }
    }
}

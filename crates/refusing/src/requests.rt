//! Which of the requests to come are refused, and which is held.
ghost use Rattle.std.specs.Prelude.{◌≡◌, ◌+◌, ◌==◌, ℕ};

use std::sync::atomic::{AtomicBool, AtomicU64, Ordering};
use std::thread;

/// Which of the requests to come are refused.
#[derive(Clone, Copy)]
pub enum Refusals {
    Never,
    /// None any more, and the one that was named never came.
    Unmet,
    Always,
    /// The one that comes after so many others, and no other.
    After(u64),
}

impl Refusals {
    ghost use Rattle.refusing.specs.Refusals.{refuses_after};

    /// The nth alone, counted from 1.
    pub fn nth(n: u64) -> Self
        ensures { (k : ℕ) → refuses_after result k ≡ (k + 1 == n) }
    {
        n.checked_sub(1).map_or(Refusals::Never, Refusals::After)
    }

    // Takes the next request, and tells whether it is refused.
    fn refuses_next(&mut self) -> bool
        ensures next { result ≡ refuses_after self.old 0 }
        ensures later { (k : ℕ) → refuses_after self.new k ≡ refuses_after self.old (k + 1) }
    {
        match *self {
            Refusals::Never | Refusals::Unmet => false,
            Refusals::After(0) => {
                *self = Refusals::Never;
                true
            }
            Refusals::After(others) => {
                *self = Refusals::After(others - 1);
                false
            }
            Refusals::Always => true,
        }
    }

    fn is_to_come(self) -> bool {
        matches!(self, Refusals::After(_))
    }

    // As threads share it.
    fn word(self) -> u64 {
        match self {
            Refusals::Never => 0,
            Refusals::Unmet => 1,
            Refusals::Always => 2,
            // No test makes so many requests that this has no room.
            Refusals::After(others) => others.saturating_add(3),
        }
    }

    fn from_word(word: u64) -> Self {
        match word {
            0 => Refusals::Never,
            1 => Refusals::Unmet,
            2 => Refusals::Always,
            more => Refusals::After(more.saturating_sub(3)),
        }
    }
}

/// The requests to an allocator that threads may share.
#[derive(Drop)]
pub struct Requests {
    refusals: AtomicU64,
    count: AtomicU64,
    // Which of the requests to come is held, counted from 1. It is 0 where none is.
    to_hold: AtomicU64,
    is_holding: AtomicBool,
}

impl Requests {
    pub fn new() -> Self {
        Requests {
            refusals: AtomicU64::new(0),
            count: AtomicU64::new(0),
            to_hold: AtomicU64::new(0),
            is_holding: AtomicBool::new(false),
        }
    }

    pub fn count(&self) -> u64 {
        self.count.load(Ordering::SeqCst)
    }

    pub fn set(&self, refusals: Refusals) {
        self.refusals.store(refusals.word(), Ordering::SeqCst);
    }

    fn replace(&self, refusals: Refusals) -> Refusals {
        Refusals::from_word(self.refusals.swap(refusals.word(), Ordering::SeqCst))
    }

    /// From now on refuses none. Tells whether the one that was named was still to come.
    pub fn end(&self) -> bool {
        let is_to_come = self.replace(Refusals::Never).is_to_come();
        if is_to_come {
            self.set(Refusals::Unmet);
        }
        is_to_come
    }

    /// The same, also where that was told by `end`.
    pub fn end_round(&self) -> bool {
        matches!(
            self.replace(Refusals::Never),
            Refusals::Unmet | Refusals::After(_)
        )
    }

    /// Takes the next request, and tells whether it is refused.
    pub fn refuses_next(&self) -> bool {
        self.count.fetch_add(1, Ordering::SeqCst);
        let before = self
            .refusals
            .fetch_update(Ordering::SeqCst, Ordering::SeqCst, |word| {
                let mut refusals = Refusals::from_word(word);
                refusals.refuses_next();
                Some(refusals.word())
            });
        Refusals::from_word(before.unwrap_or(0)).refuses_next()
    }

    pub fn hold_nth(&self, n: u64) {
        self.to_hold.store(n, Ordering::SeqCst);
    }

    pub fn is_holding(&self) -> bool {
        self.is_holding.load(Ordering::SeqCst)
    }

    pub fn let_go(&self) {
        self.is_holding.store(false, Ordering::SeqCst);
    }

    /// Halts the thread until it may go on, where its request is the one to be held.
    pub fn hold(&self) {
        let before = self
            .to_hold
            .fetch_update(Ordering::SeqCst, Ordering::SeqCst, |n| n.checked_sub(1));
        if before != Ok(1) {
            return;
        }
        self.is_holding.store(true, Ordering::SeqCst);
        for _ in 0..u64::MAX {
            if !self.is_holding() {
                return;
            }
            thread::yield_now();
        }
    }
}

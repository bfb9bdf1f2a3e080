//! A lock that a thread tries for a while before it sleeps until the lock is free.
//!
//! A call holds the channel's lock for about a tenth of a microsecond, but a sleep and a wake take
//! several. `Mutex::lock` sleeps after 100 pauses, and a thread that may have slept makes the next
//! release call the system too. So between busy threads, most of a message's time went into calls
//! that put nobody to sleep and woke nobody.
use priority_channel_waiting::spins::Spins;
use std::hint::spin_loop;
use std::sync::{Mutex, MutexGuard, Wait};

// How many times a thread tries again.
const TRIES: u32 = 10;

// The pauses of the processor before the first of these tries. Each further try waits twice as long
// as the one before, up to 2^DOUBLINGS times as long. If all tried again at once, lock and heap
// would move between the processors at each call. While they pause, one thread makes several calls
// in a row.
const PAUSES: u32 = 32;

const DOUBLINGS: u32 = 4;

/// A `Mutex`, and whether trying for it was recently of use. On one processor it is of none.
#[derive(Drop)]
pub struct Lock<T> {
    mutex: Mutex<T>,
    tries: Spins,
}

impl<T> Lock<T> {
    pub fn new(value: T) -> Self {
        Lock {
            mutex: Mutex::new(value),
            tries: Spins::new(),
        }
    }

    #[inline(always)]
    pub fn lock<R: Wait>(&self, rt: &R) -> MutexGuard<'_, T> {
        match self.mutex.try_lock() {
            Some(guard) => guard,
            None => self.lock_contended(rt),
        }
    }

    #[inline(never)]
    fn lock_contended<R: Wait>(&self, rt: &R) -> MutexGuard<'_, T> {
        if self.tries.are_due() {
            let tried = self.try_for_a_while();
            self.tries.note(tried.is_some());
            if let Some(guard) = tried {
                return guard;
            }
        }
        self.mutex.lock(rt)
    }

    fn try_for_a_while(&self) -> Option<MutexGuard<'_, T>> {
        for round in 0..TRIES {
            pause(round);
            if let Some(guard) = self.mutex.try_lock() {
                return Some(guard);
            }
        }
        None
    }
}

fn pause(round: u32) {
    for _ in 0..PAUSES << round.min(DOUBLINGS) {
        spin_loop();
    }
}

//! A clock that a test controls: what time it is depends on how often it was read.
use super::Threaded;
use std::alloc::{Alloc, Global};
use std::fmt::Display;
use std::process::Abort;
use std::random::RandomSource;
use std::sync::Wait;
use std::sync::atomic::{AtomicBool, AtomicU64, Ordering};
use std::time::{Clock, Duration};
use std::{io, thread};

/// The limit of the calls that wait by such a clock.
pub fn second() -> Duration {
    Duration::from_secs(1)
}

/// The first reading is 0, and the others are that a millisecond is left of the second, until it
/// passes. So a wait that has a second parks for a millisecond at a time.
#[derive(Clone, Copy)]
pub enum Plan {
    /// This reading halts its thread until another one lets it go on.
    HaltsAt(u64),
    /// It cannot be read from this reading on.
    FailsFrom(u64),
}

#[derive(Drop)]
pub struct Times {
    plan: Plan,
    readings: AtomicU64,
    is_over: AtomicBool,
    is_reached: AtomicBool,
    is_open: AtomicBool,
}

impl Times {
    pub fn new(plan: Plan) -> Self {
        Times {
            plan,
            readings: AtomicU64::new(0),
            is_over: AtomicBool::new(false),
            is_reached: AtomicBool::new(false),
            is_open: AtomicBool::new(false),
        }
    }

    /// Whether a thread halts.
    pub fn is_reached(&self) -> bool {
        self.is_reached.load(Ordering::SeqCst)
    }

    /// Lets that thread go on, just before the second is over or as it is.
    pub fn let_go(&self, is_over: bool) {
        self.is_over.store(is_over, Ordering::SeqCst);
        self.is_open.store(true, Ordering::SeqCst);
    }

    fn halt(&self) {
        self.is_reached.store(true, Ordering::SeqCst);
        for _ in 0..u64::MAX {
            if self.is_open.load(Ordering::SeqCst) {
                return;
            }
            thread::yield_now();
        }
    }

    fn read(&self) -> io::Result<Duration> {
        let reading = self.readings.fetch_add(1, Ordering::SeqCst);
        match self.plan {
            Plan::FailsFrom(first) if reading >= first => {
                return Err(io::Error::from(io::ErrorKind::Unsupported));
            }
            Plan::HaltsAt(at) if reading == at => self.halt(),
            _ => {}
        }
        let is_over = self.is_over.load(Ordering::SeqCst) as u64;
        let millis = if reading == 0 { 0 } else { 999 };
        Ok(Duration::from_millis(is_over.saturating_add(millis)))
    }
}

/// A runtime with such a clock.
#[derive(Clone, Copy)]
pub struct Paced<'a, R> {
    rt: R,
    times: &'a Times,
}

impl<'a, R: Threaded> Paced<'a, R> {
    pub fn new(rt: &R, times: &'a Times) -> Self {
        Paced { rt: *rt, times }
    }
}

impl<R: Wait> Wait for Paced<'_, R> {}

impl<R: Abort> Abort for Paced<'_, R> {
    fn abort(&self) -> ! {
        self.rt.abort()
    }

    fn exit(&self, code: i32) -> ! {
        self.rt.exit(code)
    }

    fn panic<D: Display + Drop>(&self, message: D) -> ! {
        self.rt.panic(message)
    }
}

impl<R> Clock for Paced<'_, R> {
    fn monotonic(&self) -> io::Result<Duration> {
        self.times.read()
    }

    fn since_1970(&self) -> io::Result<Duration> {
        self.times.read()
    }
}

impl<R: Alloc<A = Global>> Alloc for Paced<'_, R> {
    type A = Global;

    fn alloc(&self) -> Global {
        self.rt.alloc()
    }
}

impl<R: RandomSource> RandomSource for Paced<'_, R> {
    fn fill_bytes(&self, buf: &mut [u8]) -> io::Result<()> {
        self.rt.fill_bytes(buf)
    }
}

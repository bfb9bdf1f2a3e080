//! A thread beside a wait, which ends the test where the wait does not go on.
use std::sync::atomic::{AtomicBool, AtomicU64, Ordering};
use std::sync::{Mutex, Wait, WaitMethods};
use std::thread::{self, Parker, Threads};
use std::time::{Clock, Duration};

// For how many milliseconds the watching thread parks between two looks. The end of the steps wakes
// it at once.
const PAUSE: u64 = 250;

// For how many pauses a step may last: 25 seconds, and somewhat longer on a busy machine. What
// takes a moment on an idle one takes seconds beside many other processes, and longer where the
// step itself keeps the processors busy, as by many threads.
const PATIENCE: u64 = 100;

// The same for a step that ends in milliseconds, also on a busy machine: 10 seconds. A lost wake
// costs so much of each test that it hangs.
const BRIEF: u64 = 40;

/// Watches the steps of a test, as the cases of a table, and names one that lasts too long. Only a
/// test may end the process, so it says how it fails.
///
/// ```
/// let watch = Watch::new("the first case");
/// let fail = |case: &&str| panic!(rt; "it hangs: {case}");
/// watch.over(&rt, fail, || {
///     for (case, call) in cases {
///         watch.begin(&rt, case);
///         call();
///     }
/// });
/// ```
#[derive(Drop)]
pub struct Watch<N: Drop + Send> {
    step: Mutex<N>,
    begun: AtomicU64,
    patience: u64,
}

impl<N: Drop + Send> Watch<N> {
    /// A watch that stands at the first step. A step may last for 25 seconds.
    pub fn new(step: N) -> Self {
        Watch::with(step, PATIENCE)
    }

    /// The same for steps that end in milliseconds. A step may last for 10 seconds.
    pub fn brief(step: N) -> Self {
        Watch::with(step, BRIEF)
    }

    // The patience is that many pauses.
    pub(crate) fn with(step: N, patience: u64) -> Self {
        Watch {
            step: Mutex::new(step),
            begun: AtomicU64::new(0),
            patience,
        }
    }

    /// Another step begins, which has as much time as each.
    pub fn begin(&self, rt: &impl Wait, step: N) {
        *self.step.lock(rt) = step;
        self.begun.fetch_add(1, Ordering::SeqCst);
    }

    /// Makes the steps. Where one lasts too long, fails on another thread, which is told the step.
    pub fn over<R, E, T, F>(&self, rt: &R, fail: E, steps: F) -> T
    where
        R: Threads + Wait + Sync,
        E: Fn(&N) + Send,
        F: FnOnce() -> T,
        requires { E.IsAlwaysCallable fail × F.pre steps }
    {
        let end = End::new();
        let end = &end;
        let ((), came) = thread::join(
            rt,
            move ||
                requires { E.IsAlwaysCallable fail }
            { self.look(rt, end, &fail) },
            move ||
                requires { F.pre steps }
            {
                let came = steps();
                end.tell();
                came
            },
        );
        came
    }

    fn look<E: Fn(&N)>(&self, rt: &impl Wait, end: &End, fail: &E)
        requires { E.IsAlwaysCallable fail.now }
    {
        let mut seen = self.begun.load(Ordering::SeqCst);
        let mut left = self.patience;
        for _ in rt.forever() {
            if end.is_told() {
                return;
            }
            let begun = self.begun.load(Ordering::SeqCst);
            if begun != seen {
                seen = begun;
                left = self.patience;
            }
            if left == 0 {
                return fail(&self.step.lock(rt));
            }
            left -= 1;
            end.park(rt, Duration::from_millis(PAUSE));
        }
    }
}

/// Gives another thread the time to begin to wait.
pub fn let_others_wait<R: Clock>(rt: &R) {
    thread::sleep(rt, Duration::from_millis(15));
}

/// Waits until another thread has made it so. A watch has to stand beside it.
pub fn wait_until<R: Clock, F: Fn() -> bool>(rt: &R, is_so: F)
    requires { F.IsAlwaysCallable is_so }
{
    for _ in 0..u64::MAX {
        if is_so() {
            return;
        }
        thread::sleep(rt, Duration::from_millis(1));
    }
}

// The end of the steps, for which the watching thread parks.
#[derive(Drop)]
struct End {
    is_told: AtomicBool,
    parker: Parker,
}

impl End {
    fn new() -> Self {
        End {
            is_told: AtomicBool::new(false),
            parker: Parker::new(),
        }
    }

    fn tell(&self) {
        self.is_told.store(true, Ordering::SeqCst);
        self.parker.unpark();
    }

    fn is_told(&self) -> bool {
        self.is_told.load(Ordering::SeqCst)
    }

    fn park(&self, rt: &impl Wait, limit: Duration) {
        self.parker.park_timeout(rt, limit);
    }
}

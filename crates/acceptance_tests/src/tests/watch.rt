//! A thread beside a wait, which ends the test if the wait does not end; and a meeting of threads.
use super::ThreadHost;
use refusing::watch::Watch;
use std::process::Abort;
use std::sync::atomic::{AtomicUsize, Ordering};
use std::thread;

/// Waits, and fails if that lasts too long.
pub fn within<R: ThreadHost, T, F: FnOnce() -> T>(rt: &R, what: &str, wait: F) -> T
    requires { F.pre wait }
{
    Watch::new(what).over(rt, |what| fail(rt, *what), wait)
}

fn fail(rt: &impl Abort, what: &str) {
    panic!(rt; "waited too long for {what}");
}

/// Waits until so many threads have arrived. It does not sleep, so that they go on at the same
/// moment.
pub fn arrive(arrived: &AtomicUsize, count: usize) {
    arrived.fetch_add(1, Ordering::SeqCst);
    for _ in 0..u64::MAX {
        if arrived.load(Ordering::SeqCst) >= count {
            return;
        }
        thread::yield_now();
    }
}

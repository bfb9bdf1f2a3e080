//! All calls by their names, on one thread and beside other threads.
use futures::test::MockTask;
use named_calls::Runtime;
use refusing::Refusing;
use std::alloc::Global;
use std::fmt::Debug;
use std::process::Abort;
use std::thread::Threads;

mod dice;
mod handles;
mod model;
mod tables;
mod threads;
mod watch;

/// What a test asks of its runtime.
pub trait Host: Runtime + Abort {}

impl<R: Runtime + Abort> Host for R {}

/// The same of a test with threads.
pub trait Threaded: Host + Threads + Copy + Send + Sync + 'static {}

impl<R: Host + Threads + Copy + Send + Sync + 'static> Threaded for R {}

/// What is asked to refuse requests or to hold them, and the allocator of a channel, a `&` to it.
type Memory<'m, A> = (&'m Refusing<Global>, A);

/// `assert_eq!`, proved once: each one in place takes seconds of the check. It tells the round of a
/// table, or what was looked at.
fn expect_equal_at<N: Debug + Drop, X: PartialEq + Debug + Drop>(
    rt: &impl Abort,
    round: N,
    got: X,
    wanted: X,
) {
    assert_eq!(rt; got, wanted, "at {round:?}");
}

/// `assert!`, proved once.
fn expect_true(rt: &impl Abort, holds: bool, what: &str) {
    assert!(rt; holds, "{what}");
}

fn new_task<R: Host>(rt: &R) -> MockTask {
    MockTask::new(rt).expect(rt, "a task")
}

/// So many values.
fn make_all<T: Drop, F: Fn() -> T>(rt: &impl Host, count: u64, make: F) -> Vec<T>
    requires { F.IsAlwaysCallable make }
{
    let mut made = Vec::new(rt.alloc());
    for _ in 0..count {
        made.push(make()).expect(rt, "memory for a list");
    }
    made
}

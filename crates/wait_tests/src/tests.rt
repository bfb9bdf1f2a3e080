//! What a thread that waits is told, and when.
use futures::test::MockTask;
use named_calls::Runtime;
use refusing::Refusing;
use std::alloc::Global;
use std::fmt::Debug;
use std::process::Abort;
use std::thread::Threads;

mod clocks;
mod conditions;
mod either;
mod gone;
mod halts;
mod leased;
mod limits;
mod places;
mod queue;
mod refusals;
mod waits;
mod watch;

/// What a test asks of its runtime.
pub trait Host: Runtime + Abort {}

impl<R: Runtime + Abort> Host for R {}

/// The same of a test with threads.
pub trait Threaded: Host + Threads + Copy + Send + Sync + 'static {}

impl<R: Host + Threads + Copy + Send + Sync + 'static> Threaded for R {}

/// What is asked to refuse requests or to hold them, and the allocator of a channel, a `&` to it.
type Memory<'m, A> = (&'m Refusing<Global>, A);

/// `assert_eq!`, proved once: each one in place takes seconds of the check. It tells the round of a
/// table, or what was looked at.
fn expect_equal_at<N: Debug + Drop, X: PartialEq + Debug + Drop>(
    rt: &impl Abort,
    round: N,
    got: X,
    wanted: X,
) {
    assert_eq!(rt; got, wanted, "at {round:?}");
}

/// `assert!`, proved once.
fn expect_true(rt: &impl Abort, holds: bool, what: &str) {
    assert!(rt; holds, "{what}");
}

fn new_task<R: Host>(rt: &R) -> MockTask {
    MockTask::new(rt).expect(rt, "a task")
}

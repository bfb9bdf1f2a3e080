//! The worked examples, by what they are played on.
use futures::executor::block_on;
use futures::future::Future;
use std::alloc::AllocGlobal;
use std::fmt::Debug;
use std::process::Abort;
use std::random::RandomSource;
use std::sync::Wait;
use std::thread::Threads;
use std::time::Clock;

mod errors;
mod heap;
mod iterators;
mod plain_list;
mod priorities;
mod recorded;
mod rows;
mod runs;
mod script;
mod surface;
mod sweeps;
mod threads;
mod two_thousand;
mod wakers;
mod watch;
mod word;

/// What a test that waits asks of its runtime. A function asks for no more than it needs.
trait Host: Abort + Wait + RandomSource + AllocGlobal {}

impl<R: Abort + Wait + RandomSource + AllocGlobal> Host for R {}

/// What a test that starts threads asks of it.
trait ThreadHost: Host + Threads + Clock + Clone + Send + Sync {}

impl<R: Host + Threads + Clock + Clone + Send + Sync> ThreadHost for R {}

/// `assert_eq!`, proved once: each one in place takes seconds of the check.
fn expect_equal<X: PartialEq + Debug + Drop>(rt: &impl Abort, got: X, wanted: X) {
    assert_eq!(rt; got, wanted);
}

/// The same in one round of a loop, which it names where the two differ.
fn expect_equal_at<N: Debug + Drop, X: PartialEq + Debug + Drop>(
    rt: &impl Abort,
    round: N,
    got: X,
    wanted: X,
) {
    assert_eq!(rt; got, wanted, "at {round:?}");
}

/// `assert!`, proved once.
fn expect_true(rt: &impl Abort, holds: bool, what: &str) {
    assert!(rt; holds, "{what}");
}

/// What the future answers.
fn wait_for<F: Future>(rt: &impl Host, future: F) -> F::Output
    requires { F.can_poll future }
{
    block_on(rt, future).expect(rt, "an executor")
}

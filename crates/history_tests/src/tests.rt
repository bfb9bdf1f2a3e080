//! Recorded and witnessed channels.
use futures::executor::block_on;
use futures::future::Future;
use std::alloc::AllocGlobal;
use std::fmt::Debug;
use std::process::Abort;
use std::random::RandomSource;
use std::sync::Wait;
use std::thread::Threads;
use std::time::Clock;

mod books;
mod replay;
mod watch;
mod witnessed;

/// What a test asks of its runtime.
pub trait Host: Abort + Threads + Wait + Clock + RandomSource + AllocGlobal + Sync {}

impl<R: Abort + Threads + Wait + Clock + RandomSource + AllocGlobal + Sync> Host for R {}

/// `assert_eq!`, proved once: each one in place takes seconds of the check. In a loop both sides
/// name the round.
fn expect_equal<X: PartialEq + Debug + Drop>(rt: &impl Abort, got: X, wanted: X) {
    assert_eq!(rt; got, wanted);
}

/// What the future answers.
fn wait_for<F: Future>(rt: &impl Host, future: F) -> F::Output
    requires { F.can_poll future }
{
    block_on(rt, future).expect(rt, "an executor")
}

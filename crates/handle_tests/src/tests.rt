//! Scripts of calls by handles and futures, and the tests that are none.
use futures::executor::block_on;
use futures::future::Future;
use futures::task::Poll;
use script::Host;
use std::fmt::Debug;
use std::process::Abort;

mod contracts;
mod drops;
mod examples;
mod handles;
mod long;
mod messages;
mod scarce;
mod script;
mod taking;
mod waits;
mod wakers;

/// `assert_eq!`, proved once: each one in place takes seconds of the check.
fn expect_equal<X: PartialEq + Debug + Drop>(rt: &impl Abort, got: X, wanted: X) {
    assert_eq!(rt; got, wanted);
}

/// The same in one round of a loop, which it names where the two differ.
fn expect_equal_at<N: Debug + Drop, X: PartialEq + Debug + Drop>(
    rt: &impl Abort,
    round: N,
    got: X,
    wanted: X,
) {
    assert_eq!(rt; got, wanted, "at {round:?}");
}

/// What the future answers.
fn wait_for<F: Future>(rt: &impl Host, future: F) -> F::Output
    requires { F.can_poll future }
{
    block_on(rt, future).expect(rt, "an executor")
}

fn is_pending<T: Drop>(polled: Poll<T>) -> bool {
    matches!(polled, Poll::Pending)
}

//! What the tests share.
use std::fmt::Debug;
use std::process::Abort;

mod calls;
mod iterators;
mod lists;
mod memory;
mod rows;
mod runs;
mod script;
mod spins;
mod tickets;
mod uses;

/// `assert!`, proved once: each one in place takes a second of the check.
fn expect_true(rt: &impl Abort, holds: bool, what: &str) {
    assert!(rt; holds, "{what}");
}

/// `assert_eq!`, proved once.
fn expect_equal<X: PartialEq + Debug + Drop>(rt: &impl Abort, got: X, wanted: X) {
    assert_eq!(rt; got, wanted);
}

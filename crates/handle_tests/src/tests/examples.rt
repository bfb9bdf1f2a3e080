//! The examples of the library's documentation run, and are true.
//!
//! The gate runs no doc comment. `tools/examples --write` makes a test of each, in which messages
//! that are texts are numbers, and `tools/examples` compares the tests with the doc comments. This
//! file has what the examples name.
use super::{expect_equal, wait_for};
use async_priority_channel::{
    Due, Ends, RecvError, RecvFault, RecvTimeoutError, SendTimeoutError, Sender, TryRecvError,
    TrySendError, bounded, bounded_reserved, unbounded,
};
use futures::executor::block_on;
use futures::future::{Either, join, select};
use futures::stream::StreamExt;
use std::alloc::{AllocError, Global};
use std::cmp::Reverse;
use std::process::Abort;
use std::sync::Wait;
use std::thread;
use std::time::{Duration, Instant};

mod generated;

/// `assert!`, proved once.
fn expect_true(rt: &impl Abort, holds: bool) {
    assert!(rt; holds);
}

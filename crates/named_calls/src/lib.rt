//! The calls of a channel's handles by name, for tests that go over all of them: how each is made,
//! and what comes of it, in one form.
//!
//! A new call of a handle gets a name in `Call`, a line in `ALL`, and an arm in `sending`,
//! `receiving` or `either`; and one in the plain model of the tests.
//!
//! Only a test may end the process. So where a call could not be made or told, as without a clock
//! or without memory for the reply, this is told by an outcome that no call has.
#![tactic(auto)]

use std::alloc::AllocGlobal;
use std::random::RandomSource;
use std::sync::Wait;
use std::time::Clock;

mod all;
mod calls;
pub mod either;
pub mod receiving;
pub mod reply;
pub mod sending;
mod tasks;
mod timed;

pub use all::ALL;
pub use calls::{Call, Input, Pair, Pairs, Side, Way, is_choosy, is_for_close, picks};
pub use receiving::receive;
pub use reply::{Looks, Outcome, Reply};
pub use sending::send;
pub use tasks::{is_pending, ready, rest};

/// What the calls ask of a runtime.
pub trait Runtime: Wait + Clone + Clock + RandomSource + AllocGlobal {}

impl<R: Wait + Clone + Clock + RandomSource + AllocGlobal> Runtime for R {}

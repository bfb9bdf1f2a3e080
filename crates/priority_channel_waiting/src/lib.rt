//! How senders and receivers wait: the calls that they make again, the state of a future between its polls, the
//! waiter that wakes a task or a thread, the queue of a waiting thread, the time limit, and what a
//! channel's lock guards.
//!
//! `async_priority_channel` builds the calls of its handles on these, and returns the errors of
//! `timeouts` to its callers. Nothing here takes a channel's lock.
#![tactic(auto)]

pub mod guarded;
pub mod laws;
pub mod line;
pub mod polled;
mod reading;
pub mod retry;
pub mod seeking;
pub mod selecting;
pub mod spins;
pub mod states;
pub mod timeouts;
pub mod until;
pub mod waiter;

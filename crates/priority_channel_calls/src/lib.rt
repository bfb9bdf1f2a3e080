//! The calls of the core as values, so that code which is generic in the call can make one and
//! answer with what it returned, and can do nothing else with it.
//!
//! What makes a call on a channel of many threads takes the lock, makes the call, releases the lock
//! and wakes. Generic code can neither invent an answer, nor drop the call, nor make it twice.
#![tactic(auto)]

pub mod bulk;
pub mod call;
pub mod ends;
pub mod looks;
pub mod places;
pub mod receives;
pub mod sends;
pub mod taking;
pub mod waits;

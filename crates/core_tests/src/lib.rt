//! Tests of the core: what no contract says.
//!
//! Scripts of calls tell examples beside those of `acceptance_tests`, line by line, with each
//! answer and the waiters that are to be woken; one player makes them. Loops refuse each request
//! for memory in turn, and count the calls of iterators. Here a waker is a number.
//!
//! They stand in a crate of their own, so that the core is proved once.
#![tactic(auto)]

#[cfg(test)]
mod tests;

//! Tests that go over all calls of both handles by their names: what each answers, beside a plain
//! model, which waiters it wakes, and what it does where memory is refused.
//!
//! With threads: a call is one step beside those of others; no message is lost, doubled or made up,
//! also where a worker fails with it in hand.
//!
//! A watchdog stands beside each wait: a test that would hang fails, and names what it waited for.
#![tactic(auto)]

#[cfg(test)]
mod tests;

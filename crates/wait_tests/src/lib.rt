//! Tests of threads that wait, by each call that does: a wait ends by whatever is to end it, and
//! soon; a limit is kept; each of the threads in a queue is told when its turn has come; a wait to
//! which memory is refused harms no other; a thread that waits with a condition is woken by each
//! change that may meet it. No contract says that a thread is woken.
//!
//! A watchdog stands beside each wait: a test that would hang fails, and names what it waited for.
//! A gate and a clock of the tests' own halt a thread just where another one is to act, so that few
//! tests rest on chance.
#![tactic(auto)]

#[cfg(test)]
mod tests;

//! Tests of what handles do on one thread, and the tables of `call_tests` do not show: futures that
//! are polled more than once or go, weak handles, what is dropped where, texts, and long runs.
//! Those of futures are scripts, which one runner plays.
#![tactic(auto)]

#[cfg(test)]
mod tests;

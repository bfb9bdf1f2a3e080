//! The worked examples of the channel's specification, literal. What they expect never changes;
//! other tests may come and go.
//!
//! Each stands under its title, as a comment above a script or as the name of a test. Those of
//! `prio` stand in its own crate.
#![tactic(auto)]

#[cfg(test)]
mod tests;

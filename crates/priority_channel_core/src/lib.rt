//! The core of a priority channel: its state, and each of its calls as one step of a state machine.
//!
//! `channel::PriorityQueueChannel` is the channel. `waiting` of `async_priority_channel` has the
//! states of futures between their polls. The definitions that the contracts cite are in `specs/`;
//! `docs/DEFINITIONS.md` explains them in words.
#![tactic(auto)]

pub mod awaitable_atomics;
pub mod bag;
pub mod calls;
pub mod channel;
pub mod comparisons;
pub mod errors;
pub mod item;
pub mod laws;
pub mod side;
pub mod waiting_list;

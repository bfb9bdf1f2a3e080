//! A channel that keeps the history of its calls: the caller, the call, and the reply.
//!
//! A `Book` is for one caller, and a `Recorded` for many threads, each with a `Pass`. Contracts see
//! the history that a pass has seen, so a caller can conclude from its own replies what the others
//! did. `async_priority_channel` exports both, as `recorded`.
#![tactic(auto)]

mod book;
mod calls;
pub mod chronicle;
pub mod laws;
mod recorder;

pub use book::{Book, Call, Entry, NoPlace, Reply};
pub use calls::{Calls, Fresh, Pass};
pub use chronicle::Recording;
pub use recorder::{History, Recorded};

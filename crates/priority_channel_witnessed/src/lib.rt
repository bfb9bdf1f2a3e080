//! A channel whose contracts say, of each call, what it tells of the steps of one history.
//!
//! Many threads and tasks share a `Witnessed`, each with a `Pass`. Calls are those of
//! `priority_channel_calls`. Messages, priorities and wakers may be of any type. The history exists
//! in contracts alone, and takes no memory. The handles of `async_priority_channel` cannot be used
//! with it.
#![tactic(auto)]

mod awaited;
mod chronicle;
mod journal;
mod kept;
pub mod laws;
mod numbers;
pub mod uses;
mod waiting;
mod witnessed;

pub use awaited::{Awaited, Pairs, PollOf, Polled, SendAll};
pub use chronicle::{Calls, Entry, Fresh, Pass, Seen};
pub use priority_channel_core::channel::PriorityQueueChannel;
pub use priority_channel_recorded::chronicle::Recording;
pub use priority_channel_waiting::waiter::{Waiter, wake_all};
pub use waiting::Waiting;
pub use witnessed::Witnessed;

//! The futures, and their states between polls.

mod call;
mod sought;
mod task;
mod transfer;

pub use call::{Calling, LeaseNext, Reserve};
pub use priority_channel_waiting::states::{RecvState, SendState, SendvState};
pub use sought::{Closed, LeaseNextWhere, RecvWhere, Seeking};
pub(crate) use task::Task;
pub use transfer::{Recv, Send, Sendv, Waiting};

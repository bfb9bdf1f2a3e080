//! What a handle leads to.
use crate::due::Due;
use crate::priority::Priority;
use priority_channel_core::channel::PriorityQueueChannel;

/// A channel, and the waiters of its last call that the caller has not fetched yet.
#[derive(Drop)]
pub struct Core {
    pub channel: PriorityQueueChannel<u64, Priority, u64>,
    pub due: Due,
}

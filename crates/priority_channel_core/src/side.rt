//! The two sides of a channel.

/// The side on which a call waits: a send waits for room on the send side (`Room`), and a receive
/// for a message on the receive side (`Message`).
#[derive(Clone, Copy, Debug, PartialEq, Eq)]
pub enum Side {
    /// Room for another pair.
    Room,
    /// A pending message.
    Message,
}

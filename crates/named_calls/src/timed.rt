//! How a call waits, with its limit.
use crate::Runtime;
use crate::calls::Way;
use std::time::{Duration, Instant};

/// A way to wait, as the call is given it.
#[derive(Clone, Copy)]
pub enum Timed {
    Try,
    Poll,
    Future,
    Blocking,
    Timeout(Duration),
    Deadline(Instant),
}

impl Timed {
    /// The limit of a call that begins now. None where it is an instant that no clock tells.
    pub fn new(rt: &impl Runtime, way: Way, limit: Duration) -> Option<Self> {
        Some(match way {
            Way::Try => Timed::Try,
            Way::Poll => Timed::Poll,
            Way::Future => Timed::Future,
            Way::Blocking => Timed::Blocking,
            Way::Timeout => Timed::Timeout(limit),
            Way::Deadline => {
                let now = Instant::now(rt).ok()?;
                Timed::Deadline(now.checked_add(limit).unwrap_or(now))
            }
        })
    }
}

//! A priority in which it counts how long a message has waited.
//!
//! You need this where urgent messages keep coming: by urgency alone the others may wait for ever.
//! All that are pending age alike, so it is enough to take the time of the send off the urgency,
//! once. With a head start of three minutes an urgent message goes before those idle ones that were
//! sent less than three minutes before it. All senders have to read one clock. Here the minutes are
//! made up; a program takes them from `start.elapsed(&rt)?`.

use async_priority_channel::unbounded;
use std::alloc::AllocGlobal;
use std::sync::Wait;

#[derive(Clone, Copy, Debug, Drop)]
enum Urgency {
    Idle,
    Urgent,
}

impl Urgency {
    // In minutes: how much earlier it seems to have been sent.
    fn head_start(self) -> i64 {
        match self {
            Urgency::Idle => 0,
            Urgency::Urgent => 3,
        }
    }

    fn aged(self, minute: i64) -> i64 {
        self.head_start().saturating_sub(minute)
    }
}

// An urgent message comes each minute, and one message is served.
pub fn run<R: Wait + Clone + Print + AllocGlobal>(rt: &R) -> anyhow::Result<()> {
    let (tx, rx) = unbounded(rt, rt.alloc())?;
    tx.try_send((Urgency::Idle, 0), Urgency::Idle.aged(0))?;
    for minute in 0..6 {
        tx.try_send((Urgency::Urgent, minute), Urgency::Urgent.aged(minute))?;
        let ((urgency, sent), _) = rx.try_recv()?;
        println!(rt; "aging: in minute {minute} {urgency:?} of minute {sent}")?;
    }
    Ok(())
}

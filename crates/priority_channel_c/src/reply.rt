//! What a call answers.
ghost use Rattle.std.specs.Prelude.{◌≡◌};
ghost use Rattle.priority_channel_c.specs.Codes.{number};

use crate::codes::Code;
use crate::priority::Priority;

/// What a call answers. Fields that its code does not name are 0.
#[repr(C)]
#[derive(Clone, Copy)]
pub struct Reply {
    /// The number of a `Code`.
    pub code: u32,
    /// Whether waiters are due, of this call or of an earlier one.
    pub has_due: bool,
    /// The ticket under which the caller waits.
    pub ticket: u64,
    /// The message of a pair that goes to the caller, and its priority.
    pub message: u64,
    pub priority: Priority,
}

/// Who polls.
#[repr(C)]
#[derive(Clone, Copy)]
pub struct Waiter {
    /// What wakes the caller: a number of the caller's.
    pub waker: u64,
    /// Whether an earlier poll gave a ticket, and that ticket.
    pub has_ticket: bool,
    pub ticket: u64,
}

impl Waiter {
    ghost use Rattle.priority_channel_c.specs.Replies.{ticket_given};

    pub fn ticket_given(&self) -> Option<u64>
        ensures { result ≡ ticket_given self.now }
    {
        if self.has_ticket {
            Some(self.ticket)
        } else {
            None
        }
    }
}

impl Reply {
    /// A reply that tells a code alone.
    pub fn of(code: Code, has_due: bool) -> Reply
        ensures code { result.code ≡ number code }
        ensures due { result.has_due ≡ has_due }
    {
        Reply {
            code: code.number(),
            has_due,
            ticket: 0,
            message: 0,
            priority: Priority { high: 0, low: 0 },
        }
    }

    /// A reply with a pair for the caller.
    pub fn with_pair(code: Code, pair: (u64, Priority), has_due: bool) -> Reply
        ensures code { result.code ≡ number code }
        ensures due { result.has_due ≡ has_due }
        ensures message { result.message ≡ pair.0 }
        ensures priority { result.priority ≡ pair.1 }
    {
        let (message, priority) = pair;
        Reply {
            message,
            priority,
            ..Reply::of(code, has_due)
        }
    }

    /// A reply to a caller that has to wait.
    pub fn waiting(ticket: u64, has_due: bool) -> Reply
        ensures code { result.code ≡ number Code.Pending }
        ensures due { result.has_due ≡ has_due }
        ensures ticket { result.ticket ≡ ticket }
    {
        Reply {
            ticket,
            ..Reply::of(Code::Pending, has_due)
        }
    }
}

//! Why a call that waits on its thread has ended without success.
//!
//! The error of a send holds what was to be sent. `{}` and `{:?}` do not print it, so its type need
//! not be printable.
//!
//! Cost: no call of an error takes memory or a lock.
ghost use Rattle.std.specs.Prelude.{◌≡◌, ◌↔◌, IsTrue, Some};
ghost use Rattle.priority_channel_waiting.specs.Waits.{given_back, unsent_in_time};

use crate::until::Overdue;
use priority_channel_core::errors::{RecvError, RecvFault, SendError, SendFault};
use std::convert::Infallible;
use std::error::Error;
use std::fmt;

/// How a wait has ended without success, and the call that was not done. `O` is evidence that its
/// time is over.
#[derive(Drop)]
pub enum Ended<C, O> {
    Over(C, O),
    Closed(C),
    Memory(C),
}

impl<T> From<Ended<T, Infallible>> for SendFault<T> {
    ghost use Rattle.priority_channel_core.specs.Prelude.{unsent};
    ghost use Rattle.priority_channel_waiting.specs.Waits.{TellsSendFault};

    ghost from_gives = { λ ended fault. TellsSendFault ended fault
        × (unsent fault ≡ given_back ended) };

    fn from(ended: Ended<T, Infallible>) -> Self {
        match ended {
            Ended::Over(_unsent, never) => match never {},
            Ended::Closed(unsent) => SendFault::Closed(SendError(unsent)),
            Ended::Memory(unsent) => SendFault::Memory(unsent),
        }
    }
}

impl<C: Drop> From<Ended<C, Infallible>> for RecvFault {
    ghost use Rattle.priority_channel_waiting.specs.Waits.{TellsRecvFault};

    ghost from_gives = { TellsRecvFault };

    fn from(ended: Ended<C, Infallible>) -> Self {
        match ended {
            Ended::Over(_, never) => match never {},
            Ended::Closed(_) => RecvFault::Closed(RecvError),
            Ended::Memory(_) => RecvFault::Memory,
        }
    }
}

/// Why a send that waits for a limited time has not sent. It holds what was not sent.
///
/// ```
/// let (tx, rx) = bounded(&rt, rt.alloc(), 1)?;
/// drop(rx);
/// let refused = tx.send_timeout("Foo", 0, Duration::from_millis(5));
/// assert!(rt; refused.is_err_and(|error| error.is_closed()));
/// assert!(rt; refused.is_err_and(|error| error.into_inner() == ("Foo", 0)));
/// ```
#[derive(Clone, Copy, Drop, PartialEq, Eq)]
pub enum SendTimeoutError<T> {
    /// There was no room in time.
    Timeout(T),
    /// The channel is closed.
    Closed(T),
    /// Memory was refused, for what was to be sent or for waiting.
    Memory(T),
}

impl<T> SendTimeoutError<T> {
    /// Returns what was not sent.
    pub fn into_inner(self) -> T
        ensures { result ≡ unsent_in_time self }
    {
        match self {
            SendTimeoutError::Timeout(held)
            | SendTimeoutError::Closed(held)
            | SendTimeoutError::Memory(held) => held,
        }
    }

    /// Whether the time was over.
    pub fn is_timeout(&self) -> bool
        ensures { IsTrue result ↔ (self.now ≡ SendTimeoutError.Timeout (unsent_in_time self.now)) }
    {
        matches!(self, SendTimeoutError::Timeout(_))
    }

    /// Whether the channel was closed, so that it accepts nothing more.
    pub fn is_closed(&self) -> bool
        ensures { IsTrue result ↔ (self.now ≡ SendTimeoutError.Closed (unsent_in_time self.now)) }
    {
        matches!(self, SendTimeoutError::Closed(_))
    }

    /// Whether memory was refused.
    pub fn is_memory(&self) -> bool
        ensures { IsTrue result ↔ (self.now ≡ SendTimeoutError.Memory (unsent_in_time self.now)) }
    {
        matches!(self, SendTimeoutError::Memory(_))
    }
}

impl<T> From<Ended<T, Overdue>> for SendTimeoutError<T> {
    ghost use Rattle.priority_channel_waiting.specs.Waits.{TellsSendTimeout};

    ghost from_gives = { λ ended error. TellsSendTimeout ended error
        × (unsent_in_time error ≡ given_back ended) };

    fn from(ended: Ended<T, Overdue>) -> Self {
        match ended {
            Ended::Over(unsent, _) => SendTimeoutError::Timeout(unsent),
            Ended::Closed(unsent) => SendTimeoutError::Closed(unsent),
            Ended::Memory(unsent) => SendTimeoutError::Memory(unsent),
        }
    }
}

impl<T> From<SendFault<T>> for SendTimeoutError<T> {
    ghost use Rattle.priority_channel_waiting.specs.Waits.{send_fault_in_time};

    ghost from_gives = { λ fault error. error ≡ send_fault_in_time fault };

    fn from(fault: SendFault<T>) -> Self {
        match fault {
            SendFault::Closed(SendError(unsent)) => SendTimeoutError::Closed(unsent),
            SendFault::Memory(unsent) => SendTimeoutError::Memory(unsent),
        }
    }
}

impl<T> fmt::Display for SendTimeoutError<T> {
    ghost use Rattle.priority_channel_waiting.specs.Waits.{send_timeout_text};

    ghost output = { λ error. Some (send_timeout_text error) };

    fn fmt<W: fmt::Write>(&self, f: &mut fmt::Formatter<W>) -> fmt::Result {
        f.write_str(match self {
            SendTimeoutError::Timeout(_) => "sending into a full channel timed out",
            SendTimeoutError::Closed(_) => "sending into a closed channel",
            SendTimeoutError::Memory(_) => "no memory for sending",
        })
    }
}

impl<T> fmt::Debug for SendTimeoutError<T> {
    ghost use Rattle.priority_channel_waiting.specs.Waits.{send_timeout_debug};

    ghost debug_output = { λ error. Some (send_timeout_debug error) };

    fn fmt<W: fmt::Write>(&self, f: &mut fmt::Formatter<W>) -> fmt::Result {
        f.write_str(match self {
            SendTimeoutError::Timeout(_) => "Timeout(..)",
            SendTimeoutError::Closed(_) => "Closed(..)",
            SendTimeoutError::Memory(_) => "Memory(..)",
        })
    }
}

impl<T: Drop> Error for SendTimeoutError<T> {}

/// Why a receive that waits for a limited time has no message.
///
/// ```
/// let (_tx, rx) = bounded::<&str, u64, _, _>(&rt, rt.alloc(), 1)?;
/// let refused = rx.recv_timeout(Duration::from_millis(5));
/// assert!(rt; refused.is_err_and(|error| error.is_timeout()));
/// ```
#[derive(Clone, Copy, Debug, Drop, PartialEq, Eq)]
pub enum RecvTimeoutError {
    /// No message came in time.
    Timeout,
    /// The channel is closed and empty.
    Closed,
    /// Memory for waiting was refused.
    Memory,
}

impl RecvTimeoutError {
    /// Whether the time was over, so that a message may still come.
    pub fn is_timeout(&self) -> bool
        ensures { IsTrue result ↔ (self.now ≡ RecvTimeoutError.Timeout) }
    {
        matches!(self, RecvTimeoutError::Timeout)
    }

    /// Whether the channel was closed, so that no message will come.
    pub fn is_closed(&self) -> bool
        ensures { IsTrue result ↔ (self.now ≡ RecvTimeoutError.Closed) }
    {
        matches!(self, RecvTimeoutError::Closed)
    }

    /// Whether memory was refused.
    pub fn is_memory(&self) -> bool
        ensures { IsTrue result ↔ (self.now ≡ RecvTimeoutError.Memory) }
    {
        matches!(self, RecvTimeoutError::Memory)
    }
}

impl<C: Drop> From<Ended<C, Overdue>> for RecvTimeoutError {
    ghost use Rattle.priority_channel_waiting.specs.Waits.{TellsRecvTimeout};

    ghost from_gives = { TellsRecvTimeout };

    fn from(ended: Ended<C, Overdue>) -> Self {
        match ended {
            Ended::Over(_, _) => RecvTimeoutError::Timeout,
            Ended::Closed(_) => RecvTimeoutError::Closed,
            Ended::Memory(_) => RecvTimeoutError::Memory,
        }
    }
}

impl From<RecvFault> for RecvTimeoutError {
    ghost use Rattle.priority_channel_waiting.specs.Waits.{recv_fault_in_time};

    ghost from_gives = { λ fault error. error ≡ recv_fault_in_time fault };

    fn from(fault: RecvFault) -> Self {
        match fault {
            RecvFault::Closed(_) => RecvTimeoutError::Closed,
            RecvFault::Memory => RecvTimeoutError::Memory,
        }
    }
}

impl fmt::Display for RecvTimeoutError {
    ghost use Rattle.priority_channel_waiting.specs.Waits.{recv_timeout_text};

    ghost output = { λ error. Some (recv_timeout_text error) };

    fn fmt<W: fmt::Write>(&self, f: &mut fmt::Formatter<W>) -> fmt::Result {
        f.write_str(match self {
            RecvTimeoutError::Timeout => "receiving from an empty channel timed out",
            RecvTimeoutError::Closed => "receiving from an empty and closed channel",
            RecvTimeoutError::Memory => "no memory for waiting",
        })
    }
}

impl Error for RecvTimeoutError {}

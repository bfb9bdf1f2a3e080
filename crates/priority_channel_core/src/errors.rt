//! The errors of sends and receives.
//!
//! The error of a send holds what was to be sent. `{}` and `{:?}` do not print it, so its type need
//! not be printable.
//!
//! Cost: no call of an error takes memory or a lock.
ghost use Rattle.std.specs.Prelude.{◌≡◌, ◌↔◌, IsTrue, Some, codes};
ghost use Rattle.priority_channel_core.specs.Prelude.{rest_of, try_send_error_text, try_send_error_debug, refusal_for, try_recv_error_text, try_recv_many_error_text, batch_error_for, unsent, send_fault_text, send_fault_debug, recv_fault_text, TrySendError, TryRecvError, SendFault, RecvFault};

use std::error::Error;
use std::fmt;

/// Why a pair, or the rest of a list of pairs, was not accepted. It holds what was to be sent.
///
/// ```
/// let refusal = TrySendError::Full(("late", 3));
/// assert!(rt; refusal.is_full() && !refusal.is_closed());
/// let (message, priority) = refusal.into_inner();
/// ```
#[derive(Clone, Copy, Drop, PartialEq, Eq)]
pub enum TrySendError<T> {
    /// As many messages are pending as the channel may hold.
    Full(T),
    /// The channel is closed.
    Closed(T),
    /// There is room, but no memory for it.
    Memory(T),
}

impl<T> TrySendError<T> {
    /// Returns what was to be sent.
    pub fn into_inner(self) -> T
        ensures { result ≡ rest_of self }
    {
        match self {
            TrySendError::Full(held) => held,
            TrySendError::Closed(held) => held,
            TrySendError::Memory(held) => held,
        }
    }

    /// Whether the channel was full, rather than closed or out of memory.
    pub fn is_full(&self) -> bool
        ensures { IsTrue result ↔ (self.now ≡ TrySendError.Full (rest_of self.now)) }
    {
        matches!(self, TrySendError::Full(_))
    }

    /// Whether the channel was closed, so that it accepts nothing more.
    pub fn is_closed(&self) -> bool
        ensures { IsTrue result ↔ (self.now ≡ TrySendError.Closed (rest_of self.now)) }
    {
        matches!(self, TrySendError::Closed(_))
    }

    /// Whether there was room, but no memory for it.
    pub fn is_memory(&self) -> bool
        ensures { IsTrue result ↔ (self.now ≡ TrySendError.Memory (rest_of self.now)) }
    {
        matches!(self, TrySendError::Memory(_))
    }
}

impl<T> fmt::Display for TrySendError<T> {
    ghost output = { λ error. Some (try_send_error_text error) };

    fn fmt<W: fmt::Write>(&self, f: &mut fmt::Formatter<W>) -> fmt::Result {
        f.write_str(match self {
            TrySendError::Full(_) => "sending into a full channel",
            TrySendError::Closed(_) => "sending into a closed channel",
            TrySendError::Memory(_) => "no memory for sending",
        })
    }
}

impl<T> fmt::Debug for TrySendError<T> {
    ghost debug_output = { λ error. Some (try_send_error_debug error) };

    fn fmt<W: fmt::Write>(&self, f: &mut fmt::Formatter<W>) -> fmt::Result {
        f.write_str(match self {
            TrySendError::Full(_) => "Full(..)",
            TrySendError::Closed(_) => "Closed(..)",
            TrySendError::Memory(_) => "Memory(..)",
        })
    }
}

impl<T: Drop> Error for TrySendError<T> {}

impl<T> From<SendError<T>> for TrySendError<T> {
    ghost from_gives = { λ closed error. error ≡ TrySendError.Closed closed.0 };

    fn from(closed: SendError<T>) -> TrySendError<T> {
        TrySendError::Closed(closed.0)
    }
}

impl<T> From<SendFault<T>> for TrySendError<T> {
    ghost from_gives = { λ fault error. error ≡ refusal_for fault };

    fn from(fault: SendFault<T>) -> TrySendError<T> {
        match fault {
            SendFault::Closed(closed) => TrySendError::from(closed),
            SendFault::Memory(held) => TrySendError::Memory(held),
        }
    }
}

/// Why there is no message.
#[derive(Clone, Copy, Debug, Drop, PartialEq, Eq)]
pub enum TryRecvError {
    /// No message is pending.
    Empty,
    /// No message is pending, and the channel is closed, so none will come.
    Closed,
}

impl TryRecvError {
    /// Whether the channel was open, so that a message may still come.
    pub fn is_empty(&self) -> bool
        ensures { IsTrue result ↔ (self.now ≡ TryRecvError.Empty) }
    {
        matches!(self, TryRecvError::Empty)
    }

    /// Whether the channel was closed, so that no message will come.
    pub fn is_closed(&self) -> bool
        ensures { IsTrue result ↔ (self.now ≡ TryRecvError.Closed) }
    {
        matches!(self, TryRecvError::Closed)
    }
}

impl fmt::Display for TryRecvError {
    ghost output = { λ error. Some (try_recv_error_text error) };

    fn fmt<W: fmt::Write>(&self, f: &mut fmt::Formatter<W>) -> fmt::Result {
        f.write_str(match self {
            TryRecvError::Empty => "receiving from an empty channel",
            TryRecvError::Closed => "receiving from an empty and closed channel",
        })
    }
}

impl Error for TryRecvError {}

impl From<RecvError> for TryRecvError {
    ghost from_gives = { λ _ error. error ≡ TryRecvError.Closed };

    fn from(_closed: RecvError) -> TryRecvError {
        TryRecvError::Closed
    }
}

/// Why a receive of many messages returned none.
#[derive(Clone, Copy, Debug, Drop, PartialEq, Eq)]
pub enum TryRecvManyError {
    /// No message is pending.
    Empty,
    /// No message is pending, and the channel is closed, so none will come.
    Closed,
    /// Memory for the messages was refused.
    Memory,
}

impl TryRecvManyError {
    /// Whether the channel was open and empty, so that a message may still come.
    pub fn is_empty(&self) -> bool
        ensures { IsTrue result ↔ (self.now ≡ TryRecvManyError.Empty) }
    {
        matches!(self, TryRecvManyError::Empty)
    }

    /// Whether the channel was closed and empty, so that no message will come.
    pub fn is_closed(&self) -> bool
        ensures { IsTrue result ↔ (self.now ≡ TryRecvManyError.Closed) }
    {
        matches!(self, TryRecvManyError::Closed)
    }

    /// Whether memory for the messages was refused.
    pub fn is_memory(&self) -> bool
        ensures { IsTrue result ↔ (self.now ≡ TryRecvManyError.Memory) }
    {
        matches!(self, TryRecvManyError::Memory)
    }
}

impl fmt::Display for TryRecvManyError {
    ghost output = { λ error. Some (try_recv_many_error_text error) };

    fn fmt<W: fmt::Write>(&self, f: &mut fmt::Formatter<W>) -> fmt::Result {
        f.write_str(match self {
            TryRecvManyError::Empty => "receiving from an empty channel",
            TryRecvManyError::Closed => "receiving from an empty and closed channel",
            TryRecvManyError::Memory => "no memory for receiving",
        })
    }
}

impl Error for TryRecvManyError {}

impl From<TryRecvError> for TryRecvManyError {
    ghost from_gives = { λ error many. many ≡ batch_error_for error };

    fn from(error: TryRecvError) -> TryRecvManyError {
        match error {
            TryRecvError::Empty => TryRecvManyError::Empty,
            TryRecvError::Closed => TryRecvManyError::Closed,
        }
    }
}

/// The channel is closed. It holds what was to be sent.
#[derive(Clone, Copy, Drop, PartialEq, Eq)]
pub struct SendError<T>(pub T);

impl<T> SendError<T> {
    /// Returns what was to be sent.
    pub fn into_inner(self) -> T
        ensures { result ≡ self.0 }
    {
        self.0
    }
}

impl<T> fmt::Display for SendError<T> {
    ghost output = { λ _. Some (codes "sending into a closed channel") };

    fn fmt<W: fmt::Write>(&self, f: &mut fmt::Formatter<W>) -> fmt::Result {
        f.write_str("sending into a closed channel")
    }
}

impl<T> fmt::Debug for SendError<T> {
    ghost debug_output = { λ _. Some (codes "SendError(..)") };

    fn fmt<W: fmt::Write>(&self, f: &mut fmt::Formatter<W>) -> fmt::Result {
        f.write_str("SendError(..)")
    }
}

impl<T: Drop> Error for SendError<T> {}

/// The channel is closed and empty.
#[derive(Clone, Copy, Debug, Drop, PartialEq, Eq)]
pub struct RecvError;

impl fmt::Display for RecvError {
    ghost output = { λ _. Some (codes "receiving from an empty and closed channel") };

    fn fmt<W: fmt::Write>(&self, f: &mut fmt::Formatter<W>) -> fmt::Result {
        f.write_str("receiving from an empty and closed channel")
    }
}

impl Error for RecvError {}

/// Why a send that waits has ended. It holds what was not sent.
#[derive(Clone, Copy, Drop, PartialEq, Eq)]
pub enum SendFault<T> {
    /// The channel is closed.
    Closed(SendError<T>),
    /// Memory was refused, for what was to be sent or for waiting.
    Memory(T),
}

impl<T> SendFault<T> {
    /// Returns what was not sent.
    pub fn into_inner(self) -> T
        ensures { result ≡ unsent self }
    {
        match self {
            SendFault::Closed(SendError(held)) | SendFault::Memory(held) => held,
        }
    }

    /// Whether the channel was closed, so that it accepts nothing more.
    pub fn is_closed(&self) -> bool
        ensures { IsTrue result ↔ ((closed : SendError T) × (self.now ≡ SendFault.Closed closed)) }
    {
        matches!(self, SendFault::Closed(_))
    }

    /// Whether memory was refused, for what was to be sent or for waiting.
    pub fn is_memory(&self) -> bool
        ensures { IsTrue result ↔ (self.now ≡ SendFault.Memory (unsent self.now)) }
    {
        matches!(self, SendFault::Memory(_))
    }
}

impl<T> fmt::Display for SendFault<T> {
    ghost output = { λ fault. Some (send_fault_text fault) };

    fn fmt<W: fmt::Write>(&self, f: &mut fmt::Formatter<W>) -> fmt::Result {
        f.write_str(match self {
            SendFault::Closed(_) => "sending into a closed channel",
            SendFault::Memory(_) => "no memory for sending",
        })
    }
}

impl<T> fmt::Debug for SendFault<T> {
    ghost debug_output = { λ fault. Some (send_fault_debug fault) };

    fn fmt<W: fmt::Write>(&self, f: &mut fmt::Formatter<W>) -> fmt::Result {
        f.write_str(match self {
            SendFault::Closed(_) => "Closed(..)",
            SendFault::Memory(_) => "Memory(..)",
        })
    }
}

impl<T: Drop> Error for SendFault<T> {}

impl<T> From<SendError<T>> for SendFault<T> {
    ghost from_gives = { λ closed fault. fault ≡ SendFault.Closed closed };

    fn from(closed: SendError<T>) -> SendFault<T> {
        SendFault::Closed(closed)
    }
}

/// Why a receive that waits has ended.
#[derive(Clone, Copy, Debug, Drop, PartialEq, Eq)]
pub enum RecvFault {
    /// The channel is closed and empty.
    Closed(RecvError),
    /// Memory was refused, for waiting or for many messages.
    Memory,
}

impl RecvFault {
    /// Whether the channel was closed and empty, so that no message will come.
    pub fn is_closed(&self) -> bool
        ensures { IsTrue result ↔ ((closed : RecvError) × (self.now ≡ RecvFault.Closed closed)) }
    {
        matches!(self, RecvFault::Closed(_))
    }

    /// Whether memory was refused for waiting.
    pub fn is_memory(&self) -> bool
        ensures { IsTrue result ↔ (self.now ≡ RecvFault.Memory) }
    {
        matches!(self, RecvFault::Memory)
    }
}

impl fmt::Display for RecvFault {
    ghost output = { λ fault. Some (recv_fault_text fault) };

    fn fmt<W: fmt::Write>(&self, f: &mut fmt::Formatter<W>) -> fmt::Result {
        f.write_str(match self {
            RecvFault::Closed(_) => "receiving from an empty and closed channel",
            RecvFault::Memory => "no memory for waiting",
        })
    }
}

impl Error for RecvFault {}

impl From<RecvError> for RecvFault {
    ghost from_gives = { λ closed fault. fault ≡ RecvFault.Closed closed };

    fn from(closed: RecvError) -> RecvFault {
        RecvFault::Closed(closed)
    }
}

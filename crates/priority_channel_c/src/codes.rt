//! What a call came to, and the number that C is told of it.
ghost use Rattle.std.specs.Prelude.{◌≡◌};

use priority_channel_core::errors::{
    RecvFault, SendFault, TryRecvError, TryRecvManyError, TrySendError,
};

/// What a call came to. The header has the numbers.
#[derive(Clone, Copy)]
pub enum Code {
    /// It was done.
    Done,
    /// There is no room.
    Full,
    /// Nothing is pending.
    Empty,
    /// The channel is closed: it accepts nothing, or nothing will come.
    Closed,
    /// Memory was refused, or the last number of a pair was used.
    Memory,
    /// The caller waits under the ticket of the reply.
    Pending,
    /// A pair was sent, and the pair of the reply was displaced.
    Displaced,
    /// There is nothing of the kind that was asked for.
    Nothing,
    /// Waiters of an earlier call are due, and nothing was done.
    Due,
    /// The capacity is 0, or it is too great for a channel that takes its memory now.
    BadCapacity,
}

impl Code {
    ghost use Rattle.priority_channel_c.specs.Codes.{number, refusal, reply_code, absence, lease_absence, send_end, recv_end, found};

    pub fn number(self) -> u32
        ensures { result ≡ number self }
    {
        match self {
            Code::Done => 0,
            Code::Full => 1,
            Code::Empty => 2,
            Code::Closed => 3,
            Code::Memory => 4,
            Code::Pending => 5,
            Code::Displaced => 6,
            Code::Nothing => 7,
            Code::Due => 8,
            Code::BadCapacity => 9,
        }
    }

    pub fn of_refusal<K>(error: &TrySendError<K>) -> Code
        ensures { result ≡ refusal error.now }
    {
        match error {
            TrySendError::Full(_) => Code::Full,
            TrySendError::Closed(_) => Code::Closed,
            TrySendError::Memory(_) => Code::Memory,
        }
    }

    pub fn of_reply<K>(reply: &Result<(), TrySendError<K>>) -> Code
        ensures { result ≡ reply_code reply.now }
    {
        match reply {
            Ok(()) => Code::Done,
            Err(error) => Code::of_refusal(error),
        }
    }

    pub fn of_absence(error: TryRecvError) -> Code
        ensures { result ≡ absence error }
    {
        match error {
            TryRecvError::Empty => Code::Empty,
            TryRecvError::Closed => Code::Closed,
        }
    }

    pub fn of_lease_absence(error: TryRecvManyError) -> Code
        ensures { result ≡ lease_absence error }
    {
        match error {
            TryRecvManyError::Empty => Code::Empty,
            TryRecvManyError::Closed => Code::Closed,
            TryRecvManyError::Memory => Code::Memory,
        }
    }

    pub fn of_send_end<K>(fault: &SendFault<K>) -> Code
        ensures { result ≡ send_end fault.now }
    {
        match fault {
            SendFault::Closed(_) => Code::Closed,
            SendFault::Memory(_) => Code::Memory,
        }
    }

    pub fn of_recv_end(fault: RecvFault) -> Code
        ensures { result ≡ recv_end fault }
    {
        match fault {
            RecvFault::Closed(_) => Code::Closed,
            RecvFault::Memory => Code::Memory,
        }
    }

    pub fn of_found(is_there: bool) -> Code
        ensures { result ≡ found is_there }
    {
        if is_there { Code::Done } else { Code::Nothing }
    }
}

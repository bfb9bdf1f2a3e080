//! What a thread notes of its calls.

pub type Pair = (u64, u64);

/// How long a call waits.
#[derive(Clone, Copy, Debug, Drop, PartialEq, Eq)]
pub enum Way {
    AtOnce,
    InTime,
    Blocking,
}

#[derive(Clone, Copy, Debug, Drop, PartialEq, Eq)]
pub enum Call {
    Send(Way, Pair),
    SendEvicting(Pair),
    Sendv([Pair; 3]),
    Recv(Way),
    Len,
    IsEmpty,
    IsFull,
    IsClosed,
    Close,
}

/// Why a call has not done its work: there was no room, or no message; the channel is closed; or
/// memory was refused.
#[derive(Clone, Copy, Debug, Drop, PartialEq, Eq)]
pub enum Refusal {
    Blocked,
    Closed,
    Memory,
}

/// A pair that came back.
pub type Refused = (Refusal, Pair);

#[derive(Clone, Copy, Debug, Drop, PartialEq, Eq)]
pub enum Reply {
    Sent(Result<(), Refused>),
    /// What went for it.
    Displaced(Result<Option<Pair>, Refused>),
    /// What came back, in order.
    SentMany([Option<Refused>; 3]),
    Received(Result<Pair, Refusal>),
    Number(u64),
    Bool(bool),
}

/// A call, its reply, and a stamp from before it and one from after it.
#[derive(Clone, Copy, Debug, Drop, PartialEq, Eq)]
pub struct Noted {
    pub begin: u64,
    pub end: u64,
    pub call: Call,
    pub reply: Reply,
}

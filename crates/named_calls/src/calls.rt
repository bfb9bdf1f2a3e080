//! The calls by name, and what they are given.
ghost use Rattle.std.specs.Iterator.{at_most};

use std::time::Duration;

/// How a call waits.
#[derive(Clone, Copy, Debug, PartialEq)]
pub enum Way {
    Try,
    /// As a future that is polled once, and dropped.
    Poll,
    Future,
    Blocking,
    Timeout,
    Deadline,
}

#[derive(Clone, Copy, Debug, PartialEq)]
pub enum Side {
    Sender,
    Receiver,
}

impl Side {
    pub fn other(self) -> Side {
        match self {
            Side::Sender => Side::Receiver,
            Side::Receiver => Side::Sender,
        }
    }

    /// The call of that side which moves one message in this way.
    pub fn call(self, way: Way) -> Call {
        match self {
            Side::Sender => Call::Send(way),
            Side::Receiver => Call::Recv(way),
        }
    }
}

#[derive(Clone, Copy, Debug)]
pub enum Call {
    Send(Way),
    Sendv(Way),
    SendEvicting,
    /// A place is reserved, and then the message is sent into it.
    Reserve(Way),
    Recv(Way),
    RecvMany(Way),
    TryIter,
    Iter,
    IntoIter,
    /// A stream is asked for one message.
    Stream(Way),
    IntoStream(Way),
    /// A message is leased and finished.
    Lease(Way),
    LeaseIf,
    /// The most urgent message that is for it is leased and finished, also by a wait.
    LeaseWhere(Way),
    /// The first message is leased once it is due, and finished.
    LeaseWhen(Way),
    /// A loop of leases, which are finished.
    Leases,
    /// A message is leased and put back, with another priority or as the lease is dropped.
    PutBack,
    DropLease,
    TakeWhere(Side),
    Retain(Side),
    ChangePriority(Side),
    RecvIf,
    /// The most urgent message that is for it, also by a wait.
    RecvWhere(Way),
    /// The first message, once it is due.
    RecvWhen(Way),
    PeekWith,
    PeekPriority,
    /// A wait for the close.
    Closed(Side, Way),
    Look(Side),
    Clone(Side),
    /// By the clone of a weak handle, which also tells whether the channel is closed.
    Upgrade(Side),
    Close(Side),
    CloseOnDrop(Side),
    CloseWhenDone(Side),
    Drop(Side),
}

impl Call {
    /// Whose call it is.
    pub fn side(self) -> Side {
        match self {
            Call::Send(_) | Call::Sendv(_) | Call::SendEvicting | Call::Reserve(_) => Side::Sender,
            Call::TakeWhere(side)
            | Call::Retain(side)
            | Call::ChangePriority(side)
            | Call::Closed(side, _)
            | Call::Look(side)
            | Call::Clone(side)
            | Call::Upgrade(side)
            | Call::Close(side)
            | Call::CloseOnDrop(side)
            | Call::CloseWhenDone(side)
            | Call::Drop(side) => side,
            _receive => Side::Receiver,
        }
    }

    pub fn way(self) -> Way {
        match self {
            Call::Send(way)
            | Call::Sendv(way)
            | Call::Reserve(way)
            | Call::Recv(way)
            | Call::RecvMany(way)
            | Call::RecvWhere(way)
            | Call::RecvWhen(way)
            | Call::Stream(way)
            | Call::IntoStream(way)
            | Call::Lease(way)
            | Call::LeaseWhere(way)
            | Call::LeaseWhen(way)
            | Call::Closed(_, way) => way,
            Call::Iter | Call::IntoIter | Call::Leases => Way::Blocking,
            _at_once => Way::Try,
        }
    }

    /// Whether it is one that waits, with a limit or without.
    pub fn waits(self) -> bool {
        !matches!(self.way(), Way::Try | Way::Poll)
    }

    /// Whether it waits, with that input, where it finds the channel blocked.
    pub fn may_wait(self, input: Input) -> bool {
        match self.way() {
            Way::Try | Way::Poll => false,
            Way::Future | Way::Blocking => true,
            Way::Timeout | Way::Deadline => input.limit > Duration::ZERO,
        }
    }
}

/// Whether it waits for a message that meets a condition, and not for the first that comes.
pub fn is_choosy(call: Call) -> bool {
    match call {
        Call::RecvWhere(_) | Call::RecvWhen(_) => true,
        Call::LeaseWhere(_) | Call::LeaseWhen(_) => true,
        _ => false,
    }
}

/// Whether it takes the most urgent message that meets a condition, and not the first of all if
/// that one does.
pub fn picks(call: Call) -> bool {
    matches!(call, Call::RecvWhere(_) | Call::LeaseWhere(_))
}

/// Whether it waits for the close, and not for room or for a message.
pub fn is_for_close(call: Call) -> bool {
    matches!(call, Call::Closed(..))
}

pub type Pair = (u64, u64);

/// Numbered messages, each with the rest that its number leaves as its priority.
#[derive(Clone, Copy, Debug)]
pub struct Pairs {
    pub first: u64,
    pub count: u64,
    pub spread: u64,
}

impl Pairs {
    pub fn new(first: u64, count: u64, spread: u64) -> Self {
        Pairs {
            first,
            count,
            spread,
        }
    }
}

impl Iterator for Pairs {
    type Item = Pair;

    ghost remaining = { λ s. at_most s.count };

    fn next(&mut self) -> Option<Pair> {
        if self.count == 0 {
            return None;
        }
        self.count -= 1;
        let msg = self.first;
        self.first = msg.wrapping_add(1);
        Some((msg, msg.checked_rem(self.spread).unwrap_or(0)))
    }
}

/// What a call is given, as far as it takes it.
#[derive(Clone, Copy, Debug)]
pub struct Input {
    /// What a bulk send sends. A send of one sends the first, also where the count is 0.
    pub pairs: Pairs,
    /// How many a batch or a loop receives at most.
    pub most: usize,
    /// How long a call with a limit waits at most.
    pub limit: Duration,
    /// The message that `take_where` takes. `retain` lets go what leaves the same rest by 8,
    /// `try_recv_if` and `try_lease_if` take what leaves the same rest by 2, and `change_priority`
    /// gives the priority of the first pair that is sent to the first message of this kind. That is
    /// also the priority of what is put back. A receive or a lease that waits for a message with a
    /// condition waits for one that leaves the same rest by 2.
    pub chosen: u64,
}

impl Input {
    /// The list of the first pair.
    pub fn one(&self) -> Pairs {
        Pairs::new(self.pairs.first, 1, self.pairs.spread)
    }

    pub fn pair(&self) -> Pair {
        self.one().next().unwrap_or((0, 0))
    }

    /// Whether the message leaves the same rest by 2 as the chosen one.
    pub fn is_kind_of(&self, msg: u64) -> bool {
        msg % 2 == self.chosen % 2
    }
}

//! A thread's calls, drawn and made.
use super::notes::{Call, Pair, Refusal, Refused, Reply, Way};
use crate::tests::Host;
use crate::tests::witnessed::{Caller, Channel, send};
use priority_channel_calls::ends::Close;
use priority_channel_calls::looks::{IsClosed, IsEmpty, IsFull, Len};
use priority_channel_calls::receives::TryRecv;
use priority_channel_calls::sends::TrySendEvicting;
use priority_channel_core::errors::TrySendError;
use priority_channel_waiting::retry::Outcome;
use priority_channel_waiting::timeouts::Ended;
use priority_channel_waiting::until::{Deadline, Endless};
use priority_channel_witnessed::{Awaited, Recording, SendAll, Waiter};
use rand_core::{Rng, SeedableRng};
use rand_xoshiro::Xoshiro256PlusPlus;
use std::alloc::Allocator;
use std::time::Duration;

/// What a thread will call, the same each time.
#[derive(Drop)]
pub struct Mix {
    generator: Xoshiro256PlusPlus,
    who: u64,
    sent: u64,
}

impl Mix {
    pub fn new(who: u64) -> Self {
        Mix {
            generator: Xoshiro256PlusPlus::seed_from_u64(who),
            who,
            sent: 0,
        }
    }

    pub fn draw(&mut self) -> Call {
        match self.below(16) {
            0..4 => Call::Send(self.way(), self.pair()),
            4 => Call::SendEvicting(self.pair()),
            5..7 => Call::Sendv([self.pair(), self.pair(), self.pair()]),
            7 => Call::Len,
            8 => Call::IsEmpty,
            9 => Call::IsFull,
            10 => Call::IsClosed,
            _ => Call::Recv(self.way()),
        }
    }

    // Threads 0 and 1 come to their ends whatever the others do, so that 0 closes the channel, and
    // whoever blocks then ends too.
    fn way(&mut self) -> Way {
        match self.below(3) {
            0 => Way::AtOnce,
            1 if self.who >= 2 => Way::Blocking,
            _ => Way::InTime,
        }
    }

    // A message that no other is like, and a priority that no other thread has.
    fn pair(&mut self) -> Pair {
        self.sent = self.sent.wrapping_add(1);
        let msg = self.who.wrapping_mul(10_000).wrapping_add(self.sent);
        let class = self.below(3);
        (msg, class.wrapping_mul(4).wrapping_add(self.who))
    }

    fn below(&mut self, bound: u64) -> u64 {
        self.generator.next_u64().checked_rem(bound).unwrap_or(0)
    }
}

const LIMIT_MICROS: u64 = 200;

/// Makes a call on a channel.
pub fn make<J: Recording, A: Allocator + Copy, R: Host>(
    rt: &R,
    alloc: A,
    channel: &Channel<J, A>,
    pass: &mut Caller<J, A>,
    call: Call,
) -> Reply {
    match call {
        Call::Send(way, pair) => Reply::Sent(go(rt, channel, pass, way, send(pair.0, pair.1))),
        Call::SendEvicting((msg, priority)) => {
            let sent = channel.make(rt, pass, TrySendEvicting { msg, priority });
            Reply::Displaced(sent.map_err(refused))
        }
        Call::Sendv(pairs) => Reply::SentMany(send_many(rt, alloc, channel, pass, pairs)),
        Call::Recv(way) => {
            let received = go(rt, channel, pass, way, TryRecv);
            Reply::Received(received.map_err(|(why, ())| why))
        }
        Call::Len => Reply::Number(channel.make(rt, pass, Len)),
        Call::IsEmpty => Reply::Bool(channel.make(rt, pass, IsEmpty)),
        Call::IsFull => Reply::Bool(channel.make(rt, pass, IsFull)),
        Call::IsClosed => Reply::Bool(channel.make(rt, pass, IsClosed)),
        Call::Close => Reply::Bool(channel.make(rt, pass, Close)),
    }
}

// Makes a call so, and tells what is left of it if it was not done.
fn go<C, J: Recording, A: Allocator + Copy, R: Host>(
    rt: &R,
    channel: &Channel<J, A>,
    pass: &mut Caller<J, A>,
    way: Way,
    call: C,
) -> Result<C::Done, (Refusal, C::Left)>
where
    C: Awaited<u64, u64, Waiter<A>, A>,
    requires { C.can_make call }
{
    match way {
        Way::AtOnce => match C::outcome(channel.make(rt, pass, call)) {
            Outcome::Done(done) => Ok(done),
            Outcome::Blocked(left) => Err((Refusal::Blocked, left)),
            Outcome::Closed(left) => Err((Refusal::Closed, left)),
            Outcome::Memory(left) => Err((Refusal::Memory, left)),
        },
        Way::InTime => {
            let until = Deadline::after(rt, Duration::from_micros(LIMIT_MICROS));
            end_of(channel.wait(rt, pass, call, &until))
        }
        Way::Blocking => end_of(channel.wait(rt, pass, call, &Endless)),
    }
}

/// How a wait has ended.
pub fn end_of<D, L, O: Drop>(ended: Result<D, Ended<L, O>>) -> Result<D, (Refusal, L)> {
    match ended {
        Ok(done) => Ok(done),
        Err(Ended::Over(left, _)) => Err((Refusal::Blocked, left)),
        Err(Ended::Closed(left)) => Err((Refusal::Closed, left)),
        Err(Ended::Memory(left)) => Err((Refusal::Memory, left)),
    }
}

pub fn refused(error: TrySendError<Pair>) -> Refused {
    match error {
        TrySendError::Full(pair) => (Refusal::Blocked, pair),
        TrySendError::Closed(pair) => (Refusal::Closed, pair),
        TrySendError::Memory(pair) => (Refusal::Memory, pair),
    }
}

// Where there is no memory for the vector, no call is made, and a reply noted that is none.
fn send_many<J: Recording, A: Allocator + Copy, R: Host>(
    rt: &R,
    alloc: A,
    channel: &Channel<J, A>,
    pass: &mut Caller<J, A>,
    pairs: [Pair; 3],
) -> [Option<Refused>; 3] {
    let Ok(vector) = Vec::from_array(alloc, pairs) else {
        return pairs.map(|pair| Some((Refusal::Memory, pair)));
    };
    let msgs = vector.into_iter().peekable();
    let Err(error) = channel.make(rt, pass, SendAll { msgs }) else {
        return [None; 3];
    };
    let why = if error.is_full() {
        Refusal::Blocked
    } else if error.is_closed() {
        Refusal::Closed
    } else {
        Refusal::Memory
    };
    let mut rest = error.into_inner().map(|pair| (why, pair));
    [rest.next(), rest.next(), rest.next()]
}

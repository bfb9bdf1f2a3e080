//! A call that waits as the first of its side, or behind another one.
use super::either::{Answer, Either, done, is_bulk, long};
use super::watch::beside;
use super::{Host, Threaded};
use named_calls::{Call, Way, is_for_close};
use refusing::watch::let_others_wait;
use std::alloc::Allocator;
use std::fmt::Debug;

/// Where a call waits.
#[derive(Clone, Copy, Debug)]
pub enum Place {
    First,
    /// Behind a blocking call, which reads no clock.
    Second,
}

pub const PLACES: [Place; 2] = [Place::First, Place::Second];

impl Place {
    /// Whether the call can wait there. A bulk send leaves no other send blocked, and waits for the
    /// close are in no queue.
    pub fn is_for(self, call: Call) -> bool {
        match self {
            Place::First => true,
            Place::Second => !is_bulk(call) && !is_for_close(call),
        }
    }

    /// How often the call that waits before asks for memory: for its waiter, and for its entry.
    pub fn requests_before(self) -> u64 {
        match self {
            Place::First => 0,
            Place::Second => 2,
        }
    }
}

/// The call that waits before one at the second place.
pub fn before(call: Call) -> Call {
    call.side().call(Way::Blocking)
}

/// Does this once the call before that place waits, which is helped then if it still waits. Tells
/// what the call before was told, if there was one.
pub fn at<H, N, R, A, B, F>(
    host: &H,
    what: N,
    place: Place,
    made: (&R, A, Call),
    ends: (&Either<R, A>, &Either<R, A>),
    then: F,
) -> (Answer, B)
where
    H: Threaded,
    N: Debug + Drop + Send,
    R: Host + Sync,
    A: Allocator + Copy + Send + Sync,
    F: FnOnce() -> B,
    requires { F.pre then }
{
    let (blocked, other) = ends;
    beside(
        host,
        what,
        move || wait_before(place, made, blocked),
        move ||
            requires { F.pre then }
        {
            let_others_wait(host);
            let came = then();
            other.help();
            came
        },
    )
}

fn wait_before<R: Host, A: Allocator + Copy>(
    place: Place,
    made: (&R, A, Call),
    blocked: &Either<R, A>,
) -> Answer {
    let (rt, alloc, call) = made;
    match place {
        Place::First => done(before(call)),
        Place::Second => blocked.make(rt, alloc, before(call), long()),
    }
}

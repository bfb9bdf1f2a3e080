//! Each request for memory is refused in turn: what was accepted comes out, what was not comes
//! back, and the channel goes on.
use super::{Mirrored, input, watch_rounds};
use crate::tests::model::Model;
use crate::tests::{Host, Memory, expect_equal_at, expect_true};
use async_priority_channel::{End, Ends, Role, bounded, bounded_reserved, unbounded};
use named_calls::{ALL, Call, Input, Outcome, Reply, Side, Way};
use refusing::Refusing;
use refusing::watch::Watch;
use std::alloc::{AllocError, Allocator, Global};
use std::sync::Wait;

const CAPACITY: u64 = 40;

// No call here makes as many requests.
const MOST: u64 = 100;

// How many are pending before the call.
const PENDING: [u64; 3] = [0, 3, CAPACITY];

// Whether the call takes no memory of a reserved channel.
fn takes_none(call: Call, is_blocked: bool) -> bool {
    match call {
        Call::RecvMany(_) | Call::Retain(_) => false,
        _ => call.way() != Way::Poll || !is_blocked,
    }
}

// How many are pending, whether the channel is closed, the call, and which request is refused.
type Round = (u64, bool, Call, u64);

// What a call leaves and answers that was refused memory. A bulk send may have sent a front.
fn expect_refused<R: Host>(rt: &R, model: &mut Model, round: Round, reply: Reply, of_call: Input) {
    let pairs = match round.2 {
        Call::Send(_) | Call::SendEvicting | Call::Reserve(_) => of_call.one(),
        Call::Sendv(_) => of_call.pairs,
        _ => input(0, 0, 0).pairs,
    };
    let unsent = reply.pairs.len() as u64;
    let sent = pairs.count.saturating_sub(unsent);
    let front = input(pairs.first, sent, 0);
    if sent > 0 {
        let accepted = model.answer(rt, Call::Sendv(Way::Try), front);
        expect_equal_at(rt, round, accepted.outcome, Outcome::Done);
    }
    let rest = input(
        pairs.first.wrapping_add(sent),
        pairs.count.saturating_sub(sent),
        0,
    );
    let wanted = Reply::with(rt, Outcome::Memory, rest.pairs);
    expect_equal_at(rt, round, reply, wanted);
}

// Tells whether the request of that number never came.
fn refuse<R: Host, A: Allocator + Copy>(
    rt: &R,
    (memory, alloc): Memory<'_, A>,
    ends: Ends<u64, u64, R, A>,
    round: Round,
) -> bool {
    let (pending, is_closed, call, n) = round;
    let of_call = input(50, 30, 30);
    let mut mirrored = Mirrored::new(rt, alloc, ends, CAPACITY, (1, 1));
    if pending > 0 {
        let filling = input(1, pending, 0);
        mirrored.agree(rt, round, Call::Sendv(Way::Try), filling);
    }
    if is_closed {
        mirrored.agree(rt, round, Call::Close(Side::Receiver), of_call);
    }
    if mirrored.model.waits(call, of_call) {
        return true;
    }
    memory.refuse_nth(n);
    let reply = mirrored.handles.make(rt, call, of_call);
    let met_none = memory.refuse_none();
    if reply.outcome == Outcome::Memory {
        expect_equal_at(rt, round, met_none, false);
        expect_refused(rt, &mut mirrored.model, round, reply, of_call);
    } else {
        mirrored.expect(rt, round, (call, of_call), reply);
    }
    // It goes on, and what is pending is there.
    let later = input(90, 3, 99);
    for next in [
        Call::Look(Side::Receiver),
        call,
        Call::Recv(Way::Try),
        Call::TryIter,
    ] {
        if !mirrored.model.waits(next, later) {
            mirrored.agree(rt, round, next, later);
        }
    }
    met_none
}

#[test]
fn no_call_loses_what_is_refused_memory(rt: HostRuntime) {
    let memory = Refusing::new(rt.alloc());
    let watch = Watch::brief(None);
    watch_rounds(&rt, &watch, || {
        for pending in PENDING {
            for call in ALL {
                for n in 1..MOST {
                    let ends = bounded(&rt, &memory, CAPACITY).expect(&rt, "a channel");
                    let round = (pending, false, call, n);
                    watch.begin(&rt, Some(round));
                    if refuse(&rt, (&memory, &memory), ends, round) {
                        break;
                    }
                    expect_equal_at(&rt, call, n < MOST - 1, true);
                }
            }
        }
    });
}

// Whether a future finds nothing that it could do at once.
fn is_blocked(call: Call, pending: u64, is_closed: bool) -> bool {
    match call {
        _ if is_closed => false,
        Call::Closed(..) => true,
        Call::Send(_) | Call::Sendv(_) | Call::Reserve(_) => pending == CAPACITY,
        _ => pending == 0,
    }
}

// Without a request nothing is refused, so the first round is the last.
#[test]
fn a_reserved_channel_takes_memory_for_waiting_alone(rt: HostRuntime) {
    let memory = Refusing::new(rt.alloc());
    let watch = Watch::brief(None);
    watch_rounds(&rt, &watch, || {
        for pending in PENDING {
            for is_closed in [false, true] {
                for call in ALL {
                    if takes_none(call, is_blocked(call, pending, is_closed)) {
                        let ends = bounded_reserved(&rt, &memory, CAPACITY).expect(
                            &rt,
                            "a channel",
                        );
                        let round = (pending, is_closed, call, 1);
                        watch.begin(&rt, Some(round));
                        let met_none = refuse(&rt, (&memory, &memory), ends, round);
                        expect_equal_at(&rt, round, met_none, true);
                    }
                }
            }
        }
    });
}

fn refuse_constructors<R: Host, A: Allocator + Copy>(rt: &R, (memory, alloc): Memory<'_, A>) {
    memory.refuse_all();
    let bounded_made = bounded::<u64, u64, _, _>(rt, alloc, 1).is_ok();
    let unbounded_made = unbounded::<u64, u64, _, _>(rt, alloc).is_ok();
    let made = (bounded_made, unbounded_made);
    expect_equal_at(rt, "made", made, (false, false));
    for n in 1..=3u64 {
        memory.refuse_nth(n);
        let made = bounded_reserved::<u64, u64, _, _>(rt, alloc, 1);
        expect_equal_at(rt, n, made.is_err(), true);
    }
}

#[test]
fn a_constructor_may_be_refused(rt: HostRuntime) {
    let memory = Refusing::new(rt.alloc());
    refuse_constructors(&rt, (&memory, &memory));
}

/// A permission to wait that takes memory, so that each handle asks for some.
#[derive(Drop)]
struct Asking<'a, R> {
    rt: R,
    alloc: &'a Refusing<Global>,
}

impl<R: Wait> Wait for Asking<'_, R> {}

impl<'a, R: Clone> Clone for Asking<'a, R> {
    fn clone(&self) -> Result<Asking<'a, R>, AllocError> {
        drop(Box::new(self.alloc, 0u64)?);
        let (rt, alloc) = (self.rt.clone()?, self.alloc);
        Ok(Asking { rt, alloc })
    }
}

// No handle is made, and none is counted.
fn refuse_handles<S: Role, R: Wait + Clone, A: Allocator + Copy>(
    rt: &impl Host,
    memory: &Refusing<Global>,
    end: &End<S, u64, u64, R, A>,
) {
    let weak = end.downgrade().expect(rt, "a weak handle");
    memory.refuse_all();
    let are_strong_made = (end.clone().is_ok(), weak.upgrade().is_some());
    let are_weak_made = (end.downgrade().is_ok(), weak.clone().is_ok());
    memory.refuse_none();
    let counts = (end.sender_count(), end.receiver_count());
    let got = (are_strong_made, are_weak_made, counts);
    expect_equal_at(rt, "handles", got, ((false, false), (false, false), (1, 1)));
}

fn refuse_handles_of_both<R: Wait + Clone, A: Allocator + Copy>(
    rt: &impl Host,
    permission: &R,
    (memory, alloc): Memory<'_, A>,
) {
    let (tx, rx) = bounded::<u64, u64, _, _>(permission, alloc, 2).expect(rt, "a channel");
    refuse_handles(rt, memory, &tx);
    refuse_handles(rt, memory, &rx);
    drop(tx);
    expect_true(rt, rx.is_closed(), "the last sender is gone");
}

#[test]
fn a_refused_handle_is_not_counted(rt: HostRuntime) {
    let memory = Refusing::new(rt.alloc());
    let permission = Asking {
        rt: &rt,
        alloc: &memory,
    };
    refuse_handles_of_both(&rt, &permission, (&memory, &memory));
}

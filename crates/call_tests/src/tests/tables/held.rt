//! Places that are held: each call beside those that others hold, what comes of them afterwards,
//! and whom that wakes.
use super::{Mirrored, input, watch_rounds};
use crate::tests::{Host, expect_equal_at, expect_true, make_all, new_task};
use async_priority_channel::{Permit, Receiver, RecvError, RecvFault, Sender, bounded};
use futures::Future;
use named_calls::{ALL, Call, Pair, Side, Way, is_choosy, is_pending, ready};
use refusing::watch::Watch;

const CAPACITY: u64 = 3;

/// What a call finds, and what comes after it.
#[derive(Clone, Copy, Debug)]
struct Round {
    held: u64,
    pending: u64,
    before: Option<Call>,
    call: Call,
    /// Made before the permits are sent or dropped.
    after: Option<Call>,
    /// The message that the call takes where it takes one of its choice.
    chosen: u64,
}

// What was called before: nothing, what closes the channel, or what is to close it later.
const BEFORE: [Option<Call>; 4] = [
    None,
    Some(Call::Close(Side::Receiver)),
    Some(Call::CloseOnDrop(Side::Receiver)),
    Some(Call::CloseWhenDone(Side::Sender)),
];

const AFTER: [Option<Call>; 2] = [None, Some(Call::Drop(Side::Receiver))];

fn chooses(call: Call) -> bool {
    match call {
        Call::TakeWhere(_) | Call::Retain(_) | Call::ChangePriority(_) => true,
        Call::RecvIf | Call::LeaseIf => true,
        _ => is_choosy(call),
    }
}

fn hold<'a, R: Host>(
    rt: &R,
    tx: &'a Sender<u64, u64, R>,
    count: u64,
) -> Vec<Permit<'a, u64, u64, R>> {
    make_all(rt, count, || tx.try_reserve().expect(rt, "there is room"))
}

fn play<R: Host>(rt: &R, round: Round) {
    let (tx, rx) = bounded(rt, rt.alloc(), CAPACITY).expect(rt, "a channel");
    let other = tx.clone().expect(rt, "a sender");
    let mut mirrored = Mirrored::new(rt, rt.alloc(), (tx, rx), CAPACITY, (2, 1));
    let permits = hold(rt, &other, round.held);
    for _ in 0..round.held {
        mirrored.model.hold();
    }
    let mut of_call = input(50, 2, 2);
    of_call.chosen = round.chosen;
    // One more, so that a sender is left for looks.
    mirrored.agree(rt, round, Call::Clone(Side::Sender), of_call);
    mirrored.agree(rt, round, Call::Sendv(Way::Try), input(1, round.pending, 0));
    for call in [round.before, Some(round.call), round.after] {
        let Some(call) = call else { continue };
        if !mirrored.model.waits(call, of_call) {
            mirrored.agree(rt, round, call, of_call);
            mirrored.agree(rt, round, Call::Look(Side::Sender), of_call);
        }
    }
    // The first is dropped, and the others are sent.
    for (number, permit) in permits.into_iter().enumerate() {
        if number == 0 {
            drop(permit);
            mirrored.model.free();
        } else {
            permit.send(70, 1);
            mirrored.model.fill(rt, (70, 1));
        }
        mirrored.agree(rt, round, Call::Look(Side::Sender), of_call);
        expect_equal_at(rt, round, other.held(), mirrored.model.held());
    }
    for call in [Call::Recv(Way::Try), Call::Lease(Way::Try), Call::TryIter] {
        mirrored.agree(rt, round, call, input(0, 0, 9));
    }
}

// The first message is pending wherever something is.
fn play_choices<R: Host>(rt: &R, watch: &Watch<Option<Round>>, round: Round) {
    for chosen in [1, 2] {
        if chosen == round.chosen || chooses(round.call) {
            let mut round = round;
            round.chosen = chosen;
            watch.begin(rt, Some(round));
            play(rt, round);
        }
    }
}

#[test]
fn each_call_answers_as_the_model_beside_held_places(rt: HostRuntime) {
    let watch = Watch::brief(None);
    watch_rounds(&rt, &watch, || {
        for held in 0..=CAPACITY {
            for pending in 0..=CAPACITY.saturating_sub(held) {
                for before in BEFORE {
                    for call in ALL {
                        for after in AFTER {
                            let round = Round {
                                held,
                                pending,
                                before,
                                call,
                                after,
                                chosen: 2,
                            };
                            play_choices(&rt, &watch, round);
                        }
                    }
                }
            }
        }
    });
}

/// What the channel was told while the place was held.
#[derive(Clone, Copy, Debug, PartialEq)]
enum Told {
    Nothing,
    Close,
    CloseWhenDone,
}

// By a permit or by a lease, what was told, and whether the place is filled, or becomes free.
type Case = (bool, Told, bool);

// Ends the hold of the only place, while tasks wait for room, for a message and for the close.
fn end_hold<R: Host, F: FnOnce()>(
    rt: &R,
    ends: (&Sender<u64, u64, R>, &Receiver<u64, u64, R>),
    case: Case,
    end: F,
)
    requires { F.pre end }
{
    let (tx, rx) = ends;
    match case.1 {
        Told::Nothing => {}
        Told::Close => expect_true(rt, tx.close(), "it was open"),
        Told::CloseWhenDone => tx.close_when_done(),
    }
    end_beside_tasks(rt, (tx.send(9, 9), rx.recv(), rx.closed()), case, end);
}

// The future of the task that waits for a message is polled again then.
fn end_beside_tasks<R: Host, S, V, C, F>(rt: &R, futures: (S, V, C), case: Case, end: F)
where
    S: Future<Output: Drop>,
    V: Future<Output = Result<Pair, RecvFault>>,
    C: Future<Output: Drop>,
    F: FnOnce(),
    requires { S.can_poll futures.0 × V.can_poll futures.1 × C.can_poll futures.2 × F.pre end }
{
    let (mut sending, mut receiving, mut watching) = futures;
    let (sender, receiver, watcher) = (new_task(rt), new_task(rt), new_task(rt));
    let is_sending = is_pending(&sender, &mut sending);
    let is_receiving = is_pending(&receiver, &mut receiving);
    let is_watching = is_pending(&watcher, &mut watching);
    let waits = (is_sending, is_receiving, is_watching);
    expect_equal_at(rt, case, waits, wanted_to_wait(case));
    end();
    let got = (sender.is_woken(), receiver.is_woken(), watcher.is_woken());
    expect_equal_at(rt, case, got, wanted_to_wake(case));
    if is_receiving {
        let received = ready(receiver.poll(&mut receiving));
        expect_equal_at(rt, case, received, wanted_then(case));
    }
}

// Of the tasks for room, for a message and for the close.
fn wanted_to_wait((_, told, _): Case) -> (bool, bool, bool) {
    let is_open = told != Told::Close;
    (is_open, true, is_open)
}

fn wanted_to_wake((_, told, is_filled): Case) -> (bool, bool, bool) {
    let is_open = told != Told::Close;
    let is_over = !is_filled && told != Told::Nothing;
    (
        is_open && !is_filled,
        is_filled || is_over,
        is_open && is_over,
    )
}

fn wanted_then((_, told, is_filled): Case) -> Option<Result<Pair, RecvFault>> {
    match told {
        _ if is_filled => Some(Ok((7, 7))),
        Told::Nothing => None,
        _closed => Some(Err(RecvFault::Closed(RecvError))),
    }
}

fn end_permit<R: Host>(rt: &R, case: Case) {
    let (tx, rx) = bounded(rt, rt.alloc(), 1).expect(rt, "a channel");
    let permit = tx.try_reserve().expect(rt, "there is room");
    let is_filled = case.2;
    end_hold(rt, (&tx, &rx), case, move || {
        if is_filled {
            permit.send(7, 7);
        } else {
            drop(permit);
        }
    });
}

fn end_lease<R: Host>(rt: &R, case: Case) {
    let (tx, rx) = bounded(rt, rt.alloc(), 1).expect(rt, "a channel");
    expect_true(rt, tx.try_send(7, 7).is_ok(), "there is room");
    let lease = rx.try_lease().expect(rt, "a message is pending");
    let is_filled = case.2;
    end_hold(rt, (&tx, &rx), case, move || {
        if is_filled {
            drop(lease);
        } else {
            lease.finish();
        }
    });
}

#[test]
fn the_end_of_a_hold_wakes_those_that_it_lets_go_on(rt: HostRuntime) {
    for told in [Told::Nothing, Told::Close, Told::CloseWhenDone] {
        for is_filled in [false, true] {
            end_permit(&rt, (false, told, is_filled));
            end_lease(&rt, (true, told, is_filled));
        }
    }
}

//! What each call does to a task that waits: whether it wakes it, and that it waits on otherwise.
use super::{Mirrored, input, watch_rounds};
use crate::tests::{Host, expect_equal_at, expect_true, new_task};
use async_priority_channel::{End, Receiver, Role, Sender, bounded};
use futures::test::MockTask;
use futures::{Future, StreamExt};
use named_calls::either::tell_closed;
use named_calls::receiving::{finish, tell_many as tell_batch, tell_next, tell_one};
use named_calls::sending::{fill, tell_many, tell_one as tell_sent};
use named_calls::{
    ALL, Call, Input, Reply, Side, Way, is_for_close, is_pending, ready, receive, rest,
};
use refusing::watch::Watch;

const CAPACITY: u64 = 3;

/// What became of the task before the call.
#[derive(Clone, Copy, Debug)]
enum Situation {
    Waiting,
    /// A message came or was taken, and it was not polled since.
    Moved,
    /// The channel was closed.
    Ended,
}

const SITUATIONS: [Situation; 3] = [Situation::Waiting, Situation::Moved, Situation::Ended];

// What waits: a receive at an empty channel, or a send at a full one.
const WAITING: [Call; 11] = [
    Call::Recv(Way::Poll),
    Call::Lease(Way::Poll),
    Call::RecvWhere(Way::Poll),
    Call::LeaseWhere(Way::Poll),
    Call::RecvMany(Way::Poll),
    Call::Stream(Way::Poll),
    Call::Closed(Side::Receiver, Way::Poll),
    Call::Send(Way::Poll),
    Call::Sendv(Way::Poll),
    Call::Reserve(Way::Poll),
    Call::Closed(Side::Sender, Way::Poll),
];

// What waits and how, and the call with its input.
type Round = (Situation, Call, Call, Input);

// How many messages have moved so that what waits may go on.
fn moved<R: Host>(mirrored: &Mirrored<R>, waiting: Call) -> u64 {
    match waiting {
        Call::Closed(..) => 0,
        Call::Send(_) | Call::Sendv(_) | Call::Reserve(_) => mirrored.model.taken,
        _receive => mirrored.model.accepted,
    }
}

// One, more than there is room for, and none: the last with the least priority. With the second the
// message of greatest priority is chosen.
fn inputs() -> [Input; 3] {
    let mut many = input(10, 5, 5);
    many.chosen = 3;
    [input(10, 1, 1), many, input(0, 0, 0)]
}

// What is given to a call of the other side.
fn given() -> Input {
    input(20, 1, 1)
}

fn expect_woken<R: Host>(rt: &R, task: &MockTask, round: Round, wanted: bool) {
    expect_equal_at(rt, (round, "it is woken"), task.is_woken(), wanted);
}

// Makes the call beside a future that waits, in its situation. Tells what the future answers then,
// if anything; or nothing at all where the call would wait too.
fn poll_beside<R: Host, F: Future<Output: Drop>>(
    rt: &R,
    mirrored: &mut Mirrored<R>,
    round: Round,
    future: F,
) -> Option<Option<F::Output>>
    requires { F.can_poll future }
{
    let mut future = future;
    let task = new_task(rt);
    let is_waiting = is_pending(&task, &mut future);
    expect_true(rt, is_waiting, "it waits");
    if is_waiting && make_beside(rt, mirrored, round, &task) {
        Some(ready(task.poll(&mut future)))
    } else {
        None
    }
}

// Tells whether the call could be made.
fn make_beside<R: Host>(rt: &R, mirrored: &mut Mirrored<R>, round: Round, task: &MockTask) -> bool {
    let (_, waiting, call, of_call) = round;
    let has_come = bring_about(rt, mirrored, round);
    expect_woken(rt, task, round, has_come);
    rest(task);
    if mirrored.model.waits(call, of_call) {
        return false;
    }
    let before = moved(mirrored, waiting);
    mirrored.agree(rt, round, call, of_call);
    mirrored.agree(rt, round, Call::Look(waiting.side().other()), of_call);
    let comes = mirrored.model.is_closed || moved(mirrored, waiting) > before;
    expect_woken(rt, task, round, comes && !has_come);
    if !comes && !has_come {
        // It waits on, for what comes later.
        mirrored.agree(rt, round, brings(waiting), given());
        expect_woken(rt, task, round, true);
    }
    true
}

// Tells whether what the task waits for has come in this situation.
fn bring_about<R: Host>(rt: &R, mirrored: &mut Mirrored<R>, round: Round) -> bool {
    let (situation, waiting, ..) = round;
    let side = waiting.side().other();
    match situation {
        Situation::Waiting => false,
        Situation::Moved => {
            mirrored.agree(rt, round, side.call(Way::Try), given());
            !is_for_close(waiting)
        }
        Situation::Ended => {
            mirrored.agree(rt, round, Call::Close(side), given());
            true
        }
    }
}

// The call of the other side that ends the wait.
fn brings(waiting: Call) -> Call {
    let side = waiting.side().other();
    if is_for_close(waiting) {
        Call::Close(side)
    } else {
        side.call(Way::Try)
    }
}

// The future has to answer as the model does, which leaves what is pending then.
fn wake_receiver<R: Host>(rt: &R, round: Round) {
    let (tx, rx) = bounded(rt, rt.alloc(), CAPACITY).expect(rt, "a channel");
    let other = rx.clone().expect(rt, "a receiver");
    let mut mirrored = Mirrored::new(rt, rt.alloc(), (tx, other), CAPACITY, (1, 2));
    if let Some(reply) = poll_receiver(rt, &mut mirrored, round, &rx) {
        mirrored.expect(rt, round, (round.1, input(0, 0, 2)), reply);
        let all = input(0, 0, 9);
        let told = receive(rt, rt.alloc(), &rx, Call::TryIter, all);
        mirrored.expect(rt, round, (Call::TryIter, all), told);
    }
}

fn poll_receiver<R: Host>(
    rt: &R,
    mirrored: &mut Mirrored<R>,
    round: Round,
    rx: &Receiver<u64, u64, R>,
) -> Option<Reply> {
    match round.1 {
        Call::Recv(_) => {
            let answer = poll_beside(rt, mirrored, round, rx.recv())?;
            Some(tell_one(rt, answer))
        }
        Call::Lease(_) => {
            let answer = poll_beside(rt, mirrored, round, rx.lease())?;
            Some(finish(rt, rx, answer))
        }
        Call::RecvWhere(_) => {
            let future = rx.recv_where(|msg, _| *msg % 2 == 0);
            let answer = poll_beside(rt, mirrored, round, future)?;
            Some(tell_one(rt, answer))
        }
        Call::LeaseWhere(_) => {
            let future = rx.lease_where(|msg, _| *msg % 2 == 0);
            let answer = poll_beside(rt, mirrored, round, future)?;
            Some(finish(rt, rx, answer))
        }
        Call::RecvMany(_) => {
            let mut batch = Vec::new(rt.alloc());
            let answer = poll_beside(rt, mirrored, round, rx.recv_many(&mut batch, 2))?;
            Some(tell_batch(rt, answer, &batch))
        }
        Call::Stream(_) => {
            let answer = poll_beside(rt, mirrored, round, rx.stream().next())?;
            Some(tell_next(rt, answer))
        }
        _closed => poll_closed(rt, mirrored, round, rx),
    }
}

fn poll_closed<S: Role, R: Host>(
    rt: &R,
    mirrored: &mut Mirrored<R>,
    round: Round,
    end: &End<S, u64, u64, R>,
) -> Option<Reply> {
    let answer = poll_beside(rt, mirrored, round, end.closed())?;
    Some(Reply::new(rt, tell_closed(answer)))
}

// What the bulk send of a task sends, and the first of it the send of one.
fn sent() -> Input {
    input(7, 2, 0)
}

// The 1, 2 and 3 are pending.
fn wake_sender<R: Host>(rt: &R, round: Round) {
    let (tx, rx) = bounded(rt, rt.alloc(), CAPACITY).expect(rt, "a channel");
    let other = tx.clone().expect(rt, "a sender");
    let mut mirrored = Mirrored::new(rt, rt.alloc(), (other, rx), CAPACITY, (2, 1));
    mirrored.agree(rt, round, Call::Sendv(Way::Try), input(1, 3, 0));
    if let Some(reply) = poll_sender(rt, &mut mirrored, round, &tx) {
        mirrored.expect(rt, round, (round.1, sent()), reply);
        mirrored.agree(rt, round, Call::TryIter, input(0, 0, 9));
    }
}

fn poll_sender<R: Host>(
    rt: &R,
    mirrored: &mut Mirrored<R>,
    round: Round,
    tx: &Sender<u64, u64, R>,
) -> Option<Reply> {
    match round.1 {
        Call::Send(_) => {
            let answer = poll_beside(rt, mirrored, round, tx.send(7, 7))?;
            Some(tell_sent(rt, answer))
        }
        Call::Reserve(_) => {
            let answer = poll_beside(rt, mirrored, round, tx.reserve())?;
            Some(fill(rt, tx, answer, sent()))
        }
        Call::Sendv(_) => {
            let bulk = tx.sendv(sent().pairs.peekable());
            let answer = poll_beside(rt, mirrored, round, bulk)?;
            Some(tell_many(rt, answer))
        }
        _closed => poll_closed(rt, mirrored, round, tx),
    }
}

#[test]
fn a_task_is_woken_by_what_it_waits_for(rt: HostRuntime) {
    let watch = Watch::brief(None);
    watch_rounds(&rt, &watch, || {
        for situation in SITUATIONS {
            for waiting in WAITING {
                for call in ALL {
                    for input in inputs() {
                        let round = (situation, waiting, call, input);
                        watch.begin(&rt, Some(round));
                        match waiting.side() {
                            Side::Sender => wake_sender(&rt, round),
                            Side::Receiver => wake_receiver(&rt, round),
                        }
                    }
                }
            }
        }
    });
}

//! The calls that both kinds of handles have.
use crate::Runtime;
use crate::calls::{Call, Input};
use crate::reply::{Looks, Outcome, Reply, weighed};
use crate::timed::Timed;
use async_priority_channel::{End, Role};
use futures::Future;
use futures::executor::block_on;
use futures::future::poll_immediate;
use std::alloc::{AllocError, Allocator};
use std::sync::Wait;

/// Makes a call that is the same by either handle.
pub(crate) fn make_by_either<S: Role, R: Runtime, A: Allocator + Copy>(
    rt: &R,
    end: &End<S, u64, u64, R, A>,
    call: Call,
    timed: Timed,
    input: Input,
) -> Reply {
    match call {
        Call::TakeWhere(_) => {
            let taken = end.take_where(|msg, _| *msg == input.chosen);
            Reply::found(rt, taken, Outcome::Empty)
        }
        Call::Retain(_) => retain(rt, end, input),
        // The reply has the old one.
        Call::ChangePriority(_) => {
            let (_, priority) = input.pair();
            let was = end.change_priority(|msg, _| input.is_kind_of(*msg), priority);
            Reply::found(rt, was.map(|was| (0, was)), Outcome::Empty)
        }
        Call::Closed(..) => Reply::new(rt, wait_closed(rt, end, timed)),
        Call::Look(_) => Reply::new(rt, Outcome::Looks(look(end))),
        _closes => Reply::new(rt, close(end, call)),
    }
}

// What is taken out is sorted, since its order is not said.
fn retain<S: Role, R: Runtime, A: Allocator + Copy>(
    rt: &R,
    end: &End<S, u64, u64, R, A>,
    input: Input,
) -> Reply {
    match end.retain(|msg, _| *msg % 8 != input.chosen % 8) {
        Ok(taken) => {
            let mut reply = Reply::with(rt, Outcome::Done, taken.iter().copied());
            if reply.pairs.sort().is_err() {
                reply.outcome = Outcome::Broken;
            }
            reply
        }
        Err(AllocError) => Reply::new(rt, Outcome::Memory),
    }
}

fn look<S: Role, R: Runtime, A: Allocator + Copy>(end: &End<S, u64, u64, R, A>) -> Looks {
    Looks {
        len: end.len(),
        is_empty: end.is_empty(),
        is_full: end.is_full(),
        is_closed: end.is_closed(),
        held: end.held(),
        capacity: end.capacity(),
        sender_count: end.sender_count(),
        receiver_count: end.receiver_count(),
        odd: end.count_where(|msg, _| *msg % 2 == 1),
        sum: end.fold_pending(0, |sum, msg, priority| weighed(sum, *msg, *priority)),
        is_of_itself: end.same_channel(end),
    }
}

fn close<S: Role, R: Wait + Clone, A: Allocator + Copy>(
    end: &End<S, u64, u64, R, A>,
    call: Call,
) -> Outcome {
    match call {
        Call::Close(_) => return Outcome::Was(end.close()),
        Call::CloseOnDrop(_) => drop(end.close_on_drop()),
        Call::CloseWhenDone(_) => end.close_when_done(),
        _no_call => return Outcome::Impossible,
    }
    Outcome::Done
}

/// What a future answers, or None where it is polled once and is pending; or where no executor can
/// be made, which shows at each future that is not pending.
pub(crate) fn answer_of<R: Runtime, F: Future>(rt: &R, timed: Timed, future: F) -> Option<F::Output>
    requires { F.can_poll future }
{
    let answer = match timed {
        Timed::Poll => block_on(rt, poll_immediate(future)),
        _to_its_end => block_on(rt, future).map(|answer| Some(answer)),
    };
    match answer {
        Ok(answer) => answer,
        Err(_) => None,
    }
}

fn wait_closed<S: Role, R: Runtime, A: Allocator + Copy>(
    rt: &R,
    end: &End<S, u64, u64, R, A>,
    timed: Timed,
) -> Outcome {
    match timed {
        Timed::Try => Outcome::Impossible,
        Timed::Poll | Timed::Future => tell_closed(answer_of(rt, timed, end.closed())),
        Timed::Blocking => tell_closed(Some(end.closed_blocking())),
        Timed::Timeout(limit) => tell(end.closed_timeout(limit)),
        Timed::Deadline(deadline) => tell(end.closed_deadline(deadline)),
    }
}

/// What a future answers, or one that is pending.
pub fn tell_closed(waited: Option<Result<(), AllocError>>) -> Outcome {
    match waited {
        Some(closed) => tell(closed.map(|()| true)),
        None => Outcome::Waits,
    }
}

fn tell(waited: Result<bool, AllocError>) -> Outcome {
    match waited {
        Ok(true) => Outcome::Done,
        Ok(false) => Outcome::Timeout,
        Err(AllocError) => Outcome::Memory,
    }
}

//! The reply that tells of an answer of the core.
ghost use Rattle.std.specs.Prelude.{◌≡◌};
ghost use Rattle.priority_channel_c.specs.Replies.{Tells};

use crate::codes::Code;
use crate::priority::Priority;
use crate::reply::Reply;
use priority_channel_core::calls::{Answer, CorePoll};
use priority_channel_core::errors::{
    RecvFault, SendFault, TryRecvError, TryRecvManyError, TrySendError,
};

type Pair = (u64, Priority);

impl Reply {
    pub fn of_send(sent: Result<(), TrySendError<Pair>>, has_due: bool) -> Reply
        ensures tells { Tells (Answer.TrySend sent) result }
        ensures due { result.has_due ≡ has_due }
    {
        Reply::of(Code::of_reply(&sent), has_due)
    }

    pub fn of_evicting(sent: Result<Option<Pair>, TrySendError<Pair>>, has_due: bool) -> Reply
        ensures tells { Tells (Answer.TrySendEvicting sent) result }
        ensures due { result.has_due ≡ has_due }
    {
        match sent {
            Ok(None) => Reply::of(Code::Done, has_due),
            Ok(Some(out)) => Reply::with_pair(Code::Displaced, out, has_due),
            Err(error) => Reply::of(Code::of_refusal(&error), has_due),
        }
    }

    pub fn of_receive(received: Result<Pair, TryRecvError>, has_due: bool) -> Reply
        ensures tells { Tells (Answer.TryRecv received) result }
        ensures due { result.has_due ≡ has_due }
    {
        match received {
            Ok(pair) => Reply::with_pair(Code::Done, pair, has_due),
            Err(error) => Reply::of(Code::of_absence(error), has_due),
        }
    }

    pub fn of_reserve(reserved: Result<(), TrySendError<()>>, has_due: bool) -> Reply
        ensures tells { Tells (Answer.TryReserve reserved) result }
        ensures due { result.has_due ≡ has_due }
    {
        Reply::of(Code::of_reply(&reserved), has_due)
    }

    pub fn of_lease(leased: Result<Pair, TryRecvManyError>, has_due: bool) -> Reply
        ensures tells { Tells (Answer.TryLease leased) result }
        ensures due { result.has_due ≡ has_due }
    {
        match leased {
            Ok(pair) => Reply::with_pair(Code::Done, pair, has_due),
            Err(error) => Reply::of(Code::of_lease_absence(error), has_due),
        }
    }

    pub fn of_put(put: Result<(), Pair>, has_due: bool) -> Reply
        ensures tells { Tells (Answer.Put put) result }
        ensures due { result.has_due ≡ has_due }
    {
        match put {
            Ok(()) => Reply::of(Code::Done, has_due),
            Err(_) => Reply::of(Code::Nothing, has_due),
        }
    }

    pub fn of_poll_send(sent: CorePoll<Result<(), SendFault<Pair>>, Pair>, has_due: bool) -> Reply
        ensures tells { Tells (Answer.PollSend sent) result }
        ensures due { result.has_due ≡ has_due }
    {
        match sent {
            CorePoll::Ready(Ok(())) => Reply::of(Code::Done, has_due),
            CorePoll::Ready(Err(fault)) => Reply::of(Code::of_send_end(&fault), has_due),
            CorePoll::Pending(_, ticket) => Reply::waiting(ticket, has_due),
        }
    }

    pub fn of_poll_recv(received: CorePoll<Result<Pair, RecvFault>, ()>, has_due: bool) -> Reply
        ensures tells { Tells (Answer.PollRecv received) result }
        ensures due { result.has_due ≡ has_due }
    {
        match received {
            CorePoll::Ready(Ok(pair)) => Reply::with_pair(Code::Done, pair, has_due),
            CorePoll::Ready(Err(fault)) => Reply::of(Code::of_recv_end(fault), has_due),
            CorePoll::Pending((), ticket) => Reply::waiting(ticket, has_due),
        }
    }

    pub fn of_taking(taken: Option<Pair>, has_due: bool) -> Reply
        ensures tells { Tells (Answer.TakeWhere taken) result }
        ensures due { result.has_due ≡ has_due }
    {
        match taken {
            Some(pair) => Reply::with_pair(Code::Done, pair, has_due),
            None => Reply::of(Code::Nothing, has_due),
        }
    }

    pub fn of_lease_by_key(leased: Result<Option<Pair>, TryRecvManyError>, has_due: bool) -> Reply
        ensures tells { Tells (Answer.LeaseWhere leased) result }
        ensures due { result.has_due ≡ has_due }
    {
        match leased {
            Ok(Some(pair)) => Reply::with_pair(Code::Done, pair, has_due),
            Ok(None) => Reply::of(Code::Nothing, has_due),
            Err(error) => Reply::of(Code::of_lease_absence(error), has_due),
        }
    }

    pub fn of_change(changed: Result<Priority, Priority>, has_due: bool) -> Reply
        ensures tells { Tells (Answer.ChangePriority changed) result }
        ensures due { result.has_due ≡ has_due }
    {
        match changed {
            Ok(was) => Reply::with_pair(Code::Done, (0, was), has_due),
            Err(_) => Reply::of(Code::Nothing, has_due),
        }
    }
}

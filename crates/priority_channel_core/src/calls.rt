//! The calls of the core and their answers, as values.
use crate::errors::{RecvFault, SendFault, TryRecvError, TryRecvManyError, TrySendError};

/// A call of the core. `M` is the type that holds the pairs of a bulk send: in the code an iterator
/// that can be peeked, in the definitions a list. `F` is what chooses the pair of a taking or of
/// a change: in the code a test, in the definitions a place.
#[derive(Drop)]
pub enum Call<T, P, W, M, F = fn(&T, &P) -> bool> {
    TrySend(T, P),
    TrySendv(M),
    TrySendEvicting(T, P),
    TryRecv,
    /// In the definitions it carries which pair it takes: the pair's place among the pending pairs,
    /// in the order of their acceptance.
    TakeWhere(F),
    /// In the definitions it carries a place, as a taking.
    ChangePriority(F, P),
    Close,
    IsClosed,
    IsEmpty,
    IsFull,
    Len,
    Capacity,
    SenderCount,
    ReceiverCount,
    CloneSender,
    CloneReceiver,
    DropSender,
    DropReceiver,
    PollSend(T, P, Option<u64>, W),
    PollSendv(M, Option<u64>, W),
    PollRecv(Option<u64>, W),
    GiveUp(u64),
    CloseWhenDone,
    TryReserve,
    TryLease,
    /// In the definitions it carries a place, as a taking.
    LeaseWhere(F),
    Put(T, P),
    Free,
    Held,
}

/// The answer to the call of the same name.
#[derive(Debug, Drop, PartialEq)]
pub enum Answer<T, P, M> {
    TrySend(Result<(), TrySendError<(T, P)>>),
    TrySendv(Result<(), TrySendError<M>>),
    TrySendEvicting(Result<Option<(T, P)>, TrySendError<(T, P)>>),
    TryRecv(Result<(T, P), TryRecvError>),
    TakeWhere(Option<(T, P)>),
    ChangePriority(Result<P, P>),
    Close(bool),
    IsClosed(bool),
    IsEmpty(bool),
    IsFull(bool),
    Len(u64),
    Capacity(Option<u64>),
    SenderCount(usize),
    ReceiverCount(usize),
    CloneSender(bool),
    CloneReceiver(bool),
    DropSender,
    DropReceiver,
    PollSend(CorePoll<Result<(), SendFault<(T, P)>>, (T, P)>),
    PollSendv(CorePoll<Result<(), SendFault<M>>, M>),
    PollRecv(CorePoll<Result<(T, P), RecvFault>, ()>),
    GiveUp,
    CloseWhenDone,
    TryReserve(Result<(), TrySendError<()>>),
    TryLease(Result<(T, P), TryRecvManyError>),
    LeaseWhere(Result<Option<(T, P)>, TryRecvManyError>),
    Put(Result<(), (T, P)>),
    Free(bool),
    Held(u64),
}

/// The answer to a poll: the result, or what the caller keeps for its next poll, with the ticket
/// under which it waits.
#[derive(Debug, Drop, PartialEq)]
pub enum CorePoll<A, K> {
    Ready(A),
    Pending(K, u64),
}

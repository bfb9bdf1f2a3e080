//! Books, which one caller has.
use super::{Host, expect_equal};
use priority_channel_core::errors::{TryRecvError, TrySendError};
use priority_channel_recorded::{Book, Call, Entry, NoPlace, Reply};
use refusing::Refusing;
use std::alloc::{Allocator, Global};

// Calls on a channel for two, and what they answer.
const ROWS: [(Call<u64, u64>, Reply<u64, u64>); 11] = [
    (Call::IsFull, Reply::Bool(false)),
    (Call::TrySend(1, 5), Reply::Sent(Ok(()))),
    (Call::IsFull, Reply::Bool(false)),
    (Call::TrySend(2, 9), Reply::Sent(Ok(()))),
    (Call::IsFull, Reply::Bool(true)),
    (
        Call::TrySend(3, 1),
        Reply::Sent(Err(TrySendError::Full((3, 1)))),
    ),
    (
        Call::TrySendEvicting(4, 7),
        Reply::Displaced(Ok(Some((1, 5)))),
    ),
    (Call::TryRecv, Reply::Received(Ok((2, 9)))),
    (Call::IsEmpty, Reply::Bool(false)),
    (Call::TryRecv, Reply::Received(Ok((4, 7)))),
    (Call::TryRecv, Reply::Received(Err(TryRecvError::Empty))),
];

// Without memory for an entry a call is not made, and may be made again.
fn enter_rows<A: Allocator + Copy, R: Host>(rt: &R, memory: &Refusing<Global>, alloc: A) {
    let mut book = Book::new(alloc, 2, ROWS.len()).expect(rt, "a book");
    memory.refuse_all();
    for (call, reply) in ROWS {
        expect_equal(rt, (call, book.record(7, call)), (call, Ok(reply)));
    }
    expect_equal(rt, book.record(7, Call::TrySend(5, 5)), Err(NoPlace));
    for ((call, reply), entry) in ROWS.iter().zip(book.history()) {
        let (who, call, reply) = (7, *call, *reply);
        expect_equal(rt, *entry, Entry { who, call, reply });
    }
    expect_equal(rt, book.history().len(), ROWS.len());
    memory.refuse_none();
    expect_equal(rt, book.record(7, Call::Len), Ok(Reply::Len(0)));
    expect_equal(rt, book.record(7, Call::Close), Ok(Reply::Bool(true)));
    expect_equal(rt, book.record(7, Call::IsClosed), Ok(Reply::Bool(true)));
}

#[test]
fn a_book_enters_what_was_answered_where_it_has_a_place(rt: HostRuntime) {
    let memory = Refusing::new(rt.alloc());
    enter_rows(&rt, &memory, &memory);
}

// One request for the channel, and one for its history.
#[test]
fn a_book_may_be_refused_memory(rt: HostRuntime) {
    let alloc = Refusing::new(rt.alloc());
    for n in 1..=3u64 {
        alloc.refuse_nth(n);
        let is_made = Book::<u64, u64, _>::new(&alloc, 2, 8).is_ok();
        let met_none = alloc.refuse_none();
        expect_equal(&rt, (n, met_none, is_made), (n, n == 3, n == 3));
    }
}

//! Memory that is not the channel's: a batch's, and that of priorities.
use super::expect_equal;
use super::script::Host;
use async_priority_channel::{
    RecvTimeoutError, TryRecvManyError, TrySendError, bounded_reserved, unbounded,
};
use refusing::Refusing;
use std::alloc::{Allocator, Global};
use std::time::Duration;

// A batch has its memory of `alloc`, which is `memory`.
fn take_batches<R: Host, A: Allocator + Copy>(rt: &R, memory: &Refusing<Global>, alloc: A) {
    let (tx, rx) = unbounded(rt, rt.alloc()).expect(rt, "a channel");
    for pair in [('a', 3u64), ('b', 1), ('c', 7)] {
        expect_equal(rt, tx.try_send(pair.0, pair.1), Ok(()));
    }
    let mut batch = Vec::with_capacity(alloc, 3).expect(rt, "memory");
    batch.push(('z', 0)).expect(rt, "memory");
    let mut last = Vec::with_capacity(alloc, 1).expect(rt, "memory");
    memory.refuse_all();
    expect_equal(rt, rx.try_recv_many(&mut batch, 3), Ok(2));
    let refused = rx.try_recv_many(&mut batch, 3);
    expect_equal(rt, refused, Err(TryRecvManyError::Memory));
    expect_equal(rt, rx.try_recv_many(&mut batch, 0), Ok(0));
    let wanted = [('z', 0), ('c', 7), ('a', 3)];
    expect_equal(rt, batch.as_slice(), wanted.as_slice());
    // It asks for no more than what is pending.
    let asked = memory.count();
    expect_equal(rt, rx.try_recv_many(&mut last, 9), Ok(1));
    expect_equal(rt, (last.pop(), memory.count()), (Some(('b', 1)), asked));
    // Without a place for a first message there is nothing to wait for.
    let refused = rx.recv_many_timeout(&mut batch, 3, Duration::ZERO);
    expect_equal(rt, refused, Err(RecvTimeoutError::Memory));
}

#[test]
fn a_batch_takes_what_there_is_place_for(rt: HostRuntime) {
    let memory = Refusing::new(rt.alloc());
    take_batches(&rt, &memory, &memory);
}

// The priorities own memory, so that a clone asks for some.
fn peek_without_memory<R: Host, A: Allocator + Copy>(rt: &R, memory: &Refusing<Global>, alloc: A) {
    let (tx, rx) = unbounded(rt, rt.alloc()).expect(rt, "a channel");
    for (msg, priority) in [('l', 1u8), ('h', 9)] {
        let mut levels = Vec::with_capacity(alloc, 1).expect(rt, "memory");
        levels.push(priority).expect(rt, "memory");
        expect_equal(rt, tx.try_send(msg, levels).is_ok(), true);
    }
    memory.refuse_all();
    expect_equal(rt, rx.peek_priority().is_err(), true);
    // To look takes none, and nothing was taken.
    expect_equal(rt, rx.peek_with(|msg, _| *msg), Some('h'));
    expect_equal(rt, rx.len(), 2);
}

#[test]
fn a_refused_clone_of_a_priority_is_an_error(rt: HostRuntime) {
    let memory = Refusing::new(rt.alloc());
    peek_without_memory(&rt, &memory, &memory);
}

// What is pending keeps its memory, and so does a held place.
fn shrink<R: Host, A: Allocator + Copy>(
    rt: &R,
    memory: &Refusing<Global>,
    alloc: A,
    by_sender: bool,
) {
    let (tx, rx) = unbounded(rt, alloc).expect(rt, "a channel");
    let shrink_to_fit = || {
        if by_sender {
            tx.shrink_to_fit()
        } else {
            rx.shrink_to_fit()
        }
    };
    for number in 0..100u64 {
        expect_equal(rt, tx.try_send(number, number), Ok(()));
    }
    for number in 0..98u64 {
        expect_equal(rt, rx.try_recv(), Ok((99 - number, 99 - number)));
    }
    let permit = tx.try_reserve().expect(rt, "a place");
    memory.refuse_all();
    shrink_to_fit();
    // A smaller block was refused, so nothing has changed.
    expect_equal(rt, tx.try_send(7, 7), Ok(()));
    expect_equal(rt, rx.try_recv(), Ok((7, 7)));
    memory.refuse_none();
    shrink_to_fit();
    memory.refuse_all();
    expect_equal(rt, tx.try_send(8, 8), Err(TrySendError::Memory((8, 8))));
    permit.send(9, 9);
    for number in [9, 1, 0u64] {
        expect_equal(rt, rx.try_recv(), Ok((number, number)));
    }
}

#[test]
fn the_memory_of_a_longer_queue_is_given_back(rt: HostRuntime) {
    for by_sender in [false, true] {
        let memory = Refusing::new(rt.alloc());
        shrink(&rt, &memory, &memory, by_sender);
    }
}

fn shrink_reserved<R: Host, A: Allocator + Copy>(rt: &R, memory: &Refusing<Global>, alloc: A) {
    let (tx, rx) = bounded_reserved(rt, alloc, 2).expect(rt, "a channel");
    tx.shrink_to_fit();
    memory.refuse_all();
    for number in [1, 2u64] {
        expect_equal(rt, tx.try_send(number, number), Ok(()));
    }
    expect_equal(rt, rx.len(), 2);
}

#[test]
fn a_reserved_channel_keeps_its_memory(rt: HostRuntime) {
    let memory = Refusing::new(rt.alloc());
    shrink_reserved(&rt, &memory, &memory);
}

//! The word of a channel: the count of its messages, and whether it is closed.
use super::{expect_equal, expect_true};
use priority_channel_core::awaitable_atomics::{AwaitableAtomicCounterAndBit, Wakes};
use std::alloc::Allocator;
use std::process::Abort;

type Word<A> = AwaitableAtomicCounterAndBit<u64, A>;

/// These, and no others, were handed out: each by its ticket, with its waker.
pub fn expect_handed<A: Allocator>(
    rt: &impl Abort,
    wakes: Wakes<u64, A>,
    room: &[(u64, u64)],
    message: &[(u64, u64)],
) {
    let (handed_room, handed_message) = wakes.into_lists();
    expect_equal(rt, handed_room.as_slice(), room);
    expect_equal(rt, handed_message.as_slice(), message);
}

/// What a call answered that is to hand out nobody.
pub fn unwoken<X, W: Drop, A: Allocator>(rt: &impl Abort, (answer, wakes): (X, Wakes<W, A>)) -> X {
    let (room, message) = wakes.into_lists();
    let is_nobody = room.is_empty() && message.is_empty();
    expect_true(rt, is_nobody, "somebody is handed out");
    answer
}

fn expect_counts<A: Allocator + Copy>(rt: &impl Abort, alloc: A) {
    let mut word = Word::new(alloc, 5);
    expect_equal(rt, unwoken(rt, word.set_bit()), false);
    expect_equal(rt, word.load(), (true, 5));
    expect_equal(rt, unwoken(rt, word.incr(2)), (true, 5));
    expect_equal(rt, word.load(), (true, 7));
    expect_equal(rt, unwoken(rt, word.decr()), (true, 7));
    expect_equal(rt, unwoken(rt, word.incr(0)), (true, 6));
    expect_equal(rt, unwoken(rt, word.set_bit()), true);
    // the word at its greatest count
    let mut word = Word::new(alloc, 9223372036854775807);
    expect_equal(rt, word.load(), (false, 9223372036854775807));
    expect_equal(rt, unwoken(rt, word.decr()), (false, 9223372036854775807));
    expect_equal(rt, word.load(), (false, 9223372036854775806));
}

#[test]
fn the_word_counts_and_closes(rt: HostRuntime) {
    expect_counts(&rt, rt.alloc());
}

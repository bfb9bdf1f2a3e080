//! How often a bulk send calls its iterator, on the core and on handles.
use super::expect_equal_at;
use super::word::unwoken;
use async_priority_channel::{TrySendError, bounded};
use priority_channel_core::channel::PriorityQueueChannel;
use std::alloc::Allocator;
use std::cell::Cell;
use std::iter::Peekable;
use std::process::Abort;
use std::sync::Wait;

/// How often `next` was called, and whether the last call gave None.
type Calls = (u64, bool);

/// Counts the calls of its `next`.
#[derive(Drop)]
struct CountsCalls<'a> {
    left: u64,
    calls: &'a Cell<Calls>,
}

type Pairs<'a> = Peekable<CountsCalls<'a>>;

impl Iterator for CountsCalls<'_> {
    type Item = (u64, u64);

    ghost use Rattle.std.specs.Iterator.{at_most};

    ghost remaining = { λ s. at_most s.left };

    fn next(&mut self) -> Option<(u64, u64)> {
        let (before, _) = self.calls.get();
        self.calls.set((before.wrapping_add(1), self.left == 0));
        if self.left == 0 {
            return None;
        }
        self.left -= 1;
        Some((self.left, self.left))
    }
}

// So many pairs, of which none has been asked for.
fn counted(left: u64, calls: &Cell<Calls>) -> Pairs<'_> {
    calls.set((0, false));
    CountsCalls { left, calls }.peekable()
}

// `count` asks for a bound on what is left, which no contract of a send tells.
fn count_pairs(rest: Pairs<'_>) -> u64 {
    let mut count = 0u64;
    for _ in rest {
        count = count.wrapping_add(1);
    }
    count
}

/// The answer, and how many pairs came back.
type Told = (&'static str, u64);

fn tell(sent: Result<(), TrySendError<Pairs<'_>>>) -> Told {
    match sent {
        Ok(()) => ("Ok", 0),
        Err(TrySendError::Full(rest)) => ("Full", count_pairs(rest)),
        Err(TrySendError::Closed(rest)) => ("Closed", count_pairs(rest)),
        Err(TrySendError::Memory(rest)) => ("Memory", count_pairs(rest)),
    }
}

// Sends so many pairs on a core and by a handle, each with room for two. None closes both. The
// calls are those before the rest is walked.
fn expect_both<R: Abort + Wait + Clone, A: Allocator + Copy>(
    rt: &R,
    alloc: A,
    sends: &[Option<(u64, Told, Calls)>],
) {
    let mut core: PriorityQueueChannel<u64, u64, u64, A> = PriorityQueueChannel::bounded(alloc, 2);
    let (tx, _rx) = bounded(rt, alloc, 2).expect(rt, "a channel");
    let calls = Cell::new((0, false));
    for send in sends {
        let Some((count, told, made)) = *send else {
            let are_open = (unwoken(rt, core.close()), tx.close());
            expect_equal_at(rt, "a close", are_open, (true, true));
            continue;
        };
        let sent = unwoken(rt, core.try_sendv(counted(count, &calls)));
        expect_equal_at(rt, "calls on the core", calls.get(), made);
        expect_equal_at(rt, "the core", tell(sent), told);
        let sent = tx.try_sendv(counted(count, &calls));
        expect_equal_at(rt, "calls on handles", calls.get(), made);
        expect_equal_at(rt, "handles", tell(sent), told);
    }
}

#[test]
fn how_often_a_bulk_send_calls_its_iterator(rt: HostRuntime) {
    // a bulk send takes no more than there is room for
    expect_both(&rt, rt.alloc(), &[Some((5, ("Full", 3), (3, false)))]);
    // a refused bulk send does not touch its iterator
    expect_both(
        &rt,
        rt.alloc(),
        &[
            Some((2, ("Ok", 0), (3, true))),
            Some((5, ("Full", 5), (0, false))),
            None,
            Some((5, ("Closed", 5), (0, false))),
        ],
    );
    // a bulk send that fits asks once more
    expect_both(&rt, rt.alloc(), &[Some((2, ("Ok", 0), (3, true)))]);
}

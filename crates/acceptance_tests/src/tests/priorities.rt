//! Priorities of other types, on handles at once, by futures, and on the core.
use super::word::unwoken;
use super::{Host, expect_equal, wait_for};
use async_priority_channel::{Receiver, Sender, unbounded};
use priority_channel_core::channel::PriorityQueueChannel;
use std::alloc::Allocator;
use std::cmp::Reverse;
use std::fmt::Debug;
use std::process::Abort;
use std::sync::Wait;

type Core<T, P, A> = PriorityQueueChannel<T, P, u64, A>;

// Sends these pairs, and receives as many, on the core and by handles.
fn expect_order<R, T, P, A>(rt: &R, alloc: A, pairs: &[(T, P)], wanted: &[T])
where
    R: Host + Clone,
    T: Copy + PartialEq + Debug + Drop,
    P: Copy + Ord + Drop,
    A: Allocator + Copy,
{
    expect_order_on_core(rt, Core::unbounded(alloc), pairs, wanted);
    let (tx, rx) = unbounded(rt, alloc).expect(rt, "a channel");
    expect_order_at_once(rt, (&tx, &rx), pairs, wanted);
    let (tx, rx) = unbounded(rt, alloc).expect(rt, "a channel");
    expect_order_by_futures(rt, (&tx, &rx), pairs, wanted);
}

fn expect_order_on_core<T, P, A>(
    rt: &impl Abort,
    mut core: Core<T, P, A>,
    pairs: &[(T, P)],
    wanted: &[T],
)
where
    T: Copy + PartialEq + Debug + Drop,
    P: Copy + Ord + Drop,
    A: Allocator + Copy,
{
    for (msg, priority) in pairs {
        expect_equal(rt, unwoken(rt, core.try_send(*msg, *priority)), Ok(()));
    }
    for msg in wanted {
        let (came, _) = unwoken(rt, core.try_recv()).ok().expect(rt, "a message");
        expect_equal(rt, came, *msg);
    }
}

fn expect_order_at_once<R, T, P, A>(
    rt: &R,
    (tx, rx): (&Sender<T, P, R, A>, &Receiver<T, P, R, A>),
    pairs: &[(T, P)],
    wanted: &[T],
)
where
    R: Abort + Wait + Clone,
    T: Copy + PartialEq + Debug + Drop,
    P: Copy + Ord + Drop,
    A: Allocator + Copy,
{
    for (msg, priority) in pairs {
        expect_equal(rt, tx.try_send(*msg, *priority), Ok(()));
    }
    for msg in wanted {
        let (came, _) = rx.try_recv().ok().expect(rt, "a message");
        expect_equal(rt, came, *msg);
    }
}

fn expect_order_by_futures<R, T, P, A>(
    rt: &R,
    (tx, rx): (&Sender<T, P, R, A>, &Receiver<T, P, R, A>),
    pairs: &[(T, P)],
    wanted: &[T],
)
where
    R: Host + Clone,
    T: Copy + PartialEq + Debug + Drop,
    P: Copy + Ord + Drop,
    A: Allocator + Copy,
{
    for (msg, priority) in pairs {
        expect_equal(rt, wait_for(rt, tx.send(*msg, *priority)), Ok(()));
    }
    for msg in wanted {
        let (came, _) = wait_for(rt, rx.recv()).ok().expect(rt, "a message");
        expect_equal(rt, came, *msg);
    }
}

#[test]
fn priorities_of_other_types(rt: HostRuntime) {
    // reversed priorities
    let pairs = [(1, Reverse(1)), (3, Reverse(3)), (2, Reverse(2))];
    expect_order(&rt, rt.alloc(), &pairs, &[1, 2, 3]);
    // priorities that are pairs
    let pairs = [("a", (1, "x")), ("b", (1, "y")), ("c", (0, "z"))];
    expect_order(&rt, rt.alloc(), &pairs, &["b", "a", "c"]);
    // priorities that are all equal
    let pairs = [(1, ()), (2, ()), (3, ())];
    expect_order(&rt, rt.alloc(), &pairs, &[1, 2, 3]);
}

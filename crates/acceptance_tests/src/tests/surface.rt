//! Callers that name each public item by its path: where a name goes, this no longer compiles. The
//! players of scripts name those of `channel`, of `waiting` and of the handles.
use super::recorded::{Step, expect_book, expect_history};
use super::script::Ground::{Core, Futures};
use super::script::play;
use super::word::{expect_handed, unwoken};
use super::{expect_equal, expect_true};
use async_priority_channel::laws::{
    alike_law, closing_law, conservation_law, digits_law, done_law, drain_law, history_law,
    list_law, one_greatest_law, one_least_law, queue_law, waiting_law,
};
use async_priority_channel::recorded::{Call, Reply};
use priority_channel_core::awaitable_atomics::AwaitableAtomicCounterAndBit;
use priority_channel_core::bag::Bag;
use priority_channel_core::errors::{
    RecvError, RecvFault, SendError, SendFault, TryRecvError, TrySendError,
};
use priority_channel_core::item::Item;
use std::alloc::{AllocError, Allocator};
use std::cmp::Ordering;
use std::process::Abort;
use std::vec::IntoIter;

type Word<A> = AwaitableAtomicCounterAndBit<u64, A>;

fn expect_word<A: Allocator + Copy>(rt: &impl Abort, alloc: A) {
    let mut word = Word::new(alloc, 1);
    expect_equal(rt, word.load(), (false, 1));
    expect_equal(rt, word.listen_incr(None, &7), Some(0));
    expect_equal(rt, word.listen_decr(None, &8), Some(1));
    expect_equal(rt, word.listen_decr(None, &9), Some(2));
    word.unlisten(2);
    let (before, wakes) = word.incr(1);
    expect_equal(rt, before, (false, 1));
    expect_handed(rt, wakes, &[], &[(0, 7)]);
    let (before, wakes) = word.decr();
    expect_equal(rt, before, (false, 2));
    expect_handed(rt, wakes, &[(1, 8)], &[]);
    expect_equal(rt, unwoken(rt, word.set_bit()), false);
}

#[test]
fn awaitable_atomics_has_its_items(rt: HostRuntime) {
    expect_word(&rt, rt.alloc());
}

// It has a number besides, which tells equal priorities apart.
fn item(priority: u64) -> Item<char, u64> {
    Item {
        msg: 'm',
        priority,
        number: 0,
    }
}

fn expect_bag<A: Allocator + Copy>(rt: &impl Abort, alloc: A) {
    let made: Result<Bag<u64, u64, A>, AllocError> = Bag::reserved(alloc, 1);
    expect_equal(rt, made.expect(rt, "a bag").len(), 0);
    let mut bag: Bag<u64, u64, A> = Bag::new(alloc);
    bag.make_place().expect(rt, "memory");
    bag.push(7, 1);
    expect_equal(rt, (bag.len(), bag.can_push()), (1, true));
    expect_equal(rt, bag.pop(), Some((7, 1)));
}

#[test]
fn item_and_bag_have_their_items(rt: HostRuntime) {
    expect_true(&rt, item(1) == item(1), "they are equal");
    expect_equal(&rt, item(1).cmp(&item(2)), Ordering::Less);
    expect_equal(&rt, item(1).partial_cmp(&item(0)), Some(Ordering::Greater));
    expect_bag(&rt, rt.alloc());
}

#[test]
fn errors_has_its_items(rt: HostRuntime) {
    expect_equal(&rt, SendError(1).into_inner(), 1);
    expect_equal(&rt, TrySendError::Full(1).into_inner(), 1);
    expect_equal(&rt, TrySendError::Closed(1).is_full(), false);
    expect_equal(&rt, TrySendError::Memory(1).is_closed(), false);
    expect_equal(&rt, TryRecvError::Empty.is_empty(), true);
    expect_equal(&rt, TryRecvError::Closed.is_closed(), true);
    let faults = (SendFault::Closed(SendError(1)), SendFault::Memory(1));
    expect_equal(&rt, faults.0 == faults.1, false);
    let faults = (RecvFault::Closed(RecvError), RecvFault::Memory);
    expect_equal(&rt, faults.0 == faults.1, false);
}

const ON_THE_CORE: &str = "
    # channel has its items
    bounded_reserved 1
    is_full = false
    unbounded
    capacity = None
    bounded 1
    try_send (7,1) = Ok
    try_sendv = Full with 0 left
    try_recv = (7,1)
    is_closed = false
    is_empty = true
    len = 0
    poll_recv None w7 = Pending 0
    give_up 0
    poll_send (7,1) None w7 = Ready Ok
    poll_sendv None w7 = Pending 1
    give_up 1
    close = true

    # channel counts its handles
    bounded 1
    clone_sender = true
    clone_receiver = true
    sender_count = 2
    receiver_count = 2
    bounded 1
    drop_sender
    sender_count = 0
    is_closed = true
    bounded 1
    drop_receiver
    receiver_count = 0
    is_closed = true

    # waiting has the states
    bounded 1
    S is send (7,1)
    V is sendv
    R is recv
    R poll w7 = Pending 0
    R ticket = Some(0)
    R is_done = false
    R give_up = Some(())
    S poll w7 = Ready Ok
    S ticket = None
    S is_done = true
    S give_up = None
    V poll w7 = Pending 1
    V ticket = Some(1)
    V is_done = false
    V give_up = Some(0)
";

const ON_HANDLES: &str = "
    # the crate has its items
    unbounded
    tx capacity = None
    bounded_reserved 1
    rx capacity = Some(1)
    bounded 1
    send (7,1) = Ok
    recv = (7,1)
    poll_once_and_drop sendv = Ready Ok
    try_send (7,1) = Ok
    try_sendv = Full with 0 left
    tx is_closed = false
    tx is_empty = false
    tx is_full = true
    rx is_closed = false
    rx is_empty = false
    rx is_full = true
    tx len = 1
    rx len = 1
    try_recv = (7,1)
    clone_sender = true
    clone_receiver = true
    tx sender_count = 2
    tx receiver_count = 2
    drop_sender
    drop_receiver
    rx sender_count = 1
    rx receiver_count = 1
    tx capacity = Some(1)
    rx capacity = Some(1)
    tx close = true
    rx close = false
    tx is_printed = true
    rx is_printed = true
";

#[test]
fn channel_waiting_and_the_crate_have_their_items(rt: HostRuntime) {
    play(&rt, Core, ON_THE_CORE);
    play(&rt, Futures, ON_HANDLES);
}

const BOOK: [Step; 7] = [
    Step::Call(0, Call::TrySend(7, 1), Ok(Reply::Sent(Ok(()))), 1),
    Step::Call(0, Call::TryRecv, Ok(Reply::Received(Ok((7, 1)))), 2),
    Step::Call(0, Call::Close, Ok(Reply::Bool(true)), 3),
    Step::Call(0, Call::IsClosed, Ok(Reply::Bool(true)), 4),
    Step::Call(0, Call::IsEmpty, Ok(Reply::Bool(true)), 5),
    Step::Call(0, Call::IsFull, Ok(Reply::Bool(false)), 6),
    Step::Call(0, Call::Len, Ok(Reply::Len(0)), 7),
];

const RECORDER: [Step; 2] = [
    Step::Call(0, Call::Close, Ok(Reply::Bool(true)), 1),
    Step::Meet,
];

#[test]
fn recorded_has_the_book_and_the_recorder(rt: HostRuntime) {
    expect_book(&rt, &BOOK, 1, 7);
    expect_history(&rt, &RECORDER, 1, 8, 2, 0);
}

#[test]
fn laws_has_each_law(_rt: HostRuntime) {
    alike_law::<u64, u64, u64>();
    closing_law();
    conservation_law::<u64, u64, u64>();
    digits_law();
    done_law::<u64, u64, u64>();
    drain_law::<u64, u64, u64>();
    history_law::<u64, u64>();
    list_law::<IntoIter<(u64, u64)>>();
    one_greatest_law::<u64, u64>();
    one_least_law::<u64, u64>();
    queue_law::<u64, u64>();
    waiting_law::<u64, u64, u64>();
}

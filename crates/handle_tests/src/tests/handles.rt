//! Weak handles, to which channel handles belong, and what they print.
use super::script::Host;
use super::{expect_equal, expect_equal_at};
use async_priority_channel::{End, Ends, Role, bounded, bounded_reserved, unbounded};
use std::alloc::AllocGlobal;
use std::fmt::Debug;
use std::process::Abort;

// A weak handle counts for nothing beside the last of its side, and opens nothing behind it.
fn expect_closed_by_last<S: Role, O: Role, R: Host>(
    rt: &R,
    end: End<S, char, u64, R>,
    other: &End<O, char, u64, R>,
) {
    let weak = end.downgrade().expect(rt, "a weak handle");
    let weak = weak.clone().expect(rt, "a weak handle");
    let beside = other.downgrade().expect(rt, "a weak handle");
    let upgraded = weak.upgrade().expect(rt, "a handle");
    drop(end);
    let counts = (other.sender_count(), other.receiver_count());
    expect_equal(rt, (counts, weak.is_closed()), ((1, 1), false));
    drop(upgraded);
    let late = other.downgrade().expect(rt, "a weak handle");
    for (round, is_closed, is_upgraded) in [
        ("weak", weak.is_closed(), weak.upgrade().is_some()),
        ("beside", beside.is_closed(), beside.upgrade().is_some()),
        ("late", late.is_closed(), late.upgrade().is_some()),
    ] {
        expect_equal_at(rt, round, (is_closed, is_upgraded), (true, false));
    }
    let counts = other.sender_count().wrapping_add(other.receiver_count());
    expect_equal(rt, (counts, other.is_closed()), (1, true));
}

#[test]
fn the_last_handle_closes_beside_weak_ones(rt: HostRuntime) {
    let (tx, rx) = bounded(&rt, rt.alloc(), 1).expect(&rt, "a channel");
    expect_closed_by_last(&rt, tx, &rx);
    let (tx, rx) = bounded(&rt, rt.alloc(), 1).expect(&rt, "a channel");
    expect_closed_by_last(&rt, rx, &tx);
}

type Named<R> = (&'static str, Ends<char, u64, R>);

// A channel of each kind, with room for three.
fn open_each<R: Host>(rt: &R) -> [Named<R>; 3] {
    let bounded = bounded(rt, rt.alloc(), 3).expect(rt, "a channel");
    let reserved = bounded_reserved(rt, rt.alloc(), 3).expect(rt, "a channel");
    let unbounded = unbounded(rt, rt.alloc()).expect(rt, "a channel");
    [
        ("bounded", bounded),
        ("reserved", reserved),
        ("unbounded", unbounded),
    ]
}

type Looks = (bool, usize, usize, u64);

fn look<S: Role, R: Host>(end: &End<S, char, u64, R>) -> Looks {
    let counts = (end.sender_count(), end.receiver_count());
    (end.is_closed(), counts.0, counts.1, end.len())
}

// No handle that goes here is the last of its side.
fn expect_open_beside<S: Role, R: Host>(rt: &R, kind: &str, end: &End<S, char, u64, R>) {
    let wanted = (false, 1, 1, end.len());
    drop(end.clone().expect(rt, "a handle"));
    expect_equal_at(rt, (kind, "a clone", S::SIDE), look(end), wanted);
    let weak = end.downgrade().expect(rt, "a weak handle");
    drop(weak.clone().expect(rt, "a weak handle"));
    expect_equal_at(rt, (kind, "a weak clone", S::SIDE), look(end), wanted);
    drop(weak.upgrade().expect(rt, "a handle"));
    expect_equal_at(rt, (kind, "an upgraded one", S::SIDE), look(end), wanted);
    drop(weak);
    expect_equal_at(rt, (kind, "a weak one", S::SIDE), look(end), wanted);
}

fn expect_open_beside_both<R: Host>(rt: &R, kind: &str, ends: Ends<char, u64, R>) {
    let (tx, rx) = ends;
    for _ in 0..2u32 {
        expect_open_beside(rt, kind, &tx);
        expect_open_beside(rt, kind, &rx);
        expect_equal_at(rt, kind, tx.try_send('x', 1), Ok(()));
    }
}

// Where nothing is pending, and where something is.
#[test]
fn a_handle_that_is_not_the_last_closes_nothing(rt: HostRuntime) {
    for (kind, ends) in open_each(&rt) {
        expect_open_beside_both(&rt, kind, ends);
    }
}

// How a hold ends, and how many are held and pending then. One is pending before.
fn end_each_hold<R: Host>(rt: &R, kind: &str, ends: Ends<char, u64, R>) {
    let (tx, rx) = ends;
    expect_equal(rt, tx.try_send('x', 1), Ok(()));
    let left = || (tx.held(), tx.len());
    drop(tx.try_reserve().expect(rt, "a place"));
    expect_equal_at(rt, (kind, "a permit that goes"), left(), (0, 1));
    tx.try_reserve().expect(rt, "a place").send('y', 2);
    expect_equal_at(rt, (kind, "a permit that is used"), left(), (0, 2));
    drop(rx.try_lease().expect(rt, "a lease"));
    expect_equal_at(rt, (kind, "a lease that goes"), left(), (0, 2));
    rx.try_lease().expect(rt, "a lease").put_back(0);
    expect_equal_at(rt, (kind, "a lease that is put back"), left(), (0, 2));
    rx.try_lease().expect(rt, "a lease").finish();
    expect_equal_at(rt, (kind, "a lease that is finished"), left(), (0, 1));
}

#[test]
fn a_hold_that_has_ended_holds_nothing(rt: HostRuntime) {
    for (kind, ends) in open_each(&rt) {
        end_each_hold(&rt, kind, ends);
    }
}

// It goes with the last receiver, and only by a receiver's guard, also one of a closed channel.
#[test]
fn a_receivers_guard_lets_go_with_the_last_receiver(rt: HostRuntime) {
    let (tx, rx) = bounded(&rt, rt.alloc(), 1).expect(&rt, "a channel");
    expect_equal(&rt, tx.try_send('x', 1u64), Ok(()));
    drop(tx.close_on_drop());
    drop(rx);
    expect_equal(&rt, (tx.len(), tx.is_closed()), (1, true));
    let (tx, rx) = bounded(&rt, rt.alloc(), 1).expect(&rt, "a channel");
    expect_equal(&rt, tx.try_send('x', 1u64), Ok(()));
    drop(rx.clone().expect(&rt, "a receiver").close_on_drop());
    drop(tx);
    expect_equal(&rt, rx.try_recv(), Ok(('x', 1)));
    let (tx, rx) = bounded(&rt, rt.alloc(), 1).expect(&rt, "a channel");
    expect_equal(&rt, tx.try_send('x', 1u64), Ok(()));
    expect_equal(&rt, tx.close(), true);
    drop(rx.close_on_drop());
    drop(rx);
    expect_equal(&rt, tx.len(), 0);
}

// A weak handle keeps the channel, and would keep the sender that is pending there.
#[test]
fn a_receivers_guard_lets_go_where_no_sender_is_left(rt: HostRuntime) {
    let (answer, answers) = unbounded::<(), u64, _, _>(&rt, rt.alloc()).expect(&rt, "a channel");
    let (tx, rx) = unbounded(&rt, rt.alloc()).expect(&rt, "a channel");
    expect_equal(&rt, tx.try_send(answer, 0u64).is_ok(), true);
    let weak = tx.downgrade().expect(&rt, "a weak handle");
    drop(rx.close_on_drop());
    drop(tx);
    drop(rx);
    expect_equal(&rt, (weak.is_closed(), answers.is_closed()), (true, true));
}

// What goes holds no place, nor does what is sent once the last receiver has gone.
#[test]
fn what_a_receivers_guard_lets_go_leaves_no_place_held(rt: HostRuntime) {
    let (tx, rx) = bounded(&rt, rt.alloc(), 5).expect(&rt, "a channel");
    for msg in ['a', 'b', 'c'] {
        expect_equal(&rt, tx.try_send(msg, 1u64), Ok(()));
    }
    let permit = tx.try_reserve().expect(&rt, "a place");
    let other = tx.try_reserve().expect(&rt, "a place");
    drop(rx.close_on_drop());
    drop(rx);
    expect_equal(&rt, (tx.len(), tx.held()), (0, 2));
    permit.send('d', 1);
    expect_equal(&rt, (tx.len(), tx.held()), (0, 1));
    drop(other);
    expect_equal(&rt, (tx.len(), tx.held()), (0, 0));
}

// Of each two channels of many, those are the same that are one.
#[test]
fn each_of_many_channels_is_itself_alone(rt: HostRuntime) {
    let mut ends = Vec::new(rt.alloc());
    for _ in 0..12 {
        let (tx, rx) = bounded::<u64, u64, _, _>(&rt, rt.alloc(), 1).expect(&rt, "a channel");
        let other_tx = tx.clone().expect(&rt, "a sender");
        let weak = rx.downgrade().expect(&rt, "a weak handle");
        let other_rx = weak.upgrade().expect(&rt, "a receiver");
        ends.push((tx, rx, other_tx, other_rx))
            .expect(&rt, "memory");
    }
    for (one, (tx, rx, ..)) in ends.iter().enumerate() {
        for (other, (.., other_tx, other_rx)) in ends.iter().enumerate() {
            let are_same = (tx.same_channel(other_tx), rx.same_channel(other_rx));
            expect_equal(&rt, are_same, (one == other, one == other));
        }
    }
}

// A message that can be neither printed nor compared.
#[derive(Drop)]
struct Opaque;

fn expect_printed<R: Abort + AllocGlobal>(rt: &R, handle: &impl Debug, name: &str) {
    let printed = format!(in rt.alloc(); "{handle:?}").expect(rt, "memory");
    expect_equal(rt, printed.as_str(), name);
}

#[test]
fn handles_print_their_names(rt: HostRuntime) {
    let (tx, rx) = bounded::<Opaque, u64, _, _>(&rt, rt.alloc(), 1).expect(&rt, "a channel");
    let senders = tx.downgrade().expect(&rt, "a weak handle");
    let receivers = rx.downgrade().expect(&rt, "a weak handle");
    expect_printed(&rt, &tx, "Sender { .. }");
    expect_printed(&rt, &rx, "Receiver { .. }");
    expect_printed(&rt, &senders, "WeakSender { .. }");
    expect_printed(&rt, &receivers, "WeakReceiver { .. }");
}

//! What a caller knows by the contracts: the prover shows each `prove!` before a test runs.
ghost use Rattle.std.specs.Prelude.{◌≡◌, IfSome};

use async_priority_channel::{Lease, Permit, Receiver, Sender, bounded, unbounded};
use futures::executor::block_on;
use std::alloc::{AllocGlobal, Allocator};
use std::random::RandomSource;
use std::sync::Wait;

// Both handles are of one channel.
#[test]
fn a_caller_knows_the_capacity(rt: HostRuntime) {
    let (tx, rx) = bounded::<u64, u64, _, _>(&rt, rt.alloc(), 4).expect(&rt, "a channel");
    prove!(tx.capacity() == Some(4));
    prove!(rx.capacity() == Some(4));
    let (tx, rx) = unbounded::<u64, u64, _, _>(&rt, rt.alloc()).expect(&rt, "a channel");
    prove!(tx.capacity().is_none());
    prove!(rx.capacity().is_none());
}

#[test]
fn a_caller_knows_how_many_came(rt: HostRuntime) {
    let (tx, rx) = unbounded(&rt, rt.alloc()).expect(&rt, "a channel");
    tx.try_send(7u64, 1u64).expect(&rt, "room");
    let mut batch = Vec::new(rt.alloc());
    match rx.try_recv_many(&mut batch, 3) {
        Ok(count) => {
            prove!(0 < count && count <= 3);
            prove!(batch.len() == count);
        }
        Err(_) => prove!(batch.is_empty()),
    }
}

#[test]
fn a_caller_knows_what_was_displaced_or_refused(rt: HostRuntime) {
    let (tx, _rx) = bounded(&rt, rt.alloc(), 1).expect(&rt, "a channel");
    for priority in 0..3u64 {
        match tx.try_send_evicting(7u64, priority) {
            Ok(None) => {}
            Ok(Some(displaced)) => prove!(displaced.1 < priority),
            Err(error) => prove!(error.into_inner() == (7, priority)),
        }
    }
}

#[test]
fn a_caller_knows_that_the_test_was_passed(rt: HostRuntime) {
    let (tx, rx) = unbounded(&rt, rt.alloc()).expect(&rt, "a channel");
    tx.try_send(7u64, 1u64).expect(&rt, "room");
    if let Some((msg, _)) = rx.take_where(|msg, _| *msg > 6) {
        prove!(msg > 6);
    }
}

// However often it was polled.
#[test]
fn a_caller_knows_what_a_future_gives_back(rt: HostRuntime) {
    let (tx, rx) = bounded(&rt, rt.alloc(), 1).expect(&rt, "a channel");
    drop(rx);
    if let Ok(Err(fault)) = block_on(&rt, tx.send(7u64, 1u64)) {
        prove!(fault.into_inner() == (7, 1));
    }
}

// A message that was changed is the one that is given on.
#[test]
fn a_caller_knows_what_it_has_written_into_a_lease(rt: HostRuntime) {
    let (tx, rx) = unbounded(&rt, rt.alloc()).expect(&rt, "a channel");
    tx.try_send(7u64, 1u64).expect(&rt, "room");
    if let Ok(mut lease) = rx.try_lease() {
        let priority = *lease.priority();
        let job = lease.message_mut();
        *job = 8;
        prove!(*lease.message() == 8);
        prove!(lease.finish() == (8, priority));
    }
}

// A permit that a future gives is of the channel of its sender.
fn reserve_in_a_task<'a, R: Wait + Clone + RandomSource + AllocGlobal, A: Allocator + Copy>(
    rt: &R,
    tx: &'a Sender<u64, u64, R, A>,
) -> Option<Permit<'a, u64, u64, R, A>>
    ensures { IfSome result (λ permit. permit ≡ tx.now) }
{
    match block_on(rt, tx.reserve()) {
        Ok(Ok(permit)) => Some(permit),
        _ => None,
    }
}

// A lease that a future gives is of the channel of its receiver.
fn lease_in_a_task<'a, R: Wait + Clone + RandomSource + AllocGlobal, A: Allocator + Copy>(
    rt: &R,
    rx: &'a Receiver<u64, u64, R, A>,
) -> Option<Lease<'a, u64, u64, R, A>>
    ensures { IfSome result (λ lease. lease.channel ≡ rx.now) }
{
    match block_on(rt, rx.lease()) {
        Ok(Ok(lease)) => Some(lease),
        _ => None,
    }
}

#[test]
fn a_caller_knows_of_which_channel_a_held_place_is(rt: HostRuntime) {
    let (tx, rx) = unbounded(&rt, rt.alloc()).expect(&rt, "a channel");
    let permit = reserve_in_a_task(&rt, &tx).expect(&rt, "a permit");
    permit.send(7, 1);
    let lease = lease_in_a_task(&rt, &rx).expect(&rt, "a lease");
    assert_eq!(rt; lease.finish(), (7, 1));
}

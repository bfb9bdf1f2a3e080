//! Places that a thread of the soak holds for a moment: they count against the capacity, and each
//! is filled, or becomes free.
use super::{Fate, Log, PRIORITIES, Round};
use crate::tests::dice::Dice;
use crate::tests::{Host, expect_equal_at};
use async_priority_channel::{End, Lease, Permit, Receiver, Role, Sender};
use std::sync::Wait;
use std::thread;

// How many places a thread holds at once, at most.
const MOST: u64 = 3;

impl Round {
    // Who holds a place must not wait for another one, which may never become free.
    fn most_held(self, dice: &mut Dice) -> u64 {
        if self.only_waits {
            1
        } else {
            dice.between(1, MOST + 1)
        }
    }

    fn reserve<'a, R: Wait + Clone>(
        self,
        tx: &'a Sender<u64, u64, R>,
    ) -> Option<Permit<'a, u64, u64, R>> {
        if self.only_waits {
            tx.reserve_blocking().ok()
        } else {
            tx.try_reserve().ok()
        }
    }

    fn lease<'a, R: Wait + Clone>(
        self,
        rx: &'a Receiver<u64, u64, R>,
    ) -> Option<Lease<'a, u64, u64, R>> {
        if self.only_waits {
            rx.lease_blocking().ok()
        } else {
            rx.try_lease().ok()
        }
    }
}

// That so many places are held, and that no more is pending than there is room for beside them.
fn expect_counted<S: Role, R: Host>(rt: &R, round: Round, end: &End<S, u64, u64, R>, held: usize) {
    let held = held as u64;
    let room = end.capacity().unwrap_or(u64::MAX).saturating_sub(held);
    let is_counted = end.held() >= held && end.len() <= room;
    expect_equal_at(rt, (round, "held places count", held), is_counted, true);
}

/// Holds places, and sends the next messages into some of them.
pub fn hold_places<R: Host>(
    rt: &R,
    tx: &Sender<u64, u64, R>,
    round: Round,
    msgs: (u64, u64),
    dice: &mut Dice,
    log: &mut Log,
) {
    let (first, left) = msgs;
    let permits = reserve_some(rt, tx, round, round.most_held(dice).min(left));
    thread::yield_now();
    let mut msg = first;
    for permit in permits {
        if dice.below(3) == 0 {
            drop(permit);
        } else {
            permit.send(msg, round.priority(msg));
            log.fates.push(Fate::Sent).expect(rt, "memory for a log");
            msg = msg.saturating_add(1);
        }
    }
}

fn reserve_some<'a, R: Host>(
    rt: &R,
    tx: &'a Sender<u64, u64, R>,
    round: Round,
    most: u64,
) -> Vec<Permit<'a, u64, u64, R>> {
    let mut permits = Vec::new(rt.alloc());
    for _ in 0..most {
        let Some(permit) = round.reserve(tx) else {
            break
        };
        permits.push(permit).expect(rt, "memory for permits");
        expect_counted(rt, round, tx, permits.len());
    }
    permits
}

/// Holds messages in hand, and finishes them or puts some back.
pub fn hold_messages<R: Host>(
    rt: &R,
    rx: &Receiver<u64, u64, R>,
    round: Round,
    dice: &mut Dice,
    log: &mut Log,
) {
    let leases = lease_some(rt, rx, round, round.most_held(dice));
    thread::yield_now();
    for lease in leases {
        match dice.below(3) {
            0 if round.changes => drop(lease),
            1 if round.changes => lease.put_back(dice.below(PRIORITIES)),
            _ => log.came.push(lease.finish()).expect(rt, "memory for a log"),
        }
    }
}

fn lease_some<'a, R: Host>(
    rt: &R,
    rx: &'a Receiver<u64, u64, R>,
    round: Round,
    most: u64,
) -> Vec<Lease<'a, u64, u64, R>> {
    let mut leases = Vec::new(rt.alloc());
    for _ in 0..most {
        let Some(lease) = round.lease(rx) else { break };
        leases.push(lease).expect(rt, "memory for leases");
        expect_counted(rt, round, rx, leases.len());
    }
    leases
}

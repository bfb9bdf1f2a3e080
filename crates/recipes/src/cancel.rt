//! A message that is not wanted any more: its sender takes it back.
//!
//! You need this where those that ask for work may change their minds. `take_where` is a call of a
//! sender too, which keeps no receiver for it: that would keep the channel open once its workers
//! have gone. None tells that the message was received before, so it is too late: a worker that may
//! be stopped in its work needs a flag in the message (`in_hand.rt`), also since a lease that is
//! put back is pending again. Equal messages are told apart by a number.

use async_priority_channel::{Sender, unbounded};
use std::alloc::AllocGlobal;
use std::sync::Wait;

#[derive(Drop)]
struct Order {
    number: u64,
    what: &'static str,
}

fn cancel<R: Wait + Clone>(tx: &Sender<Order, u8, R>, number: u64) -> Option<Order> {
    let (order, _) = tx.take_where(|order, _| order.number == number)?;
    Some(order)
}

pub fn run<R: Wait + Clone + Print + AllocGlobal>(rt: &R) -> anyhow::Result<()> {
    let (tx, rx) = unbounded(rt, rt.alloc())?;
    for (number, what, urgency) in [(1, "soup", 1), (2, "bread", 9), (3, "soup", 5)] {
        tx.try_send(Order { number, what }, urgency)?;
    }
    let (order, _) = rx.try_recv()?;
    println!(rt; "cancel: {} of order {}", order.what, order.number)?;
    for number in [3, 2] {
        match cancel(&tx, number) {
            Some(order) => println!(rt; "cancel: no {} of order {number}", order.what)?,
            None => println!(rt; "cancel: too late for order {number}")?,
        }
    }
    for (order, _) in rx.try_iter() {
        println!(rt; "cancel: {} of order {}", order.what, order.number)?;
    }
    Ok(())
}

//! Many senders and many receivers, a task each, on one thread.

use crate::calls::{Host, channel};
use crate::load::Load;
use crate::measure::Measure;
use async_priority_channel::{Receiver, Recv, Send, Sender};
use futures::executor::run_all;
use futures::future::Either;
use futures::task::{Context, Poll};
use futures::{Future, ready, stream};
use std::cell::Cell;
use std::ops::Range;
use std::sync::Wait;
use std::time::{Clock, Instant};

// After so many rounds a task lets others run.
const ROUNDS: u32 = 128;

// Sends numbers, one after another. Where one is refused it closes the channel, so that no receiver
// waits for it: the sum tells.
#[derive(Drop)]
struct Sends<'a, R: Wait + Clone> {
    tx: &'a Sender<u64, i64, R>,
    numbers: Range<u64>,
    sending: Option<Send<'a, u64, i64, R>>,
}

impl<R: Wait + Clone> Future for Sends<'_, R> {
    type Output = ();

    fn poll(&mut self, cx: &mut Context<'_>) -> Poll<()> {
        for _ in 0..ROUNDS {
            if let Some(sending) = &mut self.sending {
                if ready!(sending.poll(cx)).is_err() {
                    self.tx.close();
                }
                self.sending = None;
                continue;
            }
            let Some(number) = self.numbers.next() else {
                return Poll::Ready(());
            };
            self.sending = Some(self.tx.send(number, Load::Random.priority(number)));
        }
        cx.yield_now()
    }
}

// Receives so many numbers, one after another, and adds them.
#[derive(Drop)]
struct Receives<'a, R: Wait + Clone> {
    rx: &'a Receiver<u64, i64, R>,
    sum: &'a Cell<u64>,
    left: u64,
    receiving: Option<Recv<'a, u64, i64, R>>,
}

impl<R: Wait + Clone> Future for Receives<'_, R> {
    type Output = ();

    fn poll(&mut self, cx: &mut Context<'_>) -> Poll<()> {
        for _ in 0..ROUNDS {
            if let Some(receiving) = &mut self.receiving {
                if let Ok((msg, _)) = ready!(receiving.poll(cx)) {
                    self.sum.set(self.sum.get().wrapping_add(msg));
                }
                self.receiving = None;
                continue;
            }
            let Some(left) = self.left.checked_sub(1) else {
                return Poll::Ready(());
            };
            self.left = left;
            self.receiving = Some(self.rx.recv());
        }
        cx.yield_now()
    }
}

/// Each sender sends an equal share, and each receiver takes one, by a future for each message.
pub fn relay<R: Host + Clock>(
    rt: &R,
    senders: u64,
    receivers: u64,
    capacity: u64,
    count: u64,
) -> anyhow::Result<Measure> {
    let (tx, rx) = channel(rt, capacity)?;
    let sum = Cell::new(0u64);
    let start = Instant::now(rt)?;
    let mut tasks = Vec::new(rt.alloc());
    for _ in 0..receivers {
        tasks.push(Either::Left(Receives {
            rx: &rx,
            sum: &sum,
            left: count / receivers.max(1),
            receiving: None,
        }))?;
    }
    let share = count / senders.max(1);
    for sender in 0..senders {
        let first = sender.wrapping_mul(share);
        tasks.push(Either::Right(Sends {
            tx: &tx,
            numbers: first..first.saturating_add(share),
            sending: None,
        }))?;
    }
    run_all(rt, stream::iter(tasks))?;
    Ok(Measure::of_time(start.elapsed(rt)?, sum.get()))
}

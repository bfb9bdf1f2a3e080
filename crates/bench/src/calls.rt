//! The calls by which messages go and come.

use crate::load::Load;
use anyhow::{bail, ensure};
use async_priority_channel::{
    Ends, Receiver, Sender, TryRecvError, TryRecvManyError, TrySendError, bounded, unbounded,
};
use futures::StreamExt;
use futures::executor::block_on;
use futures::future::ready;
use std::alloc::{AllocError, AllocGlobal};
use std::random::RandomSource;
use std::sync::Wait;
use std::thread;

/// What these calls ask of their runtime.
pub trait Host: Wait + Clone + RandomSource + AllocGlobal {}

impl<R: Wait + Clone + RandomSource + AllocGlobal> Host for R {}

#[derive(Clone, Copy)]
pub enum Calls {
    /// `try_send` and `try_recv` until they are met, with a yield between.
    Try,
    /// `send_blocking` and `recv_blocking`.
    Blocking,
    /// `try_send`, and `try_lease` with `finish`.
    Lease,
    /// `block_on` of `send` and of `recv`, for each message.
    Future,
    /// `block_on` of `sendv` and of a fold over a stream, for all; for one message as `Future`.
    Stream,
}

pub const CALLS: [(&str, Calls); 5] = [
    ("try", Calls::Try),
    ("blocking", Calls::Blocking),
    ("lease", Calls::Lease),
    ("future", Calls::Future),
    ("stream", Calls::Stream),
];

impl Calls {
    /// Whether it was sent. No `Result` of `anyhow`: where one is made of an error, a function
    /// clears much memory as it begins, which would be timed with each message.
    pub fn send<R: Host>(self, rt: &R, tx: &Sender<u64, i64, R>, msg: u64, priority: i64) -> bool {
        match self {
            Calls::Try | Calls::Lease => send_by_tries(tx, msg, priority),
            Calls::Blocking => send_by_waits(tx, msg, priority),
            Calls::Future | Calls::Stream => send_by_future(rt, tx, msg, priority),
        }
    }

    /// The message that came, if one did.
    pub fn recv<R: Host>(self, rt: &R, rx: &Receiver<u64, i64, R>) -> Option<u64> {
        match self {
            Calls::Try => recv_by_tries(rx),
            Calls::Blocking => recv_by_waits(rx),
            Calls::Lease => recv_by_leases(rx),
            Calls::Future | Calls::Stream => recv_by_future(rt, rx),
        }
    }

    /// Sends so many numbers, from `first` on.
    pub fn send_all<R: Host>(
        self,
        rt: &R,
        tx: &Sender<u64, i64, R>,
        first: u64,
        count: u64,
    ) -> anyhow::Result<()> {
        if let Calls::Stream = self {
            return send_stream(rt, tx, first, count);
        }
        for position in 0..count {
            let number = first.wrapping_add(position);
            let is_sent = self.send(rt, tx, number, Load::Random.priority(number));
            ensure!(is_sent, "a number was not sent");
        }
        Ok(())
    }

    /// The sum of so many numbers.
    pub fn recv_all<R: Host>(
        self,
        rt: &R,
        rx: &Receiver<u64, i64, R>,
        count: u64,
    ) -> anyhow::Result<u64> {
        if let Calls::Stream = self {
            return recv_stream(rt, rx, count);
        }
        let mut sum = 0u64;
        for _ in 0..count {
            let Some(msg) = self.recv(rt, rx) else {
                bail!("no message came");
            };
            sum = sum.wrapping_add(msg);
        }
        Ok(sum)
    }
}

// Each way is a function of its own that is not inlined: together they would share one frame, of
// which each call would clear the whole.

#[inline(never)]
fn send_by_tries<R: Wait + Clone>(tx: &Sender<u64, i64, R>, msg: u64, priority: i64) -> bool {
    for _ in 0..u64::MAX {
        match tx.try_send(msg, priority) {
            Err(TrySendError::Full(_)) => thread::yield_now(),
            sent => return sent.is_ok(),
        }
    }
    false
}

#[inline(never)]
fn recv_by_tries<R: Wait + Clone>(rx: &Receiver<u64, i64, R>) -> Option<u64> {
    for _ in 0..u64::MAX {
        match rx.try_recv() {
            Ok((msg, _)) => return Some(msg),
            Err(TryRecvError::Empty) => thread::yield_now(),
            Err(TryRecvError::Closed) => return None,
        }
    }
    None
}

#[inline(never)]
fn recv_by_leases<R: Wait + Clone>(rx: &Receiver<u64, i64, R>) -> Option<u64> {
    for _ in 0..u64::MAX {
        match rx.try_lease() {
            Ok(lease) => return Some(lease.finish().0),
            Err(TryRecvManyError::Empty) => thread::yield_now(),
            Err(TryRecvManyError::Closed | TryRecvManyError::Memory) => return None,
        }
    }
    None
}

#[inline(never)]
fn send_by_waits<R: Wait + Clone>(tx: &Sender<u64, i64, R>, msg: u64, priority: i64) -> bool {
    tx.send_blocking(msg, priority).is_ok()
}

#[inline(never)]
fn recv_by_waits<R: Wait + Clone>(rx: &Receiver<u64, i64, R>) -> Option<u64> {
    let (msg, _) = rx.recv_blocking().ok()?;
    Some(msg)
}

#[inline(never)]
fn send_by_future<R: Host>(rt: &R, tx: &Sender<u64, i64, R>, msg: u64, priority: i64) -> bool {
    matches!(block_on(rt, tx.send(msg, priority)), Ok(Ok(())))
}

#[inline(never)]
fn recv_by_future<R: Host>(rt: &R, rx: &Receiver<u64, i64, R>) -> Option<u64> {
    let (msg, _) = block_on(rt, rx.recv()).ok()?.ok()?;
    Some(msg)
}

fn send_stream<R: Host>(
    rt: &R,
    tx: &Sender<u64, i64, R>,
    first: u64,
    count: u64,
) -> anyhow::Result<()> {
    let msgs = (first..first.saturating_add(count)).map(|i| (i, Load::Random.priority(i)));
    let sent = block_on(rt, tx.sendv(msgs.peekable()))?;
    ensure!(sent.is_ok(), "not all was sent");
    Ok(())
}

fn recv_stream<R: Host>(rt: &R, rx: &Receiver<u64, i64, R>, count: u64) -> anyhow::Result<u64> {
    let msgs = rx.stream().take(usize::try_from(count)?);
    let sum = msgs.fold(0u64, |sum, (msg, _)| ready(sum.wrapping_add(msg)));
    Ok(block_on(rt, sum)?)
}

/// Of this capacity, or without a limit for 0.
pub fn channel<R: Host>(rt: &R, capacity: u64) -> Result<Ends<u64, i64, R>, AllocError> {
    if capacity == 0 {
        return unbounded(rt, rt.alloc());
    }
    bounded(rt, rt.alloc(), capacity)
}

//! Requests that nobody serves in time: each is told so at its deadline.
//!
//! You need this where messages go by urgency, so that the one of the earliest deadline is not the
//! first, and may wait long past it. A thread beside the workers finds the earliest deadline by
//! `fold_pending`, sleeps until then, and takes out what is late by `retain`. A request that comes
//! meanwhile does not wake it, so it sleeps no longer than the least time that a request has.

use anyhow::Context;
use async_priority_channel::{Receiver, Sender, bounded_reserved, unbounded};
use std::alloc::AllocGlobal;
use std::sync::Wait;
use std::thread::{self, Threads};
use std::time::{Clock, Duration, Instant};

// In milliseconds.
const LEAST: u64 = 5;

const HOUR: u64 = 3_600_000;

#[derive(Drop)]
struct Late;

#[derive(Drop)]
struct Request<R: Wait + Clone> {
    what: &'static str,
    deadline: Instant,
    reply: Sender<Late, (), R>,
}

fn after<R: Clock>(rt: &R, millis: u64) -> anyhow::Result<Instant> {
    let instant = Instant::now(rt)?.checked_add(Duration::from_millis(millis));
    instant.context("past the end of the clock's range")
}

// Tells requests that they are late, until the channel is closed.
fn expire<R: Wait + Clone + Clock>(
    rt: &R,
    requests: &Receiver<Request<R>, u8, R>,
) -> anyhow::Result<()> {
    for _ in rt.forever() {
        let now = Instant::now(rt)?;
        for (late, _) in requests.retain(|request, _| now < request.deadline)? {
            // A client that has gone wants no answer.
            let _ = late.reply.try_send(Late, ());
        }
        let soon = after(rt, LEAST)?;
        let next = requests.fold_pending(soon, |next: Instant, request, _| {
            next.min(request.deadline)
        });
        if requests.closed_deadline(next)? {
            break;
        }
    }
    Ok(())
}

fn ask<R: Wait + Clone + Clock + AllocGlobal>(
    rt: &R,
    tx: &Sender<Request<R>, u8, R>,
    what: &'static str,
    urgency: u8,
    millis: u64,
) -> anyhow::Result<Receiver<Late, (), R>> {
    // With memory for the one answer.
    let (reply, answer) = bounded_reserved(rt, rt.alloc(), 1)?;
    let request = Request {
        what,
        deadline: after(rt, millis)?,
        reply,
    };
    tx.try_send(request, urgency)?;
    Ok(answer)
}

// Here no worker comes, and the client closes the channel once it has its answer.
pub fn run<R>(rt: R) -> anyhow::Result<()>
where
    R: Threads + Wait + Copy + Clock + Print + AllocGlobal + Send + 'static,
{
    let (tx, requests) = unbounded(&rt, rt.alloc())?;
    let _patient = ask(&rt, &tx, "rye", 9, HOUR)?;
    let hasty = ask(&rt, &tx, "oats", 1, LEAST)?;
    let client = thread::spawn(&rt, move || {
        let answer = hasty.recv_blocking();
        drop(tx);
        answer
    })?;
    expire(&rt, &requests)?;
    if let Ok((Late, ())) = client.join(&rt) {
        println!(rt; "expiry: oats are late")?;
    }
    for (request, _) in requests.try_iter() {
        println!(rt; "expiry: {} is still pending", request.what)?;
    }
    Ok(())
}

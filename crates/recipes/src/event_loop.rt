//! Timers and messages in one wait.
//!
//! You need this where one thread reacts to what others send, and to time. A timer is a message of
//! the same channel, under the instant at which it goes off, and what is to be done at once is
//! under an instant that has come. `change_priority` sets a timer anew, and `take_where` takes it
//! back.

use anyhow::Context;
use async_priority_channel::{Due, Receiver, Sender, unbounded};
use std::alloc::AllocGlobal;
use std::cmp::Reverse;
use std::sync::Wait;
use std::time::{Clock, Duration, Instant};

// In milliseconds.
const IDLE: u64 = 5;

#[derive(Clone, Copy, Drop)]
enum Event {
    Line(&'static str),
    Idle,
}

fn after<R: Clock>(rt: &R, delay: u64) -> anyhow::Result<Reverse<Instant>> {
    let due = Instant::now(rt)?.checked_add(Duration::from_millis(delay));
    Ok(Reverse(due.context("past the end of the clock's range")?))
}

// Prints what comes, until nothing has come for a while.
fn react<R: Wait + Clone + Clock + Print>(
    rt: &R,
    tx: &Sender<Event, Reverse<Instant>, R>,
    events: &Receiver<Event, Reverse<Instant>, R>,
) -> anyhow::Result<()> {
    tx.try_send(Event::Idle, after(rt, IDLE)?)?;
    for _ in rt.forever() {
        let (event, _) = events.recv_when_blocking(|_, due| Due::At(due.0))?;
        match event {
            Event::Line(line) => {
                println!(rt; "event_loop: {line}")?;
                let later = after(rt, IDLE)?;
                tx.change_priority(|event, _| matches!(event, Event::Idle), later);
            }
            Event::Idle => break,
        }
    }
    Ok(())
}

pub fn run<R>(rt: &R) -> anyhow::Result<()>
where
    R: Wait + Clone + Clock + Print + AllocGlobal,
{
    let (tx, events) = unbounded(rt, rt.alloc())?;
    for line in ["a first line", "a second line"] {
        tx.try_send(Event::Line(line), after(rt, 0)?)?;
    }
    react(rt, &tx, &events)?;
    println!(rt; "event_loop: idle, with {} left", events.len())?;
    Ok(())
}

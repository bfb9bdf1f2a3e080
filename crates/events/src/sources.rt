//! Where events come from: each source is a thread.
use crate::event::{Event, Rank};
use async_priority_channel::{Sender, TrySendError, WeakSender};
use std::alloc::AllocGlobal;
use std::io::{BufRead, BufReader};
use std::sync::Wait;
use std::thread;
use std::time::{Clock, Duration};

// How many numbers are one event.
const PIECE: u64 = 10;

/// Posts the lines of the input, each before all work that waits.
pub fn post_lines<R: Input + AllocGlobal + Wait + Clone>(
    rt: &R,
    events: &Sender<Event, Rank, R>,
) -> anyhow::Result<()> {
    let input = BufReader::new(rt.alloc(), rt.reader())?;
    for line in input.lines(rt.alloc()) {
        events.send_blocking(Event::Line(line?), Rank::Urgent)?;
    }
    Ok(())
}

/// Posts the work on the numbers below `end` that falls to one of so many posters.
pub fn post_work<R: Wait + Clone>(
    events: &Sender<Event, Rank, R>,
    poster: u64,
    posters: u64,
    end: u64,
) -> anyhow::Result<()> {
    for piece in 0..end.div_ceil(PIECE) {
        if piece.checked_rem(posters) == Some(poster) {
            let first = piece.saturating_mul(PIECE);
            let work = Event::Work(first, first.saturating_add(PIECE).min(end));
            events.send_blocking(work, Rank::Idle)?;
        }
    }
    Ok(())
}

/// Ticks as long as anybody may post. A tick that finds the last one still there is left out.
pub fn tick<R: Wait + Clock + Clone>(
    rt: &R,
    ticks: &Sender<(), (), R>,
    posting: &WeakSender<Event, Rank, R>,
) -> anyhow::Result<()> {
    for _ in rt.forever() {
        if posting.upgrade().is_none() {
            break;
        }
        match ticks.try_send((), ()) {
            Ok(()) | Err(TrySendError::Full(_)) => {}
            Err(fault) => return Err(fault.into()),
        }
        thread::sleep(rt, Duration::from_millis(1));
    }
    Ok(())
}

//! An event loop: one task that answers lines of standard input, does the work that other threads
//! post when there is no line to answer, and notes the ticks of a timer. It ends once no
//! handle is left that could post.
#![tactic(auto)]

mod board;
mod event;
mod event_loop;
mod sources;

use async_priority_channel::{bounded, unbounded};
use board::Board;
use std::thread;

const POSTERS: u64 = 4;

const NUMBERS: u64 = 10_000;

fn main(rt: HostRuntime) -> anyhow::Result<()> {
    let (tx, events) = unbounded(&rt, rt.alloc())?;
    let (clock, ticks) = bounded(&rt, rt.alloc(), 1)?;
    let posting = tx.downgrade()?;
    let mut threads = Vec::new(rt.alloc());
    threads.push(thread::spawn(&rt, move || sources::tick(&rt, &clock, &posting))?)?;
    for poster in 0..POSTERS {
        let tx = tx.clone()?;
        threads.push(thread::spawn(&rt, move || {
            sources::post_work(&tx, poster, POSTERS, NUMBERS)
        })?)?;
    }
    // The last sender: once it and the posters have ended, so has the channel.
    threads.push(thread::spawn(&rt, move || sources::post_lines(&rt, &tx))?)?;

    let board = event_loop::run(&rt, &events, &ticks, Board::new(rt.stdout()))?;
    for thread in threads {
        thread.join(&rt)?;
    }
    println!(rt; "lines answered: {}", board.answered)?;
    println!(rt; "primes below {NUMBERS}: {}", board.primes)?;
    eprintln!(rt; "ticks: {}", board.ticks)?;
    Ok(())
}

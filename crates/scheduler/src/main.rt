//! Reads requests with deadlines from standard input, and prints what became of each.
//!
//! A line is a request: its name, its deadline, and how long it takes; or `cancel` and the name of
//! one that is not wanted any more. After an empty line, and at the end, the server has its turn,
//! and serves those that wait. Only a few can: of more, those of the latest deadlines are shed.
//! Times are ticks of the server's clock, which goes on only as it works: so what is printed is the
//! same however the threads run.
#![tactic(auto)]

mod desk;
mod request;
mod server;

use anyhow::ensure;
use desk::{Desk, Wish};
use std::alloc::AllocGlobal;
use std::io::{BufRead, BufReader};
use std::sync::Wait;
use std::time::{Clock, Duration};
use std::{env, thread};

// How many requests may wait.
const ROOM: u64 = 4;

// In seconds. No answer takes so long unless the server has failed.
const PATIENCE: u64 = 10;

fn main(rt: HostRuntime) -> anyhow::Result<()> {
    ensure!(
        env::args(&rt)?.nth(1).is_none(),
        "no argument is wanted: scheduler < LINES"
    );
    let (mut desk, server) = Desk::open(&rt, ROOM)?;
    let serving = thread::spawn(&rt, move || server.serve())?;
    let asked = ask_all(&rt, &mut desk);
    drop(desk); // no turn comes any more, which ends the server
    serving.join(&rt);
    asked
}

fn ask_all<R>(rt: &R, desk: &mut Desk<R>) -> anyhow::Result<()>
where
    R: Wait + Clone + Clock + Input + Print + AllocGlobal,
{
    let input = BufReader::new(rt.alloc(), rt.reader())?;
    for line in input.lines(rt.alloc()) {
        let line = line?;
        let words: Vec<&str> = line.split_whitespace().collect(rt.alloc())?;
        match words.as_slice() {
            [] => print_answers(rt, desk)?,
            ["cancel", name] => desk.cancel(name)?,
            words => desk.ask(rt, Wish::parse(rt.alloc(), words)?)?,
        }
    }
    print_answers(rt, desk)
}

fn print_answers<R>(rt: &R, desk: &mut Desk<R>) -> anyhow::Result<()>
where
    R: Wait + Clone + Clock + Print + AllocGlobal,
{
    for (name, answer) in desk.answers(rt, Duration::from_secs(PATIENCE))? {
        println!(rt; "{name}: {answer}")?;
    }
    Ok(())
}

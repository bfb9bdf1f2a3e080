//! What a message costs: the program that `benches/run` times.
//!
//! `bench 'ROW'` runs a row and prints two numbers: how many nanoseconds it took, or of a row of
//! `memory` by how many bytes the process grew, and a sum of what came. `ROWS` shows what a row is
//! made of. With no arguments it runs each of `ROWS` and prints it with its sum, which is the same
//! each time.
#![tactic(auto)]

mod calls;
mod choosing;
mod crawl;
mod delays;
mod due;
mod handles;
mod load;
mod measure;
mod memory;
mod names;
mod one_thread;
mod relays;
mod tasks;
mod threads;
mod witnessed;
mod workers;

use anyhow::bail;
use calls::{CALLS, Calls};
use load::{LOADS, Load};
use measure::Measure;
use names::named;
use std::alloc::AllocGlobal;
use std::env;
use std::fs::Files;
use std::time::CpuClock;
use threads::Machine;

// Each ends with its count of messages.
const ROWS: [&str; 31] = [
    // How priorities come, how many pairs are pending.
    "core random 0 1000",
    "core equal 100 1000",
    // How priorities come, to how many pairs it is filled.
    "fill random 100 1000",
    "drain random 100 1000",
    // How priorities come, how many pairs are pending where there is room for no more.
    "evicting rising 100 1000",
    // How priorities come, how many pairs are pending.
    "change random 100 1000",
    "count random 100 1000",
    "receive_if random 100 1000",
    // By which calls, how many messages are pending.
    "handles try 0 1000",
    "handles blocking 100 1000",
    "handles future 100 1000",
    "handles lease 100 1000",
    "handles kept 100 1000",
    // How many messages are pending.
    "witnessed 100 1000",
    // How many messages go in one call.
    "batches 8 960",
    // By which calls, how many senders, receivers, and which capacity.
    "relay try 4 4 10 1600",
    "relay blocking 16 1 1 1600",
    "relay future 4 4 10 1600",
    "relay stream 4 4 10 1600",
    "relay task 4 4 10 1600",
    // By which calls, how many workers, and how many jobs go out before their answers come.
    "workers try 1 1 100",
    "workers blocking 4 1 100",
    "workers future 4 16 160",
    // How many workers.
    "crawl 4 1000",
    // By which calls, of how many of a thousand calls, how many threads a side, and which capacity.
    "delay blocking 999 4 10 1600",
    "delay try 1000 4 10 1600",
    // Of how many of a thousand delayed messages, and how many workers.
    "due 1000 4 1000",
    // By which calls.
    "wake blocking 20",
    "wake future 20",
    // In what they are kept.
    "memory core 1000",
    "memory handles 1000",
];

fn main(rt: HostRuntime) -> anyhow::Result<()> {
    match env::args(&rt)?.nth(1) {
        Some(row) => {
            let measure = run(rt, &row)?;
            println!(rt; "{} {}", measure.amount, measure.sum)?;
        }
        None => {
            for row in ROWS {
                let measure = run(rt, row)?;
                println!(rt; "{row}: {}", measure.sum)?;
            }
        }
    }
    Ok(())
}

fn run<R: Machine + CpuClock + Files>(rt: R, row: &str) -> anyhow::Result<Measure> {
    let words: Vec<&str> = row.split_whitespace().collect(rt.alloc())?;
    let numbers = words.iter().filter_map(|word| word.parse().ok());
    let numbers: Vec<u64> = numbers.collect(rt.alloc())?;
    match (words.as_slice(), numbers.as_slice()) {
        (["witnessed", _, _], [pending, count]) => witnessed::steady(&rt, *pending, *count),
        (["handles", "kept", ..], [pending, count]) => handles::kept(&rt, *pending, *count),
        (["batches", _, _], [size, count]) => handles::batches(&rt, *size, *count),
        (["relay", "task", ..], [senders, receivers, capacity, count]) => {
            tasks::relay(&rt, *senders, *receivers, *capacity, *count)
        }
        (["due", _, _, _], [permille, workers, count]) => due::due(rt, *permille, *workers, *count),
        (["crawl", _, _], [workers, count]) => crawl::crawl(rt, *workers, *count),
        (["memory", "core", _], [count]) => memory::core(&rt, *count),
        (["memory", "handles", _], [count]) => memory::handles(&rt, *count),
        ([name, word, ..], numbers) => run_named(rt, name, word, numbers),
        _ => bail!("no row: {row}"),
    }
}

// A row whose second word names its calls or its load.
fn run_named<R>(rt: R, name: &str, word: &str, numbers: &[u64]) -> anyhow::Result<Measure>
where
    R: Machine + CpuClock,
{
    if let Some(calls) = named(word, &CALLS) {
        return run_calls(rt, name, calls, numbers);
    }
    match (named(word, &LOADS), numbers) {
        (Some(load), [pending, count]) => run_core(&rt, name, load, *pending, *count),
        _ => bail!("no row: {name} {word} {numbers:?}"),
    }
}

fn run_calls<R>(rt: R, name: &str, calls: Calls, numbers: &[u64]) -> anyhow::Result<Measure>
where
    R: Machine + CpuClock,
{
    match (name, numbers) {
        ("handles", [pending, count]) => handles::steady(&rt, calls, *pending, *count),
        ("relay", [senders, receivers, capacity, count]) => {
            relays::relay(rt, calls, *senders, *receivers, *capacity, *count)
        }
        ("workers", [workers, jobs, count]) => {
            workers::workers(rt, calls, *workers, *jobs, *count)
        }
        ("delay", [permille, threads, capacity, count]) => {
            delays::delay(rt, calls, *permille, *threads, *capacity, *count)
        }
        ("wake", [count]) => workers::wake(rt, calls, *count),
        _ => bail!("no row of calls: {name} {numbers:?}"),
    }
}

fn run_core<R>(rt: &R, name: &str, load: Load, pending: u64, count: u64) -> anyhow::Result<Measure>
where
    R: CpuClock + AllocGlobal,
{
    match name {
        "core" => one_thread::steady(rt, load, pending, count),
        "fill" => one_thread::fill(rt, load, pending, count),
        "drain" => one_thread::drain(rt, load, pending, count),
        "evicting" => one_thread::evicting(rt, load, pending, count),
        "change" => choosing::change(rt, load, pending, count),
        "count" => choosing::count(rt, load, pending, count),
        "receive_if" => choosing::receive(rt, load, pending, count),
        _ => bail!("no row of the core: {name}"),
    }
}

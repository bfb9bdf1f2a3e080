//! By how much a process grows that keeps so many pending messages.

use crate::calls::Host;
use crate::load::Load;
use crate::measure::Measure;
use crate::{handles, one_thread};
use anyhow::bail;
use std::alloc::AllocGlobal;
use std::fs::{self, Files};

pub fn core<R>(rt: &R, count: u64) -> anyhow::Result<Measure>
where
    R: Files + AllocGlobal,
{
    let before = peak(rt)?;
    let core = one_thread::filled(rt, Load::Random, count)?;
    let after = peak(rt)?;
    Ok(growth(before, after, core.len()))
}

pub fn handles<R>(rt: &R, count: u64) -> anyhow::Result<Measure>
where
    R: Host + Files,
{
    let before = peak(rt)?;
    let (_tx, rx) = handles::filled(rt, count)?;
    let after = peak(rt)?;
    Ok(growth(before, after, rx.len()))
}

fn growth(before: u64, after: u64, sum: u64) -> Measure {
    Measure {
        amount: u128::from(after.saturating_sub(before)),
        sum,
    }
}

// The most bytes that the process has had in memory, as Linux tells.
fn peak<R: Files + AllocGlobal>(rt: &R) -> anyhow::Result<u64> {
    let status = fs::read_to_string(rt, "/proc/self/status")?;
    for line in status.lines() {
        let mut words = line.split_whitespace();
        if let (Some("VmHWM:"), Some(kibibytes)) = (words.next(), words.next()) {
            let kibibytes: u64 = kibibytes.parse()?;
            return Ok(kibibytes.saturating_mul(1024));
        }
    }
    bail!("no peak of memory is told")
}

//! Reads a script of calls from standard input, makes them on one channel, and prints each answer.
#![tactic(auto)]

mod call;
mod channel;
mod run;
#[cfg(test)]
mod tests;

use run::prio_run;
use std::process::ExitCode;

fn main(rt: HostRuntime) -> ExitCode {
    let (input, mut answers, mut faults) = (rt.stdin(), rt.stdout(), rt.stderr());
    ExitCode::from(prio_run(&rt, rt.alloc(), input, &mut answers, &mut faults))
}

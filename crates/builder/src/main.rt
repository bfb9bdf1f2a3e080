//! Builds targets that depend on one another, read from standard input: some workers, and what is
//! on the longest path first. A target that fails stops those that depend on it, and no other.
#![tactic(auto)]

mod graph;
mod workers;

use anyhow::ensure;
use graph::Graph;
use std::{env, io};
use workers::build;

const WORKERS: usize = 3;

fn main(rt: HostRuntime) -> anyhow::Result<()> {
    ensure!(
        env::args(&rt)?.nth(1).is_none(),
        "no argument is wanted: builder < LINES"
    );
    let text = io::read_to_string(rt.alloc(), rt.stdin())?;
    let graph = build(rt, Graph::parse(rt.alloc(), &text)?, WORKERS)?;
    let graph = graph.lock(&rt);
    print!(rt; "{}", *graph)?;
    let is_built = graph.targets.iter().all(|target| target.is_built);
    ensure!(is_built, "not all was built");
    Ok(())
}

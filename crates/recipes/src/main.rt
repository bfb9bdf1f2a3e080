//! Recipes: what a program needs beside the calls of a channel, a file each.
#![tactic(auto)]

mod aging;
mod batches;
mod blind_bound;
mod cancel;
mod delay;
mod ends;
mod event_loop;
mod expiry;
mod fair;
mod frontier;
mod in_hand;
mod lease;
mod metrics;
mod own_queue;
mod permit;
mod pipeline;
mod producer;
mod rate;
mod replies;
mod retry;
mod tasks;
mod tenants;
mod timer;

fn main(rt: HostRuntime) -> anyhow::Result<()> {
    ends::run(rt)?;
    lease::run(&rt)?;
    retry::run(&rt)?;
    permit::run(&rt)?;
    own_queue::run(&rt)?;
    replies::run(rt)?;
    aging::run(&rt)?;
    blind_bound::run(&rt)?;
    cancel::run(&rt)?;
    frontier::run(&rt)?;
    batches::run(rt)?;
    timer::run(rt)?;
    producer::run(rt)?;
    delay::run(rt)?;
    tenants::run(rt)?;
    expiry::run(rt)?;
    rate::run(&rt)?;
    event_loop::run(&rt)?;
    fair::run(&rt)?;
    in_hand::run(&rt)?;
    pipeline::run(rt)?;
    metrics::run(&rt)?;
    tasks::run(rt)
}

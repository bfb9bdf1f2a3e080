//! Shares between tenants: one that sends many jobs does not keep the others waiting.
//!
//! You need this where all jobs are as urgent, and many share the workers. The priority of a job is
//! a round, the lowest first. A tenant's next job is one round behind its last one, and not before
//! the round that is worked on. So each tenant has a job a round, whatever the others send, and one
//! that comes late cannot make up for rounds in which it had nothing to do.

use async_priority_channel::{Sender, unbounded};
use std::alloc::AllocGlobal;
use std::cmp::Reverse;
use std::sync::Wait;

const TENANTS: usize = 3;

#[derive(Clone, Copy, Drop)]
struct Job {
    tenant: usize,
    what: &'static str,
}

#[derive(Drop)]
struct Rounds {
    current: u64,
    // Of each tenant's last job.
    last: [u64; TENANTS],
}

impl Rounds {
    // The round of the next job of this tenant.
    fn next(&mut self, tenant: usize) -> u64 {
        let last = self.last.get(tenant).copied().unwrap_or(0);
        let round = last.max(self.current).saturating_add(1);
        if let Some(last) = self.last.get_mut(tenant) {
            *last = round;
        }
        round
    }
}

fn send<R: Wait + Clone>(
    tx: &Sender<Job, Reverse<u64>, R>,
    rounds: &mut Rounds,
    job: Job,
) -> anyhow::Result<()> {
    let round = rounds.next(job.tenant);
    Ok(tx.try_send(job, Reverse(round))?)
}

pub fn run<R>(rt: &R) -> anyhow::Result<()>
where
    R: Wait + Clone + Print + AllocGlobal,
{
    let (tx, rx) = unbounded(rt, rt.alloc())?;
    let mut rounds = Rounds {
        current: 0,
        last: [0; TENANTS],
    };
    for (tenant, what) in [
        (0, "rye"),
        (0, "oats"),
        (0, "wheat"),
        (1, "barley"),
        (1, "hops"),
    ] {
        send(&tx, &mut rounds, Job { tenant, what })?;
    }
    for (job, Reverse(round)) in rx.try_iter() {
        rounds.current = round;
        println!(rt;
            "fair: {} of tenant {} in round {round}",
            job.what, job.tenant
        )?;
        if job.what == "barley" {
            let (tenant, what) = (2, "malt");
            send(&tx, &mut rounds, Job { tenant, what })?;
        }
    }
    Ok(())
}

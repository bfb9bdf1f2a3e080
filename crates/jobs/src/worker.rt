//! What a worker does.

use crate::job::{Job, Settled};
use async_priority_channel::{Receiver, Sender};
use std::cmp::Reverse;
use std::sync::Wait;

/// The priority of a job is how often it was tried: what was tried less goes first.
pub type Tries = Reverse<u8>;

/// Runs jobs until all are settled. One that has failed is put back, behind those that were tried
/// less, until it was tried often enough. Where the worker fails, its job is left to the others.
pub fn work<R: Wait + Clone>(
    jobs: &Receiver<Job, Tries, R>,
    results: &Sender<Settled, (), R>,
) -> anyhow::Result<()> {
    for mut lease in jobs.leases() {
        let job = lease.message_mut();
        let result = job.run();
        if result.is_err() && job.may_be_tried_again() {
            let tries = Reverse(job.tries);
            lease.put_back(tries);
        } else {
            results.try_send(Settled { job: *job, result }, ())?;
            lease.finish();
        }
    }
    Ok(())
}

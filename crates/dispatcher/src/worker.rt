//! The threads that do the jobs.

use crate::job::Job;
use crate::reports::Reports;
use async_priority_channel::Receiver;
use std::io::{self, Write};
use std::sync::Wait;
use std::time::Clock;

/// Does jobs until the queue has ended. It fails where no report can be written, and gives the job
/// back that it had in hand.
pub fn work<R, W>(rt: &R, jobs: &Receiver<Job, i64, R>, reports: &Reports<W>) -> io::Result<()>
where
    R: Wait + Clone + Clock,
    W: Write,
{
    // Where this fails, nothing more is to be admitted.
    let _guard = jobs.close_on_drop();
    for lease in jobs.leases() {
        let job = lease.message();
        let word = match job.run(rt) {
            Ok(()) => "done",
            Err(_) => "failed",
        };
        reports.write(rt, word, job.id.as_bytes())?;
        lease.finish(); // frees its place
    }
    Ok(())
}

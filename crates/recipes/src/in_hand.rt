//! What is in hand, by tenant, and the cancel of a job, whether it is pending or in hand.
//!
//! You need this where people watch a pool, and change their minds. A board has each job from its
//! admission to its end, with a flag that stops it. What is on the board and not pending is in
//! hand. A cancel sets the flag before it looks for the job in the channel. So it misses no job
//! that a worker takes at that moment: the worker reads the flag before each step. A permit comes
//! first, so the channel refuses no job that is on the board.

use async_priority_channel::{Lease, Sender, unbounded};
use std::alloc::AllocGlobal;
use std::collections::HashMap;
use std::sync::atomic::{AtomicBool, Ordering};
use std::sync::{Arc, Mutex, Wait};

const STEPS: u64 = 3;

#[derive(Drop)]
struct Job {
    number: u64,
    tenant: &'static str,
    stop: Arc<AtomicBool>,
}

#[derive(Drop)]
struct Board<R: Wait + Clone> {
    tx: Sender<Job, u8, R>,
    admitted: Mutex<HashMap<u64, (&'static str, Arc<AtomicBool>)>>,
}

impl<R: Wait + Clone + Print + AllocGlobal> Board<R> {
    fn admit(&self, rt: &R, number: u64, tenant: &'static str, urgency: u8) -> anyhow::Result<()> {
        let permit = self.tx.reserve_blocking()?;
        let stop = Arc::new(rt.alloc(), AtomicBool::new(false))?;
        let entry = (tenant, Arc::try_clone(&stop)?);
        self.admitted.lock(rt).insert(number, entry)?;
        permit.send(
            Job {
                number,
                tenant,
                stop,
            },
            urgency,
        );
        Ok(())
    }

    // False if the job has ended, or was never admitted.
    fn cancel(&self, rt: &R, number: u64) -> bool {
        let admitted = self.admitted.lock(rt);
        let Some((_, stop)) = admitted.get(&number) else {
            return false;
        };
        stop.store(true, Ordering::SeqCst);
        drop(admitted);
        if self.tx.take_where(|job, _| job.number == number).is_some() {
            self.end(rt, number);
        }
        true
    }

    fn end(&self, rt: &R, number: u64) {
        self.admitted.lock(rt).remove(&number);
    }

    // How many jobs of this tenant are pending, and how many in hand.
    fn status(&self, rt: &R, tenant: &str) -> (u64, u64) {
        let admitted = self.admitted.lock(rt);
        let is_theirs = |entry: &&(&str, Arc<AtomicBool>)| entry.0 == tenant;
        let all = admitted.values().filter(is_theirs).count() as u64;
        let pending = self.tx.count_where(|job, _| job.tenant == tenant);
        (pending, all.saturating_sub(pending))
    }

    fn work(&self, rt: &R, lease: Lease<'_, Job, u8, R>) -> anyhow::Result<()> {
        let job = lease.message();
        let may_go_on = |_: &u64| !job.stop.load(Ordering::SeqCst);
        let steps = (0..STEPS).take_while(may_go_on).count();
        println!(rt; "in_hand: {steps} steps of job {}", job.number)?;
        let (job, _) = lease.finish();
        self.end(rt, job.number);
        Ok(())
    }
}

// Here this thread is the worker too.
pub fn run<R: Wait + Clone + Print + AllocGlobal>(rt: &R) -> anyhow::Result<()> {
    let (tx, jobs) = unbounded(rt, rt.alloc())?;
    let admitted = Mutex::new(HashMap::new(rt.alloc()));
    let board = Board { tx, admitted };
    for (number, tenant, urgency) in [(1, "mill", 9), (2, "mill", 1), (3, "farm", 5)] {
        board.admit(rt, number, tenant, urgency)?;
    }
    let lease = jobs.try_lease()?;
    let (pending, in_hand) = board.status(rt, "mill");
    println!(rt; "in_hand: mill has {pending} pending, {in_hand} in hand")?;
    for number in [1, 2, 4] {
        let was_there = board.cancel(rt, number);
        println!(rt; "in_hand: job {number} is cancelled: {was_there}")?;
    }
    board.work(rt, lease)?;
    board.work(rt, jobs.try_lease()?)
}

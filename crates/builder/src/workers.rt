//! The threads that build: each sends what may start now that its target is built.
use crate::graph::{Graph, Job};
use async_priority_channel::{Receiver, Sender, bounded_reserved};
use std::alloc::AllocGlobal;
use std::sync::{Arc, Mutex, Wait};
use std::thread::{self, Threads};
use std::time::{Clock, Duration};

/// Builds all that can be built. What is on the longest path is received first.
pub fn build<R>(rt: R, graph: Graph, workers: usize) -> anyhow::Result<Arc<Mutex<Graph>>>
where
    R: Threads + Wait + Copy + Clock + AllocGlobal + Send + 'static,
{
    // With room for each job, which then takes no memory: none that may start is refused.
    let room = u64::from(u32::try_from(graph.targets.len())?) + 1;
    let (queue, jobs) = bounded_reserved(&rt, rt.alloc(), room)?;
    queue.try_sendv(graph.first_jobs(rt.alloc())?.into_iter().peekable())?;
    queue.close_when_done(); // the workers end once no job is pending or in hand
    let graph = Arc::new(rt.alloc(), Mutex::new(graph))?;
    let mut threads = Vec::new(rt.alloc());
    for _ in 0..workers {
        let (graph, queue, jobs) = (Arc::try_clone(&graph)?, queue.clone()?, jobs.clone()?);
        threads.push(thread::spawn(&rt, move || work(&rt, &graph, &queue, &jobs))?)?;
    }
    for thread in threads {
        thread.join(&rt)?;
    }
    Ok(graph)
}

// Where it fails, its job is left to the others.
fn work<R: Wait + Clock + Clone + AllocGlobal>(
    rt: &R,
    graph: &Mutex<Graph>,
    queue: &Sender<Job, u64, R>,
    jobs: &Receiver<Job, u64, R>,
) -> anyhow::Result<()> {
    for lease in jobs.leases() {
        let job = *lease.message();
        thread::sleep(rt, Duration::from_millis(job.cost));
        if !job.fails {
            let ready = graph.lock(rt).finish(rt.alloc(), job.id)?;
            // In one step: a free worker finds all of them, and takes the most urgent.
            queue.try_sendv(ready.into_iter().peekable())?;
        }
        lease.finish();
    }
    Ok(())
}

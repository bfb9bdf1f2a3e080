//! Which job is next, which lines are read, and what a failure ends.

use crate::admit::admit_lines;
use crate::job::Job;
use crate::reports::Reports;
use crate::worker::work;
use async_priority_channel::{Receiver, Sender, bounded, unbounded};
use refusing::watch::Watch;
use std::alloc::AllocGlobal;
use std::fmt::Debug;
use std::io::{self, BufReader, ErrorKind, Read, Write};
use std::process::Abort;
use std::sync::atomic::{AtomicUsize, Ordering};
use std::sync::{Arc, Wait};
use std::thread::Threads;
use std::time::{Clock, Duration};
use std::{str, thread};

fn expect_equal<X: PartialEq + Debug + Drop>(rt: &impl Abort, got: X, wanted: X) {
    assert_eq!(rt; got, wanted);
}

trait Host: Abort + Clock + Threads + Wait + Clone + AllocGlobal + Sync {}

impl<R: Abort + Clock + Threads + Wait + Clone + AllocGlobal + Sync> Host for R {}

// Waits, and fails if that lasts too long.
fn within<R: Host, T, F: FnOnce() -> T>(rt: &R, what: &str, wait: F) -> T
    requires { F.pre wait }
{
    Watch::new(what).over(rt, |what| panic!(rt; "waited too long for {what}"), wait)
}

// Admits lines for which there is a place, so that no worker is waited for.
fn admit<R: Host, W: Write>(
    rt: &R,
    lines: &[u8],
    queue: &Sender<Job, i64, R>,
    reports: &Reports<W>,
) -> anyhow::Result<()> {
    within(rt, "places", || admit_lines(rt, lines, queue, reports))
}

#[test]
fn the_most_urgent_of_those_that_are_here_is_next(rt: HostRuntime) {
    let lines = b"a -1 x\nb 3 x\nno job\nc 9 fail\nd 3 x\ne 9 x\n";
    let (queue, jobs) = bounded(&rt, rt.alloc(), 6).expect(&rt, "a channel");
    let mut told = Vec::new(rt.alloc());
    let reports = Reports::new(&mut told);
    let admitted = admit(&rt, lines.as_slice(), &queue, &reports);
    admitted.expect(&rt, "lines are admitted");
    drop(queue);
    let worked = within(&rt, "the jobs", || work(&rt, &jobs, &reports));
    worked.expect(&rt, "jobs are done");
    drop(reports);
    let wanted = "bad no job\nfailed c\ndone e\ndone b\ndone d\ndone a\n";
    expect_equal(&rt, str::from_utf8(&told), Ok(wanted));
}

// Gives a line at a time, and counts them.
#[derive(Drop)]
struct Lines {
    rest: &'static [u8],
    read: Arc<AtomicUsize>,
}

impl Read for Lines {
    fn read(&mut self, buf: &mut [u8]) -> io::Result<usize> {
        self.read.fetch_add(1, Ordering::SeqCst);
        let end = self.rest.iter().position(|byte| *byte == b'\n');
        let len = end.map_or(0, |end| end.saturating_add(1)).min(buf.len());
        self.rest.read(&mut buf[..len])
    }
}

// In milliseconds.
const PATIENCE: u64 = 20_000;

fn new_count<R: Abort + AllocGlobal>(rt: &R) -> Arc<AtomicUsize> {
    Arc::new(rt.alloc(), AtomicUsize::new(0)).expect(rt, "memory")
}

fn await_count<R: Abort + Clock>(rt: &R, read: &AtomicUsize, wanted: usize) {
    for _ in 0..PATIENCE {
        if read.load(Ordering::SeqCst) == wanted {
            break;
        }
        thread::sleep(rt, Duration::from_millis(1));
    }
    // Long enough for one too many to be read.
    thread::sleep(rt, Duration::from_millis(20));
    expect_equal(rt, read.load(Ordering::SeqCst), wanted);
}

fn end_one<R: Host>(rt: &R, jobs: &Receiver<Job, i64, R>) {
    let lease = within(rt, "a job", || jobs.leases().next());
    lease.expect(rt, "a job").finish();
}

#[test]
fn a_line_is_not_read_before_there_is_a_place(rt: HostRuntime) {
    let read = new_count(&rt);
    let lines = Lines {
        rest: b"a 1 x\nb 2 x\nc 3 x\n",
        read: Arc::try_clone(&read).expect(&rt, "memory"),
    };
    let (queue, jobs) = bounded(&rt, rt.alloc(), 2).expect(&rt, "a channel");
    let admitting = thread::spawn(&rt, move || {
        let lines = BufReader::new(rt.alloc(), lines)?;
        admit_lines(&rt, lines, &queue, &Reports::new(io::sink()))
    })
    .expect(&rt, "a thread");
    await_count(&rt, &read, 2);
    end_one(&rt, &jobs);
    await_count(&rt, &read, 3);
    end_one(&rt, &jobs);
    // This one finds the end.
    await_count(&rt, &read, 4);
    let admitted = within(&rt, "the end of the lines", || admitting.join(&rt));
    admitted.expect(&rt, "lines are admitted");
    expect_equal(&rt, jobs.len(), 1);
}

// Holds the end of each line until it is let go, and counts the lines that are flushed.
#[derive(Drop)]
struct Held<R: Wait + Clone> {
    let_go: Receiver<(), u64, R>,
    flushed: Arc<AtomicUsize>,
}

impl<R: Wait + Clone> Write for Held<R> {
    fn write(&mut self, bytes: &[u8]) -> io::Result<usize> {
        if bytes == b"\n".as_slice() {
            let _ = self.let_go.recv_blocking();
        }
        Ok(bytes.len())
    }

    fn flush(&mut self) -> io::Result<()> {
        self.flushed.fetch_add(1, Ordering::SeqCst);
        Ok(())
    }
}

// With one place no line is read while a job is done, and while its report is written.
#[test]
fn a_place_is_free_once_its_job_is_told(rt: HostRuntime) {
    let (read, flushed) = (new_count(&rt), new_count(&rt));
    let (go_on, let_go) = unbounded(&rt, rt.alloc()).expect(&rt, "a channel");
    let lines = Lines {
        rest: b"a 1 x\nb 2 x\n",
        read: Arc::try_clone(&read).expect(&rt, "memory"),
    };
    let held = Held {
        let_go,
        flushed: Arc::try_clone(&flushed).expect(&rt, "memory"),
    };
    let (queue, jobs) = bounded(&rt, rt.alloc(), 1).expect(&rt, "a channel");
    let admitting = thread::spawn(&rt, move || {
        let lines = BufReader::new(rt.alloc(), lines)?;
        admit_lines(&rt, lines, &queue, &Reports::new(io::sink()))
    })
    .expect(&rt, "a thread");
    let working = thread::spawn(&rt, move || work(&rt, &jobs, &Reports::new(held)));
    let working = working.expect(&rt, "a thread");
    await_count(&rt, &read, 1);
    expect_equal(&rt, go_on.try_send((), 0u64), Ok(()));
    await_count(&rt, &read, 2);
    expect_equal(&rt, flushed.load(Ordering::SeqCst), 1);
    expect_equal(&rt, go_on.try_send((), 0), Ok(()));
    let admitted = within(&rt, "the end of the lines", || admitting.join(&rt));
    admitted.expect(&rt, "lines are admitted");
    let worked = within(&rt, "the jobs", || working.join(&rt));
    worked.expect(&rt, "jobs are done");
}

#[test]
fn a_job_that_is_not_taken_is_an_error(rt: HostRuntime) {
    let (queue, jobs) = bounded(&rt, rt.alloc(), 2).expect(&rt, "a channel");
    drop(jobs.close_on_drop());
    let reports = Reports::new(io::sink());
    let admitted = admit(&rt, b"a 1 x\n".as_slice(), &queue, &reports);
    expect_equal(&rt, admitted.is_err(), true);
}

// A worker fails while a line is read, for which there is a place.
#[derive(Drop)]
struct Failing<R: Wait + Clone> {
    rest: &'static [u8],
    jobs: Receiver<Job, i64, R>,
}

impl<R: Wait + Clone> Read for Failing<R> {
    fn read(&mut self, buf: &mut [u8]) -> io::Result<usize> {
        drop(self.jobs.close_on_drop());
        self.rest.read(buf)
    }
}

#[test]
fn a_worker_that_fails_while_a_line_is_read_is_an_error(rt: HostRuntime) {
    let (queue, jobs) = bounded(&rt, rt.alloc(), 2).expect(&rt, "a channel");
    let lines = Failing {
        rest: b"a 1 x\nb 1 x\n",
        jobs: jobs.clone().expect(&rt, "a receiver"),
    };
    let lines = BufReader::new(rt.alloc(), lines).expect(&rt, "memory");
    let reports = Reports::new(io::sink());
    let admitted = within(&rt, "places", || admit_lines(&rt, lines, &queue, &reports));
    expect_equal(&rt, (admitted.is_err(), jobs.len()), (true, 1));
}

// Whoever reads the reports has gone.
#[derive(Drop)]
struct NoReader;

impl Write for NoReader {
    fn write(&mut self, _: &[u8]) -> io::Result<usize> {
        Err(io::Error::from(ErrorKind::BrokenPipe))
    }

    fn flush(&mut self) -> io::Result<()> {
        Ok(())
    }
}

#[test]
fn nothing_more_is_admitted_once_a_worker_has_failed(rt: HostRuntime) {
    let (queue, jobs) = bounded(&rt, rt.alloc(), 2).expect(&rt, "a channel");
    let reports = Reports::new(NoReader);
    let admitted = admit(&rt, b"a 1 x\n".as_slice(), &queue, &reports);
    admitted.expect(&rt, "a line is admitted");
    let worked = within(&rt, "the jobs", || work(&rt, &jobs, &reports));
    expect_equal(
        &rt,
        worked.map_err(|error| error.kind()),
        Err(ErrorKind::BrokenPipe),
    );
    drop(jobs); // with the last worker
    let more = admit(&rt, b"b 1 x\n".as_slice(), &queue, &reports);
    expect_equal(&rt, more.is_err(), true);
}

#[test]
fn nothing_more_is_admitted_though_another_worker_is_left(rt: HostRuntime) {
    let (queue, jobs) = bounded(&rt, rt.alloc(), 4).expect(&rt, "a channel");
    let other = jobs.clone().expect(&rt, "a receiver");
    let reports = Reports::new(NoReader);
    let admitted = admit(&rt, b"a 1 x\n".as_slice(), &queue, &reports);
    admitted.expect(&rt, "a line is admitted");
    let worked = within(&rt, "the jobs", || work(&rt, &jobs, &reports));
    expect_equal(&rt, worked.is_err(), true);
    expect_equal(&rt, (other.len(), other.held()), (1, 0)); // its job is left to the other
    let more = admit(&rt, b"b 1 x\n".as_slice(), &queue, &reports);
    expect_equal(&rt, more.is_err(), true);
}

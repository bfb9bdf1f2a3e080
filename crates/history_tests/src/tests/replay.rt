//! Calls on four threads, waits among them, which a plain channel explains in some order.
use super::witnessed::{Caller, Channel, Passes, Scene, play};
use super::{Host, expect_equal};
use mix::{Mix, make};
use model::CAPACITY;
use notes::{Call, Noted, Pair, Refusal, Reply, Way};
use order::is_explained;
use priority_channel_witnessed::Recording;
use std::alloc::Allocator;
use std::sync::Mutex;
use std::sync::atomic::{AtomicU64, Ordering};
use std::{mem, thread};

pub mod mix;
pub mod model;
pub mod notes;
mod order;

const CALLS: u64 = 1000;

// The calls of one pass. That of thread 0 closes the channel at last.
fn thousand<J: Recording, A: Allocator + Copy, R: Host>(
    rt: &R,
    alloc: A,
    channel: &Channel<J, A>,
    stamps: &AtomicU64,
    threads: &Mutex<Vec<Vec<Noted>>>,
    mut pass: Caller<J, A>,
) -> Caller<J, A> {
    let who = pass.number();
    let mut mix = Mix::new(who);
    let mut notes = Vec::new(rt.alloc());
    for i in 1..=CALLS {
        let call = if who == 0 && i == CALLS {
            Call::Close
        } else {
            mix.draw()
        };
        let begin = stamps.fetch_add(1, Ordering::SeqCst);
        let reply = make(rt, alloc, channel, &mut pass, call);
        let end = stamps.fetch_add(1, Ordering::SeqCst);
        let _ = notes.push(Noted {
            begin,
            end,
            call,
            reply,
        });
    }
    let _ = threads.lock(rt).push(notes);
    pass
}

/// Four threads make their calls, which some order explains.
pub fn explain_four_threads<J: Recording + Send + Sync, A: Allocator + Copy + Send + Sync, R: Host>(
    rt: &R,
    alloc: A,
    channel: &Channel<J, A>,
    passes: &mut Passes<J, A>,
) {
    let stamps = &AtomicU64::new(0);
    let threads = Mutex::new(Vec::new(rt.alloc()));
    let noted = &threads;
    let all = mem::replace(passes, Vec::new(alloc));
    *passes = thread::map_vec(
        rt,
        all,
        &|pass| thousand(rt, alloc, channel, stamps, noted, pass),
    )
    .expect(rt, "memory for the passes");
    let mut threads = threads.into_inner();
    let threads = [
        threads.pop().expect(rt, "a thread"),
        threads.pop().expect(rt, "a thread"),
        threads.pop().expect(rt, "a thread"),
        threads.pop().expect(rt, "a thread"),
    ];
    for notes in &threads {
        expect_equal(rt, notes.len() as u64, CALLS);
    }
    let is_explained = is_explained(rt, rt.alloc(), &threads);
    expect_equal(rt, is_explained.expect(rt, "memory for the search"), true);
}

#[test]
fn an_order_explains_four_threads(rt: HostRuntime) {
    play(&rt, Scene::MixedThreads, CAPACITY, 4, 4);
}

fn sent(begin: u64, end: u64, pair: Pair) -> Noted {
    Noted {
        begin,
        end,
        call: Call::Send(Way::AtOnce, pair),
        reply: Reply::Sent(Ok(())),
    }
}

fn received(begin: u64, end: u64, reply: Result<Pair, Refusal>) -> Noted {
    Noted {
        begin,
        end,
        call: Call::Recv(Way::AtOnce),
        reply: Reply::Received(reply),
    }
}

// Whether two threads' calls are explained.
fn are_explained<R: Host>(rt: &R, one: &[Noted], two: &[Noted]) -> bool {
    let alloc = rt.alloc();
    let threads = [
        Vec::from_slice(alloc, one).expect(rt, "memory"),
        Vec::from_slice(alloc, two).expect(rt, "memory"),
        Vec::new(rt.alloc()),
        Vec::new(rt.alloc()),
    ];
    is_explained(rt, alloc, &threads).expect(rt, "memory for the search")
}

fn displacing(begin: u64, end: u64, pair: Pair, out: Pair) -> Noted {
    Noted {
        begin,
        end,
        call: Call::SendEvicting(pair),
        reply: Reply::Displaced(Ok(Some(out))),
    }
}

#[test]
fn the_search_finds_an_order_where_there_is_one(rt: HostRuntime) {
    for (what, one, two, is_there) in [
        (
            "the lesser comes first",
            &[sent(0, 1, (1, 5)), sent(2, 3, (2, 9))][..],
            &[received(4, 5, Ok((1, 5))), received(6, 7, Ok((2, 9)))][..],
            false,
        ),
        (
            "the later of equals comes first",
            &[sent(0, 1, (1, 5)), sent(2, 3, (2, 5))],
            &[received(4, 5, Ok((2, 5))), received(6, 7, Ok((1, 5)))],
            false,
        ),
        (
            "it is empty after a send",
            &[sent(0, 1, (1, 5))],
            &[received(2, 3, Err(Refusal::Blocked))],
            false,
        ),
        // Only the last accepted of the least urgent makes room.
        (
            "the first of the least makes room",
            &[sent(0, 1, (1, 5)), sent(2, 3, (2, 5)), sent(4, 5, (3, 9))],
            &[displacing(6, 7, (4, 7), (1, 5))],
            false,
        ),
        (
            "the last of the least makes room",
            &[sent(0, 1, (1, 5)), sent(2, 3, (2, 5)), sent(4, 5, (3, 9))],
            &[displacing(6, 7, (4, 7), (2, 5))],
            true,
        ),
        (
            "the greatest makes room",
            &[sent(0, 1, (1, 5)), sent(2, 3, (2, 5)), sent(4, 5, (3, 9))],
            &[displacing(6, 7, (4, 7), (3, 9))],
            false,
        ),
        // Calls that overlap have either order.
        (
            "a receive that began before the send",
            &[sent(1, 3, (1, 5))],
            &[received(0, 2, Ok((1, 5)))],
            true,
        ),
        (
            "a receive that ended after the send",
            &[sent(0, 2, (1, 5))],
            &[received(1, 3, Err(Refusal::Blocked))],
            true,
        ),
    ] {
        expect_equal(&rt, (what, are_explained(&rt, one, two)), (what, is_there));
    }
}

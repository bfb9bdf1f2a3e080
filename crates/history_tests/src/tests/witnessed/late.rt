//! Messages that come after the first try of a receive: of one that is refused memory to wait, and
//! of one whose time is over.
use super::{Caller, Channel, Passes, Scene, play, send};
use crate::tests::{Host, expect_equal, wait_for};
use priority_channel_calls::receives::TryRecv;
use priority_channel_waiting::until::Deadline;
use priority_channel_witnessed::Recording;
use refusing::Refusing;
use std::alloc::{Allocator, Global};
use std::cell::{Cell, RefCell};
use std::time::{Clock, Duration};
use std::{io, thread};

/// The last try finds it.
pub(super) fn receive_late<J: Recording + Send + Sync, A: Allocator + Copy + Send + Sync, R: Host>(
    rt: &R,
    memory: &Refusing<Global>,
    channel: &Channel<J, A>,
    passes: &mut Passes<J, A>,
) {
    let receiver = passes.pop().expect(rt, "a pass");
    let mut sender = passes.pop().expect(rt, "a pass");
    memory.refuse_nth(1);
    memory.hold_nth(1);
    let ((received, receiver), sent) = thread::join(
        rt,
        || wait_for(rt, channel.start(rt, receiver, TryRecv)),
        || {
            for _ in 0..u64::MAX {
                if memory.is_holding() {
                    break;
                }
                thread::yield_now();
            }
            let sent = channel.make(rt, &mut sender, send(1, 5));
            memory.let_go();
            sent
        },
    );
    expect_equal(rt, (sent, received.ok()), (Ok(()), Some((1, 5))));
    expect_equal(rt, memory.refuse_none(), false);
    passes.push(sender).expect(rt, "its own place");
    passes.push(receiver).expect(rt, "its own place");
}

#[test]
fn a_receive_without_memory_finds_what_has_come(rt: HostRuntime) {
    expect_equal(&rt, play(&rt, Scene::LateMessage, 1, 2, 2), 0);
}

fn limit() -> Duration {
    Duration::from_secs(60)
}

/// A clock. At its third reading, the one after a wait is listed, a pass sends, and the time is
/// over.
#[derive(Drop)]
struct Bringing<'x, J: Recording, A: Allocator + Copy, R> {
    rt: &'x R,
    readings: Cell<u64>,
    channel: &'x Channel<J, A>,
    sender: RefCell<Caller<J, A>>,
}

impl<J: Recording, A: Allocator + Copy, R: Host> Clock for Bringing<'_, J, A, R> {
    fn monotonic(&self) -> io::Result<Duration> {
        self.readings.set(self.readings.get().wrapping_add(1));
        let now = self.rt.monotonic()?;
        if self.readings.get() < 3 {
            return Ok(now);
        }
        if let Ok(mut sender) = self.sender.try_borrow_mut() {
            drop(self.channel.make(self.rt, &mut sender, send(1, 5)));
        }
        Ok(now.saturating_add(limit()))
    }

    fn since_1970(&self) -> io::Result<Duration> {
        self.rt.since_1970()
    }
}

/// The last look finds it.
pub(super) fn receive_at_the_end<J: Recording, A: Allocator + Copy, R: Host>(
    rt: &R,
    channel: &Channel<J, A>,
    passes: &mut Passes<J, A>,
) {
    let mut receiver = passes.pop().expect(rt, "a pass");
    let sender = passes.pop().expect(rt, "a pass");
    let bringing = Bringing {
        rt,
        readings: Cell::new(0),
        channel,
        sender: RefCell::new(sender),
    };
    let until = Deadline::after(&bringing, limit());
    let received = channel.wait(rt, &mut receiver, TryRecv, &until);
    expect_equal(rt, received.ok(), Some((1, 5)));
    passes
        .push(bringing.sender.into_inner())
        .expect(rt, "its own place");
    passes.push(receiver).expect(rt, "its own place");
}

#[test]
fn a_receive_whose_time_is_over_finds_what_has_come(rt: HostRuntime) {
    expect_equal(&rt, play(&rt, Scene::LastMoment, 1, 2, 2), 0);
}

//! A message is dropped outside the channel's lock, whatever it is that goes with it, and so is a
//! priority.
use super::{expect_equal, expect_equal_at, is_pending};
use async_priority_channel::{Receiver, Sender, bounded};
use futures::test::MockTask;
use rank::Rank;
use std::iter::once;
use std::sync::Wait;
use std::thread;
use std::time::{Clock, Duration};

mod rank;

fn long() -> Duration {
    Duration::from_secs(5)
}

// A message or a part of a priority: its drop asks another thread to use the channel, and tells
// whether it could.
struct Asking<R: Wait + Clone + Clock> {
    ask: Sender<(), (), R>,
    used: Receiver<(), (), R>,
    told: Sender<bool, (), R>,
}

impl<R: Wait + Clone + Clock> Drop for Asking<R> {
    fn drop(self) {
        let Asking { ask, used, told } = self;
        let _ = ask.try_send((), ());
        let _ = told.try_send(used.recv_timeout(long()).is_ok(), ());
    }
}

// Uses the channel once it is asked to.
fn use_once<T: Drop, P: Ord + Drop, R: Wait + Clone + Clock>(
    asked: &Receiver<(), (), R>,
    tx: &Sender<T, P, R>,
    use_it: &Sender<(), (), R>,
) -> bool {
    let was_asked = asked.recv_timeout(long()).is_ok();
    tx.len();
    was_asked && use_it.try_send((), ()).is_ok()
}

#[derive(Clone, Copy, Debug)]
enum Holder {
    Send,
    Sendv,
    /// The channel, whose last receiver goes.
    Channel,
}

// Drops what has that message, a future as it was made or as it waits. Tells whether it had it.
fn drop_holder<T: Drop, R: Wait + Clone>(
    task: &MockTask,
    tx: &Sender<T, u64, R>,
    rx: Receiver<T, u64, R>,
    msg: T,
    (by, waits): (Holder, bool),
) -> bool {
    match by {
        Holder::Send => {
            let mut sending = tx.send(msg, 1);
            !waits || is_pending(task.poll(&mut sending))
        }
        Holder::Sendv => {
            let mut sending = tx.sendv(once((msg, 1)).peekable());
            !waits || is_pending(task.poll(&mut sending))
        }
        Holder::Channel => {
            let was_sent = rx.try_recv().is_ok() && tx.try_send(msg, 1).is_ok();
            drop(rx.close_on_drop());
            drop(rx);
            was_sent
        }
    }
}

// Under the channel's lock the drop of a message that uses it would hang.
#[test]
fn a_message_is_dropped_outside_the_lock(rt: HostRuntime) {
    let task = MockTask::new(&rt).expect(&rt, "a task");
    for by in [
        (Holder::Send, false),
        (Holder::Send, true),
        (Holder::Sendv, false),
        (Holder::Sendv, true),
        (Holder::Channel, false),
    ] {
        let (ask, asked) = bounded(&rt, rt.alloc(), 1).expect(&rt, "a channel");
        let (use_it, used) = bounded(&rt, rt.alloc(), 1).expect(&rt, "a channel");
        let (told, tells) = bounded(&rt, rt.alloc(), 1).expect(&rt, "a channel");
        let (tx, rx) = bounded(&rt, rt.alloc(), 1).expect(&rt, "a channel");
        expect_equal_at(&rt, by, tx.try_send(None, 1u64).is_ok(), true);
        let msg = Some(Asking { ask, used, told });
        let (is_dropped, is_asked) = thread::join(
            &rt,
            || drop_holder(&task, &tx, rx, msg, by),
            || use_once(&asked, &tx, &use_it),
        );
        expect_equal_at(&rt, by, (is_dropped, is_asked), (true, true));
        expect_equal_at(&rt, by, tells.try_recv(), Ok((true, ())));
    }
}

// Where no message is chosen, its priority is not needed.
#[test]
fn an_unused_priority_is_dropped_outside_the_lock(rt: HostRuntime) {
    let (ask, asked) = bounded(&rt, rt.alloc(), 1).expect(&rt, "a channel");
    let (use_it, used) = bounded(&rt, rt.alloc(), 1).expect(&rt, "a channel");
    let (told, tells) = bounded(&rt, rt.alloc(), 1).expect(&rt, "a channel");
    let (tx, rx) = bounded(&rt, rt.alloc(), 1).expect(&rt, "a channel");
    expect_equal(&rt, tx.try_send('a', Rank::new(1, None)).is_ok(), true);
    let unused = Rank::new(2, Some(Asking { ask, used, told }));
    let (is_changed, is_asked) = thread::join(
        &rt,
        || rx.change_priority(|_, _| false, unused).is_some(),
        || use_once(&asked, &tx, &use_it),
    );
    expect_equal(&rt, (is_changed, is_asked), (false, true));
    expect_equal(&rt, tells.try_recv(), Ok((true, ())));
}

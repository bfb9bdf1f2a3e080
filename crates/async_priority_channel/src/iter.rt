//! Iterators over the messages of a channel, for the loop of a worker.
ghost use Rattle.std.specs.Prelude.{◌≡◌, ◌<◌, IfSome, IfNone, None};
ghost use Rattle.std.specs.Iterator.{at_most};

use crate::handle::Handle;
use crate::receiver::Receiver;
use priority_channel_calls::receives::TryRecv;
use priority_channel_waiting::retry::Retry;
use priority_channel_waiting::timeouts::Ended;
use priority_channel_waiting::until::Endless;
use priority_channel_waiting::waiter::Waiter;
use std::alloc::{Allocator, Global};
use std::iter::FusedIterator;
use std::sync::Wait;
use std::thread::Parker;
use std::time::Duration;

// The waits of a loop. They share one waiter.
#[derive(Drop)]
pub(crate) struct Waits<A: Allocator> {
    waiter: Option<Waiter<A>>,
    // A bound by which the proof of a loop sees that it ends. No run reaches it. It is 0 once the
    // channel has ended.
    pub(crate) left: u64,
}

impl<A: Allocator + Copy> Waits<A> {
    pub(crate) fn new() -> Self {
        Waits {
            waiter: None,
            left: u64::MAX,
        }
    }

    // What a `TryRecv` or a `TryLease` brings next.
    pub(crate) fn next_on<
        T,
        P: Ord,
        R: Wait + Clone,
        C: Retry<T, P, Waiter<A>, A, Left = ()> + Copy + Drop,
    >(&mut self, handle: &Handle<T, P, R, A>, call: C) -> Option<C::Done>
        requires { C.can_make call }
        ensures shorter { IfSome result (λ _. self.new.left < self.old.left) }
        ensures ended { IfNone result (self.new.left ≡ 0) }
        ensures stays_ended { self.old.left ≡ 0 → result ≡ None }
    {
        if self.left == 0 {
            return None;
        }
        self.left -= 1;
        let received = wait_without_fail(handle, call, &mut self.waiter);
        if received.is_none() {
            self.left = 0;
        }
        received
    }
}

// Waits until a message is there or none can come. A wait takes memory, and a try does not.
fn wait_without_fail<
    T,
    P: Ord,
    R: Wait + Clone,
    A: Allocator + Copy,
    C: Retry<T, P, Waiter<A>, A, Left = ()> + Copy + Drop,
>(handle: &Handle<T, P, R, A>, call: C, waiter: &mut Option<Waiter<A>>) -> Option<C::Done>
    requires { C.can_make call }
{
    for _ in handle.rt().forever() {
        match handle.wait(call, &Endless, waiter) {
            Ok(done) => return Some(done),
            Err(Ended::Closed(_)) => return None,
            Err(Ended::Memory(_)) => pause(handle.rt()),
            Err(Ended::Over(_, never)) => match never {},
        }
    }
    unreachable!()
}

// Sleeps for a millisecond, without memory and without a clock.
fn pause<R: Wait>(rt: &R) {
    Parker::new().park_timeout(rt, Duration::from_millis(1));
}

/// The messages of a channel, until the channel is closed and empty. The thread waits for each of
/// them. `Receiver::iter` and `for pair in &rx` make it.
///
/// It never fails: if memory for waiting is refused, it sleeps for a millisecond and tries again.
///
/// Cost: as `recv_blocking` for each message. All waits share one waiter.
#[must_use = "it receives nothing until it is asked for the next message"]
pub struct Iter<'a, T, P: Ord, R: Wait + Clone, A: Allocator + Copy = Global> {
    receiver: &'a Receiver<T, P, R, A>,
    waits: Waits<A>,
}

impl<'a, T, P: Ord, R: Wait + Clone, A: Allocator + Copy> Drop for Iter<'a, T, P, R, A> {
    fn drop(self) {
        let Iter {
            receiver: _,
            waits: _,
        } = self;
    }
}

impl<'a, T, P: Ord, R: Wait + Clone, A: Allocator + Copy> Iterator for Iter<'a, T, P, R, A> {
    type Item = (T, P);

    ghost remaining = { λ s. at_most s.waits.left };

    fn next(&mut self) -> Option<(T, P)> {
        let receiver = self.receiver;
        self.waits.next_on(&receiver.handle, TryRecv)
    }
}

impl<'a, T, P: Ord, R: Wait + Clone, A: Allocator + Copy> FusedIterator for Iter<'a, T, P, R, A> {}

/// As `Iter`, with its own receiver, which is dropped with it. `for pair in rx` makes it.
///
/// Cost: as an `Iter`.
#[derive(Drop)]
#[must_use = "it receives nothing until it is asked for the next message"]
pub struct IntoIter<T, P: Ord, R: Wait + Clone, A: Allocator + Copy = Global> {
    receiver: Receiver<T, P, R, A>,
    waits: Waits<A>,
}

impl<T: Drop, P: Ord + Drop, R: Wait + Clone, A: Allocator + Copy> Iterator
    for IntoIter<T, P, R, A> {
    type Item = (T, P);

    ghost remaining = { λ s. at_most s.waits.left };

    fn next(&mut self) -> Option<(T, P)> {
        self.waits.next_on(&self.receiver.handle, TryRecv)
    }
}

impl<T: Drop, P: Ord + Drop, R: Wait + Clone, A: Allocator + Copy> FusedIterator
    for IntoIter<T, P, R, A> {}

/// The messages that are pending, until there is none. `Receiver::try_iter` makes it. Once it has
/// found none, it stays ended.
///
/// Cost: as `try_recv` for each message.
#[must_use = "it receives nothing until it is asked for the next message"]
pub struct TryIter<'a, T, P: Ord, R: Wait + Clone, A: Allocator + Copy = Global> {
    receiver: &'a Receiver<T, P, R, A>,
    // As in `Waits`.
    left: u64,
}

impl<'a, T, P: Ord, R: Wait + Clone, A: Allocator + Copy> Drop for TryIter<'a, T, P, R, A> {
    fn drop(self) {
        let TryIter {
            receiver: _,
            left: _,
        } = self;
    }
}

impl<'a, T, P: Ord, R: Wait + Clone, A: Allocator + Copy> Iterator for TryIter<'a, T, P, R, A> {
    type Item = (T, P);

    ghost remaining = { λ s. at_most s.left };

    fn next(&mut self) -> Option<(T, P)> {
        if self.left == 0 {
            return None;
        }
        self.left -= 1;
        let received = self.receiver.try_recv().ok();
        if received.is_none() {
            self.left = 0;
        }
        received
    }
}

impl<'a, T, P: Ord, R: Wait + Clone, A: Allocator + Copy> FusedIterator
    for TryIter<'a, T, P, R, A> {}

/// The loop `for pair in &rx`, as `iter`.
///
/// Cost: none until it is asked for a message (see `Iter`).
impl<'a, T, P: Ord, R: Wait + Clone, A: Allocator + Copy> IntoIterator
    for &'a Receiver<T, P, R, A> {
    type Item = (T, P);

    type IntoIter = Iter<'a, T, P, R, A>;

    fn into_iter(self) -> Iter<'a, T, P, R, A> {
        self.iter()
    }
}

/// The loop `for pair in rx`, which drops the receiver at its end.
///
/// Cost: none until it is asked for a message (see `IntoIter`).
impl<T: Drop, P: Ord + Drop, R: Wait + Clone, A: Allocator + Copy> IntoIterator
    for Receiver<T, P, R, A> {
    type Item = (T, P);

    type IntoIter = IntoIter<T, P, R, A>;

    fn into_iter(self) -> IntoIter<T, P, R, A> {
        IntoIter {
            receiver: self,
            waits: Waits::new(),
        }
    }
}

impl<T, P: Ord, R: Wait + Clone, A: Allocator + Copy> Receiver<T, P, R, A> {
    /// The messages one after another, until the channel is closed and empty. This thread waits for
    /// each of them. A worker loops over it, and the proof sees that the loop ends.
    ///
    /// Cost: none until it is asked for a message (see `Iter`).
    ///
    /// ```
    /// let (tx, rx) = unbounded(&rt, rt.alloc())?;
    /// tx.try_send("tidy up", 1)?;
    /// tx.try_send("put out the fire", 9)?;
    /// drop(tx);
    /// let mut jobs = rx.iter().map(|(job, _)| job);
    /// assert_eq!(rt; jobs.next(), Some("put out the fire"));
    /// assert_eq!(rt; jobs.next(), Some("tidy up"));
    /// assert_eq!(rt; jobs.next(), None);
    /// ```
    pub fn iter(&self) -> Iter<'_, T, P, R, A> {
        Iter {
            receiver: self,
            waits: Waits::new(),
        }
    }

    /// The messages that are pending, until there is none. It never waits, and stays ended.
    ///
    /// Cost: none until it is asked for a message (see `TryIter`).
    ///
    /// ```
    /// let (tx, rx) = unbounded(&rt, rt.alloc())?;
    /// tx.try_send("tidy up", 1)?;
    /// tx.try_send("put out the fire", 9)?;
    /// let mut jobs = rx.try_iter();
    /// assert_eq!(rt; jobs.next(), Some(("put out the fire", 9)));
    /// assert_eq!(rt; jobs.next(), Some(("tidy up", 1)));
    /// assert_eq!(rt; jobs.next(), None);
    /// tx.try_send("call for help", 9)?;
    /// assert_eq!(rt; jobs.next(), None);
    /// ```
    pub fn try_iter(&self) -> TryIter<'_, T, P, R, A> {
        TryIter {
            receiver: self,
            left: u64::MAX,
        }
    }
}

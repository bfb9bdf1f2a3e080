//! Calls that receive many messages.
ghost use Rattle.std.specs.Prelude.{◌≡◌, ◌<◌, ⊤, ℕ, true, false, IfOk, IfSome, IfNone, OnErr, Result, vec_len, vec_capacity};
ghost use Rattle.futures.specs.Task.{Covers, Keeps};
ghost use Rattle.futures.specs.Poll.{IfReady, OnPending};
ghost use Rattle.priority_channel_core.specs.declared.errors.RecvFault.{RecvFault};
ghost use Rattle.async_priority_channel.specs.Batches.{Appends, IsWithin};

use crate::receiver::Receiver;
use crate::waiting::{RecvState, Task};
use futures::Future;
use futures::task::{Context, Poll};
use priority_channel_calls::receives::TryRecv;
use priority_channel_core::errors::{RecvError, RecvFault, TryRecvManyError};
use priority_channel_waiting::states::One;
use priority_channel_waiting::timeouts::{Ended, RecvTimeoutError};
use priority_channel_waiting::until::{Deadline, Endless, Until};
use std::alloc::{Allocator, Global};
use std::marker::Model;
use std::sync::Wait;
use std::time::{Clock, Duration, Instant};

impl<T, P: Ord, R: Wait + Clone, A: Allocator + Copy> Receiver<T, P, R, A> {
    /// Receives up to `limit` messages at once, appends them to `batch`, the greatest priority
    /// first, and returns how many came. It is like that many calls of `try_recv` with no other
    /// call between them.
    ///
    /// The error is that of one receive, also with a `limit` of 0, or `Memory` if there is no
    /// memory for a first message. If `batch` has no room for `limit` messages, it first reads the
    /// length, and reserves memory for the pending messages. If that is refused, as many messages
    /// come as there is room for. So fewer may come than are pending and than `limit`: what other
    /// threads send after the length was read may have no memory here.
    ///
    /// Cost: as `try_recv` for each message that comes, in one hold of the lock. If `batch` lacks
    /// room, memory for the messages, and another hold.
    ///
    /// ```
    /// let (tx, rx) = unbounded(&rt, rt.alloc())?;
    /// let jobs = [("compile", 2), ("link", 1), ("test", 3)];
    /// tx.try_sendv(jobs.into_iter().peekable())?;
    /// let mut batch = Vec::new(rt.alloc());
    /// assert_eq!(rt; rx.try_recv_many(&mut batch, 2), Ok(2));
    /// assert_eq!(rt; batch.as_slice(), [("test", 3), ("compile", 2)].as_slice());
    /// assert_eq!(rt; rx.len(), 1);
    /// ```
    pub fn try_recv_many<B: Allocator>(
        &self,
        batch: &mut Vec<(T, P), B>,
        limit: usize,
    ) -> Result<usize, TryRecvManyError>
        ensures appended { IfOk result (Appends batch.old.items batch.new.items) }
        ensures limited { IfOk result (IsWithin limit) }
        ensures unchanged { OnErr result (batch.new.items ≡ batch.old.items) }
    {
        self.make_room(batch, limit);
        let most = limit.min(batch.capacity() - batch.len());
        let mut locked = self.handle.lock();
        let (received, to_wake) = locked.receive_many(self.handle.alloc(), batch, most);
        to_wake.wake(self.handle.rt(), locked);
        match received {
            Ok(0) if limit > 0 => Err(TryRecvManyError::Memory),
            Ok(count) => Ok(count),
            Err(error) => Err(TryRecvManyError::from(error)),
        }
    }

    // Reserves memory for the pending messages. A batch with room for `limit` messages needs no
    // look at how many are pending.
    fn make_room<B: Allocator>(&self, batch: &mut Vec<(T, P), B>, limit: usize)
        ensures { batch.new.items ≡ batch.old.items }
    {
        if batch.capacity() - batch.len() < limit {
            reserve(batch, limit, self.len());
        }
    }

    /// As `try_recv_many`, but waits for the first message on this thread, which sleeps meanwhile.
    /// With a `limit` of 0 it does not wait: it returns 0, or `Closed` if the channel is closed and
    /// empty. The errors are those of `recv_blocking`, and `Memory` for `batch`.
    ///
    /// If it has to wait, it receives the first message when it comes, and right after it the
    /// messages that are pending by then.
    ///
    /// Cost: as `try_recv_many`, and as `recv_blocking` if nothing is pending.
    ///
    /// ```
    /// let (tx, rx) = bounded(&rt, rt.alloc(), 10)?;
    /// let sending = thread::spawn(&rt, move || tx.send_blocking("Foo", 0))?;
    /// let mut batch = Vec::new(rt.alloc());
    /// assert_eq!(rt; rx.recv_many_blocking(&mut batch, 64), Ok(1));
    /// assert_eq!(rt; batch.pop(), Some(("Foo", 0)));
    /// assert_eq!(rt; sending.join(&rt), Ok(()));
    /// let ended = rx.recv_many_blocking(&mut batch, 64);
    /// assert_eq!(rt; ended, Err(RecvFault::Closed(RecvError)));
    /// ```
    pub fn recv_many_blocking<B: Allocator>(
        &self,
        batch: &mut Vec<(T, P), B>,
        limit: usize,
    ) -> Result<usize, RecvFault>
        ensures appended { IfOk result (Appends batch.old.items batch.new.items) }
        ensures limited { IfOk result (IsWithin limit) }
        ensures unchanged { OnErr result (batch.new.items ≡ batch.old.items) }
    {
        Ok(self.recv_many_until(batch, limit, &Endless)?)
    }

    /// As `recv_many_blocking`, but waits for a first message no longer than `timeout`, as
    /// `recv_timeout` does. It does not wait for further messages. `Timeout` is returned if none
    /// came.
    ///
    /// Cost: as `recv_many_blocking`, and readings of the clock.
    ///
    /// ```
    /// let (tx, rx) = bounded(&rt, rt.alloc(), 10)?;
    /// let limit = Duration::from_millis(5);
    /// let mut batch = Vec::new(rt.alloc());
    /// let late = rx.recv_many_timeout(&mut batch, 8, limit);
    /// assert_eq!(rt; late, Err(RecvTimeoutError::Timeout));
    /// tx.try_send("Foo", 0)?;
    /// tx.try_send("Bar", 2)?;
    /// assert_eq!(rt; rx.recv_many_timeout(&mut batch, 8, limit), Ok(2));
    /// assert_eq!(rt; batch.as_slice(), [("Bar", 2), ("Foo", 0)].as_slice());
    /// ```
    pub fn recv_many_timeout<B: Allocator>(
        &self,
        batch: &mut Vec<(T, P), B>,
        limit: usize,
        timeout: Duration,
    ) -> Result<usize, RecvTimeoutError>
    where
        R: Clock,
        ensures appended { IfOk result (Appends batch.old.items batch.new.items) }
        ensures limited { IfOk result (IsWithin limit) }
        ensures unchanged { OnErr result (batch.new.items ≡ batch.old.items) }
    {
        let deadline = Deadline::after(self.handle.rt(), timeout);
        Ok(self.recv_many_until(batch, limit, &deadline)?)
    }

    /// As `recv_many_timeout`, but waits no longer than until `deadline`.
    ///
    /// Cost: as `recv_many_timeout`.
    ///
    /// ```
    /// let (tx, rx) = bounded(&rt, rt.alloc(), 10)?;
    /// let limit = Duration::from_millis(5);
    /// let deadline = Instant::now(&rt)?.checked_add(limit).expect(&rt, "too late");
    /// let mut batch = Vec::new(rt.alloc());
    /// tx.try_send("Foo", 0)?;
    /// assert_eq!(rt; rx.recv_many_deadline(&mut batch, 8, deadline), Ok(1));
    /// let late = rx.recv_many_deadline(&mut batch, 8, deadline);
    /// assert_eq!(rt; late, Err(RecvTimeoutError::Timeout));
    /// ```
    pub fn recv_many_deadline<B: Allocator>(
        &self,
        batch: &mut Vec<(T, P), B>,
        limit: usize,
        deadline: Instant,
    ) -> Result<usize, RecvTimeoutError>
    where
        R: Clock,
        ensures appended { IfOk result (Appends batch.old.items batch.new.items) }
        ensures limited { IfOk result (IsWithin limit) }
        ensures unchanged { OnErr result (batch.new.items ≡ batch.old.items) }
    {
        let deadline = Deadline::at(self.handle.rt(), deadline);
        Ok(self.recv_many_until(batch, limit, &deadline)?)
    }

    fn recv_many_until<B: Allocator, U: Until>(
        &self,
        batch: &mut Vec<(T, P), B>,
        limit: usize,
        until: &U,
    ) -> Result<usize, Ended<(), U::Over>>
        ensures appended { IfOk result (Appends batch.old.items batch.new.items) }
        ensures limited { IfOk result (IsWithin limit) }
        ensures unchanged { OnErr result (batch.new.items ≡ batch.old.items) }
    {
        match self.answer_at_once(batch, limit) {
            Some(Ok(count)) => Ok(count),
            Some(Err(RecvFault::Closed(_))) => Err(Ended::Closed(())),
            Some(Err(RecvFault::Memory)) => Err(Ended::Memory(())),
            None => {
                let first = self.handle.wait(TryRecv, until, &mut None)?;
                Ok(self.receive_with(first, batch, limit))
            }
        }
    }

    // None if the caller has to wait for a first message, for which there is then capacity.
    fn answer_at_once<B: Allocator>(
        &self,
        batch: &mut Vec<(T, P), B>,
        limit: usize,
    ) -> Option<Result<usize, RecvFault>>
        ensures appended { IfSome result (λ answer.
            IfOk answer (Appends batch.old.items batch.new.items)) }
        ensures limited { IfSome result (λ answer. IfOk answer (IsWithin limit)) }
        ensures unchanged { IfSome result (λ answer.
            OnErr answer (batch.new.items ≡ batch.old.items)) }
        ensures waits { IfNone result ((batch.new.items ≡ batch.old.items)
            × (vec_len batch.new < vec_capacity batch.new) × (0 < limit)) }
    {
        match self.try_recv_many(batch, limit) {
            Ok(count) => Some(Ok(count)),
            Err(TryRecvManyError::Closed) => Some(Err(RecvFault::Closed(RecvError))),
            Err(TryRecvManyError::Memory) => Some(Err(RecvFault::Memory)),
            Err(TryRecvManyError::Empty) => {
                if limit == 0 {
                    return Some(Ok(0));
                }
                match batch.reserve(1) {
                    Ok(()) => None,
                    Err(_) => Some(Err(RecvFault::Memory)),
                }
            }
        }
    }

    // Appends the first message, for which there is capacity, and the messages that are pending
    // behind it.
    fn receive_with<B: Allocator>(
        &self,
        first: (T, P),
        batch: &mut Vec<(T, P), B>,
        limit: usize,
    ) -> usize
        requires fits { vec_len batch.old < vec_capacity batch.old }
        requires positive { 0 < limit }
        ensures appended { Appends batch.old.items batch.new.items result }
        ensures limited { IsWithin limit result }
    {
        batch.push_reserved(first);
        match self.try_recv_many(batch, limit - 1) {
            Ok(more) => more + 1,
            Err(_) => 1,
        }
    }

    /// As `recv_many_blocking`, but as a future, which does nothing until it is polled. If it is
    /// dropped before it has answered, it takes nothing. A poll may be two steps: it finds nothing,
    /// and looks again as it is listed.
    ///
    /// Cost: none until it is polled (see `RecvMany`).
    ///
    /// ```
    /// let (tx, rx) = unbounded(&rt, rt.alloc())?;
    /// tx.try_send("Foo", 0)?;
    /// let mut batch = Vec::new(rt.alloc());
    /// let count = block_on(&rt, rx.recv_many(&mut batch, 64))??;
    /// assert_eq!(rt; count, 1);
    /// assert_eq!(rt; batch.first(), Some(&("Foo", 0)));
    /// ```
    pub fn recv_many<'a, B: Allocator>(
        &'a self,
        batch: &'a mut Vec<(T, P), B>,
        limit: usize,
    ) -> RecvMany<'a, T, P, B, R, A>
        ensures { result ≡ record {
          channel = self.now;
          limit = limit;
          batch = batch.entry.now.items;
          is_done = false;
        } }
    {
        RecvMany {
            receiver: self,
            batch,
            limit,
            task: Task::new(RecvState::new()),
            is_done: false,
        }
    }
}

// Reserves memory for the pending messages, up to `limit`, and for at least one, since a message
// may come before the receive. If memory is refused, the capacity that is there must do.
fn reserve<X, B: Allocator>(batch: &mut Vec<X, B>, limit: usize, pending: u64)
    ensures { batch.new.items ≡ batch.old.items }
{
    let wanted = usize::try_from(pending).unwrap_or(usize::MAX).max(1);
    let _ = batch.reserve(limit.min(wanted));
}

/// Receives many messages once there is one. `Receiver::recv_many` makes it.
///
/// If it is polled again after its answer, it does as a `Recv` (see `Waiting`).
///
/// Cost: as `try_recv_many`, and as a poll of a `Recv` if nothing is pending.
#[must_use = "a future does nothing until it is polled: `block_on`, or a call that ends in `_blocking`"]
pub struct RecvMany<'a, T, P: Ord, B: Allocator, R: Wait + Clone, A: Allocator + Copy = Global> {
    receiver: &'a Receiver<T, P, R, A>,
    batch: &'a mut Vec<(T, P), B>,
    limit: usize,
    task: Task<(), One, A>,
    is_done: bool,
}

impl<'a, T, P: Ord, B: Allocator, R: Wait + Clone, A: Allocator + Copy> Model
    for RecvMany<'a, T, P, B, R, A> {
    ghost use Rattle.async_priority_channel.specs.Handles.{Batching};

    ghost Value = { Batching (T × P) };

    ghost view = { λ f. record {
      channel = f.receiver.now;
      limit = f.limit;
      batch = f.batch.now.items;
      is_done = f.is_done;
    } };
}

impl<T, P: Ord, B: Allocator, R: Wait + Clone, A: Allocator + Copy> Future
    for RecvMany<'_, T, P, B, R, A> {
    type Output = Result<usize, RecvFault>;

    ghost needs = { λ f source. source ≡ f.channel.message };

    ghost gives = { λ f answer. IfOk answer (IsWithin f.limit) };

    fn poll(&mut self, cx: &mut Context<'_>) -> Poll<Result<usize, RecvFault>>
        ensures value { IfReady result (λ answer. IfOk answer (IsWithin self.old.limit)) }
        ensures appended { IfReady result (λ answer. IfOk answer
            (Appends self.old.batch self.new.batch)) }
        ensures refused { IfReady result (λ answer. OnErr answer
            (self.new.batch ≡ self.old.batch)) }
        ensures again { OnPending result ⊤ }
        ensures same { OnPending result ((x : Result ℕ RecvFault) → IfOk x (IsWithin self.new.limit)
            → IfOk x (IsWithin self.old.limit)) }
        ensures registered { OnPending result (Covers cx.new (λ source.
            source ≡ self.new.channel.message)) }
        ensures kept { Keeps cx.old cx.new }
        ensures channel { self.new.channel ≡ self.old.channel }
        ensures answered { IfReady result (λ _. self.new.is_done ≡ true) }
        ensures waits { self.old.is_done ≡ false → OnPending result (self.new ≡ self.old) }
        ensures done { self.old.is_done ≡ true → (result ≡ Poll.Pending) × (self.new ≡ self.old) }
    {
        if self.is_done {
            return cx.yield_now();
        }
        let receiver = self.receiver;
        let polled = poll_batch(receiver, &mut *self.batch, self.limit, &mut self.task, cx);
        self.is_done = matches!(&polled, Poll::Ready(_));
        polled
    }
}

// Polls over the fields of a future that is not done.
fn poll_batch<T, P: Ord, B: Allocator, R: Wait + Clone, A: Allocator + Copy>(
    receiver: &Receiver<T, P, R, A>,
    batch: &mut Vec<(T, P), B>,
    limit: usize,
    task: &mut Task<(), One, A>,
    cx: &mut Context<'_>,
) -> Poll<Result<usize, RecvFault>>
    ensures appended { IfReady result (λ answer. IfOk answer
        (Appends batch.old.items batch.new.items)) }
    ensures limited { IfReady result (λ answer. IfOk answer (IsWithin limit)) }
    ensures refused { IfReady result (λ answer. OnErr answer (batch.new.items ≡ batch.old.items)) }
    ensures unchanged { OnPending result (batch.new.items ≡ batch.old.items) }
    ensures registered { OnPending result (Covers cx.new
        (λ source. source ≡ receiver.now.message)) }
    ensures kept { Keeps cx.old cx.new }
{
    let answer = match receiver.answer_at_once(batch, limit) {
        Some(answer) => answer,
        None => match task.poll(&receiver.handle, cx) {
            Poll::Pending => return Poll::Pending,
            Poll::Ready(Ok(first)) => Ok(receiver.receive_with(first, batch, limit)),
            Poll::Ready(Err(fault)) => Err(fault),
        },
    };
    task.give_up(&receiver.handle);
    Poll::Ready(answer)
}

impl<T, P: Ord, B: Allocator, R: Wait + Clone, A: Allocator + Copy> Drop
    for RecvMany<'_, T, P, B, R, A> {
    fn drop(self) {
        let RecvMany {
            receiver,
            batch: _,
            limit: _,
            task,
            is_done: _,
        } = self;
        task.end(&receiver.handle);
    }
}

//! The messages of a channel as a stream, for a task.
ghost use Rattle.std.specs.Prelude.{◌≡◌, ⊤, ℕ, List, [], Option, None, true, false, IfSome, OnSome};
ghost use Rattle.futures.specs.Task.{Covers, Keeps};
ghost use Rattle.futures.specs.Poll.{IfReady, OnPending};
ghost use Rattle.futures.specs.Runs.{After, Within};
ghost use Rattle.async_priority_channel.specs.Handles.{MayYield};

use crate::handle::Handle;
use crate::receiver::Receiver;
use crate::waiting::{RecvState, Task};
use futures::Stream;
use futures::task::{Context, Poll};
use priority_channel_core::errors::RecvFault;
use priority_channel_waiting::states::One;
use std::alloc::{Allocator, Global};
use std::marker::Model;
use std::sync::Wait;

// The receives of a task, one after another.
#[derive(Drop)]
struct Receives<A: Allocator> {
    task: Task<(), One, A>,
    has_ended: bool,
}

impl<A: Allocator + Copy> Receives<A> {
    fn new() -> Self
        ensures { result.has_ended ≡ false }
    {
        Receives {
            task: Task::new(RecvState::new()),
            has_ended: false,
        }
    }

    fn poll_next_on<T, P: Ord, R: Wait + Clone>(
        &mut self,
        handle: &Handle<T, P, R, A>,
        cx: &mut Context<'_>,
    ) -> Poll<Option<(T, P)>>
        ensures registered { OnPending result (Covers cx.new (λ source.
            source ≡ handle.now.message)) }
        ensures kept { Keeps cx.old cx.new }
        ensures ended { IfReady result (λ next. next ≡ None → self.new.has_ended ≡ true) }
        ensures goes_on { IfReady result (λ next. OnSome next
            (self.new.has_ended ≡ self.old.has_ended)) }
        ensures waits { OnPending result (self.new.has_ended ≡ self.old.has_ended) }
        ensures stays_ended { self.old.has_ended ≡ true → result ≡ Poll.Ready None }
    {
        if self.has_ended {
            return Poll::Ready(None);
        }
        match self.task.poll(handle, cx) {
            Poll::Pending => Poll::Pending,
            Poll::Ready(Ok(pair)) => {
                self.task.begin_again();
                Poll::Ready(Some(pair))
            }
            Poll::Ready(Err(RecvFault::Closed(_))) => {
                self.has_ended = true;
                Poll::Ready(None)
            }
            // There may be memory at the next poll, so the task asks to be polled at once.
            Poll::Ready(Err(RecvFault::Memory)) => {
                self.task.begin_again();
                cx.yield_now()
            }
        }
    }

    fn end<T, P: Ord, R: Wait + Clone>(self, handle: &Handle<T, P, R, A>) {
        let Receives { task, has_ended: _ } = self;
        task.end(handle);
    }
}

/// The messages of a channel as a stream, which ends for good when the channel is closed and empty.
/// `Receiver::stream` makes it.
///
/// If memory for waiting is refused, the task asks to be polled again at once.
///
/// Cost: as `try_recv` for a pending message. A wait takes memory for the task's waker, which is
/// kept over all waits, and for an entry in the waiting list.
#[must_use = "a stream does nothing until it is polled: `block_on`, or `for pair in &rx`"]
pub struct RecvStream<'a, T, P: Ord, R: Wait + Clone, A: Allocator + Copy = Global> {
    receiver: &'a Receiver<T, P, R, A>,
    receives: Receives<A>,
}

impl<'a, T, P: Ord, R: Wait + Clone, A: Allocator + Copy> Model for RecvStream<'a, T, P, R, A> {
    ghost use Rattle.async_priority_channel.specs.Handles.{Streaming};

    ghost Value = { Streaming };

    ghost view = { λ s. record { channel = s.receiver.now; has_ended = s.receives.has_ended } };
}

impl<T, P: Ord, R: Wait + Clone, A: Allocator + Copy> Stream for RecvStream<'_, T, P, R, A> {
    type Item = (T, P);

    ghost needs = { λ s source. source ≡ s.channel.message };

    ghost yields = { MayYield };

    fn poll_next(&mut self, cx: &mut Context<'_>) -> Poll<Option<(T, P)>>
        ensures value { IfReady result (MayYield self.old []) }
        ensures rest { IfReady result (λ next. IfSome next
            (λ pair. After (MayYield self.old) pair (MayYield self.new))) }
        ensures goes { IfReady result (λ next. OnSome next ⊤) }
        ensures again { OnPending result ⊤ }
        ensures same { OnPending result (Within (MayYield {X = T × P} self.old)
            (MayYield self.new)) }
        ensures registered { OnPending result (Covers cx.new (λ source.
            source ≡ self.new.channel.message)) }
        ensures kept { Keeps cx.old cx.new }
        ensures channel { self.new.channel ≡ self.old.channel }
        ensures ended { IfReady result (λ next. next ≡ None → self.new.has_ended ≡ true) }
        ensures goes_on { IfReady result (λ next. OnSome next (self.new ≡ self.old)) }
        ensures waits { OnPending result (self.new ≡ self.old) }
        ensures stays_ended { self.old.has_ended ≡ true → result ≡ Poll.Ready None }
    {
        let receiver = self.receiver;
        self.receives.poll_next_on(&receiver.handle, cx)
    }
}

impl<T, P: Ord, R: Wait + Clone, A: Allocator + Copy> Drop for RecvStream<'_, T, P, R, A> {
    fn drop(self) {
        let RecvStream { receiver, receives } = self;
        receives.end(&receiver.handle);
    }
}

/// As `RecvStream`, with its own receiver, which is dropped with it: a task can own it.
/// `Receiver::into_stream` makes it.
///
/// Cost: as a `RecvStream`.
#[must_use = "a stream does nothing until it is polled: `block_on`, or `for pair in rx`"]
pub struct IntoStream<T, P: Ord, R: Wait + Clone, A: Allocator + Copy = Global> {
    receiver: Receiver<T, P, R, A>,
    receives: Receives<A>,
}

impl<T, P: Ord, R: Wait + Clone, A: Allocator + Copy> Model for IntoStream<T, P, R, A> {
    ghost use Rattle.async_priority_channel.specs.Handles.{Streaming};

    ghost Value = { Streaming };

    ghost view = { λ s. record { channel = s.receiver; has_ended = s.receives.has_ended } };
}

impl<T: Drop, P: Ord + Drop, R: Wait + Clone, A: Allocator + Copy> Stream
    for IntoStream<T, P, R, A> {
    type Item = (T, P);

    ghost needs = { λ s source. source ≡ s.channel.message };

    ghost yields = { MayYield };

    fn poll_next(&mut self, cx: &mut Context<'_>) -> Poll<Option<(T, P)>>
        ensures value { IfReady result (MayYield self.old []) }
        ensures rest { IfReady result (λ next. IfSome next
            (λ pair. After (MayYield self.old) pair (MayYield self.new))) }
        ensures goes { IfReady result (λ next. OnSome next ⊤) }
        ensures again { OnPending result ⊤ }
        ensures same { OnPending result (Within (MayYield {X = T × P} self.old)
            (MayYield self.new)) }
        ensures registered { OnPending result (Covers cx.new (λ source.
            source ≡ self.new.channel.message)) }
        ensures kept { Keeps cx.old cx.new }
        ensures channel { self.new.channel ≡ self.old.channel }
        ensures ended { IfReady result (λ next. next ≡ None → self.new.has_ended ≡ true) }
        ensures goes_on { IfReady result (λ next. OnSome next (self.new ≡ self.old)) }
        ensures waits { OnPending result (self.new ≡ self.old) }
        ensures stays_ended { self.old.has_ended ≡ true → result ≡ Poll.Ready None }
    {
        self.receives.poll_next_on(&self.receiver.handle, cx)
    }
}

impl<T: Drop, P: Ord + Drop, R: Wait + Clone, A: Allocator + Copy> Drop for IntoStream<T, P, R, A> {
    fn drop(self) {
        let IntoStream { receiver, receives } = self;
        receives.end(&receiver.handle);
        drop(receiver);
    }
}

impl<T, P: Ord, R: Wait + Clone, A: Allocator + Copy> Receiver<T, P, R, A> {
    /// The messages as a stream of the kit's `futures`, which ends when the channel is closed and
    /// empty. Keep one `block_on` around all that is done with it, since each costs system calls.
    ///
    /// Cost: none until it is polled (see `RecvStream`).
    ///
    /// ```
    /// let (tx, rx) = unbounded(&rt, rt.alloc())?;
    /// let jobs = [("compile", 2), ("link", 1), ("test", 3)];
    /// tx.try_sendv(jobs.into_iter().peekable())?;
    /// let pairs = block_on(&rt, rx.stream().take(2).collect(rt.alloc()))??;
    /// assert_eq!(rt; pairs.as_slice(), [("test", 3), ("compile", 2)].as_slice());
    /// assert_eq!(rt; rx.try_recv(), Ok(("link", 1)));
    /// ```
    pub fn stream(&self) -> RecvStream<'_, T, P, R, A>
        ensures { result ≡ record { channel = self.now; has_ended = false } }
    {
        RecvStream {
            receiver: self,
            receives: Receives::new(),
        }
    }

    /// As `stream`, for a task that outlives this receiver.
    ///
    /// Cost: none until it is polled (see `IntoStream`).
    ///
    /// ```
    /// let (tx, rx) = bounded(&rt, rt.alloc(), 1)?;
    /// let stream = rx.into_stream();
    /// let counting = thread::spawn(&rt, move || block_on(&rt, stream.count()))?;
    /// tx.send_blocking("Foo", 0)?;
    /// tx.send_blocking("Bar", 2)?;
    /// drop(tx);
    /// assert_eq!(rt; counting.join(&rt)?, 2);
    /// ```
    pub fn into_stream(self) -> IntoStream<T, P, R, A>
        ensures { result ≡ record { channel = self; has_ended = false } }
    {
        IntoStream {
            receiver: self,
            receives: Receives::new(),
        }
    }
}

//! The futures that wait for a message that passes a test, or for the close.
ghost use Rattle.std.specs.Prelude.{◌≡◌, ⊤, true, false, None, IfOk, IfSome, IsSome, Result};
ghost use Rattle.futures.specs.Task.{Covers, Keeps};
ghost use Rattle.futures.specs.Poll.{IfReady, OnPending};
ghost use Rattle.priority_channel_core.specs.bag.Prelude.{Tells};
ghost use Rattle.priority_channel_core.specs.declared.errors.RecvFault.{RecvFault};
ghost use Rattle.async_priority_channel.specs.Handles.{source_beside, Leased};

use crate::end::{End, Role};
use crate::handle::Handle;
use crate::lease::Lease;
use crate::receiver::Receiving;
use futures::Future;
use futures::task::{Context, Poll};
use priority_channel_core::errors::RecvFault;
use priority_channel_waiting::seeking::{LeaseWhere, Seek, UntilClosed, Where};
use priority_channel_waiting::selecting::Sight;
use priority_channel_waiting::timeouts::Ended;
use priority_channel_waiting::waiter::Waiter;
use std::alloc::{AllocError, Allocator, Global};
use std::convert::Infallible;
use std::marker::Model;
use std::sync::Wait;

impl<T, P: Ord, R: Wait + Clone, A: Allocator + Copy> Handle<T, P, R, A> {
    // A poll of a task that waits for what it seeks. The first look takes no memory for waiting. It
    // is for conditions that an instant cannot meet, since no clock wakes the task.
    fn poll_sought<S: Seek<T, P, A>>(
        &self,
        seek: &S,
        cx: &mut Context<'_>,
        ticket: &mut Option<u64>,
        waiter: &mut Option<Waiter<A>>,
    ) -> Poll<Result<S::Found, Ended<(), Infallible>>>
        requires { S.can_seek seek.now }
        ensures value { IfReady result (λ answer. IfOk answer (S.meets seek.now)) }
        ensures registered { OnPending result (Covers cx.new (λ source.
            source ≡ source_beside S.looks_at self.now)) }
        ensures kept { Keeps cx.old cx.new }
        ensures answered { IfReady result (λ _. ticket.new ≡ None) }
        ensures listed { OnPending result (IsSome ticket.new) }
    {
        if let Some(answer) = self.seek_at_once(seek, ticket) {
            return Poll::Ready(answer);
        }
        let Some(waiter) = self.register_beside(cx, S::sight(), waiter) else {
            self.unlist_beside(S::sight(), ticket.take());
            return Poll::Ready(Err(Ended::Memory(())));
        };
        match self.seek_or_list(seek, ticket, waiter).answer() {
            Ok(answer) => Poll::Ready(answer),
            Err(_) => Poll::Pending,
        }
    }

    // Looks once, and gives up the ticket if there is an answer.
    fn seek_at_once<S: Seek<T, P, A>>(
        &self,
        seek: &S,
        ticket: &mut Option<u64>,
    ) -> Option<Result<S::Found, Ended<(), Infallible>>>
        requires { S.can_seek seek.now }
        ensures found { IfSome result (λ answer. IfOk answer (S.meets seek.now)) }
        ensures given_up { IsSome result → ticket.new ≡ None }
    {
        let answer = self.seek(seek).answer().ok()?;
        self.unlist_beside(S::sight(), ticket.take());
        Some(answer)
    }
}

/// A `Closed`, a `RecvWhere` or a `LeaseNextWhere`: what it looks for at each poll, and the handle
/// by which it waits. If it is dropped, it waits no more.
///
/// Once it has answered it is done. A poll of a done future is pending, and asks to be polled
/// again; nothing else changes.
///
/// Cost: a poll that has to wait looks twice. It takes memory for its waiter, which is kept, and
/// for its entry in a list. The first wait for the close or with a condition also takes memory for
/// these lists.
#[must_use = "a future does nothing until it is polled: `block_on`, or a call in `_blocking`"]
pub struct Seeking<'a, S: Role, C, T, P: Ord, R: Wait + Clone, A: Allocator + Copy = Global> {
    end: &'a End<S, T, P, R, A>,
    seek: C,
    sight: Sight,
    ticket: Option<u64>,
    waiter: Option<Waiter<A>>,
    is_done: bool,
}

impl<'a, S: Role, C, T, P: Ord, R: Wait + Clone, A: Allocator + Copy> Model
    for Seeking<'a, S, C, T, P, R, A> {
    ghost use Rattle.async_priority_channel.specs.Handles.{Sought};

    ghost Value = { Sought C };

    ghost view = { λ f. record {
      channel = f.end.now;
      seek = f.seek;
      ticket = f.ticket;
      is_done = f.is_done;
    } };
}

impl<'a, S: Role, C, T, P: Ord, R: Wait + Clone, A: Allocator + Copy> Seeking<
    'a,
    S,
    C,
    T,
    P,
    R,
    A,
> {
    pub(crate) fn new(end: &'a End<S, T, P, R, A>, seek: C, sight: Sight) -> Self
        ensures { result ≡ record {
          channel = end.now;
          seek = seek;
          ticket = None;
          is_done = false;
        } }
    {
        Seeking {
            end,
            seek,
            sight,
            ticket: None,
            waiter: None,
            is_done: false,
        }
    }
}

impl<S: Role, C: Drop, T, P: Ord, R: Wait + Clone, A: Allocator + Copy> Drop
    for Seeking<'_, S, C, T, P, R, A> {
    fn drop(self) {
        let Seeking {
            end,
            seek,
            sight,
            ticket,
            waiter,
            is_done: _,
        } = self;
        end.handle.unlist_beside(sight, ticket);
        drop(seek);
        drop(waiter);
    }
}

/// Waits for the close of a channel. `End::closed` makes it.
///
/// The error is that memory for waiting was refused. If it is polled again after its answer, it
/// does as a `Recv` (see `Waiting`).
///
/// Cost: no comparison (see `Seeking`).
pub type Closed<'a, S, T, P, R, A = Global> = Seeking<'a, S, UntilClosed, T, P, R, A>;

impl<S: Role, T, P: Ord, R: Wait + Clone, A: Allocator + Copy> Future
    for Closed<'_, S, T, P, R, A> {
    type Output = Result<(), AllocError>;

    ghost needs = { λ f source. source ≡ f.channel.closing };

    fn poll(&mut self, cx: &mut Context<'_>) -> Poll<Self::Output>
        ensures value { IfReady result (λ _. ⊤) }
        ensures again { OnPending result ⊤ }
        ensures same { OnPending result ((x : Result (Unit {0}) AllocError) → ⊤ → ⊤) }
        ensures registered { OnPending result (Covers cx.new (λ source.
            source ≡ self.new.channel.closing)) }
        ensures kept { Keeps cx.old cx.new }
        ensures channel { self.new.channel ≡ self.old.channel }
        ensures answered { IfReady result (λ _. (self.new.is_done ≡ true)
            × (self.new.ticket ≡ None)) }
        ensures waits { self.old.is_done ≡ false → OnPending result ((self.new.is_done ≡ false)
            × IsSome self.new.ticket) }
        ensures done { self.old.is_done ≡ true → (result ≡ Poll.Pending) × (self.new ≡ self.old) }
    {
        if self.is_done {
            return cx.yield_now();
        }
        let end = self.end;
        let handle = &end.handle;
        let polled = handle.poll_sought(&self.seek, cx, &mut self.ticket, &mut self.waiter);
        let Poll::Ready(answer) = polled else {
            return Poll::Pending;
        };
        self.is_done = true;
        Poll::Ready(match answer {
            Ok(never) => match never {},
            Err(Ended::Over((), never)) => match never {},
            Err(Ended::Closed(())) => Ok(()),
            Err(Ended::Memory(())) => Err(AllocError),
        })
    }
}

/// Receives the most urgent message that passes a test. `Receiver::recv_where` makes it.
///
/// The errors are those of a `Recv`.
///
/// Cost: as `try_recv_where` for each look (see `Seeking`).
pub type RecvWhere<'a, F, T, P, R, A = Global> = Seeking<'a, Receiving, Where<F>, T, P, R, A>;

impl<T, P: Ord, R: Wait + Clone, A: Allocator + Copy, F: Fn(&T, &P) -> bool + Drop> Future
    for RecvWhere<'_, F, T, P, R, A> {
    type Output = Result<(T, P), RecvFault>;

    ghost can_poll = { λ f. F.IsAlwaysCallable f.seek.test };

    ghost needs = { λ f source. source ≡ f.channel.message };

    ghost gives = { λ f answer. IfOk answer (λ pair. Tells F.Fn f.seek.test pair true) };

    fn poll(&mut self, cx: &mut Context<'_>) -> Poll<Self::Output>
        requires { F.IsAlwaysCallable self.old.seek.test }
        ensures value { IfReady result (λ answer. IfOk answer (λ pair.
            Tells F.Fn self.old.seek.test pair true)) }
        ensures again { OnPending result (F.IsAlwaysCallable self.new.seek.test) }
        ensures same { OnPending result ((x : Result (T × P) RecvFault)
            → IfOk x (λ pair. Tells F.Fn self.new.seek.test pair true)
            → IfOk x (λ pair. Tells F.Fn self.old.seek.test pair true)) }
        ensures registered { OnPending result (Covers cx.new (λ source.
            source ≡ self.new.channel.message)) }
        ensures kept { Keeps cx.old cx.new }
        ensures channel { self.new.channel ≡ self.old.channel }
        ensures seek { self.new.seek ≡ self.old.seek }
        ensures answered { IfReady result (λ _. (self.new.is_done ≡ true)
            × (self.new.ticket ≡ None)) }
        ensures waits { self.old.is_done ≡ false → OnPending result ((self.new.is_done ≡ false)
            × IsSome self.new.ticket) }
        ensures done { self.old.is_done ≡ true → (result ≡ Poll.Pending) × (self.new ≡ self.old) }
    {
        if self.is_done {
            return cx.yield_now();
        }
        let end = self.end;
        let handle = &end.handle;
        let polled = handle.poll_sought(&self.seek, cx, &mut self.ticket, &mut self.waiter);
        let Poll::Ready(answer) = polled else {
            return Poll::Pending;
        };
        self.is_done = true;
        Poll::Ready(match answer {
            Ok(pair) => Ok(pair),
            Err(ended) => Err(RecvFault::from(ended)),
        })
    }
}

/// Receives the most urgent message that passes a test, and keeps its place held.
/// `Receiver::lease_where` makes it.
///
/// The errors are those of a `LeaseNext`.
///
/// Cost: as a `RecvWhere`.
pub type LeaseNextWhere<'a, F, T, P, R, A = Global> = Seeking<
    'a,
    Receiving,
    LeaseWhere<F>,
    T,
    P,
    R,
    A,
>;

impl<
    'a,
    T: Drop,
    P: Ord + Drop,
    R: Wait + Clone,
    A: Allocator + Copy,
    F: Fn(&T, &P) -> bool + Drop,
> Future for LeaseNextWhere<'a, F, T, P, R, A> {
    type Output = Result<Lease<'a, T, P, R, A>, RecvFault>;

    ghost can_poll = { λ f. F.IsAlwaysCallable f.seek.test };

    ghost needs = { λ f source. source ≡ f.channel.message };

    ghost gives = { λ f answer. IfOk answer (λ lease. (lease.channel ≡ f.channel)
        × Tells F.Fn f.seek.test lease.pair true) };

    fn poll(&mut self, cx: &mut Context<'_>) -> Poll<Self::Output>
        requires { F.IsAlwaysCallable self.old.seek.test }
        ensures value { IfReady result (λ answer. IfOk answer (λ lease.
            (lease.channel ≡ self.old.channel)
            × Tells F.Fn self.old.seek.test lease.pair true)) }
        ensures again { OnPending result (F.IsAlwaysCallable self.new.seek.test) }
        ensures same { OnPending result ((x : Result (Leased T P) RecvFault)
            → IfOk x (λ lease. (lease.channel ≡ self.new.channel)
            × Tells F.Fn self.new.seek.test lease.pair true)
            → IfOk x (λ lease. (lease.channel ≡ self.old.channel)
            × Tells F.Fn self.old.seek.test lease.pair true)) }
        ensures registered { OnPending result (Covers cx.new (λ source.
            source ≡ self.new.channel.message)) }
        ensures kept { Keeps cx.old cx.new }
        ensures channel { self.new.channel ≡ self.old.channel }
        ensures seek { self.new.seek ≡ self.old.seek }
        ensures answered { IfReady result (λ _. (self.new.is_done ≡ true)
            × (self.new.ticket ≡ None)) }
        ensures waits { self.old.is_done ≡ false → OnPending result ((self.new.is_done ≡ false)
            × IsSome self.new.ticket) }
        ensures done { self.old.is_done ≡ true → (result ≡ Poll.Pending) × (self.new ≡ self.old) }
    {
        if self.is_done {
            return cx.yield_now();
        }
        let end = self.end;
        let handle = &end.handle;
        let polled = handle.poll_sought(&self.seek, cx, &mut self.ticket, &mut self.waiter);
        let Poll::Ready(answer) = polled else {
            return Poll::Pending;
        };
        self.is_done = true;
        Poll::Ready(match answer {
            Ok(leased) => Ok(Lease::of(handle, leased)),
            Err(ended) => Err(RecvFault::from(ended)),
        })
    }
}

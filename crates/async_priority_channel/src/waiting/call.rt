//! The futures that wait for a place, or for a message that keeps its place.
ghost use Rattle.std.specs.Prelude.{◌≡◌, ⊤, true, false, None, IfOk, IsSome, Result};
ghost use Rattle.futures.specs.Task.{Covers, Keeps};
ghost use Rattle.futures.specs.Poll.{IfReady, OnPending};
ghost use Rattle.priority_channel_core.specs.declared.errors.RecvFault.{RecvFault};
ghost use Rattle.priority_channel_core.specs.declared.errors.SendFault.{SendFault};
ghost use Rattle.async_priority_channel.specs.Handles.{source_of, Channel, Leased};

use crate::end::{End, Role};
use crate::handle::Handle;
use crate::lease::Lease;
use crate::permit::Permit;
use crate::receiver::Receiving;
use crate::sender::Sending;
use futures::Future;
use futures::task::{Context, Poll};
use priority_channel_calls::places::{TryLease, TryReserve};
use priority_channel_calls::waits::GiveUp;
use priority_channel_core::errors::{RecvFault, SendFault};
use priority_channel_waiting::line::Listing;
use priority_channel_waiting::retry::Retry;
use priority_channel_waiting::timeouts::Ended;
use priority_channel_waiting::waiter::Waiter;
use std::alloc::{Allocator, Global};
use std::convert::Infallible;
use std::marker::Model;
use std::sync::Wait;

impl<T, P: Ord, R: Wait + Clone, A: Allocator + Copy> Handle<T, P, R, A> {
    // Makes a task's call, in one step and without memory for waiting. If the call is blocked, has
    // the channel list the task. Where what it waits for comes in between, it makes the call again,
    // and where another one is faster then, the task asks to be polled again.
    fn poll_call<C: Retry<T, P, Waiter<A>, A, Left = ()> + Copy + Drop>(
        &self,
        cx: &mut Context<'_>,
        call: C,
        ticket: &mut Option<u64>,
        waiter: &mut Option<Waiter<A>>,
    ) -> Poll<Result<C::Done, Ended<(), Infallible>>>
        requires { C.can_make call }
        ensures registered { OnPending result (Covers cx.new (λ source.
            source ≡ source_of C.waits_on self.now)) }
        ensures kept { Keeps cx.old cx.new }
        ensures answered { IfReady result (λ _. ticket.new ≡ None) }
    {
        if let Some(answer) = self.answer_call(call, ticket) {
            return Poll::Ready(answer);
        }
        let side = C::side();
        let Some(waiter) = self.register(cx, side, waiter) else {
            self.give_up(ticket.take());
            return Poll::Ready(Err(Ended::Memory(())));
        };
        let mut locked = self.lock();
        let (listing, to_wake) = locked.list(self.alloc(), side, ticket, waiter);
        to_wake.wake(self.rt(), locked);
        match listing {
            Listing::Listed => Poll::Pending,
            Listing::Refused => Poll::Ready(Err(Ended::Memory(()))),
            Listing::Free => match self.answer_call(call, ticket) {
                Some(answer) => Poll::Ready(answer),
                None => cx.yield_now(),
            },
        }
    }

    // The answer of a call that need not wait, which then gives up its ticket.
    fn answer_call<C: Retry<T, P, Waiter<A>, A, Left = ()>>(
        &self,
        call: C,
        ticket: &mut Option<u64>,
    ) -> Option<Result<C::Done, Ended<(), Infallible>>>
        requires { C.can_make call }
        ensures { IsSome result → ticket.new ≡ None }
    {
        let answer = self.attempt(call).answer().ok()?;
        self.give_up(ticket.take());
        Some(answer)
    }

    /// Takes a ticket off the channel's list, if there is one.
    pub(crate) fn give_up(&self, ticket: Option<u64>) {
        if let Some(ticket) = ticket {
            self.call(GiveUp { ticket });
        }
    }
}

/// A `Reserve` or a `LeaseNext`: the call that it makes at each poll, and the handle by which it
/// waits. If it is dropped, it waits no more.
///
/// Once it has answered it is done. A poll of a done future is pending, and asks to be polled
/// again; nothing else changes.
///
/// Cost: as a `Waiting`, but a poll also makes a second try if what it waits for comes before it is
/// listed.
#[must_use = "a future does nothing until it is polled: `block_on`, or a call in `_blocking`"]
pub struct Calling<'a, S: Role, C: Copy, T, P: Ord, R: Wait + Clone, A: Allocator + Copy = Global> {
    end: &'a End<S, T, P, R, A>,
    call: C,
    ticket: Option<u64>,
    waiter: Option<Waiter<A>>,
    is_done: bool,
}

impl<'a, S: Role, C: Copy, T, P: Ord, R: Wait + Clone, A: Allocator + Copy> Model
    for Calling<'a, S, C, T, P, R, A> {
    ghost use Rattle.async_priority_channel.specs.Handles.{Watching};

    ghost Value = { Watching };

    ghost view = { λ f. record {
      channel = f.end.now;
      ticket = f.ticket;
      is_done = f.is_done;
    } };
}

impl<'a, S: Role, C: Copy, T, P: Ord, R: Wait + Clone, A: Allocator + Copy> Calling<
    'a,
    S,
    C,
    T,
    P,
    R,
    A,
> {
    pub(crate) fn new(end: &'a End<S, T, P, R, A>, call: C) -> Self
        ensures { result ≡ record { channel = end.now; ticket = None; is_done = false } }
    {
        Calling {
            end,
            call,
            ticket: None,
            waiter: None,
            is_done: false,
        }
    }
}

impl<S: Role, C: Copy, T, P: Ord, R: Wait + Clone, A: Allocator + Copy> Drop
    for Calling<'_, S, C, T, P, R, A> {
    fn drop(self) {
        let Calling {
            end,
            call: _,
            ticket,
            waiter,
            is_done: _,
        } = self;
        end.handle.give_up(ticket);
        drop(waiter);
    }
}

/// Waits for a place. `Sender::reserve` makes it.
///
/// The error is `Closed`, or `Memory` if memory was refused.
///
/// Cost: as `try_reserve` for each try (see `Calling`).
pub type Reserve<'a, T, P, R, A = Global> = Calling<'a, Sending, TryReserve, T, P, R, A>;

impl<'a, T, P: Ord, R: Wait + Clone, A: Allocator + Copy> Future for Reserve<'a, T, P, R, A> {
    type Output = Result<Permit<'a, T, P, R, A>, SendFault<()>>;

    ghost needs = { λ f source. source ≡ f.channel.room };

    ghost gives = { λ f answer. IfOk answer (λ permit. permit ≡ f.channel) };

    fn poll(&mut self, cx: &mut Context<'_>) -> Poll<Self::Output>
        ensures value { IfReady result (λ answer. IfOk answer (λ permit.
            permit ≡ self.old.channel)) }
        ensures again { OnPending result ⊤ }
        ensures same { OnPending result ((x : Result Channel (SendFault ⊤))
            → IfOk x (λ permit. permit ≡ self.new.channel)
            → IfOk x (λ permit. permit ≡ self.old.channel)) }
        ensures registered { OnPending result (Covers cx.new (λ source.
            source ≡ self.new.channel.room)) }
        ensures kept { Keeps cx.old cx.new }
        ensures channel { self.new.channel ≡ self.old.channel }
        ensures answered { IfReady result (λ _. (self.new.is_done ≡ true)
            × (self.new.ticket ≡ None)) }
        ensures waits { OnPending result (self.new.is_done ≡ self.old.is_done) }
        ensures done { self.old.is_done ≡ true → (result ≡ Poll.Pending) × (self.new ≡ self.old) }
    {
        if self.is_done {
            return cx.yield_now();
        }
        let end = self.end;
        let handle = &end.handle;
        let polled = handle.poll_call(cx, TryReserve, &mut self.ticket, &mut self.waiter);
        let Poll::Ready(reserved) = polled else {
            return Poll::Pending;
        };
        self.is_done = true;
        Poll::Ready(match reserved {
            Ok(place) => Ok(Permit::of(handle, place)),
            Err(ended) => Err(SendFault::from(ended)),
        })
    }
}

/// Receives a message, and keeps its place held. `Receiver::lease` makes it.
///
/// The error is `Closed` if no message can come any more, or `Memory` if memory was refused.
///
/// Cost: as `try_lease` for each try (see `Calling`).
pub type LeaseNext<'a, T, P, R, A = Global> = Calling<'a, Receiving, TryLease, T, P, R, A>;

impl<'a, T: Drop, P: Ord + Drop, R: Wait + Clone, A: Allocator + Copy> Future
    for LeaseNext<'a, T, P, R, A> {
    type Output = Result<Lease<'a, T, P, R, A>, RecvFault>;

    ghost needs = { λ f source. source ≡ f.channel.message };

    ghost gives = { λ f answer. IfOk answer (λ lease. lease.channel ≡ f.channel) };

    fn poll(&mut self, cx: &mut Context<'_>) -> Poll<Self::Output>
        ensures value { IfReady result (λ answer. IfOk answer (λ lease.
            lease.channel ≡ self.old.channel)) }
        ensures again { OnPending result ⊤ }
        ensures same { OnPending result ((x : Result (Leased T P) RecvFault)
            → IfOk x (λ lease. lease.channel ≡ self.new.channel)
            → IfOk x (λ lease. lease.channel ≡ self.old.channel)) }
        ensures registered { OnPending result (Covers cx.new (λ source.
            source ≡ self.new.channel.message)) }
        ensures kept { Keeps cx.old cx.new }
        ensures channel { self.new.channel ≡ self.old.channel }
        ensures answered { IfReady result (λ _. (self.new.is_done ≡ true)
            × (self.new.ticket ≡ None)) }
        ensures waits { OnPending result (self.new.is_done ≡ self.old.is_done) }
        ensures done { self.old.is_done ≡ true → (result ≡ Poll.Pending) × (self.new ≡ self.old) }
    {
        if self.is_done {
            return cx.yield_now();
        }
        let end = self.end;
        let handle = &end.handle;
        let polled = handle.poll_call(cx, TryLease, &mut self.ticket, &mut self.waiter);
        let Poll::Ready(leased) = polled else {
            return Poll::Pending;
        };
        self.is_done = true;
        Poll::Ready(match leased {
            Ok(leased) => Ok(Lease::of(handle, leased)),
            Err(ended) => Err(RecvFault::from(ended)),
        })
    }
}

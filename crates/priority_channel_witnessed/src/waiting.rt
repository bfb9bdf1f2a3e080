//! The future that makes a call until it is answered, for tasks.
//!
//! A future holds its caller's pass, and returns it with its answer. If it is dropped before that,
//! it gives up its ticket, and its pass leaves the channel. The first poll is a try. If that is
//! blocked, it lists the task's waker by a second call, as each later poll does. So a future that
//! is answered at once takes no memory. Each message wakes all tasks that wait for one, and free
//! room all tasks that wait for room.
ghost use Rattle.std.specs.Prelude.{◌≡◌, ⊤, Some, None, IfOk, IfErr};
ghost use Rattle.futures.specs.Task.{Covers, Keeps};
ghost use Rattle.futures.specs.Poll.{IfReady, OnPending};
ghost use Rattle.priority_channel_waiting.specs.Waits.{outcome_of_end};
ghost use Rattle.priority_channel_witnessed.specs.Passes.{Tells};
ghost use Rattle.priority_channel_witnessed.specs.Waits.{ends, left, listed_as, source_of, ComesTo, Gives, IsCall, WaitsOn};

use crate::awaited::{Awaited, PollOf};
use crate::chronicle::Pass;
use crate::witnessed::Witnessed;
use crate::witnessed::waits::end_refused;
use futures::Future;
use futures::task::{Context, Poll, Source};
use priority_channel_calls::waits::GiveUp;
use priority_channel_core::calls::CorePoll;
use priority_channel_core::side::Side;
use priority_channel_recorded::chronicle::Recording;
use priority_channel_waiting::timeouts::Ended;
use priority_channel_waiting::waiter::Waiter;
use std::alloc::{Allocator, Global};
use std::convert::Infallible;
use std::marker::Model;
use std::sync::Wait;

/// A call that waits as a future. `Witnessed::start` makes it. If it is polled again after its
/// answer, it is pending, changes nothing, and asks to be polled once more. So it should not be
/// polled any more.
#[must_use = "a future does nothing until it is polled"]
pub struct Waiting<
    'a,
    C: Awaited<T, P, W, A>,
    T,
    P: Ord,
    W: Clone,
    R: Wait,
    J: Recording,
    A: Allocator + Copy = Global,
> {
    channel: &'a Witnessed<T, P, W, J, A>,
    rt: &'a R,
    holds: Option<(Pass<T, P, W, J>, C)>,
    ticket: Option<u64>,
    waiter: Option<W>,
}

impl<
    'a,
    C: Awaited<T, P, W, A>,
    T,
    P: Ord,
    W: Clone,
    R: Wait,
    J: Recording,
    A: Allocator + Copy,
> Model for Waiting<'a, C, T, P, W, R, J, A> {
    ghost use Rattle.std.specs.Prelude.{IfSome};
    ghost use Rattle.priority_channel_witnessed.specs.Passes.{Carried};
    ghost use Rattle.priority_channel_witnessed.specs.Waits.{source_of, Underway};

    ghost Value = { Underway (Carried T P W) C };

    ghost view = { λ f. record {
      holds = f.holds;
      ticket = f.ticket;
      source = source_of C.waits_on f.channel.now.room.id f.channel.now.message.id;
    } };

    ghost invariant = { λ f. IfSome f.holds (λ held. C.can_make held.1) };
}

impl<T, P: Ord, J: Recording, A: Allocator + Copy> Witnessed<T, P, Waiter<A>, J, A> {
    /// As `wait` without a limit, but as a future, which returns the pass with the answer.
    ///
    /// ```
    /// let (received, pass) = block_on(rt, channel.start(rt, pass, TryRecv))?;
    /// ```
    pub fn start<'a, C: Awaited<T, P, Waiter<A>, A>, R: Wait>(
        &'a self,
        rt: &'a R,
        pass: Pass<T, P, Waiter<A>, J>,
        call: C,
    ) -> Waiting<'a, C, T, P, Waiter<A>, R, J, A>
        requires { C.can_make call }
        ensures holds { result.holds ≡ Some (pass, call) }
        ensures fresh { result.ticket ≡ None }
    {
        Waiting {
            channel: self,
            rt,
            holds: Some((pass, call)),
            ticket: None,
            waiter: None,
        }
    }

    fn source(&self, side: Side) -> &Source
        ensures { result.now.id ≡ source_of side self.now.room.id self.now.message.id }
    {
        match side {
            Side::Room => &self.room,
            Side::Message => &self.message,
        }
    }

    // Tries a call that is not listed. If it is blocked, what is left of it comes back.
    fn try_first<C: Awaited<T, P, Waiter<A>, A>, R: Wait>(
        &self,
        rt: &R,
        pass: &mut Pass<T, P, Waiter<A>, J>,
        call: C,
        ticket: Option<u64>,
    ) -> Result<Result<C::Done, Ended<C::Left, Infallible>>, C>
        requires { C.can_make call }
        ensures answered { IfOk result (λ answer. ComesTo P.cmp ⟦<Waiter<A> as Clone>⟧.is_clone
            J.capacity J.is_reserved C.call_of (IsCall C.told C.says C.polled) pass.old call ticket
            (ends (outcome_of_end answer)) pass.new) }
        ensures can_make { IfErr result C.can_make }
        ensures goes_on { IfErr result (λ rest. (ending : _) (later : _)
            → ComesTo P.cmp ⟦<Waiter<A> as Clone>⟧.is_clone J.capacity J.is_reserved
            C.call_of (IsCall C.told C.says C.polled) pass.new rest ticket ending later
            → ComesTo P.cmp ⟦<Waiter<A> as Clone>⟧.is_clone J.capacity J.is_reserved
            C.call_of (IsCall C.told C.says C.polled) pass.old call ticket ending later) }
    {
        match ticket {
            Some(_) => Err(call),
            None => match self.attempt(rt, pass, call).answer() {
                Ok(answer) => Ok(answer),
                Err(left) => Err(C::again(left)),
            },
        }
    }
}

fn answer_or_listed<X, L>(polled: CorePoll<X, L>) -> Result<X, (L, u64)>
    ensures { result ≡ listed_as polled }
{
    match polled {
        CorePoll::Ready(answer) => Ok(answer),
        CorePoll::Pending(rest, ticket) => Err((rest, ticket)),
    }
}

impl<
    'a,
    C: Awaited<T, P, Waiter<A>, A>,
    T,
    P: Ord,
    R: Wait,
    J: Recording,
    A: Allocator + Copy,
> Waiting<'a, C, T, P, Waiter<A>, R, J, A> {
    // Stores the task's waker, and polls. If memory for that is refused, the call ends.
    fn list(
        &mut self,
        cx: &mut Context<'_>,
        pass: &mut Pass<T, P, Waiter<A>, J>,
        call: C,
    ) -> Result<Result<C::Done, Ended<C::Left, Infallible>>, (C::Left, u64)>
        requires { C.can_make call }
        ensures answered { IfOk result (λ answer. ComesTo P.cmp ⟦<Waiter<A> as Clone>⟧.is_clone
            J.capacity J.is_reserved C.call_of (IsCall C.told C.says C.polled) pass.old call
            self.old.ticket (ends (outcome_of_end answer)) pass.new) }
        ensures listed { IfErr result (λ rest. C.can_make (C.call_of rest.0)
            × ((made : _) × (handed : _)
            × Tells P.cmp ⟦<Waiter<A> as Clone>⟧.is_clone J.capacity J.is_reserved pass.old made
            handed pass.new
            × IsCall C.told C.says C.polled call self.old.ticket made
            (left rest.0 (Some rest.1)))) }
        ensures registered { IfErr result (λ _. Covers cx.new (λ source.
            source ≡ self.new.source)) }
        ensures kept { Keeps cx.old cx.new }
        ensures source { self.new.source ≡ self.old.source }
        ensures holds { self.new.holds ≡ self.old.holds }
    {
        let channel = self.channel;
        let rt = self.rt;
        let ticket = self.ticket;
        let kept = &mut self.waiter;
        let source = channel.source(C::side());
        let Some(waiter) = Waiter::register(rt, channel.alloc, cx, source, kept) else {
            return Ok(end_refused(channel.try_last(rt, pass, call, ticket)));
        };
        let poll = PollOf {
            call,
            ticket,
            waker: waiter,
        };
        answer_or_listed(channel.make(rt, pass, poll))
    }
}

impl<
    C: Awaited<T, P, Waiter<A>, A> + Drop,
    T: Drop,
    P: Ord + Drop,
    R: Wait,
    J: Recording,
    A: Allocator + Copy,
> Future for Waiting<'_, C, T, P, Waiter<A>, R, J, A> {
    type Output = (
        Result<C::Done, Ended<C::Left, Infallible>>,
        Pass<T, P, Waiter<A>, J>,
    );

    ghost needs = { λ f source. source ≡ f.source };

    ghost gives = { Gives P.cmp ⟦<Waiter<A> as Clone>⟧.is_clone J.capacity J.is_reserved C.call_of
        (IsCall C.told C.says C.polled) };

    fn poll(&mut self, cx: &mut Context<'_>) -> Poll<Self::Output>
        ensures value { IfReady result (Gives P.cmp ⟦<Waiter<A> as Clone>⟧.is_clone J.capacity
            J.is_reserved C.call_of (IsCall C.told C.says C.polled) self.old) }
        ensures again { OnPending result ⊤ }
        ensures same { OnPending result ((x : _)
            → Gives P.cmp ⟦<Waiter<A> as Clone>⟧.is_clone J.capacity J.is_reserved C.call_of
            (IsCall C.told C.says C.polled) self.new x
            → Gives P.cmp ⟦<Waiter<A> as Clone>⟧.is_clone J.capacity J.is_reserved C.call_of
            (IsCall C.told C.says C.polled) self.old x) }
        ensures registered { OnPending result (Covers cx.new (λ source.
            source ≡ self.new.source)) }
        ensures kept { Keeps cx.old cx.new }
        ensures answered { IfReady result (λ _. self.new.holds ≡ None) }
        ensures waits { OnPending result (WaitsOn P.cmp ⟦<Waiter<A> as Clone>⟧.is_clone J.capacity
            J.is_reserved C.call_of (IsCall C.told C.says C.polled) self.old self.new) }
        ensures done { self.old.holds ≡ None → (result ≡ Poll.Pending) × (self.new ≡ self.old) }
    {
        let Some((mut pass, call)) = self.holds.take() else {
            return cx.yield_now();
        };
        let channel = self.channel;
        match channel.try_first(self.rt, &mut pass, call, self.ticket) {
            Ok(answer) => Poll::Ready((answer, pass)),
            Err(call) => match self.list(cx, &mut pass, call) {
                Ok(answer) => Poll::Ready((answer, pass)),
                Err((rest, given)) => {
                    self.holds = Some((pass, C::again(rest)));
                    self.ticket = Some(given);
                    Poll::Pending
                }
            },
        }
    }
}

impl<
    C: Awaited<T, P, W, A> + Drop,
    T: Drop,
    P: Ord + Drop,
    W: Clone + Drop,
    R: Wait,
    J: Recording,
    A: Allocator + Copy,
> Drop for Waiting<'_, C, T, P, W, R, J, A> {
    fn drop(self) {
        let Waiting {
            channel,
            rt,
            holds,
            ticket,
            waiter,
        } = self;
        if let Some((mut pass, call)) = holds {
            if let Some(ticket) = ticket {
                let ((), wakes) = channel.call(rt, &mut pass, GiveUp { ticket });
                drop(wakes.into_lists());
            }
            channel.leave(rt, pass);
            drop(call);
        }
        // A waker wakes its task when it is dropped.
        drop(waiter);
    }
}

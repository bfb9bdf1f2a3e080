//! What a future keeps between its polls, and a poll of it.
ghost use Rattle.std.specs.Prelude.{◌≡◌, true, None, is_some};
ghost use Rattle.std.specs.Option.{ForSome};
ghost use Rattle.futures.specs.Task.{Covers, Keeps};
ghost use Rattle.futures.specs.Poll.{IfReady, OnPending};
ghost use Rattle.priority_channel_waiting.specs.Holding.{done, IsRestOf};
ghost use Rattle.async_priority_channel.specs.Handles.{source_of};

use crate::handle::Handle;
use crate::waiting::RecvState;
use futures::task::{Context, Poll};
use priority_channel_waiting::guarded::Guarded;
use priority_channel_waiting::line::is_blocked;
use priority_channel_waiting::polled::Polled;
use priority_channel_waiting::states::{One, State};
use priority_channel_waiting::waiter::Waiter;
use std::alloc::Allocator;
use std::sync::{MutexGuard, Wait};

impl<T, P: Ord, R: Wait + Clone, A: Allocator + Copy> Handle<T, P, R, A> {
    // Polls the state of a future under this lock.
    fn poll<K: Polled<T, P, Waiter<A>, A> + Drop, N>(
        &self,
        locked: MutexGuard<'_, Guarded<T, P, A>>,
        state: &mut State<K, N>,
        waiter: &Waiter<A>,
    ) -> Poll<K::Answer>
        requires { ForSome state.old.kept K.can_poll }
        ensures answered { IfReady result (λ _. state.new ≡ done) }
        ensures waits { OnPending result (is_some state.new.kept ≡ is_some state.old.kept) }
        ensures handed_back { IfReady result (λ answer.
            IsRestOf K.can_poll K.leaves state.old (K.back answer)) }
        ensures left { IsRestOf K.can_poll K.leaves state.old state.new.kept }
    {
        let mut locked = locked;
        let Some((kept, ticket)) = state.take() else {
            return Poll::Pending;
        };
        let (polled, to_wake) = locked.poll(self.alloc(), kept, ticket, waiter);
        to_wake.wake(self.rt(), locked);
        state.keep(polled)
    }
}

/// The state of a future, and the waiter of its task, which is made when it first waits.
#[derive(Drop)]
pub struct Task<K, N, A: Allocator> {
    pub(crate) state: State<K, N>,
    pub(crate) waiter: Option<Waiter<A>>,
}

impl<K, N, A: Allocator + Copy> Task<K, N, A> {
    pub(crate) fn new(state: State<K, N>) -> Self
        ensures { result.state ≡ state }
    {
        Task {
            state,
            waiter: None,
        }
    }
}

impl<K: Drop, N, A: Allocator + Copy> Task<K, N, A> {
    /// Gives up the ticket, and returns what was not sent. A message may hold a handle of this
    /// channel, and a waker wakes its task when it is dropped, so both are dropped by the caller,
    /// after the lock is released.
    pub(crate) fn give_up<T, P: Ord, R: Wait + Clone>(
        &mut self,
        handle: &Handle<T, P, R, A>,
    ) -> Option<K>
        ensures kept { result ≡ self.old.state.kept }
        ensures done { self.new.state ≡ done }
    {
        let (kept, ticket) = self.state.take()?;
        handle.give_up(ticket);
        Some(kept)
    }

    // Makes the call at once, in one hold of the lock and without a waiter of its own, or else
    // waits with the task's waker.
    pub(crate) fn poll<T, P: Ord, R: Wait + Clone>(
        &mut self,
        handle: &Handle<T, P, R, A>,
        cx: &mut Context<'_>,
    ) -> Poll<K::Answer>
    where
        K: Polled<T, P, Waiter<A>, A>,
        requires { ForSome self.old.state.kept K.can_poll }
        ensures registered { OnPending result (Covers cx.new (λ source.
            source ≡ source_of K.waits_on handle.now)) }
        ensures kept { Keeps cx.old cx.new }
        ensures answered { IfReady result (λ _. self.new.state ≡ done) }
        ensures waits { OnPending result
            (is_some self.new.state.kept ≡ is_some self.old.state.kept) }
        ensures handed_back { IfReady result (λ answer.
            IsRestOf K.can_poll K.leaves self.old.state (K.back answer)) }
        ensures left { IsRestOf K.can_poll K.leaves self.old.state self.new.state.kept }
        ensures done { self.old.state.kept ≡ None → (result ≡ Poll.Pending)
            × (self.new.state ≡ self.old.state) }
    {
        if self.state.is_done() {
            return cx.yield_now();
        }
        let locked = handle.lock();
        if is_blocked(K::side(), locked.core()) {
            drop(locked);
            return self.wait(handle, cx);
        }
        // Only a bulk send can be pending here: one that sent a part. It is listed with a waiter
        // that nobody hears, and then again with its own.
        match handle.poll(locked, &mut self.state, handle.unheard()) {
            Poll::Ready(answer) => Poll::Ready(answer),
            Poll::Pending => self.wait(handle, cx),
        }
    }

    // Stores the waker, and then makes the call or waits.
    fn wait<T, P: Ord, R: Wait + Clone>(
        &mut self,
        handle: &Handle<T, P, R, A>,
        cx: &mut Context<'_>,
    ) -> Poll<K::Answer>
    where
        K: Polled<T, P, Waiter<A>, A>,
        requires callable { ForSome self.old.state.kept K.can_poll }
        requires kept { is_some self.old.state.kept ≡ true }
        ensures registered { OnPending result (Covers cx.new (λ source.
            source ≡ source_of K.waits_on handle.now)) }
        ensures kept { Keeps cx.old cx.new }
        ensures answered { IfReady result (λ _. self.new.state ≡ done) }
        ensures waits { OnPending result
            (is_some self.new.state.kept ≡ is_some self.old.state.kept) }
        ensures handed_back { IfReady result (λ answer.
            IsRestOf K.can_poll K.leaves self.old.state (K.back answer)) }
        ensures left { IsRestOf K.can_poll K.leaves self.old.state self.new.state.kept }
    {
        let Some(waiter) = handle.register(cx, K::side(), &mut self.waiter) else {
            let Some(rest) = self.give_up(handle) else {
                unreachable!()
            };
            return Poll::Ready(rest.refuse());
        };
        handle.poll(handle.lock(), &mut self.state, waiter)
    }

    /// Gives up the ticket, if there is one.
    pub(crate) fn end<T, P: Ord, R: Wait + Clone>(mut self, handle: &Handle<T, P, R, A>) {
        if self.state.ticket().is_some() {
            drop(self.give_up(handle));
        }
    }
}

impl<A: Allocator + Copy> Task<(), One, A> {
    /// Begins another receive. The waiter is kept.
    pub(crate) fn begin_again(&mut self) {
        self.state = RecvState::new();
    }
}

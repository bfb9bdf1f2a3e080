//! The futures of a receive, a send and a bulk send.
ghost use Rattle.std.specs.Prelude.{◌≡◌, None, is_some};
ghost use Rattle.std.specs.Option.{ForSome};
ghost use Rattle.futures.specs.Task.{Covers, Keeps};
ghost use Rattle.futures.specs.Poll.{IfReady, OnPending};
ghost use Rattle.priority_channel_waiting.specs.Holding.{done, IsRestOf};
ghost use Rattle.async_priority_channel.specs.Handles.{source_of};

use crate::end::{End, Role};
use crate::receiver::Receiving;
use crate::sender::Sending;
use crate::waiting::Task;
use futures::Future;
use futures::task::{Context, Poll};
use priority_channel_waiting::polled::Polled;
use priority_channel_waiting::states::{Many, One};
use priority_channel_waiting::waiter::Waiter;
use std::alloc::{Allocator, Global};
use std::marker::Model;
use std::sync::Wait;

/// Receives one message once there is one, and answers `Result<(T, P), RecvFault>`.
/// `Receiver::recv` makes it.
///
/// The error is `Closed` if no message can come any more, or `Memory` if memory was refused.
///
/// Cost: as `try_recv` for each try (see `Waiting`).
pub type Recv<'a, T, P, R, A = Global> = Waiting<'a, Receiving, (), One, T, P, R, A>;

/// Sends one message once there is room, and answers `Result<(), SendFault<(T, P)>>`.
/// `Sender::send` makes it.
///
/// The error is `Closed`, or `Memory` if memory was refused, and gives the message back.
///
/// Cost: as `try_send` for each try (see `Waiting`).
pub type Send<'a, T, P, R, A = Global> = Waiting<'a, Sending, (T, P), One, T, P, R, A>;

/// Sends many messages, as there is room, and answers `Result<(), SendFault<M>>`. `Sender::sendv`
/// makes it. `M` is the type that holds the messages: a `Peekable`.
///
/// The error is `Closed`, or `Memory` if memory was refused, and gives back what was not sent.
///
/// Cost: as `try_sendv` for each try (see `Waiting`).
pub type Sendv<'a, T, P, M, R, A = Global> = Waiting<'a, Sending, M, Many, T, P, R, A>;

/// A `Recv`, a `Send` or a `Sendv`: what it keeps between its polls, and the handle by which it
/// receives or sends.
///
/// If it is polled again after its answer, it is pending, changes nothing, and asks to be polled
/// once more. So it should not be polled any more.
///
/// Cost: a poll makes one try, or two where a bulk send sends a part. It compares O(log w) tickets,
/// where w waiters are listed. A poll that waits takes memory for its waiter, which is kept, and
/// for its entry in the waiting list.
#[must_use = "a future does nothing until it is polled: `block_on`, or a call that ends in `_blocking`"]
pub struct Waiting<'a, S: Role, K, N, T, P: Ord, R: Wait + Clone, A: Allocator + Copy = Global> {
    pub(crate) end: &'a End<S, T, P, R, A>,
    pub(crate) task: Task<K, N, A>,
}

impl<'a, S: Role, K, N, T, P: Ord, R: Wait + Clone, A: Allocator + Copy> Model
    for Waiting<'a, S, K, N, T, P, R, A> {
    ghost use Rattle.async_priority_channel.specs.Handles.{Underway};

    ghost Value = { Underway K };

    ghost view = { λ f. record { channel = f.end.now; state = f.task.state } };
}

impl<
    S: Role,
    K: Polled<T, P, Waiter<A>, A> + Drop,
    N,
    T,
    P: Ord,
    R: Wait + Clone,
    A: Allocator + Copy,
> Future for Waiting<'_, S, K, N, T, P, R, A> {
    type Output = K::Answer;

    ghost can_poll = { λ f. ForSome f.state.kept K.can_poll };

    ghost needs = { λ f source. source ≡ source_of K.waits_on f.channel };

    ghost gives = { λ f answer. IsRestOf K.can_poll K.leaves f.state (K.back answer) };

    fn poll(&mut self, cx: &mut Context<'_>) -> Poll<Self::Output>
        requires { ForSome self.old.state.kept K.can_poll }
        ensures value { IfReady result (λ answer.
            IsRestOf K.can_poll K.leaves self.old.state (K.back answer)) }
        ensures again { OnPending result (ForSome self.new.state.kept K.can_poll) }
        ensures same { OnPending result ((answer : K.Answer)
            → IsRestOf K.can_poll K.leaves self.new.state (K.back answer)
            → IsRestOf K.can_poll K.leaves self.old.state (K.back answer)) }
        ensures registered { OnPending result (Covers cx.new (λ source.
            source ≡ source_of K.waits_on self.new.channel)) }
        ensures kept { Keeps cx.old cx.new }
        ensures channel { self.new.channel ≡ self.old.channel }
        ensures answered { IfReady result (λ _. self.new.state ≡ done) }
        ensures waits { OnPending result
            (is_some self.new.state.kept ≡ is_some self.old.state.kept) }
        ensures left { IsRestOf K.can_poll K.leaves self.old.state self.new.state.kept }
        ensures done { self.old.state.kept ≡ None → (result ≡ Poll.Pending)
            × (self.new ≡ self.old) }
    {
        let end = self.end;
        self.task.poll(&end.handle, cx)
    }
}

impl<S: Role, K: Drop, N, T, P: Ord, R: Wait + Clone, A: Allocator + Copy> Drop
    for Waiting<'_, S, K, N, T, P, R, A> {
    fn drop(self) {
        let Waiting { end, task } = self;
        task.end(&end.handle);
    }
}

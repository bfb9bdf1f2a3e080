//! Many calls, one after another.
ghost use Rattle.std.specs.Prelude.{◌≡◌, true, false, All, length, drop};
ghost use Rattle.priority_channel_core.specs.Prelude.{nobody, IsGood, HasList, MayCall, Makes, RunsFront, IsAllowed, AllowsRun, ChangesHandles, AddsSome, MeetsTest, AllMeetTests, Response};
ghost use Rattle.std.specs.Iterator.Adapters.{peekable_can};
ghost use Rattle.priority_channel_core.specs.bag.Prelude.{Tells};

use crate::awaitable_atomics::Wakes;
use crate::calls::{Answer, Call};
use crate::channel::PriorityQueueChannel;
use std::alloc::{Allocator, Global};
use std::iter::Peekable;
use std::marker::Model;

/// The result of one call of a run: its answer, and the waiters to wake, each under its ticket.
#[derive(Drop)]
pub struct Response<T, P, W, M, A: Allocator = Global> {
    pub answer: Answer<T, P, M>,
    pub room_waiters: Vec<(u64, W), A>,
    pub message_waiters: Vec<(u64, W), A>,
}

impl<T, P, W, M, A: Allocator> Model for Response<T, P, W, M, A> {
    ghost Value = { Response T P W M };

    ghost view = { λ d. record {
      answer = d.answer;
      handed = record { room = d.room_waiters.items; message = d.message_waiters.items };
    } };
}

impl<T, P, W, M, A: Allocator> Response<T, P, W, M, A> {
    fn new(answer: Answer<T, P, M>, wakes: Wakes<W, A>) -> Self
        ensures answer { result.answer ≡ answer }
        ensures handed { result.handed ≡ wakes }
    {
        let (room_waiters, message_waiters) = wakes.into_lists();
        Response {
            answer,
            room_waiters,
            message_waiters,
        }
    }
}

/// The result of a run: the responses to the calls that it made, and the calls that it did not
/// make, both in order.
#[derive(Drop)]
pub struct Ran<T, P, W, M, F, A: Allocator = Global> {
    pub done: Vec<Response<T, P, W, M, A>, A>,
    pub left: Vec<Call<T, P, W, M, F>, A>,
}

impl<T: Drop, P: Ord + Drop, W: Clone, A: Allocator + Copy> PriorityQueueChannel<T, P, W, A> {
    /// Makes the calls in order. If there is no memory to keep another answer, it stops before that
    /// call. The channel is then as after the last call that was made, and the other calls come
    /// back, to be run again.
    ///
    /// ```
    /// type Pairs = array::IntoIter<(&str, i64), 2>;
    /// let calls = vec![in alloc; Call::TrySend("link", 3), Call::TakeWhere(is_link)]?;
    /// let ran = channel.run::<Pairs, _>(calls);
    /// ```
    pub fn run<I: Iterator<Item = (T, P)>, F: Fn(&T, &P) -> bool + Drop>(
        &mut self,
        mut calls: Vec<Call<T, P, W, Peekable<I>, F>, A>,
    ) -> Ran<T, P, W, Peekable<I>, F, A>
        requires allowed { AllowsRun self.old.state calls.items }
        requires callable { All (MayCall (peekable_can I.can_next) F.IsAlwaysCallable) calls.items }
        ensures run { RunsFront (HasList I.next_gives) P.cmp W.is_clone self.old.state calls.items
            result.done.items result.left.items self.new.state }
        ensures meets { AllMeetTests (λ test pair. Tells F.Fn test pair true)
            (λ test pair. Tells F.Fn test pair false) (HasList I.next_gives) P.cmp W.is_clone
            self.old.state calls.items result.done.items self.new.state }

        // This holds whether or not each iterator has one list: the calls that were not made are
        // left, and can be run from here.
        ensures left { result.left.items ≡ drop (length result.done.items) calls.items }
        ensures good { IsGood self.new.state }
        ensures allowed { AllowsRun self.new.state result.left.items }
        ensures callable { All (MayCall (peekable_can I.can_next) F.IsAlwaysCallable)
            result.left.items }
    {
        calls.reverse();
        let mut done = Vec::new(self.alloc);
        while !calls.is_empty() && done.reserve(1).is_ok() {
            let Some(call) = calls.pop() else {
                unreachable!()
            };
            done.push_reserved(self.make(call));
        }
        calls.reverse();
        // Reads the field so that the prover learns its invariant.
        let _ = &self.word;
        Ran { done, left: calls }
    }

    fn make<I: Iterator<Item = (T, P)>, F: Fn(&T, &P) -> bool + Drop>(
        &mut self,
        call: Call<T, P, W, Peekable<I>, F>,
    ) -> Response<T, P, W, Peekable<I>, A>
        requires allowed { IsAllowed self.old.state call }
        requires callable { MayCall (peekable_can I.can_next) F.IsAlwaysCallable call }
        ensures step { Makes (HasList I.next_gives) P.cmp W.is_clone self.old.state call
            result.answer result.handed self.new.state }
        ensures adds { AddsSome W.is_clone self.old.state call result.handed self.new.state }
        ensures meets { MeetsTest (λ test pair. Tells F.Fn test pair true)
            (λ test pair. Tells F.Fn test pair false) self.old.state.pending call result.answer
            self.new.state.pending }
        ensures handles { ChangesHandles self.old.state call self.new.state }
    {
        match call {
            Call::TrySend(msg, priority) => {
                let (reply, wakes) = self.try_send(msg, priority);
                Response::new(Answer::TrySend(reply), wakes)
            }
            Call::TrySendv(msgs) => {
                let (reply, wakes) = self.try_sendv(msgs);
                Response::new(Answer::TrySendv(reply), wakes)
            }
            Call::TrySendEvicting(msg, priority) => {
                let (reply, wakes) = self.try_send_evicting(msg, priority);
                Response::new(Answer::TrySendEvicting(reply), wakes)
            }
            Call::TryRecv => {
                let (reply, wakes) = self.try_recv();
                Response::new(Answer::TryRecv(reply), wakes)
            }
            Call::TakeWhere(test) => {
                let (taken, wakes) = self.take_where(&test);
                Response::new(Answer::TakeWhere(taken), wakes)
            }
            Call::ChangePriority(test, priority) => {
                let changed = self.change_priority(&test, priority);
                self.without_wakes(Answer::ChangePriority(changed))
            }
            Call::Close => {
                let (was_open, wakes) = self.close();
                Response::new(Answer::Close(was_open), wakes)
            }
            Call::IsClosed => self.without_wakes(Answer::IsClosed(self.is_closed())),
            Call::IsEmpty => self.without_wakes(Answer::IsEmpty(self.is_empty())),
            Call::IsFull => self.without_wakes(Answer::IsFull(self.is_full())),
            Call::Len => self.without_wakes(Answer::Len(self.len())),
            Call::Capacity => self.without_wakes(Answer::Capacity(self.capacity())),
            Call::SenderCount => self.without_wakes(Answer::SenderCount(self.sender_count())),
            Call::ReceiverCount => self.without_wakes(Answer::ReceiverCount(self.receiver_count())),
            Call::CloneSender => {
                let is_cloned = self.clone_sender();
                self.without_wakes(Answer::CloneSender(is_cloned))
            }
            Call::CloneReceiver => {
                let is_cloned = self.clone_receiver();
                self.without_wakes(Answer::CloneReceiver(is_cloned))
            }
            Call::DropSender => Response::new(Answer::DropSender, self.drop_sender()),
            Call::DropReceiver => Response::new(Answer::DropReceiver, self.drop_receiver()),
            Call::PollSend(msg, priority, ticket, waker) => {
                let (poll, wakes) = self.poll_send(msg, priority, ticket, &waker);
                Response::new(Answer::PollSend(poll), wakes)
            }
            Call::PollSendv(msgs, ticket, waker) => {
                let (poll, wakes) = self.poll_sendv(msgs, ticket, &waker);
                Response::new(Answer::PollSendv(poll), wakes)
            }
            Call::PollRecv(ticket, waker) => {
                let (poll, wakes) = self.poll_recv(ticket, &waker);
                Response::new(Answer::PollRecv(poll), wakes)
            }
            Call::GiveUp(ticket) => {
                self.give_up(ticket);
                self.without_wakes(Answer::GiveUp)
            }
            Call::CloseWhenDone => { Response::new(Answer::CloseWhenDone, self.close_when_done()) }
            Call::TryReserve => {
                let reply = self.try_reserve();
                self.without_wakes(Answer::TryReserve(reply))
            }
            Call::TryLease => {
                let reply = self.try_lease();
                self.without_wakes(Answer::TryLease(reply))
            }
            Call::LeaseWhere(test) => {
                let reply = self.try_lease_where(&test);
                self.without_wakes(Answer::LeaseWhere(reply))
            }
            Call::Put(msg, priority) => {
                let (reply, wakes) = self.put(msg, priority);
                Response::new(Answer::Put(reply), wakes)
            }
            Call::Free => {
                let (is_freed, wakes) = self.free();
                Response::new(Answer::Free(is_freed), wakes)
            }
            Call::Held => self.without_wakes(Answer::Held(self.held())),
        }
    }

    fn without_wakes<M>(&self, answer: Answer<T, P, M>) -> Response<T, P, W, M, A>
        ensures answer { result.answer ≡ answer }
        ensures handed { result.handed ≡ nobody }
    {
        Response::new(answer, Wakes::nobody(self.alloc))
    }
}

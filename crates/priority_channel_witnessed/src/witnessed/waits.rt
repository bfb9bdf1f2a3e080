//! Calls that wait on their thread.
//!
//! The thread first tries. If the try is blocked, a poll lists the thread, which sleeps, and polls
//! again under its ticket when it is woken, until a poll is ready. Each try and each poll is a call
//! of the history. The waiters that it lets go on are woken once the lock is free. When its time is
//! over, the thread gives up its ticket and tries a last time.
//!
//! No wake is lost. While a message is pending, no receiver is listed, since the call that sent it
//! woke all of them. So a receiver that gives up takes no wake from another. If it had been woken,
//! its last try takes the message, unless another receiver has taken it. The same holds for room.
//! The price is that each message wakes all waiting receivers, and all but one sleep again.
//!
//! The wakers that a call returns cannot be dropped, so a body that forgets to wake them does not
//! compile. Contracts do not say that a wake arrives, nor how long a wait takes: tests show both. A
//! thread that waits takes memory for its waiter and for its entry in the list.
ghost use Rattle.std.specs.Prelude.{◌≡◌, Some, None, IfErr, IfSome};
ghost use Rattle.priority_channel_waiting.specs.Ends.{OnOver};
ghost use Rattle.priority_channel_waiting.specs.Waits.{given_back, left_over, outcome_of_end};
ghost use Rattle.priority_channel_witnessed.specs.Passes.{Tells};
ghost use Rattle.priority_channel_witnessed.specs.Waits.{ends, Tried, ComesTo, IsCall};

use crate::awaited::{Awaited, PollOf};
use crate::chronicle::Pass;
use crate::witnessed::Witnessed;
use priority_channel_calls::call::CoreCall;
use priority_channel_calls::waits::GiveUp;
use priority_channel_core::calls::CorePoll;
use priority_channel_recorded::chronicle::Recording;
use priority_channel_waiting::retry::Outcome;
use priority_channel_waiting::timeouts::Ended;
use priority_channel_waiting::until::Until;
use priority_channel_waiting::waiter::{Waiter, wake_all};
use std::alloc::Allocator;
use std::convert::Infallible;
use std::sync::{Wait, WaitMethods};

// The end of a wait whose time is over, with its last try.
fn end_late<D, L, O: Drop>(last: Outcome<D, L>, over: O) -> Result<D, Ended<L, O>>
    ensures told { last ≡ outcome_of_end result }
    ensures over { IfErr result (λ ended. OnOver ended (λ evidence. evidence ≡ over)) }
{
    match last {
        Outcome::Done(done) => Ok(done),
        Outcome::Blocked(left) => Err(Ended::Over(left, over)),
        Outcome::Closed(left) => Err(Ended::Closed(left)),
        Outcome::Memory(left) => Err(Ended::Memory(left)),
    }
}

// The end of a wait for which memory was refused, with its last try.
pub(crate) fn end_refused<D, L>(last: Outcome<D, L>) -> Result<D, Ended<L, Infallible>>
    ensures { Tried last (ends (outcome_of_end result)) }
{
    match last {
        Outcome::Done(done) => Ok(done),
        Outcome::Closed(left) => Err(Ended::Closed(left)),
        Outcome::Blocked(left) | Outcome::Memory(left) => Err(Ended::Memory(left)),
    }
}

// The answer of a poll, as one of a wait with a limit.
#[tactic(auto, using(priority_channel_waiting::proofs::Ends::not_over))]
fn in_time<D, L, O>(answer: Result<D, Ended<L, Infallible>>) -> Result<D, Ended<L, O>>
    ensures same { outcome_of_end result ≡ outcome_of_end answer }
    ensures not_over { IfErr result (λ ended. OnOver ended (λ _. ⊥)) }
{
    match answer {
        Ok(done) => Ok(done),
        Err(Ended::Over(_left, never)) => match never {},
        Err(Ended::Closed(left)) => Err(Ended::Closed(left)),
        Err(Ended::Memory(left)) => Err(Ended::Memory(left)),
    }
}

impl<T, P: Ord, J: Recording, A: Allocator + Copy> Witnessed<T, P, Waiter<A>, J, A> {
    /// Makes a call, as `call`, and wakes the waiters that it lets go on.
    pub fn make<C: CoreCall<T, P, Waiter<A>, A>, R: Wait>(
        &self,
        rt: &R,
        pass: &mut Pass<T, P, Waiter<A>, J>,
        call: C,
    ) -> C::Answer
        requires { C.can_make call }
        ensures told { (handed : _) × Tells P.cmp ⟦<Waiter<A> as Clone>⟧.is_clone J.capacity
            J.is_reserved pass.old (C.told call result) handed pass.new }
        ensures gives { C.gives call result }
    {
        let (answer, wakes) = self.call(rt, pass, call);
        wake_all(rt, wakes);
        answer
    }

    /// Makes a call again until it is done or refused, or the time is over. Meanwhile the thread
    /// sleeps. What is left of a call that was not done comes back.
    ///
    /// `Over` is returned only if the clock was read at or past the deadline, or cannot be read,
    /// and the last call was blocked. `Memory` is returned also if memory for waiting is refused.
    ///
    /// ```
    /// let Ok((msg, priority)) = channel.wait(rt, pass, TryRecv, &Endless) else {
    ///     return Err(Closed);
    /// };
    /// let limit = Deadline::after(rt, Duration::from_millis(5));
    /// let sent = channel.wait(rt, pass, TrySend { msg, priority }, &limit);
    /// ```
    pub fn wait<C: Awaited<T, P, Waiter<A>, A>, R: Wait, U: Until>(
        &self,
        rt: &R,
        pass: &mut Pass<T, P, Waiter<A>, J>,
        call: C,
        until: &U,
    ) -> Result<C::Done, Ended<C::Left, U::Over>>
        requires { C.can_make call }
        ensures told { ComesTo P.cmp ⟦<Waiter<A> as Clone>⟧.is_clone J.capacity J.is_reserved
            C.call_of (IsCall C.told C.says C.polled) pass.old call None
            (ends (outcome_of_end result)) pass.new }
        ensures left { IfErr result (λ ended. C.can_make (C.call_of (given_back ended))
            × C.leaves call (given_back ended) × OnOver ended (U.has_come until.now)) }
    {
        let left = match self.attempt(rt, pass, call).answer() {
            Ok(answer) => return answer,
            Err(left) => left,
        };
        if let Err(over) = until.left() {
            return Err(Ended::Over(left, over));
        }
        match Waiter::new(self.alloc) {
            Ok(waiter) => self.wait_listed(rt, pass, C::again(left), until, &waiter),
            Err(_) => Err(Ended::Memory(left)),
        }
    }

    /// Tries the call.
    pub(crate) fn attempt<C: Awaited<T, P, Waiter<A>, A>, R: Wait>(
        &self,
        rt: &R,
        pass: &mut Pass<T, P, Waiter<A>, J>,
        call: C,
    ) -> Outcome<C::Done, C::Left>
        requires { C.can_make call }
        ensures told { (reply : C.Answer) × (handed : _) × Tells P.cmp
            ⟦<Waiter<A> as Clone>⟧.is_clone J.capacity J.is_reserved pass.old (C.told call reply)
            handed pass.new × (C.says reply ≡ result) }
        ensures left { IfSome (left_over result) (λ left. C.can_make (C.call_of left)
            × C.leaves call left) }
    {
        C::outcome(self.make(rt, pass, call))
    }

    // Lists the thread, which sleeps until the call is answered or the time is over.
    fn wait_listed<C: Awaited<T, P, Waiter<A>, A>, R: Wait, U: Until>(
        &self,
        rt: &R,
        pass: &mut Pass<T, P, Waiter<A>, J>,
        call: C,
        until: &U,
        waiter: &Waiter<A>,
    ) -> Result<C::Done, Ended<C::Left, U::Over>>
        requires { C.can_make call }
        ensures told { ComesTo P.cmp ⟦<Waiter<A> as Clone>⟧.is_clone J.capacity J.is_reserved
            C.call_of (IsCall C.told C.says C.polled) pass.old call None
            (ends (outcome_of_end result)) pass.new }
        ensures left { IfErr result (λ ended. C.can_make (C.call_of (given_back ended))
            × C.leaves call (given_back ended) × OnOver ended (U.has_come until.now)) }
    {
        let mut rest = call;
        let mut ticket = None;
        for _ in rt.forever() {
            let poll = PollOf {
                call: rest,
                ticket,
                waker: waiter,
            };
            match self.make(rt, pass, poll) {
                CorePoll::Ready(answer) => return in_time(answer),
                CorePoll::Pending(left, given) => match until.left() {
                    Ok(time) => {
                        waiter.park(rt, time);
                        ticket = Some(given);
                        rest = C::again(left);
                    }
                    Err(over) => {
                        let last = self.try_last(rt, pass, C::again(left), Some(given));
                        return end_late(last, over);
                    }
                },
            }
        }
        unreachable!()
    }

    /// Gives up the ticket, if there is one, and tries a last time.
    pub(crate) fn try_last<C: Awaited<T, P, Waiter<A>, A>, R: Wait>(
        &self,
        rt: &R,
        pass: &mut Pass<T, P, Waiter<A>, J>,
        call: C,
        ticket: Option<u64>,
    ) -> Outcome<C::Done, C::Left>
        requires { C.can_make call }
        ensures told { (end : _) → Tried result (ends end)
            → ComesTo P.cmp ⟦<Waiter<A> as Clone>⟧.is_clone J.capacity J.is_reserved
            C.call_of (IsCall C.told C.says C.polled) pass.old call ticket (ends end) pass.new }
        ensures left { IfSome (left_over result) (λ left. C.can_make (C.call_of left)
            × C.leaves call left) }
    {
        match ticket {
            None => self.attempt(rt, pass, call),
            Some(ticket) => {
                self.make(rt, pass, GiveUp { ticket });
                self.attempt(rt, pass, call)
            }
        }
    }
}

//! How a thread waits for room (a send) or for a message (a receive).
//!
//! The thread first tries its call. If the call is blocked, the thread spins: it tries again for a
//! short while. Then it joins the queue (`Line`) of the threads that wait on the same side, and
//! sleeps until it is the head of the queue (`Lead`). Of these threads only the head is in the
//! channel's waiting list, so a message, or the room for one, wakes one thread. A head that leaves
//! promotes the next thread.
//!
//! While a thread spins, the head is not in the channel's list, and a message or free room wakes no
//! thread of that side. The last thread that stops spinning has the head listed again, or wakes it.
//!
//! There is the core's lock, and a lock for the queue of each side. In the table, "both" means that
//! the queue's lock is taken first, and the core's lock within it. "Late" means that the time is
//! over, "free" that the call is not blocked, and "refused" that memory for waiting was refused:
//! then the thread returns `Memory`.
//!
//! | State   | What the thread does (function)        | Lock held | Next state                   |
//! |---------|----------------------------------------|-----------|------------------------------|
//! | try     | tries its call (`wait`)                | core      | return; blocked: unlist      |
//! |         |                                        |           | blocked and late: last       |
//! | unlist  | takes the head off the list (`spin`)   | both      | spin                         |
//! | spin    | tries up to 20 times, with pauses      | core, in  | relist                       |
//! |         | (`look_for_a_while`)                   | each try  |                              |
//! | relist  | lists or wakes the head (`rouse`)      | both      | return; blocked: join        |
//! | join    | joins the queue (`wait_blocked`)       | queue     | alone: head; else: queued    |
//! |         |                                        |           | refused: return              |
//! | queued  | sleeps (`sleep_in_line`)               | none      | woken as head: head          |
//! |         |                                        |           | late: leave; else: queued    |
//! | leave   | leaves the queue                       | queue     | last; head by now: head      |
//! | head    | has itself listed (`wait_as_first`)    | both      | listed: asleep; free: retry  |
//! |         |                                        |           | refused: promote; late: last |
//! | asleep  | sleeps until it is woken or late       | none      | retry                        |
//! | retry   | tries (`look_again`); if blocked, goes | as in try | promote; blocked: head       |
//! |         | through unlist, spin and relist        | to relist |                              |
//! | last    | tries a last time (`end_wait`)         | core      | return; a head: promote      |
//! | promote | makes the next the head (`hand_on`)    | both      | return                       |
//!
//! If spinning was recently of no use, unlist, spin and relist are skipped.
ghost use Rattle.std.specs.Prelude.{IfErr, IfSome};
ghost use Rattle.priority_channel_waiting.specs.Ends.{OnOver};
ghost use Rattle.priority_channel_waiting.specs.Waits.{left_over, given_back};

use crate::handle::Handle;
use crossbeam_utils::Backoff;
use priority_channel_core::side::Side;
use priority_channel_waiting::line::{Duty, Lead, Line, Listing, Queued, Ticket};
use priority_channel_waiting::retry::{Outcome, Retry};
use priority_channel_waiting::timeouts::Ended;
use priority_channel_waiting::until::Until;
use priority_channel_waiting::waiter::Waiter;
use std::alloc::Allocator;
use std::sync::{Wait, WaitMethods};

// How many times a call is tried again before its thread sleeps. The pauses of the processor
// between these tries are 959 in all, some microseconds, which is about what a sleep and a wake
// take. The thread does not yield in between: if other threads keep the processors busy, it would
// not run again for milliseconds.
const LOOKS: u32 = 20;

impl<T, P: Ord, R: Wait + Clone, A: Allocator + Copy> Handle<T, P, R, A> {
    /// Tries a call at once, in one step under the lock and without memory for waiting. If the call
    /// is blocked, waits until it is done or the time is over. The waiter is made when the thread
    /// has to wait, and is left for the next wait.
    #[tactic(auto, using(priority_channel_waiting::proofs::Ends::not_over))]
    #[inline(always)]
    pub fn wait<C: Retry<T, P, Waiter<A>, A>, U: Until>(
        &self,
        call: C,
        until: &U,
        waiter: &mut Option<Waiter<A>>,
    ) -> Result<C::Done, Ended<C::Left, U::Over>>
        requires { C.can_make call }
        ensures { IfErr result (λ ended. C.can_make (C.call_of (given_back ended))
            × C.leaves call (given_back ended) × OnOver ended (U.has_come until.now)) }
    {
        match self.attempt(call).answer() {
            Ok(answer) => answer,
            Err(left) => self.wait_blocked::<C, U>(left, until, waiter),
        }
    }

    /// Makes a call, in one step.
    #[inline(always)]
    pub fn attempt<C: Retry<T, P, Waiter<A>, A>>(&self, call: C) -> Outcome<C::Done, C::Left>
        requires { C.can_make call }
        ensures { IfSome (left_over result) (λ left. C.can_make (C.call_of left)
            × C.leaves call left) }
    {
        C::outcome(self.call(call))
    }

    // Makes the call of what is left, in one step.
    fn attempt_again<C: Retry<T, P, Waiter<A>, A>>(
        &self,
        left: C::Left,
    ) -> Outcome<C::Done, C::Left>
        requires { C.can_make (C.call_of left) }
        ensures { IfSome (left_over result) (λ rest. C.can_make (C.call_of rest)
            × C.leaves (C.call_of left) rest) }
    {
        self.attempt(C::again(left))
    }

    #[tactic(auto, using(priority_channel_waiting::proofs::Ends::not_over))]
    #[inline(never)]
    fn wait_blocked<C: Retry<T, P, Waiter<A>, A>, U: Until>(
        &self,
        left: C::Left,
        until: &U,
        waiter: &mut Option<Waiter<A>>,
    ) -> Result<C::Done, Ended<C::Left, U::Over>>
        requires { C.can_make (C.call_of left) }
        ensures { IfErr result (λ ended. C.can_make (C.call_of (given_back ended))
            × C.leaves (C.call_of left) (given_back ended) × OnOver ended (U.has_come until.now)) }
    {
        if let Err(over) = until.left() {
            return self.end_wait::<C, U>(left, over, until);
        }
        let left = match self.spin::<C>(left).answer() {
            Ok(answer) => return answer,
            Err(left) => left,
        };
        let Some(waiter) = Waiter::get_or_make(self.alloc(), waiter) else {
            return Err(Ended::Memory(left));
        };
        let side = C::side();
        let joined = self.line(side).join(waiter);
        let Ok(queued) = joined else {
            return Err(Ended::Memory(left));
        };
        match self.sleep_in_line(side, queued, until, waiter) {
            Ok(lead) => {
                let answer = self.wait_as_first::<C, U>(left, until, waiter);
                self.hand_on(side, lead);
                answer
            }
            Err(over) => self.end_wait::<C, U>(left, over, until),
        }
    }

    // Tries the call again for a while, if spinning was recently of use. Meanwhile the head of the
    // queue is not in the channel's list.
    fn spin<C: Retry<T, P, Waiter<A>, A>>(&self, left: C::Left) -> Outcome<C::Done, C::Left>
        requires { C.can_make (C.call_of left) }
        ensures { IfSome (left_over result) (λ rest. C.can_make (C.call_of rest)
            × C.leaves (C.call_of left) rest) }
    {
        let side = C::side();
        if !self.spins(side).are_due() {
            return Outcome::Blocked(left);
        }
        let mut line = self.line(side);
        let spinner = line.begin_spin();
        self.unlist(line.take_ticket());
        drop(line);
        let outcome = self.look_for_a_while::<C>(left);
        let mut line = self.line(side);
        let duty = line.end_spin(spinner);
        self.rouse(side, &mut line, duty);
        outcome
    }

    fn look_for_a_while<C: Retry<T, P, Waiter<A>, A>>(
        &self,
        left: C::Left,
    ) -> Outcome<C::Done, C::Left>
        requires { C.can_make (C.call_of left) }
        ensures { IfSome (left_over result) (λ rest. C.can_make (C.call_of rest)
            × C.leaves (C.call_of left) rest) }
    {
        let spins = self.spins(C::side());
        let backoff = Backoff::new();
        let mut rest = left;
        for _ in 0..LOOKS {
            backoff.spin();
            match self.attempt_again::<C>(rest) {
                Outcome::Blocked(left) => rest = left,
                outcome => {
                    spins.note(true);
                    return outcome;
                }
            }
        }
        spins.note(false);
        Outcome::Blocked(rest)
    }

    // Takes the head of the queue off the channel's list, if it has a ticket there.
    fn unlist(&self, ticket: Option<Ticket>) {
        if let Some(ticket) = ticket {
            self.call(ticket.into_call());
        }
    }

    // If the head of the queue is not listed and no thread spins, nothing would wake the head. Then
    // the channel lists it, and it sleeps on. If it need not wait, or its listing was refused, it
    // is woken.
    fn rouse(&self, side: Side, line: &mut Line<A>, duty: Duty) {
        let Some(duty) = line.check(duty) else {
            return;
        };
        let mut locked = self.lock();
        let (unlisted, to_wake) = locked.list_for(self.alloc(), side, line, duty);
        to_wake.wake(self.rt(), locked);
        if let Some(unlisted) = unlisted {
            line.wake_first(unlisted);
        }
    }

    // Sleeps in the queue until this thread is the head, or the time is over.
    fn sleep_in_line<U: Until>(
        &self,
        side: Side,
        queued: Queued,
        until: &U,
        waiter: &Waiter<A>,
    ) -> Result<Lead, U::Over>
        ensures { IfErr result (U.has_come until.now) }
    {
        let mut queued = queued;
        for _ in self.rt().forever() {
            let led = self.line(side).lead(queued);
            match led {
                Ok(lead) => return Ok(lead),
                Err(waiting) => queued = waiting,
            }
            match until.left() {
                Ok(left) => waiter.park(self.rt(), left),
                Err(over) => {
                    let left = self.line(side).leave(queued);
                    match left {
                        Ok(()) => return Err(over),
                        // This thread has become the head in the meantime.
                        Err(waiting) => queued = waiting,
                    }
                }
            }
        }
        unreachable!()
    }

    #[tactic(auto, using(priority_channel_waiting::proofs::Ends::not_over))]
    fn wait_as_first<C: Retry<T, P, Waiter<A>, A>, U: Until>(
        &self,
        left: C::Left,
        until: &U,
        waiter: &Waiter<A>,
    ) -> Result<C::Done, Ended<C::Left, U::Over>>
        requires { C.can_make (C.call_of left) }
        ensures { IfErr result (λ ended. C.can_make (C.call_of (given_back ended))
            × C.leaves (C.call_of left) (given_back ended) × OnOver ended (U.has_come until.now)) }
    {
        let side = C::side();
        let mut rest = left;
        for _ in self.rt().forever() {
            let time = match until.left() {
                Ok(time) => time,
                Err(over) => return self.end_wait::<C, U>(rest, over, until),
            };
            match self.list_first(side) {
                // The thread may wake early. Or another thread may have taken by now what it was
                // woken for.
                Listing::Listed => waiter.park(self.rt(), time),
                Listing::Free => {}
                Listing::Refused => return Err(Ended::Memory(rest)),
            }
            match self.look_again::<C>(rest).answer() {
                Ok(answer) => return answer,
                Err(left) => rest = left,
            }
        }
        unreachable!()
    }

    // Has the channel list the head of the queue, which is this thread.
    fn list_first(&self, side: Side) -> Listing {
        let mut line = self.line(side);
        let mut locked = self.lock();
        let (listing, to_wake) = locked.list_first(self.alloc(), side, &mut line);
        to_wake.wake(self.rt(), locked);
        listing
    }

    // A success right after a wake-up does not count as a success of spinning.
    fn look_again<C: Retry<T, P, Waiter<A>, A>>(&self, left: C::Left) -> Outcome<C::Done, C::Left>
        requires { C.can_make (C.call_of left) }
        ensures { IfSome (left_over result) (λ rest. C.can_make (C.call_of rest)
            × C.leaves (C.call_of left) rest) }
    {
        match self.attempt_again::<C>(left) {
            Outcome::Blocked(left) => self.spin::<C>(left),
            outcome => outcome,
        }
    }

    // Promotes the next thread in the queue to the head.
    fn hand_on(&self, side: Side, lead: Lead) {
        let mut line = self.line(side);
        let (duty, ticket) = line.move_up(lead);
        self.unlist(ticket);
        self.rouse(side, &mut line, duty);
    }

    // A last attempt, without memory for waiting.
    fn end_wait<C: Retry<T, P, Waiter<A>, A>, U: Until>(
        &self,
        left: C::Left,
        over: U::Over,
        until: &U,
    ) -> Result<C::Done, Ended<C::Left, U::Over>>
        requires call { C.can_make (C.call_of left) }
        requires over { U.has_come until.now over }
        ensures { IfErr result (λ ended. C.can_make (C.call_of (given_back ended))
            × C.leaves (C.call_of left) (given_back ended) × OnOver ended (U.has_come until.now)) }
    {
        match self.attempt_again::<C>(left) {
            Outcome::Done(done) => Ok(done),
            // If memory is refused only in this attempt, the error is still that the time is over:
            // there was no room in time.
            Outcome::Blocked(left) | Outcome::Memory(left) => Err(Ended::Over(left, over)),
            Outcome::Closed(left) => Err(Ended::Closed(left)),
        }
    }
}

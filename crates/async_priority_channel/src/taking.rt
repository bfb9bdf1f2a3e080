//! Calls that count, change, receive or take out the messages that a test chooses.
ghost use Rattle.std.specs.Prelude.{List, true, false, All, IfOk, IfSome};
ghost use Rattle.std.specs.List.{FoldsTo};
ghost use Rattle.priority_channel_core.specs.bag.Prelude.{Folds, Tells};

use crate::end::{End, Role};
use crate::receiver::Receiver;
use priority_channel_calls::receives::{TryRecvIf, TryRecvWhere};
use priority_channel_calls::taking::{ChangePriority, Retain, TakeWhere};
use priority_channel_core::errors::TryRecvError;
use std::alloc::{AllocError, Allocator};
use std::sync::Wait;

impl<S: Role, T, P: Ord, R: Wait + Clone, A: Allocator + Copy> End<S, T, P, R, A> {
    /// Takes out a pending message for which the test returns true, also from a closed channel, as
    /// when its sender or a receiver cancels it. None if there is none. If there are several, it is
    /// not specified which one is taken. A message that is taken is not received: others receive
    /// their messages in the order as if it had never been sent. To cancel a job that a worker may
    /// already have, its message needs a flag as well.
    ///
    /// The test is called on pending messages in no specified order, and on none after it has
    /// returned true. It is called under the channel's lock (see `End`), and dropped once the lock
    /// is released.
    ///
    /// It wakes the waiting senders.
    ///
    /// Cost: up to n tests under the lock, and O(log n) comparisons, at most twice as many as n has
    /// binary digits. No memory.
    ///
    /// ```
    /// let (tx, rx) = unbounded(&rt, rt.alloc())?;
    /// let jobs = [("compile", 2), ("link", 1), ("test", 3)];
    /// tx.try_sendv(jobs.into_iter().peekable())?;
    /// assert_eq!(rt; rx.take_where(|job, _| *job == "link"), Some(("link", 1)));
    /// assert_eq!(rt; rx.take_where(|job, _| *job == "link"), None);
    /// assert_eq!(rt; rx.try_recv(), Ok(("test", 3)));
    /// ```
    pub fn take_where<F: Fn(&T, &P) -> bool>(&self, test: F) -> Option<(T, P)>
    where
        F: Drop,
        requires { F.IsAlwaysCallable test }
        ensures { IfSome result (λ pair. Tells F.Fn test pair true) }
    {
        self.handle.call(TakeWhere { test: &test })
    }

    /// Gives another priority to the pending message that was accepted first among those for which
    /// the test returns true, also in a closed channel. Returns the priority that it had, or None
    /// if there is no such message. The message keeps its place in the order of acceptance: among
    /// equal priorities it is received as if it had been sent with the new one.
    ///
    /// The test is called at most once on each pending message, in no specified order. It is called
    /// under the channel's lock (see `End`), and dropped once the lock is released. So is the given
    /// priority, if there is no such message.
    ///
    /// It wakes those that wait with a condition, as in `recv_where`, and nobody else. If there is
    /// no such message it wakes nobody.
    ///
    /// Cost: up to n tests under the lock, and O(log n) comparisons, at most twice as many as n has
    /// binary digits. No memory.
    ///
    /// ```
    /// let (tx, rx) = unbounded(&rt, rt.alloc())?;
    /// let jobs = [("compile", 2), ("link", 1), ("test", 3)];
    /// tx.try_sendv(jobs.into_iter().peekable())?;
    /// assert_eq!(rt; rx.change_priority(|job, _| *job == "link", 3), Some(1));
    /// assert_eq!(rt; rx.change_priority(|job, _| *job == "deploy", 9), None);
    /// assert_eq!(rt; rx.try_recv(), Ok(("link", 3)));
    /// assert_eq!(rt; rx.try_recv(), Ok(("test", 3)));
    /// ```
    pub fn change_priority<F: Fn(&T, &P) -> bool>(&self, test: F, priority: P) -> Option<P>
    where
        F: Drop,
        P: Drop,
        requires { F.IsAlwaysCallable test }
        ensures { IfSome result (λ was. (msg : T) × Tells F.Fn test (msg, was) true) }
    {
        let change = ChangePriority {
            test: &test,
            priority,
        };
        self.handle.call(change).ok()
    }

    /// The number of pending messages for which the test returns true. The test is called as by
    /// `retain`.
    ///
    /// Cost: n tests under the lock, and no comparison.
    ///
    /// ```
    /// let (tx, rx) = unbounded(&rt, rt.alloc())?;
    /// tx.try_sendv([("Foo", 0), ("Bar", 2), ("Baz", 5)].into_iter().peekable())?;
    /// assert_eq!(rt; rx.count_where(|_, priority| *priority > 1), 2);
    /// ```
    pub fn count_where<F: Fn(&T, &P) -> bool>(&self, test: F) -> u64
    where
        F: Drop,
        requires { F.IsAlwaysCallable test }
    {
        self.handle.lock().core().count_where(&test)
    }

    /// Calls `step` on each pending message in turn, in no specified order, with what the call
    /// before it returned, and the first time with `init`. Returns what the last call returned, or
    /// `init` if nothing is pending. All messages stay pending.
    ///
    /// `step` is called under the channel's lock (see `End`), and dropped once the lock is
    /// released.
    ///
    /// Cost: n calls of `step` under the lock, and no comparison.
    ///
    /// ```
    /// let (tx, rx) = unbounded(&rt, rt.alloc())?;
    /// tx.try_sendv([("Foo", 0), ("Bar", 2), ("Baz", 5)].into_iter().peekable())?;
    /// let most = rx.fold_pending(0, |most: u64, _, priority| most.max(*priority));
    /// assert_eq!(rt; most, 5);
    /// ```
    pub fn fold_pending<X, F: Fn(X, &T, &P) -> X>(&self, init: X, step: F) -> X
    where
        F: Drop,
        requires { F.IsAlwaysCallable step }
        ensures { (pairs : List (T × P)) × FoldsTo (Folds F.Fn step) init pairs result }
    {
        self.handle.lock().core().fold_pending(init, &step)
    }

    /// Keeps the pending messages for which the test returns true. All others are returned, in no
    /// specified order, also from a closed channel. They are not received: what is kept is in the
    /// order as if they had never been sent.
    ///
    /// The test is called once on each pending message, in no specified order, and under the
    /// channel's lock.
    ///
    /// The error is that memory was refused. Then nothing has changed, and the test was not called.
    /// If a message is taken out, the waiting senders are woken. After `close`,
    /// `retain(|_, _| false)` takes out all that is pending.
    ///
    /// Cost: under the lock memory for n messages, n tests, and for each kept message at most as
    /// many comparisons as the number of kept messages has binary digits.
    ///
    /// ```
    /// let (tx, rx) = unbounded(&rt, rt.alloc())?;
    /// let jobs = [("compile", 2), ("link", 1), ("test", 3)];
    /// tx.try_sendv(jobs.into_iter().peekable())?;
    /// let cancelled = rx.retain(|job, _| *job != "link")?;
    /// assert_eq!(rt; cancelled.as_slice(), [("link", 1)].as_slice());
    /// assert_eq!(rt; rx.try_recv(), Ok(("test", 3)));
    /// assert_eq!(rt; rx.len(), 1);
    /// ```
    pub fn retain<F: Fn(&T, &P) -> bool>(&self, test: F) -> Result<Vec<(T, P), A>, AllocError>
    where
        F: Drop,
        requires { F.IsAlwaysCallable test }
        ensures { IfOk result (λ taken. All (λ pair. Tells F.Fn test pair false) taken.items) }
    {
        let retain = Retain {
            test: &test,
            alloc: self.handle.alloc(),
        };
        self.handle.call(retain)
    }
}

impl<T, P: Ord, R: Wait + Clone, A: Allocator + Copy> Receiver<T, P, R, A> {
    /// Receives the most urgent message for which the test returns true, and among equals the one
    /// that was accepted first. If messages are pending, but none for which it does, it returns
    /// `Ok(None)`. The errors are those of `try_recv`.
    ///
    /// The test is called once on each pending message, in no specified order, and under the
    /// channel's lock (see `End`).
    ///
    /// Cost: n tests under the lock, and at most n comparisons beside those of `try_recv`. No
    /// memory.
    ///
    /// ```
    /// let (tx, rx) = unbounded(&rt, rt.alloc())?;
    /// let jobs = [("compile", 2), ("link", 1), ("test", 3)];
    /// tx.try_sendv(jobs.into_iter().peekable())?;
    /// let short = rx.try_recv_where(|job, _| job.len() < 5);
    /// assert_eq!(rt; short, Ok(Some(("test", 3))));
    /// assert_eq!(rt; rx.try_recv_where(|job, _| *job == "deploy"), Ok(None));
    /// assert_eq!(rt; rx.len(), 2);
    /// ```
    pub fn try_recv_where<F: Fn(&T, &P) -> bool>(
        &self,
        test: F,
    ) -> Result<Option<(T, P)>, TryRecvError>
    where
        F: Drop,
        requires { F.IsAlwaysCallable test }
        ensures { IfOk result (λ taken. IfSome taken (λ pair. Tells F.Fn test pair true)) }
    {
        self.handle.call(TryRecvWhere { test: &test })
    }

    /// Receives the message of greatest priority, if the test returns true for it. Otherwise it
    /// returns `Ok(None)`, and the message stays pending. The errors are those of `try_recv`. The
    /// test is called as by `take_where`, and on this message alone.
    ///
    /// Cost: one test under the lock, and as `try_recv`.
    ///
    /// ```
    /// let (tx, rx) = unbounded(&rt, rt.alloc())?;
    /// tx.try_send("reindex", 1)?;
    /// assert_eq!(rt; rx.try_recv_if(|_, priority| *priority > 5), Ok(None));
    /// tx.try_send("page the admin", 9)?;
    /// let urgent = rx.try_recv_if(|_, priority| *priority > 5);
    /// assert_eq!(rt; urgent, Ok(Some(("page the admin", 9))));
    /// assert_eq!(rt; rx.len(), 1);
    /// ```
    pub fn try_recv_if<F: Fn(&T, &P) -> bool>(
        &self,
        test: F,
    ) -> Result<Option<(T, P)>, TryRecvError>
    where
        F: Drop,
        requires { F.IsAlwaysCallable test }
        ensures { IfOk result (λ taken. IfSome taken (λ pair. Tells F.Fn test pair true)) }
    {
        self.handle.call(TryRecvIf { test: &test })
    }
}

//! The waiter of a task or a thread, which the channel keeps in its lists.
ghost use Rattle.std.specs.Prelude.{◌≡◌, IsSome, IsSomeAnd, IfSome};
ghost use Rattle.futures.specs.Task.{Hears, IsArmed, Keeps};

use futures::task::{Context, Poll, Source, Waker};
use priority_channel_core::awaitable_atomics::Wakes;
use priority_channel_core::channel::PriorityQueueChannel;
use std::alloc::{AllocError, Allocator};
use std::marker::Model;
use std::sync::{Arc, Mutex, Wait};
use std::thread::Parker;
use std::time::Duration;

/// A channel's core, whose waiters are tasks and threads.
pub type Core<T, P, A> = PriorityQueueChannel<T, P, Waiter<A>, A>;

/// One task or one thread that waits. A future or a blocking call shares it with the channel's
/// waiting list, and keeps it over its polls.
///
/// A waker wakes its task also when it is dropped. Suppose that each poll made a new waker. A poll
/// of a future that is still listed would then drop the listed waker, wake its own task, and be
/// polled again at once, for ever. In a shared waiter a poll finds the waker of its own task, and
/// leaves it there.
#[derive(Drop)]
pub struct Waiter<A: Allocator> {
    inner: Arc<Inner, A>,
}

impl<A: Allocator> Model for Waiter<A> {
    ghost use Rattle.std.specs.Prelude.{ℕ};
    ghost use Rattle.std.specs.Arc.{arc_value};

    ghost Value = { ℕ };

    ghost view = { λ w. arc_value w.inner };
}

// A task waits by its waker, a thread by its parker.
#[derive(Drop)]
struct Inner {
    // Identifies the waiter, for contracts.
    identity: Source,
    waker: Mutex<Option<Waker>>,
    parker: Parker,
}

impl Model for Inner {
    ghost use Rattle.std.specs.Prelude.{ℕ};

    ghost Value = { ℕ };

    ghost view = { λ i. i.identity.id };
}

impl<A: Allocator + Copy> Waiter<A> {
    pub fn new(alloc: A) -> Result<Self, AllocError> {
        let inner = Inner {
            identity: Source::new(),
            waker: Mutex::new(None),
            parker: Parker::new(),
        };
        let inner = Arc::new(alloc, inner)?;
        Ok(Waiter { inner })
    }

    /// The waiter that a task or a thread keeps. It is made on its first wait. None if memory was
    /// refused.
    pub fn get_or_make(alloc: A, kept: &mut Option<Self>) -> Option<&Self>
        ensures own { IfSome kept.old (λ own. IsSomeAnd result (λ waiter. waiter.now ≡ own)) }
    {
        if kept.is_none() {
            *kept = Some(Waiter::new(alloc).ok()?);
        }
        kept.as_ref()
    }

    /// Stores the task's waker in its waiter (`kept`). None if the waiter or the waker was
    /// refused.
    pub fn register<'w, R: Wait>(
        rt: &R,
        alloc: A,
        cx: &mut Context<'_>,
        source: &Source,
        kept: &'w mut Option<Self>,
    ) -> Option<&'w Self>
        ensures own { IfSome kept.old (λ own. IfSome result (λ waiter. waiter.now ≡ own)) }
        ensures heard { IsSome result → IsArmed cx.new × Hears cx.new source.now.id }
        ensures kept { Keeps cx.old cx.new }
    {
        let waiter = Waiter::get_or_make(alloc, kept)?;
        let mut slot = waiter.inner.waker.lock(rt);
        let _pending: Poll<()> = cx.register(source, &mut slot);
        if slot.is_none() {
            return None;
        }
        drop(slot);
        Some(waiter)
    }
}

impl<A: Allocator> Waiter<A> {
    /// Parks the thread until it is woken, or `limit` has passed. It may return early. It returns
    /// at once if a wake came since the thread was last parked.
    pub fn park<R: Wait>(&self, rt: &R, limit: Option<Duration>) {
        match limit {
            Some(limit) => self.inner.parker.park_timeout(rt, limit),
            None => self.inner.parker.park(rt),
        }
    }

    /// Wakes the thread that is parked here. If none is parked, the next `park` returns at once.
    pub fn unpark(&self) {
        self.inner.parker.unpark();
    }

    // Wakes the task, after the waiter's lock is released, and the thread.
    fn wake<R: Wait>(self, rt: &R) {
        let waker = self.inner.waker.lock(rt).take();
        drop(waker);
        self.unpark();
    }
}

// Dropping a clone drops no waker while another clone exists. So a list can drop a clone under the
// channel's lock.
impl<A: Allocator> Clone for Waiter<A> {
    ghost use Rattle.std.specs.Prelude.{◌≡◌};

    ghost is_clone = { λ waiter other. other ≡ waiter };

    fn clone(&self) -> Result<Self, AllocError> {
        let inner = Arc::try_clone(&self.inner)?;
        Ok(Waiter { inner })
    }
}

/// Wakes all these waiters, which a call took off the waiting lists. It takes the waiters' locks,
/// and the channel's lock must be free.
#[inline(always)]
pub fn wake_all<R: Wait, A: Allocator>(rt: &R, wakes: Wakes<Waiter<A>, A>) {
    let (room, message) = wakes.into_lists();
    wake_each(rt, room);
    wake_each(rt, message);
}

/// Wakes the waiters of one list, as `wake_all` does.
#[inline(always)]
pub fn wake_each<R: Wait, A: Allocator>(rt: &R, waiters: Vec<(u64, Waiter<A>), A>) {
    for (_, waiter) in waiters {
        waiter.wake(rt);
    }
}

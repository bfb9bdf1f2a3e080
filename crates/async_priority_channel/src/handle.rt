//! What the handles of a channel share, and the calls on it.
//!
//! The small calls of the hot path are forced inline. Otherwise their results would be written to
//! memory and read back at once.
ghost use Rattle.std.specs.Prelude.{◌≡◌, IfOk, IsSome};
ghost use Rattle.futures.specs.Task.{Hears, IsArmed, Keeps};
ghost use Rattle.priority_channel_core.specs.Prelude.{opening, capacity_told};
ghost use Rattle.async_priority_channel.specs.Handles.{source_beside, source_of};

use crate::identity::Identity;
use crate::lock::Lock;
use futures::task::{Context, Source};
use priority_channel_calls::call::CoreCall;
use priority_channel_calls::places::{Fill, Place};
use priority_channel_calls::receives::TryRecv;
use priority_channel_core::side::Side;
use priority_channel_waiting::guarded::Guarded;
use priority_channel_waiting::line::Line;
use priority_channel_waiting::selecting::Sight;
use priority_channel_waiting::spins::Spins;
use priority_channel_waiting::waiter::{Core, Waiter};
use std::alloc::{AllocError, Allocator};
use std::marker::Model;
use std::random::RandomSource;
use std::sync::atomic::{AtomicBool, Ordering};
use std::sync::{Arc, Mutex, MutexGuard, Wait};

/// The waiters of one side: tasks (by source) and threads (in a queue).
#[derive(Drop)]
struct Waits<A: Allocator> {
    source: Source,
    // The lock of the queue is taken before the core's lock where both are held, and never while
    // the core's lock is held.
    line: Mutex<Line<A>>,
    spins: Spins,
}

impl<A: Allocator> Model for Waits<A> {
    ghost use Rattle.std.specs.Prelude.{ℕ};

    ghost Value = { ℕ };

    ghost view = { λ w. w.source.id };
}

impl<A: Allocator> Waits<A> {
    fn new(alloc: A) -> Self {
        Waits {
            source: Source::new(),
            line: Mutex::new(Line::new(alloc)),
            spins: Spins::new(),
        }
    }
}

#[derive(Drop)]
struct Shared<T, P: Ord, A: Allocator + Copy> {
    alloc: A,
    capacity: u64,
    room: Waits<A>,
    message: Waits<A>,
    // A waiter that no task and no thread hears.
    unheard: Waiter<A>,
    // The source of the tasks that wait for the close.
    closing: Source,
    guarded: Lock<Guarded<T, P, A>>,
    // Whether pending messages are dropped when the last receiver is dropped.
    lets_go: AtomicBool,
    identity: Identity,
}

impl<T, P: Ord, A: Allocator + Copy> Model for Shared<T, P, A> {
    ghost use Rattle.async_priority_channel.specs.Handles.{Channel};

    ghost Value = { Channel };

    ghost view = { λ s. record {
      capacity = s.capacity;
      room = s.room;
      message = s.message;
      closing = s.closing.id;
    } };
}

/// What a sender or a receiver holds: the data that all handles of a channel share, and the
/// permission to wait for its lock.
#[derive(Drop)]
pub struct Handle<T, P: Ord, R, A: Allocator + Copy> {
    rt: R,
    shared: Arc<Shared<T, P, A>, A>,
}

impl<T, P: Ord, R, A: Allocator + Copy> Model for Handle<T, P, R, A> {
    ghost use Rattle.std.specs.Arc.{arc_value};
    ghost use Rattle.async_priority_channel.specs.Handles.{Channel};

    ghost Value = { Channel };

    ghost view = { λ h. arc_value h.shared };
}

impl<T: Drop, P: Ord + Drop, R: Wait + Clone, A: Allocator + Copy> Handle<T, P, R, A> {
    /// The handles of the first sender and the first receiver of a new channel over this core.
    pub fn pair(
        rt: &R,
        alloc: A,
        capacity: u64,
        core: Core<T, P, A>,
    ) -> Result<(Self, Self), AllocError>
        requires { core.state ≡ opening capacity core.state.is_reserved }
        ensures capacity { IfOk result (λ pair. pair.0.capacity ≡ capacity) }
        ensures same { IfOk result (λ pair. pair.1 ≡ pair.0) }
    {
        let one = Handle {
            rt: rt.clone()?,
            shared: Arc::new(
                alloc,
                Shared {
                    alloc,
                    capacity,
                    room: Waits::new(alloc),
                    message: Waits::new(alloc),
                    unheard: Waiter::new(alloc)?,
                    closing: Source::new(),
                    guarded: Lock::new(Guarded::new(core)),
                    lets_go: AtomicBool::new(false),
                    identity: Identity::new(),
                },
            )?,
        };
        let other = one.share()?;
        Ok((one, other))
    }
}

impl<T, P: Ord, R: Wait + Clone, A: Allocator + Copy> Handle<T, P, R, A> {
    /// Another handle of the channel. It changes no count.
    pub fn share(&self) -> Result<Self, AllocError>
        ensures { IfOk result (λ other. other ≡ self.now) }
    {
        let rt = self.rt.clone()?;
        let shared = Arc::try_clone(&self.shared)?;
        Ok(Handle { rt, shared })
    }

    /// Takes the channel's lock.
    #[inline(always)]
    pub fn lock(&self) -> MutexGuard<'_, Guarded<T, P, A>> {
        self.shared.guarded.lock(&self.rt)
    }

    fn waits(&self, side: Side) -> &Waits<A>
        ensures { result.now ≡ source_of side self.now }
    {
        match side {
            Side::Room => &self.shared.room,
            Side::Message => &self.shared.message,
        }
    }

    /// The queue of the threads that wait on this side.
    pub fn line(&self, side: Side) -> MutexGuard<'_, Line<A>> {
        self.waits(side).line.lock(&self.rt)
    }

    /// Whether spinning on this side was of use.
    pub fn spins(&self, side: Side) -> &Spins {
        &self.waits(side).spins
    }

    pub fn rt(&self) -> &R {
        &self.rt
    }

    /// A waiter that nobody hears, for a poll that need not wait.
    pub fn unheard(&self) -> &Waiter<A> {
        &self.shared.unheard
    }

    pub fn alloc(&self) -> A {
        self.shared.alloc
    }

    /// Stores the waker of a task that waits on this side in its waiter. None if the waiter or the
    /// waker was refused.
    pub fn register<'k>(
        &self,
        cx: &mut Context<'_>,
        side: Side,
        waiter: &'k mut Option<Waiter<A>>,
    ) -> Option<&'k Waiter<A>>
        ensures heard { IsSome result → IsArmed cx.new × Hears cx.new (source_of side self.now) }
        ensures kept { Keeps cx.old cx.new }
    {
        let source = &self.waits(side).source;
        Waiter::register(&self.rt, self.shared.alloc, cx, source, waiter)
    }

    /// The same for a task that waits with a condition, or for the close.
    pub fn register_beside<'k>(
        &self,
        cx: &mut Context<'_>,
        sight: Sight,
        waiter: &'k mut Option<Waiter<A>>,
    ) -> Option<&'k Waiter<A>>
        ensures heard { IsSome result → IsArmed cx.new
            × Hears cx.new (source_beside sight self.now) }
        ensures kept { Keeps cx.old cx.new }
    {
        let source = match sight {
            Sight::First | Sight::All => &self.shared.message.source,
            Sight::Close => &self.shared.closing,
        };
        Waiter::register(&self.rt, self.shared.alloc, cx, source, waiter)
    }

    /// When the last receiver is dropped, pending messages are dropped too.
    pub fn let_go_at_last(&self) {
        self.shared.lets_go.store(true, Ordering::SeqCst);
    }

    /// Whether both are handles of one channel.
    pub fn is_same(&self, other: &Self) -> bool
    where
        R: RandomSource,
    {
        self.shared.identity.bits(&self.rt) == other.shared.identity.bits(&other.rt)
    }

    /// Makes a call in one hold of the lock, and wakes the waiters that it took off their lists
    /// once the lock is free. It returns the call's own answer: this code knows neither which call
    /// it makes nor what an answer is, and drops neither.
    #[inline(always)]
    pub fn call<C: CoreCall<T, P, Waiter<A>, A>>(&self, call: C) -> C::Answer
        requires { C.can_make call }
        ensures { C.gives call result }
    {
        let mut locked = self.lock();
        let (answer, to_wake) = locked.make(self.alloc(), call);
        to_wake.wake(&self.rt, locked);
        answer
    }

    // Sends a message into a held place, and returns whether there is a receiver. The place is
    // held, so the first try succeeds. The prover does not know what is behind the lock, and by a
    // loop no message is lost.
    fn fill(&self, fill: Fill<T, P>) -> bool {
        let mut fill = fill;
        for _ in self.rt.forever() {
            match self.call(fill) {
                (receivers, Ok(())) => return receivers > 0,
                (_, Err(back)) => fill = back,
            }
        }
        unreachable!()
    }

    /// Stored outside the lock, since it never changes.
    pub fn capacity(&self) -> Option<u64>
        ensures { result ≡ capacity_told self.now.capacity }
    {
        let capacity = self.shared.capacity;
        if capacity == u64::MAX {
            return None;
        }
        Some(capacity)
    }
}

impl<T: Drop, P: Ord + Drop, R: Wait + Clone, A: Allocator + Copy> Handle<T, P, R, A> {
    /// Sends a message into a held place.
    pub fn put(&self, place: Place, msg: T, priority: P) {
        let fill = Fill {
            place,
            msg,
            priority,
        };
        if !self.fill(fill) {
            self.let_go();
        }
    }

    /// Drops the pending messages of a channel that has lost its last receiver, if it is to do so.
    /// Each message is dropped after the lock is released, since its drop may use the channel.
    pub fn let_go(&self) {
        if !self.shared.lets_go.load(Ordering::SeqCst) {
            return;
        }
        let pending = self.lock().core().len();
        for _ in 0..pending {
            drop(self.call(TryRecv));
        }
    }
}

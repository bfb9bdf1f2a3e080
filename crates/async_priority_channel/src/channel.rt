//! The constructors of a channel. Each returns its first sender and its first receiver.
ghost use Rattle.std.specs.Prelude.{◌≡◌, ◌-◌, ◌<◌, ◌^◌, IfOk};
ghost use Rattle.priority_channel_core.specs.Prelude.{opening};

use crate::end::End;
use crate::handle::Handle;
use crate::receiver::{Receiver, Receiving};
use crate::sender::{Sender, Sending};
use priority_channel_waiting::waiter::Core;
use std::alloc::{AllocError, Allocator, Global};
use std::sync::Wait;

/// A sender and a receiver of one channel.
///
/// ```
/// fn numbers<R: Wait + Clone>(rt: &R, alloc: Global) -> Result<Ends<u64, u64, R>, AllocError> {
///     bounded(rt, alloc, 10)
/// }
/// ```
pub type Ends<T, P, R, A = Global> = (Sender<T, P, R, A>, Receiver<T, P, R, A>);

/// A channel for at most `cap` pending messages. While it is full, `send` waits and `try_send` is
/// refused.
///
/// The error is that memory was refused for what the handles share.
///
/// Cost: memory for what the handles share. That for messages is taken as they are sent;
/// `bounded_reserved` takes all of it at once.
///
/// ```
/// let (tx, rx) = bounded(&rt, rt.alloc(), 10)?;
/// tx.try_send("Foo", 0)?;
/// tx.try_send("Bar", 2)?;
/// assert_eq!(rt; rx.try_recv(), Ok(("Bar", 2)));
/// ```
pub fn bounded<T: Drop, P: Ord + Drop, R: Wait + Clone, A: Allocator + Copy>(
    rt: &R,
    alloc: A,
    cap: u64,
) -> Result<Ends<T, P, R, A>, AllocError>
    requires { 0 < cap }
    ensures capacity { IfOk result (λ ends. ends.0.capacity ≡ cap) }
    ensures same { IfOk result (λ ends. ends.1 ≡ ends.0) }
{
    prove!(cap > 0);
    ends(rt, alloc, cap, Core::bounded(alloc, cap))
}

/// A channel for at most `cap` pending messages, whose memory is reserved here. No later `try_send`
/// or `try_sendv` fails for lack of memory, until accepted messages and held places come to
/// 2^64 - 1. The error is that memory was refused.
///
/// Cost: memory for what the handles share, and for `cap` messages. A sender or a receiver that has
/// to wait still takes memory for its waiter and for its entry in the waiting list.
///
/// ```
/// let (tx, rx) = bounded_reserved(&rt, rt.alloc(), 1)?;
/// tx.try_send("Foo", 0)?;
/// assert!(rt; tx.is_full());
/// assert_eq!(rt; rx.try_recv(), Ok(("Foo", 0)));
/// ```
pub fn bounded_reserved<T: Drop, P: Ord + Drop, R: Wait + Clone, A: Allocator + Copy>(
    rt: &R,
    alloc: A,
    cap: u64,
) -> Result<Ends<T, P, R, A>, AllocError>
    requires positive { 0 < cap }
    requires fits { cap < 2 ^ 63 }
    ensures capacity { IfOk result (λ ends. ends.0.capacity ≡ cap) }
    ensures same { IfOk result (λ ends. ends.1 ≡ ends.0) }
{
    prove!(cap > 0);
    ends(rt, alloc, cap, Core::bounded_reserved(alloc, cap)?)
}

/// A channel whose only limit is memory: `send` never waits. The error is that memory was refused
/// for what the handles share.
///
/// Cost: memory for what the handles share. That for messages is taken as they are sent.
///
/// ```
/// let (tx, rx) = unbounded(&rt, rt.alloc())?;
/// block_on(&rt, tx.send("Foo", 0))??;
/// block_on(&rt, tx.send("Bar", 2))??;
/// assert_eq!(rt; block_on(&rt, rx.recv())?, Ok(("Bar", 2)));
/// ```
pub fn unbounded<T: Drop, P: Ord + Drop, R: Wait + Clone, A: Allocator + Copy>(
    rt: &R,
    alloc: A,
) -> Result<Ends<T, P, R, A>, AllocError>
    ensures capacity { IfOk result (λ ends. ends.0.capacity ≡ 2 ^ 64 - 1) }
    ensures same { IfOk result (λ ends. ends.1 ≡ ends.0) }
{
    ends(rt, alloc, u64::MAX, Core::unbounded(alloc))
}

fn ends<T: Drop, P: Ord + Drop, R: Wait + Clone, A: Allocator + Copy>(
    rt: &R,
    alloc: A,
    cap: u64,
    core: Core<T, P, A>,
) -> Result<Ends<T, P, R, A>, AllocError>
    requires { core.state ≡ opening cap core.state.is_reserved }
    ensures capacity { IfOk result (λ ends. ends.0.capacity ≡ cap) }
    ensures same { IfOk result (λ ends. ends.1 ≡ ends.0) }
{
    let (one, other) = Handle::pair(rt, alloc, cap, core)?;
    Ok((End::new(one, Sending), End::new(other, Receiving)))
}

//! A worker that takes the job of greatest priority.
ghost use Rattle.std.specs.Prelude.{◌≡◌, IfOk};
ghost use Rattle.priority_channel_witnessed.specs.Uses.{WasMostUrgent};

use crate::{Pass, Recording, Witnessed};
use priority_channel_calls::receives::TryRecv;
use priority_channel_core::errors::TryRecvError;
use std::alloc::Allocator;
use std::sync::Wait;

/// Takes a job. When it was taken, it was the first of the pending jobs of greatest priority.
pub fn take<T, P: Ord, W: Clone + Drop, J: Recording, A: Allocator + Copy, R: Wait>(
    rt: &R,
    jobs: &Witnessed<T, P, W, J, A>,
    pass: &mut Pass<T, P, W, J>,
) -> Result<(T, P), TryRecvError>
    ensures urgent { IfOk result
        (WasMostUrgent P.cmp W.is_clone J.capacity J.is_reserved pass.old.seen) }
{
    let (job, wakes) = jobs.call(rt, pass, TryRecv);
    let (_for_room, _for_message) = wakes.into_lists();
    job
}

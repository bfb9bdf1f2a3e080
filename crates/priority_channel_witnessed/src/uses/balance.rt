//! The end of a channel, with its balance.
ghost use Rattle.std.specs.Prelude.{◌≡◌, vec_len, IfOk, IfErr};
ghost use Rattle.priority_channel_witnessed.specs.Uses.{IsBalanced};

use crate::{Pass, Recording, Seen, Witnessed};
use priority_channel_core::channel::PriorityQueueChannel;
use std::alloc::Allocator;
use std::sync::Wait;

/// Ends a channel. Each pair that was sent, by any thread, was received, displaced by a pair of
/// greater priority, or taken out by a test, or is left: one of these, and once.
pub fn settle<T, P: Ord, W: Clone, J: Recording, A: Allocator + Copy, R: Wait>(
    rt: &R,
    channel: Witnessed<T, P, W, J, A>,
    passes: Vec<Pass<T, P, W, J>, A>,
) -> (PriorityQueueChannel<T, P, W, A>, Seen<T, P, W, J>)
    requires all { vec_len passes ≡ J.parts }
    ensures balanced { IsBalanced result.1 result.0.state.pending }
{
    channel.end(rt, passes)
}

/// The same for a channel whose passes came and left: the calls of those that left count too. If
/// these are not all passes that are out, the channel and the passes come back.
pub fn try_settle<T, P: Ord, W: Clone, J: Recording, A: Allocator + Copy, R: Wait>(
    rt: &R,
    channel: Witnessed<T, P, W, J, A>,
    passes: Vec<Pass<T, P, W, J>, A>,
) -> Result<
    (PriorityQueueChannel<T, P, W, A>, Seen<T, P, W, J>),
    (Witnessed<T, P, W, J, A>, Vec<Pass<T, P, W, J>, A>),
>
    ensures balanced { IfOk result (λ ended. IsBalanced ended.1 ended.0.state.pending) }
    ensures back { IfErr result (λ back. back.1 ≡ passes) }
{
    channel.try_end(rt, passes)
}

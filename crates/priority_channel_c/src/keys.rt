//! The core's calls with a test, where the test compares a message or a priority.
ghost use Rattle.std.specs.Prelude.{ℕ, All, IfSome, IfNone, IfOk, OnErr};
ghost use Rattle.priority_channel_core.specs.Prelude.{Step, nobody};
ghost use Rattle.priority_channel_core.specs.bag.Prelude.{Changes, PassesFirst};
ghost use Rattle.priority_channel_c.specs.Replies.{same_waker};
ghost use Rattle.priority_channel_c.specs.Priority.{priority_cmp};
ghost use Rattle.priority_channel_c.specs.Keys.{of_message, of_priority};

use crate::priority::Priority;
use priority_channel_core::awaitable_atomics::Wakes;
use priority_channel_core::calls::{Answer, Call};
use priority_channel_core::channel::PriorityQueueChannel;
use priority_channel_core::errors::TryRecvManyError;

type Channel = PriorityQueueChannel<u64, Priority, u64>;

pub fn take_message(channel: &mut Channel, message: u64) -> (Option<(u64, Priority)>, Wakes<u64>)
    ensures step { (place : ℕ) × Step priority_cmp same_waker channel.old.state
        (Call.TakeWhere place) (Answer.TakeWhere result.0) result.1 channel.new.state }
    ensures has_it { IfSome result.0 (of_message message).Has }
    ensures none { IfNone result.0 (All (of_message message).Lacks channel.old.state.pending) }
{
    channel.take_where(&|pending: &u64, _priority: &Priority| *pending == message)
}

pub fn take_priority(
    channel: &mut Channel,
    priority: Priority,
) -> (Option<(u64, Priority)>, Wakes<u64>)
    ensures step { (place : ℕ) × Step priority_cmp same_waker channel.old.state
        (Call.TakeWhere place) (Answer.TakeWhere result.0) result.1 channel.new.state }
    ensures has_it { IfSome result.0 (of_priority priority).Has }
    ensures none { IfNone result.0 (All (of_priority priority).Lacks channel.old.state.pending) }
{
    channel.take_where(&|_message: &u64, pending: &Priority| *pending == priority)
}

pub fn lease_message(
    channel: &mut Channel,
    message: u64,
) -> Result<Option<(u64, Priority)>, TryRecvManyError>
    ensures step { (place : ℕ) × Step priority_cmp same_waker channel.old.state
        (Call.LeaseWhere place) (Answer.LeaseWhere result) nobody channel.new.state }
    ensures has_it { IfOk result (λ found. IfSome found (of_message message).Has) }
    ensures none { IfOk result (λ found. IfNone found
        (All (of_message message).Lacks channel.old.state.pending)) }
{
    channel.try_lease_where(&|pending: &u64, _priority: &Priority| *pending == message)
}

pub fn change_priority(
    channel: &mut Channel,
    message: u64,
    priority: Priority,
) -> Result<Priority, Priority>
    ensures step { (place : ℕ) × Step priority_cmp same_waker channel.old.state
        (Call.ChangePriority place priority) (Answer.ChangePriority result) nobody
        channel.new.state }
    ensures none { OnErr result
        (All (of_message message).Lacks channel.old.state.pending) }
    ensures first { IfOk result (λ was.
        (change : Changes channel.old.state.pending was priority channel.new.state.pending)
        × PassesFirst (of_message message).Has (of_message message).Lacks change) }
{
    channel.change_priority(
        &|pending: &u64, _priority: &Priority| *pending == message,
        priority,
    )
}

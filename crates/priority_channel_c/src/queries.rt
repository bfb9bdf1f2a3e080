//! Queries. They change nothing and wake nobody.
ghost use Rattle.std.specs.Prelude.{◌≡◌, None, IsSome};
ghost use Rattle.priority_channel_c.specs.Replies.{Between, Looks};
ghost use Rattle.priority_channel_c.specs.Queries.{TellsCapacity};

use crate::handle::Handle;
use priority_channel_core::calls::{Answer, Call};

/// The number of pending pairs.
#[unsafe(no_mangle)]
pub extern "C" fn apc_len(handle: Handle, out: &mut Handle) -> u64
    requires open { IsSome handle.value }
    requires empty { out.old.value ≡ None }
    ensures { Between (Looks Call.Len (Answer.Len result)) handle.value out.new.value }
{
    let core = handle.into_box();
    let answer = core.channel.len();
    out.put(core);
    answer
}

/// Whether no pair is pending.
#[unsafe(no_mangle)]
pub extern "C" fn apc_is_empty(handle: Handle, out: &mut Handle) -> bool
    requires open { IsSome handle.value }
    requires empty { out.old.value ≡ None }
    ensures { Between (Looks Call.IsEmpty (Answer.IsEmpty result)) handle.value out.new.value }
{
    let core = handle.into_box();
    let answer = core.channel.is_empty();
    out.put(core);
    answer
}

/// Whether there is no room.
#[unsafe(no_mangle)]
pub extern "C" fn apc_is_full(handle: Handle, out: &mut Handle) -> bool
    requires open { IsSome handle.value }
    requires empty { out.old.value ≡ None }
    ensures { Between (Looks Call.IsFull (Answer.IsFull result)) handle.value out.new.value }
{
    let core = handle.into_box();
    let answer = core.channel.is_full();
    out.put(core);
    answer
}

/// Whether the channel is closed.
#[unsafe(no_mangle)]
pub extern "C" fn apc_is_closed(handle: Handle, out: &mut Handle) -> bool
    requires open { IsSome handle.value }
    requires empty { out.old.value ≡ None }
    ensures { Between (Looks Call.IsClosed (Answer.IsClosed result)) handle.value out.new.value }
{
    let core = handle.into_box();
    let answer = core.channel.is_closed();
    out.put(core);
    answer
}

/// The greatest number of pairs that may be pending at a time, and 2^64 - 1 if only memory limits
/// it.
#[unsafe(no_mangle)]
pub extern "C" fn apc_capacity(handle: Handle, out: &mut Handle) -> u64
    requires open { IsSome handle.value }
    requires empty { out.old.value ≡ None }
    ensures { Between (TellsCapacity result) handle.value out.new.value }
{
    let core = handle.into_box();
    let answer = core.channel.capacity().unwrap_or(u64::MAX);
    out.put(core);
    answer
}

/// The number of senders.
#[unsafe(no_mangle)]
pub extern "C" fn apc_sender_count(handle: Handle, out: &mut Handle) -> usize
    requires open { IsSome handle.value }
    requires empty { out.old.value ≡ None }
    ensures { Between (Looks Call.SenderCount (Answer.SenderCount result)) handle.value
        out.new.value }
{
    let core = handle.into_box();
    let answer = core.channel.sender_count();
    out.put(core);
    answer
}

/// The number of receivers.
#[unsafe(no_mangle)]
pub extern "C" fn apc_receiver_count(handle: Handle, out: &mut Handle) -> usize
    requires open { IsSome handle.value }
    requires empty { out.old.value ≡ None }
    ensures { Between (Looks Call.ReceiverCount (Answer.ReceiverCount result)) handle.value
        out.new.value }
{
    let core = handle.into_box();
    let answer = core.channel.receiver_count();
    out.put(core);
    answer
}

/// The number of places that are held.
#[unsafe(no_mangle)]
pub extern "C" fn apc_held(handle: Handle, out: &mut Handle) -> u64
    requires open { IsSome handle.value }
    requires empty { out.old.value ≡ None }
    ensures { Between (Looks Call.Held (Answer.Held result)) handle.value out.new.value }
{
    let core = handle.into_box();
    let answer = core.channel.held();
    out.put(core);
    answer
}

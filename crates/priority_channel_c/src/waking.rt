//! The waiters that are due go to the caller.
ghost use Rattle.std.specs.Prelude.{◌≡◌, true, false, None, IsSome};
ghost use Rattle.priority_channel_c.specs.Replies.{Between};
ghost use Rattle.priority_channel_c.specs.Due.{HandsOver};

use crate::handle::Handle;

/// Fetches the waker of a waiter who is due. False, and nothing is written, if nobody is. Call it
/// until then after each call whose reply has `has_due`, and wake them once the lock is free.
#[unsafe(no_mangle)]
pub extern "C" fn apc_next_due(handle: Handle, out: &mut Handle, waker: &mut u64) -> bool
    requires open { IsSome handle.value }
    requires empty { out.old.value ≡ None }
    ensures { Between (HandsOver result waker.new) handle.value out.new.value }
{
    let mut core = handle.into_box();
    let is_there = match core.due.next() {
        Some(next) => {
            *waker = next;
            true
        }
        None => false,
    };
    out.put(core);
    is_there
}

//! The start and the end of a channel.
ghost use Rattle.std.specs.Prelude.{◌≡◌, ◌<◌, ◌≤◌, ◌-◌, ◌^◌, true, false, None, IsSome};
ghost use Rattle.priority_channel_core.specs.Prelude.{opening};
ghost use Rattle.priority_channel_c.specs.Opening.{Opens, RefusesCapacity, Ends};

use crate::codes::Code;
use crate::due::Due;
use crate::handle::Handle;
use crate::priority::Priority;
use crate::state::Core;
use priority_channel_core::channel::PriorityQueueChannel;
use std::alloc::Global;

// Puts a channel behind an empty handle, if there is memory for what a handle leads to.
fn put_behind(
    alloc: Global,
    out: &mut Handle,
    channel: PriorityQueueChannel<u64, Priority, u64>,
) -> u32
    requires { out.old.value ≡ None }
    ensures { Opens channel.state result out.new.value }
{
    let due = Due::nobody(alloc);
    match Box::new(alloc, Core { channel, due }) {
        Ok(core) => {
            out.put(core);
            Code::Done.number()
        }
        Err(_) => Code::Memory.number(),
    }
}

/// Opens a channel for at most `capacity` pending pairs, which takes memory as pairs are sent.
/// `Done`; `BadCapacity` if the capacity is 0; `Memory`.
#[unsafe(no_mangle)]
pub extern "C" fn apc_open_bounded(alloc: Global, out: &mut Handle, capacity: u64) -> u32
    requires { out.old.value ≡ None }
    ensures opens { 0 < capacity → Opens (opening capacity false) result out.new.value }
    ensures refuses { capacity ≡ 0 → RefusesCapacity result out.new.value }
{
    if capacity == 0 {
        return Code::BadCapacity.number();
    }
    put_behind(alloc, out, PriorityQueueChannel::bounded(alloc, capacity))
}

/// Opens a channel with memory for `capacity` pairs, for good. `Done`; `BadCapacity` if the
/// capacity is 0, or 2^63 or more; `Memory`.
#[unsafe(no_mangle)]
pub extern "C" fn apc_open_reserved(alloc: Global, out: &mut Handle, capacity: u64) -> u32
    requires { out.old.value ≡ None }
    ensures opens { 0 < capacity → capacity < 2 ^ 63
        → Opens (opening capacity true) result out.new.value }
    ensures refuses_none { capacity ≡ 0 → RefusesCapacity result out.new.value }
    ensures refuses_more { 2 ^ 63 ≤ capacity → RefusesCapacity result out.new.value }
{
    if capacity == 0 || capacity >= 1 << 63 {
        return Code::BadCapacity.number();
    }
    match PriorityQueueChannel::bounded_reserved(alloc, capacity) {
        Ok(channel) => put_behind(alloc, out, channel),
        Err(_) => Code::Memory.number(),
    }
}

/// Opens a channel whose only limit is memory. `Done` or `Memory`.
#[unsafe(no_mangle)]
pub extern "C" fn apc_open_unbounded(alloc: Global, out: &mut Handle) -> u32
    requires { out.old.value ≡ None }
    ensures { Opens (opening (2 ^ 64 - 1) false) result out.new.value }
{
    put_behind(alloc, out, PriorityQueueChannel::unbounded(alloc))
}

/// Frees a channel, with what is pending in it. `Done`, and the handle is empty; `Due` if waiters
/// are due, and nothing was done.
///
/// Nobody is woken: whoever is still listed would wait for good. Close the channel first.
#[unsafe(no_mangle)]
pub extern "C" fn apc_free(handle: Handle, out: &mut Handle) -> u32
    requires open { IsSome handle.value }
    requires empty { out.old.value ≡ None }
    ensures { Ends handle.value result out.new.value }
{
    let core = handle.into_box();
    if core.due.has_waiters() {
        out.put(core);
        return Code::Due.number();
    }
    Code::Done.number()
}

//! Places that are held: reserved before there is a pair, or kept when their pair was received.
ghost use Rattle.std.specs.Prelude.{◌≡◌, None, IsSome};
ghost use Rattle.priority_channel_c.specs.Replies.{Between, Makes, MakesQuietly};

use crate::codes::Code;
use crate::due::Due;
use crate::handle::Handle;
use crate::priority::Priority;
use crate::reply::Reply;
use crate::state::Core;
use priority_channel_core::calls::Call;

impl Core {
    fn try_reserve(&mut self) -> Reply
        ensures { MakesQuietly Call.TryReserve result self.old self.new }
    {
        let reserved = self.channel.try_reserve();
        Reply::of_reserve(reserved, self.due.has_waiters())
    }

    fn try_lease(&mut self) -> Reply
        ensures { MakesQuietly Call.TryLease result self.old self.new }
    {
        let leased = self.channel.try_lease();
        Reply::of_lease(leased, self.due.has_waiters())
    }

    fn put(&mut self, message: u64, priority: Priority) -> Reply
        ensures { Makes (Call.Put message priority) result self.old self.new }
    {
        if self.due.has_waiters() {
            return Reply::of(Code::Due, true);
        }
        let (put, wakes) = self.channel.put(message, priority);
        self.due = Due::of(wakes);
        Reply::of_put(put, self.due.has_waiters())
    }

    fn free(&mut self) -> Reply
        ensures { Makes Call.Free result self.old self.new }
    {
        if self.due.has_waiters() {
            return Reply::of(Code::Due, true);
        }
        let (was_held, wakes) = self.channel.free();
        self.due = Due::of(wakes);
        Reply::of(Code::of_found(was_held), self.due.has_waiters())
    }
}

/// Holds a place for a pair that is still to come: `Done`, `Closed`, `Full` or `Memory`. `apc_put`
/// or `apc_free_place` gives it back.
#[unsafe(no_mangle)]
pub extern "C" fn apc_try_reserve(handle: Handle, out: &mut Handle) -> Reply
    requires open { IsSome handle.value }
    requires empty { out.old.value ≡ None }
    ensures { Between (MakesQuietly Call.TryReserve result) handle.value out.new.value }
{
    let mut core = handle.into_box();
    let reply = core.try_reserve();
    out.put(core);
    reply
}

/// Receives a pair as `apc_try_recv`, and holds its place: `Done` with the pair, `Empty`, `Closed`,
/// or `Memory` if no number is left for the pair's return.
#[unsafe(no_mangle)]
pub extern "C" fn apc_try_lease(handle: Handle, out: &mut Handle) -> Reply
    requires open { IsSome handle.value }
    requires empty { out.old.value ≡ None }
    ensures { Between (MakesQuietly Call.TryLease result) handle.value out.new.value }
{
    let mut core = handle.into_box();
    let reply = core.try_lease();
    out.put(core);
    reply
}

/// The pair becomes pending in a held place, behind its equals, also in a closed channel: `Done`,
/// or `Nothing` if no place is held. It takes no memory.
#[unsafe(no_mangle)]
pub extern "C" fn apc_put(
    handle: Handle,
    out: &mut Handle,
    message: u64,
    priority: Priority,
) -> Reply
    requires open { IsSome handle.value }
    requires empty { out.old.value ≡ None }
    ensures { Between (Makes (Call.Put message priority) result) handle.value out.new.value }
{
    let mut core = handle.into_box();
    let reply = core.put(message, priority);
    out.put(core);
    reply
}

/// A held place becomes free: `Done`, or `Nothing` if no place is held. It takes no memory.
#[unsafe(no_mangle)]
pub extern "C" fn apc_free_place(handle: Handle, out: &mut Handle) -> Reply
    requires open { IsSome handle.value }
    requires empty { out.old.value ≡ None }
    ensures { Between (Makes Call.Free result) handle.value out.new.value }
{
    let mut core = handle.into_box();
    let reply = core.free();
    out.put(core);
    reply
}

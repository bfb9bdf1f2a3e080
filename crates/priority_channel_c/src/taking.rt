//! Calls on a pending pair that is named by its message, or by its priority.
ghost use Rattle.std.specs.Prelude.{◌≡◌, None, IsSome};
ghost use Rattle.priority_channel_c.specs.Replies.{Between};
ghost use Rattle.priority_channel_c.specs.Keys.{MakesMeant, MakesMeantQuietly, Takes, Leases, ChangesTo, of_message, of_priority};

use crate::codes::Code;
use crate::due::Due;
use crate::handle::Handle;
use crate::keys;
use crate::priority::Priority;
use crate::reply::Reply;
use crate::state::Core;

impl Core {
    fn take_message(&mut self, message: u64) -> Reply
        ensures { MakesMeant (Takes (of_message message)) result self.old self.new }
    {
        if self.due.has_waiters() {
            return Reply::of(Code::Due, true);
        }
        let (taken, wakes) = keys::take_message(&mut self.channel, message);
        self.due = Due::of(wakes);
        Reply::of_taking(taken, self.due.has_waiters())
    }

    fn take_priority(&mut self, priority: Priority) -> Reply
        ensures { MakesMeant (Takes (of_priority priority)) result self.old self.new }
    {
        if self.due.has_waiters() {
            return Reply::of(Code::Due, true);
        }
        let (taken, wakes) = keys::take_priority(&mut self.channel, priority);
        self.due = Due::of(wakes);
        Reply::of_taking(taken, self.due.has_waiters())
    }

    fn lease_message(&mut self, message: u64) -> Reply
        ensures { MakesMeantQuietly (Leases (of_message message)) result self.old self.new }
    {
        let leased = keys::lease_message(&mut self.channel, message);
        Reply::of_lease_by_key(leased, self.due.has_waiters())
    }

    fn change_priority(&mut self, message: u64, priority: Priority) -> Reply
        ensures { MakesMeantQuietly (ChangesTo (of_message message) priority) result self.old
            self.new }
    {
        let changed = keys::change_priority(&mut self.channel, message, priority);
        Reply::of_change(changed, self.due.has_waiters())
    }
}

/// Takes out a pending pair with this message, also from a closed channel: `Done` with the pair, or
/// `Nothing`. If several have it, it is not specified which one.
#[unsafe(no_mangle)]
pub extern "C" fn apc_take_message(handle: Handle, out: &mut Handle, message: u64) -> Reply
    requires open { IsSome handle.value }
    requires empty { out.old.value ≡ None }
    ensures { Between (MakesMeant (Takes (of_message message)) result) handle.value
        out.new.value }
{
    let mut core = handle.into_box();
    let reply = core.take_message(message);
    out.put(core);
    reply
}

/// Takes out a pending pair with this priority, as `apc_take_message`.
#[unsafe(no_mangle)]
pub extern "C" fn apc_take_priority(handle: Handle, out: &mut Handle, priority: Priority) -> Reply
    requires open { IsSome handle.value }
    requires empty { out.old.value ≡ None }
    ensures { Between (MakesMeant (Takes (of_priority priority)) result) handle.value
        out.new.value }
{
    let mut core = handle.into_box();
    let reply = core.take_priority(priority);
    out.put(core);
    reply
}

/// Leases a pending pair with this message: `Done` with the pair, `Nothing` if others are pending,
/// or as `apc_try_lease`. If several have it, it is the most urgent one.
#[unsafe(no_mangle)]
pub extern "C" fn apc_lease_message(handle: Handle, out: &mut Handle, message: u64) -> Reply
    requires open { IsSome handle.value }
    requires empty { out.old.value ≡ None }
    ensures { Between (MakesMeantQuietly (Leases (of_message message)) result) handle.value
        out.new.value }
{
    let mut core = handle.into_box();
    let reply = core.lease_message(message);
    out.put(core);
    reply
}

/// Gives another priority to the first pending pair with this message, in the order of acceptance:
/// `Done` with the priority that it had, or `Nothing`. The pair keeps its place in that order.
#[unsafe(no_mangle)]
pub extern "C" fn apc_change_priority(
    handle: Handle,
    out: &mut Handle,
    message: u64,
    priority: Priority,
) -> Reply
    requires open { IsSome handle.value }
    requires empty { out.old.value ≡ None }
    ensures { Between (MakesMeantQuietly (ChangesTo (of_message message) priority) result)
        handle.value out.new.value }
{
    let mut core = handle.into_box();
    let reply = core.change_priority(message, priority);
    out.put(core);
    reply
}

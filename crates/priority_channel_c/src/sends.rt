//! Sends that do not wait.
ghost use Rattle.std.specs.Prelude.{◌≡◌, None, IsSome};
ghost use Rattle.priority_channel_c.specs.Replies.{Between, Makes};

use crate::codes::Code;
use crate::due::Due;
use crate::handle::Handle;
use crate::priority::Priority;
use crate::reply::Reply;
use crate::state::Core;
use priority_channel_core::calls::Call;

impl Core {
    fn try_send(&mut self, message: u64, priority: Priority) -> Reply
        ensures { Makes (Call.TrySend message priority) result self.old self.new }
    {
        if self.due.has_waiters() {
            return Reply::of(Code::Due, true);
        }
        let (sent, wakes) = self.channel.try_send(message, priority);
        self.due = Due::of(wakes);
        Reply::of_send(sent, self.due.has_waiters())
    }

    fn try_send_evicting(&mut self, message: u64, priority: Priority) -> Reply
        ensures { Makes (Call.TrySendEvicting message priority) result self.old self.new }
    {
        if self.due.has_waiters() {
            return Reply::of(Code::Due, true);
        }
        let (sent, wakes) = self.channel.try_send_evicting(message, priority);
        self.due = Due::of(wakes);
        Reply::of_evicting(sent, self.due.has_waiters())
    }
}

/// Sends a pair, if the channel is open and has room: `Done`, `Closed`, `Full` or `Memory`.
#[unsafe(no_mangle)]
pub extern "C" fn apc_try_send(
    handle: Handle,
    out: &mut Handle,
    message: u64,
    priority: Priority,
) -> Reply
    requires open { IsSome handle.value }
    requires empty { out.old.value ≡ None }
    ensures { Between (Makes (Call.TrySend message priority) result) handle.value out.new.value }
{
    let mut core = handle.into_box();
    let reply = core.try_send(message, priority);
    out.put(core);
    reply
}

/// Sends a pair. In a full channel it takes the place of the pending pair of least priority, and
/// among equals of the one accepted last, if its own priority is greater: `Displaced` with that
/// pair. Otherwise as `apc_try_send`.
#[unsafe(no_mangle)]
pub extern "C" fn apc_try_send_evicting(
    handle: Handle,
    out: &mut Handle,
    message: u64,
    priority: Priority,
) -> Reply
    requires open { IsSome handle.value }
    requires empty { out.old.value ≡ None }
    ensures { Between (Makes (Call.TrySendEvicting message priority) result) handle.value
        out.new.value }
{
    let mut core = handle.into_box();
    let reply = core.try_send_evicting(message, priority);
    out.put(core);
    reply
}

//! Receives that do not wait.
ghost use Rattle.std.specs.Prelude.{◌≡◌, None, IsSome};
ghost use Rattle.priority_channel_c.specs.Replies.{Between, Makes};

use crate::codes::Code;
use crate::due::Due;
use crate::handle::Handle;
use crate::reply::Reply;
use crate::state::Core;
use priority_channel_core::calls::Call;

impl Core {
    fn try_recv(&mut self) -> Reply
        ensures { Makes Call.TryRecv result self.old self.new }
    {
        if self.due.has_waiters() {
            return Reply::of(Code::Due, true);
        }
        let (received, wakes) = self.channel.try_recv();
        self.due = Due::of(wakes);
        Reply::of_receive(received, self.due.has_waiters())
    }
}

/// Receives the pair of greatest priority, and among equals the one accepted first: `Done` with the
/// pair, `Empty` or `Closed`.
#[unsafe(no_mangle)]
pub extern "C" fn apc_try_recv(handle: Handle, out: &mut Handle) -> Reply
    requires open { IsSome handle.value }
    requires empty { out.old.value ≡ None }
    ensures { Between (Makes Call.TryRecv result) handle.value out.new.value }
{
    let mut core = handle.into_box();
    let reply = core.try_recv();
    out.put(core);
    reply
}

//! The close of a channel, and the waiters that are due.
ghost use Rattle.std.specs.Prelude.{◌≡◌, None, IsSome};
ghost use Rattle.priority_channel_c.specs.Replies.{Between, Makes};

use crate::codes::Code;
use crate::due::Due;
use crate::handle::Handle;
use crate::reply::Reply;
use crate::state::Core;
use priority_channel_core::calls::Call;

impl Core {
    fn close(&mut self) -> Reply
        ensures { Makes Call.Close result self.old self.new }
    {
        if self.due.has_waiters() {
            return Reply::of(Code::Due, true);
        }
        let (was_open, wakes) = self.channel.close();
        self.due = Due::of(wakes);
        Reply::of(Code::of_found(was_open), self.due.has_waiters())
    }

    fn close_when_done(&mut self) -> Reply
        ensures { Makes Call.CloseWhenDone result self.old self.new }
    {
        if self.due.has_waiters() {
            return Reply::of(Code::Due, true);
        }
        let wakes = self.channel.close_when_done();
        self.due = Due::of(wakes);
        Reply::of(Code::Done, self.due.has_waiters())
    }
}

/// Closes the channel for good: `Done`, or `Nothing` if it was closed before. Pending pairs can
/// still be received.
#[unsafe(no_mangle)]
pub extern "C" fn apc_close(handle: Handle, out: &mut Handle) -> Reply
    requires open { IsSome handle.value }
    requires empty { out.old.value ≡ None }
    ensures { Between (Makes Call.Close result) handle.value out.new.value }
{
    let mut core = handle.into_box();
    let reply = core.close();
    out.put(core);
    reply
}

/// From now on the channel closes once no pair is pending and no place is held, which may be at
/// once: `Done`.
#[unsafe(no_mangle)]
pub extern "C" fn apc_close_when_done(handle: Handle, out: &mut Handle) -> Reply
    requires open { IsSome handle.value }
    requires empty { out.old.value ≡ None }
    ensures { Between (Makes Call.CloseWhenDone result) handle.value out.new.value }
{
    let mut core = handle.into_box();
    let reply = core.close_when_done();
    out.put(core);
    reply
}

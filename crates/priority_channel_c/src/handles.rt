//! The counts of senders and of receivers.
ghost use Rattle.std.specs.Prelude.{◌≡◌, None, IsSome};
ghost use Rattle.priority_channel_c.specs.Replies.{Between, MakesQuietly};
ghost use Rattle.priority_channel_c.specs.Handles.{Drops, senders, receivers};

use crate::codes::Code;
use crate::due::Due;
use crate::handle::Handle;
use crate::reply::Reply;
use crate::state::Core;
use priority_channel_core::calls::Call;

impl Core {
    fn clone_sender(&mut self) -> Reply
        ensures { MakesQuietly Call.CloneSender result self.old self.new }
    {
        let is_counted = self.channel.clone_sender();
        Reply::of(Code::of_found(is_counted), self.due.has_waiters())
    }

    fn clone_receiver(&mut self) -> Reply
        ensures { MakesQuietly Call.CloneReceiver result self.old self.new }
    {
        let is_counted = self.channel.clone_receiver();
        Reply::of(Code::of_found(is_counted), self.due.has_waiters())
    }

    fn drop_sender(&mut self) -> Reply
        ensures { Drops senders Call.DropSender result self.old self.new }
    {
        if self.due.has_waiters() {
            return Reply::of(Code::Due, true);
        }
        if self.channel.sender_count() == 0 {
            return Reply::of(Code::Nothing, false);
        }
        let wakes = self.channel.drop_sender();
        self.due = Due::of(wakes);
        Reply::of(Code::Done, self.due.has_waiters())
    }

    fn drop_receiver(&mut self) -> Reply
        ensures { Drops receivers Call.DropReceiver result self.old self.new }
    {
        if self.due.has_waiters() {
            return Reply::of(Code::Due, true);
        }
        if self.channel.receiver_count() == 0 {
            return Reply::of(Code::Nothing, false);
        }
        let wakes = self.channel.drop_receiver();
        self.due = Due::of(wakes);
        Reply::of(Code::Done, self.due.has_waiters())
    }
}

/// Counts another sender: `Done`, or `Nothing` if there are more than 2^63 - 1, and nothing was
/// changed.
#[unsafe(no_mangle)]
pub extern "C" fn apc_clone_sender(handle: Handle, out: &mut Handle) -> Reply
    requires open { IsSome handle.value }
    requires empty { out.old.value ≡ None }
    ensures { Between (MakesQuietly Call.CloneSender result) handle.value out.new.value }
{
    let mut core = handle.into_box();
    let reply = core.clone_sender();
    out.put(core);
    reply
}

/// Counts another receiver, as `apc_clone_sender`.
#[unsafe(no_mangle)]
pub extern "C" fn apc_clone_receiver(handle: Handle, out: &mut Handle) -> Reply
    requires open { IsSome handle.value }
    requires empty { out.old.value ≡ None }
    ensures { Between (MakesQuietly Call.CloneReceiver result) handle.value out.new.value }
{
    let mut core = handle.into_box();
    let reply = core.clone_receiver();
    out.put(core);
    reply
}

/// Counts one sender less: `Done`, or `Nothing` if there is none. The last one closes the channel.
#[unsafe(no_mangle)]
pub extern "C" fn apc_drop_sender(handle: Handle, out: &mut Handle) -> Reply
    requires open { IsSome handle.value }
    requires empty { out.old.value ≡ None }
    ensures { Between (Drops senders Call.DropSender result) handle.value out.new.value }
{
    let mut core = handle.into_box();
    let reply = core.drop_sender();
    out.put(core);
    reply
}

/// Counts one receiver less, as `apc_drop_sender`.
#[unsafe(no_mangle)]
pub extern "C" fn apc_drop_receiver(handle: Handle, out: &mut Handle) -> Reply
    requires open { IsSome handle.value }
    requires empty { out.old.value ≡ None }
    ensures { Between (Drops receivers Call.DropReceiver result) handle.value out.new.value }
{
    let mut core = handle.into_box();
    let reply = core.drop_receiver();
    out.put(core);
    reply
}

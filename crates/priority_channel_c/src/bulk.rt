//! A send of many pairs in one step.
ghost use Rattle.std.specs.Prelude.{◌≡◌, None, IsSome};
ghost use Rattle.priority_channel_c.specs.Replies.{Between};
ghost use Rattle.priority_channel_c.specs.Bulk.{MakesMany};

use crate::codes::Code;
use crate::due::Due;
use crate::handle::Handle;
use crate::priority::Priority;
use crate::reply::Reply;
use crate::state::Core;

/// A message with its priority.
#[repr(C)]
#[derive(Clone, Copy)]
pub struct Pair {
    pub message: u64,
    pub priority: Priority,
}

/// The pairs that C gives, one by one.
#[derive(Drop)]
pub struct Given<'a> {
    pairs: &'a [Pair],
}

impl<'a> Iterator for Given<'a> {
    ghost use Rattle.priority_channel_c.specs.Bulk.{GivesPair};

    type Item = (u64, Priority);

    ghost next_gives = { λ s r t. GivesPair s.pairs.now r t.pairs.now };

    fn next(&mut self) -> Option<(u64, Priority)> {
        let (first, others) = self.pairs.split_first()?;
        self.pairs = others;
        Some((first.message, first.priority))
    }
}

impl Core {
    fn try_send_many(&mut self, pairs: &[Pair], accepted: &mut u64) -> Reply
        ensures { MakesMany pairs.now accepted.new result self.old self.new }
    {
        *accepted = 0;
        if self.due.has_waiters() {
            return Reply::of(Code::Due, true);
        }
        let before = self.channel.accepted();
        let (sent, wakes) = self.channel.try_sendv(Given { pairs }.peekable());
        self.due = Due::of(wakes);
        *accepted = self.channel.accepted() - before;
        Reply::of(Code::of_reply(&sent), self.due.has_waiters())
    }
}

/// Sends pairs in one step, as far as there is room, and writes how many were accepted: `Done` if
/// all were. The others, in order, were refused for the reason that the code tells. An empty list
/// is refused by a closed channel and by a full one.
#[unsafe(no_mangle)]
pub extern "C" fn apc_try_send_many(
    handle: Handle,
    out: &mut Handle,
    pairs: &[Pair],
    accepted: &mut u64,
) -> Reply
    requires open { IsSome handle.value }
    requires empty { out.old.value ≡ None }
    ensures { Between (MakesMany pairs.now accepted.new result) handle.value out.new.value }
{
    let mut core = handle.into_box();
    let reply = core.try_send_many(pairs, accepted);
    out.put(core);
    reply
}

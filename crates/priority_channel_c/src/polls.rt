//! The calls that wait: a try, and then a ticket in a waiting list.
ghost use Rattle.std.specs.Prelude.{◌≡◌, None, IsSome};
ghost use Rattle.priority_channel_c.specs.Replies.{Between, Makes, MakesQuietly, ticket_given};

use crate::codes::Code;
use crate::due::Due;
use crate::handle::Handle;
use crate::priority::Priority;
use crate::reply::{Reply, Waiter};
use crate::state::Core;
use priority_channel_core::calls::Call;

impl Core {
    fn poll_send(&mut self, message: u64, priority: Priority, waiter: Waiter) -> Reply
        ensures { Makes (Call.PollSend message priority (ticket_given waiter) waiter.waker) result
            self.old self.new }
    {
        if self.due.has_waiters() {
            return Reply::of(Code::Due, true);
        }
        let ticket = waiter.ticket_given();
        let (sent, wakes) = self
            .channel
            .poll_send(message, priority, ticket, &waiter.waker);
        self.due = Due::of(wakes);
        Reply::of_poll_send(sent, self.due.has_waiters())
    }

    fn poll_recv(&mut self, waiter: Waiter) -> Reply
        ensures { Makes (Call.PollRecv (ticket_given waiter) waiter.waker) result self.old
            self.new }
    {
        if self.due.has_waiters() {
            return Reply::of(Code::Due, true);
        }
        let ticket = waiter.ticket_given();
        let (received, wakes) = self.channel.poll_recv(ticket, &waiter.waker);
        self.due = Due::of(wakes);
        Reply::of_poll_recv(received, self.due.has_waiters())
    }

    fn give_up(&mut self, ticket: u64) -> Reply
        ensures { MakesQuietly (Call.GiveUp ticket) result self.old self.new }
    {
        self.channel.give_up(ticket);
        Reply::of(Code::Done, self.due.has_waiters())
    }
}

/// Sends a pair, or waits for room: `Done`, `Closed`, `Memory`, or `Pending` with a ticket. The
/// next poll gives that ticket; until then the caller keeps the pair. A reply that is not `Pending`
/// leaves the ticket in no list.
#[unsafe(no_mangle)]
pub extern "C" fn apc_poll_send(
    handle: Handle,
    out: &mut Handle,
    message: u64,
    priority: Priority,
    waiter: Waiter,
) -> Reply
    requires open { IsSome handle.value }
    requires empty { out.old.value ≡ None }
    ensures { Between (Makes (Call.PollSend message priority (ticket_given waiter) waiter.waker)
        result) handle.value out.new.value }
{
    let mut core = handle.into_box();
    let reply = core.poll_send(message, priority, waiter);
    out.put(core);
    reply
}

/// Receives a pair, or waits for one: `Done` with the pair, `Closed`, `Memory`, or `Pending` with a
/// ticket, as `apc_poll_send`.
#[unsafe(no_mangle)]
pub extern "C" fn apc_poll_recv(handle: Handle, out: &mut Handle, waiter: Waiter) -> Reply
    requires open { IsSome handle.value }
    requires empty { out.old.value ≡ None }
    ensures { Between (Makes (Call.PollRecv (ticket_given waiter) waiter.waker) result)
        handle.value out.new.value }
{
    let mut core = handle.into_box();
    let reply = core.poll_recv(waiter);
    out.put(core);
    reply
}

/// Takes a ticket off the waiting lists: `Done`. A ticket that is not listed changes nothing.
#[unsafe(no_mangle)]
pub extern "C" fn apc_give_up(handle: Handle, out: &mut Handle, ticket: u64) -> Reply
    requires open { IsSome handle.value }
    requires empty { out.old.value ≡ None }
    ensures { Between (MakesQuietly (Call.GiveUp ticket) result) handle.value out.new.value }
{
    let mut core = handle.into_box();
    let reply = core.give_up(ticket);
    out.put(core);
    reply
}

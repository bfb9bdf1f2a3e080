//! What a caller concludes from the contract of a bulk send, where it knows the list.
ghost use Rattle.std.specs.Prelude.{◌≡◌, ◌+◌, ◌≤◌, ◌<◌, ◌^◌, ◌++◌, true, false, take, vec_len};
ghost use Rattle.priority_channel_core.specs.Prelude.{room};

use super::expect_equal;
use priority_channel_core::channel::PriorityQueueChannel;
use priority_channel_core::laws::list_law;
use std::vec::IntoIter;

type Core = PriorityQueueChannel<&'static str, u64, u64>;

// Into a reserved channel, so that no memory is refused. What there is no room for is let go.
fn send_vec(core: &mut Core, pairs: Vec<(&'static str, u64)>)
    requires opened { core.old.state.is_closed ≡ false }
    requires reserved { core.old.state.is_reserved ≡ true }
    requires numbers { core.old.state.accepted + core.old.state.held + vec_len pairs < 2 ^ 64 }
    ensures { core.new.state.pending ≡ core.old.state.pending ++ take (room core.old.state)
        pairs.entry.items }
{
    list_law::<IntoIter<(&'static str, u64)>>();
    let (_, wakes) = core.try_sendv(pairs.into_iter().peekable());
    let (_room, _message) = wakes.into_lists();
}

#[test]
fn the_caller_knows_how_many_of_a_vector_were_accepted(rt: HostRuntime) {
    let made: Result<Core, _> = Core::bounded_reserved(rt.alloc(), 2);
    let mut core = made.expect(&rt, "a channel");
    let pairs: Result<Vec<(&str, u64)>, _> = vec![in rt.alloc(); ("a", 0), ("b", 1), ("c", 2)];
    send_vec(&mut core, pairs.expect(&rt, "pairs"));
    expect_equal(&rt, core.peek(), Some((&"b", &1)));
    expect_equal(&rt, core.len(), 2);
}

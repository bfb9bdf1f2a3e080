//! The worked examples of calls, on the core and on handles.
use super::script::Ground::{Core, Futures, Handles};
use super::script::play;

/// Sends and receives, also as futures.
const SENDS: &str = "
    # the crate's first example
    unbounded
    send (Foo,0) = Ok
    send (Bar,2) = Ok
    send (Baz,1) = Ok
    recv = (Bar,2)

    # the smallest capacity
    bounded 1
    send (Foo,0) = Ok
    recv = (Foo,0)

    # ties among other priorities
    unbounded
    send (a,1) = Ok
    send (b,1) = Ok
    send (c,2) = Ok
    send (d,1) = Ok
    recv = (c,2)
    recv = (a,1)
    recv = (b,1)
    recv = (d,1)
";

/// Calls that answer at once.
pub const CHANNELS: &str = "
    # three sends come out by priority
    unbounded
    try_send (1,1) = Ok
    try_send (3,3) = Ok
    try_send (2,2) = Ok
    try_recv = (3,3)
    try_recv = (2,2)
    try_recv = (1,1)

    # full and closed is told as closed
    bounded 3
    try_send (1,1) = Ok
    try_send (3,3) = Ok
    try_send (2,2) = Ok
    tx close = true
    try_send (4,4) = Closed((4,4))
    try_recv = (3,3)
    try_recv = (2,2)
    try_recv = (1,1)
    try_recv = Closed

    # the receiver closes
    bounded 2
    rx close = true
    try_send (4,4) = Closed((4,4))
    try_recv = Closed

    # capacities from one to nine, and the greatest
    bounded 1
    tx capacity = Some(1)
    rx capacity = Some(1)
    bounded 2
    tx capacity = Some(2)
    rx capacity = Some(2)
    bounded 3
    tx capacity = Some(3)
    rx capacity = Some(3)
    bounded 4
    tx capacity = Some(4)
    rx capacity = Some(4)
    bounded 5
    tx capacity = Some(5)
    rx capacity = Some(5)
    bounded 6
    tx capacity = Some(6)
    rx capacity = Some(6)
    bounded 7
    tx capacity = Some(7)
    rx capacity = Some(7)
    bounded 8
    tx capacity = Some(8)
    rx capacity = Some(8)
    bounded 9
    tx capacity = Some(9)
    rx capacity = Some(9)
    bounded 18446744073709551615
    tx capacity = None
    rx capacity = None
    bounded 9223372036854775808
    tx capacity = Some(9223372036854775808)
    rx capacity = Some(9223372036854775808)

    # queries on both handles
    bounded 2
    tx len = 0
    rx len = 0
    tx is_empty = true
    rx is_empty = true
    tx is_full = false
    rx is_full = false
    try_send ((),0) = Ok
    tx len = 1
    rx len = 1
    tx is_empty = false
    rx is_empty = false
    tx is_full = false
    rx is_full = false
    try_send ((),0) = Ok
    tx len = 2
    rx len = 2
    tx is_empty = false
    rx is_empty = false
    tx is_full = true
    rx is_full = true
    try_recv = ((),0)
    tx len = 1
    rx len = 1
    tx is_empty = false
    rx is_empty = false
    tx is_full = false
    rx is_full = false

    # twenty clones and their drops
    bounded 5
    20 times clone_receiver = true
    tx receiver_count = 21
    rx receiver_count = 21
    20 times drop_receiver
    tx receiver_count = 1
    rx receiver_count = 1
    tx is_closed = false
    rx is_closed = false
    bounded 5
    20 times clone_sender = true
    tx sender_count = 21
    rx sender_count = 21
    20 times drop_sender
    tx sender_count = 1
    rx sender_count = 1
    tx is_closed = false
    rx is_closed = false

    # a bulk send of a hundred into ten places
    bounded 10
    try_sendv (a,0) (b,1) = Ok
    try_recv = (b,1)
    try_recv = (a,0)
    try_sendv 100 times (a,0) = Full with 90 left

    # a closed channel refuses a bulk send
    bounded 10
    tx is_closed = false
    rx is_closed = false
    rx close = true
    tx is_closed = true
    rx is_closed = true
    try_sendv (a,0) (b,1) = Closed with 2 left
    bounded 2
    try_sendv (a,0) (b,1) = Ok

    # a greater priority is refused all the same
    bounded 1
    try_send (x,5) = Ok
    try_send (y,9) = Full((y,9))
    try_recv = (x,5)
    try_recv = Empty
    bounded_reserved 1
    try_send (x,5) = Ok
    try_send (y,9) = Full((y,9))
    try_recv = (x,5)
    try_recv = Empty

    # bulk sends of nothing
    bounded 1
    try_send (x,5) = Ok
    try_sendv = Full with 0 left
    tx close = true
    try_sendv = Closed with 0 left
    tx close = false

    # the only sender is dropped
    bounded 2
    try_send (1,1) = Ok
    drop_sender
    rx is_closed = true
    rx sender_count = 0
    try_recv = (1,1)
    try_recv = Closed

    # the only receiver is dropped
    bounded 1
    drop_receiver
    try_send (1,1) = Closed((1,1))
    tx receiver_count = 0
";

/// Futures that are polled once.
const POLLED_ONCE: &str = "
    # a polled send is dropped
    bounded 1
    try_send (x,1) = Ok
    poll_once_and_drop send (y,2) = Pending
    try_recv = (x,1)
    try_recv = Empty

    # a polled bulk send is dropped
    bounded 1
    poll_once_and_drop sendv (a,1) (b,2) = Pending
    tx len = 1
    try_recv = (a,1)
    try_recv = Empty
";

/// What the core alone shows: tickets, wakers and states.
pub const CORE: &str = "
    # reserved memory serves while all memory is refused
    bounded_reserved 2
    refuse_all
    try_send (1,1) = Ok
    try_send (2,2) = Ok
    try_send (3,3) = Full((3,3))
    try_recv = (2,2)
    try_send (3,3) = Ok

    # the first growth is refused to a bulk send
    bounded 10
    refuse_next
    try_sendv (a,0) (b,1) = Memory with 2 left
    len = 0
    refuse_none
    try_sendv the rest = Ok

    # the first growth is refused to a send
    bounded 10
    refuse_next
    try_send (1,5) = Memory((1,5))
    try_recv = Empty
    refuse_none
    try_send (1,5) = Ok
    try_recv = (1,5)

    # both last handles are dropped in the core
    bounded_reserved 1
    drop_sender
    sender_count = 0
    is_closed = true
    drop_receiver
    receiver_count = 0
    try_send (1,1) = Closed((1,1))

    # a clone of a closed channel
    bounded_reserved 1
    drop_sender
    clone_sender = true
    sender_count = 1
    is_closed = true
    drop_sender
    sender_count = 0

    # a poll again keeps the newest waker
    bounded 1
    poll_recv None w1 = Pending 0
    poll_recv Some(0) w2 = Pending 0
    try_send (7,1) = Ok, handed (0,w2)
    poll_recv Some(0) w2 = Ready Ok (7,1)

    # a bulk send's state over five pairs
    bounded 2
    S is sendv (a,1) (b,2) (c,3) (d,4) (e,5)
    S poll w1 = Pending 0
    len = 2
    try_recv = (b,2), handed (0,w1) from the room side
    S poll w1 = Pending 1
    len = 2
    try_recv = (c,3), handed (1,w1) from the room side
    close = true, handed nobody
    S poll w1 = Ready Closed with 2 left
    try_recv = (a,1)
    try_recv = Closed

    # one of two waiting sends gives up
    bounded 1
    try_send (1,1) = Ok
    poll_send (2,2) None w1 = Pending 0
    poll_send (3,3) None w2 = Pending 1
    give_up 0
    try_recv = (1,1), handed (1,w2) from the room side

    # a bulk send of nothing waits, and is closed
    bounded 1
    try_send (1,1) = Ok
    S is sendv
    S poll w1 = Pending 0
    close = true, handed (0,w1) from the room side
    S poll w1 = Ready Closed with 0 left
    S poll w1 = Pending
    S is_done = true
    len = 1
    is_closed = true

    # a bulk send of nothing wakes no receiver
    bounded 1
    poll_recv None w1 = Pending 0
    try_sendv = Ok, handed nobody
    try_send (7,1) = Ok, handed (0,w1)

    # ties across receives
    bounded 3
    try_send (a,0) = Ok
    try_send (b,0) = Ok
    try_recv = (a,0)
    try_send (c,0) = Ok
    try_send (d,0) = Ok
    try_recv = (b,0)
    try_recv = (c,0)
    try_recv = (d,0)

    # a poll with a ticket that is not listed
    bounded 1
    poll_recv Some(9) w1 = Pending 0
    give_up 9
    len = 0
    is_closed = false
    try_send (7,1) = Ok, handed (0,w1)

    # two receivers wait, and the channel closes
    bounded 1
    poll_recv None w1 = Pending 0
    poll_recv None w2 = Pending 1
    close = true, handed (0,w1) (1,w2)
    poll_recv Some(0) w1 = Ready Closed
    close = false, handed nobody

    # five receivers wait, and one gives up
    bounded 1
    poll_recv None w1 = Pending 0
    poll_recv None w1 = Pending 1
    poll_recv None w1 = Pending 2
    poll_recv None w1 = Pending 3
    poll_recv None w1 = Pending 4
    give_up 2
    give_up 2
    poll_recv Some(3) w2 = Pending 3
    try_send (7,1) = Ok, handed (0,w1) (1,w1) (3,w2) (4,w1)

    # a waiting receiver polls as a sender
    bounded 1
    poll_recv None w1 = Pending 0
    try_send (7,1) = Ok, handed (0,w1)
    poll_send (8,2) Some(0) w1 = Pending 1
    poll_recv Some(1) w2 = Ready Ok (7,1), handed (1,w1) from the room side
    len = 0

    # two waiting sends pass each other
    bounded 1
    try_send (1,1) = Ok
    A is send (2,2)
    B is send (3,3)
    A poll w1 = Pending 0
    B poll w2 = Pending 1
    try_recv = (1,1), handed (0,w1) (1,w2) from the room side
    B poll w2 = Ready Ok
    A poll w1 = Pending 2
    A ticket = Some(2)
    A give_up = Some((2,2))
    A is_done = true
    A poll w1 = Pending
    A is_done = true
    len = 1
    is_closed = false
    try_recv = (3,3), handed nobody

    # one of two woken receivers gives up
    bounded 2
    C is recv
    D is recv
    C poll w1 = Pending 0
    D poll w2 = Pending 1
    try_sendv (1,1) (2,2) = Ok, handed (0,w1) (1,w2)
    C give_up = Some(())
    D poll w2 = Ready Ok (2,2)
    len = 1
";

#[test]
fn examples_on_the_core_on_handles_and_by_futures(rt: HostRuntime) {
    for (ground, script) in [
        (Core, SENDS),
        (Core, CHANNELS),
        (Core, CORE),
        (Handles, SENDS),
        (Handles, CHANNELS),
        (Futures, SENDS),
        (Futures, POLLED_ONCE),
    ] {
        play(&rt, ground, script);
    }
}

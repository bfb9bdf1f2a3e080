//! Where memory is refused, the core hands back what it was to take.
use super::script::{play, play_refused};

#[test]
fn a_reserved_channel_needs_no_memory(rt: HostRuntime) {
    play(
        &rt,
        "
        reserved 2; refuse all; try_send a1; try_send c3
        poll_send - 1 d4 = Ready(Err(Memory(('d', 4))))   # to wait takes some
        clone_sender = true; clone_receiver = true; handles = (2, 2)
        change_priority c2 = Ok(3); change_priority d9 = Err(9)
        try_send_evicting d4 = Ok(Some(('a', 1)))
        try_recv_many 2 = (Ok(2), [('d', 4), ('c', 2)]); poll_recv - 1 = Ready(Err(Memory))
        try_sendv e5 f6; take_where e = Some(('e', 5)); retain 7 = [('f', 6)]; close = true
        poll_send - 1 g7 = Ready(Err(Closed(('g', 7)))); try_recv = Err(Closed)

        refuse all; reserved 2 = AllocError
        refuse none = false; reserved 9223372036854775807 = AllocError",
    );
}

#[test]
fn what_is_refused_comes_back_and_waits_no_more(rt: HostRuntime) {
    play(
        &rt,
        "
        bounded 10; refuse all; try_send_evicting a5 = Err(Memory(('a', 5)))
        try_recv = Err(Empty); refuse none = false

        bounded 1; try_send a1; refuse 1   # a batch needs no memory
        try_recv_many 2 = (Ok(1), [('a', 1)]); refuse none = true

        bounded 1; try_send a1; poll_send - 1 b2 = Pending(('b', 2), 0)
        refuse 1; poll_send 0 2 b2 = Ready(Err(Memory(('b', 2))))
        refuse none = false; try_recv = Ok(('a', 1))",
    );
}

// Each message is in one call, and is accepted there or comes back.
#[test]
fn each_request_may_be_refused(rt: HostRuntime) {
    play_refused(
        &rt,
        "
        bounded 3
        try_send a1
        try_sendv b3 c2 d1 = Err(Full([('d', 1)]))
        try_recv = Ok(('b', 3))
        poll_send - 1 e2 = Ready(Ok(()))
        try_send_evicting f4 = Ok(Some(('a', 1)))
        poll_send - 1 g1 = Pending(('g', 1), 0)
        poll_send - 2 h1 = Pending(('h', 1), 1)
        change_priority c5 = Ok(2)
        take_where c = Some(('c', 5)), room [(0, 1), (1, 2)]
        retain 3 = [('e', 2)]
        try_recv = Ok(('f', 4))
        poll_recv - 1 = Pending((), 2)
        poll_recv 2 2 = Pending((), 2)
        poll_sendv - 1 i1 j2 k3 l4 = Pending([('l', 4)], 3), message [(2, 2)]
        close = true, room [(3, 1)]
        try_send m1 = Err(Closed(('m', 1)))",
        "abcdefghijklm",
    );
    // Each growth of the pairs that are pending.
    play_refused(
        &rt,
        "
        unbounded
        try_sendv a1 b1 c1 d1 e1 f1 g1 h1 i1 j1 k1
        try_sendv l1 m1 n1 o1 p1 q1 r1 s1 t1",
        "abcdefghijklmnopqrst",
    );
}

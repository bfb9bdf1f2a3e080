//! Calls of the core, each with its answer and the waiters that it wakes, beside the examples of
//! `acceptance_tests`.
use super::script::play;

#[test]
fn sends_batches_and_handles_answer_as_worked_by_hand(rt: HostRuntime) {
    play(
        &rt,
        "
        # what a bulk send leaves, and what comes back
        bounded 3; try_sendv a0 b0 c0 d0 e0 = Err(Full([('d', 0), ('e', 0)]))
        pending = (3, false, true); close = true; try_sendv f0 = Err(Closed([('f', 0)]))
        pending = (3, false, true); try_recv = Ok(('a', 0)); unbounded; capacity = None

        # the last handle of a side closes
        bounded 2; handles = (1, 1); clone_sender = true; clone_receiver = true
        clone_receiver = true; handles = (2, 3); drop_receiver; drop_sender; drop_receiver
        handles = (1, 1); is_closed = false
        bounded 1; poll_recv - 1 = Pending((), 0)   # the last one lets all go on
        clone_sender = true; drop_sender; drop_sender = (), message [(0, 1)]
        bounded 1; try_send a1; poll_send - 1 b1 = Pending(('b', 1), 0)
        drop_receiver = (), room [(0, 1)]

        # a batch brings the greatest first
        unbounded; try_sendv a1 b3 c1 d2 e3 f1
        try_recv_many 0 = (Ok(0), []); pending = (6, false, false)
        try_recv_many 1 = (Ok(1), [('b', 3)])
        try_recv_many 3 = (Ok(3), [('e', 3), ('d', 2), ('a', 1)])
        peek = Some(('c', 1)); peek = Some(('c', 1))
        try_recv_many 10 = (Ok(2), [('c', 1), ('f', 1)]); peek = None
        try_recv_many 0 = (Err(Empty), []); try_recv_many 5 = (Err(Empty), [])
        try_send g1; close = true; peek = Some(('g', 1))
        try_recv_many 0 = (Ok(0), []); try_recv_many 5 = (Ok(1), [('g', 1)])
        try_recv_many 0 = (Err(Closed), []); try_recv_many 5 = (Err(Closed), [])
        bounded 2; try_sendv a1 b2   # it wakes the waiters for room, once
        poll_send - 7 c3 = Pending(('c', 3), 0); poll_send - 8 d3 = Pending(('d', 3), 1)
        try_recv_many 0 = (Ok(0), [])
        try_recv_many 2 = (Ok(2), [('b', 2), ('a', 1)]), room [(0, 7), (1, 8)]
        try_send e4; try_recv_many 1 = (Ok(1), [('e', 4)])",
    );
}

#[test]
fn pairs_are_chosen_as_worked_by_hand(rt: HostRuntime) {
    play(
        &rt,
        "
        # a full channel makes room by the last of the least
        bounded 3; try_send_evicting a1 = Ok(None); try_sendv b1 c2
        try_send_evicting d1 = Err(Full(('d', 1)))
        poll_send - 7 w9 = Pending(('w', 9), 0)
        try_send_evicting e2 = Ok(Some(('b', 1)))   # a waiter for room waits on
        try_send_evicting f3 = Ok(Some(('a', 1)))
        take_where z = None; take_where e = Some(('e', 2)), room [(0, 7)]
        try_send_evicting g2 = Ok(None); retain 3 = [('c', 2), ('g', 2)]
        try_recv = Ok(('f', 3)); try_send_evicting h1 = Ok(None); close = true
        try_send_evicting i9 = Err(Closed(('i', 9)))
        retain 0 = []; take_where h = Some(('h', 1)); try_recv = Err(Closed)

        # a pair of another priority keeps its place among equals
        unbounded; try_sendv a1 b2 c3   # the last is raised, and comes first
        change_priority a4 = Ok(1); peek = Some(('a', 4)); try_recv = Ok(('a', 4))
        try_recv = Ok(('c', 3)); try_recv = Ok(('b', 2)); change_priority a9 = Err(9)
        unbounded; try_sendv a1 b2 c3   # the first is lowered, and comes last
        change_priority c0 = Ok(3); try_recv = Ok(('b', 2)); try_recv = Ok(('a', 1))
        try_recv = Ok(('c', 0))
        unbounded; try_sendv a1 b2 c3 d2   # of equal ones the first that was accepted
        change_priority c2 = Ok(3); change_priority a2 = Ok(1); try_send e2
        try_recv = Ok(('a', 2)); try_recv = Ok(('b', 2)); try_recv = Ok(('c', 2))
        try_recv = Ok(('d', 2)); try_recv = Ok(('e', 2))
        unbounded; try_sendv c1 b1 a1   # it is the first accepted of those that pass
        change_priority b5 = Ok(1); try_recv = Ok(('c', 5))
        change_priority a0 = Ok(1); try_recv = Ok(('a', 1)); try_recv = Ok(('b', 0))
        unbounded; try_sendv a1 b1 c1   # to the same, or none that passes
        change_priority b1 = Ok(1); change_priority d9 = Err(9)
        close = true; change_priority c2 = Ok(1)   # also in a closed channel
        try_recv = Ok(('c', 2)); try_recv = Ok(('a', 1)); try_recv = Ok(('b', 1))
        change_priority a1 = Err(1)
        bounded 3; try_sendv a1 b2 c3; try_send_evicting d1 = Err(Full(('d', 1)))
        change_priority c1 = Ok(3)   # it is now the last of the least
        try_send_evicting d2 = Ok(Some(('c', 1))); change_priority a9 = Ok(1)
        try_send_evicting e3 = Ok(Some(('d', 2))); try_recv = Ok(('a', 9))
        change_priority b4 = Ok(2); try_recv = Ok(('b', 4)); try_recv = Ok(('e', 3))
        bounded 1; poll_recv - 1 = Pending((), 0)   # nobody is woken
        change_priority a9 = Err(9); try_send a1 = Ok(()), message [(0, 1)]
        poll_send - 7 b2 = Pending(('b', 2), 1); change_priority a9 = Ok(1)
        try_recv = Ok(('a', 9)), room [(1, 7)]",
    );
}

#[test]
fn waiters_are_woken_as_worked_by_hand(rt: HostRuntime) {
    play(
        &rt,
        "
        # a ticket that nobody has
        bounded 1; poll_recv 9 1 = Pending((), 0); give_up 9
        poll_recv 18446744073709551615 2 = Pending((), 1); give_up 18446744073709551614
        try_send a1 = Ok(()), message [(0, 1), (1, 2)]

        # a send waits for room
        bounded 1; try_send a1
        poll_send - 1 b2 = Pending(('b', 2), 0); poll_send - 2 c3 = Pending(('c', 3), 1)
        give_up 0; try_recv = Ok(('a', 1)), room [(1, 2)]
        poll_send 1 2 c3 = Ready(Ok(())); close = true
        poll_send - 1 b2 = Ready(Err(Closed(('b', 2))))
        bounded 1; poll_sendv - 5 a1 b2 = Pending([('b', 2)], 0)
        try_recv = Ok(('a', 1)), room [(0, 5)]; poll_sendv 0 5 b2 = Ready(Ok(()))
        poll_sendv - 6 = Pending([], 1)   # nothing waits for room as well
        close = true, room [(1, 6)]
        poll_sendv - 5 c3 = Ready(Err(Closed([('c', 3)]))); try_recv = Ok(('b', 2))",
    );
}

//! Which task is woken, where futures are polled more than once.
use super::script::run;

#[test]
fn the_task_that_polled_last_is_woken(rt: HostRuntime) {
    run(
        &rt,
        "
        -- a receive, a batch and streams
        channel 1
        lend rx
        r by rx recv; r poll first = Pending; woken =; r poll second = Pending; rest first; woken =
        tx try_send x 1; woken = second; rx try_recv = Ok(('x', 1)); r poll second = Pending
        r poll first = Pending; rest second; tx try_send y 2; woken = first
        r poll first = Ok(('y', 2))
        --
        channel 1
        lend rx
        b by rx recv_many 2; b poll first = Pending; b poll second = Pending; rest first
        tx try_send x 1; woken = second; b poll second = Ok(1)
        --
        channel 1
        lend rx
        st by rx stream; st poll first = Pending; st poll second = Pending; rest first
        tx try_send x 1; woken = second; st poll second = Some(('x', 1))
        -- a send and a bulk send
        channel 1; tx try_send x 1
        lend tx
        s by tx send y 2; s poll first = Pending; s poll second = Pending; rest first; woken =
        rx try_recv = Ok(('x', 1)); woken = second; tx try_send z 3; s poll second = Pending
        s poll first = Pending; rest second; rx try_recv = Ok(('z', 3)); woken = first
        s poll first; rx try_recv = Ok(('y', 2))
        --
        channel 1
        lend tx
        v by tx sendv x 1 y 2; v poll first = Pending; v poll second = Pending; rest first; woken =
        rx try_recv = Ok(('x', 1)); woken = second; v poll second; rx try_recv = Ok(('y', 2))
        -- a wait for the close, and a receive at a close
        channel 1; t2 by tx clone; t3 by tx clone; r2 by rx clone; r3 by rx clone
        lend tx
        c by tx closed; c poll first = Pending; c poll second = Pending; rest first; drop t2
        drop rx; tx looks = 0 of 2+2; drop r2; woken =; drop r3; woken = second; c poll second
        --
        channel 1
        lend rx
        r by rx recv; r poll first = Pending; r poll second = Pending; r poll first = Pending
        rest second; woken =; drop tx; woken = first; r poll first = Err(Closed(RecvError))
        -- one task polls again and again
        channel 1
        lend tx rx
        r by rx recv; r poll task = Pending; r poll task = Pending; woken =; tx try_send x 1
        woken = task; s by tx send y 2; s poll task = Pending; s poll task = Pending; woken =
        rx try_recv = Ok(('x', 1)); woken = task",
    );
}

#[test]
fn what_was_polled_again_wakes_the_other_side(rt: HostRuntime) {
    run(
        &rt,
        "
        -- a receive, and then sends that waited
        channel 1
        lend tx rx
        r by rx recv; r poll receiver = Pending; v by tx sendv a 1 b 2; v poll sender = Pending
        woken = receiver; r poll receiver = Ok(('a', 1)); woken = sender; v poll sender
        s by tx send c 3; s poll sender = Pending; b by rx recv_many 3; b poll receiver = Ok(1)
        woken = sender; r2 by rx recv; r2 poll receiver = Pending; s poll sender; woken = receiver
        tx looks = 1 of 1+1
        -- a bulk send of nothing waits for room
        channel 1; tx try_send x 1
        lend tx
        v by tx sendv; v poll task = Pending; rx try_recv = Ok(('x', 1)); woken = task; v poll task
        tx looks = 0 of 1+1
        -- a bulk send and a stream in turn
        channel 1
        lend tx rx
        st by rx stream; v by tx sendv a 1 b 2 c 3; st poll receiver = Pending
        v poll sender = Pending; woken = receiver; st poll receiver = Some(('a', 1))
        woken = sender; st poll receiver = Pending; v poll sender = Pending; woken = receiver
        st poll receiver = Some(('b', 2)); woken = sender; st poll receiver = Pending
        v poll sender; woken = receiver; st poll receiver = Some(('c', 3))",
    );
}

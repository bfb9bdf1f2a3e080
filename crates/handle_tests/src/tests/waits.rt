//! Futures that go, that have answered, or that are refused memory, beside others that wait.
use super::script::run;

#[test]
fn a_future_that_goes_does_nothing_more(rt: HostRuntime) {
    run(
        &rt,
        "
        -- a dropped send sends nothing, also where it was woken
        channel 1; tx try_send x 1
        lend tx
        s by tx send y 2; s poll task = Pending; v by tx sendv z 3; v poll task = Pending
        rx try_recv = Ok(('x', 1)); woken = task; drop s; drop v; rx try_recv = Err(Empty)
        -- what a dropped bulk send sent stays
        channel 1
        lend tx
        v by tx sendv a 1 b 2; v poll task = Pending; drop v; rx try_recv = Ok(('a', 1))
        rx try_recv = Err(Empty)
        -- a dropped receive takes nothing, also where it was woken
        channel 1
        lend rx
        r by rx recv; b by rx recv_many 2; st by rx stream; r poll task = Pending
        b poll task = Pending; st poll task = Pending; tx try_send x 1; woken = task; drop r
        drop b; drop st; rx try_recv = Ok(('x', 1))
        -- the last receiver goes with its stream, and what is pending stays
        channel 1; own by rx into_stream; own poll task = Pending; tx try_send x 1
        own poll task = Some(('x', 1)); tx looks = 0 of 1+1; tx try_send y 2; drop own
        tx looks = 1 of 1+0 closed
        -- a close stays where those that it woke are dropped
        channel 1
        lend tx rx
        r by rx recv; r poll task = Pending; b by rx recv_many 2; b poll task = Pending
        st by rx stream; st poll task = Pending; c by tx closed; c poll task = Pending
        tx try_send x 1; s by tx send y 2; s poll task = Pending; v by tx sendv z 3
        v poll task = Pending; tx close = true; drop r; drop b; drop st; drop c; drop s; drop v
        tx looks = 1 of 1+1 closed; rx try_recv = Ok(('x', 1)); rx try_recv = Err(Closed)",
    );
}

#[test]
fn others_stay_listed_amid_those_that_go(rt: HostRuntime) {
    run(
        &rt,
        "
        -- receives that wait are dropped
        channel 4; r2 by rx clone
        lend rx
        r by rx recv; st by rx stream; stay by rx recv; own by r2 into_stream; b by rx recv_many 1
        r poll go = Pending; st poll go = Pending; stay poll home = Pending; own poll go = Pending
        b poll go = Pending; r poll go = Pending; st poll go = Pending; stay poll home = Pending
        own poll go = Pending; b poll go = Pending; drop r; drop st; drop own; drop b
        tx looks = 0 of 1+1; rest go; tx try_send x 6; woken = home; stay poll home = Ok(('x', 6))
        -- receives that were woken are dropped
        channel 4; r2 by rx clone
        lend rx
        r by rx recv; st by rx stream; stay by rx recv; own by r2 into_stream; b by rx recv_many 1
        r poll go = Pending; st poll go = Pending; stay poll home = Pending; own poll go = Pending
        b poll go = Pending; tx try_send x 1; woken = go home; drop r; drop st; drop own; drop b
        rx try_recv = Ok(('x', 1)); stay poll home = Pending; rest go; tx try_send y 2
        woken = home; stay poll home = Ok(('y', 2))
        -- receives that have answered are dropped
        channel 4; r2 by rx clone
        lend rx
        r by rx recv; st by rx stream; stay by rx recv; own by r2 into_stream; b by rx recv_many 1
        r poll go = Pending; st poll go = Pending; stay poll home = Pending; own poll go = Pending
        b poll go = Pending; tx try_send a 1; tx try_send b 2; tx try_send c 3; tx try_send d 4
        r poll go = Ok(('d', 4)); st poll go = Some(('c', 3)); own poll go = Some(('b', 2))
        b poll go = Ok(1); stay poll home = Pending; rest go; tx try_send e 5; woken = home
        rx try_recv = Ok(('e', 5)); drop r; drop st; drop own; drop b; stay poll home = Pending
        rest go; tx try_send x 6; woken = home; stay poll home = Ok(('x', 6))
        -- sends that wait are dropped
        channel 1; tx try_send x 9
        lend tx
        s by tx send a 1; stay by tx send b 2; v by tx sendv c 3 d 4; s poll go = Pending
        stay poll home = Pending; v poll go = Pending; s poll go = Pending
        stay poll home = Pending; v poll go = Pending; drop s; drop v; rest go
        rx try_recv = Ok(('x', 9)); woken = home; stay poll home; rx try_recv = Ok(('b', 2))
        rx try_recv = Err(Empty)
        -- sends that were woken are dropped
        channel 1; tx try_send x 9
        lend tx
        s by tx send a 1; stay by tx send b 2; v by tx sendv c 3 d 4; s poll go = Pending
        stay poll home = Pending; v poll go = Pending; rx try_recv = Ok(('x', 9)); woken = go home
        drop s; drop v; rx try_recv = Err(Empty); tx try_send x 9; stay poll home = Pending
        rest go; rx try_recv = Ok(('x', 9)); woken = home; stay poll home
        rx try_recv = Ok(('b', 2))
        -- sends that have answered are dropped
        channel 1; tx try_send x 9
        lend tx
        s by tx send a 1; stay by tx send b 2; v by tx sendv c 3 d 4; s poll go = Pending
        stay poll home = Pending; v poll go = Pending; rx try_recv = Ok(('x', 9)); s poll go
        rx try_recv = Ok(('a', 1)); v poll go = Pending; rx try_recv = Ok(('c', 3)); v poll go
        stay poll home = Pending; rest go; rx try_recv = Ok(('d', 4)); woken = home; drop s; drop v
        rx try_recv = Err(Empty); tx try_send x 9; stay poll home = Pending; rest go
        rx try_recv = Ok(('x', 9)); woken = home; stay poll home; rx try_recv = Ok(('b', 2))
        -- a reserve that waits is dropped, and a lease
        channel 1; tx try_send x 9
        lend tx
        p by tx reserve; stay by tx reserve; p poll go = Pending; stay poll home = Pending
        p poll go = Pending; stay poll home = Pending; drop p; rest go; rx try_recv = Ok(('x', 9))
        woken = home; stay poll home = Ok(Permit { .. })
        --
        channel 1
        lend rx
        l by rx lease; stay by rx lease; l poll go = Pending; stay poll home = Pending
        l poll go = Pending; stay poll home = Pending; drop l; rest go; tx try_send x 1
        woken = home; stay poll home = Ok(Lease { .. })
        -- waits for the close that were not polled, that wait, or that were woken are dropped
        channel 1
        lend tx
        c1 by tx closed; c2 by tx closed; stay by tx closed; c3 by tx closed; c2 poll go = Pending
        stay poll home = Pending; c3 poll late = Pending; c2 poll go = Pending
        stay poll home = Pending; c3 poll late = Pending; drop c1; drop c2; rest go
        rx close = true; woken = home late; drop c3; rest late; woken = home; stay poll home",
    );
}

#[test]
fn a_future_that_has_answered_does_nothing_more(rt: HostRuntime) {
    run(
        &rt,
        "
        -- each is asked again
        channel 4
        lend tx rx
        s by tx send 1 1; s poll task; woken =; s poll task = Pending; woken = task
        v by tx sendv 2 2 3 3; v poll task; v poll task = Pending; woken = task
        tx looks = 3 of 1+1; r by rx recv; r poll task = Ok(('3', 3)); r poll task = Pending
        woken = task; b by rx recv_many 1; b poll task = Ok(1); b poll task = Pending; woken = task
        rx try_recv = Ok(('1', 1)); tx try_send 4 4; r poll task = Pending; rest task
        tx try_send 5 5; woken =; tx looks = 2 of 1+1; c by tx closed; tx close = true; c poll task
        woken =; c poll task = Pending; woken = task
        -- a reserve and a lease, which is put back at once
        channel 1
        lend tx rx
        p by tx reserve; p poll task = Ok(Permit { .. }); woken =; p poll task = Pending
        woken = task; tx try_send x 1; l by rx lease; l poll task = Ok(Lease { .. }); woken =
        l poll task = Pending; woken = task; tx looks = 1 of 1+1
        -- a stream ends for good
        channel 9; tx try_send a 1; tx try_send b 3; tx try_send c 3; tx try_send d 2
        lend rx
        st by rx stream; st poll task = Some(('b', 3)); tx try_send e 9
        st poll task = Some(('e', 9)); drop st; st by rx stream; st poll task = Some(('c', 3))
        drop tx; st poll task = Some(('d', 2)); st poll task = Some(('a', 1)); st poll task = None
        st poll task = None; woken =",
    );
}

#[test]
fn what_is_refused_memory_is_done_and_leaves_no_place(rt: HostRuntime) {
    run(
        &rt,
        "
        -- for its waiter, and for its place: receives
        channel 1
        lend rx
        r by rx recv; b by rx recv_many 2; refuse_nth 1; r poll task = Err(Memory); refuse_nth 2
        b poll task = Err(Memory); refuse_none = false; rest task; tx try_send x 1; woken =
        r poll task = Pending; b poll task = Pending; woken = task; rx try_recv = Ok(('x', 1))
        -- sends
        channel 1; tx try_send x 1
        lend tx
        s by tx send y 2; v by tx sendv z 3 w 4; refuse_nth 1; s poll task = Err(Memory(..))
        refuse_nth 2; v poll task = Err(2); refuse_none = false; rest task
        rx try_recv = Ok(('x', 1)); woken =; s poll task = Pending; v poll task = Pending
        woken = task; rx try_recv = Err(Empty)
        -- reserves
        channel 1; tx try_send x 1
        lend tx
        p by tx reserve; q by tx reserve; refuse_nth 1; p poll task = Err(Memory(..))
        refuse_nth 2; q poll task = Err(Memory(..)); refuse_none = false; rest task
        rx try_recv = Ok(('x', 1)); woken =; p poll task = Pending; q poll task = Pending
        woken = task
        -- leases
        channel 1
        lend rx
        l by rx lease; m by rx lease; refuse_nth 1; l poll task = Err(Memory); refuse_nth 2
        m poll task = Err(Memory); refuse_none = false; rest task; tx try_send x 1; woken =
        l poll task = Pending; m poll task = Pending; woken = task; rx try_recv = Ok(('x', 1))
        -- for its place, as it is polled again after a wake in vain
        channel 1
        lend rx
        r by rx recv; b by rx recv_many 2; l by rx lease; r poll task = Pending
        b poll task = Pending; l poll task = Pending; tx try_send x 1; woken = task
        rx try_recv = Ok(('x', 1)); refuse_all; r poll task = Err(Memory); b poll task = Err(Memory)
        l poll task = Err(Memory); refuse_none = false; rest task; tx try_send y 2; woken =
        --
        channel 1; tx try_send x 1
        lend tx
        s by tx send y 2; v by tx sendv z 3 w 4; p by tx reserve; s poll task = Pending
        v poll task = Pending; p poll task = Pending; rx try_recv = Ok(('x', 1)); woken = task
        tx try_send x 1; refuse_all; s poll task = Err(Memory(..)); v poll task = Err(2)
        p poll task = Err(Memory(..)); refuse_none = false; rest task; rx try_recv = Ok(('x', 1))
        woken =
        -- waits for the close, one of which waits on without more memory
        channel 1
        lend tx
        c1 by tx closed; c2 by tx closed; c3 by tx closed; refuse_nth 1
        c1 poll task = Err(AllocError); refuse_nth 2; c2 poll task = Err(AllocError)
        refuse_none = false; c3 poll first = Pending; refuse_all; c3 poll other = Pending
        rest first; rest task; tx close = true; woken = other; c1 poll task = Pending
        c3 poll other
        -- a stream goes on once there is memory
        channel 1
        lend rx
        st by rx stream; refuse_nth 1; st poll task = Pending; woken = task; refuse_nth 2
        st poll task = Pending; refuse_none = false; woken = task; st poll task = Pending; woken =
        tx try_send x 1; woken = task; st poll task = Some(('x', 1)); refuse_all
        st poll task = Pending; woken = task
        -- a stream keeps its waiter, and its place while it waits
        channel 1
        lend rx
        st by rx stream; st poll task = Pending; refuse_all; st poll task = Pending; woken =
        tx try_send x 1; st poll task = Some(('x', 1)); refuse_nth 2; st poll task = Pending
        refuse_none = true; woken =; tx try_send y 2; woken = task; st poll task = Some(('y', 2))
        drop tx; st poll task = None",
    );
}

//! Leases by a test or once due: what one has in hand, and what is there once it is dropped.
use crate::tests::{Host, expect_equal_at, expect_true};
use async_priority_channel::{Lease, Receiver, bounded};
use named_calls::receiving::due_if;
use named_calls::{Pair, Pairs};

// The message in hand, and how many are held and pending beside it. Then the lease is dropped.
fn tell_and_drop<R: Host>(
    rx: &Receiver<u64, u64, R>,
    lease: Lease<'_, u64, u64, R>,
) -> (Pair, u64, u64) {
    let pair = (*lease.message(), *lease.priority());
    let told = (pair, rx.held(), rx.len());
    drop(lease);
    told
}

// The 1, 2, 3 and 4 are pending, each with itself as its priority.
#[test]
fn a_lease_holds_the_message_that_it_chose_and_puts_it_back(rt: HostRuntime) {
    let (tx, rx) = bounded(&rt, rt.alloc(), 4).expect(&rt, "a channel");
    let pairs = Pairs::new(1, 4, 100);
    expect_true(&rt, tx.try_sendv(pairs.peekable()).is_ok(), "there is room");
    let is_odd = |msg: &u64, _: &u64| *msg % 2 == 1;
    let is_even = |msg: &u64, _: &u64| *msg % 2 == 0;
    let refused = rx.try_lease_if(is_odd).expect(&rt, "it is open").is_none();
    expect_true(&rt, refused, "the first is the 4");
    let lease = rx.try_lease_if(is_even).expect(&rt, "it is open");
    let by_if = tell_and_drop(&rx, lease.expect(&rt, "a lease"));
    let lease = rx.try_lease_where(is_odd).expect(&rt, "it is open");
    let by_where = tell_and_drop(&rx, lease.expect(&rt, "a lease"));
    let lease = rx.lease_where_blocking(is_odd).expect(&rt, "a lease");
    let by_wait = tell_and_drop(&rx, lease);
    let lease = rx.lease_when_blocking(|msg, _| due_if(*msg == 4));
    let once_due = tell_and_drop(&rx, lease.expect(&rt, "a lease"));
    let wanted = [
        ((4, 4), 1, 3),
        ((3, 3), 1, 3),
        ((3, 3), 1, 3),
        ((4, 4), 1, 3),
    ];
    expect_equal_at(&rt, "in hand", [by_if, by_where, by_wait, once_due], wanted);
    let left = [rx.try_recv(), rx.try_recv(), rx.try_recv(), rx.try_recv()];
    let wanted = [Ok((4, 4)), Ok((3, 3)), Ok((2, 2)), Ok((1, 1))];
    expect_equal_at(&rt, "left", left, wanted);
}

//! The tickets of those that wait, each one greater than the last.
use super::expect_equal;
use priority_channel_core::comparisons::Comparisons;
use priority_channel_core::waiting_list::WaitingList;
use std::alloc::Allocator;

// The ticket of one more that waits, where so many were given before.
fn list_after<A: Allocator>(alloc: A, given: u64) -> Option<u64> {
    let mut list = WaitingList::new(alloc);
    let mut next_ticket = given;
    list.listen(None, &'w', &mut next_ticket, &mut Comparisons::new())
}

#[test]
fn there_is_a_ticket_however_many_were_given(rt: HostRuntime) {
    for given in [0, 1_000_000, 1 << 32, u64::MAX - 1] {
        expect_equal(&rt, list_after(rt.alloc(), given), Some(given));
    }
    // This number stays, so that none is given twice.
    expect_equal(&rt, list_after(rt.alloc(), u64::MAX), None);
}

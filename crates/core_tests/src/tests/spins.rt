//! How many waits spin before they sleep.
use super::{expect_equal, expect_true};
use priority_channel_waiting::spins::Spins;

// Of a thousand waits, one after another, if each spin finds something, or if none does.
fn count_spins(found: bool) -> u64 {
    let spins = Spins::new();
    let mut count = 0u64;
    for _ in 0..1000u32 {
        if spins.are_due() {
            spins.note(found);
            count = count.wrapping_add(1);
        }
    }
    count
}

// Where none finds anything, the first sixteen waits spin, and then one after each pause of 128
// waits or more.
#[test]
fn waits_spin_as_long_as_that_is_of_use(rt: HostRuntime) {
    expect_equal(&rt, count_spins(true), 1000);
    let count = count_spins(false);
    expect_true(&rt, 16 < count && count < 24, "few of them spin");
}

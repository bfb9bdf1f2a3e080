//! How often the heap of a bag compares priorities, also once it has made room.
use super::expect_equal_at;
use priority_channel_core::bag::Bag;
use priority_channel_core::comparisons::Comparisons;
use std::cell::Cell;
use std::cmp::Ordering;
use std::mem::size_of;
use std::process::Abort;

/// A priority whose comparisons add to a shared count.
#[derive(Clone, Copy, Drop)]
struct Counted<'a> {
    value: u64,
    count: &'a Cell<u64>,
}

impl<'a> PartialEq for Counted<'a> {
    ghost use Rattle.std.specs.Prelude.{nat_eq};
    ghost use Rattle.std.specs.Ordering.{on};
    ghost use Rattle.std.proofs.Common.{rules};
    ghost use Rattle.std.specs.Cmp.Rules.{comparing};

    ghost eq = { on (λ c. c.value) nat_eq };

    ghost laws = { Prim.search (comparing, rules) };

    fn eq(&self, other: &Counted<'a>) -> bool {
        self.count.set(self.count.get().wrapping_add(1));
        self.value == other.value
    }
}

impl<'a> Eq for Counted<'a> {
    ghost use Rattle.std.proofs.Common.{rules};
    ghost use Rattle.std.specs.Cmp.Rules.{comparing};

    ghost laws = { Prim.search (comparing, rules) };
}

impl<'a> PartialOrd for Counted<'a> {
    ghost use Rattle.std.specs.Ordering.{on, nat_cmp, as_partial_cmp};
    ghost use Rattle.std.specs.Cmp.{partial_order_from_own_ties};
    ghost use Rattle.std.proofs.Common.{rules};
    ghost use Rattle.std.specs.Cmp.Rules.{comparing};

    ghost partial_cmp = { as_partial_cmp (on (λ c. c.value) nat_cmp) };

    ghost laws = { partial_order_from_own_ties (Prim.search (comparing, rules))
        (Prim.search (comparing, rules)) };

    fn partial_cmp(&self, other: &Counted<'a>) -> Option<Ordering> {
        Some(self.cmp(other))
    }
}

impl<'a> Ord for Counted<'a> {
    ghost use Rattle.std.specs.Ordering.{on, nat_cmp};
    ghost use Rattle.std.proofs.Common.{rules};
    ghost use Rattle.std.specs.Cmp.Rules.{comparing};

    ghost cmp = { on (λ c. c.value) nat_cmp };

    ghost total = { Prim.search (comparing, rules) };

    ghost matches_partial_cmp = { Prim.search (comparing, rules) };

    ghost matches_eq = { Prim.search (comparing, rules) };

    fn cmp(&self, other: &Counted<'a>) -> Ordering {
        self.count.set(self.count.get().wrapping_add(1));
        self.value.cmp(&other.value)
    }
}

type Counting<'a> = Bag<u64, Counted<'a>>;

const MANY: u64 = 1024;

// The length behind a push, and how many comparisons it makes at most.
const PUSHES: [(u64, u64); 5] = [(1, 1), (2, 2), (3, 2), (4, 3), (MANY, 11)];

// The length before a pop, and the same.
const POPS: [(u64, u64); 5] = [(1, 2), (2, 4), (3, 4), (4, 6), (MANY, 22)];

// The binary digits of a length, as many as its halvings to nothing.
fn digits_of(length: u64) -> u64 {
    64u64.wrapping_sub(length.leading_zeros() as u64)
}

fn most_of_push(length: u64) -> u64 {
    digits_of(length)
}

fn most_of_pop(length: u64) -> u64 {
    digits_of(length).wrapping_mul(2)
}

// Pushes to each length.
fn fill<'a>(rt: &impl Abort, bag: &mut Counting<'a>, count: &'a Cell<u64>) {
    let mut value: u64 = 1;
    for length in 1..=MANY {
        value = value.wrapping_mul(1103515245).wrapping_add(12345) % 0x8000_0000;
        bag.make_place().expect(rt, "memory");
        assert!(rt; bag.can_push());
        count.set(0);
        bag.push(length, Counted { value, count });
        expect_equal_at(rt, length, count.get() <= most_of_push(length), true);
    }
}

// Pops from each length.
fn drain(rt: &impl Abort, bag: &mut Counting<'_>, count: &Cell<u64>) {
    let mut last = u64::MAX;
    for length in (1..=MANY).rev() {
        count.set(0);
        let Some((_, priority)) = bag.pop() else {
            panic!(rt; "{length} are to be pending");
        };
        let is_seldom = count.get() <= most_of_pop(length);
        expect_equal_at(
            rt,
            length,
            (is_seldom, priority.value <= last),
            (true, true),
        );
        last = priority.value;
    }
}

// Also comparisons that go past the bag's own counter are seen here.
#[test]
fn comparisons_of_the_heap_at_each_length_from_1_to_1024(rt: HostRuntime) {
    for (length, most) in PUSHES {
        expect_equal_at(&rt, length, most_of_push(length), most);
    }
    for (length, most) in POPS {
        expect_equal_at(&rt, length, most_of_pop(length), most);
    }
    let cell = Cell::new(0);
    let count = &cell;
    let mut bag: Counting<'_> = Bag::new(rt.alloc());
    fill(&rt, &mut bag, count);
    drain(&rt, &mut bag, count);
    expect_equal_at(&rt, "the end", bag.len(), 0);
}

// Displaces as many pairs as there are, the least first, by greater ones.
fn displace<'a>(rt: &impl Abort, bag: &mut Counting<'a>, count: &'a Cell<u64>) {
    let most = most_of_pop(MANY).wrapping_add(1);
    let mut last = 0;
    for number in 0..MANY {
        let value = (number ^ 0x2aa).wrapping_add(0x8000_0000);
        assert!(rt; bag.can_push());
        count.set(0);
        let displaced = bag.displace(number, Counted { value, count });
        let (_, least) = displaced.ok().expect(rt, "a pair that makes room");
        let is_seldom = count.get() <= most;
        expect_equal_at(rt, number, (is_seldom, last <= least.value), (true, true));
        last = least.value;
    }
}

// From the first displacement on the pairs lie as another heap, which keeps these bounds.
#[test]
fn a_heap_that_has_made_room_compares_as_seldom(rt: HostRuntime) {
    let cell = Cell::new(0);
    let count = &cell;
    let mut bag: Counting<'_> = Bag::new(rt.alloc());
    assert!(rt; bag.can_push());
    let displaced = bag.displace(0, Counted { value: 0, count });
    expect_equal_at(&rt, "nothing to displace", displaced.is_err(), true);
    fill(&rt, &mut bag, count);
    displace(&rt, &mut bag, count);
    drain(&rt, &mut bag, count);
    // What counts them for the contracts takes no bytes.
    expect_equal_at(&rt, "bytes", size_of::<Comparisons>(), 0);
}

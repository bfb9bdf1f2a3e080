//! How often a bulk send asks its iterator, of whatever kind that is.
ghost use Rattle.std.specs.Iterator.Adapters.{peekable_can};

use super::{expect_equal, expect_true};
use priority_channel_core::awaitable_atomics::Wakes;
use priority_channel_core::calls::CorePoll;
use priority_channel_core::channel::PriorityQueueChannel;
use std::cell::Cell;
use std::iter::{Peekable, once, repeat_n};
use std::process::Abort;

type Core = PriorityQueueChannel<u64, u64, u64>;

fn unwoken<X>((answer, wakes): (X, Wakes<u64>)) -> X {
    let (_room, _message) = wakes.into_lists();
    answer
}

fn send_all<I: Iterator<Item = (u64, u64)>>(rt: &impl Abort, core: &mut Core, msgs: Peekable<I>)
    requires { peekable_can I.can_next msgs }
{
    let sent = unwoken(core.try_sendv(msgs)).is_ok();
    expect_true(rt, sent, "all is sent");
}

// The sources that callers have, each without a proof of its own.
#[test]
fn a_bulk_send_takes_any_iterator(rt: HostRuntime) {
    let mut core = Core::unbounded(rt.alloc());
    let pairs: Result<Vec<(u64, u64)>, _> = vec![in rt.alloc(); (1, 1), (2, 2)];
    let slice = [(3, 3), (4, 4)];
    send_all(
        &rt,
        &mut core,
        pairs.expect(&rt, "pairs").into_iter().peekable(),
    );
    send_all(&rt, &mut core, slice.iter().copied().peekable());
    send_all(&rt, &mut core, (5..8u64).map(|i| (i, i)).peekable());
    send_all(&rt, &mut core, once((8, 8)).peekable());
    send_all(&rt, &mut core, (9..11u64).zip(9..11u64).peekable());
    send_all(&rt, &mut core, repeat_n((11, 11), 2).peekable());
    for i in [11u64, 11, 10, 9, 8, 7, 6, 5, 4, 3, 2, 1] {
        expect_equal(&rt, unwoken(core.try_recv()), Ok((i, i)));
    }
}

/// Tells in a cell how often it was asked, and answers by the number of its question: a pair of
/// itself, or None where it is one of these. So a list has an end, and may go on behind it.
#[derive(Drop)]
struct Asked<'a> {
    count: &'a Cell<u64>,
    none_at: [u64; 2],
}

impl Iterator for Asked<'_> {
    type Item = (u64, u64);

    fn next(&mut self) -> Option<(u64, u64)> {
        let number = self.count.get().wrapping_add(1);
        self.count.set(number);
        if self.none_at.contains(&number) || number > 9 {
            return None;
        }
        Some((number, number))
    }
}

fn counting(count: &Cell<u64>, none_at: [u64; 2]) -> Peekable<Asked<'_>> {
    count.set(0);
    Asked { count, none_at }.peekable()
}

fn next_number(rest: &mut Peekable<Asked<'_>>) -> Option<u64> {
    rest.next().map(|pair| pair.0)
}

// Of the next five questions.
fn expect_next(rt: &impl Abort, mut rest: Peekable<Asked<'_>>, wanted: [Option<u64>; 5]) {
    let got = [
        next_number(&mut rest),
        next_number(&mut rest),
        next_number(&mut rest),
        next_number(&mut rest),
        next_number(&mut rest),
    ];
    expect_equal(rt, got, wanted);
}

#[test]
fn a_bulk_send_asks_for_one_pair_more_than_it_takes(rt: HostRuntime) {
    let count = Cell::new(0);
    // Two just fill it.
    for end in [1u64, 2, 3] {
        let mut core = Core::bounded(rt.alloc(), 2);
        let sent = unwoken(core.try_sendv(counting(&count, [end, end])));
        let told = (sent.is_ok(), count.get(), core.len().wrapping_add(1));
        expect_equal(&rt, told, (true, end, end));
        let mut core = Core::bounded(rt.alloc(), 2);
        let polled = unwoken(core.poll_sendv(counting(&count, [end, end]), None, &7));
        let sent = matches!(polled, CorePoll::Ready(Ok(())));
        let told = (sent, count.get(), core.len().wrapping_add(1));
        expect_equal(&rt, told, (true, end, end));
    }
    let mut core = Core::bounded(rt.alloc(), 2);
    let sent = unwoken(core.try_sendv(counting(&count, [6, 8])));
    expect_equal(&rt, (count.get(), core.len()), (3, 2));
    let rest = sent.err().expect(&rt, "no room for all").into_inner();
    // Behind its end too.
    expect_next(&rt, rest, [Some(3), Some(4), Some(5), None, Some(7)]);
}

// No question was asked before.
fn expect_untouched(rt: &impl Abort, count: &Cell<u64>, rest: Peekable<Asked<'_>>) {
    expect_equal(rt, count.get(), 0);
    expect_next(rt, rest, [Some(1), Some(2), Some(3), Some(4), Some(5)]);
}

#[test]
fn a_bulk_send_does_not_touch_its_iterator_where_it_takes_nothing(rt: HostRuntime) {
    let count = Cell::new(0);
    let mut core = Core::bounded(rt.alloc(), 1);
    expect_equal(&rt, unwoken(core.try_send(1, 1)), Ok(()));

    let sent = unwoken(core.try_sendv(counting(&count, [6, 6])));
    let rest = sent.err().expect(&rt, "a full channel").into_inner();
    expect_untouched(&rt, &count, rest);
    let polled = unwoken(core.poll_sendv(counting(&count, [6, 6]), None, &7));
    let CorePoll::Pending(rest, 0) = polled else {
        panic!(rt; "it does not wait");
    };
    expect_untouched(&rt, &count, rest);

    expect_true(&rt, unwoken(core.close()), "a close");
    let sent = unwoken(core.try_sendv(counting(&count, [6, 6])));
    let rest = sent.err().expect(&rt, "a closed channel").into_inner();
    expect_untouched(&rt, &count, rest);
    let polled = unwoken(core.poll_sendv(counting(&count, [6, 6]), None, &7));
    let CorePoll::Ready(Err(fault)) = polled else {
        panic!(rt; "the poll was not closed");
    };
    expect_untouched(&rt, &count, fault.into_inner());
}

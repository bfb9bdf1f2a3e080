//! Queries over many pending messages, of which each is asked once.
use crate::tests::expect_equal_at;
use async_priority_channel::unbounded;
use named_calls::Pairs;
use named_calls::reply::weighed;

const SIZES: [u64; 10] = [0, 1, 99, 100, 101, 127, 128, 129, 1_000, 5_000];

#[test]
fn a_query_asks_each_of_many_messages_once(rt: HostRuntime) {
    for size in SIZES {
        let (tx, rx) = unbounded(&rt, rt.alloc()).expect(&rt, "a channel");
        let pairs = Pairs::new(0, size, 7);
        let is_sent = tx.try_sendv(pairs.peekable()).is_ok();
        let got = (
            is_sent,
            rx.count_where(|_, _| true),
            rx.count_where(|msg, _| *msg % 3 == 0),
            tx.count_where(|_, priority| *priority == 6),
            rx.fold_pending(0, |sum, msg, priority| weighed(sum, *msg, *priority)),
        );
        let wanted = (
            true,
            size,
            size.div_ceil(3),
            size / 7,
            pairs.fold(0, |sum, pair| weighed(sum, pair.0, pair.1)),
        );
        expect_equal_at(&rt, size, got, wanted);
    }
}

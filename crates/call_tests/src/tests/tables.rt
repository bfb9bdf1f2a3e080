//! Tables over all calls of handles.
use super::handles::Handles;
use super::model::Model;
use super::{Host, Threaded, expect_equal_at};
use async_priority_channel::Ends;
use named_calls::{Call, Input, Pairs, Reply};
use refusing::watch::Watch;
use std::alloc::{Allocator, Global};
use std::fmt::Debug;
use std::sync::Wait;
use std::time::Duration;

mod counts;
mod effects;
mod held;
mod leases;
mod memory;
mod mirror;
mod sleepers;

// So many messages from the first on, which have their numbers as priorities, and so many received.
// The message 2 is chosen, and no call has time to wait.
fn input(first: u64, count: u64, most: usize) -> Input {
    Input {
        pairs: Pairs::new(first, count, 100),
        most,
        limit: Duration::ZERO,
        chosen: 2,
    }
}

// Makes the rounds of a table. One that hangs fails soon, and is named.
fn watch_rounds<R: Threaded, N: Debug + Drop + Send, F: FnOnce()>(
    rt: &R,
    watch: &Watch<N>,
    rounds: F,
)
    requires { F.pre rounds }
{
    watch.over(
        rt,
        |round| panic!(rt; "waited too long at {round:?}"),
        rounds,
    )
}

/// A channel, and the model beside it.
#[derive(Drop)]
struct Mirrored<R: Wait + Clone, A: Allocator + Copy = Global> {
    handles: Handles<R, A>,
    model: Model,
}

impl<R: Host, A: Allocator + Copy> Mirrored<R, A> {
    /// With so many senders and receivers, of which these make the calls.
    fn new(
        rt: &R,
        alloc: A,
        ends: Ends<u64, u64, R, A>,
        capacity: u64,
        counts: (usize, usize),
    ) -> Self {
        Mirrored {
            handles: Handles::new(rt, alloc, ends),
            model: Model::new(rt, capacity, counts.0, counts.1),
        }
    }

    /// Makes the call on both, which have to answer alike.
    fn agree<N: Debug + Drop>(&mut self, rt: &R, round: N, call: Call, input: Input) {
        let got = self.handles.make(rt, call, input);
        self.expect(rt, round, (call, input), got);
    }

    /// Makes the call on the model alone, which has to answer so.
    fn expect<N: Debug + Drop>(&mut self, rt: &R, round: N, made: (Call, Input), got: Reply) {
        let wanted = self.model.answer(rt, made.0, made.1);
        expect_equal_at(rt, (round, made.0), got, wanted);
    }
}

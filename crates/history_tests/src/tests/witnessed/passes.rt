//! Passes that come and go.
use super::{Channel, Passes, Scene, count, play, send};
use crate::tests::{Host, expect_equal};
use priority_channel_witnessed::Recording;
use std::alloc::Allocator;

/// To a channel of four parts, with one pass, two can come at a time. The first that came sends,
/// and goes before the last is asked for.
pub(super) fn come_and_go<J: Recording, A: Allocator + Copy, R: Host>(
    rt: &R,
    channel: &Channel<J, A>,
    passes: &mut Passes<J, A>,
) {
    let own = passes.pop().expect(rt, "a pass");
    let mut one = channel.fork(rt, &own).expect(rt, "a pass to fork");
    let two = channel.admit(rt).expect(rt, "a pass to admit");
    expect_equal(rt, channel.admit(rt).is_none(), true);
    let (sent, wakes) = channel.call(rt, &mut one, send(1, 1));
    expect_equal(rt, (sent, count(wakes)), (Ok(()), 0));
    let number = one.number();
    channel.leave(rt, one);
    let three = channel.fork(rt, &own).expect(rt, "a pass to fork");
    let numbers = [own.number(), number, two.number(), three.number()];
    expect_equal(rt, numbers, [0, 1, 2, 3]);
    for pass in [own, two, three] {
        passes.push(pass).expect(rt, "memory");
    }
}

#[test]
fn it_ends_once_all_have_come_back(rt: HostRuntime) {
    expect_equal(&rt, play(&rt, Scene::Guests, 1, 1, 4), 1);
}

//! Random calls of all kinds: each answers as the plain model does, and so do all looks after it.
use super::{Mirrored, watch_rounds};
use crate::tests::dice::Dice;
use crate::tests::{Threaded, expect_true};
use async_priority_channel::{Ends, bounded, bounded_reserved, unbounded};
use named_calls::{ALL, Call, Input, Pairs, Side};
use refusing::watch::Watch;
use std::time::Duration;

// From the second number of calls on the channel may be closed, and lose its last handles.
const CALLS: u64 = 900;

const CLOSES: u64 = 600;

// How many messages a bulk send has, at most one less.
const MOST: u64 = 40;

// In two of three stretches of so many calls sends prevail, and in the third receives do.
const STRETCH: u64 = 60;

// How many calls of the list send, and how many may close the channel.
const SENDS: u64 = 19;

const ENDS: u64 = 8;

// Sends stand first in the list of all calls, and what may close the channel last.
fn draw_call(dice: &mut Dice, round: u64) -> Call {
    let kinds = ALL.len() as u64;
    let do_sends_prevail = dice.below(3) > 0 && round / STRETCH % 3 < 2;
    let end = if do_sends_prevail {
        // A send that makes room counts three times.
        SENDS + 2
    } else if round < CLOSES {
        kinds.saturating_sub(ENDS)
    } else {
        kinds
    };
    let number = dice.below(end);
    if do_sends_prevail && number >= SENDS {
        return Call::SendEvicting;
    }
    ALL.get(number as usize).copied().unwrap_or(Call::RecvIf)
}

// Messages are told apart by their numbers, and many have the same priority.
fn draw_input(dice: &mut Dice, round: u64, spread: u64) -> Input {
    let first = round.wrapping_mul(MOST);
    let spread = dice.below(spread).wrapping_add(1);
    Input {
        pairs: Pairs::new(first, dice.below(MOST), spread),
        most: dice.below(20) as usize,
        // One that does not wait may have all the time.
        limit: Duration::from_secs(if dice.below(2) == 0 { 0 } else { 60 }),
        chosen: first.saturating_sub(dice.below(400)),
    }
}

fn mirror<R: Threaded>(rt: &R, ends: Ends<u64, u64, R>, capacity: u64, spread: u64) {
    let mut mirrored = Mirrored::new(rt, rt.alloc(), ends, capacity, (1, 1));
    let mut dice = Dice::new(capacity);
    let watch = Watch::brief(None);
    watch_rounds(rt, &watch, || {
        for round in 0..CALLS {
            let call = draw_call(&mut dice, round);
            let input = draw_input(&mut dice, round, spread);
            if !mirrored.model.waits(call, input) {
                watch.begin(rt, Some((capacity, round, call, input)));
                mirrored.agree(rt, round, call, input);
                mirrored.agree(rt, (round, call), Call::Look(Side::Sender), input);
                mirrored.agree(rt, (round, call), Call::Look(Side::Receiver), input);
            }
        }
    });
    expect_true(rt, mirrored.model.is_closed, "the end is seen too");
}

#[test]
fn each_kind_of_channel_answers_as_the_model(rt: HostRuntime) {
    for capacity in [1u64, 2, 3, 6, 64] {
        let ends = bounded(&rt, rt.alloc(), capacity).expect(&rt, "a channel");
        mirror(&rt, ends, capacity, 50);
    }
    for spread in [1u64, 5] {
        let ends = bounded_reserved(&rt, rt.alloc(), 7).expect(&rt, "a channel");
        mirror(&rt, ends, 7, spread);
    }
    let ends = unbounded(&rt, rt.alloc()).expect(&rt, "a channel");
    mirror(&rt, ends, u64::MAX, 50);
}

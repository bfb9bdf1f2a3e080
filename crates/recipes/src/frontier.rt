//! Shortest ways over a map: what is pending becomes more urgent.
//!
//! You need this where a message may turn out to be due sooner, as in Dijkstra's search. Each place
//! that was reached is pending once, at the length of the shortest way so far. A shorter one
//! changes that by `change_priority`: a second message would bring the place twice, and whoever
//! receives it would have to remember that. Once a place was received it is not pending, so nothing
//! changes there; and no way to it is shorter.

use async_priority_channel::{Sender, unbounded};
use std::alloc::AllocGlobal;
use std::cmp::Reverse;
use std::sync::Wait;

// The nearest place first.
type Frontier<R> = Sender<&'static str, Reverse<u64>, R>;

// From where to where each road goes, and its length.
const ROADS: [(&str, &str, u64); 5] = [
    ("home", "mill", 7),
    ("home", "bridge", 2),
    ("bridge", "mill", 3),
    ("mill", "tower", 1),
    ("bridge", "tower", 9),
];

// A place that is pending at a greater length is pending at this one from now on. Gives the other.
fn shorten<R: Wait + Clone>(tx: &Frontier<R>, place: &str, length: u64) -> Option<u64> {
    let Reverse(was) = tx.change_priority(
        |pending, Reverse(was)| *pending == place && *was > length,
        Reverse(length),
    )?;
    Some(was)
}

// A way of this length leads to the place.
fn reach<R: Wait + Clone + Print>(
    rt: &R,
    tx: &Frontier<R>,
    reached: &mut Vec<&'static str>,
    place: &'static str,
    length: u64,
) -> anyhow::Result<()> {
    if !reached.contains(&place) {
        reached.push(place)?;
        tx.try_send(place, Reverse(length))?;
    } else if let Some(was) = shorten(tx, place, length) {
        println!(rt; "frontier: {place} at {length} and not {was}")?;
    }
    Ok(())
}

pub fn run<R: Wait + Clone + Print + AllocGlobal>(rt: &R) -> anyhow::Result<()> {
    let (tx, rx) = unbounded(rt, rt.alloc())?;
    let mut reached = Vec::new(rt.alloc());
    reach(rt, &tx, &mut reached, "home", 0)?;
    for (place, Reverse(length)) in rx.try_iter() {
        println!(rt; "frontier: {place} {length}")?;
        for (_, to, road) in ROADS.iter().filter(|road| road.0 == place) {
            reach(rt, &tx, &mut reached, *to, length.saturating_add(*road))?;
        }
    }
    Ok(())
}

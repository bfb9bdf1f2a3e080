//! A place that is held before there is a message.
//!
//! You need this where what was read cannot be unread: a line, a packet, an order of a customer. By
//! a plain send one finds out that the queue is full, or closed, with the message in hand. With the
//! permit first, nothing is read that has no place. It holds beyond the close: receivers wait for
//! its message, and are told Closed after that. One that is dropped frees its place.

use anyhow::Context;
use async_priority_channel::{Sender, bounded};
use std::alloc::AllocGlobal;
use std::str::SplitWhitespace;
use std::sync::Wait;

// Reads as many words as there are places, and leaves the others where they are. To wait for places
// it would call `reserve_blocking`.
fn read<R: Wait + Clone>(
    rt: &R,
    words: &mut SplitWhitespace<'static>,
    tx: &Sender<&'static str, (), R>,
) {
    for _ in rt.forever() {
        let Ok(permit) = tx.try_reserve() else { return };
        let Some(word) = words.next() else { return };
        permit.send(word, ());
    }
}

pub fn run<R: Wait + Clone + Print + AllocGlobal>(rt: &R) -> anyhow::Result<()> {
    let mut words = "take what you have a place for".split_whitespace();
    let (tx, rx) = bounded(rt, rt.alloc(), 2)?;
    read(rt, &mut words, &tx);
    let (first, ()) = rx.try_recv()?;
    println!(rt; "permit: {first}")?;
    let permit = tx.try_reserve()?;
    rx.close();
    read(rt, &mut words, &tx); // nothing: a closed queue gives no place
    let word = words.next().context("no word is left")?;
    permit.send(word, ()); // into the place that is held
    for (word, ()) in &rx {
        println!(rt; "permit: {word}")?;
    }
    for word in words {
        println!(rt; "permit: not read before the close: {word}")?;
    }
    Ok(())
}

//! Whether calls that overlapped were made in some order.
ghost use Rattle.std.specs.Prelude.{◌<◌};

use super::model::Model;
use super::notes::Noted;
use std::alloc::{AllocError, Global};
use std::collections::HashSet;
use std::sync::Wait;

pub(super) const THREADS: usize = 4;

// How many of its calls each thread has made.
#[derive(Clone, Copy, Drop, PartialEq, Eq, Hash)]
struct Positions([usize; THREADS]);

#[derive(Drop)]
struct State {
    made: Positions,
    channel: Model,
}

/// Whether there is an order of all calls that keeps each thread's own, that has a call which had
/// ended before another began before that one, and in which a plain channel replies the same.
///
/// Pairs of one priority have to come from one thread: then how far each thread has come tells what
/// is pending in which order, and from no positions is the search gone on twice.
pub(super) fn is_explained<R: Wait>(
    rt: &R,
    alloc: Global,
    threads: &[Vec<Noted>; THREADS],
) -> Result<bool, AllocError> {
    let mut tried = HashSet::new(alloc);
    let mut open = Vec::new(alloc);
    open.push(State {
        made: Positions([0; THREADS]),
        channel: Model::new(alloc),
    })?;
    for _ in rt.forever() {
        let Some(state) = open.pop() else {
            break;
        };
        let Some(first_end) = first_end(threads, state.made) else {
            return Ok(true);
        };
        if tried.insert(state.made)? {
            for thread in 0..THREADS {
                if let Some(next) = step(threads, &state, thread, first_end)? {
                    open.push(next)?;
                }
            }
        }
    }
    Ok(false)
}

fn next_call(threads: &[Vec<Noted>; THREADS], made: Positions, thread: usize) -> Option<Noted>
    requires { thread < 4 }
{
    threads[thread].get(made.0[thread]).copied()
}

// When the first of the threads' next calls ended; none where all calls are made.
fn first_end(threads: &[Vec<Noted>; THREADS], made: Positions) -> Option<u64> {
    let mut first = None;
    for thread in 0..THREADS {
        if let Some(noted) = next_call(threads, made, thread) {
            first = Some(first.map_or(noted.end, |end: u64| end.min(noted.end)));
        }
    }
    first
}

// Makes a thread's next call, if it may be the next of all and the channel replies as noted.
fn step(
    threads: &[Vec<Noted>; THREADS],
    state: &State,
    thread: usize,
    first_end: u64,
) -> Result<Option<State>, AllocError>
    requires { thread < 4 }
{
    let Some(noted) = next_call(threads, state.made, thread) else {
        return Ok(None);
    };
    if noted.begin > first_end {
        return Ok(None);
    }
    let mut channel = state.channel.copy()?;
    if channel.make(noted.call)? != noted.reply {
        return Ok(None);
    }
    let mut made = state.made;
    made.0[thread] = made.0[thread].wrapping_add(1);
    Ok(Some(State { made, channel }))
}

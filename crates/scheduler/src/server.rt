//! The thread that serves the requests.

use crate::request::{Answer, Queue, Tick};
use async_priority_channel::Receiver;
use std::cmp::Reverse;
use std::sync::Wait;

#[derive(Drop)]
pub struct Server<R: Wait + Clone> {
    // How many requests are served at a turn.
    turns: Receiver<u64, (), R>,
    queue: Queue<R>,
}

impl<R: Wait + Clone> Server<R> {
    pub fn new(turns: Receiver<u64, (), R>, queue: Queue<R>) -> Self {
        Server { turns, queue }
    }

    /// Serves at each of its turns the requests that waited as the turn was given, that of the
    /// earliest deadline first, until no turn can come.
    pub fn serve(&self) {
        let mut now = 0;
        for (waiting, ()) in &self.turns {
            for _ in 0..waiting {
                let Ok((request, Reverse(deadline))) = self.queue.try_recv() else {
                    break;
                };
                let answer = answer(&mut now, request.work, deadline);
                // A client that has gone wants no answer.
                let _ = request.reply.try_send(answer, ());
            }
        }
    }
}

// A request that can't be served in time takes none.
fn answer(now: &mut Tick, work: Tick, deadline: Tick) -> Answer {
    match now.checked_add(work) {
        Some(end) if end <= deadline => {
            *now = end;
            Answer::Served { at: end }
        }
        _ => Answer::Late,
    }
}

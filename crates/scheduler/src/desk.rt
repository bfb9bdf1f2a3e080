//! Where clients ask.

ghost use Rattle.std.specs.Prelude.{◌<◌};

use crate::request::{Answer, Queue, Request, Requests, Tick};
use crate::server::Server;
use anyhow::{Context, bail};
use async_priority_channel::{Receiver, Sender, TrySendError, bounded, bounded_reserved};
use std::alloc::{AllocGlobal, Global};
use std::cmp::Reverse;
use std::sync::Wait;
use std::time::{Clock, Duration, Instant};

/// What a client wants.
#[derive(Drop)]
pub struct Wish {
    pub name: String,
    pub deadline: Tick,
    pub work: Tick,
}

impl Wish {
    pub fn parse(alloc: Global, words: &[&str]) -> anyhow::Result<Self> {
        let [name, deadline, work] = words else {
            bail!("not a name, a deadline and how long it takes: {words:?}");
        };
        Ok(Wish {
            name: String::from_str(alloc, name)?,
            deadline: deadline
                .parse()
                .context(format_args!("the deadline of {name}"))?,
            work: work.parse().context(format_args!("how long {name} takes"))?,
        })
    }
}

/// Requests wait here until the server has its turn.
#[derive(Drop)]
pub struct Desk<R: Wait + Clone> {
    requests: Requests<R>,
    // To take out what is cancelled.
    queue: Queue<R>,
    turns: Sender<u64, (), R>,
    asked: Vec<Asked<R>>,
}

// A request of which the answer is still to be read.
#[derive(Drop)]
struct Asked<R: Wait + Clone> {
    name: String,
    replied: Receiver<Answer, (), R>,
}

impl<R: Wait + Clone + AllocGlobal> Desk<R> {
    /// A desk at which so many requests can wait, and its server.
    pub fn open(rt: &R, room: u64) -> anyhow::Result<(Self, Server<R>)>
        requires { 0 < room }
    {
        let (turns, server_turns) = bounded(rt, rt.alloc(), 1)?;
        let (requests, queue) = bounded(rt, rt.alloc(), room)?;
        let server = Server::new(server_turns, queue.clone()?);
        let desk = Desk {
            requests,
            queue,
            turns,
            asked: Vec::new(rt.alloc()),
        };
        Ok((desk, server))
    }

    /// Where there is no room, the request of the latest deadline is told so: one that waits, in
    /// whose place the new one waits then, or the new one itself.
    pub fn ask(&mut self, rt: &R, wish: Wish) -> anyhow::Result<()> {
        // With room for the one answer, which then takes no memory.
        let (reply, replied) = bounded_reserved(rt, rt.alloc(), 1)?;
        let request = Request {
            number: self.asked.len(),
            work: wish.work,
            reply,
        };
        self.asked.push(Asked {
            name: wish.name,
            replied,
        })?;
        let deadline = Reverse(wish.deadline);
        match self.requests.try_send_evicting(request, deadline) {
            Ok(None) => {}
            Ok(Some((shed, _))) | Err(TrySendError::Full((shed, _))) => {
                shed.reply.try_send(Answer::Busy, ())?;
            }
            Err(TrySendError::Closed(_)) => bail!("the queue is closed"),
            Err(TrySendError::Memory(_)) => bail!("no memory for a request"),
        }
        Ok(())
    }

    /// Takes out the last request of this name, if it still waits.
    pub fn cancel(&self, name: &str) -> anyhow::Result<()> {
        let Some(number) = self
            .asked
            .iter()
            .rposition(|asked| asked.name.as_str() == name)
        else {
            bail!("nobody has asked for {name}");
        };
        if let Some((request, _)) = self.queue.take_where(|request, _| request.number == number) {
            request.reply.try_send(Answer::Cancelled, ())?;
        }
        Ok(())
    }

    /// Gives the server its turn, where requests wait, and waits for the answers to all that was
    /// asked since the last one, in the order in which it was. The patience is of the real clock.
    pub fn answers(&mut self, rt: &R, patience: Duration) -> anyhow::Result<Vec<(String, Answer)>>
    where
        R: Clock,
    {
        // The server takes no more than these, however soon the next ones are asked.
        let waiting = self.requests.len();
        if 0 < waiting {
            self.turns
                .try_send(waiting, ())
                .context("the server has gone")?;
        }
        let Some(limit) = Instant::now(rt)?.checked_add(patience) else {
            bail!("a limit past the end of the clock");
        };
        let mut answers = Vec::new(rt.alloc());
        for asked in self.asked.drain(..) {
            let (answer, ()) = asked
                .replied
                .recv_deadline(limit)
                .context(format_args!("no answer to {}", asked.name))?;
            answers.push((asked.name, answer))?;
        }
        Ok(answers)
    }
}

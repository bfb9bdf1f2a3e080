//! A server whose requests carry the means of their answer, and what its clients see if it fails.
//!
//! You need this where each request has an answer. A request holds the sender of a channel of its
//! own: where that is dropped without an answer, the client's receive tells Closed. But what is
//! pending stays in memory as long as there is any handle, also once the server has gone, and with
//! it the senders for which clients wait. The receiver's guard lets it go: without it the last
//! client here would wait for ever.

use async_priority_channel::{Receiver, Sender, bounded_reserved, unbounded};
use std::alloc::AllocGlobal;
use std::sync::Wait;
use std::thread::{self, Threads};

#[derive(Drop)]
struct Request<R: Wait + Clone> {
    divisor: u64,
    reply: Sender<u64, (), R>,
}

fn serve<R: Wait + Clone>(requests: &Receiver<Request<R>, u64, R>) -> anyhow::Result<()> {
    let _guard = requests.close_on_drop();
    for (request, _) in requests {
        let Some(answer) = 100u64.checked_div(request.divisor) else {
            anyhow::bail!("the server has failed");
        };
        // A client that has gone wants no answer.
        let _ = request.reply.try_send(answer, ());
    }
    Ok(())
}

pub fn run<R>(rt: R) -> anyhow::Result<()>
where
    R: Threads + Wait + Copy + Print + AllocGlobal + Send + 'static,
{
    let (tx, requests) = unbounded(&rt, rt.alloc())?;
    let mut replies = Vec::new(rt.alloc());
    for (divisor, urgency) in [(7, 3), (0, 2), (9, 1)] {
        // With memory for the one answer.
        let (reply, answer) = bounded_reserved(&rt, rt.alloc(), 1)?;
        tx.try_send(Request { divisor, reply }, urgency)?;
        replies.push((divisor, answer))?;
    }
    let server = thread::spawn(&rt, move || serve(&requests))?;
    for (divisor, answer) in replies {
        match answer.recv_blocking() {
            Ok((quotient, ())) => println!(rt; "replies: 100 / {divisor} = {quotient}")?,
            Err(fault) => println!(rt; "replies: 100 / {divisor}: {fault}")?,
        }
    }
    if let Err(error) = server.join(&rt) {
        println!(rt; "replies: {error}")?;
    }
    Ok(())
}

//! The loop: a fold over two streams, which takes turns between them. It is one task, since to
//! start a task takes longer than to receive.
use crate::board::Board;
use crate::event::{Event, Rank, Signal};
use async_priority_channel::Receiver;
use futures::executor::block_on;
use futures::{StreamExt, TryStreamExt, future, stream};
use std::alloc::AllocGlobal;
use std::io::{self, Write};
use std::random::RandomSource;
use std::sync::Wait;

/// Handles what comes, until both channels have ended or a signal cannot be handled.
pub fn run<R, W>(
    rt: &R,
    events: &Receiver<Event, Rank, R>,
    ticks: &Receiver<(), (), R>,
    board: Board<W>,
) -> io::Result<Board<W>>
where
    R: Wait + Clone + RandomSource + AllocGlobal,
    W: Write + Drop,
{
    let signals = stream::select(
        events.stream().map(|(event, _)| Ok(Signal::Event(event))),
        ticks.stream().map(|_| Ok(Signal::Tick)),
    );
    let end = signals.try_fold(board, |mut board, signal| {
        future::ready(match board.handle(signal) {
            Ok(()) => Ok(board),
            Err(fault) => Err(fault),
        })
    });
    block_on(rt, end)?
}

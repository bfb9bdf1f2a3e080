//! Futures and streams by their names, and the tasks that poll them.
use super::handles::Handle;
use super::words::{Bulk, Host, Text, letter, number, pairs, told};
use async_priority_channel::{
    Closed, IntoStream, LeaseNext, Recv, RecvMany, RecvStream, Reserve, Send, Sending, Sendv,
};
use futures::StreamExt;
use futures::task::Poll;
use futures::test::MockTask;
use std::alloc::{Allocator, Global};
use std::fmt::Debug;

/// What lives on after the line that made it.
#[derive(Drop)]
pub enum Lasting<'a, R: Host, A: Allocator + Copy> {
    Send(Send<'a, char, u64, R, A>),
    Sendv(Sendv<'a, char, u64, Bulk, R, A>),
    Reserve(Reserve<'a, char, u64, R, A>),
    Recv(Recv<'a, char, u64, R, A>),
    Lease(LeaseNext<'a, char, u64, R, A>),
    RecvMany(RecvMany<'a, char, u64, Global, R, A>),
    Stream(RecvStream<'a, char, u64, R, A>),
    IntoStream(IntoStream<char, u64, R, A>),
    Closed(Closed<'a, Sending, char, u64, R, A>),
}

pub fn begin<'a, R: Host, A: Allocator + Copy>(
    rt: &R,
    handle: &'a Handle<R, A>,
    batch: &mut Option<&'a mut Vec<(char, u64)>>,
    call: &[Text],
) -> Lasting<'a, R, A> {
    match (handle, call) {
        (Handle::Sender(tx), ["send", msg, priority]) => {
            Lasting::Send(tx.send(letter(rt, *msg), number(rt, *priority)))
        }
        (Handle::Sender(tx), ["sendv", msgs @ ..]) => Lasting::Sendv(tx.sendv(pairs(rt, msgs))),
        (Handle::Sender(tx), ["reserve"]) => Lasting::Reserve(tx.reserve()),
        (Handle::Sender(tx), ["closed"]) => Lasting::Closed(tx.closed()),
        (Handle::Receiver(rx), ["recv"]) => Lasting::Recv(rx.recv()),
        (Handle::Receiver(rx), ["lease"]) => Lasting::Lease(rx.lease()),
        (Handle::Receiver(rx), ["recv_many", limit]) => {
            let batch = batch.take().expect(rt, "the first such call");
            Lasting::RecvMany(rx.recv_many(batch, number(rt, *limit) as usize))
        }
        (Handle::Receiver(rx), ["stream"]) => Lasting::Stream(rx.stream()),
        _ => panic!(rt; "no future of {call:?}"),
    }
}

fn told_polled<T: Debug + Drop>(rt: &impl Host, polled: Poll<T>) -> String {
    match polled {
        Poll::Ready(answer) => told(rt, answer),
        Poll::Pending => told(rt, Poll::<()>::Pending),
    }
}

// Tells of a refusal how many came back.
fn poll_sendv<R: Host, A: Allocator + Copy>(
    rt: &R,
    sendv: &mut Sendv<'_, char, u64, Bulk, R, A>,
    task: &MockTask,
) -> String {
    let polled = task.poll(sendv);
    told_polled(
        rt,
        polled.map(|sent| sent.map_err(|error| error.into_inner().count())),
    )
}

fn poll_stream<R: Host, A: Allocator + Copy>(
    rt: &R,
    stream: &mut RecvStream<'_, char, u64, R, A>,
    task: &MockTask,
) -> String {
    told_polled(rt, task.poll(&mut stream.next()))
}

fn poll_into_stream<R: Host, A: Allocator + Copy>(
    rt: &R,
    stream: &mut IntoStream<char, u64, R, A>,
    task: &MockTask,
) -> String {
    told_polled(rt, task.poll(&mut stream.next()))
}

pub fn poll<R: Host, A: Allocator + Copy>(
    rt: &R,
    lasting: &mut Lasting<'_, R, A>,
    task: &MockTask,
) -> String {
    match lasting {
        Lasting::Send(send) => told_polled(rt, task.poll(send)),
        Lasting::Sendv(sendv) => poll_sendv(rt, sendv, task),
        // A permit or a lease goes as it is told.
        Lasting::Reserve(reserve) => told_polled(rt, task.poll(reserve)),
        Lasting::Lease(lease) => told_polled(rt, task.poll(lease)),
        Lasting::Recv(recv) => told_polled(rt, task.poll(recv)),
        Lasting::RecvMany(recv_many) => told_polled(rt, task.poll(recv_many)),
        Lasting::Stream(stream) => poll_stream(rt, stream, task),
        Lasting::IntoStream(stream) => poll_into_stream(rt, stream, task),
        Lasting::Closed(closed) => told_polled(rt, task.poll(closed)),
    }
}

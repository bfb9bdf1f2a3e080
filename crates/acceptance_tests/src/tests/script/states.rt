//! The states of futures by their names, polled on the core.
use super::answers::{
    handed, pending, ready_received, ready_sent, ready_sent_many, text, told, told_pair,
};
use super::ledger::Ledger;
use super::on_core::Core;
use super::words::{Bulk, Message, Text, no_call, waker};
use async_priority_channel::waiting::{RecvState, SendState, SendvState};
use futures::task::Poll;
use std::alloc::{AllocGlobal, Allocator};
use std::process::Abort;

#[derive(Drop)]
pub enum State<T: Message> {
    Send(SendState<T, u64>),
    Sendv(SendvState<Bulk<T>>),
    Recv(RecvState),
}

impl<T: Message> State<T> {
    pub fn new<R: Abort + AllocGlobal>(rt: &R, ledger: &mut Ledger<T>, call: &[Text]) -> Self {
        match call {
            ["send", word] => {
                let (msg, priority) = ledger.submit(rt, *word);
                State::Send(SendState::new(msg, priority))
            }
            ["sendv", words @ ..] => State::Sendv(SendvState::new(ledger.submit_many(rt, words))),
            ["recv"] => State::Recv(RecvState::new()),
            _ => no_call(rt, call),
        }
    }

    fn ticket(&self) -> Option<u64> {
        match self {
            State::Send(send) => send.ticket(),
            State::Sendv(sendv) => sendv.ticket(),
            State::Recv(recv) => recv.ticket(),
        }
    }

    fn is_done(&self) -> bool {
        match self {
            State::Send(send) => send.is_done(),
            State::Sendv(sendv) => sendv.is_done(),
            State::Recv(recv) => recv.is_done(),
        }
    }

    pub fn make<R: Abort + AllocGlobal, A: Allocator + Copy>(
        &mut self,
        rt: &R,
        ledger: &mut Ledger<T>,
        core: &mut Core<T, A>,
        call: &[Text],
    ) -> String {
        match call {
            ["poll", word] => self.poll(rt, ledger, core, waker(rt, *word)),
            ["give_up"] => self.give_up(rt, ledger, core),
            ["ticket"] => told(rt, self.ticket()),
            ["is_done"] => told(rt, self.is_done()),
            _ => no_call(rt, call),
        }
    }

    fn poll<R: Abort + AllocGlobal, A: Allocator + Copy>(
        &mut self,
        rt: &R,
        ledger: &mut Ledger<T>,
        core: &mut Core<T, A>,
        waker: u64,
    ) -> String {
        match self {
            State::Send(send) => poll_send(rt, ledger, core, send, waker),
            State::Sendv(sendv) => poll_sendv(rt, ledger, core, sendv, waker),
            State::Recv(recv) => poll_recv(rt, ledger, core, recv, waker),
        }
    }

    fn give_up<R: Abort + AllocGlobal, A: Allocator + Copy>(
        &mut self,
        rt: &R,
        ledger: &mut Ledger<T>,
        core: &mut Core<T, A>,
    ) -> String {
        let kept = match self {
            State::Send(send) => {
                let Some(pair) = send.give_up_on(core) else {
                    return text(rt, "None");
                };
                told_pair(rt, ledger, pair)
            }
            State::Sendv(sendv) => {
                let Some(rest) = sendv.give_up_on(core) else {
                    return text(rt, "None");
                };
                told(rt, ledger.keep(rt, rest))
            }
            State::Recv(recv) => {
                let Some(()) = recv.give_up_on(core) else {
                    return text(rt, "None");
                };
                text(rt, "()")
            }
        };
        format!(in rt.alloc(); "Some({kept})").expect(rt, "memory")
    }
}

fn poll_send<R: Abort + AllocGlobal, T: Message, A: Allocator + Copy>(
    rt: &R,
    ledger: &mut Ledger<T>,
    core: &mut Core<T, A>,
    send: &mut SendState<T, u64>,
    waker: u64,
) -> String {
    let (polled, wakes) = send.poll_on(core, &waker);
    let told = match polled {
        Poll::Ready(sent) => ready_sent(rt, ledger, sent),
        Poll::Pending => pending(rt, send.ticket()),
    };
    handed(rt, told, wakes)
}

fn poll_sendv<R: Abort + AllocGlobal, T: Message, A: Allocator + Copy>(
    rt: &R,
    ledger: &mut Ledger<T>,
    core: &mut Core<T, A>,
    sendv: &mut SendvState<Bulk<T>>,
    waker: u64,
) -> String {
    let (polled, wakes) = sendv.poll_on(core, &waker);
    let told = match polled {
        Poll::Ready(sent) => ready_sent_many(rt, ledger, sent),
        Poll::Pending => pending(rt, sendv.ticket()),
    };
    handed(rt, told, wakes)
}

fn poll_recv<R: Abort + AllocGlobal, T: Message, A: Allocator + Copy>(
    rt: &R,
    ledger: &mut Ledger<T>,
    core: &mut Core<T, A>,
    recv: &mut RecvState,
    waker: u64,
) -> String {
    let (polled, wakes) = recv.poll_on(core, &waker);
    let told = match polled {
        Poll::Ready(received) => ready_received(rt, ledger, received),
        Poll::Pending => pending(rt, recv.ticket()),
    };
    handed(rt, told, wakes)
}

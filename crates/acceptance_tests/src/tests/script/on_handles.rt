//! Scripts on the handles of a channel.
use super::answers::{
    ready_sent, ready_sent_many, text, told, told_received, told_sent, told_sent_many,
};
use super::ledger::Ledger;
use super::words::{Bulk, MOST_RESERVED, Message, Text, capacity, no_call};
use crate::tests::{Host, expect_equal, wait_for};
use async_priority_channel::waiting::{Recv, Send, Sendv};
use async_priority_channel::{
    End, Ends, Receiver, Role, Sender, TrySendError, bounded, bounded_reserved, unbounded,
};
use futures::future::{Future, poll_immediate};
use std::alloc::{AllocError, AllocGlobal, Allocator};
use std::fmt::Debug;
use std::process::Abort;
use std::sync::Wait;

/// How `send` and `recv` are made.
#[derive(Clone, Copy)]
pub enum Way {
    AtOnce,
    AsFuture,
}

type Handle<S, T, W, A> = End<S, T, u64, W, A>;

type Tx<T, W, A> = Sender<T, u64, W, A>;

type Rx<T, W, A> = Receiver<T, u64, W, A>;

/// The handles of one channel, of which the last of either kind makes the calls.
#[derive(Drop)]
pub struct HandleStage<T: Message, W: Wait + Clone + Drop, A: Allocator + Copy> {
    permission: W,
    alloc: A,
    way: Way,
    senders: Vec<Tx<T, W, A>>,
    receivers: Vec<Rx<T, W, A>>,
    ledger: Ledger<T>,
}

impl<T: Message, W: Wait + Clone + Drop, A: Allocator + Copy> HandleStage<T, W, A> {
    /// Without a channel as yet.
    pub fn new<R: AllocGlobal>(rt: &R, permission: W, alloc: A, way: Way) -> Self {
        HandleStage {
            permission,
            alloc,
            way,
            senders: Vec::new(rt.alloc()),
            receivers: Vec::new(rt.alloc()),
            ledger: Ledger::new(rt),
        }
    }

    pub fn make<R: Host>(&mut self, rt: &R, call: &[Text]) -> String {
        match call {
            ["unbounded" | "bounded" | "bounded_reserved", ..] => self.open(rt, call),
            ["tx", "is_printed"] => is_printed(rt, last(rt, &self.senders)),
            ["rx", "is_printed"] => is_printed(rt, last(rt, &self.receivers)),
            ["tx", call] => ask_either(rt, last(rt, &self.senders), *call),
            ["rx", call] => ask_either(rt, last(rt, &self.receivers), *call),
            ["recv"] if matches!(self.way, Way::AsFuture) => {
                receive_by_future(rt, &mut self.ledger, last(rt, &self.receivers))
            }
            ["recv" | "try_recv"] => receive(rt, &mut self.ledger, last(rt, &self.receivers)),
            [_, _, ..] | ["try_sendv"] => {
                let way = self.way;
                send(rt, &mut self.ledger, last(rt, &self.senders), call, way)
            }
            [call] => self.change_handles(rt, *call),
            [] => text(rt, ""),
        }
    }

    fn change_handles<R: Abort + AllocGlobal>(&mut self, rt: &R, call: Text) -> String {
        match call {
            "clone_sender" => clone_last(rt, &mut self.senders),
            "clone_receiver" => clone_last(rt, &mut self.receivers),
            "drop_sender" => drop_last(rt, &mut self.senders),
            "drop_receiver" => drop_last(rt, &mut self.receivers),
            _ => no_call(rt, &[call]),
        }
    }

    // Makes a channel in place of the one before.
    fn open<R: Abort + AllocGlobal>(&mut self, rt: &R, call: &[Text]) -> String {
        let made: Result<Ends<T, u64, W, A>, AllocError> = match call {
            ["bounded", word] => {
                bounded(&self.permission, self.alloc, capacity(rt, *word, u64::MAX))
            }
            ["bounded_reserved", word] => {
                let capacity = capacity(rt, *word, MOST_RESERVED);
                bounded_reserved(&self.permission, self.alloc, capacity)
            }
            ["unbounded"] => unbounded(&self.permission, self.alloc),
            _ => return no_call(rt, call),
        };
        match made {
            Ok((tx, rx)) => {
                self.senders.clear();
                self.receivers.clear();
                self.senders.push(tx).expect(rt, "memory");
                self.receivers.push(rx).expect(rt, "memory");
                text(rt, "")
            }
            Err(error) => told(rt, error),
        }
    }

    /// Receives what is pending, so that each pair has come out or back. The channel counts the
    /// handles that there are.
    pub fn settle<R: Abort + AllocGlobal>(&mut self, rt: &R) {
        if let Some(rx) = self.receivers.last() {
            for _ in 0..rx.len() {
                receive(rt, &mut self.ledger, rx);
            }
            let counts = (rx.sender_count(), rx.receiver_count());
            expect_equal(rt, counts, (self.senders.len(), self.receivers.len()));
        }
        self.ledger.expect_settled(rt);
    }
}

fn last<'a, H>(rt: &impl Abort, handles: &'a Vec<H>) -> &'a H {
    handles.last().expect(rt, "a handle")
}

fn clone_last<S: Role, R: Abort + AllocGlobal, T: Message, W: Wait + Clone, A: Allocator + Copy>(
    rt: &R,
    handles: &mut Vec<Handle<S, T, W, A>>,
) -> String {
    match last(rt, handles).clone() {
        Ok(other) => {
            handles.push(other).expect(rt, "memory");
            told(rt, true)
        }
        Err(error) => told(rt, error),
    }
}

fn drop_last<R: Abort + AllocGlobal, H: Drop>(rt: &R, handles: &mut Vec<H>) -> String {
    drop(handles.pop().expect(rt, "a handle"));
    text(rt, "")
}

fn receive<R: Abort + AllocGlobal, T: Message, W: Wait + Clone, A: Allocator + Copy>(
    rt: &R,
    ledger: &mut Ledger<T>,
    rx: &Rx<T, W, A>,
) -> String {
    told_received(rt, ledger, rx.try_recv())
}

fn receive_by_future<R: Host, T: Message, W: Wait + Clone, A: Allocator + Copy>(
    rt: &R,
    ledger: &mut Ledger<T>,
    rx: &Rx<T, W, A>,
) -> String {
    let future: Recv<'_, T, u64, W, A> = rx.recv();
    told_received(rt, ledger, wait_for(rt, future))
}

fn send<R: Host, T: Message, W: Wait + Clone, A: Allocator + Copy>(
    rt: &R,
    ledger: &mut Ledger<T>,
    tx: &Tx<T, W, A>,
    call: &[Text],
    way: Way,
) -> String {
    match call {
        ["send", word] if matches!(way, Way::AsFuture) => { send_by_future(rt, ledger, tx, *word) }
        ["send" | "try_send", word] => {
            let (msg, priority) = ledger.submit(rt, *word);
            told_sent(rt, ledger, tx.try_send(msg, priority))
        }
        ["try_sendv", words @ ..] => {
            let sent = tx.try_sendv(ledger.submit_many(rt, words));
            told_sent_many(rt, ledger, sent)
        }
        ["poll_once_and_drop", "send", word] => poll_send_once(rt, ledger, tx, *word),
        ["poll_once_and_drop", "sendv", words @ ..] => poll_sendv_once(rt, ledger, tx, words),
        _ => no_call(rt, call),
    }
}

fn send_by_future<R: Host, T: Message, W: Wait + Clone, A: Allocator + Copy>(
    rt: &R,
    ledger: &mut Ledger<T>,
    tx: &Tx<T, W, A>,
    word: Text,
) -> String {
    let (msg, priority) = ledger.submit(rt, word);
    let future: Send<'_, T, u64, W, A> = tx.send(msg, priority);
    told_sent(rt, ledger, wait_for(rt, future).map_err(TrySendError::from))
}

fn poll_send_once<R: Host, T: Message, W: Wait + Clone, A: Allocator + Copy>(
    rt: &R,
    ledger: &mut Ledger<T>,
    tx: &Tx<T, W, A>,
    word: Text,
) -> String {
    let (msg, priority) = ledger.submit(rt, word);
    let future: Send<'_, T, u64, W, A> = tx.send(msg, priority);
    match poll_once(rt, future) {
        Some(sent) => ready_sent(rt, ledger, sent),
        None => text(rt, "Pending"),
    }
}

// None where it is pending. Then it is dropped.
fn poll_once<F: Future>(rt: &impl Host, future: F) -> Option<F::Output>
    requires { F.can_poll future }
{
    wait_for(rt, poll_immediate(future))
}

fn poll_sendv_once<R: Host, T: Message, W: Wait + Clone, A: Allocator + Copy>(
    rt: &R,
    ledger: &mut Ledger<T>,
    tx: &Tx<T, W, A>,
    words: &[Text],
) -> String {
    let msgs = ledger.submit_many(rt, words);
    let future: Sendv<'_, T, u64, Bulk<T>, W, A> = tx.sendv(msgs);
    match poll_once(rt, future) {
        Some(sent) => ready_sent_many(rt, ledger, sent),
        None => text(rt, "Pending"),
    }
}

fn is_printed<R: Abort + AllocGlobal, H: Debug>(rt: &R, handle: &H) -> String {
    told(rt, !told(rt, handle).is_empty())
}

// What a sender and a receiver have both.
fn ask_either<S: Role, R: Abort + AllocGlobal, T: Message, W: Wait + Clone, A: Allocator + Copy>(
    rt: &R,
    end: &Handle<S, T, W, A>,
    call: Text,
) -> String {
    match call {
        "len" => told(rt, end.len()),
        "capacity" => told(rt, end.capacity()),
        "sender_count" => told(rt, end.sender_count()),
        "receiver_count" => told(rt, end.receiver_count()),
        _ => told(rt, truth_of(rt, end, call)),
    }
}

fn truth_of<S: Role, T: Message, W: Wait + Clone, A: Allocator + Copy>(
    rt: &impl Abort,
    end: &Handle<S, T, W, A>,
    call: Text,
) -> bool {
    match call {
        "close" => end.close(),
        "is_closed" => end.is_closed(),
        "is_empty" => end.is_empty(),
        "is_full" => end.is_full(),
        _ => no_call(rt, &[call]),
    }
}

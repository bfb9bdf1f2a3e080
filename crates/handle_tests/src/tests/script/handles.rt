//! What a script asks of a handle.
use super::words::{Host, Text, letter, number, told};
use async_priority_channel::{End, Receiver, Role, Sender};
use std::alloc::Allocator;

#[derive(Drop)]
pub enum Handle<R: Host, A: Allocator + Copy> {
    Sender(Sender<char, u64, R, A>),
    Receiver(Receiver<char, u64, R, A>),
}

pub fn clone<R: Host, A: Allocator + Copy>(rt: &R, handle: &Handle<R, A>) -> Handle<R, A> {
    match handle {
        Handle::Sender(tx) => Handle::Sender(tx.clone().expect(rt, "a sender")),
        Handle::Receiver(rx) => Handle::Receiver(rx.clone().expect(rt, "a receiver")),
    }
}

pub fn ask<R: Host, A: Allocator + Copy>(rt: &R, handle: &Handle<R, A>, call: &[Text]) -> String {
    match (handle, call) {
        (Handle::Sender(tx), ["try_send", msg, priority]) => {
            told(rt, tx.try_send(letter(rt, *msg), number(rt, *priority)))
        }
        (Handle::Receiver(rx), ["try_recv"]) => told(rt, rx.try_recv()),
        (Handle::Sender(tx), _) => ask_either(rt, tx, call),
        (Handle::Receiver(rx), _) => ask_either(rt, rx, call),
    }
}

// What a sender and a receiver have both.
fn ask_either<S: Role, R: Host, A: Allocator + Copy>(
    rt: &R,
    end: &End<S, char, u64, R, A>,
    call: &[Text],
) -> String {
    match call {
        ["close"] => told(rt, end.close()),
        ["looks"] => {
            let closed = if end.is_closed() { " closed" } else { "" };
            let (senders, receivers) = (end.sender_count(), end.receiver_count());
            format!(in rt.alloc(); "{} of {senders}+{receivers}{closed}", end.len()).expect(
                rt, "memory",
            )
        }
        _ => panic!(rt; "a handle has no call {call:?}"),
    }
}

//! Scripts on the core, where a waker is a number.
use super::answers::{
    handed, pending, ready_received, ready_sent, ready_sent_many, text, told, told_received,
    told_sent, told_sent_many,
};
use super::ledger::Ledger;
use super::states::State;
use super::words::{MOST_RESERVED, Message, Text, capacity, no_call, number, ticket, waker};
use priority_channel_core::channel::{CorePoll, PriorityQueueChannel};
use std::alloc::{AllocError, AllocGlobal, Allocator};
use std::process::Abort;

pub type Core<T, A> = PriorityQueueChannel<T, u64, u64, A>;

/// A core, and the states that are polled on it.
#[derive(Drop)]
pub struct CoreStage<T: Message, A: Allocator + Copy> {
    alloc: A,
    core: Core<T, A>,
    states: Vec<(Text, State<T>)>,
    ledger: Ledger<T>,
}

impl<T: Message, A: Allocator + Copy> CoreStage<T, A> {
    pub fn new<R: AllocGlobal>(rt: &R, alloc: A) -> Self {
        CoreStage {
            alloc,
            core: Core::unbounded(alloc),
            states: Vec::new(rt.alloc()),
            ledger: Ledger::new(rt),
        }
    }

    pub fn make<R: Abort + AllocGlobal>(&mut self, rt: &R, call: &[Text]) -> String {
        match call {
            ["unbounded" | "bounded" | "bounded_reserved", ..] => self.open(rt, call),
            [name, "is", call @ ..] => self.name_state(rt, *name, call),
            [name, arguments @ ..] => self.make_by_name(rt, *name, arguments, call),
            [] => text(rt, ""),
        }
    }

    // Makes a channel in place of the one before.
    fn open<R: Abort + AllocGlobal>(&mut self, rt: &R, call: &[Text]) -> String {
        let made: Result<_, AllocError> = match call {
            ["bounded", word] => Ok(Core::bounded(self.alloc, capacity(rt, *word, u64::MAX))),
            ["bounded_reserved", word] => {
                Core::bounded_reserved(self.alloc, capacity(rt, *word, MOST_RESERVED))
            }
            ["unbounded"] => Ok(Core::unbounded(self.alloc)),
            _ => return no_call(rt, call),
        };
        match made {
            Ok(core) => {
                self.core = core;
                text(rt, "")
            }
            Err(error) => told(rt, error),
        }
    }

    fn name_state<R: Abort + AllocGlobal>(&mut self, rt: &R, name: Text, call: &[Text]) -> String {
        let state = State::new(rt, &mut self.ledger, call);
        self.states.push((name, state)).expect(rt, "memory");
        text(rt, "")
    }

    // A call of the state of this name or, if there is none, of the core.
    fn make_by_name<R: Abort + AllocGlobal>(
        &mut self,
        rt: &R,
        name: Text,
        arguments: &[Text],
        call: &[Text],
    ) -> String {
        for (other, state) in self.states.iter_mut() {
            if *other == name {
                return state.make(rt, &mut self.ledger, &mut self.core, arguments);
            }
        }
        ask(rt, &mut self.ledger, &mut self.core, call)
    }

    /// Receives what is pending, so that each pair has come out or back.
    pub fn settle<R: Abort + AllocGlobal>(&mut self, rt: &R) {
        for _ in 0..self.core.len() {
            receive(rt, &mut self.ledger, &mut self.core);
        }
        self.ledger.expect_settled(rt);
    }
}

fn ask<R: Abort + AllocGlobal, T: Message, A: Allocator + Copy>(
    rt: &R,
    ledger: &mut Ledger<T>,
    core: &mut Core<T, A>,
    call: &[Text],
) -> String {
    match call {
        ["send" | "try_send", word] => send(rt, ledger, core, *word),
        ["try_sendv", words @ ..] => send_many(rt, ledger, core, words),
        ["recv" | "try_recv"] => receive(rt, ledger, core),
        ["poll_send", word, given, by] => poll_send(rt, ledger, core, *word, *given, *by),
        ["poll_sendv", given, by, words @ ..] => {
            poll_sendv(rt, ledger, core, words, *given, *by)
        }
        ["poll_recv", given, by] => poll_recv(rt, ledger, core, *given, *by),
        _ => ask_itself(rt, core, call),
    }
}

fn send<R: Abort + AllocGlobal, T: Message, A: Allocator + Copy>(
    rt: &R,
    ledger: &mut Ledger<T>,
    core: &mut Core<T, A>,
    word: Text,
) -> String {
    let (msg, priority) = ledger.submit(rt, word);
    let (sent, wakes) = core.try_send(msg, priority);
    handed(rt, told_sent(rt, ledger, sent), wakes)
}

fn send_many<R: Abort + AllocGlobal, T: Message, A: Allocator + Copy>(
    rt: &R,
    ledger: &mut Ledger<T>,
    core: &mut Core<T, A>,
    words: &[Text],
) -> String {
    let (sent, wakes) = core.try_sendv(ledger.submit_many(rt, words));
    handed(rt, told_sent_many(rt, ledger, sent), wakes)
}

fn receive<R: Abort + AllocGlobal, T: Message, A: Allocator + Copy>(
    rt: &R,
    ledger: &mut Ledger<T>,
    core: &mut Core<T, A>,
) -> String {
    let (received, wakes) = core.try_recv();
    handed(rt, told_received(rt, ledger, received), wakes)
}

// The core has no handles, so it is asked itself.
fn ask_itself<R: Abort + AllocGlobal, T: Message, A: Allocator + Copy>(
    rt: &R,
    core: &mut Core<T, A>,
    call: &[Text],
) -> String {
    match call {
        ["close"] | ["tx" | "rx", "close"] => {
            let (was_open, wakes) = core.close();
            handed(rt, told(rt, was_open), wakes)
        }
        ["drop_sender"] if core.sender_count() > 0 => {
            handed(rt, text(rt, ""), core.drop_sender())
        }
        ["drop_receiver"] if core.receiver_count() > 0 => {
            handed(rt, text(rt, ""), core.drop_receiver())
        }
        ["give_up", given] => {
            core.give_up(number(rt, *given));
            text(rt, "")
        }
        ["tx" | "rx", call] | [call] => look_at(rt, core, *call),
        _ => no_call(rt, call),
    }
}

fn look_at<R: Abort + AllocGlobal, T: Message, A: Allocator + Copy>(
    rt: &R,
    core: &mut Core<T, A>,
    call: Text,
) -> String {
    match call {
        "len" => told(rt, core.len()),
        "capacity" => told(rt, core.capacity()),
        "sender_count" => told(rt, core.sender_count()),
        "receiver_count" => told(rt, core.receiver_count()),
        _ => told(rt, truth_of(rt, core, call)),
    }
}

fn truth_of<T: Message, A: Allocator + Copy>(
    rt: &impl Abort,
    core: &mut Core<T, A>,
    call: Text,
) -> bool {
    match call {
        "clone_sender" => core.clone_sender(),
        "clone_receiver" => core.clone_receiver(),
        "is_closed" => core.is_closed(),
        "is_empty" => core.is_empty(),
        "is_full" => core.is_full(),
        _ => no_call(rt, &[call]),
    }
}

fn poll_send<R: Abort + AllocGlobal, T: Message, A: Allocator + Copy>(
    rt: &R,
    ledger: &mut Ledger<T>,
    core: &mut Core<T, A>,
    word: Text,
    given: Text,
    by: Text,
) -> String {
    let (msg, priority) = ledger.submit(rt, word);
    let (polled, wakes) = core.poll_send(msg, priority, ticket(rt, given), &waker(rt, by));
    let told = match polled {
        CorePoll::Ready(sent) => ready_sent(rt, ledger, sent),
        CorePoll::Pending(pair, ticket) => {
            ledger.end(rt, pair);
            pending(rt, Some(ticket))
        }
    };
    handed(rt, told, wakes)
}

fn poll_sendv<R: Abort + AllocGlobal, T: Message, A: Allocator + Copy>(
    rt: &R,
    ledger: &mut Ledger<T>,
    core: &mut Core<T, A>,
    words: &[Text],
    given: Text,
    by: Text,
) -> String {
    let msgs = ledger.submit_many(rt, words);
    let (polled, wakes) = core.poll_sendv(msgs, ticket(rt, given), &waker(rt, by));
    let told = match polled {
        CorePoll::Ready(sent) => ready_sent_many(rt, ledger, sent),
        CorePoll::Pending(rest, ticket) => {
            ledger.keep(rt, rest);
            pending(rt, Some(ticket))
        }
    };
    handed(rt, told, wakes)
}

fn poll_recv<R: Abort + AllocGlobal, T: Message, A: Allocator + Copy>(
    rt: &R,
    ledger: &mut Ledger<T>,
    core: &mut Core<T, A>,
    given: Text,
    by: Text,
) -> String {
    let (polled, wakes) = core.poll_recv(ticket(rt, given), &waker(rt, by));
    let told = match polled {
        CorePoll::Ready(received) => ready_received(rt, ledger, received),
        CorePoll::Pending((), ticket) => pending(rt, Some(ticket)),
    };
    handed(rt, told, wakes)
}

//! Rounds of threads that send and receive by drawn calls over a drawn channel, and hold places of
//! it now and then. Each message comes once or comes back, those of one sender and one priority
//! come in their order, what is held counts, and each round ends.
//!
//! The test runs a few rounds, and `tools/soak` runs it for minutes, from another seed.
use crate::tests::dice::Dice;
use crate::tests::watch::under_load;
use crate::tests::{Host, Threaded, expect_equal_at, make_all};
use async_priority_channel::{
    End, Ends, Receiver, Role, Sender, bounded, bounded_reserved, unbounded,
};
use holds::{hold_messages, hold_places};
use named_calls::{
    ALL, Call, Input, Outcome, Pair, Pairs, Reply, Side, Way, is_choosy, receive, send,
};
use refusing::Refusing;
use std::alloc::{AllocError, AllocGlobal, Allocator};
use std::env;
use std::thread::{self, JoinHandle};
use std::time::{Duration, Instant};

mod holds;

const PRIORITIES: u64 = 8;

// How many messages a bulk send or a batch has at most.
const MANY: u64 = 6;

// How many requests for memory a batch makes before one is refused, if it makes so many.
const REQUESTS: u64 = 6;

// How many messages there is room for at most.
const ROOM: u64 = 12;

// One turn of so many holds places in place of a call.
const HOLDS: u64 = 6;

const ROUNDS: u64 = 24;

/// What a round is told by.
#[derive(Clone, Copy, Debug)]
struct Round {
    seed: u64,
    /// How many messages each sender has.
    each: u64,
    senders: u64,
    receivers: u64,
    /// Where the first sender closes the channel: how many messages it has settled then.
    close_at: Option<u64>,
    /// Whether that close is one for when all is done.
    is_late: bool,
    /// Whether priorities are changed and messages are put back, so that no order can be told.
    changes: bool,
    /// Whether all calls are such that wait without a limit, so that no other helps out where one
    /// is not woken.
    only_waits: bool,
}

impl Round {
    fn draw(dice: &mut Dice, seed: u64) -> Self {
        Round {
            seed,
            each: dice.between(100, 500),
            senders: dice.between(1, 5),
            receivers: dice.between(1, 5),
            close_at: (dice.below(2) == 0).then_some(dice.below(100)),
            is_late: dice.below(2) == 0,
            changes: dice.below(4) == 0,
            only_waits: dice.below(2) == 0,
        }
    }

    fn priority(self, msg: u64) -> u64 {
        msg % PRIORITIES
    }

    fn sender(self, msg: u64) -> u64 {
        msg.checked_div(self.each).unwrap_or(0)
    }

    fn count(self) -> u64 {
        self.senders.saturating_mul(self.each)
    }

    // None where its sender has not come to it.
    fn fate(self, logs: &[Log], msg: u64) -> Option<Fate> {
        let log = logs.get(self.sender(msg) as usize)?;
        let place = msg.checked_rem(self.each).unwrap_or(0);
        log.fates.get(place as usize).copied()
    }

    // A call that is made by a handle of that side. A wait for the close has to end without it.
    fn draws(self, side: Side, call: Call) -> bool {
        let is_drawn = match call {
            Call::Closed(..) if self.only_waits => false,
            // Nobody else may be there to take what is not for it.
            _ if is_choosy(call) && matches!(call.way(), Way::Blocking | Way::Future) => false,
            _ if self.only_waits => matches!(call.way(), Way::Blocking | Way::Future),
            Call::Closed(_, way) => matches!(way, Way::Poll | Way::Timeout | Way::Deadline),
            Call::ChangePriority(_) | Call::PutBack | Call::DropLease => self.changes,
            Call::Close(_) | Call::CloseOnDrop(_) | Call::CloseWhenDone(_) => false,
            Call::Clone(_) | Call::Upgrade(_) | Call::Drop(_) => false,
            _ => true,
        };
        is_drawn && call.side() == side
    }

    fn calls<R: Host>(self, rt: &R, side: Side) -> Vec<Call> {
        let mut calls = Vec::new(rt.alloc());
        for call in ALL {
            if self.draws(side, call) {
                calls.push(call).expect(rt, "memory for calls");
            }
        }
        calls
    }
}

fn draw_call(dice: &mut Dice, calls: &[Call]) -> Call {
    let place = dice.below(calls.len() as u64) as usize;
    calls.get(place).copied().unwrap_or(Call::RecvIf)
}

fn draw_input(dice: &mut Dice, first: u64, left: u64) -> Input {
    Input {
        pairs: Pairs::new(first, dice.between(1, MANY).min(left), PRIORITIES),
        most: dice.between(1, MANY) as usize,
        limit: Duration::from_micros(dice.below(500)),
        chosen: first.saturating_sub(dice.below(MANY)),
    }
}

// Now and then another handle for a call: a clone, or that of a weak one.
fn draw_other<S: Role, R: Host>(
    dice: &mut Dice,
    end: &End<S, u64, u64, R>,
) -> Option<End<S, u64, u64, R>> {
    match dice.below(8) {
        0 => end.clone().ok(),
        1 => end.downgrade().ok()?.upgrade(),
        _ => None,
    }
}

/// What has become of a message by its send.
#[derive(Clone, Copy, Debug, PartialEq)]
enum Fate {
    Sent,
    /// A bulk send was dropped that may have sent it.
    Unknown,
    /// It came back, or was dropped with a future that had not sent it.
    Unsent,
}

/// What a thread has done.
#[derive(Drop)]
struct Log {
    /// Of the messages of a sender, in their order.
    fates: Vec<Fate>,
    /// What it received, in that order.
    came: Vec<Pair>,
    /// What it has taken out by a test, or displaced.
    chosen: Vec<Pair>,
}

impl Log {
    fn new<R: Host>(rt: &R) -> Self {
        Log {
            fates: Vec::new(rt.alloc()),
            came: Vec::new(rt.alloc()),
            chosen: Vec::new(rt.alloc()),
        }
    }

    fn note<R: Host>(&mut self, rt: &R, call: Call, input: Input, reply: &Reply) {
        expect_equal_at(rt, call, reply.outcome == Outcome::Impossible, false);
        let noted = match call {
            Call::Send(_) | Call::Reserve(_) => self.note_sent(1, reply),
            Call::Sendv(_) => self.note_sent(input.pairs.count, reply),
            Call::SendEvicting if reply.outcome == Outcome::Done => {
                self.fates.push(Fate::Sent).expect(rt, "memory for a log");
                self.chosen.extend(reply.pairs.iter().copied())
            }
            Call::SendEvicting => self.note_sent(1, reply),
            Call::TakeWhere(_) | Call::Retain(_) => self.chosen.extend(reply.pairs.iter().copied()),
            Call::PeekWith | Call::PeekPriority | Call::ChangePriority(_) => Ok(()),
            Call::PutBack | Call::DropLease => Ok(()),
            _receive => self.came.extend(reply.pairs.iter().copied()),
        };
        noted.expect(rt, "memory for a log");
    }

    // Of so many messages. Those that came back are the last.
    fn note_sent(&mut self, count: u64, reply: &Reply) -> Result<(), AllocError> {
        let (unsent, fate) = match reply.outcome {
            Outcome::Waits if count > 1 => (count, Fate::Unknown),
            Outcome::Waits => (count, Fate::Unsent),
            _ => (reply.pairs.len() as u64, Fate::Unsent),
        };
        for at in 0..count {
            let is_sent = at < count.saturating_sub(unsent);
            self.fates.push(if is_sent { Fate::Sent } else { fate })?;
        }
        Ok(())
    }
}

// Until all its messages are settled, or the channel is closed.
fn send_all<R: Threaded>(
    rt: &R,
    tx: &Sender<u64, u64, R>,
    round: Round,
    number: u64,
    mut dice: Dice,
) -> Log {
    let calls = round.calls(rt, Side::Sender);
    let mut log = Log::new(rt);
    for _ in 0..u64::MAX {
        let settled = log.fates.len() as u64;
        if number == 0 && round.close_at.is_some_and(|at| at <= settled) {
            close(tx, round);
        }
        let left = round.each.saturating_sub(settled);
        if left == 0 || tx.is_closed() {
            break;
        }
        let first = number.wrapping_mul(round.each).wrapping_add(settled);
        if dice.below(HOLDS) == 0 {
            hold_places(rt, tx, round, (first, left), &mut dice, &mut log);
        } else {
            let call = draw_call(&mut dice, &calls);
            send_drawn(rt, tx, call, (first, left), &mut dice, &mut log);
        }
    }
    log
}

fn close<R: Host>(tx: &Sender<u64, u64, R>, round: Round) {
    if round.is_late {
        tx.close_when_done();
    } else {
        tx.close();
    }
}

fn send_drawn<R: Host>(
    rt: &R,
    tx: &Sender<u64, u64, R>,
    call: Call,
    msgs: (u64, u64),
    dice: &mut Dice,
    log: &mut Log,
) {
    let input = draw_input(dice, msgs.0, msgs.1);
    let other = draw_other(dice, tx);
    let reply = send(rt, other.as_ref().unwrap_or(tx), call, input);
    log.note(rt, call, input, &reply);
}

// Until the channel is closed and all is done. Memory for a batch may be refused.
fn receive_all<R: Threaded>(
    rt: &R,
    rx: &Receiver<u64, u64, R>,
    round: Round,
    mut dice: Dice,
) -> Log {
    let memory = Refusing::new(rt.alloc());
    let calls = round.calls(rt, Side::Receiver);
    let mut log = Log::new(rt);
    for _ in 0..u64::MAX {
        // In this order: what is held later is in the hands of receivers, who go on.
        if rx.is_closed() && rx.held() == 0 && rx.is_empty() {
            break;
        }
        if dice.below(HOLDS) == 0 {
            hold_messages(rt, rx, round, &mut dice, &mut log);
        } else {
            let call = draw_call(&mut dice, &calls);
            let input = draw_input_of_any(&mut dice, round);
            memory.refuse_nth(dice.below(REQUESTS));
            let reply = receive_drawn(rt, &memory, rx, (call, input), &mut dice);
            memory.refuse_none();
            log.note(rt, call, input, &reply);
        }
    }
    log
}

fn draw_input_of_any(dice: &mut Dice, round: Round) -> Input {
    let any = dice.below(round.count());
    draw_input(dice, any, MANY)
}

fn receive_drawn<R: Host, B: Allocator + Copy>(
    rt: &R,
    alloc: B,
    rx: &Receiver<u64, u64, R>,
    made: (Call, Input),
    dice: &mut Dice,
) -> Reply {
    let other = draw_other(dice, rx);
    receive(rt, alloc, other.as_ref().unwrap_or(rx), made.0, made.1)
}

fn open<R: Threaded>(rt: &R, dice: &mut Dice) -> Ends<u64, u64, R> {
    let capacity = dice.below(ROOM).saturating_add(1);
    let opened = match dice.below(4) {
        0 => unbounded(rt, rt.alloc()),
        1 => bounded_reserved(rt, rt.alloc(), ROOM),
        _ => bounded(rt, rt.alloc(), capacity),
    };
    opened.expect(rt, "a channel")
}

// The threads of a round, those of the senders first.
fn start<R: Threaded>(
    rt: &R,
    ends: (Sender<u64, u64, R>, &Receiver<u64, u64, R>),
    round: Round,
    dice: &mut Dice,
) -> Vec<JoinHandle<Log>> {
    let host = *rt;
    let (tx, rx) = ends;
    let mut threads = Vec::new(rt.alloc());
    for number in 0..round.senders {
        let tx = tx.clone().expect(rt, "a sender");
        let dice = dice.split();
        spawn(
            rt,
            &mut threads,
            move || send_all(&host, &tx, round, number, dice),
        );
    }
    for _ in 0..round.receivers {
        let rx = rx.clone().expect(rt, "a receiver");
        let dice = dice.split();
        spawn(
            rt,
            &mut threads,
            move || receive_all(&host, &rx, round, dice),
        );
    }
    threads
}

fn spawn<R: Threaded, F: FnOnce() -> Log + Send + Drop + 'static>(
    rt: &R,
    threads: &mut Vec<JoinHandle<Log>>,
    run: F,
)
    requires { F.pre run }
{
    let thread = thread::spawn(rt, run).expect(rt, "a thread");
    threads.push(thread).expect(rt, "memory");
}

fn join_all<R: Threaded>(rt: &R, threads: Vec<JoinHandle<Log>>) -> Vec<Log> {
    let mut logs = Vec::new(rt.alloc());
    for thread in threads {
        logs.push(thread.join(rt)).expect(rt, "memory for logs");
    }
    logs
}

fn run_round<R: Threaded>(rt: &R, seed: u64) {
    let mut dice = Dice::new(seed);
    let round = Round::draw(&mut dice, seed);
    let (tx, rx) = open(rt, &mut dice);
    let threads = start(rt, (tx, &rx), round, &mut dice);
    let logs = under_load(rt, round, || join_all(rt, threads));
    let left = (rx.len(), rx.held(), rx.sender_count(), rx.receiver_count());
    expect_equal_at(rt, (round, "what is left"), left, (0, 0, 0, 1));
    settle(rt, round, &logs);
}

fn settle<R: Host>(rt: &R, round: Round, logs: &[Log]) {
    let times = count_times(rt, round, logs);
    for (msg, times) in times.iter().enumerate() {
        let fate = round.fate(logs, msg as u64);
        let is_right = match fate {
            Some(Fate::Sent) => *times == 1,
            Some(Fate::Unknown) => *times <= 1,
            Some(Fate::Unsent) => *times == 0,
            // The channel was closed before its turn.
            None => *times == 0 && round.close_at.is_some(),
        };
        expect_equal_at(rt, (round, msg, fate, "it came", *times), is_right, true);
    }
    if !round.changes {
        for log in logs {
            expect_order(rt, round, &log.came);
        }
    }
}

// How often each message came, of those that were sent or could have been.
fn count_times<R: Host>(rt: &R, round: Round, logs: &[Log]) -> Vec<u64> {
    let mut times = make_all(rt, round.count(), || 0u64);
    for log in logs {
        for pair in log.came.iter().chain(log.chosen.iter()) {
            let is_own = round.changes || pair.1 == round.priority(pair.0);
            let count = times.get_mut(pair.0 as usize);
            let was_sent = is_own && count.is_some();
            expect_equal_at(rt, (round, *pair, "was sent"), was_sent, true);
            if let Some(count) = count {
                *count = count.saturating_add(1);
            }
        }
    }
    times
}

// Whatever other threads receive, those of one sender and one priority come as they were sent.
fn expect_order<R: Host>(rt: &R, round: Round, came: &[Pair]) {
    let mut latest = make_all(rt, round.senders.saturating_mul(PRIORITIES), || 0u64);
    for (msg, priority) in came {
        let sender = round.sender(*msg);
        let kind = sender.saturating_mul(PRIORITIES).saturating_add(*priority);
        if let Some(latest) = latest.get_mut(kind as usize) {
            expect_equal_at(rt, (round, *msg, "behind", *latest), *latest <= *msg, true);
            *latest = *msg;
        }
    }
}

// What the environment says, or else this.
fn number_of<R: env::Env + AllocGlobal>(rt: &R, name: &str, default: u64) -> u64 {
    match env::var(rt, name) {
        Ok(text) => text.parse().unwrap_or(default),
        Err(_) => default,
    }
}

#[test]
fn each_message_comes_once_and_in_its_order(rt: HostRuntime) {
    let seed = number_of(&rt, "SOAK_SEED", 1);
    let least = Duration::from_secs(number_of(&rt, "SOAK_SECONDS", 0));
    let start = Instant::now(&rt).expect(&rt, "a clock");
    for round in 0..u64::MAX {
        if round >= ROUNDS && start.elapsed(&rt).expect(&rt, "a clock") >= least {
            break;
        }
        run_round(&rt, seed.wrapping_add(round));
    }
}

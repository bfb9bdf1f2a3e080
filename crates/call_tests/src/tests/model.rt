//! A plain channel: the pending pairs in the order of their acceptance.
use super::Host;
use named_calls::reply::weighed;
use named_calls::{Call, Input, Looks, Outcome, Pair, Pairs, Reply, Side, Way, is_choosy, picks};
use std::mem;

#[derive(Drop)]
pub struct Model {
    capacity: u64,
    pub pending: Vec<Pair>,
    pub is_closed: bool,
    // How many places are held, and whether the channel closes once all is done.
    held: u64,
    ends_when_done: bool,
    /// How many pairs were ever accepted, and how many received or taken out.
    pub accepted: u64,
    pub taken: u64,
    senders: usize,
    receivers: usize,
    // Whether what is pending goes with the last receiver.
    lets_go: bool,
}

impl Model {
    /// A new channel with so many senders and receivers.
    pub fn new(rt: &impl Host, capacity: u64, senders: usize, receivers: usize) -> Self {
        Model {
            capacity,
            pending: Vec::new(rt.alloc()),
            is_closed: false,
            held: 0,
            ends_when_done: false,
            accepted: 0,
            taken: 0,
            senders,
            receivers,
            lets_go: false,
        }
    }

    /// Whether the call would wait.
    pub fn waits(&self, call: Call, input: Input) -> bool {
        let is_ended = match call {
            Call::Closed(..) | Call::Send(_) | Call::Sendv(_) | Call::Reserve(_) => self.is_closed,
            // What is pending may be for it later.
            _ if is_choosy(call) => self.is_over() && self.pending.is_empty(),
            _receive => self.is_over(),
        };
        if is_ended || !call.may_wait(input) {
            return false;
        }
        match call {
            Call::Closed(..) => true,
            Call::Send(_) | Call::Reserve(_) => self.room() == 0,
            Call::Sendv(_) => self.room() < input.pairs.count.max(1),
            Call::Iter | Call::IntoIter | Call::Leases => self.pending.len() < input.most,
            Call::RecvMany(_) => self.pending.is_empty() && input.most > 0,
            _ if is_choosy(call) => self.find_for(call, input).is_none(),
            _receive => self.pending.is_empty(),
        }
    }

    /// What the call has to answer, once its limit is over where it has one.
    pub fn answer(&mut self, rt: &impl Host, call: Call, input: Input) -> Reply {
        if self.count(call.side()) == 0 {
            return Reply::new(rt, Outcome::Impossible);
        }
        match call {
            Call::Send(way) | Call::Reserve(way) => self.send(rt, way, input.one()),
            Call::Sendv(way) => self.send(rt, way, input.pairs),
            Call::SendEvicting => self.send_evicting(rt, input),
            Call::Recv(way) | Call::Lease(way) => self.receive_one(rt, way, Outcome::Closed),
            Call::PutBack => self.put_back(rt, Some(input.pair().1)),
            Call::DropLease => self.put_back(rt, None),
            Call::Stream(way) | Call::IntoStream(way) => self.receive_one(rt, way, Outcome::Ended),
            Call::RecvMany(way) => self.receive_batch(rt, way, input.most),
            Call::TryIter | Call::Iter | Call::IntoIter | Call::Leases => {
                self.receive(rt, input.most, Outcome::Ended)
            }
            Call::TakeWhere(_) => self.take_where(rt, input.chosen),
            Call::Retain(_) => self.retain(rt, input.chosen),
            Call::ChangePriority(_) => self.change_priority(rt, input),
            Call::RecvIf | Call::LeaseIf => self.receive_chosen(rt, Way::Try, call, input),
            _ if is_choosy(call) => self.receive_chosen(rt, call.way(), call, input),
            Call::PeekWith => {
                let seen = self.find(true).map(|(_, pair)| pair);
                Reply::found(rt, seen, Outcome::Empty)
            }
            Call::PeekPriority => {
                let seen = self.find(true).map(|(_, pair)| (0, pair.1));
                Reply::found(rt, seen, Outcome::Empty)
            }
            _no_pairs => {
                let outcome = self.answer_without_pairs(call);
                Reply::new(rt, outcome)
            }
        }
    }

    fn answer_without_pairs(&mut self, call: Call) -> Outcome {
        let was_closed = self.is_closed;
        match call {
            Call::Look(_) => return Outcome::Looks(self.look()),
            Call::Closed(_, way) if !was_closed => return blocked(way, Outcome::Impossible),
            Call::Closed(..) => return Outcome::Done,
            Call::Clone(side) => self.add(side),
            Call::Upgrade(side) => {
                if !was_closed {
                    self.add(side);
                }
                return Outcome::Was(was_closed);
            }
            Call::Close(_) => {
                self.is_closed = true;
                return Outcome::Was(!was_closed);
            }
            Call::CloseOnDrop(side) => {
                self.is_closed = true;
                self.lets_go = self.lets_go || side == Side::Receiver;
            }
            Call::CloseWhenDone(_) => {
                self.ends_when_done = true;
                self.end_if_done();
            }
            Call::Drop(Side::Sender) => self.senders = self.senders.saturating_sub(1),
            Call::Drop(_) => self.receivers = self.receivers.saturating_sub(1),
            _ => {}
        }
        self.is_closed = self.is_closed || self.senders == 0 || self.receivers == 0;
        self.let_go();
        Outcome::Done
    }

    // What nobody will receive is dropped, if it is to be.
    fn let_go(&mut self) {
        if self.receivers == 0 && self.lets_go {
            self.pending.clear();
            self.end_if_done();
        }
    }

    /// One more place is held, for which there is room.
    pub fn hold(&mut self) {
        self.held = self.held.saturating_add(1);
    }

    /// A held place becomes free.
    pub fn free(&mut self) {
        self.held = self.held.saturating_sub(1);
        self.end_if_done();
    }

    /// The pair is sent into a held place.
    pub fn fill(&mut self, rt: &impl Host, pair: Pair) {
        self.held = self.held.saturating_sub(1);
        self.accept(rt, pair);
        self.let_go();
    }

    /// How many places are held.
    pub fn held(&self) -> u64 {
        self.held
    }

    fn end_if_done(&mut self) {
        let is_done = self.pending.is_empty() && self.held == 0;
        self.is_closed = self.is_closed || self.ends_when_done && is_done;
    }

    // Nothing can come any more.
    fn is_over(&self) -> bool {
        self.is_closed && self.held == 0
    }

    fn count(&self, side: Side) -> usize {
        match side {
            Side::Sender => self.senders,
            Side::Receiver => self.receivers,
        }
    }

    fn add(&mut self, side: Side) {
        match side {
            Side::Sender => self.senders = self.senders.saturating_add(1),
            Side::Receiver => self.receivers = self.receivers.saturating_add(1),
        }
    }

    fn room(&self) -> u64 {
        let taken = self.held.saturating_add(self.pending.len() as u64);
        self.capacity.saturating_sub(taken)
    }

    fn look(&self) -> Looks {
        Looks {
            len: self.pending.len() as u64,
            is_empty: self.pending.is_empty(),
            is_full: self.room() == 0,
            is_closed: self.is_closed,
            held: self.held,
            capacity: (self.capacity < u64::MAX).then_some(self.capacity),
            sender_count: self.senders,
            receiver_count: self.receivers,
            odd: self.pending.iter().filter(|pair| pair.0 % 2 == 1).count() as u64,
            sum: self
                .pending
                .iter()
                .fold(0, |sum, pair| weighed(sum, pair.0, pair.1)),
            is_of_itself: true,
        }
    }

    // A front of the list is accepted. The rest comes back, but from a future that is dropped.
    fn send(&mut self, rt: &impl Host, way: Way, pairs: Pairs) -> Reply {
        if self.is_closed {
            return Reply::with(rt, Outcome::Closed, pairs);
        }
        let was_full = self.room() == 0;
        let mut unsent = Vec::new(rt.alloc());
        for pair in pairs {
            if self.room() == 0 {
                unsent.push(pair).expect(rt, "memory for the model");
            } else {
                self.accept(rt, pair);
            }
        }
        if !was_full && unsent.is_empty() {
            return Reply::new(rt, Outcome::Done);
        }
        match blocked(way, Outcome::Full) {
            Outcome::Waits => Reply::new(rt, Outcome::Waits),
            outcome => Reply::with(rt, outcome, unsent.into_iter()),
        }
    }

    fn accept(&mut self, rt: &impl Host, pair: Pair) {
        self.pending.push(pair).expect(rt, "memory for the model");
        self.accepted = self.accepted.wrapping_add(1);
    }

    fn send_evicting(&mut self, rt: &impl Host, input: Input) -> Reply {
        if self.is_closed || self.room() > 0 {
            return self.send(rt, Way::Try, input.one());
        }
        let (_, priority) = input.pair();
        match self.find(false) {
            Some((place, least)) if least.1 < priority => {
                self.remove(place);
                self.accept(rt, input.pair());
                Reply::found(rt, Some(least), Outcome::Done)
            }
            _ => Reply::with(rt, Outcome::Full, input.one()),
        }
    }

    fn receive_one(&mut self, rt: &impl Host, way: Way, ended: Outcome) -> Reply {
        if self.is_over() {
            self.receive(rt, 1, ended)
        } else {
            self.receive(rt, 1, blocked(way, Outcome::Empty))
        }
    }

    // Of nothing it does not wait.
    fn receive_batch(&mut self, rt: &impl Host, way: Way, most: usize) -> Reply {
        if !self.pending.is_empty() || most == 0 && !self.is_over() && way != Way::Try {
            return self.receive(rt, most, Outcome::Done);
        }
        self.receive_one(rt, way, Outcome::Closed)
    }

    // Up to so many, and what is told where there are fewer.
    fn receive(&mut self, rt: &impl Host, most: usize, short: Outcome) -> Reply {
        let mut reply = Reply::new(rt, Outcome::Done);
        for _ in 0..most {
            let Some((place, pair)) = self.find(true) else {
                reply.outcome = short;
                return reply;
            };
            self.take(place);
            reply.pairs.push(pair).expect(rt, "memory for the model");
        }
        reply
    }

    // Only what is for the call. It waits on where that is nothing of what is pending.
    fn receive_chosen(&mut self, rt: &impl Host, way: Way, call: Call, input: Input) -> Reply {
        match self.find_for(call, input) {
            Some(place) => Reply::found(rt, self.take(place), Outcome::Empty),
            None if self.pending.is_empty() => self.receive_one(rt, way, Outcome::Closed),
            None => Reply::new(rt, blocked(way, Outcome::Was(false))),
        }
    }

    // Where the message is that is for this call: the first of all if it is of the chosen kind, or
    // the first of that kind.
    fn find_for(&self, call: Call, input: Input) -> Option<usize> {
        let is_for = |pair: &Pair| input.is_kind_of(pair.0);
        let found = if picks(call) {
            self.find_among(true, is_for)
        } else {
            self.find(true)
        };
        let (place, pair) = found?;
        is_for(&pair).then_some(place)
    }

    fn take_where(&mut self, rt: &impl Host, chosen: u64) -> Reply {
        let Some(place) = self.pending.iter().position(|pair| pair.0 == chosen) else {
            return Reply::new(rt, Outcome::Empty);
        };
        Reply::found(rt, self.take(place), Outcome::Empty)
    }

    // The greatest goes behind its equals, with that priority or its own.
    fn put_back(&mut self, rt: &impl Host, priority: Option<u64>) -> Reply {
        let Some((place, (msg, was))) = self.find(true) else {
            return self.receive_one(rt, Way::Try, Outcome::Closed);
        };
        self.remove(place);
        self.accept(rt, (msg, priority.unwrap_or(was)));
        Reply::found(rt, Some((msg, was)), Outcome::Empty)
    }

    // Sorted, since their order is not said.
    fn retain(&mut self, rt: &impl Host, chosen: u64) -> Reply {
        let mut reply = Reply::new(rt, Outcome::Done);
        let mut kept = Vec::new(rt.alloc());
        for pair in self.pending.iter().copied() {
            if pair.0 % 8 != chosen % 8 {
                kept.push(pair).expect(rt, "memory for the model");
            } else {
                reply.pairs.push(pair).expect(rt, "memory for the model");
                self.taken = self.taken.wrapping_add(1);
            }
        }
        self.pending = kept;
        self.end_if_done();
        reply.pairs.sort().expect(rt, "memory for the model");
        reply
    }

    fn change_priority(&mut self, rt: &impl Host, input: Input) -> Reply {
        let (_, priority) = input.pair();
        for pair in self.pending.iter_mut() {
            if input.is_kind_of(pair.0) {
                let was = mem::replace(&mut pair.1, priority);
                return Reply::found(rt, Some((0, was)), Outcome::Empty);
            }
        }
        Reply::new(rt, Outcome::Empty)
    }

    // The pair goes out, and its place becomes free.
    fn take(&mut self, place: usize) -> Option<Pair> {
        self.taken = self.taken.wrapping_add(1);
        let pair = self.remove(place);
        self.end_if_done();
        pair
    }

    fn remove(&mut self, place: usize) -> Option<Pair> {
        if place < self.pending.len() {
            Some(self.pending.remove(place))
        } else {
            None
        }
    }

    // The first pair of greatest priority, or the last one of least.
    fn find(&self, is_greatest: bool) -> Option<(usize, Pair)> {
        self.find_among(is_greatest, |_| true)
    }

    // The same of those that pass.
    fn find_among<F: Fn(&Pair) -> bool + Drop>(
        &self,
        is_greatest: bool,
        passes: F,
    ) -> Option<(usize, Pair)>
        requires { F.IsAlwaysCallable passes }
    {
        let mut found: Option<(usize, Pair)> = None;
        for (place, pair) in self.pending.iter().enumerate() {
            if !passes(pair) {
                continue;
            }
            let (priority, is_first) = (pair.1, found.is_none());
            let (_, (_, best)) = found.unwrap_or((0, (0, 0)));
            let is_better = if is_greatest {
                best < priority
            } else {
                priority <= best
            };
            if is_first || is_better {
                found = Some((place, *pair));
            }
        }
        found
    }
}

// What a call tells where there is no room, or no message.
fn blocked(way: Way, at_once: Outcome) -> Outcome {
    match way {
        Way::Try => at_once,
        Way::Timeout | Way::Deadline => Outcome::Timeout,
        Way::Poll | Way::Future | Way::Blocking => Outcome::Waits,
    }
}

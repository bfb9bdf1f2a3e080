//! What became of each pair.
use super::words::{Bulk, Message, Pair, Text, pair, times};
use crate::tests::expect_equal;
use std::alloc::AllocGlobal;
use std::process::Abort;

/// The pairs that were submitted, and those that came out or back.
#[derive(Drop)]
pub struct Ledger<T: Message> {
    submitted: Vec<Pair<T>>,
    ended: Vec<Pair<T>>,
    // What came back of the last bulk send that was refused. It may be sent again.
    rest: Option<Bulk<T>>,
}

impl<T: Message> Ledger<T> {
    pub fn new<R: AllocGlobal>(rt: &R) -> Self {
        Ledger {
            submitted: Vec::new(rt.alloc()),
            ended: Vec::new(rt.alloc()),
            rest: None,
        }
    }

    pub fn submit(&mut self, rt: &impl Abort, word: Text) -> Pair<T> {
        let pair = pair(rt, word);
        self.submitted.push(pair).expect(rt, "memory");
        pair
    }

    /// `(a,1) (b,2)` or `100 times (a,0)` makes an iterator. `the rest` is the very one that came
    /// back.
    pub fn submit_many<R: Abort + AllocGlobal>(&mut self, rt: &R, words: &[Text]) -> Bulk<T> {
        if let ["the", "rest"] = words {
            return self.rest.take().expect(rt, "a rest");
        }
        let mut pairs = Vec::new(rt.alloc());
        let (count, words) = times(rt, words);
        for _ in 0..count {
            for word in words {
                pairs.push(self.submit(rt, *word)).expect(rt, "memory");
            }
        }
        pairs.into_iter().peekable()
    }

    /// The pair was received, or came back.
    pub fn end(&mut self, rt: &impl Abort, pair: Pair<T>) {
        self.ended.push(pair).expect(rt, "memory");
    }

    /// Keeps what came back of a bulk send, and tells how many pairs that is.
    pub fn keep(&mut self, rt: &impl Abort, rest: Bulk<T>) -> usize {
        self.end_rest(rt);
        let (count, _) = rest.size_hint();
        self.rest = Some(rest);
        count
    }

    fn end_rest(&mut self, rt: &impl Abort) {
        if let Some(rest) = self.rest.take() {
            for pair in rest {
                self.end(rt, pair);
            }
        }
    }

    /// Each pair that was submitted has come out or back, as often as it was submitted.
    pub fn expect_settled(&mut self, rt: &impl Abort) {
        self.end_rest(rt);
        self.submitted.sort().expect(rt, "memory");
        self.ended.sort().expect(rt, "memory");
        expect_equal(rt, self.ended.as_slice(), self.submitted.as_slice());
    }
}

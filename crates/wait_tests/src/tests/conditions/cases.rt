//! What wakes a thread that waits for a message with a condition, and what does not.
use super::hands::Step;
use super::hands::Step::*;
use named_calls::Pair;

/// What is done before, what leaves the thread asleep, what wakes it, and what it receives then.
/// None means that it is told of the close.
pub type Case = ([Step; 3], Step, Step, Option<Pair>);

const EMPTY: [Step; 3] = [Nothing, Nothing, Nothing];

pub const ODD: [Step; 3] = [Send(3, 9), Nothing, Nothing];

const TWO_ODD: [Step; 3] = [Send(3, 9), Send(5, 1), Nothing];

const EVEN_BEHIND: [Step; 3] = [Send(3, 9), Send(2, 1), Nothing];

const LEASED: [Step; 3] = [Send(2, 9), Lease, Send(3, 1)];

// The 2 is leased from behind the 3.
const LEASED_BEHIND: [Step; 3] = [Send(3, 9), Send(2, 1), LeaseWhere(2)];

const LEASED_ALONE: [Step; 3] = [Send(2, 9), Lease, Nothing];

const RESERVED: [Step; 3] = [Reserve, Send(3, 5), Nothing];

const RESERVED_ALONE: [Step; 3] = [Reserve, Nothing, Nothing];

/// For one that receives the first message if it is even, and for one that receives any even one.
pub const BOTH: [Case; 16] = [
    (EMPTY, Nothing, Send(4, 1), Some((4, 1))),
    (EMPTY, Nothing, Close, None),
    (ODD, Nothing, Send(4, 10), Some((4, 10))),
    (ODD, Change(3, 5), Send(4, 6), Some((4, 6))),
    (TWO_ODD, Receive, Send(4, 6), Some((4, 6))),
    (LEASED, Nothing, DropLease, Some((2, 9))),
    (LEASED, Nothing, PutBack(5), Some((2, 5))),
    (LEASED_BEHIND, Nothing, PutBack(10), Some((2, 10))),
    (LEASED, Finish, Send(4, 2), Some((4, 2))),
    (RESERVED, Nothing, Fill(4, 9), Some((4, 9))),
    (RESERVED, Free, Send(4, 9), Some((4, 9))),
    (ODD, Close, Receive, None),
    (ODD, Close, TakeOut(3), None),
    (ODD, CloseWhenDone, Retain(3), None),
    (LEASED_ALONE, Close, Finish, None),
    (RESERVED_ALONE, Close, Free, None),
];

/// For one that receives the first message if it is even.
pub const FIRST: [Case; 10] = [
    (EVEN_BEHIND, Nothing, Receive, Some((2, 1))),
    (EVEN_BEHIND, Nothing, TakeOut(3), Some((2, 1))),
    (EVEN_BEHIND, Nothing, Retain(3), Some((2, 1))),
    (EVEN_BEHIND, Nothing, Lease, Some((2, 1))),
    (EVEN_BEHIND, Nothing, Change(3, 0), Some((2, 1))),
    (EVEN_BEHIND, Nothing, Change(2, 10), Some((2, 10))),
    (EVEN_BEHIND, Send(4, 5), Receive, Some((4, 5))),
    (EVEN_BEHIND, Close, Receive, Some((2, 1))),
    (LEASED, PutBack(0), Receive, Some((2, 0))),
    (RESERVED, Fill(4, 1), Receive, Some((4, 1))),
];

/// For one that receives any even one.
pub const ANY: [Case; 4] = [
    (ODD, Nothing, Send(4, 1), Some((4, 1))),
    (LEASED_BEHIND, Nothing, DropLease, Some((2, 1))),
    (LEASED, Close, PutBack(0), Some((2, 0))),
    (RESERVED, Close, Fill(4, 1), Some((4, 1))),
];

//! What tests stand on, and nothing but a test should: an allocator that refuses the requests that
//! the test names, and passes the others on; and a watch, which ends a test that hangs.
#![tactic(auto)]

use requests::{Refusals, Requests};
use std::alloc::{AllocError, Allocator};

mod requests;
mod rounds;
#[cfg(test)]
mod tests;
pub mod watch;

pub use rounds::{Rounds, Vacuous};

/// An allocator that refuses the requests that a test names, by an `AllocError` as where memory has
/// run out, and passes the others on to the allocator that it was made of.
///
/// Each call of `allocate` is a request. A collection makes one for its first memory, one for each
/// growth, and one where it shrinks to a smaller block; an empty collection makes none. What is
/// given back is neither counted nor refused. A request counts too where the inner allocator
/// refuses it.
///
/// Collections take a `&` to it, so that the test keeps it. This refuses each request of `fill` in
/// turn:
///
/// ```
/// let alloc = Refusing::new(rt.alloc());
/// for round in alloc.rounds() {
///     let n = round?;
///     alloc.refuse_nth(n);
///     let filled = fill(&alloc);
///     let met_none = alloc.refuse_none();
///     assert_eq!(rt; filled.is_ok(), met_none, "at {n}");
/// }
/// ```
///
/// Threads may share a `&` to it. So that a test can act just as a thread asks for memory,
/// `hold_nth` halts a request.
///
/// - It sees no request that goes to another allocator, as to `rt.alloc()` itself.
/// - A block that grows always moves, since the inner allocator's `grow` is not called.
/// - No contract says which requests are refused, since none can tell what threads share. Tests do.
#[derive(Drop)]
pub struct Refusing<B: Allocator> {
    inner: B,
    requests: Requests,
}

impl<B: Allocator> Refusing<B> {
    /// Refuses no request at first.
    pub fn new(inner: B) -> Self {
        Refusing {
            inner,
            requests: Requests::new(),
        }
    }

    /// From now on refuses the nth request, counted from 1, and no other. So `refuse_nth(0)`
    /// refuses none.
    pub fn refuse_nth(&self, n: u64) {
        self.requests.set(Refusals::nth(n));
    }

    /// From now on refuses each request.
    pub fn refuse_all(&self) {
        self.requests.set(Refusals::Always);
    }

    /// From now on refuses no request. Tells whether the one that `refuse_nth` named was still to
    /// come. So it is false once that was refused, and where none was named, as after `refuse_all`
    /// or `refuse_nth(0)`.
    pub fn refuse_none(&self) -> bool {
        self.requests.end()
    }

    /// From now on halts the thread that makes the nth request, counted from 1, until `let_go`.
    pub fn hold_nth(&self, n: u64) {
        self.requests.hold_nth(n);
    }

    /// Whether a thread is halted.
    pub fn is_holding(&self) -> bool {
        self.requests.is_holding()
    }

    /// Lets the thread that is halted go on.
    pub fn let_go(&self) {
        self.requests.let_go();
    }

    /// How many requests were made so far, those that were refused among them.
    pub fn count(&self) -> u64 {
        self.requests.count()
    }

    /// Numbers for `refuse_nth`, from 1 on, until no request was left to refuse. So each was
    /// refused once.
    pub fn rounds(&self) -> Rounds<'_, B> {
        Rounds::new(self)
    }

    // The same in this round, also where `refuse_none` was called by then.
    fn end_round(&self) -> bool {
        self.requests.end_round()
    }
}

// A function of its own, so that `allocate`, which is proved by hand, only calls it.
fn count_request(requests: &Requests) -> bool {
    requests.hold();
    requests.refuses_next()
}

unsafe impl<B: Allocator> Allocator for Refusing<B> {
    ghost dealloc_token = { λ heap ty ptr. B.dealloc_token heap.inner ty ptr };

    fn allocate(&self, size: usize, align: usize) -> Result<*mut u8, AllocError> {
        if count_request(&self.requests) {
            return Err(AllocError);
        }
        self.inner.allocate(size, align)
    }

    unsafe fn deallocate(&self, ptr: *mut u8, size: usize, align: usize) {
        self.inner.deallocate(ptr, size, align);
    }
}

//! A waker whose clone asks for memory.
use super::expect_equal;
use super::word::unwoken;
use priority_channel_core::channel::{CorePoll, PriorityQueueChannel};
use priority_channel_core::errors::RecvFault;
use refusing::Refusing;
use std::alloc::{AllocError, Global};

/// A waker with a number.
#[derive(Drop)]
struct Numbered<'a> {
    number: u64,
    alloc: &'a Refusing<Global>,
    _memory: Option<Box<u64, &'a Refusing<Global>>>,
}

impl<'a> Numbered<'a> {
    fn new(alloc: &'a Refusing<Global>, number: u64) -> Self {
        Numbered {
            number,
            alloc,
            _memory: None,
        }
    }
}

impl<'a> Clone for Numbered<'a> {
    fn clone(&self) -> Result<Numbered<'a>, AllocError> {
        Ok(Numbered {
            number: self.number,
            alloc: self.alloc,
            _memory: Some(Box::new(self.alloc, self.number)?),
        })
    }
}

// The core's own memory is never refused.
#[test]
fn a_refused_clone_of_a_waker_gives_up_the_ticket(rt: HostRuntime) {
    let alloc = Refusing::new(rt.alloc());
    let mut core: PriorityQueueChannel<u64, u64, Numbered<'_>> = PriorityQueueChannel::bounded(
        rt.alloc(),
        1,
    );
    let polled = unwoken(&rt, core.poll_recv(None, &Numbered::new(&alloc, 1)));
    expect_equal(&rt, polled, CorePoll::Pending((), 0));
    alloc.refuse_nth(1);
    let polled = unwoken(&rt, core.poll_recv(Some(0), &Numbered::new(&alloc, 2)));
    expect_equal(&rt, polled, CorePoll::Ready(Err(RecvFault::Memory)));
    expect_equal(&rt, alloc.refuse_none(), false);
    expect_equal(&rt, unwoken(&rt, core.try_send(7, 1)), Ok(()));
}

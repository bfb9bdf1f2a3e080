//! What a thread does with a channel, step by step.
use crate::tests::{Host, expect_true};
use async_priority_channel::{Lease, Permit, Receiver, Sender};
use std::alloc::Allocator;
use std::sync::Wait;

/// A step, with the number of a message, its priority, or both.
#[derive(Clone, Copy, Debug)]
pub enum Step {
    Nothing,
    Send(u64, u64),
    Receive,
    /// By `take_where`.
    TakeOut(u64),
    /// By `retain`.
    Retain(u64),
    Change(u64, u64),
    /// The first message is leased, or the one of that number by a test, and then comes one of the
    /// next three.
    Lease,
    LeaseWhere(u64),
    DropLease,
    PutBack(u64),
    Finish,
    /// A place is reserved, and then comes one of the next two.
    Reserve,
    Fill(u64, u64),
    Free,
    Close,
    CloseWhenDone,
}

/// The handles of a channel, and what is held of it.
#[derive(Drop)]
pub struct Hands<'a, R: Wait + Clone, A: Allocator + Copy> {
    tx: &'a Sender<u64, u64, R, A>,
    rx: &'a Receiver<u64, u64, R, A>,
    lease: Option<Lease<'a, u64, u64, R, A>>,
    permit: Option<Permit<'a, u64, u64, R, A>>,
}

impl<'a, R: Wait + Clone, A: Allocator + Copy> Hands<'a, R, A> {
    pub fn new(tx: &'a Sender<u64, u64, R, A>, rx: &'a Receiver<u64, u64, R, A>) -> Self {
        Hands {
            tx,
            rx,
            lease: None,
            permit: None,
        }
    }

    /// Takes the step, which has to be possible.
    pub fn take(&mut self, rt: &impl Host, step: Step) {
        let could = match step {
            Step::Nothing => true,
            Step::Send(..) | Step::Receive => self.pass(step),
            Step::TakeOut(_) | Step::Retain(_) | Step::Change(..) => self.choose(step),
            Step::Lease | Step::LeaseWhere(_) | Step::Reserve => self.hold(step),
            Step::Close | Step::CloseWhenDone => self.close(step),
            _ => self.let_go(step),
        };
        expect_true(rt, could, "the step could be taken");
    }

    fn pass(&self, step: Step) -> bool {
        match step {
            Step::Send(msg, priority) => self.tx.try_send(msg, priority).is_ok(),
            _receive => self.rx.try_recv().is_ok(),
        }
    }

    // Tells whether there was such a message, and of `retain` that it was one.
    fn choose(&self, step: Step) -> bool {
        match step {
            Step::TakeOut(chosen) => self.tx.take_where(|msg, _| *msg == chosen).is_some(),
            Step::Retain(chosen) => match self.rx.retain(|msg, _| *msg != chosen) {
                Ok(taken) => taken.len() == 1,
                Err(_) => false,
            },
            Step::Change(chosen, priority) => {
                let was = self.tx.change_priority(|msg, _| *msg == chosen, priority);
                was.is_some()
            }
            _ => false,
        }
    }

    fn hold(&mut self, step: Step) -> bool {
        if let Step::Reserve = step {
            self.permit = self.tx.try_reserve().ok();
            return self.permit.is_some();
        }
        let rx = self.rx;
        self.lease = match step {
            Step::LeaseWhere(chosen) => rx.try_lease_where(|msg, _| *msg == chosen).unwrap_or(None),
            _first => rx.try_lease().ok(),
        };
        self.lease.is_some()
    }

    fn close(&self, step: Step) -> bool {
        if let Step::Close = step {
            return self.rx.close();
        }
        self.tx.close_when_done();
        true
    }

    // Ends the hold. Tells whether there was one of that kind.
    fn let_go(&mut self, step: Step) -> bool {
        if let Some(lease) = self.lease.take() {
            end_lease(lease, step)
        } else if let Some(permit) = self.permit.take() {
            end_permit(permit, step)
        } else {
            false
        }
    }
}

fn end_lease<R: Wait + Clone, A: Allocator + Copy>(
    lease: Lease<'_, u64, u64, R, A>,
    step: Step,
) -> bool {
    match step {
        Step::DropLease => drop(lease),
        Step::PutBack(priority) => lease.put_back(priority),
        Step::Finish => {
            lease.finish();
        }
        _ => return false,
    }
    true
}

fn end_permit<R: Wait + Clone, A: Allocator + Copy>(
    permit: Permit<'_, u64, u64, R, A>,
    step: Step,
) -> bool {
    match step {
        Step::Fill(msg, priority) => permit.send(msg, priority),
        Step::Free => drop(permit),
        _ => return false,
    }
    true
}

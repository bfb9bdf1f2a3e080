//! What the lock guards: a core, and the journal of its calls.
use crate::journal::Journal;
use priority_channel_core::channel::PriorityQueueChannel;
use priority_channel_recorded::chronicle::Recording;
use std::alloc::Allocator;
use std::marker::Model;

/// The history in the journal leads to the core's state. Between a call of the core and its entry
/// it does not.
#[derive(Drop)]
pub(crate) struct Kept<T, P: Ord, W: Clone, J: Recording, A: Allocator> {
    pub(crate) core: PriorityQueueChannel<T, P, W, A>,
    pub(crate) journal: Journal<T, P, W, J, A>,
}

impl<T, P: Ord, W: Clone, J: Recording, A: Allocator> Model for Kept<T, P, W, J, A> {
    ghost use Rattle.priority_channel_witnessed.specs.History.{Chronicle, IsHistory};

    ghost Value = { Chronicle T P W };

    ghost view = { λ k. record { state = k.core.state; history = k.journal } };

    ghost invariant = { λ k. IsHistory P.cmp W.is_clone J.capacity J.is_reserved k.journal
        k.core.state };
}

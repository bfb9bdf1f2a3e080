//! What is told of a refused call: each predicate is true of its variant alone, and what was to be
//! sent comes back whole, through every conversion, which keeps the reason.
ghost use Rattle.std.specs.Prelude.{◌≡◌};

use priority_channel_core::errors::{
    RecvError, RecvFault, SendError, SendFault, TryRecvError, TryRecvManyError, TrySendError,
};

/// The reasons of a try to send are told apart.
pub fn tell_refused_tries<T: Copy>(held: T) {
    let full = TrySendError::Full(held);
    prove!(full.is_full() && !full.is_closed() && !full.is_memory());
    let closed = TrySendError::Closed(held);
    prove!(!closed.is_full() && closed.is_closed() && !closed.is_memory());
    let memory = TrySendError::Memory(held);
    prove!(!memory.is_full() && !memory.is_closed() && memory.is_memory());
}

/// And those of a send that waits, which stay the same as those of a try.
pub fn tell_refused_sends<T: Copy>(held: T) {
    prove!(!SendFault::Closed(SendError(held)).is_memory());
    let closed = SendFault::from(SendError(held));
    prove!(TrySendError::from(closed).is_closed());
    prove!(TrySendError::from(SendError(held)).is_closed());
    let memory = SendFault::Memory(held);
    prove!(!memory.is_closed() && memory.is_memory());
    prove!(TrySendError::from(memory).is_memory());
}

/// And those of receives.
pub fn tell_refused_receives() {
    let (empty, closed) = (TryRecvError::Empty, TryRecvError::from(RecvError));
    prove!(empty.is_empty() && !empty.is_closed());
    prove!(closed.is_closed() && !closed.is_empty());
    let (empty, closed) = (
        TryRecvManyError::from(empty),
        TryRecvManyError::from(closed),
    );
    prove!(empty.is_empty() && !empty.is_closed() && !empty.is_memory());
    prove!(!closed.is_empty() && closed.is_closed() && !closed.is_memory());
    prove!(TryRecvManyError::Memory.is_memory());
    prove!(RecvFault::from(RecvError).is_closed() && !RecvFault::from(RecvError).is_memory());
    prove!(RecvFault::Memory.is_memory() && !RecvFault::Memory.is_closed());
}

/// What a closed channel did not take comes back, whichever error told of it.
pub fn hand_back<T>(held: T) -> T
    ensures { result ≡ held }
{
    let told = SendFault::from(SendError(SendError(held).into_inner()));
    TrySendError::from(SendFault::Memory(told.into_inner())).into_inner()
}

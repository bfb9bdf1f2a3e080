//! The reasons of a call that waits for a limited time are told apart, the fault of a call without
//! a limit stays what it was, and what was to be sent comes back.
ghost use Rattle.std.specs.Prelude.{◌≡◌};

use priority_channel_core::errors::{RecvError, RecvFault, SendError, SendFault};
use priority_channel_waiting::timeouts::{RecvTimeoutError, SendTimeoutError};

/// Of a send.
pub fn tell_late_sends<T: Copy>(error: SendError<T>) {
    let late = SendTimeoutError::Timeout(error);
    prove!(late.is_timeout() && !late.is_closed() && !late.is_memory());
    let closed = SendTimeoutError::from(SendFault::Closed(error));
    prove!(!closed.is_timeout() && closed.is_closed() && !closed.is_memory());
    let memory = SendTimeoutError::from(SendFault::Memory(error));
    prove!(!memory.is_timeout() && !memory.is_closed() && memory.is_memory());
}

/// Of a receive.
pub fn tell_late_receives() {
    let late = RecvTimeoutError::Timeout;
    prove!(late.is_timeout() && !late.is_closed() && !late.is_memory());
    let closed = RecvTimeoutError::from(RecvFault::Closed(RecvError));
    prove!(!closed.is_timeout() && closed.is_closed() && !closed.is_memory());
    let memory = RecvTimeoutError::from(RecvFault::Memory);
    prove!(!memory.is_timeout() && !memory.is_closed() && memory.is_memory());
}

/// What was not sent in time.
pub fn hand_back_late<T>(held: T) -> T
    ensures { result ≡ held }
{
    let closed = SendFault::Closed(SendError(SendTimeoutError::Timeout(held).into_inner()));
    SendTimeoutError::from(closed).into_inner()
}

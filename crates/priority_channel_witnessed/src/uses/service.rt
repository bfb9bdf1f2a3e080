//! A service that accepts requests as long as there is room.
ghost use Rattle.std.specs.Prelude.{◌≡◌};
ghost use Rattle.priority_channel_core.specs.Prelude.{OnFull};
ghost use Rattle.priority_channel_witnessed.specs.Uses.{WasFull};

use crate::{Pass, Recording, Witnessed};
use priority_channel_calls::sends::TrySend;
use priority_channel_core::errors::TrySendError;
use std::alloc::Allocator;
use std::sync::Wait;

/// Accepts a request. `Full` is returned only if there was no room.
pub fn accept<T, P: Ord, W: Clone + Drop, J: Recording, A: Allocator + Copy, R: Wait>(
    rt: &R,
    requests: &Witnessed<T, P, W, J, A>,
    pass: &mut Pass<T, P, W, J>,
    request: T,
    urgency: P,
) -> Result<(), TrySendError<(T, P)>>
    ensures busy { OnFull result
        (WasFull P.cmp W.is_clone J.capacity J.is_reserved pass.old.seen) }
{
    let (answer, wakes) = requests.call(
        rt,
        pass,
        TrySend {
            msg: request,
            priority: urgency,
        },
    );
    let (_for_room, _for_message) = wakes.into_lists();
    answer
}

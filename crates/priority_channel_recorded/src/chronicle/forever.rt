//! Code that is never reached, although no contract says so.
use std::sync::Wait;

/// Waits for ever. A caller tests a fact that always holds but that no contract states, such as
/// that nobody else adds to a log under the lock, and calls this if the fact fails. After the test
/// the fact is proved.
pub fn wait_forever<R: Wait>(rt: &R)
    ensures { ⊥ }
{
    for _ in rt.forever() {}
    unreachable!()
}

//! Examples whose requests for memory are refused in turn.
use super::rows::{CHANNELS, CORE};
use super::script::Ground::{Core, Handles};
use super::script::play_refused;

#[test]
fn each_request_for_memory_of_channels_and_handles_is_refused_in_turn(rt: HostRuntime) {
    for (ground, script, title) in [
        (Core, CHANNELS, "three sends come out by priority"),
        (Handles, CHANNELS, "three sends come out by priority"),
        (Core, CHANNELS, "a bulk send of a hundred into ten places"),
        (
            Handles,
            CHANNELS,
            "a bulk send of a hundred into ten places",
        ),
        // On the core a clone takes no memory.
        (Handles, CHANNELS, "twenty clones and their drops"),
        (Core, CORE, "a bulk send's state over five pairs"),
    ] {
        play_refused(&rt, ground, script, title);
    }
}

//! The laws: functions without parameters, whose contracts are what follows from the definitions
//! alone. A caller that proves calls one, and then knows what it says.
//!
//! `docs/REFERENCE.md` says what each law says.
//!
//! The laws of histories that exist in contracts alone, `last_law` and `wait_law`, are in
//! `priority_channel_witnessed::laws`.

pub use priority_channel_core::laws::{
    alike_law, conservation_law, digits_law, done_law, drain_law, list_law, one_greatest_law,
    one_least_law,
};
pub use priority_channel_recorded::laws::history_law;
pub use priority_channel_waiting::laws::{closing_law, queue_law, waiting_law};

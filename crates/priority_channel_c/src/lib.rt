//! The core of the priority channel behind a C interface: `bindings/c` has the header.
//!
//! Messages and wakers are numbers of the caller's, and priorities are pairs of words. A handle
//! leads to a channel. Each call takes the handle by value and gives it back through `out`. Its
//! contract says which step of the machine it makes, and what the reply tells of it.
//!
//! Only one call at a time may work on a channel, since there is no lock here.
#![tactic(auto)]

pub mod bulk;
pub mod closing;
pub mod codes;
pub mod due;
pub mod handle;
pub mod handles;
pub mod keys;
pub mod opening;
pub mod places;
pub mod polls;
pub mod priority;
pub mod queries;
pub mod receives;
pub mod reply;
pub mod sends;
pub mod state;
pub mod taking;
pub mod told;
pub mod waking;

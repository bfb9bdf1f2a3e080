//! Histories of calls, which only grow. They are generic in the entries and in what makes a history
//! legal.
//!
//! A caller has a `Pass`. The data behind a lock has a `Journal`, into which each call is entered.
//! After its call a pass has seen a legal history that ends with the call's entry.
mod entry;
mod forever;
mod fresh;
mod journal;
mod log;
mod pass;

pub use entry::{Chronicle, Telling};
pub use forever::wait_forever;
pub use fresh::{Fresh, Recording};
pub use journal::Journal;
pub use log::{Log, Seen};
pub use pass::Pass;

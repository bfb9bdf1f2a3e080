//! Callers that prove what a reply meant, whatever other threads did: a worker, a service, and the
//! end of a channel. The proof of each has a few lines. Begin yours from one of them.

mod balance;
mod service;
mod worker;

pub use balance::{settle, try_settle};
pub use service::accept;
pub use worker::take;

//! Callers that prove what errors and a new channel tell, whatever they hold.

pub mod errors;
pub mod looks;
pub mod timeouts;

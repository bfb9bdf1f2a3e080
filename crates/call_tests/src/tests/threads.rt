//! Threads that make calls beside each other.

mod at_once;
mod pools;
mod soak;
mod steps;

//! Tests of channels that keep a history, recorded and witnessed: that what threads were told has
//! an order in which a plain channel replies the same, that waits end, how passes come and go, and
//! refused memory. What a call replies, and what its pass has seen, their clauses say.
#![tactic(auto)]

#[cfg(test)]
mod tests;

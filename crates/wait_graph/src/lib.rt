//! Deadlocks: whether a request that waits would close a cycle of threads that wait for each other.
#![tactic(auto)]

mod asked;
pub mod cycle;
pub mod laws;
mod reached;
mod search;
#[cfg(test)]
mod tests;

pub use cycle::closes_cycle;

//! Blocks of 2048 bytes in a region of a disk. A block has 2047 bytes of body and a gate byte, and counts only where the
//! gate is 0xA5.
//!
//! Start with `blocks`, the calls, and `Region`, where the blocks stand. `laws` says what a change in one region leaves of
//! another, for the proofs above.
#![tactic(auto)]

mod blocks;
pub mod laws;
mod region;

pub use blocks::{clear, clear_some, open_gates, read_open, write_bodies};
pub use region::Region;

#[cfg(test)]
mod tests;

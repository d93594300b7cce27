//! Memory in pools: each pool has an owner and holds bytes in a chain of blocks of 2048.
//!
//! `Pools` is what callers use. It stands on `Chains`, which keeps the block numbers: one chain of the free blocks, and
//! one for each pool.
#![tactic(auto)]

mod chains;
pub mod pool_set;

pub use pool_set::{NoPool, Pools};

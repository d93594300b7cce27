//! The records of the logical log and their bytes, and the bodies of log blocks.
//!
//! Read in this order: `record` with `named` and `updated` says what records say, `view` with `change` the same where rows lie
//! elsewhere; `taking` has a record at the front of bytes; `block_body` the body of a block, `cursor` its records one by one,
//! `body_bytes` its bytes; `laws` what holds of them. `reading` and `writing` do the work.
#![tactic(auto)]

pub mod block_body;
pub mod body_bytes;
pub mod change;
pub mod cursor;
mod kind;
pub mod laws;
pub mod named;
pub mod named_bytes;
mod reading;
pub mod record;
pub mod taking;
#[cfg(test)]
mod tests;
mod updated;
pub mod view;
mod writing;

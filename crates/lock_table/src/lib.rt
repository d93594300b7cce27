//! The lock table: who holds which lock in which mode, and who waits for one.
//!
//! `locks` has the table as callers see it. Below stand `asked`, a request looked at with the line of its name, `settle`, the grants of
//! waiters, `entries`, a line's parts one entry after another, and `search`, searches in a line; then `book`, the entries by name and by
//! thread, on `chains` and `moves` of lists, on `order`, the order of names, and on `buckets`, the hash of a name.
#![tactic(auto)]

mod asked;
mod book;
mod buckets;
mod chains;
mod entries;
pub mod locks;
mod moves;
mod order;
#[cfg(test)]
mod plain;
mod search;
mod settle;
#[cfg(test)]
mod tests;

pub use entries::Entries;
pub use locks::{LockAnswer, Locks};

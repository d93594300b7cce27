//! The names and shapes of tables, the directory of keys, and which slots are free or reserved.
//!
//! Knows no disk and no bytes of pages. Read `entry`, `entries`, `catalogue`, `marks`, `slot`, `slots`, `directory`, `tree`, `pages`, `rooms`, `reserves`, `ledger` and `tables`; then `space` and `places`.
//! `emptied` and `index` stand beside them: the directory's next form, whose entries of a transaction are found and counted exactly. Nothing calls it yet.
#![tactic(auto)]

pub mod catalogue;
pub mod directory;
mod emptied;
mod entries;
pub mod entry;
mod front;
mod index;
mod ledger;
mod lengths;
mod marks;
mod pages;
mod places;
mod reserves;
mod rooms;
mod slot;
mod slots;
pub mod space;
mod tables;
#[cfg(test)]
mod tests;
mod tree;

pub use catalogue::catalogue_key;
pub use space::{NoSpace, TableSpace};

//! Fast recovery: what the records of the log make of pages and rows.
//!
//! Read in this order: the parts, which are the owners of pages, the rows in slots and the standing changes; the replay of a
//! log, which has all three; the tables that pages and rows stand for, which are found by the rows of the catalogue first and
//! the other rows after them; opening, which replays the log of a disk, where each record is in order and in its place,
//! and transactions are numbered rising; and `log_laws`, what is kept of the records that are appended from there on.
#![tactic(auto)]

mod catalogue;
#[cfg(test)]
mod damage_tests;
mod fault;
mod in_place;
pub mod laws;
pub mod log_laws;
mod names;
mod numbers;
pub mod opening;
#[cfg(test)]
mod opening_tests;
pub mod owner;
mod owners;
mod past;
pub mod replay;
mod roll_forward;
mod rows;
mod slots;
mod standing;
pub mod tables;
#[cfg(test)]
mod tests;

pub use fault::OpenFault;
pub use numbers::TableNumbers;
pub use standing::TxChange;

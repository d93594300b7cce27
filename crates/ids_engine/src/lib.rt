//! The engine of the server. It formats disks, `init_disk`, and keeps the tables of one session on a disk, `Store`.
#![tactic(auto)]

mod blank;
mod change;
mod held_rows;
mod indexing;
mod init;
pub mod journal_laws;
mod keyed_slots;
pub mod laws;
mod making;
mod pages;
mod placing;
mod ranges;
mod row_keys;
mod store;
pub mod store_laws;
mod store_opening;
mod taking_back;

pub use held_rows::HeldRows;
pub use init::{InitPlan, init_disk};
pub use pages::Pages;
pub use store::{Changed, Store, StoreFault};

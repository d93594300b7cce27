//! The map of the chunks: the identity page, which says how a disk is laid out, and the two checkpoint pages, the newest of
//! which says where the log's tail begins.
//!
//! Start with `Layout` and `CheckpointPage`; `identity` and `checkpoint` read and write their pages.
#![tactic(auto)]

mod bytes;
mod checkpoint;
mod fault;
mod identity;
pub mod laws;
mod layout;
mod root_page;

pub use checkpoint::{CheckpointPage, newest, write_next};
pub use fault::MapFault;
pub use identity::{has_pages, read_identity, write_identity};
pub use layout::Layout;

#[cfg(test)]
mod tests;

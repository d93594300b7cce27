//! Data pages of 2048 bytes.
//!
//! A page is owned by a table and has slots for its rows, or nobody owns it. `Page` is what callers use; `reading` says which
//! bytes are a page, and `laws` that bytes and pages say the same.
#![tactic(auto)]

pub mod laws;
pub mod page;
mod reading;
#[cfg(test)]
mod tests;

pub use ids_base::numbers::PAGE_BYTES;
pub use page::Page;

//! Rows and their bytes.
//!
//! A row is its columns one after another: an INTEGER takes 4 bytes, a CHAR its size. The catalogue, table 1, has a row of
//! another form for each table. Read `shapes` and `rows`, then `catalogue`; `laws` says that bytes and rows stand for one another.
#![tactic(auto)]

pub mod catalogue;
pub mod laws;
mod pieces;
pub mod rows;
pub mod shapes;
#[cfg(test)]
mod tests;

pub use catalogue::{CatalogueRow, decode_table, encode_table};
pub use ids_base::name::Name;
pub use ids_base::shape::{Column, Kind, Shape};
pub use ids_base::value::{Row, Value};
pub use rows::{decode, encode};
pub use shapes::{has_row_length, is_shape, row_length};

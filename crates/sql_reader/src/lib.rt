//! Scripts, read exactly: which bytes are a script, which statements it holds, and the plan of each.
//!
//! A script is lines. A line is empty, a comment, or a statement with an optional `;` behind it. Read in this order:
//! tokens and their bytes, the table of places, a line, a script, plans, laws.
#![tactic(auto)]

mod byte;
mod convert;
pub mod laws;
pub mod line;
pub mod place;
pub mod plan;
pub mod reach;
mod reader;
pub mod script;
pub mod token;

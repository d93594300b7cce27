//! What `ids` promises, as definitions: tables, what a statement means where one thread runs all, legal journals, replies
//! and journals that match a script, and the text of replies (`specs/`). Beside them stand tables in memory and a plain
//! interpreter, whose contracts are these definitions. Read in this order: effects and the journal, what a condition says
//! of a row, tables in memory, the interpreter, and the laws that the crates above cite.
#![tactic(auto)]

pub mod effect;
pub mod interpret;
pub mod journal;
pub mod laws;
pub mod outcome;
pub mod recovery_laws;
pub mod rows;
pub mod table;
pub mod tables;
pub mod undo;

//! Doubly linked lists by index: a fixed number of lists, and ids that stand in at most one of them, once.
//!
//! `lists` has the lists as callers see them, `web` the nodes and links below.
#![tactic(auto)]

pub mod lists;
mod web;

pub use lists::Lists;

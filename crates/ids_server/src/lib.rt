//! The top call, `server`, and what it is made of.
//!
//! Read in this order: the words, reading a script to its end, the printer, the texts of replies, the runner of one session, its laws,
//! a script run in a session, opening, and the server. The theorem of the product is the contract of `server::server`.
#![tactic(auto)]

pub mod laws;
mod opening;
pub mod printer;
pub mod reading;
mod runner;
pub mod server;
mod session;
pub mod text;
pub mod words;

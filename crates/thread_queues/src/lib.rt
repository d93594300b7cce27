//! Threads that are ready, wait, sleep or run, each in exactly one place.
//!
//! `Event` is what a thread may wait for, and `Threads` keeps the queues and the processors. Inside, `slots` has the threads in queues, by
//! number, `buckets` those that wait, by event, and `limits` when each is due; `growth` makes room for one more, and `order` finds the
//! first of them behind another.
#![tactic(auto)]

mod buckets;
mod due;
pub mod event;
mod growth;
mod limits;
mod order;
pub mod places;
mod slots;
#[cfg(test)]
mod tests;

pub use event::{Event, Place};
pub use places::Threads;

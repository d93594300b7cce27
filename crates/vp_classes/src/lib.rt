//! Requests to the classes of virtual processors, first in, first out.
//!
//! `IoRequest` is what may be asked for, and `Requests` keeps what was asked for and not yet taken, each request once.
#![tactic(auto)]

mod marks;
pub mod queues;
pub mod request;

pub use queues::Requests;
pub use request::IoRequest;

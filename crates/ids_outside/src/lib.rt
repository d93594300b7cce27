//! The outside: what the server reads from, writes to and keeps its tables on.
//!
//! `Source`, `Sink`, `Disk` and `Gate` are traits, so that the server is one function over all of them. Each call of
//! the first three may fail, and a fault comes only where the object's count of faults rose. `MemSource`, `MemSink` and
//! `MemDisk` stand in memory, tell their bytes and fail by a list. `StdSource`, `StdSink` and `FileDisk` are the real
//! ones, a thin edge over the standard library that tells nothing of its bytes.
#![tactic(auto)]

mod chunks;
mod disk;
mod failures;
mod file_disk;
mod gate;
pub mod laws;
mod leave;
mod mem_disk;
mod mem_sink;
mod mem_source;
mod record;
mod sink;
mod source;
mod std_streams;

pub use chunks::is_image;
pub use disk::{Disk, DiskFault};
pub use file_disk::FileDisk;
pub use gate::{Gate, OpenGate, Point};
pub use leave::Leave;
pub use mem_disk::MemDisk;
pub use mem_sink::MemSink;
pub use mem_source::MemSource;
pub use sink::{Sink, SinkFault};
pub use source::{Source, SourceFault};
pub use std_streams::{StdSink, StdSource};

#[cfg(test)]
mod tests;

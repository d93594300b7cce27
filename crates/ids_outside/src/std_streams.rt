//! The standard streams, as a source and a sink that tell nothing of their bytes.
ghost use Rattle.std.specs.Prelude.{◌≡◌, ◌≤◌, ◌<◌, ℕ, [], length, IfOk};

use crate::{Sink, SinkFault, Source, SourceFault};
use std::io::{self, ErrorKind, Read, Write};
use std::marker::Model;
use std::thread;
use std::time::Duration;

// The milliseconds that a stream rests that would block.
const REST: u64 = 1;

// Whether a call may succeed when it is made again: at once where a signal came between, and after a rest where a stream that does
// not block has no byte, or no room, yet.
fn passes(rt: &HostRuntime, kind: ErrorKind) -> bool {
    match kind {
        ErrorKind::Interrupted => true,
        ErrorKind::WouldBlock => {
            thread::sleep(rt, Duration::from_millis(REST));
            true
        }
        _ => false,
    }
}

// Reads until bytes come, or the end, or a fault that does not pass.
fn read_patiently<R: Read>(rt: &HostRuntime, input: &mut R, into: &mut [u8]) -> io::Result<usize>
    ensures { IfOk result (λ n. n ≤ length into.old) }
{
    for _ in 0..u64::MAX {
        match input.read(into) {
            Ok(count) => return Ok(count),
            Err(error) if passes(rt, error.kind()) => {}
            Err(error) => return Err(error),
        }
    }
    Err(io::Error::from(ErrorKind::TimedOut))
}

// Writes until bytes were taken, or a fault comes that does not pass.
fn write_patiently<W: Write>(rt: &HostRuntime, output: &mut W, bytes: &[u8]) -> io::Result<usize>
    ensures { IfOk result (λ n. n ≤ length bytes.now) }
{
    for _ in 0..u64::MAX {
        match output.write(bytes) {
            Ok(count) => return Ok(count),
            Err(error) if passes(rt, error.kind()) => {}
            Err(error) => return Err(error),
        }
    }
    Err(io::Error::from(ErrorKind::TimedOut))
}

/// A source over a reader, as standard input. It reads straight into the caller's buffer, so a large one is best. A read that a
/// signal interrupts is made again, and one that would block waits.
#[derive(Drop)]
pub struct StdSource<R> {
    rt: HostRuntime,
    input: R,
    faults: u64,
}

impl<R> Model for StdSource<R> {
    ghost Value = { ℕ };

    ghost view = { λ s. s.faults };
}

impl<R: Read> StdSource<R> {
    /// A source over this reader, with no fault yet.
    pub fn new(rt: &HostRuntime, input: R) -> StdSource<R>
        ensures { result ≡ 0 }
    {
        StdSource {
            rt: *rt,
            input,
            faults: 0,
        }
    }
}

impl<R: Read> Source for StdSource<R> {
    ghost tells = { ⊥ };

    ghost left = { λ s. [] };

    ghost fault_count = { λ s. s };

    fn read(&mut self, into: &mut [u8]) -> Result<usize, SourceFault> {
        match read_patiently(&self.rt, &mut self.input, into) {
            Ok(count) => Ok(count),
            Err(_) => {
                self.faults = self.faults.saturating_add(1);
                Err(SourceFault)
            }
        }
    }
}

/// A sink over a writer, as standard output. It writes each piece at once, so the caller gathers. A write that a signal interrupts
/// is made again, and one that would block waits.
#[derive(Drop)]
pub struct StdSink<W> {
    rt: HostRuntime,
    output: W,
    faults: u64,
}

impl<W> Model for StdSink<W> {
    ghost Value = { ℕ };

    ghost view = { λ s. s.faults };
}

impl<W: Write> StdSink<W> {
    /// A sink over this writer, with no fault yet.
    pub fn new(rt: &HostRuntime, output: W) -> StdSink<W>
        ensures { result ≡ 0 }
    {
        StdSink {
            rt: *rt,
            output,
            faults: 0,
        }
    }
}

impl<W: Write> Sink for StdSink<W> {
    ghost tells = { ⊥ };

    ghost taken = { λ s. [] };

    ghost fault_count = { λ s. s };

    fn faults(&self) -> u64 {
        self.faults
    }

    // A write of no byte of a piece that is not empty is a fault.
    fn write(&mut self, bytes: &[u8]) -> Result<usize, SinkFault> {
        match write_patiently(&self.rt, &mut self.output, bytes) {
            Ok(count) if count > 0 || bytes.is_empty() => Ok(count),
            _ => {
                self.faults = self.faults.saturating_add(1);
                Err(SinkFault)
            }
        }
    }
}

//! A printer: gathers bytes for a sink, and writes them in large pieces.
ghost use Rattle.std.specs.Prelude.{◌≡◌, ◌≤◌, ◌++◌, List, ℕ, [], take, drop, length, true, false};
ghost use Rattle.ids_outside.specs.Counts.{Rose};
ghost use Rattle.ids_server.specs.Printing.{IsFront, TakesPart, Carries, IsCaused, PrinterCarries, PrinterIsCaused, PrinterGrows, PrinterPuts};

use ids_outside::Sink;
use std::alloc::Global;
use std::marker::Model;

// The bytes that are gathered at most.
const ROOM: usize = 65536;

/// A sink, the bytes that it has yet to take, and whether it failed. Once it failed, nothing more is written.
pub struct Printer<K> {
    sink: K,
    failed: bool,
    buffer: Vec<u8>,
    used: usize,
}

impl<K> Model for Printer<K> {
    ghost use Rattle.std.specs.Prelude.{◌≤◌, take, length};
    ghost use Rattle.ids_server.specs.Printing.{Printed};

    ghost Value = { Printed K };

    ghost view = { λ p. record { sink = p.sink; gathered = take p.used p.buffer.items; failed = p.failed } };

    ghost invariant = { λ p. p.used ≤ length p.buffer.items };
}

// Brings all bytes to a sink, unless it fails.
fn write_all<K: Sink>(sink: &mut K, bytes: &[u8]) -> bool
    ensures whole { result ≡ true → K.tells → K.taken sink.new ≡ K.taken sink.old ++ bytes.now }
    ensures part { result ≡ false → K.tells → TakesPart (K.taken sink.old) (K.taken sink.new) bytes.now }
    ensures later { K.fault_count sink.old ≤ K.fault_count sink.new }
    ensures cause { result ≡ false → Rose (K.fault_count sink.old) (K.fault_count sink.new) }
{
    let mut done = 0;
    while done < bytes.len() {
        let Ok(count) = sink.write(&bytes[done..]) else {
            return false;
        };
        done += count;
    }
    true
}

// Brings bytes to a sink that has not failed; answers whether it has failed by then.
fn bring<K: Sink>(sink: &mut K, failed: bool, bytes: &[u8]) -> bool
    ensures stays { failed ≡ true → result ≡ true }
    ensures grows { K.tells → IsFront (K.taken sink.old) (K.taken sink.new) }
    ensures carries { (text : List ℕ) → Carries K.tells (K.taken sink.old) bytes.now failed text → Carries K.tells (K.taken sink.new) [] result text }
    ensures caused { (first : ℕ) → IsCaused first (K.fault_count sink.old) failed → IsCaused first (K.fault_count sink.new) result }
{
    failed || !write_all(sink, bytes)
}

impl<K: Sink> Printer<K> {
    /// A printer of this sink. Where memory is wanting it gathers nothing, and each piece is written by itself.
    pub fn new(alloc: Global, sink: K) -> Self
        ensures { result ≡ record { sink = sink; gathered = []; failed = false } }
    {
        let buffer = match vec![in alloc; 0; ROOM] {
            Ok(buffer) => buffer,
            Err(_) => Vec::new(alloc),
        };
        Printer {
            sink,
            failed: false,
            buffer,
            used: 0,
        }
    }

    /// Whether the sink failed.
    pub fn has_failed(&self) -> bool
        ensures { result ≡ self.now.failed }
    {
        self.failed
    }

    /// Writes what is gathered.
    pub fn flush(&mut self)
        ensures grows { PrinterGrows K.tells K.taken self.old self.new }
        ensures carries { (text : List ℕ) → PrinterCarries K.tells K.taken self.old text → PrinterCarries K.tells K.taken self.new text }
        ensures caused { (first : ℕ) → PrinterIsCaused K.fault_count self.old first → PrinterIsCaused K.fault_count self.new first }
        ensures empty { self.new.gathered ≡ [] }
        ensures stays { self.old.failed ≡ true → self.new.failed ≡ true }
    {
        self.failed = bring(&mut self.sink, self.failed, &self.buffer[..self.used]);
        self.used = 0;
    }

    // Gathers bytes where there is room, and answers whether there was.
    fn gather(&mut self, bytes: &[u8]) -> bool
        ensures gathered { result ≡ true → self.new ≡ record { sink = self.old.sink; gathered = self.old.gathered ++ bytes.now; failed = self.old.failed } }
        ensures full { result ≡ false → self.new ≡ self.old }
    {
        if bytes.len() > self.buffer.len() - self.used {
            return false;
        }
        let end = self.used + bytes.len();
        self.buffer[self.used..end].copy_from_slice(bytes);
        self.used = end;
        true
    }

    // Brings bytes to the sink at once.
    fn pass(&mut self, bytes: &[u8])
        requires empty { self.old.gathered ≡ [] }
        ensures { PrinterPuts K.tells K.taken K.fault_count self.old self.new bytes.now }
    {
        self.failed = bring(&mut self.sink, self.failed, bytes);
    }

    /// Puts bytes at the end of the text. Takes no memory.
    pub fn put(&mut self, bytes: &[u8])
        ensures { PrinterPuts K.tells K.taken K.fault_count self.old self.new bytes.now }
    {
        if self.gather(bytes) {
            return;
        }
        self.flush();
        if !self.gather(bytes) {
            self.pass(bytes);
        }
    }

    /// The sink. What is gathered is dropped.
    pub fn into_sink(self) -> K
        ensures { result ≡ self.sink }
    {
        let Printer {
            sink,
            failed: _,
            buffer: _,
            used: _,
        } = self;
        sink
    }
}

//! A sink in memory.
ghost use Rattle.std.specs.Prelude.{◌≡◌, ◌<◌, ◌≤◌, ◌++◌, ◌↔◌, [], length, take, IfOk, OnOk, OnErr, IsErr, IsTrue};
ghost use Rattle.ids_outside.specs.Counts.{HasCause, next_count};
ghost use Rattle.ids_outside.specs.Memory.{is_listed};

use crate::failures::Failures;
use crate::{Sink, SinkFault};
use std::alloc::Global;
use std::marker::Model;

/// A sink that keeps what it took in memory, and tells it.
#[derive(Drop)]
pub struct MemSink {
    taken: Vec<u8>,
    failures: Failures,
}

impl Model for MemSink {
    ghost use Rattle.ids_outside.specs.Memory.{SinkState};

    ghost Value = { SinkState };

    ghost view = { λ s. record { taken = s.taken.items; listed = s.failures.listed.items; calls = s.failures.calls; faults = s.failures.faults } };
}

impl MemSink {
    /// A sink that has taken nothing, whose calls with the listed numbers, counted from 1, fail.
    pub fn new(alloc: Global, fails: Vec<u64>) -> MemSink
        ensures { result ≡ record { taken = []; listed = fails.items; calls = 0; faults = 0 } }
    {
        MemSink {
            taken: Vec::new(alloc),
            failures: Failures::new(fails),
        }
    }

    /// The bytes that it took.
    pub fn taken(&self) -> &[u8]
        ensures { result.now ≡ self.now.taken }
    {
        &self.taken
    }
}

impl Sink for MemSink {
    ghost tells = { Unit {0} };

    ghost taken = { λ s. s.taken };

    ghost fault_count = { λ s. s.faults };

    fn faults(&self) -> u64 {
        self.failures.faults
    }

    fn write(&mut self, bytes: &[u8]) -> Result<usize, SinkFault>
        ensures count { IfOk result (λ n. n ≤ length bytes.now) }
        ensures some { IfOk result (λ n. 0 < length bytes.now → 0 < n) }
        ensures takes { IfOk result (λ n. self.new.taken ≡ self.old.taken ++ take n bytes.now) }
        ensures refused { OnErr result (self.new.taken ≡ self.old.taken) }
        ensures cause { HasCause self.old.faults self.new.faults result }
        // It fails at the listed calls, and where its own record finds no memory. Beside that it takes the whole piece.
        ensures numbered { self.new.calls ≡ next_count self.old.calls }
        ensures listed { IsTrue (is_listed self.old.listed self.new.calls) → IsErr result }
        ensures constant { OnOk result (self.new.faults ≡ self.old.faults) }
        ensures whole { IfOk result (λ n. n ≡ length bytes.now) }
        ensures same { self.new.listed ≡ self.old.listed }
    {
        if self.failures.next_fails() {
            return Err(SinkFault);
        }
        if self.taken.extend_from_slice(bytes).is_err() {
            self.failures.count_fault();
            return Err(SinkFault);
        }
        Ok(bytes.len())
    }
}

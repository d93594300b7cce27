//! A source in memory.
ghost use Rattle.std.specs.Prelude.{◌≡◌, ◌<◌, ◌≤◌, ◌++◌, ◌↔◌, [], length, take, drop, IfOk, OnErr, IsErr, IsTrue};
ghost use Rattle.ids_outside.specs.Counts.{HasCause, next_count};
ghost use Rattle.ids_outside.specs.Memory.{is_listed};

use crate::failures::Failures;
use crate::{Source, SourceFault};
use std::marker::Model;

/// A source over bytes in memory, which tells them.
#[derive(Drop)]
pub struct MemSource {
    bytes: Vec<u8>,
    at: usize,
    failures: Failures,
}

impl Model for MemSource {
    ghost use Rattle.std.specs.Prelude.{◌≤◌, drop, length};
    ghost use Rattle.ids_outside.specs.Memory.{SourceState};

    ghost Value = { SourceState };

    ghost view = { λ s. record { left = drop s.at s.bytes.items; listed = s.failures.listed.items; calls = s.failures.calls; faults = s.failures.faults } };

    ghost invariant = { λ s. s.at ≤ length s.bytes.items };
}

impl MemSource {
    /// A source of these bytes, whose calls with the listed numbers, counted from 1, fail.
    pub fn new(bytes: Vec<u8>, fails: Vec<u64>) -> MemSource
        ensures { result ≡ record { left = bytes.items; listed = fails.items; calls = 0; faults = 0 } }
    {
        MemSource {
            bytes,
            at: 0,
            failures: Failures::new(fails),
        }
    }

    /// How often it has failed.
    pub fn faults(&self) -> u64
        ensures { result ≡ self.now.faults }
    {
        self.failures.faults
    }
}

impl Source for MemSource {
    ghost tells = { Unit {0} };

    ghost left = { λ s. s.left };

    ghost fault_count = { λ s. s.faults };

    fn read(&mut self, into: &mut [u8]) -> Result<usize, SourceFault>
        ensures count { IfOk result (λ n. n ≤ length into.old) }
        ensures given { IfOk result (λ n. self.old.left ≡ take n into.new ++ self.new.left) }
        ensures the_end { IfOk result (λ n. n ≡ 0 → 0 < length into.old → self.old.left ≡ []) }
        ensures refused { OnErr result (self.new.left ≡ self.old.left) }
        ensures cause { HasCause self.old.faults self.new.faults result }
        // It fails exactly at the listed calls, so with none listed the count is constant.
        ensures numbered { self.new.calls ≡ next_count self.old.calls }
        ensures listed { IsErr result ↔ IsTrue (is_listed self.old.listed self.new.calls) }
        ensures constant { self.old.listed ≡ [] → self.new.faults ≡ self.old.faults }
        ensures same { self.new.listed ≡ self.old.listed }
    {
        if self.failures.next_fails() {
            return Err(SourceFault);
        }
        let left = &self.bytes[self.at..];
        let count = into.len().min(left.len());
        into[..count].copy_from_slice(&left[..count]);
        self.at += count;
        Ok(count)
    }
}

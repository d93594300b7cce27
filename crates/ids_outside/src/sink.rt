//! Where the replies go.
ghost use Rattle.std.specs.Prelude.{◌≡◌, ◌<◌, ◌≤◌, ◌++◌, List, ℕ, length, take, IfOk, OnErr};
ghost use Rattle.ids_outside.specs.Counts.{HasCause};

use thiserror::Error;

/// A sink took no bytes.
#[derive(Clone, Copy, Debug, Drop, PartialEq, Eq, Error)]
#[error("the sink failed")]
pub struct SinkFault;

/// A sink of bytes.
pub trait Sink {
    /// Whether sinks of this kind tell their bytes.
    ghost tells: { Type 0 };

    /// The bytes that it took, where they are told.
    ghost taken: { Self → List ℕ };

    /// How often it has failed.
    ghost fault_count: { Self → ℕ };

    /// How often it has failed.
    fn faults(&self) -> u64
        ensures { result ≡ fault_count self.now };

    /// Takes a front of the piece, at least one byte of one that is not empty, and answers how many. A fault takes none.
    fn write(&mut self, bytes: &[u8]) -> Result<usize, SinkFault>
        ensures count { IfOk result (λ n. n ≤ length bytes.now) }
        ensures some { IfOk result (λ n. 0 < length bytes.now → 0 < n) }
        ensures takes { IfOk result (λ n. tells → taken self.new ≡ taken self.old ++ take n bytes.now) }
        ensures refused { OnErr result (tells → taken self.new ≡ taken self.old) }
        ensures cause { HasCause (fault_count self.old) (fault_count self.new) result };
}

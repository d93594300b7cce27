//! Where the script comes from.
ghost use Rattle.std.specs.Prelude.{◌≡◌, ◌<◌, ◌≤◌, ◌++◌, [], List, ℕ, length, take, IfOk, OnErr};
ghost use Rattle.ids_outside.specs.Counts.{HasCause};

use thiserror::Error;

/// A source gave no bytes, and may have more.
#[derive(Clone, Copy, Debug, Drop, PartialEq, Eq, Error)]
#[error("the source failed")]
pub struct SourceFault;

/// A source of bytes, which is read to its end.
pub trait Source {
    /// Whether sources of this kind tell their bytes.
    ghost tells: { Type 0 };

    /// The bytes that it has yet to give, where they are told.
    ghost left: { Self → List ℕ };

    /// How often it has failed.
    ghost fault_count: { Self → ℕ };

    /// Gives some of the bytes that are left, as the front of the buffer, and answers how many. None for a buffer with
    /// room is the end. A fault gives none, and leaves the bytes that are left; what it did to the buffer is open.
    fn read(&mut self, into: &mut [u8]) -> Result<usize, SourceFault>
        ensures count { IfOk result (λ n. n ≤ length into.old) }
        ensures given { IfOk result (λ n. tells → left self.old ≡ take n into.new ++ left self.new) }
        ensures the_end { IfOk result (λ n. tells → n ≡ 0 → 0 < length into.old → left self.old ≡ []) }
        ensures refused { OnErr result (tells → left self.new ≡ left self.old) }
        ensures cause { HasCause (fault_count self.old) (fault_count self.new) result };
}

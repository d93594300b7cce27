//! A record at the front of bytes.
ghost use Rattle.std.specs.Prelude.{◌≡◌, ◌≢◌, ◌≤◌, ◌++◌, ℕ, List, length, take, IfOk, IfSome, IfNone};
ghost use Rattle.log_records.specs.Entries.{Entry};
ghost use Rattle.log_records.specs.Says.{entry_of};
ghost use Rattle.log_records.specs.Spelling.{entry_bytes, IsEntry};
ghost use Rattle.log_records.specs.Taken.{IsTaken, IsNoRecord};

use crate::reading::record_at;
use crate::record::Record;
use ids_base::memory::Memory;
use std::alloc::Global;

/// The record at the front of the bytes and how many bytes it takes; `None` exactly where there is none. Linear in the
/// record's size.
pub fn take(alloc: Global, bytes: &[u8]) -> Result<Option<(Record, usize)>, Memory>
    // What is taken is spelled so.
    ensures found { IfOk result (λ o. IfSome o (λ x. IsTaken bytes.now (entry_of x.0) x.1)) }
    // What is spelled so is taken, whatever follows.
    ensures none { IfOk result (λ o. IfNone o (IsNoRecord bytes.now)) }
{
    let Some((view, rest)) = record_at(bytes) else {
        return Ok(None);
    };
    let size = bytes.len() - rest.len();
    Ok(Some((view.to_record(alloc)?, size)))
}

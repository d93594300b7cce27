//! What a stop makes of the calls that are pending.
ghost use Rattle.std.specs.Prelude.{◌≡◌, ◌≤◌, ◌<◌, ℕ, length, drop, slice_index_or, true, false, OnOk};
ghost use Rattle.ids_outside.specs.MemoryDisk.{images, put, extended};
ghost use Rattle.ids_outside.specs.Remade.{is_synced, SomeBytes, Remade, done};
ghost use Rattle.ids_outside.specs.Kinds.{write_left, tear_left, grow_left, call_left, is_next_second as next_second, calls_by, has_sync};

use crate::chunks;
use crate::record::{Call, Entry};
use std::alloc::AllocError;

/// What a stop makes of the writes and grows since the last sync.
#[derive(Clone, Copy, Debug, Drop, PartialEq, Eq)]
pub enum Leave {
    /// None of them.
    Old,
    /// All of them.
    New,
    /// Every second write, and all grows.
    Half,
    /// Each range that was written, and each new page, is filled with this byte.
    Torn(u8),
}

// Whether a call is a sync.
fn is_sync(call: &Call) -> bool
    ensures { result ≡ is_synced call.now }
{
    match call {
        Call::Wrote(..) | Call::Tore(..) | Call::Grew(..) => false,
        Call::Synced => true,
    }
}

// How many entries stand up to the last sync by a moment.
pub fn synced_entries(entries: &[Entry], moment: u64) -> usize
    ensures few { result ≤ length entries.now }
    ensures last { (k : ℕ) (d : Entry) → result ≤ k → k < length entries.now → (slice_index_or entries.now k d).moment ≤ moment
        → is_synced (slice_index_or entries.now k d).call ≡ false }
    ensures synced { (k : ℕ) → k < result → has_sync (calls_by moment (drop k entries.now)) ≡ true }
{
    let mut synced = 0;
    for (i, entry) in entries.iter().enumerate() {
        if entry.moment <= moment && is_sync(&entry.call) {
            synced = i + 1;
        }
    }
    synced
}

// Whether the next write is a second one, by whether this call would be.
pub fn is_next_second(second: bool, call: &Call) -> bool
    ensures { result ≡ next_second second call.now }
{
    match call {
        Call::Wrote(..) => !second,
        Call::Tore(..) | Call::Grew(..) | Call::Synced => second,
    }
}

// Makes a call again, or what a stop leaves of it. A write counts where it is a second one.
pub fn remake(
    image: &mut Vec<Vec<u8>>,
    call: &Call,
    leave: Leave,
    second: bool,
) -> Result<(), AllocError>
    ensures left { OnOk result (images image.new.items ≡ call_left leave second call.now (images image.old.items)) }
    ensures some { OnOk result (Remade call.now (images image.old.items) (images image.new.items)) }
    ensures new { OnOk result (leave ≡ Leave.New → images image.new.items ≡ done call.now (images image.old.items)) }
{
    match call {
        Call::Wrote(chunk, at, bytes) => {
            write_some(image, *chunk as usize, *at as usize, bytes, leave, second);
            Ok(())
        }
        Call::Tore(chunk, at, len) => {
            tear_some(image, *chunk as usize, *at as usize, *len, leave);
            Ok(())
        }
        Call::Grew(chunk, pages) => grow_some(image, *chunk as usize, *pages, leave),
        Call::Synced => Ok(()),
    }
}

fn write_some(
    image: &mut Vec<Vec<u8>>,
    chunk: usize,
    at: usize,
    bytes: &[u8],
    leave: Leave,
    second: bool,
)
    ensures left { images image.new.items ≡ write_left leave second chunk at bytes.now (images image.old.items) }
    ensures some { SomeBytes chunk at (length bytes.now) (images image.old.items) (images image.new.items) }
    ensures new { leave ≡ Leave.New → images image.new.items ≡ put (images image.old.items) chunk at bytes.now }
{
    match leave {
        Leave::Old => {}
        Leave::New => chunks::write(image, chunk, at, bytes),
        Leave::Half => {
            if second {
                chunks::write(image, chunk, at, bytes);
            }
        }
        Leave::Torn(byte) => chunks::fill(image, chunk, at, bytes.len(), byte),
    }
}

fn tear_some(image: &mut Vec<Vec<u8>>, chunk: usize, at: usize, len: usize, leave: Leave)
    ensures left { images image.new.items ≡ tear_left leave chunk at len (images image.old.items) }
    ensures some { SomeBytes chunk at len (images image.old.items) (images image.new.items) }
    ensures new { leave ≡ Leave.New → images image.new.items ≡ images image.old.items }
{
    match leave {
        Leave::Old | Leave::New | Leave::Half => {}
        Leave::Torn(byte) => chunks::fill(image, chunk, at, len, byte),
    }
}

fn grow_some(
    image: &mut Vec<Vec<u8>>,
    chunk: usize,
    pages: u32,
    leave: Leave,
) -> Result<(), AllocError>
    ensures left { OnOk result (images image.new.items ≡ grow_left leave chunk pages (images image.old.items)) }
    ensures some { OnOk result (Remade (Call.Grew chunk pages) (images image.old.items) (images image.new.items)) }
    ensures new { OnOk result (leave ≡ Leave.New → images image.new.items ≡ extended (images image.old.items) chunk pages 0) }
{
    match leave {
        Leave::Old => Ok(()),
        Leave::New | Leave::Half => chunks::extend(image, chunk, pages, 0),
        Leave::Torn(byte) => chunks::extend(image, chunk, pages, byte),
    }
}

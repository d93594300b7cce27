// The record that a disk in memory keeps of the calls that change it.
ghost use Rattle.std.specs.Prelude.{◌≡◌, ◌++◌, [], ◌∷◌, ℕ, IsTrue, not};
ghost use Rattle.ids_outside.specs.Recorded.{Notes, NotesWrite};

use std::alloc::Global;

// A call that changes a disk, or may.
#[derive(Drop)]
pub enum Call {
    // These bytes were written at a chunk's offset.
    Wrote(u32, u64, Vec<u8>),
    // A write of so many bytes failed.
    Tore(u32, u64, usize),
    // A chunk was made at least so many pages long.
    Grew(u32, u32),
    // All was brought to the disk.
    Synced,
}

// A call, and the moment behind it.
#[derive(Drop)]
pub struct Entry {
    pub moment: u64,
    pub call: Call,
}

// Notes a call, and answers whether there was memory for it.
pub fn note(entries: &mut Vec<Entry>, moment: u64, call: Call) -> bool
    ensures noted { IsTrue result → Notes moment call entries.old.items entries.new.items }
    ensures refused { IsTrue (not result) → entries.new.items ≡ entries.old.items }
{
    entries.push(Entry { moment, call }).is_ok()
}

// Notes a write, and answers whether there was memory for it.
pub fn note_write(
    alloc: Global,
    entries: &mut Vec<Entry>,
    moment: u64,
    chunk: u32,
    at: u64,
    bytes: &[u8],
) -> bool
    ensures noted { IsTrue result → NotesWrite moment chunk at bytes.now entries.old.items entries.new.items }
    ensures refused { IsTrue (not result) → entries.new.items ≡ entries.old.items }
{
    match bytes.to_vec(alloc) {
        Ok(copy) => note(entries, moment, Call::Wrote(chunk, at, copy)),
        Err(_) => false,
    }
}

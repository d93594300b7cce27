//! The body of a log block: its number and its records, which it keeps as their bytes.
ghost use Rattle.std.specs.Prelude.{◌≡◌, ◌==◌, ◌+◌, ◌≤◌, ◌++◌, ◌↔◌, [], ◌∷◌, length, take, option_map, is_some, IsTrue};
ghost use Rattle.std.specs.Bool.{OnTrue, OnFalse};
ghost use Rattle.std.specs.List.{AllByRecursion, list_all};
ghost use Rattle.log_records.specs.Bodies.{entries_size, entries_bytes, records_at, whole_at};
ghost use Rattle.log_records.specs.Viewed.{view_entry};
ghost use Rattle.log_records.specs.Spelling.{entry_size, IsEntry};

use crate::cursor::Records;
use crate::reading::record_at;
use crate::view::RecordView;
use crate::writing::put_record;
use std::marker::Model;

/// How many bytes the records of a body may take.
pub const RECORD_BYTES: usize = 2004;

/// The body of a log block. Contracts see its number and what its records say, in order; the records take at most
/// 2004 bytes.
#[derive(Drop)]
pub struct BlockBody {
    number: u64,
    used: u16,
    count: u16,
    bytes: [u8; 2004],
}

impl Model for BlockBody {
    ghost use Rattle.log_records.specs.Bodies.{Body};
    ghost use Rattle.log_records.specs.Keeping.{kept, IsKept};

    ghost Value = { Body };

    ghost view = { λ a. record { number = a.number; entries = kept a.count a.used a.bytes } };

    ghost invariant = { λ a. IsKept a.count a.used a.bytes };
}

/// Puts a record at the end of a body, where it fits; else nothing changes. Takes no memory; in time of the record's size.
pub fn put(view: RecordView, body: &mut BlockBody) -> bool
    ensures fits { IsTrue result ↔ (entries_size body.old.entries + entry_size (view_entry view.entry) ≤ 2004) }
    ensures put { OnTrue result (body.new ≡ record body.old { entries = body.old.entries ++ view_entry view.entry ∷ [] }) }
    ensures refused { OnFalse result (body.new ≡ body.old) }
{
    let size = view.size();
    if !body.has_room(size) {
        return false;
    }
    body.append(&view, size);
    true
}

impl BlockBody {
    /// A body with no record.
    pub fn new(number: u64) -> BlockBody
        ensures { result ≡ record { number = number; entries = [] } }
    {
        BlockBody {
            number,
            used: 0,
            count: 0,
            bytes: blank(),
        }
    }

    /// The number of the block.
    pub fn number(&self) -> u64
        ensures { result ≡ self.now.number }
    {
        self.number
    }

    /// Gives the block another number.
    pub fn set_number(&mut self, number: u64)
        ensures { self.new ≡ record self.old { number = number } }
    {
        self.number = number;
    }

    /// How many records there are.
    pub fn count(&self) -> u16
        ensures { result ≡ length self.now.entries }
    {
        self.count
    }

    /// How many bytes the records take.
    pub fn used(&self) -> u16
        ensures used { result ≡ entries_size self.now.entries }
        ensures room { result ≤ 2004 }
        // The fields of all of them are in their ranges.
        ensures each { AllByRecursion IsEntry self.now.entries }
    {
        self.used
    }

    /// Whether there is no record.
    pub fn is_empty(&self) -> bool
        ensures { IsTrue result ↔ (self.now.entries ≡ []) }
    {
        self.count == 0
    }

    /// Whether a record of so many bytes fits.
    pub fn has_room(&self, size: u16) -> bool
        ensures { IsTrue result ↔ (entries_size self.now.entries + size ≤ 2004) }
    {
        size as usize <= RECORD_BYTES - self.used() as usize
    }

    /// The records, one by one in order. Constant time, no memory.
    pub fn cursor(&self) -> Records<'_>
        ensures { result ≡ self.now.entries }
    {
        Records {
            count: self.count(),
            rest: self.record_bytes(),
        }
    }

    /// The bytes of the records, one after another.
    pub(crate) fn record_bytes(&self) -> &[u8]
        ensures bytes { result.now ≡ entries_bytes self.now.entries }
        ensures each { AllByRecursion IsEntry self.now.entries }
    {
        &self.bytes[..self.used as usize]
    }

    // Puts a record for which there is room.
    fn append(&mut self, view: &RecordView, size: u16)
        requires size { size ≡ entry_size (view_entry view.now) }
        requires room { entries_size self.old.entries + size ≤ 2004 }
        ensures { self.new ≡ record self.old { entries = self.old.entries ++ view_entry view.now ∷ [] } }
    {
        put_record(&mut self.bytes, self.used as usize, view);
        self.used += size;
        self.count += 1;
    }

    /// The body whose records are all of the bytes up to those used, with zeros behind them, if they are so many.
    pub(crate) fn from_records(
        number: u64,
        used: u16,
        count: u16,
        bytes: &[u8],
    ) -> Option<BlockBody>
        ensures { result ≡ option_map (λ es. record { number = number; entries = es }) (records_at used count bytes.now) }
    {
        if used > 2004 || count < 1 || bytes.len() != 2035 {
            return None;
        }
        let (records, zeros) = bytes.split_at(used as usize);
        if !are_zero(zeros) || !are_records(count, records) {
            return None;
        }
        Some(BlockBody {
            number,
            used,
            count,
            bytes: padded(records),
        })
    }
}

// Whether the bytes are so many records.
fn are_records(count: u16, bytes: &[u8]) -> bool
    ensures { result ≡ is_some (whole_at count bytes.now) }
{
    let mut rest = bytes;
    for _ in 0..count {
        let Some((_, after)) = record_at(rest) else {
            return false;
        };
        rest = after;
    }
    rest.is_empty()
}

fn are_zero(bytes: &[u8]) -> bool
    ensures { result ≡ list_all (λ b. b == 0) bytes.now }
{
    bytes.iter().all(|b| *b == 0)
}

// The bytes, with others behind them.
fn padded(bytes: &[u8]) -> [u8; 2004]
    requires { length bytes.now ≤ 2004 }
    ensures front { take (length bytes.now) result ≡ bytes.now }
    ensures long { length result ≡ 2004 }
{
    let mut all = blank();
    all[..bytes.len()].copy_from_slice(bytes);
    all
}

fn blank() -> [u8; 2004]
    ensures { length result ≡ 2004 }
{
    [0; 2004]
}

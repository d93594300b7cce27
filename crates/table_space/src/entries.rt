//! The entries of one key, in the order in which they were made.
ghost use Rattle.std.specs.Prelude.{◌≡◌, ◌&&◌, ◌<◌, true, ℕ, ◌%◌, length, slice_set};
ghost use Rattle.std.specs.Prelude.{position};
ghost use Rattle.std.specs.List.{list_any};
ghost use Rattle.std.specs.Int.{bit_at};
ghost use Rattle.table_space.specs.Entries.{has_row, is_new, blocks};
ghost use Rattle.table_space.specs.Noted.{row_of, made, changed, noted, has_entry_for, is_alone};
ghost use Rattle.table_space.specs.Indexed.{AreMarks, goes};
ghost use Rattle.table_space.specs.Slots.{IsExchanged};

use crate::entry::{Entry, Held};
use ids_base::numbers::TxNo;

/// The mark of a number without entries. Those below it are for transactions.
pub(crate) const FREE: u32 = 63;

/// An entry that a transaction makes.
pub(crate) fn made(tx: TxNo) -> Entry
    ensures { result ≡ made tx }
{
    Entry {
        held: Held::Nowhere,
        tx,
    }
}

/// An entry with this row id that a transaction filled or emptied.
pub(crate) fn changed(row: u32, filled: bool, tx: TxNo) -> Entry
    ensures { result ≡ changed row filled tx }
{
    let held = if filled {
        Held::Filled(row)
    } else {
        Held::Emptied(row)
    };
    Entry { held, tx }
}

/// The row id of the filled entry, if there is one. Linear.
pub(crate) fn row_of(entries: &[Entry]) -> Option<u32>
    ensures { result ≡ row_of entries.now }
{
    for entry in entries {
        if let Some(row) = entry.row() {
            return Some(row);
        }
    }
    None
}

// Where the first entry with this row id is.
fn with_row(entries: &[Entry], row: u32) -> Option<usize>
    ensures { result ≡ position (has_row row) entries.now }
{
    entries.iter().position(|entry| entry.has_row(row))
}

// Where the first entry without a row id is.
fn without_row(entries: &[Entry]) -> Option<usize>
    ensures { result ≡ position is_new entries.now }
{
    entries.iter().position(|entry| entry.is_new())
}

// Whether an entry has this row id.
fn some_with_row(entries: &[Entry], row: u32) -> bool
    ensures { result ≡ list_any (has_row row) entries.now }
{
    entries.iter().any(|entry| entry.has_row(row))
}

// Whether an entry has no row id.
fn some_new(entries: &[Entry]) -> bool
    ensures { result ≡ list_any is_new entries.now }
{
    entries.iter().any(|entry| entry.is_new())
}

/// Whether an entry has this row id or, where it is to be filled, has none. Linear.
pub(crate) fn has_entry_for(entries: &[Entry], row: u32, filled: bool) -> bool
    ensures { result ≡ has_entry_for row filled entries.now }
{
    some_with_row(entries, row) || filled && some_new(entries)
}

/// Whether no entry is filled but the first with this row id. Linear.
#[tactic(auto, using(crate::proofs::Alone::next_some, crate::proofs::Alone::next_none))]
pub(crate) fn is_alone(entries: &[Entry], row: u32) -> bool
    ensures { result ≡ is_alone row entries.now }
{
    let mut met = false;
    for entry in entries {
        match entry.meets(row, met) {
            Some(now) => met = now,
            None => return false,
        }
    }
    true
}

/// The entry with this row id, else one without a row id, gets the row id and is filled or emptied. Answers the entry as it was. Linear.
pub(crate) fn note(entries: &mut [Entry], row: u32, filled: bool, tx: TxNo) -> Entry
    requires { has_entry_for row filled entries.old ≡ true }
    ensures noted { entries.new ≡ noted row filled tx entries.old }
    ensures was { IsExchanged entries.old entries.new result (changed row filled tx) }
{
    let entry = changed(row, filled, tx);
    match with_row(entries, row) {
        Some(at) => replace(entries, at, entry),
        None => match without_row(entries) {
            Some(at) => replace(entries, at, entry),
            None => unreachable!(),
        },
    }
}

// Another entry in place of the one that is answered.
fn replace(entries: &mut [Entry], at: usize, entry: Entry) -> Entry
    requires { at < length entries.old }
    ensures set { entries.new ≡ slice_set entries.old at entry }
    ensures was { IsExchanged entries.old entries.new result entry }
{
    let was = entries[at];
    entries[at] = entry;
    was
}

// The marks, with that of a transaction where an entry goes with it.
fn with_mark(marks: u64, entry: &Entry) -> u64
    ensures here { goes entry.now.tx entry.now ≡ true → bit_at result (entry.now.tx % 63) ≡ 1 }
    ensures kept { (mark : ℕ) → bit_at marks mark ≡ 1 → bit_at result mark ≡ 1 }
    ensures free { bit_at result 63 ≡ bit_at marks 63 }
{
    if entry.is_filled() {
        marks
    } else {
        marks | 1 << mark_of(entry.tx)
    }
}

/// The mark of a transaction. Constant time.
pub(crate) fn mark_of(tx: TxNo) -> u32
    ensures { result ≡ tx % 63 }
{
    (tx % 63) as u32
}

/// The marks of entries: for each transaction that one of them goes with its number modulo 63, and `FREE` where there are none. Linear.
pub(crate) fn marks_of(entries: &[Entry]) -> u64
    ensures { AreMarks entries.now result }
{
    if entries.is_empty() {
        return 1 << FREE;
    }
    let mut marks = 0;
    for entry in entries {
        marks = with_mark(marks, entry);
    }
    marks
}

/// Whether one of the entries blocks a slot. Linear.
pub(crate) fn some_block(entries: &[Entry], row: u32, tx: TxNo) -> bool
    ensures { result ≡ list_any (blocks row tx) entries.now }
{
    entries.iter().any(|entry| entry.blocks(row, tx))
}

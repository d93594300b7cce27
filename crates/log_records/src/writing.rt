//! Writing records: each call writes bytes from a place on, and answers the place behind them.
//!
//! A record is its whole length (2 bytes), its kind (1), its transaction (8; 0 for a checkpoint) and its fields. Numbers stand
//! with the highest byte first; L is the length of a row, 1 to 800.
//!
//! | Kind | Record | Fields | Length |
//! |---|---|---|---|
//! | 1 | BEGIN | session 4 | 15 |
//! | 2, 3 | COMMIT, ROLLBACK | none | 11 |
//! | 4 | HINSERT | table 4, row id 4, L 2, row after L | 21 + L |
//! | 5 | HDELETE | table 4, row id 4, L 2, row before L | 21 + L |
//! | 6 | HUPDATE | table 4, row id 4, L 2, row before L, row after L | 21 + 2 L |
//! | 7 | CKPOINT | count 2, then for each transaction its number 8 and its BEGIN: block 8, index 2 | 13 + 18 count |
ghost use Rattle.std.specs.Prelude.{◌≡◌, ℕ, ◌+◌, ◌*◌, ◌≤◌, ◌<◌, ◌^◌, ◌++◌, [], ◌∷◌, length, take};
ghost use Rattle.std.specs.Int.{w16, w32, w64};
ghost use Rattle.std.specs.List.{flat_map};
ghost use Rattle.ids_base.specs.RowIds.{row_number};
ghost use Rattle.log_records.specs.Naming.{named_of};
ghost use Rattle.log_records.specs.Spelling.{number_bytes, kind_of, tx_of, entry_size, place_bytes, row_bytes, named_bytes, fields_bytes, entry_bytes, AreBytes, IsChange, AreNamed, IsEntry};
ghost use Rattle.log_records.specs.Viewed.{change_entry, named_in, view_entry};

use crate::change::ChangeView;
use crate::named::NamedList;
use crate::view::{NamedView, RecordView};
use ids_base::numbers::{TableNo, TxNo};
use ids_base::position::OpenTx;
use ids_base::row_id::RowId;

/// A record.
#[tactic(auto, unfolding(crate::specs::Spelling::entry_bytes))]
pub fn put_record(into: &mut [u8], at: usize, view: &RecordView) -> usize
    requires { at + entry_size (view_entry view.now) ≤ length into.old }
    ensures end { result ≡ at + entry_size (view_entry view.now) }
    ensures front { take result into.new ≡ take at into.old ++ entry_bytes (view_entry view.now) }
    ensures entry { IsEntry (view_entry view.now) }
{
    let at = put_u16(into, at, view.size());
    let at = put_bytes(into, at, &[view.code()]);
    let at = put_u64(into, at, view.tx());
    put_fields(into, at, view)
}

/// A number of 8 bytes.
#[tactic(auto, unfolding(crate::specs::Spelling::number_bytes))]
pub fn put_u64(into: &mut [u8], at: usize, n: u64) -> usize
    requires { at + 8 ≤ length into.old }
    ensures end { result ≡ at + 8 }
    ensures front { take result into.new ≡ take at into.old ++ number_bytes w64 n }
{
    put_bytes(into, at, &n.to_be_bytes())
}

/// A number of 2 bytes.
#[tactic(auto, unfolding(crate::specs::Spelling::number_bytes))]
pub fn put_u16(into: &mut [u8], at: usize, n: u16) -> usize
    requires { at + 2 ≤ length into.old }
    ensures end { result ≡ at + 2 }
    ensures front { take result into.new ≡ take at into.old ++ number_bytes w16 n }
{
    put_bytes(into, at, &n.to_be_bytes())
}

/// Bytes as they are.
pub fn put_bytes(into: &mut [u8], at: usize, bytes: &[u8]) -> usize
    requires { at + length bytes.now ≤ length into.old }
    ensures end { result ≡ at + length bytes.now }
    ensures front { take result into.new ≡ take at into.old ++ bytes.now }
    ensures fits { AreBytes bytes.now }
{
    let end = at + bytes.len();
    into[at..end].copy_from_slice(bytes);
    end
}

#[tactic(auto, unfolding(crate::specs::Spelling::number_bytes))]
fn put_u32(into: &mut [u8], at: usize, n: u32) -> usize
    requires { at + 4 ≤ length into.old }
    ensures end { result ≡ at + 4 }
    ensures front { take result into.new ≡ take at into.old ++ number_bytes w32 n }
{
    put_bytes(into, at, &n.to_be_bytes())
}

// What follows the transaction of a record.
fn put_fields(into: &mut [u8], at: usize, view: &RecordView) -> usize
    requires { at + entry_size (view_entry view.now) ≤ length into.old + 11 }
    ensures end { result + 11 ≡ at + entry_size (view_entry view.now) }
    ensures front { take result into.new ≡ take at into.old ++ fields_bytes (view_entry view.now) }
    ensures entry { tx_of (view_entry view.now) < 2 ^ 64 → IsEntry (view_entry view.now) }
{
    match view {
        RecordView::Begin { session, .. } => put_u32(into, at, *session),
        RecordView::Commit { .. } | RecordView::Rollback { .. } => at,
        RecordView::Change { tx, change } => put_rows(into, at, *tx, change),
        RecordView::Ckpoint { named } => put_named(into, at, named),
    }
}

// A table, a row id, and the rows behind their length.
fn put_rows(into: &mut [u8], at: usize, tx: TxNo, change: &ChangeView) -> usize
    requires { at + entry_size (change_entry tx change.now) ≤ length into.old + 11 }
    ensures end { result + 11 ≡ at + entry_size (change_entry tx change.now) }
    ensures front { take result into.new ≡ take at into.old ++ fields_bytes (change_entry tx change.now) }
    ensures entry { IsEntry (change_entry tx change.now) }
{
    match (change.before, change.after) {
        (None, Some(row)) | (Some(row), None) => {
            put_change(into, at, change.table, change.row, row)
        }
        (Some(before), Some(after)) => {
            let at = put_change(into, at, change.table, change.row, before);
            put_bytes(into, at, after)
        }
        (None, None) => unreachable!(),
    }
}

// A table, a row id, and a row behind its length.
fn put_change(into: &mut [u8], at: usize, table: TableNo, row: RowId, bytes: &[u8]) -> usize
    requires room { at + 10 + length bytes.now ≤ length into.old }
    requires short { length bytes.now < 2 ^ 16 }
    ensures end { result ≡ at + 10 + length bytes.now }
    ensures front { take result into.new ≡ take at into.old ++ (place_bytes table (row_number row.page row.slot) ++ row_bytes bytes.now) }
    ensures change { (tx : ℕ) → tx < 2 ^ 64 → IsChange tx table (row_number row.page row.slot) }
    ensures fits { AreBytes bytes.now }
{
    let at = put_u32(into, at, table);
    let at = put_u32(into, at, row.number());
    let at = put_u16(into, at, bytes.len() as u16);
    put_bytes(into, at, bytes)
}

// A named transaction.
fn put_open_tx(into: &mut [u8], at: usize, open_tx: OpenTx) -> usize
    requires { at + 18 ≤ length into.old }
    ensures end { result ≡ at + 18 }
    ensures front { take result into.new ≡ take at into.old ++ named_bytes (named_of open_tx) }
{
    let at = put_u64(into, at, open_tx.tx);
    let at = put_u64(into, at, open_tx.begin.block);
    put_u16(into, at, open_tx.begin.index)
}

// The number of named transactions, and each of them.
fn put_named(into: &mut [u8], at: usize, named: &NamedView) -> usize
    requires { at + 2 + 18 * length (named_in named.now) ≤ length into.old }
    ensures end { result ≡ at + 2 + 18 * length (named_in named.now) }
    ensures front { take result into.new ≡ take at into.old ++ (number_bytes w16 (length (named_in named.now)) ++ flat_map named_bytes (named_in named.now)) }
    ensures named { AreNamed (named_in named.now) }
{
    match named {
        NamedView::Listed(list) => put_list(into, at, list),
        NamedView::Lying(bytes) => {
            let at = put_u16(into, at, bytes.count());
            put_bytes(into, at, bytes.spelled())
        }
    }
}

// The same of a list.
fn put_list(into: &mut [u8], at: usize, named: &NamedList) -> usize
    requires { at + 2 + 18 * length named.now ≤ length into.old }
    ensures end { result ≡ at + 2 + 18 * length named.now }
    ensures front { take result into.new ≡ take at into.old ++ (number_bytes w16 (length named.now) ++ flat_map named_bytes named.now) }
    ensures named { AreNamed named.now }
{
    let list = named.as_slice();
    let mut next = put_u16(into, at, list.len() as u16);
    for open_tx in list {
        next = put_open_tx(into, next, *open_tx);
    }
    next
}

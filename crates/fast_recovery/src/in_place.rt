//! Where records of the log may stand.
ghost use Rattle.std.specs.Prelude.{◌≡◌, ◌≤◌, ℕ, length};
ghost use Rattle.ids_base.specs.RowBytes.{HasRowLength};
ghost use Rattle.ids_base.specs.RowIds.{row_number};
ghost use Rattle.log_records.specs.Viewed.{change_entry, view_entry};
ghost use Rattle.fast_recovery.specs.InPlace.{in_place, is_there, is_table_number, is_page_of, may_be_page_of, may_put, may_be};

use crate::owner::Owner;
use crate::replay::Replay;
use ids_base::numbers::TableNo;
use ids_base::row_id::{RowId, slots_per_page};
use log_records::change::ChangeView;
use log_records::view::RecordView;

/// Whether a record is in its place among the pages from 1 to this many, after what was replayed. Logarithmic time.
pub(crate) fn is_in_place(replay: &Replay, pages: u32, view: &RecordView) -> bool
    ensures { result ≡ in_place pages replay.now.own (view_entry view.now) }
{
    match view {
        RecordView::Begin { .. }
        | RecordView::Commit { .. }
        | RecordView::Rollback { .. }
        | RecordView::Ckpoint { .. } => true,
        RecordView::Change { change, .. } => is_change_in_place(replay, pages, change),
    }
}

// Whether a change is.
fn is_change_in_place(replay: &Replay, pages: u32, change: &ChangeView) -> bool
    ensures { (tx : ℕ) → result ≡ in_place pages replay.now.own (change_entry tx change.now) }
{
    let table = change.table;
    let row = change.row;
    match (change.before, change.after) {
        (None, Some(after)) => may_put(replay, pages, table, row, after),
        (Some(before), None) | (Some(before), Some(_)) => may_be(replay, pages, table, row, before),
        (None, None) => unreachable!(),
    }
}

// Whether a row of a table may be put into a slot.
fn may_put(replay: &Replay, pages: u32, table: TableNo, row: RowId, bytes: &[u8]) -> bool
    requires { HasRowLength bytes.now }
    ensures { result ≡ may_put pages replay.now.own table (row_number row.page row.slot) (length bytes.now) }
{
    let size = bytes.len() as u16;
    is_table_number(table)
        && is_there(pages, row, size)
        && may_be_page_of(replay.owner_at(row.page), table, size)
}

// Whether a row of a table may be in a slot.
fn may_be(replay: &Replay, pages: u32, table: TableNo, row: RowId, bytes: &[u8]) -> bool
    requires { HasRowLength bytes.now }
    ensures { result ≡ may_be pages replay.now.own table (row_number row.page row.slot) (length bytes.now) }
{
    let size = bytes.len() as u16;
    is_there(pages, row, size) && is_page_of(replay.owner_at(row.page), table, size)
}

// Whether a page and a slot are there, where rows have so many bytes.
fn is_there(pages: u32, row: RowId, size: u16) -> bool
    requires some { 1 ≤ size }
    requires few { size ≤ 800 }
    ensures { result ≡ is_there pages (row_number row.page row.slot) size }
{
    1 <= row.page && row.page <= pages && 1 <= row.slot && row.slot <= slots_per_page(size)
}

// Whether the catalogue or another table can have this number.
fn is_table_number(table: TableNo) -> bool
    ensures { result ≡ is_table_number table }
{
    table == 1 || table >= 100
}

// Whether a page with this owner is one of the table with rows of this length.
fn is_page_of(owner: Option<Owner>, table: TableNo, size: u16) -> bool
    ensures { result ≡ is_page_of owner table size }
{
    match owner {
        None => false,
        Some(owner) => owner.table == table && owner.row_length == size,
    }
}

// Whether it is, or has no owner.
fn may_be_page_of(owner: Option<Owner>, table: TableNo, size: u16) -> bool
    ensures { result ≡ may_be_page_of owner table size }
{
    owner.is_none() || is_page_of(owner, table, size)
}

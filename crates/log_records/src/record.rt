//! What the records of the logical log say.
ghost use Rattle.std.specs.Prelude.{◌≡◌, IfOk};
ghost use Rattle.log_records.specs.Says.{entry_of};
ghost use Rattle.log_records.specs.Viewed.{view_entry};

use crate::change::ChangeView;
use crate::named::NamedList;
pub use crate::updated::Updated;
use crate::view::{NamedView, RecordView};
use ids_base::memory::Memory;
use ids_base::numbers::{TableNo, TxNo};
use ids_base::row_bytes::RowBytes;
use ids_base::row_id::RowId;
use std::alloc::Global;

/// A record of the logical log.
///
/// The types of the fields keep their ranges: a row has 1 to 800 bytes, both rows of an update have one length, and a
/// checkpoint names at most 64 transactions by rising number.
#[derive(Drop)]
pub enum Record {
    /// A transaction of a session begins.
    Begin {
        tx: TxNo,
        session: u32,
    },
    /// It ends, and its changes stand.
    Commit {
        tx: TxNo,
    },
    /// It ends, and its changes were taken back.
    Rollback {
        tx: TxNo,
    },
    /// A row was put into an empty slot.
    HInsert {
        tx: TxNo,
        table: TableNo,
        row: RowId,
        after: RowBytes,
    },
    /// A row was taken out of its slot.
    HDelete {
        tx: TxNo,
        table: TableNo,
        row: RowId,
        before: RowBytes,
    },
    /// A row was replaced in its slot.
    HUpdate {
        tx: TxNo,
        table: TableNo,
        row: RowId,
        rows: Updated,
    },
    /// A checkpoint, and the transactions that were open.
    Ckpoint {
        named: NamedList,
    },
}

impl Record {
    /// The same record, whose rows and named transactions lie in this one. Constant time.
    pub fn view(&self) -> RecordView<'_>
        ensures { view_entry result ≡ entry_of self.now }
    {
        match self {
            Record::Begin { tx, session } => RecordView::Begin {
                tx: *tx,
                session: *session,
            },
            Record::Commit { tx } => RecordView::Commit { tx: *tx },
            Record::Rollback { tx } => RecordView::Rollback { tx: *tx },
            Record::HInsert {
                tx,
                table,
                row,
                after,
            } => RecordView::Change {
                tx: *tx,
                change: ChangeView {
                    table: *table,
                    row: *row,
                    before: None,
                    after: Some(after.bytes()),
                },
            },
            Record::HDelete {
                tx,
                table,
                row,
                before,
            } => RecordView::Change {
                tx: *tx,
                change: ChangeView {
                    table: *table,
                    row: *row,
                    before: Some(before.bytes()),
                    after: None,
                },
            },
            Record::HUpdate {
                tx,
                table,
                row,
                rows,
            } => RecordView::Change {
                tx: *tx,
                change: ChangeView {
                    table: *table,
                    row: *row,
                    before: Some(rows.before.bytes()),
                    after: Some(rows.after.bytes()),
                },
            },
            Record::Ckpoint { named } => RecordView::Ckpoint {
                named: NamedView::Listed(named),
            },
        }
    }

    /// The same record, in time of its size.
    pub fn copy(&self, alloc: Global) -> Result<Record, Memory>
        ensures { IfOk result (λ copy. entry_of copy ≡ entry_of self.now) }
    {
        self.view().to_record(alloc)
    }
}

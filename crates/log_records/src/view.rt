//! Records whose rows and named transactions lie elsewhere.
ghost use Rattle.std.specs.Prelude.{◌≡◌, ◌≤◌, ℕ, length, IfOk};
ghost use Rattle.log_records.specs.Kinds.{kind_code};
ghost use Rattle.log_records.specs.Says.{entry_of};
ghost use Rattle.log_records.specs.Viewed.{view_entry, change_entry, named_in};
ghost use Rattle.log_records.specs.Spelling.{AreNamed, entry_size, tx_of, kind_of};

use crate::change::ChangeView;
use crate::kind::{Kind, code_of};
use crate::named::NamedList;
use crate::named_bytes::NamedBytes;
use crate::record::{Record, Updated};
use ids_base::memory::Memory;
use ids_base::numbers::TxNo;
use ids_base::row_bytes::RowBytes;
use std::alloc::Global;

/// What a record says, its rows and named transactions where they lie: in a record of its own, in the bytes of a block, or
/// wherever a program keeps them.
///
/// The types of the fields keep their ranges: a change has a row before or after it, of 1 to 800 bytes, both of one length, and a
/// checkpoint names at most 64 transactions by rising number.
#[derive(Drop)]
pub enum RecordView<'a> {
    /// A transaction of a session begins.
    Begin { tx: TxNo, session: u32 },
    /// It ends, and its changes stand.
    Commit { tx: TxNo },
    /// It ends, and its changes were taken back.
    Rollback { tx: TxNo },
    /// A row was put into an empty slot, taken out of its slot, or replaced there.
    Change { tx: TxNo, change: ChangeView<'a> },
    /// A checkpoint, and the transactions that were open.
    Ckpoint { named: NamedView<'a> },
}

/// The open transactions that a checkpoint names, where they lie.
#[derive(Drop)]
pub enum NamedView<'a> {
    /// In a list.
    Listed(&'a NamedList),
    /// In the bytes of a record.
    Lying(NamedBytes<'a>),
}

impl NamedView<'_> {
    /// How many they are.
    pub fn count(&self) -> u16
        ensures count { result ≡ length (named_in self.now) }
        ensures named { AreNamed (named_in self.now) }
    {
        match self {
            NamedView::Listed(list) => list.as_slice().len() as u16,
            NamedView::Lying(bytes) => bytes.count(),
        }
    }

    /// The transactions as a list of its own, in time of their number.
    pub fn to_list(&self, alloc: Global) -> Result<NamedList, Memory>
        ensures { IfOk result (λ list. list ≡ named_in self.now) }
    {
        match self {
            NamedView::Listed(list) => list.copy(alloc),
            NamedView::Lying(bytes) => bytes.to_list(alloc),
        }
    }
}

impl RecordView<'_> {
    /// How many bytes the record takes in the log. Constant time.
    pub fn size(&self) -> u16
        ensures size { result ≡ entry_size (view_entry self.now) }
        ensures least { 11 ≤ result }
        ensures most { result ≤ 1621 }
    {
        match self {
            RecordView::Begin { .. } => 15,
            RecordView::Commit { .. } | RecordView::Rollback { .. } => 11,
            RecordView::Change { change, .. } => change_size(change),
            RecordView::Ckpoint { named } => 13 + 18 * named.count(),
        }
    }

    /// The record's transaction; 0 for a checkpoint. Constant time.
    #[tactic(auto, using(crate::proofs::SlotEntries::tx_of_slot))]
    pub fn tx(&self) -> TxNo
        ensures { result ≡ tx_of (view_entry self.now) }
    {
        match self {
            RecordView::Begin { tx, .. }
            | RecordView::Commit { tx }
            | RecordView::Rollback { tx }
            | RecordView::Change { tx, .. } => *tx,
            RecordView::Ckpoint { .. } => 0,
        }
    }

    /// A record of its own that says the same, in time of its size.
    pub fn to_record(&self, alloc: Global) -> Result<Record, Memory>
        ensures { IfOk result (λ made. entry_of made ≡ view_entry self.now) }
    {
        match self {
            RecordView::Begin { tx, session } => Ok(Record::Begin {
                tx: *tx,
                session: *session,
            }),
            RecordView::Commit { tx } => Ok(Record::Commit { tx: *tx }),
            RecordView::Rollback { tx } => Ok(Record::Rollback { tx: *tx }),
            RecordView::Change { tx, change } => change_record(alloc, *tx, change),
            RecordView::Ckpoint { named } => Ok(Record::Ckpoint {
                named: named.to_list(alloc)?,
            }),
        }
    }

    // The number of the record's kind.
    pub(crate) fn code(&self) -> u8
        ensures { result ≡ kind_of (view_entry self.now) }
    {
        code_of(match self {
            RecordView::Begin { .. } => Kind::Begin,
            RecordView::Commit { .. } => Kind::Commit,
            RecordView::Rollback { .. } => Kind::Rollback,
            RecordView::Change { change, .. } => kind_of_change(change),
            RecordView::Ckpoint { .. } => Kind::Ckpoint,
        })
    }
}

// The size of a change's record.
fn change_size(change: &ChangeView) -> u16
    ensures size { (tx : ℕ) → result ≡ entry_size (change_entry tx change.now) }
    ensures least { 11 ≤ result }
    ensures most { result ≤ 1621 }
{
    match (change.before, change.after) {
        (None, Some(row)) | (Some(row), None) => 21 + row.len() as u16,
        (Some(before), Some(after)) => 21 + before.len() as u16 + after.len() as u16,
        (None, None) => unreachable!(),
    }
}

// The kind of a change's record.
fn kind_of_change(change: &ChangeView) -> Kind
    ensures { (tx : ℕ) → kind_code result ≡ kind_of (change_entry tx change.now) }
{
    match (change.before, change.after) {
        (None, Some(_)) => Kind::HInsert,
        (Some(_), None) => Kind::HDelete,
        (Some(_), Some(_)) => Kind::HUpdate,
        (None, None) => unreachable!(),
    }
}

// The record of a change.
fn change_record(alloc: Global, tx: TxNo, change: &ChangeView) -> Result<Record, Memory>
    ensures { IfOk result (λ made. entry_of made ≡ change_entry tx change.now) }
{
    let table = change.table;
    let row = change.row;
    match (change.before, change.after) {
        (None, Some(after)) => Ok(Record::HInsert {
            tx,
            table,
            row,
            after: RowBytes::new(alloc, after)?,
        }),
        (Some(before), None) => Ok(Record::HDelete {
            tx,
            table,
            row,
            before: RowBytes::new(alloc, before)?,
        }),
        (Some(before), Some(after)) => Ok(Record::HUpdate {
            tx,
            table,
            row,
            rows: Updated {
                before: RowBytes::new(alloc, before)?,
                after: RowBytes::new(alloc, after)?,
            },
        }),
        (None, None) => unreachable!(),
    }
}

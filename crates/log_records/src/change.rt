//! Changes of slots.
ghost use Rattle.std.specs.Prelude.{◌≡◌, IfOk, IfSome, option_copied};
ghost use Rattle.ids_base.specs.RowBytes.{HasRowLength};
ghost use Rattle.log_records.specs.SlotRows.{HaveOneLength, HaveOneLength-prop, AreSlotRows, AreSlotRows-prop};

use ids_base::memory::Memory;
use ids_base::numbers::TableNo;
use ids_base::row_bytes::RowBytes;
use ids_base::row_id::RowId;
use std::alloc::Global;

/// A change of a slot whose rows lie elsewhere: the row before it and the row after it, at least one, each of 1 to 800 bytes and both of
/// one length.
#[derive(Drop)]
pub struct ChangeView<'a> {
    pub table: TableNo,
    pub row: RowId,
    pub before: Option<&'a [u8]>,
    pub after: Option<&'a [u8]>,
    ghost rows: { AreSlotRows (option_copied before) (option_copied after) } by { AreSlotRows-prop (option_copied before) (option_copied after) },
}

impl ChangeView<'_> {
    /// A change of its own that says the same, in time of its rows.
    pub fn to_change(&self, alloc: Global) -> Result<Change, Memory>
        ensures table { IfOk result (λ made. made.table ≡ self.now.table) }
        ensures row { IfOk result (λ made. made.row ≡ self.now.row) }
        ensures before { IfOk result (λ made. made.before ≡ option_copied self.now.before) }
        ensures after { IfOk result (λ made. made.after ≡ option_copied self.now.after) }
    {
        Ok(Change {
            table: self.table,
            row: self.row,
            before: to_row(alloc, self.before)?,
            after: to_row(alloc, self.after)?,
        })
    }
}

/// A change of a slot: the row before it and the row after it, at least one, and both of one length.
#[derive(Drop)]
pub struct Change {
    pub table: TableNo,
    pub row: RowId,
    pub before: Option<RowBytes>,
    pub after: Option<RowBytes>,
    ghost rows: { HaveOneLength before after } by { HaveOneLength-prop before after },
}

impl Change {
    /// The same change, whose rows lie in this one. Constant time.
    pub fn view(&self) -> ChangeView<'_>
        ensures table { result.table ≡ self.now.table }
        ensures row { result.row ≡ self.now.row }
        ensures before { option_copied result.before ≡ self.now.before }
        ensures after { option_copied result.after ≡ self.now.after }
    {
        ChangeView {
            table: self.table,
            row: self.row,
            before: bytes_of(&self.before),
            after: bytes_of(&self.after),
        }
    }
}

fn to_row(alloc: Global, bytes: Option<&[u8]>) -> Result<Option<RowBytes>, Memory>
    requires { IfSome (option_copied bytes) HasRowLength }
    ensures { IfOk result (λ row. row ≡ option_copied bytes.entry) }
{
    match bytes {
        None => Ok(None),
        Some(bytes) => Ok(Some(RowBytes::new(alloc, bytes)?)),
    }
}

fn bytes_of(row: &Option<RowBytes>) -> Option<&[u8]>
    ensures bytes { option_copied result ≡ row.now }
    ensures length { IfSome row.now HasRowLength }
{
    match row {
        None => None,
        Some(row) => Some(row.bytes()),
    }
}

//! The rows of tables.
ghost use Rattle.std.specs.Prelude.{◌≡◌, ◌∷◌, [], List, ℕ, IfOk, IfErr, OnOk, MatchOption};
ghost use Rattle.std.specs.FinMap as map;
ghost use Rattle.ids_model.specs.Slots.{Slots};
ghost use Rattle.fast_recovery.specs.BrokenRows.{IsBrokenRow};
ghost use Rattle.fast_recovery.specs.Reading.{AreNames};
ghost use Rattle.fast_recovery.specs.RowsRead.{RowsRead, IsNewRow, HasNoNewRow};

use crate::names::TableNames;
use crate::owners::Owners;
use crate::slots::FilledSlots;
use crate::tables::TablesFault;
use ids_base::memory::Memory;
use ids_base::name::Name;
use ids_model::effect::Effect;
use ids_model::tables::PlainTables;
use row_codec::decode;
use std::alloc::Global;

/// Puts all rows that are none of the catalogue into their tables. Linear in the rows, with logarithmic look-ups.
pub(crate) fn put_rows(
    alloc: Global,
    owners: &Owners,
    slots: &FilledSlots,
    names: &TableNames,
    tables: &mut PlainTables,
) -> Result<(), TablesFault>
    ensures ok { OnOk result (AreNames owners.now slots.now names.now → RowsRead owners.now slots.now (map.entries slots.now) tables.old → RowsRead owners.now slots.now [] tables.new) }
    ensures damaged { IfErr result (λ e. (row : ℕ) → e ≡ TablesFault.Damaged row → AreNames owners.now slots.now names.now → RowsRead owners.now slots.now (map.entries slots.now) tables.old → IsBrokenRow owners.now slots.now row) }
{
    for (slot, row) in slots.iter() {
        put_row(alloc, owners, names, tables, *slot, row.bytes())?;
    }
    Ok(())
}

// Puts a row into its table, if it is none of the catalogue.
fn put_row(
    alloc: Global,
    owners: &Owners,
    names: &TableNames,
    tables: &mut PlainTables,
    slot: u32,
    bytes: &[u8],
) -> Result<(), TablesFault>
    ensures ok { OnOk result ((slots : Slots) (rest : List (ℕ × List ℕ)) → AreNames owners.now slots names.now → RowsRead owners.now slots ((slot, bytes.now) ∷ rest) tables.old → RowsRead owners.now slots rest tables.new) }
    ensures damaged { IfErr result (λ e. (row : ℕ) → e ≡ TablesFault.Damaged row → (slots : Slots) (rest : List (ℕ × List ℕ)) → AreNames owners.now slots names.now → RowsRead owners.now slots ((slot, bytes.now) ∷ rest) tables.old → IsBrokenRow owners.now slots row) }
{
    let Some(owner) = owners.get(slot / 256) else {
        return Err(TablesFault::Damaged(slot));
    };
    if owner.table == 1 {
        return Ok(());
    }
    let Some(name) = names.get(owner.table) else {
        return Err(TablesFault::Damaged(slot));
    };
    let Some(effect) = new_row(alloc, tables, name, bytes)? else {
        return Err(TablesFault::Damaged(slot));
    };
    tables.apply(&[effect])?;
    Ok(())
}

// The effect that puts a row with these bytes into a table that has no row with its key.
fn new_row(
    alloc: Global,
    tables: &PlainTables,
    name: &Name,
    bytes: &[u8],
) -> Result<Option<Effect>, Memory>
    ensures { IfOk result (λ effect. MatchOption effect (HasNoNewRow tables.now name.now bytes.now) (λ e. IsNewRow tables.now name.now bytes.now e)) }
{
    let Some(table) = tables.table(name) else {
        return Ok(None);
    };
    let Some(row) = decode(alloc, table.shape(), bytes)? else {
        return Ok(None);
    };
    let Some(first) = row.as_slice().first() else {
        return Ok(None);
    };
    if table.row(first).is_some() {
        return Ok(None);
    }
    let key = first.copy(alloc)?;
    Ok(Some(Effect::Change {
        name: name.copy(),
        key,
        before: None,
        after: Some(row),
    }))
}

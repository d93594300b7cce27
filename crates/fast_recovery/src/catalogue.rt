//! The rows of the catalogue, and what they allow.
ghost use Rattle.std.specs.Prelude.{◌≡◌, ◌<◌, ◌^◌, ◌∷◌, [], List, ℕ, true, false, max, Some, None, is_some, IfOk, IfErr, OnOk};
ghost use Rattle.std.specs.FinMap as map;
ghost use Rattle.ids_base.specs.RowIds.{row_number};
ghost use Rattle.ids_model.specs.declared.effect.Effect.TheVariants.{NewTable};
ghost use Rattle.ids_model.specs.Rows.{is_shape};
ghost use Rattle.ids_model.specs.Slots.{Slots, own_at};
ghost use Rattle.ids_model.specs.Tables.{shape_at, apply};
ghost use Rattle.fast_recovery.specs.BrokenRows.{IsBrokenRow};
ghost use Rattle.fast_recovery.specs.Pages.{ArePages};
ghost use Rattle.fast_recovery.specs.Reading.{has_length, may_own, HaveGoodShapes};
ghost use Rattle.fast_recovery.specs.CatalogueRead.{CatalogueRead};

use crate::names::TableNames;
use crate::numbers::TableNumbers;
use crate::owner::Owner;
use crate::owners::Owners;
use crate::slots::FilledSlots;
use crate::tables::TablesFault;
use ids_base::memory::Memory;
use ids_base::name::Name;
use ids_base::numbers::{CATALOGUE, CATALOGUE_ROW, TableNo};
use ids_model::effect::Effect;
use ids_model::tables::PlainTables;
use row_codec::{CatalogueRow, decode_table, row_length};
use std::alloc::Global;

/// The tables that rows of the catalogue name, without rows; their numbers and names, and the greatest number, at least 99.
#[derive(Drop)]
pub(crate) struct Catalogue {
    pub tables: PlainTables,
    pub numbers: TableNumbers,
    pub names: TableNames,
    pub greatest: TableNo,
}

impl Catalogue {
    fn new(alloc: Global) -> Catalogue
        ensures { result ≡ record { tables = map.empty; numbers = map.empty; names = map.empty; greatest = 99 } }
    {
        Catalogue {
            tables: PlainTables::new(alloc),
            numbers: TableNumbers::new(alloc),
            names: TableNames::new(alloc),
            greatest: 99,
        }
    }

    /// What the rows of the catalogue say. Linear in all rows, with logarithmic look-ups.
    pub(crate) fn read(
        alloc: Global,
        owners: &Owners,
        slots: &FilledSlots,
    ) -> Result<Catalogue, TablesFault>
        ensures ok { IfOk result (λ c. CatalogueRead owners.now slots.now [] c) }
        ensures damaged { IfErr result (λ e. (row : ℕ) → e ≡ TablesFault.Damaged row → IsBrokenRow owners.now slots.now row) }
    {
        let mut catalogue = Catalogue::new(alloc);
        for (slot, row) in slots.iter() {
            catalogue.note(alloc, owners, *slot, row.bytes())?;
        }
        Ok(catalogue)
    }

    // Goes on by a row, if it is one of the catalogue.
    fn note(
        &mut self,
        alloc: Global,
        owners: &Owners,
        slot: u32,
        bytes: &[u8],
    ) -> Result<(), TablesFault>
        ensures ok { OnOk result ((slots : Slots) (rest : List (ℕ × List ℕ)) → CatalogueRead owners.now slots ((slot, bytes.now) ∷ rest) self.old → CatalogueRead owners.now slots rest self.new) }
        ensures damaged { IfErr result (λ e. (row : ℕ) → e ≡ TablesFault.Damaged row → (slots : Slots) (rest : List (ℕ × List ℕ)) → CatalogueRead owners.now slots ((slot, bytes.now) ∷ rest) self.old → IsBrokenRow owners.now slots row) }
    {
        let Some(owner) = owners.get(slot / 256) else {
            return Err(TablesFault::Damaged(slot));
        };
        if !owner.is_catalogue() {
            return Ok(());
        }
        let Some(row) = decode_table(alloc, bytes)? else {
            return Err(TablesFault::Damaged(slot));
        };
        if self.has_name(&row.name) || self.has_number(row.number) {
            return Err(TablesFault::Damaged(slot));
        }
        self.add(row)?;
        Ok(())
    }

    // Whether a table has the name.
    fn has_name(&self, name: &Name) -> bool
        ensures { result ≡ is_some (map.get self.now.tables name.now) }
    {
        self.tables.table(name).is_some()
    }

    // Whether a table has the number.
    fn has_number(&self, number: TableNo) -> bool
        ensures { result ≡ is_some (map.get self.now.names number) }
    {
        self.names.get(number).is_some()
    }

    // Puts a new table.
    fn add(&mut self, row: CatalogueRow) -> Result<(), Memory>
        requires name { shape_at self.old.tables row.name ≡ None }
        requires shape { is_shape row.shape ≡ true }
        ensures { OnOk result (self.new ≡ record { tables = apply self.old.tables (NewTable row.name row.shape); numbers = map.insert self.old.numbers row.name row.number; names = map.insert self.old.names row.number row.name; greatest = max self.old.greatest row.number }) }
    {
        self.greatest = self.greatest.max(row.number);
        self.names.set(row.number, row.name.copy())?;
        self.numbers.set(row.name.copy(), row.number)?;
        let effect = Effect::NewTable {
            name: row.name,
            shape: row.shape,
        };
        self.tables.apply(&[effect])
    }

    /// Refuses a page that has not the row length of its owner, by its slot 1. Linear in the pages, with logarithmic look-ups.
    pub(crate) fn check_pages(&self, owners: &Owners) -> Result<(), TablesFault>
        requires { HaveGoodShapes self.now.tables }
        ensures ok { OnOk result ((page : ℕ) (owner : ℕ × ℕ) → own_at owners.now page ≡ Some owner → may_own self.now.tables self.now.names owner ≡ true) }
        ensures damaged { IfErr result (λ e. (row : ℕ) → e ≡ TablesFault.Damaged row → (page : ℕ) × (owner : ℕ × ℕ) × (own_at owners.now page ≡ Some owner) × (may_own self.now.tables self.now.names owner ≡ false) × (row ≡ row_number page 1)) }
    {
        for (page, owner) in owners.iter() {
            if !self.allows(*owner) {
                return Err(TablesFault::Damaged(first_row(*page)));
            }
        }
        Ok(())
    }

    // Whether a page may have the owner.
    fn allows(&self, owner: Owner) -> bool
        requires { HaveGoodShapes self.now.tables }
        ensures { result ≡ may_own self.now.tables self.now.names owner }
    {
        if owner.table == CATALOGUE {
            return owner.row_length == CATALOGUE_ROW;
        }
        match self.names.get(owner.table) {
            None => true,
            Some(name) => self.has_length(name, owner.row_length),
        }
    }

    // Whether the rows of a table, if it is there, have the length.
    fn has_length(&self, name: &Name, length: u16) -> bool
        requires { HaveGoodShapes self.now.tables }
        ensures { result ≡ has_length length (shape_at self.now.tables name.now) }
    {
        match self.tables.table(name) {
            None => true,
            Some(table) => row_length(table.shape().as_slice()) == length as usize,
        }
    }
}

// The row id of slot 1 of a page.
fn first_row(page: u32) -> u32
    requires { page < 2 ^ 24 }
    ensures { result ≡ row_number page 1 }
{
    page * 256 + 1
}

//! The tables, their keys, and their places.
ghost use Rattle.std.specs.Prelude.{◌≡◌, ◌≤◌, ◌<◌, ◌+◌, ◌-◌, ◌^◌, ◌∷◌, ◌++◌, [], ◌↔◌, ◌&&◌, ℕ, true, option_copied, IsTrue, IfOk, OnOk, OnErr, MatchOption, slice_set, None, Some, if◌then◌else◌, nat_eq, is_some};
ghost use Rattle.ids_base.specs.RowIds.{row_number};
ghost use Rattle.table_space.specs.Catalogue.{catalogue_key_of};
ghost use Rattle.table_space.specs.Noted.{row_of, made, noted, has_entry_for, is_alone};
ghost use Rattle.indexmap.specs.IndexMap.{get};
ghost use Rattle.table_space.specs.Seen.{Changes, IsSame, Ends};
ghost use Rattle.table_space.specs.Tables.{table_in, is_shown};
ghost use Rattle.table_space.specs.There.{AreThere, is_there_in, is_row_of};
ghost use Rattle.std.specs.List.{count_by};
ghost use Rattle.table_space.specs.Owners.{is_own};

use crate::catalogue::{CATALOGUE, catalogue_key, table_of};
use crate::ledger::Ledger;
use crate::tables::Tables;
use ids_base::lock::Key;
use ids_base::memory::Memory;
use ids_base::name::Name;
use ids_base::numbers::{TableNo, TxNo};
use ids_base::row_id::RowId;
use ids_base::shape::Shape;
use std::alloc::Global;
use thiserror::Error;

/// No slot is left for a row of a table, and no page without an owner: the slots and the pages that the table owns.
#[derive(Clone, Copy, Debug, PartialEq, Eq, Drop, Error)]
#[error("no space left")]
pub struct NoSpace {
    pub rows: u64,
    pub pages: u64,
}

/// The name and the shape of a table.
#[derive(Drop)]
pub struct Table {
    pub name: Name,
    pub shape: Shape,
}

/// The tables, the directory of their keys, and the owners of the data pages.
#[derive(Drop)]
pub struct TableSpace {
    pub(crate) ledger: Ledger,
    tables: Tables,
    alloc: Global,
    ghost there: { AreThere ledger.directory (λ t. get nat_eq tables.entered t) },
}

impl TableSpace {
    ghost use Rattle.table_space.specs.Space.{entries_of, owners_of, pages_of, HasNoNextPage, IsNextPage, table_at, shape_in, name_in, IsUnused, Names, IsNamed, IsLeastNamed, IsSameTables};

    /// Data pages from 1 to `pages`, none with an owner, and no table but the catalogue, table 1. Answers `Memory` only for want of
    /// memory, which it takes in proportion to the pages.
    pub fn new(alloc: Global, pages: u32) -> Result<TableSpace, Memory>
        requires { pages < 2 ^ 24 }
        ensures { IfOk result (λ space. IsUnused space pages) }
    {
        Ok(TableSpace {
            ledger: Ledger::new(alloc, pages)?,
            tables: Tables::new(alloc),
            alloc,
        })
    }

    /// How many data pages there are. Constant time.
    pub fn pages(&self) -> u32
        ensures pages { result ≡ pages_of self.now }
        ensures few { result < 2 ^ 24 }
    {
        self.ledger.owners().len()
    }

    /// How many data pages a table owns. Logarithmic in the pages.
    pub fn page_count(&self, table: TableNo) -> u32
        ensures counted { result ≡ count_by (is_own table) (owners_of self.now) }
        ensures few { result < 2 ^ 24 }
    {
        self.ledger.owners().count(table)
    }

    /// The least page behind one that the table owns, from page 0 on the first; `None` exactly where it owns none behind it. Logarithmic in the
    /// pages.
    pub fn next_page(&self, table: TableNo, page: u32) -> Option<u32>
        ensures { MatchOption result (HasNoNextPage self.now table page) (IsNextPage self.now table page) }
    {
        self.ledger.owners().next(table, page)
    }

    /// The row id of the key's filled entry; `None` exactly where it has none. Logarithmic in the keys, and linear in the key's entries.
    pub fn find(&self, table: TableNo, key: &Key) -> Option<RowId>
        ensures { MatchOption result (row_of (entries_of self.now table key.now) ≡ None) (λ row. row_of (entries_of self.now table key.now) ≡ Some (row_number row.page row.slot)) }
    {
        match self.ledger.directory().row_of(table, key) {
            None => None,
            Some(number) => Some(RowId::from_number(number)),
        }
    }

    /// The table of this name that is there, the least number where there are several; `None` exactly where none is there. Logarithmic in the
    /// tables.
    pub fn table_named(&self, name: &Name) -> Option<TableNo>
        ensures { MatchOption result ((t : ℕ) → ¬ IsNamed self.now name.now t) (IsLeastNamed self.now name.now) }
    {
        self.tables.named(name)
    }

    /// The name that a table was entered with, if it was. Constant time.
    pub fn name_of(&self, table: TableNo) -> Option<&Name>
        ensures { option_copied result ≡ name_in (table_at self.now table) }
    {
        match self.tables.get(table) {
            None => None,
            Some(table) => Some(&table.name),
        }
    }

    /// The shape that a table was entered with, if it was. Constant time.
    pub fn shape_of(&self, table: TableNo) -> Option<&Shape>
        ensures { option_copied result ≡ shape_in (table_at self.now table) }
    {
        match self.tables.get(table) {
            None => None,
            Some(table) => Some(&table.shape),
        }
    }

    /// Whether `note` may be called: the key has an entry with this row id or, where it is filled, one without a row id, and no other
    /// entry of the key is filled. Logarithmic in the keys, and linear in the key's entries.
    pub fn may_note(&self, table: TableNo, row: RowId, key: &Key, filled: bool) -> bool
        ensures { result ≡ (has_entry_for (row_number row.page row.slot) filled (entries_of self.now table key.now) && is_alone (row_number row.page row.slot) (entries_of self.now table key.now)) }
    {
        let number = row.number();
        let directory = self.ledger.directory();
        directory.has_entry_for(table, key, number, filled)
            && directory.is_alone(table, key, number)
    }

    /// Keeps the name and the shape of a table, and makes an entry for its number in the catalogue, empty and without a row id.
    /// Answers `Memory` only for want of memory, and all is as it was then. Logarithmic in the keys and the tables, amortised, and a copy of name
    /// and shape; where the table is the first of 64 whose numbers divided by 64 are the same, also in proportion to the pages.
    pub fn enter_table(
        &mut self,
        table: TableNo,
        name: &Name,
        shape: &Shape,
        tx: TxNo,
    ) -> Result<(), Memory>
        ensures entered { OnOk result (Changes (entries_of self.old) (entries_of self.new) 1 (catalogue_key_of table) (entries_of self.old 1 (catalogue_key_of table) ++ made tx ∷ [])) }
        ensures named { OnOk result (Names self.old self.new table name.now shape.now) }
        ensures owners { owners_of self.new ≡ owners_of self.old }
        ensures err { OnErr result (IsSame (entries_of self.old) (entries_of self.new)) }
        ensures same_tables { OnErr result (IsSameTables self.old self.new) }
    {
        let kept = Table {
            name: name.copy(),
            shape: shape.copy(self.alloc)?,
        };
        let node = self.tables.reserve(self.alloc)?;
        self.ledger.enter_table(table)?;
        self.ledger.enter(CATALOGUE, &catalogue_key(table), tx)?;
        let there = is_there(&self.ledger, table);
        self.tables.enter(table, kept, node, there);
        Ok(())
    }

    /// Makes an entry of the key, empty and without a row id. Answers `Memory` only for want of memory, and all is as it was then.
    /// Logarithmic in the keys, and amortised.
    pub fn enter_key(&mut self, table: TableNo, key: &Key, tx: TxNo) -> Result<(), Memory>
        ensures entered { OnOk result (Changes (entries_of self.old) (entries_of self.new) table key.now (entries_of self.old table key.now ++ made tx ∷ [])) }
        ensures owners { owners_of self.new ≡ owners_of self.old }
        ensures tables { IsSameTables self.old self.new }
        ensures err { OnErr result (IsSame (entries_of self.old) (entries_of self.new)) }
    {
        self.ledger.enter(table, key, tx)
    }

    /// Fills or empties the key's entry with this row id, else fills one without a row id and gives it this one; the row's page is the
    /// table's. Logarithmic in the keys, the pages and the tables, and linear in the key's entries and in the slots that it finds taken from
    /// the first on that was not known to be; where the entry is emptied, or slots of the page are reserved, linear in the slots of the page. Takes
    /// no memory.
    pub fn note(&mut self, table: TableNo, row: RowId, key: &Key, filled: bool, tx: TxNo)
        requires found { has_entry_for (row_number row.page row.slot) filled (entries_of self.old table key.now) ≡ true }
        requires alone { is_alone (row_number row.page row.slot) (entries_of self.old table key.now) ≡ true }
        requires first { 1 ≤ row.page }
        requires last { row.page ≤ pages_of self.old }
        ensures noted { Changes (entries_of self.old) (entries_of self.new) table key.now (noted (row_number row.page row.slot) filled tx (entries_of self.old table key.now)) }
        ensures there { row_of (entries_of self.new table key.now) ≡ (if filled then Some (row_number row.page row.slot) else None) }
        ensures owned { owners_of self.new ≡ slice_set (owners_of self.old) (row.page - 1) (Some table) }
        ensures tables { IsSameTables self.old self.new }
    {
        let slots = self.slots_known(table);
        self.ledger.note(table, key, row, filled, tx, slots);
        note_name(&mut self.tables, table, key, filled);
    }

    /// Gives a page to a table; no entry changes. Logarithmic in the pages and the tables, and linear in the slots of the page where some are
    /// reserved; takes no memory.
    pub fn own(&mut self, table: TableNo, page: u32)
        requires first { 1 ≤ page }
        requires last { page ≤ pages_of self.old }
        ensures owned { owners_of self.new ≡ slice_set (owners_of self.old) (page - 1) (Some table) }
        ensures entries { IsSame (entries_of self.old) (entries_of self.new) }
        ensures tables { IsSameTables self.old self.new }
    {
        self.ledger.own(table, page);
    }

    /// Drops the empty entries of a transaction, and no others. Logarithmic in the keys, and linear in the key's entries, for each key with an
    /// empty entry of a transaction whose number is the same modulo 63; and logarithmic in the pages and the tables, and linear in the slots of a
    /// page, for each page with a slot that is reserved for such a transaction, and not filled. Takes no memory.
    pub fn end_tx(&mut self, tx: TxNo)
        ensures ended { Ends (entries_of self.old) (entries_of self.new) tx }
        ensures owners { owners_of self.new ≡ owners_of self.old }
        ensures tables { IsSameTables self.old self.new }
    {
        self.ledger.end(tx);
    }
}

// Whether a table's row in the catalogue is filled. As `find`.
fn is_there(ledger: &Ledger, table: TableNo) -> bool
    ensures { result ≡ is_there_in ledger.now.directory table }
{
    ledger
        .directory()
        .row_of(CATALOGUE, &catalogue_key(table))
        .is_some()
}

// Shows the name of the table whose row in the catalogue has this key, where it is filled, and shows it no longer where it is not; nothing
// where that is no such key. Logarithmic in the tables.
fn note_name(tables: &mut Tables, table: TableNo, key: &Key, filled: bool)
    ensures kept { (t : ℕ) → table_in (get nat_eq tables.new.entered t) ≡ table_in (get nat_eq tables.old.entered t) }
    ensures shown { (t : ℕ) → t < 2 ^ 32 → is_shown (get nat_eq tables.new.entered t) ≡ (if is_row_of table key.now t then is_some (table_in (get nat_eq tables.old.entered t)) && filled else is_shown (get nat_eq tables.old.entered t)) }
{
    if table != CATALOGUE {
        return;
    }
    match table_of(key) {
        None => {}
        Some(number) if filled => tables.show(number),
        Some(number) => tables.hide(number),
    }
}

//! Where a new row goes.
ghost use Rattle.std.specs.Prelude.{◌≡◌, ◌≤◌, ◌<◌, ◌+◌, ◌*◌, ◌^◌, ◌&&◌, ℕ, true, IsTrue, ◌↔◌, None, MatchOption, MatchResult, nat_le};
ghost use Rattle.std.specs.List.{count_by};
ghost use Rattle.ids_base.specs.RowIds.{row_number, slot_count};
ghost use Rattle.table_space.specs.Owners.{is_own};
ghost use Rattle.table_space.specs.Seen.{IsBlocked, AreBlocked, IsFirstVacant};
ghost use Rattle.table_space.specs.Space.{entries_of, owners_of, owner_of, pages_of, length_of, length_in, table_at};
ghost use Rattle.table_space.specs.Places.{IsPlaceFor, HasNoPlace, HasNoVacant, IsLeastVacant};

use crate::catalogue::CATALOGUE;
use crate::lengths::has_row_length;
use crate::space::{NoSpace, TableSpace};
use ids_base::numbers::{TableNo, TxNo};
use ids_base::row_id::{RowId, slots_per_page};
use row_codec::row_length;

/// The length of the catalogue's rows.
const CATALOGUE_LENGTH: u16 = 359;

impl TableSpace {
    /// Whether `place_for` may be called: the table is the catalogue, or was entered with a shape whose rows have 1 to 800 bytes. Linear in
    /// the columns.
    pub fn has_rows(&self, table: TableNo) -> bool
        ensures { result ≡ (nat_le 1 (length_of self.now table) && nat_le (length_of self.now table) 800) }
    {
        if table == CATALOGUE {
            return true;
        }
        match self.shape_of(table) {
            None => false,
            Some(shape) => has_row_length(shape.as_slice()),
        }
    }

    /// The place for a new row of a table: the least row id among the slots of the table's pages that no entry fills or reserves for
    /// another transaction; where there is none, slot 1 of the least page without an owner. Answers `NoSpace` exactly where neither is
    /// there. Logarithmic in the pages and the tables, and linear in the slots of a page; it passes over no pages but those where a slot is reserved
    /// for a transaction that has the same mark on the pages of its table: eight times the table's number plus the transaction's, modulo 64. For a
    /// slot whose entries are no longer counted, linear in all entries. Only a table that was entered again, with shorter rows, passes over all
    /// pages.
    pub fn place_for(&self, table: TableNo, tx: TxNo) -> Result<RowId, NoSpace>
        requires some { 1 ≤ length_of self.now table }
        requires few { length_of self.now table ≤ 800 }
        ensures { MatchResult result (λ place. IsPlaceFor self.now table tx place.page place.slot) (HasNoPlace self.now table tx) }
    {
        let slots = slots_per_page(self.length_of(table));
        match self.vacant_place(table, slots, tx) {
            Some(place) => Ok(place),
            None => match self.ledger.owners().unowned() {
                Some(page) => Ok(RowId { page, slot: 1 }),
                None => Err(self.no_space(table, slots)),
            },
        }
    }

    // The length of a table's rows.
    fn length_of(&self, table: TableNo) -> u16
        requires few { length_of self.now table ≤ 800 }
        ensures { result ≡ length_of self.now table }
    {
        if table == CATALOGUE {
            return CATALOGUE_LENGTH;
        }
        match self.shape_of(table) {
            None => 0,
            Some(shape) => row_length(shape.as_slice()) as u16,
        }
    }

    /// How many slots a page of the table has, as far as that is known; else 0. Linear in the columns.
    pub(crate) fn slots_known(&self, table: TableNo) -> u8 {
        if self.has_rows(table) {
            slots_per_page(self.length_of(table))
        } else {
            0
        }
    }

    // The slots and the pages that a table owns. Logarithmic in the pages.
    fn no_space(&self, table: TableNo, slots: u8) -> NoSpace
        ensures pages { result.pages ≡ count_by (is_own table) (owners_of self.now) }
        ensures rows { result.rows ≡ count_by (is_own table) (owners_of self.now) * slots }
    {
        let pages = u64::from(self.page_count(table));
        NoSpace {
            rows: pages * u64::from(slots),
            pages,
        }
    }

    // The least row id among the vacant slots of the table's pages.
    fn vacant_place(&self, table: TableNo, slots: u8, tx: TxNo) -> Option<RowId>
        ensures { MatchOption result (HasNoVacant self.now table slots tx) (λ place. IsLeastVacant self.now table slots tx place.page place.slot) }
    {
        let _pages = self.pages();
        let mut from = 1;
        while let Some(page) = self.ledger.next_page(table, slots, tx, from) {
            if self.ledger.owners().get(page) == Some(table) {
                if let Some(slot) = self.ledger.vacant_slot(page, slots, tx) {
                    return Some(RowId { page, slot });
                }
            }
            from = page + 1;
        }
        None
    }
}

//! Which pages have slots that a transaction may have because they are reserved for it.
ghost use Rattle.std.specs.Prelude.{◌≡◌, ◌≢◌, ◌≤◌, ◌<◌, ◌-◌, ◌+◌, ◌^◌, ◌==◌, ℕ, true, IfOk, not, MatchOption, length, slice_index};
ghost use Rattle.std.specs.Int.{bit_at};
ghost use Rattle.table_space.specs.Marks.{IsUnmarked};
ghost use Rattle.table_space.specs.PageMarks.{tx_mark, place_mark};
ghost use Rattle.table_space.specs.Slots.{may_be_left};

use crate::entries::mark_of;
use crate::marks::{Marks, has, with};
use crate::slot::{MANY, Slot};
use ids_base::memory::Memory;
use ids_base::numbers::{TableNo, TxNo};
use std::alloc::Global;

// So many marks there are for a transaction on the pages of a table.
const PLACES: u64 = 64;

/// The marks of a page: for each transaction that has a slot of the page reserved, which is not filled, its number modulo 63; and, together
/// with the table that owns the page, eight times the table's number plus the transaction's, modulo 64.
#[derive(Clone, Copy, Debug)]
pub struct Reserved {
    pub by_tx: u64,
    pub by_place: u64,
}

impl Reserved {
    ghost use Rattle.table_space.specs.Reserves.{AreMarked};

    /// No marks.
    pub(crate) const NONE: Reserved = Reserved {
        by_tx: 0,
        by_place: 0,
    };

    /// All marks.
    pub(crate) const ALL: Reserved = Reserved {
        by_tx: u64::MAX,
        by_place: u64::MAX,
    };

    /// The marks with those that a slot of a page with this owner gives. Constant time.
    pub(crate) fn with_slot(self, slot: Slot, owner: Option<TableNo>) -> Reserved
        ensures here { (tx : ℕ) → may_be_left tx slot ≡ true → AreMarked result owner tx }
        ensures kept { (tx : ℕ) → AreMarked self owner tx → AreMarked result owner tx }
    {
        if slot.is_filled() || slot.emptied == 0 {
            self
        } else if slot.emptied == MANY {
            Reserved::ALL
        } else {
            self.with_tx(slot.reserved_for, owner)
        }
    }

    // The marks with those of a transaction.
    fn with_tx(self, tx: TxNo, owner: Option<TableNo>) -> Reserved
        ensures here { AreMarked result owner tx }
        ensures kept { (other : ℕ) → AreMarked self owner other → AreMarked result owner other }
    {
        Reserved {
            by_tx: with(self.by_tx, mark_of(tx)),
            by_place: match owner {
                Some(table) => with(self.by_place, place_mark(table, tx)),
                None => self.by_place,
            },
        }
    }
}

/// For each data page, the marks of the transactions for which slots of it are reserved.
#[derive(Drop)]
pub struct Reserves {
    by_tx: Marks,
    by_place: Marks,
    pages: u32,
    ghost room: { (pages ≤ length by_tx) × (pages ≤ length by_place) },
    ghost few: { pages < 2 ^ 24 },
}

impl Reserves {
    ghost use Rattle.table_space.specs.Reserves.{reserved_at, HasNoMark, HasNoPlaceMark, IsNextOf, IsNextFor};

    /// So many pages, without marks. Answers `Memory` only for want of memory, which it takes in proportion.
    pub(crate) fn new(alloc: Global, pages: u32) -> Result<Reserves, Memory>
        requires { pages < 2 ^ 24 }
        ensures { IfOk result (λ reserves. reserves.pages ≡ pages) }
    {
        Ok(Reserves {
            by_tx: Marks::new(alloc, pages as usize)?,
            by_place: Marks::new(alloc, pages as usize)?,
            pages,
        })
    }

    /// Whether a page has a mark. Constant time.
    pub(crate) fn has_any(&self, page: u32) -> bool
        requires first { 1 ≤ page }
        requires last { page ≤ self.now.pages }
        ensures { result ≡ not ((reserved_at self.now page).by_tx == 0) }
    {
        self.by_tx.get(page as usize - 1) != 0
    }

    /// Whether a page has a transaction's mark. Constant time.
    pub(crate) fn has(&self, page: u32, tx: TxNo) -> bool
        requires first { 1 ≤ page }
        requires last { page ≤ self.now.pages }
        ensures { result ≡ (bit_at (reserved_at self.now page).by_tx (tx_mark tx) == 1) }
    {
        has(self.by_tx.get(page as usize - 1), mark_of(tx))
    }

    /// Gives a page these marks and no others. Logarithmic in the pages; takes no memory.
    pub(crate) fn put(&mut self, page: u32, marks: Reserved)
        requires first { 1 ≤ page }
        requires last { page ≤ self.old.pages }
        ensures here { reserved_at self.new page ≡ marks }
        ensures others { (p : ℕ) → 1 ≤ p → p ≢ page → reserved_at self.new p ≡ reserved_at self.old p }
        ensures pages { self.new.pages ≡ self.old.pages }
    {
        self.by_tx.set(page as usize - 1, marks.by_tx);
        self.by_place.set(page as usize - 1, marks.by_place);
    }

    /// The next page from one on with the mark of a transaction. Logarithmic in the pages.
    pub(crate) fn next_of(&self, tx: TxNo, from: u32) -> Option<u32>
        requires { 1 ≤ from }
        ensures { MatchOption result (HasNoMark self.now tx from (self.now.pages + 1)) (IsNextOf self.now tx from) }
    {
        self.next_in(&self.by_tx, mark_of(tx), from)
    }

    /// The next page from one on with the mark of a transaction on the pages of a table. Logarithmic in the pages.
    pub(crate) fn next_for(&self, table: TableNo, tx: TxNo, from: u32) -> Option<u32>
        requires { 1 ≤ from }
        ensures { MatchOption result (HasNoPlaceMark self.now table tx from (self.now.pages + 1)) (IsNextFor self.now table tx from) }
    {
        self.next_in(&self.by_place, place_mark(table, tx), from)
    }

    // The next page from one on with a mark.
    fn next_in(&self, marks: &Marks, mark: u32, from: u32) -> Option<u32>
        requires first { 1 ≤ from }
        requires mark { mark < 64 }
        ensures { MatchOption result (IsUnmarked marks.now mark (from - 1) self.now.pages) (λ page. (from ≤ page) × (page ≤ self.now.pages) × IsUnmarked marks.now mark (from - 1) (page - 1)) }
    {
        match marks.next(from as usize - 1, mark) {
            Some(place) if place < self.pages as usize => Some(place as u32 + 1),
            _ => None,
        }
    }
}

// The mark of a transaction on the pages of a table.
fn place_mark(table: TableNo, tx: TxNo) -> u32
    ensures { result ≡ place_mark table tx }
{
    ((u64::from(table) * 8 + tx % PLACES) % PLACES) as u32
}

//! The directory of keys.
ghost use Rattle.std.specs.Prelude.{◌≡◌, ◌≢◌, ◌&&◌, ◌++◌, ◌∷◌, ◌<◌, ◌≤◌, ◌^◌, [], ◌↔◌, ℕ, true, false, None, Some, IfOk, OnOk, OnErr, IsTrue, length};
ghost use Rattle.std.specs.List.{list_any, slice_get};
ghost use Rattle.ids_base.specs.declared.lock.Key.{Key as TheKey};
ghost use Rattle.table_space.specs.Entries.{blocks, stays};
ghost use Rattle.ids_base.specs.RowIds.{row_number};
ghost use Rattle.table_space.specs.Fronts.{AreTaken, IsTaken, IsFilled};
ghost use Rattle.table_space.specs.Indexed.{IsIndexed};
ghost use Rattle.table_space.specs.Numbers.{number_of, entries_in};
ghost use Rattle.table_space.specs.Noted.{row_of, made, noted, has_entry_for, is_alone};
ghost use Rattle.table_space.specs.Reserves.{AreKept, IsTold, IsReserved, AreMarked};
ghost use Rattle.table_space.specs.Seen.{Changes, IsSame, Ends, IsBlocked};
ghost use Rattle.table_space.specs.Slots.{AreCounts};

use crate::entries;
use crate::entries::FREE;
use crate::entry::{Entry, Keyed};
use crate::marks::Marks;
use crate::reserves::Reserved;
use crate::slots::Slots;
use ids_base::lock::Key;
use ids_base::memory::Memory;
use ids_base::numbers::{TableNo, TxNo};
use ids_base::row_id::RowId;
use std::alloc::Global;
use std::collections::BTreeMap;

/// The entries of all keys. Contracts see the entries of each table and key.
///
/// Each key that has entries has a number, under which they stand in `listed`; `marks` finds the numbers of entries that go with a
/// transaction, and those that are free; `slots` counts the entries that fill a slot and those that reserve it.
#[derive(Drop)]
pub struct Directory {
    numbers: BTreeMap<(TableNo, Key), usize>,
    listed: Vec<Keyed>,
    marks: Marks,
    slots: Slots,
    alloc: Global,
    ghost indexed: { IsIndexed numbers listed.items marks },
    ghost counted: { AreCounts slots listed.items },
}

impl Directory {
    ghost use Rattle.table_space.specs.Directory.{entries_at, EndsUnder};

    /// No key has an entry. Takes memory in proportion to the pages.
    pub(crate) fn new(alloc: Global, pages: u32) -> Result<Directory, Memory>
        requires { pages < 2 ^ 24 }
        ensures { IfOk result (λ directory. (t : ℕ) (k : TheKey) → entries_at directory t k ≡ []) }
    {
        Ok(Directory {
            numbers: BTreeMap::new(alloc),
            listed: Vec::new(alloc),
            marks: Marks::new(alloc, 1)?,
            slots: Slots::new(alloc, pages)?,
            alloc,
        })
    }

    // The number of a key, if it has one.
    fn number(&self, table: TableNo, key: &Key) -> Option<usize>
        ensures { result ≡ number_of self.now.numbers table key.now }
    {
        self.numbers.get(&(table, *key)).copied()
    }

    // The entries of a key.
    fn entries(&self, table: TableNo, key: &Key) -> &[Entry]
        ensures { result.now ≡ entries_at self.now table key.now }
    {
        match self.number(table, key) {
            None => &[],
            Some(number) => self.listed[number].entries.as_slice(),
        }
    }

    /// The row id of the key's filled entry, if it has one. Logarithmic in the keys, and linear in the key's entries.
    pub(crate) fn row_of(&self, table: TableNo, key: &Key) -> Option<u32>
        ensures { result ≡ row_of (entries_at self.now table key.now) }
    {
        entries::row_of(self.entries(table, key))
    }

    /// Whether the key has an entry with this row id or, where it is to be filled, one without a row id. Logarithmic in the keys, and
    /// linear in the key's entries.
    pub(crate) fn has_entry_for(&self, table: TableNo, key: &Key, row: u32, filled: bool) -> bool
        ensures { result ≡ has_entry_for row filled (entries_at self.now table key.now) }
    {
        entries::has_entry_for(self.entries(table, key), row, filled)
    }

    /// Whether no entry of the key is filled but the first with this row id. Logarithmic in the keys, and linear in the key's entries.
    pub(crate) fn is_alone(&self, table: TableNo, key: &Key, row: u32) -> bool
        ensures { result ≡ is_alone row (entries_at self.now table key.now) }
    {
        entries::is_alone(self.entries(table, key), row)
    }

    /// An entry more of a key, which has no row id. Without memory all stays as it was. Logarithmic in the keys, linear in the key's
    /// entries, and amortised.
    pub(crate) fn enter(&mut self, table: TableNo, key: &Key, tx: TxNo) -> Result<(), Memory>
        ensures entered { OnOk result (Changes (entries_at self.old) (entries_at self.new) table key.now (entries_at self.old table key.now ++ made tx ∷ [])) }
        ensures err { OnErr result (IsSame (entries_at self.old) (entries_at self.new)) }
    {
        match self.number(table, key) {
            Some(number) => self.enter_under(number, table, key, tx),
            None => {
                let number = self.free_number(table, key)?;
                self.enter_first(number, table, key, tx)
            }
        }
    }

    // An entry more of a key that has a number.
    fn enter_under(
        &mut self,
        number: usize,
        table: TableNo,
        key: &Key,
        tx: TxNo,
    ) -> Result<(), Memory>
        requires { number_of self.old.numbers table key.now ≡ Some number }
        ensures entered { OnOk result (Changes (entries_at self.old) (entries_at self.new) table key.now (entries_at self.old table key.now ++ made tx ∷ [])) }
        ensures err { OnErr result (IsSame (entries_at self.old) (entries_at self.new)) }
    {
        let keyed = &mut self.listed[number];
        keyed.entries.push(entries::made(tx))?;
        let marks = entries::marks_of(keyed.entries.as_slice());
        self.marks.set(number, marks);
        Ok(())
    }

    // The first entry of a key, under a number that is free.
    fn enter_first(
        &mut self,
        number: usize,
        table: TableNo,
        key: &Key,
        tx: TxNo,
    ) -> Result<(), Memory>
        requires unnamed { number_of self.old.numbers table key.now ≡ None }
        requires there { number < length self.old.listed.items }
        requires free { entries_in (slice_get self.old.listed.items number) ≡ [] }
        ensures entered { OnOk result (Changes (entries_at self.old) (entries_at self.new) table key.now (made tx ∷ [])) }
        ensures err { OnErr result (IsSame (entries_at self.old) (entries_at self.new)) }
    {
        let mut entries = Vec::new(self.alloc);
        entries.push(entries::made(tx))?;
        let marks = entries::marks_of(entries.as_slice());
        self.numbers.insert((table, *key), number)?;
        self.listed[number] = Keyed {
            table,
            key: *key,
            entries,
        };
        self.marks.set(number, marks);
        Ok(())
    }

    // A number that is free.
    fn free_number(&mut self, table: TableNo, key: &Key) -> Result<usize, Memory>
        ensures there { IfOk result (λ number. number < length self.new.listed.items) }
        ensures free { IfOk result (λ number. entries_in (slice_get self.new.listed.items number) ≡ []) }
        ensures numbers { self.new.numbers ≡ self.old.numbers }
        ensures same { IsSame (entries_at self.old) (entries_at self.new) }
    {
        match self.marks.next(0, FREE) {
            Some(number) => Ok(number),
            None => self.add_number(table, key),
        }
    }

    // A number more, which is free.
    fn add_number(&mut self, table: TableNo, key: &Key) -> Result<usize, Memory>
        ensures there { IfOk result (λ number. number < length self.new.listed.items) }
        ensures free { IfOk result (λ number. entries_in (slice_get self.new.listed.items number) ≡ []) }
        ensures numbers { self.new.numbers ≡ self.old.numbers }
        ensures same { IsSame (entries_at self.old) (entries_at self.new) }
    {
        let number = self.listed.len();
        self.make_room(number)?;
        let marks = entries::marks_of(&[]);
        self.listed.push(Keyed {
            table,
            key: *key,
            entries: Vec::new(self.alloc),
        })?;
        self.marks.set(number, marks);
        Ok(number)
    }

    // Marks for a number.
    fn make_room(&mut self, number: usize) -> Result<(), Memory>
        requires { number ≤ length self.old.marks }
        ensures room { OnOk result (number < length self.new.marks) }
        ensures numbers { self.new.numbers ≡ self.old.numbers }
        ensures listed { self.new.listed ≡ self.old.listed }
    {
        if number >= self.marks.len() {
            self.marks = self.marks.longer(self.alloc)?;
        }
        Ok(())
    }

    /// The entry of the key with this row id, else one without a row id, gets the row id and is filled or emptied. Logarithmic in the keys,
    /// and linear in the key's entries; takes no memory.
    pub(crate) fn note(&mut self, table: TableNo, key: &Key, row: u32, filled: bool, tx: TxNo)
        requires { has_entry_for row filled (entries_at self.old table key.now) ≡ true }
        ensures { Changes (entries_at self.old) (entries_at self.new) table key.now (noted row filled tx (entries_at self.old table key.now)) }
    {
        match self.number(table, key) {
            Some(number) => {
                let keyed = &mut self.listed[number];
                let was = entries::note(&mut keyed.entries, row, filled, tx);
                let marks = entries::marks_of(keyed.entries.as_slice());
                self.marks.set(number, marks);
                self.slots.leave(&was);
                self.slots.take(&entries::changed(row, filled, tx));
            }
            None => unreachable!(),
        }
    }

    /// Drops the empty entries of a transaction. In proportion to the keys with entries that go with a transaction whose number is the same
    /// modulo 63, each in logarithmic time and linear in its entries; takes no memory.
    pub(crate) fn end(&mut self, tx: TxNo)
        ensures { Ends (entries_at self.old) (entries_at self.new) tx }
    {
        let mut from = 0;
        while let Some(number) = self.marks.next(from, entries::mark_of(tx)) {
            self.end_under(number, tx);
            from = number + 1;
        }
    }

    // Drops the empty entries of a transaction under a number, which is free where none is left.
    fn end_under(&mut self, number: usize, tx: TxNo)
        requires { number < length self.old.marks }
        ensures { EndsUnder self.old self.new number tx }
    {
        if number >= self.listed.len() {
            return;
        }
        let keyed = &mut self.listed[number];
        self.slots.end(keyed.entries.as_slice(), tx);
        keyed.entries.retain(|entry| entry.stays(tx));
        let marks = entries::marks_of(keyed.entries.as_slice());
        unname(&mut self.numbers, keyed, number);
        self.marks.set(number, marks);
    }

    /// Up to where the slots of a row's page are taken, no further than they were used, where they are up to one and the row's is. Constant time
    /// for each slot that it finds taken, and for one more; takes no slot for taken of which nothing is known.
    pub(crate) fn taken_to(&self, row: RowId, from: u8, used: u8) -> u8
        requires taken { AreTaken (entries_at self.now) row.page from }
        requires here { IsTaken (entries_at self.now) (row_number row.page row.slot) }
        ensures { AreTaken (entries_at self.now) row.page result }
    {
        let mut last = from;
        while last < used
            && (last + 1 == row.slot || self.takes(row.page * 256 + u32::from(last) + 1))
        {
            last += 1;
        }
        last
    }

    // Whether an entry is known to have the slot. Constant time.
    fn takes(&self, row: u32) -> bool
        ensures { IsTrue result → IsTaken (entries_at self.now) row }
    {
        self.slots.at(row).is_taken()
    }

    /// Up to where a page, whose slots were used up to one, has no slot that may be reserved for a transaction and is not known to be filled.
    /// Linear in the used slots.
    pub(crate) fn kept_to(&self, page: u32, used: u8, tx: TxNo) -> u8
        requires { page < 2 ^ 24 }
        ensures kept { AreKept (entries_at self.now) page result tx }
        ensures within { result ≤ used }
    {
        let mut last = 0;
        while last < used && !self.may_be_left(page * 256 + u32::from(last) + 1, tx) {
            last += 1;
        }
        last
    }

    // Whether the slot may be reserved for a transaction, and is not known to be filled. Constant time.
    fn may_be_left(&self, row: u32, tx: TxNo) -> bool
        ensures { result ≡ false → IsReserved (entries_at self.now) row tx → IsFilled (entries_at self.now) row }
    {
        self.slots.at(row).may_be_left(tx)
    }

    /// The marks of a page with this owner, whose slots were used up to one. Linear in the used slots.
    pub(crate) fn reserved_in(&self, page: u32, used: u8, owner: Option<TableNo>) -> Reserved
        requires { page < 2 ^ 24 }
        ensures { (slot tx : ℕ) → 1 ≤ slot → slot ≤ used → IsTold (entries_at self.now) result owner (row_number page slot) tx }
    {
        let mut marks = Reserved::NONE;
        for slot in 1..u32::from(used) + 1 {
            marks = self.with_row(marks, page * 256 + slot, owner);
        }
        marks
    }

    // The marks with those that a slot of a page with this owner gives. Constant time.
    fn with_row(&self, marks: Reserved, row: u32, owner: Option<TableNo>) -> Reserved
        ensures here { (tx : ℕ) → IsTold (entries_at self.now) result owner row tx }
        ensures kept { (tx : ℕ) → AreMarked marks owner tx → AreMarked result owner tx }
    {
        marks.with_slot(self.slots.at(row), owner)
    }

    /// Whether an entry fills the slot, or reserves it for a transaction other than this one. Constant time; where those that do are no longer
    /// counted, linear in all entries.
    pub(crate) fn blocks(&self, row: u32, tx: TxNo) -> bool
        ensures { IsTrue result ↔ IsBlocked (entries_at self.now) row tx }
    {
        match self.slots.at(row).blocks(tx) {
            Some(known) => known,
            None => blocked(&self.listed, row, tx),
        }
    }
}

// Takes the number from a key without entries.
fn unname(numbers: &mut BTreeMap<(TableNo, Key), usize>, keyed: &Keyed, number: usize)
    ensures others { (t : ℕ) (k : TheKey) (n : ℕ) → n ≢ number → number_of numbers.old t k ≡ Some n → number_of numbers.new t k ≡ Some n }
    ensures kept { (t : ℕ) (k : TheKey) (n : ℕ) → number_of numbers.new t k ≡ Some n → number_of numbers.old t k ≡ Some n }
    ensures gone { number_of numbers.new keyed.now.table keyed.now.key ≡ Some number → keyed.now.entries.items ≢ [] }
    ensures same { keyed.now.entries.items ≢ [] → numbers.new ≡ numbers.old }
{
    if !keyed.entries.is_empty() {
        return;
    }
    let name = (keyed.table, keyed.key);
    if let Some(found) = numbers.get(&name).copied() {
        if found == number {
            numbers.remove(&name);
        }
    }
}

// Whether an entry blocks a slot. Linear in all entries.
fn blocked(listed: &[Keyed], row: u32, tx: TxNo) -> bool
    ensures { result ≡ list_any (λ l. list_any (blocks row tx) l.entries.items) listed.now }
{
    listed.iter().any(|keyed| entries::some_block(keyed.entries.as_slice(), row, tx))
}

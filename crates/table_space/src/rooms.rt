//! Which pages of each table may have a slot that no entry has.
ghost use Rattle.std.specs.Prelude.{◌≡◌, ◌≤◌, ◌<◌, ◌-◌, ◌/◌, ◌%◌, ◌^◌, ◌+◌, ◌≢◌, ℕ, List, Some, None, IfOk, OnOk, OnErr, IsTrue, MatchOption, length, slice_index, slice_set};
ghost use Rattle.std.specs.Option.{option_map};
ghost use Rattle.std.specs.Int.{bit_at};
ghost use Rattle.table_space.specs.PageMarks.{AreMarks, AreOnPages, marks_in, narrow_of};
ghost use Rattle.table_space.specs.Owners.{owner_in};

use crate::marks::Marks;
use crate::pages::Pages;
use ids_base::memory::Memory;
use ids_base::numbers::TableNo;
use std::alloc::Global;
use std::collections::BTreeMap;

// No page has more slots.
const WIDEST: u8 = 255;

// So many tables share marks.
const GROUP: u32 = 64;

/// The pages of each table whose slots are not known to be taken, each by an entry that fills or reserves it.
///
/// `marks` has them marked, under the number of a table divided by 64, which 64 tables share, each with a mark of its own; `narrow` has for each
/// table the fewest slots with which a page of it was left unmarked.
#[derive(Drop)]
pub struct Rooms {
    marks: BTreeMap<u32, Marks>,
    narrow: BTreeMap<TableNo, u8>,
    pages: u32,
    ghost marked: { AreMarks pages marks },
}

impl Rooms {
    ghost use Rattle.table_space.specs.Rooms.{known_taken, AreKnown, IsNextRoom, AreNoMore};

    /// So many pages, and no table. Takes no memory.
    pub(crate) fn new(alloc: Global, pages: u32) -> Rooms
        requires { pages < 2 ^ 24 }
        ensures { result.pages ≡ pages }
    {
        Rooms {
            marks: BTreeMap::new(alloc),
            narrow: BTreeMap::new(alloc),
            pages,
        }
    }

    /// Makes room for what is kept of a table, unless there is. Answers `Memory` only for want of memory. Logarithmic in the tables; where the
    /// table is the first of its group, also in proportion to the pages.
    pub(crate) fn enter_table(
        &mut self,
        alloc: Global,
        table: TableNo,
        owners: &Pages,
    ) -> Result<(), Memory>
        requires { self.old.pages ≡ length owners.now }
        ensures pages { self.new.pages ≡ self.old.pages }
        ensures less { AreNoMore owners.now self.old self.new }
    {
        self.enter_group(alloc, group_of(table), owners)?;
        if !self.narrow.contains_key(&table) {
            self.narrow.insert(table, WIDEST)?;
        }
        Ok(())
    }

    // Makes the marks of a group, unless they are there.
    fn enter_group(&mut self, alloc: Global, group: u32, owners: &Pages) -> Result<(), Memory>
        requires { self.old.pages ≡ length owners.now }
        ensures pages { self.new.pages ≡ self.old.pages }
        ensures less { AreNoMore owners.now self.old self.new }
    {
        if !self.marks.contains_key(&group) {
            let marks = marks_for(alloc, group, owners)?;
            put(&mut self.marks, group, marks)?;
        }
        Ok(())
    }

    /// A page of a table has so many slots, of which the first ones, up to one, are taken: marks it, unless these are all of them; `slots` is 0
    /// where that is not known. Logarithmic in the pages and the tables; takes no memory.
    pub(crate) fn mark(&mut self, page: u32, table: TableNo, slots: u8, last: u8)
        requires first { 1 ≤ page }
        requires last { page ≤ self.old.pages }
        ensures here { known_taken self.new table page ≤ last }
        ensures others { (p t : ℕ) → 1 ≤ p → p ≢ page → known_taken self.new t p ≤ known_taken self.old t p }
        ensures pages { self.new.pages ≡ self.old.pages }
    {
        let full = 0 < slots && slots <= last && narrows(&mut self.narrow, table, slots);
        let marks = if full { 0 } else { 1 << mark_of(table) };
        set(&mut self.marks, group_of(table), page as usize - 1, marks);
    }

    /// The next page from one on that may be the table's and have a slot that is not taken, where its pages have so many slots. Logarithmic in the pages and
    /// the tables. Where a page of the table was left unmarked with fewer slots, or the table was not entered, it is the next of all pages.
    pub(crate) fn next(&self, table: TableNo, slots: u8, from: u32) -> Option<u32>
        requires { 1 ≤ from }
        ensures { MatchOption result (AreKnown self.now table slots from (self.now.pages + 1)) (IsNextRoom self.now table slots from) }
    {
        match self.marks.get(&group_of(table)) {
            Some(marks) if slots <= narrow_of(&self.narrow, table) => {
                match marks.next(from as usize - 1, mark_of(table)) {
                    Some(place) => Some(place as u32 + 1),
                    None => None,
                }
            }
            _ => self.any_page(from),
        }
    }

    // This page, if it is there.
    fn any_page(&self, page: u32) -> Option<u32>
        ensures { MatchOption result (self.now.pages < page) (λ it. (it ≡ page) × (page ≤ self.now.pages)) }
    {
        if page <= self.pages { Some(page) } else { None }
    }
}

// The marks of a group: those of all pages that its tables own.
fn marks_for(alloc: Global, group: u32, owners: &Pages) -> Result<Marks, Memory>
    ensures pages { IfOk result (AreOnPages (length owners.now)) }
    ensures owned { IfOk result (λ marks. (p t : ℕ) → 1 ≤ p → p ≤ length owners.now → owner_in owners.now p ≡ Some t → t / 64 ≡ group → bit_at (slice_index marks (p - 1)) (t % 64) ≡ 1) }
{
    let mut marks = Marks::new(alloc, owners.len() as usize)?;
    for page in 1..owners.len() + 1 {
        mark_owned(&mut marks, group, page, owners.get(page));
    }
    Ok(marks)
}

// Marks a page with this owner, if that is a table of the group. Logarithmic in the pages.
fn mark_owned(marks: &mut Marks, group: u32, page: u32, owner: Option<TableNo>)
    requires first { 1 ≤ page }
    requires last { page ≤ length marks.old }
    ensures here { (t : ℕ) → owner ≡ Some t → t / 64 ≡ group → bit_at (slice_index marks.new (page - 1)) (t % 64) ≡ 1 }
    ensures others { (n : ℕ) → n ≢ page - 1 → slice_index marks.new n ≡ slice_index marks.old n }
    ensures size { length marks.new ≡ length marks.old }
{
    if let Some(table) = owner {
        if group_of(table) == group {
            marks.set(page as usize - 1, 1 << mark_of(table));
        }
    }
}

// Gives a group its marks. Answers `Memory` only for want of memory, and all is as it was then. Logarithmic in the tables.
fn put(groups: &mut BTreeMap<u32, Marks>, group: u32, marks: Marks) -> Result<(), Memory>
    ensures here { OnOk result (marks_in groups.new group ≡ Some marks) }
    ensures others { OnOk result ((g : ℕ) → g ≢ group → marks_in groups.new g ≡ marks_in groups.old g) }
    ensures err { OnErr result ((g : ℕ) → marks_in groups.new g ≡ marks_in groups.old g) }
{
    groups.insert(group, marks)?;
    Ok(())
}

// Gives a place the marks of a group, if the group has any. Logarithmic in the places and the tables; takes no memory.
fn set(groups: &mut BTreeMap<u32, Marks>, group: u32, place: usize, marks: u64)
    requires { (all : List ℕ) → marks_in groups.old group ≡ Some all → place < length all }
    ensures here { marks_in groups.new group ≡ option_map (λ all. slice_set all place marks) (marks_in groups.old group) }
    ensures others { (g : ℕ) → g ≢ group → marks_in groups.new g ≡ marks_in groups.old g }
{
    if let Some(all) = groups.get_mut(&group) {
        all.set(place, marks);
    }
}

// Keeps so many slots for a table, where they are fewer than those that are kept for it. Answers whether anything can be kept of the table.
// Logarithmic in the tables.
fn narrows(narrow: &mut BTreeMap<TableNo, u8>, table: TableNo, slots: u8) -> bool
    ensures here { IsTrue result → narrow_of narrow.new table ≤ slots }
    ensures less { (t : ℕ) → narrow_of narrow.new t ≤ narrow_of narrow.old t }
{
    let Some(least) = narrow.get_mut(&table) else {
        return false;
    };
    *least = slots.min(*least);
    true
}

// How many slots are kept for a table: the fewest with which a page of it was left unmarked. Logarithmic in the tables.
fn narrow_of(narrow: &BTreeMap<TableNo, u8>, table: TableNo) -> u8
    ensures { result ≡ narrow_of narrow.now table }
{
    match narrow.get(&table) {
        None => WIDEST,
        Some(least) => *least,
    }
}

// The group of a table.
fn group_of(table: TableNo) -> u32
    ensures { result ≡ table / 64 }
{
    table / GROUP
}

// The mark of a table's pages.
fn mark_of(table: TableNo) -> u32
    ensures { result ≡ table % 64 }
{
    table % GROUP
}

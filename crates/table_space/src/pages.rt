//! The data pages, and the tables that own them.
ghost use Rattle.std.specs.Prelude.{◌≡◌, ◌≢◌, ◌≤◌, ◌<◌, ◌+◌, ◌-◌, ◌^◌, ℕ, Bool, None, Some, IfOk, IfSome, MatchOption, [], replicate, length, slice_set, slice_index_or};
ghost use Rattle.std.specs.List.{count_by};
ghost use Rattle.table_space.specs.Ordered.{IsOrdered};
ghost use Rattle.table_space.specs.Owners.{is_own, owner_in, HasNoUnowned, IsLeastUnowned, IsNextOwned, HasNoNextOwned};
ghost use Rattle.table_space.specs.Pages.{place, place_cmp, one_owned};

use crate::tree::Store;
use ids_base::memory::Memory;
use ids_base::numbers::TableNo;
use std::alloc::Global;
use std::marker::Model;

/// A page of a table. In the order of the fields.
#[derive(Clone, Copy, PartialEq, Eq, PartialOrd, Ord)]
pub struct Place {
    pub table: TableNo,
    pub page: u32,
}

/// The table that owns each data page, if one does. Contracts see the list of them, from page 1 on.
///
/// `owned` has the pages that have an owner, and a node for each other one. All pages below `unowned` have owners, and that page has none, or is
/// not there.
#[derive(Drop)]
pub struct Pages {
    owners: Vec<Option<TableNo>>,
    owned: Store<Place>,
    unowned: u32,
}

impl Model for Pages {
    ghost use Rattle.std.specs.Prelude.{ℕ, List, Option, length};

    ghost Value = { List (Option ℕ) };

    ghost use Rattle.table_space.specs.Pages.{ArePages};

    ghost view = { λ a. a.owners.items };

    ghost invariant = { λ a. ArePages a.owners.items a.owned.items (length a.owned.spare) a.unowned };
}

impl Pages {
    /// So many pages, none with an owner. Answers `Memory` only for want of memory, which it takes in proportion to the pages.
    pub(crate) fn new(alloc: Global, pages: u32) -> Result<Pages, Memory>
        requires { pages < 2 ^ 24 }
        ensures { IfOk result (λ made. made ≡ replicate pages None) }
    {
        Ok(Pages {
            owners: vec![in alloc; None; pages as usize]?,
            owned: nodes(alloc, pages)?,
            unowned: 1,
        })
    }

    /// How many pages there are. Constant time.
    pub(crate) fn len(&self) -> u32
        ensures pages { result ≡ length self.now }
        ensures few { result < 2 ^ 24 }
    {
        self.owners.len() as u32
    }

    /// The owner of a page. Constant time.
    pub(crate) fn get(&self, page: u32) -> Option<TableNo>
        requires first { 1 ≤ page }
        requires last { page ≤ length self.now }
        ensures { result ≡ slice_index_or self.now (page - 1) None }
    {
        self.owners[page as usize - 1]
    }

    /// How many pages a table owns. Logarithmic in the pages.
    pub(crate) fn count(&self, table: TableNo) -> u32
        ensures counted { result ≡ count_by (is_own table) self.now }
        ensures few { result < 2 ^ 24 }
    {
        let first = Place { table, page: 0 };
        let end = Place {
            table,
            page: self.owners.len() as u32 + 1,
        };
        self.owned.items.count_below(&end) - self.owned.items.count_below(&first)
    }

    /// The least page behind one that a table owns, if there is one. Logarithmic in the pages.
    pub(crate) fn next(&self, table: TableNo, page: u32) -> Option<u32>
        ensures { MatchOption result (HasNoNextOwned self.now table page) (IsNextOwned self.now table page) }
    {
        if page as usize >= self.owners.len() {
            return None;
        }
        let next = Place {
            table,
            page: page + 1,
        };
        match self.owned.items.first_from(&next) {
            None => None,
            Some(found) if found.table == table => Some(found.page),
            Some(_) => None,
        }
    }

    /// The least page without an owner, if there is one. Constant time.
    pub(crate) fn unowned(&self) -> Option<u32>
        ensures least { MatchOption result (HasNoUnowned self.now) (IsLeastUnowned self.now) }
        ensures few { IfSome result (λ page. page < 2 ^ 24) }
    {
        if self.unowned as usize <= self.owners.len() {
            Some(self.unowned)
        } else {
            None
        }
    }

    /// Gives a page an owner. Logarithmic in the pages, amortised; takes no memory.
    pub(crate) fn set(&mut self, page: u32, table: TableNo)
        requires first { 1 ≤ page }
        requires last { page ≤ length self.old }
        ensures { self.new ≡ slice_set self.old (page - 1) (Some table) }
    {
        let at = page as usize - 1;
        leave(&mut self.owned, page, self.owners[at]);
        self.owned.put(Place { table, page });
        self.owners[at] = Some(table);
        self.unowned = unowned_from(&self.owners, self.unowned);
    }
}

// So many nodes, and no places.
fn nodes(alloc: Global, pages: u32) -> Result<Store<Place>, Memory>
    requires { pages < 2 ^ 24 }
    ensures places { IfOk result (λ made. made.items ≡ []) }
    ensures nodes { IfOk result (λ made. length made.spare ≡ pages) }
{
    let mut made = Store::new();
    for _ in 0..pages {
        made.reserve(alloc, Place { table: 0, page: 0 })?;
    }
    Ok(made)
}

// Takes out the place of a page with this owner, if it has one.
fn leave(owned: &mut Store<Place>, page: u32, owner: Option<TableNo>)
    requires ordered { IsOrdered place_cmp owned.old.items }
    requires there { (test : Place → Bool) → one_owned test page owner ≤ count_by test owned.old.items }
    ensures ordered { IsOrdered place_cmp owned.new.items }
    ensures counted { (test : Place → Bool) → count_by test owned.new.items + one_owned test page owner ≡ count_by test owned.old.items }
    ensures nodes { length owned.new.items + length owned.new.spare ≡ length owned.old.items + length owned.old.spare }
{
    let Some(table) = owner else {
        return;
    };
    owned.take(&Place { table, page });
}

// The least page from one on without an owner; behind the last page where there is none. Linear in the pages up to it.
fn unowned_from(owners: &[Option<TableNo>], from: u32) -> u32
    requires few { length owners.now < 2 ^ 24 }
    requires first { 1 ≤ from }
    requires last { from ≤ length owners.now + 1 }
    ensures from { from ≤ result }
    ensures last { result ≤ length owners.now + 1 }
    ensures before { (page : ℕ) → from ≤ page → page < result → owner_in owners.now page ≢ None }
    ensures next { result ≤ length owners.now → owner_in owners.now result ≡ None }
{
    let end = owners.len() as u32 + 1;
    for page in from..end {
        if owners[page as usize - 1].is_none() {
            return page;
        }
    }
    end
}

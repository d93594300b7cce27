//! The owners of pages.
ghost use Rattle.std.specs.Prelude.{◌≡◌, ◌≤◌, ◌<◌, ◌^◌, ◌⊎◌, ℕ, OnOk};
ghost use Rattle.std.specs.FinMap.{empty, entries};
ghost use Rattle.ids_model.specs.Slots.{own_at, set_own};
ghost use Rattle.fast_recovery.specs.Pages.{ArePages};

use crate::owner::Owner;
use ids_base::memory::Memory;
use ids_base::numbers::TableNo;
use std::alloc::Global;
use std::collections::BTreeMap;
use std::collections::btree_map::Iter;
use std::marker::Model;

/// The pages that have an owner; their numbers have 24 bits. Contracts see the finite map from page to owner.
#[derive(Drop)]
pub struct Owners {
    owners: BTreeMap<u32, Owner>,
}

impl Model for Owners {
    ghost use Rattle.std.specs.FinMap as map;
    ghost use Rattle.fast_recovery.specs.Codes.{coded_own};
    ghost use Rattle.ids_model.specs.Slots.{Own};

    ghost Value = { Own };

    ghost coded = { coded_own };

    ghost view = { λ a. map.from_entries a.owners.entries };

    ghost use Rattle.fast_recovery.specs.Pages.{ArePages};

    ghost invariant = { λ a. ArePages (map.from_entries a.owners.entries) };
}

impl Owners {
    /// No page has an owner. Takes no memory.
    pub fn new(alloc: Global) -> Owners
        ensures { result ≡ empty }
    {
        Owners {
            owners: BTreeMap::new(alloc),
        }
    }

    /// The owner of a page, if it has one, in logarithmic time.
    pub fn get(&self, page: u32) -> Option<Owner>
        ensures { result ≡ own_at self.now page }
    {
        self.owners.get(&page).copied()
    }

    /// Gives a page an owner, in logarithmic time.
    pub fn set(&mut self, page: u32, owner: Owner) -> Result<(), Memory>
        requires { page < 2 ^ 24 }
        ensures { OnOk result (self.new ≡ set_own self.old page owner) }
    {
        self.owners.insert(page, owner)?;
        Ok(())
    }

    /// All pages that have an owner, with the owner and by page.
    pub fn iter(&self) -> Iter<'_, u32, Owner>
        ensures all { result ≡ entries self.now }
        ensures pages { ArePages self.now }
    {
        self.owners.iter()
    }

    /// The greatest number of a table that owns a page, and 99 where that is less. Linear.
    pub fn greatest_table(&self) -> TableNo
        ensures least { 99 ≤ result }
        ensures owners { (page : ℕ) (owner : ℕ × ℕ) → own_at self.now page ≡ Some owner → owner.0 ≤ result }
        ensures is_one { (result ≡ 99) ⊎ ((page : ℕ) × (length : ℕ) × (own_at self.now page ≡ Some (result, length))) }
    {
        let mut greatest = 99;
        for (_, owner) in self.owners.iter() {
            greatest = greatest.max(owner.table);
        }
        greatest
    }
}

//! The rows in slots.
ghost use Rattle.std.specs.Prelude.{◌≡◌, OnOk, option_copied};
ghost use Rattle.std.specs.FinMap.{empty, entries};
ghost use Rattle.ids_model.specs.Slots.{slot_at, set_slot};

use ids_base::memory::Memory;
use ids_base::row_bytes::RowBytes;
use std::alloc::Global;
use std::collections::BTreeMap;
use std::collections::btree_map::Iter;
use std::marker::Model;

/// The slots that hold a row. Contracts see the finite map from row id to the bytes of the row.
#[derive(Drop)]
pub struct FilledSlots {
    rows: BTreeMap<u32, RowBytes>,
}

impl Model for FilledSlots {
    ghost use Rattle.std.specs.FinMap as map;
    ghost use Rattle.fast_recovery.specs.Codes.{coded_slots};
    ghost use Rattle.ids_model.specs.Slots.{Slots};

    ghost Value = { Slots };

    ghost coded = { coded_slots };

    ghost view = { λ a. map.from_entries a.rows.entries };
}

impl FilledSlots {
    /// No slot holds a row. Takes no memory.
    pub fn new(alloc: Global) -> FilledSlots
        ensures { result ≡ empty }
    {
        FilledSlots {
            rows: BTreeMap::new(alloc),
        }
    }

    /// The bytes of the row in a slot, if it holds one, in logarithmic time.
    pub fn get(&self, slot: u32) -> Option<&[u8]>
        ensures { option_copied result ≡ slot_at self.now slot }
    {
        match self.rows.get(&slot) {
            None => None,
            Some(row) => Some(row.bytes()),
        }
    }

    /// All rows, with their row ids and by row id.
    pub fn iter(&self) -> Iter<'_, u32, RowBytes>
        ensures { result ≡ entries self.now }
    {
        self.rows.iter()
    }

    /// Puts a row into a slot, or empties it, in logarithmic time.
    pub fn set(&mut self, slot: u32, row: Option<RowBytes>) -> Result<(), Memory>
        ensures { OnOk result (self.new ≡ set_slot self.old slot row) }
    {
        match row {
            None => self.empty(slot),
            Some(row) => self.fill(slot, row)?,
        }
        Ok(())
    }

    fn empty(&mut self, slot: u32)
        ensures { self.new ≡ set_slot self.old slot None }
    {
        self.rows.remove(&slot);
    }

    fn fill(&mut self, slot: u32, row: RowBytes) -> Result<(), Memory>
        ensures { OnOk result (self.new ≡ set_slot self.old slot (Some row)) }
    {
        self.rows.insert(slot, row)?;
        Ok(())
    }
}

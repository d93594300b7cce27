//! What is known of each slot without a look at the entries.
ghost use Rattle.std.specs.Prelude.{◌≡◌, ◌≢◌, ◌<◌, ◌≤◌, ◌+◌, ◌*◌, ◌^◌, ℕ, IfOk};
ghost use Rattle.std.specs.List.{fold};
ghost use Rattle.table_space.specs.Slots.{slot_at, fresh, unknown, taken, left, ended};

use crate::entry::{Entry, Held};
use crate::slot::{MANY, Slot};
use ids_base::memory::Memory;
use ids_base::numbers::TxNo;
use std::alloc::Global;
use std::marker::Model;

/// For each slot, which goes by its row id, how many entries fill it, how many empty ones reserve it, and for which transaction. Contracts see
/// what is known of each row id; of those that no page has, nothing is.
#[derive(Drop)]
pub struct Slots {
    filled: Vec<u16>,
    emptied: Vec<u16>,
    reserved_for: Vec<TxNo>,
}

impl Model for Slots {
    ghost use Rattle.std.specs.Prelude.{◌≡◌, length};
    ghost use Rattle.table_space.specs.Slots.{Counts};

    ghost Value = { Counts };

    ghost view = { λ a. record { filled = a.filled.items; emptied = a.emptied.items; reserved_for = a.reserved_for.items } };

    ghost invariant = { λ a. (length a.filled.items ≡ length a.emptied.items) × (length a.reserved_for.items ≡ length a.emptied.items) };
}

impl Slots {
    /// No slot of so many pages is in an entry. Answers `Memory` for want of memory, which it takes in proportion to the pages.
    pub(crate) fn new(alloc: Global, pages: u32) -> Result<Slots, Memory>
        requires { pages < 2 ^ 24 }
        ensures here { IfOk result (λ slots. (row : ℕ) → row < (pages + 1) * 256 → slot_at slots row ≡ fresh) }
        ensures past { IfOk result (λ slots. (row : ℕ) → (pages + 1) * 256 ≤ row → slot_at slots row ≡ unknown) }
    {
        let slots = (pages as usize + 1) * 256;
        Ok(Slots {
            filled: vec![in alloc; 0; slots]?,
            emptied: vec![in alloc; 0; slots]?,
            reserved_for: vec![in alloc; 0; slots]?,
        })
    }

    /// What is known of a slot. Constant time.
    pub(crate) fn at(&self, row: u32) -> Slot
        ensures { result ≡ slot_at self.now row }
    {
        let place = row as usize;
        if place < self.filled.len() {
            Slot {
                filled: self.filled[place],
                emptied: self.emptied[place],
                reserved_for: self.reserved_for[place],
            }
        } else {
            Slot {
                filled: MANY,
                emptied: MANY,
                reserved_for: 0,
            }
        }
    }

    // Keeps what is known of a slot. Of a row id that no page has nothing is.
    fn put(&mut self, row: u32, slot: Slot)
        requires { slot_at self.old row ≡ unknown → slot ≡ unknown }
        ensures here { slot_at self.new row ≡ slot }
        ensures others { (other : ℕ) → other ≢ row → slot_at self.new other ≡ slot_at self.old other }
    {
        let place = row as usize;
        if place < self.filled.len() {
            self.filled[place] = slot.filled;
            self.emptied[place] = slot.emptied;
            self.reserved_for[place] = slot.reserved_for;
        }
    }

    /// An entry more has its slot. Constant time, no memory.
    pub(crate) fn take(&mut self, entry: &Entry)
        ensures { (row : ℕ) → slot_at self.new row ≡ taken row entry.now (slot_at self.old row) }
    {
        match entry.held {
            Held::Filled(row) => {
                let slot = self.at(row).filled_more();
                self.put(row, slot);
            }
            Held::Emptied(row) => {
                let slot = self.at(row).emptied_more(entry.tx);
                self.put(row, slot);
            }
            Held::Nowhere => {}
        }
    }

    /// An entry less has its slot. Constant time, no memory.
    pub(crate) fn leave(&mut self, entry: &Entry)
        ensures { (row : ℕ) → slot_at self.new row ≡ left row entry.now (slot_at self.old row) }
    {
        match entry.held {
            Held::Filled(row) => {
                let slot = self.at(row).filled_less();
                self.put(row, slot);
            }
            Held::Emptied(row) => {
                let slot = self.at(row).emptied_less();
                self.put(row, slot);
            }
            Held::Nowhere => {}
        }
    }

    /// Entries that go at the end of a transaction no longer have their slots. Linear in the entries, no memory.
    pub(crate) fn end(&mut self, entries: &[Entry], tx: TxNo)
        ensures { (row : ℕ) → slot_at self.new row ≡ fold (ended row tx) (slot_at self.old row) entries.now }
    {
        for entry in entries {
            if !entry.stays(tx) {
                self.leave(entry);
            }
        }
    }
}

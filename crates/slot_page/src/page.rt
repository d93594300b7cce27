//! Pages, which are kept as their bytes.
//!
//! | Bytes | Field |
//! |---|---|
//! | 0 to 4 | the owner, a table's number: 1 or at least 100 |
//! | 4 to 6 | the length of a row, 1 to 800 |
//! | 6 | how many slots there are |
//! | 7 | zero |
//! | 8 to 2016 | the slots, each one byte (0 empty, 1 a row) and the row; an empty slot is all zero, and so is what is behind the slots |
//! | 2016 to 2048 | zero |
//!
//! Numbers begin with their highest byte. A page that no table owns is all zero.
ghost use Rattle.std.specs.Prelude.{◌≡◌, ◌≤◌, ◌+◌, ◌-◌, ◌*◌, IsTrue, IfSome, length};
ghost use Rattle.slot_page.specs.Checks.{are_zero};
ghost use Rattle.ids_base.specs.RowIds.{slot_count};
ghost use Rattle.slot_page.specs.Pages.{AreBytes, slot_bytes};
ghost use Rattle.std.specs.Option.{option_copied, ForSome};

use crate::reading::{HEAD_BYTES, is_page, length_in, owner_in};
use ids_base::numbers::{PAGE_BYTES, TableNo};
use ids_base::row_id::slots_per_page;
use std::marker::Model;

/// A data page, owned by a table or by nobody. Contracts see its owner, the length of its rows, and for each slot the row, if
/// there is one. No call takes memory.
#[derive(Drop)]
pub struct Page {
    bytes: [u8; PAGE_BYTES],
}

impl Model for Page {
    ghost use Rattle.slot_page.specs.Pages.{Paged};

    ghost Value = { Paged };

    ghost use Rattle.slot_page.specs.Reading.{read_page, IsPageBytes};

    ghost view = { λ a. read_page a.bytes };

    ghost invariant = { λ a. IsPageBytes a.bytes };
}

impl Page {
    ghost use Rattle.slot_page.specs.Pages.{Paged, IsTable, IsRowLength, IsPage, HasSlot, unowned, formatted, row_at, with_row, page_bytes};
    ghost use Rattle.slot_page.specs.Reading.{page_of};

    /// The page that no table owns.
    pub fn unowned() -> Page
        ensures { result ≡ unowned }
    {
        Page { bytes: blank() }
    }

    /// The page of a table with every slot empty.
    pub fn format(table: TableNo, row_len: u16) -> Page
        requires table { IsTable table }
        requires length { IsRowLength row_len }
        ensures { result ≡ formatted table row_len }
    {
        let mut bytes = blank();
        bytes[..4].copy_from_slice(&table.to_be_bytes());
        bytes[4..6].copy_from_slice(&row_len.to_be_bytes());
        bytes[6] = slots_per_page(row_len);
        Page { bytes }
    }

    /// The table that owns the page, 0 where none does. Takes constant time.
    pub fn owner(&self) -> TableNo
        ensures owner { result ≡ self.now.owner }
        ensures page { IsPage self.now }
    {
        owner_in(&self.bytes)
    }

    /// How many bytes each row has, 0 where no table owns the page. Takes constant time.
    pub fn row_length(&self) -> u16
        ensures { result ≡ self.now.length }
    {
        length_in(&self.bytes)
    }

    /// How many slots the page has, 0 where no table owns it. Takes constant time.
    pub fn slots(&self) -> u8
        ensures { result ≡ length self.now.rows }
    {
        self.bytes[6]
    }

    /// The row in a slot, if there is one. Takes constant time and copies nothing.
    pub fn get(&self, slot: u8) -> Option<&[u8]>
        requires { HasSlot self.now slot }
        ensures { option_copied result ≡ row_at self.now slot }
    {
        let length = length_in(&self.bytes);
        let at = place(slot, length);
        if self.bytes[at] == 0 {
            None
        } else {
            Some(&self.bytes[at + 1..at + 1 + usize::from(length)])
        }
    }

    /// Puts a row into a slot, or empties it. Takes time in proportion to the row.
    pub fn assign(&mut self, slot: u8, row: Option<&[u8]>)
        requires slot { HasSlot self.old slot }
        requires length { ForSome row (λ r. length r.now ≡ self.old.length) }
        ensures { self.new ≡ with_row self.old slot (option_copied row.entry) }
    {
        let length = length_in(&self.bytes);
        let at = place(slot, length);
        write_slot(&mut self.bytes[at..at + 1 + usize::from(length)], row);
    }

    /// The page that the bytes are, and None exactly where they are no page. Looks at each byte once at most.
    pub fn from_bytes(bytes: &[u8; PAGE_BYTES]) -> Option<Page>
        ensures exact { result ≡ page_of bytes.now }
        // What is read is a page, and these bytes are its spelling.
        ensures spelled { IfSome result (λ p. IsPage p × (bytes.now ≡ page_bytes p)) }
        // What spells a page is read.
        ensures read { (p : Paged) → IsPage p → bytes.now ≡ page_bytes p → result ≡ Some p }
    {
        if is_page(bytes) {
            Some(Page { bytes: *bytes })
        } else {
            None
        }
    }

    /// Writes the page's bytes, the one spelling of it.
    pub fn to_bytes(&self, into: &mut [u8; PAGE_BYTES])
        ensures spelled { into.new ≡ page_bytes self.now }
        ensures page { IsPage self.now }
    {
        *into = self.bytes;
    }
}

/// Zeros, as many as a page has bytes.
fn blank() -> [u8; PAGE_BYTES]
    ensures zero { IsTrue (are_zero result) }
    ensures len { length result ≡ PAGE_BYTES }
{
    [0; PAGE_BYTES]
}

/// Where a slot begins.
fn place(slot: u8, row_length: u16) -> usize
    requires from_one { 1 ≤ slot }
    requires counted { slot ≤ slot_count row_length }
    ensures place { result ≡ 8 + (slot - 1) * (row_length + 1) }
    ensures fits { result + 1 + row_length ≤ 2016 }
{
    HEAD_BYTES + (usize::from(slot) - 1) * (usize::from(row_length) + 1)
}

/// Writes a slot: 1 and the row, or zeros.
fn write_slot(slot: &mut [u8], row: Option<&[u8]>)
    requires some { 1 ≤ length slot.old }
    requires fits { ForSome row (λ r. length r.now + 1 ≡ length slot.old) }
    ensures written { slot.new ≡ slot_bytes (length slot.old - 1) (option_copied row.entry) }
    ensures bytes { AreBytes slot.new }
{
    match row {
        Some(row) => {
            slot[0] = 1;
            slot[1..].copy_from_slice(row);
        }
        None => slot.fill(0),
    }
}

//! Which bytes are a page.
ghost use Rattle.std.specs.Prelude.{◌≡◌, ◌≤◌, ◌+◌, ◌*◌, ◌↔◌, IsTrue, length};
ghost use Rattle.slot_page.specs.Reading.{owner_of, length_of, IsPageBytes};
ghost use Rattle.slot_page.specs.Checks.{are_zero, is_slot, are_slots};

use ids_base::numbers::{CATALOGUE, FIRST_TABLE, PAGE_BYTES, TableNo};
use ids_base::row_id::slots_per_page;

/// How many bytes stand before the first slot.
pub const HEAD_BYTES: usize = 8;

/// Whether the bytes are a page. Looks at each byte once at most.
pub fn is_page(bytes: &[u8; PAGE_BYTES]) -> bool
    ensures { IsTrue result ↔ IsPageBytes bytes.now }
{
    let owner = owner_in(bytes);
    if owner == 0 {
        return are_zero(bytes);
    }
    if owner > CATALOGUE && owner < FIRST_TABLE {
        return false;
    }
    let length = length_in(bytes);
    if length < 1 || length > 800 {
        return false;
    }
    let count = slots_per_page(length);
    if bytes[6] != count || bytes[7] != 0 {
        return false;
    }
    are_slots(&bytes[HEAD_BYTES..], count, length)
}

/// The owner that a page's bytes name.
pub fn owner_in(bytes: &[u8; PAGE_BYTES]) -> TableNo
    ensures { result ≡ owner_of bytes.now }
{
    u32::from_be_bytes([bytes[0], bytes[1], bytes[2], bytes[3]])
}

/// The length of rows that a page's bytes name.
pub fn length_in(bytes: &[u8; PAGE_BYTES]) -> u16
    ensures { result ≡ length_of bytes.now }
{
    u16::from_be_bytes([bytes[4], bytes[5]])
}

/// Whether the bytes are so many slots with rows of this length, and zeros behind them.
fn are_slots(bytes: &[u8], count: u8, row_length: u16) -> bool
    requires { count * (row_length + 1) ≤ length bytes.now }
    ensures { result ≡ are_slots row_length count bytes.now }
{
    let mut rest = bytes;
    'slots: for _ in 0..count {
        let (slot, behind) = rest.split_at(usize::from(row_length) + 1);
        if !is_slot(slot) {
            return false;
        }
        rest = behind;
    }
    are_zero(rest)
}

/// Whether a slot has a row, or is all zero.
fn is_slot(slot: &[u8]) -> bool
    requires { 1 ≤ length slot.now }
    ensures { result ≡ is_slot slot.now }
{
    slot[0] == 1 || are_zero(slot)
}

fn are_zero(bytes: &[u8]) -> bool
    ensures { result ≡ are_zero bytes.now }
{
    bytes.iter().all(|b| *b == 0)
}

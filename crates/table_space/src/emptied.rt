//! Entries of keys that have no row in a slot.
ghost use Rattle.std.specs.Prelude.{◌≡◌, length, None};
ghost use Rattle.table_space.specs.Emptied.{made, left, first, is_at, empty_cmp, IsWhole};
ghost use Rattle.std.specs.Ordering.{is_eq};

use ids_base::lock::Key;
use ids_base::numbers::{TableNo, TxNo};
use std::cmp::Ordering;

/// An entry of a key whose row is gone from a slot, which stays reserved for the transaction; or, where the row id is `NOWHERE`, in no slot yet.
/// Of each slot that a transaction alone may have one entry tells so, by the table that owns the page. In the order of the fields.
#[derive(Clone, Copy, Debug, PartialEq, Eq, PartialOrd, Ord)]
pub struct EmptyEntry {
    pub tx: TxNo,
    pub vacant_in: Option<TableNo>,
    pub row: u64,
    pub table: TableNo,
    pub key: Key,
}

/// The row id of an entry that has none.
pub const NOWHERE: u64 = 0;

impl EmptyEntry {
    /// An entry of a key that has no row id. Constant time.
    pub fn made(tx: TxNo, table: TableNo, key: &Key) -> EmptyEntry
        ensures is { result ≡ made tx table key.now }
        ensures whole { IsWhole result }
    {
        EmptyEntry::left(tx, NOWHERE, table, key)
    }

    /// An entry of a key whose row a transaction took out of a slot. Constant time.
    pub fn left(tx: TxNo, row: u64, table: TableNo, key: &Key) -> EmptyEntry
        ensures is { result ≡ left tx row table key.now }
        ensures whole { IsWhole result }
    {
        EmptyEntry {
            tx,
            vacant_in: None,
            row,
            table,
            key: copied(key),
        }
    }

    /// The same entry, but of a transaction. Constant time.
    pub fn of(&self, tx: TxNo) -> EmptyEntry
        ensures is { result ≡ record self.now { tx = tx } }
        ensures key { result.key ≡ self.now.key }
    {
        EmptyEntry { tx, ..*self }
    }

    /// Whether two entries are the same. Constant time.
    pub fn is_same(&self, other: &EmptyEntry) -> bool
        ensures { result ≡ is_eq (empty_cmp self.now other.now) }
    {
        self.cmp(other) == Ordering::Equal
    }

    /// The least entry that a transaction may have with a row id of at least so much, and that tells of a table, or does not. Constant time.
    pub fn first(tx: TxNo, vacant_in: Option<TableNo>, row: u64) -> EmptyEntry
        ensures { result ≡ first tx vacant_in row }
    {
        EmptyEntry {
            tx,
            vacant_in,
            row,
            table: 0,
            key: LEAST,
        }
    }

    /// Whether an entry is a transaction's, has this row id, and tells of a table, or does not. Constant time.
    pub fn is_at(&self, tx: TxNo, vacant_in: Option<TableNo>, row: u64) -> bool
        ensures { result ≡ is_at tx vacant_in row self.now }
    {
        self.tx == tx && self.vacant_in == vacant_in && self.row == row
    }
}

/// The least key.
const LEAST: Key = Key {
    size: 0,
    bytes: [0; 32],
};

// The same key.
fn copied(key: &Key) -> Key
    ensures same { result ≡ key.now }
    ensures whole { length result.bytes ≡ 32 }
{
    let bytes = key.bytes;
    Key {
        size: key.size,
        bytes,
    }
}

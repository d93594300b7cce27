//! What the directory says of a key.
ghost use Rattle.std.specs.Prelude.{◌≡◌};
ghost use Rattle.table_space.specs.Entries.{filled_row, is_filled, has_row, is_new, stays, blocks};
ghost use Rattle.table_space.specs.Noted.{met_after};

use ids_base::lock::Key;
use ids_base::numbers::{TableNo, TxNo};

/// Where a row is: in no slot yet, gone from a slot that stays reserved, or in a slot. A slot goes by its row id.
#[derive(Clone, Copy, Debug, PartialEq, Eq)]
pub enum Held {
    Nowhere,
    Emptied(u32),
    Filled(u32),
}

/// An entry of a key: where its row is, and the transaction that made the entry or last changed it.
#[derive(Clone, Copy, Debug, PartialEq, Eq)]
pub struct Entry {
    pub held: Held,
    pub tx: TxNo,
}

/// The entries of a key of a table, in the order in which they were made.
#[derive(Drop)]
pub struct Keyed {
    pub table: TableNo,
    pub key: Key,
    pub entries: Vec<Entry>,
}

impl Entry {
    /// Whether the first entry of a key with the row id was met, once this entry was seen; `None` where another one is filled. Constant time.
    pub(crate) fn meets(&self, row: u32, met: bool) -> Option<bool>
        ensures { result ≡ met_after row met self.now }
    {
        if !met && self.has_row(row) {
            Some(true)
        } else if self.is_filled() {
            None
        } else {
            Some(met)
        }
    }

    /// The row id, where the row is there. Constant time.
    pub(crate) fn row(&self) -> Option<u32>
        ensures { result ≡ filled_row self.now.held }
    {
        match self.held {
            Held::Filled(row) => Some(row),
            Held::Emptied(_) | Held::Nowhere => None,
        }
    }

    /// Whether the entry has the row id, filled or empty. Constant time.
    pub(crate) fn has_row(&self, row: u32) -> bool
        ensures { result ≡ has_row row self.now }
    {
        match self.held {
            Held::Filled(held) | Held::Emptied(held) => held == row,
            Held::Nowhere => false,
        }
    }

    /// Whether the entry has no row id. Constant time.
    pub(crate) fn is_new(&self) -> bool
        ensures { result ≡ is_new self.now }
    {
        matches!(self.held, Held::Nowhere)
    }

    /// Whether the entry is filled. Constant time.
    pub(crate) fn is_filled(&self) -> bool
        ensures { result ≡ is_filled self.now.held }
    {
        matches!(self.held, Held::Filled(_))
    }

    /// Whether the entry outlives the end of a transaction: it is filled, or another's. Constant time.
    pub(crate) fn stays(&self, tx: TxNo) -> bool
        ensures { result ≡ stays tx self.now }
    {
        matches!(self.held, Held::Filled(_)) || self.tx != tx
    }

    /// Whether a transaction may not have the slot for this entry: it is filled by it, or reserved by it for another. Constant time.
    pub(crate) fn blocks(&self, row: u32, tx: TxNo) -> bool
        ensures { result ≡ blocks row tx self.now }
    {
        match self.held {
            Held::Filled(held) => held == row,
            Held::Emptied(held) => held == row && self.tx != tx,
            Held::Nowhere => false,
        }
    }
}

//! The index of keys: where the row of each key is, and what transactions emptied.
ghost use Rattle.std.specs.Prelude.{◌≡◌, ◌≢◌, ◌^◌, ◌↔◌, ◌<◌, ◌≤◌, [], ℕ, None, Some, IsTrue, true, false, IsSome, MatchOption, OnOk, OnErr, length};
ghost use Rattle.std.specs.List.{count_by};
ghost use Rattle.std.specs.BTreeMap as tree;
ghost use Rattle.table_space.specs.Emptied.{is_of, is_at, is_left, MayTell, made, Stands, HasOneMore, IsExchanged, IsNextTx, IsOneOf, IsLike, IsWhole};
ghost use Rattle.table_space.specs.Numbers.{name_cmp};
ghost use Rattle.table_space.specs.Index.{row_at, RowBecomes, KeepsRows, StateBecomes, LosesOne};
ghost use Rattle.table_space.specs.Ordered.{Each};

use crate::emptied::{EmptyEntry, NOWHERE};
use crate::tree::Store;
use ids_base::lock::Key;
use ids_base::memory::Memory;
use ids_base::numbers::{TableNo, TxNo};
use std::alloc::Global;
use std::collections::BTreeMap;
use std::marker::Model;

/// What the index keeps of a key: the row id of its row, if it is in a slot, and how many entries without a row it has.
#[derive(Clone, Copy, Debug, PartialEq, Eq)]
pub struct KeyState {
    pub row: Option<u32>,
    pub empty: u32,
}

/// The rows of all keys, and the entries of keys whose rows are gone from a slot, or in none yet. A row that goes from its slot, and one that
/// comes back, take no memory: there is a node for each key that has a row.
#[derive(Drop)]
pub struct Index {
    keys: BTreeMap<(TableNo, Key), KeyState>,
    empty: Store<EmptyEntry>,
    alloc: Global,
}

impl Model for Index {
    ghost use Rattle.table_space.specs.Index.{Indexed, rows_in, IsIndex};

    ghost Value = { Indexed };

    ghost view = { λ a. record { rows = rows_in a.keys.entries; empty = a.empty.items } };

    ghost invariant = { λ a. IsIndex a.keys a.empty.items a.empty.spare };
}

impl Index {
    /// No entries.
    pub fn new(alloc: Global) -> Index
        ensures rows { result.rows ≡ [] }
        ensures empty { result.empty ≡ [] }
    {
        Index {
            keys: BTreeMap::new(alloc),
            empty: Store::new(),
            alloc,
        }
    }

    // What is kept of a key, also of one that has no entry. Logarithmic in the keys.
    fn state(&self, table: TableNo, key: &Key) -> KeyState
        ensures row { result.row ≡ row_at self.now.rows table key.now }
        ensures empty { result.empty ≡ count_by (is_of table key.now) self.now.empty }
    {
        match self.keys.get(&(table, *key)) {
            None => KeyState {
                row: None,
                empty: 0,
            },
            Some(state) => *state,
        }
    }

    /// The row id of a key's row, if it is in a slot. Logarithmic in the keys.
    pub fn row_of(&self, table: TableNo, key: &Key) -> Option<u32>
        ensures { result ≡ row_at self.now.rows table key.now }
    {
        self.state(table, key).row
    }

    /// Makes an entry of a key without a row id. Answers `Memory` only for want of memory, and all is as it was then. Logarithmic.
    pub fn enter(&mut self, table: TableNo, key: &Key, tx: TxNo) -> Result<(), Memory>
        ensures entered { OnOk result (HasOneMore self.old.empty self.new.empty (made tx table key.now)) }
        ensures rows { KeepsRows self.old.rows self.new.rows }
        ensures err { OnErr result (self.new.empty ≡ self.old.empty) }
    {
        // No memory holds so many entries.
        if self.empty.nodes() == u32::MAX {
            return Err(Memory);
        }
        let state = self.state(table, key);
        let entry = EmptyEntry::made(tx, table, key);
        self.empty.reserve(self.alloc, entry)?;
        let one_more = KeyState {
            row: state.row,
            empty: state.empty + 1,
        };
        self.keys.insert((table, *key), one_more)?;
        self.empty.put(entry);
        Ok(())
    }

    /// A key whose row is in no slot has it in this one, and one of its entries without a row goes. Logarithmic; takes no memory.
    pub fn fill(&mut self, from: &EmptyEntry, row: u32)
        requires there { Stands self.old.empty from.now }
        requires nowhere { row_at self.old.rows from.now.table from.now.key ≡ None }
        ensures row { RowBecomes self.old.rows self.new.rows from.now.table from.now.key (Some row) }
        ensures went { HasOneMore self.new.empty self.old.empty from.now }
    {
        let state = self.state(from.table, &from.key);
        let filled = KeyState {
            row: Some(row),
            empty: state.empty - 1,
        };
        keep(&mut self.keys, from.table, &from.key, filled);
        self.empty.take(from);
    }

    /// A key whose row is in a slot has it nowhere, and an entry of the key without a row comes. Logarithmic; takes no memory.
    pub fn empty(&mut self, to: EmptyEntry)
        requires there { IsSome (row_at self.old.rows to.table to.key) }
        requires whole { IsWhole to }
        ensures row { RowBecomes self.old.rows self.new.rows to.table to.key None }
        ensures came { HasOneMore self.old.empty self.new.empty to }
    {
        let state = self.state(to.table, &to.key);
        let emptied = KeyState {
            row: None,
            empty: state.empty + 1,
        };
        keep(&mut self.keys, to.table, &to.key, emptied);
        self.empty.put(to);
    }

    /// Another entry of the same key in the place of one. Logarithmic; takes no memory.
    pub fn change(&mut self, from: &EmptyEntry, to: EmptyEntry)
        requires there { Stands self.old.empty from.now }
        requires table { to.table ≡ from.now.table }
        requires key { to.key ≡ from.now.key }
        requires whole { IsWhole to }
        ensures exchanged { IsExchanged self.old.empty self.new.empty from.now to }
        ensures rows { self.new.rows ≡ self.old.rows }
    {
        if self.empty.take(from).is_some() {
            self.empty.put(to);
        }
    }

    /// Drops an entry. Logarithmic; takes no memory.
    pub fn drop_entry(&mut self, entry: &EmptyEntry)
        requires { Stands self.old.empty entry.now }
        ensures went { HasOneMore self.new.empty self.old.empty entry.now }
        ensures rows { KeepsRows self.old.rows self.new.rows }
    {
        let state = self.state(entry.table, &entry.key);
        lose(&mut self.keys, entry.table, &entry.key, state);
        self.empty.take(entry);
    }

    /// Whether an entry is there. Logarithmic.
    pub fn has(&self, entry: &EmptyEntry) -> bool
        ensures { IsTrue result ↔ Stands self.now.empty entry.now }
    {
        match self.empty.items.first_from(entry) {
            None => false,
            Some(found) => found.is_same(entry),
        }
    }

    /// The least transaction from one on that has an entry, if there is one. Logarithmic.
    pub fn next_tx(&self, from: TxNo) -> Option<TxNo>
        ensures next { MatchOption result (Each (λ e. e.tx < from) self.now.empty) (IsNextTx self.now.empty from) }
        ensures few { Each (λ e. e.tx < 2 ^ 64) self.now.empty }
    {
        match self
            .empty
            .items
            .first_from(&EmptyEntry::first(from, None, NOWHERE))
        {
            None => None,
            Some(found) => Some(found.tx),
        }
    }

    /// An entry of a transaction, if it has one. Logarithmic.
    pub fn first_of(&self, tx: TxNo) -> Option<EmptyEntry>
        ensures { MatchOption result (Each (λ e. e.tx ≢ tx) self.now.empty) (IsOneOf self.now.empty tx) }
    {
        match self
            .empty
            .items
            .first_from(&EmptyEntry::first(tx, None, NOWHERE))
        {
            None => None,
            Some(found) => { if found.tx == tx { Some(found) } else { None } }
        }
    }

    /// The first entry of a transaction with a row id that tells of a table, or does not, if there is one. Logarithmic.
    pub fn first_at(&self, tx: TxNo, vacant_in: Option<TableNo>, row: u64) -> Option<EmptyEntry>
        ensures { MatchOption result (Each (λ e. is_at tx vacant_in row e ≡ false) self.now.empty) (λ e. Stands self.now.empty e × (is_at tx vacant_in row e ≡ true)) }
    {
        match self
            .empty
            .items
            .first_from(&EmptyEntry::first(tx, vacant_in, row))
        {
            None => None,
            Some(found) => {
                if found.is_at(tx, vacant_in, row) {
                    Some(found)
                } else {
                    None
                }
            }
        }
    }

    /// How many entries of a transaction with a row id tell of a table, or do not. Logarithmic.
    pub fn count_at(&self, tx: TxNo, vacant_in: Option<TableNo>, row: u64) -> u32
        requires { row < 2 ^ 32 }
        ensures count { result ≡ count_by (is_at tx vacant_in row) self.now.empty }
        ensures few { length self.now.empty < 2 ^ 32 }
    {
        let from = EmptyEntry::first(tx, vacant_in, row);
        let to = EmptyEntry::first(tx, vacant_in, row + 1);
        self.empty.items.count_below(&to) - self.empty.items.count_below(&from)
    }

    /// An entry like one, but of any transaction from one on, if there is one: of the least. In logarithmic time for each transaction that has an entry.
    pub fn like_from(&self, like: EmptyEntry, from: TxNo) -> Option<EmptyEntry>
        requires { IsWhole like }
        ensures { MatchOption result (Each (λ e. from ≤ e.tx → ¬ IsLike like e) self.now.empty) (λ e. Stands self.now.empty e × IsLike like e) }
    {
        match self.next_tx(from) {
            None => None,
            Some(tx) => {
                let entry = like.of(tx);
                if self.has(&entry) {
                    return Some(entry);
                }
                match tx.checked_add(1) {
                    None => None,
                    Some(next) => self.like_from(like, next),
                }
            }
        }
    }

    /// How many entries a transaction has with a row id, all of which tell of this table, or of none. Logarithmic.
    pub fn count_of(&self, tx: TxNo, row: u64, owner: Option<TableNo>) -> u32
        requires row { row < 2 ^ 32 }
        requires told { Each (MayTell row owner) self.now.empty }
        ensures { result ≡ count_by (is_left tx row) self.now.empty }
    {
        let untold = self.count_at(tx, None, row);
        match owner {
            None => untold,
            Some(_) => untold + self.count_at(tx, owner, row),
        }
    }

    /// The least transaction from one on that has so many entries with a row id, all of which tell of this table, or of none. In logarithmic time for
    /// each transaction that has an entry.
    pub fn transaction_with(
        &self,
        count: u32,
        row: u64,
        owner: Option<TableNo>,
        from: TxNo,
    ) -> Option<TxNo>
        requires some { 0 < count }
        requires row { row < 2 ^ 32 }
        requires told { Each (MayTell row owner) self.now.empty }
        ensures { MatchOption result ((tx : ℕ) → from ≤ tx → count_by (is_left tx row) self.now.empty ≢ count) (λ tx. count_by (is_left tx row) self.now.empty ≡ count) }
    {
        match self.next_tx(from) {
            None => None,
            Some(tx) => {
                if self.count_of(tx, row, owner) == count {
                    return Some(tx);
                }
                match tx.checked_add(1) {
                    None => None,
                    Some(next) => self.transaction_with(count, row, owner, next),
                }
            }
        }
    }
}

// Keeps another state of a key that has one.
fn keep(keys: &mut BTreeMap<(TableNo, Key), KeyState>, table: TableNo, key: &Key, state: KeyState)
    requires there { IsSome (tree.get name_cmp keys.old (table, key.now)) }
    requires sorted { tree.IsOrdered name_cmp keys.old }
    ensures { StateBecomes keys.old keys.new (table, key.now) (Some state) }
{
    match keys.insert((table, *key), state) {
        Ok(_) => {}
        Err(_) => unreachable!(),
    }
}

// A key that has a state loses one of its entries.
fn lose(keys: &mut BTreeMap<(TableNo, Key), KeyState>, table: TableNo, key: &Key, state: KeyState)
    requires there { IsSome (tree.get name_cmp keys.old (table, key.now)) }
    requires some { 1 ≤ state.empty }
    requires sorted { tree.IsOrdered name_cmp keys.old }
    ensures { LosesOne keys.old keys.new (table, key.now) state }
{
    if state.row.is_none() && state.empty == 1 {
        keys.remove(&(table, *key));
    } else {
        let fewer = KeyState {
            row: state.row,
            empty: state.empty - 1,
        };
        keep(keys, table, key, fewer);
    }
}

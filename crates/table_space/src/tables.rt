//! The names and shapes of tables, and which names are shown.
ghost use Rattle.std.specs.Prelude.{◌≡◌, ◌≢◌, ◌≤◌, ◌<◌, ◌==◌, ◌&&◌, ℕ, true, false, None, Some, MatchOption, OnOk, nat_eq, option_copied};
ghost use Rattle.std.specs.Option.{option_map, option_and_then};
ghost use Rattle.std.specs.Cmp.Lexicographic.{pointwise};
ghost use Rattle.indexmap.specs.IndexMap.{get, spare};
ghost use Rattle.table_space.specs.declared.tables.Entered.{Entered};
ghost use Rattle.table_space.specs.Ordered.{IsOrdered, ordered-prop};
ghost use Rattle.table_space.specs.Tables.{table_name, name_cmp, table_in, is_shown, is_shown_as, AreShown, AreNumbers, IsLeastShown, Shows};

use crate::space::Table;
use crate::tree::{Node, Ranks, Tree};
use ids_base::memory::Memory;
use ids_base::name::Name;
use ids_base::numbers::TableNo;
use indexmap::IndexMap;
use std::alloc::Global;
use std::mem;

/// A name, filled up with zeros, and the number of a table that has it. In the order of the fields.
#[derive(Clone, Copy, PartialEq, Eq, PartialOrd, Ord)]
pub struct TableName {
    pub text: [u8; 18],
    pub len: u8,
    pub table: TableNo,
}

/// What a table was entered with, and the node for its name while that is not shown.
#[derive(Drop)]
pub struct Entered {
    pub table: Table,
    pub node: Option<Box<Node<TableName>>>,
}

/// The tables that were entered, and the names of those whose names are shown, in order.
#[derive(Drop)]
pub struct Tables {
    pub entered: IndexMap<TableNo, Entered>,
    shown: Tree<TableName>,
    ranks: Ranks,
    ghost numbers: { AreNumbers (λ t. get nat_eq entered t) },
    ghost names: { AreShown (λ t. get nat_eq entered t) shown },
    ghost ordered: { IsOrdered name_cmp shown } by { ordered-prop name_cmp shown },
}

impl TableName {
    // The name of a table with this number.
    fn new(name: &Name, table: TableNo) -> TableName
        ensures { result ≡ table_name name.now table }
    {
        let bytes = name.bytes();
        let mut text = [0; 18];
        text[..bytes.len()].copy_from_slice(bytes);
        TableName {
            text,
            len: bytes.len() as u8,
            table,
        }
    }

    // Whether the names are the same, whatever the tables.
    fn is_same_name(&self, other: &TableName) -> bool
        ensures { result ≡ (pointwise nat_eq self.now.text other.now.text && (self.now.len == other.now.len)) }
    {
        self.text == other.text && self.len == other.len
    }
}

impl Tables {
    /// No tables. Takes no memory.
    pub(crate) fn new(alloc: Global) -> Tables
        ensures { (t : ℕ) → get nat_eq result.entered t ≡ None }
    {
        Tables {
            entered: IndexMap::new(alloc),
            shown: Tree::new(),
            ranks: Ranks::new(),
        }
    }

    /// What a table was entered with, if it was. Constant time.
    pub(crate) fn get(&self, table: TableNo) -> Option<&Table>
        ensures { option_copied result ≡ table_in (get nat_eq self.now.entered table) }
    {
        match self.entered.get(&table) {
            None => None,
            Some(entered) => Some(&entered.table),
        }
    }

    /// The least number of a table whose name is shown and is this; `None` exactly where there is none. Logarithmic in the tables.
    pub(crate) fn named(&self, name: &Name) -> Option<TableNo>
        ensures { MatchOption result ((t : ℕ) → is_shown_as name.now (get nat_eq self.now.entered t) ≡ false) (IsLeastShown (λ t. get nat_eq self.now.entered t) name.now) }
    {
        let first = TableName::new(name, 0);
        match self.shown.first_from(&first) {
            None => None,
            Some(found) if found.is_same_name(&first) => Some(found.table),
            Some(_) => None,
        }
    }

    /// Makes room for a table more, and the node for its name. Answers `Memory` only for want of memory, and all is as it was then. Amortised
    /// constant time.
    pub(crate) fn reserve(&mut self, alloc: Global) -> Result<Box<Node<TableName>>, Memory>
        ensures tables { (t : ℕ) → get nat_eq self.new.entered t ≡ get nat_eq self.old.entered t }
        ensures room { OnOk result (0 < spare self.new.entered) }
    {
        self.entered.reserve(1)?;
        let none = TableName {
            text: [0; 18],
            len: 0,
            table: 0,
        };
        Ok(Box::new(alloc, Node::new(none, self.ranks.next()))?)
    }

    /// Enters a table, and shows its name or not. Logarithmic in the tables; takes no memory.
    pub(crate) fn enter(
        &mut self,
        number: TableNo,
        table: Table,
        node: Box<Node<TableName>>,
        shown: bool,
    )
        requires { 0 < spare self.old.entered }
        ensures here { table_in (get nat_eq self.new.entered number) ≡ Some table }
        ensures shown { is_shown (get nat_eq self.new.entered number) ≡ shown }
        ensures tables { (t : ℕ) → t ≢ number → table_in (get nat_eq self.new.entered t) ≡ table_in (get nat_eq self.old.entered t) }
        ensures beside { (t : ℕ) → t ≢ number → is_shown (get nat_eq self.new.entered t) ≡ is_shown (get nat_eq self.old.entered t) }
    {
        self.hide(number);
        let node = Some(node);
        put(&mut self.entered, number, Entered { table, node });
        if shown {
            self.show(number);
        }
    }

    /// Shows the name of a table, if it was entered. Logarithmic in the tables; takes no memory.
    pub(crate) fn show(&mut self, table: TableNo)
        ensures { Shows (λ t. get nat_eq self.old.entered t) (λ t. get nat_eq self.new.entered t) table true }
    {
        let Some(name) = self.name_of(table) else {
            return;
        };
        if let Some(mut node) = swap_node(&mut self.entered, table, None) {
            node.item = name;
            self.shown.insert(node);
        }
    }

    /// Shows the name of a table no longer. Logarithmic in the tables; takes no memory.
    pub(crate) fn hide(&mut self, table: TableNo)
        ensures shows { Shows (λ t. get nat_eq self.old.entered t) (λ t. get nat_eq self.new.entered t) table false }
        ensures beside { (t : ℕ) → t ≢ table → get nat_eq self.new.entered t ≡ get nat_eq self.old.entered t }
        ensures room { spare self.new.entered ≡ spare self.old.entered }
    {
        let Some(name) = self.name_of(table) else {
            return;
        };
        match self.shown.remove(&name) {
            None => {}
            Some(node) => {
                swap_node(&mut self.entered, table, Some(node));
            }
        }
    }

    // The name of a table, if it was entered.
    fn name_of(&self, table: TableNo) -> Option<TableName>
        ensures { result ≡ option_map (λ (e : Entered). table_name e.table.name table) (get nat_eq self.now.entered table) }
    {
        match self.entered.get(&table) {
            None => None,
            Some(entered) => Some(TableName::new(&entered.table.name, table)),
        }
    }
}

// Keeps a node, or none, with a table, if that was entered; gives the one that was kept with it.
fn swap_node(
    entered: &mut IndexMap<TableNo, Entered>,
    table: TableNo,
    node: Option<Box<Node<TableName>>>,
) -> Option<Box<Node<TableName>>>
    ensures here { get nat_eq entered.new table ≡ option_map (λ (e : Entered). record e { node = node }) (get nat_eq entered.old table) }
    ensures beside { (t : ℕ) → t ≢ table → get nat_eq entered.new t ≡ get nat_eq entered.old t }
    ensures given { result ≡ option_and_then (λ (e : Entered). e.node) (get nat_eq entered.old table) }
    ensures room { spare entered.new ≡ spare entered.old }
{
    match entered.get_mut(&table) {
        None => None,
        Some(kept) => mem::replace(&mut kept.node, node),
    }
}

// Enters a table, where there is room.
fn put(tables: &mut IndexMap<TableNo, Entered>, number: TableNo, entered: Entered)
    requires { 0 < spare tables.old }
    ensures here { get nat_eq tables.new number ≡ Some entered }
    ensures beside { (t : ℕ) → t ≢ number → get nat_eq tables.new t ≡ get nat_eq tables.old t }
{
    let _ = tables.insert(number, entered);
}

//! The numbers of tables.
ghost use Rattle.std.specs.Prelude.{◌≡◌, OnOk, OnErr};
ghost use Rattle.std.specs.FinMap as map;

use ids_base::memory::Memory;
use ids_base::name::Name;
use ids_base::numbers::TableNo;
use std::alloc::Global;
use std::collections::BTreeMap;
use std::marker::Model;

/// The number of each table, by name. Contracts see the finite map.
#[derive(Drop)]
pub struct TableNumbers {
    numbers: BTreeMap<Name, TableNo>,
}

impl Model for TableNumbers {
    ghost use Rattle.std.specs.FinMap as map;
    ghost use Rattle.fast_recovery.specs.Codes.{coded_numbers};
    ghost use Rattle.fast_recovery.specs.Found.{Numbers};

    ghost Value = { Numbers };

    ghost coded = { coded_numbers };

    ghost view = { λ a. map.from_entries a.numbers.entries };
}

impl TableNumbers {
    /// No table has a number. Takes no memory.
    pub fn new(alloc: Global) -> TableNumbers
        ensures { result ≡ map.empty }
    {
        TableNumbers {
            numbers: BTreeMap::new(alloc),
        }
    }

    /// The number of a table, if it has one, in logarithmic time.
    pub fn get(&self, name: &Name) -> Option<TableNo>
        ensures { result ≡ map.get self.now name.now }
    {
        self.numbers.get(name).copied()
    }

    /// Gives a table its number, in logarithmic time.
    pub fn set(&mut self, name: Name, number: TableNo) -> Result<(), Memory>
        ensures ok { OnOk result (self.new ≡ map.insert self.old name number) }
        ensures err { OnErr result (self.new ≡ self.old) }
    {
        self.numbers.insert(name, number)?;
        Ok(())
    }
}

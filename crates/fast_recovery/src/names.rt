//! The names of tables.
ghost use Rattle.std.specs.Prelude.{◌≡◌, OnOk, option_copied};
ghost use Rattle.std.specs.FinMap as map;

use ids_base::memory::Memory;
use ids_base::name::Name;
use ids_base::numbers::TableNo;
use std::alloc::Global;
use std::collections::BTreeMap;
use std::marker::Model;

/// The name of each table, by number. Contracts see the finite map.
#[derive(Drop)]
pub(crate) struct TableNames {
    names: BTreeMap<TableNo, Name>,
}

impl Model for TableNames {
    ghost use Rattle.std.specs.FinMap as map;
    ghost use Rattle.fast_recovery.specs.Codes.{coded_names};
    ghost use Rattle.fast_recovery.specs.Reading.{Names};

    ghost Value = { Names };

    ghost coded = { coded_names };

    ghost view = { λ a. map.from_entries a.names.entries };
}

impl TableNames {
    /// No number has a name. Takes no memory.
    pub(crate) fn new(alloc: Global) -> TableNames
        ensures { result ≡ map.empty }
    {
        TableNames {
            names: BTreeMap::new(alloc),
        }
    }

    /// The name of the table with a number, if it has one, in logarithmic time.
    pub(crate) fn get(&self, number: TableNo) -> Option<&Name>
        ensures { option_copied result ≡ map.get self.now number }
    {
        self.names.get(&number)
    }

    /// Gives a number its name, in logarithmic time.
    pub(crate) fn set(&mut self, number: TableNo, name: Name) -> Result<(), Memory>
        ensures { OnOk result (self.new ≡ map.insert self.old number name) }
    {
        self.names.insert(number, name)?;
        Ok(())
    }
}

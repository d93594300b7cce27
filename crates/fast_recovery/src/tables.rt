//! Which tables pages and rows stand for.
ghost use Rattle.std.specs.Prelude.{◌≡◌, ℕ, IfOk, IfErr};
ghost use Rattle.ids_model.specs.Logged.{StandsWhole};
ghost use Rattle.fast_recovery.specs.BrokenRows.{IsBrokenRow};
ghost use Rattle.fast_recovery.specs.Found.{AreNumbered, IsGreatest};

use crate::catalogue::Catalogue;
use crate::numbers::TableNumbers;
use crate::replay::Replay;
use crate::rows::put_rows;
use ids_base::memory::Memory;
use ids_base::numbers::TableNo;
use ids_model::tables::PlainTables;

/// What pages and rows stand for: the tables, the number of each, and the greatest number of a table that was seen.
#[derive(Drop)]
pub struct Found {
    pub tables: PlainTables,
    pub numbers: TableNumbers,
    pub greatest: TableNo,
}

/// Why no tables are found.
#[derive(Clone, Copy, Debug, PartialEq, Eq, Drop)]
pub enum TablesFault {
    /// Memory was wanting.
    Memory,
    /// Pages and rows are no well formed ones; the row id that breaks a rule of them.
    Damaged(u32),
}

impl From<Memory> for TablesFault {
    ghost use Rattle.std.specs.Prelude.{◌≡◌};
    ghost use Rattle.fast_recovery.specs.declared.tables.TablesFault.TheVariants.{Memory};

    ghost from_gives = { λ _ e. e ≡ Memory };

    fn from(_memory: Memory) -> TablesFault {
        TablesFault::Memory
    }
}

impl Replay {
    /// The tables that pages and rows stand for, their numbers, and the greatest number of a table that owns a page or is in
    /// the catalogue, 99 where there is none. `Damaged` comes where pages and rows are no well formed ones, with the row id that
    /// breaks a rule of these: of a row that its table or the catalogue cannot have, as one with the key of a lesser row id, or of
    /// slot 1 of a page that has not the row length of its owner. Three passes over pages and rows, with logarithmic look-ups;
    /// takes memory for the tables.
    pub fn tables(&self) -> Result<Found, TablesFault>
        ensures stands { IfOk result (λ f. StandsWhole self.now.own self.now.slots f.tables) }
        ensures numbers { IfOk result (λ f. AreNumbered self.now.own self.now.slots f.tables f.numbers) }
        ensures greatest { IfOk result (λ f. IsGreatest self.now.own self.now.slots f.greatest) }
        ensures damaged { IfErr result (λ e. (row : ℕ) → e ≡ TablesFault.Damaged row → IsBrokenRow self.now.own self.now.slots row) }
    {
        let alloc = self.alloc();
        let owners = self.owners();
        let slots = self.slots();
        let catalogue = Catalogue::read(alloc, owners, slots)?;
        catalogue.check_pages(owners)?;
        let greatest = catalogue.greatest.max(owners.greatest_table());
        let mut tables = catalogue.tables;
        put_rows(alloc, owners, slots, &catalogue.names, &mut tables)?;
        Ok(Found {
            tables,
            numbers: catalogue.numbers,
            greatest,
        })
    }
}

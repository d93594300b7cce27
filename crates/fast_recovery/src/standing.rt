//! The changes of open transactions.
ghost use Rattle.std.specs.Prelude.{◌≡◌, ◌↔◌, [], ◌∷◌, OnOk, MatchOption, IsTrue};

use ids_base::memory::Memory;
use ids_base::numbers::TxNo;
use log_records::change::Change;
use std::alloc::Global;
use std::marker::Model;

/// A change of a slot by a transaction.
#[derive(Drop)]
pub struct TxChange {
    pub tx: TxNo,
    pub change: Change,
}

impl Model for TxChange {
    ghost use Rattle.std.specs.Prelude.{◌<◌};
    ghost use Rattle.ids_base.specs.RowIds.{row_number};
    ghost use Rattle.ids_model.specs.Recovered.{SlotChange};
    ghost use Rattle.fast_recovery.specs.Codes.{coded_change};

    ghost Value = { SlotChange };

    ghost coded = { coded_change };

    ghost invariant = { λ a. a.change.row.slot < 256 };

    ghost view = { λ a. record { tx = a.tx; slot = row_number a.change.row.page a.change.row.slot; before = a.change.before; after = a.change.after } };
}

/// The standing changes. Contracts see the list of them, the latest first.
#[derive(Drop)]
pub struct Standing {
    // The latest is at the end.
    changes: Vec<TxChange>,
}

impl Model for Standing {
    ghost use Rattle.std.specs.Prelude.{List, reverse};
    ghost use Rattle.ids_model.specs.Recovered.{SlotChange};

    ghost Value = { List SlotChange };

    ghost view = { λ a. reverse a.changes.items };
}

impl Standing {
    /// No change. Takes no memory.
    pub fn new(alloc: Global) -> Standing
        ensures { result ≡ [] }
    {
        Standing {
            changes: Vec::new(alloc),
        }
    }

    /// These changes, of which the latest is the first. Takes no memory; linear.
    pub fn from_latest(changes: Vec<TxChange>) -> Standing
        ensures { result ≡ changes.items }
    {
        let mut changes = changes;
        changes.reverse();
        Standing { changes }
    }

    /// Whether there is none.
    pub fn is_empty(&self) -> bool
        ensures { IsTrue result ↔ (self.now ≡ []) }
    {
        self.changes.is_empty()
    }

    /// A change after all the others. Amortised constant time.
    pub fn push(&mut self, change: TxChange) -> Result<(), Memory>
        ensures { OnOk result (self.new ≡ change ∷ self.old) }
    {
        self.changes.push(change)?;
        Ok(())
    }

    /// Takes the latest change away. Takes no memory; constant time.
    pub fn pop(&mut self) -> Option<TxChange>
        ensures { MatchOption result ((self.old ≡ []) × (self.new ≡ [])) (λ c. self.old ≡ c ∷ self.new) }
    {
        self.changes.pop()
    }
}

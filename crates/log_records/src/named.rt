//! The open transactions that a checkpoint names.
ghost use Rattle.std.specs.Prelude.{◌≡◌, ◌++◌, [], ◌∷◌, IfOk};
ghost use Rattle.log_records.specs.Naming.{named_of, all_named};
ghost use Rattle.log_records.specs.Spelling.{AreNamed};

use ids_base::memory::Memory;
use ids_base::position::OpenTx;
use std::alloc::Global;
use std::marker::Model;

/// How many transactions a checkpoint may name.
const MOST: usize = 64;

/// At most 64 open transactions by strictly rising number, in room that is taken once. Contracts see what they name, in order.
#[derive(Drop)]
pub struct NamedList {
    items: Vec<OpenTx>,
}

impl Model for NamedList {
    ghost use Rattle.std.specs.Prelude.{List, ◌≤◌, vec_capacity};
    ghost use Rattle.log_records.specs.Entries.{Named};
    ghost use Rattle.log_records.specs.Naming.{all_named};
    ghost use Rattle.log_records.specs.Spelling.{AreNamed};

    ghost Value = { List Named };

    ghost view = { λ a. all_named a.items.items };

    ghost invariant = { λ a. AreNamed (all_named a.items.items) × (64 ≤ vec_capacity a.items) };
}

impl NamedList {
    /// No transaction, and room for 64. `Memory` where there is none for them.
    pub fn with_room(alloc: Global) -> Result<NamedList, Memory>
        ensures { IfOk result (λ list. list ≡ []) }
    {
        Ok(NamedList {
            items: Vec::with_capacity(alloc, MOST)?,
        })
    }

    /// Puts a transaction at the end. Constant time, no memory.
    pub fn push(&mut self, open_tx: OpenTx)
        requires { AreNamed (self.old ++ named_of open_tx ∷ []) }
        ensures { self.new ≡ self.old ++ named_of open_tx ∷ [] }
    {
        self.items.push_reserved(open_tx);
    }

    /// Takes all of them out; the room stays. Constant time.
    pub fn clear(&mut self)
        ensures { self.new ≡ [] }
    {
        self.items.clear();
    }

    /// The transactions.
    pub fn as_slice(&self) -> &[OpenTx]
        ensures items { all_named result.now ≡ self.now }
        ensures named { AreNamed self.now }
    {
        self.items.as_slice()
    }

    /// The same list, in time of its length.
    pub fn copy(&self, alloc: Global) -> Result<NamedList, Memory>
        ensures { IfOk result (λ list. list ≡ self.now) }
    {
        let mut items = Vec::with_capacity(alloc, MOST)?;
        items.extend_from_slice(self.items.as_slice())?;
        Ok(NamedList { items })
    }
}

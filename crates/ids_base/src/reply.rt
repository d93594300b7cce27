//! Replies to statements.
ghost use Rattle.std.specs.Prelude.{◌≡◌, IfOk};

use crate::memory::Memory;
use crate::shared::Shared;
use crate::value::Row;
use std::alloc::Global;

/// What a session is told of a statement.
#[derive(Drop)]
pub enum Reply {
    /// CREATE TABLE made a table.
    Created,
    /// So many rows were changed.
    Changed(u64),
    /// The rows that a SELECT lists, by key.
    Selected(Shared<Row>),
    /// BEGIN WORK opened a transaction.
    Begun,
    /// COMMIT WORK ended it.
    Committed,
    /// ROLLBACK WORK took its changes back and ended it.
    RolledBack,
    /// COMMIT WORK or ROLLBACK WORK outside a transaction.
    NotInTx,
    /// BEGIN WORK inside a transaction.
    InTx,
    /// An INSERT over a key that is there.
    Duplicate,
    /// The table is not there.
    NoTable,
    /// The table is there already.
    TableExists,
    /// The statement does not fit the shape of its table, or the shape is no table's.
    BadShape,
    /// The table has no empty slot, and no page is without an owner; with the slots and pages that the table owns.
    NoSpace { rows: u64, pages: u64 },
}

impl Reply {
    /// The same reply, which shares its rows. Takes no memory.
    pub fn copy(&self, alloc: Global) -> Result<Reply, Memory>
        ensures { IfOk result (λ reply. reply ≡ self.now) }
    {
        match self {
            Reply::Created => Ok(Reply::Created),
            Reply::Changed(count) => Ok(Reply::Changed(*count)),
            Reply::Selected(rows) => Ok(Reply::Selected(rows.copy(alloc)?)),
            Reply::Begun => Ok(Reply::Begun),
            Reply::Committed => Ok(Reply::Committed),
            Reply::RolledBack => Ok(Reply::RolledBack),
            Reply::NotInTx => Ok(Reply::NotInTx),
            Reply::InTx => Ok(Reply::InTx),
            Reply::Duplicate => Ok(Reply::Duplicate),
            Reply::NoTable => Ok(Reply::NoTable),
            Reply::TableExists => Ok(Reply::TableExists),
            Reply::BadShape => Ok(Reply::BadShape),
            Reply::NoSpace { rows, pages } => Ok(Reply::NoSpace {
                rows: *rows,
                pages: *pages,
            }),
        }
    }
}

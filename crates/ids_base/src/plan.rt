//! Statements, as they are read.
ghost use Rattle.std.specs.Prelude.{◌≡◌, IfOk};

use crate::list::List;
use crate::memory::Memory;
use crate::name::Name;
use crate::shape::Shape;
use crate::value::{Row, Value};
use std::alloc::Global;

/// How a term compares a column with a value.
#[derive(Clone, Copy, PartialEq, Eq, Drop)]
pub enum Comparison {
    Equal,
    NotEqual,
    Less,
    AtMost,
    Greater,
    AtLeast,
}

/// A term of a condition, as `k = 7`.
#[derive(Drop)]
pub struct Term {
    pub column: Name,
    pub comparison: Comparison,
    pub value: Value,
}

/// A statement over tables. A condition holds where all its terms do.
#[derive(Drop)]
pub enum DataStatement {
    CreateTable { table: Name, shape: Shape },
    Insert { table: Name, row: Row },
    Select { table: Name, condition: List<Term> },
    Delete { table: Name, condition: List<Term> },
}

/// A statement of a script.
#[derive(Drop)]
pub enum Plan {
    Data(DataStatement),
    Begin,
    Commit,
    Rollback,
}

impl Term {
    /// The same term.
    pub fn copy(&self, alloc: Global) -> Result<Term, Memory>
        ensures { IfOk result (λ term. term ≡ self.now) }
    {
        Ok(Term {
            column: self.column.copy(),
            comparison: self.comparison,
            value: self.value.copy(alloc)?,
        })
    }
}

impl List<Term> {
    /// The same condition.
    pub fn copy(&self, alloc: Global) -> Result<List<Term>, Memory>
        ensures { IfOk result (λ condition. condition ≡ self.now) }
    {
        let mut copy = List::with_capacity(alloc, self.len())?;
        for term in self.as_slice() {
            copy.push(term.copy(alloc)?)?;
        }
        Ok(copy)
    }
}

impl DataStatement {
    /// The same statement.
    pub fn copy(&self, alloc: Global) -> Result<DataStatement, Memory>
        ensures { IfOk result (λ statement. statement ≡ self.now) }
    {
        match self {
            DataStatement::CreateTable { table, shape } => Ok(DataStatement::CreateTable {
                table: table.copy(),
                shape: shape.copy(alloc)?,
            }),
            DataStatement::Insert { table, row } => Ok(DataStatement::Insert {
                table: table.copy(),
                row: row.copy(alloc)?,
            }),
            DataStatement::Select { table, condition } => Ok(DataStatement::Select {
                table: table.copy(),
                condition: condition.copy(alloc)?,
            }),
            DataStatement::Delete { table, condition } => Ok(DataStatement::Delete {
                table: table.copy(),
                condition: condition.copy(alloc)?,
            }),
        }
    }
}

impl Plan {
    /// The same plan.
    pub fn copy(&self, alloc: Global) -> Result<Plan, Memory>
        ensures { IfOk result (λ plan. plan ≡ self.now) }
    {
        match self {
            Plan::Data(statement) => Ok(Plan::Data(statement.copy(alloc)?)),
            Plan::Begin => Ok(Plan::Begin),
            Plan::Commit => Ok(Plan::Commit),
            Plan::Rollback => Ok(Plan::Rollback),
        }
    }
}

//! The plan of a statement.
ghost use Rattle.std.specs.Prelude.{◌≡◌, ◌∷◌, [], cond, length, ◌<◌, IfOk};
ghost use Rattle.sql_reader.specs.declared.token.Keyword.TheVariants as keyword;
ghost use Rattle.sql_reader.specs.declared.place.Place.TheVariants as place;
ghost use Rattle.sql_reader.specs.Grammar.{IsStatementText};
ghost use Rattle.sql_reader.specs.Plans.{says_word, says_name, column_items, shape_items, row_items, condition_items, items_of_plan, IsPlanOf};
ghost use Rattle.sql_reader.specs.Reading.{IsOn, IsBehind, IsSilent, Went};

use crate::place::Place;
use crate::reader::Reader;
use crate::script::CheckedText;
use crate::token::{Keyword, Kind, Sign};
use ids_base::list::List;
use ids_base::memory::Memory;
use ids_base::name::Name;
use ids_base::plan::{Comparison, DataStatement, Plan, Term};
use ids_base::shape::{Column, Shape};
use ids_base::value::Row;
use std::alloc::Global;

fn first_column(reader: &mut Reader) -> Column
    requires on { IsOn reader.old }
    requires at { reader.old.place ≡ place.Column }
    ensures on { IsOn reader.new }
    ensures to { reader.new.place ≡ place.ColumnEnd }
    ensures went { Went reader.old reader.new (column_items result) }
{
    let name = reader.name(Place::ColumnKind);
    let kind = reader.kind(Place::CharSize, Place::CharClose, Place::ColumnEnd);
    Column { name, kind }
}

// Whether another column follows the first, behind PRIMARY KEY where that is there.
fn follows_first(reader: &mut Reader) -> bool
    requires on { IsOn reader.old }
    requires at { reader.old.place ≡ place.ColumnEnd }
    ensures on { IsOn reader.new }
    ensures to { reader.new.place ≡ cond result place.Next place.StatementEnd }
    ensures went { Went reader.old reader.new [] }
{
    match reader.next().kind {
        Kind::Word(_) => {
            reader.only(Kind::Word(Keyword::Key), Place::NextEnd);
            reader.comma(Place::Next)
        }
        Kind::Sign(Sign::Comma) => true,
        _ => false,
    }
}

fn next_column(reader: &mut Reader) -> Column
    requires on { IsOn reader.old }
    requires at { reader.old.place ≡ place.Next }
    ensures on { IsOn reader.new }
    ensures to { reader.new.place ≡ place.NextEnd }
    ensures went { Went reader.old reader.new (column_items result) }
    ensures less { length reader.new.rest.now < length reader.old.rest.now }
{
    let name = reader.name(Place::NextKind);
    let kind = reader.kind(Place::NextCharSize, Place::NextCharClose, Place::NextEnd);
    Column { name, kind }
}

// The columns in brackets, behind the opening one.
fn shape(alloc: Global, reader: &mut Reader) -> Result<Shape, Memory>
    requires on { IsOn reader.old }
    requires at { reader.old.place ≡ place.Column }
    ensures on { IfOk result (λ _. IsOn reader.new) }
    ensures to { IfOk result (λ _. reader.new.place ≡ place.StatementEnd) }
    ensures went { IfOk result (λ shape. Went reader.old reader.new (shape_items shape)) }
{
    let mut shape = List::new(alloc);
    shape.push(first_column(reader))?;
    let mut more = follows_first(reader);
    while more {
        shape.push(next_column(reader))?;
        more = reader.comma(Place::Next);
    }
    shape.share(alloc)
}

// The values in brackets, behind the opening one.
fn row(alloc: Global, reader: &mut Reader) -> Result<Row, Memory>
    requires on { IsOn reader.old }
    requires at { reader.old.place ≡ place.Value }
    ensures on { IfOk result (λ _. IsOn reader.new) }
    ensures to { IfOk result (λ _. reader.new.place ≡ place.StatementEnd) }
    ensures went { IfOk result (λ row. Went reader.old reader.new (row_items row)) }
{
    let mut row = List::new(alloc);
    let mut more = true;
    while more {
        row.push(reader.value(alloc, Place::ValueEnd)?)?;
        more = reader.comma(Place::Value);
    }
    row.share(alloc)
}

// CREATE TABLE, behind its first word.
fn create(alloc: Global, reader: &mut Reader) -> Result<DataStatement, Memory>
    requires on { IsOn reader.old }
    requires at { reader.old.place ≡ place.Create }
    ensures on { IfOk result (λ _. IsOn reader.new) }
    ensures to { IfOk result (λ _. reader.new.place ≡ place.StatementEnd) }
    ensures says { IfOk result (λ statement. IsBehind keyword.Create reader.old reader.new statement) }
{
    reader.only(Kind::Word(Keyword::Table), Place::CreateTable);
    let table = reader.name(Place::CreateName);
    reader.only(Kind::Sign(Sign::Open), Place::Column);
    let shape = shape(alloc, reader)?;
    Ok(DataStatement::CreateTable { table, shape })
}

// INSERT, behind its first word.
fn insert(alloc: Global, reader: &mut Reader) -> Result<DataStatement, Memory>
    requires on { IsOn reader.old }
    requires at { reader.old.place ≡ place.Insert }
    ensures on { IfOk result (λ _. IsOn reader.new) }
    ensures to { IfOk result (λ _. reader.new.place ≡ place.StatementEnd) }
    ensures says { IfOk result (λ statement. IsBehind keyword.Insert reader.old reader.new statement) }
{
    reader.only(Kind::Word(Keyword::Into), Place::InsertInto);
    let table = reader.name(Place::InsertName);
    reader.only(Kind::Word(Keyword::Values), Place::InsertValues);
    reader.only(Kind::Sign(Sign::Open), Place::Value);
    let row = row(alloc, reader)?;
    Ok(DataStatement::Insert { table, row })
}

// FROM and the name of a table.
fn from_table(reader: &mut Reader) -> Name
    requires on { IsOn reader.old }
    requires at { reader.old.place ≡ place.Rows }
    ensures on { IsOn reader.new }
    ensures to { reader.new.place ≡ place.RowsTable }
    ensures went { Went reader.old reader.new (says_word keyword.From ∷ says_name result ∷ []) }
{
    reader.only(Kind::Word(Keyword::From), Place::RowsFrom);
    reader.name(Place::RowsTable)
}

// WHERE and its one term.
fn condition(alloc: Global, reader: &mut Reader) -> Result<List<Term>, Memory>
    requires on { IsOn reader.old }
    requires at { reader.old.place ≡ place.RowsTable }
    ensures on { IfOk result (λ _. IsOn reader.new) }
    ensures to { IfOk result (λ _. reader.new.place ≡ place.StatementEnd) }
    ensures went { IfOk result (λ condition. Went reader.old reader.new (condition_items condition)) }
{
    reader.only(Kind::Word(Keyword::Where), Place::Where);
    let column = reader.name(Place::TermName);
    reader.only(Kind::Sign(Sign::Equal), Place::TermValue);
    let value = reader.value(alloc, Place::StatementEnd)?;
    let mut condition = List::with_capacity(alloc, 1)?;
    condition.push(Term {
        column,
        comparison: Comparison::Equal,
        value,
    })?;
    Ok(condition)
}

// SELECT, behind its first word.
fn select(alloc: Global, reader: &mut Reader) -> Result<DataStatement, Memory>
    requires on { IsOn reader.old }
    requires at { reader.old.place ≡ place.Select }
    ensures on { IfOk result (λ _. IsOn reader.new) }
    ensures to { IfOk result (λ _. reader.new.place ≡ place.StatementEnd) }
    ensures says { IfOk result (λ statement. IsBehind keyword.Select reader.old reader.new statement) }
{
    reader.only(Kind::Sign(Sign::Star), Place::Rows);
    let table = from_table(reader);
    let condition = condition(alloc, reader)?;
    Ok(DataStatement::Select { table, condition })
}

// DELETE, behind its first word.
fn delete(alloc: Global, reader: &mut Reader) -> Result<DataStatement, Memory>
    requires on { IsOn reader.old }
    requires at { reader.old.place ≡ place.Rows }
    ensures on { IfOk result (λ _. IsOn reader.new) }
    ensures to { IfOk result (λ _. reader.new.place ≡ place.StatementEnd) }
    ensures says { IfOk result (λ statement. IsBehind keyword.Delete reader.old reader.new statement) }
{
    let table = from_table(reader);
    let condition = condition(alloc, reader)?;
    Ok(DataStatement::Delete { table, condition })
}

// A statement up to what says nothing.
fn statement(alloc: Global, reader: &mut Reader) -> Result<Plan, Memory>
    requires on { IsOn reader.old }
    requires at { reader.old.place ≡ place.StatementStart }
    ensures on { IfOk result (λ _. IsOn reader.new) }
    ensures to { IfOk result (λ _. IsSilent reader.new.place) }
    ensures went { IfOk result (λ plan. Went reader.old reader.new (items_of_plan plan)) }
{
    match reader.word() {
        Keyword::Begin => Ok(Plan::Begin),
        Keyword::Commit => Ok(Plan::Commit),
        Keyword::Rollback => Ok(Plan::Rollback),
        Keyword::Create => Ok(Plan::Data(create(alloc, reader)?)),
        Keyword::Insert => Ok(Plan::Data(insert(alloc, reader)?)),
        Keyword::Delete => Ok(Plan::Data(delete(alloc, reader)?)),
        _ => Ok(Plan::Data(select(alloc, reader)?)),
    }
}

/// The plan of a statement's text. Linear time.
pub(crate) fn read_plan(alloc: Global, text: &[u8]) -> Result<Plan, Memory>
    requires { IsStatementText text.now }
    ensures { IfOk result (λ plan. IsPlanOf text.now plan) }
{
    let mut reader = Reader::new(text);
    statement(alloc, &mut reader)
}

/// The plan of a statement: what the one reading of its text says. Takes memory for the plan alone, and for a text with
/// quote signs once more for that text. Linear time.
pub fn plan_of(alloc: Global, statement: &CheckedText) -> Result<Plan, Memory>
    ensures { IfOk result (λ plan. IsPlanOf statement.now plan) }
{
    read_plan(alloc, statement.bytes())
}

#[cfg(test)]
mod tests {
    use super::plan_of;
    use crate::script::check_script;
    use ids_base::list::List;
    use ids_base::plan::{Comparison, DataStatement, Plan, Term};
    use ids_base::shape::Kind;
    use ids_base::value::Value;
    use std::alloc::Global;
    use std::test::Fail;

    // The plan of a script's first statement.
    fn plan(alloc: Global, script: &[u8]) -> Result<Plan, Fail> {
        let checked = check_script(alloc, script.to_vec(alloc)?)?;
        if checked.statements(0, 0) == 0 {
            return Err(Fail::new("no statement"));
        }
        let text = checked.text_at(alloc, 0, 0, 0)?;
        drop(plan_of(alloc, &text)?);
        Ok(checked.plan_at(alloc, 0, 0, 0)?)
    }

    #[test]
    fn ends(rt: HostRuntime) -> Result<(), Fail> {
        assert!(rt; matches!(plan(rt.alloc(), b"\n Begin work;")?, Plan::Begin));
        assert!(rt; matches!(plan(rt.alloc(), b"COMMIT")?, Plan::Commit));
        assert!(rt; matches!(plan(rt.alloc(), b"RollBack WORK ;")?, Plan::Rollback));
        Ok(())
    }

    #[test]
    fn create(rt: HostRuntime) -> Result<(), Fail> {
        let plan = plan(
            rt.alloc(),
            b"CREATE TABLE T1 (K INTEGER PRIMARY KEY, c CHAR(4), d CHAR(70000))",
        )?;
        let Plan::Data(DataStatement::CreateTable { table, shape }) = plan else {
            return Err(Fail::new("no CREATE TABLE"));
        };
        assert!(rt; table.bytes() == b"t1".as_slice());
        match shape.as_slice() {
            [k, c, d] => {
                assert!(rt; k.name.bytes() == b"k".as_slice() && k.kind == Kind::Integer);
                assert!(rt; c.name.bytes() == b"c".as_slice() && c.kind == Kind::Char(4));
                assert!(rt; d.kind == Kind::Char(0));
                Ok(())
            }
            _ => Err(Fail::new("not three columns")),
        }
    }

    // Whether a value is the number.
    fn is_number(value: &Value, number: i32) -> bool {
        match value {
            Value::Int(n) => *n == number,
            Value::Chars(_) => false,
        }
    }

    // Whether a value is the text.
    fn is_text(value: &Value, text: &[u8]) -> bool {
        match value {
            Value::Int(_) => false,
            Value::Chars(chars) => chars.bytes() == text,
        }
    }

    #[test]
    fn insert(rt: HostRuntime) -> Result<(), Fail> {
        let plan = plan(
            rt.alloc(),
            b"INSERT INTO t VALUES (7, 'ab', -2147483647, 'it''s  ', \"a'\"\"\")",
        )?;
        let Plan::Data(DataStatement::Insert { table, row }) = plan else {
            return Err(Fail::new("no INSERT"));
        };
        assert!(rt; table.bytes() == b"t".as_slice());
        match row.as_slice() {
            [a, b, c, d, e] => {
                assert!(rt; is_number(a, 7) && is_text(b, b"ab") && is_number(c, -2147483647));
                assert!(rt; is_text(d, b"it's") && is_text(e, b"a'\""));
                Ok(())
            }
            _ => Err(Fail::new("not five values")),
        }
    }

    // Whether a condition is that the column is the number.
    fn is_term(condition: &List<Term>, column: &[u8], number: i32) -> bool {
        match condition.as_slice() {
            [term] => {
                term.column.bytes() == column
                    && term.comparison == Comparison::Equal
                    && is_number(&term.value, number)
            }
            _ => false,
        }
    }

    #[test]
    fn select(rt: HostRuntime) -> Result<(), Fail> {
        let plan = plan(rt.alloc(), b"SELECT * FROM t WHERE K = 7")?;
        let Plan::Data(DataStatement::Select { table, condition }) = plan else {
            return Err(Fail::new("no SELECT"));
        };
        assert!(rt; table.bytes() == b"t".as_slice() && is_term(&condition, b"k", 7));
        Ok(())
    }

    #[test]
    fn delete(rt: HostRuntime) -> Result<(), Fail> {
        let plan = plan(rt.alloc(), b"Delete From ROLLBACK Where DELETE = -7;")?;
        let Plan::Data(DataStatement::Delete { table, condition }) = plan else {
            return Err(Fail::new("no DELETE"));
        };
        assert!(rt; table.bytes() == b"rollback".as_slice());
        assert!(rt; is_term(&condition, b"delete", -7));
        Ok(())
    }
}

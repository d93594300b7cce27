//! The grammar of a line as a table: which tokens may come at a place, and where each leads.
ghost use Rattle.std.specs.Prelude.{◌≡◌};
ghost use Rattle.sql_reader.specs.Places.{row, ends};

use crate::token::{Keyword, Kind, Sign};

/// A place between two tokens of a line.
#[derive(Clone, Copy, Debug, PartialEq, Eq)]
pub enum Place {
    LineStart,
    /// Where a statement is read by itself; no line leads here.
    StatementStart,
    LineEnd,
    StatementEnd,
    /// Behind BEGIN, COMMIT or ROLLBACK.
    Begin,
    Create,
    CreateTable,
    CreateName,
    Column,
    ColumnKind,
    ColumnEnd,
    CharOpen,
    CharSize,
    CharClose,
    Primary,
    Next,
    NextKind,
    NextCharOpen,
    NextCharSize,
    NextCharClose,
    NextEnd,
    Insert,
    InsertInto,
    InsertName,
    InsertValues,
    Value,
    ValueEnd,
    Select,
    /// Behind `SELECT *` or DELETE.
    Rows,
    RowsFrom,
    RowsTable,
    Where,
    TermName,
    TermValue,
}

/// The tokens that may come at a place, each with the place behind it.
pub(crate) fn row_of(place: Place) -> &'static [(Kind, Place)]
    ensures { result.now ≡ row place }
{
    match place {
        Place::LineStart => &[
            (Kind::Word(Keyword::Begin), Place::Begin),
            (Kind::Word(Keyword::Commit), Place::Begin),
            (Kind::Word(Keyword::Rollback), Place::Begin),
            (Kind::Word(Keyword::Create), Place::Create),
            (Kind::Word(Keyword::Insert), Place::Insert),
            (Kind::Word(Keyword::Select), Place::Select),
            (Kind::Word(Keyword::Delete), Place::Rows),
            (Kind::Comment, Place::LineEnd),
        ],
        Place::StatementStart => &[
            (Kind::Word(Keyword::Begin), Place::Begin),
            (Kind::Word(Keyword::Commit), Place::Begin),
            (Kind::Word(Keyword::Rollback), Place::Begin),
            (Kind::Word(Keyword::Create), Place::Create),
            (Kind::Word(Keyword::Insert), Place::Insert),
            (Kind::Word(Keyword::Select), Place::Select),
            (Kind::Word(Keyword::Delete), Place::Rows),
        ],
        Place::LineEnd => &[],
        Place::StatementEnd => &[(Kind::Sign(Sign::Semicolon), Place::LineEnd)],
        Place::Begin => &[
            (Kind::Word(Keyword::Work), Place::StatementEnd),
            (Kind::Sign(Sign::Semicolon), Place::LineEnd),
        ],
        Place::Create => &[(Kind::Word(Keyword::Table), Place::CreateTable)],
        Place::CreateTable => &[(Kind::Name, Place::CreateName)],
        Place::CreateName => &[(Kind::Sign(Sign::Open), Place::Column)],
        Place::Column => &[(Kind::Name, Place::ColumnKind)],
        Place::ColumnKind => &[
            (Kind::Word(Keyword::Integer), Place::ColumnEnd),
            (Kind::Word(Keyword::Char), Place::CharOpen),
        ],
        Place::ColumnEnd => &[
            (Kind::Word(Keyword::Primary), Place::Primary),
            (Kind::Sign(Sign::Comma), Place::Next),
            (Kind::Sign(Sign::Close), Place::StatementEnd),
        ],
        Place::CharOpen => &[(Kind::Sign(Sign::Open), Place::CharSize)],
        Place::CharSize => &[(Kind::Number, Place::CharClose)],
        Place::CharClose => &[(Kind::Sign(Sign::Close), Place::ColumnEnd)],
        Place::Primary => &[(Kind::Word(Keyword::Key), Place::NextEnd)],
        Place::Next => &[(Kind::Name, Place::NextKind)],
        Place::NextKind => &[
            (Kind::Word(Keyword::Integer), Place::NextEnd),
            (Kind::Word(Keyword::Char), Place::NextCharOpen),
        ],
        Place::NextCharOpen => &[(Kind::Sign(Sign::Open), Place::NextCharSize)],
        Place::NextCharSize => &[(Kind::Number, Place::NextCharClose)],
        Place::NextCharClose => &[(Kind::Sign(Sign::Close), Place::NextEnd)],
        Place::NextEnd => &[
            (Kind::Sign(Sign::Comma), Place::Next),
            (Kind::Sign(Sign::Close), Place::StatementEnd),
        ],
        Place::Insert => &[(Kind::Word(Keyword::Into), Place::InsertInto)],
        Place::InsertInto => &[(Kind::Name, Place::InsertName)],
        Place::InsertName => &[(Kind::Word(Keyword::Values), Place::InsertValues)],
        Place::InsertValues => &[(Kind::Sign(Sign::Open), Place::Value)],
        Place::Value => &[
            (Kind::Signed, Place::ValueEnd),
            (Kind::Text, Place::ValueEnd),
        ],
        Place::ValueEnd => &[
            (Kind::Sign(Sign::Comma), Place::Value),
            (Kind::Sign(Sign::Close), Place::StatementEnd),
        ],
        Place::Select => &[(Kind::Sign(Sign::Star), Place::Rows)],
        Place::Rows => &[(Kind::Word(Keyword::From), Place::RowsFrom)],
        Place::RowsFrom => &[(Kind::Name, Place::RowsTable)],
        Place::RowsTable => &[(Kind::Word(Keyword::Where), Place::Where)],
        Place::Where => &[(Kind::Name, Place::TermName)],
        Place::TermName => &[(Kind::Sign(Sign::Equal), Place::TermValue)],
        Place::TermValue => &[
            (Kind::Signed, Place::StatementEnd),
            (Kind::Text, Place::StatementEnd),
        ],
    }
}

/// Whether nothing more need come at a place.
pub(crate) fn is_last(place: Place) -> bool
    ensures { result ≡ ends place }
{
    matches!(
        place,
        Place::LineStart | Place::LineEnd | Place::StatementEnd | Place::Begin
    )
}

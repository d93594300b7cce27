//! The tokens of a statement, one after another.
ghost use Rattle.std.specs.Prelude.{◌≡◌, ◌∷◌, [], ◌<◌, length, true, false, cond, IfOk};
ghost use Rattle.sql_reader.specs.declared.token.Edge.TheVariants.{Free};
ghost use Rattle.sql_reader.specs.declared.token.Kind.TheVariants as kind;
ghost use Rattle.sql_reader.specs.declared.place.Place.TheVariants as place;
ghost use Rattle.sql_reader.specs.Form.{InRow, From, is_gap};
ghost use Rattle.sql_reader.specs.Tokens.{whole, is_blank};
ghost use Rattle.sql_reader.specs.Places.{row, ends, lexicon};
ghost use Rattle.sql_reader.specs.Grammar.{IsStatementText};
ghost use Rattle.sql_reader.specs.Plans.{token_items, word_items, says_name, says_size, value_item, kind_items};
ghost use Rattle.sql_reader.specs.Reading.{IsOn, IsOnly, IsValue, IsKind, IsListEnd, all_words, Went, Next};
ghost use Rattle.sql_reader.specs.Gaps.{IsGapLength};

use crate::convert::{char_size, chars_of, name_of, signed_of};
use crate::line::{is_gap_byte, munch};
use crate::place::{Place, row_of};
use crate::token::{Edge, Keyword, Kind, Sign, edge_after};
use ids_base::memory::Memory;
use ids_base::name::Name;
use ids_base::shape::Kind as ColumnKind;
use ids_base::value::Value;
use std::alloc::Global;

/// A statement, read as far as a place between two of its tokens.
#[derive(Drop)]
pub(crate) struct Reader<'a> {
    rest: &'a [u8],
    place: Place,
    edge: Edge,
}

/// A token with its bytes.
#[derive(Clone, Copy)]
pub(crate) struct Token<'a> {
    pub(crate) kind: Kind,
    text: &'a [u8],
}

// Where the next token stands.
#[derive(Clone, Copy)]
struct Found {
    gap: usize,
    len: usize,
    kind: Kind,
    to: Place,
}

fn gap_len(edge: Edge, rest: &[u8]) -> usize
    ensures { IsGapLength edge rest.now result }
{
    let mut at = 0;
    while at < rest.len() && is_gap_byte(edge, rest[at]) {
        at += 1;
    }
    at
}

fn next_token(place: Place, edge: Edge, rest: &[u8]) -> Found
    requires on { From lexicon place edge rest.now }
    requires more { ends place ≡ false }
    ensures { Next place edge rest.now result.gap result.len result.kind result.to }
{
    let gap = gap_len(edge, rest);
    let behind = if gap == 0 { edge } else { Edge::Free };
    let (len, found) = munch(row_of(place), behind, &rest[gap..]);
    match found {
        Some((kind, to)) => Found { gap, len, kind, to },
        None => unreachable!(),
    }
}

impl<'a> Reader<'a> {
    /// At the front of a statement.
    pub(crate) fn new(text: &'a [u8]) -> Reader<'a>
        requires { IsStatementText text.now }
        ensures on { IsOn result }
        ensures place { result.place ≡ place.StatementStart }
        ensures edge { result.edge ≡ Free }
        ensures rest { result.rest.now ≡ text.now }
    {
        Reader {
            rest: text,
            place: Place::StatementStart,
            edge: Edge::Free,
        }
    }

    /// The next token.
    pub(crate) fn next(&mut self) -> Token<'a>
        requires on { IsOn self.old }
        requires more { ends self.old.place ≡ false }
        ensures on { IsOn self.new }
        ensures stands { InRow (row self.old.place) result.kind self.new.place }
        ensures is { whole result.kind result.text.now ≡ true }
        ensures went { Went self.old self.new (token_items result.kind result.text.now) }
        ensures less { length self.new.rest.now < length self.old.rest.now }
    {
        let found = next_token(self.place, self.edge, self.rest);
        let text = &self.rest[found.gap..];
        self.rest = &text[found.len..];
        self.place = found.to;
        self.edge = edge_after(found.kind);
        Token {
            kind: found.kind,
            text: &text[..found.len],
        }
    }
    /// The word that stands here, where only words may stand.
    pub(crate) fn word(&mut self) -> Keyword
        requires on { IsOn self.old }
        requires words { all_words (row self.old.place) ≡ true }
        requires more { ends self.old.place ≡ false }
        ensures on { IsOn self.new }
        ensures stands { InRow (row self.old.place) (kind.Word result) self.new.place }
        ensures went { Went self.old self.new (word_items result) }
        ensures less { length self.new.rest.now < length self.old.rest.now }
    {
        match self.next().kind {
            Kind::Word(word) => word,
            _ => unreachable!(),
        }
    }

    /// The only token that may stand here, which leads to the place.
    pub(crate) fn only(&mut self, kind: Kind, to: Place) -> &'a [u8]
        requires on { IsOn self.old }
        requires only { IsOnly self.old.place kind to }
        ensures on { IsOn self.new }
        ensures to { self.new.place ≡ to }
        ensures is { whole kind result.now ≡ true }
        ensures went { Went self.old self.new (token_items kind result.now) }
        ensures less { length self.new.rest.now < length self.old.rest.now }
    {
        self.next().text
    }

    /// The name that stands here.
    pub(crate) fn name(&mut self, to: Place) -> Name
        requires on { IsOn self.old }
        requires only { IsOnly self.old.place kind.Name to }
        ensures on { IsOn self.new }
        ensures to { self.new.place ≡ to }
        ensures went { Went self.old self.new (says_name result ∷ []) }
        ensures less { length self.new.rest.now < length self.old.rest.now }
    {
        name_of(self.only(Kind::Name, to))
    }

    /// The size of a CHAR column that stands here.
    pub(crate) fn size(&mut self, to: Place) -> u16
        requires on { IsOn self.old }
        requires only { IsOnly self.old.place kind.Number to }
        ensures on { IsOn self.new }
        ensures to { self.new.place ≡ to }
        ensures went { Went self.old self.new (says_size result ∷ []) }
        ensures less { length self.new.rest.now < length self.old.rest.now }
    {
        char_size(self.only(Kind::Number, to))
    }

    /// The value that stands here.
    pub(crate) fn value(&mut self, alloc: Global, to: Place) -> Result<Value, Memory>
        requires on { IsOn self.old }
        requires value { IsValue self.old.place to }
        ensures on { IsOn self.new }
        ensures to { self.new.place ≡ to }
        ensures went { IfOk result (λ value. Went self.old self.new (value_item value ∷ [])) }
        ensures less { length self.new.rest.now < length self.old.rest.now }
    {
        let token = self.next();
        match token.kind {
            Kind::Text => Ok(Value::Chars(chars_of(alloc, token.text)?)),
            _ => Ok(Value::Int(signed_of(token.text))),
        }
    }

    /// The kind of a column that stands here; the places are those behind its brackets and its end.
    pub(crate) fn kind(&mut self, size: Place, close: Place, end: Place) -> ColumnKind
        requires on { IsOn self.old }
        requires column { IsKind self.old.place size close end }
        ensures on { IsOn self.new }
        ensures to { self.new.place ≡ end }
        ensures went { Went self.old self.new (kind_items result) }
        ensures less { length self.new.rest.now < length self.old.rest.now }
    {
        match self.word() {
            Keyword::Integer => ColumnKind::Integer,
            _ => {
                self.only(Kind::Sign(Sign::Open), size);
                let length = self.size(close);
                self.only(Kind::Sign(Sign::Close), end);
                ColumnKind::Char(length)
            }
        }
    }

    /// Whether a comma stands here, and no closing bracket; `next` is the place behind the comma.
    pub(crate) fn comma(&mut self, next: Place) -> bool
        requires on { IsOn self.old }
        requires list { IsListEnd self.old.place next }
        ensures on { IsOn self.new }
        ensures to { self.new.place ≡ cond result next place.StatementEnd }
        ensures went { Went self.old self.new [] }
        ensures less { length self.new.rest.now < length self.old.rest.now }
    {
        matches!(self.next().kind, Kind::Sign(Sign::Comma))
    }
}

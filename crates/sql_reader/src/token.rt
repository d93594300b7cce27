//! Tokens of the language: words, names, numbers, texts, signs, comments.
ghost use Rattle.std.specs.Prelude.{◌≡◌};
ghost use Rattle.sql_reader.specs.Form.{fits};
ghost use Rattle.sql_reader.specs.Tokens.{letters, byte_of, clings, edge};

/// What stands before the next token.
#[derive(Clone, Copy, Debug, PartialEq, Eq)]
pub enum Edge {
    /// Nothing that asks for a blank.
    Free,
    /// A word or a number: a blank stands before the next word or number.
    Wordy,
    /// A comment, which ends with its line.
    Closed,
}

/// A word of the language.
#[derive(Clone, Copy, Debug, PartialEq, Eq)]
pub enum Keyword {
    Begin,
    Char,
    Commit,
    Create,
    Delete,
    From,
    Insert,
    Integer,
    Into,
    Key,
    Primary,
    Rollback,
    Select,
    Table,
    Values,
    Where,
    Work,
}

/// A sign of one byte.
#[derive(Clone, Copy, Debug, PartialEq, Eq)]
pub enum Sign {
    Open,
    Close,
    Star,
    Comma,
    Semicolon,
    Equal,
}

/// A kind of token.
#[derive(Clone, Copy, Debug, PartialEq, Eq)]
pub enum Kind {
    Word(Keyword),
    Name,
    /// A number without a sign.
    Number,
    /// A number with an optional `-` right before it.
    Signed,
    Text,
    Sign(Sign),
    Comment,
}

/// The letters of a word, in lower case.
pub(crate) fn letters_of(word: Keyword) -> &'static [u8]
    ensures { result.now ≡ letters word }
{
    match word {
        Keyword::Begin => b"begin",
        Keyword::Char => b"char",
        Keyword::Commit => b"commit",
        Keyword::Create => b"create",
        Keyword::Delete => b"delete",
        Keyword::From => b"from",
        Keyword::Insert => b"insert",
        Keyword::Integer => b"integer",
        Keyword::Into => b"into",
        Keyword::Key => b"key",
        Keyword::Primary => b"primary",
        Keyword::Rollback => b"rollback",
        Keyword::Select => b"select",
        Keyword::Table => b"table",
        Keyword::Values => b"values",
        Keyword::Where => b"where",
        Keyword::Work => b"work",
    }
}

/// The byte of a sign.
pub(crate) fn sign_byte(sign: Sign) -> u8
    ensures { result ≡ byte_of sign }
{
    match sign {
        Sign::Open => b'(',
        Sign::Close => b')',
        Sign::Star => b'*',
        Sign::Comma => b',',
        Sign::Semicolon => b';',
        Sign::Equal => b'=',
    }
}

/// Whether a token of the kind may stand right behind the edge.
pub(crate) fn may_stand(kind: Kind, edge: Edge) -> bool
    ensures { result ≡ fits (clings kind) edge }
{
    match edge {
        Edge::Free => true,
        Edge::Wordy => matches!(kind, Kind::Text | Kind::Sign(_) | Kind::Comment),
        Edge::Closed => true,
    }
}

/// What a token of the kind leaves before the next.
pub(crate) fn edge_after(kind: Kind) -> Edge
    ensures { result ≡ edge kind }
{
    match kind {
        Kind::Word(_) => Edge::Wordy,
        Kind::Name => Edge::Wordy,
        Kind::Number => Edge::Wordy,
        Kind::Signed => Edge::Wordy,
        Kind::Text => Edge::Free,
        Kind::Sign(_) => Edge::Free,
        Kind::Comment => Edge::Closed,
    }
}

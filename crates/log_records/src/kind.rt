//! The kinds of records and their numbers.
ghost use Rattle.std.specs.Prelude.{◌≡◌};
ghost use Rattle.log_records.specs.Kinds.{kind_code, code_kind};

/// What a record tells.
#[derive(Clone, Copy)]
pub enum Kind {
    Begin,
    Commit,
    Rollback,
    HInsert,
    HDelete,
    HUpdate,
    Ckpoint,
}

/// The number that stands for a kind.
pub fn code_of(kind: Kind) -> u8
    ensures { result ≡ kind_code kind }
{
    match kind {
        Kind::Begin => 1,
        Kind::Commit => 2,
        Kind::Rollback => 3,
        Kind::HInsert => 4,
        Kind::HDelete => 5,
        Kind::HUpdate => 6,
        Kind::Ckpoint => 7,
    }
}

/// The kind that a number stands for.
pub fn kind_of(code: u8) -> Option<Kind>
    ensures { result ≡ code_kind code }
{
    match code {
        1 => Some(Kind::Begin),
        2 => Some(Kind::Commit),
        3 => Some(Kind::Rollback),
        4 => Some(Kind::HInsert),
        5 => Some(Kind::HDelete),
        6 => Some(Kind::HUpdate),
        7 => Some(Kind::Ckpoint),
        _ => None,
    }
}

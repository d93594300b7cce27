//! A line of a script, judged exactly.
ghost use Rattle.std.specs.Prelude.{◌≡◌, ◌∷◌, []};
ghost use Rattle.sql_reader.specs.Form.{is_gap};
ghost use Rattle.sql_reader.specs.Tokens.{is_blank};
ghost use Rattle.sql_reader.specs.Judging.{Munched, Judged, MatchVerdict};

use crate::byte::blank;
use crate::place::{Place, is_last, row_of};
use crate::reach::reach;
use crate::token::{Edge, Kind, edge_after, may_stand};

/// What was found of the tokens of a place: the length of the longest front of one, and the token that it is.
pub(crate) type Found = (usize, Option<(Kind, Place)>);

// The longest token of a row and its followers, where that of the followers is known.
fn longer(
    kind: Kind,
    to: Place,
    more: &[(Kind, Place)],
    edge: Edge,
    rest: &[u8],
    others: Found,
) -> Found
    requires { Munched more.now edge rest.now others.0 others.1 }
    ensures { Munched ((kind, to) ∷ more.now) edge rest.now result.0 result.1 }
{
    if !may_stand(kind, edge) {
        return others;
    }
    let (at, is_whole) = reach(kind, rest);
    if at < others.0 {
        return others;
    }
    if is_whole {
        return (at, Some((kind, to)));
    }
    if at > others.0 {
        return (at, None);
    }
    others
}

/// The longest token of some rows at the front of the bytes.
pub(crate) fn munch(rows: &[(Kind, Place)], edge: Edge, rest: &[u8]) -> Found
    ensures { Munched rows.now edge rest.now result.0 result.1 }
{
    match rows {
        [] => (0, None),
        [(kind, to), more @ ..] => longer(*kind, *to, more, edge, rest, munch(more, edge, rest)),
    }
}

/// Whether the byte is a blank between tokens.
pub(crate) fn is_gap_byte(edge: Edge, byte: u8) -> bool
    ensures { result ≡ is_gap is_blank edge (byte ∷ []) }
{
    match edge {
        Edge::Free => blank(byte),
        Edge::Wordy => blank(byte),
        Edge::Closed => false,
    }
}

/// What some bytes are.
#[derive(Clone, Copy, Debug, PartialEq, Eq)]
pub enum Verdict {
    /// A line.
    Line,
    /// No line; this is the length of the longest front that some continuation makes a line.
    Bad(usize),
}

fn judge(bytes: &[u8]) -> Verdict
    ensures { Judged bytes.now result }
{
    let mut place = Place::LineStart;
    let mut edge = Edge::Free;
    let mut at = 0;
    while at < bytes.len() {
        let byte = bytes[at];
        if is_gap_byte(edge, byte) {
            edge = Edge::Free;
            at += 1;
        } else {
            let rest = &bytes[at..];
            let (len, found) = munch(row_of(place), edge, rest);
            match found {
                None => return Verdict::Bad(at + len),
                Some((kind, to)) => {
                    edge = edge_after(kind);
                    place = to;
                    at += len;
                }
            }
        }
    }
    if is_last(place) {
        Verdict::Line
    } else {
        Verdict::Bad(at)
    }
}

/// Whether the bytes are a line: exactly if the grammar derives them, and else the length of the longest front that
/// goes on to one. Linear time, no memory.
pub fn judge_line(bytes: &[u8]) -> Verdict
    ensures { MatchVerdict bytes.now result }
{
    judge(bytes)
}

#[cfg(test)]
mod tests {
    use super::{Verdict, judge_line};
    use std::alloc::Global;
    use std::test::Fail;

    // INSERT of a text of so many bytes.
    fn insert_of(alloc: Global, count: usize) -> Result<Verdict, Fail> {
        let mut line = Vec::new(alloc);
        line.extend_from_slice(b"INSERT INTO t VALUES ('")?;
        for _ in 0..count {
            line.push(b'a')?;
        }
        line.extend_from_slice(b"')")?;
        Ok(judge_line(line.as_slice()))
    }

    #[test]
    fn lines(rt: HostRuntime) {
        for line in [
            b"".as_slice(),
            b"  \t\r".as_slice(),
            b"--".as_slice(),
            b" \t-- so; it's a comment".as_slice(),
            b"BEGIN;".as_slice(),
            b"\tbegin work ; \r".as_slice(),
            b"Commit".as_slice(),
            b"CREATE TABLE t (k INTEGER, c CHAR(4))".as_slice(),
            b"create table t(k Integer primary key,c char ( 70000 ) )".as_slice(),
            b"CREATE TABLE abcdefghijklmnopqr (a INTEGER)".as_slice(),
            b"CREATE TABLE from (where INTEGER)".as_slice(),
            b"INSERT INTO t VALUES(2147483647, -2147483647,007)".as_slice(),
            b"INSERT INTO t VALUES ('it''s',\"a'b\",'')".as_slice(),
            b"SELECT*FROM t WHERE k=-7".as_slice(),
            b"SELECT * FROM t WHERE k = 'ab'".as_slice(),
            b"DELETE FROM t WHERE k='ab';".as_slice(),
            b"CREATE TABLE delete (rollback INTEGER)".as_slice(),
        ] {
            assert!(rt; judge_line(line) == Verdict::Line);
        }
    }

    #[test]
    fn no_lines(rt: HostRuntime) {
        for (line, longest) in [
            (b";".as_slice(), 0),
            (b"BEGIN;;".as_slice(), 6),
            (b"BEGIN WORK!".as_slice(), 10),
            (b"- -".as_slice(), 1),
            (b"-- \x80".as_slice(), 3),
            (b"UPDATE t SET c = 'x'".as_slice(), 0),
            (b"INSERTINTO t VALUES (1)".as_slice(), 6),
            (b"INSERT INTO t VALUES (1, 'ab".as_slice(), 28),
            (b"INSERT INTO t VALUES (2147483648, 1)".as_slice(), 31),
            (b"INSERT INTO t VALUES (- 5)".as_slice(), 23),
            (b"INSERT INTO t VALUES (12a)".as_slice(), 24),
            (b"INSERT INTO t VALUES ('a\tb')".as_slice(), 24),
            (
                b"CREATE TABLE abcdefghijklmnopqrs (a INTEGER)".as_slice(),
                31,
            ),
            (
                b"CREATE TABLE t (k INTEGER, c CHAR(4) PRIMARY KEY)".as_slice(),
                37,
            ),
            (b"SELECT * FROM t WHERE k = 7 AND c = 1".as_slice(), 28),
            (b"DELETE * FROM t WHERE k = 7".as_slice(), 7),
            (b"ROLLBACKWORK".as_slice(), 8),
            (b"BEGIN\nCOMMIT".as_slice(), 5),
        ] {
            assert!(rt; judge_line(line) == Verdict::Bad(longest));
        }
    }

    #[test]
    fn long_texts(rt: HostRuntime) -> Result<(), Fail> {
        assert!(rt; insert_of(rt.alloc(), 800)? == Verdict::Line);
        assert!(rt; insert_of(rt.alloc(), 801)? == Verdict::Bad(823));
        Ok(())
    }
}

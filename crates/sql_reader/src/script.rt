//! A script, checked line by line.
ghost use Rattle.std.specs.Prelude.{◌≡◌, ◌∷◌, ◌+◌, ◌≤◌, ◌<◌, length, take, IfOk, IfErr};
ghost use Rattle.sql_reader.specs.Lines.{lines_of, lines_left, is_statement_line, statements_of, texts_of, InGrammar, sessions_in, statements_in, text_in};
ghost use Rattle.sql_reader.specs.Grammar.{IsStatementText};
ghost use Rattle.sql_reader.specs.Plans.{IsPlanOf};
ghost use Rattle.sql_reader.specs.Checks.{text_at, texts_at, AreSpans, MatchFault};

use crate::byte::blank;
use crate::line::{Verdict, judge_line};
use crate::plan::read_plan;
use ids_base::memory::Memory;
use ids_base::plan::Plan;
use ids_base::status::Why;
use std::alloc::{AllocFailed, Global};
use std::marker::Model;
use thiserror::Error;

/// Why some bytes were not taken as a script.
#[derive(Clone, Copy, Debug, PartialEq, Eq, Drop, Error)]
pub enum ScriptFault {
    /// They are none; `byte` is the place.
    #[error("bad script at byte {byte}")]
    Bad { byte: u64, why: Why },
    /// Memory was wanting.
    #[error("out of memory")]
    Memory,
}

impl<T: Drop> From<AllocFailed<T>> for ScriptFault {
    ghost use Rattle.std.specs.Prelude.{◌≡◌};
    ghost use Rattle.sql_reader.specs.declared.script.ScriptFault.TheVariants.{Memory};

    ghost from_gives = { λ _ e. e ≡ Memory };

    fn from(_error: AllocFailed<T>) -> ScriptFault {
        ScriptFault::Memory
    }
}

/// Where a statement stands in its script.
#[derive(Clone, Copy)]
pub(crate) struct Span {
    start: u32,
    end: u32,
}

/// A script that was checked: its bytes, and where its statements stand. Contracts see the texts of the statements, in
/// sessions, in phases.
#[derive(Drop)]
pub struct Checked {
    bytes: Vec<u8>,
    spans: Vec<Span>,
}

impl Model for Checked {
    ghost use Rattle.std.specs.Prelude.{List as Items, ℕ, ◌∷◌, []};
    ghost use Rattle.sql_reader.specs.Lines.{sessions};
    ghost use Rattle.sql_reader.specs.Checks.{texts_at, AreSpans};

    ghost Value = { Items (Items (Items (Items ℕ))) };

    ghost view = { λ a. sessions (texts_at a.bytes.items a.spans.items) ∷ [] };

    ghost invariant = { λ a. AreSpans a.bytes.items a.spans.items };
}

// The bytes up to the first newline.
fn first_line(rest: &[u8]) -> &[u8]
    ensures first { lines_of rest.now ≡ result.now ∷ lines_left rest.now (length result.now + 1) }
    ensures front { result.now ≡ take (length result.now) rest.now }
    ensures within { length result.now ≤ length rest.now }
{
    let mut len = 0;
    while len < rest.len() && rest[len] != b'\n' {
        len += 1;
    }
    &rest[..len]
}

// Whether a line holds a statement.
fn holds_statement(line: &[u8]) -> bool
    ensures { result ≡ is_statement_line line.now }
{
    let mut at = 0;
    while at < line.len() && blank(line[at]) {
        at += 1;
    }
    at < line.len() && line[at] != b'-'
}

// Where the statements of a script stand.
fn spans_of(alloc: Global, bytes: &[u8]) -> Result<Vec<Span>, ScriptFault>
    requires short { length bytes.now ≤ 4294967295 }
    ensures grammar { IfOk result (λ _. InGrammar bytes.now) }
    ensures texts { IfOk result (λ spans. texts_at bytes.now spans.items ≡ statements_of bytes.now) }
    ensures spans { IfOk result (λ spans. AreSpans bytes.now spans.items) }
    ensures bad { IfErr result (λ fault. MatchFault bytes.now fault) }
{
    let mut spans = Vec::new(alloc);
    let mut start = 0;
    while start <= bytes.len() {
        let line = first_line(&bytes[start..]);
        match judge_line(line) {
            Verdict::Line => {}
            Verdict::Bad(_) => {
                return Err(ScriptFault::Bad {
                    byte: start as u64,
                    why: Why::Wrong,
                });
            }
        }
        if holds_statement(line) {
            spans.push(Span {
                start: start as u32,
                end: (start + line.len()) as u32,
            })?;
        }
        start += line.len() + 1;
    }
    Ok(spans)
}

/// The statements of a script. The bytes are kept and not copied.
///
/// `Bad` comes exactly where some line is not one of the lines read; `byte` is then the place where the first such line
/// begins. `Memory` comes where the places of the statements, eight bytes for each, find no memory, and for 4 GiB and
/// more. Linear time.
pub fn check_script(alloc: Global, bytes: Vec<u8>) -> Result<Checked, ScriptFault>
    ensures grammar { IfOk result (λ _. InGrammar bytes.items) }
    ensures texts { IfOk result (λ script. script ≡ texts_of bytes.items) }
    ensures bad { IfErr result (λ fault. MatchFault bytes.items fault) }
{
    if bytes.len() > 4294967295 {
        return Err(ScriptFault::Memory);
    }
    let spans = spans_of(alloc, bytes.as_slice())?;
    Ok(Checked { bytes, spans })
}

// The bytes of a span.
fn part(bytes: &[u8], span: Span) -> &[u8]
    requires ordered { span.start ≤ span.end }
    requires within { span.end ≤ length bytes.now }
    ensures { result.now ≡ text_at bytes.now span }
{
    &bytes[span.start as usize..span.end as usize]
}

/// The text of a statement, which was checked. Contracts see its bytes.
#[derive(Drop)]
pub struct CheckedText {
    text: Vec<u8>,
}

impl Model for CheckedText {
    ghost use Rattle.std.specs.Prelude.{List as Items, ℕ};
    ghost use Rattle.sql_reader.specs.Grammar.{IsStatementText};

    ghost Value = { Items ℕ };

    ghost view = { λ a. a.text.items };

    ghost invariant = { λ a. IsStatementText a.text.items };
}

impl CheckedText {
    /// The bytes of the text.
    pub fn bytes(&self) -> &[u8]
        ensures bytes { result.now ≡ self.now }
        ensures statement { IsStatementText self.now }
    {
        self.text.as_slice()
    }
}

impl Checked {
    /// How many phases there are.
    pub fn phases(&self) -> usize
        ensures { result ≡ length self.now }
    {
        let _spans = &self.spans;
        1
    }

    /// How many sessions a phase has.
    pub fn sessions(&self, phase: usize) -> usize
        ensures { result ≡ length (sessions_in self.now phase) }
    {
        if phase == 0 && !self.spans.is_empty() {
            1
        } else {
            0
        }
    }

    /// How many statements a session has.
    pub fn statements(&self, phase: usize, session: usize) -> usize
        ensures { result ≡ length (statements_in self.now phase session) }
    {
        if phase == 0 && session == 0 {
            self.spans.len()
        } else {
            0
        }
    }

    // The bytes of a statement.
    fn slice_at(&self, phase: usize, session: usize, statement: usize) -> &[u8]
        requires there { statement < length (statements_in self.now phase session) }
        ensures text { result.now ≡ text_in self.now phase session statement }
        ensures statement { IsStatementText result.now }
    {
        let _there = (phase, session);
        part(self.bytes.as_slice(), self.spans[statement])
    }

    /// The text of a statement, in memory of its own. Linear time in the text.
    pub fn text_at(
        &self,
        alloc: Global,
        phase: usize,
        session: usize,
        statement: usize,
    ) -> Result<CheckedText, Memory>
        requires there { statement < length (statements_in self.now phase session) }
        ensures { IfOk result (λ text. text ≡ text_in self.now phase session statement) }
    {
        let slice = self.slice_at(phase, session, statement);
        let mut text = Vec::with_capacity(alloc, slice.len())?;
        text.extend_from_slice(slice)?;
        Ok(CheckedText { text })
    }

    /// The plan of a statement, read where it stands. Linear time in its text.
    pub fn plan_at(
        &self,
        alloc: Global,
        phase: usize,
        session: usize,
        statement: usize,
    ) -> Result<Plan, Memory>
        requires there { statement < length (statements_in self.now phase session) }
        ensures { IfOk result (λ plan. IsPlanOf (text_in self.now phase session statement) plan) }
    {
        read_plan(alloc, self.slice_at(phase, session, statement))
    }
}

#[cfg(test)]
mod tests {
    use super::{ScriptFault, check_script};
    use ids_base::status::Why;
    use std::alloc::Global;
    use std::test::Fail;

    // The place of the first bad line, if there is one.
    fn bad_at(alloc: Global, script: &[u8]) -> Result<Option<u64>, Fail> {
        match check_script(alloc, script.to_vec(alloc)?) {
            Ok(_) => Ok(None),
            Err(ScriptFault::Bad { byte, .. }) => Ok(Some(byte)),
            Err(ScriptFault::Memory) => Err(Fail::new("out of memory")),
        }
    }

    #[test]
    fn places(rt: HostRuntime) -> Result<(), Fail> {
        for (script, byte) in [
            (b"".as_slice(), None),
            (b"\n\n-- nothing\n".as_slice(), None),
            (b"BEGIN\nCOMMIT".as_slice(), None),
            (b"BEGIN\n;\nCOMMIT\n;".as_slice(), Some(6)),
            (b"BEGIN\nCOMMIT\nPHASE".as_slice(), Some(13)),
            (b"BEGIN\nROLLBACK WORK\nDELETE t\n;".as_slice(), Some(20)),
            (b"BEGIN\r\nCOMMIT\r\n".as_slice(), None),
            (
                b"CREATE TABLE t (k INTEGER, c CHAR(4))\nBEGIN WORK\nINSERT INTO t VALUES (7, 'ab')\nSELECT * FROM t WHERE k = 7\nCOMMIT WORK\nUPDATE t SET c = 'x'\n".as_slice(),
                Some(120),
            ),
        ] {
            assert!(rt; bad_at(rt.alloc(), script)? == byte);
        }
        Ok(())
    }

    #[test]
    fn walk(rt: HostRuntime) -> Result<(), Fail> {
        let alloc = rt.alloc();
        let empty = check_script(alloc, b"\n-- nothing".to_vec(alloc)?)?;
        assert!(rt; empty.phases() == 1 && empty.sessions(0) == 0);
        let script = check_script(alloc, b"BEGIN\n\n commit;\n".to_vec(alloc)?)?;
        assert!(rt; script.sessions(0) == 1 && script.sessions(1) == 0);
        assert!(rt; script.statements(0, 0) == 2);
        let text = script.text_at(alloc, 0, 0, 1)?;
        assert!(rt; text.bytes() == b" commit;".as_slice());
        Ok(())
    }
}

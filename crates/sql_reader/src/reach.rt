//! How far a token of a kind goes at the front of some bytes.
ghost use Rattle.std.specs.Prelude.{◌≡◌};
ghost use Rattle.sql_reader.specs.declared.token.Kind.TheVariants as kind;
ghost use Rattle.sql_reader.specs.Tokens.{text_step, is_live, is_behind};
ghost use Rattle.sql_reader.specs.Judging.{Reached};

use crate::byte::{digit, letter, plain, quote, small, word_byte};
use crate::token::{Keyword, Kind, Sign, letters_of, sign_byte};

/// Where a text stands.
#[derive(Clone, Copy, Debug, PartialEq, Eq)]
pub enum TextState {
    /// No text begins so.
    Dead,
    /// Inside, with so many bytes of its value.
    Inside(u32),
    /// Behind a quote sign that ends it, if it is not written twice.
    Behind(u32),
}

fn word_reach(word: Keyword, rest: &[u8]) -> (usize, bool)
    ensures { Reached (kind.Word word) rest.now result.0 result.1 }
{
    let letters = letters_of(word);
    let mut at = 0;
    while at < rest.len() && at < letters.len() && small(rest[at]) == letters[at] {
        at += 1;
    }
    (at, at == letters.len())
}

fn name_reach(rest: &[u8]) -> (usize, bool)
    ensures { Reached kind.Name rest.now result.0 result.1 }
{
    if rest.is_empty() || !letter(rest[0]) {
        return (0, false);
    }
    let mut at = 1;
    while at < rest.len() && at < 18 && word_byte(rest[at]) {
        at += 1;
    }
    (at, true)
}

fn number_reach(rest: &[u8]) -> (usize, bool)
    ensures { Reached kind.Number rest.now result.0 result.1 }
{
    let mut at = 0;
    let mut number: u64 = 0;
    while at < rest.len() && digit(rest[at]) {
        let more = number * 10 + (rest[at] - b'0') as u64;
        if more > 2147483647 {
            return (at, at > 0);
        }
        number = more;
        at += 1;
    }
    (at, at > 0)
}

fn signed_reach(rest: &[u8]) -> (usize, bool)
    ensures { Reached kind.Signed rest.now result.0 result.1 }
{
    if rest.is_empty() || rest[0] != b'-' {
        return number_reach(rest);
    }
    let (at, is_whole) = number_reach(&rest[1..]);
    (at + 1, is_whole)
}

fn text_next(sign: u8, state: TextState, byte: u8) -> TextState
    ensures { result ≡ text_step sign state byte }
{
    match state {
        TextState::Dead => TextState::Dead,
        TextState::Inside(count) => {
            if byte == sign {
                TextState::Behind(count)
            } else if (byte >= b' ' && byte <= b'~') && count < 800 {
                TextState::Inside(count + 1)
            } else {
                TextState::Dead
            }
        }
        TextState::Behind(count) => {
            if byte == sign && count < 800 {
                TextState::Inside(count + 1)
            } else {
                TextState::Dead
            }
        }
    }
}

fn text_lives(state: TextState) -> bool
    ensures { result ≡ is_live state }
{
    !matches!(state, TextState::Dead)
}

fn text_done(state: TextState) -> bool
    ensures { result ≡ is_behind state }
{
    matches!(state, TextState::Behind(_))
}

fn text_reach(rest: &[u8]) -> (usize, bool)
    ensures { Reached kind.Text rest.now result.0 result.1 }
{
    if rest.is_empty() || !quote(rest[0]) {
        return (0, false);
    }
    let sign = rest[0];
    let mut state = TextState::Inside(0);
    let mut at = 1;
    while at < rest.len() {
        let next = text_next(sign, state, rest[at]);
        if !text_lives(next) {
            return (at, text_done(state));
        }
        state = next;
        at += 1;
    }
    (at, text_done(state))
}

fn sign_reach(sign: Sign, rest: &[u8]) -> (usize, bool)
    ensures { Reached (kind.Sign sign) rest.now result.0 result.1 }
{
    let found = !rest.is_empty() && rest[0] == sign_byte(sign);
    (if found { 1 } else { 0 }, found)
}

fn comment_reach(rest: &[u8]) -> (usize, bool)
    ensures { Reached kind.Comment rest.now result.0 result.1 }
{
    if rest.is_empty() || rest[0] != b'-' {
        return (0, false);
    }
    if rest.len() < 2 || rest[1] != b'-' {
        return (1, false);
    }
    let mut at = 2;
    while at < rest.len() && plain(rest[at]) {
        at += 1;
    }
    (at, true)
}

/// The length of the longest front that some token of the kind begins with, and whether it is such a token.
pub(crate) fn reach(kind: Kind, rest: &[u8]) -> (usize, bool)
    ensures { Reached kind rest.now result.0 result.1 }
{
    match kind {
        Kind::Word(word) => word_reach(word, rest),
        Kind::Name => name_reach(rest),
        Kind::Number => number_reach(rest),
        Kind::Signed => signed_reach(rest),
        Kind::Text => text_reach(rest),
        Kind::Sign(sign) => sign_reach(sign, rest),
        Kind::Comment => comment_reach(rest),
    }
}

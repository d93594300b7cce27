//! What tokens stand for.
ghost use Rattle.std.specs.Prelude.{◌≡◌, ◌≤◌, true, map, IfOk};
ghost use Rattle.ids_base.specs.Texts.{trimmed};
ghost use Rattle.sql_reader.specs.Tokens.{is_name, is_number, is_signed, is_text, lower, value};
ghost use Rattle.sql_reader.specs.Plans.{signed_value, size_of, text_value};

use crate::byte::small;
use ids_base::chars::Chars;
use ids_base::memory::Memory;
use ids_base::name::Name;
use std::alloc::Global;

/// The name, in lower case.
pub(crate) fn name_of(token: &[u8]) -> Name
    requires { is_name token.now ≡ true }
    ensures { result ≡ map lower token.now }
{
    let mut text = [0; 18];
    for (i, byte) in token.iter().enumerate() {
        text[i] = small(*byte);
    }
    match Name::new(&text[..token.len()]) {
        Some(name) => name,
        None => unreachable!(),
    }
}

/// The value of a number without a sign.
pub(crate) fn number_of(token: &[u8]) -> u32
    requires { is_number token.now ≡ true }
    ensures value { result ≡ value 0 token.now }
    ensures small { result ≤ 2147483647 }
{
    let mut number: u32 = 0;
    for byte in token {
        number = number * 10 + (*byte - b'0') as u32;
    }
    number
}

/// The value of a number.
pub(crate) fn signed_of(token: &[u8]) -> i32
    requires { is_signed token.now ≡ true }
    ensures { result ≡ signed_value token.now }
{
    if token[0] == b'-' {
        -(number_of(&token[1..]) as i32)
    } else {
        number_of(token) as i32
    }
}

/// The size of a CHAR column; 0 where it is greater than any size.
pub(crate) fn char_size(token: &[u8]) -> u16
    requires { is_number token.now ≡ true }
    ensures { result ≡ size_of (value 0 token.now) }
{
    let size = number_of(token);
    if size <= 65535 { size as u16 } else { 0 }
}

// The value of a text in quotes: a quote sign that is written twice counts once.
fn without_quotes(alloc: Global, token: &[u8]) -> Result<Vec<u8>, Memory>
    requires { is_text token.now ≡ true }
    ensures { IfOk result (λ bytes. bytes.items ≡ text_value token.now) }
{
    let sign = token[0];
    let mut bytes = Vec::with_capacity(alloc, token.len())?;
    let mut seen = false;
    for byte in &token[1..] {
        if !seen && *byte == sign {
            seen = true;
        } else {
            bytes.push(*byte)?;
            seen = false;
        }
    }
    Ok(bytes)
}

/// The text of a text in quotes, without the spaces at its end.
pub(crate) fn chars_of(alloc: Global, token: &[u8]) -> Result<Chars, Memory>
    requires { is_text token.now ≡ true }
    ensures { IfOk result (λ text. text ≡ trimmed (text_value token.now)) }
{
    let bytes = without_quotes(alloc, token)?;
    Chars::new(alloc, bytes.as_slice())
}

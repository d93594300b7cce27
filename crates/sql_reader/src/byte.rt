//! Classes of bytes.
ghost use Rattle.std.specs.Prelude.{◌≡◌};
ghost use Rattle.sql_reader.specs.Tokens.{is_letter, is_digit, is_word_byte, is_blank, is_plain, is_quote, lower};

/// A letter, or `_`.
pub(crate) fn letter(byte: u8) -> bool
    ensures { result ≡ is_letter byte }
{
    (byte >= b'a' && byte <= b'z') || ((byte >= b'A' && byte <= b'Z') || byte == b'_')
}

/// A decimal digit.
pub(crate) fn digit(byte: u8) -> bool
    ensures { result ≡ is_digit byte }
{
    byte >= b'0' && byte <= b'9'
}

/// A letter, `_` or a digit.
pub(crate) fn word_byte(byte: u8) -> bool
    ensures { result ≡ is_word_byte byte }
{
    letter(byte) || digit(byte)
}

/// A space, a tab or a carriage return.
pub(crate) fn blank(byte: u8) -> bool
    ensures { result ≡ is_blank byte }
{
    byte == b' ' || (byte == b'\t' || byte == b'\r')
}

/// What a comment holds: a printable byte, a tab or a carriage return.
pub(crate) fn plain(byte: u8) -> bool
    ensures { result ≡ is_plain byte }
{
    (byte >= b' ' && byte <= b'~') || (byte == b'\t' || byte == b'\r')
}

/// A quote sign.
pub(crate) fn quote(byte: u8) -> bool
    ensures { result ≡ is_quote byte }
{
    byte == b'\'' || byte == b'"'
}

/// A capital letter as its small one, and every other byte as it is.
pub(crate) fn small(byte: u8) -> u8
    ensures { result ≡ lower byte }
{
    if byte >= b'A' && byte <= b'Z' {
        byte + 32
    } else {
        byte
    }
}

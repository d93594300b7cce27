//! A row of a table.
//!
//! | Column | Bytes |
//! |---|---|
//! | INTEGER | 4: two's complement, the highest byte first; `80000000` is no value |
//! | CHAR(n) | n: printable ASCII, filled with spaces; the value is without the spaces at its end |
ghost use Rattle.std.specs.Prelude.{◌≡◌, ◌≤◌, ◌<◌, ◌^◌, ◌++◌, true, length, IfOk, OnOk, Some};
ghost use Rattle.ids_base.specs.Texts.{is_printable, is_printable_text, IsText};
ghost use Rattle.ids_base.specs.Shapes as shapes;
ghost use Rattle.row_codec.specs.Rows.{int_bytes, int_of, text_bytes, value_bytes, value_of, row_bytes, row_of};
ghost use Rattle.row_codec.specs.Premises.{IsTextIfAny, HasTexts};
ghost use Rattle.std.specs.Int.{w32, cast_signed, from_be_bytes};

use crate::pieces::pad;
use crate::shapes::{column_size, row_length};
use ids_base::chars::Chars;
use ids_base::list::List;
use ids_base::memory::Memory;
use ids_base::row_bytes::RowBytes;
use ids_base::shape::{Column, Kind, Shape};
use ids_base::value::{Row, Value};
use std::alloc::Global;

/// The bytes of a row of the shape. One allocation; linear in the bytes.
pub fn encode(alloc: Global, shape: &Shape, row: &Row) -> Result<RowBytes, Memory>
    requires row { shapes.is_row_of shape.now row.now ≡ true }
    requires some { 1 ≤ shapes.row_length shape.now }
    requires few { shapes.row_length shape.now ≤ 800 }
    ensures bytes { IfOk result (λ b. b ≡ row_bytes shape.now row.now) }
    ensures length { IfOk result (λ b. length b ≡ shapes.row_length shape.now) }
    ensures again { IfOk result (λ b. row_of shape.now b ≡ Some row.now) }
{
    let columns = shape.as_slice();
    let mut bytes = Vec::with_capacity(alloc, row_length(columns))?;
    put_values(&mut bytes, columns, row.as_slice())?;
    Ok(RowBytes::from_vec(bytes))
}

/// The row that the bytes say, `None` exactly where they are no row of the shape. Linear in the bytes; takes memory for the
/// row.
pub fn decode(alloc: Global, shape: &Shape, bytes: &[u8]) -> Result<Option<Row>, Memory>
    ensures { IfOk result (λ row. row ≡ row_of shape.now bytes.now) }
{
    let mut row = List::with_capacity(alloc, shape.len())?;
    let mut rest = bytes;
    let columns = shape.as_slice();
    for column in columns {
        let Some((front, behind)) = rest.split_at_checked(column_size(column.kind)) else {
            return Ok(None);
        };
        let Some(value) = value_in(alloc, column.kind, front)? else {
            return Ok(None);
        };
        row.push(value)?;
        rest = behind;
    }
    if rest.is_empty() {
        Ok(Some(row.share(alloc)?))
    } else {
        Ok(None)
    }
}

// Puts the values of a row at the end.
fn put_values(bytes: &mut Vec<u8>, columns: &[Column], values: &[Value]) -> Result<(), Memory>
    requires { shapes.is_row_of columns.now values.now ≡ true }
    ensures bytes { OnOk result (bytes.new.items ≡ bytes.old.items ++ row_bytes columns.now values.now) }
    ensures texts { OnOk result (HasTexts values.now) }
{
    for (column, value) in columns.iter().zip(values) {
        put_value(bytes, column.kind, value)?;
    }
    Ok(())
}

// Puts the value of a column at the end.
fn put_value(bytes: &mut Vec<u8>, kind: Kind, value: &Value) -> Result<(), Memory>
    requires { shapes.is_of_kind kind value.now ≡ true }
    ensures bytes { OnOk result (bytes.new.items ≡ bytes.old.items ++ value_bytes kind value.now) }
    ensures texts { OnOk result (IsTextIfAny value.now) }
{
    match (kind, value) {
        (Kind::Integer, Value::Int(number)) => put_integer(bytes, *number),
        (Kind::Char(size), Value::Chars(text)) => put_text(bytes, size as usize, text),
        _ => Ok(()),
    }
}

fn put_integer(bytes: &mut Vec<u8>, number: i32) -> Result<(), Memory>
    ensures { OnOk result (bytes.new.items ≡ bytes.old.items ++ int_bytes number) }
{
    bytes.extend_from_slice(&number.to_be_bytes())?;
    Ok(())
}

// Puts a text at the end, filled with spaces up to the size.
fn put_text(bytes: &mut Vec<u8>, size: usize, text: &Chars) -> Result<(), Memory>
    requires { length text.now ≤ size }
    ensures bytes { OnOk result (bytes.new.items ≡ bytes.old.items ++ text_bytes size text.now) }
    ensures texts { OnOk result (IsText text.now) }
{
    let text = text.bytes();
    bytes.extend_from_slice(text)?;
    pad(bytes, b' ', size - text.len())
}

// The value that the bytes of a column say, if they say one.
fn value_in(alloc: Global, kind: Kind, bytes: &[u8]) -> Result<Option<Value>, Memory>
    requires { length bytes.now ≡ shapes.size_of kind }
    ensures { IfOk result (λ value. value ≡ value_of kind bytes.now) }
{
    match kind {
        Kind::Integer => Ok(integer_in(bytes)),
        Kind::Char(_) => {
            if !is_text(bytes) {
                return Ok(None);
            }
            Ok(Some(Value::Chars(Chars::new(alloc, bytes)?)))
        }
    }
}

// The number of four bytes, unless it is the least one.
fn integer_in(bytes: &[u8]) -> Option<Value>
    requires { length bytes.now ≡ 4 }
    ensures { result ≡ int_of (cast_signed w32 (from_be_bytes w32 bytes.now)) }
{
    let number = i32::from_be_bytes([bytes[0], bytes[1], bytes[2], bytes[3]]);
    if number >= -2147483647 && number <= 2147483647 {
        Some(Value::Int(number))
    } else {
        None
    }
}

// Whether all bytes are printable.
fn is_text(bytes: &[u8]) -> bool
    ensures { result ≡ is_printable_text bytes.now }
{
    bytes.iter().all(|byte| is_printable_byte(*byte))
}

fn is_printable_byte(byte: u8) -> bool
    ensures { result ≡ is_printable byte }
{
    byte >= 32 && byte <= 126
}

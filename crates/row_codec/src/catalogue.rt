//! A row of the catalogue: 359 bytes for each table.
//!
//! | Bytes | Field |
//! |---|---|
//! | 0 to 4 | the table's number, at least 100 |
//! | 4 to 22 | its name, filled with zero bytes |
//! | 22 | how many columns it has, 1 to 16 |
//! | 23 to 359 | 16 columns of 21 bytes: name (18, filled with zero bytes), kind (0 INTEGER, 1 CHAR), size (2, zero for INTEGER); the unused ones are zero |
ghost use Rattle.std.specs.Prelude.{◌≡◌, ◌≤◌, ◌==◌, ◌++◌, ℕ, true, false, length, map, replicate, IfOk, OnOk, MatchOption, option_map, Some, take, drop};
ghost use Rattle.std.specs.List.{list_all, flat_map, position, position_or_len};
ghost use Rattle.ids_base.specs.Names.{is_name};
ghost use Rattle.ids_base.specs.Shapes as shapes;
ghost use Rattle.row_codec.specs.Catalogue.{Entry, entry_bytes, entry_of, name_bytes, kind_bytes, column_bytes, kind_of, name_of, column_of, columns_of, are_columns, read_entry, is_entry};
ghost use Rattle.row_codec.specs.Views.{entry_in};

use crate::pieces::pad;
use crate::shapes::is_shape;
use ids_base::list::List;
use ids_base::memory::Memory;
use ids_base::name::Name;
use ids_base::numbers::TableNo;
use ids_base::row_bytes::RowBytes;
use ids_base::shape::{Column, Kind, Shape};
use std::alloc::Global;

/// What the catalogue says of a table.
#[derive(Drop)]
pub struct CatalogueRow {
    pub number: TableNo,
    pub name: Name,
    pub shape: Shape,
}

/// The bytes of the row of a table. One allocation.
pub fn encode_table(
    alloc: Global,
    number: TableNo,
    name: &Name,
    shape: &Shape,
) -> Result<RowBytes, Memory>
    requires number { 100 ≤ number }
    requires shape { shapes.is_shape shape.now ≡ true }
    ensures bytes { IfOk result (λ b. b ≡ entry_bytes (record { number = number; name = name.now; shape = shape.now })) }
    ensures length { IfOk result (λ b. length b ≡ 359) }
    ensures again { IfOk result (λ b. entry_of b ≡ Some (record { number = number; name = name.now; shape = shape.now })) }
{
    let bytes = table_bytes(alloc, number, name, shape)?;
    Ok(RowBytes::from_vec(bytes))
}

/// What the bytes say of a table, `None` exactly where they are no row of the catalogue. Takes memory for the shape, and for
/// its bytes while it looks at them.
pub fn decode_table(alloc: Global, bytes: &[u8]) -> Result<Option<CatalogueRow>, Memory>
    ensures { IfOk result (λ row. option_map entry_in row ≡ entry_of bytes.now) }
{
    if bytes.len() != 359 {
        return Ok(None);
    }
    let Some(row) = read_row(alloc, bytes)? else {
        return Ok(None);
    };
    if row.number < 100 || !is_shape(row.shape.as_slice()) {
        return Ok(None);
    }
    let spelled = encode_table(alloc, row.number, &row.name, &row.shape)?;
    if spelled.bytes() == bytes {
        Ok(Some(row))
    } else {
        Ok(None)
    }
}

// The bytes of the row of a table, which is a good one.
fn table_bytes(
    alloc: Global,
    number: TableNo,
    name: &Name,
    shape: &Shape,
) -> Result<Vec<u8>, Memory>
    requires number { 100 ≤ number }
    requires shape { shapes.is_shape shape.now ≡ true }
    ensures bytes { IfOk result (λ b. b.items ≡ entry_bytes (record { number = number; name = name.now; shape = shape.now })) }
    ensures good { IfOk result (λ _. is_entry (record { number = number; name = name.now; shape = shape.now }) ≡ true) }
{
    let mut bytes = Vec::with_capacity(alloc, 359)?;
    bytes.extend_from_slice(&number.to_be_bytes())?;
    put_name(&mut bytes, name)?;
    bytes.push(shape.len() as u8)?;
    put_columns(&mut bytes, shape.as_slice())?;
    pad(&mut bytes, 0, 21 * (16 - shape.len()))?;
    Ok(bytes)
}

// What stands in the fields, unless a name is none or there are more than 16 columns.
fn read_row(alloc: Global, bytes: &[u8]) -> Result<Option<CatalogueRow>, Memory>
    requires { length bytes.now ≡ 359 }
    ensures { IfOk result (λ row. MatchOption row (is_entry (read_entry bytes.now) ≡ false) (λ r. entry_in r ≡ read_entry bytes.now)) }
{
    let number = u32::from_be_bytes([bytes[0], bytes[1], bytes[2], bytes[3]]);
    let Some(name) = read_name(&bytes[4..]) else {
        return Ok(None);
    };
    let Some(shape) = read_columns(alloc, bytes[22] as usize, &bytes[23..])? else {
        return Ok(None);
    };
    Ok(Some(CatalogueRow {
        number,
        name,
        shape,
    }))
}

// The first columns of these bytes, unless they are more than 16 or a name is none.
fn read_columns(alloc: Global, count: usize, bytes: &[u8]) -> Result<Option<Shape>, Memory>
    requires { length bytes.now ≡ 336 }
    ensures { IfOk result (λ shape. MatchOption shape (are_columns (columns_of count bytes.now) ≡ false) (λ s. s ≡ columns_of count bytes.now)) }
{
    if count > 16 {
        return Ok(None);
    }
    let mut columns = List::with_capacity(alloc, count)?;
    let mut rest = bytes;
    for _ in 0..count {
        let Some(column) = read_column(rest) else {
            return Ok(None);
        };
        columns.push(column)?;
        rest = &rest[21..];
    }
    Ok(Some(columns.share(alloc)?))
}

// The first column of these bytes, unless its name is none.
fn read_column(bytes: &[u8]) -> Option<Column>
    requires { 21 ≤ length bytes.now }
    ensures { MatchOption result (is_name (name_of bytes.now) ≡ false) (λ c. c ≡ column_of bytes.now) }
{
    let name = read_name(bytes)?;
    let kind = read_kind(&bytes[18..21]);
    Some(Column { name, kind })
}

fn read_kind(bytes: &[u8]) -> Kind
    requires { length bytes.now ≡ 3 }
    ensures { result ≡ kind_of bytes.now }
{
    if bytes[0] == 0 {
        Kind::Integer
    } else {
        Kind::Char(u16::from_be_bytes([bytes[1], bytes[2]]))
    }
}

// The name up to the first zero byte, if it is one.
fn read_name(bytes: &[u8]) -> Option<Name>
    requires { 18 ≤ length bytes.now }
    ensures { MatchOption result (is_name (name_of bytes.now) ≡ false) (λ n. n ≡ name_of bytes.now) }
{
    let field = &bytes[..18];
    Name::new(&field[..length_to_zero(field)])
}

// How many bytes stand before the first zero byte.
fn length_to_zero(field: &[u8]) -> usize
    ensures value { result ≡ position_or_len (λ b. b == 0) field.now }
    ensures within { result ≤ length field.now }
{
    first_zero(field).unwrap_or(field.len())
}

fn first_zero(field: &[u8]) -> Option<usize>
    ensures { result ≡ position (λ b. b == 0) field.now }
{
    field.iter().position(|byte| *byte == 0)
}

// Puts a name at the end, filled with zero bytes.
fn put_name(bytes: &mut Vec<u8>, name: &Name) -> Result<(), Memory>
    ensures bytes { OnOk result (bytes.new.items ≡ bytes.old.items ++ name_bytes name.now) }
    ensures name { is_name name.now ≡ true }
{
    let name = name.bytes();
    bytes.extend_from_slice(name)?;
    pad(bytes, 0, 18 - name.len())
}

// Puts the columns at the end.
fn put_columns(bytes: &mut Vec<u8>, columns: &[Column]) -> Result<(), Memory>
    ensures bytes { OnOk result (bytes.new.items ≡ bytes.old.items ++ flat_map column_bytes columns.now) }
    ensures names { OnOk result (list_all (λ (c : Column). is_name c.name) columns.now ≡ true) }
{
    for column in columns {
        put_name(bytes, &column.name)?;
        put_kind(bytes, column.kind)?;
    }
    Ok(())
}

fn put_kind(bytes: &mut Vec<u8>, kind: Kind) -> Result<(), Memory>
    ensures { OnOk result (bytes.new.items ≡ bytes.old.items ++ kind_bytes kind) }
{
    match kind {
        Kind::Integer => pad(bytes, 0, 3),
        Kind::Char(size) => {
            bytes.push(1)?;
            bytes.extend_from_slice(&size.to_be_bytes())?;
            Ok(())
        }
    }
}

//! Worked examples.
ghost use Rattle.std.specs.Prelude.{◌≡◌, [], ◌∷◌, ◌<◌, true, IfOk};
ghost use Rattle.ids_base.specs.declared.value.Value.TheVariants as values;
ghost use Rattle.ids_base.specs.declared.shape.Kind.TheVariants as kinds;
ghost use Rattle.ids_base.specs.Shapes.{is_integer};

use crate::{decode, decode_table, encode, encode_table, laws, row_length};
use ids_base::chars::Chars;
use ids_base::list::List;
use ids_base::name::Name;
use ids_base::row_bytes::RowBytes;
use ids_base::shape::{Column, Kind, Shape};
use ids_base::value::{Row, Value};
use std::alloc::Global;
use std::test::Fail;

fn name(text: &[u8]) -> Result<Name, Fail>
    ensures { IfOk result (λ n. n ≡ text.now) }
{
    match Name::new(text) {
        Some(name) => Ok(name),
        None => Err("no name".into()),
    }
}

// The columns of `CREATE TABLE t (k INTEGER, c CHAR(4))`.
fn columns(alloc: Global) -> Result<Shape, Fail>
    ensures { IfOk result (λ s. s ≡ record { name = 107 ∷ []; kind = kinds.Integer } ∷ record { name = 99 ∷ []; kind = kinds.Char 4 } ∷ []) }
{
    let mut columns = List::new(alloc);
    columns.push(Column {
        name: name(b"k")?,
        kind: Kind::Integer,
    })?;
    columns.push(Column {
        name: name(b"c")?,
        kind: Kind::Char(4),
    })?;
    Ok(columns.share(alloc)?)
}

// A number and the text `ab`.
fn row(alloc: Global, number: i32) -> Result<Row, Fail>
    ensures { IfOk result (λ r. r ≡ values.Int number ∷ values.Chars (97 ∷ 98 ∷ []) ∷ []) }
{
    let mut row = List::new(alloc);
    row.push(Value::Int(number))?;
    row.push(Value::Chars(Chars::new(alloc, b"ab")?))?;
    Ok(row.share(alloc)?)
}

fn bytes_of(alloc: Global, number: i32) -> Result<RowBytes, Fail>
    requires { is_integer number ≡ true }
{
    Ok(encode(alloc, &columns(alloc)?, &row(alloc, number)?)?)
}

#[test]
fn rows_are_written(rt: HostRuntime) -> Result<(), Fail> {
    let seven = bytes_of(rt.alloc(), 7)?;
    assert_eq!(rt; seven.bytes(), b"\x00\x00\x00\x07ab  ".as_slice());
    let minus_one = bytes_of(rt.alloc(), -1)?;
    assert_eq!(rt; minus_one.bytes(), b"\xff\xff\xff\xffab  ".as_slice());
    Ok(())
}

fn is_row(alloc: Global, bytes: &[u8]) -> Result<bool, Fail> {
    Ok(decode(alloc, &columns(alloc)?, bytes)?.is_some())
}

#[test]
fn rows_are_read(rt: HostRuntime) -> Result<(), Fail> {
    let Some(row) = decode(rt.alloc(), &columns(rt.alloc())?, b"\xff\xff\xff\xfeab  ")? else {
        return Err("no row".into());
    };
    let [Value::Int(number), Value::Chars(text)] = row.as_slice() else {
        return Err("another row".into());
    };
    assert_eq!(rt; *number, -2);
    assert_eq!(rt;
        text.bytes(),
        b"ab".as_slice(),
        "spaces at the end are lost"
    );
    assert!(rt; is_row(rt.alloc(), b"\x80\x00\x00\x01ab  ")?);
    assert!(rt;
        !is_row(rt.alloc(), b"\x80\x00\x00\x00ab  ")?,
        "the least number is no value"
    );
    assert!(rt;
        !is_row(rt.alloc(), b"\x00\x00\x00\x07a\x1f  ")?,
        "a byte that is not printable"
    );
    assert!(rt;
        !is_row(rt.alloc(), b"\x00\x00\x00\x07ab ")?,
        "a byte too few"
    );
    assert!(rt;
        !is_row(rt.alloc(), b"\x00\x00\x00\x07ab   ")?,
        "a byte too many"
    );
    Ok(())
}

// The row of `CREATE TABLE t (k INTEGER, c CHAR(4))`, table 100, with one byte changed.
fn table_row(place: usize, byte: u8) -> [u8; 359]
    requires { place < 359 }
{
    let mut row = [0; 359];
    row[3] = 100;
    row[4] = b't';
    row[22] = 2;
    row[23] = b'k';
    row[44] = b'c';
    row[62] = 1;
    row[64] = 4;
    row[place] = byte;
    row
}

#[test]
fn tables_are_written(rt: HostRuntime) -> Result<(), Fail> {
    let shape = columns(rt.alloc())?;
    assert_eq!(rt; row_length(shape.as_slice()), 8);
    let row = encode_table(rt.alloc(), 100, &name(b"t")?, &shape)?;
    assert_eq!(rt; row.bytes(), table_row(3, 100).as_slice());
    Ok(())
}

fn is_table(alloc: Global, place: usize, byte: u8) -> Result<bool, Fail>
    requires { place < 359 }
{
    Ok(decode_table(alloc, &table_row(place, byte))?.is_some())
}

#[test]
fn tables_are_read(rt: HostRuntime) -> Result<(), Fail> {
    let Some(row) = decode_table(rt.alloc(), &table_row(3, 101))? else {
        return Err("no table".into());
    };
    assert_eq!(rt; row.number, 101);
    assert_eq!(rt; row.name.bytes(), b"t".as_slice());
    assert_eq!(rt; row.shape.len(), 2);
    assert!(rt; !is_table(rt.alloc(), 3, 99)?, "a number below 100");
    assert!(rt; !is_table(rt.alloc(), 4, b'T')?, "a name in upper case");
    assert!(rt;
        !is_table(rt.alloc(), 22, 3)?,
        "a third column without a name"
    );
    assert!(rt;
        !is_table(rt.alloc(), 65, b'd')?,
        "an unused column that is not zero"
    );
    assert!(rt; !is_table(rt.alloc(), 43, 4)?, "an INTEGER with a size");
    assert!(rt; !is_table(rt.alloc(), 44, b'k')?, "two columns of one name");
    Ok(())
}

#[test]
fn laws_hold() {
    laws::rows_are_spelled();
    laws::rows_are_read();
    laws::entries_are_spelled();
    laws::entries_are_read();
    laws::lengths();
}

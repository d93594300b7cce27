//! The key of a row, as the front of its bytes says it.
ghost use Rattle.std.specs.Prelude.{◌≡◌, ◌≤◌, ◌-◌, ◌++◌, length, take, replicate};
ghost use Rattle.ids_base.specs.Shapes.{size_of};
ghost use Rattle.ids_engine.specs.RowKeys.{first_kind, key_of_kind};
ghost use Rattle.ids_engine.specs.Indexed.{key_kind, key_in};

use ids_base::lock::Key;
use ids_base::numbers::TableNo;
use ids_base::shape::{Column, Kind};
use table_space::TableSpace;
use table_space::catalogue::CATALOGUE;

/// The key of a row of a table, from the first bytes of the row. Constant time, no memory.
pub(crate) fn key_in(space: &TableSpace, table: TableNo, bytes: &[u8]) -> Key
    requires short { size_of (key_kind space.now table) ≤ 32 }
    requires long { size_of (key_kind space.now table) ≤ length bytes.now }
    ensures { result ≡ key_in space.now table bytes.now }
{
    key_of_kind(key_kind(space, table), bytes)
}

// The key of a kind in the first bytes of a row.
fn key_of_kind(kind: Kind, bytes: &[u8]) -> Key
    requires short { size_of kind ≤ 32 }
    requires long { size_of kind ≤ length bytes.now }
    ensures { result ≡ key_of_kind kind bytes.now }
{
    match kind {
        Kind::Integer => front(0, 4, bytes),
        Kind::Char(size) => front(size as u8, size as usize, bytes),
    }
}

// A key of so many bytes.
fn front(size: u8, count: usize, bytes: &[u8]) -> Key
    requires short { count ≤ 32 }
    requires long { count ≤ length bytes.now }
    ensures { result ≡ record { size = size; bytes = take count bytes.now ++ replicate (32 - count) 0 } }
{
    let mut key = [0; 32];
    key[..count].copy_from_slice(&bytes[..count]);
    Key { size, bytes: key }
}

// The kind of a table's key.
fn key_kind(space: &TableSpace, table: TableNo) -> Kind
    ensures { result ≡ key_kind space.now table }
{
    if table == CATALOGUE {
        return Kind::Integer;
    }
    match space.shape_of(table) {
        None => Kind::Integer,
        Some(shape) => first_kind(shape.as_slice()),
    }
}

// The kind of the first column.
fn first_kind(shape: &[Column]) -> Kind
    ensures { result ≡ first_kind shape.now }
{
    match shape.first() {
        None => Kind::Integer,
        Some(column) => column.kind,
    }
}

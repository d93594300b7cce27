//! What a table's columns have to be, and the length of its rows.
ghost use Rattle.std.specs.Prelude.{◌≡◌, ◌≤◌, ◌<◌, ◌^◌, ◌&&◌, nat_le};
ghost use Rattle.ids_base.specs.Shapes as shapes;

use ids_base::name::Name;
use ids_base::shape::{Column, Kind};
use std::cmp::Ordering;

/// How many bytes of a row a column of the kind takes. Constant time.
pub fn column_size(kind: Kind) -> usize
    ensures { result ≡ shapes.size_of kind }
{
    match kind {
        Kind::Integer => 4,
        Kind::Char(size) => size as usize,
    }
}

/// How many bytes a row of these columns has. Linear in the columns.
pub fn row_length(columns: &[Column]) -> usize
    requires { shapes.row_length columns.now < 2 ^ 64 }
    ensures { result ≡ shapes.row_length columns.now }
{
    let mut length = 0;
    for column in columns {
        length += column_size(column.kind);
    }
    length
}

/// Whether a row of these columns has 1 to 800 bytes. Linear in the columns.
pub fn has_row_length(columns: &[Column]) -> bool
    ensures { result ≡ (nat_le 1 (shapes.row_length columns.now) && nat_le (shapes.row_length columns.now) 800) }
{
    let mut length = 0;
    for column in columns {
        let size = column_size(column.kind);
        if size > 800 - length {
            return false;
        }
        length += size;
    }
    1 <= length
}

/// Whether a table can have these columns. Looks at each pair of at most 16 columns.
pub fn is_shape(columns: &[Column]) -> bool
    ensures { result ≡ shapes.is_shape columns.now }
{
    columns.len() <= 16 && has_good_sizes(columns) && is_distinct(columns) && is_good_key(columns)
}

// Whether each column takes a byte, and a row at most 800.
fn has_good_sizes(columns: &[Column]) -> bool
    ensures { result ≡ shapes.has_good_sizes columns.now }
{
    let mut length = 0;
    for column in columns {
        let size = column_size(column.kind);
        if size < 1 || size > 800 - length {
            return false;
        }
        length += size;
    }
    true
}

// Whether no two columns have the same name.
fn is_distinct(columns: &[Column]) -> bool
    ensures { result ≡ shapes.is_distinct columns.now }
{
    match columns {
        [] => true,
        [column, columns @ ..] => !has_column(columns, &column.name) && is_distinct(columns),
    }
}

// Whether one of the columns has the name.
fn has_column(columns: &[Column], name: &Name) -> bool
    ensures { result ≡ shapes.has_column columns.now name.now }
{
    columns.iter().any(|column| same_name(name, &column.name))
}

/// Whether two names are the same. Linear in the shorter one.
pub fn same_name(a: &Name, b: &Name) -> bool
    ensures { result ≡ shapes.same_name a.now b.now }
{
    a.cmp(b) == Ordering::Equal
}

// Whether the first column can be a key.
fn is_good_key(columns: &[Column]) -> bool
    ensures { result ≡ shapes.is_good_key columns.now }
{
    match columns {
        [] => false,
        [column, ..] => match column.kind {
            Kind::Integer => true,
            Kind::Char(size) => size <= 32,
        },
    }
}

//! Worked examples.
use crate::owner::Owner;
use crate::replay::Replay;
use crate::tables::{Found, TablesFault};
use ids_base::name::Name;
use ids_base::row_bytes::RowBytes;
use ids_base::row_id::RowId;
use ids_base::value::{Row, Value};
use log_records::record::{Record, Updated};
use std::alloc::Global;
use std::test::Fail;

const AB: &[u8] = b"\x00\x00\x00\x07ab  ";

const CD: &[u8] = b"\x00\x00\x00\x07cd  ";

const EF: &[u8] = b"\x00\x00\x00\x07ef  ";

fn row(alloc: Global, bytes: &[u8]) -> Result<RowBytes, Fail> {
    if bytes.is_empty() || bytes.len() > 800 {
        return Err("no row".into());
    }
    Ok(RowBytes::new(alloc, bytes)?)
}

fn insert(alloc: Global, tx: u64, table: u32, slot: u32, bytes: &[u8]) -> Result<Record, Fail> {
    Ok(Record::HInsert {
        tx,
        table,
        row: RowId::from_number(slot),
        after: row(alloc, bytes)?,
    })
}

fn delete(alloc: Global, tx: u64, slot: u32, bytes: &[u8]) -> Result<Record, Fail> {
    Ok(Record::HDelete {
        tx,
        table: 100,
        row: RowId::from_number(slot),
        before: row(alloc, bytes)?,
    })
}

fn update(alloc: Global, slot: u32, before: &[u8], after: &[u8]) -> Result<Record, Fail> {
    if before.len() != after.len() {
        return Err("rows of two lengths".into());
    }
    if before.is_empty() || before.len() > 800 {
        return Err("no rows".into());
    }
    let rows = Updated {
        before: RowBytes::new(alloc, before)?,
        after: RowBytes::new(alloc, after)?,
    };
    Ok(Record::HUpdate {
        tx: 3,
        table: 100,
        row: RowId::from_number(slot),
        rows,
    })
}

// The row of the catalogue for table 100, t (k INTEGER, c CHAR(4)).
fn catalogue_row() -> [u8; 359] {
    let mut row = [0; 359];
    row[3] = 100;
    row[4] = b't';
    row[22] = 2;
    row[23] = b'k';
    row[44] = b'c';
    row[62] = 1;
    row[64] = 4;
    row
}

fn go_on(replay: &mut Replay, record: Record) -> Result<(), Fail> {
    replay.note(&record.view())?;
    Ok(())
}

// Table t is made by transaction 1, and transaction 2 puts a row into it.
fn two_transactions(alloc: Global) -> Result<Replay, Fail> {
    let mut replay = Replay::new(alloc);
    go_on(&mut replay, Record::Begin { tx: 1, session: 1 })?;
    go_on(&mut replay, insert(alloc, 1, 1, 257, &catalogue_row())?)?;
    go_on(&mut replay, Record::Commit { tx: 1 })?;
    go_on(&mut replay, Record::Begin { tx: 2, session: 1 })?;
    go_on(&mut replay, insert(alloc, 2, 100, 513, AB)?)?;
    Ok(replay)
}

// The bytes in a slot, none where it is empty.
fn bytes_at(replay: &Replay, slot: u32) -> &[u8] {
    match replay.row_at(slot) {
        None => b"",
        Some(bytes) => bytes,
    }
}

#[test]
fn what_is_committed_stays(rt: HostRuntime) -> Result<(), Fail> {
    let mut replay = two_transactions(rt.alloc())?;
    assert!(rt; replay.has_standing());
    go_on(&mut replay, Record::Commit { tx: 2 })?;
    assert!(rt; !replay.has_standing());
    replay.take_back()?;
    assert_eq!(rt; bytes_at(&replay, 513), AB);
    assert_eq!(rt; bytes_at(&replay, 257), catalogue_row().as_slice());
    Ok(())
}

#[test]
fn what_is_open_is_taken_back(rt: HostRuntime) -> Result<(), Fail> {
    let mut replay = two_transactions(rt.alloc())?;
    assert!(rt; replay.has_standing());
    replay.take_back()?;
    assert!(rt; !replay.has_standing());
    assert_eq!(rt; bytes_at(&replay, 513), b"".as_slice());
    assert_eq!(rt; bytes_at(&replay, 257), catalogue_row().as_slice());
    let owner = Owner {
        table: 100,
        row_length: 8,
    };
    assert!(rt;
        replay.owner_at(2) == Some(owner),
        "the page stays the table's"
    );
    Ok(())
}

// Then transaction 3 replaces the row twice and deletes it, and transaction 4 puts another.
fn with_two_open(alloc: Global) -> Result<Replay, Fail> {
    let mut replay = two_transactions(alloc)?;
    go_on(&mut replay, Record::Commit { tx: 2 })?;
    go_on(&mut replay, Record::Begin { tx: 3, session: 1 })?;
    go_on(&mut replay, update(alloc, 513, AB, CD)?)?;
    go_on(&mut replay, update(alloc, 513, CD, EF)?)?;
    go_on(&mut replay, insert(alloc, 4, 100, 514, CD)?)?;
    go_on(&mut replay, delete(alloc, 3, 513, EF)?)?;
    Ok(replay)
}

#[test]
fn changes_are_taken_back_latest_first(rt: HostRuntime) -> Result<(), Fail> {
    let mut replay = with_two_open(rt.alloc())?;
    assert_eq!(rt; bytes_at(&replay, 513), b"".as_slice());
    go_on(&mut replay, Record::Rollback { tx: 3 })?;
    assert_eq!(rt; bytes_at(&replay, 513), AB);
    assert_eq!(rt; bytes_at(&replay, 514), CD, "another's change stands");
    assert!(rt; replay.has_standing());
    Ok(())
}

fn tables(replay: &Replay) -> Result<Found, Fail> {
    Ok(replay.tables()?)
}

// The row id at which pages and rows are damaged, 0 where they are not.
fn damage(replay: &Replay) -> u32 {
    match replay.tables() {
        Err(TablesFault::Damaged(row)) => row,
        _ => 0,
    }
}

fn table_number(found: &Found, name: &[u8]) -> Option<u32> {
    found.numbers.get(&Name::new(name)?)
}

// The text beside a key of table t.
fn text(found: &Found, key: i32) -> &[u8] {
    let Some(name) = Name::new(b"t") else {
        return b"";
    };
    let Some(table) = found.tables.table(&name) else {
        return b"";
    };
    match table.row(&Value::Int(key)) {
        None => b"",
        Some(row) => text_of(row),
    }
}

fn text_of(row: &Row) -> &[u8] {
    match row.as_slice() {
        [_, Value::Chars(text)] => text.bytes(),
        _ => b"",
    }
}

// The row of the catalogue with another number, below 256, and another name of one byte.
pub(crate) fn another_row(number: u8, name: u8) -> [u8; 359] {
    let mut row = catalogue_row();
    row[3] = number;
    row[4] = name;
    row
}

// Table t and its row, and one more row.
fn with_row(alloc: Global, table: u32, slot: u32, bytes: &[u8]) -> Result<Replay, Fail> {
    let mut replay = two_transactions(alloc)?;
    go_on(&mut replay, insert(alloc, 2, table, slot, bytes)?)?;
    Ok(replay)
}

fn tables_with(alloc: Global, table: u32, slot: u32, bytes: &[u8]) -> Result<Found, Fail> {
    let replay = with_row(alloc, table, slot, bytes)?;
    tables(&replay)
}

fn damage_with(alloc: Global, table: u32, slot: u32, bytes: &[u8]) -> Result<u32, Fail> {
    let replay = with_row(alloc, table, slot, bytes)?;
    Ok(damage(&replay))
}

// A page of table 250 whose only row is gone.
fn with_empty_page(alloc: Global) -> Result<Found, Fail> {
    let mut replay = with_row(alloc, 250, 769, CD)?;
    go_on(&mut replay, delete(alloc, 2, 769, CD)?)?;
    tables(&replay)
}

// A row in page 4, which has no owner.
fn damage_without_owner(alloc: Global) -> Result<u32, Fail> {
    let mut replay = two_transactions(alloc)?;
    go_on(&mut replay, update(alloc, 1025, AB, CD)?)?;
    Ok(damage(&replay))
}

#[test]
fn no_tables_are_found_in_nothing(rt: HostRuntime) -> Result<(), Fail> {
    let found = tables(&Replay::new(rt.alloc()))?;
    assert_eq!(rt; found.greatest, 99);
    assert_eq!(rt; table_number(&found, b"t"), None);
    Ok(())
}

#[test]
fn tables_are_found(rt: HostRuntime) -> Result<(), Fail> {
    let found = tables_with(rt.alloc(), 1, 258, &another_row(200, b'u'))?;
    assert_eq!(rt; table_number(&found, b"t"), Some(100));
    assert_eq!(rt; table_number(&found, b"u"), Some(200));
    assert_eq!(rt; table_number(&found, b"v"), None);
    assert_eq!(rt; text(&found, 7), b"ab".as_slice());
    assert_eq!(rt; text(&found, 8), b"".as_slice());
    assert_eq!(rt; found.greatest, 200, "no page is of table 200");
    Ok(())
}

#[test]
fn pages_without_rows_count(rt: HostRuntime) -> Result<(), Fail> {
    let found = with_empty_page(rt.alloc())?;
    assert_eq!(rt; found.greatest, 250);
    assert_eq!(rt; text(&found, 7), b"ab".as_slice());
    Ok(())
}

#[test]
fn the_row_that_breaks_the_catalogue_is_named(rt: HostRuntime) -> Result<(), Fail> {
    let alloc = rt.alloc();
    let name_twice = damage_with(alloc, 1, 258, &another_row(101, b't'))?;
    assert_eq!(rt; name_twice, 258);
    let number_twice = damage_with(alloc, 1, 258, &another_row(100, b'u'))?;
    assert_eq!(rt; number_twice, 258);
    let before = damage_with(alloc, 1, 256, &another_row(101, b't'))?;
    assert_eq!(rt; before, 257, "of two names the greater row id");
    let low_number = damage_with(alloc, 1, 258, &another_row(99, b'u'))?;
    assert_eq!(rt; low_number, 258);
    let no_name = damage_with(alloc, 1, 259, &another_row(101, b'1'))?;
    assert_eq!(rt; no_name, 259);
    let short_row = damage_with(alloc, 1, 770, AB)?;
    assert_eq!(rt; short_row, 769, "slot 1 of a page of table 1");
    Ok(())
}

#[test]
fn the_row_that_breaks_a_table_is_named(rt: HostRuntime) -> Result<(), Fail> {
    let alloc = rt.alloc();
    let good = damage_with(alloc, 100, 514, b"\x00\x00\x00\x08ab  ")?;
    assert_eq!(rt; good, 0);
    let unowned = damage_without_owner(alloc)?;
    assert_eq!(rt; unowned, 1025);
    let unnamed = damage_with(alloc, 101, 771, CD)?;
    assert_eq!(rt; unnamed, 771);
    let unread = damage_with(alloc, 100, 514, b"\x80\x00\x00\x00ab  ")?;
    assert_eq!(rt; unread, 514);
    let key_twice = damage_with(alloc, 100, 514, CD)?;
    assert_eq!(rt; key_twice, 514);
    let before = damage_with(alloc, 100, 512, CD)?;
    assert_eq!(rt; before, 513, "of two keys the greater row id");
    let elsewhere = damage_with(alloc, 100, 1027, CD)?;
    assert_eq!(rt; elsewhere, 1027, "a key of another page");
    Ok(())
}

// A page of table 100 with a row of 9 bytes, and without it again.
fn damage_with_long_page(alloc: Global) -> Result<(u32, u32), Fail> {
    let long = b"\x00\x00\x00\x08ab   ";
    let mut replay = with_row(alloc, 100, 770, long)?;
    let filled = damage(&replay);
    go_on(&mut replay, delete(alloc, 2, 770, long)?)?;
    Ok((filled, damage(&replay)))
}

#[test]
fn a_page_of_another_length_is_named_by_its_slot_1(rt: HostRuntime) -> Result<(), Fail> {
    let (filled, emptied) = damage_with_long_page(rt.alloc())?;
    assert_eq!(rt; filled, 769);
    assert_eq!(rt; emptied, 769, "no slot of it holds a row");
    Ok(())
}

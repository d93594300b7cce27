//! Logs with one record that is not taken, or with a block that is broken, and the place that opening names.
use crate::fault::OpenFault;
use crate::opening::open_log;
use crate::opening_tests::{FIRST, append, body, insert, open, small_disk};
use ids_base::position::LogPos;
use ids_base::row_bytes::RowBytes;
use ids_base::row_id::RowId;
use ids_base::status::Place;
use ids_outside::{Disk, MemDisk};
use log_records::record::{Record, Updated};
use std::alloc::Global;
use std::process::Abort;
use std::test::Fail;

const LONGER: &[u8] = b"\x00\x00\x00\x02three";

// A row of a table in a slot, by its row id. There are pages 1 and 2; a page has 223 slots for rows of 8 bytes, and 200 for
// rows of 9 bytes.
#[derive(Clone, Copy)]
struct RowCase {
    name: &'static str,
    table: u32,
    row: u32,
    bytes: &'static [u8],
}

fn case(name: &'static str, table: u32, row: u32, bytes: &'static [u8]) -> RowCase {
    RowCase {
        name,
        table,
        row,
        bytes,
    }
}

// Not to be inserted while page 1 is of table 100 with rows of 8 bytes, and page 2 has no owner.
fn no_inserts() -> [RowCase; 11] {
    [
        case("page 0", 100, 1, FIRST),
        case("page 3 of 2", 100, 769, FIRST),
        case("a page far away", 100, 4294967041, FIRST),
        case("slot 0", 100, 256, FIRST),
        case("slot 224 of 223", 100, 480, FIRST),
        case("slot 224 of 223 in a page without owner", 100, 736, FIRST),
        case("table 99", 99, 513, FIRST),
        case("table 2", 2, 513, FIRST),
        case("table 0", 0, 513, FIRST),
        case("a page of another table", 101, 258, FIRST),
        case("a page with rows of another length", 100, 258, LONGER),
    ]
}

// Not to be deleted or updated there.
fn no_rows() -> [RowCase; 7] {
    [
        case("page 0", 100, 1, FIRST),
        case("page 3 of 2", 100, 769, FIRST),
        case("slot 0", 100, 256, FIRST),
        case("slot 224 of 223", 100, 480, FIRST),
        case("a page without owner", 100, 513, FIRST),
        case("a page of another table", 101, 257, FIRST),
        case("a page with rows of another length", 100, 257, LONGER),
    ]
}

// To be inserted there.
fn inserts() -> [RowCase; 6] {
    [
        case("the next slot", 100, 258, FIRST),
        case("the last slot", 100, 479, FIRST),
        case("a page without owner", 100, 513, FIRST),
        case("its last slot", 101, 735, FIRST),
        case("its last slot for longer rows", 4294967295, 712, LONGER),
        case("the catalogue", 1, 513, FIRST),
    ]
}

// Where a disk is damaged whose log has these two blocks, if it is.
fn damage(
    rt: &impl Abort,
    alloc: Global,
    first: &[Record],
    second: &[Record],
) -> Result<Option<Place>, Fail> {
    let mut disk = small_disk(rt, alloc)?;
    let bodies = [body(rt, 1, first), body(rt, 2, second)];
    assert_eq!(rt; append(&mut disk, &bodies), Ok(()));
    match open(alloc, &mut disk) {
        Ok(_) => Ok(None),
        Err(OpenFault::Damaged(place)) => Ok(Some(place)),
        Err(_) => Err("another fault".into()),
    }
}

// Where it is with this record in the second block, behind BEGIN. In the first block a transaction put a row of table 100 with
// 8 bytes into slot 257.
fn damage_by(rt: &impl Abort, alloc: Global, entry: Record) -> Result<Option<Place>, Fail> {
    let first = [
        Record::Begin { tx: 1, session: 1 },
        insert(alloc, 1, 257, FIRST)?,
        Record::Commit { tx: 1 },
    ];
    let second = [
        Record::Begin { tx: 2, session: 1 },
        entry,
        Record::Commit { tx: 2 },
    ];
    damage(rt, alloc, &first, &second)
}

fn at(block: u64, index: u16) -> Option<Place> {
    Some(Place::Record(LogPos { block, index }))
}

fn row(alloc: Global, bytes: &[u8]) -> Result<RowBytes, Fail> {
    if bytes.is_empty() || bytes.len() > 800 {
        return Err("no row".into());
    }
    Ok(RowBytes::new(alloc, bytes)?)
}

fn inserted(alloc: Global, case: &RowCase) -> Result<Record, Fail> {
    Ok(Record::HInsert {
        tx: 2,
        table: case.table,
        row: RowId::from_number(case.row),
        after: row(alloc, case.bytes)?,
    })
}

fn deleted(alloc: Global, case: &RowCase) -> Result<Record, Fail> {
    Ok(Record::HDelete {
        tx: 2,
        table: case.table,
        row: RowId::from_number(case.row),
        before: row(alloc, case.bytes)?,
    })
}

fn updated(alloc: Global, case: &RowCase) -> Result<Record, Fail> {
    let bytes = case.bytes;
    if bytes.is_empty() || bytes.len() > 800 {
        return Err("no rows".into());
    }
    Ok(Record::HUpdate {
        tx: 2,
        table: case.table,
        row: RowId::from_number(case.row),
        rows: Updated {
            before: RowBytes::new(alloc, bytes)?,
            after: RowBytes::new(alloc, bytes)?,
        },
    })
}

#[test]
fn rows_are_not_put_elsewhere(rt: HostRuntime) -> Result<(), Fail> {
    let alloc = rt.alloc();
    for case in &no_inserts() {
        let found = damage_by(&rt, alloc, inserted(alloc, case)?)?;
        assert_eq!(rt; found, at(2, 1), "{}", case.name);
    }
    Ok(())
}

// All records are taken, and then the rows are looked at: a page of the catalogue has not its row length, or else the row in slot
// 257 is of a table that the catalogue has not.
#[test]
fn rows_are_put_into_their_places(rt: HostRuntime) -> Result<(), Fail> {
    let alloc = rt.alloc();
    for case in &inserts() {
        let found = damage_by(&rt, alloc, inserted(alloc, case)?)?;
        let broken = if case.table == 1 { 513 } else { 257 };
        assert_eq!(rt; found, Some(Place::Row(broken)), "{}", case.name);
    }
    Ok(())
}

#[test]
fn rows_are_not_changed_elsewhere(rt: HostRuntime) -> Result<(), Fail> {
    let alloc = rt.alloc();
    for case in &no_rows() {
        let found = damage_by(&rt, alloc, deleted(alloc, case)?)?;
        assert_eq!(rt; found, at(2, 1), "DELETE, {}", case.name);
        let found = damage_by(&rt, alloc, updated(alloc, case)?)?;
        assert_eq!(rt; found, at(2, 1), "UPDATE, {}", case.name);
    }
    Ok(())
}

// The second block has a record out of order, too.
fn out_of_order(rt: &impl Abort, alloc: Global, first: &[Record]) -> Result<Option<Place>, Fail> {
    damage(rt, alloc, first, &[Record::Commit { tx: 9 }])
}

#[test]
fn the_first_record_out_of_order_is_named(rt: HostRuntime) -> Result<(), Fail> {
    let alloc = rt.alloc();
    let log = [Record::Commit { tx: 1 }];
    assert_eq!(rt; out_of_order(&rt, alloc, &log)?, at(1, 0));
    let log = [Record::Rollback { tx: 1 }];
    assert_eq!(rt; out_of_order(&rt, alloc, &log)?, at(1, 0));
    let log = [insert(alloc, 1, 257, FIRST)?];
    assert_eq!(rt; out_of_order(&rt, alloc, &log)?, at(1, 0));
    let begin = Record::Begin { tx: 1, session: 1 };
    let log = [begin, Record::Begin { tx: 2, session: 1 }];
    assert_eq!(rt; out_of_order(&rt, alloc, &log)?, at(1, 1));
    let begin = Record::Begin { tx: 1, session: 1 };
    let log = [begin, insert(alloc, 2, 257, FIRST)?];
    assert_eq!(rt; out_of_order(&rt, alloc, &log)?, at(1, 1));
    let begin = Record::Begin { tx: 1, session: 1 };
    let log = [begin, insert(alloc, 1, 257, FIRST)?];
    assert_eq!(rt; out_of_order(&rt, alloc, &log)?, at(2, 0));
    Ok(())
}

// Writes over the byte of a block that is 0 where it has less than 256 records.
fn write_count(disk: &mut MemDisk, block: u64, byte: u8) -> Result<(), Fail> {
    if block > 24 || disk.pages(0) != 43 {
        return Err("no such block".into());
    }
    let at = 2048 * (18 + block) + 10;
    disk.write_at(0, at, &[byte]).map_err(|_| "a fault".into())
}

#[test]
fn a_broken_block_is_named_and_loses_nothing(rt: HostRuntime) -> Result<(), Fail> {
    let alloc = rt.alloc();
    let mut disk = small_disk(&rt, alloc)?;
    let first = [
        Record::Begin { tx: 1, session: 1 },
        insert(alloc, 1, 257, FIRST)?,
    ];
    let bodies = [
        body(&rt, 1, &first),
        body(&rt, 2, &[Record::Rollback { tx: 1 }]),
    ];
    assert_eq!(rt; append(&mut disk, &bodies), Ok(()));
    for block in [1, 2] {
        write_count(&mut disk, block, 4)?;
        let opened = open_log(alloc, &mut disk).err();
        assert_eq!(rt; opened, Some(OpenFault::Damaged(Place::Block(block))));
        write_count(&mut disk, block, 0)?;
    }
    let opened = open_log(alloc, &mut disk).ok().ok_or("not opened")?;
    assert_eq!(rt; opened.files.next(), 3);
    Ok(())
}

// A transaction that has ended has number 3.
#[test]
fn a_number_is_not_begun_again(rt: HostRuntime) -> Result<(), Fail> {
    let alloc = rt.alloc();
    for (tx, place) in [(3, at(2, 0)), (2, at(2, 0)), (4, None)] {
        let first = [
            Record::Begin { tx: 3, session: 1 },
            Record::Commit { tx: 3 },
        ];
        let second = [Record::Begin { tx, session: 1 }, Record::Commit { tx }];
        assert_eq!(rt; damage(&rt, alloc, &first, &second)?, place, "{tx}");
    }
    Ok(())
}

//! Opening over a disk in memory, through the bound that callers have.
ghost use Rattle.std.specs.Prelude.{◌≡◌, ◌≤◌, length};
ghost use Rattle.log_files.specs.Files.{AreNumbered};

use crate::fault::OpenFault;
use crate::opening::{files_of, open_log};
use crate::tables::Found;
use crate::tests::another_row;
use chunk_map::{CheckpointPage, Layout, MapFault, has_pages, newest, write_identity, write_next};
use ids_base::name::Name;
use ids_base::position::LogPos;
use ids_base::row_bytes::RowBytes;
use ids_base::row_id::RowId;
use ids_base::status::Place;
use ids_outside::{Disk, Leave, MemDisk, is_image};
use log_files::BlockRead;
use log_records::block_body::{BlockBody, put};
use log_records::record::Record;
use std::alloc::Global;
use std::process::Abort;
use std::test::Fail;

const SMALL: Layout = Layout {
    phys: 16,
    logs: 3,
    log_size: 8,
    chunks: 1,
    data_pages: 2,
    root: 43,
};

pub(crate) const FIRST: &[u8] = b"\x00\x00\x00\x01one ";

// Writes the identity, and the first checkpoint page.
fn format<D: Disk>(disk: &mut D) -> Result<(), MapFault> {
    if !SMALL.is_in_range() || !has_pages(disk, &SMALL) {
        return Err(MapFault::Disk);
    }
    disk.sync()?;
    write_identity(disk, &SMALL)?;
    let Err(MapFault::NotFormatted) = newest(disk, &SMALL) else {
        return Err(MapFault::Disk);
    };
    let page = CheckpointPage {
        number: 1,
        quiet: true,
        start: LogPos { block: 1, index: 0 },
    };
    write_next(disk, &SMALL, &page)?;
    Ok(())
}

// Appends blocks to an empty log.
pub(crate) fn append<D: Disk>(disk: &mut D, bodies: &[BlockBody]) -> Result<(), OpenFault>
    requires numbered { AreNumbered 1 bodies.now }
    requires few { length bodies.now ≤ 2 }
{
    if !SMALL.is_in_range() || !has_pages(disk, &SMALL) {
        return Err(OpenFault::Disk);
    }
    disk.sync()?;
    let mut files = files_of(&SMALL, 1);
    if !matches!(files.read_from(disk, 1)?, BlockRead::Absent) {
        return Err(OpenFault::Disk);
    }
    files.clear_rest(disk)?;
    files.append_blocks(disk, bodies)?;
    Ok(())
}

// A new table goes into the catalogue.
fn create(alloc: Global, tx: u64, slot: u32, number: u8, name: u8) -> Result<Record, Fail> {
    let bytes = another_row(number, name);
    Ok(Record::HInsert {
        tx,
        table: 1,
        row: RowId::from_number(slot),
        after: RowBytes::new(alloc, &bytes)?,
    })
}

pub(crate) fn insert(alloc: Global, tx: u64, slot: u32, bytes: &[u8]) -> Result<Record, Fail> {
    if bytes.is_empty() || bytes.len() > 800 {
        return Err("no row".into());
    }
    Ok(Record::HInsert {
        tx,
        table: 100,
        row: RowId::from_number(slot),
        after: RowBytes::new(alloc, bytes)?,
    })
}

// A body of these records.
pub(crate) fn body(rt: &impl Abort, number: u64, records: &[Record]) -> BlockBody
    ensures number { result.number ≡ number }
    ensures some { 1 ≤ length result.entries }
{
    let mut body = BlockBody::new(number);
    for entry in records {
        let is_put = put(entry.view(), &mut body);
        assert!(rt; is_put);
    }
    assert!(rt; body.number() == number);
    assert!(rt; body.count() >= 1);
    body
}

// What is found: whether there are the tables t and u, the greatest transaction, and the block that comes next.
#[derive(Clone, Copy, Debug, Drop, PartialEq, Eq)]
pub(crate) struct Summary {
    has_first: bool,
    has_second: bool,
    has_standing: bool,
    last_tx: u64,
    next: u64,
}

fn has_table(found: &Found, name: &[u8]) -> bool {
    match Name::new(name) {
        None => false,
        Some(name) => found.tables.table(&name).is_some(),
    }
}

pub(crate) fn open<D: Disk>(alloc: Global, disk: &mut D) -> Result<Summary, OpenFault> {
    let opened = open_log(alloc, disk)?;
    Ok(Summary {
        has_first: has_table(&opened.found, b"t"),
        has_second: has_table(&opened.found, b"u"),
        has_standing: opened.replay.has_standing(),
        last_tx: opened.last_tx,
        next: opened.files.next(),
    })
}

pub(crate) fn small_disk(rt: &impl Abort, alloc: Global) -> Result<MemDisk, Fail> {
    let mut disk = MemDisk::new(alloc, &[43, 2], Vec::new(alloc))?;
    assert_eq!(rt; format(&mut disk), Ok(()));
    Ok(disk)
}

// Transaction 1 is committed in block 1, and transaction 2 is open at the end of block 2.
fn disk_of_two_blocks(rt: &impl Abort, alloc: Global) -> Result<MemDisk, Fail> {
    let mut disk = small_disk(rt, alloc)?;
    let first = [
        Record::Begin { tx: 1, session: 1 },
        create(alloc, 1, 257, 100, b't')?,
        Record::Commit { tx: 1 },
        Record::Begin { tx: 2, session: 1 },
    ];
    let second = [create(alloc, 2, 258, 200, b'u')?];
    let bodies = [body(rt, 1, &first), body(rt, 2, &second)];
    assert_eq!(rt; append(&mut disk, &bodies), Ok(()));
    Ok(disk)
}

#[test]
fn an_empty_log_has_nothing(rt: HostRuntime) -> Result<(), Fail> {
    let alloc = rt.alloc();
    let mut disk = small_disk(&rt, alloc)?;
    let nothing = Summary {
        has_first: false,
        has_second: false,
        has_standing: false,
        last_tx: 0,
        next: 1,
    };
    assert_eq!(rt; open(alloc, &mut disk), Ok(nothing));
    assert_eq!(rt; open(alloc, &mut disk), Ok(nothing));
    Ok(())
}

// The first transaction stands, and the second was rolled back.
const ROLLED_BACK: Summary = Summary {
    has_first: true,
    has_second: false,
    has_standing: false,
    last_tx: 2,
    next: 4,
};

#[test]
fn an_open_transaction_is_rolled_back(rt: HostRuntime) -> Result<(), Fail> {
    let alloc = rt.alloc();
    let mut disk = disk_of_two_blocks(&rt, alloc)?;
    assert_eq!(rt; open(alloc, &mut disk), Ok(ROLLED_BACK));
    assert_eq!(rt; open(alloc, &mut disk), Ok(ROLLED_BACK));
    Ok(())
}

#[test]
fn each_stop_within_opening_leaves_the_rows(rt: HostRuntime) -> Result<(), Fail> {
    let alloc = rt.alloc();
    let mut disk = disk_of_two_blocks(&rt, alloc)?;
    let begun = disk.moment();
    assert_eq!(rt; open(alloc, &mut disk), Ok(ROLLED_BACK));
    assert!(rt; begun < disk.moment());
    for moment in begun..=disk.moment() {
        for leave in [
            Leave::Old,
            Leave::New,
            Leave::Half,
            Leave::Torn(0xA5),
            Leave::Torn(0),
        ] {
            let image = disk.left_at(alloc, moment, leave)?;
            assert!(rt; is_image(&image));
            let mut left = MemDisk::from_image(alloc, image, Vec::new(alloc));
            assert_eq!(rt;
                open(alloc, &mut left),
                Ok(ROLLED_BACK),
                "at {moment} {leave:?}"
            );
        }
    }
    Ok(())
}

#[test]
fn other_disks_are_refused(rt: HostRuntime) -> Result<(), Fail> {
    let alloc = rt.alloc();
    let mut zeros = MemDisk::new(alloc, &[43, 2], Vec::new(alloc))?;
    assert_eq!(rt; open(alloc, &mut zeros), Err(OpenFault::NotFormatted));
    let mut disk = small_disk(&rt, alloc)?;
    let records = [
        Record::Begin { tx: 1, session: 1 },
        Record::Commit { tx: 2 },
    ];
    assert_eq!(rt; append(&mut disk, &[body(&rt, 1, &records)]), Ok(()));
    let place = Place::Record(LogPos { block: 1, index: 1 });
    assert_eq!(rt; open(alloc, &mut disk), Err(OpenFault::Damaged(place)));
    Ok(())
}

// Transaction 1 puts two tables of one name into the catalogue, and transaction 2 is open at the end.
fn disk_of_one_name(rt: &impl Abort, alloc: Global) -> Result<MemDisk, Fail> {
    let mut disk = small_disk(rt, alloc)?;
    let records = [
        Record::Begin { tx: 1, session: 1 },
        create(alloc, 1, 257, 100, b't')?,
        create(alloc, 1, 258, 101, b't')?,
        Record::Commit { tx: 1 },
        Record::Begin { tx: 2, session: 1 },
    ];
    assert_eq!(rt; append(&mut disk, &[body(rt, 1, &records)]), Ok(()));
    Ok(disk)
}

#[test]
fn a_broken_row_is_named_before_anything_is_written(rt: HostRuntime) -> Result<(), Fail> {
    let alloc = rt.alloc();
    let mut disk = disk_of_one_name(&rt, alloc)?;
    let before = disk.left_at(alloc, disk.moment(), Leave::New)?;
    let broken = Err(OpenFault::Damaged(Place::Row(258)));
    assert_eq!(rt; open(alloc, &mut disk), broken);
    let after = disk.left_at(alloc, disk.moment(), Leave::New)?;
    assert!(rt; before == after);
    Ok(())
}

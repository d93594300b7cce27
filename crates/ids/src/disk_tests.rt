//! What stands on a disk: how it is formatted, and in which slots a script puts its rows.
ghost use Rattle.std.specs.Prelude.{◌≤◌};
ghost use Rattle.ids_engine.specs.Plans.{IsPlan};

use crate::runs::run;
use chunk_map::{newest, read_identity};
use fast_recovery::opening::open_log;
use ids_base::status::Status;
use ids_engine::{InitPlan, init_disk};
use ids_outside::MemDisk;
use std::alloc::Global;
use std::test::Fail;

// A disk whose root needs 323 pages.
fn plan(root: u32) -> InitPlan
    requires { root ≤ 100000 }
    ensures { IsPlan result }
{
    InitPlan {
        phys: 64,
        logs: 4,
        log_size: 64,
        chunks: 2,
        data_pages: 3,
        root,
    }
}

// A disk without pages, whose listed calls fail.
fn empty(alloc: Global, fails: &[u64]) -> Result<MemDisk, Fail> {
    Ok(MemDisk::new(alloc, &[], fails.to_vec(alloc)?)?)
}

#[test]
fn a_disk_is_formatted_once(rt: HostRuntime) -> Result<(), Fail> {
    let mut disk = empty(rt.alloc(), &[])?;
    assert_eq!(rt; init_disk(&mut disk, &plan(323)), Ok(()));
    let Ok(layout) = read_identity(&mut disk) else {
        return Err("no identity".into());
    };
    assert_eq!(rt; layout.data_pages, 3);
    assert_eq!(rt; layout.root, 323);
    let Ok(checkpoint) = newest(&mut disk, &layout) else {
        return Err("no checkpoint".into());
    };
    assert_eq!(rt; checkpoint.number, 1);
    assert_eq!(rt; checkpoint.start.block, 1);
    assert!(rt; checkpoint.quiet);
    let again = init_disk(&mut disk, &plan(323));
    assert_eq!(rt; again, Err(Status::AlreadyFormatted));
    Ok(())
}

#[test]
fn a_root_needs_its_pages(rt: HostRuntime) -> Result<(), Fail> {
    let mut disk = empty(rt.alloc(), &[])?;
    let small = Status::TooSmall {
        pages: 322,
        needed: 323,
    };
    assert_eq!(rt; init_disk(&mut disk, &plan(322)), Err(small));
    assert_eq!(rt; init_disk(&mut disk, &InitPlan::defaults()), Ok(()));
    Ok(())
}

#[test]
fn a_call_that_fails_is_told(rt: HostRuntime) -> Result<(), Fail> {
    for call in [1, 4, 330, 335] {
        let mut disk = empty(rt.alloc(), &[call])?;
        let failed = init_disk(&mut disk, &plan(323));
        assert_eq!(rt; failed, Err(Status::DiskFault), "{call}");
    }
    Ok(())
}

// The bytes of the rows in the first four slots of page 2, none where a slot is empty, after a script over a disk that was formatted.
fn slots_after(alloc: Global, script: &[u8]) -> Result<Vec<Vec<u8>>, Fail> {
    let mut disk = empty(alloc, &[])?;
    if init_disk(&mut disk, &plan(323)).is_err() {
        return Err("not formatted".into());
    }
    let mut ended = run(alloc, disk, script)?;
    if ended.status != Status::Done {
        return Err("another status".into());
    }
    let Ok(opened) = open_log(alloc, &mut ended.disk) else {
        return Err("not opened".into());
    };
    let mut slots = Vec::new(alloc);
    for row in [513, 514, 515, 516] {
        match opened.replay.row_at(row) {
            None => slots.push(Vec::new(alloc))?,
            Some(bytes) => slots.push(bytes.to_vec(alloc)?)?,
        }
    }
    Ok(slots)
}

// The row that key 1 gets takes the slot that the transaction emptied; one that is rolled back leaves each row where it was; and a slot
// that a transaction emptied is the next one's.
const SCRIPTS: [(&[u8], [&[u8]; 4]); 3] = [
    (
        b"CREATE TABLE t (k INTEGER, v INTEGER)\nINSERT INTO t VALUES (1, 10)\nINSERT INTO t VALUES (2, 20)\nBEGIN\nDELETE FROM t WHERE k = 1\nINSERT INTO t VALUES (1, 11)\nINSERT INTO t VALUES (1, 12)\nCOMMIT",
        [b"\0\0\0\x01\0\0\0\x0B", b"\0\0\0\x02\0\0\0\x14", b"", b""],
    ),
    (
        b"CREATE TABLE t (k INTEGER, v INTEGER)\nINSERT INTO t VALUES (1, 10)\nINSERT INTO t VALUES (2, 20)\nBEGIN\nDELETE FROM t WHERE k = 1\nINSERT INTO t VALUES (3, 30)\nDELETE FROM t WHERE k = 2\nROLLBACK\nINSERT INTO t VALUES (4, 40)",
        [
            b"\0\0\0\x01\0\0\0\x0A",
            b"\0\0\0\x02\0\0\0\x14",
            b"\0\0\0\x04\0\0\0\x28",
            b"",
        ],
    ),
    (
        b"CREATE TABLE t (k INTEGER, v INTEGER)\nINSERT INTO t VALUES (1, 10)\nINSERT INTO t VALUES (2, 20)\nDELETE FROM t WHERE k = 1\nBEGIN\nINSERT INTO t VALUES (3, 30)\nDELETE FROM t WHERE k = 3\nINSERT INTO t VALUES (4, 40)\nDELETE FROM t WHERE k = 4\nINSERT INTO t VALUES (5, 50)\nCOMMIT",
        [b"\0\0\0\x05\0\0\0\x32", b"\0\0\0\x02\0\0\0\x14", b"", b""],
    ),
];

#[test]
fn rows_take_the_least_slot_that_is_theirs(rt: HostRuntime) -> Result<(), Fail> {
    for (script, rows) in SCRIPTS {
        let slots = slots_after(rt.alloc(), script)?;
        for (slot, row) in slots.iter().zip(rows.iter()) {
            assert_eq!(rt; slot.as_slice(), *row, "{script:?}");
        }
    }
    Ok(())
}

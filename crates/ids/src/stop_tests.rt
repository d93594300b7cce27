//! Stops: what the next run finds at each moment of a run, with each kind of what a stop leaves; and a log that is full.
ghost use Rattle.std.specs.Prelude.{◌≤◌, IfOk};
ghost use Rattle.ids_engine.specs.Plans.{IsPlan};

use crate::runs::{Run, run};
use ids_base::status::Status;
use ids_engine::{InitPlan, init_disk};
use ids_model::journal::Committed;
use ids_outside::{Disk, Leave, MemDisk, is_image};
use std::alloc::Global;
use std::process::Abort;
use std::test::Fail;

// A small disk: 24 blocks of log, and so many pages of data.
fn plan(data_pages: u32) -> InitPlan
    requires some { 2 ≤ data_pages }
    requires few { data_pages ≤ 4 }
    ensures { IsPlan result }
{
    InitPlan {
        phys: 16,
        logs: 3,
        log_size: 8,
        chunks: 1,
        data_pages,
        root: 43,
    }
}

fn formatted(alloc: Global, data_pages: u32) -> Result<MemDisk, Fail>
    requires some { 2 ≤ data_pages }
    requires few { data_pages ≤ 4 }
{
    let mut disk = MemDisk::new(alloc, &[], Vec::new(alloc))?;
    match init_disk(&mut disk, &plan(data_pages)) {
        Ok(()) => Ok(disk),
        Err(_) => Err("not formatted".into()),
    }
}

// What a script prints over the disk as a stop left it.
fn found(
    alloc: Global,
    disk: &MemDisk,
    moment: u64,
    leave: Leave,
    script: &[u8],
) -> Result<Run, Fail> {
    if moment > disk.moment() {
        return Err("a later moment".into());
    }
    let image = disk.left_at(alloc, moment, leave)?;
    if !is_image(&image) {
        return Err("no image".into());
    }
    run(
        alloc,
        MemDisk::from_image(alloc, image, Vec::new(alloc)),
        script,
    )
}

// The moment of a disk, of few.
fn last_moment(disk: &MemDisk) -> Result<u64, Fail>
    ensures { IfOk result (λ moment. moment ≤ 1000) }
{
    let moment = disk.moment();
    if moment > 1000 {
        return Err("many moments".into());
    }
    Ok(moment)
}

const KINDS: [Leave; 4] = [Leave::Old, Leave::New, Leave::Half, Leave::Torn(165)];

const FIRST: &[u8] =
    b"CREATE TABLE t (k INTEGER, c CHAR(4))\nBEGIN WORK\nINSERT INTO t VALUES (7, 'ab')\nSELECT * FROM t WHERE k = 7\nCOMMIT WORK";

// Whether the entry with this number, counted from 0, was acknowledged by a moment.
fn is_acknowledged(journal: &[Committed], index: usize, moment: u64) -> bool {
    let Some(entry) = journal.get(index) else {
        return false;
    };
    match entry.acked {
        Some(acked) => acked <= moment,
        None => false,
    }
}

// How many of the two transactions of the first script the text of a look at key 7 tells.
fn transactions(text: &[u8]) -> Option<u64> {
    match text {
        b"1.1 error no table\n" => Some(0),
        b"1.1 rows 0\n" => Some(1),
        b"1.1 7|ab|\n1.1 rows 1\n" => Some(2),
        _ => None,
    }
}

// How many of the first script's transactions a stop at this moment must leave.
fn promised(journal: &[Committed], moment: u64) -> u64 {
    if is_acknowledged(journal, 1, moment) {
        2
    } else if is_acknowledged(journal, 0, moment) {
        1
    } else {
        0
    }
}

// The most transactions of the first script that stops from a moment on leave. None leaves fewer than were acknowledged.
fn most_left(alloc: Global, ended: &Run, from: u64) -> Result<u64, Fail> {
    let mut most = 0;
    for moment in from..last_moment(&ended.disk)? + 1 {
        for kind in KINDS {
            let looks = b"SELECT * FROM t WHERE k = 7";
            let again = found(alloc, &ended.disk, moment, kind, looks)?;
            if again.status != Status::Done {
                return Err("another status".into());
            }
            let Some(there) = transactions(again.out.taken()) else {
                return Err("another text".into());
            };
            if there < promised(ended.journal.as_slice(), moment) {
                return Err("a transaction is lost".into());
            }
            most = most.max(there);
        }
    }
    Ok(most)
}

#[test]
fn stopped_at_each_moment(rt: HostRuntime) -> Result<(), Fail> {
    let alloc = rt.alloc();
    let disk = formatted(alloc, 4)?;
    let entry = disk.moment();
    let ended = run(alloc, disk, FIRST)?;
    assert_eq!(rt; ended.status, Status::Done);
    assert_eq!(rt; most_left(alloc, &ended, entry)?, 2);
    Ok(())
}

// Writes the identity page's first bytes again, without a sync.
fn write_again(disk: &mut MemDisk) -> Result<(), Fail> {
    if disk.pages(0) == 0 {
        return Err("no root".into());
    }
    let mut bytes = [0; 8];
    if disk.read(0, 0, &mut bytes).is_err() || disk.write_at(0, 0, &bytes).is_err() {
        return Err("the disk failed".into());
    }
    Ok(())
}

#[test]
fn something_pending_at_entry(rt: HostRuntime) -> Result<(), Fail> {
    let alloc = rt.alloc();
    let mut disk = formatted(alloc, 4)?;
    write_again(&mut disk)?;
    let entry = last_moment(&disk)?;
    let ended = run(alloc, disk, FIRST)?;
    assert_eq!(rt; ended.status, Status::Done);
    let torn = found(alloc, &ended.disk, entry, Leave::Torn(165), b"BEGIN WORK")?;
    assert_ne!(rt; torn.status, Status::Done, "the write may be torn");
    assert_eq!(rt; most_left(alloc, &ended, entry + 1)?, 2);
    Ok(())
}

const ROLLED: &[u8] =
    b"BEGIN WORK\nDELETE FROM t WHERE k = 7\nINSERT INTO t VALUES (8, 'cd')\nROLLBACK WORK\nINSERT INTO t VALUES (9, 'ef')";

#[test]
fn a_rollback_stopped_at_each_moment(rt: HostRuntime) -> Result<(), Fail> {
    let alloc = rt.alloc();
    let first = run(alloc, formatted(alloc, 4)?, FIRST)?;
    let entry = first.disk.moment();
    let ended = run(alloc, first.disk, ROLLED)?;
    assert_eq!(rt; ended.status, Status::Done);
    assert_eq!(rt; ended.journal.len(), 1);
    for moment in entry..last_moment(&ended.disk)? + 1 {
        for kind in KINDS {
            let looks = b"SELECT * FROM t WHERE k = 7\nSELECT * FROM t WHERE k = 8";
            let again = found(alloc, &ended.disk, moment, kind, looks)?;
            assert_eq!(rt; again.status, Status::Done, "{moment}");
            assert_eq!(rt;
                again.out.taken(),
                b"1.1 7|ab|\n1.1 rows 1\n1.2 rows 0\n".as_slice(),
                "{moment}"
            );
        }
    }
    Ok(())
}

#[test]
fn a_disk_that_is_full(rt: HostRuntime) -> Result<(), Fail> {
    let alloc = rt.alloc();
    let create = "CREATE TABLE t (k INTEGER, c CHAR(796))\n";
    let script = lines(alloc, create, "INSERT INTO t VALUES (", ", 'x')\n", 3)?;
    let ended = run(alloc, formatted(alloc, 2)?, script.as_bytes())?;
    assert_eq!(rt; ended.status, Status::Done);
    assert_eq!(rt;
        ended.out.taken(),
        b"1.1 created\n1.2 rows 1\n1.3 rows 1\n1.4 error no space rows 2 pages 1\n".as_slice()
    );
    Ok(())
}

// A line for each key from 1 to a last one, between two texts.
fn lines(alloc: Global, first: &str, before: &str, behind: &str, last: u32) -> Result<String, Fail>
    requires { last ≤ 100 }
{
    let mut text = String::from_str(alloc, first)?;
    for key in 1..last + 1 {
        text.push_str(before)?;
        text.push_str(&format!(in alloc; "{key}")?)?;
        text.push_str(behind)?;
    }
    Ok(text)
}

#[test]
fn a_log_that_is_full(rt: HostRuntime) -> Result<(), Fail> {
    let alloc = rt.alloc();
    let create = "CREATE TABLE t (k INTEGER, v INTEGER)\n";
    let script = lines(alloc, create, "INSERT INTO t VALUES (", ", 0)\n", 23)?;
    let ended = run(alloc, formatted(alloc, 4)?, script.as_bytes())?;
    assert_eq!(rt; ended.status, Status::LogFull);
    assert_eq!(rt; ended.given.len(), 23, "the table and 22 rows");
    assert!(rt;
        ended
            .out
            .taken()
            .ends_with(b"\n1.23 rows 1\nids: 13 log full\n")
    );
    let looks = lines(alloc, "", "SELECT * FROM t WHERE k = ", "\n", 23)?;
    let again = run(alloc, ended.disk, looks.as_bytes())?;
    assert_eq!(rt; again.status, Status::Done);
    assert!(rt;
        again
            .out
            .taken()
            .ends_with(b"1.22 22|0|\n1.22 rows 1\n1.23 rows 0\n")
    );
    Ok(())
}

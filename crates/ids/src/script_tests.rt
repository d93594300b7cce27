//! The worked rows: scripts with the text that they give over a disk that `init` formatted, what is there when a disk is opened again,
//! and the statuses of disks, sources, sinks and words that fail.
ghost use Rattle.std.specs.Prelude.{[]};

use crate::runs::{Run, run, run_from, run_word};
use ids_base::reply::Reply;
use ids_base::status::{Status, Why};
use ids_outside::{MemDisk, MemSink, MemSource, Source, SourceFault};
use ids_server::printer::Printer;
use ids_server::text::put_reply;
use std::alloc::Global;
use std::process::Abort;
use std::test::Fail;

// A disk without pages, whose listed calls fail.
fn empty(alloc: Global, fails: &[u64]) -> Result<MemDisk, Fail> {
    Ok(MemDisk::new(alloc, &[], fails.to_vec(alloc)?)?)
}

// Runs the first script over a disk, from a source whose listed calls fail, into a sink whose listed calls fail.
fn run_first(
    alloc: Global,
    disk: MemDisk,
    source_fails: &[u64],
    sink_fails: &[u64],
) -> Result<Run, Fail> {
    let mut source = MemSource::new(FIRST.to_vec(alloc)?, source_fails.to_vec(alloc)?);
    run_from(alloc, "run", &mut source, disk, sink_fails)
}

// A disk that `init` formatted.
fn formatted(alloc: Global) -> Result<MemDisk, Fail> {
    let ended = run_word(alloc, "init", empty(alloc, &[])?, b"")?;
    Ok(ended.disk)
}

const FIRST: &[u8] =
    b"CREATE TABLE t (k INTEGER, c CHAR(4))\nBEGIN WORK\nINSERT INTO t VALUES (7, 'ab')\nSELECT * FROM t WHERE k = 7\nCOMMIT WORK";

// A script, the text that it gives, and how many transactions it commits.
struct Worked {
    name: &'static str,
    script: &'static [u8],
    text: &'static [u8],
    entries: usize,
}

// Each over a disk that was just formatted.
const ALONE: [Worked; 14] = [
    Worked {
        name: "the first script",
        script: FIRST,
        text: b"1.1 created\n1.2 begun\n1.3 rows 1\n1.4 7|ab|\n1.4 rows 1\n1.5 committed\n",
        entries: 2,
    },
    Worked {
        name: "an empty script",
        script: b"",
        text: b"",
        entries: 0,
    },
    Worked {
        name: "a script of blanks and a comment",
        script: b"\n  -- nothing\n\t\r\n",
        text: b"",
        entries: 0,
    },
    Worked {
        name: "transactions that begin and end",
        script: b"BEGIN\nCOMMIT\nCOMMIT\nBEGIN\nBEGIN\nROLLBACK",
        text: b"1.1 begun\n1.2 committed\n1.3 error -255\n1.4 begun\n1.5 error -535\n1.6 rolled back\n",
        entries: 1,
    },
    Worked {
        name: "refused statements",
        script: b"CREATE TABLE t (k INTEGER)\ncreate table T (k integer);\nINSERT INTO t VALUES (1)\nINSERT INTO t VALUES (1)",
        text: b"1.1 created\n1.2 error table exists\n1.3 rows 1\n1.4 error duplicate\n",
        entries: 4,
    },
    Worked {
        name: "no table, and a key that is too long",
        script: b"SELECT * FROM nobody WHERE k = 1\nCREATE TABLE t (k CHAR(33))",
        text: b"1.1 error no table\n1.2 error bad shape\n",
        entries: 2,
    },
    Worked {
        name: "shapes of tables",
        script: b"CREATE TABLE t (k CHAR(0))\nCREATE TABLE t (k CHAR(33))\nCREATE TABLE t (k INTEGER, k INTEGER)\nCREATE TABLE t (k INTEGER, c CHAR(0))\nCREATE TABLE t (k INTEGER, c CHAR(797))",
        text: b"1.1 error bad shape\n1.2 error bad shape\n1.3 error bad shape\n1.4 error bad shape\n1.5 error bad shape\n",
        entries: 5,
    },
    Worked {
        name: "shapes of tables that are as large as may be",
        script: b"CREATE TABLE t (a INTEGER, b INTEGER, c INTEGER, d INTEGER, e INTEGER, f INTEGER, g INTEGER, h INTEGER, i INTEGER, j INTEGER, k INTEGER, l INTEGER, m INTEGER, n INTEGER, o INTEGER, p INTEGER, q INTEGER)\nCREATE TABLE t (k INTEGER, c CHAR(796))\nCREATE TABLE u (k CHAR(32), c CHAR(1))",
        text: b"1.1 error bad shape\n1.2 created\n1.3 created\n",
        entries: 3,
    },
    Worked {
        name: "shapes of rows",
        script: b"CREATE TABLE t (k INTEGER, c CHAR(2))\nINSERT INTO t VALUES (7)\nINSERT INTO t VALUES (7, 'a', 1)\nINSERT INTO t VALUES (7, 7)\nINSERT INTO t VALUES ('7', 'a')\nINSERT INTO t VALUES (7, 'abc')\nINSERT INTO t VALUES (7, 'ab   ')",
        text: b"1.1 created\n1.2 error bad shape\n1.3 error bad shape\n1.4 error bad shape\n1.5 error bad shape\n1.6 error bad shape\n1.7 rows 1\n",
        entries: 7,
    },
    Worked {
        name: "shapes of conditions",
        script: b"CREATE TABLE t (k INTEGER, c CHAR(2))\nSELECT * FROM t WHERE z = 7\nSELECT * FROM t WHERE k = '7'\nSELECT * FROM t WHERE c = 7\nSELECT * FROM t WHERE c = 'abc'\nSELECT * FROM t WHERE c = 'ab'\nDELETE FROM t WHERE z = 4\nDELETE FROM u WHERE k = 4\nINSERT INTO u VALUES (4)",
        text: b"1.1 created\n1.2 error bad shape\n1.3 error bad shape\n1.4 error bad shape\n1.5 error bad shape\n1.6 rows 0\n1.7 error bad shape\n1.8 error no table\n1.9 error no table\n",
        entries: 9,
    },
    Worked {
        name: "rows in the order of their keys",
        script: b"CREATE TABLE t (k INTEGER, v INTEGER)\nINSERT INTO t VALUES (3, 1)\nINSERT INTO t VALUES (-5, 1)\nINSERT INTO t VALUES (2147483647, 1)\nINSERT INTO t VALUES (0, 1)\nINSERT INTO t VALUES (-2147483647, 1)\nSELECT * FROM t WHERE v = 1",
        text: b"1.1 created\n1.2 rows 1\n1.3 rows 1\n1.4 rows 1\n1.5 rows 1\n1.6 rows 1\n1.7 -2147483647|1|\n1.7 -5|1|\n1.7 0|1|\n1.7 3|1|\n1.7 2147483647|1|\n1.7 rows 5\n",
        entries: 7,
    },
    Worked {
        name: "values as they are printed",
        script: b"CREATE TABLE t (k INTEGER, c CHAR(9))\nINSERT INTO t VALUES (-2147483647, 'a|b\\c''d ')\nSELECT * FROM t WHERE k = -2147483647",
        text: b"1.1 created\n1.2 rows 1\n1.3 -2147483647|a\\|b\\\\c'd|\n1.3 rows 1\n",
        entries: 3,
    },
    Worked {
        name: "rows that go by their key",
        script: b"CREATE TABLE t (k INTEGER, v INTEGER)\nINSERT INTO t VALUES (1, 10)\nINSERT INTO t VALUES (2, 20)\nBEGIN\nDELETE FROM t WHERE k = 1\nINSERT INTO t VALUES (1, 11)\nINSERT INTO t VALUES (1, 12)\nCOMMIT",
        text: b"1.1 created\n1.2 rows 1\n1.3 rows 1\n1.4 begun\n1.5 rows 1\n1.6 rows 1\n1.7 error duplicate\n1.8 committed\n",
        entries: 4,
    },
    Worked {
        name: "rows that go by another column",
        script: b"CREATE TABLE t (k INTEGER, v INTEGER)\nINSERT INTO t VALUES (1, 7)\nINSERT INTO t VALUES (2, 8)\nINSERT INTO t VALUES (3, 7)\nDELETE FROM t WHERE v = 7\nDELETE FROM t WHERE k = 4\nSELECT * FROM t WHERE v = 7\nSELECT * FROM t WHERE v = 8",
        text: b"1.1 created\n1.2 rows 1\n1.3 rows 1\n1.4 rows 1\n1.5 rows 2\n1.6 rows 0\n1.7 rows 0\n1.8 2|8|\n1.8 rows 1\n",
        entries: 8,
    },
];

// The script is run to its end over this disk; the disk as it is left.
fn gives(rt: &impl Abort, alloc: Global, disk: MemDisk, worked: &Worked) -> Result<MemDisk, Fail> {
    let ended = run(alloc, disk, worked.script)?;
    assert_eq!(rt; ended.status, Status::Done, "{}", worked.name);
    assert_eq!(rt; ended.out.taken(), worked.text, "{}", worked.name);
    assert_eq!(rt; ended.journal.len(), worked.entries, "{}", worked.name);
    Ok(ended.disk)
}

#[test]
fn scripts_give_their_text(rt: HostRuntime) -> Result<(), Fail> {
    for worked in &ALONE {
        gives(&rt, rt.alloc(), formatted(rt.alloc())?, worked)?;
    }
    Ok(())
}

// One after another over a disk that was formatted.
fn follow(rt: &impl Abort, alloc: Global, scripts: &[Worked]) -> Result<(), Fail> {
    let mut disk = formatted(alloc)?;
    for worked in scripts {
        disk = gives(rt, alloc, disk, worked)?;
    }
    Ok(())
}

// A sink that took the lines of this reply to statement 3.
fn printed(alloc: Global, reply: &Reply) -> MemSink {
    let mut printer = Printer::new(alloc, MemSink::new(alloc, Vec::new(alloc)));
    put_reply(&mut printer, 1, 3, reply);
    printer.flush();
    printer.into_sink()
}

#[test]
fn a_reply_that_there_is_no_room(rt: HostRuntime) {
    let full = Reply::NoSpace {
        rows: 446,
        pages: 2,
    };
    let sink = printed(rt.alloc(), &full);
    assert_eq!(rt;
        sink.taken(),
        b"1.3 error no space rows 446 pages 2\n".as_slice()
    );
}

// The run ends with this status, and the sink took this line.
fn refuses(rt: &impl Abort, ended: Run, status: Status, line: &[u8]) {
    assert_eq!(rt; ended.status, status);
    assert_eq!(rt; ended.out.taken(), line);
}

#[test]
fn words_and_scripts_that_are_none(rt: HostRuntime) -> Result<(), Fail> {
    let alloc = rt.alloc();
    let ended = run_word(alloc, "sprint", empty(alloc, &[])?, FIRST)?;
    refuses(&rt, ended, Status::BadWords, b"ids: 1 bad words\n");
    let mut longer = FIRST.to_vec(alloc)?;
    longer.extend_from_slice(b"\nUPDATE t SET c = 'x'")?;
    let ended = run(alloc, empty(alloc, &[])?, longer.as_slice())?;
    let bad = Status::BadScript {
        byte: 120,
        why: Why::Wrong,
    };
    refuses(&rt, ended, bad, b"ids: 2 bad script at byte 120 wrong\n");
    Ok(())
}

#[test]
fn disks_sources_and_sinks_that_fail(rt: HostRuntime) -> Result<(), Fail> {
    let alloc = rt.alloc();
    let ended = run_first(alloc, formatted(alloc)?, &[1], &[])?;
    refuses(&rt, ended, Status::SourceFault, b"ids: 6 source fault\n");
    let ended = run_first(alloc, formatted(alloc)?, &[], &[1])?;
    refuses(&rt, ended, Status::SinkFault, b"");
    let ended = run_word(alloc, "init", empty(alloc, &[1])?, b"")?;
    refuses(&rt, ended, Status::DiskFault, b"ids: 3 disk fault\n");
    Ok(())
}

#[test]
fn disks_that_are_formatted_or_not(rt: HostRuntime) -> Result<(), Fail> {
    let alloc = rt.alloc();
    let zeros = MemDisk::new(alloc, &[3, 2], Vec::new(alloc))?;
    let ended = run(alloc, zeros, FIRST)?;
    refuses(&rt, ended, Status::NotFormatted, b"ids: 8 not formatted\n");
    let ended = run_word(alloc, "init", empty(alloc, &[])?, b"")?;
    assert_eq!(rt; ended.status, Status::Done);
    let ended = run_word(alloc, "init", ended.disk, b"")?;
    refuses(
        &rt,
        ended,
        Status::AlreadyFormatted,
        b"ids: 10 already formatted\n",
    );
    Ok(())
}

const COMMITTED: [Worked; 2] = [
    Worked {
        name: "a row that is committed, and one that is not",
        script: b"CREATE TABLE t (k INTEGER, c CHAR(4))\nINSERT INTO t VALUES (7, 'ab')\nBEGIN WORK\nINSERT INTO t VALUES (8, 'cd')",
        text: b"1.1 created\n1.2 rows 1\n1.3 begun\n1.4 rows 1\n",
        entries: 2,
    },
    Worked {
        name: "what is there again",
        script: b"SELECT * FROM t WHERE k = 7\nSELECT * FROM t WHERE k = 8",
        text: b"1.1 7|ab|\n1.1 rows 1\n1.2 rows 0\n",
        entries: 2,
    },
];

#[test]
fn what_was_committed_is_there_again(rt: HostRuntime) -> Result<(), Fail> {
    follow(&rt, rt.alloc(), &COMMITTED)
}

const TAKEN_BACK: [Worked; 3] = [
    Worked {
        name: "a rollback",
        script: b"CREATE TABLE t (k INTEGER)\nINSERT INTO t VALUES (1)\nBEGIN\nCREATE TABLE u (k INTEGER)\nINSERT INTO u VALUES (5)\nDELETE FROM t WHERE k = 1\nROLLBACK\nSELECT * FROM t WHERE k = 1\nSELECT * FROM u WHERE k = 5",
        text: b"1.1 created\n1.2 rows 1\n1.3 begun\n1.4 created\n1.5 rows 1\n1.6 rows 1\n1.7 rolled back\n1.8 1|\n1.8 rows 1\n1.9 error no table\n",
        entries: 4,
    },
    Worked {
        name: "an end within a transaction",
        script: b"SELECT * FROM t WHERE k = 1\nSELECT * FROM u WHERE k = 5\nBEGIN\nCREATE TABLE u (k INTEGER)\nDELETE FROM t WHERE k = 1",
        text: b"1.1 1|\n1.1 rows 1\n1.2 error no table\n1.3 begun\n1.4 created\n1.5 rows 1\n",
        entries: 2,
    },
    Worked {
        name: "what is there after both",
        script: b"SELECT * FROM t WHERE k = 1\nSELECT * FROM u WHERE k = 5",
        text: b"1.1 1|\n1.1 rows 1\n1.2 error no table\n",
        entries: 2,
    },
];

#[test]
fn what_was_taken_back_is_there_again(rt: HostRuntime) -> Result<(), Fail> {
    follow(&rt, rt.alloc(), &TAKEN_BACK)
}

// A source that never ends, and does not tell its bytes.
#[derive(Drop)]
struct Endless;

impl Source for Endless {
    ghost tells = { ⊥ };

    ghost left = { λ s. [] };

    ghost fault_count = { λ s. 0 };

    fn read(&mut self, into: &mut [u8]) -> Result<usize, SourceFault> {
        Ok(into.len())
    }
}

#[test]
fn a_source_that_never_ends(rt: HostRuntime) -> Result<(), Fail> {
    let alloc = rt.alloc();
    let ended = run_from(alloc, "run", &mut Endless, empty(alloc, &[])?, &[])?;
    assert_eq!(rt; ended.status, Status::TooLong);
    assert_eq!(rt; ended.out.taken(), b"ids: 7 script too long\n".as_slice());
    Ok(())
}

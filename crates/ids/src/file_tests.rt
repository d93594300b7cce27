//! The calls that the program makes, over files of the folder that it is run in.

use crate::runs::run_word;
use ids_base::status::Status;
use ids_outside::{FileDisk, MemSink};
use ids_server::server::Ended;
use std::fs;
use std::test::Fail;

// Runs a word with a script over the folder's files.
fn run(rt: &HostRuntime, word: &str, script: &[u8]) -> Result<Ended<FileDisk, MemSink>, Fail> {
    run_word(rt.alloc(), word, FileDisk::new(rt), script)
}

#[test]
fn tables_outlive_the_run_in_files(rt: HostRuntime) -> Result<(), Fail> {
    for name in ["root.chk", "data1.chk"] {
        let _ = fs::remove_file(&rt, name);
    }
    assert_eq!(rt; run(&rt, "run", b"")?.status, Status::NotFormatted);
    assert_eq!(rt; run(&rt, "init", b"")?.status, Status::Done);
    assert_eq!(rt; run(&rt, "init", b"")?.status, Status::AlreadyFormatted);
    let first = run(
        &rt,
        "run",
        b"CREATE TABLE t (k INTEGER, c CHAR(4))\nBEGIN WORK\nINSERT INTO t VALUES (7, 'ab')\nCOMMIT WORK",
    )?;
    assert_eq!(rt; first.status, Status::Done);
    assert_eq!(rt;
        first.out.taken(),
        b"1.1 created\n1.2 begun\n1.3 rows 1\n1.4 committed\n".as_slice()
    );
    // The disk of the first run is still in use.
    assert_eq!(rt; run(&rt, "run", b"")?.status, Status::DiskFault);
    drop(first);
    let second = run(&rt, "run", b"SELECT * FROM t WHERE k = 7")?;
    assert_eq!(rt; second.out.taken(), b"1.1 7|ab|\n1.1 rows 1\n".as_slice());
    Ok(())
}

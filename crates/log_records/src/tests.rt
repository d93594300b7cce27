use crate::block_body::{BlockBody, put};
use crate::body_bytes::{body_from_bytes, body_to_bytes};
use crate::change::Change;
use crate::laws::{bodies_are_read, bodies_are_spelled, one_reading, sizes_are_lengths};
use crate::record::Record;
use crate::taking::take;
use crate::view::RecordView;
use ids_base::row_bytes::RowBytes;
use ids_base::row_id::RowId;
use std::alloc::Global;
use std::test::Fail;

const ROW: [u8; 8] = [0, 0, 0, 7, 97, 98, 32, 32];

const OTHER_ROW: [u8; 8] = [0, 0, 0, 8, 97, 98, 99, 32];

const BEGIN: [u8; 15] = [0, 15, 1, 0, 0, 0, 0, 0, 0, 0, 2, 0, 0, 0, 1];

const COMMIT: [u8; 11] = [0, 11, 2, 0, 0, 0, 0, 0, 0, 0, 2];

const ROLLBACK: [u8; 11] = [0, 11, 3, 0, 0, 0, 0, 0, 0, 0, 2];

const INSERT: [u8; 29] = [
    0, 29, 4, 0, 0, 0, 0, 0, 0, 0, 2, 0, 0, 0, 100, 0, 0, 2, 1, 0, 8, 0, 0, 0, 7, 97, 98, 32, 32,
];

const DELETE: [u8; 29] = [
    0, 29, 5, 0, 0, 0, 0, 0, 0, 0, 2, 0, 0, 0, 100, 0, 0, 2, 1, 0, 8, 0, 0, 0, 7, 97, 98, 32, 32,
];

const UPDATE: [u8; 37] = [
    0, 37, 6, 0, 0, 0, 0, 0, 0, 0, 2, 0, 0, 0, 100, 0, 0, 2, 1, 0, 8, 0, 0, 0, 7, 97, 98, 32, 32,
    0, 0, 0, 8, 97, 98, 99, 32,
];

const CHECKPOINT: [u8; 49] = [
    0, 49, 7, 0, 0, 0, 0, 0, 0, 0, 0, 0, 2, 0, 0, 0, 0, 0, 0, 0, 2, 0, 0, 0, 0, 0, 0, 0, 1, 0, 0,
    0, 0, 0, 0, 0, 0, 0, 3, 0, 0, 0, 0, 0, 0, 0, 2, 0, 5,
];

fn no_bytes() -> [u8; 2047] {
    [0; 2047]
}

fn bytes_of(body: &BlockBody) -> Option<[u8; 2047]> {
    if body.is_empty() {
        return None;
    }
    let mut into = no_bytes();
    body_to_bytes(body, &mut into);
    Some(into)
}

// Begin, insert and commit of transaction 2, in block 2.
fn worked_body(alloc: Global) -> Result<BlockBody, Fail> {
    let mut body = BlockBody::new(1);
    body.set_number(2);
    let after = RowBytes::new(alloc, &ROW)?;
    let row = RowId { page: 2, slot: 1 };
    let records = [
        Record::Begin { tx: 2, session: 1 },
        Record::HInsert {
            tx: 2,
            table: 100,
            row,
            after,
        },
        Record::Commit { tx: 2 },
    ];
    for record in &records {
        if !put(record.view(), &mut body) {
            return Err("it fits")?;
        }
    }
    Ok(body)
}

#[test]
fn worked_block(rt: HostRuntime) -> Result<(), Fail> {
    let body = worked_body(rt.alloc())?;
    assert_eq!(rt; (body.number(), body.used(), body.count()), (2, 55, 3));
    let bytes = bytes_of(&body).ok_or("it has records")?;
    let header: [u8; 12] = [0, 0, 0, 0, 0, 0, 0, 2, 0, 55, 0, 3];
    assert_eq!(rt; &bytes[..12], header.as_slice());
    assert_eq!(rt; &bytes[12..27], BEGIN.as_slice());
    assert_eq!(rt; &bytes[27..56], INSERT.as_slice());
    assert_eq!(rt; &bytes[56..67], COMMIT.as_slice());
    assert!(rt; bytes[67..].iter().all(|b| *b == 0));
    let read = body_from_bytes(&bytes).ok_or("it is a body")?;
    assert_eq!(rt; (read.number(), read.used(), read.count()), (2, 55, 3));
    let mut records = read.cursor();
    for size in [15, 29, 11] {
        let view = records.next().ok_or("it has three records")?;
        assert_eq!(rt; (view.tx(), view.size()), (2, size));
    }
    assert!(rt; records.next().is_none());
    Ok(())
}

fn is_read_with(bytes: &[u8; 2047], at: usize, byte: u8) -> bool {
    let mut edited = *bytes;
    if at < 2047 {
        edited[at] = byte;
    }
    body_from_bytes(&edited).is_some()
}

#[test]
fn what_is_no_body(rt: HostRuntime) -> Result<(), Fail> {
    let bytes = bytes_of(&worked_body(rt.alloc())?).ok_or("it has records")?;
    let edits = [
        (7, 3, true),
        (9, 54, false),
        (9, 56, false),
        (11, 2, false),
        (11, 4, false),
        (13, 14, false),
        (67, 1, false),
        (2015, 1, false),
        (2016, 1, false),
        (2046, 1, false),
        (66, 3, true),
    ];
    for (at, byte, reads) in edits {
        assert_eq!(rt; is_read_with(&bytes, at, byte), reads, "{byte} at {at}");
    }
    assert!(rt; body_from_bytes(&no_bytes()).is_none());
    Ok(())
}

fn filled(begins: u32, commits: u32) -> BlockBody {
    let mut body = BlockBody::new(1);
    for session in 0..begins {
        let _ = put(RecordView::Begin { tx: 2, session }, &mut body);
    }
    for _ in 0..commits {
        let _ = put(RecordView::Commit { tx: 2 }, &mut body);
    }
    body
}

#[test]
fn a_body_takes_2004_bytes(rt: HostRuntime) -> Result<(), Fail> {
    let mut body = filled(6, 173);
    assert!(rt; body.has_room(11) && !body.has_room(12));
    assert!(rt; put(RecordView::Rollback { tx: 2 }, &mut body));
    assert_eq!(rt; (body.used(), body.count()), (2004, 180));
    assert!(rt; !put(RecordView::Rollback { tx: 2 }, &mut body));
    let read = body_from_bytes(&bytes_of(&body).ok_or("it has records")?).ok_or("it is a body")?;
    assert_eq!(rt; read.count(), 180);
    let mut body = filled(9, 169);
    assert_eq!(rt; body.used(), 1994);
    assert!(rt; !put(RecordView::Rollback { tx: 2 }, &mut body));
    assert_eq!(rt; (body.used(), body.count()), (1994, 178));
    Ok(())
}

// How many bytes are taken, and whether a copy of the record is spelled by them.
fn taken(alloc: Global, bytes: &[u8]) -> Result<Option<(usize, bool)>, Fail> {
    let Some((record, size)) = take(alloc, bytes)? else {
        return Ok(None);
    };
    let copy = record.copy(alloc)?;
    let mut body = BlockBody::new(1);
    if !put(copy.view(), &mut body) || size > bytes.len() {
        return Ok(None);
    }
    let spelled = bytes_of(&body).ok_or("it has a record")?;
    let same = spelled[12..].starts_with(&bytes[..size]);
    Ok(Some((size, same && copy.view().size() as usize == size)))
}

#[test]
fn records_are_taken(rt: HostRuntime) -> Result<(), Fail> {
    let whole = [
        (BEGIN.as_slice(), 15),
        (COMMIT.as_slice(), 11),
        (ROLLBACK.as_slice(), 11),
        (INSERT.as_slice(), 29),
        (DELETE.as_slice(), 29),
        (UPDATE.as_slice(), 37),
        (CHECKPOINT.as_slice(), 49),
    ];
    for (bytes, size) in whole {
        assert_eq!(rt; taken(rt.alloc(), bytes)?, Some((size, true)), "{bytes:?}");
        let followed = [bytes, BEGIN.as_slice()].concat(rt.alloc())?;
        assert_eq!(rt;
            taken(rt.alloc(), &followed)?,
            Some((size, true)),
            "{bytes:?}"
        );
        if let Some((_, cut)) = bytes.split_last() {
            assert_eq!(rt; taken(rt.alloc(), cut)?, None, "{cut:?}");
        }
    }
    Ok(())
}

fn is_taken_with(alloc: Global, bytes: &[u8], at: usize, byte: u8) -> Result<bool, Fail> {
    let mut edited = bytes.to_vec(alloc)?;
    if at < edited.len() {
        edited[at] = byte;
    }
    Ok(take(alloc, &edited)?.is_some())
}

#[test]
fn what_is_no_record(rt: HostRuntime) -> Result<(), Fail> {
    let edits = [
        (BEGIN.as_slice(), 1, 14, false),
        (BEGIN.as_slice(), 1, 16, false),
        (BEGIN.as_slice(), 2, 0, false),
        (BEGIN.as_slice(), 2, 8, false),
        (BEGIN.as_slice(), 10, 0, true),
        (INSERT.as_slice(), 20, 7, false),
        (INSERT.as_slice(), 20, 9, false),
        (COMMIT.as_slice(), 1, 12, false),
        (CHECKPOINT.as_slice(), 10, 1, false),
        (CHECKPOINT.as_slice(), 12, 1, false),
        (CHECKPOINT.as_slice(), 20, 3, false),
        (CHECKPOINT.as_slice(), 20, 4, false),
        (CHECKPOINT.as_slice(), 20, 0, true),
    ];
    for (bytes, at, byte, is_one) in edits {
        assert_eq!(rt;
            is_taken_with(rt.alloc(), bytes, at, byte)?,
            is_one,
            "{byte} at {at} of {bytes:?}"
        );
    }
    Ok(())
}

#[test]
fn a_change_is_spelled_and_copied(rt: HostRuntime) -> Result<(), Fail> {
    let change = Change {
        table: 100,
        row: RowId { page: 2, slot: 1 },
        before: Some(RowBytes::new(rt.alloc(), &ROW)?),
        after: Some(RowBytes::new(rt.alloc(), &OTHER_ROW)?),
    };
    let copy = change.view().to_change(rt.alloc())?;
    let mut body = BlockBody::new(1);
    let view = RecordView::Change {
        tx: 2,
        change: copy.view(),
    };
    assert!(rt; put(view, &mut body));
    let bytes = bytes_of(&body).ok_or("it has a record")?;
    assert_eq!(rt; &bytes[12..49], UPDATE.as_slice());
    Ok(())
}

#[test]
fn laws_stand() {
    one_reading();
    sizes_are_lengths();
    bodies_are_read();
    bodies_are_spelled();
}

// Blocks over a disk in memory, through the bound that callers have.
ghost use Rattle.std.specs.Prelude.{◌≤◌, ◌+◌, IsTrue};

use super::*;
use ids_outside::{Disk, DiskFault, Leave, MemDisk, is_image};
use std::test::Fail;

const REGION: Region = Region {
    chunk: 1,
    first: 1,
    count: 3,
};

// Whether a disk has the pages of the region.
fn lies<D: Disk>(disk: &D, region: &Region) -> bool
    ensures { IsTrue result → region.now.first + region.now.count ≤ D.size disk.now region.now.chunk }
{
    region.first as u64 + region.count as u64 <= disk.pages(region.chunk) as u64
}

// Clears a region, and writes and opens blocks from its second one on.
fn write_some<D: Disk>(
    disk: &mut D,
    region: &Region,
    bodies: &[[u8; 2047]; 2],
) -> Result<(), DiskFault>
    requires fits { 3 ≤ region.now.count }
    requires lies { region.now.first + region.now.count ≤ D.size disk.old region.now.chunk }
{
    disk.sync()?;
    clear(disk, region)?;
    write_bodies(disk, region, 1, bodies)?;
    open_gates(disk, region, 1, 2)
}

// The first bytes of the bodies of the last two blocks, where they are open, and whether all their bytes are the same.
fn seen<D: Disk>(disk: &mut D, region: &Region) -> Result<[Option<u8>; 2], DiskFault>
    requires fits { 3 ≤ region.now.count }
    requires lies { region.now.first + region.now.count ≤ D.size disk.old region.now.chunk }
{
    let mut seen = [None; 2];
    let mut body = [9; 2047];
    if read_open(disk, region, 1, &mut body)? {
        seen[0] = Some(whole(&body));
    }
    if read_open(disk, region, 2, &mut body)? {
        seen[1] = Some(whole(&body));
    }
    Ok(seen)
}

// The byte that a body is made of, and 0 where it is made of several.
fn whole(body: &[u8; 2047]) -> u8 {
    let first = body[0];
    if body.iter().all(|byte| *byte == first) {
        first
    } else {
        0
    }
}

// Which of the two blocks are seen whole: 0 for none, 1 the first, 2 the second and 3 both; and 4 for something else.
fn state(seen: [Option<u8>; 2]) -> usize {
    if seen == [None, None] {
        0
    } else if seen == [Some(5), None] {
        1
    } else if seen == [None, Some(6)] {
        2
    } else if seen == [Some(5), Some(6)] {
        3
    } else {
        4
    }
}

#[test]
fn each_stop_leaves_whole_bodies(rt: HostRuntime) -> Result<(), Fail> {
    let alloc = rt.alloc();
    let mut disk = MemDisk::new(alloc, &[0, 4], Vec::new(alloc))?;
    assert!(rt; lies(&disk, &REGION));
    assert_eq!(rt;
        write_some(&mut disk, &REGION, &[[5; 2047], [6; 2047]]),
        Ok(())
    );
    assert!(rt; lies(&disk, &REGION));
    assert_eq!(rt; seen(&mut disk, &REGION), Ok([Some(5), Some(6)]));
    let mut states = [false; 4];
    for moment in 0..=disk.moment() {
        for leave in [
            Leave::Old,
            Leave::New,
            Leave::Half,
            Leave::Torn(0xA5),
            Leave::Torn(0),
        ] {
            let image = disk.left_at(alloc, moment, leave)?;
            assert!(rt; is_image(&image));
            let mut left = MemDisk::from_image(alloc, image, Vec::new(alloc));
            assert!(rt; lies(&left, &REGION));
            let found = state(seen(&mut left, &REGION).unwrap_or([Some(0); 2]));
            assert!(rt; found < 4, "at {moment} {leave:?}");
            states[found] = true;
        }
    }
    assert_eq!(rt; states, [true; 4]);
    Ok(())
}

#[test]
fn only_one_byte_opens_a_block(rt: HostRuntime) -> Result<(), Fail> {
    let alloc = rt.alloc();
    for (gate, is_open) in [
        (0, false),
        (1, false),
        (0xA4, false),
        (0xA5, true),
        (0xFF, false),
    ] {
        let mut disk = MemDisk::new(alloc, &[1], Vec::new(alloc))?;
        let region = Region {
            chunk: 0,
            first: 0,
            count: 1,
        };
        assert!(rt; lies(&disk, &region));
        assert!(rt; disk.write_at(0, 2047, &[gate]).is_ok());
        let mut body = [9; 2047];
        assert_eq!(rt; read_open(&mut disk, &region, 0, &mut body), Ok(is_open));
        assert_eq!(rt; whole(&body), 0);
    }
    Ok(())
}

#[test]
fn gates_that_are_closed_are_not_written(rt: HostRuntime) -> Result<(), Fail> {
    let alloc = rt.alloc();
    let mut disk = MemDisk::new(alloc, &[0, 4], Vec::new(alloc))?;
    assert!(rt; lies(&disk, &REGION));
    assert_eq!(rt;
        write_some(&mut disk, &REGION, &[[5; 2047], [6; 2047]]),
        Ok(())
    );
    let before = disk.moment();
    assert!(rt; clear_last(&mut disk).is_ok());
    // Two syncs and one write.
    assert_eq!(rt; disk.moment(), before.wrapping_add(3));
    assert!(rt; lies(&disk, &REGION));
    assert_eq!(rt; seen(&mut disk, &REGION), Ok([Some(5), None]));
    Ok(())
}

// Closes the gate of the last block, twice.
fn clear_last<D: Disk>(disk: &mut D) -> Result<(), DiskFault> {
    disk.sync()?;
    if !lies(disk, &REGION) {
        return Err(DiskFault);
    }
    clear_some(disk, &REGION, 2, 1)
}

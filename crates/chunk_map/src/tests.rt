// The map over a disk in memory, through the bound that callers have.
ghost use Rattle.chunk_map.specs.Layouts.{IsLayout, HasPages};

use super::*;
use ids_base::memory::Memory;
use ids_base::position::LogPos;
use ids_base::status::Place;
use ids_outside::{Disk, DiskFault, Leave, MemDisk, is_image};
use std::alloc::Global;
use std::test::Fail;

const SMALL: Layout = Layout {
    phys: 16,
    logs: 3,
    log_size: 8,
    chunks: 1,
    data_pages: 2,
    root: 43,
};

fn small_disk(alloc: Global) -> Result<MemDisk, Memory> {
    MemDisk::new(alloc, &[43, 2], Vec::new(alloc))
}

// Writes the identity, and the first checkpoint page.
fn format<D: Disk>(disk: &mut D, layout: &Layout) -> Result<(), MapFault>
    requires ranges { IsLayout layout.now }
    requires lies { HasPages (D.size disk.old) layout.now }
{
    disk.sync()?;
    write_identity(disk, layout)?;
    let Err(MapFault::NotFormatted) = newest(disk, layout) else {
        return Err(MapFault::Disk);
    };
    let page = CheckpointPage {
        number: 1,
        quiet: true,
        start: LogPos { block: 1, index: 0 },
    };
    write_next(disk, layout, &page)?;
    Ok(())
}

// Writes the checkpoint page that comes next, and answers its number.
fn advance<D: Disk>(disk: &mut D, layout: &Layout) -> Result<u64, MapFault>
    requires ranges { IsLayout layout.now }
    requires lies { HasPages (D.size disk.old) layout.now }
{
    disk.sync()?;
    let last = newest(disk, layout)?;
    let Some(number) = last.number.checked_add(1) else {
        return Err(MapFault::Disk);
    };
    let page = CheckpointPage {
        number,
        quiet: false,
        start: LogPos {
            block: last.start.block,
            index: 7,
        },
    };
    write_next(disk, layout, &page)?;
    Ok(number)
}

// The number of the newest checkpoint page of the layout that a disk says, and 0 where there is none.
fn newest_number<D: Disk>(disk: &mut D) -> Result<u64, MapFault> {
    let layout = read_identity(disk)?;
    Ok(newest(disk, &layout)?.number)
}

// Whether a chunk has these bytes at a place.
fn has<D: Disk>(disk: &mut D, offset: u64, bytes: &[u8; 32]) -> bool {
    if disk.pages(0) < 3 || offset > 6000 {
        return false;
    }
    let mut read = [0; 32];
    disk.read(0, offset, &mut read).is_ok() && read == *bytes
}

#[test]
fn pages_have_their_bytes(rt: HostRuntime) -> Result<(), Fail> {
    let alloc = rt.alloc();
    let mut disk = MemDisk::new(alloc, &[323, 1024], Vec::new(alloc))?;
    let layout = Layout::defaults();
    assert!(rt; layout.is_in_range());
    assert!(rt; has_pages(&disk, &layout));
    assert_eq!(rt; format(&mut disk, &layout), Ok(()));
    let identity =
        *b"IDSR\x00\x01\x00\x00\x00\x40\x00\x00\x00\x04\x00\x00\x00\x40\x00\x00\x00\x01\x00\x00\x04\x00\x00\x00\x01\x43\x00\x00";
    assert!(rt; has(&mut disk, 0, &identity));
    let first =
        *b"\x00\x00\x00\x00\x00\x00\x00\x01\x00\x00\x00\x00\x00\x00\x00\x00\x01\x00\x00\x00\x00\x00\x00\x00\x00\x00\x00\x00\x00\x00\x00\x00";
    assert!(rt; has(&mut disk, 2048, &first));
    assert!(rt; has_pages(&disk, &layout));
    assert_eq!(rt; advance(&mut disk, &layout), Ok(2));
    let second =
        *b"\x00\x00\x00\x00\x00\x00\x00\x02\x01\x00\x00\x00\x00\x00\x00\x00\x01\x00\x07\x00\x00\x00\x00\x00\x00\x00\x00\x00\x00\x00\x00\x00";
    assert!(rt; has(&mut disk, 4096, &second));
    let gates =
        *b"\x00\x00\x00\x00\x00\x00\x00\x00\x00\x00\x00\x00\x00\x00\x00\x00\x00\x00\x00\x00\x00\x00\x00\x00\x00\x00\x00\x00\x00\x00\x00\xA5";
    assert!(rt; has(&mut disk, 2016, &gates) && has(&mut disk, 4064, &gates));
    assert_eq!(rt; read_identity(&mut disk), Ok(layout));
    Ok(())
}

// Writes bytes into the root.
fn spoil<D: Disk>(disk: &mut D, offset: u64, bytes: &[u8; 2]) -> Result<(), DiskFault> {
    if disk.pages(0) < 3 || offset > 6000 {
        return Err(DiskFault);
    }
    disk.write_at(0, offset, bytes)
}

#[test]
fn each_page_is_read_exactly(rt: HostRuntime) -> Result<(), Fail> {
    let alloc = rt.alloc();
    let none = Err(MapFault::NotFormatted);
    let identity = Err(MapFault::Damaged(Place::Identity));
    let first = Err(MapFault::Damaged(Place::Checkpoint(1)));
    let second = Err(MapFault::Damaged(Place::Checkpoint(2)));
    let mut zeros = small_disk(alloc)?;
    assert_eq!(rt; newest_number(&mut zeros), none);
    let mut short = MemDisk::new(alloc, &[1], Vec::new(alloc))?;
    assert_eq!(rt; newest_number(&mut short), none);
    // Page 1 has number 7, and page 2 number 6.
    for (offset, bytes, want) in [
        (2100, [0, 0], Ok(7)),
        (0, *b"XD", none),
        (2046, [0, 0xA4], none),
        // Format 2, phys 17 with no page for it, a byte that must be zero.
        (4, [0, 2], identity),
        (8, [0, 17], identity),
        (30, [1, 0], identity),
        (2044, [0, 1], identity),
        // Page 1 with an even number, number 9, a third kind, start block 0, and closed.
        (2054, [0, 8], first),
        (2054, [0, 9], Ok(9)),
        (2056, [2, 0], first),
        (2063, [0, 0], first),
        (4094, [0, 0], Ok(6)),
        // Page 2 with an odd number, a greater number, and a byte that must be zero.
        (4102, [0, 5], second),
        (4102, [0, 8], Ok(8)),
        (6000, [0, 1], second),
    ] {
        let mut disk = small_disk(alloc)?;
        assert!(rt; SMALL.is_in_range());
        assert!(rt; has_pages(&disk, &SMALL));
        assert_eq!(rt; format(&mut disk, &SMALL), Ok(()));
        for number in 2..8 {
            assert!(rt; has_pages(&disk, &SMALL));
            assert_eq!(rt; advance(&mut disk, &SMALL), Ok(number));
        }
        assert!(rt; spoil(&mut disk, offset, &bytes).is_ok());
        assert!(rt; newest_number(&mut disk) == want, "at {offset}");
    }
    Ok(())
}

#[test]
fn each_stop_leaves_the_old_page_or_the_new(rt: HostRuntime) -> Result<(), Fail> {
    let alloc = rt.alloc();
    let mut disk = small_disk(alloc)?;
    assert!(rt; SMALL.is_in_range());
    assert!(rt; has_pages(&disk, &SMALL));
    assert_eq!(rt; format(&mut disk, &SMALL), Ok(()));
    assert!(rt; has_pages(&disk, &SMALL));
    assert_eq!(rt; advance(&mut disk, &SMALL), Ok(2));
    let before = disk.moment();
    assert!(rt; has_pages(&disk, &SMALL));
    assert_eq!(rt; advance(&mut disk, &SMALL), Ok(3));
    let mut seen = [false; 4];
    for moment in before..=disk.moment() {
        for leave in [
            Leave::Old,
            Leave::New,
            Leave::Half,
            Leave::Torn(0xA5),
            Leave::Torn(0),
        ] {
            let image = disk.left_at(alloc, moment, leave)?;
            assert!(rt; is_image(&image));
            let mut left = MemDisk::from_image(alloc, image, Vec::new(alloc));
            let number = newest_number(&mut left).unwrap_or(0) as usize;
            assert!(rt; number == 2 || number == 3, "at {moment} {leave:?}");
            seen[number] = true;
        }
    }
    assert_eq!(rt; seen, [false, false, true, true]);
    Ok(())
}

// Each object through the bounds that the server has.
use super::*;
use std::alloc::{AllocError, Global};
use std::fs;
use std::io::{self, ErrorKind, Read, Write};
use std::marker::Brand;
use std::test::Fail;

// Reads the script to its end and writes it, in pieces of three bytes, past each fault.
fn copy<S: Source, K: Sink>(script: &mut S, out: &mut K) -> (u64, u64) {
    let mut source_faults = 0u64;
    let mut sink_faults = 0u64;
    for _ in 0..20 {
        let mut piece = [0; 3];
        match script.read(&mut piece) {
            Ok(0) => break,
            Ok(count) if count <= 3 => {
                for _ in 0..3 {
                    if out.write(&piece[..count]).is_ok() {
                        break;
                    }
                    sink_faults = sink_faults.saturating_add(1);
                }
            }
            _ => source_faults = source_faults.saturating_add(1),
        }
    }
    (source_faults, sink_faults)
}

// All five, as a server is given them.
fn server<D: Disk + Send, S: Source, K: Sink + Send, G: Gate + Sync>(
    script: &mut S,
    disk: D,
    mut out: K,
    gate: &G,
) -> (D, K, [u64; 6]) {
    gate.at(0, Point::Turn);
    gate.at(1, Point::Parse);
    gate.at(2, Point::Filter);
    let (source_faults, sink_faults) = copy(script, &mut out);
    let counts = [
        source_faults,
        sink_faults,
        out.faults(),
        disk.faults(),
        disk.moment(),
        disk.pages(1) as u64,
    ];
    (disk, out, counts)
}

fn mem_source(alloc: Global, bytes: &[u8], fails: &[u64]) -> Result<MemSource, AllocError> {
    Ok(MemSource::new(bytes.to_vec(alloc)?, fails.to_vec(alloc)?))
}

#[test]
fn memory_serves(rt: HostRuntime) -> Result<(), Fail> {
    let alloc = rt.alloc();
    // The second and fourth read fail, and the first and third write.
    let mut script = mem_source(alloc, b"abcdefgh", &[4, 2])?;
    let out = MemSink::new(alloc, [1, 3].to_vec(alloc)?);
    let disk = MemDisk::new(alloc, &[3, 5], Vec::new(alloc))?;
    let (_disk, out, counts) = server(&mut script, disk, out, &OpenGate);
    assert_eq!(rt; counts, [2, 2, 2, 0, 0, 5]);
    assert_eq!(rt; script.faults(), 2);
    assert_eq!(rt; out.taken(), b"abcdefgh".as_slice());
    Ok(())
}

#[test]
fn without_failures(rt: HostRuntime) -> Result<(), Fail> {
    let alloc = rt.alloc();
    let mut script = mem_source(alloc, b"", &[])?;
    let mut out = MemSink::new(alloc, Vec::new(alloc));
    let mut piece = [7; 4];
    assert_eq!(rt; script.read(&mut piece), Ok(0));
    assert_eq!(rt; out.write(b""), Ok(0));
    assert_eq!(rt; out.write(b"xy"), Ok(2));
    assert_eq!(rt; out.taken(), b"xy".as_slice());
    Ok(())
}

#[test]
fn streams_serve(rt: HostRuntime) -> Result<(), Fail> {
    let alloc = rt.alloc();
    let mut script = StdSource::new(&rt, b"one two".as_slice());
    let out = StdSink::new(&rt, Vec::new(alloc));
    let (disk, _out, counts) = server(&mut script, FileDisk::new(&rt), out, &OpenGate);
    assert_eq!(rt; counts, [0, 0, 0, 0, 0, 0]);
    assert_eq!(rt; disk.pages(9), 0);
    Ok(())
}

#[test]
fn a_write_of_nothing_is_a_fault(rt: HostRuntime) -> Result<(), Fail> {
    let mut room = [0; 2];
    let mut out = StdSink::new(&rt, room.as_mut_slice());
    assert_eq!(rt; out.write(b"abc"), Ok(2));
    assert_eq!(rt; out.write(b"c"), Err(SinkFault));
    assert_eq!(rt; out.write(b""), Ok(0));
    assert_eq!(rt; out.faults(), 1);
    Ok(())
}

// Whatever standard input has goes to standard output.
#[test]
fn standard_streams(rt: HostRuntime) -> Result<(), Fail> {
    let mut script = StdSource::new(&rt, rt.reader());
    let out = StdSink::new(&rt, rt.stdout());
    let (_disk, out, _counts) = server(&mut script, FileDisk::new(&rt), out, &OpenGate);
    assert_eq!(rt; out.faults(), 0);
    Ok(())
}

#[test]
fn faults_have_texts(rt: HostRuntime) -> Result<(), Fail> {
    let alloc = rt.alloc();
    assert_eq!(rt;
        format!(in alloc; "{SourceFault}, {SinkFault}, {DiskFault}")?.as_str(),
        "the source failed, the sink failed, the disk failed"
    );
    Ok(())
}

// Chunk 0 has 1 2 3 from place 10 on, synced, and then 7 8 from place 11 on and a 9 in chunk 1, which grows.
fn write_some<D: Disk>(disk: &mut D) -> Result<(), DiskFault> {
    if disk.pages(0) < 1 || disk.pages(1) < 1 {
        return Err(DiskFault);
    }
    disk.write_at(0, 10, &[1, 2, 3])?;
    disk.sync()?;
    disk.write_at(0, 11, &[7, 8])?;
    disk.write_at(1, 0, &[9])?;
    disk.grow(1, 2)
}

fn seen(image: &Vec<Vec<u8>>) -> Option<([u8; 3], u8, usize, u8)> {
    let root = image.get(0)?;
    let data = image.get(1)?;
    let three = [*root.get(10)?, *root.get(11)?, *root.get(12)?];
    Some((three, *data.get(0)?, data.len(), *data.last()?))
}

#[test]
fn a_stop_leaves_what_it_may(rt: HostRuntime) -> Result<(), Fail> {
    let alloc = rt.alloc();
    let mut disk = MemDisk::new(alloc, &[2, 1], Vec::new(alloc))?;
    assert_eq!(rt; write_some(&mut disk), Ok(()));
    assert_eq!(rt; disk.moment(), 5);
    for (moment, leave, want) in [
        (5, Leave::Old, ([1, 2, 3], 0, 2048, 0)),
        (5, Leave::New, ([1, 7, 8], 9, 4096, 0)),
        (5, Leave::Half, ([1, 2, 3], 9, 4096, 0)),
        (5, Leave::Torn(238), ([1, 238, 238], 238, 4096, 238)),
        (4, Leave::New, ([1, 7, 8], 9, 2048, 0)),
        (2, Leave::Torn(238), ([1, 2, 3], 0, 2048, 0)),
        (1, Leave::Torn(238), ([238, 238, 238], 0, 2048, 0)),
        (0, Leave::New, ([0, 0, 0], 0, 2048, 0)),
    ] {
        assert!(rt; moment <= disk.moment());
        let image = disk.left_at(alloc, moment, leave)?;
        assert_eq!(rt; image.len(), 9);
        assert!(rt; is_image(&image));
        assert!(rt; seen(&image) == Some(want), "at {moment} {leave:?}");
    }
    Ok(())
}

#[test]
fn an_image_is_a_disk(rt: HostRuntime) -> Result<(), Fail> {
    let alloc = rt.alloc();
    let root = vec![in alloc; 5; 2048]?;
    let image = vec![in alloc; root]?;
    assert!(rt; is_image(&image));
    let mut disk = MemDisk::from_image(alloc, image, [2].to_vec(alloc)?);
    assert_eq!(rt; disk.pages(0), 1);
    assert_eq!(rt; disk.pages(8), 0);
    let mut page = [0; 4];
    assert!(rt; disk.read(0, 2044, &mut page).is_ok());
    assert_eq!(rt; page, [5; 4]);
    assert!(rt; disk.grow(8, 3).is_err());
    assert_eq!(rt; disk.faults(), 1);
    assert!(rt; disk.grow(8, 3).is_ok());
    assert_eq!(rt; disk.pages(8), 3);
    assert!(rt; disk.grow(9, 1).is_err());
    Ok(())
}

// A stream whose first call is interrupted, whose second would block, and whose fifth fails.
#[derive(Drop)]
struct Shaky {
    calls: u64,
}

impl Shaky {
    fn next(&mut self) -> io::Result<usize> {
        self.calls = self.calls.saturating_add(1);
        match self.calls {
            1 => Err(io::Error::from(ErrorKind::Interrupted)),
            2 => Err(io::Error::from(ErrorKind::WouldBlock)),
            5 => Err(io::Error::from(ErrorKind::BrokenPipe)),
            _ => Ok(1),
        }
    }
}

impl Read for Shaky {
    fn read(&mut self, into: &mut [u8]) -> io::Result<usize> {
        let count = self.next()?;
        into.fill(7);
        Ok(count.min(into.len()))
    }
}

impl Write for Shaky {
    fn write(&mut self, bytes: &[u8]) -> io::Result<usize> {
        Ok(self.next()?.min(bytes.len()))
    }

    fn flush(&mut self) -> io::Result<()> {
        Ok(())
    }
}

#[test]
fn what_passes_is_no_fault(rt: HostRuntime) -> Result<(), Fail> {
    let mut script = StdSource::new(&rt, Shaky { calls: 0 });
    let mut out = StdSink::new(&rt, Shaky { calls: 0 });
    for _ in 0..2 {
        let mut piece = [0; 2];
        assert_eq!(rt; script.read(&mut piece), Ok(1));
        assert_eq!(rt; piece[0], 7);
        assert_eq!(rt; out.write(b"xy"), Ok(1));
    }
    assert_eq!(rt; out.faults(), 0);
    assert_eq!(rt; script.read(&mut [0; 2]), Err(SourceFault));
    assert_eq!(rt; out.write(b"xy"), Err(SinkFault));
    assert_eq!(rt; out.faults(), 1);
    Ok(())
}

// Takes away what another test left in the folder.
fn clear_folder(rt: &HostRuntime) {
    for name in ["root.chk", "data6.chk", "data7.chk"] {
        let _ = fs::remove_file(rt, name);
    }
}

// Two pages in chunk 7, with 1 2 3 across their edge.
fn write_two_pages(disk: &mut FileDisk) -> Result<(), DiskFault> {
    disk.grow(7, 2)?;
    if disk.pages(7) != 2 {
        return Err(DiskFault);
    }
    disk.write_at(7, 2046, &[1, 2, 3])?;
    disk.sync()?;
    disk.grow(6, 0)
}

#[test]
fn files_are_a_disk(rt: HostRuntime) -> Result<(), Fail> {
    clear_folder(&rt);
    let mut disk = FileDisk::new(&rt);
    assert_eq!(rt; disk.pages(7), 0);
    assert_eq!(rt; write_two_pages(&mut disk), Ok(()));
    assert_eq!(rt; disk.moment(), 4);

    // The folder is one disk's at a time.
    let mut second = FileDisk::new(&rt);
    assert_eq!(rt; second.pages(0), 1);
    assert!(rt; second.read(0, 0, &mut [0; 4]).is_err());
    assert!(rt; second.write_at(0, 0, &[9]).is_err());
    assert!(rt; second.grow(7, 1).is_err());
    assert!(rt; second.sync().is_err());
    assert_eq!(rt; second.faults(), 4);
    drop(second);
    drop(disk);

    let mut again = FileDisk::new(&rt);
    assert!(rt; again.pages(7) == 2);
    let mut bytes = [7; 4];
    assert!(rt; again.read(7, 2045, &mut bytes).is_ok());
    assert_eq!(rt; bytes, [0, 1, 2, 3]);
    assert_eq!(rt; again.faults(), 0);
    drop(again);
    clear_folder(&rt);
    Ok(())
}

#[test]
fn a_disk_that_comes_late_writes_nothing(rt: HostRuntime) -> Result<(), Fail> {
    clear_folder(&rt);
    let mut late = FileDisk::new(&rt);
    let mut first = FileDisk::new(&rt);
    assert_eq!(rt; write_two_pages(&mut first), Ok(()));
    drop(first);
    assert!(rt; late.grow(7, 1).is_err());
    assert!(rt; late.sync().is_err());
    assert_eq!(rt; fs::metadata(&rt, "data7.chk")?.len(), 4096);
    drop(late);
    clear_folder(&rt);
    Ok(())
}

#[test]
fn laws_hold_of_each_disk() {
    laws::started::<MemDisk, Brand>();
    laws::goes_on::<FileDisk, Brand>();
    laws::torn::<MemDisk, Brand>();
    laws::stays::<MemDisk, Brand>();
    laws::seen_as::<MemDisk, Brand, Brand>();
    laws::then::<MemDisk, Brand, Brand, Brand>();
}

//! A disk whose chunks are files.
ghost use Rattle.std.specs.Prelude.{◌≡◌, ◌<◌, [], ℕ, slice_index};
ghost use Rattle.ids_outside.specs.Counts.{HasCause};

use crate::{Disk, DiskFault};
use ids_base::numbers::PAGE_BYTES;
use std::fs::{File, OpenFile, OpenOptions};
use std::marker::Model;
use std::os::unix::fs::FileExt;
use std::{fs, io};

const CHUNKS: usize = 9;

const PAGE: u64 = PAGE_BYTES as u64;

const ROOT: &str = "root.chk";

const NAMES: [&str; CHUNKS] = [
    ROOT,
    "data1.chk",
    "data2.chk",
    "data3.chk",
    "data4.chk",
    "data5.chk",
    "data6.chk",
    "data7.chk",
    "data8.chk",
];

// What a sync has to do for a file.
#[derive(Clone, Copy, Debug, Drop, PartialEq, Eq)]
enum Unsynced {
    Nothing,
    Bytes,
    Length,
}

// A chunk: its file where it is open, and what is not synced yet.
#[derive(Drop)]
struct Chunk {
    file: Option<File>,
    unsynced: Unsynced,
}

// Whether this disk has the folder to itself, by the exclusive lock on the file of chunk 0.
#[derive(Clone, Copy, Debug, Drop, PartialEq, Eq)]
enum Access {
    // The lock is held, to the end of the process or of the disk.
    Locked,
    // There was no such file; `grow` makes it and locks it, before anything is written.
    Unmade,
    // The lock could not be had: nothing is read or written.
    Refused,
}

/// A disk whose chunks are the files `root.chk` and `data1.chk` to `data8.chk` of the current folder. It tells nothing of
/// their bytes.
///
/// It locks `root.chk` exclusively as it opens or makes it, and keeps the lock to its end, so that of all disks of a folder only one
/// reads or writes at a time. The system takes the lock back where the process ends, however it ends. Where another disk holds the
/// lock, each call is a fault that is counted, and the files are left alone. The lock is advisory (`flock`): a program that does not
/// ask for it, such as a copy, is not held up.
#[derive(Drop)]
pub struct FileDisk {
    rt: HostRuntime,
    access: Access,
    chunks: [Chunk; CHUNKS],
    pages: [u32; CHUNKS],
    moment: u64,
    faults: u64,
}

impl Model for FileDisk {
    ghost use Rattle.ids_outside.specs.Memory.{FilesState};

    ghost Value = { FilesState };

    ghost view = { λ d. record { pages = d.pages; faults = d.faults; moment = d.moment } };
}

// The whole pages of a file, 0 of one that is not there.
fn pages_of(rt: &HostRuntime, name: &str) -> u32 {
    match fs::metadata(rt, name) {
        Ok(data) => u32::try_from(data.len() / PAGE).unwrap_or(u32::MAX),
        Err(_) => 0,
    }
}

// Opens a file that is there, to read and write, or else to read alone.
fn open(rt: &HostRuntime, name: &str) -> Option<File> {
    let both = OpenOptions::new().read(true).write(true).open(rt, name);
    both.or_else(|_| File::open(rt, name)).ok()
}

// Locks the file of chunk 0 where it is there.
fn lock_root(rt: &HostRuntime, root: &Chunk) -> Access {
    match &root.file {
        Some(file) if file.try_lock().is_ok() => Access::Locked,
        Some(_) => Access::Refused,
        None if fs::metadata(rt, ROOT).is_ok() => Access::Refused,
        None => Access::Unmade,
    }
}

// Makes the file of chunk 0, which is not to be there yet, and locks it. Where another disk came first, it is a fault: what was
// counted of the other files may be of before.
fn make_root(rt: &HostRuntime) -> io::Result<File> {
    let file = OpenOptions::new()
        .read(true)
        .write(true)
        .create_new(true)
        .open(rt, ROOT)?;
    file.try_lock()?;
    if file.metadata()?.len() > 0 {
        return Err(held());
    }
    Ok(file)
}

fn open_chunk(rt: &HostRuntime, name: &str) -> Chunk {
    // What another process made of it may not be synced.
    Chunk {
        file: open(rt, name),
        unsynced: Unsynced::Length,
    }
}

// Counts a fault where there is one.
fn counted(faults: &mut u64, done: io::Result<()>) -> Result<(), DiskFault>
    ensures { HasCause faults.old faults.new result }
{
    match done {
        Ok(()) => Ok(()),
        Err(_) => {
            *faults = faults.saturating_add(1);
            Err(DiskFault)
        }
    }
}

fn no_file() -> io::Result<()> {
    Err(io::Error::from(io::ErrorKind::NotFound))
}

fn held() -> io::Error {
    io::Error::from(io::ErrorKind::WouldBlock)
}

fn read_file(file: &Option<File>, offset: u64, into: &mut [u8]) -> io::Result<()> {
    match file {
        Some(file) => file.read_exact_at(into, offset),
        None => no_file(),
    }
}

fn write_file(chunk: &mut Chunk, offset: u64, bytes: &[u8]) -> io::Result<()> {
    if chunk.unsynced == Unsynced::Nothing {
        chunk.unsynced = Unsynced::Bytes;
    }
    match &chunk.file {
        Some(file) => file.write_all_at(bytes, offset),
        None => no_file(),
    }
}

// Makes a file longer, and makes it first where it is not there. What stood behind its whole pages goes, so that the new
// pages are zero.
fn lengthen(rt: &HostRuntime, chunk: &mut Chunk, name: &str, old: u32, new: u32) -> io::Result<()> {
    chunk.unsynced = Unsynced::Length;
    if chunk.file.is_none() {
        let made = OpenOptions::new()
            .read(true)
            .write(true)
            .create(true)
            .open(rt, name)?;
        chunk.file = Some(made);
    }
    match &chunk.file {
        Some(file) => {
            file.set_len(PAGE * old as u64)?;
            file.set_len(PAGE * new as u64)
        }
        None => no_file(),
    }
}

// Brings a file to the medium, and answers whether its folder is to follow.
fn sync_file(chunk: &Chunk) -> io::Result<bool> {
    match (&chunk.file, chunk.unsynced) {
        (None, _) | (_, Unsynced::Nothing) => Ok(false),
        (Some(file), Unsynced::Bytes) => {
            file.sync_data()?;
            Ok(false)
        }
        (Some(file), Unsynced::Length) => {
            file.sync_all()?;
            Ok(true)
        }
    }
}

// Brings each file to the medium, and the folder where a file was made or grew.
fn sync_files(rt: &HostRuntime, chunks: &mut [Chunk]) -> io::Result<()> {
    let mut folder = false;
    for chunk in chunks.iter() {
        if sync_file(chunk)? {
            folder = true;
        }
    }
    if folder {
        File::open(rt, ".")?.sync_all()?;
    }
    for chunk in chunks.iter_mut() {
        chunk.unsynced = Unsynced::Nothing;
    }
    Ok(())
}

// Makes a chunk longer. Before the first, the file of chunk 0 is made and locked.
fn grow_chunk(
    rt: &HostRuntime,
    access: &mut Access,
    chunks: &mut [Chunk; CHUNKS],
    i: usize,
    old: u32,
    new: u32,
) -> io::Result<()>
    requires { i < CHUNKS }
{
    if *access == Access::Unmade {
        *access = Access::Refused;
        chunks[0].file = Some(make_root(rt)?);
        *access = Access::Locked;
    }
    if *access == Access::Refused {
        return Err(held());
    }
    lengthen(rt, &mut chunks[i], NAMES[i], old, new)
}

// The pages that chunk 0 is said to have. What a disk that is refused has is not known; it says at least one, so that who asks
// comes to a call and its fault, and does not take the folder for an empty one.
fn root_pages(rt: &HostRuntime, access: Access) -> u32 {
    let least = if access == Access::Refused { 1 } else { 0 };
    pages_of(rt, ROOT).max(least)
}

impl FileDisk {
    /// The disk of the current folder. A file that is not there has 0 pages, and one whose length is no multiple of a page
    /// counts by its whole pages. Where another disk of this folder is in use, each call of this one is a fault.
    pub fn new(rt: &HostRuntime) -> FileDisk
        ensures moment { result.moment ≡ 0 }
        ensures faults { result.faults ≡ 0 }
    {
        let [a, b, c, d, e, f, g, h, i] = NAMES;
        let root = open_chunk(rt, a);
        // What the files have is looked at under the lock.
        let access = lock_root(rt, &root);
        FileDisk {
            rt: *rt,
            access,
            chunks: [
                root,
                open_chunk(rt, b),
                open_chunk(rt, c),
                open_chunk(rt, d),
                open_chunk(rt, e),
                open_chunk(rt, f),
                open_chunk(rt, g),
                open_chunk(rt, h),
                open_chunk(rt, i),
            ],
            pages: [
                root_pages(rt, access),
                pages_of(rt, b),
                pages_of(rt, c),
                pages_of(rt, d),
                pages_of(rt, e),
                pages_of(rt, f),
                pages_of(rt, g),
                pages_of(rt, h),
                pages_of(rt, i),
            ],
            moment: 0,
            faults: 0,
        }
    }
}

impl Disk for FileDisk {
    ghost use Rattle.std.specs.Prelude.{[], slice_index};

    ghost size = { λ d j. slice_index d.pages j };

    ghost now = { λ d. d.moment };

    ghost fault_count = { λ d. d.faults };

    ghost tells = { ⊥ };

    ghost image = { λ d. [] };

    ghost can_leave = { λ d c. ⊥ };

    ghost left_at = { λ d m c. ⊥ };

    ghost counts_now = { λ d c left. left };

    ghost only_now = { λ d c below left. left };

    ghost no_later = { λ d m c left. absurd left };

    ghost image_left = { λ d told. told };

    ghost left_tells = { λ d m c left. left };

    ghost left_images = { λ d m c left. absurd left };

    ghost image_size = { λ d j told. absurd told };

    fn pages(&self, chunk: u32) -> u32 {
        self.pages.get(chunk as usize).copied().unwrap_or(0)
    }

    fn moment(&self) -> u64 {
        self.moment
    }

    fn faults(&self) -> u64 {
        self.faults
    }

    fn read(&mut self, chunk: u32, offset: u64, into: &mut [u8]) -> Result<(), DiskFault> {
        let done = if self.access == Access::Refused {
            Err(held())
        } else if (chunk as usize) < CHUNKS {
            read_file(&self.chunks[chunk as usize].file, offset, into)
        } else {
            no_file()
        };
        counted(&mut self.faults, done)
    }

    fn write_at(&mut self, chunk: u32, offset: u64, bytes: &[u8]) -> Result<(), DiskFault> {
        self.moment = self.moment.saturating_add(1);
        let done = if self.access != Access::Locked {
            Err(held())
        } else if (chunk as usize) < CHUNKS {
            write_file(&mut self.chunks[chunk as usize], offset, bytes)
        } else {
            no_file()
        };
        counted(&mut self.faults, done)
    }

    fn grow(&mut self, chunk: u32, pages: u32) -> Result<(), DiskFault> {
        self.moment = self.moment.saturating_add(1);
        let i = chunk as usize;
        if i >= CHUNKS || self.access == Access::Refused {
            self.faults = self.faults.saturating_add(1);
            return Err(DiskFault);
        }
        let old = self.pages[i];
        if old < pages {
            let done = grow_chunk(&self.rt, &mut self.access, &mut self.chunks, i, old, pages);
            counted(&mut self.faults, done)?;
            self.pages[i] = pages;
        }
        Ok(())
    }

    fn sync(&mut self) -> Result<(), DiskFault> {
        self.moment = self.moment.saturating_add(1);
        let done = if self.access == Access::Refused {
            Err(held())
        } else {
            sync_files(&self.rt, &mut self.chunks)
        };
        counted(&mut self.faults, done)
    }
}

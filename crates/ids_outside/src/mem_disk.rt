//! A disk in memory, which keeps a record of its calls.
ghost use Rattle.std.specs.Prelude.{◌≡◌, ◌<◌, ◌≤◌, ◌^◌, ℕ, length, IsTrue, IfOk, if◌then◌else◌};
ghost use Rattle.ids_outside.specs.Images.{pages_of, IsImage};
ghost use Rattle.ids_outside.specs.MemoryDisk.{images, nine, state, all_by, CanLeave};

use crate::failures::Failures;
use crate::leave::{Leave, is_next_second, remake, synced_entries};
use crate::record::{Call, Entry, note, note_write};
use crate::{Disk, DiskFault, chunks};
use ids_base::memory::Memory;
use ids_base::numbers::PAGE_BYTES;
use std::alloc::Global;

/// A disk in memory. It keeps what it had at first and each call since, so that it tells what a stop could have left at
/// each moment. A call for whose record there is no memory fails.
#[derive(Drop)]
pub struct MemDisk {
    alloc: Global,
    // What a read gives. Chunks that are not there are empty.
    image: Vec<Vec<u8>>,
    // What it had at first, from the first change on.
    first: Vec<Vec<u8>>,
    started: bool,
    entries: Vec<Entry>,
    moment: u64,
    failures: Failures,
    ghost in_time: { IsTrue (all_by moment entries.items) },
    ghost few: { length image.items ≤ 9 },
    ghost first_few: { length first.items ≤ 9 },
    ghost small: { (j : ℕ) → pages_of (nine (images image.items)) j < 2 ^ 32 },
    // What a read gives is what the calls made of what it had at first, and a stop may leave it.
    ghost shown: { nine (images image.items) ≡ (state (nine (images (if started then first.items else image.items))) entries.items moment).shown },
    ghost left: { CanLeave (state (nine (images (if started then first.items else image.items))) entries.items moment) (nine (images image.items)) },
    ghost whole: { IsImage (nine (images (if started then first.items else image.items))) },
}

impl MemDisk {
    ghost use Rattle.std.specs.Prelude.{◌≡◌, IfOk};
    ghost use Rattle.ids_outside.specs.MemoryDisk.{images, IsMemoryImage};
    ghost use Rattle.ids_outside.specs.Held.{IsFresh, zero_image, could_leave, image_left_by, moment_of};

    /// A disk of zero pages with nothing pending, whose chunks have so many pages; numbers behind the ninth count for
    /// nothing. Its calls of `read`, `write_at`, `grow` and `sync` with the listed numbers, counted from 1, fail. Answers `Memory` only
    /// for want of memory, which it takes for the pages.
    pub fn new(alloc: Global, pages: &[u32], fails: Vec<u64>) -> Result<MemDisk, Memory>
        ensures { IfOk result (λ d. IsFresh d (zero_image pages.now) fails.items) }
    {
        let count = pages.len().min(chunks::CHUNKS);
        let image = chunks::zeros(alloc, &pages[..count])?;
        Ok(MemDisk::from_image(alloc, image, fails))
    }

    /// A disk of this image with nothing pending, whose calls with the listed numbers fail.
    pub fn from_image(alloc: Global, image: Vec<Vec<u8>>, fails: Vec<u64>) -> MemDisk
        requires { IsMemoryImage (images image.items) }
        ensures { IsFresh result (images image.items) fails.items }
    {
        MemDisk {
            alloc,
            image,
            first: Vec::new(alloc),
            started: false,
            entries: Vec::new(alloc),
            moment: 0,
            failures: Failures::new(fails),
        }
    }

    /// The image that a stop of this kind at this moment leaves, which is one that a stop could have left. Its cost is
    /// that of the calls up to the moment. Answers `Memory` only for want of memory, which it takes for an image.
    pub fn left_at(&self, alloc: Global, moment: u64, leave: Leave) -> Result<Vec<Vec<u8>>, Memory>
        requires { moment ≤ moment_of self.now }
        ensures may { IfOk result (λ image. could_leave self.now moment (images image.items)) }
        ensures left { IfOk result (λ image. images image.items ≡ image_left_by leave self.now moment) }
    {
        let mut image = first_image(alloc, &self.image, &self.first, self.started)?;
        let synced = synced_entries(&self.entries, moment);
        let mut second = false;
        for (i, entry) in self.entries.iter().enumerate() {
            if entry.moment <= moment {
                if i < synced {
                    remake(&mut image, &entry.call, Leave::New, second)?;
                } else {
                    remake(&mut image, &entry.call, leave, second)?;
                    second = is_next_second(second, &entry.call);
                }
            }
        }
        Ok(image)
    }
}

// What a disk had at first, nine chunks.
fn first_image(
    alloc: Global,
    image: &Vec<Vec<u8>>,
    first: &Vec<Vec<u8>>,
    started: bool,
) -> Result<Vec<Vec<u8>>, Memory>
    requires few { length image.now.items ≤ 9 }
    requires first_few { length first.now.items ≤ 9 }
    ensures { IfOk result (λ v. images v.items ≡ nine (images (if started then first.now.items else image.now.items))) }
{
    let source = if started { first } else { image };
    let mut copy = chunks::copied(alloc, source)?;
    chunks::pad(alloc, &mut copy)?;
    Ok(copy)
}

// Keeps what the disk had at first, before its first change, and answers whether there was memory for it.
fn start(
    alloc: Global,
    image: &mut Vec<Vec<u8>>,
    first: &mut Vec<Vec<u8>>,
    started: &mut bool,
) -> bool
    requires few { length image.old.items ≤ 9 }
    requires first_few { length first.old.items ≤ 9 }
    ensures same { nine (images image.new.items) ≡ nine (images image.old.items) }
    ensures first { nine (images (if started.new then first.new.items else image.new.items)) ≡ nine (images (if started.old then first.old.items else image.old.items)) }
    ensures few { length image.new.items ≤ 9 }
    ensures first_few { length first.new.items ≤ 9 }
    ensures full { IsTrue result → length image.new.items ≡ 9 }
    ensures on { IsTrue result → IsTrue started.new }
{
    if chunks::pad(alloc, image).is_err() {
        return false;
    }
    if *started {
        return true;
    }
    match chunks::copied(alloc, image) {
        Ok(copy) => {
            *first = copy;
            *started = true;
            true
        }
        Err(_) => false,
    }
}

impl Disk for MemDisk {
    ghost use Rattle.std.specs.Prelude.{◌≡◌, ◌≤◌, ◌+◌, ◌*◌, ◌↔◌, ℕ, length, IsTrue, IsErr, OnOk};
    ghost use Rattle.std.proofs.Common.{le_refl};
    ghost use Rattle.ids_outside.specs.Counts.{HasCause, Rose, next_count};
    ghost use Rattle.ids_outside.specs.Images.{bytes_of, pages_of, Torn, Written, Grown, Extended};
    ghost use Rattle.ids_outside.specs.Stops.{Follows, AreAmong, Only, Elapses};
    ghost use Rattle.ids_outside.specs.Memory.{is_listed};
    ghost use Rattle.ids_outside.specs.Held.{image_of, can_leave_now, could_leave, moment_of, faults_of, calls_of, listed_of};

    ghost size = { λ d j. pages_of (image_of d) j };

    ghost now = { λ d. moment_of d };

    ghost fault_count = { λ d. faults_of d };

    ghost tells = { Unit {0} };

    ghost image = { λ d. image_of d };

    ghost can_leave = { λ d c. can_leave_now d c };

    ghost left_at = { λ d m c. could_leave d m c };

    ghost counts_now = { λ d c left. (le_refl (moment_of d), left) };

    ghost only_now = { λ d c below left. left.1 };

    ghost no_later = { λ d m c left. left.0 };

    ghost image_left = { λ d told. d.left };

    ghost left_tells = { λ d m c left. tt };

    ghost left_images = { λ d m c left. left.1.image };

    ghost image_size = { λ d j told. d.left.image.pages j };

    fn pages(&self, chunk: u32) -> u32 {
        if chunk as usize >= self.image.len() {
            return 0;
        }
        let bytes = &self.image[chunk as usize];
        (bytes.len() / PAGE_BYTES) as u32
    }

    fn moment(&self) -> u64 {
        self.moment
    }

    fn faults(&self) -> u64 {
        self.failures.faults
    }

    fn read(&mut self, chunk: u32, offset: u64, into: &mut [u8]) -> Result<(), DiskFault>
        requires { offset + length into.old ≤ 2048 * pages_of (image_of self.old) chunk }
        ensures bytes { OnOk result (into.new ≡ bytes_of (image_of self.old) chunk offset (length into.old)) }
        ensures sizes { (j : ℕ) → pages_of (image_of self.new) j ≡ pages_of (image_of self.old) j }
        ensures same { image_of self.new ≡ image_of self.old }
        ensures stop { AreAmong (can_leave_now self.new) (can_leave_now self.old) }
        ensures time { Elapses (moment_of self.old) (moment_of self.new) (could_leave self.old) (could_leave self.new) (can_leave_now self.new) }
        ensures cause { HasCause (faults_of self.old) (faults_of self.new) result }
        // It fails exactly at the listed calls.
        ensures numbered { calls_of self.new ≡ next_count (calls_of self.old) }
        ensures listed { IsErr result ↔ IsTrue (is_listed (listed_of self.old) (calls_of self.new)) }
        ensures constant { OnOk result (faults_of self.new ≡ faults_of self.old) }
        ensures list { listed_of self.new ≡ listed_of self.old }
    {
        if self.failures.next_fails() {
            return Err(DiskFault);
        }
        chunks::read(&self.image, chunk as usize, offset as usize, into);
        Ok(())
    }

    fn write_at(&mut self, chunk: u32, offset: u64, bytes: &[u8]) -> Result<(), DiskFault>
        requires { offset + length bytes.now ≤ 2048 * pages_of (image_of self.old) chunk }
        ensures written { OnOk result (Written chunk offset bytes.now (image_of self.old) (image_of self.new)) }
        ensures torn { Torn chunk offset (length bytes.now) (image_of self.old) (image_of self.new) }
        ensures sizes { (j : ℕ) → pages_of (image_of self.new) j ≡ pages_of (image_of self.old) j }
        ensures stop { Follows (Torn chunk offset (length bytes.now)) (can_leave_now self.old) (can_leave_now self.new) }
        ensures time { Elapses (moment_of self.old) (moment_of self.new) (could_leave self.old) (could_leave self.new) (can_leave_now self.new) }
        ensures rises { Rose (moment_of self.old) (moment_of self.new) }
        ensures cause { HasCause (faults_of self.old) (faults_of self.new) result }
        // It fails at the listed calls, and where there is no memory for its record.
        ensures numbered { calls_of self.new ≡ next_count (calls_of self.old) }
        ensures listed { IsTrue (is_listed (listed_of self.old) (calls_of self.new)) → IsErr result }
        ensures constant { OnOk result (faults_of self.new ≡ faults_of self.old) }
        ensures list { listed_of self.new ≡ listed_of self.old }
    {
        self.moment = self.moment.saturating_add(1);
        if self.failures.next_fails() {
            note(
                &mut self.entries,
                self.moment,
                Call::Tore(chunk, offset, bytes.len()),
            );
            return Err(DiskFault);
        }
        if !start(
            self.alloc,
            &mut self.image,
            &mut self.first,
            &mut self.started,
        ) {
            self.failures.count_fault();
            return Err(DiskFault);
        }
        if !note_write(
            self.alloc,
            &mut self.entries,
            self.moment,
            chunk,
            offset,
            bytes,
        ) {
            self.failures.count_fault();
            return Err(DiskFault);
        }
        chunks::write(&mut self.image, chunk as usize, offset as usize, bytes);
        Ok(())
    }

    fn grow(&mut self, chunk: u32, pages: u32) -> Result<(), DiskFault>
        ensures grown { OnOk result (Extended chunk pages (image_of self.old) (image_of self.new)) }
        ensures torn { Grown chunk pages (image_of self.old) (image_of self.new) }
        ensures long { OnOk result (pages ≤ pages_of (image_of self.new) chunk) }
        ensures no_shorter { (j : ℕ) → pages_of (image_of self.old) j ≤ pages_of (image_of self.new) j }
        ensures others { (j : ℕ) → ¬ (j ≡ chunk) → pages_of (image_of self.new) j ≡ pages_of (image_of self.old) j }
        ensures stop { Follows (Grown chunk pages) (can_leave_now self.old) (can_leave_now self.new) }
        ensures time { Elapses (moment_of self.old) (moment_of self.new) (could_leave self.old) (could_leave self.new) (can_leave_now self.new) }
        ensures rises { Rose (moment_of self.old) (moment_of self.new) }
        ensures cause { HasCause (faults_of self.old) (faults_of self.new) result }
        // It fails at the listed calls, where there is no such chunk, and where there is no memory.
        ensures numbered { calls_of self.new ≡ next_count (calls_of self.old) }
        ensures listed { IsTrue (is_listed (listed_of self.old) (calls_of self.new)) → IsErr result }
        ensures constant { OnOk result (faults_of self.new ≡ faults_of self.old) }
        ensures list { listed_of self.new ≡ listed_of self.old }
    {
        self.moment = self.moment.saturating_add(1);
        if self.failures.next_fails() {
            return Err(DiskFault);
        }
        if chunk as usize >= chunks::CHUNKS {
            self.failures.count_fault();
            return Err(DiskFault);
        }
        if !start(
            self.alloc,
            &mut self.image,
            &mut self.first,
            &mut self.started,
        ) {
            self.failures.count_fault();
            return Err(DiskFault);
        }
        let count = self.entries.len();
        if !note(&mut self.entries, self.moment, Call::Grew(chunk, pages)) {
            self.failures.count_fault();
            return Err(DiskFault);
        }
        match chunks::extend(&mut self.image, chunk as usize, pages, 0) {
            Ok(()) => Ok(()),
            Err(_) => {
                self.entries.truncate(count);
                self.failures.count_fault();
                Err(DiskFault)
            }
        }
    }

    fn sync(&mut self) -> Result<(), DiskFault>
        ensures durable { OnOk result (Only (image_of self.new) (can_leave_now self.new)) }
        ensures sizes { (j : ℕ) → pages_of (image_of self.new) j ≡ pages_of (image_of self.old) j }
        ensures same { image_of self.new ≡ image_of self.old }
        ensures stop { AreAmong (can_leave_now self.new) (can_leave_now self.old) }
        ensures time { Elapses (moment_of self.old) (moment_of self.new) (could_leave self.old) (could_leave self.new) (can_leave_now self.new) }
        ensures rises { Rose (moment_of self.old) (moment_of self.new) }
        ensures cause { HasCause (faults_of self.old) (faults_of self.new) result }
        // It fails at the listed calls, and where there is no memory for its record.
        ensures numbered { calls_of self.new ≡ next_count (calls_of self.old) }
        ensures listed { IsTrue (is_listed (listed_of self.old) (calls_of self.new)) → IsErr result }
        ensures constant { OnOk result (faults_of self.new ≡ faults_of self.old) }
        ensures list { listed_of self.new ≡ listed_of self.old }
    {
        self.moment = self.moment.saturating_add(1);
        if self.failures.next_fails() {
            return Err(DiskFault);
        }
        if !note(&mut self.entries, self.moment, Call::Synced) {
            self.failures.count_fault();
            return Err(DiskFault);
        }
        Ok(())
    }
}

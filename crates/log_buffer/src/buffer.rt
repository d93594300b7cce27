//! The buffer.
ghost use Rattle.std.specs.Prelude.{◌≡◌, ◌<◌, ◌≤◌, ◌+◌, ◌^◌, ◌++◌, ℕ, [], ◌∷◌, length, map, true, IfOk, OnOk, OnErr};
ghost use Rattle.ids_outside.specs.Counts.{HasCause};
ghost use Rattle.ids_outside.specs.Images.{SameBut};
ghost use Rattle.gate_blocks.specs.Gates.{RegionPlaces};
ghost use Rattle.log_records.specs.Viewed.{view_entry};
ghost use Rattle.log_records.specs.Spelling.{entry_size};
ghost use Rattle.log_records.specs.Bodies.{Body};
ghost use Rattle.log_files.specs.Files.{AreNumbered, Appends, IsReady, IsRing, retained, taken};
ghost use Rattle.log_files.specs.Moments.{Within};
ghost use Rattle.log_buffer.specs.Buffers.{IsBuffer, empty_at, waiting, fits_last, joined, last_count, has_room, block_for, place_for, tail_of, appended, bodies};

use ids_base::memory::Memory;
use ids_base::position::LogPos;
use ids_outside::{Disk, DiskFault};
use log_files::LogFiles;
use log_records::block_body::{BlockBody, RECORD_BYTES, put};
use log_records::view::RecordView;
use std::alloc::Global;
use std::marker::Model;

/// The buffer of the log. Contracts see the records of each block that is begun, the number of the first of these, and how many
/// blocks there is room for.
#[derive(Drop)]
pub struct LogBuffer {
    // A body for each block that there is room for; the first `begun` have records.
    bodies: Vec<BlockBody>,
    begun: usize,
    first: u64,
}

impl Model for LogBuffer {
    ghost use Rattle.std.specs.Prelude.{length};
    ghost use Rattle.log_buffer.specs.Buffers.{Buffer};
    ghost use Rattle.log_buffer.specs.Holding.{begun_blocks, IsHeld};

    ghost Value = { Buffer };

    ghost view = { λ a. record { first = a.first; room = length a.bodies.items; blocks = begun_blocks a.begun a.bodies.items } };

    ghost invariant = { λ a. IsHeld a.bodies.items a.begun a.first };
}

impl LogBuffer {
    /// A buffer without records for so many blocks, of which the first will have this number. Takes all its memory here: 2 KB a
    /// block; `Memory` where there is none.
    pub fn new(alloc: Global, first: u64, room: u32) -> Result<LogBuffer, Memory>
        ensures { IfOk result (λ b. b ≡ empty_at first room) }
    {
        let mut bodies = Vec::with_capacity(alloc, room as usize)?;
        for _ in 0..room {
            bodies.push_reserved(BlockBody::new(0));
        }
        Ok(LogBuffer {
            bodies,
            begun: 0,
            first,
        })
    }

    /// Whether a record of this size has room: in the last block, or in one more. Constant time.
    pub fn has_room(&self, size: u32) -> bool
        ensures { result ≡ has_room self.now size }
    {
        self.fits_last(size) || self.begun < self.bodies.len()
    }

    /// How many blocks the files may take for which no record waits here. Constant time.
    pub fn empty_blocks(&self, files: &LogFiles) -> u64
        requires numbered { self.now.first ≡ files.now.next }
        requires room { files.now.next + length self.now.blocks ≤ files.now.limit }
        ensures { result + length self.now.blocks + files.now.next ≡ files.now.limit }
    {
        files.free() - self.block_count()
    }

    /// The number of the block that a record of this size joins or begins. Constant time.
    pub fn block_for(&self, size: u16) -> u64
        requires { self.now.first < 2 ^ 63 }
        ensures { result ≡ block_for self.now size }
    {
        let next = self.first + self.begun as u64;
        if self.fits_last(u32::from(size)) {
            next - 1
        } else {
            next
        }
    }

    /// Puts a record at the end, and gives its place. Takes no memory; in time of the record's size, and of a block where one
    /// is begun.
    pub fn append(&mut self, view: RecordView) -> LogPos
        requires room { has_room self.old (entry_size (view_entry view)) ≡ true }
        requires number { self.old.first < 2 ^ 63 }
        ensures appended { self.new ≡ appended self.old (view_entry view.entry) }
        ensures place { result ≡ place_for self.old (entry_size (view_entry view.entry)) }
        ensures waiting { waiting self.new ≡ waiting self.old ++ view_entry view.entry ∷ [] }
    {
        let size = view.size();
        let block = self.block_for(size);
        if self.fits_last(u32::from(size)) {
            let index = self.last_count();
            self.join(view);
            LogPos { block, index }
        } else {
            self.begin(view);
            LogPos { block, index: 0 }
        }
    }

    /// How many blocks are begun. Constant time.
    pub fn block_count(&self) -> u64
        ensures count { result ≡ length self.now.blocks }
        // No more than there is room for; each of them has a record, and no more than fit.
        ensures buffer { IsBuffer self.now }
    {
        self.begun as u64
    }

    /// The position before which all is flushed: the first place of the first block that is not. Constant time.
    pub fn flushed(&self) -> LogPos
        ensures { result ≡ record { block = self.now.first; index = 0 } }
    {
        LogPos {
            block: self.first,
            index: 0,
        }
    }

    /// Where the next record goes, if it fits there: behind the last one, or to the first place of the next block where none
    /// is begun. Constant time.
    pub fn tail(&self) -> LogPos
        requires { self.now.first < 2 ^ 63 }
        ensures { result ≡ tail_of self.now }
    {
        LogPos {
            block: self.first + self.begun.saturating_sub(1) as u64,
            index: self.last_count(),
        }
    }

    /// Writes all records to the log files, and syncs. After it a stop leaves them all, and no block is begun. After a fault the
    /// buffer and the files are as they were, and the log is to be opened again. Takes no memory; the cost of `append_blocks`.
    pub fn flush<D: Disk>(&mut self, disk: &mut D, files: &mut LogFiles) -> Result<(), DiskFault>
        requires ready { IsReady D.Disk files.old disk.old }
        requires numbered { self.old.first ≡ files.old.next }
        requires room { files.old.next + length self.old.blocks ≤ files.old.limit }

        ensures emptied { OnOk result (self.new ≡ empty_at (self.old.first + length self.old.blocks) self.old.room) }
        ensures err { OnErr result (self.new ≡ self.old) }
        ensures taken { OnOk result (files.new ≡ taken files.old (length self.old.blocks)) }
        ensures err_files { OnErr result (files.new ≡ files.old) }
        ensures ready { OnOk result (IsReady D.Disk files.new disk.new) }
        ensures appended { OnOk result (D.tells → retained files.new (D.image disk.new) ≡ retained files.old (D.image disk.old) ++ bodies self.old.first self.old.blocks) }
        ensures any_moment { Within D.Disk disk.old disk.new (Appends files.old (bodies self.old.first self.old.blocks)) }
        ensures shown { D.tells → SameBut (RegionPlaces files.old.region) (D.image disk.old) (D.image disk.new) }
        ensures ring { IsRing files.old }
        ensures sizes { (j : ℕ) → D.size disk.new j ≡ D.size disk.old j }
        ensures cause { HasCause (D.fault_count disk.old) (D.fault_count disk.new) result }
    {
        let free = files.free();
        prove!(self.block_count() <= free);
        files.append_blocks(disk, self.begun_bodies())?;
        self.empty();
        Ok(())
    }

    // The bodies of the blocks that are begun.
    fn begun_bodies(&self) -> &[BlockBody]
        ensures numbered { AreNumbered self.now.first result.now }
        ensures blocks { map (λ (b : Body). b.entries) result.now ≡ self.now.blocks }
        ensures count { length result.now ≡ length self.now.blocks }
    {
        &self.bodies[..self.begun]
    }

    // No block is begun, and the next goes on behind those that were.
    fn empty(&mut self)
        requires { self.old.first + length self.old.blocks < 2 ^ 64 }
        ensures { self.new ≡ empty_at (self.old.first + length self.old.blocks) self.old.room }
    {
        self.first += self.begun as u64;
        self.begun = 0;
    }

    // Whether a record of this size fits into the last block.
    fn fits_last(&self, size: u32) -> bool
        ensures { result ≡ fits_last self.now.blocks size }
    {
        if self.begun == 0 || size as usize > RECORD_BYTES {
            return false;
        }
        self.bodies[self.begun - 1].has_room(size as u16)
    }

    // How many records the last block has.
    fn last_count(&self) -> u16
        ensures { result ≡ last_count self.now.blocks }
    {
        if self.begun == 0 {
            0
        } else {
            self.bodies[self.begun - 1].count()
        }
    }

    // Puts a record into the last block, where it fits.
    fn join(&mut self, view: RecordView)
        requires { fits_last self.old.blocks (entry_size (view_entry view)) ≡ true }
        ensures { self.new ≡ record self.old { blocks = joined self.old.blocks (view_entry view.entry) } }
    {
        let is_put = put(view, &mut self.bodies[self.begun - 1]);
        prove!(is_put);
    }

    // Begins a block with a record.
    fn begin(&mut self, view: RecordView)
        requires room { length self.old.blocks < self.old.room }
        requires number { self.old.first < 2 ^ 63 }
        ensures { self.new ≡ record self.old { blocks = self.old.blocks ++ (view_entry view.entry ∷ []) ∷ [] } }
    {
        let number = self.first + self.begun as u64;
        self.bodies[self.begun] = body_with(number, view);
        self.begun += 1;
    }
}

// A body with one record.
fn body_with(number: u64, view: RecordView) -> BlockBody
    ensures body { result ≡ record { number = number; entries = view_entry view.entry ∷ [] } }
    ensures within { entry_size (view_entry view.entry) ≤ 2004 }
{
    let size = view.size();
    prove!(size as usize <= 2004);
    let mut body = BlockBody::new(number);
    let is_put = put(view, &mut body);
    prove!(is_put);
    body
}

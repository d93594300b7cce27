//! The log files.
ghost use Rattle.std.specs.Prelude.{◌≡◌, ◌<◌, ◌≤◌, ◌+◌, ◌-◌, ◌^◌, ◌++◌, ◌↔◌, ℕ, [], length, IsTrue, IfOk, OnOk, OnErr, Some, slice_index_or};
ghost use Rattle.ids_outside.specs.Counts.{HasCause};
ghost use Rattle.gate_blocks.specs.Gates.{RegionPlaces};
ghost use Rattle.ids_outside.specs.Images.{Image, SameBut};
ghost use Rattle.ids_outside.specs.Stops.{AreAmong, Only};
ghost use Rattle.log_records.specs.Bodies.{Body, body_of};
ghost use Rattle.log_files.specs.Log.{IsReadAs, body_at, bodies_from, ring_place};
ghost use Rattle.log_files.specs.Moments.{Within};
ghost use Rattle.log_files.specs.Files.{IsRing, IsReady, IsRead, HasFiles, AreNumbered, Count, Grows, Appends, Clears, KeepsRetained, retained, taken, freed, all_free, next_free, file_start, file_end};

use crate::read::{BlockRead, read_as};
use gate_blocks::laws::{changes, elsewhere};
use gate_blocks::{Region, clear_some, open_gates, read_open, write_bodies};
use ids_base::position::LogPos;
use ids_outside::{Disk, DiskFault, laws};
use log_records::block_body::BlockBody;
use log_records::body_bytes::body_to_bytes;
use log_records::laws::bodies_are_read;
use std::marker::{Brand, Model};

/// How many bodies are written before their gates are opened.
const GROUP: usize = 8;

/// The log files. Contracts see which blocks are retained, the next to be taken, and up to which block the places are closed
/// and may be taken.
#[derive(Drop)]
pub struct LogFiles {
    region: Region,
    file_blocks: u32,
    first: u64,
    next: u64,
    limit: u64,
}

impl Model for LogFiles {
    ghost use Rattle.log_files.specs.Files.{Files, IsRing};

    ghost Value = { Files };

    ghost view = { λ a. record { region = a.region; file_blocks = a.file_blocks; first = a.first; next = a.next; limit = a.limit } };

    ghost invariant = { λ a. IsRing (record { region = a.region; file_blocks = a.file_blocks; first = a.first; next = a.next; limit = a.limit }) };
}

impl LogFiles {
    /// The files of a region, of which the blocks from `first` to before `next` are retained. No block may be taken before
    /// `clear_rest`. Takes no memory.
    pub fn new(region: Region, file_blocks: u32, first: u64, next: u64) -> LogFiles
        requires { IsRing (record { region = region; file_blocks = file_blocks; first = first; next = next; limit = next }) }
        ensures { result ≡ record { region = region; file_blocks = file_blocks; first = first; next = next; limit = next } }
    {
        LogFiles {
            region,
            file_blocks,
            first,
            next,
            limit: next,
        }
    }

    /// The least retained block.
    pub fn first(&self) -> u64
        ensures first { result ≡ self.now.first }
        ensures ring { IsRing self.now }
    {
        self.first
    }

    /// The block that is taken next.
    pub fn next(&self) -> u64
        ensures next { result ≡ self.now.next }
        ensures ring { IsRing self.now }
    {
        self.next
    }

    /// Where the blocks stand.
    pub fn region(&self) -> Region
        ensures region { result ≡ self.now.region }
        ensures ring { IsRing self.now }
    {
        self.region
    }

    /// The block behind those that may be taken: the first of a file, or the next block where none may be taken.
    pub fn limit(&self) -> u64
        ensures limit { result ≡ self.now.limit }
        ensures ring { IsRing self.now }
    {
        self.limit
    }

    /// The first block of the file that holds a block. Constant time.
    pub fn file_start(&self, block: u64) -> u64
        requires counted { 1 ≤ block }
        ensures start { result ≡ file_start self.now block }
    {
        block - (block - 1) % u64::from(self.file_blocks)
    }

    /// The first block of the file behind the one that holds a block. Constant time.
    pub fn file_end(&self, block: u64) -> u64
        requires counted { 1 ≤ block }
        requires fits { block < 2 ^ 63 }
        ensures end { result ≡ file_end self.now block }
    {
        self.file_start(block) + u64::from(self.file_blocks)
    }

    /// How many blocks may be taken.
    pub fn free(&self) -> u64
        ensures free { result + self.now.next ≡ self.now.limit }
        ensures ring { IsRing self.now }
    {
        self.limit - self.next
    }

    /// Writes bodies to the next blocks, opens their gates, and syncs: two syncs for eight bodies, and two more where they go
    /// round the end of the ring. A stop at any moment leaves the blocks as they were with some of the new ones, none
    /// skipped. After a fault no block is taken, and the log is to be opened again. Takes no memory.
    pub fn append_blocks<D: Disk>(
        &mut self,
        disk: &mut D,
        bodies: &[BlockBody],
    ) -> Result<(), DiskFault>
        requires ready { IsReady D.Disk self.old disk.old }
        requires room { self.old.next + length bodies.now ≤ self.old.limit }
        requires numbered { AreNumbered self.old.next bodies.now }

        ensures taken { OnOk result (self.new ≡ taken self.old (length bodies.now)) }
        ensures err { OnErr result (self.new ≡ self.old) }
        ensures ready { OnOk result (IsReady D.Disk self.new disk.new) }
        ensures appended { OnOk result (D.tells → retained self.new (D.image disk.new) ≡ retained self.old (D.image disk.old) ++ bodies.now) }
        ensures any_moment { Within D.Disk disk.old disk.new (Appends self.old bodies.now) }
        ensures shown { D.tells → SameBut (RegionPlaces self.old.region) (D.image disk.old) (D.image disk.new) }
        ensures sizes { (j : ℕ) → D.size disk.new j ≡ D.size disk.old j }
        ensures cause { HasCause (D.fault_count disk.old) (D.fault_count disk.new) result }
    {
        let free = self.free();
        prove!(bodies.len() as u64 <= free);
        self.write_groups(disk, bodies)?;
        self.take(bodies.len());
        Ok(())
    }

    // Writes bodies to the next blocks, group by group.
    fn write_groups<D: Disk>(&self, disk: &mut D, bodies: &[BlockBody]) -> Result<(), DiskFault>
        requires ready { IsReady D.Disk self.now disk.old }
        requires room { self.now.next + length bodies.now ≤ self.now.limit }
        requires numbered { AreNumbered self.now.next bodies.now }

        ensures ready { OnOk result (IsReady D.Disk (taken self.now (length bodies.now)) disk.new) }
        ensures appended { OnOk result (D.tells → retained (taken self.now (length bodies.now)) (D.image disk.new) ≡ retained self.now (D.image disk.old) ++ bodies.now) }
        ensures any_moment { Within D.Disk disk.old disk.new (Appends self.now bodies.now) }
        ensures shown { D.tells → SameBut (RegionPlaces self.now.region) (D.image disk.old) (D.image disk.new) }
        ensures sizes { (j : ℕ) → D.size disk.new j ≡ D.size disk.old j }
        ensures cause { HasCause (D.fault_count disk.old) (D.fault_count disk.new) result }
    {
        laws::started::<D, Brand>();
        laws::then::<D, Brand, Brand, Brand>();
        laws::seen_as::<D, Brand, Brand>();
        let mut files = self.copy();
        let mut done = 0;
        while done < bodies.len() {
            let count = files.group_len(bodies.len() - done);
            files.write_group(disk, &bodies[done..done + count])?;
            files.take(count);
            done += count;
        }
        Ok(())
    }

    /// What stands at the place of a block: its body; or that it is broken, exactly where its gate is open, it has the number and
    /// does not decode; or nothing, where its place is closed or has another number, and for number 0. One block is read. Takes no
    /// memory.
    pub fn read_from<D: Disk>(&self, disk: &mut D, block: u64) -> Result<BlockRead, DiskFault>
        requires { self.now.region.first + self.now.region.count ≤ D.size disk.old self.now.region.chunk }

        ensures read { IfOk result (λ found. D.tells → IsReadAs self.now.region block (D.image disk.old) found) }
        ensures same { D.image disk.new ≡ D.image disk.old }
        ensures stop { AreAmong (D.can_leave disk.new) (D.can_leave disk.old) }
        ensures any_moment { Within D.Disk disk.old disk.new (λ x y. y ≡ x) }
        ensures sizes { (j : ℕ) → D.size disk.new j ≡ D.size disk.old j }
        ensures cause { HasCause (D.fault_count disk.old) (D.fault_count disk.new) result }
    {
        laws::started::<D, Brand>();
        if block == 0 {
            return Ok(BlockRead::Absent);
        }
        let region = self.region();
        let mut bytes = blank_body();
        if read_open(disk, &region, self.place(block), &mut bytes)? {
            Ok(read_as(&bytes, block))
        } else {
            Ok(BlockRead::Absent)
        }
    }

    /// At opening, when the retained blocks were read: closes the gate of each other block, and syncs. Then each place that is
    /// not retained may be taken, but those before the first block in its file. A stop at any moment leaves the retained
    /// blocks, and none behind them. A read for each such block, and a write for each open gate.
    pub fn clear_rest<D: Disk>(&mut self, disk: &mut D) -> Result<(), DiskFault>
        requires { IsRead D.Disk self.old disk.old }

        ensures free { OnOk result (self.new ≡ all_free self.old) }
        ensures err { OnErr result (self.new ≡ self.old) }
        ensures ready { OnOk result (IsReady D.Disk self.new disk.new) }
        ensures same { OnOk result (D.tells → retained self.new (D.image disk.new) ≡ retained self.old (D.image disk.old)) }
        ensures any_moment { Within D.Disk disk.old disk.new (Clears self.old) }
        ensures shown { D.tells → SameBut (RegionPlaces self.old.region) (D.image disk.old) (D.image disk.new) }
        ensures sizes { (j : ℕ) → D.size disk.new j ≡ D.size disk.old j }
        ensures cause { HasCause (D.fault_count disk.old) (D.fault_count disk.new) result }
    {
        self.close_rest(disk)?;
        self.free_rest();
        Ok(())
    }

    /// The blocks before this position's are no longer retained. Their places are as they were, and no more blocks may be taken.
    /// A disk that was ready stays so (`laws::freeing_keeps_ready`). Constant time.
    pub fn free_before(&mut self, pos: LogPos)
        requires from { self.old.first ≤ pos.block }
        requires to { pos.block ≤ self.old.next }
        requires fits { pos.block + self.old.region.count < 2 ^ 64 }

        ensures freed { self.new ≡ freed self.old pos.block }
        // The retained bodies were those that are freed, and then those that stay.
        ensures parted { (x : Image) → HasFiles self.old x
            → retained self.old x ≡ bodies_from self.old.region self.old.first (pos.block - self.old.first) x ++ retained self.new x }
    {
        self.first = pos.block;
    }

    /// Whether no place of the next file is retained, so that it may be cleared. Constant time.
    pub fn can_clear_next(&self) -> bool
        ensures { IsTrue result ↔ (file_end self.now self.now.limit ≤ self.now.first + self.now.region.count) }
    {
        u64::from(self.next_len()) <= self.first + u64::from(self.region.count) - self.limit
    }

    /// Closes the gates of the next file's blocks behind those that may be taken, and syncs. Then these may be taken too. Where
    /// the limit stands within a file, these are the rest of its blocks. A stop at any moment leaves the retained blocks, and
    /// none behind them. A read for each block, a write for each open gate, and three syncs. Takes no memory.
    pub fn clear_next<D: Disk>(&mut self, disk: &mut D) -> Result<(), DiskFault>
        requires ready { IsReady D.Disk self.old disk.old }
        requires room { file_end self.old self.old.limit ≤ self.old.first + self.old.region.count }

        ensures free { OnOk result (self.new ≡ next_free self.old) }
        ensures err { OnErr result (self.new ≡ self.old) }
        ensures ready { OnOk result (IsReady D.Disk self.new disk.new) }
        ensures same { OnOk result (D.tells → retained self.new (D.image disk.new) ≡ retained self.old (D.image disk.old)) }
        ensures any_moment { Within D.Disk disk.old disk.new (Clears self.old) }
        ensures shown { D.tells → SameBut (RegionPlaces self.old.region) (D.image disk.old) (D.image disk.new) }
        ensures sizes { (j : ℕ) → D.size disk.new j ≡ D.size disk.old j }
        ensures cause { HasCause (D.fault_count disk.old) (D.fault_count disk.new) result }
    {
        laws::started::<D, Brand>();
        laws::stays::<D, Brand>();
        laws::then::<D, Brand, Brand, Brand>();
        // A gate that reads closed is then closed whatever a stop leaves.
        disk.sync()?;
        self.close_next(disk)?;
        self.free_next();
        Ok(())
    }

    // The same files, for a call that may fail half way.
    fn copy(&self) -> LogFiles
        ensures same { result ≡ self.now }
        ensures ring { IsRing self.now }
    {
        LogFiles {
            region: self.region,
            file_blocks: self.file_blocks,
            first: self.first,
            next: self.next,
            limit: self.limit,
        }
    }

    // One more file may be taken.
    fn free_next(&mut self)
        requires { file_end self.old self.old.limit ≤ self.old.first + self.old.region.count }
        ensures { self.new ≡ next_free self.old }
    {
        self.limit += u64::from(self.next_len());
    }

    // How many blocks there are from the limit to the end of its file.
    fn next_len(&self) -> u32
        ensures { self.now.limit + result ≡ file_end self.now self.now.limit }
    {
        self.file_blocks - ((self.limit - 1) % u64::from(self.file_blocks)) as u32
    }

    // Closes the gates of the next file's blocks, behind a sync.
    fn close_next<D: Disk>(&self, disk: &mut D) -> Result<(), DiskFault>
        requires ready { IsReady D.Disk self.now disk.old }
        requires settled { Only (D.image disk.old) (D.can_leave disk.old) }
        requires room { file_end self.now self.now.limit ≤ self.now.first + self.now.region.count }

        ensures ready { OnOk result (IsReady D.Disk (next_free self.now) disk.new) }
        ensures kept { OnOk result (D.tells → KeepsRetained self.now (D.image disk.old) (D.image disk.new)) }
        ensures any_moment { Within D.Disk disk.old disk.new (Clears self.now) }
        ensures shown { D.tells → SameBut (RegionPlaces self.now.region) (D.image disk.old) (D.image disk.new) }
        ensures sizes { (j : ℕ) → D.size disk.new j ≡ D.size disk.old j }
        ensures cause { HasCause (D.fault_count disk.old) (D.fault_count disk.new) result }
    {
        laws::then::<D, Brand, Brand, Brand>();
        laws::seen_as::<D, Brand, Brand>();
        elsewhere();
        changes();
        let region = self.region();
        let count = self.next_len();
        let at = self.place(self.limit());
        let straight = count.min(region.count - at);
        clear_some(disk, &region, at, straight)?;
        clear_some(disk, &region, 0, count - straight)
    }

    // Each block that is not retained may be taken.
    fn free_rest(&mut self)
        ensures { self.new ≡ all_free self.old }
    {
        let turn = self.file_start(self.first) + u64::from(self.region.count);
        self.limit = turn.max(self.next);
    }

    // Closes the gates of the places that are not retained.
    fn close_rest<D: Disk>(&self, disk: &mut D) -> Result<(), DiskFault>
        requires { IsRead D.Disk self.now disk.old }

        ensures ready { OnOk result (IsReady D.Disk (all_free self.now) disk.new) }
        ensures kept { OnOk result (D.tells → KeepsRetained self.now (D.image disk.old) (D.image disk.new)) }
        ensures any_moment { Within D.Disk disk.old disk.new (Clears self.now) }
        ensures shown { D.tells → SameBut (RegionPlaces self.now.region) (D.image disk.old) (D.image disk.new) }
        ensures sizes { (j : ℕ) → D.size disk.new j ≡ D.size disk.old j }
        ensures cause { HasCause (D.fault_count disk.old) (D.fault_count disk.new) result }
    {
        laws::then::<D, Brand, Brand, Brand>();
        laws::seen_as::<D, Brand, Brand>();
        elsewhere();
        changes();
        let region = self.region();
        let at = self.place(self.next());
        let rest = self.rest();
        let straight = rest.min(region.count - at);
        clear_some(disk, &region, at, straight)?;
        clear_some(disk, &region, 0, rest - straight)
    }

    // How many places are not retained.
    fn rest(&self) -> u32
        ensures rest { result + self.now.next ≡ self.now.first + self.now.region.count }
        ensures ring { IsRing self.now }
    {
        let count = self.region.count;
        count - (self.next - self.first) as u32
    }

    // So many blocks more are retained.
    fn take(&mut self, count: usize)
        requires { self.old.next + count ≤ self.old.limit }
        ensures { self.new ≡ taken self.old count }
    {
        self.next += count as u64;
    }

    // How many of so many bodies are written at once: at most eight, and up to the end of the ring.
    fn group_len(&self, wanted: usize) -> usize
        requires { 0 < wanted }
        ensures some { 0 < result }
        ensures within { result ≤ wanted }
        ensures few { result ≤ GROUP }
        ensures straight { ring_place self.now.region self.now.next + result ≤ self.now.region.count }
    {
        let left = (self.region.count - self.place(self.next)) as usize;
        wanted.min(GROUP).min(left)
    }

    // Writes bodies to the next blocks, which do not go round the end of the ring, and opens their gates.
    fn write_group<D: Disk>(&self, disk: &mut D, bodies: &[BlockBody]) -> Result<(), DiskFault>
        requires ready { IsReady D.Disk self.now disk.old }
        requires room { self.now.next + length bodies.now ≤ self.now.limit }
        requires numbered { AreNumbered self.now.next bodies.now }
        requires few { length bodies.now ≤ GROUP }
        requires straight { ring_place self.now.region self.now.next + length bodies.now ≤ self.now.region.count }

        ensures ready { OnOk result (IsReady D.Disk (taken self.now (length bodies.now)) disk.new) }
        ensures kept { OnOk result (D.tells → KeepsRetained self.now (D.image disk.old) (D.image disk.new)) }
        ensures counted { OnOk result (D.tells → Count self.now.region self.now.next bodies.now (D.image disk.new)) }
        ensures any_moment { Within D.Disk disk.old disk.new (Grows self.now bodies.now) }
        ensures shown { D.tells → SameBut (RegionPlaces self.now.region) (D.image disk.old) (D.image disk.new) }
        ensures sizes { (j : ℕ) → D.size disk.new j ≡ D.size disk.old j }
        ensures cause { HasCause (D.fault_count disk.old) (D.fault_count disk.new) result }
    {
        laws::then::<D, Brand, Brand, Brand>();
        laws::seen_as::<D, Brand, Brand>();
        elsewhere();
        changes();
        let region = self.region();
        let at = self.place(self.next());
        let mut bytes = blank();
        spell(bodies, &mut bytes);
        write_bodies(disk, &region, at, &bytes[..bodies.len()])?;
        open_gates(disk, &region, at, bodies.len() as u32)
    }

    // The place of a block in the region.
    fn place(&self, block: u64) -> u32
        requires { 1 ≤ block }
        ensures place { result ≡ ring_place self.now.region block }
        ensures within { result < self.now.region.count }
    {
        ((block - 1) % u64::from(self.region.count)) as u32
    }
}

// Room for the bytes of a body.
fn blank_body() -> [u8; 2047] {
    [0; 2047]
}

// Room for the bytes of a group.
fn blank() -> [[u8; 2047]; GROUP] {
    [[0; 2047]; GROUP]
}

// The bytes of bodies, each over the bytes at its index.
fn spell(bodies: &[BlockBody], into: &mut [[u8; 2047]])
    requires room { length bodies.now ≤ length into.old }
    requires each { (k : ℕ) (d : Body) → k < length bodies.now → 1 ≤ length (slice_index_or bodies.now k d).entries }
    ensures { (k : ℕ) (d : Body) → k < length bodies.now → body_of (slice_index_or into.new k []) ≡ Some (slice_index_or bodies.now k d) }
{
    bodies_are_read();
    for (i, body) in bodies.iter().enumerate() {
        body_to_bytes(body, &mut into[i]);
    }
}

//! Where the tables are kept.
ghost use Rattle.std.specs.Prelude.{◌≡◌, ◌<◌, ◌≤◌, ◌+◌, ◌*◌, ℕ, length, OnOk};
ghost use Rattle.ids_outside.specs.Counts.{HasCause, Rose, last_count};
ghost use Rattle.ids_outside.specs.Images.{Image, bytes_of, chunk_of, IsImage, Torn, Written, Grown, Extended};
ghost use Rattle.ids_outside.specs.Stops.{Follows, AreAmong, Only, Elapses};

use thiserror::Error;

/// A call of a disk failed.
#[derive(Clone, Copy, Debug, Drop, PartialEq, Eq, Error)]
#[error("the disk failed")]
pub struct DiskFault;

/// A disk of chunks of pages of 2048 bytes. Chunk 0 is the root, and chunks 1 to 8 hold data.
///
/// A stop may come at any moment. Between two syncs that succeed, each range that was written, and each page behind a
/// chunk's old end, may then hold any bytes; all other bytes stay. After a sync that succeeds a stop leaves what a read
/// gives.
pub trait Disk {
    /// The pages of each chunk.
    ghost size: { Self → ℕ → ℕ };

    /// The moment, a number that does not fall.
    ghost now: { Self → ℕ };

    /// How often it has failed.
    ghost fault_count: { Self → ℕ };

    /// Whether disks of this kind tell their bytes.
    ghost tells: { Type 0 };

    /// The image that a read sees, where it is told.
    ghost image: { Self → Image };

    /// The images that a stop now can leave.
    ghost can_leave: { Self → Image → Type 0 };

    /// The images that a stop at that moment could leave.
    ghost left_at: { Self → ℕ → Image → Type 0 };

    /// The pages of a chunk, 0 of one that is not there.
    fn pages(&self, chunk: u32) -> u32
        ensures { result ≡ size self.now chunk };

    /// The moment.
    fn moment(&self) -> u64
        ensures { result ≡ now self.now };

    /// How often it has failed.
    fn faults(&self) -> u64
        ensures { result ≡ fault_count self.now };

    /// Reads a range that lies within the chunk. A fault leaves any bytes in the buffer, and the disk as it was.
    fn read(&mut self, chunk: u32, offset: u64, into: &mut [u8]) -> Result<(), DiskFault>
        requires { offset + length into.old ≤ 2048 * size self.old chunk }
        ensures bytes { OnOk result (tells → into.new ≡ bytes_of (image self.old) chunk offset (length into.old)) }
        ensures sizes { (j : ℕ) → size self.new j ≡ size self.old j }
        ensures same { image self.new ≡ image self.old }
        ensures stop { AreAmong (can_leave self.new) (can_leave self.old) }
        ensures time { Elapses (now self.old) (now self.new) (left_at self.old) (left_at self.new) (can_leave self.new) }
        ensures cause { HasCause (fault_count self.old) (fault_count self.new) result };

    /// Writes over a range that lies within the chunk. Until a sync, a stop may leave any bytes in the range. A fault
    /// leaves any bytes in it, for a read too.
    fn write_at(&mut self, chunk: u32, offset: u64, bytes: &[u8]) -> Result<(), DiskFault>
        requires { offset + length bytes.now ≤ 2048 * size self.old chunk }
        ensures written { OnOk result (tells → Written chunk offset bytes.now (image self.old) (image self.new)) }
        ensures torn { Torn chunk offset (length bytes.now) (image self.old) (image self.new) }
        ensures sizes { (j : ℕ) → size self.new j ≡ size self.old j }
        ensures stop { Follows (Torn chunk offset (length bytes.now)) (can_leave self.old) (can_leave self.new) }
        ensures time { Elapses (now self.old) (now self.new) (left_at self.old) (left_at self.new) (can_leave self.new) }
        ensures rises { Rose (now self.old) (now self.new) }
        ensures cause { HasCause (fault_count self.old) (fault_count self.new) result };

    /// Makes a chunk at least so many pages long; new bytes are zero. Until a sync, a stop may leave any number of the new
    /// pages, with any bytes in them. A fault makes no chunk shorter.
    fn grow(&mut self, chunk: u32, pages: u32) -> Result<(), DiskFault>
        ensures grown { OnOk result (tells → Extended chunk pages (image self.old) (image self.new)) }
        ensures torn { Grown chunk pages (image self.old) (image self.new) }
        ensures long { OnOk result (pages ≤ size self.new chunk) }
        ensures no_shorter { (j : ℕ) → size self.old j ≤ size self.new j }
        ensures others { (j : ℕ) → ¬ (j ≡ chunk) → size self.new j ≡ size self.old j }
        ensures stop { Follows (Grown chunk pages) (can_leave self.old) (can_leave self.new) }
        ensures time { Elapses (now self.old) (now self.new) (left_at self.old) (left_at self.new) (can_leave self.new) }
        ensures rises { Rose (now self.old) (now self.new) }
        ensures cause { HasCause (fault_count self.old) (fault_count self.new) result };

    /// After it, a stop leaves what a read gives. A fault leaves what could be left before.
    fn sync(&mut self) -> Result<(), DiskFault>
        ensures durable { OnOk result (Only (image self.new) (can_leave self.new)) }
        ensures sizes { (j : ℕ) → size self.new j ≡ size self.old j }
        ensures same { image self.new ≡ image self.old }
        ensures stop { AreAmong (can_leave self.new) (can_leave self.old) }
        ensures time { Elapses (now self.old) (now self.new) (left_at self.old) (left_at self.new) (can_leave self.new) }
        ensures rises { Rose (now self.old) (now self.new) }
        ensures cause { HasCause (fault_count self.old) (fault_count self.new) result };

    /// What can be left now could be left at this moment.
    ghost counts_now: { (d : Self) (c : Image) → can_leave d c → left_at d (now d) c };

    /// At this moment nothing else could be left.
    ghost only_now: { (d : Self) (c : Image) → now d < last_count → left_at d (now d) c → can_leave d c };

    /// There is no moment after this one.
    ghost no_later: { (d : Self) (m : ℕ) (c : Image) → left_at d m c → m ≤ now d };

    /// The image that a read sees can be left.
    ghost image_left: { (d : Self) → tells → can_leave d (image d) };

    /// Where an image is known that could be left, the disk tells.
    ghost left_tells: { (d : Self) (m : ℕ) (c : Image) → left_at d m c → tells };

    /// What could be left has nine chunks of whole pages.
    ghost left_images: { (d : Self) (m : ℕ) (c : Image) → left_at d m c → IsImage c };

    /// Its chunks have the pages that are told.
    ghost image_size: { (d : Self) (j : ℕ) → tells → length (chunk_of (image d) j) ≡ 2048 * size d j };
}

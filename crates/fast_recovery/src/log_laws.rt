//! Laws of the log and its buffer: what is appended is kept (`KeepsLog`), so that at every moment a stop leaves a front of it, with at
//! least what was flushed by then. Each is the contract of a function that does nothing.
ghost use Rattle.std.specs.Prelude.{◌≡◌, ◌≤◌, ◌+◌, ◌++◌, ℕ, List, [], ◌∷◌, length};
ghost use Rattle.ids_outside.specs.Images.{Image};
ghost use Rattle.log_records.specs.Entries.{Entry};
ghost use Rattle.log_files.specs.Files.{Files, IsRing, Appends, Clears, IsReady, next_free, taken};
ghost use Rattle.log_files.specs.Moments.{Within};
ghost use Rattle.log_buffer.specs.Buffers.{Buffer, appended, bodies, empty_at};
ghost use Rattle.fast_recovery.specs.KeptLog.{Flushed, HasLog, KeepsLog, Outlives};

use ids_outside::Disk;

/// A record that is appended to the buffer joins the log.
pub fn appends_keep<D: Disk>()
    ensures { (since : ℕ) (base : Image) (before all : List Entry) (marks : List Flushed) (files : Files) (buffer : Buffer) (e : Entry) (disk : D)
        → KeepsLog D.Disk since base before all marks files buffer disk
        → KeepsLog D.Disk since base before (all ++ e ∷ []) marks files (appended buffer e) disk }
{}

/// Once the log was read and its other places are closed, all that can be left has the log, and a buffer without records goes on
/// behind it.
pub fn openings_keep<D: Disk>()
    ensures { (base : Image) (before : List Entry) (files : Files) (room : ℕ) (disk : D)
        → IsReady D.Disk files disk
        → ((c : Image) → D.can_leave disk c → HasLog files base before [] c)
        → KeepsLog D.Disk (D.now disk) base before [] [] files (empty_at files.next room) disk }
{}

/// The log is kept by a flush of its buffer, with a mark that all records are on the disk for good from this moment on; and a stop
/// within it, or behind a fault, leaves a front of them, with at least what was flushed before.
pub fn flushes_keep<D: Disk>()
    ensures keeps { (since : ℕ) (base : Image) (before all : List Entry) (marks : List Flushed) (files : Files) (buffer : Buffer) (old new : D)
        → KeepsLog D.Disk since base before all marks files buffer old
        → Within D.Disk old new (Appends files (bodies buffer.first buffer.blocks))
        → IsReady D.Disk (taken files (length buffer.blocks)) new
        → IsRing files → files.next + length buffer.blocks ≤ files.limit
        → KeepsLog D.Disk since base before all (marks ++ record { at = D.now new; count = length all } ∷ [])
        (taken files (length buffer.blocks)) (empty_at (buffer.first + length buffer.blocks) buffer.room) new }
    ensures outlives { (since : ℕ) (base : Image) (before all : List Entry) (marks : List Flushed) (files : Files) (buffer : Buffer) (old new : D)
        → KeepsLog D.Disk since base before all marks files buffer old
        → Within D.Disk old new (Appends files (bodies buffer.first buffer.blocks))
        → files.first ≤ files.next
        → Outlives D.now D.left_at since base before all marks files new }
{}

/// A run of reads keeps the log.
pub fn reads_keep<D: Disk>()
    ensures { (since : ℕ) (base : Image) (before all : List Entry) (marks : List Flushed) (files : Files) (buffer : Buffer) (old new : D)
        → KeepsLog D.Disk since base before all marks files buffer old
        → Within D.Disk old new (λ x y. y ≡ x)
        → IsReady D.Disk files new
        → KeepsLog D.Disk since base before all marks files buffer new }
{}

/// The log is kept when the places of the next file are closed; and a stop within it, or behind a fault, leaves what it left before.
pub fn clears_keep<D: Disk>()
    ensures ready { (since : ℕ) (base : Image) (before all : List Entry) (marks : List Flushed) (files : Files) (buffer : Buffer) (old new : D)
        → KeepsLog D.Disk since base before all marks files buffer old
        → Within D.Disk old new (Clears files)
        → IsReady D.Disk (next_free files) new
        → files.first ≤ files.next
        → KeepsLog D.Disk since base before all marks (next_free files) buffer new }
    ensures outlives { (since : ℕ) (base : Image) (before all : List Entry) (marks : List Flushed) (files : Files) (buffer : Buffer) (old new : D)
        → KeepsLog D.Disk since base before all marks files buffer old
        → Within D.Disk old new (Clears files)
        → files.first ≤ files.next
        → Outlives D.now D.left_at since base before all marks files new }
{}

//! Laws of the log files. Each is the contract of a function that does nothing.
ghost use Rattle.std.specs.Prelude.{◌≤◌, ℕ};
ghost use Rattle.log_files.specs.Files.{Files, IsReady, freed};

use ids_outside::Disk;

/// A disk that is ready stays so when blocks are no longer retained.
pub fn freeing_keeps_ready<D: Disk>()
    ensures { (files : Files) (block : ℕ) (disk : D) → files.first ≤ block → block ≤ files.next
        → IsReady D.Disk files disk
        → IsReady D.Disk (freed files block) disk }
{}

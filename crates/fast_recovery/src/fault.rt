//! Why a disk is not opened.
ghost use Rattle.std.specs.Prelude.{◌≡◌};
ghost use Rattle.fast_recovery.specs.declared.fault.OpenFault.TheVariants.{Disk, Memory as MemoryWants, NotFormatted, Damaged};
ghost use Rattle.fast_recovery.specs.Faults.{fault_of};

use chunk_map::MapFault;
use ids_base::memory::Memory;
use ids_base::status::Place;
use ids_outside::DiskFault;
use thiserror::Error;

/// A disk is not opened.
#[derive(Clone, Copy, Debug, Drop, PartialEq, Eq, Error)]
pub enum OpenFault {
    /// The disk failed.
    #[error("the disk failed")]
    Disk,
    /// Memory was wanting.
    #[error("out of memory")]
    Memory,
    /// The disk has no identity, or no checkpoint page is open.
    #[error("the disk is not formatted")]
    NotFormatted,
    /// The disk is formatted and damaged; the first place.
    #[error("the disk is damaged")]
    Damaged(Place),
    /// A transaction is open in the log, which has no block left for its ROLLBACK.
    #[error("the log is full")]
    LogFull,
}

impl From<DiskFault> for OpenFault {
    ghost from_gives = { λ _ e. e ≡ Disk };

    fn from(_fault: DiskFault) -> OpenFault {
        OpenFault::Disk
    }
}

impl From<Memory> for OpenFault {
    ghost from_gives = { λ _ e. e ≡ MemoryWants };

    fn from(_want: Memory) -> OpenFault {
        OpenFault::Memory
    }
}

impl From<MapFault> for OpenFault {
    ghost from_gives = { λ m e. e ≡ fault_of m };

    fn from(fault: MapFault) -> OpenFault {
        match fault {
            MapFault::NotFormatted => OpenFault::NotFormatted,
            MapFault::Damaged(place) => OpenFault::Damaged(place),
            MapFault::Disk => OpenFault::Disk,
        }
    }
}

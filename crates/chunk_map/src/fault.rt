//! Why a page of the map cannot be had.
ghost use Rattle.std.specs.Prelude.{◌≡◌};
ghost use Rattle.chunk_map.specs.declared.fault.MapFault.TheVariants.{Disk};

use ids_base::status::Place;
use ids_outside::DiskFault;
use thiserror::Error;

/// A page of the map cannot be had.
#[derive(Clone, Copy, Debug, Drop, PartialEq, Eq, Error)]
pub enum MapFault {
    /// The disk has no identity, or no checkpoint page is open.
    #[error("the disk is not formatted")]
    NotFormatted,
    /// The disk is formatted and damaged; the first place.
    #[error("the disk is damaged")]
    Damaged(Place),
    /// The disk failed.
    #[error("the disk failed")]
    Disk,
}

impl From<DiskFault> for MapFault {
    ghost from_gives = { λ _ e. e ≡ Disk };

    fn from(_fault: DiskFault) -> MapFault {
        MapFault::Disk
    }
}

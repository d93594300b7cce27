//! The rows of an update.
ghost use Rattle.std.specs.Prelude.{◌≡◌, length};

use ids_base::row_bytes::RowBytes;

/// A row before and after an update. Both have one length.
#[derive(Drop)]
pub struct Updated {
    pub before: RowBytes,
    pub after: RowBytes,
    ghost same_length: { length before ≡ length after },
}

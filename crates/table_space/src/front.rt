//! What is known of the slots of a page without a look at the entries.

/// Of a page: the slots up to `taken` are all taken, and no entry has a slot above `used`.
#[derive(Clone, Copy, Debug)]
pub struct Front {
    pub taken: u8,
    pub used: u8,
}

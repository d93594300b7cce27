//! Where blocks stand.

/// Some pages of a chunk, each of them a block: block k is page `first` + k.
#[derive(Clone, Copy, Debug, Drop, PartialEq, Eq)]
pub struct Region {
    pub chunk: u32,
    pub first: u32,
    pub count: u32,
}

//! How a disk is laid out. The root is chunk 0:
//!
//! | Pages of the root | What |
//! |---|---|
//! | 0 | identity |
//! | 1 and 2 | checkpoint pages; number n stands on page 1 where n is odd, on page 2 where n is even |
//! | 3 to 3 + `phys` - 1 | physical log, one entry for each page |
//! | the next `logs` * `log_size` | logical log, a ring of places |
//!
//! Chunks 1 to `chunks` hold `data_pages` pages each.
ghost use Rattle.std.specs.Prelude.{◌≡◌, ◌≤◌, ◌+◌, ◌*◌, ◌↔◌, IsTrue};

use gate_blocks::Region;

/// How a disk is laid out.
#[derive(Clone, Copy, Debug, Drop, PartialEq, Eq)]
pub struct Layout {
    /// Entries of the physical log, 16 to 4096.
    pub phys: u32,
    /// Files of the logical log, 3 to 64.
    pub logs: u32,
    /// Blocks of a file, 8 to 1024.
    pub log_size: u32,
    /// Chunks of data, 1 to 8.
    pub chunks: u32,
    /// Pages of each chunk of data, 2 to 65536.
    pub data_pages: u32,
    /// Pages of the root, 1 to 100000, and at least what it needs.
    pub root: u32,
}

impl Layout {
    ghost use Rattle.chunk_map.specs.Layouts.{IsLayout, needed, default_layout};

    /// The layout where nothing else is asked for.
    pub fn defaults() -> Layout
        ensures { result ≡ default_layout }
    {
        Layout {
            phys: 64,
            logs: 4,
            log_size: 64,
            chunks: 1,
            data_pages: 1024,
            root: 323,
        }
    }

    /// Whether each number is in its range, and the root has the pages that it needs.
    pub fn is_in_range(&self) -> bool
        ensures { IsTrue result ↔ IsLayout self.now }
    {
        (16..=4096).contains(&self.phys)
            && (3..=64).contains(&self.logs)
            && (8..=1024).contains(&self.log_size)
            && (1..=8).contains(&self.chunks)
            && (2..=65536).contains(&self.data_pages)
            && self.root <= 100000
            && 3 + self.phys + self.logs * self.log_size <= self.root
    }

    /// The pages that the root needs.
    pub fn needed(&self) -> u32
        requires { IsLayout self.now }
        ensures { result ≡ needed self.now }
    {
        3 + self.phys + self.logs * self.log_size
    }

    /// The identity page.
    pub fn identity_region(&self) -> Region
        ensures chunk { result.chunk ≡ 0 }
        ensures first { result.first ≡ 0 }
        ensures count { result.count ≡ 1 }
    {
        Region {
            chunk: 0,
            first: 0,
            count: 1,
        }
    }

    /// The two checkpoint pages.
    pub fn checkpoint_region(&self) -> Region
        ensures chunk { result.chunk ≡ 0 }
        ensures first { result.first ≡ 1 }
        ensures count { result.count ≡ 2 }
    {
        Region {
            chunk: 0,
            first: 1,
            count: 2,
        }
    }

    /// The physical log.
    pub fn phys_region(&self) -> Region
        ensures chunk { result.chunk ≡ 0 }
        ensures first { result.first ≡ 3 }
        ensures count { result.count ≡ self.now.phys }
    {
        Region {
            chunk: 0,
            first: 3,
            count: self.phys,
        }
    }

    /// The logical log.
    pub fn log_region(&self) -> Region
        requires { IsLayout self.now }
        ensures chunk { result.chunk ≡ 0 }
        ensures first { result.first ≡ 3 + self.now.phys }
        ensures count { result.count ≡ self.now.logs * self.now.log_size }
    {
        Region {
            chunk: 0,
            first: 3 + self.phys,
            count: self.logs * self.log_size,
        }
    }
}

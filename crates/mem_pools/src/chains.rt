//! Chains of block numbers, linked through one table.
//!
//! The table names for each block the next one of its chain. A chain keeps its first and its last block and how many
//! there are; the last block's entry means nothing.
ghost use Rattle.std.specs.Prelude.{◌≡◌, ◌≢◌, ◌<◌, ◌≤◌, ◌+◌, ◌-◌, ◌∷◌, length, drop, slice_index, IfOk, ℕ};
ghost use Rattle.mem_pools.specs.Linked.{list_at, all_free, poured, EachOnce};

use ids_base::memory::Memory;
use std::alloc::Global;
use std::marker::Model;

/// Where a chain begins and ends.
#[derive(Clone, Copy)]
pub struct Ends {
    pub first: u32,
    pub last: u32,
    pub count: u32,
}

/// Every block number stands once in one of the chains.
#[derive(Drop)]
pub struct Chains {
    next: Vec<u32>,
    ends: Vec<Ends>,
}

impl Model for Chains {
    ghost use Rattle.std.specs.Prelude.{List, ℕ, vec_len};
    ghost use Rattle.mem_pools.specs.Linked.{Linked};

    ghost Value = { Linked };

    ghost use Rattle.mem_pools.specs.Links.{linked_of, IsLinked};

    ghost view = { λ a. linked_of a.next.items a.ends.items };

    ghost invariant = { λ a. IsLinked a.next.items a.ends.items };
}

impl Chains {
    /// The chains of `blocks` blocks: all of them in the first chain, in order, and `others` empty ones behind it. Answers
    /// `Memory` where there is none for the tables.
    pub fn new(alloc: Global, blocks: u32, others: u32) -> Result<Self, Memory>
        ensures made { IfOk result (λ c. c ≡ all_free blocks others) }
        ensures owned { IfOk result EachOnce }
    {
        let mut next = Vec::with_capacity(alloc, blocks as usize)?;
        for block in 0..blocks {
            next.push_reserved(block + 1);
        }
        let mut ends = Vec::with_capacity(alloc, others as usize + 1)?;
        ends.push_reserved(Ends {
            first: 0,
            last: blocks.saturating_sub(1),
            count: blocks,
        });
        for _ in 0..others {
            ends.push_reserved(Ends {
                first: 0,
                last: 0,
                count: 0,
            });
        }
        Ok(Self { next, ends })
    }

    /// How many blocks a chain has.
    pub fn len(&self, chain: usize) -> u32
        requires { chain < length self.now.lists }
        ensures { result ≡ length (list_at self.now chain) }
    {
        self.ends[chain].count
    }

    /// The first block of a chain.
    pub fn first(&self, chain: usize) -> u32
        requires there { chain < length self.now.lists }
        requires some { 0 < length (list_at self.now chain) }
        ensures first { list_at self.now chain ≡ result ∷ drop 1 (list_at self.now chain) }
        ensures in_range { result < self.now.blocks }
    {
        self.ends[chain].first
    }

    /// The block behind this one in the chain where it stands.
    pub fn next(&self, block: u32) -> u32
        requires { block < self.now.blocks }
        ensures { (chain k : ℕ) → chain < length self.now.lists
            → k + 1 < length (list_at self.now chain) → slice_index (list_at self.now chain) k ≡ block
            → slice_index (list_at self.now chain) (k + 1) ≡ result }
    {
        self.next[block as usize]
    }

    /// The last block of a chain.
    pub fn last(&self, chain: usize) -> u32
        requires there { chain < length self.now.lists }
        requires some { 0 < length (list_at self.now chain) }
        ensures last { result ≡ slice_index (list_at self.now chain) (length (list_at self.now chain) - 1) }
        ensures in_range { result < self.now.blocks }
    {
        self.ends[chain].last
    }

    /// Moves the first block of one chain behind the last of another.
    pub fn shift(&mut self, from: usize, to: usize)
        requires from_there { from < length self.old.lists }
        requires to_there { to < length self.old.lists }
        requires apart { from ≢ to }
        requires some { 0 < length (list_at self.old from) }
        ensures shifted { self.new ≡ poured self.old from to 1 }
        ensures owned { EachOnce self.new }
    {
        let source = self.ends[from];
        let target = self.ends[to];
        let moved = source.first;
        self.ends[from] = Ends {
            first: self.next[moved as usize],
            last: source.last,
            count: source.count - 1,
        };
        if target.count == 0 {
            self.ends[to] = Ends {
                first: moved,
                last: moved,
                count: 1,
            };
        } else {
            self.next[target.last as usize] = moved;
            self.ends[to] = Ends {
                first: target.first,
                last: moved,
                count: target.count + 1,
            };
        }
    }

    /// Moves the first `count` blocks of one chain, in order, behind the last of another.
    pub fn pour(&mut self, from: usize, to: usize, count: u32)
        requires from_there { from < length self.old.lists }
        requires to_there { to < length self.old.lists }
        requires apart { from ≢ to }
        requires some { count ≤ length (list_at self.old from) }
        requires owned { EachOnce self.old }
        ensures poured { self.new ≡ poured self.old from to count }
        ensures owned { EachOnce self.new }
    {
        for _ in 0..count {
            self.shift(from, to);
        }
    }
}

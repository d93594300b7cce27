//! Pools of bytes in blocks of 2048, each with an owner.
ghost use Rattle.std.specs.Prelude.{ℕ, ◌≡◌, ◌<◌, ◌≤◌, ◌+◌, ◌-◌, ◌++◌, ◌↔◌, ◌%◌, None, is_some, take, drop, length, IsErr, IsTrue, IsSome, IfOk, IfErr, OnOk, OnErr, slice_index_or};
ghost use Rattle.std.specs.List.{count_by};
ghost use Rattle.mem_pools.specs.Pooled.{pool_at, owner_of, chain_of, bytes_of, standing, blocks_for, unused, with_pool, wanted, appended, without_pool, IsOwned, HasBlocks};

use crate::chains::Chains;
use ids_base::memory::Memory;
use ids_base::numbers::ThreadNo;
use std::alloc::Global;
use std::marker::Model;

/// The chain of the free blocks. A pool's chain has the pool's number and one.
const FREE: usize = 0;

/// Not enough blocks are free.
#[derive(Clone, Copy, PartialEq, Eq, Debug)]
pub struct NoPool {
    /// How many the call wanted.
    pub wanted: u32,
    /// How many are free.
    pub free: u32,
}

/// A pool's owner, and how many bytes it has.
#[derive(Clone, Copy)]
struct Slot {
    owner: ThreadNo,
    len: u64,
}

/// Pools of bytes. Each block of 2048 bytes is free or belongs to one pool.
#[derive(Drop)]
pub struct Pools {
    chains: Chains,
    blocks: Vec<[u8; 2048]>,
    slots: Vec<Option<Slot>>,
}

impl Model for Pools {
    ghost use Rattle.mem_pools.specs.Pooled.{Kept};

    ghost Value = { Kept };

    ghost use Rattle.mem_pools.specs.Slots.{kept_of, IsKept};

    ghost view = { λ a. kept_of a.blocks.items a.slots.items a.chains };

    ghost invariant = { λ a. IsKept a.blocks.items a.slots.items a.chains };
}

impl Pools {
    /// All of `blocks` blocks free, and room for `pools` pools at once.
    ///
    /// Takes the memory of all blocks, and time in proportion to it; answers `Memory` where there is not so much. Every later
    /// call but `bytes` takes none.
    pub fn new(alloc: Global, blocks: u32, pools: u32) -> Result<Self, Memory>
        ensures { IfOk result (λ p. p ≡ unused blocks pools) }
    {
        let chains = Chains::new(alloc, blocks, pools)?;
        let mut data = Vec::with_capacity(alloc, blocks as usize)?;
        for _ in 0..blocks {
            data.push_reserved([0; 2048]);
        }
        let mut slots = Vec::with_capacity(alloc, pools as usize)?;
        for _ in 0..pools {
            slots.push_reserved(None);
        }
        Ok(Self {
            chains,
            blocks: data,
            slots,
        })
    }

    /// How many blocks are free. Takes constant time.
    pub fn free(&self) -> u32
        ensures free { result ≡ length self.now.free }
        ensures owned { IsOwned self.now }
    {
        self.chains.len(FREE)
    }

    /// How many pools stand. Takes time in proportion to how many may.
    pub fn standing(&self) -> u32
        ensures { result ≡ standing self.now.pools }
    {
        standing_in(&self.slots) as u32
    }

    /// How many pools may stand at once. Takes constant time.
    pub fn limit(&self) -> u32
        ensures { result ≡ length self.now.pools }
    {
        self.slots.len() as u32
    }

    /// Whether a pool of this number stands. Takes constant time.
    pub fn stands(&self, pool: u32) -> bool
        ensures { IsTrue result ↔ IsSome (pool_at self.now pool) }
    {
        (pool as usize) < self.slots.len() && self.slots[pool as usize].is_some()
    }

    /// Who made a pool. Takes constant time.
    pub fn owner(&self, pool: u32) -> ThreadNo
        requires { IsSome (pool_at self.now pool) }
        ensures { result ≡ owner_of self.now pool }
    {
        let Some(slot) = self.slots[pool as usize] else {
            unreachable!()
        };
        slot.owner
    }

    /// How many bytes a pool has. Takes constant time.
    pub fn len(&self, pool: u32) -> u64
        requires { IsSome (pool_at self.now pool) }
        ensures { result ≡ length (bytes_of self.now pool) }
    {
        let Some(slot) = self.slots[pool as usize] else {
            unreachable!()
        };
        slot.len
    }

    /// How many blocks a pool has: as many as its bytes fill, and at least one. Takes constant time.
    pub fn blocks(&self, pool: u32) -> u32
        requires { IsSome (pool_at self.now pool) }
        ensures chain { result ≡ length (chain_of self.now pool) }
        ensures filled { result ≡ blocks_for (length (bytes_of self.now pool)) }
    {
        self.chains.len(pool as usize + 1)
    }

    /// How many blocks more a pool takes where so many bytes are appended. Takes constant time.
    pub fn wanted(&self, pool: u32, more: usize) -> u32
        requires stands { IsSome (pool_at self.now pool) }
        requires few { more ≤ 4294967295 }
        ensures wanted { result ≡ wanted self.now pool more }
        ensures filled { length (chain_of self.now pool) ≡ blocks_for (length (bytes_of self.now pool)) }
    {
        let has = u64::from(self.blocks(pool));
        let needs = (self.len(pool) + more as u64).saturating_sub(1) / 2048 + 1;
        (needs - has) as u32
    }

    /// Makes a pool with no bytes, which takes one block, and answers its number: the least that no pool has.
    ///
    /// Answers `NoPool` exactly where no block is free, and nothing changes then. Takes time in proportion to the
    /// number of pools.
    pub fn new_pool(&mut self, owner: ThreadNo) -> Result<u32, NoPool>
        requires { standing self.old.pools < length self.old.pools }
        ensures refused { IsErr result ↔ (length self.old.free < 1) }
        ensures told { IfErr result (λ e. (e.wanted ≡ 1) × (e.free ≡ length self.old.free)) }
        ensures unchanged { OnErr result (self.new ≡ self.old) }
        ensures vacant { IfOk result (λ pool. (pool < length self.old.pools) × (pool_at self.old pool ≡ None)) }
        ensures least { IfOk result (λ pool. (i : ℕ) → i < pool → IsSome (pool_at self.old i)) }
        ensures made { IfOk result (λ pool. self.new ≡ with_pool self.old pool owner) }
    {
        if self.free() < 1 {
            return Err(NoPool { wanted: 1, free: 0 });
        }
        let pool = vacant(&self.slots);
        self.chains.pour(FREE, pool + 1, 1);
        self.slots[pool] = Some(Slot { owner, len: 0 });
        Ok(pool as u32)
    }

    /// Appends bytes to a pool, in its last block first and then in free blocks, as many as they need.
    ///
    /// Answers `NoPool` exactly where more are wanted than are free, and nothing changes then. Takes time in proportion to
    /// the bytes.
    pub fn append(&mut self, pool: u32, bytes: &[u8]) -> Result<(), NoPool>
        requires stands { IsSome (pool_at self.old pool) }
        requires few { length bytes.now ≤ 4294967295 }
        ensures refused { IsErr result ↔ (length self.old.free < wanted self.old pool (length bytes.now)) }
        ensures told { IfErr result
            (λ e. (e.wanted ≡ wanted self.old pool (length bytes.now)) × (e.free ≡ length self.old.free)) }
        ensures unchanged { OnErr result (self.new ≡ self.old) }
        ensures appended { OnOk result (self.new ≡ appended self.old pool bytes.now) }
    {
        let wanted = self.wanted(pool, bytes.len());
        let free = self.free();
        if free < wanted {
            return Err(NoPool { wanted, free });
        }
        let mut rest = bytes;
        while !rest.is_empty() {
            let room = 2048 - (self.len(pool) % 2048) as usize;
            let (piece, behind) = rest.split_at(room.min(rest.len()));
            self.put(pool, piece);
            rest = behind;
        }
        Ok(())
    }

    /// Appends bytes that go into one block: the last one, or a free one where the last is full.
    fn put(&mut self, pool: u32, piece: &[u8])
        requires stands { IsSome (pool_at self.old pool) }
        requires some { 0 < length piece.now }
        requires fits { length (bytes_of self.old pool) % 2048 + length piece.now ≤ 2048 }
        requires room { wanted self.old pool (length piece.now) ≤ length self.old.free }
        ensures { self.new ≡ appended self.old pool piece.now }
    {
        let wanted = self.wanted(pool, piece.len());
        let place = pool as usize;
        let Some(slot) = self.slots[place] else {
            unreachable!()
        };
        self.chains.pour(FREE, place + 1, wanted);
        let last = self.chains.last(place + 1);
        fill(
            &mut self.blocks[last as usize],
            (slot.len % 2048) as usize,
            piece,
        );
        self.slots[place] = Some(Slot {
            owner: slot.owner,
            len: slot.len + piece.len() as u64,
        });
    }

    /// The bytes appended to a pool, in order. Takes time and memory in proportion to the pool's blocks, and answers `Memory`
    /// where there is none for them.
    pub fn bytes(&self, alloc: Global, pool: u32) -> Result<Vec<u8>, Memory>
        requires { IsSome (pool_at self.now pool) }
        ensures { IfOk result (λ v. v.items ≡ bytes_of self.now pool) }
    {
        let chain = pool as usize + 1;
        let count = self.chains.len(chain);
        let mut block = self.chains.first(chain);
        let mut out = Vec::new(alloc);
        for k in 0..count {
            out.extend_from_slice(&self.blocks[block as usize])?;
            if k + 1 < count {
                block = self.chains.next(block);
            }
        }
        out.truncate(self.len(pool) as usize);
        Ok(out)
    }

    /// Ends a pool. Its blocks are free again, and its number may be given anew. Takes time in proportion to its blocks.
    pub fn free_pool(&mut self, pool: u32)
        requires { IsSome (pool_at self.old pool) }
        ensures { self.new ≡ without_pool self.old pool }
    {
        let chain = pool as usize + 1;
        self.chains.pour(chain, FREE, self.chains.len(chain));
        self.slots[pool as usize] = None;
    }
}

/// How many slots a pool has.
fn standing_in(slots: &[Option<Slot>]) -> usize
    ensures { result ≡ count_by (λ s. is_some s) slots.now }
{
    let mut standing = 0;
    for slot in slots {
        if slot.is_some() {
            standing += 1;
        }
    }
    standing
}

/// The first slot that no pool has.
fn vacant(slots: &[Option<Slot>]) -> usize
    requires { count_by (λ s. is_some s) slots.now < length slots.now }
    ensures in_range { result < length slots.now }
    ensures vacant { slice_index_or slots.now result None ≡ None }
    ensures least { (i : ℕ) → i < result → IsSome (slice_index_or slots.now i None) }
{
    for (i, slot) in slots.iter().enumerate() {
        if slot.is_none() {
            return i;
        }
    }
    unreachable!()
}

/// Writes bytes into a block from this place on.
fn fill(block: &mut [u8; 2048], at: usize, piece: &[u8])
    requires { at + length piece.now ≤ 2048 }
    ensures { block.new ≡ take at block.old ++ (piece.now ++ drop (at + length piece.now) block.old) }
{
    block[at..at + piece.len()].copy_from_slice(piece);
}

#[cfg(test)]
mod tests {
    use super::*;
    use std::process::Abort;
    use std::test::Fail;

    /// A new pool takes all of 16 blocks, and then neither a byte nor a pool is to be had until it is freed.
    #[test]
    fn fills_and_frees(rt: HostRuntime) -> Result<(), Fail> {
        let mut pools = Pools::new(rt.alloc(), 16, 4)?;
        assert!(rt; pools.standing() < pools.limit());
        let pool = pools.new_pool(7)?;
        let all = vec![in rt.alloc(); 9u8; 32768]?;
        assert!(rt; pools.stands(pool));
        pools.append(pool, &all)?;
        assert_eq!(rt;
            pools.append(pool, &[1]),
            Err(NoPool { wanted: 1, free: 0 })
        );
        assert!(rt; pools.stands(pool));
        assert_eq!(rt; pools.wanted(pool, 1), 1);
        assert!(rt; pools.stands(pool));
        assert_eq!(rt; pools.bytes(rt.alloc(), pool)?, all);
        assert!(rt; pools.stands(pool));
        assert_eq!(rt;
            (pools.owner(pool), pools.len(pool), pools.blocks(pool)),
            (7, 32768, 16)
        );
        assert!(rt; pools.standing() < pools.limit());
        assert_eq!(rt; pools.new_pool(8), Err(NoPool { wanted: 1, free: 0 }));
        assert!(rt; pools.stands(pool));
        pools.free_pool(pool);
        assert_eq!(rt;
            (pools.free(), pools.standing(), pools.stands(pool)),
            (16, 0, false)
        );
        assert!(rt; pools.standing() < pools.limit());
        let next = pools.new_pool(8)?;
        assert!(rt; pools.stands(next));
        assert_eq!(rt; pools.owner(next), 8);
        Ok(())
    }

    /// A pool as a plain list of bytes.
    #[derive(Drop)]
    struct Plain {
        pool: u32,
        owner: ThreadNo,
        bytes: Vec<u8>,
    }

    /// Three thousand calls beside plain lists.
    #[test]
    fn agrees_with_lists(rt: HostRuntime) -> Result<(), Fail> {
        let mut pools = Pools::new(rt.alloc(), 16, 4)?;
        let mut plain = Vec::new(rt.alloc());
        let mut draw = 12345u32;
        for _ in 0..3000 {
            draw = draw.wrapping_mul(1103515245).wrapping_add(12345) % 2147483648;
            let number = draw / 65536;
            match number % 7 {
                0 | 1 => makes(&rt, rt.alloc(), &mut pools, &mut plain, number / 7)?,
                2 => frees(&rt, rt.alloc(), &mut pools, &mut plain, number / 7)?,
                _ => grows(&rt, rt.alloc(), &mut pools, &mut plain, number / 7)?,
            }
        }
        Ok(())
    }

    /// A new pool, where one more may stand.
    fn makes(
        rt: &impl Abort,
        alloc: Global,
        pools: &mut Pools,
        plain: &mut Vec<Plain>,
        owner: ThreadNo,
    ) -> Result<(), Memory> {
        assert_eq!(rt; pools.standing() as usize, plain.len());
        if pools.standing() == pools.limit() {
            return Ok(());
        }
        let taken = blocks_of(plain);
        assert!(rt; pools.standing() < pools.limit());
        match pools.new_pool(owner) {
            Ok(pool) => {
                assert!(rt; taken < 16);
                plain.push(Plain {
                    pool,
                    owner,
                    bytes: Vec::new(alloc),
                })?;
            }
            Err(refusal) => {
                assert_eq!(rt; (refusal, taken), (NoPool { wanted: 1, free: 0 }, 16));
            }
        }
        Ok(())
    }

    /// One of the pools ends.
    fn frees(
        rt: &impl Abort,
        alloc: Global,
        pools: &mut Pools,
        plain: &mut Vec<Plain>,
        number: u32,
    ) -> Result<(), Memory> {
        if !plain.is_empty() {
            let ended = plain.swap_remove(number as usize % plain.len());
            compare(rt, alloc, pools, &ended)?;
            assert!(rt; pools.stands(ended.pool));
            pools.free_pool(ended.pool);
            assert!(rt; !pools.stands(ended.pool));
            assert_eq!(rt;
                u64::from(pools.free()),
                16u64.saturating_sub(blocks_of(plain))
            );
        }
        Ok(())
    }

    /// Bytes more for one of the pools, where there are blocks for them.
    fn grows(
        rt: &impl Abort,
        alloc: Global,
        pools: &mut Pools,
        plain: &mut Vec<Plain>,
        number: u32,
    ) -> Result<(), Memory> {
        let free = 16u64.saturating_sub(blocks_of(plain));
        if plain.is_empty() {
            return Ok(());
        }
        let place = number as usize % plain.len();
        let grown = &mut plain[place];
        let bytes = some_bytes(alloc, number)?;
        let len = grown.bytes.len() as u64;
        let wanted = blocks_for(len.saturating_add(bytes.len() as u64)).saturating_sub(blocks_for(
            len,
        ));
        assert!(rt; pools.stands(grown.pool));
        assert!(rt; bytes.len() < 10000);
        match pools.append(grown.pool, &bytes) {
            Ok(()) => {
                assert!(rt; wanted <= free);
                grown.bytes.extend_from_slice(&bytes)?;
            }
            Err(refusal) => {
                assert!(rt; wanted > free);
                assert_eq!(rt;
                    (u64::from(refusal.wanted), u64::from(refusal.free)),
                    (wanted, free)
                );
            }
        }
        compare(rt, alloc, pools, grown)
    }

    /// A pool has the same owner and bytes as its plain list.
    fn compare(rt: &impl Abort, alloc: Global, pools: &Pools, plain: &Plain) -> Result<(), Memory> {
        assert!(rt; pools.stands(plain.pool));
        assert_eq!(rt; pools.owner(plain.pool), plain.owner);
        assert!(rt; pools.bytes(alloc, plain.pool)? == plain.bytes);
        assert_eq!(rt;
            u64::from(pools.blocks(plain.pool)),
            blocks_for(plain.bytes.len() as u64)
        );
        Ok(())
    }

    /// Up to some thousand bytes that hang on a number.
    fn some_bytes(alloc: Global, number: u32) -> Result<Vec<u8>, Memory> {
        let mut bytes = Vec::new(alloc);
        for k in 0..number % 5000 {
            bytes.push((k % 251) as u8 ^ (number % 256) as u8)?;
        }
        Ok(bytes)
    }

    /// How many blocks hold so many bytes.
    fn blocks_for(bytes: u64) -> u64 {
        bytes.div_ceil(2048).max(1)
    }

    /// How many blocks the pools have.
    fn blocks_of(plain: &[Plain]) -> u64 {
        let mut blocks = 0u64;
        for pool in plain {
            blocks = blocks.saturating_add(blocks_for(pool.bytes.len() as u64));
        }
        blocks
    }
}

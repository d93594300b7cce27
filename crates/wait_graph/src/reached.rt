//! The names reached by a search: what the table has of each is taken once.
ghost use Rattle.std.specs.Prelude.{◌≡◌, ◌≤◌, ◌<◌, ℕ, OnOk, IfOk, IfSome, IsSome, length, Ok, None, Some, true, List, [], nat_eq};
ghost use Rattle.indexmap.specs.IndexMap.{get};
ghost use Rattle.lock_table.specs.Table.{has_thread};
ghost use Rattle.ids_base.specs.declared.lock.LockEntry.{LockEntry as Entry};
ghost use Rattle.wait_graph.specs.Queued.{IsAsked};
ghost use Rattle.wait_graph.specs.Targets.{next as next_of, queue_at};
ghost use Rattle.wait_graph.specs.Search.{Waits};
ghost use Rattle.wait_graph.specs.Reached.{IsAt, HasSpots, HasLines, StandsIn, KeepsScanned};

use crate::asked::{Asked, holders_of, name_waited, queue_at};
use ids_base::lock::{LockEntry, LockName};
use ids_base::memory::Memory;
use ids_base::numbers::ThreadNo;
use indexmap::IndexMap;
use lock_table::Locks;
use std::alloc::Global;

/// Where a thread waits: the number of its line, and its place in it.
#[derive(Clone, Copy, Debug, PartialEq, Eq)]
pub struct Spot {
    pub line: usize,
    pub at: usize,
}

/// The lines of the names reached: the holders of a name, and behind them its queue. For each thread in one of these queues where
/// it stands; and for each line and mode, how many of its entries, from the first on, were looked at for waiters in this mode.
#[derive(Drop)]
pub struct Reached {
    pub lines: Vec<Vec<LockEntry>>,
    pub scanned: Vec<[usize; 6]>,
    pub spots: IndexMap<ThreadNo, Spot>,
}

impl Reached {
    /// No name is reached.
    pub fn new(alloc: Global) -> Reached
        ensures lines { result.lines.items ≡ [] }
        ensures scanned { result.scanned.items ≡ [] }
        ensures spots { (a : ℕ) → get nat_eq result.spots a ≡ None }
    {
        Reached {
            lines: Vec::new(alloc),
            scanned: Vec::new(alloc),
            spots: IndexMap::new(alloc),
        }
    }
}

// Notes where the waiters stand, who are behind the first `first` of the line. It costs a hash look for each.
fn add_spots(
    spots: &mut IndexMap<ThreadNo, Spot>,
    line: &[LockEntry],
    number: usize,
    first: usize,
) -> Result<(), Memory>
    ensures old_or_new { OnOk result ((a : ℕ) (s : Spot) → get nat_eq spots.new a ≡ Some s → HasSpots spots.old line.now number first a s) }
    ensures all { OnOk result ((k : ℕ) (e : Entry) → first ≤ k → IsAt line.now k e → IsSome (get nat_eq spots.new e.thread)) }
{
    for at in first..line.len() {
        spots.insert(line[at].thread, Spot { line: number, at })?;
    }
    Ok(())
}

// Takes the line of a name from the table. It costs the entries that share the name's bucket, and a hash look for each waiter.
fn load(
    alloc: Global,
    reached: &mut Reached,
    locks: &Locks,
    asked: &Asked,
    name: LockName,
) -> Result<(), Memory>
    requires asked { IsAsked locks.now asked.now }
    requires lines { HasLines (next_of locks.now asked.now) reached.old }
    ensures lines { OnOk result (HasLines (next_of locks.now asked.now) reached.new) }
    ensures scanned { OnOk result (KeepsScanned reached.old reached.new) }
    ensures all { OnOk result ((a : ℕ) → has_thread a (queue_at locks.now asked.now name) ≡ true → IsSome (get nat_eq reached.new.spots a)) }
{
    let mut line = holders_of(alloc, locks, name)?;
    let first = line.len();
    let queue = queue_at(alloc, locks, asked, name)?;
    line.extend_from_slice(queue.as_slice())?;
    let number = reached.lines.len();
    add_spots(&mut reached.spots, line.as_slice(), number, first)?;
    reached.lines.push(line)?;
    reached.scanned.push([0; 6])?;
    Ok(())
}

/// Where the thread waits; none where it waits for no thread. The first call at a name takes its line from the table.
pub fn spot_of(
    alloc: Global,
    reached: &mut Reached,
    locks: &Locks,
    asked: &Asked,
    thread: ThreadNo,
) -> Result<Option<Spot>, Memory>
    requires asked { IsAsked locks.now asked.now }
    requires lines { HasLines (next_of locks.now asked.now) reached.old }
    ensures lines { OnOk result (HasLines (next_of locks.now asked.now) reached.new) }
    ensures scanned { OnOk result (KeepsScanned reached.old reached.new) }
    ensures some { IfOk result (λ o. IfSome o (λ s. StandsIn (next_of locks.now asked.now) reached.new thread s)) }
    ensures none { result ≡ Ok None → (b : ℕ) → Waits (next_of locks.now asked.now) thread b → ⊥ }
{
    if let Some(spot) = reached.spots.get(&thread) {
        return Ok(Some(*spot));
    }
    let Some(name) = name_waited(locks, asked, thread) else {
        return Ok(None);
    };
    load(alloc, reached, locks, asked, name)?;
    match reached.spots.get(&thread) {
        Some(spot) => Ok(Some(*spot)),
        None => Ok(None),
    }
}

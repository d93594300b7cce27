//! The search along waits.
ghost use Rattle.std.specs.Prelude.{◌≡◌, ◌<◌, ◌≤◌, ◌+◌, ℕ, OnOk, IfOk, IfSome, length, slice_index, Ok, None, Some, true, false, List};
ghost use Rattle.wait_graph.specs.Cycles.{IsCycle};
ghost use Rattle.wait_graph.specs.Targets.{next as next_of, among};
ghost use Rattle.wait_graph.specs.Queued.{IsAsked};
ghost use Rattle.wait_graph.specs.Reached.{IsAt, IsAgainst, mode_number, HasLines, StandsIn, AreScanned, AgainstFound, IsFound};
ghost use Rattle.wait_graph.specs.Search.{Waits, IsTree, IsClosedAt, IsLonger};
ghost use Rattle.ids_base.specs.declared.lock.LockEntry.{LockEntry as Entry};

use crate::asked::Asked;
use crate::reached::{Reached, Spot, spot_of};
use ids_base::lock::{LockEntry, LockMode, compatible};
use ids_base::memory::Memory;
use ids_base::numbers::ThreadNo;
use indexmap::IndexSet;
use lock_table::Locks;
use std::alloc::Global;

// The threads found, in the order of finding, and for each the place of the one that it was found from.
#[derive(Drop)]
struct Found {
    threads: IndexSet<ThreadNo>,
    parents: Vec<usize>,
}

// Whether a thread is among these. It costs one hash look.
fn is_among(thread: ThreadNo, threads: &IndexSet<ThreadNo>) -> bool
    ensures { result ≡ among thread threads.now.keys }
{
    threads.contains(&thread)
}

// Adds a thread that the one at place `from` waits for, unless it is there. It costs two hash looks, and memory now and then.
fn add(
    found: &mut Found,
    locks: &Locks,
    asked: &Asked,
    from: usize,
    thread: ThreadNo,
) -> Result<(), Memory>
    requires tree { IsTree (next_of locks.now asked.now) asked.now.start found.old.threads.keys found.old.parents.items }
    requires from { from < length found.old.threads.keys }
    requires waits { Waits (next_of locks.now asked.now) (slice_index found.old.threads.keys from) thread }
    ensures tree { OnOk result (IsTree (next_of locks.now asked.now) asked.now.start found.new.threads.keys found.new.parents.items) }
    ensures there { OnOk result (among thread found.new.threads.keys ≡ true) }
    ensures longer { OnOk result (IsLonger found.old.threads.keys found.new.threads.keys) }
{
    if is_among(thread, &found.threads) {
        return Ok(());
    }
    found.threads.insert(thread)?;
    found.parents.push(from)?;
    Ok(())
}

// The number of a mode.
fn mode_number(mode: LockMode) -> usize
    ensures number { result ≡ mode_number mode }
    ensures low { result < 6 }
{
    match mode {
        LockMode::IS => 0,
        LockMode::IX => 1,
        LockMode::S => 2,
        LockMode::U => 3,
        LockMode::SIX => 4,
        LockMode::X => 5,
    }
}

// Adds the thread of an entry, if it is against the waiter and not the requester's; tells whether it is against it and the
// requester's. The waiter is the thread at place `at`. It costs two hash looks.
fn look_at(
    found: &mut Found,
    locks: &Locks,
    asked: &Asked,
    at: usize,
    waiter: LockEntry,
    entry: LockEntry,
) -> Result<bool, Memory>
    requires tree { IsTree (next_of locks.now asked.now) asked.now.start found.old.threads.keys found.old.parents.items }
    requires at { at < length found.old.threads.keys }
    requires waits { IsAgainst waiter.thread waiter.mode entry → Waits (next_of locks.now asked.now) (slice_index found.old.threads.keys at) entry.thread }
    ensures tree { OnOk result (IsTree (next_of locks.now asked.now) asked.now.start found.new.threads.keys found.new.parents.items) }
    ensures closes { result ≡ Ok true → Waits (next_of locks.now asked.now) (slice_index found.old.threads.keys at) asked.now.start }
    ensures found { result ≡ Ok false → IsAgainst waiter.thread waiter.mode entry → IsFound asked.now.start found.new.threads.keys entry }
    ensures longer { OnOk result (IsLonger found.old.threads.keys found.new.threads.keys) }
{
    if entry.thread == waiter.thread || compatible(waiter.mode, entry.mode) {
        return Ok(false);
    }
    if entry.thread == asked.start {
        return Ok(true);
    }
    add(found, locks, asked, at, entry.thread)?;
    Ok(false)
}

// Adds the threads of the entries from `from` to `to` of a line that are against the waiter, up to the requester; tells whether it
// is among them. The waiter is the thread at place `at`. It costs the entries, and two hash looks for each one that is against it.
fn add_against(
    found: &mut Found,
    locks: &Locks,
    asked: &Asked,
    at: usize,
    waiter: LockEntry,
    line: &[LockEntry],
    from: usize,
    to: usize,
) -> Result<bool, Memory>
    requires start { slice_index found.old.threads.keys 0 ≡ asked.now.start }
    requires tree { IsTree (next_of locks.now asked.now) asked.now.start found.old.threads.keys found.old.parents.items }
    requires at { at < length found.old.threads.keys }
    requires waits { (j : ℕ) (e : Entry) → j < to → IsAt line.now j e → IsAgainst waiter.thread waiter.mode e → Waits (next_of locks.now asked.now) (slice_index found.old.threads.keys at) e.thread }
    requires inside { to ≤ length line.now }
    ensures tree { OnOk result (IsTree (next_of locks.now asked.now) asked.now.start found.new.threads.keys found.new.parents.items) }
    ensures closes { result ≡ Ok true → Waits (next_of locks.now asked.now) (slice_index found.old.threads.keys at) asked.now.start }
    ensures closed { result ≡ Ok false → AgainstFound asked.now.start found.new.threads.keys waiter.thread waiter.mode line.now from to }
    ensures longer { OnOk result (IsLonger found.old.threads.keys found.new.threads.keys) }
{
    for k in from..to {
        if look_at(found, locks, asked, at, waiter, line[k])? {
            return Ok(true);
        }
    }
    Ok(false)
}

// Adds all that the thread at place `at` waits for, which stands in this spot, and tells whether the requester is among them. It
// looks at no entry that was looked at for an earlier waiter of its line in its mode.
fn scan(
    found: &mut Found,
    reached: &mut Reached,
    locks: &Locks,
    asked: &Asked,
    spot: Spot,
    at: usize,
) -> Result<bool, Memory>
    requires start { slice_index found.old.threads.keys 0 ≡ asked.now.start }
    requires tree { IsTree (next_of locks.now asked.now) asked.now.start found.old.threads.keys found.old.parents.items }
    requires at { at < length found.old.threads.keys }
    requires lines { HasLines (next_of locks.now asked.now) reached.old }
    requires stands { StandsIn (next_of locks.now asked.now) reached.old (slice_index found.old.threads.keys at) spot }
    requires scanned { AreScanned asked.now.start found.old.threads.keys reached.old }
    ensures tree { OnOk result (IsTree (next_of locks.now asked.now) asked.now.start found.new.threads.keys found.new.parents.items) }
    ensures closes { result ≡ Ok true → Waits (next_of locks.now asked.now) (slice_index found.old.threads.keys at) asked.now.start }
    ensures closed { result ≡ Ok false → IsClosedAt (next_of locks.now asked.now) asked.now.start found.new.threads.keys at }
    ensures longer { OnOk result (IsLonger found.old.threads.keys found.new.threads.keys) }
    ensures lines { OnOk result (HasLines (next_of locks.now asked.now) reached.new) }
    ensures scanned { result ≡ Ok false → AreScanned asked.now.start found.new.threads.keys reached.new }
{
    let mut ends = reached.scanned[spot.line];
    let line = reached.lines[spot.line].as_slice();
    let waiter = line[spot.at];
    let number = mode_number(waiter.mode);
    let from = ends[number];
    if add_against(found, locks, asked, at, waiter, line, from, spot.at)? {
        return Ok(true);
    }
    if waiter.thread != asked.start && from < spot.at {
        ends[number] = spot.at;
        reached.scanned[spot.line] = ends;
    }
    Ok(false)
}

// Adds all that the thread at place `at` waits for, and tells whether the requester is among them.
fn explore(
    alloc: Global,
    found: &mut Found,
    reached: &mut Reached,
    locks: &Locks,
    asked: &Asked,
    at: usize,
) -> Result<bool, Memory>
    requires asked { IsAsked locks.now asked.now }
    requires start { slice_index found.old.threads.keys 0 ≡ asked.now.start }
    requires tree { IsTree (next_of locks.now asked.now) asked.now.start found.old.threads.keys found.old.parents.items }
    requires at { at < length found.old.threads.keys }
    requires lines { HasLines (next_of locks.now asked.now) reached.old }
    requires scanned { AreScanned asked.now.start found.old.threads.keys reached.old }
    ensures tree { OnOk result (IsTree (next_of locks.now asked.now) asked.now.start found.new.threads.keys found.new.parents.items) }
    ensures closes { result ≡ Ok true → Waits (next_of locks.now asked.now) (slice_index found.old.threads.keys at) asked.now.start }
    ensures closed { result ≡ Ok false → IsClosedAt (next_of locks.now asked.now) asked.now.start found.new.threads.keys at }
    ensures longer { OnOk result (IsLonger found.old.threads.keys found.new.threads.keys) }
    ensures lines { OnOk result (HasLines (next_of locks.now asked.now) reached.new) }
    ensures scanned { result ≡ Ok false → AreScanned asked.now.start found.new.threads.keys reached.new }
{
    let thread = found.threads.as_slice()[at];
    match spot_of(alloc, reached, locks, asked, thread)? {
        Some(spot) => scan(found, reached, locks, asked, spot, at),
        None => Ok(false),
    }
}

// The cycle that the thread at place `last` closes by waiting for the first one. It costs the cycle's length.
fn path_to(
    alloc: Global,
    found: &Found,
    locks: &Locks,
    asked: &Asked,
    last: usize,
) -> Result<Vec<ThreadNo>, Memory>
    requires tree { IsTree (next_of locks.now asked.now) (slice_index found.now.threads.keys 0) found.now.threads.keys found.now.parents.items }
    requires last { last < length found.now.threads.keys }
    requires closes { Waits (next_of locks.now asked.now) (slice_index found.now.threads.keys last) (slice_index found.now.threads.keys 0) }
    ensures { IfOk result (λ v. IsCycle (Waits (next_of locks.now asked.now)) (slice_index found.now.threads.keys 0) v.items) }
{
    let mut path = Vec::new(alloc);
    let mut at = last;
    path.push(found.threads.as_slice()[at])?;
    while at > 0 {
        at = found.parents[at];
        path.push(found.threads.as_slice()[at])?;
    }
    path.reverse();
    Ok(path)
}

/// The cycle that the requester closes, if there is one.
pub fn find_cycle(
    alloc: Global,
    locks: &Locks,
    asked: &Asked,
) -> Result<Option<Vec<ThreadNo>>, Memory>
    requires { IsAsked locks.now asked.now }
    ensures found { IfOk result (λ o. IfSome o (λ v. IsCycle (Waits (next_of locks.now asked.now)) asked.now.start v.items)) }
    ensures none { result ≡ Ok None → (threads : List ℕ) → IsCycle (Waits (next_of locks.now asked.now)) asked.now.start threads → ⊥ }
{
    let mut threads = IndexSet::new(alloc);
    threads.insert(asked.start)?;
    let mut parents = Vec::new(alloc);
    parents.push(0)?;
    let mut found = Found { threads, parents };
    let mut reached = Reached::new(alloc);
    let mut at = 0;
    while at < found.threads.len() {
        if explore(alloc, &mut found, &mut reached, locks, asked, at)? {
            return Ok(Some(path_to(alloc, &found, locks, asked, at)?));
        }
        at += 1;
    }
    Ok(None)
}

//! A request looked at as if it stood in its queue.
ghost use Rattle.std.specs.Prelude.{◌≡◌, IfOk};
ghost use Rattle.lock_table.specs.Table.{line, holders};
ghost use Rattle.lock_table.specs.Requests.{wanted, queued};
ghost use Rattle.lock_table.specs.Sound.{IsSound};
ghost use Rattle.wait_graph.specs.Targets.{queue_at, name_waited};

use ids_base::lock::{LockEntry, LockMode, LockName, same_name};
use ids_base::memory::Memory;
use ids_base::numbers::ThreadNo;
use lock_table::{Entries, Locks};
use std::alloc::Global;

/// A request: its thread, its name, and the name's queue with the request in its place.
#[derive(Drop)]
pub struct Asked {
    pub start: ThreadNo,
    pub name: LockName,
    pub queue: Vec<LockEntry>,
}

/// The name that the thread waits for. Constant time, where few threads share a bucket.
pub fn name_waited(locks: &Locks, asked: &Asked, thread: ThreadNo) -> Option<LockName>
    ensures { result ≡ name_waited locks.now asked.now thread }
{
    if thread == asked.start {
        return Some(asked.name);
    }
    match locks.waits_for(thread) {
        Some(entry) => Some(entry.name),
        None => None,
    }
}

// A copy of a line's part.
fn copied(alloc: Global, entries: Entries<'_>) -> Result<Vec<LockEntry>, Memory>
    ensures { IfOk result (λ v. v.items ≡ entries.entry) }
{
    let mut copy = Vec::new(alloc);
    for entry in entries {
        copy.push(entry)?;
    }
    Ok(copy)
}

/// Looks at a request: a copy of its name's queue has it in its place. It takes memory for the queue, and costs the entries that share
/// the name's bucket; for a holder's request, the holders for each waiter.
pub fn ask(
    alloc: Global,
    locks: &Locks,
    thread: ThreadNo,
    name: LockName,
    mode: LockMode,
) -> Result<Asked, Memory>
    ensures start { IfOk result (λ a. a.start ≡ thread) }
    ensures name { IfOk result (λ a. a.name ≡ name) }
    ensures queue { IfOk result (λ a. a.queue.items ≡ (queued (line locks.now name) (wanted (line locks.now name) thread name mode)).queue) }
    ensures sound { IsSound locks.now }
{
    let request = locks.wanted(thread, name, mode);
    let place = locks.place_of(thread, name);
    let mut queue = copied(alloc, locks.waiters(name))?;
    queue.insert(place as usize, request)?;
    Ok(Asked {
        start: thread,
        name,
        queue,
    })
}

/// The holders of the name. It takes memory for them, and costs the holders that share the name's bucket.
pub fn holders_of(alloc: Global, locks: &Locks, name: LockName) -> Result<Vec<LockEntry>, Memory>
    ensures { IfOk result (λ v. v.items ≡ holders locks.now name) }
{
    copied(alloc, locks.holders(name))
}

/// The queue of the name, with the request in its place. It takes memory for it, and costs the waiters that share the name's bucket.
pub fn queue_at(
    alloc: Global,
    locks: &Locks,
    asked: &Asked,
    name: LockName,
) -> Result<Vec<LockEntry>, Memory>
    ensures { IfOk result (λ v. v.items ≡ queue_at locks.now asked.now name) }
{
    if same_name(&name, &asked.name) {
        let copy = Vec::from_slice(alloc, asked.queue.as_slice())?;
        return Ok(copy);
    }
    copied(alloc, locks.waiters(name))
}

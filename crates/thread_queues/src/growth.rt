//! Places for threads: a free one, or room for one more.
ghost use Rattle.std.specs.Prelude.{◌≡◌, ◌<◌, ◌+◌, ℕ, Some, IfOk, OnOk, length};
ghost use Rattle.link_lists.specs.Lists.{list_at, home_at, list_count, id_count, IsSound};
ghost use Rattle.thread_queues.specs.Firsts.{due_at};
ghost use Rattle.thread_queues.specs.Grown.{IsGrown, IsMore};
ghost use Rattle.thread_queues.specs.Laid.{most_threads, block_at, HasRoom, IsBucketed, IsRoom};

use crate::buckets;
use crate::event::{Event, Waiter};
use crate::limits::Limits;
use ids_base::class::Class;
use ids_base::memory::Memory;
use link_lists::Lists;
use std::alloc::Global;

/// The places that no thread has.
pub const FREE: u32 = 1;

/// A place that no thread has: a free one, or one more.
///
/// Answers `Memory` where there is none for one more, and each thread stays where it is.
pub fn free_place(
    alloc: Global,
    alive: &mut Lists,
    queues: &mut Lists,
    buckets: &mut Lists,
    blocks: &mut Vec<Waiter>,
    limits: &mut Limits,
) -> Result<u32, Memory>
    requires alive { IsSound alive.old }
    requires two { list_count alive.old ≡ 2 }
    requires queues { IsSound queues.old }
    requires six { list_count queues.old ≡ 6 }
    requires lives { (x q : ℕ) → home_at queues.old x ≡ Some q → home_at alive.old x ≡ Some 0 }
    requires bucketed { IsBucketed queues.old buckets.old blocks.old.items }
    requires room { HasRoom alive.old queues.old buckets.old (length blocks.old.items) (length limits.old) }
    requires few { length (list_at alive.old 0) < most_threads }
    ensures grown { IsGrown alive.old queues.old blocks.old.items limits.old alive.new queues.new buckets.new blocks.new.items limits.new }
    ensures free { IfOk result (λ id. home_at alive.new id ≡ Some 1) }
{
    if let Some(id) = alive.front(FREE) {
        return Ok(id);
    }
    let places = alive.id_count();
    add_block(blocks, places)?;
    add_limit(limits, places)?;
    add_queue_place(queues, places)?;
    buckets::add_place(alloc, buckets, places, queues, blocks)?;
    let id = alive.add_id()?;
    alive.push_back(FREE, id);
    Ok(id)
}

/// A block more than there are places, if there is none.
fn add_block(blocks: &mut Vec<Waiter>, places: u32) -> Result<(), Memory>
    requires { IsRoom places (length blocks.old.items) }
    ensures same { (x : ℕ) → block_at blocks.new.items x ≡ block_at blocks.old.items x }
    ensures more { OnOk result (length blocks.new.items ≡ places + 1) }
    ensures room { IsRoom places (length blocks.new.items) }
{
    if blocks.len() > places as usize {
        return Ok(());
    }
    blocks.push(Waiter {
        event: Event::Lock,
        thread: 0,
        class: Class::Cpu,
        due: None,
    })?;
    Ok(())
}

/// A limit more than there are places, if there is none.
fn add_limit(limits: &mut Limits, places: u32) -> Result<(), Memory>
    requires few { places < most_threads }
    requires room { IsRoom places (length limits.old) }
    ensures same { (x : ℕ) → due_at limits.new x ≡ due_at limits.old x }
    ensures more { OnOk result (length limits.new ≡ places + 1) }
    ensures room { IsRoom places (length limits.new) }
{
    if limits.len() > places as usize {
        return Ok(());
    }
    limits.add()
}

/// A place more in queues than there are places, if there is none.
fn add_queue_place(queues: &mut Lists, places: u32) -> Result<(), Memory>
    requires few { places < most_threads }
    requires sound { IsSound queues.old }
    requires room { IsRoom places (id_count queues.old) }
    ensures same { IsMore queues.old queues.new }
    ensures more { OnOk result (id_count queues.new ≡ places + 1) }
    ensures room { IsRoom places (id_count queues.new) }
{
    if queues.id_count() > places {
        return Ok(());
    }
    queues.add_id()?;
    Ok(())
}

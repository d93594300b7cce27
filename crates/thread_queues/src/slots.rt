//! Live threads in queues, each in at most one.
//!
//! Each live thread has a block, found by the thread's number; queues are lists of the blocks' places. The threads that wait stand also in
//! buckets by their events (module `buckets`), so that the first one for an event is found with few looks.
ghost use Rattle.std.specs.Prelude.{◌≡◌, ◌==◌, ◌<◌, ◌≤◌, ◌+◌, ◌↔◌, ℕ, true, nat_lt, None, Some, IfOk, IfSome, IfNone, OnOk, OnErr, IsTrue, find, filter, map, length, slice_get, option_map};
ghost use Rattle.link_lists.specs.Lists.{list_at, list_count, has};
ghost use Rattle.thread_queues.specs.Events.{is_event};
ghost use Rattle.thread_queues.specs.Placed.{times};
ghost use Rattle.thread_queues.specs.Slotted.{queue_at, threads_of, nothing, put_in, taken_from, popped_from, with_thread, without_thread, limit_in, IsApart, IsFirstOf};
ghost use Rattle.thread_queues.specs.Laid.{most_threads, block_at};
ghost use Rattle.thread_queues.specs.Least.{behind, IsLeast};
ghost use Rattle.thread_queues.specs.Orders.{comes_before, counts};

use crate::buckets::{self, WAITS};
use crate::event::{Due, Event, Waiter, same_event};
use crate::growth::{self, FREE};
use crate::limits::Limits;
use crate::order::{self, Order};
use ids_base::class::Class;
use ids_base::memory::Memory;
use ids_base::numbers::ThreadNo;
use link_lists::Lists;
use std::alloc::Global;
use std::collections::HashMap;
use std::marker::Model;

/// The places of live threads.
const LIVE: u32 = 0;

/// How many queues there are.
const QUEUES: u32 = 6;

/// Live threads in six queues.
#[derive(Drop)]
pub struct Slots {
    alive: Lists,
    queues: Lists,
    buckets: Lists,
    blocks: Vec<Waiter>,
    limits: Limits,
    numbers: HashMap<ThreadNo, u32>,
    alloc: Global,
}

impl Model for Slots {
    ghost use Rattle.thread_queues.specs.Slotted.{Slotted};

    ghost Value = { Slotted };

    ghost use Rattle.std.specs.Prelude.{nat_eq};
    ghost use Rattle.std.specs.HashMap.{get};
    ghost use Rattle.thread_queues.specs.Laid.{slotted, IsLaid};

    ghost view = { λ a. slotted a.alive a.queues a.blocks.items };

    ghost invariant = { λ a. IsLaid a.alive a.queues a.buckets a.blocks.items a.limits (get nat_eq a.numbers) };
}

impl Slots {
    /// No thread.
    pub fn new(alloc: Global) -> Result<Self, Memory>
        ensures { IfOk result (λ s. s ≡ nothing) }
    {
        let alive = Lists::new(alloc, 2)?;
        let queues = Lists::new(alloc, QUEUES)?;
        let buckets = buckets::none(alloc)?;
        Ok(Self {
            alive,
            queues,
            buckets,
            blocks: Vec::new(alloc),
            limits: Limits::new(alloc),
            numbers: HashMap::new(alloc),
            alloc,
        })
    }

    /// A thread that lives, in no queue. Answers `Memory` where there is none, and all is as it was.
    pub fn add(&mut self, thread: ThreadNo) -> Result<(), Memory>
        requires new { times thread self.old.live ≡ 0 }
        requires few { length self.old.live < most_threads }
        ensures added { OnOk result (self.new ≡ with_thread self.old thread) }
        ensures unchanged { OnErr result (self.new ≡ self.old) }
    {
        let id = growth::free_place(
            self.alloc,
            &mut self.alive,
            &mut self.queues,
            &mut self.buckets,
            &mut self.blocks,
            &mut self.limits,
        )?;
        self.numbers.insert(thread, id)?;
        self.alive.unlink(id);
        self.alive.push_back(LIVE, id);
        self.blocks[id as usize] = Waiter {
            event: Event::Lock,
            thread,
            class: Class::Cpu,
            due: None,
        };
        Ok(())
    }

    /// A thread that lives no more.
    pub fn remove(&mut self, thread: ThreadNo)
        requires lives { 0 < times thread self.old.live }
        requires apart { IsApart self.old thread }
        ensures { self.new ≡ without_thread self.old thread }
    {
        let Some(id) = self.numbers.remove(&thread) else {
            unreachable!()
        };
        self.alive.unlink(id);
        self.alive.push_back(FREE, id);
    }

    /// A thread goes to the end of a queue.
    pub fn put(&mut self, queue: u32, waiter: Waiter)
        requires queue { queue < 6 }
        requires lives { 0 < times waiter.thread self.old.live }
        requires apart { IsApart self.old waiter.thread }
        ensures { self.new ≡ put_in self.old queue waiter }
    {
        let Some(id) = self.numbers.get(&waiter.thread) else {
            unreachable!()
        };
        let id = *id;
        self.blocks[id as usize] = waiter;
        self.queues.push_back(queue, id);
        buckets::put(&mut self.buckets, queue, waiter.event, id);
        self.limits.set(id as usize, limit_in(queue, waiter));
    }

    /// A thread leaves its queue.
    pub fn take(&mut self, queue: u32, thread: ThreadNo) -> Waiter
        requires { 0 < times thread (threads_of (queue_at self.old queue)) }
        ensures waiter { find (λ w. w.thread == thread) (queue_at self.old queue) ≡ Some result }
        ensures rest { self.new ≡ taken_from self.old queue thread }
    {
        let Some(id) = self.numbers.get(&thread) else {
            unreachable!()
        };
        let id = *id;
        self.queues.unlink(id);
        buckets::take(&mut self.buckets, id);
        self.limits.set(id as usize, None);
        self.blocks[id as usize]
    }

    /// The first thread of a queue leaves it, if there is one.
    pub fn pop(&mut self, queue: u32) -> Option<ThreadNo>
        requires { queue < 6 }
        ensures head { result ≡ slice_get (threads_of (queue_at self.old queue)) 0 }
        ensures rest { self.new ≡ popped_from self.old queue }
    {
        let first = self.queues.front(queue)?;
        let thread = self.blocks[first as usize].thread;
        self.take(queue, thread);
        Some(thread)
    }

    /// The thread that waits longest for an event.
    pub fn first_for(&self, event: Event) -> Option<ThreadNo>
        ensures { result
            ≡ option_map (λ w. w.thread) (find (λ w. is_event w.event event) (queue_at self.now 4)) }
    {
        self.waiter_at(event, 0)
    }

    /// The thread at a position among those that wait for an event, in the order of waiting.
    pub fn waiter_at(&self, event: Event, position: u32) -> Option<ThreadNo>
        ensures { result
            ≡ slice_get (threads_of (filter (λ w. is_event w.event event) (queue_at self.now 4))) position }
    {
        let bucket = buckets::bucket_of(self.buckets.list_count(), event);
        thread_at(&self.buckets, bucket, &self.blocks, Some(event), position)
    }

    /// The thread at a position of a queue.
    pub fn thread_at(&self, queue: u32, position: u32) -> Option<ThreadNo>
        requires { queue < 6 }
        ensures { result ≡ slice_get (threads_of (queue_at self.now queue)) position }
    {
        thread_at(&self.queues, queue, &self.blocks, None, position)
    }

    /// What is known of a thread in a queue.
    pub fn waiter(&self, queue: u32, thread: ThreadNo) -> Waiter
        requires { 0 < times thread (threads_of (queue_at self.now queue)) }
        ensures { find (λ w. w.thread == thread) (queue_at self.now queue) ≡ Some result }
    {
        let Some(id) = self.numbers.get(&thread) else {
            unreachable!()
        };
        self.blocks[*id as usize]
    }

    /// The first of a queue, in an order, behind this one.
    pub fn first_behind(&self, queue: u32, order: Order, from: Option<Waiter>) -> Option<Waiter>
        requires { queue < 6 }
        ensures { IsLeast (comes_before order) (behind (comes_before order) from (queue_at self.now queue)) result }
    {
        order::first_behind(&self.queues, queue, &self.blocks, order, from)
    }

    /// The live thread with the least number above this one.
    pub fn thread_behind(&self, thread: Option<ThreadNo>) -> Option<ThreadNo>
        ensures { IsLeast nat_lt (behind nat_lt thread self.now.live) result }
    {
        let from = numbered(thread);
        let found = order::first_behind(&self.alive, LIVE, &self.blocks, Order::Number, from)?;
        Some(found.thread)
    }

    /// Whether a thread stands in a queue.
    pub fn stands(&self, queue: u32, thread: ThreadNo) -> bool
        ensures { IsTrue result ↔ (0 < times thread (threads_of (queue_at self.now queue))) }
    {
        match self.numbers.get(&thread) {
            Some(id) => is_home(self.queues.home(*id), queue),
            None => false,
        }
    }

    /// The queue that a thread stands in, if it stands in one.
    pub fn home(&self, thread: ThreadNo) -> Option<u32>
        ensures queue { IfSome result (λ q. 0 < times thread (threads_of (queue_at self.now q))) }
        ensures apart { IfNone result (IsApart self.now thread) }
    {
        let id = self.numbers.get(&thread)?;
        self.queues.home(*id)
    }

    /// Whether a thread lives.
    pub fn lives(&self, thread: ThreadNo) -> bool
        ensures { IsTrue result ↔ (0 < times thread self.now.live) }
    {
        self.numbers.get(&thread).is_some()
    }

    /// The first of all limits of threads in queues.
    pub fn first_limit(&self) -> Option<Due>
        ensures { IsFirstOf self.now result }
    {
        self.limits.first()
    }
}

/// Whether this list is the one.
fn is_home(home: Option<u32>, list: u32) -> bool
    ensures { IsTrue result ↔ (home ≡ Some list) }
{
    match home {
        Some(other) => other == list,
        None => false,
    }
}

/// The thread at a position among the blocks of a list of ids, of which those are counted that wait for an event, if one is named.
fn thread_at(
    lists: &Lists,
    list: u32,
    blocks: &[Waiter],
    event: Option<Event>,
    position: u32,
) -> Option<ThreadNo>
    requires there { list < list_count lists.now }
    requires blocks { (x : ℕ) → has x (list_at lists.now list) ≡ true → x < length blocks.now }
    ensures { result
        ≡ slice_get (threads_of (filter (counts event) (map (block_at blocks.now) (list_at lists.now list)))) position }
{
    let mut left = position;
    let mut at = lists.front(list);
    while let Some(id) = at {
        let waiter = blocks[id as usize];
        if counts(event, waiter) {
            if left == 0 {
                return Some(waiter.thread);
            }
            left -= 1;
        }
        at = lists.next(id);
    }
    None
}

/// Whether a thread waits for the event, if one is named.
fn counts(event: Option<Event>, waiter: Waiter) -> bool
    ensures { result ≡ counts event waiter }
{
    match event {
        Some(event) => same_event(waiter.event, event),
        None => true,
    }
}

/// A thread of this number, if there is one.
fn numbered(thread: Option<ThreadNo>) -> Option<Waiter>
    ensures { option_map (λ w. w.thread) result ≡ thread }
{
    let thread = thread?;
    Some(Waiter {
        event: Event::Lock,
        thread,
        class: Class::Cpu,
        due: None,
    })
}

/// When a thread in a queue is due: never in a ready queue, and always where it sleeps.
fn limit_in(queue: u32, waiter: Waiter) -> Option<Due>
    ensures { result ≡ limit_in (Some queue) waiter }
{
    if queue < WAITS {
        return None;
    }
    if queue > WAITS {
        return Some(Due {
            tick: waiter.due.unwrap_or(0),
            thread: waiter.thread,
        });
    }
    let tick = waiter.due?;
    Some(Due {
        tick,
        thread: waiter.thread,
    })
}

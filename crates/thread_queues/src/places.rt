//! The places of threads.
//!
//! A call that moves a thread looks for it by number in a hash table, and takes time in proportion to the logarithm of the most threads
//! that lived at once, since a tree knows when each is due; what a call takes beyond that it says.
ghost use Rattle.std.specs.Prelude.{◌≡◌, ◌≢◌, ◌==◌, ◌<◌, ◌≤◌, ◌+◌, ◌↔◌, ℕ, nat_lt, [], None, Some, IfOk, OnOk, OnErr, IsNone, IsSome, IsTrue, length, slice_get, option_map, filter, map, is_some, option_to_list};
ghost use Rattle.std.specs.List.{flat_map};
ghost use Rattle.ids_base.specs.Classes.{class_of};
ghost use Rattle.thread_queues.specs.Events.{is_event, is_event_before};
ghost use Rattle.thread_queues.specs.Laid.{most_threads};
ghost use Rattle.thread_queues.specs.Least.{behind, IsLeast};
ghost use Rattle.thread_queues.specs.Placed.{times as count, queue, queue_of, waiter_of, sleeper_of, running_at, thread_at, first_waiter, idle, spawned, dispatched, yielded, waiting, sleeping, ended, woken_one, woken_waiter, roused, woken, IsAt, IsStill, IsPlaced};
ghost use Rattle.thread_queues.specs.Shown.{class_queue, sleeper};
ghost use Rattle.thread_queues.specs.Ticks.{limits, due_threads, first_due, still_count, raised, ticked, is_due_before};

use crate::buckets::WAITS;
use crate::event::{Due, Event, Place, Sleeper, Waiter};
use crate::order::Order;
use crate::slots::Slots;
use ids_base::class::Class;
use ids_base::memory::Memory;
use ids_base::numbers::ThreadNo;
use std::alloc::Global;
use std::marker::Model;

/// The queue of the threads that sleep.
const SLEEPS: u32 = 5;

/// Live threads: each is ready, waits for one event, sleeps, or runs on one processor.
#[derive(Drop)]
pub struct Threads {
    cpu: u32,
    tick: u64,
    live: u32,
    slots: Slots,
    running: Vec<Option<ThreadNo>>,
}

impl Model for Threads {
    ghost use Rattle.thread_queues.specs.Placed.{Placed};

    ghost Value = { Placed };

    ghost use Rattle.thread_queues.specs.Kept.{placed_of, IsKept};

    ghost view = { placed_of };

    ghost invariant = { IsKept };
}

impl Threads {
    /// No thread, tick 0, and processors that run nothing: `cpu` of class CPU, then one each of LIO, PIO and AIO. Answers `Memory` where
    /// there is none for them. Takes time in proportion to the processors.
    pub fn new(alloc: Global, cpu: u32) -> Result<Self, Memory>
        requires { cpu ≤ 16 }
        ensures { IfOk result (λ t. t ≡ idle cpu) }
    {
        let slots = Slots::new(alloc)?;
        let mut running = Vec::with_capacity(alloc, cpu as usize + 3)?;
        for _ in 0..cpu + 3 {
            running.push_reserved(None);
        }
        Ok(Self {
            cpu,
            tick: 0,
            live: 0,
            slots,
            running,
        })
    }

    /// The tick. Takes constant time.
    pub fn now(&self) -> u64
        ensures tick { result ≡ self.now.tick }
        ensures placed { IsPlaced self.now }
    {
        self.tick
    }

    /// How many processors there are. Takes constant time.
    pub fn processors(&self) -> usize
        ensures { result ≡ length self.now.running }
    {
        self.running.len()
    }

    /// The thread that a processor runs. Takes constant time.
    pub fn running(&self, vp: u32) -> Option<ThreadNo>
        requires { vp < length self.now.running }
        ensures { result ≡ running_at self.now vp }
    {
        self.running[vp as usize]
    }

    /// How many threads live. Takes constant time.
    pub fn live(&self) -> u32
        ensures { result ≡ length self.now.live }
    {
        self.live
    }

    /// Whether a thread lives: it was spawned and has not ended. Takes constant time.
    pub fn lives(&self, thread: ThreadNo) -> bool
        ensures { IsTrue result ↔ (0 < count thread self.now.live) }
    {
        self.slots.lives(thread)
    }

    /// Whether a thread waits. Takes constant time.
    pub fn waits(&self, thread: ThreadNo) -> bool
        ensures { result ≡ is_some (waiter_of self.now thread) }
    {
        self.slots.stands(WAITS, thread)
    }

    /// Whether a thread sleeps. Takes constant time.
    pub fn sleeps(&self, thread: ThreadNo) -> bool
        ensures { result ≡ is_some (sleeper_of self.now thread) }
    {
        self.slots.stands(SLEEPS, thread)
    }

    /// Where a live thread is. Takes constant time, and for one that runs time in proportion to the number of processors.
    pub fn place(&self, thread: ThreadNo) -> Place
        requires { 0 < count thread self.now.live }
        ensures { IsAt self.now thread result }
    {
        match self.slots.home(thread) {
            Some(0) => Place::Ready(Class::Cpu),
            Some(1) => Place::Ready(Class::Lio),
            Some(2) => Place::Ready(Class::Pio),
            Some(3) => Place::Ready(Class::Aio),
            Some(WAITS) => Place::Waits(self.slots.waiter(WAITS, thread).event),
            Some(_) => Place::Sleeps,
            None => Place::Runs(self.processor_of(thread)),
        }
    }

    /// The processor that runs a thread.
    fn processor_of(&self, thread: ThreadNo) -> u32
        requires { 0 < count thread (flat_map option_to_list self.now.running) }
        ensures { running_at self.now result ≡ Some thread }
    {
        for vp in 0..self.cpu + 3 {
            if self.running[vp as usize] == Some(thread) {
                return vp;
            }
        }
        unreachable!()
    }

    /// The live thread with the least number above this one, and of all where none is named: None exactly where there is none.
    ///
    /// Takes time in proportion to the live threads.
    pub fn thread_after(&self, thread: Option<ThreadNo>) -> Option<ThreadNo>
        ensures { IsLeast nat_lt (behind nat_lt thread self.now.live) result }
    {
        self.slots.thread_behind(thread)
    }

    /// Whether a class has a ready thread. Takes constant time.
    pub fn has_ready(&self, class: Class) -> bool
        ensures { IsTrue result ↔ (queue self.now.ready class ≢ []) }
    {
        self.ready_at(class, 0).is_some()
    }

    /// The thread at a position of a class's ready queue, from 0 on: None exactly where the queue is not so long.
    ///
    /// Takes time in proportion to the position.
    pub fn ready_at(&self, class: Class, position: u32) -> Option<ThreadNo>
        ensures { result ≡ slice_get (queue self.now.ready class) position }
    {
        self.slots.thread_at(ready_queue(class), position)
    }

    /// The thread at a position of the queue of an event, from 0 on: None exactly where the queue is not so long.
    ///
    /// Takes time in proportion to the position for an event without a number. For a latch or a page it may pass over threads of the
    /// bucket that wait for others, as `wake_one` does: at worst all that wait for latches and pages.
    pub fn waiting_at(&self, event: Event, position: u32) -> Option<ThreadNo>
        ensures { result ≡ slice_get (map (λ w. w.thread) (queue_of self.now event)) position }
    {
        self.slots.waiter_at(event, position)
    }

    /// The first event behind this one, in the order of that type, that a thread waits for, and the first of all where none is named:
    /// None exactly where there is none. Takes time in proportion to the threads that wait.
    pub fn event_after(&self, event: Option<Event>) -> Option<Event>
        ensures { IsLeast is_event_before (behind is_event_before event (map (λ w. w.event) self.now.waits)) result }
    {
        let found = self
            .slots
            .first_behind(WAITS, Order::Events, any_waiter(event))?;
        Some(found.event)
    }

    /// The first sleeping thread behind this one, by the tick when they are due and then by number, and the first of all where none is
    /// named: None exactly where there is none. Takes time in proportion to the threads that sleep.
    pub fn sleeper_after(&self, sleeper: Option<Sleeper>) -> Option<Sleeper>
        ensures { IsLeast is_due_before (behind is_due_before sleeper self.now.sleeps) result }
    {
        let found = self
            .slots
            .first_behind(SLEEPS, Order::Ticks, asleep(sleeper))?;
        Some(sleeper_of(found))
    }

    /// The least tick when a thread is due that waits with a limit or sleeps: None exactly where there is no such thread.
    ///
    /// Takes constant time.
    pub fn next_due(&self) -> Option<u64>
        ensures { IsLeast nat_lt (map (λ d. d.tick) (limits self.now)) result }
    {
        let due = self.slots.first_limit()?;
        Some(due.tick)
    }

    /// Makes a thread, which goes to the end of its class's ready queue.
    ///
    /// Takes room for it in every queue, so that no later call takes any. Tables grow to about twice their size now and then, and with
    /// them the buckets by events: a call takes the logarithm on average over many, and at worst time in proportion to the most threads
    /// that lived at once. Answers `Memory` where there is none, and nothing changes then.
    pub fn spawn(&mut self, thread: ThreadNo, class: Class) -> Result<(), Memory>
        requires new { count thread self.old.live ≡ 0 }
        requires few { length self.old.live < most_threads }
        ensures spawned { OnOk result (self.new ≡ spawned self.old thread class) }
        ensures unchanged { OnErr result (self.new ≡ self.old) }
    {
        self.slots.add(thread)?;
        self.live += 1;
        self.slots
            .put(ready_queue(class), ready_waiter(thread, class));
        Ok(())
    }

    /// Lets a processor run the head of its class's ready queue, and answers it: None exactly where the queue is empty.
    pub fn dispatch(&mut self, vp: u32) -> Option<ThreadNo>
        requires there { vp < length self.old.running }
        requires free { running_at self.old vp ≡ None }
        ensures head { result ≡ slice_get (queue self.old.ready (class_of self.old.cpu vp)) 0 }
        ensures dispatched { self.new ≡ dispatched self.old vp }
    {
        let class = Class::of_processor(self.cpu, vp);
        let thread = self.slots.pop(ready_queue(class));
        self.running[vp as usize] = thread;
        thread
    }

    /// The thread on a processor goes to the end of its class's ready queue.
    pub fn yield_now(&mut self, vp: u32)
        requires { IsSome (running_at self.old vp) }
        ensures { self.new ≡ yielded self.old vp }
    {
        if let Some(thread) = self.running[vp as usize] {
            self.running[vp as usize] = None;
            let class = Class::of_processor(self.cpu, vp);
            self.slots
                .put(ready_queue(class), ready_waiter(thread, class));
        }
    }

    /// The thread on a processor waits for an event, behind those that wait for it already.
    pub fn wait_on(&mut self, vp: u32, event: Event)
        requires { IsSome (running_at self.old vp) }
        ensures { self.new ≡ waiting self.old vp event None }
    {
        self.wait(vp, event, None);
    }

    /// The same with a limit: at that tick the thread is due, and the event is waited for no more.
    pub fn wait_until(&mut self, vp: u32, event: Event, tick: u64)
        requires { IsSome (running_at self.old vp) }
        ensures { self.new ≡ waiting self.old vp event (Some tick) }
    {
        self.wait(vp, event, Some(tick));
    }

    fn wait(&mut self, vp: u32, event: Event, due: Option<u64>)
        requires { IsSome (running_at self.old vp) }
        ensures { self.new ≡ waiting self.old vp event due }
    {
        if let Some(thread) = self.running[vp as usize] {
            self.running[vp as usize] = None;
            let waiter = Waiter {
                event,
                thread,
                class: Class::of_processor(self.cpu, vp),
                due,
            };
            self.slots.put(WAITS, waiter);
        }
    }

    /// The thread on a processor sleeps until a tick.
    pub fn sleep_until(&mut self, vp: u32, tick: u64)
        requires { IsSome (running_at self.old vp) }
        ensures { self.new ≡ sleeping self.old vp tick }
    {
        if let Some(thread) = self.running[vp as usize] {
            self.running[vp as usize] = None;
            let waiter = Waiter {
                event: Event::Lock,
                thread,
                class: Class::of_processor(self.cpu, vp),
                due: Some(tick),
            };
            self.slots.put(SLEEPS, waiter);
        }
    }

    /// The thread on a processor ends. Takes constant time.
    pub fn end(&mut self, vp: u32)
        requires { IsSome (running_at self.old vp) }
        ensures { self.new ≡ ended self.old vp }
    {
        if let Some(thread) = self.running[vp as usize] {
            self.running[vp as usize] = None;
            self.slots.remove(thread);
            self.live -= 1;
        }
    }

    /// The thread that waits longest for an event gets ready. Answers it, and None exactly where nobody waits.
    ///
    /// Finds the thread in constant time where the event has no number. Latches and pages share buckets by their numbers, and the call
    /// may pass over the threads of the bucket that wait for others of them. There are at least as many buckets as threads that lived at
    /// once: where numbers spread well over them, these are fewer than one on average; at worst they are all that wait for latches and
    /// pages.
    pub fn wake_one(&mut self, event: Event) -> Option<ThreadNo>
        ensures thread { result ≡ option_map (λ w. w.thread) (first_waiter self.old event) }
        ensures woken { self.new ≡ woken_one self.old event }
    {
        let thread = self.slots.first_for(event)?;
        self.wake_waiting(thread);
        Some(thread)
    }

    /// A waiting thread gets ready.
    fn wake_waiting(&mut self, thread: ThreadNo)
        requires { IsSome (waiter_of self.old thread) }
        ensures { self.new ≡ woken_waiter self.old (λ w. w.thread == thread) (waiter_of self.old thread) }
    {
        let waiter = self.slots.take(WAITS, thread);
        self.slots.put(
            ready_queue(waiter.class),
            ready_waiter(waiter.thread, waiter.class),
        );
    }

    /// A sleeping thread gets ready.
    fn wake_sleeping(&mut self, thread: ThreadNo)
        requires { IsSome (sleeper_of self.old thread) }
        ensures { self.new ≡ roused self.old (λ s. s.thread == thread) (sleeper_of self.old thread) }
    {
        let waiter = self.slots.take(SLEEPS, thread);
        self.slots.put(
            ready_queue(waiter.class),
            ready_waiter(waiter.thread, waiter.class),
        );
    }

    /// A thread that waits or sleeps gets ready.
    pub fn wake(&mut self, thread: ThreadNo)
        requires { IsStill self.old thread }
        ensures { self.new ≡ woken self.old thread }
    {
        if self.waits(thread) {
            self.wake_waiting(thread);
        } else {
            self.wake_sleeping(thread);
        }
    }

    /// The tick rises by one, and the threads that wait with a limit or sleep and are due get ready: by due tick, then by number.
    ///
    /// Takes time in proportion to the threads that get ready, times the logarithm of the number of live threads.
    pub fn tick(&mut self)
        requires { self.old.tick < 18446744073709551615 }
        ensures ticked { self.new ≡ ticked self.old }
        ensures none_due { due_threads self.new ≡ [] }
    {
        self.raise_tick();
        while let Some(due) = self.first_due() {
            self.wake(due.thread);
        }
    }

    /// The tick rises by one, and no thread is woken.
    fn raise_tick(&mut self)
        requires { self.old.tick < 18446744073709551615 }
        ensures { self.new ≡ raised self.old }
    {
        self.tick += 1;
    }

    /// The due thread that is woken first.
    fn first_due(&self) -> Option<Due>
        ensures { result ≡ first_due self.now }
    {
        let due = self.slots.first_limit()?;
        if due.tick <= self.tick {
            Some(due)
        } else {
            None
        }
    }
}

/// The ready queue of a class.
fn ready_queue(class: Class) -> u32
    ensures queue { result ≡ class_queue class }
    ensures in_range { result < 4 }
{
    match class {
        Class::Cpu => 0,
        Class::Lio => 1,
        Class::Pio => 2,
        Class::Aio => 3,
    }
}

/// A ready thread, which waits for nothing.
fn ready_waiter(thread: ThreadNo, class: Class) -> Waiter
    ensures { result.thread ≡ thread }
{
    Waiter {
        event: Event::Lock,
        thread,
        class,
        due: None,
    }
}

/// A thread that waits for an event, if one is named.
fn any_waiter(event: Option<Event>) -> Option<Waiter>
    ensures { option_map (λ w. w.event) result ≡ event }
{
    let event = event?;
    Some(Waiter {
        event,
        thread: 0,
        class: Class::Cpu,
        due: None,
    })
}

/// A sleeping thread as one in a queue, if one is named.
fn asleep(from: Option<Sleeper>) -> Option<Waiter>
    ensures { option_map sleeper result ≡ from }
{
    let sleeper = from?;
    Some(Waiter {
        event: Event::Lock,
        thread: sleeper.thread,
        class: sleeper.class,
        due: Some(sleeper.due),
    })
}

/// A sleeping thread without what it has of a waiting one.
fn sleeper_of(waiter: Waiter) -> Sleeper
    ensures { result ≡ sleeper waiter }
{
    Sleeper {
        due: waiter.due.unwrap_or(0),
        thread: waiter.thread,
        class: waiter.class,
    }
}

#[cfg(test)]
mod tests {
    use super::*;
    use std::process::Abort;
    use std::test::Fail;

    /// Two threads wait for a flush, and the first of them is woken first.
    #[test]
    fn wakes_in_order(rt: HostRuntime) -> Result<(), Fail> {
        let mut threads = Threads::new(rt.alloc(), 1)?;
        threads.spawn(1, Class::Cpu)?;
        threads.spawn(2, Class::Cpu)?;
        threads.spawn(3, Class::Cpu)?;
        assert_eq!(rt; start(&rt, &mut threads), Some(1));
        assert!(rt; threads.processors() > 0);
        assert!(rt; threads.running(0).is_some());
        threads.wait_on(0, Event::LogFlush);
        assert_eq!(rt; start(&rt, &mut threads), Some(2));
        assert!(rt; threads.processors() > 0);
        assert!(rt; threads.running(0).is_some());
        threads.wait_on(0, Event::LogFlush);
        assert_eq!(rt; threads.wake_one(Event::LogFlush), Some(1));
        assert_eq!(rt; threads.wake_one(Event::Latch(1)), None);
        assert_eq!(rt; start(&rt, &mut threads), Some(3));
        assert!(rt; threads.processors() > 0);
        assert!(rt; threads.running(0).is_some());
        threads.yield_now(0);
        assert_eq!(rt; start(&rt, &mut threads), Some(1));
        Ok(())
    }

    fn start(rt: &impl Abort, threads: &mut Threads) -> Option<ThreadNo> {
        assert!(rt; threads.processors() > 0);
        assert!(rt; threads.running(0).is_none());
        threads.dispatch(0)
    }
}

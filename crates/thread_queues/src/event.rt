//! What a thread may wait for, where a thread is, and a thread that waits or sleeps.
ghost use Rattle.std.specs.Prelude.{◌≡◌};
ghost use Rattle.thread_queues.specs.Events.{is_event};

use ids_base::class::Class;
use ids_base::numbers::ThreadNo;

/// What a thread waits for: a lock, a frame's latch, a data page, a flush, room or a turn.
#[derive(Clone, Copy, PartialEq, Eq, Debug)]
pub enum Event {
    Lock,
    Latch(u32),
    Page(u32),
    LogFlush,
    PhysFlush,
    LogSpace,
    Checkpoint,
    Critical,
    Cleaning,
}

impl Event {
    ghost use Rattle.thread_queues.specs.Events.{number_of};

    /// The number of an event in the order of this type: by kind, then by the number of the frame or page.
    pub fn number(self) -> u64
        ensures { result ≡ number_of self }
    {
        match self {
            Event::Lock => 0,
            Event::Latch(frame) => 1 + u64::from(frame),
            Event::Page(page) => 4294967297 + u64::from(page),
            Event::LogFlush => 8589934593,
            Event::PhysFlush => 8589934594,
            Event::LogSpace => 8589934595,
            Event::Checkpoint => 8589934596,
            Event::Critical => 8589934597,
            Event::Cleaning => 8589934598,
        }
    }
}

/// Whether two events are the same.
pub fn same_event(a: Event, b: Event) -> bool
    ensures { result ≡ is_event a b }
{
    match (a, b) {
        (Event::Latch(f), Event::Latch(g)) => f == g,
        (Event::Page(p), Event::Page(q)) => p == q,
        (Event::Lock, Event::Lock)
        | (Event::LogFlush, Event::LogFlush)
        | (Event::PhysFlush, Event::PhysFlush)
        | (Event::LogSpace, Event::LogSpace)
        | (Event::Checkpoint, Event::Checkpoint)
        | (Event::Critical, Event::Critical)
        | (Event::Cleaning, Event::Cleaning) => true,
        _ => false,
    }
}

/// A thread that waits: for what, and until which tick at most.
#[derive(Clone, Copy, PartialEq, Eq, Debug)]
pub struct Waiter {
    pub event: Event,
    pub thread: ThreadNo,
    pub class: Class,
    pub due: Option<u64>,
}

/// A thread that sleeps until a tick.
#[derive(Clone, Copy, PartialEq, Eq, Debug)]
pub struct Sleeper {
    pub due: u64,
    pub thread: ThreadNo,
    pub class: Class,
}

/// Where a live thread is.
#[derive(Clone, Copy, PartialEq, Eq, Debug)]
pub enum Place {
    /// In the ready queue of this class.
    Ready(Class),
    /// Among those that wait for this event.
    Waits(Event),
    /// Among those that sleep.
    Sleeps,
    /// On this processor.
    Runs(u32),
}

/// When a thread is due that waits with a limit or sleeps.
#[derive(Clone, Copy)]
pub struct Due {
    pub tick: u64,
    pub thread: ThreadNo,
}

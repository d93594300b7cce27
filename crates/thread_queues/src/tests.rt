//! Many threads that wait, what is told in order, and a run of some thousand calls beside a plain list.
use crate::event::{Event, Place, Sleeper};
use crate::places::Threads;
use ids_base::class::Class;
use ids_base::memory::Memory;
use ids_base::numbers::ThreadNo;
use std::alloc::Global;
use std::process::Abort;
use std::test::Fail;

/// The events that are waited for, in their order.
const EVENTS: [Event; 7] = [
    Event::Lock,
    Event::Latch(1),
    Event::Latch(129),
    Event::Page(2),
    Event::Page(9),
    Event::LogFlush,
    Event::Cleaning,
];

/// A live thread. In a list these stand in the order in which they came to where they are.
#[derive(Clone, Copy)]
struct Entry {
    thread: ThreadNo,
    class: Class,
    place: Place,
    due: Option<u64>,
}

#[test]
fn agrees_with_list(rt: HostRuntime) -> Result<(), Fail> {
    let mut threads = Threads::new(rt.alloc(), 2)?;
    let mut list = Vec::new(rt.alloc());
    let mut draw = 12345u32;
    for turn in 0..6000 {
        draw = draw.wrapping_mul(1103515245).wrapping_add(12345) % 2147483648;
        step(&rt, &mut threads, &mut list, draw / 65536)?;
        if turn % 10 == 0 {
            compare(&rt, &threads, &list);
        }
    }
    Ok(())
}

/// Three hundred threads wait for a hundred latches and pages, while buckets grow, and are woken in their order.
#[test]
fn many_wait(rt: HostRuntime) -> Result<(), Fail> {
    let mut threads = Threads::new(rt.alloc(), 1)?;
    for thread in 0..300 {
        spawns(&rt, &mut threads, thread, Class::Cpu)?;
        assert_eq!(rt; runs(&rt, &mut threads), Some(thread));
        let number = thread / 6 % 50 * 64;
        let event = if thread % 3 == 0 {
            Event::Page(number)
        } else {
            Event::Latch(number)
        };
        stops(&rt, &mut threads, 0, Place::Waits(event), None);
    }
    for group in 0..50 {
        let (first, number) = (group * 6, group * 64);
        for thread in [first, first + 3] {
            assert_eq!(rt; threads.waiting_at(Event::Page(number), 0), Some(thread));
            assert_eq!(rt; threads.wake_one(Event::Page(number)), Some(thread));
        }
        for thread in [first + 1, first + 2, first + 4, first + 5] {
            assert_eq!(rt; threads.wake_one(Event::Latch(number)), Some(thread));
        }
        assert_eq!(rt; threads.wake_one(Event::Latch(number)), None);
    }
    Ok(())
}

/// What is told in order: live threads by number, events that are waited for, and sleeping threads by tick and number.
#[test]
fn tells_in_order(rt: HostRuntime) -> Result<(), Fail> {
    let mut threads = Threads::new(rt.alloc(), 1)?;
    assert_eq!(rt; threads.thread_after(None), None);
    assert_eq!(rt; threads.next_due(), None);
    let rows = [
        (7, Place::Sleeps, Some(9)),
        (2, Place::Waits(Event::LogFlush), None),
        (5, Place::Waits(Event::Page(3)), Some(8)),
        (4, Place::Sleeps, Some(9)),
        (1, Place::Waits(Event::LogFlush), None),
    ];
    for (thread, place, due) in rows {
        spawns(&rt, &mut threads, thread, Class::Cpu)?;
        assert_eq!(rt; runs(&rt, &mut threads), Some(thread));
        stops(&rt, &mut threads, 0, place, due);
    }
    let mut thread = None;
    for next in [Some(1), Some(2), Some(4), Some(5), Some(7), None] {
        thread = threads.thread_after(thread);
        assert_eq!(rt; thread, next);
    }
    let (page, flush) = (Event::Page(3), Event::LogFlush);
    assert_eq!(rt; threads.event_after(None), Some(page));
    assert_eq!(rt; threads.event_after(Some(page)), Some(flush));
    assert_eq!(rt; threads.event_after(Some(flush)), None);
    assert_eq!(rt; threads.waiting_at(flush, 1), Some(1));
    assert_eq!(rt; threads.next_due(), Some(8));
    let (first, last) = (sleeper(4), sleeper(7));
    assert_eq!(rt; threads.sleeper_after(None), Some(first));
    assert_eq!(rt; threads.sleeper_after(Some(first)), Some(last));
    assert_eq!(rt; threads.sleeper_after(Some(last)), None);
    Ok(())
}

fn sleeper(thread: ThreadNo) -> Sleeper {
    Sleeper {
        due: 9,
        thread,
        class: Class::Cpu,
    }
}

fn spawns(
    rt: &impl Abort,
    threads: &mut Threads,
    thread: ThreadNo,
    class: Class,
) -> Result<(), Memory> {
    assert!(rt; !threads.lives(thread) && threads.live() < 1000);
    threads.spawn(thread, class)
}

/// The first processor runs the next thread.
fn runs(rt: &impl Abort, threads: &mut Threads) -> Option<ThreadNo> {
    assert!(rt; threads.processors() > 0);
    assert!(rt; threads.running(0).is_none());
    threads.dispatch(0)
}

/// The thread on a processor goes to this place, or ends where it is to run.
fn stops(rt: &impl Abort, threads: &mut Threads, vp: u32, place: Place, due: Option<u64>) {
    assert!(rt; (vp as usize) < threads.processors());
    assert!(rt; threads.running(vp).is_some());
    match (place, due) {
        (Place::Ready(_), _) => threads.yield_now(vp),
        (Place::Waits(event), None) => threads.wait_on(vp, event),
        (Place::Waits(event), Some(tick)) => threads.wait_until(vp, event, tick),
        (Place::Sleeps, _) => threads.sleep_until(vp, due.unwrap_or(0)),
        (Place::Runs(_), _) => threads.end(vp),
    }
}

fn step(
    rt: &impl Abort,
    threads: &mut Threads,
    list: &mut Vec<Entry>,
    number: u32,
) -> Result<(), Memory> {
    let rest = number / 16;
    match number % 16 {
        0 | 1 => begins(rt, threads, list, rest),
        2 => ticks(rt, threads, list),
        3 | 4 => wakes_one(rt, threads, list, rest),
        5 => wakes(rt, threads, list, rest),
        _ => acts(rt, threads, list, rest),
    }
}

/// A new thread, if none has the number.
fn begins(
    rt: &impl Abort,
    threads: &mut Threads,
    list: &mut Vec<Entry>,
    number: u32,
) -> Result<(), Memory> {
    let thread = number % 30;
    if threads.lives(thread) {
        return Ok(());
    }
    let class = Class::of_processor(2, number / 30 % 5);
    spawns(rt, threads, thread, class)?;
    put(list, thread, class, Place::Ready(class), None)
}

/// A tick, and what is due gets ready.
fn ticks(rt: &impl Abort, threads: &mut Threads, list: &mut Vec<Entry>) -> Result<(), Memory> {
    assert!(rt; threads.now() < u64::MAX);
    threads.tick();
    for _ in 0..30 {
        if let Some(entry) = first_due(list) {
            if entry.due.unwrap_or(0) <= threads.now() {
                put(
                    list,
                    entry.thread,
                    entry.class,
                    Place::Ready(entry.class),
                    None,
                )?;
            }
        }
    }
    Ok(())
}

/// The thread that is due first.
fn first_due(list: &[Entry]) -> Option<Entry> {
    let due = list.iter().filter(|entry| entry.due.is_some());
    due.min_by_key(|entry| (entry.due.unwrap_or(0), entry.thread))
        .copied()
}

/// One that waits for an event gets ready, if there is one.
fn wakes_one(
    rt: &impl Abort,
    threads: &mut Threads,
    list: &mut Vec<Entry>,
    number: u32,
) -> Result<(), Memory> {
    let event = EVENTS[number as usize % 7];
    let first = first_at(list, Place::Waits(event));
    assert_eq!(rt; threads.wake_one(event), first.map(|entry| entry.thread));
    match first {
        Some(entry) => put(
            list,
            entry.thread,
            entry.class,
            Place::Ready(entry.class),
            None,
        ),
        None => Ok(()),
    }
}

/// One that waits or sleeps gets ready, if this number does.
fn wakes(
    rt: &impl Abort,
    threads: &mut Threads,
    list: &mut Vec<Entry>,
    number: u32,
) -> Result<(), Memory> {
    let thread = number % 30;
    let Some(entry) = list.iter().find(|entry| entry.thread == thread).copied() else {
        return Ok(());
    };
    if !threads.waits(thread) && !threads.sleeps(thread) {
        return Ok(());
    }
    threads.wake(thread);
    put(list, thread, entry.class, Place::Ready(entry.class), None)
}

/// A processor takes a thread, or stops the one that it runs.
fn acts(
    rt: &impl Abort,
    threads: &mut Threads,
    list: &mut Vec<Entry>,
    number: u32,
) -> Result<(), Memory> {
    let vp = number % 5;
    let class = Class::of_processor(2, vp);
    let running = first_at(list, Place::Runs(vp));
    assert!(rt; (vp as usize) < threads.processors());
    assert_eq!(rt; threads.running(vp), running.map(|entry| entry.thread));
    let Some(entry) = running else {
        let head = first_at(list, Place::Ready(class));
        assert!(rt; threads.running(vp).is_none());
        assert_eq!(rt; threads.dispatch(vp), head.map(|entry| entry.thread));
        return match head {
            Some(entry) => put(list, entry.thread, class, Place::Runs(vp), None),
            None => Ok(()),
        };
    };
    let tick = threads.now().saturating_add(u64::from(number / 5 % 9));
    let event = EVENTS[number as usize / 40 % 7];
    let (place, due) = match number / 5 % 8 {
        0 | 1 => (Place::Ready(class), None),
        2 | 3 => (Place::Waits(event), None),
        4 => (Place::Waits(event), Some(tick)),
        5 => (Place::Runs(vp), None),
        _ => (Place::Sleeps, Some(tick)),
    };
    stops(rt, threads, vp, place, due);
    put(list, entry.thread, class, place, due)
}

/// A thread comes to a place, behind those that came there before; it ends where it is said to stay on its processor.
fn put(
    list: &mut Vec<Entry>,
    thread: ThreadNo,
    class: Class,
    place: Place,
    due: Option<u64>,
) -> Result<(), Memory> {
    let runs = list
        .iter()
        .any(|entry| entry.thread == thread && entry.place == place);
    list.retain(|entry| entry.thread != thread);
    if !runs || matches!(place, Place::Ready(_)) {
        list.push(Entry {
            thread,
            class,
            place,
            due,
        })?;
    }
    Ok(())
}

/// The first thread at a place.
fn first_at(list: &[Entry], place: Place) -> Option<Entry> {
    list.iter().find(|entry| entry.place == place).copied()
}

/// What is told of threads is what the list has.
fn compare(rt: &impl Abort, threads: &Threads, list: &[Entry]) {
    assert_eq!(rt; threads.live() as usize, list.len());
    let due = first_due(list).map(|entry| entry.due.unwrap_or(0));
    assert_eq!(rt; threads.next_due(), due);
    for (index, entry) in list.iter().enumerate() {
        let before = list[..index]
            .iter()
            .filter(|other| other.place == entry.place);
        let position = before.count() as u32;
        assert!(rt; threads.lives(entry.thread));
        assert_eq!(rt; threads.place(entry.thread), entry.place);
        match entry.place {
            Place::Ready(class) => {
                assert!(rt; threads.has_ready(class));
                assert_eq!(rt; threads.ready_at(class, position), Some(entry.thread));
            }
            Place::Waits(event) => {
                assert_eq!(rt; threads.waiting_at(event, position), Some(entry.thread));
            }
            _ => {}
        }
    }
}

//! The threads that wait, in buckets by their events, each bucket in the order of waiting.
//!
//! An event without a number has a bucket of its own. Latches and pages share the others, by their numbers: there are at least as many of
//! those as places, one less than a power of two, so that numbers that lie a power of two apart spread over them too.
ghost use Rattle.std.specs.Prelude.{◌≡◌, ◌<◌, ◌≤◌, ◌+◌, ◌-◌, ◌%◌, ℕ, [], true, None, IfOk, OnOk, OnErr, length};
ghost use Rattle.link_lists.specs.Lists.{list_at, home_at, list_count, id_count, has, without, SameCounts, IsSound};
ghost use Rattle.thread_queues.specs.Laid.{most_threads, bucket_of, bucket_put, IsBucketed, IsRoom};

use crate::event::{Event, Waiter};
use ids_base::memory::Memory;
use link_lists::Lists;
use std::alloc::Global;

/// The queue of the threads that wait.
pub const WAITS: u32 = 4;

/// The buckets of the events without numbers.
const UNNUMBERED: u32 = 7;

/// How many buckets latches and pages have at first.
const NUMBERED: u32 = 127;

/// Buckets and no place.
pub fn none(alloc: Global) -> Result<Lists, Memory>
    ensures wide { IfOk result (λ bu. 7 < list_count bu) }
    ensures no_places { IfOk result (λ bu. id_count bu ≡ 0) }
    ensures empty { IfOk result (λ bu. (b : ℕ) → list_at bu b ≡ []) }
    ensures sound { IfOk result (λ bu. IsSound bu) }
{
    Ok(Lists::new(alloc, UNNUMBERED + NUMBERED)?)
}

/// The bucket of an event, where there are so many. Takes constant time.
pub fn bucket_of(buckets: u32, event: Event) -> u32
    requires { 7 < buckets }
    ensures bucket { result ≡ bucket_of buckets event }
    ensures in_range { result < buckets }
{
    match event {
        Event::Lock => 0,
        Event::LogFlush => 1,
        Event::PhysFlush => 2,
        Event::LogSpace => 3,
        Event::Checkpoint => 4,
        Event::Critical => 5,
        Event::Cleaning => 6,
        Event::Latch(frame) => numbered(buckets, frame),
        Event::Page(page) => numbered(buckets, page),
    }
}

/// The bucket of a number.
fn numbered(buckets: u32, number: u32) -> u32
    requires { 7 < buckets }
    ensures bucket { result ≡ 7 + number % (buckets - 7) }
    ensures in_range { result < buckets }
{
    UNNUMBERED + number % (buckets - UNNUMBERED)
}

/// A thread that goes into a queue: where that is the one of those that wait, it goes to the end of the bucket of its event.
pub fn put(buckets: &mut Lists, queue: u32, event: Event, id: u32)
    requires wide { 7 < list_count buckets.old }
    requires there { id < id_count buckets.old }
    requires free { home_at buckets.old id ≡ None }
    requires sound { IsSound buckets.old }
    ensures lists { (b : ℕ) → list_at buckets.new b ≡ bucket_put queue (bucket_of (list_count buckets.old) event) id b (list_at buckets.old b) }
    ensures counts { SameCounts buckets.old buckets.new }
    ensures sound { IsSound buckets.new }
{
    if queue != WAITS {
        return;
    }
    let bucket = bucket_of(buckets.list_count(), event);
    buckets.push_back(bucket, id);
}

/// A thread leaves the bucket that it is in, if it is in one.
pub fn take(buckets: &mut Lists, id: u32)
    requires there { id < id_count buckets.old }
    requires sound { IsSound buckets.old }
    ensures lists { (b : ℕ) → list_at buckets.new b ≡ without id (list_at buckets.old b) }
    ensures counts { SameCounts buckets.old buckets.new }
    ensures sound { IsSound buckets.new }
{
    if buckets.home(id).is_none() {
        return;
    }
    buckets.unlink(id);
}

/// One place more than these, if there are not more already, and where there are as many as buckets for numbers about twice as many
/// buckets first. Answers `Memory` where there is none, and the threads that wait are in buckets as before.
pub fn add_place(
    alloc: Global,
    buckets: &mut Lists,
    places: u32,
    queues: &Lists,
    blocks: &[Waiter],
) -> Result<(), Memory>
    requires bucketed { IsBucketed queues.now buckets.old blocks.now }
    requires queues { 4 < list_count queues.now }
    requires room { IsRoom places (id_count buckets.old) }
    requires few { places < most_threads }
    requires places { (x : ℕ) → has x (list_at queues.now 4) ≡ true → x < places }
    requires blocks { (x : ℕ) → has x (list_at queues.now 4) ≡ true → x < length blocks.now }
    ensures bucketed { IsBucketed queues.now buckets.new blocks.now }
    ensures more { OnOk result (id_count buckets.new ≡ places + 1) }
    ensures room { IsRoom places (id_count buckets.new) }
{
    if buckets.id_count() > places {
        return Ok(());
    }
    widen(alloc, buckets, queues, blocks)?;
    buckets.add_id()?;
    Ok(())
}

/// Room for one place more, by about twice as many buckets where there is none.
fn widen(
    alloc: Global,
    buckets: &mut Lists,
    queues: &Lists,
    blocks: &[Waiter],
) -> Result<(), Memory>
    requires bucketed { IsBucketed queues.now buckets.old blocks.now }
    requires queues { 4 < list_count queues.now }
    requires few { id_count buckets.old < most_threads }
    requires places { (x : ℕ) → has x (list_at queues.now 4) ≡ true → x < id_count buckets.old }
    requires blocks { (x : ℕ) → has x (list_at queues.now 4) ≡ true → x < length blocks.now }
    ensures bucketed { IsBucketed queues.now buckets.new blocks.now }
    ensures room { OnOk result (id_count buckets.new + 7 < list_count buckets.new) }
    ensures same { id_count buckets.new ≡ id_count buckets.old }
{
    let count = buckets.list_count();
    let places = buckets.id_count();
    if places < count - UNNUMBERED {
        return Ok(());
    }
    let wider = UNNUMBERED + 2 * (count - UNNUMBERED) + 1;
    *buckets = filled(alloc, wider, places, queues, blocks)?;
    Ok(())
}

/// So many buckets and places, with the threads that wait in the buckets of their events. Takes time in proportion to all of them.
fn filled(
    alloc: Global,
    count: u32,
    places: u32,
    queues: &Lists,
    blocks: &[Waiter],
) -> Result<Lists, Memory>
    requires wide { 7 < count }
    requires many { places + 7 ≤ count }
    requires few { count ≤ 2147483648 }
    requires queues { 4 < list_count queues.now }
    requires places { (x : ℕ) → has x (list_at queues.now 4) ≡ true → x < places }
    requires blocks { (x : ℕ) → has x (list_at queues.now 4) ≡ true → x < length blocks.now }
    ensures bucketed { IfOk result (λ bu. IsBucketed queues.now bu blocks.now) }
    ensures count { IfOk result (λ bu. list_count bu ≡ count) }
    ensures places { IfOk result (λ bu. id_count bu ≡ places) }
{
    let mut buckets = with_places(alloc, count, places)?;
    let mut at = queues.front(WAITS);
    while let Some(id) = at {
        let waiter = blocks[id as usize];
        buckets.push_back(bucket_of(count, waiter.event), id);
        at = queues.next(id);
    }
    Ok(buckets)
}

/// So many empty buckets, and places.
fn with_places(alloc: Global, count: u32, places: u32) -> Result<Lists, Memory>
    requires many { places < count }
    requires few { count ≤ 2147483648 }
    ensures count { IfOk result (λ bu. list_count bu ≡ count) }
    ensures places { IfOk result (λ bu. id_count bu ≡ places) }
    ensures empty { IfOk result (λ bu. (b : ℕ) → list_at bu b ≡ []) }
    ensures sound { IfOk result (λ bu. IsSound bu) }
{
    let mut buckets = Lists::new(alloc, count)?;
    for _ in 0..places {
        buckets.add_id()?;
    }
    Ok(buckets)
}

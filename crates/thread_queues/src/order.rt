//! In which orders threads are told, and the first one behind another.
ghost use Rattle.std.specs.Prelude.{◌≡◌, ◌<◌, ℕ, true, None, length, map};
ghost use Rattle.link_lists.specs.Lists.{list_at, list_count, has};
ghost use Rattle.thread_queues.specs.Laid.{block_at};
ghost use Rattle.thread_queues.specs.Orders.{comes_before, first_from, least_of};
ghost use Rattle.thread_queues.specs.Shown.{sleeper};
ghost use Rattle.thread_queues.specs.Ticks.{is_due_before};

use crate::event::Waiter;
use link_lists::Lists;

/// By number, by event, or by the tick when they are due and then by number.
#[derive(Clone, Copy)]
pub enum Order {
    Number,
    Events,
    Ticks,
}

/// The first of the blocks of a list of ids, in an order, behind this one. Takes time in proportion to the list.
pub fn first_behind(
    lists: &Lists,
    list: u32,
    blocks: &[Waiter],
    order: Order,
    from: Option<Waiter>,
) -> Option<Waiter>
    requires there { list < list_count lists.now }
    requires blocks { (x : ℕ) → has x (list_at lists.now list) ≡ true → x < length blocks.now }
    ensures { result ≡ first_from order from None (map (block_at blocks.now) (list_at lists.now list)) }
{
    let mut first = None;
    let mut at = lists.front(list);
    while let Some(id) = at {
        first = least_of(order, from, first, blocks[id as usize]);
        at = lists.next(id);
    }
    first
}

/// The first of two that are behind this one, where one is known already.
fn least_of(
    order: Order,
    from: Option<Waiter>,
    first: Option<Waiter>,
    waiter: Waiter,
) -> Option<Waiter>
    ensures { result ≡ least_of order from first waiter }
{
    if from.is_some_and(|from| !comes_before(order, from, waiter)) {
        return first;
    }
    match first {
        Some(other) if !comes_before(order, waiter, other) => first,
        _ => Some(waiter),
    }
}

/// Whether one thread comes before another.
fn comes_before(order: Order, a: Waiter, b: Waiter) -> bool
    ensures { result ≡ comes_before order a b }
{
    match order {
        Order::Number => a.thread < b.thread,
        Order::Events => a.event.number() < b.event.number(),
        Order::Ticks => is_due_before(a, b),
    }
}

/// Whether one sleeping thread is due before another: by tick, then by number.
fn is_due_before(a: Waiter, b: Waiter) -> bool
    ensures { result ≡ is_due_before (sleeper a) (sleeper b) }
{
    let (tick, other) = (a.due.unwrap_or(0), b.due.unwrap_or(0));
    tick < other || (tick == other && a.thread < b.thread)
}

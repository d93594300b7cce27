//! Whether waiting would close a cycle.
ghost use Rattle.std.specs.Prelude.{◌≡◌, ℕ, IfOk, IfSome, Ok, None, List};
ghost use Rattle.lock_table.specs.Table.{WaitsNowhere};
ghost use Rattle.wait_graph.specs.Queued.{ClosesCycle};

use crate::asked::ask;
use crate::search::find_cycle;
use ids_base::lock::{LockMode, LockName};
use ids_base::memory::Memory;
use ids_base::numbers::ThreadNo;
use lock_table::Locks;
use std::alloc::Global;

/// The cycle of threads that the request would close if it waited, looked at as if it stood in its queue: it begins with the
/// requester, each waits for the next and the last for the first. None exactly where waiting would close no cycle.
///
/// A name is reached where the request, or a thread that it waits for by any number of steps, waits for it. The call takes memory for
/// the holders and waiters of the names reached, and for these threads, and answers `Memory` where there is none. It costs a copy of the
/// queue, for a holder's request the holders for each waiter; for each name reached the entries that share its bucket, once, a hash look for each waiter, and at most six passes over the holders and waiters, one for
/// each mode, with at most two hash looks for each that does not go with the mode; one more such pass at the request's name; for
/// each of these threads two look-ups; and the length of the cycle.
pub fn closes_cycle(
    alloc: Global,
    locks: &Locks,
    thread: ThreadNo,
    name: LockName,
    mode: LockMode,
) -> Result<Option<Vec<ThreadNo>>, Memory>
    requires { WaitsNowhere locks.now thread }
    ensures cycle { IfOk result (λ o. IfSome o (λ v. ClosesCycle locks.now thread name mode v.items)) }
    ensures none { result ≡ Ok None → (threads : List ℕ) → ClosesCycle locks.now thread name mode threads → ⊥ }
{
    let asked = ask(alloc, locks, thread, name, mode)?;
    find_cycle(alloc, locks, &asked)
}

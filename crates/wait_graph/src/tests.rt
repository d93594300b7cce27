//! Worked examples, as calls one after another.

use crate::closes_cycle;
use ids_base::lock::{LockMode, LockName};
use ids_base::numbers::{TableNo, ThreadNo};
use lock_table::{LockAnswer, Locks};
use std::alloc::Global;
use std::process::Abort;
use std::test::Fail;

// A call for a thread, with a table and a mode, and what it tells.
#[derive(Clone, Copy)]
enum Call {
    // The thread gets the lock that it asks for, or waits for it.
    Gets(ThreadNo, TableNo, LockMode),
    Waits(ThreadNo, TableNo, LockMode),
    // If it waited, no cycle would close, or that of these threads.
    IsFree(ThreadNo, TableNo, LockMode),
    Closes(ThreadNo, TableNo, LockMode, &'static [ThreadNo]),
    // It releases all its locks.
    Releases(ThreadNo),
    // The next thread whose wait has ended, and its lock.
    IsGranted(ThreadNo, TableNo, LockMode),
    // No wait has ended but those told of, and the thread waits.
    StillWaits(ThreadNo),
}

fn lock_of(table: TableNo) -> LockName {
    LockName { table, key: None }
}

fn ask(
    rt: &impl Abort,
    locks: &mut Locks,
    thread: ThreadNo,
    table: TableNo,
    mode: LockMode,
) -> LockAnswer {
    assert!(rt; locks.waits_for(thread).is_none());
    locks.request(thread, lock_of(table), mode, true)
}

// The threads of the cycle that would close, none if none would.
fn cycle(
    rt: &impl Abort,
    alloc: Global,
    locks: &Locks,
    thread: ThreadNo,
    table: TableNo,
    mode: LockMode,
) -> Result<Vec<ThreadNo>, Fail> {
    assert!(rt; locks.waits_for(thread).is_none());
    match closes_cycle(alloc, locks, thread, lock_of(table), mode)? {
        None => Ok(Vec::new(alloc)),
        Some(threads) => Ok(threads),
    }
}

fn next_granted(locks: &mut Locks) -> Option<ThreadNo> {
    locks.next_granted()
}

fn release(locks: &mut Locks, thread: ThreadNo) {
    locks.release_all(thread);
}

fn makes(rt: &impl Abort, alloc: Global, locks: &mut Locks, call: Call) -> Result<(), Fail> {
    match call {
        Call::Gets(thread, table, mode) => {
            assert_eq!(rt; ask(rt, locks, thread, table, mode), LockAnswer::Granted);
        }
        Call::Waits(thread, table, mode) => {
            assert_eq!(rt; ask(rt, locks, thread, table, mode), LockAnswer::Waits);
        }
        Call::IsFree(thread, table, mode) => {
            assert!(rt; cycle(rt, alloc, locks, thread, table, mode)?.is_empty());
        }
        Call::Closes(thread, table, mode, threads) => {
            let found = cycle(rt, alloc, locks, thread, table, mode)?;
            assert_eq!(rt; found.as_slice(), threads);
        }
        Call::Releases(thread) => release(locks, thread),
        Call::IsGranted(thread, table, mode) => {
            assert_eq!(rt; next_granted(locks), Some(thread));
            assert_eq!(rt; locks.holds(thread, lock_of(table)), Some(mode));
        }
        Call::StillWaits(thread) => {
            assert_eq!(rt; next_granted(locks), None);
            assert!(rt; locks.waits_for(thread).is_some());
        }
    }
    Ok(())
}

fn follows(rt: &impl Abort, alloc: Global, calls: &[Call]) -> Result<(), Fail> {
    let mut locks = Locks::new(alloc, 16)?;
    for call in calls {
        makes(rt, alloc, &mut locks, *call)?;
    }
    Ok(())
}

#[test]
fn two_conversions(rt: HostRuntime) -> Result<(), Fail> {
    let calls = [
        Call::Gets(1, 100, LockMode::S),
        Call::Gets(2, 100, LockMode::S),
        Call::Waits(3, 100, LockMode::X),
        Call::Waits(1, 100, LockMode::X),
        Call::Closes(2, 100, LockMode::X, &[2, 1]),
        Call::Releases(2),
        Call::IsGranted(1, 100, LockMode::X),
        Call::StillWaits(3),
    ];
    follows(&rt, rt.alloc(), &calls)
}

#[test]
fn waits_in_a_line(rt: HostRuntime) -> Result<(), Fail> {
    let calls = [
        Call::Gets(1, 101, LockMode::X),
        Call::Gets(2, 102, LockMode::X),
        Call::Gets(3, 103, LockMode::X),
        Call::Waits(1, 102, LockMode::X),
        Call::Waits(2, 103, LockMode::X),
        Call::IsFree(4, 101, LockMode::X),
        Call::Closes(3, 101, LockMode::S, &[3, 1, 2]),
    ];
    follows(&rt, rt.alloc(), &calls)
}

//! Which of two due threads is woken first.
ghost use Rattle.std.specs.Prelude.{◌≡◌};
ghost use Rattle.thread_queues.specs.Ticks.{earlier, is_before};

use crate::event::Due;

/// The one of two that is woken first.
pub fn earlier_of(first: Option<Due>, other: Due) -> Option<Due>
    ensures { result ≡ earlier first other }
{
    match first {
        None => Some(other),
        Some(due) => {
            if comes_before(other, due) {
                Some(other)
            } else {
                Some(due)
            }
        }
    }
}

/// Whether one thread is woken before another: by due tick, then by number.
fn comes_before(a: Due, b: Due) -> bool
    ensures { result ≡ is_before a b }
{
    a.tick < b.tick || (a.tick == b.tick && a.thread < b.thread)
}

#[cfg(test)]
mod tests {
    use crate::event::Event;
    use crate::places::Threads;
    use ids_base::class::Class;
    use ids_base::numbers::ThreadNo;
    use std::process::Abort;
    use std::test::Fail;

    /// What the thread on the only CPU processor does.
    #[derive(Clone, Copy)]
    enum Act {
        Yields,
        Waits,
        WaitsUntil(u64),
        SleepsUntil(u64),
        IsWokenFromSleep,
        Ends,
    }

    /// Threads that wait and sleep with limits, up to tick 3.
    #[test]
    fn ticks(rt: HostRuntime) -> Result<(), Fail> {
        let mut threads = Threads::new(rt.alloc(), 1)?;
        threads.spawn(5, Class::Cpu)?;
        threads.spawn(3, Class::Cpu)?;
        threads.spawn(4, Class::Cpu)?;
        threads.spawn(1, Class::Cpu)?;
        threads.spawn(2, Class::Cpu)?;
        threads.spawn(6, Class::Cpu)?;
        let at_0 = [
            (5, Act::SleepsUntil(2)),
            (3, Act::WaitsUntil(1)),
            (4, Act::WaitsUntil(2)),
            (1, Act::SleepsUntil(3)),
            (2, Act::Waits),
            (6, Act::Yields),
        ];
        run(&rt, &mut threads, &at_0);
        pass(&rt, &mut threads, 1);
        run(&rt, &mut threads, &[(6, Act::SleepsUntil(1))]);
        pass(&rt, &mut threads, 2);
        let at_2 = [
            (3, Act::Ends),
            (6, Act::Ends),
            (4, Act::IsWokenFromSleep),
            (5, Act::Ends),
            (4, Act::WaitsUntil(3)),
        ];
        run(&rt, &mut threads, &at_2);
        assert_eq!(rt; threads.wake_one(Event::Lock), Some(2));
        pass(&rt, &mut threads, 3);
        assert_eq!(rt; threads.wake_one(Event::Lock), None);
        run(
            &rt,
            &mut threads,
            &[(2, Act::Ends), (1, Act::Ends), (4, Act::Ends)],
        );
        assert_eq!(rt; next(&rt, &mut threads), None);
        Ok(())
    }

    /// The threads run in this order, and each does this.
    fn run(rt: &impl Abort, threads: &mut Threads, rows: &[(ThreadNo, Act)]) {
        for (thread, act) in rows {
            assert_eq!(rt; next(rt, threads), Some(*thread));
            does(rt, threads, *act);
        }
    }

    fn next(rt: &impl Abort, threads: &mut Threads) -> Option<ThreadNo> {
        assert!(rt; threads.processors() > 0);
        assert!(rt; threads.running(0).is_none());
        threads.dispatch(0)
    }

    #[tactic(auto, using(crate::proofs::Ticking::sleeping_still))]
    fn does(rt: &impl Abort, threads: &mut Threads, act: Act) {
        assert!(rt; threads.processors() > 0);
        assert!(rt; threads.running(0).is_some());
        match act {
            Act::Yields => threads.yield_now(0),
            Act::Waits => threads.wait_on(0, Event::Lock),
            Act::WaitsUntil(tick) => threads.wait_until(0, Event::Lock, tick),
            Act::SleepsUntil(tick) => threads.sleep_until(0, tick),
            Act::IsWokenFromSleep => {
                if let Some(thread) = threads.running(0) {
                    threads.sleep_until(0, 9);
                    threads.wake(thread);
                }
            }
            Act::Ends => threads.end(0),
        }
    }

    fn pass(rt: &impl Abort, threads: &mut Threads, tick: u64) {
        assert!(rt; threads.now() < u64::MAX);
        threads.tick();
        assert_eq!(rt; threads.now(), tick);
    }
}

//! Runs that leave the service open, in which each worker makes the jobs of its plan in rounds.

use crate::supervisor::values::{ExpectedLock, PlannedWorker, locks_are, plans_of};
use crate::test_values::open;
use rme::Op;
use rme::supervisor::{Attended, End, Free, RunContext, Schedule, attend};
use std::alloc::Global;
use std::process::Abort;
use std::sync::Wait;
use std::test::Fail;
use std::thread::Threads;

/// The operations of the two jobs of each round.
const ONE: &[Op] = &[Op::Add(0, 1)];

const TEN: &[Op] = &[Op::Add(0, 10)];

/// A worker that crashes on the way.
const PLANNED: PlannedWorker<'static> = PlannedWorker {
    jobs: &[(0, ONE), (0, TEN)],
    times: 1,
    falls: &[50],
    lives: 2,
    sweeps: 1,
};

/// Makes this number of rounds of the plan, after which the lock must be this one.
fn make_rounds<R: Abort + Threads + Wait + Sync>(
    rt: &R,
    alloc: Global,
    (rounds, lives): (u32, u32),
    lock: ExpectedLock<'_>,
) -> Result<(), Fail> {
    let (service, downs) = open(alloc, (1, 1, 1, 10))?;
    let plans = plans_of(alloc, &[PLANNED])?;
    let schedule = Schedule {
        plans: &plans,
        rounds,
    };
    let context = RunContext {
        service: &service,
        schedule,
        gate: &Free,
    };
    let Ok(attended) = attend(rt, alloc, &context, downs) else {
        panic!(rt; "no end");
    };
    let Attended {
        ends,
        lives: lived,
        downs,
    } = attended;
    assert!(rt; ends.as_slice() == [End::AllDone].as_slice());
    assert!(rt; lived.as_slice() == [lives].as_slice());
    let Ok(closed) = service.close(downs) else {
        panic!(rt; "no close");
    };
    assert!(rt; locks_are(&closed.locks, &[lock]));
    Ok(())
}

/// The jobs of all rounds follow one another, each once. With no rounds there is no job, and the only own steps are
/// those of the first recovery.
#[test]
fn rounds(rt: HostRuntime) -> Result<(), Fail> {
    make_rounds(&rt, rt.alloc(), (0, 1), (&[0], true, &[]))?;
    let expected = [
        ((0, 0, 1, 0, 1), ONE),
        ((0, 0, 2, 1, 11), TEN),
        ((0, 0, 3, 2, 12), ONE),
        ((0, 0, 4, 3, 22), TEN),
        ((0, 0, 5, 4, 23), ONE),
        ((0, 0, 6, 5, 33), TEN),
    ];
    make_rounds(&rt, rt.alloc(), (3, 2), (&[33], true, &expected))
}

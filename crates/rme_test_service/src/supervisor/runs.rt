//! Runs, and the end of each worker.

use crate::supervisor::gates::{CountingGate, CrossingGate};
use crate::supervisor::values::{ExpectedLock, PlannedWorker, SupervisedTrial, report_of, run_is};
use rme::supervisor::{End, Free};
use rme::{Op, Refusal};
use std::test::Fail;

/// The operations of a job that adds 5, and of one that adds 1.
const FIVE: &[Op] = &[Op::Add(0, 5)];

const ONE: &[Op] = &[Op::Add(0, 1)];

/// A plan of nothing, with one life and one sweep.
const IDLE: PlannedWorker<'static> = PlannedWorker {
    jobs: &[],
    times: 1,
    falls: &[],
    lives: 1,
    sweeps: 1,
};

/// A worker that crashes before the first step of its section of lock 0, and has no further life.
const DEAD: PlannedWorker<'static> = PlannedWorker {
    jobs: &[(0, FIVE)],
    falls: &[9],
    ..IDLE
};

/// A worker that is done on lock 1, and then has three sweeps for lock 0.
const SECOND: PlannedWorker<'static> = PlannedWorker {
    jobs: &[(1, &[]), (0, ONE)],
    sweeps: 3,
    ..IDLE
};

/// Row `gate`: each worker makes an empty job on a lock of its own.
const BESIDE: SupervisedTrial<'static> = SupervisedTrial {
    sizes: (2, 2, 1, 10),
    plans: &[
        PlannedWorker {
            jobs: &[(0, &[])],
            ..IDLE
        },
        PlannedWorker {
            jobs: &[(1, &[])],
            ..IDLE
        },
    ],
    ends: &[End::AllDone, End::AllDone],
    lives: &[1, 1],
    locks: &[
        (&[0], true, &[((0, 0, 1, 0, 0), &[])]),
        (&[0], true, &[((1, 1, 1, 0, 0), &[])]),
    ],
};

/// Row `gate`: two workers are in the sections of different locks at the same time.
#[test]
fn gate(rt: HostRuntime) -> Result<(), Fail> {
    run_is(&rt, rt.alloc(), &BESIDE, &CrossingGate::new(true))
}

/// The locks after a worker crashed inside.
const LOCKS_BEHIND: &[ExpectedLock<'static>] = &[
    (&[0], false, &[]),
    (&[0], true, &[((1, 1, 1, 0, 0), &[])]),
];

/// Row `dead owner`: worker 0 crashes before the first step of its section and has no further life; worker 1 is done on
/// the other lock, and sweeps in vain for this one. And a job has its sweeps in all lives together: worker 1 is done on
/// lock 1 after 20 own steps, asks for lock 0 by 6 more, and crashes after two blocked sweeps. The next life recovers
/// by 4 steps and has one sweep left; at a second it would crash.
const BEHIND: [SupervisedTrial<'static>; 2] = [
    SupervisedTrial {
        sizes: (2, 2, 1, 10),
        plans: &[DEAD, SECOND],
        ends: &[End::OutOfLives, End::Stalled],
        lives: &[1, 1],
        locks: LOCKS_BEHIND,
    },
    SupervisedTrial {
        sizes: (2, 2, 1, 10),
        plans: &[
            DEAD,
            PlannedWorker {
                falls: &[28, 33],
                lives: 3,
                ..SECOND
            },
        ],
        ends: &[End::OutOfLives, End::Stalled],
        lives: &[1, 2],
        locks: LOCKS_BEHIND,
    },
];

#[test]
fn dead_owner(rt: HostRuntime) -> Result<(), Fail> {
    for run in &BEHIND {
        run_is(&rt, rt.alloc(), run, &CrossingGate::new(false))?;
    }
    Ok(())
}

/// Row `threads program`, as a call: eight workers on one lock, a hundred jobs each, with three crashes each.
#[test]
fn threads_program(rt: HostRuntime) -> Result<(), Fail> {
    let run = SupervisedTrial {
        sizes: (8, 1, 1, 100),
        plans: &[PlannedWorker {
            jobs: &[(0, ONE)],
            times: 100,
            falls: &[7, 19, 40],
            lives: 4,
            sweeps: 1_000_000_000,
        }; 8],
        ends: &[End::AllDone; 8],
        lives: &[4; 8],
        locks: &[],
    };
    let gate = CountingGate::new(true);
    let report = report_of(&rt, rt.alloc(), &run, &gate)?;
    assert!(rt; report.closed.locks.len() == 1);
    let lock = &report.closed.locks[0];
    assert!(rt; lock.cells.as_slice() == [800].as_slice());
    assert!(rt; lock.entries.len() == 800);
    let (_, over) = gate.counts();
    assert!(rt; over == 800);
    Ok(())
}

/// A worker that is not let into its section.
const SHUT_OUT: SupervisedTrial<'static> = SupervisedTrial {
    sizes: (1, 1, 1, 10),
    plans: &[PlannedWorker {
        jobs: &[(0, FIVE)],
        lives: 3,
        ..IDLE
    }],
    ends: &[End::Stalled],
    lives: &[1],
    locks: &[(&[0], false, &[])],
};

/// A gate that answers false ends the worker inside: it has no entry, and owns its lock.
#[test]
fn shut_gate(rt: HostRuntime) -> Result<(), Fail> {
    let gate = CountingGate::new(false);
    run_is(&rt, rt.alloc(), &SHUT_OUT, &gate)?;
    assert!(rt; gate.counts() == (1, 0));
    Ok(())
}

/// Runs of one worker without a gate: a job that is refused after one that is done; a crash before the first step of
/// the first recovery, and one before the second; two jobs three times, with a crash on the way; and two crashes with
/// two lives, where the worker is out of lives at the second crash and not at the first. Its first job is done between
/// the two: after 3 own steps the next life recovers by 2 and makes it by 28.
const ALONE: [SupervisedTrial<'static>; 4] = [
    SupervisedTrial {
        sizes: (1, 1, 1, 10),
        plans: &[PlannedWorker {
            jobs: &[(0, FIVE), (1, &[])],
            ..IDLE
        }],
        ends: &[End::Refused(Refusal::NoLock)],
        lives: &[1],
        locks: &[(&[5], true, &[((0, 0, 1, 0, 5), FIVE)])],
    },
    SupervisedTrial {
        sizes: (1, 1, 1, 10),
        plans: &[PlannedWorker {
            falls: &[0, 1],
            lives: 3,
            ..DEAD
        }],
        ends: &[End::AllDone],
        lives: &[3],
        locks: &[(&[5], true, &[((0, 0, 1, 0, 5), FIVE)])],
    },
    SupervisedTrial {
        sizes: (1, 1, 1, 10),
        plans: &[PlannedWorker {
            jobs: &[(0, ONE), (0, &[Op::Add(0, 10)])],
            times: 3,
            falls: &[50],
            lives: 2,
            ..IDLE
        }],
        ends: &[End::AllDone],
        lives: &[2],
        locks: &[(
            &[33],
            true,
            &[
                ((0, 0, 1, 0, 1), ONE),
                ((0, 0, 2, 1, 11), &[Op::Add(0, 10)]),
                ((0, 0, 3, 2, 12), ONE),
                ((0, 0, 4, 3, 22), &[Op::Add(0, 10)]),
                ((0, 0, 5, 4, 23), ONE),
                ((0, 0, 6, 5, 33), &[Op::Add(0, 10)]),
            ],
        )],
    },
    SupervisedTrial {
        sizes: (1, 1, 1, 10),
        plans: &[PlannedWorker {
            jobs: &[(0, FIVE), (0, ONE)],
            falls: &[3, 33],
            lives: 2,
            ..IDLE
        }],
        ends: &[End::OutOfLives],
        lives: &[2],
        locks: &[(&[5], true, &[((0, 0, 1, 0, 5), FIVE)])],
    },
];

/// A refused job ends its worker, lives are lost in the recovery, and jobs follow one another: each entry once.
#[test]
fn alone(rt: HostRuntime) -> Result<(), Fail> {
    for run in &ALONE {
        run_is(&rt, rt.alloc(), run, &Free)?;
    }
    Ok(())
}

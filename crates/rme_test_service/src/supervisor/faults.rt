//! Runs that are refused.

use crate::supervisor::values::{PlannedWorker, plans_of};
use crate::test_values::open;
use rme::supervisor::{Free, supervise};
use std::alloc::Global;
use std::process::Abort;
use std::sync::Wait;
use std::test::Fail;
use std::thread::Threads;

const GOOD: PlannedWorker<'static> = PlannedWorker {
    jobs: &[(0, &[])],
    times: 1,
    falls: &[],
    lives: 1,
    sweeps: 1,
};

/// A run of two workers with these plans, which must be refused before anything is done.
fn is_refused<R: Abort + Threads + Wait + Sync>(
    rt: &R,
    alloc: Global,
    plans: &[PlannedWorker<'_>],
) -> Result<(), Fail> {
    let (service, downs) = open(alloc, (2, 2, 1, 10))?;
    let plans = plans_of(alloc, plans)?;
    let Err(fault) = supervise(rt, alloc, service, downs, plans, &Free) else {
        panic!(rt; "a report");
    };
    assert!(rt; fault.why.code() == 5);
    assert!(rt; fault.downs.len() == 2);
    for down in &fault.downs {
        assert!(rt; down.fresh());
    }
    Ok(())
}

/// Row `small calls`: one plan too few; and crash counts that do not increase, no life, no sweep.
const BAD: &[&[PlannedWorker<'static>]] = &[
    &[GOOD],
    &[
        GOOD,
        PlannedWorker {
            falls: &[3, 3],
            ..GOOD
        },
    ],
    &[
        GOOD,
        PlannedWorker {
            falls: &[4, 3],
            ..GOOD
        },
    ],
    &[GOOD, PlannedWorker { lives: 0, ..GOOD }],
    &[GOOD, PlannedWorker { sweeps: 0, ..GOOD }],
];

#[test]
fn bad_plans(rt: HostRuntime) -> Result<(), Fail> {
    for plans in BAD {
        is_refused(&rt, rt.alloc(), plans)?;
    }
    Ok(())
}

//! Supervised runs as tables: the plans of the workers, and the expected reports.

use crate::test_values::{ExpectedEntry, job, lock_is, open};
use rme::service::ClosedLock;
use rme::supervisor::{End, Gate, Report, WorkerPlan, supervise};
use rme::{Job, Op};
use std::alloc::{AllocError, Global};
use std::process::Abort;
use std::sync::Wait;
use std::test::Fail;
use std::thread::Threads;

/// The plan of a worker: its jobs, each a lock and operations, the number of times that the plan repeats them, and the
/// rest of the plan.
#[derive(Clone, Copy)]
pub struct PlannedWorker<'a> {
    pub jobs: &'a [(u32, &'a [Op])],
    pub times: u32,
    pub falls: &'a [u32],
    pub lives: u32,
    pub sweeps: u32,
}

/// A closed lock: its cells, whether it is settled, and its entries.
pub type ExpectedLock<'a> = (&'a [u64], bool, &'a [ExpectedEntry<'a>]);

/// A run of a new service of these workers, locks, cells and jobs: the plans, and the expected report.
#[derive(Clone, Copy)]
pub struct SupervisedTrial<'a> {
    pub sizes: (u32, u32, u32, u32),
    pub plans: &'a [PlannedWorker<'a>],
    pub ends: &'a [End],
    pub lives: &'a [u32],
    pub locks: &'a [ExpectedLock<'a>],
}

fn jobs_of(alloc: Global, planned: &PlannedWorker<'_>) -> Result<Vec<Job>, AllocError> {
    let mut jobs = Vec::new(alloc);
    for _ in 0..planned.times {
        for (lock, operations) in planned.jobs {
            jobs.push(job(*lock, operations))?;
        }
    }
    Ok(jobs)
}

/// The plans of all workers.
pub fn plans_of(
    alloc: Global,
    planned: &[PlannedWorker<'_>],
) -> Result<Vec<WorkerPlan>, AllocError> {
    let mut plans = Vec::new(alloc);
    for plan in planned {
        plans.push(WorkerPlan {
            jobs: jobs_of(alloc, plan)?,
            falls: Vec::from_slice(alloc, plan.falls)?,
            lives: plan.lives,
            sweeps: plan.sweeps,
        })?;
    }
    Ok(plans)
}

/// Makes a run, whose report must show these ends and lives. The closed locks are not checked.
pub fn report_of<G: Gate + Sync, R: Abort + Threads + Wait + Sync>(
    rt: &R,
    alloc: Global,
    run: &SupervisedTrial<'_>,
    gate: &G,
) -> Result<Report, Fail> {
    let (service, downs) = open(alloc, run.sizes)?;
    let plans = plans_of(alloc, run.plans)?;
    let report = match supervise(rt, alloc, service, downs, plans, gate) {
        Ok(report) => report,
        Err(fault) => panic!(rt; "no report: {}", fault.why.name()),
    };
    // Not `assert!`: `scripts/try-threads one-thread` reads the ends from the message of a failure.
    assert_eq!(rt; report.ends.as_slice(), run.ends);
    assert!(rt; report.lives.as_slice() == run.lives);
    Ok(report)
}

/// Makes a run, whose report must be as in the table.
pub fn run_is<G: Gate + Sync, R: Abort + Threads + Wait + Sync>(
    rt: &R,
    alloc: Global,
    run: &SupervisedTrial<'_>,
    gate: &G,
) -> Result<(), Fail> {
    let report = report_of(rt, alloc, run, gate)?;
    assert!(rt; locks_are(&report.closed.locks, run.locks));
    Ok(())
}

/// Whether the closed locks are these.
pub fn locks_are(locks: &[ClosedLock], expected: &[ExpectedLock<'_>]) -> bool {
    for (lock, (cells, settled, entries)) in locks.iter().zip(expected) {
        if !lock_is(lock, cells, *settled, entries) {
            return false;
        }
    }
    locks.len() == expected.len()
}

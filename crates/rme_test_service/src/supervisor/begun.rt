//! A run that begins with workers that made jobs before.

use crate::service::chances::ScriptedChance;
use crate::service::plays::WorkerCall::{Ask, Enter, Exit, Perform};
use crate::service::plays::{WorkerCall, live};
use crate::service::values::next;
use crate::supervisor::values::{PlannedWorker, locks_are, plans_of};
use crate::test_values::{alone, open};
use rme::Op;
use rme::supervisor::{End, Free, supervise};
use std::test::Fail;

/// The operations of three jobs.
const FIRST: &[Op] = &[Op::Add(0, 5)];

const SECOND: &[Op] = &[Op::Add(0, 1)];

const THIRD: &[Op] = &[Op::Set(0, 40)];

/// The first job, and the second as far as its submission.
const BEFORE: &[WorkerCall] = &[
    Ask(0, FIRST),
    Enter,
    Perform((0, 0, 1, 0, 5)),
    Exit,
    Ask(0, SECOND),
];

const PLANNED: PlannedWorker<'static> = PlannedWorker {
    jobs: &[(0, FIRST), (0, SECOND), (0, THIRD)],
    times: 1,
    falls: &[],
    lives: 1,
    sweeps: 1,
};

/// A worker that made the first job of its plan, and crashed while it waited with the second, is supervised: its first
/// life makes the second job and the third, and not the first again.
#[test]
fn begun(rt: HostRuntime) -> Result<(), Fail> {
    let (service, mut downs) = open(rt.alloc(), (1, 1, 1, 10))?;
    let down = next(&rt, &service, &mut downs);
    let down = live(&rt, &service, down, BEFORE, &mut ScriptedChance::new(&[]));
    assert!(rt; !down.fresh());
    let downs = alone(&rt, rt.alloc(), &service, down)?;
    let plans = plans_of(rt.alloc(), &[PLANNED])?;
    let report = match supervise(&rt, rt.alloc(), service, downs, plans, &Free) {
        Ok(report) => report,
        Err(fault) => panic!(rt; "no report: {}", fault.why.name()),
    };
    assert!(rt; report.ends.as_slice() == [End::AllDone].as_slice());
    assert!(rt; report.lives.as_slice() == [1].as_slice());
    let expected = [
        ((0, 0, 1, 0, 5), FIRST),
        ((0, 0, 2, 1, 6), SECOND),
        ((0, 0, 3, 2, 40), THIRD),
    ];
    assert!(rt; locks_are(&report.closed.locks, &[(&[40], true, &expected)]));
    Ok(())
}

//! Crashes before each own step, two in a run, in the running service.

use crate::service::chances::ScriptedChance;
use crate::service::lives::{WorkerTask, live_on};
use crate::service::values::next;
use crate::service::watch::SectionMonitor;
use crate::test_values::{FIVE_OPERATIONS, alone, job, lock_is, open};
use rme::Refusal;
use std::alloc::Global;
use std::process::Abort;
use std::test::Fail;

/// Makes the job in a new service with a crash at each of these counts of own steps, and checks what is left.
fn make_with_falls(rt: &impl Abort, alloc: Global, counts: &[u32]) -> Result<usize, Fail> {
    let (service, mut downs) = open(alloc, (1, 1, 2, 10))?;
    let down = next(rt, &service, &mut downs);
    let mut falls = ScriptedChance::new(counts);
    let watch = SectionMonitor::new();
    let jobs = [job(0, FIVE_OPERATIONS)];
    let task = WorkerTask {
        jobs: &jobs,
        lives: 3,
    };
    let down = live_on(&service, down, &task, &mut falls, &watch);
    assert!(rt; watch.clashes() == 0);
    let downs = alone(rt, alloc, &service, down)?;
    let Ok(closed) = service.close(downs) else {
        return Err(Refusal::NoMemory.into());
    };
    assert!(rt; closed.locks.len() == 1);
    assert!(rt;
        lock_is(
            &closed.locks[0],
            &[0, 5],
            true,
            &[((0, 0, 1, 0, 5), FIVE_OPERATIONS)]
        ),
        "falls at {counts:?}"
    );
    Ok(falls.fallen())
}

/// Row `cut everywhere`, in the running service: each of the 58 own steps is cut, including the two of the first
/// recovery, and each of up to 60 steps after that cut, too.
#[test]
fn cut_everywhere(rt: HostRuntime) -> Result<(), Fail> {
    for first in 0..=57 {
        for more in 1..=60 {
            let fallen = make_with_falls(&rt, rt.alloc(), &[first, first + more])?;
            assert!(rt; fallen >= 1);
        }
    }
    assert!(rt; make_with_falls(&rt, rt.alloc(), &[58])? == 0);
    Ok(())
}

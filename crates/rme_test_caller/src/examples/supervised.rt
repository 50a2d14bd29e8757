//! A supervised run: workers that crash, and are restarted until their jobs are done.

use rme::service::Service;
use rme::supervisor::{End, Free, WorkerPlan, supervise};
use rme::{Job, Op, Script, Shape};
use std::test::Fail;

/// Two workers make three jobs each on one lock. Each crashes before its 8th and before its 21st own step, and has
/// three lives.
#[test]
fn supervised_run(rt: HostRuntime) -> Result<(), Fail> {
    let (service, downs) = Service::new(rt.alloc(), Shape::new(2, 1, 1, 3)?)?;
    let job = Job {
        lock: 0,
        script: Script::of(&[Op::Add(0, 1)]),
    };
    let mut plans = Vec::new(rt.alloc());
    for _ in 0..2 {
        plans.push(WorkerPlan {
            jobs: vec![in rt.alloc(); job; 3]?,
            falls: vec![in rt.alloc(); 7, 20]?,
            lives: 3,
            sweeps: 1_000_000_000,
        })?;
    }
    let Ok(report) = supervise(&rt, rt.alloc(), service, downs, plans, &Free) else {
        panic!(rt; "the run has no report");
    };
    assert!(rt; report.ends.as_slice() == [End::AllDone; 2].as_slice());
    assert!(rt; report.lives.as_slice() == [3; 2].as_slice());
    assert!(rt; report.closed.locks.len() == 1);
    assert!(rt; report.closed.locks[0].cells.as_slice() == [6].as_slice());
    Ok(())
}

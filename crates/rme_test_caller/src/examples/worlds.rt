//! A job runner by the calls of a world.

use rme::world::{TalliedWorld, Walk, World};
use rme::{Job, Op, Script, Shape};
use std::test::Fail;

/// At most `max` own steps of worker 0, up to the first that is blocked or leaves it ready.
fn steps(max: u32) -> Walk {
    Walk {
        worker: 0,
        until: None,
        max,
    }
}

/// A worker adds 5 to a cell and crashes right after the cell was written. It comes back and finishes the job,
/// which counts once.
#[test]
fn job_runner(rt: HostRuntime) -> Result<(), Fail> {
    let mut runner = TalliedWorld::new(World::new(rt.alloc(), Shape::new(2, 1, 1, 10)?)?);
    let script = Script::of(&[Op::Add(0, 5)]);
    runner.world.submit(0, Job { lock: 0, script })?;
    runner.walk(steps(20))?;
    runner.world.crash(0)?;
    runner.world.restart(0)?;
    runner.walk(steps(10_000))?;
    let (cells, settled) = runner.world.cells(0)?;
    assert!(rt; (cells.len(), settled) == (1, true));
    assert!(rt; cells.get(0) == 5);
    Ok(())
}

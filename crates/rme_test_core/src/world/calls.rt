//! Calls of a world that no line makes.

use crate::world::walks::{job, step_times};
use rme_program::Phase;
use rme_script::Op;
use rme_words::{Refusal, Shape};
use rme_world::World;
use std::process::Abort;
use std::test::Fail;

/// The phases that have steps.
const PHASES: [Phase; 5] = [
    Phase::Recover,
    Phase::Post,
    Phase::Enter,
    Phase::Section,
    Phase::Exit,
];

/// The own steps of worker 0's latest stays must be these: Recover, Post, Enter, Section, Exit.
fn counts_are(rt: &impl Abort, world: &World, counts: [u32; 5]) {
    for at in 0..5usize {
        assert!(rt; world.steps(0, PHASES[at]) == Ok(counts[at]));
    }
}

/// A crash leaves the counts of own steps, and a restart sets them to 0; a worker that is down is in no phase.
#[test]
fn counts_after_a_crash_and_a_restart(rt: HostRuntime) -> Result<(), Fail> {
    let mut world = World::new(rt.alloc(), Shape::new(2, 1, 1, 10)?)?;
    crash_inside(&rt, &mut world)?;
    world.restart(0)?;
    counts_are(&rt, &world, [0; 5]);
    Ok(())
}

/// Worker 0 crashes in its section.
fn crash_inside(rt: &impl Abort, world: &mut World) -> Result<(), Refusal> {
    world.submit(0, job(&[Op::Add(0, 5)]))?;
    step_times(world, 0, 10)?;
    assert!(rt; world.phase(0) == Some(Phase::Section));
    counts_are(rt, world, [0, 6, 1, 3, 0]);
    world.crash(0)?;
    assert!(rt; world.phase(0) == None);
    counts_are(rt, world, [0, 6, 1, 3, 0]);
    Ok(())
}

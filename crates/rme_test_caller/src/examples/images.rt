//! A world that is saved as bytes, and loaded from them.

use rme::world::World;
use rme::{Job, Op, Script, Shape};
use std::alloc::Global;
use std::test::Fail;

/// Worker 1 has made 20 own steps of a job.
fn begin(world: &mut World) -> Result<(), Fail> {
    let script = Script::of(&[Op::Add(0, 5)]);
    world.submit(1, Job { lock: 0, script })?;
    for _ in 0..20 {
        world.step(1)?;
    }
    Ok(())
}

/// Worker 1 comes back, and goes on until it is ready.
fn come_back(world: &mut World) -> Result<(), Fail> {
    world.restart(1)?;
    for _ in 0..1_000 {
        if world.ready(1)? {
            break;
        }
        world.step(1)?;
    }
    Ok(())
}

/// The bytes of a world in the middle of a job.
fn saved(alloc: Global) -> Result<Vec<u8>, Fail> {
    let mut world = World::new(alloc, Shape::new(2, 1, 1, 10)?)?;
    begin(&mut world)?;
    Ok(world.save()?)
}

/// A world is saved in the middle of a job. In the loaded one all workers are down; the worker comes back and
/// finishes its job.
#[test]
fn saved_and_loaded(rt: HostRuntime) -> Result<(), Fail> {
    let image = saved(rt.alloc())?;
    let mut world = World::load(rt.alloc(), image.as_slice())?;
    assert!(rt; world.owner(0) == Ok(Some(1)));
    come_back(&mut world)?;
    assert!(rt; world.owner(0) == Ok(None));
    assert!(rt; world.history().len() == 1);
    Ok(())
}

//! A list of events of a world.

use crate::fault::BenchFailure;
use rme_program::Event;
use rme_script::{Job, Op, Script};
use rme_words::Shape;
use rme_world::World;

/// More events than the job and all its own steps; the last ones are refused, since the worker is ready.
const EVENTS: usize = 40;

/// Runs a job as a list of events. If that is refused, no event was made.
pub fn run_world(rt: &HostRuntime) -> Result<(), BenchFailure> {
    let mut world = World::new(rt.alloc(), Shape::new(1, 1, 1, 10)?)?;
    let mut events = [Event::Step(0); EVENTS];
    events[0] = Event::Submit(
        0,
        Job {
            lock: 0,
            script: Script::of(&[Op::Add(0, 5)]),
        },
    );
    let answers = match world.run(&events) {
        Ok(answers) => answers,
        Err(_) => {
            println!(rt; "refused")?;
            if !is_new(&world)? {
                return Err(BenchFailure);
            }
            world.run(&events)?
        }
    };
    let (cells, _) = world.cells(0)?;
    if cells.len() != 1 {
        return Err(BenchFailure);
    }
    let entries = world.history().len();
    Ok(println!(rt;
        "answers {} cell {} entries {entries}",
        answers.len(),
        cells.get(0)
    )?)
}

/// Whether nothing has been done in a world.
fn is_new(world: &World) -> Result<bool, BenchFailure> {
    Ok(world.history().len() == 0 && world.ready(0)? && world.last(0)?.is_none())
}

//! Jobs and steps of a world, and the cells of a row.

use rme_script::{Job, Op, Row, Script};
use rme_words::Refusal;
use rme_world::World;

/// A job on the first lock.
pub fn job(ops: &[Op]) -> Job {
    Job {
        lock: 0,
        script: Script::of(ops),
    }
}

/// Runs this number of own steps of a worker.
pub fn step_times(world: &mut World, worker: u32, times: u32) -> Result<(), Refusal> {
    for _ in 0..times {
        let _ = world.step(worker)?;
    }
    Ok(())
}

/// Whether a row has exactly these values.
pub fn cells_are(row: &Row, values: &[u64]) -> bool {
    for cell in 0..row.len() {
        if values.get(cell as usize).copied() != Some(row.get(cell)) {
            return false;
        }
    }
    row.len() as usize == values.len()
}

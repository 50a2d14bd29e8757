//! Growing: a new epoch of a larger shape, in which what was there is as it was.

ghost use Rattle.std.specs.Prelude.{IsTrue};
ghost use Rattle.rme_durable_checkpoint.specs.Growths.{HaveSameSizes};

use crate::alike::are_lives_kept;
use crate::checkpoint_builder::CheckpointFailed;
use crate::checkpointing::{Checkpoint, EpochPlan, rebuild};
use crate::growth_validation::is_growth_same;
use rme_durable_epochs::EpochExecutor;
use rme_wire::Names;
use rme_words::Shape;
use std::alloc::Global;

impl Checkpoint {
    ghost use Rattle.std.specs.Prelude.{IfOk, string_bytes};
    ghost use Rattle.rme_durable_checkpoint.specs.Checkpoints.{BeginsNextEpoch};
    ghost use Rattle.rme_durable_checkpoint.specs.Growths.{GrowthShowsSame, HaveSameSizes, KeepsLives};

    /// Builds a new epoch of this larger shape, in which clients see the same state of all that was there: workers and
    /// locks keep their numbers, jobs, sessions and owners, and cells their values. Each further worker is down and never
    /// had a job, each further lock is free, and each further cell is 0. Recovery from its bytes leads to its world.
    ///
    /// `names` are the names of all locks of the new epoch. A worker may not have crashed between its section and its
    /// exit: see `EpochExecutor::finish_exits`.
    pub fn grown(
        executor: &EpochExecutor,
        alloc: Global,
        names: &Names,
        shape: Shape,
    ) -> Result<Checkpoint, CheckpointFailed>
        ensures same { IfOk result (λ grown. GrowthShowsSame executor.now.base executor.now.executor grown.executor.base
            grown.executor.executor) }
        ensures sizes { IfOk result (λ grown. HaveSameSizes shape grown.executor.executor.world.shape) }
        ensures begins { IfOk result (λ grown. BeginsNextEpoch names.now executor.now (string_bytes grown.bytes)
            grown.executor) }
        ensures lives { IfOk result (λ grown. KeepsLives executor.now.lives grown.executor.lives) }
    {
        let plan = EpochPlan {
            shape,
            holders: grown_holders(alloc, executor.executor().holders(), shape.workers())?,
        };
        let rebuilt = rebuild(executor, alloc, names, plan)?;
        let (before, after) = (rebuilt.before(executor), rebuilt.after());
        if !have_same_sizes(shape, after.executor.world().shape())
            || !are_lives_kept(executor.lives(), rebuilt.checkpoint.executor.lives())
            || !is_growth_same(&before, &after)
        {
            return Err(CheckpointFailed);
        }
        Ok(rebuilt.checkpoint)
    }
}

/// Whether two shapes have the same numbers.
fn have_same_sizes(one: Shape, other: Shape) -> bool
    ensures { IsTrue result → HaveSameSizes one other }
{
    if other.workers() != one.workers() || other.locks() != one.locks() {
        return false;
    }
    other.cells() == one.cells() && other.jobs() == one.jobs()
}

/// The sessions of this number of workers: no session has one that is not in the list, and none has the last one of the
/// list, which is the old checkpoint worker.
fn grown_holders(
    alloc: Global,
    holders: &[Option<u64>],
    workers: u32,
) -> Result<Vec<Option<u64>>, CheckpointFailed> {
    let Ok(mut grown) = Vec::with_capacity(alloc, workers as usize) else {
        return Err(CheckpointFailed);
    };
    let clients = holders.len().saturating_sub(1);
    for worker in 0..workers as usize {
        let holder = if worker < clients {
            holders[worker]
        } else {
            None
        };
        if grown.push(holder).is_err() {
            return Err(CheckpointFailed);
        }
    }
    Ok(grown)
}

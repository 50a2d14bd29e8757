//! The jobs of the checkpoint worker, which set the cells of a new epoch to their values.

ghost use Rattle.std.specs.Prelude.{◌≤◌, IfOk};

use crate::checkpoint_builder::{CheckpointBuilder, CheckpointFailed, JobProgress};
use rme_script::{Job, Op, Row, Script};
use rme_words::Shape;
use std::alloc::Global;

/// The largest number of cells that a job of the checkpoint worker sets.
pub const MOST_SET: u32 = 8;

/// Makes the checkpoint worker, which is the last worker, set the cells of each lock to these rows. Answers the number
/// of its sections for each lock.
pub(crate) fn set_cells(
    alloc: Global,
    draft: &mut CheckpointBuilder<'_>,
    shape: Shape,
    rows: &[Row],
) -> Result<Vec<u32>, CheckpointFailed> {
    let keeper = shape.workers().saturating_sub(1);
    let mut counts = Vec::new(alloc);
    let mut lock: u32 = 0;
    for row in rows {
        let low = operations_of(alloc, row, 0)?;
        let high = operations_of(alloc, row, MOST_SET)?;
        let low = set_cells_of(draft, keeper, lock, &low)?;
        let high = set_cells_of(draft, keeper, lock, &high)?;
        if counts.push(low + high).is_err() {
            return Err(CheckpointFailed);
        }
        lock = lock.saturating_add(1);
    }
    Ok(counts)
}

/// Sets cells of a lock by these operations, and answers the number of sections that this took.
fn set_cells_of(
    draft: &mut CheckpointBuilder<'_>,
    keeper: u32,
    lock: u32,
    operations: &[Op],
) -> Result<u32, CheckpointFailed>
    ensures { IfOk result (λ made. made ≤ 1) }
{
    if operations.is_empty() {
        return Ok(0);
    }
    let script = Script::of(operations);
    draft.submit_job(keeper, &Job { lock, script }, JobProgress::Done)?;
    Ok(1)
}

/// The operations that set the nonzero cells, from this one on: at most `MOST_SET`.
fn operations_of(alloc: Global, row: &Row, from: u32) -> Result<Vec<Op>, CheckpointFailed> {
    let mut operations = Vec::new(alloc);
    for cell in from..row.len().min(from.saturating_add(MOST_SET)) {
        let value = row.get(cell);
        if value != 0 && operations.push(Op::Set(cell, value)).is_err() {
            return Err(CheckpointFailed);
        }
    }
    Ok(operations)
}

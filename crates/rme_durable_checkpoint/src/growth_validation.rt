//! Translation validation of growth: whether clients see the same of all that was there, and all else is new.

ghost use Rattle.std.specs.Prelude.{◌≡◌, ◌<◌, ◌≤◌, ◌+◌, ℕ, IsTrue, slice_get};
ghost use Rattle.rme_history.specs.Legal.{rows_of_locks};
ghost use Rattle.rme_session_world.specs.Downs.{IsWorkerDown};
ghost use Rattle.rme_durable_checkpoint.specs.Growths as spec;

use crate::validation::{
    ComparedState, client_last_of, client_number, does_each_show_same, next_client_place,
};
use rme_script::Row;
use rme_words::Shape;
use rme_world::World;

/// Whether clients see the same in a state of a larger shape, of all that was there, and all else is new in it.
pub(crate) fn is_growth_same(before: &ComparedState<'_>, after: &ComparedState<'_>) -> bool
    requires before { before.now.rows.now ≡ rows_of_locks before.now.executor.now.world.shape
        before.now.executor.now.world.history }
    requires after { after.now.rows.now ≡ rows_of_locks after.now.executor.now.world.shape
        after.now.executor.now.world.history }
    ensures { IsTrue result
        → spec.GrowthShowsSame before.now.base.now before.now.executor.now
        after.now.base.now after.now.executor.now }
{
    let (small, large) = (
        before.executor.world().shape(),
        after.executor.world().shape(),
    );
    if !is_larger(small, large) {
        return false;
    }
    if !does_each_show_same(before, after) || !same_holders(before, after) {
        return false;
    }
    are_cells_kept(before.rows, after.rows, large)
        && are_workers_new(small.workers, after)
        && are_locks_new(small.locks, after)
}

/// Whether a shape has at least the numbers of another one.
fn is_larger(small: Shape, large: Shape) -> bool
    ensures { IsTrue result → spec.IsLargerShape small large }
{
    if small.workers() > large.workers() || small.locks() > large.locks() {
        return false;
    }
    small.cells() <= large.cells() && small.jobs() <= large.jobs()
}

/// Whether each worker but the last has the same session, or none again.
fn same_holders(before: &ComparedState<'_>, after: &ComparedState<'_>) -> bool
    ensures { IsTrue result → (worker : ℕ) → worker + 1 < before.now.executor.now.world.shape.workers
        → slice_get after.now.executor.now.holders worker ≡ slice_get before.now.executor.now.holders worker }
{
    for worker in 0..before.executor.world().shape().workers.saturating_sub(1) {
        if !is_holder_same(before, after, worker) {
            return false;
        }
    }
    true
}

fn is_holder_same(before: &ComparedState<'_>, after: &ComparedState<'_>, worker: u32) -> bool
    ensures { IsTrue result
        → slice_get after.now.executor.now.holders worker ≡ slice_get before.now.executor.now.holders worker }
{
    let one = before.executor.holders().get(worker as usize);
    let other = after.executor.holders().get(worker as usize);
    match (one, other) {
        (Some(one), Some(other)) => *other == *one,
        _ => false,
    }
}

/// Whether the cells of a shape have in the second rows the values that they have in the first, and 0 where they are not
/// there.
fn are_cells_kept(before: &[Row], after: &[Row], shape: Shape) -> bool
    ensures { IsTrue result → (lock cell : ℕ) → lock < shape.locks → cell < shape.cells
        → spec.row_cell after.now lock cell ≡ spec.row_cell before.now lock cell }
{
    for lock in 0..shape.locks {
        if !is_row_kept(before, after, lock, shape.cells) {
            return false;
        }
    }
    true
}

fn is_row_kept(before: &[Row], after: &[Row], lock: u32, cells: u32) -> bool
    ensures { IsTrue result → (cell : ℕ) → cell < cells
        → spec.row_cell after.now lock cell ≡ spec.row_cell before.now lock cell }
{
    for cell in 0..cells {
        if row_cell(after, lock, cell) != row_cell(before, lock, cell) {
            return false;
        }
    }
    true
}

/// A cell of some rows; 0 if they do not have it.
fn row_cell(rows: &[Row], lock: u32, cell: u32) -> u64
    ensures { result ≡ spec.row_cell rows.now lock cell }
{
    let place = lock as usize;
    if place < rows.len() && cell < rows[place].len() {
        rows[place].get(cell)
    } else {
        0
    }
}

/// Whether each worker but the last is new, from the last one of this number of workers on.
fn are_workers_new(workers: u32, after: &ComparedState<'_>) -> bool
    ensures { IsTrue result → (worker : ℕ) → workers ≤ worker + 1
        → worker + 1 < after.now.executor.now.world.shape.workers
        → spec.IsNewWorker after.now.base.now after.now.executor.now worker }
{
    let all = after.executor.world().shape().workers;
    for worker in workers.saturating_sub(1)..all.saturating_sub(1) {
        if !is_worker_new(after, worker) {
            return false;
        }
    }
    true
}

fn is_worker_new(after: &ComparedState<'_>, worker: u32) -> bool
    requires { worker < after.now.executor.now.world.shape.workers }
    ensures { IsTrue result → spec.IsNewWorker after.now.base.now after.now.executor.now worker }
{
    if !is_down(after.executor.world(), worker) {
        return false;
    }
    let Some(None) = after.executor.holders().get(worker as usize) else {
        return false;
    };
    if after.executor.world().pending(worker).is_some() {
        return false;
    }
    let (Some(0), Some(None)) = (client_number(after, worker), client_last_of(after, worker)) else {
        return false;
    };
    true
}

fn is_down(world: &World, worker: u32) -> bool
    requires { worker < world.now.shape.workers }
    ensures { IsTrue result → IsWorkerDown world.now worker }
{
    world.known(worker).is_none()
}

/// Whether each lock is new, from this one on.
fn are_locks_new(first: u32, after: &ComparedState<'_>) -> bool
    ensures { IsTrue result → (lock : ℕ) → first ≤ lock → lock < after.now.executor.now.world.shape.locks
        → spec.IsNewLock after.now.base.now after.now.executor.now lock }
{
    for lock in first..after.executor.world().shape().locks {
        if !is_lock_new(after, lock) {
            return false;
        }
    }
    true
}

fn is_lock_new(after: &ComparedState<'_>, lock: u32) -> bool
    ensures { IsTrue result → spec.IsNewLock after.now.base.now after.now.executor.now lock }
{
    let is_free = matches!(after.executor.world().owner(lock), Ok(None));
    is_free && matches!(next_client_place(after, lock), Some(0))
}

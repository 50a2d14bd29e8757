//! The checkpoint: a new epoch, in which clients see the same state.

ghost use Rattle.std.specs.Prelude.{◌≡◌, ◌+◌, IfOk, IsTrue, string_bytes};
ghost use Rattle.rme_durable_checkpoint.specs.Checkpoints.{BeginsNextEpoch};
ghost use Rattle.rme_durable_epochs.specs.HeaderBases.{IsHeaderBase};
ghost use Rattle.rme_durable_format.specs.Headers.{header_values};
ghost use Rattle.rme_durable_format.specs.WholeLines.{AreWholeLines};
ghost use Rattle.rme_history.specs.Legal.{rows_of_locks};

use crate::alike::{same_lives, same_names};
use crate::checkpoint_builder::{CheckpointBuilder, CheckpointFailed, JobProgress};
use crate::outgoing::next_header;
use crate::setting::set_cells;
use crate::validation::{ComparedState, is_checkpoint_same};
use rme_durable_epochs::{Base, EpochExecutor, EpochStart};
use rme_durable_format::{LogHeader, NoProgress, RecoveredLog, push_header, recover_log};
use rme_history::replay;
use rme_line_text::push_opening;
use rme_script::Row;
use rme_session_world::Executor;
use rme_wire::Names;
use rme_words::Shape;
use rme_world::World;
use std::alloc::{AllocError, Global};

/// A new epoch: the bytes that replace all lines so far, and the executor that they lead to.
#[derive(Drop)]
pub struct Checkpoint {
    pub bytes: String,
    pub executor: EpochExecutor,
}

/// What a new epoch is to have: its sizes, and for each worker the session that has it.
#[derive(Drop)]
pub(crate) struct EpochPlan {
    pub(crate) shape: Shape,
    pub(crate) holders: Vec<Option<u64>>,
}

/// A new epoch that was not yet compared with the old one, and the cells that the finished scripts left in both.
#[derive(Drop)]
pub(crate) struct RebuiltEpoch {
    pub(crate) checkpoint: Checkpoint,
    /// The cells of the old epoch.
    old_rows: Vec<Row>,
    /// The cells of the new epoch.
    new_rows: Vec<Row>,
}

impl RebuiltEpoch {
    /// The state that a new epoch is compared with: that of the epoch before it.
    pub(crate) fn before<'a>(&'a self, old: &'a EpochExecutor) -> ComparedState<'a>
        ensures executor { result.executor.now ≡ old.now.executor }
        ensures base { result.base.now ≡ old.now.base }
        ensures rows { result.rows.now ≡ self.now.old_rows.items }
    {
        ComparedState {
            executor: old.executor(),
            base: old.base(),
            rows: self.old_rows.as_slice(),
        }
    }

    /// The state of the new epoch.
    pub(crate) fn after(&self) -> ComparedState<'_>
        ensures executor { result.executor.now ≡ self.now.checkpoint.executor.executor }
        ensures base { result.base.now ≡ self.now.checkpoint.executor.base }
        ensures rows { result.rows.now ≡ self.now.new_rows.items }
    {
        ComparedState {
            executor: self.checkpoint.executor.executor(),
            base: self.checkpoint.executor.base(),
            rows: self.new_rows.as_slice(),
        }
    }
}

impl Checkpoint {
    ghost use Rattle.std.specs.Prelude.{◌≡◌, IfOk, string_bytes};
    ghost use Rattle.rme_durable_checkpoint.specs.Checkpoints.{BeginsNextEpoch, CheckpointShowsSame};

    /// Builds a new epoch of the same locks and workers, in which clients see the same state: each worker with a job
    /// has it again, and is inside its lock if it was; the same sessions have the same workers; and the cells have the
    /// values that the finished scripts left. Recovery from its bytes leads to its world.
    pub fn of(
        executor: &EpochExecutor,
        alloc: Global,
        names: &Names,
    ) -> Result<Checkpoint, CheckpointFailed>
        ensures same { IfOk result (λ renewed. CheckpointShowsSame executor.now.base executor.now.executor
            renewed.executor.base renewed.executor.executor) }
        ensures begins { IfOk result (λ renewed. BeginsNextEpoch names.now executor.now (string_bytes renewed.bytes)
            renewed.executor) }
        ensures lives { IfOk result (λ renewed. renewed.executor.lives ≡ executor.now.lives) }
    {
        let plan = EpochPlan {
            shape: executor.executor().world().shape(),
            holders: copy_holders(alloc, executor.executor().holders())?,
        };
        let rebuilt = rebuild(executor, alloc, names, plan)?;
        if !same_lives(rebuilt.checkpoint.executor.lives(), executor.lives())
            || !is_checkpoint_same(&rebuilt.before(executor), &rebuilt.after())
        {
            return Err(CheckpointFailed);
        }
        Ok(rebuilt.checkpoint)
    }
}

/// Builds a new epoch with these sizes and sessions, which nobody has compared with the old one yet.
pub(crate) fn rebuild(
    executor: &EpochExecutor,
    alloc: Global,
    names: &Names,
    plan: EpochPlan,
) -> Result<RebuiltEpoch, CheckpointFailed>
    ensures begins { IfOk result (λ rebuilt. BeginsNextEpoch names.now executor.now
        (string_bytes rebuilt.checkpoint.bytes) rebuilt.checkpoint.executor) }
    ensures holders { IfOk result (λ rebuilt. rebuilt.checkpoint.executor.executor.holders ≡ plan.holders.items) }
    ensures old_rows { IfOk result (λ rebuilt. rebuilt.old_rows.items ≡ rows_of_locks executor.now.executor.world.shape
        executor.now.executor.world.history) }
    ensures new_rows { IfOk result (λ rebuilt. rebuilt.new_rows.items ≡ rows_of_locks
        rebuilt.checkpoint.executor.executor.world.shape rebuilt.checkpoint.executor.executor.world.history) }
{
    let old_rows = rows_of(alloc, executor.executor().world())?;
    let bytes = checkpoint_lines(alloc, names, (executor, old_rows.as_slice()), &plan)?;
    let Ok(started) = recover_log(alloc, bytes.as_bytes(), &NoProgress) else {
        return Err(CheckpointFailed);
    };
    let RecoveredLog {
        header,
        names: own,
        world,
        lives,
        ..
    } = started;
    if !same_names(&own, names)
        || !are_whole_lines(bytes.as_bytes())
        || !is_next_epoch(executor.epoch(), header.epoch)
    {
        return Err(CheckpointFailed);
    }
    let base = base_of(alloc, &header)?;
    let new_rows = rows_of(alloc, &world)?;
    let Some(resumed) = Executor::resume(world, plan.holders) else {
        return Err(CheckpointFailed);
    };
    let start = EpochStart {
        executor: resumed,
        base,
        lives,
        epoch: header.epoch,
        bytes: bytes.len() as u64,
    };
    let executor = EpochExecutor::new(alloc, start);
    Ok(RebuiltEpoch {
        checkpoint: Checkpoint { bytes, executor },
        old_rows,
        new_rows,
    })
}

/// Whether an epoch follows another one, by the numbers of epochs before them.
fn is_next_epoch(epoch: u64, next: u64) -> bool
    ensures { IsTrue result → next ≡ epoch + 1 }
{
    epoch < next && next - epoch == 1
}

/// Whether the last byte is a newline.
fn are_whole_lines(bytes: &[u8]) -> bool
    ensures { IsTrue result → AreWholeLines bytes.now }
{
    let count = bytes.len();
    count > 0 && bytes[count - 1] == b'\n'
}

/// The cells of each lock that the finished scripts left.
fn rows_of(alloc: Global, world: &World) -> Result<Vec<Row>, CheckpointFailed>
    ensures { IfOk result (λ rows. rows.items ≡ rows_of_locks world.now.shape world.now.history) }
{
    match replay(alloc, world.shape(), world.history()) {
        Ok(rows) => Ok(rows),
        Err(_) => Err(CheckpointFailed),
    }
}

fn base_of(alloc: Global, header: &LogHeader) -> Result<Base, CheckpointFailed>
    ensures { IfOk result (IsHeaderBase (header_values header.now)) }
{
    match Base::from_header(alloc, header) {
        Ok(Some(base)) => Ok(base),
        _ => Err(CheckpointFailed),
    }
}

fn copy_holders(
    alloc: Global,
    holders: &[Option<u64>],
) -> Result<Vec<Option<u64>>, CheckpointFailed>
    ensures { IfOk result (λ copy. copy.items ≡ holders.now) }
{
    match holders.to_vec(alloc) {
        Ok(copy) => Ok(copy),
        Err(_) => Err(CheckpointFailed),
    }
}

/// The lines of the epoch after this one, whose finished scripts left these rows.
fn checkpoint_lines(
    alloc: Global,
    names: &Names,
    (old, rows): (&EpochExecutor, &[Row]),
    plan: &EpochPlan,
) -> Result<String, CheckpointFailed> {
    let mut draft = CheckpointBuilder::new(alloc, names, plan.shape)?;
    let sections_made = set_cells(alloc, &mut draft, plan.shape, rows)?;
    restore_jobs(&mut draft, old.executor().world(), JobProgress::Inside)?;
    restore_jobs(&mut draft, old.executor().world(), JobProgress::Waiting)?;
    crash_free_workers(&mut draft, plan.holders.as_slice())?;
    let header = next_header(alloc, old, plan.shape, sections_made.as_slice())?;
    let mut lines = String::new(alloc);
    match push_first_lines(&mut lines, names, &header, plan.shape) {
        Ok(()) => {}
        Err(_) => return Err(CheckpointFailed),
    }
    match lines.push_str(draft.into_lines().as_str()) {
        Ok(()) => Ok(lines),
        Err(_) => Err(CheckpointFailed),
    }
}

/// Appends the header and the opening.
fn push_first_lines(
    lines: &mut String,
    names: &Names,
    header: &LogHeader,
    shape: Shape,
) -> Result<(), AllocError> {
    push_header(lines, names, header)?;
    push_opening(lines, names, shape)?;
    lines.push_str("\n")
}

/// Submits the pending jobs again whose workers have this progress in the world, and runs them to it.
fn restore_jobs(
    draft: &mut CheckpointBuilder<'_>,
    world: &World,
    extent: JobProgress,
) -> Result<(), CheckpointFailed> {
    for worker in 0..world.shape().workers {
        if let Some(job) = world.pending(worker) {
            let is_inside = matches!(world.owner(job.lock), Ok(Some(owner)) if owner == worker);
            if is_inside == (extent == JobProgress::Inside) {
                draft.submit_job(worker, &job, extent)?;
            }
        }
    }
    Ok(())
}

/// Crashes each worker that no session has.
fn crash_free_workers(
    draft: &mut CheckpointBuilder<'_>,
    holders: &[Option<u64>],
) -> Result<(), CheckpointFailed> {
    let mut worker: u32 = 0;
    for holder in holders {
        if holder.is_none() {
            draft.crash_worker(worker)?;
        }
        worker = worker.saturating_add(1);
    }
    Ok(())
}

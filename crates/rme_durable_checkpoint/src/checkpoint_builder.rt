//! The world of a new epoch while it is built, and the lines that lead to it.

use rme_durable_format::{CommandWriter, append_batch};
use rme_program::{Note, Phase};
use rme_script::Job;
use rme_session_world::{BatchStart, EventBatch};
use rme_wire::Names;
use rme_words::Shape;
use rme_world::World;
use std::alloc::Global;

/// A bound on the own steps of a worker for one job: no phase takes more than 599 of them.
const MOST_STEPS: u32 = 3_000;

/// A checkpoint failed, for want of memory or because the new world is not like the old one. The old epoch continues.
#[derive(Clone, Copy, Debug, PartialEq, Eq)]
pub struct CheckpointFailed;

/// The progress of a worker with a job.
#[derive(Clone, Copy, Debug, PartialEq, Eq)]
pub(crate) enum JobProgress {
    /// The worker waits for the lock.
    Waiting,
    /// The worker is inside the lock, and has begun no section.
    Inside,
    /// The worker is ready again.
    Done,
}

impl JobProgress {
    /// Whether a worker in this phase has made this progress.
    fn is_reached(self, phase: Phase) -> bool {
        match self {
            JobProgress::Waiting => matches!(phase, Phase::Enter),
            JobProgress::Inside => matches!(phase, Phase::Section),
            JobProgress::Done => matches!(phase, Phase::Ready),
        }
    }
}

/// The world of a new epoch, in which all workers begin up and ready.
#[derive(Drop)]
pub(crate) struct CheckpointBuilder<'a> {
    names: &'a Names,
    world: World,
    writer: CommandWriter,
    lines: String,
}

impl<'a> CheckpointBuilder<'a> {
    pub(crate) fn new(
        alloc: Global,
        names: &'a Names,
        shape: Shape,
    ) -> Result<CheckpointBuilder<'a>, CheckpointFailed> {
        match World::new(alloc, shape) {
            Ok(world) => Ok(CheckpointBuilder {
                names,
                world,
                writer: CommandWriter::new(alloc),
                lines: String::new(alloc),
            }),
            Err(_) => Err(CheckpointFailed),
        }
    }

    /// The lines so far.
    pub(crate) fn into_lines(self) -> String {
        let CheckpointBuilder { lines, .. } = self;
        lines
    }

    /// Submits a job to a worker, and runs the worker to this progress.
    pub(crate) fn submit_job(
        &mut self,
        worker: u32,
        job: &Job,
        extent: JobProgress,
    ) -> Result<(), CheckpointFailed> {
        if self.world.submit(worker, *job).is_err() {
            return Err(CheckpointFailed);
        }
        let steps = run_to_progress(&mut self.world, worker, extent)?;
        self.append_events(EventBatch {
            worker,
            begins: BatchStart::Submit(*job),
            steps,
            falls: false,
        })
    }

    /// Crashes a worker where it is.
    pub(crate) fn crash_worker(&mut self, worker: u32) -> Result<(), CheckpointFailed> {
        if self.world.crash(worker).is_err() {
            return Err(CheckpointFailed);
        }
        self.append_events(EventBatch {
            worker,
            begins: BatchStart::GoOn,
            steps: 0,
            falls: true,
        })
    }

    fn append_events(&mut self, batch: EventBatch) -> Result<(), CheckpointFailed> {
        match append_batch(&mut self.lines, &mut self.writer, self.names, batch) {
            Ok(()) => Ok(()),
            Err(_) => Err(CheckpointFailed),
        }
    }
}

/// Runs the own steps of a worker until it has made this progress, and answers their number. A blocked step is an
/// error.
fn run_to_progress(
    world: &mut World,
    worker: u32,
    extent: JobProgress,
) -> Result<u32, CheckpointFailed> {
    for steps in 0..MOST_STEPS {
        match world.phase(worker) {
            Some(phase) if extent.is_reached(phase) => return Ok(steps),
            _ => {}
        }
        match world.step(worker) {
            Ok(Note::Blocked) | Err(_) => return Err(CheckpointFailed),
            Ok(_) => {}
        }
    }
    Err(CheckpointFailed)
}

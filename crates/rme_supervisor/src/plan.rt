//! The plan of a supervised worker.

use rme_script::Job;
use rme_table::Service;

/// The jobs of a worker, and its falls.
#[derive(Drop)]
pub struct WorkerPlan {
    /// The jobs that it executes in order. The index of the next one, from 0, is the number of the job that was last
    /// finished or withdrawn.
    pub jobs: Vec<Job>,
    /// Its falls: before the own step that would follow this number of steps, for each of these counts, which increase
    /// strictly. Own steps are counted over all lives, with blocked ones.
    pub falls: Vec<u32>,
    /// The greatest number of lives, each but the last ended by a fall. Not 0.
    pub lives: u32,
    /// The greatest number of blocked sweeps on one job, in all lives together. Not 0.
    pub sweeps: u32,
}

/// The plans of all workers, in order, and the number of rounds: in each round a worker executes all jobs of its plan,
/// in order; with 0 rounds none. The index of a worker's next job is counted over all rounds.
#[derive(Clone, Copy)]
pub struct Schedule<'a> {
    pub plans: &'a [WorkerPlan],
    pub rounds: u32,
}

/// What a run is made with, apart from its Downs: the service, the plans and the gate.
#[derive(Drop)]
pub struct RunContext<'a, G> {
    pub service: &'a Service,
    pub schedule: Schedule<'a>,
    pub gate: &'a G,
}

impl WorkerPlan {
    ghost use Rattle.std.specs.Prelude.{◌≡◌, ◌≤◌, length, slice_get, Some, None, IfSome};
    ghost use Rattle.rme_supervisor.specs.Plans.{planned_jobs};

    /// The job at an index, counted over this number of rounds; `None` after the last one.
    pub(crate) fn job(&self, rounds: u32, place: usize) -> Option<&Job>
        ensures some { IfSome result (λ job. slice_get (planned_jobs rounds self.now) place ≡ Some job.now) }
        ensures none { result ≡ None → length (planned_jobs rounds self.now) ≤ place }
    {
        let count = self.jobs.len();
        if count == 0 || place / count >= rounds as usize {
            return None;
        }
        Some(&self.jobs[place % count])
    }
}

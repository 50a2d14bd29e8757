//! The work of a session's worker on its job, up to the end of the order.

ghost use Rattle.std.specs.Prelude.{◌≡◌, IfOk, None, Ok, OnErr};
ghost use Rattle.rme_session_world.specs.Downs.{IsWorkerDown};
ghost use Rattle.rme_world.specs.Calls.{CrashContract, RestartContract, WithdrawContract};
ghost use Rattle.rme_world.specs.Refusals.{withdraw_refusal};
ghost use Rattle.rme_world.specs.WorldInvariants.{WorldInvariant};
ghost use Rattle.rme_session_world.specs.WorkerRuns.{IsWorkerUp};
ghost use Rattle.rme_session_world.specs.JobRuns.{MaySubmitJob, JobSubmission, JobContinuation};

use crate::running::{RunEnd, RunGoal, run_until};
use crate::session_of_worker::session_outcome;
use rme_script::Job;
use rme_session_protocol::{JobOutcome, PlannedCrash};
use rme_words::NoMemory;
use rme_world::World;

/// The work of a worker, and the outcome of its job.
#[derive(Clone, Copy)]
pub(crate) struct WorkedJob {
    pub(crate) outcome: JobOutcome,
    /// The number of own steps made.
    pub(crate) steps: u32,
    /// Whether it crashed then, as planned.
    pub(crate) falls: bool,
    /// The rest of the plan.
    pub(crate) left: PlannedCrash,
}

/// Runs a worker until it has reached its goal, is blocked, or crashes.
pub(crate) fn continue_job(
    world: &mut World,
    worker: u32,
    goal: RunGoal,
    planned: PlannedCrash,
) -> WorkedJob
    requires up { IsWorkerUp world.old worker }
    ensures went { JobContinuation goal worker planned world.old result world.new }
{
    recall_invariant(world, worker);
    let walk = run_until(world, worker, goal, planned);
    let (outcome, falls) = match walk.end {
        RunEnd::Fallen => (crash_worker(world, worker), true),
        RunEnd::There | RunEnd::Stopped => (session_outcome(world, worker), false),
    };
    WorkedJob {
        outcome,
        steps: walk.steps,
        falls,
        left: walk.left,
    }
}

/// Recalls the invariant for the proof; does nothing at run time.
pub(crate) fn recall_invariant(world: &World, worker: u32)
    ensures { WorldInvariant world.now }
{
    let _ = world.phase(worker);
}

/// Crashes the worker.
pub(crate) fn crash_worker(world: &mut World, worker: u32) -> JobOutcome
    requires up { IsWorkerUp world.old worker }
    ensures fell { result ≡ JobOutcome.Fell }
    ensures crashed { CrashContract world.old worker (Ok tt) world.new }
{
    match world.crash(worker) {
        Ok(()) => JobOutcome::Fell,
        Err(_) => unreachable!(),
    }
}

/// Restarts the worker.
pub(crate) fn restart_worker(world: &mut World, worker: u32)
    requires down { IsWorkerDown world.old worker }
    ensures { RestartContract world.old worker (Ok tt) world.new }
{
    match world.restart(worker) {
        Ok(()) => {}
        Err(_) => unreachable!(),
    }
}

/// Makes the worker begin to withdraw its job.
pub(crate) fn begin_withdraw(world: &mut World, worker: u32)
    requires waits { withdraw_refusal world.old worker ≡ None }
    ensures { WithdrawContract world.old worker (Ok tt) world.new }
{
    match world.withdraw(worker) {
        Ok(()) => {}
        Err(_) => unreachable!(),
    }
}

/// Submits a job that the worker may be given, and runs the worker.
pub(crate) fn submit_and_run(
    world: &mut World,
    worker: u32,
    job: Job,
    goal: RunGoal,
    planned: PlannedCrash,
) -> Result<WorkedJob, NoMemory>
    requires may { MaySubmitJob world.old worker job }
    ensures posts { IfOk result (λ worked. JobSubmission goal worker (record { job = job; planned = planned }) world.old
        worked world.new) }
    ensures unchanged { OnErr result (world.new ≡ world.old) }
{
    recall_invariant(world, worker);
    match world.submit(worker, job) {
        Ok(_) => Ok(continue_job(world, worker, goal, planned)),
        Err(_) => Err(NoMemory),
    }
}

//! Consecutive own steps of one worker.

ghost use Rattle.std.specs.Prelude.{◌≡◌, ◌≤◌, Some, slice_get};
ghost use Rattle.rme_program.specs.declared.private.Private.{Private};
ghost use Rattle.rme_program.specs.Phases.{phase_of};
ghost use Rattle.rme_session_world.specs.WorkerRuns.{IsRunEnd, PlanAfterRun, IsWorkerUp, RunStepSequence, is_goal_reached};
ghost use Rattle.rme_world.specs.WorldInvariants.{WorldInvariant};

use rme_program::Phase;
use rme_session_protocol::{Countdown, PlannedCrash};
use rme_world::World;

/// The goal of a worker.
#[derive(Clone, Copy)]
pub(crate) enum RunGoal {
    /// To be at rest: ready, waiting for its lock, or inside.
    Rest,
    /// To be inside its lock.
    Inside,
    /// To be ready.
    Ready,
}

impl RunGoal {
    /// Whether a worker in this phase has no more steps to make. A ready worker has none.
    fn is_reached(self, phase: Phase) -> bool
        ensures { result ≡ is_goal_reached self phase }
    {
        match phase {
            Phase::Ready => true,
            Phase::Section => !matches!(self, RunGoal::Ready),
            Phase::Enter => matches!(self, RunGoal::Rest),
            Phase::Recover | Phase::Post | Phase::Exit => false,
        }
    }
}

/// Why a worker makes no more steps.
#[derive(Clone, Copy)]
pub(crate) enum RunEnd {
    /// It has reached its goal.
    There,
    /// Another worker holds the next node of its path.
    Stopped,
    /// Its planned crash is due. It has not crashed yet.
    Fallen,
}

/// The result of a run of own steps.
#[derive(Clone, Copy)]
pub(crate) struct WorkerRun {
    /// The number of own steps made. A blocked step, which changes nothing, does not count.
    pub(crate) steps: u32,
    pub(crate) end: RunEnd,
    /// The rest of the plan.
    pub(crate) left: PlannedCrash,
}

/// Runs a worker until it has reached its goal, its next step would be blocked, or its planned crash is due. The plan
/// is ticked before each own step, and also before the one that would be blocked.
pub(crate) fn run_until(
    world: &mut World,
    worker: u32,
    goal: RunGoal,
    planned: PlannedCrash,
) -> WorkerRun
    requires up { IsWorkerUp world.old worker }
    ensures walks { RunStepSequence goal worker world.old result.steps world.new }
    ensures end { IsRunEnd goal worker world.new result.end }
    ensures up { IsWorkerUp world.new worker }
    ensures kept { WorldInvariant world.new }
    ensures plan { PlanAfterRun planned result.steps result.end result.left }
    ensures few { result.steps ≤ 599 }
{
    let mut countdown = Countdown::Runs(planned);
    let mut steps = 0;
    let end = loop {
        if has_reached_goal(world, worker, goal) {
            break RunEnd::There;
        }
        if countdown.tick() {
            break RunEnd::Fallen;
        }
        if world.would_block(worker) {
            break RunEnd::Stopped;
        }
        match world.step(worker) {
            Ok(_) => steps += 1,
            Err(_) => unreachable!(),
        }
    };
    WorkerRun {
        steps,
        end,
        left: countdown.remaining(),
    }
}

/// Whether a worker has reached its goal.
fn has_reached_goal(world: &World, worker: u32, goal: RunGoal) -> bool
    requires up { IsWorkerUp world.now worker }
    ensures kept { WorldInvariant world.now }
    ensures there { (private : Private) × (slice_get world.now.privates worker ≡ Some (Some private))
        × (result ≡ is_goal_reached goal (phase_of private.stage)) }
{
    match world.phase(worker) {
        Some(phase) => goal.is_reached(phase),
        None => unreachable!(),
    }
}

//! A simulation: the lives of a server over one disk, until all steps are made, and a last life that finishes all jobs.

use crate::clock::{SimulatedRuntime, SimulatedTime};
use crate::disk::Disk;
use crate::fault::SimulationFailure;
use crate::life::{ServerLifeContext, live, lock_names};
use crate::plan::{Asked, Plan};
use crate::recovering::check_recovery;
use crate::run::{LifeEnd, Run, SimulationContext, SimulationCounts, count};
use rme_durable_file::StateName;
use rme_durable_format::{LogHeader, push_header};
use rme_faults_model::{Draws, Model};
use rme_line_text::push_opening;
use rme_words::Shape;
use std::alloc::Global;
use std::cell::Cell;
use std::sync::Wait;

/// The greatest number of lives of a server in a simulation.
const MOST_LIVES: u32 = 400;

/// The number of flags: one for each session, and one for each worker in the last life.
const FLAGS: usize = 8;

/// What a simulation found.
#[derive(Clone, Copy)]
pub struct Outcome {
    pub counts: SimulationCounts,
    /// What is wrong, and the step after which it was found.
    pub failure: Option<(u32, &'static str)>,
}

/// Runs the simulation of a seed.
pub fn simulate<R: Wait>(
    rt: &HostRuntime,
    threads: &R,
    seed: u64,
    asked: Asked,
) -> Result<Outcome, SimulationFailure> {
    let alloc = rt.alloc();
    let draws = Draws::new(seed);
    let plan = Plan::draw(&draws, asked);
    let bytes = first_bytes(alloc, &plan)?;
    let disk = Disk::new(alloc, &draws, asked.defect, bytes);
    let time = SimulatedTime::new();
    let runtime = SimulatedRuntime {
        threads,
        time: &time,
    };
    let name = StateName::new(String::from_str(alloc, "memory")?);
    let closed = flags(alloc)?;
    let (checkpoints, spare) = (Cell::new(0), Cell::new(false));
    let life_context = ServerLifeContext {
        runtime: &runtime,
        name: &name,
        closed: closed.as_slice(),
    };
    let run_context = SimulationContext {
        draws: &draws,
        disk: &disk,
        checkpoints: &checkpoints,
        spare: &spare,
    };
    let run = Run::new(rt, plan, run_context, first_model(alloc, &plan)?);
    Ok(outcome_of(live_all(&life_context, run)?))
}

/// The flags of clients that are closed.
fn flags(alloc: Global) -> Result<Vec<Cell<bool>>, SimulationFailure> {
    let mut closed = Vec::new(alloc);
    for _ in 0..FLAGS {
        if closed.push(Cell::new(false)).is_err() {
            return Err(SimulationFailure::NoMemory);
        }
    }
    Ok(closed)
}

/// What is known before the first answer.
fn first_model(alloc: Global, plan: &Plan) -> Result<Model, SimulationFailure> {
    let mut model = Model::new(alloc, plan.withdraws);
    model.grow(plan.workers, plan.locks, plan.cells)?;
    Ok(model)
}

/// What a simulation found and counted.
fn outcome_of(run: Run<'_>) -> Outcome {
    let mut counts = run.counts;
    counts.checkpoints = run.checkpoints.get();
    counts.faults = run.disk.faults.get();
    counts.torn = run.disk.torn.get();
    count(&mut counts.seeds);
    Outcome {
        counts,
        failure: run.failure.map(|wrong| (run.step, wrong)),
    }
}

/// Lives follow each other until all steps are made; then the last one.
fn live_all<'a, R: Wait>(
    life_context: &ServerLifeContext<'a, R>,
    run: Run<'a>,
) -> Result<Run<'a>, SimulationFailure> {
    let mut run = run;
    for _ in 0..MOST_LIVES {
        run.disk.set_odds(run.plan.odds);
        run = live(life_context, run)?;
        if run.failure.is_some() {
            return Ok(run);
        }
        if run.end == LifeEnd::Machine && !run.plan.syncs {
            return after_loss(life_context, run);
        }
        end_life(&mut run);
        if run.end == LifeEnd::Steps {
            break;
        }
    }
    run.is_last = true;
    run.disk.set_odds(0);
    live(life_context, run)
}

/// The process is dead, and perhaps the machine has stopped.
fn end_life(run: &mut Run<'_>) {
    let what = if run.end == LifeEnd::Machine {
        run.disk.stop();
        count(&mut run.counts.stops);
        "stop"
    } else {
        count(&mut run.counts.crashes);
        "crash"
    };
    run.trace(what, 0, "", "");
    run.model.crash();
}

/// The machine stops, and answers may be lost: recovery accepts what is left, and that is a state from before.
fn after_loss<'a, R: Wait>(
    life_context: &ServerLifeContext<'a, R>,
    run: Run<'a>,
) -> Result<Run<'a>, SimulationFailure> {
    let mut run = run;
    end_life(&mut run);
    let found = check_recovery(&run);
    run.note(found);
    run.model.is_lossy = true;
    run.is_last = true;
    run.disk.set_odds(0);
    live(life_context, run)
}

/// The lines of a new state.
fn first_bytes(alloc: Global, plan: &Plan) -> Result<Vec<u8>, SimulationFailure> {
    let names = lock_names(alloc, plan.locks)?;
    let shape = Shape::new(
        plan.workers.saturating_add(1),
        plan.locks,
        plan.cells,
        plan.jobs,
    )?;
    let mut lines = String::new(alloc);
    push_header(&mut lines, &names, &LogHeader::first(alloc, shape)?)?;
    push_opening(&mut lines, &names, shape)?;
    lines.push_str("\n")?;
    Ok(lines.as_bytes().to_vec(alloc)?)
}

//! A supervised run.

ghost use Rattle.std.specs.Prelude.{◌≡◌, ℕ, ◌≤◌, [], length, vec_capacity, IfOk, IfErr};
ghost use Rattle.rme_service_steps.specs.Closing.{SeatsAreOfService};
ghost use Rattle.rme_supervisor.specs.Plans.{AreWorkerPlans};
ghost use Rattle.rme_supervisor.specs.LifeResults.{ResultsFollowPlans, ResultsAreEmpty};
ghost use Rattle.rme_supervisor.specs.Stops.{GateTurnsAway, gate_view, run_at_gate};
ghost use Rattle.rme_table.specs.Closing.{IsClosedService};
ghost use Rattle.rme_supervisor.specs.Supervised.{AreAllDowns, IsAttended, IsRunFault, IsLateFault, RunIsOver, IsReport, IsUnattended, all_fresh};

use crate::checking::{are_downs_as_planned, are_fresh, are_worker_plans};
use crate::keeping::keep_all;
use crate::life_results::{LifeResults, collect_results};
use crate::plan::{RunContext, Schedule, WorkerPlan};
use crate::report::{Attended, Fault, Report, Unattended};
use crate::run_tag::RunTag;
use crate::slots::{SupervisedSlot, fill};
use rme_table::{Down, Gate, Service, Unclosed};
use rme_words::{NoMemory, Refusal};
use std::alloc::Global;
use std::marker::Brand;
use std::sync::Wait;
use std::thread::Threads;

/// Keeps each worker alive by its plan, and closes the service when all lives have ended.
///
/// The Downs are those of all workers, in order. Each worker has a keeper thread, which starts a thread for each of its
/// lives and joins it. A life recovers, continues the pending job, and then executes the plan's jobs from the next one
/// on.
///
/// A `Fault` with `BadShape` if the number of plans is not that of the Downs, or a plan cannot be supervised: then
/// nothing was done. With `NoMemory` if memory was refused: that for the slots and the answer is taken before the run,
/// that for the close after it, and the jobs that were run stay done. It may wait for as long as the gate does, and its
/// contract holds if it returns.
pub fn supervise<G: Gate + Sync, R: Threads + Wait + Sync>(
    rt: &R,
    alloc: Global,
    service: Service,
    downs: Vec<Down>,
    plans: Vec<WorkerPlan>,
    gate: &G,
) -> Result<Report, Fault>
    requires ours { SeatsAreOfService service downs.items }
    requires all { AreAllDowns service.shape downs.items }
    ensures report { let run = run_at_gate 1 plans.items downs.items
        (gate_view (G.answered gate.now) G.lets_all service.shape) in
        IfOk result (λ report. IsReport service.shape run report) }
    ensures fault { let run = run_at_gate 1 plans.items downs.items
        (gate_view (G.answered gate.now) G.lets_all service.shape) in
        IfErr result (λ fault. IsRunFault service run fault) }
{
    let schedule = Schedule {
        plans: &plans,
        rounds: 1,
    };
    let context = RunContext {
        service: &service,
        schedule,
        gate,
    };
    match attend(rt, alloc, &context, downs) {
        Ok(attended) => close(service, attended),
        Err(unattended) => {
            let Unattended { why, downs } = unattended;
            Err(Fault {
                why,
                service,
                downs,
            })
        }
    }
}

/// Keeps each worker alive by its plan, as `supervise` does with a schedule of one round, and gives the Downs back when
/// all lives have ended. The service stays open.
///
/// An `Unattended` with `BadShape`, `NoMemory` or `NoWorker` if `supervise` would have such a `Fault`; all memory is
/// taken before the run. It may wait for as long as the gate does, and its contract holds if it returns.
pub fn attend<G: Gate + Sync, R: Threads + Wait + Sync>(
    rt: &R,
    alloc: Global,
    context: &RunContext<'_, G>,
    downs: Vec<Down>,
) -> Result<Attended, Unattended>
    requires ours { SeatsAreOfService context.now.service.now downs.items }
    requires all { AreAllDowns context.now.service.now.shape downs.items }
    ensures attended { let run = run_at_gate context.now.schedule.rounds context.now.schedule.plans.now downs.items
        (gate_view (G.answered context.now.gate.now) G.lets_all context.now.service.now.shape) in
        IfOk result (λ attended. IsAttended context.now.service.now run attended) }
    ensures unattended { let run = run_at_gate context.now.schedule.rounds context.now.schedule.plans.now downs.items
        (gate_view (G.answered context.now.gate.now) G.lets_all context.now.service.now.shape) in
        IfErr result (λ unattended. IsUnattended context.now.service.now run unattended) }
{
    if !are_worker_plans(context.schedule.plans, downs.len()) {
        return Err(Unattended {
            why: Refusal::BadShape,
            downs,
        });
    }
    run::<Brand, G, R>(rt, alloc, context, downs)
}

/// A run with plans that can be supervised.
fn run<K: RunTag + Send + Sync, G: Gate + Sync, R: Threads + Wait + Sync>(
    rt: &R,
    alloc: Global,
    context: &RunContext<'_, G>,
    downs: Vec<Down>,
) -> Result<Attended, Unattended>
    requires named { (context.now.service.now ≡ K.Tag.ident) × (context.now.schedule.plans.now ≡ K.run.plans)
        × (downs.items ≡ K.run.given) × (context.now.schedule.rounds ≡ K.run.rounds) }
    requires away { (worker : ℕ)
        → GateTurnsAway (gate_view (G.answered context.now.gate.now) G.lets_all context.now.service.now.shape) worker
        → K.run.turned worker }
    requires ours { SeatsAreOfService context.now.service.now downs.items }
    requires all { AreAllDowns context.now.service.now.shape downs.items }
    requires good { AreWorkerPlans context.now.schedule.plans.now (length downs.items) }
    ensures attended { IfOk result (λ attended. IsAttended context.now.service.now K.run attended) }
    ensures unattended { IfErr result (λ unattended. IsUnattended context.now.service.now K.run unattended) }
{
    let Ok((slots, settled)) = room_for::<K>(alloc, downs.len()) else {
        return Err(Unattended {
            why: Refusal::NoMemory,
            downs,
        });
    };
    let fresh = are_fresh(&downs);
    let slots = fill(downs, slots);
    keep_all(rt, &slots, context);
    finish_run::<K>(
        context.service,
        &context.schedule,
        collect_results(slots, settled),
        fresh,
    )
}

/// Room for `count` slots, and for their final contents.
fn room_for<K: RunTag>(
    alloc: Global,
    count: usize,
) -> Result<(Vec<SupervisedSlot<K>>, LifeResults), NoMemory>
    ensures slots { IfOk result (λ room. (room.0.items ≡ []) × (count ≤ vec_capacity room.0)) }
    ensures settled { IfOk result (λ room. ResultsAreEmpty count room.1) }
{
    let Ok(slots) = Vec::with_capacity(alloc, count) else {
        return Err(NoMemory);
    };
    let settled = LifeResults::with_capacity(alloc, count)?;
    Ok((slots, settled))
}

/// The answer of a run that is over.
fn finish_run<K: RunTag>(
    service: &Service,
    schedule: &Schedule<'_>,
    settled: LifeResults,
    fresh: bool,
) -> Result<Attended, Unattended>
    requires settled { ResultsFollowPlans service.now K.run settled }
    requires plans { (length schedule.now.plans.now ≡ service.now.shape.workers)
        × (schedule.now.plans.now ≡ K.run.plans) }
    requires rounds { schedule.now.rounds ≡ K.run.rounds }
    requires fresh { fresh ≡ all_fresh K.run.given }
    ensures ours { IfOk result (λ attended. SeatsAreOfService service.now attended.downs.items) }
    ensures attended { IfOk result (λ attended. RunIsOver service.now.shape K.run attended.downs.items
        attended.ends.items attended.lives.items) }
    ensures unattended { IfErr result (λ unattended. IsLateFault service.now K.run unattended) }
{
    let LifeResults { downs, ends, lives } = settled;
    if !are_downs_as_planned(fresh, schedule, &downs, &ends, service.shape()) {
        return Err(Unattended {
            why: Refusal::NoWorker,
            downs,
        });
    }
    Ok(Attended { ends, lives, downs })
}

/// Closes the service of a run.
fn close(service: Service, attended: Attended) -> Result<Report, Fault>
    requires ours { SeatsAreOfService service attended.downs.items }
    requires all { AreAllDowns service.shape attended.downs.items }
    ensures report { IfOk result (λ report. (report.ends ≡ attended.ends) × (report.lives ≡ attended.lives)
        × IsClosedService service.shape attended.downs.items report.closed.locks.items) }
    ensures fault { IfErr result (λ fault. (fault.why ≡ Refusal.NoMemory) × (fault.service ≡ service)
        × (fault.downs.items ≡ attended.downs.items)) }
{
    let Attended { ends, lives, downs } = attended;
    match service.close(downs) {
        Ok(closed) => Ok(Report {
            ends,
            lives,
            closed,
        }),
        Err(unclosed) => {
            let Unclosed {
                why,
                service,
                downs,
            } = unclosed;
            Err(Fault {
                why,
                service,
                downs,
            })
        }
    }
}

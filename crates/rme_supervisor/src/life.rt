//! One life of a worker: from its recovery to a fall, or to the worker's end.

ghost use Rattle.std.specs.Prelude.{◌≡◌, Some, Err, IfErr, IfOk, MatchResult, slice_get};
ghost use Rattle.rme_supervisor.specs.Ends.{EndIsAllowed};
ghost use Rattle.rme_supervisor.specs.Plans.{planned_jobs};
ghost use Rattle.rme_supervisor.specs.Stops.{SeatIsOfWorker, IsLifeStop, LifeSteps, GateWasTold, SweepsWereTried, gate_view, StopIsAStall, StallAfterSweeps, StallAfterPost, drive_result, seat_at_stop};

use crate::end::End;
use crate::fall_countdown::FallCountdown;
use crate::life_stop::LifeStop;
use crate::plan::WorkerPlan;
use crossbeam_utils::Backoff;
use rme_script::Job;
use rme_table::{
    Climb, Down, Driven, Gate, Held, Leave, Posted, Ready, Service, Stance, SweepTries,
};
use std::sync::Wait;

/// The context of a worker's lives.
#[derive(Drop)]
pub(crate) struct LifeContext<'a, G> {
    pub service: &'a Service,
    pub plan: &'a WorkerPlan,
    pub rounds: u32,
    pub gate: &'a G,
}

/// The counts of a life: the own steps up to its fall, and the blocked sweeps on its job.
#[derive(Drop)]
pub(crate) struct LifeCounters {
    pub falls: FallCountdown,
    pub tries: SweepTries,
}

/// A life: the worker restarts, finishes its pending job, and executes the jobs of its plan from the next one on.
pub(crate) fn run_life<G: Gate, R: Wait>(
    rt: &R,
    orders: &LifeContext<'_, G>,
    down: Down,
    trail: &mut LifeCounters,
) -> LifeStop
    requires ours { down.ident ≡ orders.now.service.now }
    ensures stop { IsLifeStop orders.now.service.now down.part.worker orders.now.rounds orders.now.plan.now result }
    ensures falls { LifeSteps trail.old.falls trail.new.falls down (Err result) }
    ensures stalls { StopIsAStall (gate_view (G.answered orders.now.gate.now) G.lets_all orders.now.service.now.shape)
        down.part.worker trail.new.tries result }
    ensures tries { SweepsWereTried trail.old.tries trail.new.tries down (seat_at_stop (Err result)) }
    ensures most { trail.new.tries.most ≡ trail.old.tries.most }
{
    let ready = match recover_to_ready(orders, down, trail) {
        Ok(ready) => ready,
        Err(stop) => return stop,
    };
    run_jobs(rt, orders, ready, trail)
}

/// From a recovery to readiness.
fn recover_to_ready<G: Gate>(
    orders: &LifeContext<'_, G>,
    down: Down,
    trail: &mut LifeCounters,
) -> Result<Ready, LifeStop>
    requires ours { down.ident ≡ orders.now.service.now }
    ensures stop { MatchResult result (λ ready. SeatIsOfWorker orders.now.service.now down.part.worker ready)
        (λ stop. IsLifeStop orders.now.service.now down.part.worker orders.now.rounds orders.now.plan.now stop) }
    ensures falls { LifeSteps trail.old.falls trail.new.falls down result }
    ensures stalls { IfErr result (λ stop. StopIsAStall
        (gate_view (G.answered orders.now.gate.now) G.lets_all orders.now.service.now.shape)
        down.part.worker trail.new.tries stop) }
    ensures tries { SweepsWereTried trail.old.tries trail.new.tries down (seat_at_stop result) }
    ensures most { trail.new.tries.most ≡ trail.old.tries.most }
{
    match down.recover(orders.service, &mut trail.falls) {
        Err(down) => Err(LifeStop::Fell(down)),
        Ok(Stance::Ready(ready)) => Ok(ready),
        Ok(Stance::Climb(climb)) => drive_climb(orders, climb, trail),
        Ok(Stance::Held(held)) => drive_held(orders, held, trail),
        Ok(Stance::Leave(leave)) => exit_finished(orders, leave, trail),
    }
}

/// The jobs of the plan, in order.
fn run_jobs<G: Gate, R: Wait>(
    rt: &R,
    orders: &LifeContext<'_, G>,
    mut ready: Ready,
    trail: &mut LifeCounters,
) -> LifeStop
    requires ours { ready.ident ≡ orders.now.service.now }
    ensures stop { IsLifeStop orders.now.service.now ready.part.worker orders.now.rounds orders.now.plan.now result }
    ensures falls { LifeSteps trail.old.falls trail.new.falls ready (Err result) }
    ensures stalls { StopIsAStall (gate_view (G.answered orders.now.gate.now) G.lets_all orders.now.service.now.shape)
        ready.part.worker trail.new.tries result }
    ensures tries { SweepsWereTried trail.old.tries trail.new.tries ready (seat_at_stop (Err result)) }
    ensures most { trail.new.tries.most ≡ trail.old.tries.most }
{
    for _ in rt.forever() {
        let Some(job) = orders.plan.job(orders.rounds, ready.number() as usize) else {
            return LifeStop::Ended(ready.crash(), End::AllDone);
        };
        match run_next_job(orders, ready, *job, trail) {
            Ok(next) => ready = next,
            Err(stop) => return stop,
        }
    }
    unreachable!()
}

/// The next job of the plan: from readiness to readiness.
fn run_next_job<G: Gate>(
    orders: &LifeContext<'_, G>,
    ready: Ready,
    job: Job,
    trail: &mut LifeCounters,
) -> Result<Ready, LifeStop>
    requires ours { ready.ident ≡ orders.now.service.now }
    requires next { slice_get (planned_jobs orders.now.rounds orders.now.plan.now) ready.part.private.begun ≡ Some job }
    ensures stop { MatchResult result (λ next. SeatIsOfWorker orders.now.service.now ready.part.worker next)
        (λ stop. IsLifeStop orders.now.service.now ready.part.worker orders.now.rounds orders.now.plan.now stop) }
    ensures falls { LifeSteps trail.old.falls trail.new.falls ready result }
    ensures stalls { IfErr result (λ stop. StallAfterPost
        (gate_view (G.answered orders.now.gate.now) G.lets_all orders.now.service.now.shape)
        ready job trail.old.tries.most trail.new.tries stop) }
    ensures tries { SweepsWereTried trail.old.tries trail.new.tries ready (seat_at_stop result) }
    ensures most { trail.new.tries.most ≡ trail.old.tries.most }
{
    trail.tries.blocked = 0;
    match ready.post(orders.service, job, &mut trail.falls) {
        Posted::Fell(down) => Err(LifeStop::Fell(down)),
        Posted::Refused(ready, refusal) => Err(LifeStop::Ended(
            ready.crash(),
            End::Refused(refusal),
        )),
        Posted::Asked(climb) => drive_climb(orders, climb, trail),
    }
}

/// From waiting to readiness, with a pause after each blocked sweep.
fn drive_climb<G: Gate>(
    orders: &LifeContext<'_, G>,
    climb: Climb,
    trail: &mut LifeCounters,
) -> Result<Ready, LifeStop>
    requires ours { climb.ident ≡ orders.now.service.now }
    ensures stop { MatchResult result (λ ready. SeatIsOfWorker orders.now.service.now climb.part.worker ready)
        (λ stop. IsLifeStop orders.now.service.now climb.part.worker orders.now.rounds orders.now.plan.now stop) }
    ensures falls { LifeSteps trail.old.falls trail.new.falls climb result }
    ensures stalls { IfErr result (λ stop. StallAfterSweeps
        (gate_view (G.answered orders.now.gate.now) G.lets_all orders.now.service.now.shape)
        climb trail.old.tries trail.new.tries stop) }
    ensures tries { SweepsWereTried trail.old.tries trail.new.tries climb (seat_at_stop result) }
    ensures most { trail.new.tries.most ≡ trail.old.tries.most }
{
    let backoff = Backoff::new();
    drive_result(climb.drive_waiting(
        orders.service,
        &mut trail.falls,
        orders.gate,
        &mut trail.tries,
        || backoff.snooze(),
    ))
}

/// From the lock's entry to readiness.
fn drive_held<G: Gate>(
    orders: &LifeContext<'_, G>,
    held: Held,
    trail: &mut LifeCounters,
) -> Result<Ready, LifeStop>
    requires ours { held.ident ≡ orders.now.service.now }
    ensures stop { MatchResult result (λ ready. SeatIsOfWorker orders.now.service.now held.part.worker ready)
        (λ stop. IsLifeStop orders.now.service.now held.part.worker orders.now.rounds orders.now.plan.now stop) }
    ensures falls { LifeSteps trail.old.falls trail.new.falls held result }
    ensures stalls { IfErr result (λ stop. StopIsAStall
        (gate_view (G.answered orders.now.gate.now) G.lets_all orders.now.service.now.shape)
        held.part.worker trail.new.tries stop) }
    ensures tries { SweepsWereTried trail.old.tries trail.new.tries held (seat_at_stop result) }
    ensures most { trail.new.tries.most ≡ trail.old.tries.most }
{
    drive_result(held.drive_owner(orders.service, &mut trail.falls, orders.gate))
}

/// The result of a driven worker for its life: one that still waits, or that the gate stopped, has stalled.
fn drive_result(driven: Driven) -> Result<Ready, LifeStop>
    ensures { result ≡ drive_result driven }
{
    match driven {
        Driven::Done(ready, _receipt) => Ok(ready),
        Driven::Waits(climb) => Err(LifeStop::Ended(climb.crash(), End::Stalled)),
        Driven::Stopped(held) => Err(LifeStop::Ended(held.crash(), End::Stalled)),
        Driven::Fell(down) => Err(LifeStop::Fell(down)),
    }
}

/// Exits after a job that was finished before the worker restarted, until it is ready. The gate is notified of the job.
fn exit_finished<G: Gate>(
    orders: &LifeContext<'_, G>,
    leave: Leave,
    trail: &mut LifeCounters,
) -> Result<Ready, LifeStop>
    requires ours { leave.ident ≡ orders.now.service.now }
    ensures stop { MatchResult result (λ ready. SeatIsOfWorker orders.now.service.now leave.part.worker ready)
        (λ stop. IsLifeStop orders.now.service.now leave.part.worker orders.now.rounds orders.now.plan.now stop) }
    ensures falls { LifeSteps trail.old.falls trail.new.falls leave result }
    ensures told { IfOk result (λ ready. GateWasTold (G.told orders.now.gate.now) orders.now.service.now.shape ready) }
    ensures stalls { IfErr result (λ stop. StopIsAStall
        (gate_view (G.answered orders.now.gate.now) G.lets_all orders.now.service.now.shape)
        leave.part.worker trail.new.tries stop) }
    ensures tries { SweepsWereTried trail.old.tries trail.new.tries leave (seat_at_stop result) }
    ensures most { trail.new.tries.most ≡ trail.old.tries.most }
{
    let mut ready = match leave.exit(orders.service, &mut trail.falls) {
        Ok(ready) => ready,
        Err(down) => return Err(LifeStop::Fell(down)),
    };
    // None if it was withdrawn before: then no job is over.
    if let Some(receipt) = ready.last(orders.service) {
        orders
            .gate
            .over(receipt.worker, receipt.lock, receipt.number);
    }
    Ok(ready)
}

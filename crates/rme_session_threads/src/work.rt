//! The work of a session's worker on its job, up to the end of the order.
//!
//! The functions of a submission are inlined, here and in `orders.rt` and `refusal.rt`: otherwise each would copy the
//! worker.

ghost use Rattle.std.specs.Prelude.{◌≡◌, ℕ, Some, false};
ghost use Rattle.rme_table.specs.Calls.{is_section_over};
ghost use Rattle.rme_session_threads.specs.Stands.{HasSlot, IsValidHolding, IsValidWorkResult, held_worker};
ghost use Rattle.rme_service_steps.specs.Parts.{unchanged_part, submitted_part};
ghost use Rattle.rme_session_threads.specs.SessionWorks.{HasWorkTries, IsStoppedInside, WorkEffect, WorkHasKnownPlace, WorkSpendsCountdown, WorkTellsSection, driven_result, work_holding, work_lead};
ghost use Rattle.rme_session_threads.specs.JobOutcomes.{StaysInside, TellsWorkerSection, WorkWaitsAfterTries, WorkResultSatisfies, WorkOnNextJob, WorkOnPendingJob, ThreadEnterPendingEffect, ThreadPendingJobEffect, ThreadRepeatEffect, stand_next_job, holding_steps};
ghost use Rattle.rme_session_threads.specs.declared.stand.Holding.TheVariants as holds;
ghost use Rattle.rme_session_protocol.specs.declared.reply.SessionReply.TheVariants as reply;

use crate::crash_plan::CountdownChance;
use crate::stand::Holding;
use crossbeam_utils::Backoff;
use rme_session_protocol::{FencingToken, JobOutcome};
use rme_table::{Admitted, Climb, Down, Driven, Free, Held, Ready, Service, Shut, SweepTries};

/// What the session holds afterwards, and the outcome of the job.
pub(crate) type WorkResult = (Holding, JobOutcome);

/// Where the work on a job stops, if the job does not wait and the worker does not crash.
#[derive(Clone, Copy)]
pub(crate) enum WorkGoal {
    /// The job is finished, and the worker is ready.
    Finished,
    /// The worker is inside its lock.
    Inside,
}

/// The work of a session's worker.
pub(crate) enum SessionWork<'a> {
    /// Answer the last number again.
    Repeat(Ready),
    /// Post the job, whose number is the next, and continue it with at most this number of sweeps.
    Post(Admitted<'a>, u32, WorkGoal),
    /// Continue the waiting job, with at most this number of sweeps.
    GoIn(Climb, u32, WorkGoal),
    /// Continue the job that the worker is inside with.
    GoOn(Held),
    /// Stay inside.
    Stay(Held),
}

impl<'a> SessionWork<'a> {
    ghost use Rattle.std.specs.Prelude.{◌≡◌};
    ghost use Rattle.rme_session_threads.specs.SessionWorks.{work_until_inside};

    /// The same work, until the worker is inside.
    pub(crate) fn until_inside(self) -> SessionWork<'a>
        ensures { result ≡ work_until_inside self.entry }
    {
        match self {
            SessionWork::Post(admitted, tries, _) => {
                SessionWork::Post(admitted, tries, WorkGoal::Inside)
            }
            SessionWork::GoIn(climb, tries, _) => SessionWork::GoIn(climb, tries, WorkGoal::Inside),
            SessionWork::GoOn(held) => SessionWork::Stay(held),
            work => work,
        }
    }
}

/// Executes the work. `Err` is a crash.
#[inline(always)]
pub(crate) fn perform_work(
    work: SessionWork<'_>,
    planned: &mut CountdownChance,
    service: &Service,
) -> Result<WorkResult, Down>
    requires ours { (count : ℕ) × IsValidHolding service.now count (work_holding work) }
    ensures ours { (count : ℕ) → IsValidHolding service.now count (work_holding work.entry)
        → IsValidWorkResult service.now count result }
    ensures did { WorkResultSatisfies result (WorkEffect service.now.shape work.entry) }
    ensures plan { WorkSpendsCountdown service.now.shape (work_lead work.entry) planned.old.countdown
        (held_worker (work_holding work.entry)) planned.new.countdown result }
    ensures tried { (most : ℕ) → HasWorkTries most work.entry
        → WorkWaitsAfterTries most (holding_steps (work_holding work.entry)) result }
    ensures told { WorkTellsSection service.now.shape result }
    ensures place { WorkHasKnownPlace (work_holding work.entry) result }
{
    match work {
        SessionWork::Repeat(ready) => Ok(repeat_last(ready, service)),
        SessionWork::Post(admitted, tries, goal) => post(admitted, tries, goal, planned, service),
        SessionWork::GoIn(climb, tries, goal) => climb_to(climb, tries, goal, planned, service),
        SessionWork::GoOn(held) => finish_held(held, planned, service),
        SessionWork::Stay(held) => Ok(stay_inside(held, service)),
    }
}

/// The outcome of the last number.
fn repeat_last(mut ready: Ready, service: &Service) -> WorkResult
    requires ours { ready.ident ≡ service.now }
    ensures { ThreadRepeatEffect service.now.shape ready result.0 result.1 }
{
    let outcome = match ready.last(service) {
        Some(receipt) => JobOutcome::Receipt(receipt),
        None => JobOutcome::Withdrawn,
    };
    (Holding::Ready(ready), outcome)
}

/// Posts the job and continues it.
#[inline(always)]
fn post(
    admitted: Admitted<'_>,
    tries: u32,
    goal: WorkGoal,
    planned: &mut CountdownChance,
    service: &Service,
) -> Result<WorkResult, Down>
    requires ours { admitted.ready.ident ≡ service.now }
    ensures ours { (count : ℕ) → HasSlot service.now count admitted.entry.ready
        → IsValidWorkResult service.now count result }
    ensures did { WorkResultSatisfies result (WorkOnNextJob goal
        (stand_next_job admitted.entry.ready admitted.entry.job) admitted.entry.ready.part.entries) }
    ensures plan { WorkSpendsCountdown service.now.shape (submitted_part admitted.entry.job) planned.old.countdown
        (Some admitted.entry.ready) planned.new.countdown result }
    ensures tried { WorkWaitsAfterTries tries admitted.entry.ready.part.steps result }
    ensures told { WorkTellsSection service.now.shape result }
{
    match admitted.post(service, planned) {
        Ok(climb) => climb_to(climb, tries, goal, planned, service),
        Err(down) => Err(down),
    }
}

/// From waiting to the goal, with at most this number of sweeps and a pause after each blocked one. The gate lets the
/// worker into its section if the job is to be finished.
#[inline(always)]
fn climb_to(
    climb: Climb,
    tries: u32,
    goal: WorkGoal,
    planned: &mut CountdownChance,
    service: &Service,
) -> Result<WorkResult, Down>
    requires ours { climb.ident ≡ service.now }
    ensures ours { (count : ℕ) → HasSlot service.now count climb → IsValidWorkResult service.now count result }
    ensures did { WorkResultSatisfies result (WorkOnPendingJob goal climb) }
    ensures plan { WorkSpendsCountdown service.now.shape unchanged_part planned.old.countdown (Some climb)
        planned.new.countdown result }
    ensures tried { WorkWaitsAfterTries tries climb.part.steps result }
    ensures told { WorkTellsSection service.now.shape result }
{
    match goal {
        WorkGoal::Finished => climb_and_finish(climb, tries, planned, service),
        WorkGoal::Inside => climb_and_enter(climb, tries, planned, service),
    }
}

/// From waiting to readiness, with at most this number of sweeps and a pause after each blocked one.
#[inline(always)]
fn climb_and_finish(
    climb: Climb,
    tries: u32,
    planned: &mut CountdownChance,
    service: &Service,
) -> Result<WorkResult, Down>
    requires ours { climb.ident ≡ service.now }
    ensures ours { (count : ℕ) → HasSlot service.now count climb → IsValidWorkResult service.now count result }
    ensures did { WorkResultSatisfies result (ThreadPendingJobEffect climb) }
    ensures plan { WorkSpendsCountdown service.now.shape unchanged_part planned.old.countdown (Some climb)
        planned.new.countdown result }
    ensures tried { WorkWaitsAfterTries tries climb.part.steps result }
    ensures told { WorkTellsSection service.now.shape result }
{
    let backoff = Backoff::new();
    let mut tries = SweepTries {
        blocked: 0,
        most: tries,
    };
    let driven = climb.drive_waiting(service, planned, &Free, &mut tries, || backoff.snooze());
    driven_result(driven, service)
}

/// From waiting to the lock's entry, with at most this number of sweeps and a pause after each blocked one.
fn climb_and_enter(
    climb: Climb,
    tries: u32,
    planned: &mut CountdownChance,
    service: &Service,
) -> Result<WorkResult, Down>
    requires ours { climb.ident ≡ service.now }
    ensures ours { (count : ℕ) → HasSlot service.now count climb → IsValidWorkResult service.now count result }
    ensures did { WorkResultSatisfies result (ThreadEnterPendingEffect climb) }
    ensures plan { WorkSpendsCountdown service.now.shape unchanged_part planned.old.countdown (Some climb)
        planned.new.countdown result }
    ensures tried { WorkWaitsAfterTries tries climb.part.steps result }
    ensures told { WorkTellsSection service.now.shape result }
{
    let backoff = Backoff::new();
    let mut tries = SweepTries {
        blocked: 0,
        most: tries,
    };
    let driven = climb.drive_waiting(service, planned, &Shut, &mut tries, || backoff.snooze());
    driven_result(driven, service)
}

/// A worker that is inside makes no step. Its token is read: the job's lock, and the number of its finished sections.
/// The session that has the worker tells its life.
fn stay_inside(mut held: Held, service: &Service) -> WorkResult
    requires ours { held.ident ≡ service.now }
    requires pending { is_section_over held.part.private.stage ≡ false }
    ensures stays { StaysInside held result.0 result.1 }
    ensures told { TellsWorkerSection service.now.shape result.0 (reply.Entered result.1) }
{
    let token = FencingToken {
        lock: held.job(service).lock,
        number: held.number(),
        section: held.section(service),
        life: 0,
    };
    (Holding::Held(held), JobOutcome::Inside(token))
}

/// From the lock's entry to readiness.
fn finish_held(
    held: Held,
    planned: &mut CountdownChance,
    service: &Service,
) -> Result<WorkResult, Down>
    requires ours { held.ident ≡ service.now }
    requires pending { is_section_over held.part.private.stage ≡ false }
    ensures ours { (count : ℕ) → HasSlot service.now count held → IsValidWorkResult service.now count result }
    ensures did { WorkResultSatisfies result (ThreadPendingJobEffect held) }
    ensures plan { WorkSpendsCountdown service.now.shape unchanged_part planned.old.countdown (Some held)
        planned.new.countdown result }
    ensures tried { (most : ℕ) → WorkWaitsAfterTries most held.part.steps result }
    ensures place { WorkHasKnownPlace (holds.Held held) result }
    ensures told { WorkTellsSection service.now.shape result }
{
    let (leave, receipt) = match held.perform(service, planned) {
        Ok(done) => done,
        Err(down) => return Err(down),
    };
    match leave.exit(service, planned) {
        Ok(ready) => Ok((Holding::Ready(ready), JobOutcome::Receipt(receipt))),
        Err(down) => Err(down),
    }
}

/// What the session holds of a driven worker, and the outcome of its job. The token of a stopped worker is read.
fn driven_result(driven: Driven, service: &Service) -> Result<WorkResult, Down>
    requires inside { IsStoppedInside service.now driven }
    ensures result { (lock : ℕ) × (section : ℕ) × (result ≡ driven_result lock section driven) }
    ensures told { WorkTellsSection service.now.shape result }
{
    match driven {
        Driven::Done(ready, receipt) => Ok((Holding::Ready(ready), JobOutcome::Receipt(receipt))),
        Driven::Waits(climb) => Ok((Holding::Climb(climb), JobOutcome::Waiting)),
        Driven::Stopped(held) => Ok(stay_inside(held, service)),
        Driven::Fell(down) => Err(down),
    }
}

//! The refusals of a session's orders, and the values with which orders that are not refused continue.
//!
//! Each order takes the session's value by move: a refused order gives it back, and any other gives the step to make.

ghost use Rattle.std.specs.Prelude.{◌≡◌, ℕ, Some, None, IfOk, IfErr, OnOk, false};
ghost use Rattle.rme_session_protocol.specs.Refusals as spec;
ghost use Rattle.rme_session_protocol.specs.Patience.{least_tries};
ghost use Rattle.rme_session_protocol.specs.SessionSteps.{PendingOrderEffect};
ghost use Rattle.rme_table.specs.Calls.{is_section_over};
ghost use Rattle.rme_session_threads.specs.Stands.{IsValidHolding, holding_session};
ghost use Rattle.rme_session_threads.specs.SessionWorks.{HasWorkTries, IsResumeWork, IsSubmitWork, work_holding};
ghost use Rattle.rme_session_threads.specs.declared.stand.Holding.TheVariants as holds;

use crate::stand::Holding;
use crate::work::{SessionWork, WorkGoal};
use rme_session_protocol::{
    Patience, PendingJob, SessionStance, Submission, SubmissionKind, classify_submission,
    pending_refusal,
};
use rme_table::{Climb, Held, Ready, Service};
use rme_words::{Refusal, Shape};

/// A refused order: what the session still holds, and the refusal.
pub(crate) type RefusedOrder = (Holding, Refusal);

/// Accepts an attach by a session that has no worker.
pub(crate) fn check_attach(value: Holding, worker: u32, shape: Shape) -> Result<(), RefusedOrder>
    ensures none { OnOk result ((value ≡ holds.Empty)
        × (spec.attach_refusal shape worker (holding_session None value) ≡ None)) }
    ensures refused { IfErr result (λ refused. (refused.0 ≡ value)
        × (spec.attach_refusal shape worker (holding_session None value) ≡ Some refused.1)) }
{
    if worker >= shape.workers() {
        return Err((value, Refusal::NoWorker));
    }
    match value {
        Holding::Empty => Ok(()),
        value => Err((value, Refusal::Busy)),
    }
}

/// The work of a submission.
#[inline(always)]
pub(crate) fn find_submit_work<'a>(
    value: Holding,
    submission: &'a Submission,
    service: &Service,
) -> Result<SessionWork<'a>, RefusedOrder>
    requires ours { (count : ℕ) × IsValidHolding service.now count value }
    ensures work { IfOk result (λ work. (work_holding work ≡ value)
        × IsSubmitWork service.now.shape submission.now work) }
    ensures tries { IfOk result (HasWorkTries (least_tries submission.now.patience)) }
    ensures refused { IfErr result (λ refused. (refused.0 ≡ value)
        × spec.SubmitRefusal service.now.shape (holding_session None value) submission.now (Some refused.1)) }
{
    match value {
        Holding::Empty => Err((Holding::Empty, Refusal::NotAttached)),
        Holding::Ready(ready) => find_ready_work(ready, submission, service),
        Holding::Climb(climb) => find_climb_work(climb, submission, service),
        Holding::Held(held) => find_held_work(held, submission, service),
    }
}

/// The work of a submission to a ready worker: its number is the next and the job may be posted, or it is the last.
#[inline(always)]
fn find_ready_work<'a>(
    ready: Ready,
    submission: &'a Submission,
    service: &Service,
) -> Result<SessionWork<'a>, RefusedOrder>
    requires ours { ready.ident ≡ service.now }
    ensures work { IfOk result (λ work. (work_holding work ≡ holds.Ready ready)
        × IsSubmitWork service.now.shape submission.now work) }
    ensures tries { IfOk result (HasWorkTries (least_tries submission.now.patience)) }
    ensures refused { IfErr result (λ refused. (refused.0 ≡ holds.Ready ready)
        × (spec.posting_refusal service.now.shape ready.part.private.begun submission.now ≡ Some refused.1)) }
{
    match classify_submission(ready.number(), submission, service.shape()) {
        Ok(SubmissionKind::Post) => match ready.admit(service, &submission.job) {
            Ok(admitted) => Ok(SessionWork::Post(
                admitted,
                submission.patience.least_tries(),
                WorkGoal::Finished,
            )),
            Err((ready, why)) => Err((Holding::Ready(ready), why)),
        },
        Ok(SubmissionKind::Repeat) => Ok(SessionWork::Repeat(ready)),
        Err(why) => Err((Holding::Ready(ready), why)),
    }
}

/// The work of a submission to a waiting worker.
fn find_climb_work<'a>(
    mut climb: Climb,
    submission: &'a Submission,
    service: &Service,
) -> Result<SessionWork<'a>, RefusedOrder>
    requires ours { climb.ident ≡ service.now }
    ensures work { IfOk result (λ work. (work_holding work ≡ holds.Climb climb)
        × IsSubmitWork service.now.shape submission.now work) }
    ensures tries { IfOk result (HasWorkTries (least_tries submission.now.patience)) }
    ensures refused { IfErr result (λ refused. (refused.0 ≡ holds.Climb climb)
        × spec.PendingJobRefusal climb.part.private.begun climb.part.draft submission.now (Some refused.1)) }
{
    let job = climb.job(service);
    match pending_refusal(climb.number(), &job, submission) {
        None => Ok(SessionWork::GoIn(climb, submission.patience.least_tries(), WorkGoal::Finished)),
        Some(why) => Err((Holding::Climb(climb), why)),
    }
}

/// The work of a submission to a worker that is inside.
fn find_held_work<'a>(
    mut held: Held,
    submission: &'a Submission,
    service: &Service,
) -> Result<SessionWork<'a>, RefusedOrder>
    requires ours { (count : ℕ) × IsValidHolding service.now count (holds.Held held) }
    ensures work { IfOk result (λ work. (work_holding work ≡ holds.Held held)
        × IsSubmitWork service.now.shape submission.now work) }
    ensures tries { IfOk result (HasWorkTries (least_tries submission.now.patience)) }
    ensures refused { IfErr result (λ refused. (refused.0 ≡ holds.Held held)
        × spec.PendingJobRefusal held.part.private.begun held.part.draft submission.now (Some refused.1)) }
{
    let job = held.job(service);
    match pending_refusal(held.number(), &job, submission) {
        None => Ok(SessionWork::GoOn(held)),
        Some(why) => Err((Holding::Held(held), why)),
    }
}

/// The remaining work of the pending job.
pub(crate) fn find_resume_work(
    value: Holding,
    patience: Patience,
) -> Result<SessionWork<'static>, RefusedOrder>
    ensures work { IfOk result (λ work. (work_holding work ≡ value) × IsResumeWork work) }
    ensures tries { IfOk result (HasWorkTries (least_tries patience)) }
    ensures refused { IfErr result (λ refused. (refused.0 ≡ value)
        × (spec.resume_refusal (holding_session None value) ≡ Some refused.1)) }
{
    match value {
        Holding::Empty => Err((Holding::Empty, Refusal::NotAttached)),
        Holding::Ready(ready) => Err((Holding::Ready(ready), Refusal::Idle)),
        Holding::Climb(climb) => Ok(SessionWork::GoIn(
            climb,
            patience.least_tries(),
            WorkGoal::Finished,
        )),
        Holding::Held(held) => Ok(SessionWork::GoOn(held)),
    }
}

/// The worker that is inside, to finish its job.
pub(crate) fn check_commit(value: Holding) -> Result<Held, RefusedOrder>
    ensures inside { IfOk result (λ held. value ≡ holds.Held held) }
    ensures refused { IfErr result (λ refused. (refused.0 ≡ value)
        × (spec.commit_refusal (holding_session None value) ≡ Some refused.1)) }
{
    match value {
        Holding::Held(held) => Ok(held),
        Holding::Empty => Err((Holding::Empty, Refusal::NotAttached)),
        Holding::Ready(ready) => Err((Holding::Ready(ready), Refusal::Idle)),
        Holding::Climb(climb) => Err((Holding::Climb(climb), Refusal::NotInside)),
    }
}

/// The waiting worker, to withdraw its job.
pub(crate) fn check_withdraw(value: Holding) -> Result<Climb, RefusedOrder>
    ensures waits { IfOk result (λ climb. value ≡ holds.Climb climb) }
    ensures refused { IfErr result (λ refused. (refused.0 ≡ value)
        × (spec.withdraw_order_refusal (holding_session None value) ≡ Some refused.1)) }
{
    match value {
        Holding::Climb(climb) => Ok(climb),
        Holding::Empty => Err((Holding::Empty, Refusal::NotAttached)),
        value => Err((value, Refusal::NotWaiting)),
    }
}

/// The pending job, read from the worker's slate.
pub(crate) fn read_pending(
    value: Holding,
    service: &Service,
) -> Result<(Holding, PendingJob), RefusedOrder>
    requires ours { (count : ℕ) × IsValidHolding service.now count value }
    ensures same { IfOk result (λ found. found.0 ≡ value) }
    ensures told { IfOk result (λ found. PendingOrderEffect (holding_session None value) found.1) }
    ensures refused { IfErr result (λ refused. (refused.0 ≡ value)
        × (spec.resume_refusal (holding_session None value) ≡ Some refused.1)) }
{
    match value {
        Holding::Climb(climb) => Ok(read_waiting(climb, service)),
        Holding::Held(held) => Ok(read_inside(held, service)),
        Holding::Empty => Err((Holding::Empty, Refusal::NotAttached)),
        Holding::Ready(ready) => Err((Holding::Ready(ready), Refusal::Idle)),
    }
}

fn read_waiting(climb: Climb, service: &Service) -> (Holding, PendingJob)
    requires ours { climb.ident ≡ service.now }
    ensures same { result.0 ≡ holds.Climb climb }
    ensures told { PendingOrderEffect (holding_session None (holds.Climb climb)) result.1 }
{
    let mut climb = climb;
    let told = PendingJob {
        number: climb.number(),
        job: climb.job(service),
        stance: SessionStance::Climb,
    };
    (Holding::Climb(climb), told)
}

fn read_inside(held: Held, service: &Service) -> (Holding, PendingJob)
    requires ours { held.ident ≡ service.now }
    requires pending { is_section_over held.part.private.stage ≡ false }
    ensures same { result.0 ≡ holds.Held held }
    ensures told { PendingOrderEffect (holding_session None (holds.Held held)) result.1 }
{
    let mut held = held;
    let told = PendingJob {
        number: held.number(),
        job: held.job(service),
        stance: SessionStance::Held,
    };
    (Holding::Held(held), told)
}

/// The ready worker, to answer its last receipt.
pub(crate) fn check_last(value: Holding) -> Result<Ready, RefusedOrder>
    ensures ready { IfOk result (λ ready. value ≡ holds.Ready ready) }
    ensures refused { IfErr result (λ refused. (refused.0 ≡ value)
        × (spec.last_refusal (holding_session None value) ≡ Some refused.1)) }
{
    match value {
        Holding::Ready(ready) => Ok(ready),
        Holding::Empty => Err((Holding::Empty, Refusal::NotAttached)),
        value => Err((value, Refusal::Busy)),
    }
}

/// The value of a session with a worker, to plan its crash or to release it.
pub(crate) fn check_attached(value: Holding) -> Result<Holding, RefusedOrder>
    ensures holds { IfOk result (λ holding. (holding ≡ value)
        × (spec.bare_refusal (holding_session None value) ≡ None)) }
    ensures refused { IfErr result (λ refused. (refused.0 ≡ value)
        × (spec.bare_refusal (holding_session None value) ≡ Some refused.1)) }
{
    match value {
        Holding::Empty => Err((Holding::Empty, Refusal::NotAttached)),
        value => Ok(value),
    }
}

//! The checks of a submission that need only its number and its job.
//!
//! Each check answers the step to make, or the refusal; a check that passed is not repeated. Whoever posts the job
//! checks the job itself.

ghost use Rattle.std.specs.Prelude.{◌≡◌, ◌≤◌, ◌+◌, IfOk, IfErr, Some, None};
ghost use Rattle.rme_session_protocol.specs.Refusals as spec;

use crate::order::Submission;
use rme_script::Job;
use rme_words::{Refusal, Shape};

/// What a submission asks of a ready worker.
#[derive(Clone, Copy)]
pub enum SubmissionKind {
    /// Post the job, if the job itself is not refused.
    Post,
    /// Answer the last number again.
    Repeat,
}

/// What a submission asks of a ready worker with this last number: the submission's number is the next, or the last
/// again. `WrongNumber` if it is neither.
pub fn classify_submission(
    last: u32,
    submission: &Submission,
    shape: Shape,
) -> Result<SubmissionKind, Refusal>
    requires few { last ≤ shape.jobs }
    ensures asked { IfOk result (spec.IsSubmissionKind last submission.now.number) }
    ensures refused { IfErr result (λ refusal. spec.number_refusal last submission.now.number ≡ Some refusal) }
{
    let next = next_job_number(last, shape);
    if submission.number == u64::from(next) {
        return Ok(SubmissionKind::Post);
    }
    if submission.number > 0 && submission.number == u64::from(last) {
        return Ok(SubmissionKind::Repeat);
    }
    Err(Refusal::WrongNumber(u64::from(next)))
}

/// The number after a job's number. A number is at most the number of jobs.
fn next_job_number(last: u32, shape: Shape) -> u32
    requires few { last ≤ shape.jobs }
    ensures { result ≡ last + 1 }
{
    let _most = shape.jobs();
    last + 1
}

/// Why a worker with a pending job refuses a submission: another number, or another job.
pub fn pending_refusal(number: u32, job: &Job, submission: &Submission) -> Option<Refusal>
    ensures { spec.PendingJobRefusal number (Some job.now) submission.now result }
{
    if submission.number != u64::from(number) {
        return Some(Refusal::WrongNumber(u64::from(number)));
    }
    if submission.job.lock != job.lock || !submission.job.script.same(&job.script) {
        return Some(Refusal::Differs);
    }
    None
}

//! What answers say of a worker and of its job.

ghost use Rattle.std.specs.Prelude.{◌≡◌, Some, None, IfOk, IfErr, codes};
ghost use Rattle.serde_json.specs.View.{view};
ghost use Rattle.rme_ask_client.specs.JobAnswers as spec;
ghost use Rattle.rme_ask_client.specs.Members.{NoneSaid, NoneSaidUnless};

use crate::client_error::ClientError;
use crate::members::{flag, lock_name, member, number, text};
use serde_json::Value;
use std::alloc::Global;
use std::fmt;

/// The stance of a worker.
#[derive(Clone, Copy, Debug, PartialEq, Eq)]
pub enum ReportedStance {
    /// No job is pending.
    Ready,
    /// Its job waits for the lock.
    Climb,
    /// It is inside its lock.
    Held,
}

/// A worker that a session has taken.
#[derive(Clone, Copy, Debug, PartialEq, Eq)]
pub struct AttachedWorker {
    /// The number of its pending job; without one, of its last job.
    pub number: u64,
    pub stance: ReportedStance,
}

/// The pending job of a worker.
#[derive(Drop)]
pub struct ReportedJob {
    pub lock: String,
    pub number: u64,
    /// The script, in JSON.
    pub script: String,
    pub stance: ReportedStance,
}

/// The receipt of a job that counts.
#[derive(Debug, Drop)]
pub struct ReportedReceipt {
    pub lock: String,
    pub number: u64,
    /// The number of sections of the lock that were finished before.
    pub place: u64,
    pub reply: u64,
    pub worker: u64,
}

impl fmt::Display for ReportedReceipt {
    ghost use Rattle.rme_ask_client.specs.JobAnswers.{receipt_output};

    ghost output = { λ receipt. Some (receipt_output receipt) };

    fn fmt<W: fmt::Write>(&self, f: &mut fmt::Formatter<W>) -> fmt::Result {
        let ReportedReceipt {
            lock,
            number,
            place,
            reply,
            worker,
        } = self;
        write!(
            f,
            "job {number} of worker {worker} on lock {lock}: place {place}, reply {reply}"
        )
    }
}

/// The outcome of a request that goes on with a job.
#[derive(Debug, Drop)]
pub enum ReportedOutcome {
    /// It is finished.
    Receipt(ReportedReceipt),
    /// It still waits for its lock.
    Waiting,
    /// It was withdrawn, and never counts.
    Withdrawn,
    /// The worker crashed by plan, and the session has none any more.
    Fell,
}

/// The worker of the answer to `attach`.
pub fn attached_worker(value: &Value) -> Result<AttachedWorker, ClientError>
    ensures said { IfOk result (spec.AttachedSays (view value.now)) }
    ensures unsaid { IfErr result (λ _. NoneSaid spec.AttachedSays (view value.now)) }
{
    Ok(AttachedWorker {
        number: number(value, "number")?,
        stance: stance(value)?,
    })
}

/// The stance of an answer.
pub(crate) fn stance(value: &Value) -> Result<ReportedStance, ClientError>
    ensures said { IfOk result (spec.StanceSays (view value.now)) }
    ensures unsaid { IfErr result (λ _. NoneSaid spec.StanceSays (view value.now)) }
{
    match text(value, "stance")? {
        "ready" => Ok(ReportedStance::Ready),
        "climb" => Ok(ReportedStance::Climb),
        "held" => Ok(ReportedStance::Held),
        _ => Err(ClientError::NoMember("stance")),
    }
}

/// The job of the answer to `pending`.
pub fn pending_job(alloc: Global, value: &Value) -> Result<ReportedJob, ClientError>
    ensures said { IfOk result (spec.PendingSays (view value.now)) }
    ensures unsaid { IfErr result (NoneSaidUnless spec.PendingSays (view value.now)) }
{
    Ok(ReportedJob {
        lock: lock_name(alloc, value, "lock")?,
        number: number(value, "number")?,
        script: member(value, "script")?.to_string(alloc)?,
        stance: stance(value)?,
    })
}

/// The outcome of the answer to `resume`.
pub fn job_outcome(alloc: Global, value: &Value) -> Result<ReportedOutcome, ClientError>
    ensures said { IfOk result (spec.OutcomeSays (view value.now)) }
    ensures unsaid { IfErr result (NoneSaidUnless (spec.HasReceipt (codes "receipt")) (view value.now)) }
{
    if let Some(receipt) = value.get("receipt") {
        return Ok(ReportedOutcome::Receipt(receipt_of(alloc, receipt)?));
    }
    if flag(value, "waiting") == Ok(true) {
        return Ok(ReportedOutcome::Waiting);
    }
    if flag(value, "withdrawn") == Ok(true) {
        return Ok(ReportedOutcome::Withdrawn);
    }
    if flag(value, "fell")? {
        return Ok(ReportedOutcome::Fell);
    }
    Err(ClientError::NoMember("receipt"))
}

/// The number of the answer to `withdraw`.
pub fn withdrawn_number(value: &Value) -> Result<u64, ClientError>
    ensures said { IfOk result (λ number. spec.withdrawn_member (view value.now) ≡ Some number) }
    ensures unsaid { IfErr result (λ _. spec.withdrawn_member (view value.now) ≡ None) }
{
    number(value, "number")
}

/// The receipt of the answer to `last`, or `None` if there is no last job that counts.
pub fn last_receipt(alloc: Global, value: &Value) -> Result<Option<ReportedReceipt>, ClientError>
    ensures said { IfOk result (spec.LastSays (view value.now)) }
    ensures unsaid { IfErr result (NoneSaidUnless spec.LastSays (view value.now)) }
{
    let last = member(value, "last")?;
    if last.is_null() {
        return Ok(None);
    }
    Ok(Some(receipt_of(alloc, last)?))
}

/// The receipt of a value.
fn receipt_of(alloc: Global, value: &Value) -> Result<ReportedReceipt, ClientError>
    ensures said { IfOk result (spec.ReceiptSays (view value.now)) }
    ensures unsaid { IfErr result (NoneSaidUnless spec.ReceiptSays (view value.now)) }
{
    Ok(ReportedReceipt {
        lock: lock_name(alloc, value, "lock")?,
        number: number(value, "number")?,
        place: number(value, "place")?,
        reply: number(value, "reply")?,
        worker: number(value, "worker")?,
    })
}

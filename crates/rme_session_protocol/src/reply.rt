//! The answers of a session.

ghost use Rattle.std.specs.Prelude.{◌≡◌, ◌++◌, OnOk, string_bytes};
ghost use Rattle.rme_session_protocol.specs.ReplyTexts as spec;
ghost use Rattle.rme_session_protocol.specs.ClientReplies.{outcome_of_client, pending_job_of_client, reply_of_client, token_of_client};
ghost use Rattle.rme_line_text.specs.ClientReceipts.{as_receipt};

use crate::client_reply::{ClientOutcome, ClientPendingJob, ClientReply, ClientToken};
use rme_line_text::{
    ClientReceipt, Names, lock_name, push_last, push_ops, push_receipt, push_refusal,
};
use rme_program::Receipt;
use rme_script::Job;
use rme_words::Refusal;
use std::alloc::AllocError;

/// The stance of the worker when a session attaches it.
#[derive(Clone, Copy, PartialEq, Eq)]
pub enum SessionStance {
    /// Ready for a job.
    Ready,
    /// Its job waits for the lock.
    Climb,
    /// It owns its job's lock, and the job is not finished.
    Held,
}

impl SessionStance {
    pub(crate) fn word(self) -> &'static str
        ensures { result.now ≡ spec.stance_word self }
    {
        match self {
            SessionStance::Ready => "ready",
            SessionStance::Climb => "climb",
            SessionStance::Held => "held",
        }
    }
}

/// The fencing token of a worker that is inside its lock.
///
/// A resource outside keeps the greatest section of a lock that it has seen, with the greatest life of that section, and
/// refuses a lower one.
#[derive(Clone, Copy, PartialEq, Eq)]
pub struct FencingToken {
    /// The lock that the worker owns.
    pub lock: u32,
    /// The number of its job.
    pub number: u32,
    /// The number of the lock's finished sections: the place that the receipt of the job will have.
    pub section: u32,
    /// The number of the worker's restarts. A world counts none; its server does.
    pub life: u64,
}

/// The outcome of a job that a session submitted or continued.
#[derive(Clone, Copy, PartialEq, Eq)]
pub enum JobOutcome {
    /// It is finished.
    Receipt(Receipt),
    /// It was withdrawn earlier.
    Withdrawn,
    /// It still waits for its lock.
    Waiting,
    /// The planned crash happened, and the session has no worker any more.
    Fell,
    /// The worker is inside its lock, and has not finished its section.
    Inside(FencingToken),
}

/// The pending job of a session's worker.
#[derive(Clone, Copy, PartialEq, Eq)]
pub struct PendingJob {
    /// The number of the job.
    pub number: u32,
    /// The job, as it was submitted.
    pub job: Job,
    /// Whether the worker waits for the lock of the job, or is inside it.
    pub stance: SessionStance,
}

/// The answer to a line of a session.
#[derive(Clone, Copy, PartialEq, Eq)]
pub enum SessionReply {
    /// The number of the pending job, or of the last finished or withdrawn one.
    Attached(u32, SessionStance),
    Submitted(JobOutcome),
    Resumed(JobOutcome),
    Entered(JobOutcome),
    Committed(JobOutcome),
    /// The number that was withdrawn.
    Withdrew(u32),
    /// The planned crash happened during the withdrawal.
    WithdrawFell,
    Last(Option<Receipt>),
    CrashPlanned,
    Detached,
    /// The answer to a ping.
    Pong,
    Pending(PendingJob),
    Refused(Refusal),
}

/// Appends an answer of a session, without its newline.
///
/// An error means that memory was refused; the text is then of no use.
pub fn push_session_reply(
    out: &mut String,
    names: &Names,
    reply: ClientReply,
) -> Result<(), AllocError>
    ensures { OnOk result (string_bytes out.new ≡ string_bytes out.old ++ spec.session_reply_text names.now
        (reply_of_client reply)) }
{
    match reply {
        ClientReply::Attached(number, standing) => {
            push_stance(out, number, "attach", standing.word())
        }
        ClientReply::Submitted(outcome) => push_outcome(out, names, "submit", outcome),
        ClientReply::Resumed(outcome) => push_outcome(out, names, "resume", outcome),
        ClientReply::Entered(outcome) => push_outcome(out, names, "enter", outcome),
        ClientReply::Committed(outcome) => push_outcome(out, names, "commit", outcome),
        ClientReply::Withdrew(number) => write!(out, "{{\"number\":{number},\"ok\":\"withdraw\"}}"),
        ClientReply::WithdrawFell => push_fell(out, "withdraw"),
        ClientReply::Last(last) => push_last(out, names, last),
        ClientReply::CrashPlanned => out.push_str("{\"ok\":\"crash_after\"}"),
        ClientReply::Detached => out.push_str("{\"ok\":\"detach\"}"),
        ClientReply::Pong => out.push_str("{\"ok\":\"ping\"}"),
        ClientReply::Pending(pending) => push_pending(out, names, &pending),
        ClientReply::Refused(refusal) => push_refusal(out, refusal),
    }
}

/// Appends a worker's stance, with the word of the line that asked.
fn push_stance(out: &mut String, number: u64, word: &str, standing: &str) -> Result<(), AllocError>
    ensures { OnOk result (string_bytes out.new ≡ string_bytes out.old
        ++ spec.stance_text number word.now standing.now) }
{
    write!(
        out,
        "{{\"number\":{number},\"ok\":\"{word}\",\"stance\":\"{standing}\"}}"
    )
}

/// Appends a pending job.
fn push_pending(
    out: &mut String,
    names: &Names,
    pending: &ClientPendingJob,
) -> Result<(), AllocError>
    ensures { OnOk result (string_bytes out.new ≡ string_bytes out.old ++ spec.pending_text names.now
        (pending_job_of_client pending.now)) }
{
    push_pending_front(out, lock_name(names, pending.job.lock), pending.number)?;
    push_ops(out, &pending.job.script)?;
    push_pending_end(out, pending.stance.word())?;
    Ok(())
}

/// Appends the text of a pending job before its operations.
fn push_pending_front(out: &mut String, name: &str, number: u64) -> Result<(), AllocError>
    ensures { OnOk result (string_bytes out.new ≡ string_bytes out.old ++ spec.pending_front name.now number) }
{
    write!(
        out,
        "{{\"lock\":\"{name}\",\"number\":{number},\"ok\":\"pending\",\"script\":["
    )
}

/// Appends the text of a pending job after its operations.
fn push_pending_end(out: &mut String, standing: &str) -> Result<(), AllocError>
    ensures { OnOk result (string_bytes out.new ≡ string_bytes out.old ++ spec.pending_end standing.now) }
{
    write!(out, "],\"stance\":\"{standing}\"}}")
}

/// Appends the outcome of a job, with the word of the line that asked.
fn push_outcome(
    out: &mut String,
    names: &Names,
    word: &str,
    outcome: ClientOutcome,
) -> Result<(), AllocError>
    ensures { OnOk result (string_bytes out.new ≡ string_bytes out.old ++ spec.job_outcome_text names.now word.now
        (outcome_of_client outcome)) }
{
    match outcome {
        ClientOutcome::Receipt(receipt) => push_receipt_outcome(out, names, word, receipt),
        ClientOutcome::Withdrawn => write!(out, "{{\"ok\":\"{word}\",\"withdrawn\":true}}"),
        ClientOutcome::Waiting => write!(out, "{{\"ok\":\"{word}\",\"waiting\":true}}"),
        ClientOutcome::Fell => push_fell(out, word),
        ClientOutcome::Inside(token) => push_inside(out, word, token),
    }
}

/// Appends that a worker is inside, with its fencing token and the word of the line that asked.
fn push_inside(out: &mut String, word: &str, token: ClientToken) -> Result<(), AllocError>
    ensures { OnOk result (string_bytes out.new ≡ string_bytes out.old
        ++ spec.inside_text word.now (token_of_client token)) }
{
    push_inside_front(out, token.life, token.number)?;
    push_inside_end(out, word, token.section)
}

/// Appends the text of a worker that is inside, before the word of the line that asked.
fn push_inside_front(out: &mut String, life: u64, number: u64) -> Result<(), AllocError>
    ensures { OnOk result (string_bytes out.new ≡ string_bytes out.old ++ spec.inside_front life number) }
{
    write!(out, "{{\"life\":{life},\"number\":{number},\"ok\":\"")
}

/// Appends the text of a worker that is inside, from the word of the line that asked on.
fn push_inside_end(out: &mut String, word: &str, section: u64) -> Result<(), AllocError>
    ensures { OnOk result (string_bytes out.new ≡ string_bytes out.old ++ spec.inside_end word.now section) }
{
    write!(out, "{word}\",\"section\":{section},\"stance\":\"held\"}}")
}

fn push_fell(out: &mut String, word: &str) -> Result<(), AllocError>
    ensures { OnOk result (string_bytes out.new ≡ string_bytes out.old ++ spec.fell_text word.now) }
{
    write!(out, "{{\"fell\":true,\"ok\":\"{word}\"}}")
}

fn push_receipt_outcome(
    out: &mut String,
    names: &Names,
    word: &str,
    receipt: ClientReceipt,
) -> Result<(), AllocError>
    ensures { OnOk result (string_bytes out.new ≡ string_bytes out.old ++ spec.receipt_outcome_text names.now word.now
        (as_receipt receipt)) }
{
    push_receipt_prefix(out, word)?;
    push_receipt(out, names, receipt)?;
    out.push_str("}")?;
    Ok(())
}

fn push_receipt_prefix(out: &mut String, word: &str) -> Result<(), AllocError>
    ensures { OnOk result (string_bytes out.new ≡ string_bytes out.old ++ spec.receipt_prefix word.now) }
{
    out.push_str("{\"ok\":\"")?;
    out.push_str(word)?;
    out.push_str("\",\"receipt\":")
}

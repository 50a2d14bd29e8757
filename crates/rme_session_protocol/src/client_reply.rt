//! The answer that the client of a session gets.

ghost use Rattle.std.specs.Prelude.{◌≡◌};
ghost use Rattle.rme_session_protocol.specs.ClientReplies as spec;

use crate::reply::{FencingToken, JobOutcome, PendingJob, SessionReply, SessionStance};
use rme_line_text::{ClientReceipt, client_receipt_of};
use rme_script::Job;
use rme_words::Refusal;

/// A fencing token over all worlds of a service: as `FencingToken`, but its number and section may exceed those of one
/// world.
#[derive(Clone, Copy, PartialEq, Eq)]
pub struct ClientToken {
    pub lock: u32,
    pub number: u64,
    pub section: u64,
    pub life: u64,
}

/// A pending job over all worlds of a service: as `PendingJob`, but its number may exceed those of one world.
#[derive(Clone, Copy, PartialEq, Eq)]
pub struct ClientPendingJob {
    pub number: u64,
    pub job: Job,
    pub stance: SessionStance,
}

/// The outcome of a job, as its client gets it.
#[derive(Clone, Copy, PartialEq, Eq)]
pub enum ClientOutcome {
    Receipt(ClientReceipt),
    Withdrawn,
    Waiting,
    Fell,
    Inside(ClientToken),
}

/// An answer of a session, over all worlds of its service: as `SessionReply`, but its numbers and places may exceed
/// those of one world.
#[derive(Clone, Copy, PartialEq, Eq)]
pub enum ClientReply {
    Attached(u64, SessionStance),
    Submitted(ClientOutcome),
    Resumed(ClientOutcome),
    Entered(ClientOutcome),
    Committed(ClientOutcome),
    Withdrew(u64),
    WithdrawFell,
    Last(Option<ClientReceipt>),
    CrashPlanned,
    Detached,
    Pong,
    Pending(ClientPendingJob),
    Refused(Refusal),
}

impl From<FencingToken> for ClientToken {
    ghost from_gives = { λ token told. spec.token_of_client told ≡ token };

    fn from(token: FencingToken) -> ClientToken {
        ClientToken {
            lock: token.lock,
            number: u64::from(token.number),
            section: u64::from(token.section),
            life: token.life,
        }
    }
}

impl From<PendingJob> for ClientPendingJob {
    ghost from_gives = { λ pending told. spec.pending_job_of_client told ≡ pending };

    fn from(pending: PendingJob) -> ClientPendingJob {
        ClientPendingJob {
            number: u64::from(pending.number),
            job: pending.job,
            stance: pending.stance,
        }
    }
}

impl From<JobOutcome> for ClientOutcome {
    ghost from_gives = { λ became told. spec.outcome_of_client told ≡ became };

    fn from(became: JobOutcome) -> ClientOutcome {
        match became {
            JobOutcome::Receipt(receipt) => ClientOutcome::Receipt(ClientReceipt::from(receipt)),
            JobOutcome::Withdrawn => ClientOutcome::Withdrawn,
            JobOutcome::Waiting => ClientOutcome::Waiting,
            JobOutcome::Fell => ClientOutcome::Fell,
            JobOutcome::Inside(token) => ClientOutcome::Inside(ClientToken::from(token)),
        }
    }
}

impl From<SessionReply> for ClientReply {
    ghost from_gives = { λ reply told. spec.reply_of_client told ≡ reply };

    fn from(reply: SessionReply) -> ClientReply {
        match reply {
            SessionReply::Attached(number, standing) => {
                ClientReply::Attached(u64::from(number), standing)
            }
            SessionReply::Submitted(became) => ClientReply::Submitted(ClientOutcome::from(became)),
            SessionReply::Resumed(became) => ClientReply::Resumed(ClientOutcome::from(became)),
            SessionReply::Entered(became) => ClientReply::Entered(ClientOutcome::from(became)),
            SessionReply::Committed(became) => ClientReply::Committed(ClientOutcome::from(became)),
            SessionReply::Withdrew(number) => ClientReply::Withdrew(u64::from(number)),
            SessionReply::WithdrawFell => ClientReply::WithdrawFell,
            SessionReply::Last(last) => ClientReply::Last(client_receipt_of(last)),
            SessionReply::CrashPlanned => ClientReply::CrashPlanned,
            SessionReply::Detached => ClientReply::Detached,
            SessionReply::Pong => ClientReply::Pong,
            SessionReply::Pending(pending) => {
                ClientReply::Pending(ClientPendingJob::from(pending))
            }
            SessionReply::Refused(refusal) => ClientReply::Refused(refusal),
        }
    }
}

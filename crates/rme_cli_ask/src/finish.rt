//! Finishing the pending job of a worker whose client is gone.

ghost use Rattle.std.specs.Prelude.{◌≡◌, ◌+◌, ◌<◌, ◌↔◌, ℕ, IsTrue, Some};
ghost use Rattle.rme_cli_ask.specs.Waits.{milliseconds_left};

use crate::ask_end::{AskEnd, AskFault};
use crate::dialogue::Dialogue;
use crate::patience::RemainingPatience;
use rme_ask_client::{
    ClientError, ClientRequest, ReportedJob, ReportedOutcome, ReportedStance, ServerAnswer,
    attached_worker, job_outcome, last_receipt, owner_answer, pending_job, withdrawn_number,
};
use rme_cli_options::FinishTask;
use rme_line_io::{Sink, Source};
use std::alloc::{AllocError, Global};
use std::sync::Wait;

impl<R: Source + Drop, W: Sink + Drop, O: Sink + Drop, E: Sink + Drop> Dialogue<R, W, O, E> {
    /// Attaches a worker, finishes its pending job or withdraws it, and lets the worker go.
    pub(crate) fn finish<P: Wait>(
        &mut self,
        threads: &P,
        task: FinishTask,
    ) -> Result<AskEnd, AskFault> {
        let attach = if task.takes_over {
            ClientRequest::TakeOver(task.worker)
        } else {
            ClientRequest::Attach(task.worker)
        };
        let Some(value) = self.accepted(attach)? else {
            return Ok(AskEnd::Refused);
        };
        let ended = match attached_worker(&value)?.stance {
            ReportedStance::Ready => self.show_last(task.worker)?,
            _ => self.finish_pending(threads, task)?,
        };
        // The end of the connection lets the worker go too.
        let _ = self.talk.ask(ClientRequest::Detach);
        Ok(ended)
    }

    /// Prints that a worker has no pending job, with its last receipt.
    fn show_last(&mut self, worker: u32) -> Result<AskEnd, AskFault> {
        let Some(value) = self.accepted(ClientRequest::Last)? else {
            return Ok(AskEnd::Refused);
        };
        if self.console.is_json() {
            self.print_answer()?;
            return Ok(AskEnd::Done);
        }
        let text = match last_receipt(self.alloc, &value)? {
            Some(receipt) => {
                format!(in self.alloc; "worker {worker} has no pending job; its last: {receipt}\n")?
            }
            None => format!(in self.alloc;
                "worker {worker} has no pending job; its last was withdrawn, or it never had one\n"
            )?,
        };
        self.console.print(text.as_str())?;
        Ok(AskEnd::Done)
    }

    /// Prints the pending job of the attached worker, and finishes it or withdraws it.
    fn finish_pending<P: Wait>(
        &mut self,
        threads: &P,
        task: FinishTask,
    ) -> Result<AskEnd, AskFault> {
        let Some(value) = self.accepted(ClientRequest::Pending)? else {
            return Ok(AskEnd::Refused);
        };
        let job = pending_job(self.alloc, &value)?;
        if self.console.is_json() {
            self.print_answer()?;
        } else {
            let text = job_text(self.alloc, task.worker, &job)?;
            self.console.print(text.as_str())?;
        }
        if task.withdraws && job.stance == ReportedStance::Climb {
            return self.withdraw(task.worker);
        }
        let patience = RemainingPatience::of(task.seconds);
        let attempt = Attempt {
            task,
            job,
            patience,
        };
        self.resume(threads, attempt)
    }

    /// Withdraws the job of the attached worker.
    fn withdraw(&mut self, worker: u32) -> Result<AskEnd, AskFault> {
        let Some(value) = self.accepted(ClientRequest::Withdraw)? else {
            return Ok(AskEnd::Refused);
        };
        if self.console.is_json() {
            self.print_answer()?;
            return Ok(AskEnd::Done);
        }
        let number = withdrawn_number(&value)?;
        let text = format!(in self.alloc;
            "withdrawn: job {number} of worker {worker} never counts\n"
        )?;
        self.console.print(text.as_str())?;
        Ok(AskEnd::Done)
    }

    /// Goes on with the pending job until it is done, or until no time is left.
    fn resume<P: Wait>(&mut self, threads: &P, mut attempt: Attempt) -> Result<AskEnd, AskFault> {
        let mut is_told = false;
        for _ in threads.forever() {
            let (round, is_last) = begin_round(&mut attempt.patience);
            let Some(value) = self.accepted(ClientRequest::Resume(round))? else {
                return Ok(AskEnd::Refused);
            };
            let outcome = job_outcome(self.alloc, &value)?;
            if !matches!(outcome, ReportedOutcome::Waiting) || is_last {
                return self.show_outcome(&attempt, outcome);
            }
            if !is_told {
                self.tell_waiting(&attempt)?;
                is_told = true;
            }
        }
        Ok(AskEnd::Waits)
    }

    /// Prints the outcome of the pending job.
    fn show_outcome(
        &mut self,
        attempt: &Attempt,
        outcome: ReportedOutcome,
    ) -> Result<AskEnd, AskFault> {
        if self.console.is_json() {
            self.print_answer()?;
        }
        match outcome {
            ReportedOutcome::Receipt(receipt) => {
                if !self.console.is_json() {
                    let text = format!(in self.alloc; "finished: {receipt}\n")?;
                    self.console.print(text.as_str())?;
                }
                Ok(AskEnd::Done)
            }
            ReportedOutcome::Waiting => {
                self.tell_waiting(attempt)?;
                Ok(AskEnd::Waits)
            }
            ReportedOutcome::Withdrawn | ReportedOutcome::Fell => {
                self.console.tell("rme: the job was not finished: the server ended it otherwise\n");
                Ok(AskEnd::Failed)
            }
        }
    }

    /// Says on the standard error that the job waits, and names the owner of the lock if the server has look-ups.
    fn tell_waiting(&mut self, attempt: &Attempt) -> Result<(), AskFault> {
        let lock = attempt.job.lock.as_str();
        let owner = self.owner_of(lock)?;
        let text = waiting_text(self.alloc, attempt, owner)?;
        self.console.tell(text.as_str());
        Ok(())
    }

    /// The owner of a lock; `None` if it is free, or if the server has no look-ups.
    fn owner_of(&mut self, lock: &str) -> Result<Option<u64>, ClientError> {
        match self.talk.ask(ClientRequest::Owner(lock))? {
            ServerAnswer::Accepted(value) => owner_answer(&value),
            ServerAnswer::Refused(_) => Ok(None),
        }
    }
}

/// The job of a worker, and how long its lock is still waited for.
#[derive(Drop)]
struct Attempt {
    task: FinishTask,
    job: ReportedJob,
    patience: RemainingPatience,
}

/// The milliseconds of the next round of a wait, and whether it is the last one. Each round leaves less time, if a time
/// is given.
fn begin_round(patience: &mut RemainingPatience) -> (u32, bool)
    ensures less { (left : ℕ) → milliseconds_left patience.old ≡ Some (left + 1)
        → (rest : ℕ) × (milliseconds_left patience.new ≡ Some rest) × (rest < left + 1) }
    ensures last { IsTrue result.1 ↔ (milliseconds_left patience.new ≡ Some 0) }
{
    let round = patience.next_round();
    (round, patience.is_over())
}

/// The text of a pending job.
fn job_text(alloc: Global, worker: u32, job: &ReportedJob) -> Result<String, AllocError> {
    let ReportedJob {
        lock,
        number,
        script,
        stance,
    } = job;
    let at = match stance {
        ReportedStance::Held => "is inside",
        _ => "waits for",
    };
    format!(in alloc; "worker {worker} {at} lock {lock} with job {number}, script {script}\n")
}

/// The text of a job that waits for its lock, with the lock's owner if it is known.
fn waiting_text(
    alloc: Global,
    attempt: &Attempt,
    owner: Option<u64>,
) -> Result<String, AllocError> {
    let worker = attempt.task.worker;
    let ReportedJob {
        lock,
        number,
        script: _,
        stance: _,
    } = &attempt.job;
    match owner {
        Some(owner) => format!(in alloc;
            "rme: job {number} of worker {worker} still waits for lock {lock}, which worker {owner} owns\n"
        ),
        None => format!(in alloc;
            "rme: job {number} of worker {worker} still waits for lock {lock}\n"
        ),
    }
}

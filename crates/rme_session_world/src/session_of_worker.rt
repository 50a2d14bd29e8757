//! The session view of a worker.

ghost use Rattle.std.specs.Prelude.{◌≡◌, ◌<◌, Ok, length};
ghost use Rattle.rme_machine.specs.Histories.{history_of_lock};
ghost use Rattle.rme_world.specs.Calls.{LastContract};
ghost use Rattle.rme_session_world.specs.FencingTokens.{fencing_token, lock_of_draft};
ghost use Rattle.rme_session_world.specs.WorkerSessions.{IsNumberWithinJobs, IsAtRest, worker_session};
ghost use Rattle.rme_session_world.specs.Outcomes.{session_outcome};
ghost use Rattle.rme_session_protocol.specs.SessionSteps as spec;
ghost use Rattle.rme_session_protocol.specs.declared.view.Session.TheVariants as at;
ghost use Rattle.rme_world.specs.WorldInvariants.{WorldInvariant};

use crate::work::recall_invariant;
use rme_program::{Phase, Receipt, phase};
use rme_script::Job;
use rme_session_protocol::{FencingToken, JobOutcome, PendingWorker, ReadyWorker, Session};
use rme_world::World;

/// The session view of a worker at rest.
pub(crate) fn worker_session(world: &World, worker: u32) -> Session
    requires rests { IsAtRest world.now worker }
    ensures sight { result ≡ worker_session world.now worker }
    ensures kept { WorldInvariant world.now }
    ensures few { IsNumberWithinJobs world.now.shape result }
{
    let Some(private) = world.known(worker) else {
        unreachable!();
    };
    let number = private.begun;
    match phase(&private) {
        Phase::Ready => Session::Ready(ReadyWorker {
            worker,
            number,
            last: read_last_receipt(world, worker),
        }),
        Phase::Enter => Session::Climb(PendingWorker {
            worker,
            number,
            draft: world.pending(worker),
        }),
        Phase::Section => Session::Held(PendingWorker {
            worker,
            number,
            draft: world.pending(worker),
        }),
        Phase::Recover | Phase::Post | Phase::Exit => unreachable!(),
    }
}

/// The outcome of a worker's last number.
fn read_last_receipt(world: &World, worker: u32) -> Option<Receipt>
    requires within { worker < world.now.shape.workers }
    ensures { LastContract world.now worker (Ok result) }
{
    match world.last(worker) {
        Ok(last) => last,
        Err(_) => unreachable!(),
    }
}

/// The outcome of a job, from its worker, which is at rest afterwards.
pub(crate) fn session_outcome(world: &World, worker: u32) -> JobOutcome
    requires rests { IsAtRest world.now worker }
    ensures { result ≡ session_outcome world.now (worker_session world.now worker) }
{
    match &worker_session(world, worker) {
        Session::Nobody => JobOutcome::Fell,
        Session::Ready(ready) => last_outcome(ready.last),
        Session::Climb(_) => JobOutcome::Waiting,
        Session::Held(pending) => JobOutcome::Inside(fencing_token(world, worker, pending)),
    }
}

/// The fencing token of a worker that is inside. A world counts no lives.
pub(crate) fn fencing_token(world: &World, worker: u32, pending: &PendingWorker) -> FencingToken
    requires rests { IsAtRest world.now worker }
    requires inside { at.Held pending.now ≡ worker_session world.now worker }
    ensures token { result ≡ fencing_token world.now pending.now }
    ensures kept { WorldInvariant world.now }
{
    recall_invariant(world, worker);
    let lock = lock_of_draft(&pending.draft);
    FencingToken {
        lock,
        number: pending.number,
        section: count_finished(world, lock),
        life: 0,
    }
}

/// The lock of a job that is pending.
fn lock_of_draft(draft: &Option<Job>) -> u32
    ensures { result ≡ lock_of_draft draft.now }
{
    match draft {
        Some(job) => job.lock,
        None => 0,
    }
}

/// The number of finished sections of a lock.
fn count_finished(world: &World, lock: u32) -> u32
    requires within { lock < world.now.shape.locks }
    ensures { result ≡ length (history_of_lock world.now.history lock) }
{
    match world.finished(lock) {
        Ok(count) => count,
        Err(_) => unreachable!(),
    }
}

/// The outcome of a last number.
pub(crate) fn last_outcome(last: Option<Receipt>) -> JobOutcome
    ensures { result ≡ spec.last_outcome last }
{
    match last {
        Some(receipt) => JobOutcome::Receipt(receipt),
        None => JobOutcome::Withdrawn,
    }
}

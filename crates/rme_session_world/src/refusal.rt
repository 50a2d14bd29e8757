//! The refusals of a session's orders.

ghost use Rattle.std.specs.Prelude.{◌≡◌, ◌≤◌};
ghost use Rattle.rme_session_world.specs.WorkerSessions.{IsNumberWithinJobs};
ghost use Rattle.rme_session_protocol.specs.Refusals as spec;

use rme_session_protocol::{
    Order, PendingWorker, ReadyWorker, Session, Submission, pending_refusal,
};
use rme_words::{Refusal, Shape};

/// The refusal of an order, from the session view; `None` if it is not refused.
pub(crate) fn order_refusal(shape: Shape, session: &Session, order: &Order) -> Option<Refusal>
    requires few { IsNumberWithinJobs shape session.now }
    ensures { spec.OrderRefusal shape session.now order.now result }
{
    match order {
        Order::Attach(asked) => attach_refusal(shape, asked.worker, session),
        Order::Submit(its) | Order::Enter(its) => submit_refusal(shape, session, its),
        Order::Resume(_) | Order::Pending => resume_refusal(session),
        Order::Commit => commit_refusal(session),
        Order::Withdraw => withdraw_order_refusal(session),
        Order::Last => last_refusal(session),
        Order::CrashAfter(_) | Order::Detach => bare_refusal(session),
        Order::Ping => None,
    }
}

fn attach_refusal(shape: Shape, worker: u32, session: &Session) -> Option<Refusal>
    ensures { result ≡ spec.attach_refusal shape worker session.now }
{
    if worker >= shape.workers {
        return Some(Refusal::NoWorker);
    }
    match session {
        Session::Nobody => None,
        _ => Some(Refusal::Busy),
    }
}

fn submit_refusal(shape: Shape, session: &Session, its: &Submission) -> Option<Refusal>
    requires few { IsNumberWithinJobs shape session.now }
    ensures { spec.SubmitRefusal shape session.now its.now result }
{
    match session {
        Session::Nobody => Some(Refusal::NotAttached),
        Session::Ready(ready) => posting_refusal(shape, ready, its),
        Session::Climb(pending) | Session::Held(pending) => pending_job_refusal(pending, its),
    }
}

/// Why a ready worker neither accepts a job nor answers its last number again.
fn posting_refusal(shape: Shape, ready: &ReadyWorker, its: &Submission) -> Option<Refusal>
    requires few { ready.now.number ≤ shape.jobs }
    ensures { result ≡ spec.posting_refusal shape ready.now.number its.now }
{
    let _most = shape.jobs();
    let next = ready.number + 1;
    if its.number == u64::from(next) {
        return its.job.refusal(shape, ready.number);
    }
    if its.number > 0 && its.number == u64::from(ready.number) {
        return None;
    }
    Some(Refusal::WrongNumber(u64::from(next)))
}

/// Why a submission does not continue the pending job.
fn pending_job_refusal(pending: &PendingWorker, its: &Submission) -> Option<Refusal>
    ensures { spec.PendingJobRefusal pending.now.number pending.now.draft its.now result }
{
    match &pending.draft {
        Some(job) => pending_refusal(pending.number, job, its),
        None if its.number == u64::from(pending.number) => Some(Refusal::Differs),
        None => Some(Refusal::WrongNumber(u64::from(pending.number))),
    }
}

fn resume_refusal(session: &Session) -> Option<Refusal>
    ensures { result ≡ spec.resume_refusal session.now }
{
    match session {
        Session::Nobody => Some(Refusal::NotAttached),
        Session::Ready(_) => Some(Refusal::Idle),
        Session::Climb(_) | Session::Held(_) => None,
    }
}

fn commit_refusal(session: &Session) -> Option<Refusal>
    ensures { result ≡ spec.commit_refusal session.now }
{
    match session {
        Session::Nobody => Some(Refusal::NotAttached),
        Session::Ready(_) => Some(Refusal::Idle),
        Session::Climb(_) => Some(Refusal::NotInside),
        Session::Held(_) => None,
    }
}

fn withdraw_order_refusal(session: &Session) -> Option<Refusal>
    ensures { result ≡ spec.withdraw_order_refusal session.now }
{
    match session {
        Session::Nobody => Some(Refusal::NotAttached),
        Session::Climb(_) => None,
        Session::Ready(_) | Session::Held(_) => Some(Refusal::NotWaiting),
    }
}

fn last_refusal(session: &Session) -> Option<Refusal>
    ensures { result ≡ spec.last_refusal session.now }
{
    match session {
        Session::Nobody => Some(Refusal::NotAttached),
        Session::Ready(_) => None,
        Session::Climb(_) | Session::Held(_) => Some(Refusal::Busy),
    }
}

fn bare_refusal(session: &Session) -> Option<Refusal>
    ensures { result ≡ spec.bare_refusal session.now }
{
    match session {
        Session::Nobody => Some(Refusal::NotAttached),
        _ => None,
    }
}

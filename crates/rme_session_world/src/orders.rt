//! The orders of a session, applied as events of a world.

ghost use Rattle.std.specs.Prelude.{◌≡◌, ◌<◌, IfOk, IsSome, None, OnErr, Some};
ghost use Rattle.rme_session_world.specs.AppliedOrders.{AppliesOrder, IsSessionAtRest, IsAttachable, worker_view};
ghost use Rattle.rme_session_world.specs.Downs.{IsWorkerDown};
ghost use Rattle.rme_session_world.specs.WorkerSessions.{HasDraft, IsAtRest, worker_session};
ghost use Rattle.rme_session_world.specs.Replies.{attach_reply, worked_order, goal_for, unchanged_order, pong_order, ready_receipt, waiting_number, order_for, refused_order, reply_for, withdraw_reply};
ghost use Rattle.rme_session_protocol.specs.Refusals.{PendingJobRefusal, OrderRefusal, posting_refusal};
ghost use Rattle.rme_session_protocol.specs.SessionSteps.{IsPendingJob, PendingOrderEffect};
ghost use Rattle.rme_session_protocol.specs.declared.order.Submission.{Submission};
ghost use Rattle.rme_session_protocol.specs.declared.planned_crash.PlannedCrash.{PlannedCrash};
ghost use Rattle.rme_session_protocol.specs.declared.view.Session.TheVariants as at;
ghost use Rattle.rme_session_protocol.specs.declared.order.Order.TheVariants as word;
ghost use Rattle.rme_session_protocol.specs.declared.order.Attachment.{Attachment};

use crate::event_batch::{BatchStart, EventBatch};
use crate::refusal::order_refusal;
use crate::running::{RunGoal, run_until};
use crate::session_of_worker::{fencing_token, last_outcome, worker_session};
use crate::work::{
    WorkedJob, begin_withdraw, continue_job, crash_worker, recall_invariant, restart_worker,
    submit_and_run,
};
use rme_program::Receipt;
use rme_session_protocol::{
    JobOutcome, Order, PendingJob, PendingWorker, PlannedCrash, ReadyWorker, Session, SessionReply,
    SessionStance, Submission,
};
use rme_words::{NoMemory, Refusal};
use rme_world::World;

/// The result of an order.
#[derive(Clone, Copy)]
pub(crate) struct AppliedOrder {
    pub(crate) reply: SessionReply,
    /// The worker that the session has afterwards, if any.
    pub(crate) seat: Option<u32>,
    /// The planned crash afterwards.
    pub(crate) planned: PlannedCrash,
    /// The events, if there were any.
    pub(crate) batch: Option<EventBatch>,
}

/// The goal of a submission.
#[derive(Clone, Copy)]
enum SubmitAim {
    /// Its receipt.
    Receipt,
    /// To be inside.
    Inside,
}

impl SubmitAim {
    /// The worker's goal.
    fn goal(self) -> RunGoal
        ensures { result ≡ goal_for self }
    {
        match self {
            SubmitAim::Receipt => RunGoal::Ready,
            SubmitAim::Inside => RunGoal::Inside,
        }
    }

    /// The answer.
    fn reply(self, became: JobOutcome) -> SessionReply
        ensures { result ≡ reply_for self became }
    {
        match self {
            SubmitAim::Receipt => SessionReply::Submitted(became),
            SubmitAim::Inside => SessionReply::Entered(became),
        }
    }
}

/// A submission with its goal.
#[derive(Clone, Copy)]
struct SubmitRequest<'a> {
    submission: &'a Submission,
    aim: SubmitAim,
}

/// Applies an order of a session with this worker, if any, with one try if its job waits. The session's view is this
/// one.
///
/// A refused order changes nothing. A worker to attach is down, or does not exist. `NoMemory` if memory for a
/// submission was refused; then nothing has changed.
pub(crate) fn apply_order(
    world: &mut World,
    seat: Option<u32>,
    session: &Session,
    planned: PlannedCrash,
    order: &Order,
) -> Result<AppliedOrder, NoMemory>
    requires seated { IsSessionAtRest world.old seat }
    requires session { session.now ≡ (worker_view world.old seat planned).session }
    requires may { IsAttachable world.old seat order.now }
    ensures carries { IfOk result (λ carried. AppliesOrder world.old seat planned order.now carried world.new) }
    ensures unchanged { OnErr result (world.new ≡ world.old) }
{
    match seat {
        None => Ok(apply_without_worker(world, planned, order)),
        Some(worker) => apply_with_worker(world, worker, session, planned, order),
    }
}

/// An order of a session without a worker.
fn apply_without_worker(world: &mut World, planned: PlannedCrash, order: &Order) -> AppliedOrder
    requires may { IsAttachable world.old None order.now }
    ensures { AppliesOrder world.old None planned order.now result world.new }
{
    if let Some(why) = order_refusal(world.shape(), &Session::Nobody, order) {
        return refused_order(why, None, planned);
    }
    match order {
        Order::Attach(asked) => attach(world, asked.worker),
        Order::Ping => pong(None, planned),
        _ => unreachable!(),
    }
}

/// A refused order leaves the session unchanged.
fn refused_order(why: Refusal, seat: Option<u32>, planned: PlannedCrash) -> AppliedOrder
    ensures { result ≡ refused_order why seat planned }
{
    AppliedOrder {
        reply: SessionReply::Refused(why),
        seat,
        planned,
        batch: None,
    }
}

/// A ping leaves the session unchanged.
fn pong(seat: Option<u32>, planned: PlannedCrash) -> AppliedOrder
    ensures { result ≡ pong_order seat planned }
{
    AppliedOrder {
        reply: SessionReply::Pong,
        seat,
        planned,
        batch: None,
    }
}

/// Restarts a worker and runs it until it is at rest: a job that was finished before its crash it leaves at once.
fn attach(world: &mut World, worker: u32) -> AppliedOrder
    requires within { worker < world.old.shape.workers }
    requires down { IsWorkerDown world.old worker }
    ensures { (planned : PlannedCrash) (asked : Attachment) → asked.worker ≡ worker
        → AppliesOrder world.old None planned (word.Attach asked) result world.new }
{
    restart_worker(world, worker);
    let planned = PlannedCrash::Nothing;
    let walk = run_until(world, worker, RunGoal::Rest, planned);
    AppliedOrder {
        reply: attach_reply(&worker_session(world, worker)),
        seat: Some(worker),
        planned,
        batch: Some(EventBatch {
            worker,
            begins: BatchStart::Restart,
            steps: walk.steps,
            falls: false,
        }),
    }
}

/// The answer to a session that has attached a worker.
fn attach_reply(session: &Session) -> SessionReply
    ensures { result ≡ attach_reply session.now }
{
    match session {
        Session::Ready(ready) => SessionReply::Attached(ready.number, SessionStance::Ready),
        Session::Climb(pending) => SessionReply::Attached(pending.number, SessionStance::Climb),
        Session::Held(pending) => SessionReply::Attached(pending.number, SessionStance::Held),
        Session::Nobody => SessionReply::Detached,
    }
}

/// An order of a session with a worker.
fn apply_with_worker(
    world: &mut World,
    worker: u32,
    session: &Session,
    planned: PlannedCrash,
    order: &Order,
) -> Result<AppliedOrder, NoMemory>
    requires rests { IsAtRest world.old worker }
    requires session { session.now ≡ worker_session world.old worker }
    ensures carries { IfOk result (λ carried. AppliesOrder world.old (Some worker) planned
        order.now carried world.new) }
    ensures unchanged { OnErr result (world.new ≡ world.old) }
{
    recall_invariant(world, worker);
    if let Some(why) = order_refusal(world.shape(), session, order) {
        return Ok(refused_order(why, Some(worker), planned));
    }
    match order {
        Order::Submit(submission) => {
            let aim = SubmitAim::Receipt;
            submit(
                world,
                worker,
                session,
                planned,
                &SubmitRequest { submission, aim },
            )
        }
        Order::Enter(submission) => {
            let aim = SubmitAim::Inside;
            submit(
                world,
                worker,
                session,
                planned,
                &SubmitRequest { submission, aim },
            )
        }
        Order::Resume(_) => {
            let worked = continue_job(world, worker, RunGoal::Ready, planned);
            Ok(worked_order(
                worker,
                BatchStart::GoOn,
                worked,
                SessionReply::Resumed(worked.outcome),
            ))
        }
        Order::Commit => {
            let worked = continue_job(world, worker, RunGoal::Ready, planned);
            Ok(worked_order(
                worker,
                BatchStart::GoOn,
                worked,
                SessionReply::Committed(worked.outcome),
            ))
        }
        Order::Withdraw => Ok(withdraw(world, worker, session, planned)),
        Order::Last => Ok(unchanged_order(
            worker,
            planned,
            SessionReply::Last(ready_receipt(session)),
        )),
        Order::CrashAfter(steps) => Ok(unchanged_order(
            worker,
            PlannedCrash::After(*steps),
            SessionReply::CrashPlanned,
        )),
        Order::Detach => Ok(detach(world, worker)),
        Order::Ping => Ok(pong(Some(worker), planned)),
        Order::Pending => Ok(unchanged_order(
            worker,
            planned,
            SessionReply::Pending(pending_job(session)),
        )),
        Order::Attach(_) => unreachable!(),
    }
}

/// Submits a job to a worker, or continues the one that it has.
fn submit(
    world: &mut World,
    worker: u32,
    session: &Session,
    planned: PlannedCrash,
    request: &SubmitRequest<'_>,
) -> Result<AppliedOrder, NoMemory>
    requires rests { IsAtRest world.old worker }
    requires session { session.now ≡ worker_session world.old worker }
    requires may { OrderRefusal world.old.shape session.now
        (order_for request.now.aim request.now.submission.now) None }
    ensures carries { IfOk result (λ carried. AppliesOrder world.old (Some worker) planned
        (order_for request.now.aim request.now.submission.now) carried world.new) }
    ensures unchanged { OnErr result (world.new ≡ world.old) }
{
    match session {
        Session::Ready(ready) => submit_new(world, worker, ready, planned, request),
        Session::Held(pending) => {
            Ok(continue_inside(world, worker, pending, planned, request.aim))
        }
        Session::Nobody => unreachable!(),
        Session::Climb(_) => {
            let worked = continue_job(world, worker, request.aim.goal(), planned);
            let reply = request.aim.reply(worked.outcome);
            Ok(worked_order(worker, BatchStart::GoOn, worked, reply))
        }
    }
}

/// Submits a job to a ready worker, or answers its last number again.
fn submit_new(
    world: &mut World,
    worker: u32,
    ready: &ReadyWorker,
    planned: PlannedCrash,
    request: &SubmitRequest<'_>,
) -> Result<AppliedOrder, NoMemory>
    requires rests { IsAtRest world.old worker }
    requires session { at.Ready ready.now ≡ worker_session world.old worker }
    requires may { posting_refusal world.old.shape ready.now.number request.now.submission.now ≡ None }
    ensures carries { IfOk result (λ carried. AppliesOrder world.old (Some worker) planned
        (order_for request.now.aim request.now.submission.now) carried world.new) }
    ensures unchanged { OnErr result (world.new ≡ world.old) }
{
    let SubmitRequest {
        submission: its,
        aim,
    } = *request;
    if its.number == ready.number as u64 {
        return Ok(unchanged_order(worker, planned, aim.reply(last_outcome(ready.last))));
    }
    recall_invariant(world, worker);
    match submit_and_run(world, worker, its.job, aim.goal(), planned) {
        Ok(worked) => Ok(worked_order(
            worker,
            BatchStart::Submit(its.job),
            worked,
            aim.reply(worked.outcome),
        )),
        Err(fault) => Err(fault),
    }
}

/// Continues the job of a worker that is inside, or leaves it there.
fn continue_inside(
    world: &mut World,
    worker: u32,
    pending: &PendingWorker,
    planned: PlannedCrash,
    aim: SubmitAim,
) -> AppliedOrder
    requires rests { IsAtRest world.old worker }
    requires session { at.Held pending.now ≡ worker_session world.old worker }
    ensures { (its : Submission) → PendingJobRefusal pending.now.number pending.now.draft its None
        → AppliesOrder world.old (Some worker) planned (order_for aim its) result world.new }
{
    match aim {
        SubmitAim::Inside => {
            let token = fencing_token(world, worker, pending);
            unchanged_order(
                worker,
                planned,
                SessionReply::Entered(JobOutcome::Inside(token)),
            )
        }
        SubmitAim::Receipt => {
            let worked = continue_job(world, worker, RunGoal::Ready, planned);
            worked_order(
                worker,
                BatchStart::GoOn,
                worked,
                SessionReply::Submitted(worked.outcome),
            )
        }
    }
}

/// Makes a waiting worker withdraw its job.
fn withdraw(
    world: &mut World,
    worker: u32,
    session: &Session,
    planned: PlannedCrash,
) -> AppliedOrder
    requires rests { IsAtRest world.old worker }
    requires session { session.now ≡ worker_session world.old worker }
    requires may { OrderRefusal world.old.shape session.now word.Withdraw None }
    ensures { AppliesOrder world.old (Some worker) planned word.Withdraw result world.new }
{
    let number = waiting_number(session);
    recall_invariant(world, worker);
    begin_withdraw(world, worker);
    let worked = continue_job(world, worker, RunGoal::Ready, planned);
    worked_order(
        worker,
        BatchStart::Withdraw,
        worked,
        withdraw_reply(worked.falls, number),
    )
}

/// The answer to a withdrawal.
fn withdraw_reply(falls: bool, number: u32) -> SessionReply
    ensures { result ≡ withdraw_reply falls number }
{
    if falls {
        SessionReply::WithdrawFell
    } else {
        SessionReply::Withdrew(number)
    }
}

/// The number of a waiting job.
fn waiting_number(session: &Session) -> u32
    ensures { result ≡ waiting_number session.now }
{
    match session {
        Session::Climb(pending) => pending.number,
        _ => 0,
    }
}

/// The outcome of the last number of a ready worker.
fn ready_receipt(session: &Session) -> Option<Receipt>
    ensures { result ≡ ready_receipt session.now }
{
    match session {
        Session::Ready(ready) => ready.last,
        _ => None,
    }
}

/// The pending job of a worker that waits or is inside.
fn pending_job(session: &Session) -> PendingJob
    requires { HasDraft session.now }
    ensures { PendingOrderEffect session.now result }
{
    match session {
        Session::Climb(pending) => told_job(pending, SessionStance::Climb),
        Session::Held(pending) => told_job(pending, SessionStance::Held),
        Session::Nobody | Session::Ready(_) => unreachable!(),
    }
}

/// A pending job, with the stance of its worker.
fn told_job(pending: &PendingWorker, stance: SessionStance) -> PendingJob
    requires { IsSome pending.now.draft }
    ensures { IsPendingJob pending.now stance result }
{
    let Some(job) = pending.draft else {
        unreachable!();
    };
    PendingJob {
        number: pending.number,
        job,
        stance,
    }
}

/// Releases a worker: it crashes.
pub(crate) fn detach(world: &mut World, worker: u32) -> AppliedOrder
    requires rests { IsAtRest world.old worker }
    ensures carries { (planned : PlannedCrash)
        → AppliesOrder world.old (Some worker) planned word.Detach result world.new }
    ensures nobody { result.seat ≡ None }
{
    recall_invariant(world, worker);
    crash_worker(world, worker);
    AppliedOrder {
        reply: SessionReply::Detached,
        seat: None,
        planned: PlannedCrash::Nothing,
        batch: Some(EventBatch {
            worker,
            begins: BatchStart::GoOn,
            steps: 0,
            falls: true,
        }),
    }
}

/// An order without events.
fn unchanged_order(worker: u32, planned: PlannedCrash, reply: SessionReply) -> AppliedOrder
    ensures { result ≡ unchanged_order worker planned reply }
{
    AppliedOrder {
        reply,
        seat: Some(worker),
        planned,
        batch: None,
    }
}

/// An order with which a worker worked, and perhaps crashed.
fn worked_order(
    worker: u32,
    begins: BatchStart,
    worked: WorkedJob,
    reply: SessionReply,
) -> AppliedOrder
    ensures { result ≡ worked_order worker begins worked reply }
{
    let seat = if worked.falls { None } else { Some(worker) };
    AppliedOrder {
        reply,
        seat,
        planned: worked.left,
        batch: Some(EventBatch {
            worker,
            begins,
            steps: worked.steps,
            falls: worked.falls,
        }),
    }
}

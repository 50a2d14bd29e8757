//! Sessions over a world: two clients in turn, and planned crashes.

ghost use Rattle.std.specs.Prelude.{◌≡◌, ◌<◌, ◌↔◌, ℕ, IfOk, IfSome, None, Some, slice_get, true};
ghost use Rattle.rme_session_protocol.specs.Attempts.{is_still_waiting};
ghost use Rattle.rme_session_world.specs.AppliedOrders.{IsOrderWorker, IsSessionStopped};
ghost use Rattle.rme_session_world.specs.Executors.{is_worker_taken, owned_worker};

use rme_program::Receipt;
use rme_script::{Job, Op, Script};
use rme_session_protocol::{
    Attachment, FencingToken, JobOutcome, Order, Patience, PendingJob, SessionReply, SessionStance,
    Submission, WorkerChoice,
};
use rme_session_world::{ExecutedOrder, Executor, SessionState};
use rme_words::{NoMemory, Refusal, Shape};
use rme_world::World;
use std::alloc::Global;
use std::process::Abort;
use std::test::Fail;

/// An executor over a new world of two workers, one lock and one cell.
fn new_world_executor(alloc: Global) -> Result<Executor, Refusal> {
    let shape = Shape::new(2, 1, 1, 10)?;
    let Ok(world) = World::new(alloc, shape) else {
        return Err(Refusal::NoMemory);
    };
    match executor_over(alloc, world) {
        Ok(executor) => Ok(executor),
        Err(_) => Err(Refusal::NoMemory),
    }
}

/// An executor over a world: every worker is down.
fn executor_over(alloc: Global, world: World) -> Result<Executor, NoMemory>
    ensures { (worker : ℕ) → worker < world.shape.workers
        → IfOk result (λ executor. slice_get executor.world.privates worker ≡ Some None) }
{
    Executor::new(alloc, world)
}

fn attach(worker: u32) -> Order {
    Order::Attach(Attachment {
        worker,
        take: false,
        after: None,
        label: None,
    })
}

/// The first job of a worker: to add this amount to the cell.
fn adding(amount: u64) -> Submission {
    Submission {
        number: 1,
        job: Job {
            lock: 0,
            script: Script::of(&[Op::Add(0, amount)]),
        },
        patience: Patience::Tries(1),
    }
}

/// The receipt of the first job of a worker.
fn receipt(worker: u32, place: u32, reply: u64) -> JobOutcome {
    JobOutcome::Receipt(Receipt {
        worker,
        lock: 0,
        number: 1,
        place,
        reply,
    })
}

/// Executes an order of a session. Its events are of the session's worker, or of the one to attach; `Taken` answers
/// exactly where another session has that one; and a job that waits is blocked.
fn execute(
    executor: &mut Executor,
    session: &mut SessionState,
    order: &Order,
) -> Result<ExecutedOrder, NoMemory>
    ensures own { IfOk result (λ done. IfSome done.batch
        (λ batch. IsOrderWorker (owned_worker executor.old session.old) order.now batch.worker)) }
    ensures taken { IfOk result (λ done. (done.reply ≡ SessionReply.Refused Refusal.Taken)
        ↔ (is_worker_taken executor.old (owned_worker executor.old session.old) order.now ≡ true)) }
    ensures waits { IfOk result (λ done. is_still_waiting done.reply ≡ true
        → IsSessionStopped executor.new.world (owned_worker executor.new session.new)) }
{
    let view = executor.session(session);
    executor.execute(session, &view, order)
}

/// A session, by its place in a list of two; its order; and the reply that it must have.
type OrderAndReply = (usize, Order, SessionReply);

fn new_sessions() -> [SessionState; 2] {
    [SessionState::new(1), SessionState::new(2)]
}

/// Plays these exchanges in turn.
fn play(
    rt: &impl Abort,
    executor: &mut Executor,
    sessions: &mut [SessionState; 2],
    exchanges: &[OrderAndReply],
) -> Result<(), NoMemory> {
    for (session, order, wanted) in exchanges {
        assert!(rt; *session < 2);
        let done = execute(executor, &mut sessions[*session], order)?;
        assert!(rt; done.reply == *wanted);
    }
    Ok(())
}

const READY: SessionReply = SessionReply::Attached(0, SessionStance::Ready);

const HELD: SessionReply = SessionReply::Attached(1, SessionStance::Held);

/// A worker is inside with its first job, in this section of the lock. A world counts no lives.
fn inside_in(section: u32) -> SessionReply {
    SessionReply::Entered(JobOutcome::Inside(FencingToken {
        lock: 0,
        number: 1,
        section,
        life: 0,
    }))
}

/// One worker is inside while the other waits; then the other is inside.
fn one_after_the_other() -> [OrderAndReply; 7] {
    let waits = SessionReply::Entered(JobOutcome::Waiting);
    let not_inside = SessionReply::Refused(Refusal::NotInside);
    [
        (0, attach(0), READY),
        (0, Order::Enter(adding(5)), inside_in(0)),
        (1, attach(1), READY),
        (1, Order::Enter(adding(1)), waits),
        (1, Order::Commit, not_inside),
        (0, Order::Commit, SessionReply::Committed(receipt(0, 0, 5))),
        (
            1,
            Order::Resume(Patience::Tries(1)),
            SessionReply::Resumed(receipt(1, 1, 6)),
        ),
    ]
}

#[test]
fn inside(rt: HostRuntime) -> Result<(), Fail> {
    let mut executor = new_world_executor(rt.alloc())?;
    let exchanges = one_after_the_other();
    play(&rt, &mut executor, &mut new_sessions(), &exchanges)?;
    Ok(())
}

/// A worker belongs to one session, until that detaches it.
fn taken_worker() -> [OrderAndReply; 3] {
    [
        (0, attach(0), READY),
        (1, attach(0), SessionReply::Refused(Refusal::Taken)),
        (0, Order::Enter(adding(5)), inside_in(0)),
    ]
}

/// Another session finds it inside, and finishes its job.
fn found_inside() -> [OrderAndReply; 2] {
    [
        (1, attach(0), HELD),
        (1, Order::Commit, SessionReply::Committed(receipt(0, 0, 5))),
    ]
}

/// A session that ends detaches its worker, which is still inside then.
#[test]
fn handed_on(rt: HostRuntime) -> Result<(), Fail> {
    let mut executor = new_world_executor(rt.alloc())?;
    let mut sessions = new_sessions();
    play(&rt, &mut executor, &mut sessions, &taken_worker())?;
    assert!(rt; executor.detach_session(&mut sessions[0]).is_some());
    assert!(rt; executor.world().owner(0) == Ok(Some(0)));
    play(&rt, &mut executor, &mut sessions, &found_inside())?;
    Ok(())
}

/// A worker that crashes as planned is still inside.
fn planned_crash() -> [OrderAndReply; 6] {
    [
        (0, attach(0), READY),
        (0, Order::CrashAfter(7), SessionReply::CrashPlanned),
        (0, Order::Enter(adding(5)), inside_in(0)),
        (0, Order::Commit, SessionReply::Committed(JobOutcome::Fell)),
        (0, attach(0), HELD),
        (0, Order::Commit, SessionReply::Committed(receipt(0, 0, 5))),
    ]
}

#[test]
fn planned(rt: HostRuntime) -> Result<(), Fail> {
    let mut executor = new_world_executor(rt.alloc())?;
    play(&rt, &mut executor, &mut new_sessions(), &planned_crash())?;
    Ok(())
}

/// The token is the place of the receipt, also where `enter` is repeated; a ping changes nothing.
fn two_sections() -> [OrderAndReply; 10] {
    [
        (0, Order::Ping, SessionReply::Pong),
        (0, attach(0), READY),
        (0, Order::Enter(adding(5)), inside_in(0)),
        (0, Order::Ping, SessionReply::Pong),
        (0, Order::Enter(adding(5)), inside_in(0)),
        (0, Order::Commit, SessionReply::Committed(receipt(0, 0, 5))),
        (1, attach(1), READY),
        (1, Order::Enter(adding(1)), inside_in(1)),
        (1, Order::Detach, SessionReply::Detached),
        (1, Order::Ping, SessionReply::Pong),
    ]
}

#[test]
fn tokens(rt: HostRuntime) -> Result<(), Fail> {
    let mut executor = new_world_executor(rt.alloc())?;
    assert!(rt; executor.world().finished(0) == Ok(0));
    play(&rt, &mut executor, &mut new_sessions(), &two_sections())?;
    assert!(rt; executor.world().finished(0) == Ok(1));
    assert!(rt; executor.world().finished(1) == Err(Refusal::NoLock));
    Ok(())
}

/// The pending first job of a worker, which adds this amount.
fn pending(amount: u64, stance: SessionStance) -> SessionReply {
    SessionReply::Pending(PendingJob {
        number: 1,
        job: adding(amount).job,
        stance,
    })
}

/// One worker is inside and the other waits; each is told its job.
fn two_pending_jobs() -> [OrderAndReply; 8] {
    let waits = SessionReply::Entered(JobOutcome::Waiting);
    [
        (
            0,
            Order::Pending,
            SessionReply::Refused(Refusal::NotAttached),
        ),
        (0, attach(0), READY),
        (0, Order::Pending, SessionReply::Refused(Refusal::Idle)),
        (0, Order::Enter(adding(5)), inside_in(0)),
        (0, Order::Pending, pending(5, SessionStance::Held)),
        (1, attach(1), READY),
        (1, Order::Enter(adding(1)), waits),
        (1, Order::Pending, pending(1, SessionStance::Climb)),
    ]
}

/// A worker that no session has is chosen by whether it has a pending job.
#[test]
fn pending_jobs(rt: HostRuntime) -> Result<(), Fail> {
    let mut executor = new_world_executor(rt.alloc())?;
    let mut sessions = new_sessions();
    assert!(rt; executor.choose_worker(WorkerChoice::Ready, 2) == Some(0));
    assert!(rt; executor.choose_worker(WorkerChoice::Pending, 2).is_none());
    play(&rt, &mut executor, &mut sessions, &two_pending_jobs())?;
    assert!(rt; executor.choose_worker(WorkerChoice::Ready, 2).is_none());
    assert!(rt; executor.choose_worker(WorkerChoice::Pending, 2).is_none());
    assert!(rt; executor.detach_session(&mut sessions[1]).is_some());
    assert!(rt; executor.choose_worker(WorkerChoice::Pending, 2) == Some(1));
    assert!(rt; executor.choose_worker(WorkerChoice::Pending, 1).is_none());
    assert!(rt; executor.detach_session(&mut sessions[0]).is_some());
    assert!(rt; executor.choose_worker(WorkerChoice::Pending, 2) == Some(0));
    Ok(())
}

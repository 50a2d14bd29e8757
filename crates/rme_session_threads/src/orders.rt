//! The effect of each order of a session, and its answer.

ghost use Rattle.std.specs.Prelude.{◌≡◌, ℕ, Option, None, IfSome, IsSome, true};
ghost use Rattle.rme_service_steps.specs.Parts.{unchanged_part};
ghost use Rattle.rme_table.specs.Calls.{is_section_over};
ghost use Rattle.rme_program.specs.declared.note.Receipt.{Receipt};
ghost use Rattle.rme_session_protocol.specs.declared.reply.SessionReply.TheVariants as reply;
ghost use Rattle.rme_session_protocol.specs.declared.reply.SessionStance.TheVariants as at;
ghost use Rattle.rme_session_protocol.specs.declared.order.Order.TheVariants as order;
ghost use Rattle.rme_session_threads.specs.WorkerSlots.{IsValueOfWorker};
ghost use Rattle.rme_session_threads.specs.Stands.{HasSlot, IsValidHolding, IsValidWorkResult};
ghost use Rattle.rme_session_threads.specs.declared.stand.Holding.TheVariants as spec;
ghost use Rattle.rme_session_protocol.specs.declared.planned_crash.PlannedCrash.TheVariants as planned;
ghost use Rattle.rme_session_threads.specs.SessionWorks.{HasWorkTries, WorkWithinPlan, WorkEffect, WorkSettlement, work_holding, work_lead};
ghost use Rattle.rme_session_threads.specs.Attaching.{AttachAnswer, WorkerExit, WorkerRecovery, KeepsJobAndEntries};
ghost use Rattle.rme_session_protocol.specs.SessionSteps.{TellsLife, TellsSection};
ghost use Rattle.rme_session_threads.specs.Stands.{held_worker, holding_session};
ghost use Rattle.rme_session_threads.specs.JobOutcomes.{HasKnownPlace, TellsWorkerSection, ThreadWaitsAfterTries, WorkerHasSection, holding_steps, outcome_in_life};
ghost use Rattle.rme_session_threads.specs.ThreadSteps.{KeepsLife, OrderLife, stand_change, ThreadOrderExecution, ThreadSessionStep};

use crate::crash_plan::CountdownChance;
use crate::refusal::{
    RefusedOrder, check_attach, check_attached, check_commit, check_last, check_withdraw,
    find_resume_work, find_submit_work, read_pending,
};
use crate::slots::Slots;
use crate::stand::{Holding, Stand};
use crate::work::{SessionWork, WorkResult, perform_work};
use crate::worker_slot::TakenWorker;
use rme_session_protocol::{
    Attachment, Countdown, FencingToken, JobOutcome, Order, Patience, PlannedCrash, SessionReply,
    SessionStance, Submission,
};
use rme_table::{Climb, Down, Held, Leave, Never, Ready, Service, Stance, Tag};
use std::sync::Wait;

/// The session after an order, the answer, and the released worker, if any.
type OrderResult = (Stand, SessionReply, Option<Down>);

/// Executes an order, and answers it as plain data. A refused order changes nothing. A released worker is back in its
/// slot.
///
/// An order that waits for a time makes only one sweep, and one that would take a worker over is refused if another
/// session has the worker: the caller continues the order, or closes that session.
///
/// The answer of a worker that is inside to `Order::Enter` is its fencing token: the number of its lock's finished
/// sections is the place that the job's receipt will have. The token also tells the worker's life: an attachment begins
/// the next one, and is refused `Overtaken` if the worker was restarted since the life that the order has. A ping is
/// answered in any stance, and changes nothing.
pub fn obey<K: Tag, R: Wait>(
    rt: &R,
    stand: Stand,
    order: &Order,
    service: &Service,
    slots: &Slots<K>,
) -> (Stand, SessionReply)
    requires service { service.now ≡ K.ident }
    requires ours { IsValidHolding K.ident slots.now stand.value }
    ensures ours { IsValidHolding K.ident slots.now result.0.value }
    ensures obeys { ThreadSessionStep K.ident slots.now stand order.now result.0 result.1 }
    ensures section { TellsSection (WorkerHasSection K.ident.shape (held_worker result.0.value))
        (holding_session None result.0.value) result.1 }
    ensures life { TellsLife (λ worker life. life ≡ result.0.life) (holding_session None result.0.value) result.1 }
{
    let (stand, reply, gone) = execute_order(rt, stand, order, service, slots);
    return_down(rt, gone, slots);
    (stand, reply)
}

/// Executes an order, except for the return of a released worker.
fn execute_order<K: Tag, R: Wait>(
    rt: &R,
    stand: Stand,
    order: &Order,
    service: &Service,
    slots: &Slots<K>,
) -> OrderResult
    requires service { service.now ≡ K.ident }
    requires ours { IsValidHolding K.ident slots.now stand.value }
    ensures ours { IsValidHolding K.ident slots.now result.0.value }
    ensures slot { IfSome result.2 (HasSlot K.ident slots.now) }
    ensures acts { ThreadOrderExecution K.ident slots.now (stand_change stand result.0 result.2) order.now result.1 }
    ensures life { OrderLife order.now stand result.0 result.1 }
{
    match order {
        Order::Attach(asked) => attach(rt, stand, *asked, service, slots),
        Order::Submit(submission) => submit(stand, submission, service, slots),
        Order::Resume(patience) => resume(stand, *patience, service, slots),
        Order::Enter(submission) => enter(stand, submission, service, slots),
        Order::Commit => commit(stand, service, slots),
        Order::Withdraw => withdraw(stand, service, slots),
        Order::Last => answer_last(stand, service, slots),
        Order::CrashAfter(steps) => plan_crash(stand, *steps, slots),
        Order::Detach => detach(stand, slots),
        Order::Ping => (stand, SessionReply::Pong, None),
        Order::Pending => answer_pending(stand, service, slots),
    }
}

/// Ends a session: the worker that it holds crashes, and its Down goes back to its slot.
pub fn detach_session<K: Tag, R: Wait>(rt: &R, stand: Stand, slots: &Slots<K>)
    requires ours { IsValidHolding K.ident slots.now stand.value }
{
    return_down(rt, stand.crash(), slots);
}

/// Puts the Down of a released worker into its slot.
fn return_down<K: Tag, R: Wait>(rt: &R, gone: Option<Down>, slots: &Slots<K>)
    requires slot { IfSome gone (HasSlot K.ident slots.now) }
{
    if let Some(down) = gone {
        slots.give(rt, down);
    }
}

/// A refused order leaves the session unchanged.
fn refuse_order(refused: RefusedOrder, planned: PlannedCrash, life: u64) -> OrderResult
    ensures { (result.0 ≡ record { value = refused.0; planned = planned; life = life })
        × (result.1 ≡ reply.Refused refused.1) × (result.2 ≡ None) }
{
    let (value, why) = refused;
    let stand = Stand {
        value,
        planned,
        life,
    };
    (stand, SessionReply::Refused(why), None)
}

/// Submits a job to the worker, or continues the one that it has.
fn submit<K: Tag>(
    stand: Stand,
    submission: &Submission,
    service: &Service,
    slots: &Slots<K>,
) -> OrderResult
    requires service { service.now ≡ K.ident }
    requires ours { IsValidHolding K.ident slots.now stand.value }
    ensures ours { IsValidHolding K.ident slots.now result.0.value }
    ensures slot { IfSome result.2 (HasSlot K.ident slots.now) }
    ensures acts { ThreadOrderExecution K.ident slots.now
        (stand_change stand result.0 result.2) (order.Submit submission.now) result.1 }
    ensures life { KeepsLife stand result.0 }
{
    let Stand {
        value,
        planned,
        life,
    } = stand;
    let work = match find_submit_work(value, submission, service) {
        Ok(work) => work,
        Err(refused) => return refuse_order(refused, planned, life),
    };
    let (stand, outcome, gone) = run_work(work, planned, life, service, slots);
    (stand, SessionReply::Submitted(outcome), gone)
}

/// Continues the worker's job.
fn resume<K: Tag>(
    stand: Stand,
    patience: Patience,
    service: &Service,
    slots: &Slots<K>,
) -> OrderResult
    requires service { service.now ≡ K.ident }
    requires ours { IsValidHolding K.ident slots.now stand.value }
    ensures ours { IsValidHolding K.ident slots.now result.0.value }
    ensures slot { IfSome result.2 (HasSlot K.ident slots.now) }
    ensures acts { ThreadOrderExecution K.ident slots.now
        (stand_change stand result.0 result.2) (order.Resume patience) result.1 }
    ensures life { KeepsLife stand result.0 }
{
    let Stand {
        value,
        planned,
        life,
    } = stand;
    let work = match find_resume_work(value, patience) {
        Ok(work) => work,
        Err(refused) => return refuse_order(refused, planned, life),
    };
    let (stand, outcome, gone) = run_work(work, planned, life, service, slots);
    (stand, SessionReply::Resumed(outcome), gone)
}

/// Submits a job to the worker, or continues the one that it has, until the worker is inside.
fn enter<K: Tag>(
    stand: Stand,
    submission: &Submission,
    service: &Service,
    slots: &Slots<K>,
) -> OrderResult
    requires service { service.now ≡ K.ident }
    requires ours { IsValidHolding K.ident slots.now stand.value }
    ensures ours { IsValidHolding K.ident slots.now result.0.value }
    ensures slot { IfSome result.2 (HasSlot K.ident slots.now) }
    ensures acts { ThreadOrderExecution K.ident slots.now
        (stand_change stand result.0 result.2) (order.Enter submission.now) result.1 }
    ensures life { OrderLife (order.Enter submission.now) stand result.0 result.1 }
{
    let Stand {
        value,
        planned,
        life,
    } = stand;
    let work = match find_submit_work(value, submission, service) {
        Ok(work) => work.until_inside(),
        Err(refused) => return refuse_order(refused, planned, life),
    };
    let (stand, outcome, gone) = run_work(work, planned, life, service, slots);
    (stand, SessionReply::Entered(tell_life(outcome, life)), gone)
}

/// The outcome of a job, with the life of its worker in a token.
fn tell_life(outcome: JobOutcome, life: u64) -> JobOutcome
    ensures { result ≡ outcome_in_life life outcome }
{
    match outcome {
        JobOutcome::Inside(token) => JobOutcome::Inside(FencingToken { life, ..token }),
        outcome => outcome,
    }
}

/// Executes the section of the job that the worker is inside with, and the exit.
fn commit<K: Tag>(stand: Stand, service: &Service, slots: &Slots<K>) -> OrderResult
    requires service { service.now ≡ K.ident }
    requires ours { IsValidHolding K.ident slots.now stand.value }
    ensures ours { IsValidHolding K.ident slots.now result.0.value }
    ensures slot { IfSome result.2 (HasSlot K.ident slots.now) }
    ensures acts { ThreadOrderExecution K.ident slots.now (stand_change stand result.0 result.2) order.Commit result.1 }
    ensures life { KeepsLife stand result.0 }
{
    let Stand {
        value,
        planned,
        life,
    } = stand;
    let held = match check_commit(value) {
        Ok(held) => held,
        Err(refused) => return refuse_order(refused, planned, life),
    };
    let (stand, outcome, gone) = run_work(SessionWork::GoOn(held), planned, life, service, slots);
    (stand, SessionReply::Committed(outcome), gone)
}

/// Executes the worker's work. A worker that crashed is released.
#[inline(always)]
fn run_work<K: Tag>(
    work: SessionWork<'_>,
    planned: PlannedCrash,
    life: u64,
    service: &Service,
    slots: &Slots<K>,
) -> (Stand, JobOutcome, Option<Down>)
    requires service { service.now ≡ K.ident }
    requires ours { IsValidHolding K.ident slots.now (work_holding work) }
    ensures ours { IsValidHolding K.ident slots.now result.0.value }
    ensures slot { IfSome result.2 (HasSlot K.ident slots.now) }
    ensures did { WorkEffect service.now.shape work.entry result.0.value result.1
        × WorkWithinPlan service.now.shape (work_lead work.entry)
        (record { value = work_holding work.entry; planned = planned; life = life }) result.0 result.1 result.2 }
    ensures life { IsSome (held_worker result.0.value) → result.0.life ≡ life }
    ensures tried { (most : ℕ) → HasWorkTries most work.entry
        → ThreadWaitsAfterTries most (holding_steps (work_holding work.entry)) result.0.value result.1 }
    ensures told { TellsWorkerSection service.now.shape result.0.value (reply.Entered result.1) }
    ensures place { HasKnownPlace (work_holding work.entry) result.1 }
{
    let mut counting = CountdownChance {
        countdown: Countdown::Runs(planned),
    };
    let worked = perform_work(work, &mut counting, service);
    finish_work(worked, counting.countdown.remaining(), life, slots)
}

/// The session after work: a worker that crashed is released, and its plan is used up.
#[inline(always)]
fn finish_work<K: Tag>(
    worked: Result<WorkResult, Down>,
    planned: PlannedCrash,
    life: u64,
    slots: &Slots<K>,
) -> (Stand, JobOutcome, Option<Down>)
    requires ours { IsValidWorkResult K.ident slots.now worked }
    ensures ours { IsValidHolding K.ident slots.now result.0.value }
    ensures slot { IfSome result.2 (HasSlot K.ident slots.now) }
    ensures settles { WorkSettlement worked planned life result.0 result.1 result.2 }
    ensures life { IsSome (held_worker result.0.value) → result.0.life ≡ life }
{
    let (value, outcome) = match worked {
        Ok(worked) => worked,
        Err(down) => return (Stand::empty(), JobOutcome::Fell, Some(down)),
    };
    let stand = Stand {
        value,
        planned,
        life,
    };
    (stand, outcome, None)
}

/// Takes the worker out of its slot. Its recovery cannot be interrupted: no crash is planned yet.
fn attach<K: Tag, R: Wait>(
    rt: &R,
    stand: Stand,
    asked: Attachment,
    service: &Service,
    slots: &Slots<K>,
) -> OrderResult
    requires service { service.now ≡ K.ident }
    requires ours { IsValidHolding K.ident slots.now stand.value }
    ensures ours { IsValidHolding K.ident slots.now result.0.value }
    ensures slot { IfSome result.2 (HasSlot K.ident slots.now) }
    ensures acts { ThreadOrderExecution K.ident slots.now
        (stand_change stand result.0 result.2) (order.Attach asked) result.1 }
    ensures life { OrderLife (order.Attach asked) stand result.0 result.1 }
{
    let Stand {
        value,
        planned,
        life,
    } = stand;
    match check_attach(value, asked.worker, service.shape()) {
        Ok(()) => {}
        Err(refused) => return refuse_order(refused, planned, life),
    }
    let taken = match slots.take(rt, asked.worker, asked.after) {
        Ok(taken) => taken,
        Err(why) => return refuse_order((Holding::Empty, why), planned, life),
    };
    let TakenWorker { down, life } = taken;
    let (value, reply) = recover_worker(down, service);
    let stand = Stand {
        value,
        planned: PlannedCrash::Nothing,
        life,
    };
    (stand, reply, None)
}

/// Recovers the worker, and makes it ready if its job was finished before its crash.
fn recover_worker(down: Down, service: &Service) -> (Holding, SessionReply)
    requires ours { down.ident ≡ service.now }
    ensures answers { AttachAnswer down.ident down.part.worker result.0 result.1 }
    ensures keeps { WorkerRecovery service.now.shape down result.0 }
{
    match down.recover(service, &mut Never) {
        Ok(Stance::Ready(ready)) => attach_ready(ready),
        Ok(Stance::Climb(climb)) => attach_waiting(climb),
        Ok(Stance::Held(held)) => attach_inside(held, service),
        Ok(Stance::Leave(leave)) => attach_ready(exit_now(leave, service)),
        Err(_) => unreachable!(),
    }
}

fn attach_ready(ready: Ready) -> (Holding, SessionReply)
    ensures { (result.0 ≡ spec.Ready ready) × (result.1 ≡ reply.Attached ready.part.private.begun at.Ready) }
{
    let number = ready.number();
    (
        Holding::Ready(ready),
        SessionReply::Attached(number, SessionStance::Ready),
    )
}

fn attach_waiting(climb: Climb) -> (Holding, SessionReply)
    ensures { (result.0 ≡ spec.Climb climb) × (result.1 ≡ reply.Attached climb.part.private.begun at.Climb) }
{
    let number = climb.number();
    (
        Holding::Climb(climb),
        SessionReply::Attached(number, SessionStance::Climb),
    )
}

/// A worker whose job was finished before its crash is made ready at once.
fn attach_inside(held: Held, service: &Service) -> (Holding, SessionReply)
    requires ours { held.ident ≡ service.now }
    ensures answers { AttachAnswer held.ident held.part.worker result.0 result.1 }
    ensures keeps { WorkerExit service.now.shape held result.0 }
{
    if held.finished() {
        return attach_ready(finish_and_exit(held, service));
    }
    let number = held.number();
    (
        Holding::Held(held),
        SessionReply::Attached(number, SessionStance::Held),
    )
}

/// Makes a worker with a finished job ready.
fn finish_and_exit(held: Held, service: &Service) -> Ready
    requires ours { held.ident ≡ service.now }
    requires over { is_section_over held.part.private.stage ≡ true }
    ensures own { IsValueOfWorker held.ident held.part.worker result }
    ensures keeps { KeepsJobAndEntries service.now.shape unchanged_part held result }
{
    match held.perform(service, &mut Never) {
        Ok((leave, _)) => exit_now(leave, service),
        Err(_) => unreachable!(),
    }
}

/// Releases the nodes of a worker whose job is finished.
fn exit_now(leave: Leave, service: &Service) -> Ready
    requires ours { leave.ident ≡ service.now }
    ensures own { IsValueOfWorker leave.ident leave.part.worker result }
    ensures keeps { KeepsJobAndEntries service.now.shape unchanged_part leave result }
{
    match leave.exit(service, &mut Never) {
        Ok(ready) => ready,
        Err(_) => unreachable!(),
    }
}

/// Withdraws the waiting job.
fn withdraw<K: Tag>(stand: Stand, service: &Service, slots: &Slots<K>) -> OrderResult
    requires service { service.now ≡ K.ident }
    requires ours { IsValidHolding K.ident slots.now stand.value }
    ensures ours { IsValidHolding K.ident slots.now result.0.value }
    ensures slot { IfSome result.2 (HasSlot K.ident slots.now) }
    ensures acts { ThreadOrderExecution K.ident slots.now
        (stand_change stand result.0 result.2) order.Withdraw result.1 }
    ensures life { KeepsLife stand result.0 }
{
    let Stand {
        value,
        planned,
        life,
    } = stand;
    let climb = match check_withdraw(value) {
        Ok(climb) => climb,
        Err(refused) => return refuse_order(refused, planned, life),
    };
    let mut counting = CountdownChance {
        countdown: Countdown::Runs(planned),
    };
    match climb.withdraw(service, &mut counting) {
        Ok(ready) => {
            let number = ready.number();
            let stand = Stand {
                value: Holding::Ready(ready),
                planned: counting.countdown.remaining(),
                life,
            };
            (stand, SessionReply::Withdrew(number), None)
        }
        Err(down) => (Stand::empty(), SessionReply::WithdrawFell, Some(down)),
    }
}

/// Answers the last receipt.
fn answer_last<K: Tag>(stand: Stand, service: &Service, slots: &Slots<K>) -> OrderResult
    requires service { service.now ≡ K.ident }
    requires ours { IsValidHolding K.ident slots.now stand.value }
    ensures ours { IsValidHolding K.ident slots.now result.0.value }
    ensures slot { IfSome result.2 (HasSlot K.ident slots.now) }
    ensures acts { ThreadOrderExecution K.ident slots.now (stand_change stand result.0 result.2) order.Last result.1 }
    ensures life { KeepsLife stand result.0 }
{
    let Stand {
        value,
        planned,
        life,
    } = stand;
    let mut ready = match check_last(value) {
        Ok(ready) => ready,
        Err(refused) => return refuse_order(refused, planned, life),
    };
    let last = ready.last(service);
    let stand = Stand {
        value: Holding::Ready(ready),
        planned,
        life,
    };
    (stand, SessionReply::Last(last), None)
}

/// Answers the pending job.
fn answer_pending<K: Tag>(stand: Stand, service: &Service, slots: &Slots<K>) -> OrderResult
    requires service { service.now ≡ K.ident }
    requires ours { IsValidHolding K.ident slots.now stand.value }
    ensures ours { IsValidHolding K.ident slots.now result.0.value }
    ensures slot { IfSome result.2 (HasSlot K.ident slots.now) }
    ensures acts { ThreadOrderExecution K.ident slots.now
        (stand_change stand result.0 result.2) order.Pending result.1 }
    ensures life { KeepsLife stand result.0 }
{
    let Stand {
        value,
        planned,
        life,
    } = stand;
    let (value, told) = match read_pending(value, service) {
        Ok(found) => found,
        Err(refused) => return refuse_order(refused, planned, life),
    };
    let stand = Stand {
        value,
        planned,
        life,
    };
    (stand, SessionReply::Pending(told), None)
}

/// Plans the worker's crash.
fn plan_crash<K: Tag>(stand: Stand, steps: u32, slots: &Slots<K>) -> OrderResult
    requires ours { IsValidHolding K.ident slots.now stand.value }
    ensures ours { IsValidHolding K.ident slots.now result.0.value }
    ensures slot { IfSome result.2 (HasSlot K.ident slots.now) }
    ensures acts { ThreadOrderExecution K.ident slots.now
        (stand_change stand result.0 result.2) (order.CrashAfter steps) result.1 }
    ensures life { KeepsLife stand result.0 }
{
    let Stand {
        value,
        planned,
        life,
    } = stand;
    let value = match check_attached(value) {
        Ok(value) => value,
        Err(refused) => return refuse_order(refused, planned, life),
    };
    let stand = Stand {
        value,
        planned: PlannedCrash::After(steps),
        life,
    };
    (stand, SessionReply::CrashPlanned, None)
}

/// Releases the worker.
fn detach<K: Tag>(stand: Stand, slots: &Slots<K>) -> OrderResult
    requires ours { IsValidHolding K.ident slots.now stand.value }
    ensures ours { IsValidHolding K.ident slots.now result.0.value }
    ensures slot { IfSome result.2 (HasSlot K.ident slots.now) }
    ensures acts { ThreadOrderExecution K.ident slots.now (stand_change stand result.0 result.2) order.Detach result.1 }
    ensures life { KeepsLife stand result.0 }
{
    let Stand {
        value,
        planned,
        life,
    } = stand;
    match check_attached(value) {
        Ok(value) => {
            let stand = Stand {
                value,
                planned,
                life,
            };
            let gone = stand.crash();
            (Stand::empty(), SessionReply::Detached, gone)
        }
        Err(refused) => refuse_order(refused, planned, life),
    }
}

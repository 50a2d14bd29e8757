//! Sessions in turn, which attach one worker.

ghost use Rattle.std.specs.Prelude.{◌≡◌, ◌≤◌, IfOk};
ghost use Rattle.rme_program.specs.declared.note.Receipt.{Receipt};
ghost use Rattle.rme_service_steps.specs.Closing.{SeatsAreOfService};
ghost use Rattle.rme_session_protocol.specs.declared.reply.FencingToken.{FencingToken};
ghost use Rattle.rme_session_protocol.specs.declared.reply.JobOutcome.TheVariants as outcome;
ghost use Rattle.rme_session_protocol.specs.declared.reply.SessionReply.TheVariants as reply;
ghost use Rattle.rme_session_threads.specs.Stands.{IsValidHolding};
ghost use Rattle.rme_session_threads.specs.WorkerSlots.{AreDownsInPlace};
ghost use Rattle.rme_test_server.specs.Fencing.{IsFencedReceipt};

use rme_program::Receipt;
use rme_script::{Job, Op, Script};
use rme_session_protocol::{
    Attachment, FencingToken, JobOutcome, Order, Patience, SessionReply, SessionStance, Submission,
};
use rme_session_threads::{Slots, Stand, detach_session, obey};
use rme_table::{Down, Service, Tag};
use rme_words::{Refusal, Shape};
use std::alloc::Global;
use std::marker::Brand;
use std::process::Abort;
use std::sync::Wait;
use std::test::Fail;

/// Attaches worker 0, if it was not restarted since this life.
fn attach(after: Option<u64>) -> Order {
    Order::Attach(Attachment {
        worker: 0,
        take: false,
        after,
        label: None,
    })
}

/// The job of worker 0 with this number.
fn job(number: u64) -> Submission {
    Submission {
        number,
        job: Job {
            lock: 0,
            script: Script::of(&[Op::Add(0, 5)]),
        },
        patience: Patience::Tries(1),
    }
}

/// The token of the job with this number, in this life. The job before it was the only other one.
fn inside(number: u32, life: u64) -> SessionReply
    requires { 1 ≤ number }
{
    SessionReply::Entered(JobOutcome::Inside(FencingToken {
        lock: 0,
        number,
        section: number - 1,
        life,
    }))
}

/// Enters, and commits at once. The receipt is that of the token.
fn enter_and_commit<K: Tag, R: Wait>(
    rt: &R,
    stand: Stand,
    submission: Submission,
    service: &Service,
    slots: &Slots<K>,
) -> (Stand, SessionReply, SessionReply)
    requires service { service.now ≡ K.ident }
    requires ours { IsValidHolding K.ident slots.now stand.value }
    ensures ours { IsValidHolding K.ident slots.now result.0.value }
    ensures fenced { (token : FencingToken) (receipt : Receipt)
        → result.1 ≡ reply.Entered (outcome.Inside token) → result.2 ≡ reply.Committed (outcome.Receipt receipt)
        → IsFencedReceipt stand.life token receipt }
{
    let (stand, entered) = obey(rt, stand, &Order::Enter(submission), service, slots);
    let (stand, committed) = obey(rt, stand, &Order::Commit, service, slots);
    (stand, entered, committed)
}

/// The first session is inside, and ends.
fn live_once<K: Tag, R: Abort + Wait>(rt: &R, service: &Service, slots: &Slots<K>)
    requires service { service.now ≡ K.ident }
{
    let (stand, told) = obey(rt, Stand::empty(), &attach(Some(0)), service, slots);
    assert!(rt; told == SessionReply::Attached(0, SessionStance::Ready));
    let (stand, told) = obey(rt, stand, &Order::Enter(job(1)), service, slots);
    assert!(rt; told == inside(1, 1));
    assert!(rt; stand.life == 1);
    detach_session(rt, stand, slots);
}

/// The second one goes on with the job in the worker's next life.
fn live_again<K: Tag, R: Abort + Wait>(rt: &R, service: &Service, slots: &Slots<K>)
    requires service { service.now ≡ K.ident }
{
    let (stand, told) = obey(rt, Stand::empty(), &attach(Some(1)), service, slots);
    assert!(rt; told == SessionReply::Attached(1, SessionStance::Held));
    let (stand, told) = obey(rt, stand, &Order::Enter(job(1)), service, slots);
    assert!(rt; told == inside(1, 2));
    come_back(rt, service, slots);
    let (stand, told) = obey(rt, stand, &Order::Commit, service, slots);
    assert!(rt; told == committed(1));
    assert!(rt; stand.life == 2);
    detach_session(rt, stand, slots);
}

/// A third session does the next job.
fn live_on<K: Tag, R: Abort + Wait>(rt: &R, service: &Service, slots: &Slots<K>)
    requires service { service.now ≡ K.ident }
{
    let (stand, told) = obey(rt, Stand::empty(), &attach(Some(2)), service, slots);
    assert!(rt; told == SessionReply::Attached(1, SessionStance::Ready));
    let (stand, entered, told) = enter_and_commit(rt, stand, job(2), service, slots);
    assert!(rt; entered == inside(2, 3) && told == committed(2));
    detach_session(rt, stand, slots);
}

/// Meanwhile the first client comes back, which was overtaken; a client that was not is told that the worker is taken.
fn come_back<K: Tag, R: Abort + Wait>(rt: &R, service: &Service, slots: &Slots<K>)
    requires service { service.now ≡ K.ident }
{
    let (stand, told) = obey(rt, Stand::empty(), &attach(Some(1)), service, slots);
    assert!(rt; told == SessionReply::Refused(Refusal::Overtaken));
    let (stand, told) = obey(rt, stand, &attach(Some(2)), service, slots);
    assert!(rt; told == SessionReply::Refused(Refusal::Taken));
    let (stand, told) = obey(rt, stand, &attach(None), service, slots);
    assert!(rt; told == SessionReply::Refused(Refusal::Taken));
    assert!(rt; stand.life == 0);
    detach_session(rt, stand, slots);
}

/// The receipt of the first or of the second job.
fn committed(number: u32) -> SessionReply
    requires { 1 ≤ number }
{
    SessionReply::Committed(JobOutcome::Receipt(Receipt {
        worker: 0,
        lock: 0,
        number,
        place: number - 1,
        reply: 5 * u64::from(number),
    }))
}

/// The same over new slots. A worker that is taken by hand begins a life as well.
fn take_and_live<K: Tag, R: Abort + Wait>(
    rt: &R,
    service: &Service,
    slots: Slots<K>,
) -> Result<Vec<Down>, Fail>
    requires service { service.now ≡ K.ident }
    ensures ours { IfOk result (λ downs. SeatsAreOfService service.now downs.items) }
{
    live_once(rt, service, &slots);
    live_again(rt, service, &slots);
    live_on(rt, service, &slots);
    assert!(rt; slots.take(rt, 9, None).err() == Some(Refusal::NoWorker));
    assert!(rt; slots.take(rt, 0, Some(2)).err() == Some(Refusal::Overtaken));
    match slots.take(rt, 0, Some(3)) {
        Ok(taken) => {
            assert!(rt; taken.life == 4);
            slots.give(rt, taken.down);
        }
        Err(_) => panic!(rt; "the worker is not free"),
    }
    match slots.into_downs(rt) {
        Ok(downs) => Ok(downs),
        Err(_) => panic!(rt; "no room for the Downs"),
    }
}

/// The service and its Downs, in slots.
fn in_slots<K: Tag, R: Abort + Wait>(
    rt: &R,
    alloc: Global,
    service: &Service,
    downs: Vec<Down>,
) -> Result<Vec<Down>, Fail>
    requires named { service.now ≡ K.ident }
    requires all { AreDownsInPlace service.now downs.items }
    ensures ours { IfOk result (λ downs. SeatsAreOfService service.now downs.items) }
{
    let Ok(slots) = Slots::<K>::new(rt, alloc, downs) else {
        panic!(rt; "no room for the slots");
    };
    take_and_live(rt, service, slots)
}

#[test]
fn lives_rise(rt: HostRuntime) -> Result<(), Fail> {
    let (service, downs) = Service::new(rt.alloc(), Shape::new(2, 1, 1, 10)?)?;
    let downs = in_slots::<Brand, HostRuntime>(&rt, rt.alloc(), &service, downs)?;
    let Ok(closed) = service.close(downs) else {
        panic!(rt; "the service was not closed");
    };
    assert!(rt; closed.locks[0].cells.as_slice() == [10].as_slice());
    Ok(())
}

//! Each call of the service's values, with its expected answer.

ghost use Rattle.std.specs.Prelude.{◌≡◌, IfOk};
ghost use Rattle.rme.specs.Closing.{SeatsAreOfService};
ghost use Rattle.rme.specs.Calls.{is_section_over};

use crate::service::chances::ScriptedChance;
use crate::test_values::{ReceiptNumbers, receipt};
use rme::service::{Climb, Closed, Down, Held, Leave, Posted, Ready, Service, Stance, Sweep};
use rme::{Job, Receipt};
use std::alloc::Global;
use std::process::Abort;
use std::test::Fail;

/// The next of the Downs, beginning with the last worker's.
pub fn next(rt: &impl Abort, service: &Service, downs: &mut Vec<Down>) -> Down
    requires ours { SeatsAreOfService service.now downs.old.items }
    ensures ours { result.ident ≡ service.now }
    ensures rest { SeatsAreOfService service.now downs.new.items }
{
    let Some(down) = downs.pop() else {
        panic!(rt; "no Down is left");
    };
    down
}

/// Two Downs as a list.
pub fn both(alloc: Global, service: &Service, first: Down, second: Down) -> Result<Vec<Down>, Fail>
    requires first { first.ident ≡ service.now }
    requires second { second.ident ≡ service.now }
    ensures { IfOk result (λ downs. SeatsAreOfService service.now downs.items) }
{
    let mut downs = Vec::with_capacity(alloc, 2)?;
    downs.push_reserved(first);
    downs.push_reserved(second);
    Ok(downs)
}

/// The worker recovers, and must be ready.
pub fn come_up(
    rt: &impl Abort,
    service: &Service,
    down: Down,
    chance: &mut ScriptedChance<'_>,
) -> Ready
    requires ours { down.ident ≡ service.now }
    ensures ours { result.ident ≡ service.now }
{
    match down.recover(service, chance) {
        Ok(Stance::Ready(ready)) => ready,
        _ => panic!(rt; "it is not ready"),
    }
}

/// The job is posted, and must be accepted.
pub fn ask(
    rt: &impl Abort,
    service: &Service,
    ready: Ready,
    job: Job,
    chance: &mut ScriptedChance<'_>,
) -> Climb
    requires ours { ready.ident ≡ service.now }
    ensures ours { result.ident ≡ service.now }
{
    match ready.post(service, job, chance) {
        Posted::Asked(climb) => climb,
        _ => panic!(rt; "it was not asked for"),
    }
}

/// A sweep, which must end with the lock.
pub fn enter(
    rt: &impl Abort,
    service: &Service,
    climb: Climb,
    chance: &mut ScriptedChance<'_>,
) -> Held
    requires ours { climb.ident ≡ service.now }
    ensures ours { result.ident ≡ service.now }
{
    match climb.try_enter(service, chance) {
        Sweep::Got(held) => held,
        _ => panic!(rt; "it did not enter"),
    }
}

/// A sweep, which must be blocked.
pub fn meet(
    rt: &impl Abort,
    service: &Service,
    climb: Climb,
    chance: &mut ScriptedChance<'_>,
) -> Climb
    requires ours { climb.ident ≡ service.now }
    ensures ours { result.ident ≡ service.now }
{
    match climb.try_enter(service, chance) {
        Sweep::Blocked(climb) => climb,
        _ => panic!(rt; "it was not blocked"),
    }
}

/// The job is performed, and must have this receipt.
pub fn perform(
    rt: &impl Abort,
    service: &Service,
    held: Held,
    expected: ReceiptNumbers,
    chance: &mut ScriptedChance<'_>,
) -> Leave
    requires ours { held.ident ≡ service.now }
    ensures ours { result.ident ≡ service.now }
{
    match held.perform(service, chance) {
        Ok((leave, found)) => {
            assert!(rt; found == receipt(expected));
            leave
        }
        _ => panic!(rt; "it fell"),
    }
}

/// The worker leaves, and must be ready then.
pub fn exit(
    rt: &impl Abort,
    service: &Service,
    leave: Leave,
    chance: &mut ScriptedChance<'_>,
) -> Ready
    requires ours { leave.ident ≡ service.now }
    ensures ours { result.ident ≡ service.now }
{
    match leave.exit(service, chance) {
        Ok(ready) => ready,
        _ => panic!(rt; "it fell"),
    }
}

/// The job is withdrawn, and the worker must be ready then.
pub fn give_up(
    rt: &impl Abort,
    service: &Service,
    climb: Climb,
    chance: &mut ScriptedChance<'_>,
) -> Ready
    requires ours { climb.ident ≡ service.now }
    ensures ours { result.ident ≡ service.now }
{
    match climb.withdraw(service, chance) {
        Ok(ready) => ready,
        _ => panic!(rt; "it fell"),
    }
}

/// The chance must have been asked this number of times since the last `take`.
pub fn asked(rt: &impl Abort, chance: &mut ScriptedChance<'_>, times: u32) {
    assert!(rt; chance.take() == times);
}

/// A waiting worker must have this number and this job.
pub fn climb_is(rt: &impl Abort, service: &Service, climb: &mut Climb, number: u32, job: &Job)
    requires ours { climb.old.ident ≡ service.now }
    ensures same { climb.new ≡ climb.old }
{
    assert!(rt; climb.number() == number && climb.worker() < service.shape().workers());
    assert!(rt; climb.job(service) == *job);
}

/// A ready worker must have this number and this last receipt.
pub fn ready_is(
    rt: &impl Abort,
    service: &Service,
    ready: &mut Ready,
    number: u32,
    last: Option<Receipt>,
)
    requires ours { ready.old.ident ≡ service.now }
    ensures same { ready.new ≡ ready.old }
{
    assert!(rt; ready.number() == number);
    assert!(rt; ready.last(service) == last);
}

/// The number and the lock of a worker inside, and whether its job is finished already.
#[derive(Clone, Copy)]
pub struct ExpectedHeld {
    pub number: u32,
    pub lock: u32,
    pub finished: bool,
}

/// A worker inside must be as expected.
pub fn held_is(rt: &impl Abort, service: &Service, held: &mut Held, expected: ExpectedHeld)
    requires ours { held.old.ident ≡ service.now }
    ensures finished { expected.finished ≡ is_section_over held.new.part.private.stage }
    ensures same { held.new ≡ held.old }
{
    assert!(rt; held.number() == expected.number && held.lock() == expected.lock);
    assert!(rt; held.finished() == expected.finished);
    if !expected.finished {
        assert!(rt; held.job(service).lock == expected.lock);
    }
}

/// The service is closed, and must answer its locks.
pub fn close(rt: &impl Abort, service: Service, downs: Vec<Down>) -> Closed
    requires { SeatsAreOfService service downs.items }
{
    match service.close(downs) {
        Ok(closed) => closed,
        Err(_) => panic!(rt; "it is not closed"),
    }
}

//! Parts of a worker's life as tables of calls, each with its expected answer.

ghost use Rattle.std.specs.Prelude.{◌≡◌};
ghost use Rattle.rme.specs.Calls.{seat_of_stance};

use crate::service::chances::ScriptedChance;
use crate::service::values::{
    ExpectedHeld, ask, asked, climb_is, enter, exit, give_up, held_is, meet, perform, ready_is,
};
use crate::test_values::{ReceiptNumbers, job, receipt};
use rme::service::{Climb, Down, Held, Leave, Ready, Service, Stance};
use rme::{Op, Receipt};
use std::process::Abort;

/// A call on a worker that is up, or a check of it.
#[derive(Clone, Copy)]
pub enum WorkerCall {
    /// A job is posted at this lock, of these operations, and accepted.
    Ask(u32, &'static [Op]),
    /// A sweep ends with the lock.
    Enter,
    /// A sweep is blocked.
    Meet,
    /// The job is performed, with this receipt.
    Perform(ReceiptNumbers),
    /// The worker leaves, and is ready.
    Exit,
    /// The job is withdrawn, and the worker is ready.
    GiveUp,
    /// The worker crashes where it is, and recovers.
    Fall,
    /// The worker is ready, with this number and this last receipt.
    IsReady(u32, Option<ReceiptNumbers>),
    /// It waits, with this number and this job.
    IsClimb(u32, u32, &'static [Op]),
    /// It is inside, with this number and this lock, and its job is finished already or not.
    IsHeld(u32, u32, bool),
    /// It is inside, and its section has this place.
    SectionIs(u32),
    /// The chance was asked this number of times since the last check.
    Asked(u32),
}

/// A worker recovers, and these calls are made, one after another.
pub fn rise(
    rt: &impl Abort,
    service: &Service,
    down: Down,
    calls: &[WorkerCall],
    chance: &mut ScriptedChance<'_>,
) -> Stance
    requires ours { down.ident ≡ service.now }
    ensures ours { (seat_of_stance result).ident ≡ service.now }
{
    let stance = stand_up(rt, service, down, chance);
    go_on(rt, service, stance, calls, chance)
}

/// A worker that is up continues by these calls, one after another.
pub fn go_on(
    rt: &impl Abort,
    service: &Service,
    mut stance: Stance,
    calls: &[WorkerCall],
    chance: &mut ScriptedChance<'_>,
) -> Stance
    requires ours { (seat_of_stance stance).ident ≡ service.now }
    ensures ours { (seat_of_stance result).ident ≡ service.now }
{
    for call in calls {
        stance = make(rt, service, stance, call, chance);
    }
    stance
}

/// A worker recovers, and crashes after these calls.
pub fn live(
    rt: &impl Abort,
    service: &Service,
    down: Down,
    calls: &[WorkerCall],
    chance: &mut ScriptedChance<'_>,
) -> Down
    requires ours { down.ident ≡ service.now }
    ensures ours { result.ident ≡ service.now }
{
    fall(rise(rt, service, down, calls, chance))
}

/// A worker crashes, whatever its stance.
pub fn fall(stance: Stance) -> Down
    ensures { result ≡ seat_of_stance stance }
{
    match stance {
        Stance::Ready(ready) => ready.crash(),
        Stance::Climb(climb) => climb.crash(),
        Stance::Held(held) => held.crash(),
        Stance::Leave(leave) => leave.crash(),
    }
}

/// A worker recovers.
fn stand_up(
    rt: &impl Abort,
    service: &Service,
    down: Down,
    chance: &mut ScriptedChance<'_>,
) -> Stance
    requires ours { down.ident ≡ service.now }
    ensures ours { (seat_of_stance result).ident ≡ service.now }
{
    match down.recover(service, chance) {
        Ok(stance) => stance,
        Err(_) => panic!(rt; "it fell"),
    }
}

/// Makes a call, which must fit the worker's stance.
fn make(
    rt: &impl Abort,
    service: &Service,
    stance: Stance,
    call: &WorkerCall,
    chance: &mut ScriptedChance<'_>,
) -> Stance
    requires ours { (seat_of_stance stance).ident ≡ service.now }
    ensures ours { (seat_of_stance result).ident ≡ service.now }
{
    match call {
        WorkerCall::Asked(times) => {
            asked(rt, chance, *times);
            stance
        }
        WorkerCall::Fall => stand_up(rt, service, fall(stance), chance),
        _ => make_one(rt, service, stance, call, chance),
    }
}

/// Makes a call on the worker's value.
fn make_one(
    rt: &impl Abort,
    service: &Service,
    stance: Stance,
    call: &WorkerCall,
    chance: &mut ScriptedChance<'_>,
) -> Stance
    requires ours { (seat_of_stance stance).ident ≡ service.now }
    ensures ours { (seat_of_stance result).ident ≡ service.now }
{
    match stance {
        Stance::Ready(ready) => make_ready(rt, service, ready, call, chance),
        Stance::Climb(climb) => make_waiting(rt, service, climb, call, chance),
        Stance::Held(held) => make_inside(rt, service, held, call, chance),
        Stance::Leave(leave) => make_leaving(rt, service, leave, call, chance),
    }
}

/// Makes a call on a worker that is ready.
fn make_ready(
    rt: &impl Abort,
    service: &Service,
    mut ready: Ready,
    call: &WorkerCall,
    chance: &mut ScriptedChance<'_>,
) -> Stance
    requires ours { ready.ident ≡ service.now }
    ensures ours { (seat_of_stance result).ident ≡ service.now }
{
    match *call {
        WorkerCall::Ask(lock, ops) => Stance::Climb(ask(
            rt,
            service,
            ready,
            job(lock, ops),
            chance,
        )),
        WorkerCall::IsReady(number, last) => {
            ready_is(rt, service, &mut ready, number, receipt_of(last));
            Stance::Ready(ready)
        }
        _ => panic!(rt; "it is ready"),
    }
}

/// Makes a call on a worker that waits.
fn make_waiting(
    rt: &impl Abort,
    service: &Service,
    mut climb: Climb,
    call: &WorkerCall,
    chance: &mut ScriptedChance<'_>,
) -> Stance
    requires ours { climb.ident ≡ service.now }
    ensures ours { (seat_of_stance result).ident ≡ service.now }
{
    match *call {
        WorkerCall::Enter => Stance::Held(enter(rt, service, climb, chance)),
        WorkerCall::Meet => Stance::Climb(meet(rt, service, climb, chance)),
        WorkerCall::GiveUp => Stance::Ready(give_up(rt, service, climb, chance)),
        WorkerCall::IsClimb(number, lock, ops) => {
            climb_is(rt, service, &mut climb, number, &job(lock, ops));
            Stance::Climb(climb)
        }
        _ => panic!(rt; "it waits"),
    }
}

/// Makes a call on a worker that is inside.
fn make_inside(
    rt: &impl Abort,
    service: &Service,
    mut held: Held,
    call: &WorkerCall,
    chance: &mut ScriptedChance<'_>,
) -> Stance
    requires ours { held.ident ≡ service.now }
    ensures ours { (seat_of_stance result).ident ≡ service.now }
{
    match *call {
        WorkerCall::Perform(expected) => Stance::Leave(perform(
            rt, service, held, expected, chance,
        )),
        WorkerCall::IsHeld(number, lock, finished) => {
            let expected = ExpectedHeld {
                number,
                lock,
                finished,
            };
            held_is(rt, service, &mut held, expected);
            Stance::Held(held)
        }
        WorkerCall::SectionIs(section) => {
            assert!(rt; held.section(service) == section);
            Stance::Held(held)
        }
        _ => panic!(rt; "it is inside"),
    }
}

/// Makes a call on a worker that has nodes to release.
fn make_leaving(
    rt: &impl Abort,
    service: &Service,
    leave: Leave,
    call: &WorkerCall,
    chance: &mut ScriptedChance<'_>,
) -> Stance
    requires ours { leave.ident ≡ service.now }
    ensures ours { (seat_of_stance result).ident ≡ service.now }
{
    match *call {
        WorkerCall::Exit => Stance::Ready(exit(rt, service, leave, chance)),
        _ => panic!(rt; "it has nodes to release"),
    }
}

fn receipt_of(last: Option<ReceiptNumbers>) -> Option<Receipt> {
    match last {
        Some(expected) => Some(receipt(expected)),
        None => None,
    }
}

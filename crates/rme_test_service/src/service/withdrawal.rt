//! Workers that withdraw a job while they wait.

ghost use Rattle.std.specs.Prelude.{◌≡◌};

use crate::service::chances::ScriptedChance;
use crate::service::plays::WorkerCall::{
    Ask, Asked, Enter, Exit, GiveUp, IsClimb, IsHeld, IsReady, Meet, Perform,
};
use crate::service::plays::{WorkerCall, fall, go_on, live, rise};
use crate::service::values::{both, close, next};
use crate::test_values::{ExpectedEntry, lock_is, open};
use rme::Op;
use rme::service::{Down, Service};
use std::process::Abort;
use std::test::Fail;

const ADD_FIVE: &[Op] = &[Op::Add(0, 5)];

const ADD_ONE: &[Op] = &[Op::Add(0, 1)];

/// Row `withdrawal`: worker 0 enters, and crashes.
const ENTERED: &[WorkerCall] = &[Ask(0, ADD_FIVE), Enter];

/// Worker 1 waits.
const BLOCKED: &[WorkerCall] = &[Ask(0, ADD_ONE), Meet];

/// Worker 0 recovers inside; the steps are those of both up to here.
const RE_ENTERED: &[WorkerCall] = &[IsHeld(1, 0, false), Asked(2 + 6 + 1 + 2 + 6 + 1 + 4)];

/// Worker 1 withdraws its first number, which has no receipt, and asks under its second.
const GIVEN_UP: &[WorkerCall] = &[
    GiveUp,
    Asked(4),
    IsReady(1, None),
    Ask(0, &[]),
    IsClimb(2, 0, &[]),
];

/// Worker 0 finishes.
const FINISHED: &[WorkerCall] = &[Perform((0, 0, 1, 0, 5)), Exit];

/// Worker 1 finishes under its second number.
const FINISHED_SECOND: &[WorkerCall] = &[Enter, Perform((1, 0, 2, 1, 0)), Exit];

/// The entries of the lock then.
const ENTRIES: &[ExpectedEntry] = &[((0, 0, 1, 0, 5), ADD_FIVE), ((1, 0, 2, 1, 0), &[])];

/// Row `withdrawal`, its calls.
fn withdraw(rt: &impl Abort, service: &Service, zero: Down, one: Down) -> (Down, Down)
    requires zero { zero.ident ≡ service.now }
    requires one { one.ident ≡ service.now }
    ensures zero { result.0.ident ≡ service.now }
    ensures one { result.1.ident ≡ service.now }
{
    let mut chance = ScriptedChance::new(&[]);
    let zero = live(rt, service, zero, ENTERED, &mut chance);
    let one = rise(rt, service, one, BLOCKED, &mut chance);
    let zero = rise(rt, service, zero, RE_ENTERED, &mut chance);
    let one = go_on(rt, service, one, GIVEN_UP, &mut chance);
    let zero = go_on(rt, service, zero, FINISHED, &mut chance);
    let one = go_on(rt, service, one, FINISHED_SECOND, &mut chance);
    (fall(zero), fall(one))
}

/// Row `withdrawal`: a withdrawn number is used, and has no receipt.
#[test]
fn withdrawal(rt: HostRuntime) -> Result<(), Fail> {
    let (service, mut downs) = open(rt.alloc(), (2, 1, 1, 10))?;
    let one = next(&rt, &service, &mut downs);
    let zero = next(&rt, &service, &mut downs);
    let (zero, one) = withdraw(&rt, &service, zero, one);
    let downs = both(rt.alloc(), &service, zero, one)?;
    let closed = close(&rt, service, downs);
    assert!(rt; closed.locks.len() == 1);
    assert!(rt; lock_is(&closed.locks[0], &[5], true, ENTRIES));
    Ok(())
}

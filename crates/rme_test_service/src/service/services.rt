//! The running service in one thread.

ghost use Rattle.std.specs.Prelude.{◌≡◌};

use crate::service::chances::ScriptedChance;
use crate::service::plays::WorkerCall::{Ask, Asked, Enter, IsHeld, Meet};
use crate::service::plays::{WorkerCall, fall, go_on, live, rise};
use crate::service::values::{ask, both, close, come_up, enter, exit, next, perform};
use crate::test_values::{ReceiptNumbers, job, lock_is, open};
use rme::Op;
use rme::service::{Down, Service};
use std::process::Abort;
use std::test::Fail;

/// A worker recovers, makes one job on the first lock, with this receipt, and is down again.
fn make_job(
    rt: &impl Abort,
    service: &Service,
    down: Down,
    operations: &[Op],
    expected: ReceiptNumbers,
) -> Down
    requires ours { down.ident ≡ service.now }
    ensures ours { result.ident ≡ service.now }
{
    let mut never = ScriptedChance::new(&[]);
    let ready = come_up(rt, service, down, &mut never);
    let climb = ask(rt, service, ready, job(0, operations), &mut never);
    let held = enter(rt, service, climb, &mut never);
    let leave = perform(rt, service, held, expected, &mut never);
    let ready = exit(rt, service, leave, &mut never);
    ready.crash()
}

/// Row `running service`: two workers, one after the other, and the closed service.
#[test]
fn running_service(rt: HostRuntime) -> Result<(), Fail> {
    let (service, mut downs) = open(rt.alloc(), (2, 1, 1, 10))?;
    let one = next(&rt, &service, &mut downs);
    let zero = next(&rt, &service, &mut downs);
    let zero = make_job(&rt, &service, zero, &[Op::Add(0, 5)], (0, 0, 1, 0, 5));
    let one = make_job(&rt, &service, one, &[Op::Get(0)], (1, 0, 1, 1, 5));
    let downs = both(rt.alloc(), &service, zero, one)?;
    let closed = close(&rt, service, downs);
    assert!(rt; closed.locks.len() == 1);
    assert!(rt;
        lock_is(
            &closed.locks[0],
            &[5],
            true,
            &[
                ((0, 0, 1, 0, 5), &[Op::Add(0, 5)]),
                ((1, 0, 1, 1, 5), &[Op::Get(0)]),
            ],
        )
    );
    Ok(())
}

/// Row `running service`, closed by counts.
#[test]
fn counted_service(rt: HostRuntime) -> Result<(), Fail> {
    let (service, mut downs) = open(rt.alloc(), (2, 1, 1, 10))?;
    let room = service.room_for_counts()?;
    let one = next(&rt, &service, &mut downs);
    let zero = next(&rt, &service, &mut downs);
    let zero = make_job(&rt, &service, zero, &[Op::Add(0, 5)], (0, 0, 1, 0, 5));
    let one = make_job(&rt, &service, one, &[Op::Get(0)], (1, 0, 1, 1, 5));
    let downs = both(rt.alloc(), &service, zero, one)?;
    let Ok(counted) = service.close_counted(downs, room) else {
        panic!(rt; "it is not closed");
    };
    assert!(rt; counted.locks.len() == 1);
    let lock = &counted.locks[0];
    assert!(rt; lock.cells.as_slice() == [5].as_slice());
    assert!(rt; lock.owner.is_none() && lock.settled && lock.entries == 2);
    Ok(())
}

/// Row `table re-entry`: worker 0 enters, and crashes.
const ENTERED: &[WorkerCall] = &[Asked(2), Ask(0, &[]), Asked(3), Enter, Asked(1)];

/// Worker 1 is blocked twice.
const BLOCKED_TWICE: &[WorkerCall] = &[Ask(0, &[]), Asked(5), Meet, Asked(1), Meet, Asked(1)];

/// Worker 0 recovers inside.
const RE_ENTERED: &[WorkerCall] = &[Asked(4), IsHeld(1, 0, false)];

/// Worker 1 is still blocked.
const BLOCKED_AGAIN: &[WorkerCall] = &[Meet, Asked(1)];

/// Row `table re-entry`: a worker that crashed inside is inside again after its recovery, and none entered meanwhile.
#[test]
fn table_re_entry(rt: HostRuntime) -> Result<(), Fail> {
    let (service, mut downs) = open(rt.alloc(), (2, 1, 1, 10))?;
    let one = next(&rt, &service, &mut downs);
    let zero = next(&rt, &service, &mut downs);
    let mut never = ScriptedChance::new(&[]);
    let zero = live(&rt, &service, zero, ENTERED, &mut never);
    let one = rise(&rt, &service, one, BLOCKED_TWICE, &mut never);
    let zero = rise(&rt, &service, zero, RE_ENTERED, &mut never);
    let one = go_on(&rt, &service, one, BLOCKED_AGAIN, &mut never);
    let _zero = fall(zero);
    let _one = fall(one);
    Ok(())
}

//! What the values of one worker answer, on its way through one job.

use crate::service::chances::ScriptedChance;
use crate::service::plays::WorkerCall::{
    Ask, Asked, Enter, Exit, Fall, IsClimb, IsHeld, IsReady, Perform, SectionIs,
};
use crate::service::plays::{WorkerCall, live};
use crate::service::values::next;
use crate::test_values::{ExpectedEntry, ReceiptNumbers, entry_is, open};
use rme::Op;
use rme::service::{Down, EntryList};
use std::process::Abort;
use std::test::Fail;

const SEVEN: &[Op] = &[Op::Set(0, 7)];

const FINISHED: ReceiptNumbers = (1, 1, 1, 0, 7);

/// One job of one operation, whose worker crashes when it is ready, while it waits and after it has finished. Row
/// `crash after finish`: then it is inside with a finished job, and answers its receipt without an own step.
const WITH_FALLS: &[WorkerCall] = &[
    IsReady(0, None),
    Fall,
    Asked(4),
    Ask(1, SEVEN),
    IsClimb(1, 1, SEVEN),
    Fall,
    IsClimb(1, 1, SEVEN),
    Asked(10),
    Enter,
    IsHeld(1, 1, false),
    Perform(FINISHED),
    Asked(19),
    Fall,
    Asked(4),
    IsHeld(1, 1, true),
    Perform(FINISHED),
    Asked(0),
    Exit,
    Asked(3),
    IsReady(1, Some(FINISHED)),
];

const SECOND: ReceiptNumbers = (1, 1, 2, 1, 7);

/// Two jobs of one lock. The place of a receipt is known when the worker is inside, and is the same after a crash,
/// before the section is finished and after.
const SECTIONS: &[WorkerCall] = &[
    Ask(1, SEVEN),
    Enter,
    SectionIs(0),
    Perform(FINISHED),
    Exit,
    Ask(1, SEVEN),
    Enter,
    SectionIs(1),
    Fall,
    IsHeld(2, 1, false),
    SectionIs(1),
    Perform(SECOND),
    Fall,
    IsHeld(2, 1, true),
    Asked(63),
    SectionIs(1),
    Asked(0),
    Perform(SECOND),
    Exit,
];

/// Whether a list has exactly these entries.
fn list_is(entries: &EntryList, expected: &[ExpectedEntry<'_>]) -> bool {
    for at in 0..expected.len() {
        let Some(entry) = entries.get(at) else {
            return false;
        };
        if !entry_is(&entry, &expected[at]) {
            return false;
        }
    }
    entries.len() == expected.len() && entries.last().is_none() == expected.is_empty()
}

/// A Down must have this number, be fresh or not, and have exactly these entries.
fn down_is(rt: &impl Abort, down: &Down, worker: u32, fresh: bool, expected: &[ExpectedEntry]) {
    assert!(rt; down.worker() == worker && down.fresh() == fresh);
    assert!(rt; list_is(down.entries(), expected));
}

/// What each value of a worker answers.
#[test]
fn told_by_values(rt: HostRuntime) -> Result<(), Fail> {
    let (service, mut downs) = open(rt.alloc(), (2, 2, 1, 10))?;
    assert!(rt; service.shape().locks() == 2);
    assert!(rt; downs.len() == 2);
    let one = next(&rt, &service, &mut downs);
    down_is(&rt, &one, 1, true, &[]);
    let one = live(
        &rt,
        &service,
        one,
        WITH_FALLS,
        &mut ScriptedChance::new(&[]),
    );
    down_is(&rt, &one, 1, false, &[(FINISHED, SEVEN)]);
    Ok(())
}

/// The section of a worker that is inside.
#[test]
fn section_of_a_held(rt: HostRuntime) -> Result<(), Fail> {
    let (service, mut downs) = open(rt.alloc(), (2, 2, 1, 10))?;
    let one = next(&rt, &service, &mut downs);
    let one = live(&rt, &service, one, SECTIONS, &mut ScriptedChance::new(&[]));
    down_is(&rt, &one, 1, false, &[(FINISHED, SEVEN), (SECOND, SEVEN)]);
    Ok(())
}

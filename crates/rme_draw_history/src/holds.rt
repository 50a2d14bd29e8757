//! The holds of locks by their owners.

ghost use Rattle.std.specs.Prelude.{◌≡◌, ◌++◌, IfOk, OnOk, slice_get};
ghost use Rattle.rme_draw_history.specs.Holds as spec;

use rme_core_checker::Machine;
use rme_draw_picture::Hold;
use std::alloc::{AllocError, Global};

/// Adds the holds that a line ended: those of locks whose owner changed, crashed or restarted.
pub fn push_holds(
    holds: &mut Vec<Hold>,
    holding: &[Option<Hold>],
    machine: &Machine,
    line: u64,
) -> Result<(), AllocError>
    ensures { OnOk result (holds.new.items ≡ holds.old.items ++ spec.holds_after machine.now line holding.now) }
{
    let shape = machine.shape();
    for lock in 0..shape.locks() {
        push_ended(holds, hold_at(holding, lock), machine, lock, line)?;
    }
    Ok(())
}

/// The present hold of a lock.
fn hold_at(holding: &[Option<Hold>], lock: u32) -> Option<Hold>
    ensures { result ≡ spec.hold_at holding.now lock }
{
    match holding.get(lock as usize) {
        Some(before) => *before,
        None => None,
    }
}

/// Adds the hold of a lock that a line ended, if it ended one.
fn push_ended(
    holds: &mut Vec<Hold>,
    before: Option<Hold>,
    machine: &Machine,
    lock: u32,
    line: u64,
) -> Result<(), AllocError>
    ensures { OnOk result (holds.new.items ≡ holds.old.items ++ spec.ended_hold machine.now line lock before) }
{
    let now = hold_now(machine, lock, line);
    if are_same_hold(&before, &now) {
        return Ok(());
    }
    push_hold(holds, before, line)
}

/// Adds a hold up to a line, if there is one.
fn push_hold(holds: &mut Vec<Hold>, hold: Option<Hold>, to: u64) -> Result<(), AllocError>
    ensures { OnOk result (holds.new.items ≡ holds.old.items ++ spec.hold_up_to hold to) }
{
    match hold {
        None => Ok(()),
        Some(hold) => {
            holds.push(Hold { to, ..hold })?;
            Ok(())
        }
    }
}

/// The holds of the locks after a line.
pub fn holding_after(
    alloc: Global,
    holding: &[Option<Hold>],
    machine: &Machine,
    line: u64,
) -> Result<Vec<Option<Hold>>, AllocError>
    ensures { IfOk result (λ after. after.items ≡ spec.holding_after machine.now line holding.now) }
{
    let shape = machine.shape();
    (0..shape.locks())
        .map(|lock| hold_after(machine, line, lock, hold_at(holding, lock)))
        .collect(alloc)
}

/// The hold of a lock after a line.
fn hold_after(machine: &Machine, line: u64, lock: u32, before: Option<Hold>) -> Option<Hold>
    ensures { result ≡ spec.hold_after machine.now line lock before }
{
    let now = hold_now(machine, lock, line);
    if are_same_hold(&before, &now) {
        return before;
    }
    now
}

/// The hold of a lock that begins at a line, if the lock has an owner there.
fn hold_now(machine: &Machine, lock: u32, line: u64) -> Option<Hold>
    ensures { result ≡ spec.hold_now machine.now lock line }
{
    match machine.owner(lock) {
        None => None,
        Some(owner) => Some(Hold {
            lock,
            owner,
            is_up: is_up(machine, owner),
            from: line,
            to: line,
        }),
    }
}

/// Whether there is such a worker, and it is up.
fn is_up(machine: &Machine, worker: u32) -> bool
    ensures { result ≡ spec.is_up_if_some (slice_get machine.now.state.workers worker) }
{
    match machine.worker(worker) {
        Some(me) => me.is_up(),
        None => false,
    }
}

/// Whether a hold continues: the same owner, up or down as before, or still none.
fn are_same_hold(before: &Option<Hold>, now: &Option<Hold>) -> bool
    ensures { result ≡ spec.are_same_hold before.now now.now }
{
    match (before, now) {
        (None, None) => true,
        (Some(before), Some(now)) => {
            before.owner == now.owner && is_same_flag(before.is_up, now.is_up)
        }
        _ => false,
    }
}

fn is_same_flag(before: bool, now: bool) -> bool
    ensures { result ≡ spec.is_same_flag before now }
{
    if before { now } else { !now }
}

/// Adds all holds that end with the run.
pub fn push_last_holds(
    holds: &mut Vec<Hold>,
    all: &[Option<Hold>],
    to: u64,
) -> Result<(), AllocError>
    ensures { OnOk result (holds.new.items ≡ holds.old.items ++ spec.holds_at_end all.now to) }
{
    for hold in all {
        push_hold(holds, *hold, to)?;
    }
    Ok(())
}

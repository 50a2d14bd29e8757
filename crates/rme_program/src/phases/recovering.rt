//! Phase Recover: a worker finds where it was before its crash.

ghost use Rattle.std.specs.Prelude.{◌≡◌, ◌<◌, ◌≤◌, ◌+◌, ℕ};
ghost use Rattle.rme_words.specs.Words.{IsShapeAddress};
ghost use Rattle.rme_program.specs.Steps.{with_quiet_note, recovery_action, after_recovery, after_own_node, after_other_node, reentry_stage};
ghost use Rattle.rme_program.specs.Conditions.{IsRecoveryStage, IsStage, IsValidLoad};
ghost use Rattle.rme_program.specs.ActionEffects.{action_address};

use crate::action::Action;
use crate::note::Note;
use crate::private::StepNumbers;
use crate::stage::{Ascent, Departure, Log, Recovery, Stage};
use rme_tree::{node, side};
use rme_words::{Address, Shape};

pub fn action(shape: Shape, worker: u32, recovery: &Recovery) -> Action
    requires worker { worker < shape.workers }
    requires stage { IsRecoveryStage shape recovery.now }
    ensures action { result ≡ recovery_action shape worker recovery.now }
    ensures within { IsShapeAddress shape (action_address result) }
{
    match recovery {
        Recovery::LoadBegun => Action::Load(Address::Begun(worker)),
        Recovery::LoadDone => Action::Load(Address::Done(worker)),
        Recovery::LoadLock { pending: true } => Action::Load(Address::SlateLock(worker)),
        Recovery::LoadLock { pending: false } => Action::Load(Address::At(worker)),
        Recovery::LoadPath { lock, held, .. } => {
            Action::Load(Address::Node(*lock, node(shape, worker, *held + 1)))
        }
    }
}

pub fn after(
    shape: Shape,
    numbers: StepNumbers,
    recovery: Recovery,
    stage: &mut Stage,
    value: u64,
) -> Note
    requires worker { numbers.worker < shape.workers }
    requires stage { IsRecoveryStage shape recovery }
    requires value { IsValidLoad shape (Stage.Recovering recovery) value }
    ensures after { (stage.new, result) ≡ after_recovery shape numbers.worker numbers.begun recovery value }
    ensures stage { IsStage shape numbers.begun stage.new }
{
    match recovery {
        Recovery::LoadBegun => continue_recovery(stage, Recovery::LoadDone),
        Recovery::LoadDone => {
            if numbers.begun == 0 {
                *stage = Stage::Resting;
                return Note::Ready;
            }
            let pending = value < u64::from(numbers.begun);
            continue_recovery(stage, Recovery::LoadLock { pending })
        }
        Recovery::LoadLock { pending } => {
            let path = Recovery::LoadPath {
                pending,
                lock: value as u32,
                held: 0,
            };
            continue_recovery(stage, path)
        }
        Recovery::LoadPath {
            pending,
            lock,
            held,
        } => {
            if value == side(shape, numbers.worker, held + 1) {
                return after_own_node(shape, pending, lock, held + 1, stage);
            }
            after_other_node(pending, lock, held, stage)
        }
    }
}

/// The recovery continues at this stage, and the note is quiet. A stage is wide, so within its phase only its own part
/// is written.
fn continue_recovery(stage: &mut Stage, recovery: Recovery) -> Note
    ensures { (stage.new, result) ≡ with_quiet_note (Stage.Recovering recovery) }
{
    match stage {
        Stage::Recovering(now) => *now = recovery,
        _ => *stage = Stage::Recovering(recovery),
    }
    Note::Quiet
}

/// The first `held` nodes of the path are the worker's, the last of them just found.
fn after_own_node(shape: Shape, pending: bool, lock: u32, held: u32, stage: &mut Stage) -> Note
    requires lock { lock < shape.locks }
    requires held { held ≤ shape.height }
    ensures after { (stage.new, result) ≡ after_own_node shape pending lock held }
    ensures stage { (begun : ℕ) → IsStage shape begun stage.new }
{
    if held == shape.height {
        reentry_stage(pending, lock, stage);
        return Note::Reentered(lock);
    }
    let path = Recovery::LoadPath {
        pending,
        lock,
        held,
    };
    continue_recovery(stage, path)
}

/// The whole path is the worker's: its section continues, or its exit does.
fn reentry_stage(pending: bool, lock: u32, stage: &mut Stage)
    ensures { stage.new ≡ reentry_stage pending lock }
{
    if pending {
        *stage = Stage::Logging(Log::LoadTurn { lock });
        return;
    }
    *stage = Stage::Leaving(Departure::LoadExitTurn { lock });
}

/// The next node is not the worker's: it waits again, or it releases the nodes that it still holds.
fn after_other_node(pending: bool, lock: u32, held: u32, stage: &mut Stage) -> Note
    ensures { (stage.new, result) ≡ after_other_node pending lock held }
{
    if pending {
        *stage = Stage::Climbing(Ascent { lock, held });
        return Note::Quiet;
    }
    if held == 0 {
        *stage = Stage::Resting;
        return Note::Ready;
    }
    *stage = Stage::Leaving(Departure::Clear { lock, level: held });
    Note::Quiet
}

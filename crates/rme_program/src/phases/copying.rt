//! Phase Section from the odd turn on: the worker copies the logged values, and then counts its job as done.

ghost use Rattle.std.specs.Prelude.{◌≡◌, ◌<◌, ◌≤◌, ◌+◌, ℕ};
ghost use Rattle.rme_words.specs.Words.{IsShapeAddress};
ghost use Rattle.rme_program.specs.Steps.{with_quiet_note, redo_action, after_redo, copy_stage_from, finish_outcome};
ghost use Rattle.rme_program.specs.Conditions.{IsRedoStage, IsStage};
ghost use Rattle.rme_program.specs.Masks.{first_cell};
ghost use Rattle.rme_program.specs.ActionEffects.{action_address};

use crate::action::Action;
use crate::masks::first_cell;
use crate::note::{Note, Receipt};
use crate::private::StepNumbers;
use crate::stage::{Departure, Redo, Stage, Visit};
use rme_words::{Address, Shape};

pub fn action(shape: Shape, worker: u32, begun: u32, redo: &Redo) -> Action
    requires worker { worker < shape.workers }
    requires stage { IsRedoStage shape redo.now }
    ensures action { result ≡ redo_action worker begun redo.now }
    ensures within { IsShapeAddress shape (action_address result) }
{
    match redo {
        Redo::LoadMask { visit } => Action::Load(Address::Mask(visit.lock)),
        Redo::LoadShadow { visit, cell, .. } => Action::Load(Address::Shadow(visit.lock, *cell)),
        Redo::StoreCell {
            visit,
            cell,
            value,
            ..
        } => Action::Store(Address::Cell(visit.lock, *cell), *value),
        Redo::LoadReply { visit, .. } => Action::Load(Address::ShadowReply(visit.lock)),
        Redo::StoreReply { reply, .. } => Action::Store(Address::Reply(worker), *reply),
        Redo::StorePlace { visit, .. } => Action::Store(
            Address::Place(worker),
            u64::from(visit.turn / 2),
        ),
        Redo::StoreAt { visit, .. } => Action::Store(Address::At(worker), u64::from(visit.lock)),
        Redo::StoreDone { .. } => Action::Store(Address::Done(worker), u64::from(begun)),
    }
}

pub fn after(shape: Shape, numbers: StepNumbers, redo: Redo, stage: &mut Stage, value: u64) -> Note
    requires { IsRedoStage shape redo }
    ensures after { (stage.new, result) ≡ after_redo shape numbers.worker numbers.begun redo value }
    ensures stage { IsStage shape numbers.begun stage.new }
{
    match redo {
        Redo::LoadMask { visit } => copy_stage_from(shape, visit, value, 0, stage),
        Redo::LoadShadow { visit, mask, cell } => {
            let stored = Redo::StoreCell {
                visit,
                mask,
                cell,
                value,
            };
            continue_copy(stage, stored)
        }
        Redo::StoreCell {
            visit,
            mask,
            cell,
            ..
        } => copy_stage_from(shape, visit, mask, cell + 1, stage),
        Redo::LoadReply { visit, mask } => {
            let reply = value;
            continue_copy(stage, Redo::StoreReply { visit, mask, reply })
        }
        Redo::StoreReply { visit, mask, reply } => {
            continue_copy(stage, Redo::StorePlace { visit, mask, reply })
        }
        Redo::StorePlace { visit, mask, reply } => {
            continue_copy(stage, Redo::StoreAt { visit, mask, reply })
        }
        Redo::StoreAt { visit, mask, reply } => {
            continue_copy(stage, Redo::StoreDone { visit, mask, reply })
        }
        Redo::StoreDone { visit, reply, .. } => finish_outcome(numbers, visit, reply, stage),
    }
}

/// The section continues at this stage, and the note is quiet. A stage is wide, so within its phase only its own part
/// is written.
fn continue_copy(stage: &mut Stage, redo: Redo) -> Note
    ensures { (stage.new, result) ≡ with_quiet_note (Stage.Copying redo) }
{
    match stage {
        Stage::Copying(now) => *now = redo,
        _ => *stage = Stage::Copying(redo),
    }
    Note::Quiet
}

/// The mask's cells before `from` are copied.
fn copy_stage_from(shape: Shape, visit: Visit, mask: u64, from: u32, stage: &mut Stage) -> Note
    requires lock { visit.lock < shape.locks }
    ensures after { (stage.new, result) ≡ with_quiet_note
        (copy_stage_from visit mask (first_cell mask from shape.cells)) }
    ensures stage { (begun : ℕ) → IsStage shape begun stage.new }
{
    match first_cell(mask, from, shape.cells) {
        Some(cell) => continue_copy(stage, Redo::LoadShadow { visit, mask, cell }),
        None => continue_copy(stage, Redo::LoadReply { visit, mask }),
    }
}

/// The job is done.
fn finish_outcome(numbers: StepNumbers, visit: Visit, reply: u64, stage: &mut Stage) -> Note
    ensures { (stage.new, result) ≡ finish_outcome numbers.worker numbers.begun visit reply }
{
    *stage = Stage::Leaving(Departure::LoadExitTurn { lock: visit.lock });
    Note::Finished(Receipt {
        worker: numbers.worker,
        lock: visit.lock,
        number: numbers.begun,
        place: visit.turn / 2,
        reply,
    })
}

//! Phase Exit: a worker releases its nodes, from the root downward, after a section or to withdraw.

ghost use Rattle.std.specs.Prelude.{◌≡◌, ◌<◌, ◌≤◌, ◌+◌, ◌-◌, ℕ};
ghost use Rattle.rme_words.specs.Words.{IsShapeAddress};
ghost use Rattle.rme_program.specs.Steps.{with_quiet_note, departure_action, after_departure, clear_stage, cleared_note, exit_stage};
ghost use Rattle.rme_program.specs.Conditions.{IsDepartureStage, IsStage, IsValidLoad};
ghost use Rattle.rme_program.specs.ActionEffects.{action_address};

use crate::action::Action;
use crate::note::{Note, WITHDRAWN_PLACE};
use crate::stage::{Departure, Stage};
use rme_tree::node;
use rme_words::{Address, Shape};

pub fn action(shape: Shape, worker: u32, begun: u32, departure: &Departure) -> Action
    requires worker { worker < shape.workers }
    requires stage { IsDepartureStage shape departure.now }
    ensures action { result ≡ departure_action shape worker begun departure.now }
    ensures within { IsShapeAddress shape (action_address result) }
{
    match departure {
        Departure::LoadExitTurn { lock } => Action::Load(Address::Turn(*lock)),
        Departure::StoreExitTurn { lock, turn } => Action::Store(
            Address::Turn(*lock),
            u64::from(*turn) + 1,
        ),
        Departure::Clear { lock, level } => Action::Store(
            Address::Node(*lock, node(shape, worker, *level)),
            0,
        ),
        Departure::WithdrawPlace { .. } => Action::Store(Address::Place(worker), WITHDRAWN_PLACE),
        Departure::WithdrawAt { lock, .. } => Action::Store(Address::At(worker), u64::from(*lock)),
        Departure::WithdrawReply { .. } => Action::Store(Address::Reply(worker), 0),
        Departure::WithdrawDone { .. } => Action::Store(Address::Done(worker), u64::from(begun)),
    }
}

pub fn after(shape: Shape, begun: u32, departure: Departure, stage: &mut Stage, value: u64) -> Note
    requires stage { IsDepartureStage shape departure }
    requires value { IsValidLoad shape (Stage.Leaving departure) value }
    ensures after { (stage.new, result) ≡ after_departure shape begun departure value }
    ensures stage { IsStage shape begun stage.new }
{
    match departure {
        Departure::LoadExitTurn { lock } => after_turn(shape, lock, value as u32, stage),
        Departure::StoreExitTurn { lock, .. } => {
            let level = shape.height;
            continue_exit(stage, Departure::Clear { lock, level })
        }
        Departure::Clear { lock, level } => {
            clear_from(lock, level - 1, stage);
            cleared_note(shape, lock, level)
        }
        Departure::WithdrawPlace { lock, held } => {
            continue_exit(stage, Departure::WithdrawAt { lock, held })
        }
        Departure::WithdrawAt { lock, held } => {
            continue_exit(stage, Departure::WithdrawReply { lock, held })
        }
        Departure::WithdrawReply { lock, held } => {
            continue_exit(stage, Departure::WithdrawDone { lock, held })
        }
        Departure::WithdrawDone { lock, held } => {
            clear_from(lock, held, stage);
            Note::Withdrew(begun)
        }
    }
}

/// The exit continues at this stage, and the note is quiet. A stage is wide, so within its phase only its own part is
/// written.
fn continue_exit(stage: &mut Stage, departure: Departure) -> Note
    ensures { (stage.new, result) ≡ with_quiet_note (Stage.Leaving departure) }
{
    match stage {
        Stage::Leaving(now) => *now = departure,
        _ => *stage = Stage::Leaving(departure),
    }
    Note::Quiet
}

/// The levels up to this one are still to be cleared.
fn clear_from(lock: u32, level: u32, stage: &mut Stage)
    ensures { stage.new ≡ clear_stage lock level }
{
    if level == 0 {
        *stage = Stage::Resting;
        return;
    }
    let _ = continue_exit(stage, Departure::Clear { lock, level });
}

/// The node of a level was cleared: the root's clearing frees the lock, and the lowest one's makes the worker ready.
fn cleared_note(shape: Shape, lock: u32, level: u32) -> Note
    ensures { result ≡ cleared_note shape lock level }
{
    if level == shape.height {
        return Note::Left(lock);
    }
    if level == 1 {
        return Note::Ready;
    }
    Note::Quiet
}

/// The turn of a finished section is known: an odd one is counted up first.
fn after_turn(shape: Shape, lock: u32, turn: u32, stage: &mut Stage) -> Note
    ensures { (stage.new, result) ≡ with_quiet_note (exit_stage shape lock turn) }
{
    if turn % 2 == 0 {
        let level = shape.height;
        return continue_exit(stage, Departure::Clear { lock, level });
    }
    continue_exit(stage, Departure::StoreExitTurn { lock, turn })
}

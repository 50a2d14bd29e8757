//! The next step of a worker, and its outcome.

ghost use Rattle.std.specs.Prelude.{◌≡◌, ◌≢◌, ◌<◌, ◌≤◌, ◌+◌, ◌^◌};
ghost use Rattle.rme_words.specs.Words.{IsShapeAddress};
ghost use Rattle.rme_program.specs.ActionEffects.{action_address};
ghost use Rattle.rme_program.specs.Steps.{private_action, private_after, note_after, outcome_at, begun_after};
ghost use Rattle.rme_program.specs.Conditions.{IsPrivate, IsStage, IsValidLoad};
ghost use Rattle.rme_program.specs.Stays.{ActionIsInRow, StepFollowsRow};
ghost use Rattle.rme_program.specs.Progress.{IsOnTrack, StageProgress, StepIsCounted};

use crate::action::Action;
use crate::note::Note;
use crate::phases::{climbing, copying, leaving, logging, posting, recovering};
use crate::private::{Private, StepNumbers};
use crate::stage::{Ascent, Recovery, Redo, Stage};
use rme_words::Shape;

/// The next own step of a worker: one operation on one word of the shape.
///
/// The private state is one of the shape, and the worker is not ready. Execute the action, and pass the value that was
/// loaded or found to `after`.
#[tactic(auto, using(crate::proofs::Turns::takes_by))]
pub fn next(shape: Shape, private: &Private) -> Action
    requires private { IsPrivate shape private.now }
    requires busy { private.now.stage ≢ Stage.Resting }
    ensures action { result ≡ private_action shape private.now }
    ensures within { IsShapeAddress shape (action_address result) }
    ensures row { ActionIsInRow shape private.now result }
{
    let worker = private.worker;
    let begun = private.begun;
    match &private.stage {
        Stage::Resting => unreachable!(),
        Stage::Recovering(recovery) => recovering::action(shape, worker, recovery),
        Stage::Posting(slate) => posting::action(shape, worker, begun, slate),
        Stage::Climbing(ascent) => climbing::action(shape, worker, ascent),
        Stage::Logging(log) => logging::action(shape, worker, log),
        Stage::Copying(redo) => copying::action(shape, worker, begun, redo),
        Stage::Leaving(departure) => leaving::action(shape, worker, begun, departure),
    }
}

/// Updates a worker's private state after its step, and answers the note.
///
/// `value` is what the step loaded, or what its swap found; for a store it may be any number. A loaded `begun` and
/// `done` are at most the shape's jobs, a loaded lock is one of the shape, a loaded number of operations is at most 8,
/// a whole slate is a script of the shape, and a turn is below 2^32. A loaded mask may be anything.
pub fn after(shape: Shape, private: &mut Private, value: u64) -> Note
    requires private { IsPrivate shape private.old }
    requires value { IsValidLoad shape private.old.stage value }
    ensures after { private.new ≡ private_after shape private.old value }
    ensures note { result ≡ note_after shape private.old value }
    ensures private { IsPrivate shape private.new }

    // The row of the step table continues at its next place, or the phase ends as the table says.
    ensures row { StepFollowsRow shape private.old value private.new result }

    // Independent of the values found.
    ensures track { IsOnTrack private.old.stage → IsOnTrack private.new.stage }
    ensures falls { IsOnTrack private.old.stage → private.old.stage ≢ Stage.Resting → result ≢ Note.Blocked
        → StageProgress shape private.old.stage private.new.stage }
    ensures counts { IsOnTrack private.old.stage → private.old.stage ≢ Stage.Resting
        → StepIsCounted shape private.old.stage private.new.stage result }
{
    let begun = begun_after(shape, private, value);
    let note = stage_after(
        shape,
        private.worker,
        private.begun,
        &mut private.stage,
        value,
    );
    private.begun = begun;
    note
}

/// Updates a worker's stage after its step, and answers the note.
fn stage_after(shape: Shape, worker: u32, begun: u32, stage: &mut Stage, value: u64) -> Note
    requires worker { worker < shape.workers }
    requires stage { IsStage shape begun stage.old }
    requires value { IsValidLoad shape stage.old value }
    ensures after { (stage.new, result) ≡ outcome_at shape worker begun stage.old value }
    ensures stage { IsStage shape begun stage.new }
{
    let numbers = StepNumbers { worker, begun };
    match stage {
        Stage::Resting => Note::Quiet,
        Stage::Recovering(recovery) => {
            let recovery = *recovery;
            recovering::after(shape, numbers, recovery, stage, value)
        }
        Stage::Posting(slate) => {
            if !posting::is_last(slate) {
                slate.stored += 1;
                return Note::Quiet;
            }
            let lock = slate.job.lock;
            *stage = Stage::Climbing(Ascent { lock, held: 0 });
            Note::Asked(begun + 1)
        }
        Stage::Climbing(ascent) => {
            let ascent = *ascent;
            climbing::after(shape, ascent, stage, value)
        }
        Stage::Logging(log) => {
            if let Some(visit) = logging::after(shape, log, value) {
                *stage = Stage::Copying(Redo::LoadMask { visit });
            }
            Note::Quiet
        }
        Stage::Copying(redo) => {
            let redo = *redo;
            copying::after(shape, numbers, redo, stage, value)
        }
        Stage::Leaving(departure) => {
            let departure = *departure;
            leaving::after(shape, begun, departure, stage, value)
        }
    }
}

/// The known value of `begun` after the step.
fn begun_after(shape: Shape, private: &Private, value: u64) -> u32
    requires private { IsPrivate shape private.now }
    requires value { IsValidLoad shape private.now.stage value }
    ensures begun { result ≡ begun_after private.now.begun private.now.stage value }
    ensures few { result ≤ shape.jobs }
    ensures stage { IsStage shape private.now.begun (outcome_at shape private.now.worker private.now.begun
        private.now.stage value).0
        → IsStage shape result (outcome_at shape private.now.worker private.now.begun private.now.stage value).0 }
{
    match &private.stage {
        Stage::Recovering(Recovery::LoadBegun) => value as u32,
        Stage::Posting(slate) => {
            if posting::is_last(slate) {
                return private.begun + 1;
            }
            private.begun
        }
        _ => private.begun,
    }
}

//! The batch of a worker: its next own steps, as far as they are known before the first of them is made.

ghost use Rattle.std.specs.Prelude.{◌≡◌, ◌≢◌, ◌≤◌, [], ℕ, IsTrue};
ghost use Rattle.rme_words.specs.Words.{IsShapeAddress};
ghost use Rattle.rme_program.specs.declared.note.Note.{Note};
ghost use Rattle.rme_program.specs.declared.stage.Stage.{Stage};
ghost use Rattle.rme_program.specs.ActionEffects.{action_address};
ghost use Rattle.rme_program.specs.Conditions.{IsPrivate, IsLogStage, IsDepartureStage, IsValidLoad};
ghost use Rattle.rme_program.specs.Steps.{private_after, note_after};
ghost use Rattle.rme_process_core.specs.Flat.{flat_action};
ghost use Rattle.rme_process_core.specs.Batches.{Predicts, batch_actions};
ghost use Rattle.rme_process_core.specs.ExpectedSlates.{IsExpectedSlate};

use crate::actions::{load, put, store, swap};
use crate::expected_slate::ExpectedSlate;
use crate::flat::{Batch, FlatAction, MOST_ACTIONS};
use crate::loads::{predict_cell_loads, predict_section, predict_slate_loads};
use crate::prediction::{PredictionContext, SectionResult};
use crate::runs::{predict_climb, predict_node_releases, predict_post};
use crate::stores::predict_finish;
use rme_program::{Action, Departure, Log, Note, Private, Stage, after, next};
use rme_words::Shape;

/// Fills the batch with the next own steps of a worker that is not ready, at the latest up to a step whose note has the
/// kind `until`.
///
/// A post, the sweep and the loads of a section are one batch; the section's stores and the exit are the next. From any
/// other stage the batch has the stores, and the first step that is no store or has a note.
pub fn predict_batch(
    shape: Shape,
    private: &Private,
    guess: &ExpectedSlate,
    until: u32,
    batch: &mut Batch,
)
    requires private { IsPrivate shape private.now }
    requires guess { IsExpectedSlate shape guess.now }
    requires busy { private.now.stage ≢ Stage.Resting }
    ensures foretells { Predicts shape until private.now (batch_actions batch.new) }
    ensures some { 1 ≤ batch.new.count }
    ensures few { batch.new.count ≤ 96 }
{
    batch.count = 0;
    let context = PredictionContext { shape, until };
    match &private.stage {
        Stage::Posting(slate) if slate.stored == 0 => {
            predict_post(context, private, slate, guess, batch)
        }
        Stage::Climbing(ascent) => predict_climb(context, private.worker, *ascent, guess, batch),
        Stage::Logging(log) => predict_log(context, private, log, guess, batch),
        Stage::Leaving(departure) => predict_departure(context, private, departure, batch),
        _ => predict_stores(context, private, batch),
    }
}

/// The next own steps of a worker that writes its redo log.
fn predict_log(
    context: PredictionContext,
    private: &Private,
    log: &Log,
    guess: &ExpectedSlate,
    batch: &mut Batch,
)
    requires private { IsPrivate context.shape private.now }
    requires guess { IsExpectedSlate context.shape guess.now }
    requires here { private.now.stage ≡ Stage.Logging log.now }
    requires fresh { batch.old.count ≡ 0 }
    ensures foretells { Predicts context.shape context.until private.now (batch_actions batch.new) }
    ensures some { 1 ≤ batch.new.count }
    ensures few { batch.new.count ≤ 96 }
{
    match log {
        Log::LoadTurn { lock } => predict_section(context, private.worker, *lock, guess, batch),
        Log::LoadSlate {
            operations,
            loaded,
            ..
        } => predict_slate_loads(context, private.worker, *operations, *loaded, batch),
        Log::LoadCells {
            lock,
            named,
            cell,
            ..
        } => predict_cell_loads(context, *lock, *named, *cell, batch),
        Log::StoreShadows {
            visit,
            named,
            row,
            reply,
            cell,
        } => {
            let section = SectionResult {
                visit: *visit,
                named: *named,
                row: *row,
                reply: *reply,
            };
            predict_finish(context, private, &section, *cell, batch)
        }
        _ => predict_stores(context, private, batch),
    }
}

/// The next own steps of a worker in phase Exit.
fn predict_departure(
    context: PredictionContext,
    private: &Private,
    departure: &Departure,
    batch: &mut Batch,
)
    requires private { IsPrivate context.shape private.now }
    requires here { private.now.stage ≡ Stage.Leaving departure.now }
    requires fresh { batch.old.count ≡ 0 }
    ensures foretells { Predicts context.shape context.until private.now (batch_actions batch.new) }
    ensures some { 1 ≤ batch.new.count }
    ensures few { batch.new.count ≤ 96 }
{
    match departure {
        Departure::Clear { lock, level } if *level < context.shape.height => {
            predict_node_releases(context, private.worker, *lock, *level, batch)
        }
        _ => predict_stores(context, private, batch),
    }
}

/// The stores that a worker makes next, and the first step that is no store or has a note.
fn predict_stores(context: PredictionContext, private: &Private, batch: &mut Batch)
    requires private { IsPrivate context.shape private.now }
    requires busy { private.now.stage ≢ Stage.Resting }
    requires fresh { batch.old.count ≡ 0 }
    ensures foretells { Predicts context.shape context.until private.now (batch_actions batch.new) }
    ensures some { 1 ≤ batch.new.count }
    ensures few { batch.new.count ≤ 96 }
{
    let shape = context.shape;
    let first = next(shape, private);
    put(batch, [flat_action(shape, first)]);
    let Action::Store(..) = first else {
        return;
    };
    let mut ahead = *private;
    while batch.count < MOST_ACTIONS {
        if !make_quiet_store(shape, &mut ahead) {
            return;
        }
        let action = next(shape, &ahead);
        put(batch, [flat_action(shape, action)]);
        let Action::Store(..) = action else {
            return;
        };
    }
}

/// Has a worker make its store; answers whether the store has no note and a step follows.
fn make_quiet_store(shape: Shape, ahead: &mut Private) -> bool
    requires private { IsPrivate shape ahead.old }
    requires store { IsValidLoad shape ahead.old.stage 0 }
    ensures after { ahead.new ≡ private_after shape ahead.old 0 }
    ensures private { IsPrivate shape ahead.new }
    ensures quiet { IsTrue result → note_after shape ahead.old 0 ≡ Note.Quiet }
    ensures busy { IsTrue result → ahead.new.stage ≢ Stage.Resting }
{
    let Note::Quiet = after(shape, ahead, 0) else {
        return false;
    };
    match ahead.stage {
        Stage::Resting => false,
        _ => true,
    }
}

/// An action as plain numbers.
fn flat_action(shape: Shape, action: Action) -> FlatAction
    requires { IsShapeAddress shape (action_address action) }
    ensures { result ≡ flat_action shape action }
{
    match action {
        Action::Load(address) => load(shape.word(address)),
        Action::Store(address, value) => store(shape.word(address), value),
        Action::Swap(address, _, to) => swap(shape.word(address), to),
    }
}

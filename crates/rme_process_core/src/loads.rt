//! The loads of a section whose turn is even: the turn, the slate and the named cells.

ghost use Rattle.std.specs.Prelude.{◌≡◌, ◌<◌, ◌≤◌, ◌+◌, ◌*◌, ℕ};
ghost use Rattle.rme_program.specs.declared.private.Private.{Private};
ghost use Rattle.rme_program.specs.declared.stage.Stage.{Stage};
ghost use Rattle.rme_program.specs.declared.stage.Log.{Log};
ghost use Rattle.rme_process_core.specs.Batches.{Predicts, batch_actions};
ghost use Rattle.rme_process_core.specs.Runs.{PredictsUpTo, PredictsUpToSome, IsLoadingSlate, IsLoadingCells, private_at_stage};
ghost use Rattle.rme_process_core.specs.ExpectedSlates.{IsExpectedSlate};

use crate::actions::{expect, expect_even, load, put};
use crate::expected_slate::ExpectedSlate;
use crate::flat::Batch;
use crate::prediction::PredictionContext;
use rme_program::first_cell;

/// All the loads, if the slate has the expected words.
pub fn predict_section(
    context: PredictionContext,
    worker: u32,
    lock: u32,
    guess: &ExpectedSlate,
    batch: &mut Batch,
)
    requires worker { worker < context.shape.workers }
    requires lock { lock < context.shape.locks }
    requires guess { IsExpectedSlate context.shape guess.now }
    requires room { batch.old.count ≤ 35 }
    ensures foretells { (start : Private) (begun : ℕ)
        → PredictsUpTo context.shape context.until start (batch_actions batch.old)
        (private_at_stage worker begun (Stage.Logging (Log.LoadTurn lock)))
        → Predicts context.shape context.until start (batch_actions batch.new) }
    ensures some { 1 ≤ batch.new.count }
    ensures few { batch.new.count ≤ 96 }
{
    let shape = context.shape;
    let n = guess.script.n();
    let turn = expect_even(shape.turn_at(lock));
    put(
        batch,
        [turn, expect(shape.slate_len_at(worker), u64::from(n))],
    );
    for at in 0..n {
        let first = 3 * at as usize;
        put(
            batch,
            [
                expect(shape.slate_at(worker, at, 0), guess.words[first]),
                expect(shape.slate_at(worker, at, 1), guess.words[first + 1]),
                expect(shape.slate_at(worker, at, 2), guess.words[first + 2]),
            ],
        );
    }
    if let Some(cell) = first_cell(guess.named, 0, shape.cells) {
        predict_cell_loads(context, lock, guess.named, cell, batch);
    }
}

/// The loads of the words of a slate from `loaded` on.
pub fn predict_slate_loads(
    context: PredictionContext,
    worker: u32,
    operations: u32,
    loaded: u32,
    batch: &mut Batch,
)
    requires worker { worker < context.shape.workers }
    requires few { operations ≤ 8 }
    requires loaded { loaded < 3 * operations }
    requires fresh { batch.old.count ≡ 0 }
    ensures foretells { (private : Private) → IsLoadingSlate worker operations loaded private
        → Predicts context.shape context.until private (batch_actions batch.new) }
    ensures some { 1 ≤ batch.new.count }
    ensures few { batch.new.count ≤ 96 }
{
    let shape = context.shape;
    let last = 3 * operations - 1;
    for at in loaded..last {
        put(batch, [load(shape.slate_at(worker, at / 3, at % 3))]);
    }
    put(batch, [load(shape.slate_at(worker, last / 3, last % 3))]);
}

/// The loads of the named cells from `cell` on.
pub fn predict_cell_loads(
    context: PredictionContext,
    lock: u32,
    named: u64,
    cell: u32,
    batch: &mut Batch,
)
    requires lock { lock < context.shape.locks }
    requires cell { cell < context.shape.cells }
    requires room { batch.old.count + context.shape.cells ≤ 96 }
    ensures foretells { (private : Private)
        → PredictsUpToSome context.shape context.until private (batch_actions batch.old)
        (IsLoadingCells lock named cell)
        → Predicts context.shape context.until private (batch_actions batch.new) }
    ensures some { 1 ≤ batch.new.count }
    ensures few { batch.new.count ≤ 96 }
{
    let shape = context.shape;
    let mut at = cell;
    while let Some(next) = first_cell(named, at + 1, shape.cells) {
        put(batch, [load(shape.cell_at(lock, at))]);
        at = next;
    }
    put(batch, [load(shape.cell_at(lock, at))]);
}

//! The rest of a section once its script was run: the shadow words and the turn, the copies, and the receipt.

ghost use Rattle.std.specs.Prelude.{◌≡◌, ◌≢◌, ◌<◌, ◌≤◌, ◌+◌, ◌*◌, ℕ, length};
ghost use Rattle.rme_program.specs.declared.private.Private.{Private};
ghost use Rattle.rme_program.specs.declared.stage.Stage.{Stage};
ghost use Rattle.rme_program.specs.declared.stage.Log.{Log};
ghost use Rattle.rme_program.specs.declared.stage.Redo.{Redo};
ghost use Rattle.rme_program.specs.declared.stage.Departure.{Departure};
ghost use Rattle.rme_program.specs.Conditions.{IsPrivate};
ghost use Rattle.rme_program.specs.Steps.{copy_stage_from};
ghost use Rattle.rme_program.specs.Masks.{first_cell};
ghost use Rattle.rme_process_core.specs.Batches.{Predicts, batch_actions};
ghost use Rattle.rme_process_core.specs.Runs.{PredictsUpTo, private_at_stage};

use crate::actions::{expect, put, store};
use crate::flat::Batch;
use crate::notes::FINISHED;
use crate::prediction::{PredictionContext, SectionResult};
use crate::runs::predict_exit;
use rme_program::{Private, first_cell};

/// The rest of a section, and the steps after it.
pub fn predict_finish(
    context: PredictionContext,
    private: &Private,
    section: &SectionResult,
    cell: u32,
    batch: &mut Batch,
)
    requires private { IsPrivate context.shape private.now }
    requires here { private.now.stage
        ≡ Stage.Logging (Log.StoreShadows section.now.visit section.now.named section.now.row section.now.reply cell) }
    requires fresh { batch.old.count ≡ 0 }
    ensures foretells { Predicts context.shape context.until private.now (batch_actions batch.new) }
    ensures some { 1 ≤ batch.new.count }
    ensures few { batch.new.count ≤ 96 }
{
    predict_section_rest(context, private, section, cell, batch);
    let place = section.visit.turn / 2;
    if context.until != FINISHED {
        predict_exit(context, private.worker, section.visit.lock, place, batch);
    }
}

/// The steps from a shadow word to the store that finishes the job.
fn predict_section_rest(
    context: PredictionContext,
    private: &Private,
    section: &SectionResult,
    cell: u32,
    batch: &mut Batch,
)
    requires private { IsPrivate context.shape private.now }
    requires here { private.now.stage
        ≡ Stage.Logging (Log.StoreShadows section.now.visit section.now.named section.now.row section.now.reply cell) }
    requires fresh { batch.old.count ≡ 0 }
    ensures foretells { Predicts context.shape context.until private.now (batch_actions batch.new) }
    ensures leads { context.until ≢ 5
        → PredictsUpTo context.shape context.until private.now (batch_actions batch.new)
        (private_at_stage private.now.worker private.now.begun
        (Stage.Leaving (Departure.LoadExitTurn section.now.visit.lock))) }
    ensures some { 1 ≤ batch.new.count }
    ensures few { batch.new.count ≤ 57 }
{
    predict_shadow_stores(context, section, cell, batch);
    predict_turn_store(context, section, batch);
    predict_copies(context, section, batch);
    let found = expect(
        context.shape.shadow_reply_at(section.visit.lock),
        section.reply,
    );
    put(batch, [found]);
    predict_receipt_stores(context, private, section, batch);
}

/// The stores of the shadow words of the named cells from `cell` on.
fn predict_shadow_stores(
    context: PredictionContext,
    section: &SectionResult,
    cell: u32,
    batch: &mut Batch,
)
    requires lock { section.now.visit.lock < context.shape.locks }
    requires cell { cell < context.shape.cells }
    requires row { length section.now.row ≡ context.shape.cells }
    requires room { batch.old.count + context.shape.cells ≤ 96 }
    ensures leads { (start : Private) (worker begun reply : ℕ)
        → PredictsUpTo context.shape context.until start (batch_actions batch.old)
        (private_at_stage worker begun
        (Stage.Logging (Log.StoreShadows section.now.visit section.now.named section.now.row reply cell)))
        → PredictsUpTo context.shape context.until start (batch_actions batch.new)
        (private_at_stage worker begun
        (Stage.Logging (Log.StoreShadowReply section.now.visit section.now.named reply))) }
    ensures few { batch.new.count ≤ batch.old.count + context.shape.cells }
{
    let shape = context.shape;
    let lock = section.visit.lock;
    let mut at = cell;
    put(
        batch,
        [store(shape.shadow_at(lock, at), section.row.get(at))],
    );
    while let Some(next) = first_cell(section.named, at + 1, shape.cells) {
        at = next;
        put(
            batch,
            [store(shape.shadow_at(lock, at), section.row.get(at))],
        );
    }
}

/// The stores of the shadow reply, the mask and the odd turn, and the load of the mask.
fn predict_turn_store(context: PredictionContext, section: &SectionResult, batch: &mut Batch)
    requires lock { section.now.visit.lock < context.shape.locks }
    requires room { batch.old.count + 4 ≤ 96 }
    ensures leads { (start : Private) (worker begun : ℕ)
        → PredictsUpTo context.shape context.until start (batch_actions batch.old)
        (private_at_stage worker begun
        (Stage.Logging (Log.StoreShadowReply section.now.visit section.now.named section.now.reply)))
        → PredictsUpTo context.shape context.until start (batch_actions batch.new)
        (private_at_stage worker begun (copy_stage_from section.now.visit section.now.named
        (first_cell section.now.named 0 context.shape.cells))) }
    ensures count { batch.new.count ≡ batch.old.count + 4 }
{
    let shape = context.shape;
    let lock = section.visit.lock;
    put(
        batch,
        [
            store(shape.shadow_reply_at(lock), section.reply),
            store(shape.mask_at(lock), section.named),
            store(shape.turn_at(lock), u64::from(section.visit.turn) + 1),
            expect(shape.mask_at(lock), section.named),
        ],
    );
}

/// The copies of the named cells: the load of each shadow word, and the store of the cell.
fn predict_copies(context: PredictionContext, section: &SectionResult, batch: &mut Batch)
    requires lock { section.now.visit.lock < context.shape.locks }
    requires row { length section.now.row ≡ context.shape.cells }
    requires room { batch.old.count + 2 * context.shape.cells ≤ 96 }
    ensures leads { (start : Private) (worker begun : ℕ)
        → PredictsUpTo context.shape context.until start (batch_actions batch.old)
        (private_at_stage worker begun (copy_stage_from section.now.visit section.now.named
        (first_cell section.now.named 0 context.shape.cells)))
        → PredictsUpTo context.shape context.until start (batch_actions batch.new)
        (private_at_stage worker begun (Stage.Copying (Redo.LoadReply section.now.visit section.now.named))) }
    ensures few { batch.new.count ≤ batch.old.count + 2 * context.shape.cells }
{
    let shape = context.shape;
    let lock = section.visit.lock;
    let mut from = 0;
    while let Some(cell) = first_cell(section.named, from, shape.cells) {
        let value = section.row.get(cell);
        let shadow = expect(shape.shadow_at(lock, cell), value);
        put(batch, [shadow, store(shape.cell_at(lock, cell), value)]);
        from = cell + 1;
    }
}

/// The stores of a receipt: the reply, the place, the lock, and then `Done`.
fn predict_receipt_stores(
    context: PredictionContext,
    private: &Private,
    section: &SectionResult,
    batch: &mut Batch,
)
    requires worker { private.now.worker < context.shape.workers }
    requires room { batch.old.count + 4 ≤ 96 }
    ensures foretells { (start : Private) (mask : ℕ)
        → PredictsUpTo context.shape context.until start (batch_actions batch.old)
        (private_at_stage private.now.worker private.now.begun
        (Stage.Copying (Redo.StoreReply section.now.visit mask section.now.reply)))
        → Predicts context.shape context.until start (batch_actions batch.new) }
    ensures leads { context.until ≢ 5 → (start : Private) (mask : ℕ)
        → PredictsUpTo context.shape context.until start (batch_actions batch.old)
        (private_at_stage private.now.worker private.now.begun
        (Stage.Copying (Redo.StoreReply section.now.visit mask section.now.reply)))
        → PredictsUpTo context.shape context.until start (batch_actions batch.new)
        (private_at_stage private.now.worker private.now.begun
        (Stage.Leaving (Departure.LoadExitTurn section.now.visit.lock))) }
    ensures count { batch.new.count ≡ batch.old.count + 4 }
{
    let shape = context.shape;
    let worker = private.worker;
    put(
        batch,
        [
            store(shape.reply_at(worker), section.reply),
            store(shape.place_at(worker), u64::from(section.visit.turn / 2)),
            store(shape.receipt_lock_at(worker), u64::from(section.visit.lock)),
            store(shape.done_at(worker), u64::from(private.begun)),
        ],
    );
}

//! Phase Section from the odd turn on: the redo log is applied, and the job is finished.

ghost use Rattle.std.specs.Prelude.{◌≡◌, ℕ, ◌+◌, ◌*◌, ◌/◌, ◌^◌, ◌<◌, MatchResult};
ghost use Rattle.rme_program.specs.declared.stage.Stage.TheVariants.{Copying};
ghost use Rattle.rme_program.specs.declared.stage.Redo.TheVariants.{LoadMask, LoadReply, StoreDone};
ghost use Rattle.rme_program.specs.Phases.{mask_cells_below};
ghost use Rattle.rme_program.specs.Steps.{copy_stage_from};
ghost use Rattle.rme_program.specs.Masks.{first_cell};
ghost use Rattle.rme_service_steps.specs.Parts.{unchanged_part, draft_script};
ghost use Rattle.rme_service_steps.specs.CallSteps.{seat_call, CallProgress, CallFell, PartIsAtStage, PartIsBeforeStage};
ghost use Rattle.rme_service_phases.specs.Sections.{visit_of_part, RedoSteps};

use crate::open_section::OpenSection;
use rme_program::{Receipt, first_cell};
use rme_script::Script;
use rme_service_steps::{Chance, Fell, NoChange, WordTable, WorkerSeat, layout};

impl OpenSection {
    /// Copies the shadow words of the mask's cells into the cells, in ascending order.
    fn copy_cells<C: Chance>(
        self,
        seat: &mut WorkerSeat,
        service: &WordTable,
        chance: &mut C,
        mask: u64,
    ) -> Result<(), Fell>
        requires ours { seat.old.ident ≡ service.now }
        requires lock { self.lock < service.now.shape.locks }
        requires at { PartIsBeforeStage service.now.shape seat.old.part
            (copy_stage_from (visit_of_part seat.old.part self.lock self.turn) mask
            (first_cell mask 0 service.now.shape.cells)) }
        ensures { let call = seat_call service.now.shape unchanged_part seat.old seat.new (C.tally chance.old)
            (C.tally chance.new) in
            MatchResult result (λ _. CallProgress call (mask_cells_below mask service.now.shape.cells * 2)
            seat.old.part.private.begun (Copying (LoadReply (visit_of_part seat.old.part self.lock self.turn) mask)))
            (λ _. CallFell call (mask_cells_below mask service.now.shape.cells * 2)) }
    {
        let shape = service.shape();
        let mut from = 0;
        while let Some(cell) = first_cell(mask, from, shape.cells()) {
            let value = seat.load::<NoChange, C>(
                service,
                chance,
                layout::shadow_at(shape, self.lock, cell),
            )?;
            seat.store::<NoChange, C>(
                service,
                chance,
                layout::cell_at(shape, self.lock, cell),
                value,
            )?;
            from = cell + 1;
        }
        Ok(())
    }

    /// Applies the redo log: loads the mask, and copies its cells. Answers the mask.
    fn copy<C: Chance>(
        self,
        seat: &mut WorkerSeat,
        service: &WordTable,
        chance: &mut C,
    ) -> Result<u64, Fell>
        requires ours { seat.old.ident ≡ service.now }
        requires lock { self.lock < service.now.shape.locks }
        requires at { PartIsBeforeStage service.now.shape seat.old.part
            (Copying (LoadMask (visit_of_part seat.old.part self.lock self.turn))) }
        ensures { let call = seat_call service.now.shape unchanged_part seat.old seat.new (C.tally chance.old)
            (C.tally chance.new) in
            MatchResult result (λ mask. CallProgress call (1 + mask_cells_below mask service.now.shape.cells * 2)
            seat.old.part.private.begun (Copying (LoadReply (visit_of_part seat.old.part self.lock self.turn) mask)))
            (λ _. CallFell call (1 + service.now.shape.cells * 2)) }
    {
        let at = layout::mask_at(service.shape(), self.lock);
        let mask = seat.load::<NoChange, C>(service, chance, at)?;
        self.copy_cells(seat, service, chance, mask)?;
        Ok(mask)
    }

    /// Stores the receipt's words: the reply, the place and the lock. Answers the reply.
    fn store_receipt<C: Chance>(
        self,
        seat: &mut WorkerSeat,
        service: &WordTable,
        chance: &mut C,
        mask: u64,
    ) -> Result<u64, Fell>
        requires ours { seat.old.ident ≡ service.now }
        requires lock { self.lock < service.now.shape.locks }
        requires at { PartIsBeforeStage service.now.shape seat.old.part
            (Copying (LoadReply (visit_of_part seat.old.part self.lock self.turn) mask)) }
        ensures { let call = seat_call service.now.shape unchanged_part seat.old seat.new (C.tally chance.old)
            (C.tally chance.new) in
            MatchResult result (λ reply. CallProgress call 4 seat.old.part.private.begun (Copying (StoreDone
            (visit_of_part seat.old.part self.lock self.turn) mask reply)))
            (λ _. CallFell call 4) }
    {
        let shape = service.shape();
        let worker = seat.worker();
        let reply = seat.load::<NoChange, C>(
            service,
            chance,
            layout::shadow_reply_at(shape, self.lock),
        )?;
        seat.store::<NoChange, C>(service, chance, layout::reply_at(shape, worker), reply)?;
        seat.store::<NoChange, C>(
            service,
            chance,
            layout::place_at(shape, worker),
            self.turn as u64 / 2,
        )?;
        seat.store::<NoChange, C>(
            service,
            chance,
            layout::receipt_lock_at(shape, worker),
            self.lock as u64,
        )?;
        Ok(reply)
    }

    /// From the load of the mask to the store of `Done`: applies the redo log, stores the receipt's words, and finishes
    /// the job. `script` is that of the job; appends its entry to the worker's.
    pub(crate) fn complete<C: Chance>(
        self,
        seat: &mut WorkerSeat,
        service: &WordTable,
        chance: &mut C,
        script: &Script,
    ) -> Result<Receipt, Fell>
        requires ours { seat.old.ident ≡ service.now }
        requires lock { self.lock < service.now.shape.locks }
        requires begun { self.begun ≡ seat.old.part.private.begun }
        requires at { PartIsBeforeStage service.now.shape seat.old.part
            (Copying (LoadMask (visit_of_part seat.old.part self.lock self.turn))) }
        requires script { draft_script seat.old.part.draft ≡ script.now }
        ensures { let call = seat_call service.now.shape unchanged_part seat.old seat.new (C.tally chance.old)
            (C.tally chance.new) in
            MatchResult result (λ receipt. RedoSteps call self.begun self.lock self.turn receipt)
            (λ _. CallFell call (6 + service.now.shape.cells * 2)) }
    {
        let worker = seat.worker();
        let mask = self.copy(seat, service, chance)?;
        let reply = self.store_receipt(seat, service, chance, mask)?;
        let receipt = Receipt {
            worker,
            lock: self.lock,
            number: self.begun,
            place: self.turn / 2,
            reply,
        };
        seat.finish(service, chance, receipt, script)?;
        Ok(receipt)
    }
}

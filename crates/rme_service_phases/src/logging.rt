//! Phase Section until the turn is odd: the worker runs its script, and writes the redo log.

ghost use Rattle.std.specs.Prelude.{◌≡◌, ℕ, ◌+◌, ◌*◌, ◌%◌, ◌<◌, ◌≤◌, Some, MatchResult, IfOk, OnOk, length, take, replicate};
ghost use Rattle.rme_script.specs.Programs.{Program};
ghost use Rattle.rme_script.specs.Scripts.{IsScript};
ghost use Rattle.rme_program.specs.declared.stage.Stage.TheVariants.{Logging, Copying};
ghost use Rattle.rme_program.specs.declared.stage.Log.TheVariants.{LoadLen, StoreShadowReply};
ghost use Rattle.rme_program.specs.declared.stage.Redo.TheVariants.{LoadMask};
ghost use Rattle.rme_program.specs.Phases.{mask_cells_below};
ghost use Rattle.rme_program.specs.Masks.{mask_of, first_cell};
ghost use Rattle.rme_program.specs.Steps.{slate_stage, script_stage, cell_stage_from, run_stage, shadow_stage_from, logging_section};
ghost use Rattle.rme_script.specs.Slates.{slate_of};
ghost use Rattle.rme_service_steps.specs.Parts.{unchanged_part, draft_script};
ghost use Rattle.rme_service_steps.specs.CallSteps.{seat_call, CallProgress, CallFell, PartIsBeforeStage};
ghost use Rattle.rme_service_phases.specs.Sections.{visit_from_even_turn, SlateIsRead, LogSteps};

use crate::open_section::OpenSection;
use rme_program::{first_cell, mask_of};
use rme_script::{Row, Script, eval, read_slate};
use rme_service_steps::{Chance, Fell, NoChange, WordTable, WorkerSeat, layout};

/// A section at an even turn whose script was read: the number of its operations, and the mask of the cells that they
/// name.
#[derive(Clone, Copy)]
struct EvenSection {
    lock: u32,
    turn: u32,
    operations: u32,
    named: u64,
}

/// What a script leaves: the cells after it, and its reply.
#[derive(Clone, Copy)]
struct ScriptOutcome {
    row: Row,
    reply: u64,
}

impl OpenSection {
    /// From the load of the slate's length to the store of the odd turn: reads the script and the cells that it names,
    /// runs it, and writes the redo log. The script is that of the worker's job.
    pub(crate) fn log<C: Chance>(
        self,
        seat: &mut WorkerSeat,
        service: &WordTable,
        chance: &mut C,
        script: &mut Script,
    ) -> Result<(), Fell>
        requires ours { seat.old.ident ≡ service.now }
        requires lock { self.lock < service.now.shape.locks }
        requires at { PartIsBeforeStage service.now.shape seat.old.part (Logging (LoadLen self.lock self.turn)) }
        ensures script { OnOk result (script.new ≡ draft_script seat.old.part.draft) }
        ensures logs { let call = seat_call service.now.shape unchanged_part seat.old seat.new (C.tally chance.old)
            (C.tally chance.new) in
            MatchResult result (λ _. LogSteps call self.lock self.turn)
            (λ _. CallFell call (28 + service.now.shape.cells * 2)) }
    {
        let shape = service.shape();
        let at = layout::slate_len_at(shape, seat.worker());
        let operations = seat.load::<NoChange, C>(service, chance, at)?;
        let words = self.load_slate(seat, service, chance, operations as u32)?;
        if !read_slate(operations, &words, script) {
            unreachable!();
        }
        self.run_and_log(seat, service, chance, script)
    }

    /// Loads the words of the slate's operations; those behind them are 0.
    fn load_slate<C: Chance>(
        self,
        seat: &mut WorkerSeat,
        service: &WordTable,
        chance: &mut C,
        operations: u32,
    ) -> Result<[u64; 24], Fell>
        requires ours { seat.old.ident ≡ service.now }
        requires few { operations ≤ 8 }
        requires operations { operations ≡ (draft_script seat.old.part.draft).n }
        requires at { PartIsBeforeStage service.now.shape seat.old.part
            (slate_stage service.now.shape self.lock self.turn operations (replicate 24 0) 0) }
        ensures read { IfOk result (λ words. SlateIsRead service.now.shape operations words) }
        ensures drafted { IfOk result (λ words. take (3 * operations) words ≡ take (3 * operations)
            (slate_of (draft_script seat.old.part.draft).ops)) }
        ensures loads { let call = seat_call service.now.shape unchanged_part seat.old seat.new (C.tally chance.old)
            (C.tally chance.new) in
            MatchResult result (λ words. CallProgress call (3 * operations) seat.old.part.private.begun (slate_stage
            service.now.shape self.lock self.turn operations words (3 * operations)))
            (λ _. CallFell call (3 * operations)) }
    {
        let shape = service.shape();
        let worker = seat.worker();
        let mut words = [0; 24];
        for i in 0..3 * operations {
            let at = layout::slate_at(shape, worker, i / 3, i % 3);
            words[i as usize] = seat.load::<NoChange, C>(service, chance, at)?;
        }
        Ok(words)
    }

    /// Loads the cells that the script names, runs it on them, and writes the redo log.
    fn run_and_log<C: Chance>(
        self,
        seat: &mut WorkerSeat,
        service: &WordTable,
        chance: &mut C,
        script: &Script,
    ) -> Result<(), Fell>
        requires ours { seat.old.ident ≡ service.now }
        requires lock { self.lock < service.now.shape.locks }
        requires good { IsScript service.now.shape.cells script.now }
        requires at { PartIsBeforeStage service.now.shape seat.old.part
            (script_stage service.now.shape self.lock self.turn (Some script.now)) }
        ensures { let call = seat_call service.now.shape unchanged_part seat.old seat.new (C.tally chance.old)
            (C.tally chance.new) in
            MatchResult result (λ _. CallProgress call (3 + mask_cells_below (mask_of script.now.ops)
            service.now.shape.cells * 2) seat.old.part.private.begun
            (Copying (LoadMask (visit_from_even_turn self.lock self.turn script.now.n (mask_of script.now.ops)))))
            (λ _. CallFell call (3 + mask_cells_below (mask_of script.now.ops) service.now.shape.cells * 2)) }
    {
        let named = mask_of(script);
        let section = EvenSection {
            lock: self.lock,
            turn: self.turn,
            operations: script.n(),
            named,
        };
        let mut row = section.load_cells(seat, service, chance, script)?;
        let reply = eval(script, &mut row);
        let outcome = ScriptOutcome { row, reply };
        section.store_shadows(seat, service, chance, &outcome)?;
        section.write_down(seat, service, chance, reply)
    }
}

impl EvenSection {
    /// Loads the named cells, in ascending order. The others are 0 in the row.
    fn load_cells<C: Chance>(
        self,
        seat: &mut WorkerSeat,
        service: &WordTable,
        chance: &mut C,
        script: &Script,
    ) -> Result<Row, Fell>
        requires ours { seat.old.ident ≡ service.now }
        requires lock { self.lock < service.now.shape.locks }
        requires at { PartIsBeforeStage service.now.shape seat.old.part
            (cell_stage_from service.now.shape (logging_section self.lock self.turn script.now self.named)
            (replicate service.now.shape.cells 0) (first_cell self.named 0 service.now.shape.cells)) }
        ensures row { IfOk result (λ row. length row ≡ service.now.shape.cells) }
        ensures loads { let call = seat_call service.now.shape unchanged_part seat.old seat.new (C.tally chance.old)
            (C.tally chance.new) in
            MatchResult result (λ row. CallProgress call (mask_cells_below self.named service.now.shape.cells * 1)
            seat.old.part.private.begun (run_stage service.now.shape
            (logging_section self.lock self.turn script.now self.named) row))
            (λ _. CallFell call (mask_cells_below self.named service.now.shape.cells * 1)) }
    {
        let shape = service.shape();
        let mut row = Row::zeros(shape);
        let mut from = 0;
        while let Some(cell) = first_cell(self.named, from, shape.cells()) {
            let value = seat.load::<NoChange, C>(
                service,
                chance,
                layout::cell_at(shape, self.lock, cell),
            )?;
            row.set(cell, value);
            from = cell + 1;
        }
        Ok(row)
    }

    /// Stores the shadow words of the named cells, in ascending order.
    fn store_shadows<C: Chance>(
        self,
        seat: &mut WorkerSeat,
        service: &WordTable,
        chance: &mut C,
        outcome: &ScriptOutcome,
    ) -> Result<(), Fell>
        requires ours { seat.old.ident ≡ service.now }
        requires lock { self.lock < service.now.shape.locks }
        requires row { length outcome.now.row ≡ service.now.shape.cells }
        requires at { PartIsBeforeStage service.now.shape seat.old.part
            (shadow_stage_from (visit_from_even_turn self.lock self.turn self.operations self.named) self.named
            outcome.now.row outcome.now.reply (first_cell self.named 0 service.now.shape.cells)) }
        ensures { let call = seat_call service.now.shape unchanged_part seat.old seat.new (C.tally chance.old)
            (C.tally chance.new) in
            MatchResult result (λ _. CallProgress call (mask_cells_below self.named service.now.shape.cells * 1)
            seat.old.part.private.begun (Logging (StoreShadowReply
            (visit_from_even_turn self.lock self.turn self.operations self.named) self.named outcome.now.reply)))
            (λ _. CallFell call (mask_cells_below self.named service.now.shape.cells * 1)) }
    {
        let shape = service.shape();
        let mut from = 0;
        while let Some(cell) = first_cell(self.named, from, shape.cells()) {
            seat.store::<NoChange, C>(
                service,
                chance,
                layout::shadow_at(shape, self.lock, cell),
                outcome.row.get(cell),
            )?;
            from = cell + 1;
        }
        Ok(())
    }

    /// Stores the shadow reply, the mask and the odd turn. From then on a recovery only applies the redo log again.
    fn write_down<C: Chance>(
        self,
        seat: &mut WorkerSeat,
        service: &WordTable,
        chance: &mut C,
        reply: u64,
    ) -> Result<(), Fell>
        requires ours { seat.old.ident ≡ service.now }
        requires lock { self.lock < service.now.shape.locks }
        requires at { PartIsBeforeStage service.now.shape seat.old.part
            (Logging (StoreShadowReply (visit_from_even_turn self.lock self.turn self.operations self.named) self.named
            reply)) }
        ensures { let call = seat_call service.now.shape unchanged_part seat.old seat.new (C.tally chance.old)
            (C.tally chance.new) in
            MatchResult result (λ _. CallProgress call 3 seat.old.part.private.begun (Copying (LoadMask
            (visit_from_even_turn self.lock self.turn self.operations self.named))))
            (λ _. CallFell call 3) }
    {
        let shape = service.shape();
        seat.store::<NoChange, C>(
            service,
            chance,
            layout::shadow_reply_at(shape, self.lock),
            reply,
        )?;
        seat.store::<NoChange, C>(
            service,
            chance,
            layout::mask_at(shape, self.lock),
            self.named,
        )?;
        seat.store::<NoChange, C>(
            service,
            chance,
            layout::turn_at(shape, self.lock),
            self.turn as u64 + 1,
        )?;
        Ok(())
    }
}

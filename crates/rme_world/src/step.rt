//! One own step of one worker.

ghost use Rattle.std.specs.Prelude.{◌≡◌, ◌<◌, ◌+◌, ◌-◌, length};
ghost use Rattle.rme_program.specs.declared.note.Note.{Note};
ghost use Rattle.rme_program.specs.declared.note.Receipt.{Receipt};
ghost use Rattle.rme_machine.specs.Changes.{history_after};
ghost use Rattle.rme_words.specs.Words.{memory_of};

use crate::perform::perform;
use crate::world::World;
use rme_core_image_check::slate;
use rme_history::EntryList;
use rme_program::{Note, Phase, Stage, after, next, phase};
use rme_words::{Bank, Refusal};

/// The report of an own step.
#[derive(Clone, Copy)]
pub struct StepReport {
    /// The observable effect.
    pub note: Note,
    /// The phase in which the step was made.
    pub phase: Phase,
    /// The number of own steps that the worker has then made in its latest stay in that phase, without blocked steps.
    pub steps: u32,
}

impl World {
    ghost use Rattle.std.specs.Prelude.{◌≡◌, Some, OnOk, IfOk, IfErr};
    ghost use Rattle.rme_program.specs.declared.stage.Stage.{Stage};
    ghost use Rattle.rme_world.specs.Counting.{phase_count};
    ghost use Rattle.rme_world.specs.WorldViews.{worker_counts};
    ghost use Rattle.rme_world.specs.WorldInvariants.{WorldInvariant};
    ghost use Rattle.rme_world.specs.StepReports.{note_of_report};
    ghost use Rattle.rme_world.specs.Refusals.{step_refusal};
    ghost use Rattle.rme_world.specs.Events.{StepChange};
    ghost use Rattle.rme_world.specs.Queries.{WorkerIsBusy, world_phase};
    ghost use Rattle.rme_world.specs.Calls.{StepContract};

    /// Executes the next own step of a worker, an operation on one word, and answers its note.
    ///
    /// Refused by `NoWorker`, then by `Down`, then by `Idle` (the worker is ready and has no job); a refusal changes
    /// nothing.
    pub fn step(&mut self, worker: u32) -> Result<Note, Refusal>
        ensures { StepContract self.old worker result self.new }
    {
        match self.step_with_report(worker) {
            Ok(stride) => Ok(stride.note),
            Err(refusal) => Err(refusal),
        }
    }

    /// Executes the next own step of a worker, as `step` does. The report also has the phase in which it was made, and
    /// what `steps` answers for that phase afterwards.
    pub fn step_with_report(&mut self, worker: u32) -> Result<StepReport, Refusal>
        ensures stepped { StepContract self.old worker (note_of_report result) self.new }
        ensures phase { IfOk result (λ stride. world_phase self.old worker ≡ Some stride.phase) }
        ensures steps { IfOk result (λ stride. stride.steps
            ≡ phase_count (worker_counts self.new worker) stride.phase) }
    {
        if let Err(refusal) = self.may_step(worker) {
            return Err(refusal);
        }
        let (note, phase) = self.execute_step(worker);
        let steps = self.counts_at(worker).of(phase);
        Ok(StepReport { note, phase, steps })
    }

    /// Accepts a worker that is up and not ready, or answers the refusal.
    fn may_step(&self, worker: u32) -> Result<(), Refusal>
        ensures kept { WorldInvariant self.now }
        ensures busy { OnOk result (WorkerIsBusy self.now worker) }
        ensures refused { IfErr result (λ refusal. step_refusal self.now worker ≡ Some refusal) }
    {
        match self.privates.get(worker as usize) {
            None => Err(Refusal::NoWorker),
            Some(None) => Err(Refusal::Down),
            Some(Some(private)) => {
                if let Stage::Resting = private.stage {
                    return Err(Refusal::Idle);
                }
                Ok(())
            }
        }
    }

    /// Executes the step of a worker that is up and not ready; answers its note and the phase in which it was made.
    fn execute_step(&mut self, worker: u32) -> (Note, Phase)
        requires busy { WorkerIsBusy self.old worker }
        ensures steps { StepChange self.old worker result.0 self.new }
        ensures phase { world_phase self.old worker ≡ Some result.1 }
    {
        let shape = self.bank.shape();
        let Some(private) = &mut self.privates[worker as usize] else {
            unreachable!();
        };
        let before = phase(private);
        let found = perform(&mut self.bank, next(shape, private));
        let note = after(shape, private, found);
        let now = phase(private);
        record(&mut self.history, &self.bank, worker, note);
        let counts = &mut self.counts[worker as usize];
        counts.after_step(before, now, note);
        (note, before)
    }
}

/// Appends a finished section to the history, which has room for it; the room shrinks by one.
fn record(history: &mut EntryList, bank: &Bank, worker: u32, note: Note)
    requires worker { worker < bank.now.shape.workers }
    requires room { (receipt : Receipt) → note ≡ Note.Finished receipt → length history.old.entries < history.old.room }
    ensures entries { history.new.entries ≡ history_after history.old.entries (memory_of bank.now) worker note }
    ensures room { length history.new.entries + (history.new.room - length history.new.entries) ≡ length
        history.old.entries + (history.old.room - length history.old.entries) }
{
    let Note::Finished(receipt) = note else {
        return;
    };
    history.push(receipt, &slate(bank, worker));
}

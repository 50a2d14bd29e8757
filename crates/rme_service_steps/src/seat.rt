//! A worker's seat, and its own steps.

ghost use Rattle.std.specs.Prelude.{◌≡◌};

use crate::chance::Chance;
use crate::effects::{OwnStep, ReaderLoad, SectionLoad};
use crate::layout;
use crate::local_changes::{JobTag, LocalChange, NoChange, Submit};
use crate::rule::TableSeat;
use crate::word_table::WordTable;
use rme_history::EntryList;
use rme_program::Receipt;
use rme_script::Script;
use std::marker::Model;

/// The worker crashed before its next own step.
#[derive(Clone, Copy)]
pub struct Fell;

/// The replacement of a word: it becomes `to` if it is `from`, and otherwise stays.
#[derive(Clone, Copy)]
pub struct WordSwap {
    pub from: u64,
    pub to: u64,
}

/// What a worker steps by: its seat at the words, and the list of its finished sections, which no step reads.
#[derive(Drop)]
pub struct WorkerSeat {
    pub(crate) seat: TableSeat,
    pub(crate) worker: u32,
    /// Whether the worker was ever given a job.
    pub(crate) drafted: bool,
    pub(crate) entries: EntryList,
}

impl Model for WorkerSeat {
    ghost use Rattle.rme_service_steps.specs.Rule.{only_part};
    ghost use Rattle.rme_service_steps.specs.SeatViews.{SeatView, SeatInvariant};

    ghost Value = { SeatView };

    ghost view = { λ s. record {
      ident = record { table = s.seat.table_id; shape = s.seat.me.0.shape };
      part = only_part
          s.seat.me.0;
    } };

    ghost invariant = { λ s. SeatInvariant s.seat.me s.worker s.drafted s.entries.entries s.entries.room };
}

impl WorkerSeat {
    ghost use Rattle.std.specs.Prelude.{◌≡◌, ◌+◌, ◌^◌, ◌<◌, is_some, MatchResult};
    ghost use Rattle.rme_words.specs.declared.address.Address.{Address};
    ghost use Rattle.rme_words.specs.Words.{IsShapeAddress};
    ghost use Rattle.rme_service_steps.specs.Layout.{position_of_address};
    ghost use Rattle.rme_service_steps.specs.Parts.{unchanged_part, submitted_part, part_with_section, draft_script};
    ghost use Rattle.rme_service_steps.specs.Steps.{PartWasInWorld, PartReadsWord};
    ghost use Rattle.rme_service_steps.specs.Chances.{ChanceWasAsked};
    ghost use Rattle.rme_program.specs.declared.action.Action.TheVariants.{Store};
    ghost use Rattle.rme_service_steps.specs.CallSteps.{seat_call, StepIsAllowed, LoadIsAllowed, StoreIsAllowed, SwapIsAllowed, TurnIsNext, FinishIsAllowed, OwnStepWasMade, FellBeforeStep};

    /// The worker's number.
    pub fn worker(&self) -> u32
        ensures worker { result ≡ self.now.part.worker }
        ensures stood { PartWasInWorld self.now.ident.shape self.now.part }
    {
        self.worker
    }

    /// The worker's finished sections, in order.
    pub fn entries(&self) -> &EntryList
        ensures { result.now.entries ≡ self.now.part.entries }
    {
        &self.entries
    }

    /// Whether the worker was ever given a job.
    pub fn is_drafted(&self) -> bool
        ensures { result ≡ is_some self.now.part.draft }
    {
        self.drafted
    }

    /// The worker's own step that loads the word at this position.
    pub fn load<X: LocalChange, C: Chance>(
        &mut self,
        service: &WordTable,
        chance: &mut C,
        at: usize,
    ) -> Result<u64, Fell>
        requires ours { self.old.ident ≡ service.now }
        requires may { LoadIsAllowed service.now.shape X.lead self.old.part at }
        ensures { let call = seat_call service.now.shape X.lead self.old self.new (C.tally chance.old)
            (C.tally chance.new) in
            MatchResult result (λ v. OwnStepWasMade call v) (λ _. FellBeforeStep call) }
    {
        if chance.falls() {
            return Err(Fell);
        }
        let found = service.table.shared.load::<OwnStep<X>>(&mut self.seat, at);
        Ok(found)
    }

    /// The worker's own step that stores a value into the word at this position.
    pub fn store<X: LocalChange, C: Chance>(
        &mut self,
        service: &WordTable,
        chance: &mut C,
        at: usize,
        value: u64,
    ) -> Result<(), Fell>
        requires ours { self.old.ident ≡ service.now }
        requires may { StoreIsAllowed service.now.shape X.lead self.old.part at value }
        ensures { let call = seat_call service.now.shape X.lead self.old self.new (C.tally chance.old)
            (C.tally chance.new) in
            MatchResult result (λ _. OwnStepWasMade call value) (λ _. FellBeforeStep call) }
    {
        if chance.falls() {
            return Err(Fell);
        }
        service
            .table
            .shared
            .store::<OwnStep<X>>(&mut self.seat, at, value);
        Ok(())
    }

    /// The worker's own step that replaces the word at this position; answers the value that it found.
    pub fn swap<X: LocalChange, C: Chance>(
        &mut self,
        service: &WordTable,
        chance: &mut C,
        at: usize,
        words: WordSwap,
    ) -> Result<u64, Fell>
        requires ours { self.old.ident ≡ service.now }
        requires may { SwapIsAllowed service.now.shape X.lead self.old.part at words.from words.to }
        ensures { let call = seat_call service.now.shape X.lead self.old self.new (C.tally chance.old)
            (C.tally chance.new) in
            MatchResult result (λ v. OwnStepWasMade call v) (λ _. FellBeforeStep call) }
    {
        if chance.falls() {
            return Err(Fell);
        }
        let found = service
            .table
            .shared
            .compare_exchange::<OwnStep<X>>(&mut self.seat, at, words.from, words.to);
        Ok(found)
    }

    /// The first step of a post: the worker is given the job, and stores its lock.
    pub fn submit<J: JobTag, C: Chance>(
        &mut self,
        service: &WordTable,
        chance: &mut C,
        at: usize,
        lock: u64,
    ) -> Result<(), Fell>
        requires ours { self.old.ident ≡ service.now }
        requires may { (address : Address)
            × StepIsAllowed service.now.shape (submitted_part J.job) self.old.part (Store address lock) at }
        ensures { let call = seat_call service.now.shape (submitted_part J.job) self.old self.new (C.tally chance.old)
            (C.tally chance.new) in
            MatchResult result (λ _. OwnStepWasMade call lock) (λ _. FellBeforeStep call) }
    {
        if chance.falls() {
            return Err(Fell);
        }
        service
            .table
            .shared
            .store::<OwnStep<Submit<J>>>(&mut self.seat, at, lock);
        self.drafted = true;
        Ok(())
    }

    /// The store of `Done` that finishes a section; appends the section's entry to the worker's.
    pub fn finish<C: Chance>(
        &mut self,
        service: &WordTable,
        chance: &mut C,
        receipt: Receipt,
        script: &Script,
    ) -> Result<(), Fell>
        requires ours { self.old.ident ≡ service.now }
        requires may { FinishIsAllowed service.now.shape self.old.part
            (position_of_address service.now.shape (Address.Done self.old.part.worker)) receipt }
        requires script { draft_script self.old.part.draft ≡ script.now }
        ensures { let call = seat_call service.now.shape unchanged_part self.old self.new (C.tally chance.old)
            (C.tally chance.new) in
            MatchResult result (λ _. OwnStepWasMade call receipt.number) (λ _. FellBeforeStep call) }
    {
        let at = layout::done_at(service.shape(), self.worker());
        if chance.falls() {
            return Err(Fell);
        }
        service
            .table
            .shared
            .store::<OwnStep<NoChange>>(&mut self.seat, at, receipt.number as u64);
        self.entries.push(receipt, script);
        Ok(())
    }

    /// The number of finished sections of the lock that the worker is inside of, before its first own step there. The
    /// load is a reader's: the worker makes no step. From then on its part knows the number, until its section is
    /// finished.
    pub fn load_section(&mut self, service: &WordTable, at: usize) -> u64
        requires ours { self.old.ident ≡ service.now }
        requires inside { TurnIsNext service.now.shape self.old.part at }
        ensures known { self.new ≡ record { ident = self.old.ident; part = part_with_section self.old.part result } }
        ensures few { result < 2 ^ 31 }
        ensures stood { PartWasInWorld self.new.ident.shape self.new.part }
    {
        service.table.shared.load::<SectionLoad>(&mut self.seat, at) / 2
    }

    /// A reader's load of the word at this position. It is no own step: it changes no word and no record.
    pub fn load_as_reader(&mut self, service: &WordTable, at: usize) -> u64
        requires ours { self.old.ident ≡ service.now }
        requires address { (address : Address) × IsShapeAddress service.now.shape address
            × (at ≡ position_of_address service.now.shape address) }
        ensures same { self.new ≡ self.old }
        ensures sees { (address : Address) → IsShapeAddress service.now.shape address
            → at ≡ position_of_address service.now.shape address
            → PartReadsWord service.now.shape self.old.part address result }
    {
        service.table.shared.load::<ReaderLoad>(&mut self.seat, at)
    }
}

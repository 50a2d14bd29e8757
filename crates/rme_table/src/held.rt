//! A worker that owns the lock of its job.

use crate::down::Down;
use crate::exit_form::ExitForm;
use crate::job::read_job;
use crate::kinds::{Held, Leave};
use crate::service::Service;
use rme_program::Receipt;
use rme_script::Job;
use rme_service_phases::perform;
use rme_service_steps::{Chance, layout};

impl Held {
    ghost use Rattle.std.specs.Prelude.{◌≡◌, ◌≢◌, ◌+◌, ◌*◌, ◌<◌, MatchResult};
    ghost use Rattle.rme_program.specs.declared.kinds.Phase.{Phase};
    ghost use Rattle.rme_program.specs.Phases.{phase_of};
    ghost use Rattle.rme_service_steps.specs.CallSteps.{seat_call, CallFell};
    ghost use Rattle.rme_service_steps.specs.SeatViews.{SeatView};
    ghost use Rattle.std.specs.Prelude.{Some, false, true, List, [], ◌∷◌, ◌++◌};
    ghost use Rattle.rme_program.specs.declared.note.Entry.{Entry};
    ghost use Rattle.rme_service_steps.specs.Parts.{unchanged_part};
    ghost use Rattle.rme_table.specs.Calls.{PartOwnsLock, PerformContract, FinishedPerformContract, SectionContract, is_section_over, held_phase};

    /// The worker's number.
    pub fn worker(&self) -> u32
        ensures worker { result ≡ self.now.part.worker }
        ensures phase { phase_of self.now.part.private.stage
            ≡ held_phase (is_section_over self.now.part.private.stage) }
    {
        self.seat.worker()
    }

    /// The number of its job.
    pub fn number(&self) -> u32
        ensures { result ≡ self.now.part.private.begun }
    {
        self.begun
    }

    /// The lock that it owns.
    pub fn lock(&self) -> u32
        ensures { PartOwnsLock self.now.ident.shape self.now.part result }
    {
        self.lock
    }

    /// Whether its job is already finished.
    pub fn finished(&self) -> bool
        ensures { result ≡ is_section_over self.now.part.private.stage }
    {
        !self.pending
    }

    /// The number of finished sections of its lock: the place that the receipt of its job has. It is the same for each
    /// `Held` of one job, and larger for each later job of the lock. A reader's load finds it, or the last entry of a
    /// finished job; no own step is made.
    pub fn section(&mut self, service: &Service) -> u32
        requires ours { self.old.ident ≡ service.now }
        ensures section { SectionContract (is_section_over self.old.part.private.stage) self.old self.new result }
        ensures ours { self.new.ident ≡ self.old.ident }
    {
        if !self.pending {
            return self.last_place();
        }
        let at = layout::turn_at(service.words.shape(), self.lock);
        self.seat.load_section(&service.words, at) as u32
    }

    /// The place of the last entry's receipt.
    fn last_place(&self) -> u32
        requires over { is_section_over self.now.part.private.stage ≡ true }
        ensures { (before : List Entry) × (last : Entry) × (self.now.part.entries ≡ before ++ last ∷ [])
            × (last.receipt.place ≡ result) }
    {
        let Some(entry) = self.seat.entries().last() else {
            unreachable!();
        };
        entry.receipt.place
    }

    /// The job with which it is inside, read from its slate; the job is unfinished.
    pub fn job(&mut self, service: &Service) -> Job
        requires ours { self.old.ident ≡ service.now }
        requires pending { is_section_over self.old.part.private.stage ≡ false }
        ensures same { self.new ≡ self.old }
        ensures draft { self.old.part.draft ≡ Some result }
    {
        read_job(&mut self.seat, &service.words, self.lock)
    }

    /// Runs the section, or redoes it if it was begun before a crash, so that it counts once, and answers the job's
    /// receipt; a finished job's receipt is answered without an own step.
    pub fn perform<C: Chance>(
        self,
        service: &Service,
        chance: &mut C,
    ) -> Result<(Leave, Receipt), Down>
        requires ours { self.ident ≡ service.now }
        ensures { let call_to = λ (end : SeatView). seat_call service.now.shape unchanged_part self end
            (C.tally chance.old) (C.tally chance.new) in
            MatchResult result (λ done. PerformContract (is_section_over self.part.private.stage)
            (call_to done.0) done.1)
            (λ down. CallFell (call_to down) (35 + service.now.shape.cells * 4)) }
    {
        if !self.pending {
            return Ok(self.last_receipt_again());
        }
        let Held {
            mut seat,
            begun,
            lock,
            pending: _,
        } = self;
        let Ok(receipt) = perform(&mut seat, &service.words, chance, begun, lock) else {
            return Err(Down { seat });
        };
        let way = ExitForm::Whole;
        Ok((
            Leave {
                seat,
                begun,
                lock,
                way,
            },
            receipt,
        ))
    }

    /// The receipt of a job that is finished.
    fn last_receipt_again(self) -> (Leave, Receipt)
        requires over { is_section_over self.part.private.stage ≡ true }
        ensures same { result.0 ≡ self }
        ensures last { (before : List Entry) × (last : Entry) × (self.part.entries ≡ before ++ last ∷ [])
            × (last.receipt ≡ result.1) }
    {
        let Held {
            seat,
            begun,
            lock,
            pending: _,
        } = self;
        let Some(entry) = seat.entries().last() else {
            unreachable!();
        };
        let receipt = entry.receipt;
        let leave = Leave {
            seat,
            begun,
            lock,
            way: ExitForm::Whole,
        };
        (leave, receipt)
    }

    /// Crashes the worker.
    pub fn crash(self) -> Down
        ensures { result ≡ self }
    {
        let Held {
            seat,
            begun: _,
            lock: _,
            pending: _,
        } = self;
        Down { seat }
    }
}

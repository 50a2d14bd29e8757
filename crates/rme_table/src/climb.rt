//! A worker that waits for the lock of its job.

use crate::down::Down;
use crate::job::read_job;
use crate::kinds::{Climb, Held, Ready, Sweep};
use crate::service::Service;
use rme_program::Ascent;
use rme_script::Job;
use rme_service_phases::{Climbed, climb, withdraw};
use rme_service_steps::Chance;

impl Climb {
    ghost use Rattle.std.specs.Prelude.{◌≡◌, ◌≢◌, ◌+◌, ◌*◌, ◌<◌, MatchResult};
    ghost use Rattle.rme_program.specs.declared.kinds.Phase.{Phase};
    ghost use Rattle.rme_program.specs.Phases.{phase_of};
    ghost use Rattle.rme_program.specs.declared.stage.Stage.TheVariants.{Climbing};
    ghost use Rattle.rme_service_steps.specs.CallSteps.{seat_call, CallFell};
    ghost use Rattle.rme_service_steps.specs.SeatViews.{SeatView};
    ghost use Rattle.rme_script.specs.declared.job.Job.{Job};
    ghost use Rattle.std.specs.Prelude.{Some};
    ghost use Rattle.rme_service_steps.specs.Parts.{withdrawing_part};
    ghost use Rattle.rme_service_steps.specs.Running.{ChangeIsServiceRun, withdraw_labels};
    ghost use Rattle.rme_table.specs.Calls.{PartHoldsNoNode, CallIsDone, TryEnterContract, levels_held};

    /// The worker's number.
    pub fn worker(&self) -> u32
        ensures worker { result ≡ self.now.part.worker }
        ensures phase { phase_of self.now.part.private.stage ≡ Phase.Enter }
    {
        self.seat.worker()
    }

    /// The number of its job.
    pub fn number(&self) -> u32
        ensures { result ≡ self.now.part.private.begun }
    {
        self.begun
    }

    /// The lock that it waits for.
    pub fn lock(&self) -> u32
        ensures { (job : Job) × (self.now.part.draft ≡ Some job) × (job.lock ≡ result) }
    {
        self.lock
    }

    /// Where it waits: its lock, and the levels of the lock's tree that it holds.
    pub fn ascent(&self) -> Ascent
        ensures { self.now.part.private.stage ≡ Climbing result }
    {
        Ascent {
            lock: self.lock,
            held: self.held,
        }
    }

    /// The job that it waits with, read from its slate.
    pub fn job(&mut self, service: &Service) -> Job
        requires ours { self.old.ident ≡ service.now }
        ensures same { self.new ≡ self.old }
        ensures draft { self.old.part.draft ≡ Some result }
    {
        read_job(&mut self.seat, &service.words, self.lock)
    }

    /// One sweep: climbs until the root is taken, or to the first node that another worker holds.
    pub fn try_enter<C: Chance>(self, service: &Service, chance: &mut C) -> Sweep
        requires ours { self.ident ≡ service.now }
        ensures { TryEnterContract service.now.shape self (C.tally chance.old) (C.tally chance.new) result }
    {
        let Climb {
            mut seat,
            begun,
            lock,
            held,
        } = self;
        match climb(&mut seat, &service.words, chance, lock, held) {
            Err(_) => Sweep::Fell(Down { seat }),
            Ok(Climbed::Entered) => Sweep::Got(Held {
                seat,
                begun,
                lock,
                pending: true,
            }),
            Ok(Climbed::Blocked { held }) => Sweep::Blocked(Climb {
                seat,
                begun,
                lock,
                held,
            }),
        }
    }

    /// Withdraws the job: its number is withdrawn, all nodes are released, and the worker is ready again.
    pub fn withdraw<C: Chance>(self, service: &Service, chance: &mut C) -> Result<Ready, Down>
        requires ours { self.ident ≡ service.now }
        ensures made { let call_to = λ (end : SeatView). seat_call service.now.shape withdrawing_part self end
            (C.tally chance.old) (C.tally chance.new) in
            MatchResult result (λ ready. CallIsDone (call_to ready) 4 (service.now.shape.height + 3))
            (λ down. CallFell (call_to down) (service.now.shape.height + 3)) }
        ensures steps { MatchResult result (λ ready. ready.part.steps ≡ self.part.steps + 4 + levels_held
            self.part.private.stage) (λ _. Unit {0}) }
        ensures lead { ChangeIsServiceRun service.now.shape self.part withdrawing_part (withdraw_labels self.part) }
        ensures number { MatchResult result (λ ready. ready.part.private.begun ≡ self.part.private.begun)
            (λ _. Unit {0}) }
        ensures holds_none { MatchResult result (λ ready. PartHoldsNoNode service.now.shape ready.part)
            (λ _. Unit {0}) }
    {
        let Climb {
            mut seat,
            begun,
            lock,
            held,
        } = self;
        let ascent = Ascent { lock, held };
        let Ok(()) = withdraw(&mut seat, &service.words, chance, ascent, begun) else {
            return Err(Down { seat });
        };
        Ok(Ready { seat, begun })
    }

    /// Crashes the worker.
    pub fn crash(self) -> Down
        ensures { result ≡ self }
    {
        let Climb {
            seat,
            begun: _,
            lock: _,
            held: _,
        } = self;
        Down { seat }
    }
}

//! A worker whose job is finished, and that has nodes to release.

use crate::down::Down;
use crate::exit_form::ExitForm;
use crate::kinds::{Leave, Ready};
use crate::service::Service;
use rme_service_phases::{clear, leave};
use rme_service_steps::Chance;

impl Leave {
    ghost use Rattle.std.specs.Prelude.{◌≡◌, ◌≢◌, ◌+◌, ◌*◌, ◌<◌, MatchResult};
    ghost use Rattle.rme_program.specs.declared.kinds.Phase.{Phase};
    ghost use Rattle.rme_program.specs.Phases.{phase_of};
    ghost use Rattle.rme_service_steps.specs.CallSteps.{seat_call, CallFell};
    ghost use Rattle.rme_service_steps.specs.SeatViews.{SeatView};
    ghost use Rattle.rme_service_steps.specs.Parts.{unchanged_part};
    ghost use Rattle.rme_table.specs.Calls.{PartKnowsNumber, CallIsDone};

    /// The worker's number.
    pub fn worker(&self) -> u32
        ensures worker { result ≡ self.now.part.worker }
        ensures phase { phase_of self.now.part.private.stage ≡ Phase.Exit }
    {
        self.seat.worker()
    }

    /// Releases the worker's nodes, from the root downward; the worker is then ready.
    pub fn exit<C: Chance>(self, service: &Service, chance: &mut C) -> Result<Ready, Down>
        requires ours { self.ident ≡ service.now }
        ensures made { let call_to = λ (end : SeatView). seat_call service.now.shape unchanged_part self end
            (C.tally chance.old) (C.tally chance.new) in
            MatchResult result (λ ready. CallIsDone (call_to ready) 1 (service.now.shape.height + 2))
            (λ down. CallFell (call_to down) (service.now.shape.height + 2)) }
        ensures number { MatchResult result (λ ready. ready.part.private.begun ≡ self.part.private.begun)
            (λ _. Unit {0}) }
        ensures knows { MatchResult result (λ ready. PartKnowsNumber service.now.shape ready.part) (λ _. Unit {0}) }
    {
        let Leave {
            mut seat,
            begun,
            lock,
            way,
        } = self;
        let left = match way {
            ExitForm::Whole => leave(&mut seat, &service.words, chance, lock),
            ExitForm::Partial { level } => clear(&mut seat, &service.words, chance, lock, level),
        };
        if left.is_err() {
            return Err(Down { seat });
        }
        Ok(Ready { seat, begun })
    }

    /// Crashes the worker.
    pub fn crash(self) -> Down
        ensures { result ≡ self }
    {
        let Leave {
            seat,
            begun: _,
            lock: _,
            way: _,
        } = self;
        Down { seat }
    }
}

//! Recovering a worker.

use crate::down::Down;
use crate::exit_form::ExitForm;
use crate::kinds::{Climb, Held, Leave, Ready, Stance};
use crate::service::Service;
use rme_service_phases::{ResumePoint, recover};
use rme_service_steps::Chance;

impl Down {
    ghost use Rattle.std.specs.Prelude.{◌≡◌, ◌≢◌, ◌+◌, ◌*◌, ◌<◌, MatchResult};
    ghost use Rattle.rme_service_steps.specs.CallSteps.{seat_call, CallFell};
    ghost use Rattle.rme_service_steps.specs.SeatViews.{SeatView};
    ghost use Rattle.rme_service_steps.specs.Parts.{restarted_part};
    ghost use Rattle.rme_service_steps.specs.Running.{ChangeIsServiceRun, restart_labels};
    ghost use Rattle.rme_table.specs.Calls.{CallIsDone, StanceHasPhase, PartKnowsNumber, recover_steps, seat_of_stance};

    /// Restarts a worker after a crash, or for the first time: it finds where it was before its crash. `Err` if the
    /// worker crashed again. For the abstract machine the worker crashes and restarts before its first step.
    pub fn recover<C: Chance>(self, service: &Service, chance: &mut C) -> Result<Stance, Down>
        requires ours { self.ident ≡ service.now }
        ensures made { let call_to = λ (end : SeatView). seat_call service.now.shape restarted_part self end
            (C.tally chance.old) (C.tally chance.new) in
            MatchResult result
            (λ stance. CallIsDone (call_to (seat_of_stance stance)) 2 (service.now.shape.height + 3))
            (λ down. CallFell (call_to down) (service.now.shape.height + 3)) }
        ensures steps { MatchResult result (λ stance. (seat_of_stance stance).part.steps ≡ self.part.steps +
            recover_steps service.now.shape stance) (λ _. Unit {0}) }
        ensures lead { ChangeIsServiceRun service.now.shape self.part restarted_part (restart_labels self.part) }
        ensures phase { MatchResult result (λ stance. StanceHasPhase stance) (λ _. Unit {0}) }
        ensures number { MatchResult result (λ stance. PartKnowsNumber service.now.shape (seat_of_stance stance).part)
            (λ _. Unit {0}) }
    {
        let Down { mut seat } = self;
        let Ok(recovered) = recover(&mut seat, &service.words, chance) else {
            return Err(Down { seat });
        };
        let begun = recovered.begun;
        Ok(match recovered.found {
            ResumePoint::Ready => Stance::Ready(Ready { seat, begun }),
            ResumePoint::Climbing { lock, held } => Stance::Climb(Climb {
                seat,
                begun,
                lock,
                held,
            }),
            ResumePoint::Inside { lock, pending } => Stance::Held(Held {
                seat,
                begun,
                lock,
                pending,
            }),
            ResumePoint::Leaving { lock, level } => Stance::Leave(Leave {
                seat,
                begun,
                lock,
                way: ExitForm::Partial { level },
            }),
        })
    }
}

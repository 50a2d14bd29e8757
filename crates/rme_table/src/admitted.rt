//! A worker that is ready, with a job that it may post.

use crate::down::Down;
use crate::kinds::{Climb, Ready};
use crate::service::Service;
use rme_script::Job;
use rme_service_steps::Chance;
use std::marker::{Brand, Model};

/// A worker that is ready, with a job that it may post: `Ready::admit` has checked it.
///
/// It may be dropped; that worker is then lost to the service.
#[derive(Drop)]
pub struct Admitted<'a> {
    pub(crate) ready: Ready,
    pub(crate) job: &'a Job,
}

impl<'a> Model for Admitted<'a> {
    ghost use Rattle.rme_table.specs.Admissions.{Admission, PostIsAllowed};

    ghost Value = { Admission };

    ghost view = { λ admitted. record { ready = admitted.ready; job = admitted.job.now } };

    ghost invariant = { λ admitted. PostIsAllowed admitted.ready.ident.shape admitted.ready.part.private.begun
        admitted.job.now };
}

impl Admitted<'_> {
    ghost use Rattle.std.specs.Prelude.{◌≡◌, ◌+◌, ◌*◌, MatchResult};
    ghost use Rattle.rme_service_steps.specs.CallSteps.{seat_call, CallFell};
    ghost use Rattle.rme_service_steps.specs.SeatViews.{SeatView};
    ghost use Rattle.rme_service_steps.specs.Parts.{submitted_part};
    ghost use Rattle.rme_service_steps.specs.Running.{ChangeIsServiceRun, submit_labels};
    ghost use Rattle.rme_table.specs.Calls.{ClimbHasJob, CallIsDone};

    /// Posts the job: it gets its number, and the worker waits for its lock. `Err` is a crash.
    pub fn post<C: Chance>(self, service: &Service, chance: &mut C) -> Result<Climb, Down>
        requires ours { self.ready.ident ≡ service.now }
        ensures posted { MatchResult result (λ climb. ClimbHasJob self.entry.ready climb self.entry.job)
            (λ _. Unit {0}) }
        ensures lead { ChangeIsServiceRun service.now.shape self.entry.ready.part (submitted_part self.entry.job)
            (submit_labels self.entry.ready.part self.entry.job) }
        ensures made { let call_to = λ (end : SeatView). seat_call service.now.shape (submitted_part self.entry.job)
            self.entry.ready end (C.tally chance.old) (C.tally chance.new) in
            let count = 3 + 3 * self.entry.job.script.n in
            MatchResult result (λ climb. CallIsDone (call_to climb) count count)
            (λ down. CallFell (call_to down) count) }
    {
        let Admitted { ready, job } = self;
        ready.put::<Brand, C>(service, job, chance)
    }
}

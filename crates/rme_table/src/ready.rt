//! A worker that is ready: it may post a job.

ghost use Rattle.std.specs.Prelude.{◌≡◌};
ghost use Rattle.rme_table.specs.Calls.{last_receipt};

use crate::admitted::Admitted;
use crate::down::Down;
use crate::kinds::{Climb, Posted, Ready};
use crate::service::Service;
use rme_history::EntryList;
use rme_program::{Receipt, WITHDRAWN_PLACE};
use rme_script::Job;
use rme_service_phases::post;
use rme_service_steps::{Chance, JobTag, layout};
use rme_words::Refusal;

impl Ready {
    ghost use Rattle.std.specs.Prelude.{◌≡◌, ◌≢◌, ◌+◌, ◌*◌, ◌<◌, ◌≤◌, MatchResult};
    ghost use Rattle.rme_program.specs.declared.kinds.Phase.{Phase};
    ghost use Rattle.rme_program.specs.Phases.{phase_of};
    ghost use Rattle.rme_service_steps.specs.CallSteps.{seat_call, CallFell};
    ghost use Rattle.rme_service_steps.specs.SeatViews.{SeatView};
    ghost use Rattle.rme_script.specs.declared.job.Job.{Job};
    ghost use Rattle.rme_words.specs.declared.refusal.Refusal.{Refusal};
    ghost use Rattle.std.specs.Prelude.{OnOk, IfOk, IfErr, None, Some};
    ghost use Rattle.rme_service_steps.specs.Running.{ChangeIsServiceRun, submit_labels};
    ghost use Rattle.rme_service_steps.specs.Parts.{submitted_part};
    ghost use Rattle.rme_script.specs.Jobs.{IsJob};
    ghost use Rattle.rme_table.specs.Calls.{PartHoldsNoNode, ClimbHasJob, CallIsDone, PostContract, LastReceiptContract};
    ghost use Rattle.rme_script.specs.JobRefusals.{job_refusal};

    /// The worker's number.
    pub fn worker(&self) -> u32
        ensures worker { result ≡ self.now.part.worker }
        ensures phase { phase_of self.now.part.private.stage ≡ Phase.Ready }
        ensures holds_none { PartHoldsNoNode self.now.ident.shape self.now.part }
    {
        self.seat.worker()
    }

    /// The number of the last finished or withdrawn job, or 0.
    pub fn number(&self) -> u32
        ensures number { result ≡ self.now.part.private.begun }
        ensures few { result ≤ self.now.ident.shape.jobs }
    {
        self.begun
    }

    /// Posts a job: it gets its number, and the worker waits for its lock.
    ///
    /// `NoLock` if there is no such lock, then `BadScript` if it has more than 8 operations, then `NoCell` if it names
    /// a cell that does not exist, then `TooManyJobs` if the worker has begun as many as the shape allows.
    pub fn post<C: Chance>(self, service: &Service, job: Job, chance: &mut C) -> Posted
        requires ours { self.ident ≡ service.now }
        ensures posts { PostContract service.now.shape job self (C.tally chance.old) (C.tally chance.new) result }
        ensures lead { job_refusal service.now.shape self.part.private.begun job ≡ None
            → ChangeIsServiceRun service.now.shape self.part (submitted_part job) (submit_labels self.part job) }
    {
        match self.admit(service, &job) {
            Ok(admitted) => match admitted.post(service, chance) {
                Ok(climb) => Posted::Asked(climb),
                Err(down) => Posted::Fell(down),
            },
            Err((ready, refusal)) => Posted::Refused(ready, refusal),
        }
    }

    /// The worker with a job that it may post; or the worker, and the refusal of `post`. Nothing has changed.
    pub fn admit<'a>(
        self,
        service: &Service,
        job: &'a Job,
    ) -> Result<Admitted<'a>, (Ready, Refusal)>
        requires ours { self.ident ≡ service.now }
        ensures admitted { IfOk result (λ admitted. (admitted ≡ record { ready = self; job = job.now })
            × (job_refusal service.now.shape self.part.private.begun job.now ≡ None)) }
        ensures refused { IfErr result (λ refused. (refused.0 ≡ self)
            × (job_refusal service.now.shape self.part.private.begun job.now ≡ Some refused.1)) }
    {
        match self.may_post(service, job) {
            Ok(()) => Ok(Admitted { ready: self, job }),
            Err(refusal) => Err((self, refusal)),
        }
    }

    /// Whether `post` accepts the job, or its refusal.
    pub fn may_post(&self, service: &Service, job: &Job) -> Result<(), Refusal>
        ensures may { OnOk result (IsJob service.now.shape job.now
            × (self.now.part.private.begun < service.now.shape.jobs)) }
        ensures none { OnOk result (job_refusal service.now.shape self.now.part.private.begun job.now ≡ None) }
        ensures refused { IfErr result (λ refusal. job_refusal service.now.shape self.now.part.private.begun job.now ≡
            Some refusal) }
    {
        match job.refusal(service.shape(), self.begun) {
            None => Ok(()),
            Some(refusal) => Err(refusal),
        }
    }

    /// Posts a job that may be posted.
    pub(crate) fn put<J: JobTag, C: Chance>(
        self,
        service: &Service,
        job: &Job,
        chance: &mut C,
    ) -> Result<Climb, Down>
        requires ours { self.ident ≡ service.now }
        requires named { job.now ≡ J.job }
        requires good { IsJob service.now.shape job.now }
        requires few { self.part.private.begun < service.now.shape.jobs }
        ensures lead { ChangeIsServiceRun service.now.shape self.part (submitted_part job.now)
            (submit_labels self.part job.now) }
        ensures posted { MatchResult result (λ climb. ClimbHasJob self climb job.now) (λ _. Unit {0}) }
        ensures made { let call_to = λ (end : SeatView). seat_call service.now.shape (submitted_part job.now) self end
            (C.tally chance.old) (C.tally chance.new) in
            let count = 3 + 3 * job.now.script.n in
            MatchResult result (λ climb. CallIsDone (call_to climb) count count)
            (λ down. CallFell (call_to down) count) }
    {
        let Ready { mut seat, begun } = self;
        if post::<J, C>(&mut seat, &service.words, chance, begun, job).is_err() {
            return Err(Down { seat });
        }
        Ok(Climb {
            seat,
            begun: begun + 1,
            lock: job.lock,
            held: 0,
        })
    }

    /// The receipt of the worker's last job: `None` if it has none, or the last number was withdrawn.
    pub fn last(&mut self, service: &Service) -> Option<Receipt>
        requires ours { self.old.ident ≡ service.now }
        ensures same { self.new ≡ self.old }
        ensures last { LastReceiptContract service.now.shape self.old.part result }
    {
        let at = layout::place_at(service.shape(), self.seat.worker());
        if self.seat.load_as_reader(&service.words, at) == WITHDRAWN_PLACE {
            return None;
        }
        last_receipt(self.seat.entries())
    }

    /// Crashes the worker.
    pub fn crash(self) -> Down
        ensures { result ≡ self }
    {
        let Ready { seat, begun: _ } = self;
        Down { seat }
    }
}

/// The receipt of the last entry.
fn last_receipt(entries: &EntryList) -> Option<Receipt>
    ensures { result ≡ last_receipt entries.now.entries }
{
    match entries.last() {
        None => None,
        Some(entry) => Some(entry.receipt),
    }
}

//! The events other than a step: submit, crash, restart and withdraw.

use crate::counts::Counts;
use crate::world::World;
use rme_program::{Phase, Private, Stage};
use rme_script::Job;
use rme_words::Refusal;

impl World {
    ghost use Rattle.std.specs.Prelude.{◌≡◌, ◌<◌, ◌≤◌, ◌+◌, IsTrue, IsFalse, Some, None, IfOk, IfErr, OnOk, OnErr, Option, slice_get, length};
    ghost use Rattle.rme_words.specs.declared.refusal.Refusal.{Refusal};
    ghost use Rattle.rme_script.specs.declared.job.Job.{Job};
    ghost use Rattle.rme_program.specs.declared.private.Private.{Private};
    ghost use Rattle.rme_program.specs.declared.stage.Stage.{Stage};
    ghost use Rattle.rme_program.specs.declared.kinds.Phase.TheVariants.{Post};
    ghost use Rattle.rme_program.specs.Conditions.{IsPrivate};
    ghost use Rattle.rme_script.specs.Jobs.{IsJob};
    ghost use Rattle.rme_program.specs.Steps.{submitted_private};
    ghost use Rattle.rme_world.specs.Counting.{with_stay_begun};
    ghost use Rattle.rme_world.specs.WorldViews.{worker_counts};
    ghost use Rattle.rme_world.specs.WorldInvariants.{WorldInvariant};
    ghost use Rattle.rme_world.specs.Refusals.{refusal_unless_up, submit_refusal, restart_refusal};
    ghost use Rattle.rme_world.specs.Events.{world_with_private};
    ghost use Rattle.rme_world.specs.Calls.{SubmitContract, CrashContract, RestartContract, WithdrawContract};

    /// Submits a job to a ready worker, and answers the number that the job will get: one more than the number of jobs
    /// that the worker has begun.
    ///
    /// Reserves memory, so that no later step needs any: room in the history for one entry of each worker. Refused, in
    /// this order, by `NoWorker`, `Down`, `Busy` (not ready), `NoLock`, `BadScript`, `NoCell`, `TooManyJobs` and
    /// `NoMemory`; a refusal changes nothing.
    pub fn submit(&mut self, worker: u32, job: Job) -> Result<u32, Refusal>
        ensures { SubmitContract self.old worker job result self.new }
    {
        let private = match self.may_submit(worker, &job) {
            Ok(private) => private,
            Err(refusal) => return Err(refusal),
        };
        if !self.make_room(self.shape().workers as usize) {
            return Err(Refusal::NoMemory);
        }
        Ok(self.submit_checked(worker, private, job))
    }

    /// Crashes a worker: its private state is lost, and the words stay.
    ///
    /// Refused by `NoWorker`, then by `Down`; a refusal changes nothing.
    pub fn crash(&mut self, worker: u32) -> Result<(), Refusal>
        ensures { CrashContract self.old worker result self.new }
    {
        if let Err(refusal) = self.up(worker) {
            return Err(refusal);
        }
        self.put(worker, None, self.counts_at(worker));
        Ok(())
    }

    /// Restarts a worker that is down: it is then in phase Recover.
    ///
    /// Refused by `NoWorker`, then by `Up`; a refusal changes nothing.
    pub fn restart(&mut self, worker: u32) -> Result<(), Refusal>
        ensures { RestartContract self.old worker result self.new }
    {
        if let Err(refusal) = self.down(worker) {
            return Err(refusal);
        }
        self.put(worker, Some(Private::restart(worker)), Counts::ZERO);
        Ok(())
    }

    /// Makes a worker that waits for a lock withdraw its job: its next steps, at most h + 3, withdraw the number and
    /// release the nodes that it holds. The call is allowed at any time before the worker owns the lock.
    ///
    /// Refused by `NoWorker`, then by `Down`, then by `NotWaiting` (not in phase Enter); a refusal changes nothing.
    pub fn withdraw(&mut self, worker: u32) -> Result<(), Refusal>
        ensures { WithdrawContract self.old worker result self.new }
    {
        let private = match self.up(worker) {
            Ok(private) => private,
            Err(refusal) => return Err(refusal),
        };
        let Stage::Climbing(_) = private.stage else {
            return Err(Refusal::NotWaiting);
        };
        let counts = self.counts_at(worker).begin(Phase::Exit);
        self.put(worker, Some(Private::withdraw(private)), counts);
        Ok(())
    }

    /// The private state of a worker that is up, or the refusal.
    pub(crate) fn up(&self, worker: u32) -> Result<Private, Refusal>
        ensures kept { WorldInvariant self.now }
        ensures worker { OnOk result (worker < self.now.shape.workers) }
        ensures found { IfOk result (λ private. slice_get self.now.privates worker ≡ Some (Some private)) }
        ensures refused { IfErr result (λ refusal. (own : Private → Option Refusal)
            → refusal_unless_up (slice_get self.now.privates worker) own ≡ Some refusal) }
    {
        match self.privates.get(worker as usize) {
            None => Err(Refusal::NoWorker),
            Some(None) => Err(Refusal::Down),
            Some(Some(private)) => Ok(*private),
        }
    }

    /// Accepts a worker that is down, or answers the refusal.
    fn down(&self, worker: u32) -> Result<(), Refusal>
        ensures kept { WorldInvariant self.now }
        ensures worker { OnOk result (worker < self.now.shape.workers) }
        ensures found { OnOk result (slice_get self.now.privates worker ≡ Some None) }
        ensures refused { IfErr result (λ refusal. restart_refusal self.now worker ≡ Some refusal) }
    {
        match self.privates.get(worker as usize) {
            None => Err(Refusal::NoWorker),
            Some(None) => Ok(()),
            Some(Some(_)) => Err(Refusal::Up),
        }
    }

    /// The private state of a worker that may be given this job, or the refusal.
    pub(crate) fn may_submit(&self, worker: u32, job: &Job) -> Result<Private, Refusal>
        ensures kept { WorldInvariant self.now }
        ensures worker { OnOk result (worker < self.now.shape.workers) }
        ensures found { IfOk result (λ private. slice_get self.now.privates worker ≡ Some (Some private)) }
        ensures may { OnOk result (submit_refusal self.now worker job.now ≡ None) }
        ensures ready { IfOk result (λ private. (private.stage ≡ Stage.Resting) × (private.begun < self.now.shape.jobs)
            × IsJob self.now.shape job.now) }
        ensures refused { IfErr result (λ refusal. submit_refusal self.now worker job.now ≡ Some refusal) }
    {
        let private = match self.up(worker) {
            Ok(private) => private,
            Err(refusal) => return Err(refusal),
        };
        let Stage::Resting = private.stage else {
            return Err(Refusal::Busy);
        };
        match job.refusal(self.shape(), private.begun) {
            None => Ok(private),
            Some(refusal) => Err(refusal),
        }
    }

    /// Reserves room for `entries` more entries of the history, or answers false and changes nothing.
    pub(crate) fn make_room(&mut self, entries: usize) -> bool
        ensures kept { WorldInvariant self.new }
        ensures room { self.new ≡ record self.old { room = self.new.room } }
        ensures roomier { self.old.room ≤ self.new.room }
        ensures made { IsTrue result → entries ≤ self.new.room }
        ensures unchanged { IsFalse result → self.new ≡ self.old }
    {
        self.history.reserve(entries).is_ok()
    }

    /// Submits the checked job, and answers its number.
    pub(crate) fn submit_checked(&mut self, worker: u32, private: Private, job: Job) -> u32
        requires worker { worker < self.old.shape.workers }
        requires ready { private.stage ≡ Stage.Resting }
        requires few { private.begun < self.old.shape.jobs }
        requires kept { WorldInvariant (world_with_private self.old worker (Some (submitted_private private job))
            (with_stay_begun (worker_counts self.old worker) Post)) }
        ensures number { result ≡ private.begun + 1 }
        ensures hands { self.new ≡ world_with_private self.old worker (Some (submitted_private private job))
            (with_stay_begun (worker_counts self.old worker) Post) }
    {
        let number = private.begun + 1;
        let counts = self.counts_at(worker).begin(Phase::Post);
        self.put(worker, Some(Private::submit(private, job)), counts);
        number
    }

    /// The counts of a worker.
    pub(crate) fn counts_at(&self, worker: u32) -> Counts
        requires { worker < self.now.shape.workers }
        ensures kept { WorldInvariant self.now }
        ensures counts { result ≡ worker_counts self.now worker }
    {
        self.counts[worker as usize]
    }

    /// Replaces a worker's private state and its counts.
    fn put(&mut self, worker: u32, private: Option<Private>, counts: Counts)
        requires worker { worker < self.old.shape.workers }
        requires kept { WorldInvariant (world_with_private self.old worker private counts) }
        ensures { self.new ≡ world_with_private self.old worker private counts }
    {
        self.privates[worker as usize] = private;
        self.counts[worker as usize] = counts;
    }
}

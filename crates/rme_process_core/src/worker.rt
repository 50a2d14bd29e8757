//! One worker: its private state, its shape, and the number of its outstanding actions.

use crate::accepting::accept_all_values;
use crate::answers::{BATCH_OUT, DAMAGED, NO_BATCH};
use crate::batch::predict_batch;
use crate::expected_slate::ExpectedSlate;
use crate::flat::{Batch, BatchOutcome, FlatStance};
use crate::notes::{phase_number, stage_lock_number};
use rme_program::{Private, Slate, Stage, phase};
use rme_script::{Job, SLATE_WORDS};
use rme_words::{Refusal, Shape};

/// The worker of a handle.
#[derive(Drop)]
pub struct CoreWorker {
    pub shape: Shape,
    pub private: Private,
    /// The number of outstanding actions, those of the last batch; 0 if none is outstanding.
    pub told: u32,
    /// The slate that its loads expect.
    pub guess: ExpectedSlate,
}

impl CoreWorker {
    ghost use Rattle.std.specs.Prelude.{◌<◌};
    ghost use Rattle.rme_process_core.specs.Workers.{IsCoreWorker, WorkerRestarted, SubmitDecision};
    ghost use Rattle.rme_process_core.specs.Calls.{AbiNextCall, AbiAfterCall, AbiStanceCall, AbiSubmitCall, AbiWithdrawCall, after_state, submit_state, submitted_slate};
    ghost use Rattle.rme_script.specs.Slates.{script_from_words};

    /// A worker that restarts: it knows only its own number.
    pub fn restarted(shape: Shape, worker: u32) -> CoreWorker
        requires { worker < shape.workers }
        ensures restarted { WorkerRestarted shape worker result }
        ensures worker { IsCoreWorker result }
    {
        CoreWorker {
            shape,
            private: Private::restart(worker),
            told: 0,
            guess: ExpectedSlate::of_empty_script(),
        }
    }

    /// Predicts the next own steps.
    ///
    /// Refused by `BATCH_OUT` while a batch is outstanding, then by `Idle` if the worker is ready.
    pub fn predict(&mut self, until: u32, batch: &mut Batch) -> u32
        requires { IsCoreWorker self.old }
        ensures told { AbiNextCall self.old until batch.old result self.new batch.new }
        ensures worker { IsCoreWorker self.new }
    {
        if self.told > 0 {
            return BATCH_OUT;
        }
        if let Stage::Resting = self.private.stage {
            return Refusal::Idle.code();
        }
        predict_batch(self.shape, &self.private, &self.guess, until, batch);
        self.told = batch.count;
        0
    }

    /// Takes back the first values of the outstanding batch.
    pub fn accept_values(&mut self, batch: &Batch, count: u32, outcome: &mut BatchOutcome) -> u32
        requires { IsCoreWorker self.old }
        ensures took { AbiAfterCall (after_state self.old outcome.old) batch.now count result
            (after_state self.new outcome.new) }
        ensures worker { IsCoreWorker self.new }
    {
        if count == 0 || count > self.told {
            return NO_BATCH;
        }
        self.told = 0;
        let taken = accept_all_values(
            &self.shape,
            &self.guess,
            &mut self.private,
            &batch.values[..count as usize],
            outcome,
        );
        outcome.phase = phase_number(phase(&self.private));
        if taken { 0 } else { DAMAGED }
    }

    /// Where the worker is.
    pub fn write_stance(&self, stance: &mut FlatStance)
        ensures { AbiStanceCall self.now stance.new }
    {
        stance.phase = phase_number(phase(&self.private));
        stance.lock = stage_lock_number(&self.private.stage);
        stance.number = u64::from(self.private.begun);
    }

    /// Forgets all but the worker's number: its recovery begins.
    pub fn restart(&mut self)
        requires { IsCoreWorker self.old }
        ensures restarted { WorkerRestarted self.old.shape self.old.private.worker self.new }
        ensures worker { IsCoreWorker self.new }
    {
        self.private = Private::restart(self.private.worker);
        self.told = 0;
    }

    /// Has a worker that waits for a lock give up its job.
    ///
    /// Refused by `BATCH_OUT` while a batch is outstanding, then by `Idle` if the worker is ready, then by `NotWaiting`
    /// if it is not in phase Enter.
    pub fn withdraw(&mut self) -> u32
        requires { IsCoreWorker self.old }
        ensures withdrew { AbiWithdrawCall self.old result self.new }
        ensures worker { IsCoreWorker self.new }
    {
        if self.told > 0 {
            return BATCH_OUT;
        }
        match self.private.stage {
            Stage::Resting => Refusal::Idle.code(),
            Stage::Climbing(_) => {
                self.private = Private::withdraw(self.private);
                0
            }
            _ => Refusal::NotWaiting.code(),
        }
    }

    /// Gives a job to a ready worker, and writes the number that the job will have.
    ///
    /// Refused, in this order, by `Busy` (not ready), `NoLock`, `BadScript`, `NoCell` and `TooManyJobs`.
    pub fn post(
        &mut self,
        lock: u32,
        operations: u32,
        words: &[u64; SLATE_WORDS],
        number: &mut u64,
    ) -> u32
        requires { IsCoreWorker self.old }
        ensures posted { AbiSubmitCall (submit_state self.old number.old) (submitted_slate lock operations words.now)
            result
            (submit_state self.new number.new) }
        ensures worker { IsCoreWorker self.new }
    {
        if let Err(refusal) = self.may_post(lock, operations, words) {
            return refusal.code();
        }
        *number = u64::from(self.private.begun) + 1;
        let script = self.guess.script;
        let job = Job { lock, script };
        self.private.stage = Stage::Posting(Slate { job, stored: 0 });
        0
    }

    /// Has the worker expect the slate of the job that it may be given, or answers the refusal.
    fn may_post(
        &mut self,
        lock: u32,
        operations: u32,
        words: &[u64; SLATE_WORDS],
    ) -> Result<(), Refusal>
        requires { IsCoreWorker self.old }
        ensures may { SubmitDecision self.old lock (script_from_words operations words.now) result self.new }
        ensures worker { IsCoreWorker self.new }
    {
        let Stage::Resting = self.private.stage else {
            return Err(Refusal::Busy);
        };
        if lock >= self.shape.locks {
            return Err(Refusal::NoLock);
        }
        let is_over = self.private.begun >= self.shape.jobs;
        if self.guess.is_slate(operations, words) {
            return if is_over {
                Err(Refusal::TooManyJobs)
            } else {
                Ok(())
            };
        }
        let guess = ExpectedSlate::of(self.shape, operations, words)?;
        if is_over {
            return Err(Refusal::TooManyJobs);
        }
        self.guess = guess;
        Ok(())
    }
}

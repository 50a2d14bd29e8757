//! The machine's state of one worker.

use crate::stances::{
    stance_after_ask, stance_after_crash, stance_after_finish, stance_after_take,
};
use rme_machine::{Act, JobStance};
use rme_words::NoMemory;
use std::alloc::Global;
use std::marker::Model;

/// The machine's state of one worker.
#[derive(Drop)]
pub struct CheckedWorker {
    up: bool,
    entered: bool,
    asked: u32,
    withdrawn: Vec<u32>,
    stance: JobStance,
}

impl Model for CheckedWorker {
    ghost use Rattle.rme_machine.specs.Machine.{WorkerState};

    ghost Value = { WorkerState };

    ghost view = { λ worker. record {
      up = worker.up;
      entered = worker.entered;
      asked = worker.asked;
      withdrawn =
          worker.withdrawn.items;
      stance = worker.stance;
    } };
}

impl CheckedWorker {
    ghost use Rattle.std.specs.Prelude.{◌≡◌, ◌+◌, ◌==◌, false, true, OnOk, OnErr};
    ghost use Rattle.rme_machine.specs.declared.label.Act.TheVariants.{Withdraw};
    ghost use Rattle.rme_machine.specs.Machine.{opening_worker};
    ghost use Rattle.rme_core_checker.specs.Deciding.{is_idle, is_handed, is_waiting, is_waiting_under, is_waiting_for, is_finished_on, is_in_section_of, worker_after_act};
    ghost use Rattle.rme_core_checker.specs.Invariants.{is_withdrawal};

    /// The initial state of a worker: up and idle.
    pub(crate) fn new(alloc: Global) -> CheckedWorker
        ensures { result ≡ opening_worker }
    {
        CheckedWorker {
            up: true,
            entered: false,
            asked: 0,
            withdrawn: Vec::new(alloc),
            stance: JobStance::Idle,
        }
    }

    pub fn is_up(&self) -> bool
        ensures { result ≡ self.now.up }
    {
        self.up
    }

    pub fn has_entered(&self) -> bool
        ensures { result ≡ self.now.entered }
    {
        self.entered
    }

    /// The number under which the worker last asked.
    pub fn asked(&self) -> u32
        ensures { result ≡ self.now.asked }
    {
        self.asked
    }

    pub fn stance(&self) -> JobStance
        ensures { result ≡ self.now.stance }
    {
        self.stance
    }

    /// Whether the number is the one after the last.
    pub(crate) fn is_next_number(&self, number: u32) -> bool
        ensures { result ≡ (number == self.now.asked + 1) }
    {
        u64::from(number) == u64::from(self.asked) + 1
    }

    pub(crate) fn is_idle(&self) -> bool
        ensures { result ≡ is_idle self.now.stance }
    {
        matches!(&self.stance, JobStance::Idle)
    }

    pub(crate) fn is_handed(&self) -> bool
        ensures { result ≡ is_handed self.now.stance }
    {
        matches!(&self.stance, JobStance::Handed(_))
    }

    pub(crate) fn is_waiting(&self) -> bool
        ensures { result ≡ is_waiting self.now.stance }
    {
        matches!(&self.stance, JobStance::Waiting(_, _))
    }

    pub(crate) fn is_waiting_under(&self, number: u32) -> bool
        ensures { result ≡ is_waiting_under self.now.stance number }
    {
        match &self.stance {
            JobStance::Waiting(own, _) => *own == number,
            _ => false,
        }
    }

    pub(crate) fn is_waiting_for(&self, lock: u32) -> bool
        ensures { result ≡ is_waiting_for self.now.stance lock }
    {
        match &self.stance {
            JobStance::Waiting(_, job) => job.lock == lock,
            _ => false,
        }
    }

    pub(crate) fn is_finished_on(&self, lock: u32) -> bool
        ensures { result ≡ is_finished_on self.now.stance lock }
    {
        match &self.stance {
            JobStance::Finished(_, job) => job.lock == lock,
            _ => false,
        }
    }

    pub(crate) fn is_in_section_of(&self, lock: u32) -> bool
        ensures { result ≡ is_in_section_of self.now.stance lock }
    {
        match &self.stance {
            JobStance::Inside(_, job) | JobStance::Finished(_, job) => job.lock == lock,
            _ => false,
        }
    }

    /// Changes the worker's own state by a step that withdraws nothing.
    pub(crate) fn change(&mut self, act: &Act)
        requires { is_withdrawal act.now ≡ false }
        ensures { self.new ≡ worker_after_act act.now self.old }
    {
        match act {
            Act::Hand(_, job) => self.stance = JobStance::Handed(*job),
            Act::Ask(number) => {
                self.asked = *number;
                self.stance = stance_after_ask(*number, self.stance);
            }
            Act::Take(_) => {
                self.entered = true;
                self.stance = stance_after_take(self.stance);
            }
            Act::Finish(_) => self.stance = stance_after_finish(self.stance),
            Act::Leave(_) => {
                self.entered = false;
                self.stance = JobStance::Idle;
            }
            Act::Crash => {
                self.up = false;
                self.entered = false;
                self.stance = stance_after_crash(self.stance);
            }
            Act::Restart => self.up = true,
            Act::Reenter(_) => self.entered = true,
            Act::Withdraw(_) | Act::Still | Act::Wait => {}
        }
    }

    /// Withdraws the job of this number. `NoMemory` if memory for the record was refused; then nothing has changed.
    pub(crate) fn withdraw(&mut self, number: u32) -> Result<(), NoMemory>
        ensures withdrawn { OnOk result (self.new ≡ worker_after_act (Withdraw number) self.old) }
        ensures unchanged { OnErr result (self.new ≡ self.old) }
    {
        if self.withdrawn.push(number).is_err() {
            return Err(NoMemory);
        }
        self.stance = JobStance::Idle;
        Ok(())
    }
}

//! The abstract machine as a value.

ghost use Rattle.std.specs.Prelude.{◌≡◌, None, IfOk, replicate, slice_set};

use crate::checked_worker::CheckedWorker;
use crate::checker_state::{CheckerState, job_fits};
use crate::label::event_label;
use rme_history::EntryList;
use rme_machine::{Act, Label};
use rme_program::{Answer, Event};
use rme_script::Row;
use rme_words::{NoMemory, Shape};
use std::alloc::Global;
use std::marker::Model;

/// The abstract machine, as a checker of runs.
///
/// Initially all locks are free and all workers are up and idle. The machine makes the step of each pair of an event
/// and its answer that `admits` accepts, so the accepted pairs are a run of the machine.
#[derive(Drop)]
pub struct Machine {
    owners: Vec<Option<u32>>,
    checker_state: CheckerState,
}

impl Model for Machine {
    ghost use Rattle.rme_core_checker.specs.Views.{MachineView};

    ghost Value = { MachineView };

    ghost view = { λ machine. record {
      shape = machine.checker_state.shape;
      state = record {
        owners = machine.owners.items;
        workers = machine.checker_state.workers;
        history =
            machine.checker_state.history;
      };
    } };
}

impl Machine {
    ghost use Rattle.std.specs.Prelude.{◌≡◌, ◌<◌, ◌↔◌, true, Some, IfOk, IfSome, IsSome, OnErr, slice_get};
    ghost use Rattle.rme_machine.specs.Machine.{WorkerState, opening_state};
    ghost use Rattle.rme_machine.specs.AbstractCells.{state_owner};
    ghost use Rattle.rme_machine.specs.Histories.{lock_row};
    ghost use Rattle.rme_machine.specs.Labels.{event_label};
    ghost use Rattle.rme_core_checker.specs.Admitting.{AdmitDecision, LabelGrowsList, act_grows_list};
    ghost use Rattle.rme_core_checker.specs.Deciding.{is_free_lock, is_step_admitted, is_act_admitted, state_after_act};

    /// A machine of this shape, in its initial state. Takes memory for the locks and the workers; `NoMemory` if that
    /// was refused.
    pub fn new(alloc: Global, shape: Shape) -> Result<Machine, NoMemory>
        ensures { IfOk result (λ machine. machine ≡ record { shape = shape; state = opening_state shape }) }
    {
        let owners = free_locks(alloc, shape)?;
        let checker_state = CheckerState::new(alloc, shape)?;
        Ok(Machine {
            owners,
            checker_state,
        })
    }

    /// Whether the machine has the step of an event and its answer; if so, it makes it.
    ///
    /// A refused event is no step, and is always admitted. An answer that the event cannot have is not. Takes memory
    /// only when a section is finished and when a job is withdrawn; `NoMemory` if that was refused. After false and
    /// after `NoMemory` the machine is unchanged.
    pub fn admits(&mut self, event: &Event, answer: &Answer) -> Result<bool, NoMemory>
        ensures decided { IfOk result (λ admitted. AdmitDecision self.old.shape (event_label event.now answer.now)
            admitted self.old.state self.new.state) }
        ensures shape { self.new.shape ≡ self.old.shape }
        ensures unchanged { OnErr result (self.new ≡ self.old) }
        ensures memory { OnErr result (LabelGrowsList (event_label event.now answer.now)) }
    {
        let Some(label) = event_label(event, answer) else {
            return Ok(false);
        };
        let Label::Of(worker, act) = label else {
            return Ok(true);
        };
        if !self.is_step_admitted(worker, &act) {
            return Ok(false);
        }
        self.apply_step(worker, &act)?;
        Ok(true)
    }

    /// The owner of a lock; `None` if it is free, and if there is no such lock.
    pub fn owner(&self, lock: u32) -> Option<u32>
        ensures { result ≡ state_owner self.now.state lock }
    {
        match self.owners.get(lock as usize) {
            Some(owner) => *owner,
            None => None,
        }
    }

    /// The shape that the machine was opened with.
    pub fn shape(&self) -> Shape
        ensures { result ≡ self.now.shape }
    {
        self.checker_state.shape()
    }

    /// The machine's state of a worker; `None` if there is no such worker.
    pub fn worker(&self, worker: u32) -> Option<&CheckedWorker>
        ensures some { IfSome result (λ me. slice_get self.now.state.workers worker ≡ Some me.now) }
        ensures none { result ≡ None → slice_get self.now.state.workers worker ≡ None }
    {
        self.checker_state.workers().get(worker as usize)
    }

    /// The finished sections of all locks, in order of finishing.
    pub fn finished(&self) -> &EntryList
        ensures { result.now.entries ≡ self.now.state.history }
    {
        self.checker_state.entries()
    }

    /// The cells of a lock after all finished sections; `None` if there is no such lock.
    pub fn cells(&self, lock: u32) -> Option<Row>
        ensures some { IfSome result (λ row. row ≡ lock_row self.now.shape self.now.state.history lock) }
        ensures each { IsSome result ↔ lock < self.now.shape.locks }
    {
        self.checker_state.cells(lock)
    }

    /// Whether the worker may make this step; one that does not exist makes none.
    fn is_step_admitted(&self, worker: u32, act: &Act) -> bool
        ensures { result ≡ is_step_admitted self.now.shape act.now self.now.state worker }
    {
        match self.checker_state.workers().get(worker as usize) {
            Some(me) => self.is_act_admitted(me, worker, act),
            None => false,
        }
    }

    /// Whether a worker with this state may make this step.
    fn is_act_admitted(&self, me: &CheckedWorker, worker: u32, act: &Act) -> bool
        requires { slice_get self.now.state.workers worker ≡ Some me.now }
        ensures { result ≡ is_act_admitted self.now.shape act.now self.now.state worker me.now }
    {
        if let Act::Restart = act {
            return !me.is_up();
        }
        if !me.is_up() {
            return false;
        }
        match act {
            Act::Hand(number, job) => {
                let shape = self.checker_state.shape();
                me.is_idle()
                    && job_fits(shape, job)
                    && me.is_next_number(*number)
                    && me.asked() < shape.jobs
            }
            Act::Ask(number) => me.is_handed() && me.is_next_number(*number),
            Act::Take(lock) => me.is_waiting_for(*lock) && self.is_free(*lock),
            Act::Finish(receipt) => me.has_entered()
                && self.checker_state.is_section_receipt(worker, receipt),
            Act::Leave(lock) => me.has_entered() && me.is_finished_on(*lock),
            Act::Withdraw(number) => me.is_waiting_under(*number),
            Act::Reenter(lock) => !me.has_entered() && me.is_in_section_of(*lock),
            Act::Wait => me.is_waiting(),
            Act::Crash | Act::Restart | Act::Still => true,
        }
    }

    /// Makes a step that the worker may make.
    fn apply_step(&mut self, worker: u32, act: &Act) -> Result<(), NoMemory>
        requires { is_step_admitted self.old.shape act.now self.old.state worker ≡ true }
        ensures taken { (me : WorkerState) → slice_get self.old.state.workers worker ≡ Some me
            → IfOk result (λ _. self.new.state ≡ state_after_act act.now self.old.state worker me) }
        ensures shape { self.new.shape ≡ self.old.shape }
        ensures unchanged { OnErr result (self.new ≡ self.old) }
        ensures memory { OnErr result (act_grows_list act.now ≡ true) }
    {
        match act {
            Act::Take(lock) => {
                self.checker_state.change(worker, act);
                set_owner(&mut self.owners, *lock, Some(worker));
                Ok(())
            }
            Act::Leave(lock) => {
                self.checker_state.change(worker, act);
                set_owner(&mut self.owners, *lock, None);
                Ok(())
            }
            Act::Finish(receipt) => self.checker_state.finish(worker, *receipt),
            Act::Withdraw(number) => self.checker_state.withdraw(worker, *number),
            _ => {
                self.checker_state.change(worker, act);
                Ok(())
            }
        }
    }

    /// Whether the lock exists and has no owner.
    fn is_free(&self, lock: u32) -> bool
        ensures { result ≡ is_free_lock (slice_get self.now.state.owners lock) }
    {
        match self.owners.get(lock as usize) {
            Some(None) => true,
            _ => false,
        }
    }
}

/// The initial owners of all locks: none.
fn free_locks(alloc: Global, shape: Shape) -> Result<Vec<Option<u32>>, NoMemory>
    ensures { IfOk result (λ owners. owners.items ≡ replicate shape.locks None) }
{
    match vec![in alloc; None; shape.locks as usize] {
        Ok(owners) => Ok(owners),
        Err(_) => Err(NoMemory),
    }
}

/// Stores the owner of a lock; a lock that does not exist is ignored.
fn set_owner(owners: &mut Vec<Option<u32>>, lock: u32, owner: Option<u32>)
    ensures { owners.new.items ≡ slice_set owners.old.items lock owner }
{
    let lock = lock as usize;
    if lock < owners.len() {
        owners[lock] = owner;
    }
}

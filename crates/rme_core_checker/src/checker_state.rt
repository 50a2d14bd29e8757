//! The state of a machine without the owners: its workers, and its history.

ghost use Rattle.std.specs.Prelude.{◌≡◌, IfOk, length, map};
ghost use Rattle.std.specs.List.{range_with_len};
ghost use Rattle.rme_script.specs.Scripts.{IsScript};
ghost use Rattle.rme_machine.specs.Machine.{opening_worker};
ghost use Rattle.rme_core_checker.specs.Deciding.{job_fits, has_outcome};

use crate::checked_worker::CheckedWorker;
use crate::stances::stance_script;
use rme_history::{EntryList, Fold};
use rme_machine::{Act, JobStance};
use rme_program::Receipt;
use rme_script::{Job, Row, Script, eval};
use rme_words::{NoMemory, Shape};
use std::alloc::Global;
use std::marker::Model;

/// The workers and the finished sections of a machine.
///
/// It also has the fold of the sections, the cells and the count of each lock, so that the next section of a lock is
/// checked without a replay.
#[derive(Drop)]
pub struct CheckerState {
    shape: Shape,
    workers: Vec<CheckedWorker>,
    entries: EntryList,
    fold: Fold,
}

impl Model for CheckerState {
    ghost use Rattle.rme_core_checker.specs.Views.{CheckerStateView};
    ghost use Rattle.rme_core_checker.specs.Invariants.{CheckerStateInvariant};

    ghost Value = { CheckerStateView };

    ghost view = { λ checker_state. record {
      shape = checker_state.shape;
      workers = checker_state.workers.items;
      history = checker_state.entries.entries;
    } };

    ghost invariant = { λ checker_state. CheckerStateInvariant checker_state.shape checker_state.workers.items
        checker_state.entries.entries checker_state.fold.rows.items checker_state.fold.counts.items };
}

impl CheckerState {
    ghost use Rattle.std.specs.Prelude.{◌≡◌, ◌<◌, ◌↔◌, false, true, [], ◌∷◌, ◌++◌, IfOk, IfSome, IsSome, OnErr, Some, length, slice_get, slice_set, replicate};
    ghost use Rattle.rme_machine.specs.Histories.{lock_row};
    ghost use Rattle.rme_machine.specs.declared.label.Act.TheVariants.{Finish, Withdraw};
    ghost use Rattle.rme_machine.specs.Machine.{WorkerState, opening_worker};
    ghost use Rattle.rme_core_checker.specs.Deciding.{is_section_receipt, worker_after_act, entry_of_section};
    ghost use Rattle.rme_core_checker.specs.Invariants.{ActJobIsOfShape, is_withdrawal};

    /// The initial state. Takes memory for the workers and for the fold.
    pub fn new(alloc: Global, shape: Shape) -> Result<CheckerState, NoMemory>
        ensures { IfOk result (λ checker_state. checker_state ≡ record
            { shape = shape; workers = replicate shape.workers opening_worker; history = [] }) }
    {
        let workers = opening_workers(alloc, shape)?;
        let Ok(fold) = Fold::new(alloc, shape) else {
            return Err(NoMemory);
        };
        Ok(CheckerState {
            shape,
            workers,
            entries: EntryList::new(alloc),
            fold,
        })
    }

    pub fn shape(&self) -> Shape
        ensures { result ≡ self.now.shape }
    {
        self.shape
    }

    /// The workers, in order.
    pub fn workers(&self) -> &[CheckedWorker]
        ensures { result.now ≡ self.now.workers }
    {
        &self.workers
    }

    /// The finished sections, in order.
    pub fn entries(&self) -> &EntryList
        ensures { result.now.entries ≡ self.now.history }
    {
        &self.entries
    }

    /// The cells of a lock after all finished sections; `None` if there is no such lock.
    pub fn cells(&self, lock: u32) -> Option<Row>
        ensures some { IfSome result (λ row. row ≡ lock_row self.now.shape self.now.history lock) }
        ensures each { IsSome result ↔ lock < self.now.shape.locks }
    {
        if lock >= self.shape.locks {
            return None;
        }
        Some(self.fold.rows[lock as usize])
    }

    /// Whether the receipt is that of the section that the worker is inside, if that section finished now.
    pub fn is_section_receipt(&self, worker: u32, receipt: &Receipt) -> bool
        requires { worker < length self.now.workers }
        ensures { (me : WorkerState) → slice_get self.now.workers worker ≡ Some me
            → result ≡ is_section_receipt self.now.shape self.now.history worker me.stance receipt.now }
    {
        let JobStance::Inside(number, job) = self.workers[worker as usize].stance() else {
            return false;
        };
        if receipt.worker != worker || receipt.lock != job.lock || receipt.number != number {
            return false;
        }
        let count = self.fold.counts[job.lock as usize];
        let row = self.fold.rows[job.lock as usize];
        has_outcome(count, row, &job.script, receipt)
    }

    /// Changes the worker's own state by a step that grows no list.
    pub fn change(&mut self, worker: u32, act: &Act)
        requires worker { worker < length self.old.workers }
        requires withdrawal { is_withdrawal act.now ≡ false }
        requires brings { ActJobIsOfShape self.old.shape act.now }
        ensures changed { (me : WorkerState) → slice_get self.old.workers worker ≡ Some me
            → self.new ≡ record self.old { workers = slice_set self.old.workers worker (worker_after_act act.now me) } }
        ensures shape { self.new.shape ≡ self.old.shape }
    {
        self.workers[worker as usize].change(act);
    }

    /// Records that the worker withdrew the job of this number.
    pub fn withdraw(&mut self, worker: u32, number: u32) -> Result<(), NoMemory>
        requires { worker < length self.old.workers }
        ensures withdrawn { (me : WorkerState) → slice_get self.old.workers worker ≡ Some me
            → IfOk result (λ _. self.new ≡ record self.old
            { workers = slice_set self.old.workers worker (worker_after_act (Withdraw number) me) }) }
        ensures shape { self.new.shape ≡ self.old.shape }
        ensures unchanged { OnErr result (self.new ≡ self.old) }
    {
        self.workers[worker as usize].withdraw(number)
    }

    /// Finishes the section that the worker is inside, with its receipt.
    pub fn finish(&mut self, worker: u32, receipt: Receipt) -> Result<(), NoMemory>
        requires worker { worker < length self.old.workers }
        requires receipt { (me : WorkerState) → slice_get self.old.workers worker ≡ Some me
            → is_section_receipt self.old.shape self.old.history worker me.stance receipt ≡ true }
        ensures finished { (me : WorkerState) → slice_get self.old.workers worker ≡ Some me
            → IfOk result (λ _. self.new ≡ record self.old {
              workers = slice_set self.old.workers worker (worker_after_act (Finish receipt) me);
              history =
                  self.old.history ++ entry_of_section receipt me.stance ∷ [];
            }) }
        ensures shape { self.new.shape ≡ self.old.shape }
        ensures unchanged { OnErr result (self.new ≡ self.old) }
    {
        let last = self.entries.len();
        let script = stance_script(&self.workers[worker as usize].stance());
        self.entries.reserve(1)?;
        self.entries.push(receipt, &script);
        // Its place and its reply are those of the receipt that is due, so it follows.
        let follows = self.fold.follow(self.shape, &self.entries, last);
        prove!(follows);
        self.workers[worker as usize].change(&Act::Finish(receipt));
        Ok(())
    }
}

/// The initial workers.
fn opening_workers(alloc: Global, shape: Shape) -> Result<Vec<CheckedWorker>, NoMemory>
    ensures { IfOk result (λ workers. workers.items ≡ map (λ _. opening_worker) (range_with_len 0 shape.workers)) }
{
    match (0..shape.workers)
        .map(|_| CheckedWorker::new(alloc))
        .collect(alloc)
    {
        Ok(workers) => Ok(workers),
        Err(_) => Err(NoMemory),
    }
}

/// Whether a job is of the shape: its lock is one of the shape's, and its script passes `check`.
pub fn job_fits(shape: Shape, job: &Job) -> bool
    ensures { result ≡ job_fits shape job.now }
{
    job.lock < shape.locks && job.script.check(shape).is_ok()
}

/// Whether the receipt's place and reply are those of a script that is run on this row, after `count` sections.
fn has_outcome(count: usize, row: Row, script: &Script, receipt: &Receipt) -> bool
    requires { IsScript (length row) script.now }
    ensures { result ≡ has_outcome count row script.now receipt.now }
{
    let mut row = row;
    let reply = eval(script, &mut row);
    receipt.place as usize == count && receipt.reply == reply
}

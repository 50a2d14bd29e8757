//! The look-ups; a look-up changes nothing.

ghost use Rattle.std.specs.Prelude.{◌≡◌, ◌<◌, ◌^◌, ◌↔◌, IsTrue};
ghost use Rattle.rme_program.specs.declared.stage.Stage.{Stage};

use crate::world::World;
use rme_core_image_check::is_pending;
use rme_history::EntryList;
use rme_program::{Phase, Private, Receipt, Stage, WITHDRAWN_PLACE};
use rme_script::Row;
use rme_tree::owner;
use rme_words::{Address, Refusal};

impl World {
    ghost use Rattle.std.specs.Prelude.{◌≡◌, ◌<◌, length};
    ghost use Rattle.rme_machine.specs.AbstractCells.{AbstractCells, is_lock_settled};
    ghost use Rattle.rme_machine.specs.Histories.{history_of_lock};
    ghost use Rattle.rme_machine.specs.Views.{lock_words};
    ghost use Rattle.rme_world.specs.WorldViews.{world_memory, world_abstract_state};
    ghost use Rattle.rme_world.specs.Calls.{OwnerContract, CellsContract, FinishedContract, ReadyContract, LastContract, StepsContract};

    /// The worker that owns a lock, or `None`. `NoLock` if there is no such lock.
    pub fn owner(&self, lock: u32) -> Result<Option<u32>, Refusal>
        ensures { OwnerContract self.now lock result }
    {
        if lock >= self.shape().locks {
            return Err(Refusal::NoLock);
        }
        Ok(owner(&self.bank, lock))
    }

    /// The cells of a lock, and whether they are settled: they are unsettled while the lock has an owner whose section
    /// is not finished. `NoLock` if there is no such lock.
    pub fn cells(&self, lock: u32) -> Result<(Row, bool), Refusal>
        ensures { CellsContract self.now lock result }
    {
        if lock >= self.shape().locks {
            return Err(Refusal::NoLock);
        }
        Ok((self.row(lock), self.settled(lock)))
    }

    /// The cells of a lock.
    fn row(&self, lock: u32) -> Row
        requires { lock < self.now.shape.locks }
        ensures cells { result ≡ (lock_words self.now.shape (world_memory self.now) lock).cells }
        ensures shown { AbstractCells self.now.shape (world_abstract_state self.now) lock result }
    {
        let shape = self.shape();
        let mut row = Row::zeros(shape);
        for cell in 0..shape.cells {
            row.set(cell, self.bank.load(Address::Cell(lock, cell)));
        }
        row
    }

    /// Whether a lock has no owner, or its owner's section is finished.
    fn settled(&self, lock: u32) -> bool
        requires { lock < self.now.shape.locks }
        ensures { result ≡ is_lock_settled (world_abstract_state self.now) lock }
    {
        match owner(&self.bank, lock) {
            None => true,
            Some(worker) => !is_pending(&self.bank, worker),
        }
    }

    /// The number of finished sections of a lock, which is the place of its next one. It is read from the lock's words,
    /// and not counted in the history. `NoLock` if there is no such lock.
    pub fn finished(&self, lock: u32) -> Result<u32, Refusal>
        ensures { FinishedContract self.now lock result }
    {
        if lock >= self.shape().locks {
            return Err(Refusal::NoLock);
        }
        Ok(self.finished_by_turn(lock))
    }

    /// The number of finished sections of a lock, from its turn. An odd turn is that of the next section or, if the lock
    /// is settled, of the last one.
    fn finished_by_turn(&self, lock: u32) -> u32
        requires { lock < self.now.shape.locks }
        ensures { result ≡ length (history_of_lock self.now.history lock) }
    {
        let turn = self.bank.load(Address::Turn(lock));
        if self.settled(lock) {
            return small(turn / 2 + turn % 2);
        }
        small(turn / 2)
    }

    /// The finished sections of all locks, in order of finishing.
    pub fn history(&self) -> &EntryList
        ensures { result.now.entries ≡ self.now.history }
    {
        &self.history
    }

    /// Whether a worker is up and ready for a job; a ready worker holds no node. `NoWorker` if there is no such worker.
    pub fn ready(&self, worker: u32) -> Result<bool, Refusal>
        ensures { ReadyContract self.now worker result }
    {
        match self.privates.get(worker as usize) {
            None => Err(Refusal::NoWorker),
            Some(None) => Ok(false),
            Some(Some(private)) => Ok(is_resting(private)),
        }
    }

    /// The receipt of a worker's last job. It is read from the words, so a worker that is down has it too. `None`
    /// before the first job, while a job is pending, and after a withdrawal. `NoWorker` if there is no such worker.
    pub fn last(&self, worker: u32) -> Result<Option<Receipt>, Refusal>
        ensures { LastContract self.now worker result }
    {
        if worker >= self.shape().workers {
            return Err(Refusal::NoWorker);
        }
        let done = self.bank.load(Address::Done(worker));
        let place = self.bank.load(Address::Place(worker));
        if done == 0 || done != self.bank.load(Address::Begun(worker)) || place == WITHDRAWN_PLACE {
            return Ok(None);
        }
        Ok(Some(Receipt {
            worker,
            lock: small(self.bank.load(Address::At(worker))),
            number: small(done),
            place: small(place),
            reply: self.bank.load(Address::Reply(worker)),
        }))
    }

    /// The number of own steps of a worker's latest stay in a phase since its last restart, without blocked steps; 0 if
    /// there was no such stay. The step that ends a stay counts for that stay. `NoWorker` if there is no such worker.
    pub fn steps(&self, worker: u32, phase: Phase) -> Result<u32, Refusal>
        ensures { StepsContract self.now worker phase result }
    {
        if worker >= self.shape().workers {
            return Err(Refusal::NoWorker);
        }
        Ok(self.counts_at(worker).of(phase))
    }
}

/// Whether a worker at this private state is ready.
fn is_resting(private: &Private) -> bool
    ensures { IsTrue result ↔ (private.now.stage ≡ Stage.Resting) }
{
    matches!(private.stage, Stage::Resting)
}

/// A word of a world that holds a 32-bit number.
fn small(value: u64) -> u32
    requires { value < 2 ^ 32 }
    ensures { result ≡ value }
{
    value as u32
}

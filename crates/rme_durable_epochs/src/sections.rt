//! The numbers of finished sections of a world, and the last receipt of each worker.

ghost use Rattle.std.specs.Prelude.{◌≡◌, ◌+◌, ◌<◌, ◌^◌, ℕ, get_or, length};
ghost use Rattle.rme_machine.specs.Histories.{place_of};
ghost use Rattle.rme_durable_epochs.specs.EpochLengths.{sections_of_lock};
ghost use Rattle.rme_durable_epochs.specs.EpochLengths.{begun_jobs};

use crate::epoch_executor::EpochExecutor;
use rme_history::EntryList;
use rme_program::Receipt;
use rme_words::MOST_LOCKS;
use rme_world::World;
use std::alloc::{AllocError, Global};
use std::marker::Model;

/// The number of finished sections of each lock.
#[derive(Drop)]
pub struct Sections {
    counts: [u64; MOST_LOCKS as usize],
}

impl Model for Sections {
    ghost use Rattle.std.specs.Prelude.{ℕ, List};

    ghost Value = { List ℕ };

    ghost view = { λ sections. sections.counts };
}

impl Sections {
    ghost use Rattle.std.specs.Prelude.{◌≡◌, get_or};
    ghost use Rattle.rme_durable_epochs.specs.EpochLengths.{AreSectionCounts};

    /// The finished sections of a world.
    pub fn of(world: &World) -> Sections
        ensures { AreSectionCounts world.now.history result }
    {
        let mut counts = [0u64; MOST_LOCKS as usize];
        let history = world.history();
        for at in 0..history.len() {
            let Some(receipt) = history.receipt(at) else {
                unreachable!();
            };
            count_section(&mut counts, receipt);
        }
        Sections { counts }
    }

    /// The finished sections of a lock; 0 for a number of no lock.
    pub fn at(&self, lock: u32) -> u64
        ensures { result ≡ get_or self.now lock 0 }
    {
        let place = lock as usize;
        if place < self.counts.len() {
            self.counts[place]
        } else {
            0
        }
    }
}

/// Adds 1 to the count of a receipt's lock, if there is one.
fn count_section(counts: &mut [u64], receipt: Receipt)
    requires { get_or counts.old receipt.lock 0 + 1 < 2 ^ 64 }
    ensures length { length counts.new ≡ length counts.old }
    ensures counts { (lock : ℕ) → lock < length counts.old
        → get_or counts.new lock 0 ≡ get_or counts.old lock 0 + sections_of_lock receipt lock }
{
    let lock = receipt.lock as usize;
    if lock < counts.len() {
        counts[lock] += 1;
    }
}

/// The number of entries of a lock: the place of its next section.
pub fn next_place(history: &EntryList, lock: u32) -> u64
    ensures { result ≡ place_of history.now.entries lock }
{
    let mut count: u64 = 0;
    for at in 0..history.len() {
        let Some(receipt) = history.receipt(at) else {
            unreachable!();
        };
        count += sections_of_lock(receipt, lock);
    }
    count
}

/// 1 for a receipt of this lock, else 0.
fn sections_of_lock(receipt: Receipt, lock: u32) -> u64
    ensures { result ≡ sections_of_lock receipt lock }
{
    u64::from(receipt.lock == lock)
}

/// The receipt of each worker's last finished section, if it finished any.
pub fn last_receipts(alloc: Global, world: &World) -> Result<Vec<Option<Receipt>>, AllocError> {
    let mut last = vec![in alloc; None; world.shape().workers() as usize]?;
    let history = world.history();
    for at in 0..history.len() {
        let Some(receipt) = history.receipt(at) else {
            unreachable!();
        };
        if let Some(own) = last.get_mut(receipt.worker as usize) {
            *own = Some(receipt);
        }
    }
    Ok(last)
}

impl EpochExecutor {
    ghost use Rattle.std.specs.Prelude.{◌≡◌};
    ghost use Rattle.rme_durable_epochs.specs.EpochLengths.{client_sections, has_spent_jobs};

    /// The number of finished sections of this epoch, without those by which the checkpoint worker set the cells.
    pub fn sections(&self) -> u64
        ensures { result ≡ client_sections self.now.executor.world }
    {
        let world = self.executor().world();
        let all = world.history().len() as u64;
        all.saturating_sub(begun_jobs(world, world.shape().workers.saturating_sub(1)))
    }

    /// Whether a worker has used all its job numbers of this epoch.
    pub fn has_spent_jobs(&self, worker: Option<u32>) -> bool
        ensures { result ≡ has_spent_jobs self.now.executor.world worker }
    {
        let world = self.executor().world();
        match worker {
            Some(worker) => begun_jobs(world, worker) >= u64::from(world.shape().jobs),
            None => false,
        }
    }
}

/// The number of jobs that a worker began; 0 if there is no such worker.
fn begun_jobs(world: &World, worker: u32) -> u64
    ensures { result ≡ begun_jobs world.now worker }
{
    if worker >= world.shape().workers {
        return 0;
    }
    world.number(worker)
}

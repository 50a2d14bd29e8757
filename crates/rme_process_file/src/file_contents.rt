//! The locks and the workers, read from the words.

use crate::process_file::ProcessFile;
use crate::stance::FileStance;
use rme_core_image_check::{is_pending, slate};
use rme_script::{Job, Row};
use rme_tree::{held, owner};
use rme_waiting::blocked_by;
use rme_words::Address;

impl ProcessFile {
    ghost use Rattle.std.specs.Prelude.{◌≡◌, ◌≢◌, ◌<◌, ◌↔◌, IsTrue, IsSome, IfSome, true};
    ghost use Rattle.rme_words.specs.declared.address.Address.{Address};
    ghost use Rattle.rme_machine.specs.Views.{is_pending, slate_job};
    ghost use Rattle.rme_machine.specs.Invariant.{SlateHasJob};
    ghost use Rattle.rme_process_file.specs.ProcessFiles.{file_memory};
    ghost use Rattle.rme_process_file.specs.FileContents.{worker_words_in, lock_owner_in, cells_in, is_lock_settled_in, sections_in, has_slate_job, pending_in, file_stance_in, blocked_by_in};
    ghost use Rattle.rme_tree.specs.Nodes.{held_levels_in};

    /// The worker that owns a lock, or `None`. `lock` is below the shape's locks.
    pub fn owner(&self, lock: u32) -> Option<u32>
        requires { lock < self.now.shape.locks }
        ensures owner { result ≡ lock_owner_in self.now lock }
        ensures worker { IfSome result (λ worker. worker < self.now.shape.workers) }
    {
        owner(&self.bank, lock)
    }

    /// The cells of a lock, and whether they are settled: they are unsettled while the lock has an owner whose section
    /// is not finished. `lock` is below the shape's locks.
    pub fn cells(&self, lock: u32) -> (Row, bool)
        requires { lock < self.now.shape.locks }
        ensures cells { result.0 ≡ cells_in self.now lock }
        ensures settled { result.1 ≡ is_lock_settled_in self.now lock }
    {
        (self.row(lock), self.settled(lock))
    }

    fn row(&self, lock: u32) -> Row
        requires { lock < self.now.shape.locks }
        ensures { result ≡ cells_in self.now lock }
    {
        let shape = self.shape();
        let mut row = Row::zeros(shape);
        for cell in 0..shape.cells {
            row.set(cell, self.bank.load(Address::Cell(lock, cell)));
        }
        row
    }

    fn settled(&self, lock: u32) -> bool
        requires { lock < self.now.shape.locks }
        ensures { result ≡ is_lock_settled_in self.now lock }
    {
        match self.owner(lock) {
            None => true,
            Some(worker) => !self.is_pending(worker),
        }
    }

    /// The number of finished sections of a lock. `lock` is below the shape's locks.
    pub fn sections(&self, lock: u32) -> u64
        requires { lock < self.now.shape.locks }
        ensures { result ≡ sections_in self.now lock }
    {
        let turn = self.bank.load(Address::Turn(lock));
        let logged = if self.settled(lock) { turn % 2 } else { 0 };
        turn / 2 + logged
    }

    /// The number of the last job that a worker has begun; 0 if it has begun none. `worker` is below the shape's
    /// workers.
    pub fn number(&self, worker: u32) -> u64
        requires { worker < self.now.shape.workers }
        ensures { result ≡ (worker_words_in self.now worker).begun }
    {
        self.bank.load(Address::Begun(worker))
    }

    pub(crate) fn is_pending(&self, worker: u32) -> bool
        requires { worker < self.now.shape.workers }
        ensures { result ≡ is_pending (worker_words_in self.now worker) }
    {
        is_pending(&self.bank, worker)
    }

    /// Whether a worker's slate has a job of the shape.
    pub(crate) fn has_job(&self, worker: u32) -> bool
        requires { worker < self.now.shape.workers }
        ensures test { result ≡ has_slate_job self.now.shape (worker_words_in self.now worker) }
        ensures job { IsTrue result ↔ SlateHasJob self.now.shape (worker_words_in self.now worker) }
    {
        let shape = self.bank.shape();
        if self.bank.load(Address::SlateLock(worker)) >= u64::from(shape.locks) {
            return false;
        }
        let script = slate(&self.bank, worker);
        if u64::from(script.n()) != self.bank.load(Address::SlateLen(worker)) {
            return false;
        }
        script.check(shape).is_ok()
    }

    /// The job that a worker has asked for, until it is done or withdrawn. Also `None` if the words of its slate encode
    /// no job of the shape. `worker` is below the shape's workers.
    pub fn pending(&self, worker: u32) -> Option<Job>
        requires { worker < self.now.shape.workers }
        ensures pending { result ≡ pending_in self.now.shape (worker_words_in self.now worker) }
        ensures lock { IfSome result (λ job. job.lock < self.now.shape.locks) }
    {
        if !self.is_pending(worker) {
            return None;
        }
        if !self.has_job(worker) {
            return None;
        }
        Some(Job {
            lock: self.slate_lock(worker),
            script: slate(&self.bank, worker),
        })
    }

    /// The lock of a slate that has a job.
    fn slate_lock(&self, worker: u32) -> u32
        requires worker { worker < self.now.shape.workers }
        requires job { SlateHasJob self.now.shape (worker_words_in self.now worker) }
        ensures { result ≡ (worker_words_in self.now worker).slate_lock }
    {
        self.bank.load(Address::SlateLock(worker)) as u32
    }

    /// The stance of a worker, as a process that attaches to its number would find it. `worker` is below the shape's
    /// workers.
    pub fn stance(&self, worker: u32) -> FileStance
        requires { worker < self.now.shape.workers }
        ensures { result ≡ file_stance_in self.now worker }
    {
        let Some(job) = self.pending(worker) else {
            return FileStance::Ready;
        };
        match self.owner(job.lock) {
            Some(owner) if owner == worker => FileStance::Held(job.lock),
            _ => FileStance::Climb(job.lock),
        }
    }
    /// The worker that a worker waits for, as `rme_waiting::blocked_by` reads it from the words. `None` if the worker
    /// does not wait, or nobody holds the next node that it needs. `worker` is below the shape's workers.
    pub fn blocked_by(&self, worker: u32) -> Option<u32>
        requires { worker < self.now.shape.workers }
        ensures blocked { result ≡ blocked_by_in self.now worker }
        ensures worker { IfSome result (λ other. other < self.now.shape.workers) }
        ensures other { IfSome result (λ other. other ≢ worker) }
    {
        match self.stance(worker) {
            FileStance::Climb(_) => blocked_by(&self.bank, worker),
            _ => None,
        }
    }

    /// The number of levels of its path that a worker holds in a lock. `lock` and `worker` are below the shape's locks
    /// and workers.
    pub fn levels(&self, lock: u32, worker: u32) -> u32
        requires lock { lock < self.now.shape.locks }
        requires worker { worker < self.now.shape.workers }
        ensures { result ≡ held_levels_in self.now.shape (file_memory self.now) worker lock }
    {
        held(&self.bank, lock, worker)
    }
}

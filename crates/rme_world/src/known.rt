//! The private state of a worker that is up, its pending job, and whether another worker blocks it.

use crate::world::World;
use rme_core_image_check::{is_pending, slate};
use rme_program::{Action, Private, Stage, next};
use rme_script::Job;
use rme_words::Address;

impl World {
    ghost use Rattle.std.specs.Prelude.{◌≡◌, ◌<◌, ◌↔◌, IsSome, IfSome, IsTrue, IsFalse, true};
    ghost use Rattle.rme_machine.specs.Views.{is_pending, slate_job};
    ghost use Rattle.rme_world.specs.Queries.{WorkerIsBlocked, world_worker_words};
    ghost use Rattle.rme_world.specs.WorldViews.{world_privates};
    ghost use Rattle.rme_world.specs.WorldInvariants.{WorldInvariant};

    /// The private state of a worker; `None` if it is down or there is no such worker.
    pub fn known(&self, worker: u32) -> Option<Private>
        ensures kept { WorldInvariant self.now }
        ensures known { result ≡ world_privates self.now worker }
    {
        match self.privates.get(worker as usize) {
            Some(Some(private)) => Some(*private),
            _ => None,
        }
    }

    /// The job that a worker has asked for, until it is finished or withdrawn, whether the worker is up or down.
    pub fn pending(&self, worker: u32) -> Option<Job>
        requires { worker < self.now.shape.workers }
        ensures pending { IsSome result ↔ (is_pending (world_worker_words self.now worker) ≡ true) }
        ensures job { IfSome result (λ job. job ≡ slate_job (world_worker_words self.now worker)) }
    {
        if !is_pending(&self.bank, worker) {
            return None;
        }
        Some(Job {
            lock: self.slate_lock(worker),
            script: slate(&self.bank, worker),
        })
    }

    /// The number of the last job submitted to a worker, whether the worker is up or down; 0 if there was none.
    pub fn number(&self, worker: u32) -> u64
        requires { worker < self.now.shape.workers }
        ensures { result ≡ (world_worker_words self.now worker).begun }
    {
        self.bank.load(Address::Begun(worker))
    }

    /// The lock of a pending job.
    fn slate_lock(&self, worker: u32) -> u32
        requires within { worker < self.now.shape.workers }
        requires pending { is_pending (world_worker_words self.now worker) ≡ true }
        ensures { result ≡ (world_worker_words self.now worker).slate_lock }
    {
        self.bank.load(Address::SlateLock(worker)) as u32
    }

    /// Whether a worker's next own step would be blocked: it climbs, and another worker holds the next node of its path
    /// from the other side. A blocked step changes nothing.
    pub fn would_block(&self, worker: u32) -> bool
        ensures stopped { IsTrue result → WorkerIsBlocked self.now worker }
        ensures free { IsFalse result → WorkerIsBlocked self.now worker → ⊥ }
    {
        if !self.is_in_enter(worker) {
            return false;
        }
        let Some(private) = self.known(worker) else {
            return false;
        };
        let Stage::Climbing(_) = private.stage else {
            return false;
        };
        match next(self.shape(), &private) {
            Action::Swap(address, free, _) => self.bank.load(address) != free,
            _ => false,
        }
    }

    /// Whether a worker is in phase Enter. Its private state is wide, and is not copied for this test.
    fn is_in_enter(&self, worker: u32) -> bool
        ensures { IsFalse result → WorkerIsBlocked self.now worker → ⊥ }
    {
        match self.privates.get(worker as usize) {
            Some(Some(private)) => matches!(private.stage, Stage::Climbing(_)),
            _ => false,
        }
    }
}

//! Whether the words are sound: whether a world can have them at some moment.

use crate::damage::Damage;
use crate::only::has_only;
use crate::process_file::ProcessFile;
use rme_program::WITHDRAWN_PLACE;
use rme_tree::held;
use rme_words::Address;

impl ProcessFile {
    ghost use Rattle.std.specs.Prelude.{◌≡◌, ◌<◌, ◌≤◌, ◌+◌, ◌↔◌, ℕ, IsTrue, IsNone, IfSome, MatchOption};
    ghost use Rattle.rme_words.specs.declared.address.Address.{Address};
    ghost use Rattle.rme_tree.specs.Nodes.{held_levels_in, lock_nodes};
    ghost use Rattle.rme_tree.specs.HeldTrees.{IsLocalTree, IsLocalNode};
    ghost use Rattle.rme_machine.specs.Views.{current_lock};
    ghost use Rattle.rme_core_image_check.specs.Workers.{HeldLockIsCurrent, HeldLocksAreCurrent, PendingJobIsValid, ReceiptIsBlank};
    ghost use Rattle.rme_process_file.specs.ProcessFiles.{file_memory};
    ghost use Rattle.rme_process_file.specs.FileContents.{worker_words_in};
    ghost use Rattle.rme_process_file.specs.Sound.{IsDamageOf, HasSoundMask, HasSoundTurn, IsSound, IsSoundLock, IsSoundWorker, HasSoundReceipt};

    /// The first words that no world can have at any moment, if there are any: first of the workers, then of the locks.
    ///
    /// Conditions that need a history, for example on the values of cells, are not checked. Words that were read while
    /// workers stepped may be of different moments: they may look damaged then, and be sound when they are read again.
    pub fn first_damage(&self) -> Option<Damage>
        ensures none { IsNone result ↔ IsSound self.now.shape (file_memory self.now) }
        ensures harm { IfSome result (λ damage. IsDamageOf self.now.shape (file_memory self.now) damage) }
    {
        if let Some(damage) = self.workers_damage() {
            return Some(damage);
        }
        self.locks_damage()
    }

    fn workers_damage(&self) -> Option<Damage>
        ensures { MatchOption result
            ((worker : ℕ) → worker < self.now.shape.workers
            → IsSoundWorker self.now.shape (worker_words_in self.now worker)
            (held_levels_in self.now.shape (file_memory self.now) worker))
            (λ damage. IsDamageOf self.now.shape (file_memory self.now) damage) }
    {
        let shape = self.shape();
        for worker in 0..shape.workers {
            if let Some(damage) = self.worker_damage(worker) {
                return Some(damage);
            }
        }
        None
    }

    fn locks_damage(&self) -> Option<Damage>
        ensures { MatchOption result
            ((lock : ℕ) → lock < self.now.shape.locks → IsSoundLock self.now.shape (file_memory self.now) lock)
            (λ damage. IsDamageOf self.now.shape (file_memory self.now) damage) }
    {
        let shape = self.shape();
        for lock in 0..shape.locks {
            if let Some(damage) = self.lock_damage(lock) {
                return Some(damage);
            }
        }
        None
    }

    fn worker_damage(&self, worker: u32) -> Option<Damage>
        requires { worker < self.now.shape.workers }
        ensures { MatchOption result
            (IsSoundWorker self.now.shape (worker_words_in self.now worker)
            (held_levels_in self.now.shape (file_memory self.now) worker))
            (λ damage. IsDamageOf self.now.shape (file_memory self.now) damage) }
    {
        if !self.has_few(worker) {
            return Some(Damage::Begun(worker));
        }
        if !self.has_done(worker) {
            return Some(Damage::Done(worker));
        }
        if let Some(lock) = self.stray(worker) {
            return Some(Damage::Stake(worker, lock));
        }
        if !self.has_pending(worker) {
            return Some(Damage::Slate(worker));
        }
        if !self.has_receipt(worker) {
            return Some(Damage::Receipt(worker));
        }
        None
    }

    fn lock_damage(&self, lock: u32) -> Option<Damage>
        requires { lock < self.now.shape.locks }
        ensures { MatchOption result (IsSoundLock self.now.shape (file_memory self.now) lock)
            (λ damage. IsDamageOf self.now.shape (file_memory self.now) damage) }
    {
        if let Some(node) = self.bad_node(lock) {
            return Some(Damage::Node(lock, node));
        }
        if !self.has_turn(lock) {
            return Some(Damage::Turn(lock));
        }
        if !self.has_mask(lock) {
            return Some(Damage::Mask(lock));
        }
        None
    }

    /// Whether at most as many jobs are begun as the shape allows.
    fn has_few(&self, worker: u32) -> bool
        requires { worker < self.now.shape.workers }
        ensures { IsTrue result ↔ ((worker_words_in self.now worker).begun ≤ self.now.shape.jobs) }
    {
        self.number(worker) <= u64::from(self.shape().jobs)
    }

    fn done(&self, worker: u32) -> u64
        requires { worker < self.now.shape.workers }
        ensures { result ≡ (worker_words_in self.now worker).done }
    {
        self.bank.load(Address::Done(worker))
    }

    /// Whether at most one job is begun and not done.
    fn has_done(&self, worker: u32) -> bool
        requires { worker < self.now.shape.workers }
        ensures { IsTrue result
            ↔ (((worker_words_in self.now worker).done ≤ (worker_words_in self.now worker).begun)
            × ((worker_words_in self.now worker).begun ≤ (worker_words_in self.now worker).done + 1)) }
    {
        let begun = self.number(worker);
        let done = self.done(worker);
        if done > begun {
            return false;
        }
        begun - done <= 1
    }

    /// The lock that a worker is at: its slate's while a job is pending, otherwise that of its last receipt.
    fn site(&self, worker: u32) -> u64
        requires { worker < self.now.shape.workers }
        ensures { result ≡ current_lock (worker_words_in self.now worker) }
    {
        if self.is_pending(worker) {
            return self.bank.load(Address::SlateLock(worker));
        }
        self.bank.load(Address::At(worker))
    }

    /// The number of levels of its path that a worker holds in a lock.
    fn held(&self, worker: u32, lock: u32) -> u32
        requires worker { worker < self.now.shape.workers }
        requires lock { lock < self.now.shape.locks }
        ensures { result ≡ held_levels_in self.now.shape (file_memory self.now) worker lock }
    {
        held(&self.bank, lock, worker)
    }

    /// Whether a worker that holds a node of a lock has begun a job, and is at that lock.
    fn has_stake(&self, worker: u32, lock: u32) -> bool
        requires worker { worker < self.now.shape.workers }
        requires lock { lock < self.now.shape.locks }
        ensures { IsTrue result
            ↔ HeldLockIsCurrent (worker_words_in self.now worker)
            (held_levels_in self.now.shape (file_memory self.now) worker) lock }
    {
        if self.held(worker, lock) == 0 {
            return true;
        }
        if self.number(worker) == 0 {
            return false;
        }
        self.site(worker) == u64::from(lock)
    }

    /// A lock of which a worker holds nodes without having a job there.
    fn stray(&self, worker: u32) -> Option<u32>
        requires { worker < self.now.shape.workers }
        ensures { MatchOption result
            (HeldLocksAreCurrent self.now.shape (worker_words_in self.now worker)
            (held_levels_in self.now.shape (file_memory self.now) worker))
            (λ lock. (lock < self.now.shape.locks
            → HeldLockIsCurrent (worker_words_in self.now worker)
            (held_levels_in self.now.shape (file_memory self.now) worker) lock)
            → ⊥) }
    {
        let shape = self.shape();
        for lock in 0..shape.locks {
            if !self.has_stake(worker, lock) {
                return Some(lock);
            }
        }
        None
    }

    /// Whether a pending job's slate has a job of the shape.
    fn has_pending(&self, worker: u32) -> bool
        requires { worker < self.now.shape.workers }
        ensures { IsTrue result ↔ PendingJobIsValid self.now.shape (worker_words_in self.now worker) }
    {
        if !self.is_pending(worker) {
            return true;
        }
        self.has_job(worker)
    }

    /// Whether the receipt words are 0.
    fn is_blank(&self, worker: u32) -> bool
        requires { worker < self.now.shape.workers }
        ensures { IsTrue result ↔ ReceiptIsBlank (worker_words_in self.now worker) }
    {
        if self.bank.load(Address::Reply(worker)) != 0 {
            return false;
        }
        if self.bank.load(Address::Place(worker)) != 0 {
            return false;
        }
        self.bank.load(Address::At(worker)) == 0
    }

    /// Whether the receipt words have a lock, and no reply if the number was withdrawn or none is begun.
    fn has_receipt(&self, worker: u32) -> bool
        requires { worker < self.now.shape.workers }
        ensures { IsTrue result ↔ HasSoundReceipt self.now.shape (worker_words_in self.now worker) }
    {
        if self.number(worker) == 0 {
            return self.is_blank(worker);
        }
        if self.is_pending(worker) {
            return true;
        }
        if self.bank.load(Address::At(worker)) >= u64::from(self.shape().locks) {
            return false;
        }
        if self.bank.load(Address::Place(worker)) != WITHDRAWN_PLACE {
            return true;
        }
        self.bank.load(Address::Reply(worker)) == 0
    }

    fn node(&self, lock: u32, node: u32) -> u64
        requires lock { lock < self.now.shape.locks }
        requires node { 1 ≤ node }
        requires inside { node < self.now.shape.leaves }
        ensures { result ≡ lock_nodes (file_memory self.now) lock node }
    {
        self.bank.load(Address::Node(lock, node))
    }

    /// Whether a node's word is 0, or a side whose child is a worker's leaf or a node that is not 0.
    fn is_local_at(&self, lock: u32, node: u32) -> bool
        requires lock { lock < self.now.shape.locks }
        requires node { 1 ≤ node }
        requires inside { node < self.now.shape.leaves }
        ensures { IsTrue result
            ↔ IsLocalNode (lock_nodes (file_memory self.now) lock) self.now.shape.leaves self.now.shape.workers node }
    {
        let shape = self.shape();
        let word = self.node(lock, node);
        if word == 0 {
            return true;
        }
        if word > 2 {
            return false;
        }
        let child = 2 * node + word as u32 - 1;
        if child < shape.leaves {
            return self.node(lock, child) != 0;
        }
        child - shape.leaves < shape.workers
    }

    /// A node of a lock for which this does not hold.
    fn bad_node(&self, lock: u32) -> Option<u32>
        requires { lock < self.now.shape.locks }
        ensures { MatchOption result
            (IsLocalTree (lock_nodes (file_memory self.now) lock) self.now.shape.leaves self.now.shape.workers)
            (λ node. (1 ≤ node → node < self.now.shape.leaves
            → IsLocalNode (lock_nodes (file_memory self.now) lock) self.now.shape.leaves self.now.shape.workers
            node)
            → ⊥) }
    {
        let shape = self.shape();
        for node in 1..shape.leaves {
            if !self.is_local_at(lock, node) {
                return Some(node);
            }
        }
        None
    }

    fn turn(&self, lock: u32) -> u64
        requires { lock < self.now.shape.locks }
        ensures { result ≡ file_memory self.now (Address.Turn lock) }
    {
        self.bank.load(Address::Turn(lock))
    }

    /// Whether the turn is below 2^32, and even if the lock has no owner.
    fn has_turn(&self, lock: u32) -> bool
        requires { lock < self.now.shape.locks }
        ensures { IsTrue result ↔ HasSoundTurn self.now.shape (file_memory self.now) lock }
    {
        let turn = self.turn(lock);
        if turn > u64::from(u32::MAX) {
            return false;
        }
        if turn % 2 == 0 {
            return true;
        }
        self.owner(lock).is_some()
    }

    /// Whether the mask has only cells of the lock while the turn is odd.
    fn has_mask(&self, lock: u32) -> bool
        requires { lock < self.now.shape.locks }
        ensures { IsTrue result ↔ HasSoundMask self.now.shape (file_memory self.now) lock }
    {
        if self.turn(lock) % 2 == 0 {
            return true;
        }
        let mask = self.bank.load(Address::Mask(lock));
        has_only(mask, self.shape().cells)
    }
}

//! Whether the words of each worker are valid for its nodes and its entries.

ghost use Rattle.std.specs.Prelude.{◌≡◌, ◌<◌, ◌≤◌, ◌↔◌, IsTrue, length};
ghost use Rattle.rme_words.specs.Words.{memory_of};
ghost use Rattle.rme_core_image_check.specs.Reads.{bank_worker_words, bank_held_levels};
ghost use Rattle.rme_core_image_check.specs.Workers.{WorkerNumbersAreValid, HeldLockIsCurrent, HeldLocksAreCurrent, PendingJobIsValid, WorkerIsValid, WorkersAreValid};

use crate::receipts::is_receipt_valid;
use crate::slates::{current_lock, is_pending, is_slate_job_valid};
use rme_program::Entry;
use rme_tree::held;
use rme_words::{Address, Bank};

/// Whether at most one job is begun and not done, and at most as many are begun as the shape allows.
fn are_worker_numbers_valid(bank: &Bank, worker: u32) -> bool
    requires { worker < bank.now.shape.workers }
    ensures { IsTrue result ↔ WorkerNumbersAreValid bank.now.shape (bank_worker_words bank.now worker) }
{
    let begun = bank.load(Address::Begun(worker));
    let done = bank.load(Address::Done(worker));
    if done > begun {
        return false;
    }
    if begun - done > 1 {
        return false;
    }
    begun <= u64::from(bank.shape().jobs)
}

/// Whether a worker that holds a node of a lock has begun a job, and is at that lock.
fn is_held_lock_current(bank: &Bank, worker: u32, lock: u32) -> bool
    requires worker { worker < bank.now.shape.workers }
    requires lock { lock < bank.now.shape.locks }
    ensures { IsTrue result
        ↔ HeldLockIsCurrent (bank_worker_words bank.now worker) (bank_held_levels bank.now worker) lock }
{
    if held(bank, lock, worker) == 0 {
        return true;
    }
    if bank.load(Address::Begun(worker)) == 0 {
        return false;
    }
    current_lock(bank, worker) == u64::from(lock)
}

/// Whether this holds for each lock.
fn are_held_locks_current(bank: &Bank, worker: u32) -> bool
    requires { worker < bank.now.shape.workers }
    ensures { IsTrue result
        ↔ HeldLocksAreCurrent bank.now.shape (bank_worker_words bank.now worker) (bank_held_levels bank.now worker) }
{
    let shape = bank.shape();
    for lock in 0..shape.locks {
        if !is_held_lock_current(bank, worker, lock) {
            return false;
        }
    }
    true
}

/// Whether a pending job's slate has a job of the shape.
fn is_pending_job_valid(bank: &Bank, worker: u32) -> bool
    requires { worker < bank.now.shape.workers }
    ensures { IsTrue result ↔ PendingJobIsValid bank.now.shape (bank_worker_words bank.now worker) }
{
    if !is_pending(bank, worker) {
        return true;
    }
    is_slate_job_valid(bank, worker)
}

/// Whether the words of one worker are valid for its nodes and its last entry.
fn is_worker_valid(bank: &Bank, worker: u32, last: &Option<Entry>) -> bool
    requires { worker < bank.now.shape.workers }
    ensures { IsTrue result
        ↔ WorkerIsValid bank.now.shape (bank_worker_words bank.now worker) (bank_held_levels bank.now worker) last.now }
{
    if !are_worker_numbers_valid(bank, worker) {
        return false;
    }
    if !are_held_locks_current(bank, worker) {
        return false;
    }
    if !is_pending_job_valid(bank, worker) {
        return false;
    }
    is_receipt_valid(bank, worker, last)
}

/// Whether the words of all workers are valid.
pub fn are_workers_valid(bank: &Bank, last_entries: &[Option<Entry>]) -> bool
    requires { length last_entries.now ≡ bank.now.shape.workers }
    ensures { IsTrue result ↔ WorkersAreValid bank.now.shape (memory_of bank.now) last_entries.now }
{
    let shape = bank.shape();
    for worker in 0..shape.workers {
        if !is_worker_valid(bank, worker, &last_entries[worker as usize]) {
            return false;
        }
    }
    true
}

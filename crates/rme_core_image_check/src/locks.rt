//! Whether the words of each lock are valid for its owner and its entries.

ghost use Rattle.std.specs.Prelude.{◌≡◌, ◌^◌, ◌≤◌, ◌<◌, ◌+◌, ◌↔◌, ◌⊎◌, IsTrue, ℕ, length, Option};
ghost use Rattle.rme_words.specs.Words.{memory_of};
ghost use Rattle.rme_tree.specs.Nodes.{owner_in};
ghost use Rattle.rme_script.specs.Scripts.{IsScript};
ghost use Rattle.rme_machine.specs.Views.{slate_job};
ghost use Rattle.rme_machine.specs.Invariant.{IsSettledLock, IsLoggedLock, IsFinishedLock};
ghost use Rattle.rme_core_image_check.specs.Reads.{bank_worker_words, bank_lock_words};
ghost use Rattle.rme_core_image_check.specs.Workers.{PendingJobIsValid};
ghost use Rattle.rme_core_image_check.specs.Locks.{EntryIsLastJobOf, LockIsValid, lock_fold, LastScriptFits, LocksMayBeChecked, LocksAreValid};

use crate::last_entry_lists::next_place;
use crate::shadows::{has_cells, has_mixed_cells, is_shadow_of_row};
use crate::slates::{is_pending, slate};
use rme_program::Entry;
use rme_script::{Row, Script, eval};
use rme_tree::owner;
use rme_words::{Address, Bank};

/// Whether the turn is even and the cells are the row.
fn is_settled_lock(bank: &Bank, lock: u32, row: &Row, place: u64) -> bool
    requires lock { lock < bank.now.shape.locks }
    requires row { length row.now ≡ bank.now.shape.cells }
    requires place { place ≤ 2 ^ 32 }
    ensures { IsTrue result ↔ IsSettledLock (bank_lock_words bank.now lock) row.now place }
{
    if bank.load(Address::Turn(lock)) != 2 * place {
        return false;
    }
    has_cells(bank, lock, row)
}

/// Whether the turn is odd, the shadow is that of the script on the row, and each cell is that of the row or of the
/// script's result.
fn is_logged_lock(bank: &Bank, lock: u32, row: &Row, place: u64, script: &Script) -> bool
    requires lock { lock < bank.now.shape.locks }
    requires row { length row.now ≡ bank.now.shape.cells }
    requires place { place ≤ 2 ^ 32 }
    requires script { IsScript bank.now.shape.cells script.now }
    ensures { IsTrue result ↔ IsLoggedLock bank.now.shape (bank_lock_words bank.now lock) row.now place script.now }
{
    if bank.load(Address::Turn(lock)) != 2 * place + 1 {
        return false;
    }
    let mut after = *row;
    let reply = eval(script, &mut after);
    if !is_shadow_of_row(bank, lock, script, &after, reply) {
        return false;
    }
    has_mixed_cells(bank, lock, row, &after)
}

/// Whether the turn is still odd, the cells are the row, and the shadow is that of the last entry, which the row
/// includes.
fn is_finished_lock(bank: &Bank, lock: u32, row: &Row, place: u64, last: &Entry) -> bool
    requires lock { lock < bank.now.shape.locks }
    requires row { length row.now ≡ bank.now.shape.cells }
    requires place { place ≤ 2 ^ 32 }
    requires script { IsScript bank.now.shape.cells last.now.script }
    ensures { IsTrue result ↔ IsFinishedLock bank.now.shape (bank_lock_words bank.now lock) row.now place last.now }
{
    if place == 0 {
        return false;
    }
    if bank.load(Address::Turn(lock)) != 2 * place - 1 {
        return false;
    }
    if !is_shadow_of_row(bank, lock, &last.script, row, last.receipt.reply) {
        return false;
    }
    has_cells(bank, lock, row)
}

/// The lock of an owner whose job is pending: settled, or logged with the job's script.
fn is_pending_lock_valid(bank: &Bank, lock: u32, row: &Row, place: u64, worker: u32) -> bool
    requires lock { lock < bank.now.shape.locks }
    requires row { length row.now ≡ bank.now.shape.cells }
    requires place { place ≤ 2 ^ 32 }
    requires worker { worker < bank.now.shape.workers }
    requires script { IsScript bank.now.shape.cells (slate_job (bank_worker_words bank.now worker)).script }
    ensures { IsTrue result ↔ (IsSettledLock (bank_lock_words bank.now lock) row.now place
        ⊎ IsLoggedLock bank.now.shape (bank_lock_words bank.now lock) row.now place
        (slate_job (bank_worker_words bank.now worker)).script) }
{
    if is_settled_lock(bank, lock, row, place) {
        return true;
    }
    is_logged_lock(bank, lock, row, place, &slate(bank, worker))
}

/// Whether an entry is the last job of a worker.
fn is_last_job_of(bank: &Bank, last: &Entry, worker: u32) -> bool
    requires { worker < bank.now.shape.workers }
    ensures { IsTrue result ↔ EntryIsLastJobOf last.now worker (bank_worker_words bank.now worker) }
{
    if last.receipt.worker != worker {
        return false;
    }
    u64::from(last.receipt.number) == bank.load(Address::Done(worker))
}

/// The lock of an owner whose job is done: settled, or still logged, and its last entry is the owner's last job.
fn is_finished_lock_valid(bank: &Bank, lock: u32, row: &Row, last: &Entry, worker: u32) -> bool
    requires lock { lock < bank.now.shape.locks }
    requires row { length row.now ≡ bank.now.shape.cells }
    requires worker { worker < bank.now.shape.workers }
    requires script { IsScript bank.now.shape.cells last.now.script }
    ensures { IsTrue result ↔ (EntryIsLastJobOf last.now worker (bank_worker_words bank.now worker)
        × (IsSettledLock (bank_lock_words bank.now lock) row.now (last.now.receipt.place + 1)
        ⊎ IsFinishedLock bank.now.shape (bank_lock_words bank.now lock) row.now
        (last.now.receipt.place + 1) last.now)) }
{
    if !is_last_job_of(bank, last, worker) {
        return false;
    }
    let place = u64::from(last.receipt.place) + 1;
    if is_settled_lock(bank, lock, row, place) {
        return true;
    }
    is_finished_lock(bank, lock, row, place, last)
}

/// The lock of an owner.
fn is_owned_lock_valid(bank: &Bank, lock: u32, row: &Row, last: &Option<Entry>, worker: u32) -> bool
    requires lock { lock < bank.now.shape.locks }
    requires row { length row.now ≡ bank.now.shape.cells }
    requires worker { worker < bank.now.shape.workers }
    requires script { LastScriptFits bank.now.shape last.now }
    requires pending { PendingJobIsValid bank.now.shape (bank_worker_words bank.now worker) }
    ensures { IsTrue result
        ↔ LockIsValid bank.now.shape (bank_lock_words bank.now lock) (lock_fold row.now last.now)
        (Option.Some worker) (bank_worker_words bank.now) }
{
    if is_pending(bank, worker) {
        return is_pending_lock_valid(bank, lock, row, next_place(last), worker);
    }
    match last {
        None => false,
        Some(entry) => is_finished_lock_valid(bank, lock, row, entry, worker),
    }
}

/// Whether the words of one lock are valid for its owner, its last entry and the fold of its entries.
fn is_lock_valid(bank: &Bank, lock: u32, row: &Row, last: &Option<Entry>) -> bool
    requires lock { lock < bank.now.shape.locks }
    requires row { length row.now ≡ bank.now.shape.cells }
    requires script { LastScriptFits bank.now.shape last.now }
    requires pending { (worker : ℕ) → worker < bank.now.shape.workers
        → PendingJobIsValid bank.now.shape (bank_worker_words bank.now worker) }
    ensures { IsTrue result
        ↔ LockIsValid bank.now.shape (bank_lock_words bank.now lock) (lock_fold row.now last.now)
        (owner_in bank.now.shape (memory_of bank.now) lock) (bank_worker_words bank.now) }
{
    match owner(bank, lock) {
        None => is_settled_lock(bank, lock, row, next_place(last)),
        Some(worker) => is_owned_lock_valid(bank, lock, row, last, worker),
    }
}

/// Whether the words of all locks are valid.
pub fn are_locks_valid(bank: &Bank, rows: &[Row], last_entries: &[Option<Entry>]) -> bool
    requires { LocksMayBeChecked bank.now.shape (memory_of bank.now) rows.now last_entries.now }
    ensures { IsTrue result ↔ LocksAreValid bank.now.shape (memory_of bank.now) rows.now last_entries.now }
{
    let shape = bank.shape();
    for lock in 0..shape.locks {
        let at = lock as usize;
        if !is_lock_valid(bank, lock, &rows[at], &last_entries[at]) {
            return false;
        }
    }
    true
}

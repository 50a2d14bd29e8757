//! Each lock of a closed service, filled from the words and the entries.

ghost use Rattle.std.specs.Prelude.{◌≡◌, ℕ, ◌<◌, ◌≤◌, [], length, slice_get, vec_capacity, Some};
ghost use Rattle.rme_words.specs.Words.{memory_of};
ghost use Rattle.rme_tree.specs.Nodes.{owner_in};
ghost use Rattle.rme_machine.specs.Histories.{history_of_lock};
ghost use Rattle.rme_machine.specs.Views.{lock_words, worker_words, is_pending};
ghost use Rattle.rme_table.specs.declared.closed.ClosedLock.{ClosedLock};
ghost use Rattle.rme_table.specs.Filling.{LockHasRoom, LocksHaveRoom, IsFilledLock, entries_to_copy, is_lock_settled_by_words};

use crate::closed::ClosedLock;
use rme_program::Entry;
use rme_tree::owner;
use rme_words::{Address, Bank};

/// Fills the room of all locks. A single lock gets all entries.
pub(crate) fn fill_locks(
    mut locks: Vec<ClosedLock>,
    bank: &Bank,
    entries: Vec<Entry>,
) -> Vec<ClosedLock>
    requires room { LocksHaveRoom bank.now.shape (entries_to_copy bank.now.shape entries.items) locks.items }
    requires only { bank.now.shape.locks ≡ 1 → history_of_lock entries.items 0 ≡ entries.items }
    ensures count { length result.items ≡ bank.now.shape.locks }
    ensures filled { (lock : ℕ) (closed : ClosedLock) → slice_get result.items lock ≡ Some closed
        → IsFilledLock bank.now entries.items lock closed }
{
    if bank.shape().locks != 1 {
        return fill_all(locks, bank, &entries);
    }
    fill_only(&mut locks[0], bank, entries);
    locks
}

/// Fills the room of a single lock, which gets all entries as they are.
fn fill_only(room: &mut ClosedLock, bank: &Bank, entries: Vec<Entry>)
    requires lock { 0 < bank.now.shape.locks }
    requires room { LockHasRoom bank.now.shape 0 room.old }
    requires only { history_of_lock entries.items 0 ≡ entries.items }
    ensures { IsFilledLock bank.now entries.items 0 room.new }
{
    put_cells(&mut room.cells, bank, 0);
    room.owner = owner(bank, 0);
    room.settled = is_lock_settled_by_words(bank, 0);
    room.entries = entries;
}

/// Fills the room of all locks, each with copies of its entries.
fn fill_all(mut locks: Vec<ClosedLock>, bank: &Bank, entries: &[Entry]) -> Vec<ClosedLock>
    requires { LocksHaveRoom bank.now.shape entries.now locks.items }
    ensures count { length result.items ≡ bank.now.shape.locks }
    ensures filled { (lock : ℕ) (closed : ClosedLock) → slice_get result.items lock ≡ Some closed
        → IsFilledLock bank.now entries.now lock closed }
{
    for lock in 0..bank.shape().locks {
        fill(&mut locks[lock as usize], bank, entries, lock);
    }
    locks
}

/// Fills the room of one lock.
fn fill(room: &mut ClosedLock, bank: &Bank, entries: &[Entry], lock: u32)
    requires lock { lock < bank.now.shape.locks }
    requires room { LockHasRoom bank.now.shape (length (history_of_lock entries.now lock)) room.old }
    ensures { IsFilledLock bank.now entries.now lock room.new }
{
    put_cells(&mut room.cells, bank, lock);
    room.owner = owner(bank, lock);
    room.settled = is_lock_settled_by_words(bank, lock);
    put_entries(&mut room.entries, entries, lock);
}

/// Appends the cells of a lock to an empty list.
pub(crate) fn put_cells(cells: &mut Vec<u64>, bank: &Bank, lock: u32)
    requires lock { lock < bank.now.shape.locks }
    requires none { cells.old.items ≡ [] }
    requires room { bank.now.shape.cells ≤ vec_capacity cells.old }
    ensures { cells.new.items ≡ (lock_words bank.now.shape (memory_of bank.now) lock).cells }
{
    for cell in 0..bank.shape().cells {
        cells.push_reserved(bank.load(Address::Cell(lock, cell)));
    }
}

/// Whether a lock has no owner, or its owner's section is finished.
pub(crate) fn is_lock_settled_by_words(bank: &Bank, lock: u32) -> bool
    requires { lock < bank.now.shape.locks }
    ensures { result ≡ is_lock_settled_by_words (memory_of bank.now)
        (owner_in bank.now.shape (memory_of bank.now) lock) }
{
    match owner(bank, lock) {
        None => true,
        Some(worker) => !pending(bank, worker),
    }
}

/// Whether a worker's last job is begun and not done.
fn pending(bank: &Bank, worker: u32) -> bool
    requires { worker < bank.now.shape.workers }
    ensures { result ≡ is_pending (worker_words (memory_of bank.now) worker) }
{
    bank.load(Address::Done(worker)) < bank.load(Address::Begun(worker))
}

/// Appends the entries of a lock to an empty list, in order.
fn put_entries(own: &mut Vec<Entry>, entries: &[Entry], lock: u32)
    requires none { own.old.items ≡ [] }
    requires room { length (history_of_lock entries.now lock) ≤ vec_capacity own.old }
    ensures { own.new.items ≡ history_of_lock entries.now lock }
{
    for entry in entries {
        if entry.receipt.lock == lock {
            own.push_reserved(*entry);
        }
    }
}

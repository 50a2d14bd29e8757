//! The memory of a close, which is taken before anything is closed.

ghost use Rattle.std.specs.Prelude.{◌≡◌, ℕ, ◌≤◌, [], length, vec_capacity, IfOk, IfSome};
ghost use Rattle.rme_machine.specs.Histories.{history_of_lock};
ghost use Rattle.rme_service_steps.specs.Closing.{entries_given};
ghost use Rattle.rme_service_steps.specs.Rule.{total_of};
ghost use Rattle.rme_service_steps.specs.SeatViews.{SeatView};
ghost use Rattle.rme_table.specs.Filling.{LockHasRoom, LocksHaveRoom, IsCloseRoom, entries_to_copy};

use crate::closed::ClosedLock;
use crate::down::Down;
use rme_history::EntryList;
use rme_program::Entry;
use rme_service_steps::WorkerSeat;
use rme_words::{NoMemory, Shape};
use std::alloc::Global;

/// Empty lists, each with the room that it will need.
#[derive(Drop)]
pub(crate) struct CloseRoom {
    pub(crate) words: Vec<u64>,
    pub(crate) history: Vec<Entry>,
    pub(crate) seats: Vec<WorkerSeat>,
    pub(crate) locks: Vec<ClosedLock>,
}

/// All the room that a close of these workers needs.
pub(crate) fn room_for(alloc: Global, shape: Shape, downs: &[Down]) -> Result<CloseRoom, NoMemory>
    ensures { IfOk result (λ room. IsCloseRoom shape downs.now room) }
{
    let Some(count) = count_all(downs) else {
        return Err(NoMemory);
    };
    let words = room_for_words(alloc, shape.words())?;
    let history = room_for_entries(alloc, count)?;
    let seats = room_for_seats(alloc, downs.len())?;
    let locks = room_for_copies(alloc, shape, downs)?;
    Ok(CloseRoom {
        words,
        history,
        seats,
        locks,
    })
}

/// The number of the workers' entries, if it fits a machine number.
fn count_all(downs: &[Down]) -> Option<usize>
    ensures { IfSome result (λ count. count ≡ total_of (λ (down : SeatView). length down.part.entries) downs.now) }
{
    let mut count: usize = 0;
    for down in downs {
        count = count.checked_add(down.entries().len())?;
    }
    Some(count)
}

/// The number of them that are of a lock.
fn count_at(downs: &[Down], lock: u32) -> Option<usize>
    ensures { IfSome result (λ count. count ≡ total_of
        (λ (down : SeatView). length (history_of_lock down.part.entries lock)) downs.now) }
{
    let mut count: usize = 0;
    for down in downs {
        count = count.checked_add(count_in(down.entries(), lock))?;
    }
    Some(count)
}

/// The number of entries of a lock.
fn count_in(entries: &EntryList, lock: u32) -> usize
    ensures { result ≡ length (history_of_lock entries.now.entries lock) }
{
    let mut count = 0;
    for at in 0..entries.len() {
        let Some(receipt) = entries.receipt(at) else {
            unreachable!();
        };
        if receipt.lock == lock {
            count += 1;
        }
    }
    count
}

/// Room for each lock, in order. A single lock needs none for entries, since it gets all of them as they are.
fn room_for_copies(alloc: Global, shape: Shape, downs: &[Down]) -> Result<Vec<ClosedLock>, NoMemory>
    ensures { IfOk result (λ locks. LocksHaveRoom shape (entries_to_copy shape (entries_given downs.now)) locks.items) }
{
    if shape.locks == 1 {
        return room_for_locks(alloc, shape, &[]);
    }
    room_for_locks(alloc, shape, downs)
}

/// Room for each lock, in order, with that for copies of its entries.
fn room_for_locks(alloc: Global, shape: Shape, downs: &[Down]) -> Result<Vec<ClosedLock>, NoMemory>
    ensures { IfOk result (λ locks. LocksHaveRoom shape (entries_given downs.now) locks.items) }
{
    let Ok(mut locks) = Vec::with_capacity(alloc, shape.locks as usize) else {
        return Err(NoMemory);
    };
    for lock in 0..shape.locks {
        let Some(count) = count_at(downs, lock) else {
            return Err(NoMemory);
        };
        locks.push_reserved(room_for_lock(alloc, shape, count)?);
    }
    Ok(locks)
}

/// Room for the cells of a lock, and for `count` entries.
fn room_for_lock(alloc: Global, shape: Shape, count: usize) -> Result<ClosedLock, NoMemory>
    ensures { IfOk result (λ room. LockHasRoom shape count room) }
{
    let cells = room_for_words(alloc, shape.cells as usize)?;
    let entries = room_for_entries(alloc, count)?;
    Ok(ClosedLock {
        cells,
        owner: None,
        settled: false,
        entries,
    })
}

/// Room for `count` words.
pub(crate) fn room_for_words(alloc: Global, count: usize) -> Result<Vec<u64>, NoMemory>
    ensures { IfOk result (λ words. (words.items ≡ []) × (count ≤ vec_capacity words)) }
{
    match Vec::with_capacity(alloc, count) {
        Ok(words) => Ok(words),
        Err(_) => Err(NoMemory),
    }
}

/// Room for `count` entries.
fn room_for_entries(alloc: Global, count: usize) -> Result<Vec<Entry>, NoMemory>
    ensures { IfOk result (λ entries. (entries.items ≡ []) × (count ≤ vec_capacity entries)) }
{
    match Vec::with_capacity(alloc, count) {
        Ok(entries) => Ok(entries),
        Err(_) => Err(NoMemory),
    }
}

/// Room for `count` seats.
pub(crate) fn room_for_seats(alloc: Global, count: usize) -> Result<Vec<WorkerSeat>, NoMemory>
    ensures { IfOk result (λ seats. (seats.items ≡ []) × (count ≤ vec_capacity seats)) }
{
    match Vec::with_capacity(alloc, count) {
        Ok(seats) => Ok(seats),
        Err(_) => Err(NoMemory),
    }
}

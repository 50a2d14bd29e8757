//! The last entry of each worker and of each lock.

ghost use Rattle.std.specs.Prelude.{◌≡◌, ◌^◌, ◌≤◌, ℕ, ◌+◌, ◌<◌, [], IfOk, MatchOption, length, take, map, None};
ghost use Rattle.std.specs.Bool.{MatchBool};
ghost use Rattle.std.specs.List.{range_with_len};
ghost use Rattle.rme_program.specs.declared.note.Entry.{Entry};
ghost use Rattle.rme_core_image_check.specs.LastEntryLists.{last_number, next_place, EntryMayFollowAt, EntryNumbersRise, AreLastEntries};

use rme_history::EntryList;
use rme_program::Entry;
use rme_words::{NoMemory, Shape};
use std::alloc::Global;

/// The last entry of each worker and of each lock, after some entries.
#[derive(Drop)]
pub struct LastEntries {
    pub by_worker: Vec<Option<Entry>>,
    pub at_lock: Vec<Option<Entry>>,
}

/// A list without entries, of this length.
fn no_entries(alloc: Global, count: u32) -> Result<Vec<Option<Entry>>, NoMemory>
    ensures { IfOk result (λ entries. entries.items ≡ map (λ (i : ℕ). None) (range_with_len 0 count)) }
{
    match (0..count).map(|_| None).collect(alloc) {
        Ok(entries) => Ok(entries),
        Err(_) => Err(NoMemory),
    }
}

/// The number of a worker's last entry; 0 if it has none.
pub fn last_number(last: &Option<Entry>) -> u32
    ensures { result ≡ last_number last.now }
{
    match last {
        None => 0,
        Some(entry) => entry.receipt.number,
    }
}

/// The place of a lock's next section, from its last entry.
pub fn next_place(last: &Option<Entry>) -> u64
    ensures place { result ≡ next_place last.now }
    ensures small { result ≤ 2 ^ 32 }
{
    match last {
        None => 0,
        Some(entry) => u64::from(entry.receipt.place) + 1,
    }
}

impl LastEntries {
    /// The last entries before any entry.
    fn none(alloc: Global, shape: Shape) -> Result<LastEntries, NoMemory>
        ensures { IfOk result (λ lasts. AreLastEntries shape [] lasts.by_worker.items lasts.at_lock.items) }
    {
        let by_worker = no_entries(alloc, shape.workers)?;
        let at_lock = no_entries(alloc, shape.locks)?;
        Ok(LastEntries { by_worker, at_lock })
    }

    /// Adds the entry at `i`, if its worker and its lock are of the shape and its number is above those of its worker's
    /// earlier entries.
    fn follow(&mut self, shape: Shape, entries: &EntryList, i: usize) -> bool
        requires within { i < length entries.now.entries }
        requires lasts { AreLastEntries shape (take i entries.now.entries) self.old.by_worker.items
            self.old.at_lock.items }
        ensures follows { MatchBool result (EntryMayFollowAt shape entries.now.entries i)
            (¬ EntryMayFollowAt shape entries.now.entries i) }
        ensures lasts { MatchBool result (AreLastEntries shape (take (i + 1) entries.now.entries)
            self.new.by_worker.items self.new.at_lock.items) (Unit {0}) }
    {
        let found = entries.get(i);
        let Some(entry) = &found else {
            unreachable!();
        };
        let receipt = entry.receipt;
        if receipt.worker >= shape.workers {
            return false;
        }
        if receipt.lock >= shape.locks {
            return false;
        }
        let worker = receipt.worker as usize;
        if receipt.number <= last_number(&self.by_worker[worker]) {
            return false;
        }
        self.by_worker[worker] = Some(*entry);
        self.at_lock[receipt.lock as usize] = Some(*entry);
        true
    }

    /// Adds all entries in order.
    fn follow_all(&mut self, shape: Shape, entries: &EntryList) -> bool
        requires { AreLastEntries shape [] self.old.by_worker.items self.old.at_lock.items }
        ensures rise { MatchBool result (EntryNumbersRise shape entries.now.entries)
            (¬ EntryNumbersRise shape entries.now.entries) }
        ensures lasts { MatchBool result (AreLastEntries shape entries.now.entries self.new.by_worker.items
            self.new.at_lock.items) (Unit {0}) }
    {
        for i in 0..entries.len() {
            if !self.follow(shape, entries, i) {
                return false;
            }
        }
        true
    }

    /// The last entries of a list; `None` if an entry's worker or lock is not of the shape, or its number is not above
    /// those of its worker's earlier entries. Takes memory for an entry of each worker and lock; `NoMemory` if that was
    /// refused.
    pub fn of(
        alloc: Global,
        shape: Shape,
        entries: &EntryList,
    ) -> Result<Option<LastEntries>, NoMemory>
        ensures { IfOk result (λ found. MatchOption found (¬ EntryNumbersRise shape entries.now.entries)
            (λ lasts. EntryNumbersRise shape entries.now.entries
            × AreLastEntries shape entries.now.entries lasts.by_worker.items lasts.at_lock.items)) }
    {
        let mut lasts = LastEntries::none(alloc, shape)?;
        if !lasts.follow_all(shape, entries) {
            return Ok(None);
        }
        Ok(Some(lasts))
    }
}

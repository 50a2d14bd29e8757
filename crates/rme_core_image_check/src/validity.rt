//! Whether words and a history are those of a world with all workers down.

ghost use Rattle.std.specs.Prelude.{◌≡◌, ◌↔◌, IsTrue, IfOk};
ghost use Rattle.rme_words.specs.Words.{memory_of};
ghost use Rattle.rme_machine.specs.Clauses.{IsValidMemory};

use crate::last_entry_lists::LastEntries;
use crate::locks::are_locks_valid;
use crate::trees::has_nodes;
use crate::workers::are_workers_valid;
use rme_history::{EntryList, ReplayFault, replay};
use rme_words::{Bank, NoMemory};
use std::alloc::Global;

/// Whether these words and these entries are those of a world with all workers down: each clause of an image holds,
/// from the one on nodes to the one on entries.
///
/// One pass over the entries and one over the words. Takes memory for the rows and the last entries; `NoMemory` if that
/// was refused.
pub fn is_valid_memory(alloc: Global, bank: &Bank, entries: &EntryList) -> Result<bool, NoMemory>
    ensures { IfOk result (λ good. IsTrue good ↔ IsValidMemory bank.now.shape (memory_of bank.now)
        entries.now.entries) }
{
    let shape = bank.shape();
    let rows = match replay(alloc, shape, entries) {
        Ok(rows) => rows,
        Err(ReplayFault::Broken(_)) => return Ok(false),
        Err(ReplayFault::NoMemory) => return Err(NoMemory),
    };
    let Some(lasts) = LastEntries::of(alloc, shape, entries)? else {
        return Ok(false);
    };
    if !has_nodes(bank) {
        return Ok(false);
    }
    if !are_workers_valid(bank, &lasts.by_worker) {
        return Ok(false);
    }
    Ok(are_locks_valid(bank, &rows, &lasts.at_lock))
}

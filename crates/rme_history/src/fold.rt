//! The state of a replay.

ghost use Rattle.std.specs.Prelude.{◌≡◌, ℕ, ◌<◌, ◌+◌, ◌↔◌, IsTrue, List, [], IfOk, IfErr, length, take, slice_index_or};
ghost use Rattle.std.specs.Bool.{MatchBool};
ghost use Rattle.rme_program.specs.declared.note.Entry.{Entry};
ghost use Rattle.rme_script.specs.Jobs.{IsJob};
ghost use Rattle.rme_machine.specs.Histories.{entry_job};
ghost use Rattle.rme_history.specs.Folds.{IsReplayFold, EntryFollowsAt};

use crate::entry_list::EntryList;
use crate::fault::ReplayFault;
use rme_program::Entry;
use rme_script::{Row, eval};
use rme_words::Shape;
use std::alloc::Global;

/// The cells of each lock after some entries, and the number of entries of that lock.
#[derive(Drop)]
pub struct Fold {
    pub rows: Vec<Row>,
    pub counts: Vec<usize>,
}

impl Fold {
    /// The state before any entry.
    pub fn new(alloc: Global, shape: Shape) -> Result<Fold, ReplayFault>
        ensures start { IfOk result (λ fold. IsReplayFold shape [] fold.rows.items fold.counts.items) }
        ensures refused { IfErr result (λ fault. fault ≡ ReplayFault.NoMemory) }
    {
        let locks = shape.locks as usize;
        let Ok(rows) = vec![in alloc; Row::zeros(shape); locks] else {
            return Err(ReplayFault::NoMemory);
        };
        let Ok(counts) = vec![in alloc; 0usize; locks] else {
            return Err(ReplayFault::NoMemory);
        };
        Ok(Fold { rows, counts })
    }

    /// Applies the entry at `i`, if it follows from those before it.
    pub fn follow(&mut self, shape: Shape, entries: &EntryList, i: usize) -> bool
        requires within { i < length entries.now.entries }
        requires fold { IsReplayFold shape (take i entries.now.entries) self.old.rows.items self.old.counts.items }
        ensures follows { MatchBool result (EntryFollowsAt shape entries.now.entries i)
            (¬ EntryFollowsAt shape entries.now.entries i) }
        ensures fold { MatchBool result (IsReplayFold shape (take (i + 1) entries.now.entries) self.new.rows.items
            self.new.counts.items) (Unit {0}) }
    {
        let Some(entry) = entries.get(i) else {
            unreachable!();
        };
        if !is_of_shape(&entry, shape) {
            return false;
        }
        let lock = entry.receipt.lock as usize;
        let count = self.counts[lock];
        if entry.receipt.place as usize != count {
            return false;
        }
        let mut row = self.rows[lock];
        if eval(&entry.script, &mut row) != entry.receipt.reply {
            return false;
        }
        self.rows[lock] = row;
        self.counts[lock] = count + 1;
        true
    }
}

/// Whether the entry's lock and script are of the shape.
fn is_of_shape(entry: &Entry, shape: Shape) -> bool
    ensures { IsTrue result ↔ IsJob shape (entry_job entry.now) }
{
    entry.receipt.lock < shape.locks && entry.script.check(shape).is_ok()
}

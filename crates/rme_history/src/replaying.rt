//! Whether entries are a legal history, and the cells that they leave.

ghost use Rattle.std.specs.Prelude.{◌≡◌, [], OnOk, IfOk, IfErr, IsOk};
ghost use Rattle.rme_history.specs.Folds.{IsReplayFold};
ghost use Rattle.rme_history.specs.Legal.{LockHistoriesAreLegal, ReplayFaultMeans, IsFirstBrokenEntry, rows_of_locks};

use crate::entry_list::EntryList;
use crate::fault::ReplayFault;
use crate::fold::Fold;
use rme_script::Row;
use rme_words::Shape;
use std::alloc::Global;

/// Replays entries in order, and answers the row of each lock: the result of their scripts.
///
/// `Broken` has the index of the first entry whose lock or script is not of the shape, whose place is not the number of
/// earlier entries of its lock, or whose reply is not that of its script on the row that they left. The workers and the
/// numbers of the entries are not checked. Takes memory for the rows and a count of each lock; `NoMemory` if that was
/// refused.
pub fn replay(alloc: Global, shape: Shape, entries: &EntryList) -> Result<Vec<Row>, ReplayFault>
    ensures legal { OnOk result (LockHistoriesAreLegal shape entries.now.entries) }
    ensures rows { IfOk result (λ rows. rows.items ≡ rows_of_locks shape entries.now.entries) }
    ensures broken { IfErr result (λ fault. ReplayFaultMeans shape entries.now.entries fault) }
    ensures accepted { LockHistoriesAreLegal shape entries.now.entries
        → IfErr result (λ fault. fault ≡ ReplayFault.NoMemory) }
{
    let mut fold = match Fold::new(alloc, shape) {
        Ok(fold) => fold,
        Err(fault) => return Err(fault),
    };
    match follow_all(&mut fold, shape, entries) {
        Ok(()) => Ok(fold.rows),
        Err(i) => Err(ReplayFault::Broken(i)),
    }
}

/// Applies all entries in order, from the initial state; the error is the index of the first that does not follow.
/// Takes no memory, and so cannot fail for lack of it.
fn follow_all(fold: &mut Fold, shape: Shape, entries: &EntryList) -> Result<(), usize>
    requires { IsReplayFold shape [] fold.old.rows.items fold.old.counts.items }
    ensures legal { OnOk result (LockHistoriesAreLegal shape entries.now.entries) }
    ensures rows { OnOk result (fold.new.rows.items ≡ rows_of_locks shape entries.now.entries) }
    ensures broken { IfErr result (λ i. IsFirstBrokenEntry shape entries.now.entries i) }
    ensures accepted { LockHistoriesAreLegal shape entries.now.entries → IsOk result }
{
    for i in 0..entries.len() {
        if !fold.follow(shape, entries, i) {
            return Err(i);
        }
    }
    Ok(())
}

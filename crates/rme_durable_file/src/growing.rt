//! Growing: a state is given further workers, cells or locks before it is served.

ghost use Rattle.std.specs.Prelude.{◌≡◌, ℕ, [], List, IfOk, IsTrue, OnOk, true};
ghost use Rattle.rme_durable_file.specs.DiskFiles.{AppendsToFile};
ghost use Rattle.rme_durable_file.specs.Growths.{GrowsState, KeepsNames, LeavesLocks};
ghost use Rattle.rme_durable_file.specs.Growths.{ReplacesByLargerEpoch, file_epoch};

use crate::faults::{not_grown_fault, write_fault};
use crate::start::OpenedState;
use crate::state_file::StateFile;
use crate::state_storage::StateStorage;
use rme_cli_messages::CliFault;
use rme_durable_checkpoint::Checkpoint;
use rme_durable_epochs::EpochExecutor;
use rme_durable_log::LogStore;
use rme_wire::Names;
use rme_words::Shape;

/// The number of the session by which workers leave their locks before a state grows: no other session has begun.
const OWN_SESSION: u64 = 0;

impl<'a, F: StateStorage> OpenedState<'a, F> {
    ghost use Rattle.std.specs.Prelude.{◌≡◌, [], IfOk, true};
    ghost use Rattle.rme_durable_file.specs.Growths.{GrowsState, file_epoch};

    /// The same state with these names of the locks, of which those that it has are the first, and with this larger
    /// shape: a new epoch of it replaces the file. Workers and locks keep their numbers, jobs and owners, and cells
    /// their values; what is new is down, free, or 0.
    ///
    /// After an error the file is a state of the old shape. It may have more lines than before: those by which a worker
    /// that crashed after its section leaves its lock.
    pub fn grow(
        mut self,
        rt: &HostRuntime,
        names: Names,
        shape: Shape,
    ) -> Result<OpenedState<'a, F>, CliFault>
        requires works { self.file.works ≡ true }
        ensures works { IfOk result (λ state. state.file.works ≡ true) }
        ensures syncs { IfOk result (λ state. state.file.syncs ≡ self.entry.file.syncs) }
        ensures barriers { IfOk result (λ state. state.file.barriers ≡ 0) }
        ensures lines { IfOk result (λ state. state.executor.lines ≡ []) }
        ensures names { IfOk result (λ state. state.names ≡ names) }
        ensures grows { IfOk result (λ state. GrowsState shape
            (file_epoch self.entry.names self.entry.executor self.entry.file.bytes)
            (file_epoch state.names state.executor state.file.bytes)) }
    {
        let larger = write_larger(rt, &mut self, &names, shape)?;
        Ok(self.with_epoch(names, larger))
    }

    /// The same file with these names and this executor.
    fn with_epoch(self, names: Names, executor: EpochExecutor) -> OpenedState<'a, F>
        ensures names { result.names ≡ names }
        ensures executor { result.executor ≡ executor }
        ensures file { result.file ≡ self.entry.file }
    {
        OpenedState {
            names,
            executor,
            file: self.file,
        }
    }
}

/// Writes a new epoch of this larger shape into the file of a state, and answers the executor of that.
fn write_larger<F: StateStorage>(
    rt: &HostRuntime,
    state: &mut OpenedState<'_, F>,
    names: &Names,
    shape: Shape,
) -> Result<EpochExecutor, CliFault>
    requires works { state.old.file.works ≡ true }
    ensures works { OnOk result (state.new.file.works ≡ true) }
    ensures syncs { state.new.file.syncs ≡ state.old.file.syncs }
    ensures barriers { OnOk result (state.new.file.barriers ≡ 0) }
    ensures lines { IfOk result (λ larger. larger.lines ≡ []) }
    ensures grows { IfOk result (λ larger. GrowsState shape
        (file_epoch state.old.names state.old.executor state.old.file.bytes)
        (file_epoch names.now larger state.new.file.bytes)) }
{
    if !keeps_names(&state.names, names) {
        return Err(not_grown_fault(rt, state.file.path())?);
    }
    log_exits(rt, &state.names, &mut state.executor, &mut state.file)?;
    replace_by_larger(rt, &state.executor, names, shape, &mut state.file)
}

/// Lets each worker leave its lock that crashed after its section, and appends the lines of that.
fn log_exits<F: StateStorage>(
    rt: &HostRuntime,
    names: &Names,
    executor: &mut EpochExecutor,
    file: &mut StateFile<'_, F>,
) -> Result<(), CliFault>
    ensures exits { OnOk result (LeavesLocks names.now executor.old executor.new) }
    ensures appends { OnOk result ((lines : List ℕ) × AppendsToFile file.old.bytes lines file.new.bytes) }
    ensures works { file.new.works ≡ file.old.works }
    ensures barriers { OnOk result (file.new.barriers ≡ 0) }
    ensures syncs { file.new.syncs ≡ file.old.syncs }
{
    if executor.finish_exits(names, OWN_SESSION).is_err() {
        return Err(not_grown_fault(rt, file.path())?);
    }
    let Some(lines) = executor.take_lines(String::new(rt.alloc())) else {
        return Err(not_grown_fault(rt, file.path())?);
    };
    match file.write(lines.as_bytes()) {
        Ok(()) => Ok(()),
        Err(error) => Err(write_fault(rt, file.path(), error)?),
    }
}

/// Replaces a file by a new epoch of a larger shape, and answers the executor of that.
fn replace_by_larger<F: StateStorage>(
    rt: &HostRuntime,
    executor: &EpochExecutor,
    names: &Names,
    shape: Shape,
    file: &mut StateFile<'_, F>,
) -> Result<EpochExecutor, CliFault>
    requires works { file.old.works ≡ true }
    ensures replaces { IfOk result (λ larger. ReplacesByLargerEpoch shape names.now executor.now larger file.old.bytes
        file.new.bytes) }
    ensures lines { IfOk result (λ larger. larger.lines ≡ []) }
    ensures works { OnOk result (file.new.works ≡ true) }
    ensures barriers { file.new.barriers ≡ file.old.barriers }
    ensures syncs { file.new.syncs ≡ file.old.syncs }
{
    let Ok(grown) = Checkpoint::grown(executor, rt.alloc(), names, shape) else {
        return Err(not_grown_fault(rt, file.path())?);
    };
    match file.replace(grown.bytes.as_bytes()) {
        Ok(()) if !file.is_in_doubt() => Ok(grown.executor),
        _ => Err(CliFault::WriteFailed),
    }
}

/// Whether the first names of a list are these.
fn keeps_names(before: &Names, after: &Names) -> bool
    ensures { IsTrue result → KeepsNames before.now after.now }
{
    if after.len() < before.len() {
        return false;
    }
    for lock in 0..before.len() {
        if after.name(lock) != before.name(lock) {
            return false;
        }
    }
    true
}

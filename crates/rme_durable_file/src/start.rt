//! The start of a server: its file is recovered; then each worker that was up is crashed, in the file and in the world.

ghost use Rattle.std.specs.Prelude.{◌≡◌, [], IfOk, OnOk, string_bytes};
ghost use Rattle.rme_durable_format.specs.BatchCommands.{crash_commands_from};
ghost use Rattle.rme_durable_format.specs.CommandLines.{AppendsCommands};
ghost use Rattle.rme_durable_file.specs.DiskFiles.{CutsAndAppends};
ghost use Rattle.rme_durable_file.specs.Starts.{BeginsFrom};

use crate::faults::{unread_fault, write_fault};
use crate::reading::{ReadState, bad_log_fault, recover_reporting};
use crate::state_file::StateFile;
use crate::state_storage::StateStorage;
use rme_cli_messages::CliFault;
use rme_durable_epochs::{EpochExecutor, EpochStart, RecoveredState};
use rme_durable_format::{RecoveredLog, append_crashes};
use rme_session_world::Executor;
use rme_wire::Names;
use std::alloc::Global;
use std::marker::Model;

/// A file that was recovered, and can be served; nothing was changed yet. In contracts it is the store of its file.
#[derive(Drop)]
pub struct RecoveredFile<'a, F: StateStorage> {
    file: StateFile<'a, F>,
    recovered: RecoveredState,
    /// The number of bytes of its whole lines. What follows is a torn line.
    whole: usize,
}

impl<'a, F: StateStorage> Model for RecoveredFile<'a, F> {
    ghost use Rattle.std.specs.Prelude.{◌≡◌, true};
    ghost use Rattle.rme_durable_file.specs.FileStores.{FileStore};
    ghost use Rattle.rme_durable_file.specs.Starts.{ReadsKnownState};

    ghost Value = { FileStore };

    ghost view = { λ found. found.file };

    ghost invariant = { λ found. (found.file.works ≡ true)
        × ReadsKnownState found.file.bytes found.whole found.recovered };
}

/// A state whose events are all in its file, and whose workers are all down.
#[derive(Drop)]
pub struct OpenedState<'a, F: StateStorage> {
    pub names: Names,
    pub executor: EpochExecutor,
    pub file: StateFile<'a, F>,
}

impl<'a, F: StateStorage> RecoveredFile<'a, F> {
    ghost use Rattle.std.specs.Prelude.{◌≡◌, [], IfOk, true};
    ghost use Rattle.rme_durable_file.specs.Starts.{BeginsKnownServer, ReadsKnownLog};

    /// Recovers the state of an open file, which may end with a torn line, and reports the number of lines and the time
    /// on the standard error. The file is not changed.
    pub fn read(rt: &HostRuntime, file: StateFile<'a, F>) -> Result<RecoveredFile<'a, F>, CliFault>
        requires works { file.works ≡ true }
        ensures { IfOk result (λ found. found ≡ file.entry) }
    {
        let mut file = file;
        let bytes = match file.read_all(rt.alloc()) {
            Ok(bytes) => bytes,
            Err(why) => return Err(unread_fault(rt, file.path(), why)?),
        };
        let ReadState { recovered, whole } = match recover_reporting(rt, bytes.as_slice()) {
            Ok(found) => found,
            Err(why) => {
                let why = file.reason_in_file(rt.alloc(), why);
                return Err(bad_log_fault(rt, file.path(), bytes.as_slice(), why)?);
            }
        };
        Ok(RecoveredFile {
            file,
            recovered,
            whole,
        })
    }

    /// The recovered log.
    pub fn log(&self) -> &RecoveredLog
        ensures { ReadsKnownLog self.now.bytes result.now }
    {
        &self.recovered.log
    }

    /// Cuts off the torn line, and appends a crash of each worker that was up. After an error the file may end with a
    /// part of these lines, and the next start reads it as it reads any other.
    pub fn open(self, rt: &HostRuntime) -> Result<OpenedState<'a, F>, CliFault>
        ensures works { IfOk result (λ state. state.file.works ≡ true) }
        ensures syncs { IfOk result (λ state. state.file.syncs ≡ self.entry.syncs) }
        ensures barriers { IfOk result (λ state. state.file.barriers ≡ 0) }
        ensures lines { IfOk result (λ state. state.executor.lines ≡ []) }
        ensures begins { IfOk result (λ state. BeginsKnownServer self.entry.bytes state.names state.executor
            state.file.bytes) }
    {
        let RecoveredFile {
            file,
            recovered,
            whole,
        } = self;
        let mut file = file;
        let crashes = log_crashes(rt, &recovered.log, whole, &mut file)?;
        let bytes = whole.saturating_add(crashes.len()) as u64;
        let begun = begin_epoch(rt.alloc(), recovered, bytes)?;
        Ok(OpenedState {
            names: begun.names,
            executor: begun.executor,
            file,
        })
    }
}

/// A recovered state whose workers are all down.
#[derive(Drop)]
struct BegunEpoch {
    names: Names,
    executor: EpochExecutor,
}

/// Crashes each worker of a recovered state whose file has this number of bytes.
fn begin_epoch(alloc: Global, recovered: RecoveredState, bytes: u64) -> Result<BegunEpoch, CliFault>
    ensures names { IfOk result (λ begun. begun.names ≡ recovered.log.names) }
    ensures lines { IfOk result (λ begun. begun.executor.lines ≡ []) }
    ensures taken { IfOk result (λ begun. begun.executor.taken ≡ bytes) }
    ensures begins { IfOk result (λ begun. BeginsFrom recovered begun.executor) }
{
    let RecoveredState { log, base } = recovered;
    let RecoveredLog {
        header,
        names,
        world,
        lives,
        ..
    } = log;
    let executor = Executor::new(alloc, world)?;
    let start = EpochStart {
        executor,
        base,
        lives,
        epoch: header.epoch,
        bytes,
    };
    Ok(BegunEpoch {
        names,
        executor: EpochExecutor::new(alloc, start),
    })
}

/// Cuts off the torn line of a file, appends a crash of each worker that was up, and answers these lines.
fn log_crashes<F: StateStorage>(
    rt: &HostRuntime,
    log: &RecoveredLog,
    whole: usize,
    file: &mut StateFile<'_, F>,
) -> Result<String, CliFault>
    ensures lines { IfOk result (λ lines. AppendsCommands log.now.names []
        (crash_commands_from 0 log.now.world.privates) (string_bytes lines)) }
    ensures kept { IfOk result (λ lines. CutsAndAppends file.old.bytes whole (string_bytes lines) file.new.bytes) }
    ensures works { file.new.works ≡ file.old.works }
    ensures syncs { file.new.syncs ≡ file.old.syncs }
    ensures barriers { OnOk result (file.new.barriers ≡ 0) }
{
    let crashes = crash_lines(rt.alloc(), log)?;
    if let Err(error) = file.begin(whole) {
        return Err(write_fault(rt, file.path(), error)?);
    }
    match file.write(crashes.as_bytes()) {
        Ok(()) => Ok(crashes),
        Err(error) => Err(write_fault(rt, file.path(), error)?),
    }
}

/// The lines that crash each worker that was up.
fn crash_lines(alloc: Global, log: &RecoveredLog) -> Result<String, CliFault>
    ensures { IfOk result (λ lines. AppendsCommands log.now.names []
        (crash_commands_from 0 log.now.world.privates) (string_bytes lines)) }
{
    let mut crashes = String::new(alloc);
    if append_crashes(&mut crashes, alloc, &log.names, &log.world).is_err() {
        return Err(CliFault::NoMemory);
    }
    Ok(crashes)
}

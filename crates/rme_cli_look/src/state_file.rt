//! The contents of a state's file, whether or not a server uses it.

ghost use Rattle.std.specs.Prelude.{◌≡◌, ◌<◌, ◌++◌, ◌∷◌, [], None, OnOk, string_bytes};
ghost use Rattle.rme_durable_lookups.specs.StatusTexts.{source_state, status_state, status_text};

use crate::rows::{
    Finisher, HeldLevels, Presence, WorkerRow, WorkerToShow, push_lock_table, push_workers,
};
use crate::table::text_of;
use rme_cli_messages::CliFault;
use rme_cli_options::OutputFormat;
use rme_durable_epochs::{RecoveredState, Sections, recover};
use rme_durable_file::{
    ContentsError, FileContents, bad_log_fault, contents_fault, line_in_file, write_end,
};
use rme_durable_format::{BadLog, NoProgress, whole_lines};
use rme_durable_lookups::{
    LockStatus, StatusNotes, StatusSource, WorkerStatus, clients_of, lock_status, push_status,
    worker_status,
};
use rme_tree::held;
use rme_waiting::world_words;
use rme_words::{Bank, NoMemory};
use std::alloc::{AllocError, Global};

/// The bytes of a state.
#[derive(Clone, Copy)]
pub(crate) struct StateBytes<'a> {
    /// What faults call it.
    pub(crate) path: &'a str,
    pub(crate) bytes: &'a [u8],
    /// Whether they may end with what was never known to be with the disk.
    pub(crate) may_be_torn: bool,
}

/// A state that was read.
#[derive(Drop)]
struct StateOfBytes {
    recovered: RecoveredState,
    /// The number of bytes whose lines are the log's; in version 1 they may end with a torn line.
    length: usize,
    /// The number of bytes behind them, apart from room for further writes.
    torn: usize,
    /// The number of bytes of whole lines among them.
    whole: usize,
}

/// Why a start accepts no state.
#[derive(Drop)]
enum NoStateFault {
    /// This line is refused.
    Line(u64, CliFault),
    Other(CliFault),
}

impl NoStateFault {
    fn into_fault(self) -> CliFault {
        match self {
            NoStateFault::Line(_, fault) => fault,
            NoStateFault::Other(fault) => fault,
        }
    }
}

impl From<CliFault> for NoStateFault {
    fn from(fault: CliFault) -> NoStateFault {
        NoStateFault::Other(fault)
    }
}

/// The state of these bytes.
fn state_of(rt: &HostRuntime, source: StateBytes<'_>) -> Result<StateOfBytes, NoStateFault> {
    let StateBytes { path, bytes, .. } = source;
    let contents = contents_of(rt, source)?;
    let lines = contents.lines.as_slice();
    let whole = whole_lines(lines);
    let torn = lines.len().saturating_sub(whole.len());
    match recover(rt.alloc(), whole, &NoProgress) {
        Ok(recovered) => Ok(StateOfBytes {
            recovered,
            length: contents.length,
            torn: contents.torn,
            whole: contents.length.saturating_sub(torn),
        }),
        Err(BadLog::Line(line)) => {
            let line = line_in_file(rt.alloc(), bytes, line);
            let fault = bad_log_fault(rt, path, lines, BadLog::Line(line))?;
            Err(NoStateFault::Line(line, fault))
        }
        Err(BadLog::NoMemory) => Err(NoStateFault::Other(CliFault::NoMemory)),
    }
}

/// The lines of these bytes.
fn contents_of(rt: &HostRuntime, source: StateBytes<'_>) -> Result<FileContents, NoStateFault> {
    let StateBytes {
        path,
        bytes,
        may_be_torn,
    } = source;
    let line = match FileContents::of(rt.alloc(), bytes) {
        Ok(contents) if may_be_torn || contents.length == bytes.len() => return Ok(contents),
        Ok(contents) => write_end(bytes, contents.length),
        Err(ContentsError::Changed(line)) => line,
        Err(ContentsError::NoMemory) => return Err(NoStateFault::Other(CliFault::NoMemory)),
    };
    let fault = contents_fault(rt, path, ContentsError::Changed(line))?;
    Err(NoStateFault::Line(line, fault))
}

/// The bytes of a state that a start keeps.
pub(crate) fn kept_bytes<'a>(
    rt: &HostRuntime,
    source: StateBytes<'a>,
) -> Result<&'a [u8], CliFault> {
    let bytes = source.bytes;
    match state_of(rt, source) {
        Ok(state) => Ok(&bytes[..state.whole.min(bytes.len())]),
        Err(why) => Err(why.into_fault()),
    }
}

/// Appends the contents of a state, and answers the status of the process.
pub(crate) fn push_state(
    out: &mut String,
    rt: &HostRuntime,
    source: StateBytes<'_>,
    form: OutputFormat,
) -> Result<u8, CliFault> {
    match state_of(rt, source) {
        Ok(state) => push_accepted_state(out, rt.alloc(), (source.bytes, &state), form),
        Err(why) => push_refused_state(out, why, form),
    }
}

/// Appends the contents of a state that a start accepts, and answers the status of the process.
fn push_accepted_state(
    out: &mut String,
    alloc: Global,
    (bytes, state): (&[u8], &StateOfBytes),
    form: OutputFormat,
) -> Result<u8, CliFault> {
    match form {
        OutputFormat::Check => push_accepted(out, bytes, state),
        OutputFormat::Json => Ok(push_json(out, &state.recovered)?),
        OutputFormat::AllTables => Ok(push_tables(out, alloc, &state.recovered, true)?),
        _ => Ok(push_tables(out, alloc, &state.recovered, false)?),
    }
}

/// Appends, if only that was asked for, the line that a start refuses, and answers the status.
fn push_refused_state(
    out: &mut String,
    why: NoStateFault,
    form: OutputFormat,
) -> Result<u8, CliFault> {
    if form != OutputFormat::Check {
        return Err(why.into_fault());
    }
    match why {
        NoStateFault::Line(line, _) => push_refused_line(out, line),
        NoStateFault::Other(fault) => Err(fault),
    }
}

/// Appends that a start accepts the file, up to the end of the log, and answers the status.
fn push_accepted(out: &mut String, bytes: &[u8], state: &StateOfBytes) -> Result<u8, CliFault> {
    let torn = state.torn;
    if torn == 0 {
        out.push_str("yes\n")?;
        return Ok(0);
    }
    let lines = bytes[..state.length.min(bytes.len())]
        .iter()
        .filter(|byte| **byte == b'\n')
        .count();
    write!(
        out,
        "yes, up to line {lines}: {torn} bytes behind it were never known to be with the disk\n"
    )?;
    Ok(0)
}

/// Appends the line that a start refuses, and answers the status.
fn push_refused_line(out: &mut String, line: u64) -> Result<u8, CliFault> {
    write!(out, "no {line}\n")?;
    Ok(1)
}

/// The source of the status.
fn status_view_of(recovered: &RecoveredState) -> StatusSource<'_>
    ensures { source_state result ≡ status_state recovered.now.log.header.epoch recovered.now.base
        recovered.now.log.world }
{
    StatusSource {
        epoch: recovered.log.header.epoch,
        world: &recovered.log.world,
        base: &recovered.base,
    }
}

/// Appends the answer to the order `status`, without notes, and answers the status of the process.
fn push_json(out: &mut String, recovered: &RecoveredState) -> Result<u8, NoMemory>
    ensures { OnOk result (string_bytes out.new ≡ string_bytes out.old
        ++ (status_text recovered.now.log.names None (status_state recovered.now.log.header.epoch recovered.now.base
        recovered.now.log.world) [] ++ 10 ∷ [])) }
{
    let notes = StatusNotes {
        workers: &[],
        leader: &None,
    };
    push_status(
        out,
        &recovered.log.names,
        &status_view_of(recovered),
        &notes,
    )?;
    out.push_str("\n")?;
    Ok(0)
}

/// Appends the epoch, the tables of the locks and of the workers, and what is left to finish; answers the status of the
/// process.
fn push_tables(
    out: &mut String,
    alloc: Global,
    recovered: &RecoveredState,
    all: bool,
) -> Result<u8, NoMemory> {
    let names = &recovered.log.names;
    let source = status_view_of(recovered);
    let epoch = source.epoch;
    write!(out, "epoch {epoch}\n\n")?;
    let locks = lock_rows(alloc, &source)?;
    push_lock_table(out, alloc, names, locks.as_slice())?;
    out.push_str("\n")?;
    let rows = worker_rows(alloc, &source)?;
    let view = WorkerToShow {
        names,
        height: source.world.shape().height(),
        finisher: Finisher::Client,
        goes_on: true,
        all,
    };
    push_workers(out, alloc, &view, rows.as_slice())?;
    Ok(0)
}

/// The status of each lock.
fn lock_rows(alloc: Global, source: &StatusSource<'_>) -> Result<Vec<LockStatus>, NoMemory> {
    let sections = Sections::of(source.world);
    let mut rows = Vec::new(alloc);
    for lock in 0..source.world.shape().locks() {
        let Some(status) = lock_status(source, lock, &sections) else {
            return Err(NoMemory);
        };
        match rows.push(status) {
            Ok(()) => {}
            Err(_) => return Err(NoMemory),
        }
    }
    Ok(rows)
}

/// Each worker that clients may attach.
fn worker_rows(alloc: Global, source: &StatusSource<'_>) -> Result<Vec<WorkerRow>, NoMemory> {
    let words = world_words(source.world)?;
    let mut rows = Vec::new(alloc);
    for worker in 0..clients_of(source.world) {
        let Some(status) = worker_status(source, &words, worker) else {
            return Err(NoMemory);
        };
        match rows.push(worker_row(alloc, status, held_levels(&words, worker))?) {
            Ok(()) => {}
            Err(_) => return Err(NoMemory),
        }
    }
    Ok(rows)
}

/// The levels that a worker holds in the lock that it is at, if it holds any.
fn held_levels(words: &Bank, worker: u32) -> Option<HeldLevels>
    requires { worker < words.now.shape.workers }
{
    for lock in 0..words.shape().locks() {
        let levels = held(words, lock, worker);
        if levels > 0 {
            return Some(HeldLevels { lock, levels });
        }
    }
    None
}

/// The row of a worker.
fn worker_row(
    alloc: Global,
    status: WorkerStatus,
    held: Option<HeldLevels>,
) -> Result<WorkerRow, AllocError> {
    let (user, presence) = if status.attached {
        ("attached", Presence::Here)
    } else {
        ("down", Presence::Gone)
    };
    Ok(WorkerRow {
        user: text_of(alloc, user)?,
        presence,
        stance: status.stance,
        number: status.number,
        blocked_by: status.blocked_by,
        held,
    })
}

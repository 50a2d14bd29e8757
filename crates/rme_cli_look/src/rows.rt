//! The rows of locks and workers, and what is left to finish.

use crate::table::{Table, number_or, text_of};
use rme_durable_lookups::{LockStatus, WorkerStance, push_cell_values};
use rme_line_text::lock_name;
use rme_wire::Names;
use std::alloc::{AllocError, Global};

/// Whether somebody has a worker.
#[derive(Clone, Copy, PartialEq, Eq)]
pub(crate) enum Presence {
    /// A session or a process has it.
    Here,
    /// Nobody has it.
    Gone,
    /// The system does not say.
    Unknown,
}

/// The levels that a worker holds of its path in a lock, at least one.
#[derive(Clone, Copy)]
pub(crate) struct HeldLevels {
    pub(crate) lock: u32,
    pub(crate) levels: u32,
}

/// A worker.
#[derive(Drop)]
pub(crate) struct WorkerRow {
    /// Who has the worker, as its row says.
    pub(crate) user: String,
    pub(crate) presence: Presence,
    pub(crate) stance: WorkerStance,
    pub(crate) number: u64,
    pub(crate) blocked_by: Option<u32>,
    pub(crate) held: Option<HeldLevels>,
}

/// Who goes on with a worker that nobody has.
#[derive(Clone, Copy)]
pub(crate) enum Finisher<'a> {
    /// A client of the server that has the state.
    Client,
    /// Another process of the file with this path.
    Process(&'a str),
}

/// How workers are shown.
#[derive(Clone, Copy)]
pub(crate) struct WorkerToShow<'a> {
    pub(crate) names: &'a Names,
    /// The number of levels of each tree.
    pub(crate) height: u32,
    pub(crate) finisher: Finisher<'a>,
    /// Whether somebody may go on with the file.
    pub(crate) goes_on: bool,
    /// Whether workers are shown that nobody has, and that are ready and hold nothing.
    pub(crate) all: bool,
}

impl<'a> Finisher<'a> {
    /// The title of the column that says who has a worker.
    fn title(&self) -> &'static str {
        match self {
            Finisher::Client => "SESSION",
            Finisher::Process(_) => "PROCESS",
        }
    }

    /// What a worker is that nobody has.
    fn gone(&self) -> &'static str {
        match self {
            Finisher::Client => "down",
            Finisher::Process(_) => "dead",
        }
    }
}

/// Appends the table of the locks.
pub(crate) fn push_lock_table(
    out: &mut String,
    alloc: Global,
    names: &Names,
    locks: &[LockStatus],
) -> Result<(), AllocError> {
    let header = ["LOCK", "OWNER", "CELLS", "SETTLED", "SECTIONS"];
    let mut table = Table::new(alloc, &header)?;
    let mut lock: u32 = 0;
    for status in locks {
        table.push(lock_texts(alloc, lock_name(names, lock), status)?)?;
        lock = lock.saturating_add(1);
    }
    table.push_to(out)
}

fn lock_texts(alloc: Global, name: &str, status: &LockStatus) -> Result<Vec<String>, AllocError> {
    let settled = if status.settled { "yes" } else { "no" };
    let sections = status.sections;
    let mut cells = String::new(alloc);
    push_cell_values(&mut cells, &status.cells)?;
    let mut texts = Vec::new(alloc);
    texts.push(text_of(alloc, name)?)?;
    texts.push(number_or(alloc, status.owner, "nobody")?)?;
    texts.push(cells)?;
    texts.push(text_of(alloc, settled)?)?;
    texts.push(format!(in alloc; "{sections}")?)?;
    Ok(texts)
}

/// Appends the table of the workers and, if somebody may go on with the file, a line for each that nobody has and that
/// holds something.
pub(crate) fn push_workers(
    out: &mut String,
    alloc: Global,
    view: &WorkerToShow<'_>,
    rows: &[WorkerRow],
) -> Result<(), AllocError> {
    push_worker_table(out, alloc, view, rows)?;
    if view.goes_on {
        push_unfinished(out, view, rows)?;
    }
    Ok(())
}

fn push_worker_table(
    out: &mut String,
    alloc: Global,
    view: &WorkerToShow<'_>,
    rows: &[WorkerRow],
) -> Result<(), AllocError> {
    let user = view.finisher.title();
    let header = ["WORKER", user, "STANCE", "LOCK", "NUMBER", "BLOCKED BY"];
    let mut table = Table::new(alloc, &header)?;
    let mut worker: u32 = 0;
    for row in rows {
        if view.all || is_active(row) {
            table.push(worker_texts(alloc, view.names, worker, row)?)?;
        }
        worker = worker.saturating_add(1);
    }
    if table.is_empty() {
        return out.push_str("every worker is ready, and nobody has one\n");
    }
    table.push_to(out)
}

/// Whether somebody has a worker, or it has a job or holds something.
fn is_active(row: &WorkerRow) -> bool {
    if let Presence::Here = row.presence {
        return true;
    }
    row.stance != WorkerStance::Ready || row.held.is_some()
}

fn worker_texts(
    alloc: Global,
    names: &Names,
    worker: u32,
    row: &WorkerRow,
) -> Result<Vec<String>, AllocError> {
    let number = row.number;
    let name = match row.stance.lock() {
        Some(lock) => lock_name(names, lock),
        None => "-",
    };
    let mut texts = Vec::new(alloc);
    texts.push(format!(in alloc; "{worker}")?)?;
    texts.push(text_of(alloc, row.user.as_str())?)?;
    texts.push(text_of(alloc, row.stance.word())?)?;
    texts.push(text_of(alloc, name)?)?;
    texts.push(format!(in alloc; "{number}")?)?;
    texts.push(number_or(alloc, row.blocked_by, "-")?)?;
    Ok(texts)
}

/// Appends a line for each worker that nobody has and that holds something, behind an empty line.
fn push_unfinished(
    out: &mut String,
    view: &WorkerToShow<'_>,
    rows: &[WorkerRow],
) -> Result<(), AllocError> {
    let mut is_first = true;
    let mut worker: u32 = 0;
    for row in rows {
        if let (Presence::Gone, Some(held)) = (row.presence, row.held) {
            out.push_str(if is_first { "\n" } else { "" })?;
            push_place(out, view, worker, row.stance, held)?;
            push_waiting(out, rows, worker)?;
            push_command(out, view, worker, row.stance, held)?;
            is_first = false;
        }
        worker = worker.saturating_add(1);
    }
    Ok(())
}

/// Appends where a worker is that nobody has.
fn push_place(
    out: &mut String,
    view: &WorkerToShow<'_>,
    worker: u32,
    stance: WorkerStance,
    held: HeldLevels,
) -> Result<(), AllocError> {
    let gone = view.finisher.gone();
    let name = lock_name(view.names, held.lock);
    let HeldLevels { levels, .. } = held;
    let height = view.height;
    match stance {
        WorkerStance::Held(_) => write!(out, "worker {worker} is {gone} inside lock {name}"),
        WorkerStance::Climb(_) => write!(
            out,
            "worker {worker} is {gone} before lock {name} with {levels} of {height} levels"
        ),
        WorkerStance::Ready => write!(
            out,
            "worker {worker} is {gone} behind its job of lock {name} with {levels} of {height} levels"
        ),
    }
}

/// Appends the workers that wait for a worker.
fn push_waiting(out: &mut String, rows: &[WorkerRow], worker: u32) -> Result<(), AllocError> {
    let mut others = false;
    let mut other: u32 = 0;
    out.push_str(", and keeps ")?;
    for row in rows {
        if row.blocked_by == Some(worker) {
            let comma = if others { "," } else { "" };
            write!(out, "{comma}{other}")?;
            others = true;
        }
        other = other.saturating_add(1);
    }
    let nobody = if others { "" } else { "nobody" };
    write!(out, "{nobody} waiting: ")
}

/// Appends the command that finishes the job of a worker, or that leaves the lock behind its job.
fn push_command(
    out: &mut String,
    view: &WorkerToShow<'_>,
    worker: u32,
    stance: WorkerStance,
    held: HeldLevels,
) -> Result<(), AllocError> {
    let name = lock_name(view.names, held.lock);
    let Finisher::Process(path) = view.finisher else {
        return write!(out, "rme ask finish {worker}\n");
    };
    if stance == WorkerStance::Ready {
        return write!(out, "the next process of worker {worker} leaves it\n");
    }
    let path = if is_plain(path) { path } else { "FILE" };
    write!(
        out,
        "rme-hold --file {path} --worker {worker} {name} -- true\n"
    )
}

/// Whether a shell takes these bytes for one word as they are.
fn is_plain(path: &str) -> bool {
    path.bytes().all(|byte| byte.is_ascii_alphanumeric()
        || matches!(byte, b'/' | b'.' | b'_' | b'-'))
}

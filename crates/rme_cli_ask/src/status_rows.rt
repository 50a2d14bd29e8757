//! The line about the leader, and the rows of the tables of locks and workers.

ghost use Rattle.std.specs.Prelude.{◌≡◌, ◌++◌, IfOk, OnOk, count_by, string_bytes};
ghost use Rattle.std.specs.List.{flat_map};
ghost use Rattle.rme_ask_client.specs.JobAnswers.{reported_stance_word};
ghost use Rattle.rme_cli_ask.specs.StatusRows as spec;

use crate::age::Age;
use crate::rows::{RowOf, rows_of, rows_of_lock};
use crate::table::push_table;
use rme_ask_client::{
    CellsAnswer, ReportedLeader, ReportedLock, ReportedStance, ReportedWorker, ServerStatus,
};
use rme_cli_messages::escape_controls;
use std::alloc::{AllocError, Global};

/// The cell of a value that is missing.
pub(crate) const NOTHING: &str = "-";

/// The line about the leader, and the tables of locks and of workers.
pub(crate) fn status_text(alloc: Global, status: &ServerStatus) -> Result<String, AllocError>
    ensures { IfOk result (λ text. string_bytes text ≡ spec.status_text status.now) }
{
    let leader = leader_line(alloc, &status.leader)?;
    let tables = tables_text(alloc, status)?;
    format!(in alloc; "{leader}{tables}")
}

/// The line that says who leads the log, and an empty one; nothing where the server does not tell it.
fn leader_line(alloc: Global, leader: &Option<ReportedLeader>) -> Result<String, AllocError>
    ensures { IfOk result (λ text. string_bytes text ≡ spec.leader_line leader.now) }
{
    let Some(leader) = leader else {
        return Ok(String::new(alloc));
    };
    let address = escape_controls(alloc, leader.address.as_str())?;
    let term = leader.term;
    format!(in alloc; "leader {address} term {term}\n\n")
}

/// The tables of locks and of workers.
fn tables_text(alloc: Global, status: &ServerStatus) -> Result<String, AllocError>
    ensures { IfOk result (λ text. string_bytes text ≡ spec.status_tables_text status.now) }
{
    let mut text = String::new(alloc);
    let locks = lock_rows(alloc, status)?;
    push_table(&mut text, locks.as_slice())?;
    text.push_str("\n")?;
    let workers = worker_rows(alloc, status.workers.as_slice())?;
    push_table(&mut text, workers.as_slice())?;
    Ok(text)
}

/// The rows of an answer to `owner`.
pub(crate) fn owner_rows(
    alloc: Global,
    lock: &str,
    owner: Option<u64>,
) -> Result<Vec<Vec<String>>, AllocError>
    ensures { IfOk result (λ rows. spec.rows_view rows.items ≡ spec.owner_rows lock.now owner) }
{
    rows_of_lock(alloc, lock, "OWNER", owner_cell(alloc, owner)?)
}

/// The rows of an answer to `cells`.
pub(crate) fn cells_rows(
    alloc: Global,
    lock: &str,
    answer: &CellsAnswer,
) -> Result<Vec<Vec<String>>, AllocError>
    ensures { IfOk result (λ rows. spec.rows_view rows.items ≡ spec.cells_rows lock.now answer.now) }
{
    let cells = cell_list_text(alloc, answer.cells.as_slice(), answer.settled)?;
    rows_of_lock(alloc, lock, "CELLS", cells)
}

/// The rows of locks: a header, and a row for each lock.
fn lock_rows(alloc: Global, status: &ServerStatus) -> Result<Vec<Vec<String>>, AllocError>
    ensures { IfOk result (λ rows. spec.rows_view rows.items ≡ spec.lock_rows status.now) }
{
    let titles = ["LOCK", "OWNER", "STATE", "CELLS", "SECTIONS"];
    let view = LockView {
        workers: status.workers.as_slice(),
    };
    rows_of(alloc, &titles, status.locks.as_slice(), &view)
}

/// The rows of workers: a header, and a row for each worker.
fn worker_rows(alloc: Global, workers: &[ReportedWorker]) -> Result<Vec<Vec<String>>, AllocError>
    ensures { IfOk result (λ rows. spec.rows_view rows.items ≡ spec.worker_rows workers.now) }
{
    let titles = [
        "WORKER",
        "SESSION",
        "STANCE",
        "LOCK",
        "JOB",
        "BLOCKED BY",
        "SINCE",
        "AS",
    ];
    rows_of(alloc, &titles, workers, &WorkerView)
}

/// Locks, beside the workers of their server.
#[derive(Drop)]
struct LockView<'a> {
    workers: &'a [ReportedWorker],
}

impl<'a> RowOf<ReportedLock> for LockView<'a> {
    ghost cells_of = { λ view _ lock. spec.lock_table_row view.workers.now lock };

    fn row(
        &self,
        alloc: Global,
        _number: usize,
        lock: &ReportedLock,
    ) -> Result<Vec<String>, AllocError> {
        let sections = lock.sections;
        Ok(vec![in alloc;
            String::from_str(alloc, lock.name.as_str())?,
            owner_cell(alloc, lock.owner)?,
            String::from_str(alloc, owner_state(lock.owner, self.workers))?,
            cell_list_text(alloc, lock.cells.as_slice(), lock.settled)?,
            format!(in alloc; "{sections}")?,
        ]?)
    }
}

/// Workers.
#[derive(Drop)]
struct WorkerView;

impl RowOf<ReportedWorker> for WorkerView {
    ghost cells_of = { λ _ number worker. spec.worker_row number worker };

    fn row(
        &self,
        alloc: Global,
        number: usize,
        worker: &ReportedWorker,
    ) -> Result<Vec<String>, AllocError> {
        let job = worker.number;
        let session = if worker.attached { "yes" } else { "none" };
        let lock = match &worker.lock {
            Some(lock) => lock.as_str(),
            None => NOTHING,
        };
        Ok(vec![in alloc;
            format!(in alloc; "{number}")?,
            String::from_str(alloc, session)?,
            String::from_str(alloc, reported_stance_word(worker.stance))?,
            String::from_str(alloc, lock)?,
            format!(in alloc; "{job}")?,
            number_or(alloc, worker.blocked_by, NOTHING)?,
            since_text(alloc, worker.seconds)?,
            client_text(alloc, &worker.client)?,
        ]?)
    }
}

/// A number, or this text for `None`.
pub(crate) fn number_or(
    alloc: Global,
    number: Option<u64>,
    nothing: &str,
) -> Result<String, AllocError>
    ensures { IfOk result (λ text. string_bytes text ≡ spec.number_or nothing.now number) }
{
    match number {
        Some(number) => format!(in alloc; "{number}"),
        None => String::from_str(alloc, nothing),
    }
}

/// The time since a stance changed, if the server tells it.
pub(crate) fn since_text(alloc: Global, seconds: Option<u64>) -> Result<String, AllocError>
    ensures { IfOk result (λ text. string_bytes text ≡ spec.since_text seconds) }
{
    let Some(seconds) = seconds else {
        return String::from_str(alloc, NOTHING);
    };
    let age = Age { seconds };
    format!(in alloc; "{age}")
}

/// The name that a client gave.
fn client_text(alloc: Global, name: &Option<String>) -> Result<String, AllocError>
    ensures { IfOk result (λ text. string_bytes text ≡ spec.client_text name.now) }
{
    match name {
        Some(name) => escape_controls(alloc, name.as_str()),
        None => String::from_str(alloc, NOTHING),
    }
}

/// The number of an owner, or `nobody`.
pub(crate) fn owner_cell(alloc: Global, owner: Option<u64>) -> Result<String, AllocError>
    ensures { IfOk result (λ text. string_bytes text ≡ spec.owner_cell owner) }
{
    number_or(alloc, owner, "nobody")
}

/// Whether a session has the owner of a lock.
pub(crate) fn owner_state(owner: Option<u64>, workers: &[ReportedWorker]) -> &'static str
    ensures { result.now ≡ spec.owner_state workers.now owner }
{
    let Some(worker) = owner else {
        return NOTHING;
    };
    if has_session(workers, worker) {
        "held"
    } else {
        "DEAD"
    }
}

/// Whether a session has the worker of this number.
fn has_session(workers: &[ReportedWorker], number: u64) -> bool
    ensures { result ≡ spec.has_session workers.now number }
{
    match workers.get(number as usize) {
        Some(worker) => worker.attached,
        None => false,
    }
}

/// The number of workers that wait for a lock.
pub(crate) fn waiting_for(workers: &[ReportedWorker], lock: &str) -> usize
    ensures { result ≡ count_by (spec.waits_for lock.now) workers.now }
{
    workers
        .iter()
        .filter(|worker| waits_for(worker, lock))
        .count()
}

/// Whether a worker waits for a lock.
fn waits_for(worker: &ReportedWorker, lock: &str) -> bool
    ensures { result ≡ spec.waits_for lock.now worker.now }
{
    let Some(name) = &worker.lock else {
        return false;
    };
    if worker.stance != ReportedStance::Climb {
        return false;
    }
    name.as_str() == lock
}

/// The values of cells, and whether a section is half done.
fn cell_list_text(alloc: Global, cells: &[u64], settled: bool) -> Result<String, AllocError>
    ensures { IfOk result (λ text. string_bytes text ≡ spec.cell_list_text cells.now settled) }
{
    let mut text = String::new(alloc);
    push_cells(&mut text, cells)?;
    if !settled {
        text.push_str(" unsettled")?;
    }
    Ok(text)
}

/// Appends numbers, separated by commas.
fn push_cells(out: &mut String, cells: &[u64]) -> Result<(), AllocError>
    ensures { OnOk result (string_bytes out.new ≡ string_bytes out.old ++ spec.number_list_text cells.now) }
{
    match cells.split_first() {
        Some((first, others)) => {
            write!(out, "{first}")?;
            push_others(out, others)
        }
        None => Ok(()),
    }
}

/// Appends numbers, with a comma before each.
fn push_others(out: &mut String, cells: &[u64]) -> Result<(), AllocError>
    ensures { OnOk result (string_bytes out.new ≡ string_bytes out.old ++ flat_map spec.next_number_text cells.now) }
{
    for cell in cells {
        write!(out, ",{cell}")?;
    }
    Ok(())
}

/// The word of a worker's stance.
fn reported_stance_word(stance: ReportedStance) -> &'static str
    ensures { result.now ≡ reported_stance_word stance }
{
    match stance {
        ReportedStance::Ready => "ready",
        ReportedStance::Climb => "climb",
        ReportedStance::Held => "held",
    }
}

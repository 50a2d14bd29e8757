//! The status of a world: its locks and its workers, without the checkpoint worker.

ghost use Rattle.std.specs.Prelude.{◌≡◌, ◌++◌, ◌-◌, ◌<◌, IfOk, IfSome, OnOk, slice_get, string_bytes};
ghost use Rattle.serde_json.specs.Data.{string};
ghost use Rattle.serde_json.specs.Written.{compact_text};
ghost use Rattle.rme_line_text.specs.Texts.{cells_text, comma_text};
ghost use Rattle.rme_durable_epochs.specs.EpochLengths.{AreSectionCounts};
ghost use Rattle.rme_waiting.specs.WorldWords.{world_bank};
ghost use Rattle.rme_durable_lookups.specs.StatusTexts as spec;

use crate::status_notes::{LeaderNote, StatusNotes};
use crate::worker_notes::WorkerNote;
use rme_durable_epochs::{Base, EpochExecutor, Sections};
use rme_line_text::lock_name;
use rme_script::Row;
use rme_session_protocol::ClientLabel;
use rme_waiting::{blocked_by, world_words};
use rme_wire::Names;
use rme_words::{Bank, NoMemory};
use rme_world::World;
use serde_json::Value;
use std::alloc::{AllocError, Global};

/// The stance of a worker: as its session shows it, or as the next attach would find it.
#[derive(Clone, Copy, Debug, PartialEq, Eq)]
pub enum WorkerStance {
    Ready,
    /// It waits for this lock.
    Climb(u32),
    /// It is inside this lock.
    Held(u32),
}

impl WorkerStance {
    /// The word for it.
    pub fn word(self) -> &'static str
        ensures { result.now ≡ spec.worker_stance_word self }
    {
        match self {
            WorkerStance::Ready => "ready",
            WorkerStance::Climb(_) => "climb",
            WorkerStance::Held(_) => "held",
        }
    }

    /// The lock that the worker's job is for, if it has one.
    pub fn lock(self) -> Option<u32>
        ensures { result ≡ spec.worker_stance_lock self }
    {
        match self {
            WorkerStance::Ready => None,
            WorkerStance::Climb(lock) | WorkerStance::Held(lock) => Some(lock),
        }
    }
}

/// The status of a worker.
#[derive(Clone, Copy)]
pub struct WorkerStatus {
    /// Whether a session has the worker.
    pub attached: bool,
    /// The worker that it waits for, if it waits and another worker holds the next node that it needs.
    pub blocked_by: Option<u32>,
    /// The number of its last job.
    pub number: u64,
    pub stance: WorkerStance,
}

/// The status of a lock.
#[derive(Clone, Copy)]
pub struct LockStatus {
    pub cells: Row,
    /// Whether every section that was begun is finished.
    pub settled: bool,
    pub owner: Option<u32>,
    /// The number of finished sections, over all epochs.
    pub sections: u64,
}

/// A world and the base of its epoch, from which the status is read.
#[derive(Clone, Copy)]
pub struct StatusSource<'a> {
    /// The number of earlier epochs.
    pub epoch: u64,
    pub world: &'a World,
    pub base: &'a Base,
}

impl<'a> StatusSource<'a> {
    /// The world and the base of an executor.
    pub fn of(executor: &'a EpochExecutor) -> StatusSource<'a>
        ensures epoch { result.epoch ≡ executor.now.epoch }
        ensures world { result.world.now ≡ executor.now.executor.world }
        ensures base { result.base.now ≡ executor.now.base }
    {
        StatusSource {
            epoch: executor.epoch(),
            world: executor.executor().world(),
            base: executor.base(),
        }
    }
}

/// The number of workers that clients may attach: all but the last, which is the checkpoint worker.
pub fn clients_of(world: &World) -> u32
    ensures { result ≡ world.now.shape.workers - 1 }
{
    world.shape().workers().saturating_sub(1)
}

/// The status of a lock, given the finished sections of the world; `None` if the number of its sections over all epochs
/// is not a number of 64 bits.
pub fn lock_status(told: &StatusSource<'_>, lock: u32, sections: &Sections) -> Option<LockStatus>
    requires lock { lock < told.now.world.now.shape.locks }
    requires sections { AreSectionCounts told.now.world.now.history sections.now }
    ensures { IfSome result (λ status. status ≡ spec.lock_status (spec.source_state told.now) lock) }
{
    let (Ok((cells, settled)), Ok(owner)) = (told.world.cells(lock), told.world.owner(lock)) else {
        unreachable!();
    };
    Some(LockStatus {
        cells,
        settled,
        owner,
        sections: told.base.sections_before(lock, sections.at(lock))?,
    })
}

/// The status of a worker, given the words of the world; `None` if its number over all epochs is not a number of 64
/// bits.
pub fn worker_status(told: &StatusSource<'_>, words: &Bank, worker: u32) -> Option<WorkerStatus>
    requires worker { worker < told.now.world.now.shape.workers }
    requires words { words.now ≡ world_bank told.now.world.now }
    ensures { IfSome result (λ status. status ≡ spec.worker_status (spec.source_state told.now) worker) }
{
    let before = told.base.worker_base(worker).numbers;
    Some(WorkerStatus {
        attached: told.world.known(worker).is_some(),
        blocked_by: blocked_by(words, worker),
        number: before.checked_add(told.world.number(worker))?,
        stance: worker_stance(told.world, worker),
    })
}

/// The stance of a worker.
pub fn worker_stance(world: &World, worker: u32) -> WorkerStance
    requires { worker < world.now.shape.workers }
    ensures { result ≡ spec.worker_stance world.now worker }
{
    match world.pending(worker) {
        Some(job) => stance_at_lock(owner_or_nobody(world, job.lock), worker, job.lock),
        None => WorkerStance::Ready,
    }
}

/// The owner of a lock; nobody for a number of no lock.
fn owner_or_nobody(world: &World, lock: u32) -> Option<u32>
    ensures { result ≡ spec.owner_or_nobody world.now lock }
{
    match world.owner(lock) {
        Ok(owner) => owner,
        Err(_) => None,
    }
}

/// The stance of a worker with a pending job at this lock.
fn stance_at_lock(owner: Option<u32>, worker: u32, lock: u32) -> WorkerStance
    ensures { result ≡ spec.stance_at_lock owner worker lock }
{
    match owner {
        Some(owner) if owner == worker => WorkerStance::Held(lock),
        _ => WorkerStance::Climb(lock),
    }
}

/// Appends the answer to the order `status`, without a newline. It has the notes: those on workers that there are, and
/// who leads the log. An error means that memory was refused, or that a number over all epochs is not a number of 64
/// bits; the text is then of no use.
pub fn push_status(
    out: &mut String,
    names: &Names,
    told: &StatusSource<'_>,
    notes: &StatusNotes<'_>,
) -> Result<(), NoMemory>
    ensures { OnOk result (string_bytes out.new ≡ string_bytes out.old ++ spec.status_text names.now
        notes.now.leader.now (spec.source_state told.now) notes.now.workers.now) }
{
    push_status_front(out, told.epoch, notes.leader)?;
    push_locks(out, names, told)?;
    push_status_middle(out, notes.leader)?;
    push_workers(out, names, told, notes.workers)?;
    out.push_str("]}")?;
    Ok(())
}

/// Appends the text of a status before its locks, with the leader's address if there is a leader.
fn push_status_front(
    out: &mut String,
    epoch: u64,
    leader: &Option<LeaderNote>,
) -> Result<(), AllocError>
    ensures { OnOk result (string_bytes out.new ≡ string_bytes out.old ++ spec.status_front epoch leader.now) }
{
    push_epoch(out, epoch)?;
    push_leader(out, leader)?;
    out.push_str(",\"locks\":[")?;
    Ok(())
}

fn push_epoch(out: &mut String, epoch: u64) -> Result<(), AllocError>
    ensures { OnOk result (string_bytes out.new ≡ string_bytes out.old ++ spec.epoch_text epoch) }
{
    write!(out, "{{\"epoch\":{epoch}")
}

/// Appends the leader's address, if there is a leader.
fn push_leader(out: &mut String, leader: &Option<LeaderNote>) -> Result<(), AllocError>
    ensures { OnOk result (string_bytes out.new ≡ string_bytes out.old ++ spec.leader_text leader.now) }
{
    match leader {
        Some(leader) => push_address(out, leader.address.as_str()),
        None => Ok(()),
    }
}

fn push_address(out: &mut String, address: &str) -> Result<(), AllocError>
    ensures { OnOk result (string_bytes out.new ≡ string_bytes out.old ++ spec.address_text address.now) }
{
    let quoted = json_text(*out.allocator(), address)?;
    write!(out, ",\"leader\":{quoted}")
}

/// Appends the text of a status between its locks and its workers, with the leader's term if there is a leader.
fn push_status_middle(out: &mut String, leader: &Option<LeaderNote>) -> Result<(), AllocError>
    ensures { OnOk result (string_bytes out.new ≡ string_bytes out.old ++ spec.status_middle leader.now) }
{
    out.push_str("],\"ok\":\"status\"")?;
    push_term(out, leader)?;
    out.push_str(",\"workers\":[")?;
    Ok(())
}

/// Appends the leader's term, if there is a leader.
fn push_term(out: &mut String, leader: &Option<LeaderNote>) -> Result<(), AllocError>
    ensures { OnOk result (string_bytes out.new ≡ string_bytes out.old ++ spec.term_text leader.now) }
{
    let Some(leader) = leader else {
        return Ok(());
    };
    let term = leader.term;
    write!(out, ",\"term\":{term}")
}

/// Appends the status of each lock, separated by commas.
fn push_locks(out: &mut String, names: &Names, told: &StatusSource<'_>) -> Result<(), NoMemory>
    ensures { OnOk result (string_bytes out.new ≡ string_bytes out.old ++ spec.locks_text names.now
        (spec.source_state told.now)) }
{
    let sections = Sections::of(told.world);
    let mut later = false;
    for lock in 0..told.world.shape().locks() {
        let Some(status) = lock_status(told, lock, &sections) else {
            return Err(NoMemory);
        };
        push_comma(out, later)?;
        push_lock(out, lock_name(names, lock), &status)?;
        later = true;
    }
    Ok(())
}

/// Appends a comma if other items came earlier.
fn push_comma(out: &mut String, later: bool) -> Result<(), AllocError>
    ensures { OnOk result (string_bytes out.new ≡ string_bytes out.old ++ comma_text later) }
{
    if later { out.push_str(",") } else { Ok(()) }
}

/// Appends the status of a lock with this name.
fn push_lock(out: &mut String, name: &str, status: &LockStatus) -> Result<(), AllocError>
    ensures { OnOk result (string_bytes out.new ≡ string_bytes out.old ++ spec.lock_status_text name.now
        status.now) }
{
    out.push_str("{\"cells\":[")?;
    push_cell_values(out, &status.cells)?;
    push_named(out, name)?;
    push_owner_value(out, status.owner)?;
    push_lock_status_end(out, status.sections, status.settled)?;
    Ok(())
}

/// Appends the values of cells, separated by commas.
pub fn push_cell_values(out: &mut String, row: &Row) -> Result<(), AllocError>
    ensures { OnOk result (string_bytes out.new ≡ string_bytes out.old ++ cells_text row.now) }
{
    let mut later = false;
    for cell in 0..row.len() {
        let value = row.get(cell);
        push_comma(out, later)?;
        write!(out, "{value}")?;
        later = true;
    }
    Ok(())
}

fn push_named(out: &mut String, name: &str) -> Result<(), AllocError>
    ensures { OnOk result (string_bytes out.new ≡ string_bytes out.old ++ spec.named_text name.now) }
{
    write!(out, "],\"name\":\"{name}\",\"owner\":")
}

fn push_owner_value(out: &mut String, owner: Option<u32>) -> Result<(), AllocError>
    ensures { OnOk result (string_bytes out.new ≡ string_bytes out.old ++ spec.owner_value_text owner) }
{
    match owner {
        Some(owner) => write!(out, "{owner}"),
        None => out.push_str("null"),
    }
}

fn push_lock_status_end(out: &mut String, sections: u64, settled: bool) -> Result<(), AllocError>
    ensures { OnOk result (string_bytes out.new ≡ string_bytes out.old ++ spec.lock_status_end sections settled) }
{
    write!(out, ",\"sections\":{sections},\"settled\":{settled}}}")
}

/// Appends the status of each worker that clients may attach, separated by commas.
fn push_workers(
    out: &mut String,
    names: &Names,
    told: &StatusSource<'_>,
    notes: &[WorkerNote],
) -> Result<(), NoMemory>
    ensures { OnOk result (string_bytes out.new ≡ string_bytes out.old ++ spec.workers_text names.now
        (spec.source_state told.now) notes.now) }
{
    let words = world_words(told.world)?;
    let mut later = false;
    for worker in 0..clients_of(told.world) {
        let Some(status) = worker_status(told, &words, worker) else {
            return Err(NoMemory);
        };
        push_comma(out, later)?;
        push_worker(out, names, status, note_on(notes, worker))?;
        later = true;
    }
    Ok(())
}

/// Appends the status of a worker, with the note on it if there is one.
fn push_worker(
    out: &mut String,
    names: &Names,
    status: WorkerStatus,
    note: Option<WorkerNote>,
) -> Result<(), AllocError>
    ensures { OnOk result (string_bytes out.new ≡ string_bytes out.old ++ spec.worker_status_text names.now status
        note) }
{
    let (label, seconds) = note_members(note);
    push_label(out, label)?;
    push_worker_front(out, status.attached, status.blocked_by)?;
    push_lock_member(out, names, status.stance.lock())?;
    push_number(out, status.number)?;
    push_worker_status_end(out, seconds, status.stance.word())?;
    Ok(())
}

/// The note on a worker, if there is one.
fn note_on(notes: &[WorkerNote], worker: u32) -> Option<WorkerNote>
    ensures { result ≡ slice_get notes.now worker }
{
    notes.get(worker as usize).copied()
}

/// The label and the seconds that a note tells.
fn note_members(note: Option<WorkerNote>) -> (Option<ClientLabel>, Option<u64>)
    ensures label { result.0 ≡ spec.note_label note }
    ensures seconds { result.1 ≡ spec.note_seconds note }
{
    match note {
        Some(WorkerNote { label, seconds }) => (label, Some(seconds)),
        None => (None, None),
    }
}

/// Appends the beginning of a worker's status, with the client's label if there is one.
fn push_label(out: &mut String, label: Option<ClientLabel>) -> Result<(), AllocError>
    ensures { OnOk result (string_bytes out.new ≡ string_bytes out.old ++ spec.label_text label) }
{
    match label {
        Some(label) => push_as(out, label.as_str()),
        None => out.push_str("{"),
    }
}

fn push_as(out: &mut String, label: &str) -> Result<(), AllocError>
    ensures { OnOk result (string_bytes out.new ≡ string_bytes out.old ++ spec.as_text label.now) }
{
    let quoted = json_text(*out.allocator(), label)?;
    write!(out, "{{\"as\":{quoted},")
}

/// A text in JSON, with its quotes.
fn json_text(alloc: Global, text: &str) -> Result<String, AllocError>
    ensures { IfOk result (λ json. string_bytes json ≡ compact_text (string text.now)) }
{
    Value::String(String::from_str(alloc, text)?).to_string(alloc)
}

/// Appends the text of a worker's status before its lock.
fn push_worker_front(
    out: &mut String,
    attached: bool,
    blocked_by: Option<u32>,
) -> Result<(), AllocError>
    ensures { OnOk result (string_bytes out.new ≡ string_bytes out.old ++ spec.worker_front attached blocked_by) }
{
    push_attached(out, attached)?;
    push_blocked_by(out, blocked_by)?;
    Ok(())
}

fn push_attached(out: &mut String, attached: bool) -> Result<(), AllocError>
    ensures { OnOk result (string_bytes out.new ≡ string_bytes out.old ++ spec.attached_text attached) }
{
    write!(out, "\"attached\":{attached}")
}

fn push_blocked_by(out: &mut String, blocked_by: Option<u32>) -> Result<(), AllocError>
    ensures { OnOk result (string_bytes out.new ≡ string_bytes out.old ++ spec.blocked_by_text blocked_by) }
{
    match blocked_by {
        Some(other) => write!(out, ",\"blocked_by\":{other}"),
        None => Ok(()),
    }
}

fn push_lock_member(out: &mut String, names: &Names, lock: Option<u32>) -> Result<(), AllocError>
    ensures { OnOk result (string_bytes out.new ≡ string_bytes out.old ++ spec.lock_member_text names.now lock) }
{
    let Some(lock) = lock else {
        return Ok(());
    };
    let name = lock_name(names, lock);
    write!(out, ",\"lock\":\"{name}\"")
}

fn push_number(out: &mut String, number: u64) -> Result<(), AllocError>
    ensures { OnOk result (string_bytes out.new ≡ string_bytes out.old ++ spec.number_member_text number) }
{
    write!(out, ",\"number\":{number}")
}

fn push_worker_status_end(
    out: &mut String,
    seconds: Option<u64>,
    word: &str,
) -> Result<(), AllocError>
    ensures { OnOk result (string_bytes out.new ≡ string_bytes out.old ++ spec.worker_status_end seconds word.now) }
{
    match seconds {
        Some(seconds) => write!(out, ",\"seconds\":{seconds},\"stance\":\"{word}\"}}"),
        None => write!(out, ",\"stance\":\"{word}\"}}"),
    }
}

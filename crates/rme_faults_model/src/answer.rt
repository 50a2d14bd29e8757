//! Answers, as a client reads them.

use crate::request::{SimulatedRequest, lock_named};
use serde_json::Value;
use std::alloc::Global;

/// Where a worker stands, by the word of an answer.
#[derive(Clone, Copy, Debug, PartialEq, Eq)]
pub enum SeenStance {
    Ready,
    Climb,
    Held,
}

/// A receipt.
#[derive(Clone, Copy, Debug, PartialEq, Eq)]
pub struct SeenReceipt {
    pub worker: u32,
    pub lock: u32,
    pub number: u64,
    pub place: u64,
    pub reply: u64,
}

/// What a status tells of a lock.
#[derive(Drop)]
pub struct LockLine {
    pub owner: Option<u32>,
    pub cells: Vec<u64>,
    pub settled: bool,
    pub sections: u64,
}

/// What a status tells of a worker.
#[derive(Clone, Copy)]
pub struct WorkerLine {
    pub attached: bool,
    pub number: u64,
    pub stance: SeenStance,
}

/// An answer.
#[derive(Drop)]
pub enum SeenAnswer {
    Attached {
        number: u64,
        stance: SeenStance,
        worker: Option<u32>,
    },
    Receipt(SeenReceipt),
    Withdrawn,
    Waiting,
    Fell,
    Inside {
        life: u64,
        number: u64,
        section: u64,
    },
    Withdrew(u64),
    Last(Option<SeenReceipt>),
    /// The pending job, with which the whole line is compared.
    Pending(SeenStance),
    Planned,
    Detached,
    Pong,
    Owner(Option<u32>),
    Cells(Vec<u64>, bool),
    Status(Vec<LockLine>, Vec<WorkerLine>),
    Refused(u64, Option<u64>),
}

/// Reads the answer to a request. `None` if the line is no answer.
pub fn read_answer(alloc: Global, request: &SimulatedRequest, line: &[u8]) -> Option<SeenAnswer> {
    let value = Value::from_slice(alloc, line).ok()?;
    read_value(alloc, request, &value)
}

fn read_value(alloc: Global, request: &SimulatedRequest, value: &Value) -> Option<SeenAnswer> {
    if let Some(code) = value.get("code") {
        return Some(SeenAnswer::Refused(code.as_u64()?, whole(value, "expected")));
    }
    if value.get("ok")?.as_str()? != request.word() {
        return None;
    }
    match request {
        SimulatedRequest::Attach(_) | SimulatedRequest::AttachAny { .. } => read_attached(value),
        SimulatedRequest::Submit(_) | SimulatedRequest::Resume | SimulatedRequest::Commit =>
            read_outcome(value),
        SimulatedRequest::Withdraw => read_withdrew(value),
        SimulatedRequest::Last => Some(SeenAnswer::Last(read_if_any(value.get("last")?)?)),
        SimulatedRequest::Pending => Some(SeenAnswer::Pending(stance_of(value)?)),
        SimulatedRequest::CrashAfter(_) => Some(SeenAnswer::Planned),
        SimulatedRequest::Detach => Some(SeenAnswer::Detached),
        SimulatedRequest::Ping => Some(SeenAnswer::Pong),
        SimulatedRequest::Owner(_) => Some(SeenAnswer::Owner(read_owner(value.get("owner")?)?)),
        SimulatedRequest::Cells(_) => Some(SeenAnswer::Cells(
            read_cells(alloc, value)?,
            value.get("settled")?.as_bool()?,
        )),
        SimulatedRequest::Status => read_status(alloc, value),
        SimulatedRequest::BadLine => None,
    }
}

fn whole(value: &Value, name: &str) -> Option<u64> {
    value.get(name)?.as_u64()
}

fn small(value: &Value, name: &str) -> Option<u32> {
    u32::try_from(whole(value, name)?).ok()
}

fn stance_of(value: &Value) -> Option<SeenStance> {
    match value.get("stance")?.as_str()? {
        "ready" => Some(SeenStance::Ready),
        "climb" => Some(SeenStance::Climb),
        "held" => Some(SeenStance::Held),
        _ => None,
    }
}

fn read_attached(value: &Value) -> Option<SeenAnswer> {
    Some(SeenAnswer::Attached {
        number: whole(value, "number")?,
        stance: stance_of(value)?,
        worker: small(value, "worker"),
    })
}

fn is_true(value: &Value, name: &str) -> bool {
    match value.get(name) {
        Some(found) => found.as_bool() == Some(true),
        None => false,
    }
}

fn read_outcome(value: &Value) -> Option<SeenAnswer> {
    if let Some(receipt) = value.get("receipt") {
        return Some(SeenAnswer::Receipt(read_receipt(receipt)?));
    }
    if is_true(value, "withdrawn") {
        return Some(SeenAnswer::Withdrawn);
    }
    if is_true(value, "waiting") {
        return Some(SeenAnswer::Waiting);
    }
    if is_true(value, "fell") {
        return Some(SeenAnswer::Fell);
    }
    Some(SeenAnswer::Inside {
        life: whole(value, "life")?,
        number: whole(value, "number")?,
        section: whole(value, "section")?,
    })
}

fn read_withdrew(value: &Value) -> Option<SeenAnswer> {
    if is_true(value, "fell") {
        return Some(SeenAnswer::Fell);
    }
    Some(SeenAnswer::Withdrew(whole(value, "number")?))
}

fn read_receipt(value: &Value) -> Option<SeenReceipt> {
    Some(SeenReceipt {
        worker: small(value, "worker")?,
        lock: lock_named(value.get("lock")?.as_str()?)?,
        number: whole(value, "number")?,
        place: whole(value, "place")?,
        reply: whole(value, "reply")?,
    })
}

/// A receipt, or null.
fn read_if_any(value: &Value) -> Option<Option<SeenReceipt>> {
    if value.is_null() {
        return Some(None);
    }
    Some(Some(read_receipt(value)?))
}

/// A worker, or null.
fn read_owner(value: &Value) -> Option<Option<u32>> {
    if value.is_null() {
        return Some(None);
    }
    Some(Some(u32::try_from(value.as_u64()?).ok()?))
}

fn read_cells(alloc: Global, value: &Value) -> Option<Vec<u64>> {
    let mut cells = Vec::new(alloc);
    for cell in value.get("cells")?.as_array()? {
        cells.push(cell.as_u64()?).ok()?;
    }
    Some(cells)
}

fn read_status(alloc: Global, value: &Value) -> Option<SeenAnswer> {
    let locks = read_lock_lines(alloc, value.get("locks")?)?;
    let workers = read_worker_lines(alloc, value.get("workers")?)?;
    Some(SeenAnswer::Status(locks, workers))
}

fn read_lock_lines(alloc: Global, value: &Value) -> Option<Vec<LockLine>> {
    let mut locks = Vec::new(alloc);
    for lock in value.as_array()? {
        locks.push(read_lock_line(alloc, lock)?).ok()?;
    }
    Some(locks)
}

fn read_worker_lines(alloc: Global, value: &Value) -> Option<Vec<WorkerLine>> {
    let mut workers = Vec::new(alloc);
    for worker in value.as_array()? {
        workers.push(read_worker_line(worker)?).ok()?;
    }
    Some(workers)
}

fn read_lock_line(alloc: Global, value: &Value) -> Option<LockLine> {
    Some(LockLine {
        owner: read_owner(value.get("owner")?)?,
        cells: read_cells(alloc, value)?,
        settled: value.get("settled")?.as_bool()?,
        sections: whole(value, "sections")?,
    })
}

fn read_worker_line(value: &Value) -> Option<WorkerLine> {
    Some(WorkerLine {
        attached: value.get("attached")?.as_bool()?,
        number: whole(value, "number")?,
        stance: stance_of(value)?,
    })
}

//! The metrics of a state, by its status.

ghost use Rattle.std.specs.Prelude.{IfOk, string_bytes};
ghost use Rattle.rme_cli_listen.specs.MetricsTexts.{IsMetricsText};

use rme_ask_client::{ClientError, ReportedStance, ServerStatus, server_status};
use rme_metrics::{
    LabelledCount, LogMetrics, MetricsSnapshot, SessionMetrics, StateMetrics, write_metrics,
};
use rme_words::NoMemory;
use serde_json::Value;
use std::alloc::{AllocError, Global};

/// The answer to the order `status`, and the bytes of the state's file.
#[derive(Clone, Copy)]
pub struct StatusText<'a> {
    pub text: &'a str,
    pub file_bytes: u64,
}

/// The metrics of these sessions and logs, and of the state whose status this is, in Prometheus' format. A text that is
/// no status adds no metrics.
pub fn state_metrics_text(
    alloc: Global,
    sessions: Option<SessionMetrics<'_>>,
    log: Option<LogMetrics>,
    status: Option<StatusText<'_>>,
) -> Result<String, NoMemory>
    ensures { IfOk result (λ text. IsMetricsText (string_bytes text)) }
{
    let Some(status) = status else {
        return metrics_of(alloc, sessions, log, None);
    };
    let Some(read) = read_status(alloc, status.text)? else {
        return metrics_of(alloc, sessions, log, None);
    };
    let state = state_metrics(alloc, &read, status.file_bytes)?;
    metrics_of(alloc, sessions, log, Some(state))
}

/// The metrics of these sessions and logs, and of this state, in Prometheus' format.
fn metrics_of(
    alloc: Global,
    sessions: Option<SessionMetrics<'_>>,
    log: Option<LogMetrics>,
    state: Option<StateMetrics<'_>>,
) -> Result<String, NoMemory>
    ensures { IfOk result (λ text. IsMetricsText (string_bytes text)) }
{
    let snapshot = MetricsSnapshot {
        sessions,
        log,
        state,
    };
    let mut out = String::new(alloc);
    write_metrics(&mut out, &snapshot)?;
    Ok(out)
}

/// The status that a text says; `None` if it says none.
fn read_status(alloc: Global, text: &str) -> Result<Option<ServerStatus>, NoMemory> {
    let value = match Value::from_str(alloc, text) {
        Ok(value) => value,
        Err(error) if error.is_memory() => return Err(NoMemory),
        Err(_) => return Ok(None),
    };
    match server_status(alloc, &value) {
        Ok(status) => Ok(Some(status)),
        Err(ClientError::NoMemory) => Err(NoMemory),
        Err(_) => Ok(None),
    }
}

/// What a state tells, whose file has this number of bytes.
fn state_metrics<'a>(
    alloc: Global,
    status: &'a ServerStatus,
    file_bytes: u64,
) -> Result<StateMetrics<'a>, AllocError> {
    Ok(StateMetrics {
        jobs_finished: jobs_finished(alloc, status)?,
        jobs_withdrawn: jobs_withdrawn(status),
        file_bytes,
        epoch: status.epoch,
        workers: workers_by_stance(alloc, status)?,
        owners_down: owners_down(status),
    })
}

/// The finished jobs, by their lock.
fn jobs_finished<'a>(
    alloc: Global,
    status: &'a ServerStatus,
) -> Result<Vec<LabelledCount<'a>>, AllocError> {
    let mut counts = Vec::new(alloc);
    for lock in &status.locks {
        counts.push(LabelledCount {
            label: lock.name.as_str(),
            count: lock.sections,
        })?;
    }
    Ok(counts)
}

/// The withdrawn jobs: those that were begun, and are neither finished nor pending.
fn jobs_withdrawn(status: &ServerStatus) -> u64 {
    let finished = status
        .locks
        .iter()
        .fold(0u64, |sum, lock| sum.saturating_add(lock.sections));
    let begun = status
        .workers
        .iter()
        .fold(0u64, |sum, worker| sum.saturating_add(worker.number));
    let ready = workers_of(status, ReportedStance::Ready);
    let pending = (status.workers.len() as u64).saturating_sub(ready);
    begun.saturating_sub(finished).saturating_sub(pending)
}

/// The workers, by their stance.
fn workers_by_stance<'a>(
    alloc: Global,
    status: &ServerStatus,
) -> Result<Vec<LabelledCount<'a>>, AllocError> {
    let mut counts = Vec::new(alloc);
    for (label, stance) in [
        ("ready", ReportedStance::Ready),
        ("climb", ReportedStance::Climb),
        ("held", ReportedStance::Held),
    ] {
        counts.push(LabelledCount {
            label,
            count: workers_of(status, stance),
        })?;
    }
    Ok(counts)
}

/// The number of workers in this stance.
fn workers_of(status: &ServerStatus, stance: ReportedStance) -> u64 {
    status
        .workers
        .iter()
        .filter(|worker| worker.stance == stance)
        .count() as u64
}

/// The number of workers that own a lock while no session has them.
fn owners_down(status: &ServerStatus) -> u64 {
    status
        .workers
        .iter()
        .filter(|worker| worker.stance == ReportedStance::Held && !worker.attached)
        .count() as u64
}

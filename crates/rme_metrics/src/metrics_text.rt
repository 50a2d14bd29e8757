//! The text of a server's metrics.

ghost use Rattle.std.specs.Prelude.{◌≡◌, ◌++◌, OnOk, string_bytes};
ghost use Rattle.rme_metrics.specs.Metrics.{families_of_log, families_of_sessions, families_of_state, job_families, log_families, metrics_text, session_families, state_families};

use crate::family::MetricFamily;
use crate::samples::{
    push_histogram_family, push_labelled_family, push_plain_family, push_seconds_family,
};
use crate::snapshot::{LogMetrics, MetricsSnapshot, SessionMetrics, StateMetrics};
use rme_words::NoMemory;
use std::alloc::AllocError;

/// Appends the text of a snapshot in Prometheus' format 0.0.4: each family once, its help and its type before its
/// samples. After `NoMemory` the text is unspecified.
pub fn write_metrics(out: &mut String, snapshot: &MetricsSnapshot) -> Result<(), NoMemory>
    ensures { OnOk result (string_bytes out.new ≡ string_bytes out.old ++ metrics_text snapshot.now) }
{
    push_families_of_sessions(out, &snapshot.sessions)?;
    push_families_of_log(out, &snapshot.log)?;
    push_families_of_state(out, &snapshot.state)?;
    Ok(())
}

/// Appends the families of sessions, if they are told.
fn push_families_of_sessions(
    out: &mut String,
    sessions: &Option<SessionMetrics>,
) -> Result<(), AllocError>
    ensures { OnOk result (string_bytes out.new ≡ string_bytes out.old ++ families_of_sessions sessions.now) }
{
    match sessions {
        Some(sessions) => push_session_families(out, sessions),
        None => Ok(()),
    }
}

/// Appends the families of sessions, of their lines, and of the times of these.
fn push_session_families(out: &mut String, sessions: &SessionMetrics) -> Result<(), AllocError>
    ensures { OnOk result (string_bytes out.new ≡ string_bytes out.old ++ session_families sessions.now) }
{
    push_plain_family(out, MetricFamily::SessionsOpen, sessions.open)?;
    push_plain_family(out, MetricFamily::SessionsBegun, sessions.begun)?;
    push_plain_family(out, MetricFamily::SessionsWaiting, sessions.waiting)?;
    let orders = sessions.orders.as_slice();
    push_labelled_family(out, MetricFamily::Orders, "kind", orders)?;
    let refusals = sessions.refusals.as_slice();
    push_labelled_family(out, MetricFamily::Refusals, "name", refusals)?;
    push_histogram_family(out, MetricFamily::OrderSeconds, &sessions.order_times)?;
    Ok(())
}

/// Appends the families of logs, if they are told.
fn push_families_of_log(out: &mut String, log: &Option<LogMetrics>) -> Result<(), AllocError>
    ensures { OnOk result (string_bytes out.new ≡ string_bytes out.old ++ families_of_log log.now) }
{
    match log {
        Some(log) => push_log_families(out, log),
        None => Ok(()),
    }
}

/// Appends the families of logs.
fn push_log_families(out: &mut String, log: &LogMetrics) -> Result<(), AllocError>
    ensures { OnOk result (string_bytes out.new ≡ string_bytes out.old ++ log_families log.now) }
{
    push_histogram_family(out, MetricFamily::WriteSeconds, &log.write_times)?;
    push_plain_family(out, MetricFamily::Checkpoints, log.checkpoints)?;
    push_seconds_family(out, MetricFamily::CheckpointSeconds, log.checkpoint_micros)?;
    Ok(())
}

/// Appends the families of a state, if it is told.
fn push_families_of_state(out: &mut String, state: &Option<StateMetrics>) -> Result<(), AllocError>
    ensures { OnOk result (string_bytes out.new ≡ string_bytes out.old ++ families_of_state state.now) }
{
    match state {
        Some(state) => push_state_families(out, state),
        None => Ok(()),
    }
}

/// Appends the families of a state.
fn push_state_families(out: &mut String, state: &StateMetrics) -> Result<(), AllocError>
    ensures { OnOk result (string_bytes out.new ≡ string_bytes out.old ++ state_families state.now) }
{
    push_job_families(out, state)?;
    let workers = state.workers.as_slice();
    push_labelled_family(out, MetricFamily::Workers, "stance", workers)?;
    push_plain_family(out, MetricFamily::OwnersDown, state.owners_down)?;
    Ok(())
}

/// Appends the families of the jobs of a state, and of its file.
fn push_job_families(out: &mut String, state: &StateMetrics) -> Result<(), AllocError>
    ensures { OnOk result (string_bytes out.new ≡ string_bytes out.old ++ job_families state.now) }
{
    let finished = state.jobs_finished.as_slice();
    push_labelled_family(out, MetricFamily::JobsFinished, "lock", finished)?;
    push_plain_family(out, MetricFamily::JobsWithdrawn, state.jobs_withdrawn)?;
    push_plain_family(out, MetricFamily::FileBytes, state.file_bytes)?;
    push_plain_family(out, MetricFamily::Epoch, state.epoch)?;
    Ok(())
}

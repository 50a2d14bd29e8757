//! The families of metrics: their names, their helps, and their types.

ghost use Rattle.std.specs.Prelude.{◌≡◌, ◌++◌, OnOk, string_bytes};
ghost use Rattle.rme_metrics.specs.Samples.{family_head};

use std::alloc::AllocError;

/// The type of a family, as Prometheus names it.
#[derive(Clone, Copy, Debug, PartialEq, Eq)]
pub enum MetricKind {
    /// It only grows, until the server starts again.
    Counter,
    /// It grows and falls.
    Gauge,
    /// Counts of times up to certain bounds, the number of all, and their sum.
    Histogram,
}

impl MetricKind {
    ghost use Rattle.std.specs.Prelude.{◌≡◌};
    ghost use Rattle.rme_metrics.specs.Families.{metric_kind_word};

    /// The word of the type in a text.
    pub fn word(self) -> &'static str
        ensures { result.now ≡ metric_kind_word self }
    {
        match self {
            MetricKind::Counter => "counter",
            MetricKind::Gauge => "gauge",
            MetricKind::Histogram => "histogram",
        }
    }
}

/// The families of metrics.
#[derive(Clone, Copy, Debug, PartialEq, Eq)]
pub enum MetricFamily {
    SessionsOpen,
    SessionsBegun,
    SessionsWaiting,
    Orders,
    Refusals,
    OrderSeconds,
    WriteSeconds,
    Checkpoints,
    CheckpointSeconds,
    JobsFinished,
    JobsWithdrawn,
    FileBytes,
    Epoch,
    Workers,
    OwnersDown,
}

impl MetricFamily {
    ghost use Rattle.std.specs.Prelude.{◌≡◌};
    ghost use Rattle.rme_metrics.specs.Families.{family_help, family_kind, family_name};

    /// Its name.
    pub fn name(self) -> &'static str
        ensures { result.now ≡ family_name self }
    {
        match self {
            MetricFamily::SessionsOpen => "rme_sessions_open",
            MetricFamily::SessionsBegun => "rme_sessions_total",
            MetricFamily::SessionsWaiting => "rme_sessions_waiting",
            MetricFamily::Orders => "rme_orders_total",
            MetricFamily::Refusals => "rme_refusals_total",
            MetricFamily::OrderSeconds => "rme_order_seconds",
            MetricFamily::WriteSeconds => "rme_log_write_seconds",
            MetricFamily::Checkpoints => "rme_checkpoints_total",
            MetricFamily::CheckpointSeconds => "rme_checkpoint_seconds_total",
            MetricFamily::JobsFinished => "rme_jobs_finished_total",
            MetricFamily::JobsWithdrawn => "rme_jobs_withdrawn_total",
            MetricFamily::FileBytes => "rme_state_bytes",
            MetricFamily::Epoch => "rme_epoch",
            MetricFamily::Workers => "rme_workers",
            MetricFamily::OwnersDown => "rme_owners_down",
        }
    }

    /// What it counts: one line, without a backslash.
    pub fn help(self) -> &'static str
        ensures { result.now ≡ family_help self }
    {
        match self {
            MetricFamily::SessionsOpen => "Sessions that are open.",
            MetricFamily::SessionsBegun => "Sessions that began.",
            MetricFamily::SessionsWaiting => "Sessions whose last line is not answered yet.",
            MetricFamily::Orders => "Orders that were answered, and not refused, by their kind.",
            MetricFamily::Refusals => "Lines that were refused, by the name of the refusal.",
            MetricFamily::OrderSeconds => "Seconds from a line of a session to its answer.",
            MetricFamily::WriteSeconds => "Seconds of a write to a log, with its sync.",
            MetricFamily::Checkpoints => "Checkpoints that this server made.",
            MetricFamily::CheckpointSeconds => "Seconds that the checkpoints took.",
            MetricFamily::JobsFinished => "Jobs that were finished, by their lock.",
            MetricFamily::JobsWithdrawn => "Jobs that were withdrawn.",
            MetricFamily::FileBytes => "Bytes of the state's file.",
            MetricFamily::Epoch => "The number of the state's epoch.",
            MetricFamily::Workers => "Workers, by their stance.",
            MetricFamily::OwnersDown => "Workers that own a lock while no session has them.",
        }
    }

    pub fn kind(self) -> MetricKind
        ensures { result ≡ family_kind self }
    {
        match self {
            MetricFamily::SessionsOpen => MetricKind::Gauge,
            MetricFamily::SessionsBegun => MetricKind::Counter,
            MetricFamily::SessionsWaiting => MetricKind::Gauge,
            MetricFamily::Orders => MetricKind::Counter,
            MetricFamily::Refusals => MetricKind::Counter,
            MetricFamily::OrderSeconds => MetricKind::Histogram,
            MetricFamily::WriteSeconds => MetricKind::Histogram,
            MetricFamily::Checkpoints => MetricKind::Counter,
            MetricFamily::CheckpointSeconds => MetricKind::Counter,
            MetricFamily::JobsFinished => MetricKind::Counter,
            MetricFamily::JobsWithdrawn => MetricKind::Counter,
            MetricFamily::FileBytes => MetricKind::Gauge,
            MetricFamily::Epoch => MetricKind::Gauge,
            MetricFamily::Workers => MetricKind::Gauge,
            MetricFamily::OwnersDown => MetricKind::Gauge,
        }
    }
}

/// Appends the two lines that begin a family: its help and its type.
pub(crate) fn push_head(out: &mut String, family: MetricFamily) -> Result<(), AllocError>
    ensures { OnOk result (string_bytes out.new ≡ string_bytes out.old ++ family_head family) }
{
    let name = family.name();
    let help = family.help();
    let kind = family.kind().word();
    write!(out, "# HELP {name} {help}\n# TYPE {name} {kind}\n")
}

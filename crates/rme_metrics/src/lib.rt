//! The counts of a server that many threads add to, and their text for Prometheus.
//!
//! `ServerCounters` and `LogCounters` are atomic counters, which threads share by reference. A `MetricsSnapshot` is what
//! a server tells at some moment, and `write_metrics` appends its text in Prometheus' format 0.0.4. The crate stands on rme_words for
//! the names of refusals, and on nothing else of this repository. The crates above use one contract, `metrics_text` of
//! `specs/Metrics.antt`, which lists the families of the text. Begin with that file, then `snapshot.rt` and
//! `metrics_text.rt`.
#![tactic(auto)]

mod counters;
mod family;
mod label;
mod log_counters;
mod metrics_text;
mod order_kind;
mod samples;
mod snapshot;
mod time_counter;

pub use counters::{CounterLane, ServerCounters};
pub use family::{MetricFamily, MetricKind};
pub use label::LabelledCount;
pub use log_counters::LogCounters;
pub use metrics_text::write_metrics;
pub use order_kind::{ORDER_KINDS, OrderKind};
pub use snapshot::{LogMetrics, MetricsSnapshot, SessionMetrics, StateMetrics};
pub use time_counter::{TIME_BUCKETS, TimeCounter, TimeHistogram};

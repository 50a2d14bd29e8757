//! What a server tells at some moment.

use crate::label::LabelledCount;
use crate::time_counter::TimeHistogram;

/// What a server tells at some moment, each part only if it is asked for. Labels of one list are distinct.
#[derive(Drop)]
pub struct MetricsSnapshot<'a> {
    pub sessions: Option<SessionMetrics<'a>>,
    pub log: Option<LogMetrics>,
    pub state: Option<StateMetrics<'a>>,
}

/// What a server tells of its sessions, since it began.
#[derive(Drop)]
pub struct SessionMetrics<'a> {
    /// The sessions that are open, that began, and whose last line is not answered yet.
    pub open: u64,
    pub begun: u64,
    pub waiting: u64,
    /// The orders that were answered and not refused, by the word of their kind.
    pub orders: Vec<LabelledCount<'a>>,
    /// The refused lines, by the name of the refusal.
    pub refusals: Vec<LabelledCount<'a>>,
    /// The times from lines to their answers.
    pub order_times: TimeHistogram,
}

/// What a server tells of all its logs, since it began.
#[derive(Drop)]
pub struct LogMetrics {
    /// The times of the writes to the log, each with its sync.
    pub write_times: TimeHistogram,
    /// The checkpoints, and the microseconds that they took.
    pub checkpoints: u64,
    pub checkpoint_micros: u64,
}

/// What a state tells.
#[derive(Drop)]
pub struct StateMetrics<'a> {
    /// The jobs that were finished, by the name of the lock, and those that were withdrawn.
    pub jobs_finished: Vec<LabelledCount<'a>>,
    pub jobs_withdrawn: u64,
    /// The bytes of the state's file.
    pub file_bytes: u64,
    pub epoch: u64,
    /// The workers, by their stance.
    pub workers: Vec<LabelledCount<'a>>,
    /// The workers that own a lock while no session has them.
    pub owners_down: u64,
}

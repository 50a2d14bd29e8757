//! The state of a session as its client sees it, over all epochs.

use rme_line_text::ClientReceipt;
use rme_script::Job;

/// A worker that is ready, as its client sees it.
#[derive(Clone, Copy)]
pub struct ClientReady {
    pub worker: u32,
    /// Its last number, over all epochs.
    pub number: u64,
    /// The receipt of that number, if it has one.
    pub last: Option<ClientReceipt>,
}

/// A worker with a job, as its client sees it.
#[derive(Clone, Copy)]
pub struct ClientPending {
    pub worker: u32,
    /// The number of the job, over all epochs.
    pub number: u64,
    pub draft: Option<Job>,
}

/// A session, as its client sees it.
#[derive(Clone, Copy)]
pub enum ClientSession {
    Nobody,
    Ready(ClientReady),
    Climb(ClientPending),
    Held(ClientPending),
}

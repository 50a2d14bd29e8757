//! What a status tells beside the state: the notes on the workers, and who leads the log.

use crate::worker_notes::WorkerNote;

/// Who leads a log that several servers may claim: the server that claimed it last.
#[derive(Drop)]
pub struct LeaderNote {
    /// The address that the server gave when it claimed the log: by agreement where clients reach it.
    pub address: String,
    /// The number of its claim. Each claim of the log has a higher one than those before it.
    pub term: u64,
}

/// What a status tells of a server beside the state.
#[derive(Clone, Copy)]
pub struct StatusNotes<'a> {
    /// The notes on the workers, by their numbers. Workers beyond them are told without.
    pub workers: &'a [WorkerNote],
    /// Who leads the log; `None` if no other server may claim it, or if that is not to be told.
    pub leader: &'a Option<LeaderNote>,
}

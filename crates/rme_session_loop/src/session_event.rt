//! What happens to the workers of a server, for those who watch it.

/// What happened to a worker of a server, by its number, or to the state.
#[derive(Clone, Copy, Debug, PartialEq, Eq)]
pub enum SessionEvent {
    /// A session attached the worker.
    Attached(u32),
    /// A session takes the worker over: the connection of the session that has it was closed.
    TakesOver(u32),
    /// A session let the worker go and goes on: by its order, by a planned crash, or since a choice did not take it.
    Detached(u32),
    /// A session that had the worker ended.
    Ended(u32),
    /// The server withdrew the job of the worker, which waited although no session had the worker.
    Withdrawn(u32),
    /// The server made a checkpoint, with which this epoch began.
    Checkpoint(u64),
}

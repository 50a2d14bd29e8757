//! The client of a session, apart from its lines: whether it is gone, the handle that closes it, and who watches it.

use crate::session_event::SessionEvent;

/// The client of a session.
pub trait Client {
    ghost use Rattle.std.specs.Prelude.{IsTrue, ⊤};

    // What is known once the client was found to be gone.
    ghost gone: { Self → Type 0 } = { λ _. ⊤ };

    /// The handle by which other threads can close the client.
    type Handle: CloseHandle;

    /// Whether the client will send nothing more: it went away, or was closed.
    fn is_gone(&self) -> bool
        ensures { IsTrue result → gone self.now };

    /// A handle of the client, if one can be had.
    fn handle(&self) -> Option<Self::Handle>;

    /// Tells whoever watches the client's session of an event in its course. The claim of the event's worker is locked
    /// meanwhile, so the events of one worker are told in their order. By default nobody watches.
    fn observe(&self, _event: SessionEvent) {}
}

/// A handle of a client that has a worker.
pub trait CloseHandle: Drop {
    /// Closes the client's connection, so that its session ends.
    fn close(&self);
}

/// A client that is never gone and that nobody can close, as one over streams in memory.
#[derive(Clone, Copy, Drop)]
pub struct LocalClient;

impl Client for LocalClient {
    ghost gone = { λ _. ⊥ };

    type Handle = NoCloseHandle;

    fn is_gone(&self) -> bool {
        false
    }

    fn handle(&self) -> Option<NoCloseHandle> {
        None
    }
}

/// The handle of a client that cannot be closed.
#[derive(Clone, Copy, Drop)]
pub struct NoCloseHandle;

impl CloseHandle for NoCloseHandle {
    fn close(&self) {}
}

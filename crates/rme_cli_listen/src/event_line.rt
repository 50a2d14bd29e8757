//! The line of an event in the log of a server.

use rme_session_loop::SessionEvent;
use std::fmt;

/// An event in the course of the session of this connection, or at the start of the server. It is shown as one sentence.
#[derive(Clone, Copy)]
pub struct SessionEventLine {
    pub connection: Option<u64>,
    pub event: SessionEvent,
}

impl fmt::Display for SessionEventLine {
    ghost use Rattle.rme_cli_listen.specs.EventTexts.{session_event_text};

    ghost output = { λ line. session_event_text line };

    fn fmt<W: fmt::Write>(&self, f: &mut fmt::Formatter<W>) -> fmt::Result {
        let by = EventOrigin(self.connection);
        match self.event {
            SessionEvent::Attached(worker) => write!(f, "{by} attached worker {worker}"),
            SessionEvent::TakesOver(worker) => write!(f, "{by} takes over worker {worker}"),
            SessionEvent::Detached(worker) => write!(f, "{by} let worker {worker} go"),
            SessionEvent::Ended(worker) => write!(f, "{by} ended, worker {worker} is free"),
            SessionEvent::Withdrawn(worker) => write!(f, "withdrew the job of worker {worker}"),
            SessionEvent::Checkpoint(epoch) => write!(f, "checkpoint, epoch {epoch}"),
        }
    }
}

/// Where an event comes from: a connection, or the server.
#[derive(Clone, Copy)]
struct EventOrigin(Option<u64>);

impl fmt::Display for EventOrigin {
    ghost use Rattle.rme_cli_listen.specs.EventTexts.{origin_text};

    ghost output = { λ origin. origin_text origin };

    fn fmt<W: fmt::Write>(&self, f: &mut fmt::Formatter<W>) -> fmt::Result {
        match self.0 {
            Some(connection) => write!(f, "connection {connection}"),
            None => f.write_str("the server"),
        }
    }
}

//! Clients of a simulation: no connection, a flag that closes a client, and a feed of lines.

use rme_session_loop::{Client, CloseHandle, SessionEvent};
use std::cell::Cell;
use std::io;
use std::io::Read;

/// The client of a session.
#[derive(Drop)]
pub struct SimulatedClient<'a> {
    /// Whether another client took its worker over.
    pub closed: &'a Cell<bool>,
    /// Whether it waits for nothing: then an order that would wait ends after one attempt.
    pub is_hurried: bool,
    /// The number of checkpoints that clients were told of.
    pub checkpoints: &'a Cell<u64>,
}

impl<'a> Client for SimulatedClient<'a> {
    type Handle = CloseFlag<'a>;

    fn is_gone(&self) -> bool {
        self.is_hurried
    }

    fn handle(&self) -> Option<CloseFlag<'a>> {
        Some(CloseFlag(self.closed))
    }

    fn observe(&self, event: SessionEvent) {
        if let SessionEvent::Checkpoint(_) = event {
            self.checkpoints
                .set(self.checkpoints.get().saturating_add(1));
        }
    }
}

/// The handle of a client.
#[derive(Drop)]
pub struct CloseFlag<'a>(&'a Cell<bool>);

impl CloseHandle for CloseFlag<'_> {
    fn close(&self) {
        self.0.set(true);
    }
}

/// Gives one line after another to a reader.
#[derive(Drop)]
pub struct LineFeed<'a> {
    pub line: &'a Cell<Option<String>>,
}

impl Read for LineFeed<'_> {
    fn read(&mut self, buf: &mut [u8]) -> io::Result<usize> {
        let Some(line) = self.line.take() else {
            return Ok(0);
        };
        let bytes = line.as_bytes();
        let count = bytes.len().min(buf.len());
        buf[..count].copy_from_slice(&bytes[..count]);
        self.line.set(Some(line));
        Ok(count)
    }
}

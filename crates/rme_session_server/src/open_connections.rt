//! The open connections, so that any thread can close them all.

use crate::connection::Connection;
use std::alloc::Global;
use std::sync::{Arc, Mutex, Wait};

/// The connections whose sessions run, until no more are added.
#[derive(Drop)]
pub(crate) struct OpenConnections {
    room: Mutex<ConnectionList>,
}

/// The open connections, and whether no more are added.
#[derive(Drop)]
struct ConnectionList {
    connections: Vec<OpenConnection>,
    is_over: bool,
}

/// A connection, and its number.
#[derive(Drop)]
struct OpenConnection {
    number: u64,
    client: Arc<Connection>,
}

impl OpenConnections {
    /// No connections yet.
    pub(crate) fn new(alloc: Global) -> OpenConnections {
        OpenConnections {
            room: Mutex::new(ConnectionList {
                connections: Vec::new(alloc),
                is_over: false,
            }),
        }
    }

    /// Adds a connection, whose number no other one has. If no more are added, or there is no memory for it, it is
    /// closed, and the answer is `None`.
    pub(crate) fn add<R: Wait>(
        &self,
        rt: &R,
        alloc: Global,
        number: u64,
        client: Connection,
    ) -> Option<Arc<Connection>> {
        let inside = Arc::new(alloc, client).ok()?;
        let client = Arc::try_clone(&inside).ok()?;
        let mut room = self.room.lock(rt);
        // `close_all` is called after `stop_adding`, so it finds every connection that was added.
        if room.is_over {
            return None;
        }
        room.connections
            .push(OpenConnection { number, client })
            .ok()?;
        Some(inside)
    }

    /// Removes the connection of this number, if it is there.
    pub(crate) fn remove<R: Wait>(&self, rt: &R, number: u64) {
        let mut room = self.room.lock(rt);
        room.connections.retain(|guest| guest.number != number);
    }

    /// Adds no more connections from now on. Answers whether that is new.
    pub(crate) fn stop_adding<R: Wait>(&self, rt: &R) -> bool {
        let mut room = self.room.lock(rt);
        let was_over = room.is_over;
        room.is_over = true;
        !was_over
    }

    /// Whether no more connections are added.
    pub(crate) fn is_over<R: Wait>(&self, rt: &R) -> bool {
        self.room.lock(rt).is_over
    }

    /// Closes all open connections, so that their sessions end.
    pub(crate) fn close_all<R: Wait>(&self, rt: &R) {
        let room = self.room.lock(rt);
        for guest in &room.connections {
            guest.client.end();
        }
    }
}

//! What a server does with the connections that it accepts.

use crate::accepted_connection::AcceptedConnection;
use crate::connection::Closer;
use crate::server::ServerObserver;
use rme_session_loop::Backend;
use rme_wire::Names;
use std::alloc::Global;
use std::sync::Wait;
use std::thread::Threads;
use std::time::Clock;

/// Handles the connections of a server, each in a thread of its own.
pub trait ConnectionHandler<T: ServerObserver> {
    // The property of the handler that a caller shows.
    ghost fits: { Self → Type 0 };

    /// The allocator of the connections.
    fn alloc(&self) -> Global;

    /// The names of the locks in refusals.
    fn names(&self) -> &Names;

    /// Whether its server ends. Once true, it stays true.
    fn is_over<R: Wait>(&self, rt: &R) -> bool;

    /// Holds the sessions of a connection and finishes it, or moves it to another thread, which does so.
    fn handle<R: Threads + Wait + Clock + Sync>(&self, rt: &R, connection: AcceptedConnection<T>)
        requires fits { fits self.now };
}

/// Holds one session over each connection, which a backend answers. A fault of the session is not reported: the client
/// sees that the connection is closed.
#[derive(Drop)]
pub(crate) struct SessionHandler<'a, B> {
    pub(crate) backend: &'a B,
}

impl<T: ServerObserver + Copy, B: Backend<Handle = Closer>> ConnectionHandler<T>
    for SessionHandler<'_, B> {
    ghost fits = { λ handler. B.fits handler.backend.now };

    fn alloc(&self) -> Global {
        self.backend.alloc()
    }

    fn names(&self) -> &Names {
        self.backend.names()
    }

    fn is_over<R: Wait>(&self, rt: &R) -> bool {
        self.backend.is_over(rt)
    }

    fn handle<R: Threads + Wait + Clock + Sync>(&self, rt: &R, connection: AcceptedConnection<T>)
        requires fits { B.fits self.now.backend.now }
    {
        let mut connection = connection;
        let _ = connection.hold_session(rt, self.backend);
        connection.finish(rt);
    }
}

//! An accepted connection, for the sessions that are held over it.

ghost use Rattle.std.specs.Prelude.{◌≡◌, IfOk};

use crate::acceptor::Acceptor;
use crate::connection::{Closer, Connection, SharedConnection};
use crate::server::ServerObserver;
use rme_line_diagnose::{DiagnosedReader, Reason, ReasonObserver, Vocabulary};
use rme_session_loop::{
    Backend, Client, CloseHandle, SessionContext, SessionEnd, SessionEvent, answer_lines, session,
};
use rme_wire::{EngineFault, LineReader};
use std::alloc::Global;
use std::sync::{Arc, Wait};
use std::time::Clock;

/// A connection that a server has accepted, with what was read of it and not answered yet. One thread at a time holds
/// its sessions; it may be moved to another thread between two of them. At its end it is given to `finish`.
#[derive(Drop)]
pub struct AcceptedConnection<T> {
    number: u64,
    acceptor: Arc<Acceptor>,
    observer: T,
    lines: ConnectionLines<T>,
    connection: Arc<Connection>,
}

impl<T: ServerObserver + Copy> AcceptedConnection<T> {
    ghost use Rattle.std.specs.Prelude.{◌≡◌, IfOk};

    /// A connection of which nothing was read. `None` if memory was refused.
    pub(crate) fn new(
        alloc: Global,
        acceptor: Arc<Acceptor>,
        number: u64,
        connection: Arc<Connection>,
        observer: T,
    ) -> Option<AcceptedConnection<T>> {
        let shared = SharedConnection {
            connection: Arc::try_clone(&connection).ok()?,
        };
        let bad_lines = ConnectionObserver { observer, number };
        let reader = match acceptor.tells_why() {
            Some(words) => {
                DiagnosedReader::new(alloc, shared, Vocabulary::Orders(words), Some(bad_lines))
            }
            None => DiagnosedReader::new(alloc, shared, Vocabulary::Transcript, None),
        };
        Some(AcceptedConnection {
            number,
            acceptor,
            observer,
            lines: LineReader::new(alloc, reader).ok()?,
            connection,
        })
    }

    /// The number of the connection, which no other connection of the server has.
    pub fn number(&self) -> u64 {
        self.number
    }

    /// Holds a session over the connection, as `session` does. When the backend finishes it, the lines behind the one
    /// that led to that stay for the next session.
    pub fn hold_session<B: Backend<Handle = Closer>, R: Wait + Clock>(
        &mut self,
        rt: &R,
        backend: &B,
    ) -> Result<SessionEnd, EngineFault>
        requires fits { B.fits backend.now }
    {
        let client = ObservedClient {
            connection: &*self.connection,
            number: self.number,
            observer: self.observer,
        };
        run_session(rt, backend, &client, &mut self.lines)
    }

    /// Runs a part of a session over the connection, as `answer_lines` does, from this state of it.
    pub fn answer_lines<B: Backend<Handle = Closer>, R: Wait + Clock>(
        &mut self,
        rt: &R,
        backend: &B,
        first: B::Stand,
    ) -> (B::Stand, Result<SessionEnd, EngineFault>)
        requires fits { B.fits backend.now }
        requires may_hold { B.may_hold backend.now first }
        ensures may_hold { B.may_hold backend.now result.0 }
        ensures finished { IfOk result.1 (λ how. how ≡ SessionEnd.Finished → B.finished backend.now result.0) }
    {
        let client = ObservedClient {
            connection: &*self.connection,
            number: self.number,
            observer: self.observer,
        };
        answer_client(rt, backend, &client, first, &mut self.lines)
    }

    /// Ends a session of the connection, as its backend does.
    pub fn end_session<B: Backend<Handle = Closer>, R: Wait + Clock>(
        &self,
        rt: &R,
        backend: &B,
        last: B::Stand,
    )
        requires fits { B.fits backend.now }
        requires may_hold { B.may_hold backend.now last }
    {
        // If the end could not be logged, the backend is over, which its server finds.
        drop(backend.end_session(rt, last, &self.client()));
    }

    /// The client of the connection's session.
    fn client(&self) -> ObservedClient<'_, T> {
        ObservedClient {
            connection: &*self.connection,
            number: self.number,
            observer: self.observer,
        }
    }

    /// A handle that closes the connection, if one can be had.
    pub fn closer(&self) -> Option<Closer> {
        self.connection.handle()
    }

    /// Ends the connection: no session is held over it any more. It is closed last: once its client sees that, the
    /// connection is no longer counted.
    pub fn finish<R: Wait>(self, rt: &R) {
        self.acceptor.let_go(rt, self.number);
    }
}

/// The lines of a connection.
type ConnectionLines<T> = LineReader<DiagnosedReader<SharedConnection, ConnectionObserver<T>>>;

/// Runs a session of a client, whose connection has these lines.
fn run_session<B: Backend<Handle = Closer>, R: Wait + Clock, T: ServerObserver + Drop>(
    rt: &R,
    backend: &B,
    client: &ObservedClient<'_, T>,
    lines: &mut ConnectionLines<T>,
) -> Result<SessionEnd, EngineFault>
    requires fits { B.fits backend.now }
{
    let mut writer = client.connection;
    session(rt, backend, client, lines, &mut writer)
}

/// Runs a part of a session of a client, whose connection has these lines.
fn answer_client<B: Backend<Handle = Closer>, R: Wait + Clock, T: ServerObserver + Drop>(
    rt: &R,
    backend: &B,
    client: &ObservedClient<'_, T>,
    first: B::Stand,
    lines: &mut ConnectionLines<T>,
) -> (B::Stand, Result<SessionEnd, EngineFault>)
    requires fits { B.fits backend.now }
    requires may_hold { B.may_hold backend.now first }
    ensures may_hold { B.may_hold backend.now result.0 }
    ensures finished { IfOk result.1 (λ how. how ≡ SessionEnd.Finished → B.finished backend.now result.0) }
{
    let mut writer = client.connection;
    let context = SessionContext { backend, client };
    answer_lines(rt, &context, first, lines, &mut writer)
}

/// Reports the bad lines of a connection to the server's observer.
#[derive(Drop)]
struct ConnectionObserver<T> {
    observer: T,
    number: u64,
}

impl<T: ServerObserver> ReasonObserver for ConnectionObserver<T> {
    fn reason_found(&self, line: u64, why: &Reason) {
        self.observer.bad_line(self.number, line, why);
    }
}

/// The client of a connection's session: the connection, its number, and the server's observer.
#[derive(Drop)]
struct ObservedClient<'a, T> {
    connection: &'a Connection,
    number: u64,
    observer: T,
}

impl<T: ServerObserver> Client for ObservedClient<'_, T> {
    type Handle = Closer;

    fn is_gone(&self) -> bool {
        self.connection.is_gone()
    }

    fn handle(&self) -> Option<Closer> {
        self.connection.handle()
    }

    fn observe(&self, event: SessionEvent) {
        self.observer.session_event(Some(self.number), event);
    }
}

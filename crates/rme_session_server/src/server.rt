//! A server: each connection that it accepts is handled in a thread of its own.

use crate::acceptor::{Accepted, Acceptor};
use crate::connection::{Closer, Connection, Listener, Listeners};
use crate::connection_handler::{ConnectionHandler, SessionHandler};
use rme_line_diagnose::Reason;
use rme_line_io::ServeFault;
use rme_session_loop::{Backend, SessionEvent, push_reply_line};
use rme_session_protocol::SessionReply;
use rme_wire::{Names, put_all};
use rme_words::Refusal;
use std::alloc::{AllocError, Global};
use std::io::{Error, ErrorKind};
use std::sync::{Arc, Wait};
use std::thread;
use std::thread::{Builder, Scope, Threads};
use std::time::{Clock, Duration};

/// The stack size in bytes of a session's thread, in which checkpoints are made, of an accepting thread, and of the
/// watching thread. Memory is taken only for what is touched.
const STACK: usize = 524_288;

/// The period of the watching thread, in seconds.
const WATCH_PERIOD: u64 = 1;

/// Observes a server: connections that could not be accepted or served, lines that are no orders, what happens to its
/// workers, and each second.
/// `not_accepted` and `no_thread` should let some time pass, in which other sessions may end.
pub trait ServerObserver {
    /// No connection could be accepted, for this reason.
    fn not_accepted(&self, why: Error);

    /// No thread could be made for a connection, which was closed.
    fn no_thread(&self);

    /// This line of this connection, both counted from 1, is answered `BadLine`, for this reason.
    fn bad_line(&self, connection: u64, line: u64, why: &Reason);

    /// This happened in the course of the session of this connection, or at the start of the server where there is none.
    /// The events of one worker come in their order, and its next order waits meanwhile.
    fn session_event(&self, connection: Option<u64>, event: SessionEvent);

    /// A second passed. The calling thread serves no connection and holds no lock.
    fn second_passed(&self);
}

/// A reference to an observer, which observes as it does.
#[derive(Drop)]
pub struct SharedObserver<'a, T> {
    pub observer: &'a T,
}

impl<T> Clone for SharedObserver<'_, T> {
    fn clone(&self) -> Result<Self, AllocError> {
        Ok(*self)
    }
}

impl<T> Copy for SharedObserver<'_, T> {}

impl<T: ServerObserver> ServerObserver for SharedObserver<'_, T> {
    fn not_accepted(&self, why: Error) {
        self.observer.not_accepted(why);
    }

    fn no_thread(&self) {
        self.observer.no_thread();
    }

    fn bad_line(&self, connection: u64, line: u64, why: &Reason) {
        self.observer.bad_line(connection, line, why);
    }

    fn session_event(&self, connection: Option<u64>, event: SessionEvent) {
        self.observer.session_event(connection, event);
    }

    fn second_passed(&self) {
        self.observer.second_passed();
    }
}

/// Accepts connections from one listener or from two, whose acceptor this is, and holds a session over each in a thread
/// of its own, which the backend answers. It returns when all sessions have ended; the listeners are closed as soon as
/// the last connection was accepted. Once the backend is over, no more are accepted, and all connections are closed,
/// within a second even if no client sends anything.
///
/// The end of one session ends no other, unless the backend is over then. Neither does a connection that can't be
/// accepted or can't have a thread: `trouble` is notified, and the next one is accepted. The error is the first such
/// failure, and is returned at the end. If the second listener's thread can't be had, the error is returned before any
/// connection is accepted.
pub fn serve<
    B: Backend<Handle = Closer> + Sync,
    R: Threads + Wait + Clock + Sync,
    T: ServerObserver + Sync,
>(
    rt: &R,
    listeners: Listeners,
    acceptor: &Arc<Acceptor>,
    trouble: &T,
    backend: &B,
) -> Result<(), ServeFault>
    requires fits { B.fits backend.now }
{
    let handler = SessionHandler { backend };
    let observer = SharedObserver { observer: trouble };
    serve_connections(rt, listeners, acceptor, &observer, &handler)
}

/// Accepts the connections of an acceptor's listeners, and has each handled in a thread of its own, as `serve` does: it
/// returns when no thread handles one any more. A connection that its thread moved elsewhere is then no longer waited
/// for.
pub fn serve_connections<
    H: ConnectionHandler<T> + Sync,
    R: Threads + Wait + Clock + Sync,
    T: ServerObserver + Copy + Send + Sync,
>(
    rt: &R,
    listeners: Listeners,
    acceptor: &Arc<Acceptor>,
    observer: &T,
    handler: &H,
) -> Result<(), ServeFault>
    requires fits { H.fits handler.now }
{
    let server = ServerContext {
        acceptor,
        observer,
        handler,
    };
    let server = &server;
    thread::scope(
        thread::scope_env(),
        rt,
        move |scope| -> Result<(), ServeFault>
            requires fits { H.fits server.now.handler.now }
        {
            let watching = move || watch(rt, server);
            // Without this thread the server still ends, once a session finds that the backend is over.
            let watcher = Builder::new()
                .stack_size(STACK)
                .spawn_scoped(scope, watching);
            let served = accept_all(rt, listeners, server);
            server.acceptor.announce_end(rt);
            if let Ok(watcher) = watcher {
                watcher.join(rt);
            }
            served
        },
    )
}

/// What the threads of a server share: the acceptor, the observer and the handler.
#[derive(Drop)]
struct ServerContext<'a, H, T> {
    acceptor: &'a Arc<Acceptor>,
    observer: &'a T,
    handler: &'a H,
}

/// Accepts the connections of one listener or of two, each listener in a thread of its own. Returns when no thread
/// handles one any more.
fn accept_all<
    H: ConnectionHandler<T> + Sync,
    R: Threads + Wait + Clock + Sync,
    T: ServerObserver + Copy + Send + Sync,
>(rt: &R, listeners: Listeners, server: &ServerContext<'_, H, T>) -> Result<(), ServeFault>
    requires fits { H.fits server.now.handler.now }
{
    let Listeners { first, other } = listeners;
    let Some(other) = other else {
        return accept_loop(rt, first, server);
    };
    thread::scope(
        thread::scope_env(),
        rt,
        move |scope| -> Result<(), ServeFault>
            requires fits { H.fits server.now.handler.now }
        {
            let beside = move || -> Result<(), ServeFault>
                requires fits { H.fits server.now.handler.now }
            { accept_loop(rt, other, server) };
            let Ok(beside) = Builder::new().stack_size(STACK).spawn_scoped(scope, beside) else {
                return Err(ServeFault::NoThread);
            };
            let ended = accept_loop(rt, first, server);
            ended.and(beside.join(rt))
        },
    )
}

/// Reports each second, and closes all connections once the handler is over, until all sessions have ended.
fn watch<H: ConnectionHandler<T>, R: Wait + Clock, T: ServerObserver>(
    rt: &R,
    server: &ServerContext<'_, H, T>,
) {
    for _ in rt.forever() {
        if server
            .acceptor
            .has_ended_within(rt, Duration::from_secs(WATCH_PERIOD))
        {
            return;
        }
        server.observer.second_passed();
        if server.handler.is_over(rt) {
            server.acceptor.close_all(rt);
        }
    }
}

/// Accepts the connections of a listener, until the server's limit is reached or the handler is over. Returns when no
/// thread handles one any more.
fn accept_loop<
    H: ConnectionHandler<T> + Sync,
    R: Threads + Wait + Clock + Sync,
    T: ServerObserver + Copy + Send + Sync,
>(rt: &R, listener: Listener, server: &ServerContext<'_, H, T>) -> Result<(), ServeFault>
    requires fits { H.fits server.now.handler.now }
{
    thread::scope(
        thread::scope_env(),
        rt,
        move |scope| -> Result<(), ServeFault>
            requires fits { H.fits server.now.handler.now }
        { accept_connections(rt, scope, listener, server) },
    )
}

/// Accepts connections, and has each handled in a thread of the scope. The error is the first failure.
fn accept_connections<
    's,
    E,
    H: ConnectionHandler<T> + Sync,
    R: Threads + Wait + Clock + Sync,
    T: ServerObserver + Copy + Send + Sync,
>(
    rt: &'s R,
    scope: &Scope<'s, E>,
    listener: Listener,
    server: &'s ServerContext<'s, H, T>,
) -> Result<(), ServeFault>
    requires fits { H.fits server.now.handler.now }
{
    let mut ended = Ok(());
    for _ in rt.forever() {
        let served = match server.acceptor.accept(rt, &listener) {
            Accepted::Over => return ended,
            Accepted::GivenUp => Ok(()),
            Accepted::Early(client) => {
                reject(server.handler.alloc(), &client, server.handler.names());
                Ok(())
            }
            Accepted::Failed(why) => Err(report_accept_failure(server.observer, why)),
            Accepted::Client(number, client) => start_handling(rt, scope, server, number, client),
        };
        ended = ended.and(served);
    }
    unreachable!()
}

/// Has a connection handled in a thread of the scope.
fn start_handling<
    's,
    E,
    H: ConnectionHandler<T> + Sync,
    R: Threads + Wait + Clock + Sync,
    T: ServerObserver + Copy + Send + Sync,
>(
    rt: &'s R,
    scope: &Scope<'s, E>,
    server: &'s ServerContext<'s, H, T>,
    number: u64,
    client: Connection,
) -> Result<(), ServeFault>
    requires fits { H.fits server.now.handler.now }
{
    let handling = move ||
        requires fits { H.fits server.now.handler.now }
    { handle_connection(rt, server, number, client) };
    match Builder::new()
        .stack_size(STACK)
        .spawn_scoped(scope, handling)
    {
        Ok(_) => Ok(()),
        Err(_) => {
            server.acceptor.count_end();
            server.observer.no_thread();
            Err(ServeFault::NoThread)
        }
    }
}

/// Handles a connection, in a thread of its own. If the handler is over then, all other connections are closed.
fn handle_connection<
    H: ConnectionHandler<T>,
    R: Threads + Wait + Clock + Sync,
    T: ServerObserver + Copy,
>(rt: &R, server: &ServerContext<'_, H, T>, number: u64, client: Connection)
    requires fits { H.fits server.now.handler.now }
{
    if let Some(connection) = Acceptor::admit(
        server.acceptor,
        rt,
        number,
        client,
        *server.observer,
    ) {
        server.handler.handle(rt, connection);
    }
    if server.handler.is_over(rt) {
        server.acceptor.close_all(rt);
    }
}

/// Reports that no connection could be accepted, and answers the fault.
fn report_accept_failure<T: ServerObserver>(trouble: &T, why: Error) -> ServeFault {
    let kind = why.kind();
    trouble.not_accepted(why);
    match kind {
        ErrorKind::OutOfMemory => ServeFault::NoMemory,
        _ => ServeFault::SocketFailed,
    }
}

/// Answers `Busy` to a connection beyond the limit of sessions, before it is closed.
fn reject(alloc: Global, client: &Connection, names: &Names) {
    let mut text = String::new(alloc);
    if push_reply_line(&mut text, names, SessionReply::Refused(Refusal::Busy)).is_ok() {
        let mut writer = client;
        // A failed write is not reported: the client sees that the connection is closed.
        let _ = put_all(&mut writer, text.as_bytes());
    }
    client.end_answers();
}

//! The server of HTTP connections, each in a thread of its own.

use crate::http_connection::HttpConnection;
use crate::pages::Pages;
use std::alloc::Global;
use std::io::Result;
use std::net::{Shutdown, TcpListener, TcpStream};
use std::os::fd::AsFd;
use std::sync::Wait;
use std::sync::atomic::{AtomicU64, Ordering};
use std::thread;
use std::thread::{Builder, Scope, Threads};
use std::time::{Clock, Duration};

/// The most connections at once. A further one is closed.
const MOST_CONNECTIONS: u64 = 32;

/// The stack size in bytes of a connection's thread. Memory is taken only for what is touched.
const STACK: usize = 524_288;

/// The pause in milliseconds after a connection that could not be accepted, so that others can end.
const PAUSE: u64 = 100;

/// A server on one listener, until `stop`.
#[derive(Drop)]
pub struct HttpServer {
    alloc: Global,
    listener: TcpListener,
    /// The listener's socket, for `stop`.
    socket: TcpStream,
    /// Not 0 after `stop`.
    stopped: AtomicU64,
    /// The number of open connections.
    open: AtomicU64,
}

impl HttpServer {
    /// A server of this listener. An error if its socket can't be had again.
    pub fn new(alloc: Global, listener: TcpListener) -> Result<HttpServer> {
        let socket = listener.as_fd().try_clone_to_owned()?;
        Ok(HttpServer {
            alloc,
            listener,
            socket: TcpStream::from(socket),
            stopped: AtomicU64::new(0),
            open: AtomicU64::new(0),
        })
    }

    /// Makes `serve` return, once the open connections have ended. Any thread may call it.
    pub fn stop(&self) {
        self.stopped.store(1, Ordering::SeqCst);
        // On Linux, `shutdown` of a listening socket refuses connections and wakes the accepting thread.
        let _ = self.socket.shutdown(Shutdown::Both);
    }

    /// Accepts connections, and answers one request of each in a thread of its own, until `stop`.
    pub fn serve<P: Pages + Sync, R: Threads + Wait + Clock + Sync>(&self, rt: &R, pages: &P) {
        let server = ServedPages {
            server: self,
            pages,
        };
        let server = &server;
        thread::scope(thread::scope_env(), rt, move |scope| {
            accept_all(rt, scope, server)
        });
    }
}

/// What the threads of a server share.
#[derive(Drop)]
struct ServedPages<'a, P> {
    server: &'a HttpServer,
    pages: &'a P,
}

/// Accepts connections, and has each answered in a thread of the scope.
fn accept_all<'s, E, P: Pages + Sync, R: Threads + Wait + Clock + Sync>(
    rt: &'s R,
    scope: &Scope<'s, E>,
    served: &'s ServedPages<'s, P>,
) {
    for _ in rt.forever() {
        if served.server.stopped.load(Ordering::SeqCst) != 0 {
            return;
        }
        match served.server.listener.accept() {
            Ok((stream, _)) => start_answering(rt, scope, served, stream),
            Err(_) => thread::sleep(rt, Duration::from_millis(PAUSE)),
        }
    }
}

/// Has a connection answered in a thread of the scope. It is closed if it is one too many, or no thread can be had.
fn start_answering<'s, E, P: Pages + Sync, R: Threads + Wait + Clock + Sync>(
    rt: &'s R,
    scope: &Scope<'s, E>,
    served: &'s ServedPages<'s, P>,
    stream: TcpStream,
) {
    let open = &served.server.open;
    if open.fetch_add(1, Ordering::SeqCst) >= MOST_CONNECTIONS {
        open.fetch_sub(1, Ordering::SeqCst);
        return;
    }
    let answering = move || answer_connection(rt, served, stream);
    if Builder::new()
        .stack_size(STACK)
        .spawn_scoped(scope, answering)
        .is_err()
    {
        open.fetch_sub(1, Ordering::SeqCst);
    }
}

/// Answers the request of a connection, in a thread of its own.
fn answer_connection<P: Pages, R: Threads + Wait + Clock + Sync>(
    rt: &R,
    served: &ServedPages<'_, P>,
    stream: TcpStream,
) {
    if let Some(connection) = HttpConnection::new(rt, stream) {
        // A client that is slow or gone gets no answer, and nobody else is to know of it.
        let _ = connection.answer(rt, served.server.alloc, served.pages);
    }
    served.server.open.fetch_sub(1, Ordering::SeqCst);
}

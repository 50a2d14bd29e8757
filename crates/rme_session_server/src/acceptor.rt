//! The acceptor of a server: its limits, its counts, and its open connections.

use crate::accepted_connection::AcceptedConnection;
use crate::connection::{Closer, Connection, Listener, Listeners};
use crate::open_connections::OpenConnections;
use crate::server::ServerObserver;
use rme_line_diagnose::SessionWords;
use rme_line_io::ServeFault;
use std::alloc::Global;
use std::io::{Error, ErrorKind};
use std::sync::atomic::{AtomicU64, Ordering};
use std::sync::{Arc, Condvar, Mutex, Wait};
use std::time::{Clock, Duration};

/// The limits of a server, over all its listeners.
#[derive(Clone, Copy)]
pub struct ServerLimits {
    /// The number of connections that are accepted, rejected ones included; with `None` there is no limit.
    pub connections: Option<u32>,
    /// The number of sessions that run at a time. A further connection is answered `Busy` and closed.
    pub at_once: u32,
    /// The number of seconds after which the session of a silent client ends; `None` for no limit. Not 0.
    pub idle: Option<u32>,
    /// The words of a session's lines, if the observer gets the reason of each line that is answered `BadLine`.
    pub tells_why: Option<SessionWords>,
}

/// The outcome of one `accept`.
#[derive(Drop)]
pub(crate) enum Accepted {
    /// A connection for a session, which is already counted as running, and the connection's number.
    Client(u64, Connection),
    /// A connection while the number of sessions is at its limit.
    Early(Connection),
    /// No connection: it was closed before it could be accepted, or the call was interrupted.
    GivenUp,
    /// No connection: `accept` failed.
    Failed(Error),
    /// No connection: no more are accepted.
    Over,
}

/// What the listeners and the connections of a server share: the limits, the counts, and the open connections.
#[derive(Drop)]
pub struct Acceptor {
    limits: ServerLimits,
    alloc: Global,
    /// The number of accepted connections.
    taken: AtomicU64,
    /// The number of running sessions.
    running: AtomicU64,
    /// The connections of the running sessions.
    connections: OpenConnections,
    /// The closers of the listeners.
    closers: (Closer, Option<Closer>),
    /// Whether all sessions have ended, and no more will begin.
    has_ended: Mutex<bool>,
    /// Notified when `has_ended` becomes true.
    ended: Condvar,
}

impl Acceptor {
    /// An acceptor of the connections of these listeners, for one call of `serve_connections`. An error if a listener's
    /// closer can't be had.
    pub fn new(
        alloc: Global,
        listeners: &Listeners,
        limits: ServerLimits,
    ) -> Result<Arc<Acceptor>, ServeFault> {
        let acceptor = Acceptor {
            limits,
            alloc,
            taken: AtomicU64::new(0),
            running: AtomicU64::new(0),
            connections: OpenConnections::new(alloc),
            closers: closers_of(listeners)?,
            has_ended: Mutex::new(false),
            ended: Condvar::new(),
        };
        match Arc::new(alloc, acceptor) {
            Ok(acceptor) => Ok(acceptor),
            Err(_) => Err(ServeFault::NoMemory),
        }
    }

    /// Waits until all sessions have ended, at most this long. Answers whether they have.
    pub(crate) fn has_ended_within<R: Wait + Clock>(&self, rt: &R, most: Duration) -> bool {
        let has_ended = self.has_ended.lock(rt);
        let (has_ended, _) = self
            .ended
            .wait_timeout_while(rt, has_ended, most, |has_ended| !*has_ended);
        *has_ended
    }

    /// Wakes and ends the watching thread: all sessions have ended.
    pub(crate) fn announce_end<R: Wait>(&self, rt: &R) {
        *self.has_ended.lock(rt) = true;
        self.ended.notify_all();
    }

    /// Waits for the next connection of a listener.
    pub(crate) fn accept<R: Wait>(&self, rt: &R, listener: &Listener) -> Accepted {
        if self.is_over(rt) {
            return Accepted::Over;
        }
        let client = match listener.accept() {
            Ok(client) => client,
            Err(why) => return self.accept_failure(rt, why),
        };
        let Some(number) = self.count_connection() else {
            return Accepted::Over;
        };
        client.set_limits(self.limits.idle);
        if self.running.fetch_add(1, Ordering::SeqCst) >= u64::from(self.limits.at_once) {
            self.count_end();
            return Accepted::Early(client);
        }
        Accepted::Client(number, client)
    }

    /// The connection of this number, which is counted as running, for its sessions. If no more are added, or there is no
    /// memory for it, it is closed and counted as ended, and the answer is `None`.
    pub(crate) fn admit<T: ServerObserver + Copy, R: Wait>(
        this: &Arc<Acceptor>,
        rt: &R,
        number: u64,
        client: Connection,
        observer: T,
    ) -> Option<AcceptedConnection<T>> {
        let Some(connection) = this.connections.add(rt, this.alloc, number, client) else {
            this.count_end();
            return None;
        };
        let admitted = match Arc::try_clone(this) {
            Ok(own) => AcceptedConnection::new(this.alloc, own, number, connection, observer),
            Err(_) => None,
        };
        if admitted.is_none() {
            this.let_go(rt, number);
        }
        admitted
    }

    /// Counts the connection of this number as ended, which `admit` has added.
    pub(crate) fn let_go<R: Wait>(&self, rt: &R, number: u64) {
        self.connections.remove(rt, number);
        self.count_end();
    }

    /// Counts a session as ended that has no open connection.
    pub(crate) fn count_end(&self) {
        self.running.fetch_sub(1, Ordering::SeqCst);
    }

    /// The words of a session's lines, if the observer gets the reason of each line that is answered `BadLine`.
    pub(crate) fn tells_why(&self) -> Option<SessionWords> {
        self.limits.tells_why
    }

    /// Whether the limit of connections is reached, or no more are added.
    fn is_over<R: Wait>(&self, rt: &R) -> bool {
        match self.limits.connections {
            Some(most) if self.taken.load(Ordering::SeqCst) >= u64::from(most) => true,
            _ => self.connections.is_over(rt),
        }
    }

    /// Counts one more connection, and answers its number, or `None` beyond the limit. With the last one the listeners
    /// are closed.
    fn count_connection(&self) -> Option<u64> {
        let number = self.taken.fetch_add(1, Ordering::SeqCst).saturating_add(1);
        match self.limits.connections {
            Some(most) if number > u64::from(most) => return None,
            Some(most) if number == u64::from(most) => self.close_listeners(),
            _ => {}
        }
        Some(number)
    }

    /// Closes the listeners, which wakes the threads that wait in `accept`.
    fn close_listeners(&self) {
        let (closer, other) = &self.closers;
        closer.shut_down();
        if let Some(other) = other {
            other.shut_down();
        }
    }

    /// Accepts no more connections, closes the listeners, and then closes all connections: a client that reconnects
    /// then finds no listener.
    pub(crate) fn close_all<R: Wait>(&self, rt: &R) {
        if self.connections.stop_adding(rt) {
            self.close_listeners();
            self.connections.close_all(rt);
        }
    }

    /// The outcome of an `accept` that failed.
    fn accept_failure<R: Wait>(&self, rt: &R, why: Error) -> Accepted {
        if self.is_over(rt) {
            return Accepted::Over;
        }
        match why.kind() {
            ErrorKind::ConnectionAborted | ErrorKind::Interrupted => Accepted::GivenUp,
            _ => Accepted::Failed(why),
        }
    }
}

/// The closers of these listeners.
fn closers_of(listeners: &Listeners) -> Result<(Closer, Option<Closer>), ServeFault> {
    let closer = closer_of(&listeners.first)?;
    match &listeners.other {
        Some(other) => Ok((closer, Some(closer_of(other)?))),
        None => Ok((closer, None)),
    }
}

fn closer_of(listener: &Listener) -> Result<Closer, ServeFault> {
    match listener.closer() {
        Ok(closer) => Ok(closer),
        Err(_) => Err(ServeFault::SocketFailed),
    }
}

//! Connections of clients and their listeners, over TCP and over Unix sockets.

use rme_session_loop::{Client, CloseHandle};
use std::io::{ErrorKind, Read, Result, Write};
use std::net::{Shutdown, TcpListener, TcpStream};
use std::os::fd::{AsFd, OwnedFd};
use std::os::unix::net::UnixListener;
use std::sync::Arc;
use std::time::Duration;

/// The longest time, in seconds, in which a client may take no byte of its answers. Then its session ends.
const DEAF: u32 = 10;

/// A client's connection. One thread reads and writes it; any thread may close it.
///
/// The system calls are the same for a Unix socket as for TCP, so both are held as a `TcpStream`: std's `UnixStream`
/// cannot peek.
#[derive(Drop)]
pub struct Connection {
    stream: TcpStream,
}

impl Connection {
    ghost use Rattle.std.specs.Io.{WritesAtMost};

    /// Sets the write timeout, and the read timeout of this number of seconds if there is one. Also turns Nagle's delay
    /// off.
    pub fn set_limits(&self, idle: Option<u32>) {
        // A socket that refuses a limit is served without it.
        let _ = self.stream.set_write_timeout(Some(Duration::from_secs(1)));
        if let Some(seconds) = idle {
            let limit = Duration::from_secs(u64::from(seconds));
            let _ = self.stream.set_read_timeout(Some(limit));
        }
        // A Unix socket has no such option, and delays no answer.
        let _ = self.stream.set_nodelay(true);
    }

    /// Shuts down the sending side; the client's data can still be read.
    pub fn end_answers(&self) {
        let _ = self.stream.shutdown(Shutdown::Write);
    }

    /// Closes the connection, from any thread: a thread that reads or writes it, or waits to, gets what there was and
    /// then its end.
    pub(crate) fn end(&self) {
        let _ = self.stream.shutdown(Shutdown::Both);
    }

    /// Writes some of the bytes, once the client has taken some of the earlier ones. An error if it takes none for
    /// `DEAF` seconds.
    ///
    /// The socket's timeout of one second holds for one call, which ends early if the client took some bytes meanwhile.
    /// So each call that times out counts as one second without progress.
    fn write_some(&self, bytes: &[u8]) -> Result<usize>
        ensures bound { WritesAtMost result bytes.now }
    {
        let mut stream = &self.stream;
        for _ in 1..DEAF {
            match stream.write(bytes) {
                Err(error) if error.kind() == ErrorKind::WouldBlock => {}
                written => return written,
            }
        }
        stream.write(bytes)
    }
}

/// While there are bytes to read, a client that has closed its side is not found to be gone; one that has reset the
/// connection is.
impl Client for Connection {
    type Handle = Closer;

    /// Whether nothing more can come: the client has closed the connection or its sending side, or has reset it, or it
    /// was closed here. It consumes no byte and does not block.
    ///
    /// Only the thread that reads and writes the connection may call this: the socket is non-blocking meanwhile.
    fn is_gone(&self) -> bool {
        if !matches!(self.stream.take_error(), Ok(None)) {
            return true;
        }
        if self.stream.set_nonblocking(true).is_err() {
            return true;
        }
        let peeked = self.stream.peek(&mut [0]);
        if self.stream.set_nonblocking(false).is_err() {
            return true;
        }
        match peeked {
            Ok(count) => count == 0,
            Err(error) => !matches!(error.kind(), ErrorKind::WouldBlock | ErrorKind::Interrupted),
        }
    }

    fn handle(&self) -> Option<Closer> {
        let socket = self.stream.as_fd().try_clone_to_owned().ok()?;
        Some(Closer {
            socket: TcpStream::from(socket),
        })
    }
}

impl Read for &Connection {
    fn read(&mut self, buf: &mut [u8]) -> Result<usize> {
        let mut stream = &self.stream;
        stream.read(buf)
    }
}

impl Write for &Connection {
    fn write(&mut self, buf: &[u8]) -> Result<usize> {
        self.write_some(buf)
    }

    fn flush(&mut self) -> Result<()> {
        Ok(())
    }
}

/// A connection that the list of open connections has too. It is closed once both let it go.
#[derive(Drop)]
pub(crate) struct SharedConnection {
    pub(crate) connection: Arc<Connection>,
}

impl Read for SharedConnection {
    fn read(&mut self, buf: &mut [u8]) -> Result<usize> {
        let mut stream = &self.connection.stream;
        stream.read(buf)
    }
}

/// A listening socket.
#[derive(Drop)]
pub enum Listener {
    Tcp(TcpListener),
    Unix(UnixListener),
}

impl Listener {
    /// Waits for the next connection.
    pub(crate) fn accept(&self) -> Result<Connection> {
        match self {
            Listener::Tcp(listener) => {
                let (stream, _) = listener.accept()?;
                Ok(Connection { stream })
            }
            Listener::Unix(listener) => {
                let (stream, _) = listener.accept()?;
                Ok(Connection {
                    stream: TcpStream::from(OwnedFd::from(stream)),
                })
            }
        }
    }

    /// The closer of this listener, for use while a thread waits in `accept`.
    pub(crate) fn closer(&self) -> Result<Closer> {
        let socket = match self {
            Listener::Tcp(listener) => listener.as_fd().try_clone_to_owned()?,
            Listener::Unix(listener) => listener.as_fd().try_clone_to_owned()?,
        };
        Ok(Closer {
            socket: TcpStream::from(socket),
        })
    }
}

/// The listeners of a server: one, or two.
#[derive(Drop)]
pub struct Listeners {
    pub first: Listener,
    pub other: Option<Listener>,
}

/// Closes a listener or a connection from another thread.
#[derive(Drop)]
pub struct Closer {
    socket: TcpStream,
}

impl Closer {
    /// Closes the socket. A thread that waits in `accept` gets an error, and no more connections come. A thread that
    /// reads or writes a connection, or waits to, gets what there was and then its end.
    pub(crate) fn shut_down(&self) {
        // On Linux, `shutdown` of a listening socket refuses connections and wakes the accepting thread.
        let _ = self.socket.shutdown(Shutdown::Both);
    }
}

impl CloseHandle for Closer {
    fn close(&self) {
        self.shut_down();
    }
}

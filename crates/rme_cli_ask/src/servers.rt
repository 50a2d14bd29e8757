//! The servers of which one is asked: the first that lets this client in.

use crate::connect::{connect, shown_address};
use crate::refusals::BUSY;
use rme_ask_client::{ClientError, ClientRequest, Conversation, ServerAnswer};
use rme_cli_messages::{BadArgument, CliFault};
use rme_cli_options::ServerAddress;
use std::alloc::{AllocError, Global};
use std::net::TcpStream;
use std::time::Duration;
use std::{fmt, io};

/// The time in which all of several servers are tried, in milliseconds.
const ALL_TRIES: u64 = 10_000;

/// The least time in which one of several servers is tried, in milliseconds.
const ONE_TRY: u64 = 500;

/// Why one of several servers does not let this client in.
#[derive(Drop)]
enum TryFault {
    /// It cannot be connected to.
    NotConnected(io::Error),
    /// It has as many sessions as it may have.
    Full,
    /// It does not answer.
    NotAnswered(ClientError),
    NoMemory,
}

impl fmt::Display for TryFault {
    fn fmt<W: fmt::Write>(&self, f: &mut fmt::Formatter<W>) -> fmt::Result {
        match self {
            TryFault::NotConnected(why) => write!(f, "{why}"),
            TryFault::Full => f.write_str("it has as many sessions as it may have"),
            TryFault::NotAnswered(ClientError::NotReceived) => f.write_str("it does not answer"),
            TryFault::NotAnswered(why) => write!(f, "{why}"),
            TryFault::NoMemory => f.write_str("no memory"),
        }
    }
}

impl From<io::Error> for TryFault {
    fn from(error: io::Error) -> TryFault {
        match error.kind() {
            io::ErrorKind::OutOfMemory => TryFault::NoMemory,
            _ => TryFault::NotConnected(error),
        }
    }
}

impl From<AllocError> for TryFault {
    fn from(_refused: AllocError) -> TryFault {
        TryFault::NoMemory
    }
}

/// Connects to the first of these servers that lets this client in.
///
/// A single server does so if it can be connected to. Several are servers over one log, of which one leads. The others
/// refuse connections or answer nothing, so each must also answer a ping, and not by `Busy`.
pub(crate) fn connect_first(
    rt: &HostRuntime,
    servers: &[ServerAddress],
) -> Result<TcpStream, CliFault> {
    if servers.iter().any(has_no_path) {
        return Err(CliFault::BadArguments(BadArgument::NoFile("--socket")));
    }
    match servers.split_first() {
        Some((server, others)) if others.is_empty() => connect_only(rt, server),
        _ => connect_in_turn(rt, servers),
    }
}

/// Whether an address is a socket whose path is empty.
fn has_no_path(server: &ServerAddress) -> bool {
    match server {
        ServerAddress::Port(_) => false,
        ServerAddress::Socket(path) => path.is_empty(),
    }
}

fn connect_only(rt: &HostRuntime, server: &ServerAddress) -> Result<TcpStream, CliFault> {
    match connect(rt, server, None) {
        Ok(stream) => Ok(stream),
        Err(why) => {
            let kind = why.kind();
            let place = shown_address(rt.alloc(), server)?;
            Err(CliFault::on_file(kind, CliFault::ConnectFailed(place, why)))
        }
    }
}

fn connect_in_turn(rt: &HostRuntime, servers: &[ServerAddress]) -> Result<TcpStream, CliFault> {
    let limit = share_of(servers.len());
    let mut tries = String::new(rt.alloc());
    for server in servers {
        match try_server(rt, server, limit) {
            Ok(stream) => return Ok(stream),
            Err(TryFault::NoMemory) => return Err(CliFault::NoMemory),
            Err(why) => {
                let place = shown_address(rt.alloc(), server)?;
                write!(tries, "\n  {place}: {why}")?;
            }
        }
    }
    Err(CliFault::NoServer(tries))
}

/// The time in which one of this number of servers is tried.
fn share_of(count: usize) -> Duration {
    let share = ALL_TRIES / (count as u64).max(1);
    Duration::from_millis(share.max(ONE_TRY))
}

/// Connects to a server that lets this client in within this time.
fn try_server(
    rt: &HostRuntime,
    server: &ServerAddress,
    limit: Duration,
) -> Result<TcpStream, TryFault> {
    let stream = connect(rt, server, Some(limit))?;
    stream.set_read_timeout(Some(limit))?;
    ping(rt.alloc(), &stream)?;
    // From now on an answer may take as long as that of a single server.
    stream.set_read_timeout(None)?;
    Ok(stream)
}

/// Has the server answer a ping. Any refusal but `Busy` is an answer too.
fn ping(alloc: Global, stream: &TcpStream) -> Result<(), TryFault> {
    let mut talk = Conversation::new(alloc, stream, stream)?;
    match talk.ask(ClientRequest::Ping) {
        Ok(ServerAnswer::Refused(refused)) if refused.code == BUSY => Err(TryFault::Full),
        Ok(_) => Ok(()),
        Err(ClientError::NoMemory) => Err(TryFault::NoMemory),
        Err(why) => Err(TryFault::NotAnswered(why)),
    }
}

//! Connecting to a server.

use rme_cli_messages::escape_controls;
use rme_cli_options::ServerAddress;
use std::alloc::{AllocError, Global};
use std::io;
use std::net::{Ipv4Addr, SocketAddr, SocketAddrV4, TcpStream};
use std::os::fd::OwnedFd;
use std::os::unix::net::UnixStream;
use std::time::Duration;

/// Connects to the server of this address, at a port within this time if one is given.
///
/// The system calls are the same for a Unix socket as for TCP, so both are held as a `TcpStream`.
pub(crate) fn connect(
    rt: &HostRuntime,
    server: &ServerAddress,
    limit: Option<Duration>,
) -> io::Result<TcpStream> {
    let stream = match server {
        ServerAddress::Port(port) => connect_to(rt, *port, limit)?,
        ServerAddress::Socket(path) => connect_at(rt, path.as_str())?,
    };
    // A request waits for no other bytes; a Unix socket has no such option.
    let _ = stream.set_nodelay(true);
    Ok(stream)
}

fn connect_to(rt: &HostRuntime, port: u16, limit: Option<Duration>) -> io::Result<TcpStream> {
    let address = SocketAddr::V4(SocketAddrV4::new(Ipv4Addr::LOCALHOST, port));
    match limit {
        Some(limit) => TcpStream::connect_timeout(rt, &address, limit),
        None => TcpStream::connect(rt, address),
    }
}

fn connect_at(rt: &HostRuntime, path: &str) -> io::Result<TcpStream> {
    Ok(TcpStream::from(OwnedFd::from(UnixStream::connect(rt, path)?)))
}

/// An address as a text shows it.
pub(crate) fn shown_address(alloc: Global, server: &ServerAddress) -> Result<String, AllocError> {
    match server {
        ServerAddress::Port(port) => format!(in alloc; "port {port}"),
        ServerAddress::Socket(path) => escape_controls(alloc, path.as_str()),
    }
}

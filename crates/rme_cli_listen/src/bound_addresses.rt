//! The addresses of a server: a port of this machine, a Unix socket, or both.

use crate::socket::{SocketFile, listen_at, remove};
use rme_cli_messages::{CliFault, escape_controls};
use rme_cli_options::ListenAddresses;
use rme_session_server::{Acceptor, Listener, Listeners, ServerLimits};
use std::alloc::{AllocError, Global};
use std::io;
use std::io::ErrorKind;
use std::net::{Ipv4Addr, SocketAddr, SocketAddrV4, TcpListener};
use std::sync::Arc;

/// The addresses at which a server can be reached.
#[derive(Drop)]
pub struct BoundAddresses {
    port: Option<u16>,
    file: Option<SocketFile>,
}

impl BoundAddresses {
    /// Prints a line for each address, the port first.
    pub fn print(&self, rt: &HostRuntime) -> Result<(), CliFault> {
        match self.try_print(rt) {
            Ok(()) => Ok(()),
            Err(_) => Err(CliFault::WriteFailed),
        }
    }

    fn try_print(&self, rt: &HostRuntime) -> io::Result<()> {
        if let Some(port) = self.port {
            println!(rt; "listening {port}")?;
        }
        if let Some(file) = &self.file {
            let path = file.path();
            println!(rt; "listening {path}")?;
        }
        Ok(())
    }

    /// The addresses, as a fault names them.
    pub fn text(&self, alloc: Global) -> Result<String, AllocError> {
        match (self.port, &self.file) {
            (Some(port), None) => port_text(alloc, port),
            (None, Some(file)) => escape_controls(alloc, file.path()),
            (Some(port), Some(file)) => {
                let path = escape_controls(alloc, file.path())?;
                format!(in alloc; "port {port} and {path}")
            }
            (None, None) => Ok(String::new(alloc)),
        }
    }

    /// Removes the server's files.
    pub fn clear(&self, rt: &HostRuntime) {
        if let Some(file) = &self.file {
            remove(rt, file);
        }
    }
}

/// The addresses of a server that listens, and the acceptor of its listeners.
#[derive(Drop)]
pub struct BoundServer {
    pub addresses: BoundAddresses,
    pub acceptor: Arc<Acceptor>,
}

/// Listens on the requested addresses, for a server with these limits. After an error the server has no file.
pub fn listen(
    rt: &HostRuntime,
    places: ListenAddresses,
    limits: ServerLimits,
) -> Result<(Listeners, BoundServer), CliFault> {
    let (listeners, addresses) = bind_all(rt, places)?;
    match Acceptor::new(rt.alloc(), &listeners, limits) {
        Ok(acceptor) => {
            let bound = BoundServer {
                addresses,
                acceptor,
            };
            Ok((listeners, bound))
        }
        Err(fault) => {
            addresses.clear(rt);
            Err(CliFault::of_serving(fault, addresses.text(rt.alloc())?))
        }
    }
}

/// Listens on the requested addresses.
fn bind_all(
    rt: &HostRuntime,
    places: ListenAddresses,
) -> Result<(Listeners, BoundAddresses), CliFault> {
    match places {
        ListenAddresses::Port(port) => {
            let (listener, port) = listen_on(rt, port)?;
            Ok((one(listener), bound_to(Some(port), None)))
        }
        ListenAddresses::Socket(path) => {
            let (listener, file) = listen_at(rt, path)?;
            Ok((one(Listener::Unix(listener)), bound_to(None, Some(file))))
        }
        ListenAddresses::Both(port, path) => {
            let (first, port) = listen_on(rt, port)?;
            let (other, file) = listen_at(rt, path)?;
            let listeners = Listeners {
                first,
                other: Some(Listener::Unix(other)),
            };
            Ok((listeners, bound_to(Some(port), Some(file))))
        }
    }
}

/// A single listener.
fn one(first: Listener) -> Listeners {
    Listeners { first, other: None }
}

fn bound_to(port: Option<u16>, file: Option<SocketFile>) -> BoundAddresses {
    BoundAddresses { port, file }
}

/// Listens on a port, only for clients of this machine, and answers it; for 0 it is a free one.
fn listen_on(rt: &HostRuntime, port: u16) -> Result<(Listener, u16), CliFault> {
    let listener = match bind_port(rt, port) {
        Ok(listener) => listener,
        Err(error) => return Err(listen_failed(rt, port, error)?),
    };
    match listener.local_addr() {
        Ok(address) => Ok((Listener::Tcp(listener), address.port())),
        Err(error) => Err(listen_failed(rt, port, error)?),
    }
}

/// A listener with the longest backlog that the system allows, since many clients may connect at once. std's has 128.
fn bind_port(rt: &HostRuntime, port: u16) -> io::Result<TcpListener> {
    let address = SocketAddr::V4(SocketAddrV4::new(Ipv4Addr::LOCALHOST, port));
    let listener = TcpListener::from(mio::net::TcpListener::bind(rt, address)?);
    listener.set_nonblocking(false)?;
    Ok(listener)
}

/// The fault if a port cannot be listened on for this reason.
fn listen_failed(rt: &HostRuntime, port: u16, why: io::Error) -> Result<CliFault, AllocError> {
    if why.kind() == ErrorKind::OutOfMemory {
        return Ok(CliFault::NoMemory);
    }
    let place = port_text(rt.alloc(), port)?;
    Ok(CliFault::ListenFailed(place, why))
}

fn port_text(alloc: Global, port: u16) -> Result<String, AllocError> {
    format!(in alloc; "port {port}")
}

//! The port of `--http`.

use rme_cli_messages::CliFault;
use rme_http::{HttpServer, Pages};
use std::io;
use std::io::ErrorKind;
use std::net::{Ipv4Addr, TcpListener};
use std::sync::Wait;
use std::thread::Threads;
use std::time::Clock;

/// The HTTP port of a server, on 127.0.0.1.
#[derive(Drop)]
pub struct HttpPort {
    server: HttpServer,
    port: u16,
}

impl HttpPort {
    /// Listens on this port, only for clients of this machine; for 0 it is a free one. Nothing for `None`.
    pub fn listen(rt: &HostRuntime, port: Option<u16>) -> Result<Option<HttpPort>, CliFault> {
        let Some(port) = port else {
            return Ok(None);
        };
        match bind(rt, port) {
            Ok(bound) => Ok(Some(bound)),
            Err(error) if error.kind() == ErrorKind::OutOfMemory => Err(CliFault::NoMemory),
            Err(error) => {
                let place = format!(in rt.alloc(); "port {port}")?;
                Err(CliFault::ListenFailed(place, error))
            }
        }
    }

    /// Prints its line, as `http 9100`.
    pub fn print(&self, rt: &HostRuntime) -> Result<(), CliFault> {
        let port = self.port;
        match println!(rt; "http {port}") {
            Ok(()) => Ok(()),
            Err(_) => Err(CliFault::WriteFailed),
        }
    }

    /// Serves these pages, each request in a thread of its own, until `stop`.
    pub fn serve<P: Pages + Sync, R: Threads + Wait + Clock + Sync>(&self, threads: &R, pages: &P) {
        self.server.serve(threads, pages);
    }

    /// Makes `serve` return, once the open connections have ended. Any thread may call it.
    pub fn stop(&self) {
        self.server.stop();
    }
}

fn bind(rt: &HostRuntime, port: u16) -> io::Result<HttpPort> {
    let listener = TcpListener::bind(rt, (Ipv4Addr::LOCALHOST, port))?;
    let port = listener.local_addr()?.port();
    Ok(HttpPort {
        server: HttpServer::new(rt.alloc(), listener)?,
        port,
    })
}

//! A server on a port of this machine.

use crate::responses::{FakePages, METRICS};
use rme_http::HttpServer;
use std::io::Write;
use std::net::{Ipv4Addr, Net, TcpListener, TcpStream};
use std::test::Fail;
use std::{io, thread};

/// What a server on this port answers.
fn ask<R: Net<Stream = TcpStream> + AllocGlobal>(rt: &R, port: u16) -> io::Result<String> {
    let mut stream = TcpStream::connect(rt, (Ipv4Addr::LOCALHOST, port))?;
    stream.write_all(b"GET /metrics HTTP/1.1\r\n".as_slice())?;
    stream.write_all(b"Host: localhost\r\n\r\n".as_slice())?;
    io::read_to_string(rt.alloc(), stream)
}

#[test]
fn a_server_answers_until_it_is_stopped(rt: HostRuntime) -> Result<(), Fail> {
    let listener = TcpListener::bind(&rt, (Ipv4Addr::LOCALHOST, 0))?;
    let port = listener.local_addr()?.port();
    let server = HttpServer::new(rt.alloc(), listener)?;
    let pages = FakePages {
        alloc: rt.alloc(),
        healthy: true,
    };
    let heard = thread::scope(thread::scope_env(), &rt, |scope| {
        let serving = scope.spawn(|| server.serve(&rt, &pages));
        let heard = ask(&rt, port);
        server.stop();
        if let Ok(serving) = serving {
            serving.join(&rt);
        }
        heard
    })?;
    assert_eq!(rt; heard.as_str(), METRICS);
    Ok(())
}
